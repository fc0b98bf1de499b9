//! Cutting raw images: published pieces, by each of the calls that cut.

use crate::expanding::expanded;
use abt_io::{DeviceFault, Meter, SliceOutput, SliceSource, Window};
use abt_pieces::{Cutter, Piece, PieceFault, PieceProgress};
use abt_placed::next_piece_at;
use abt_runs::RawRuns;
use mem_devices::{Cut, Faulty, Long};
use mem_test_data::counting::Counting;
use mem_test_data::vectors::{MIXED, MIXED_FIRST, MIXED_SECOND};
use std::test::Fail;

const FIRST: Piece = Piece {
    first: 0,
    past: 2,
    written: 2,
    bytes: 76,
};

const SECOND: Piece = Piece {
    first: 2,
    past: 3,
    written: 1,
    bytes: 60,
};

#[test]
fn a_raw_image_is_cut_into_two_pieces(rt: HostRuntime) -> Result<(), Fail> {
    let mut source = Cut::new(SliceSource::new(&MIXED), 3);
    let mut w = Window::new();
    let mut m = Meter::new();
    let mut cutter = Cutter::open(RawRuns::open(&source, 8)?, 88)?;
    let mut room = [0; 200];
    let mut output = SliceOutput::new(&mut room);
    assert!(rt; cutter.next_piece(&mut source, &mut output, &mut w, &mut m)? == Some(FIRST));
    assert!(rt; output.written() == MIXED_FIRST.as_slice());
    assert!(rt; cutter.next_piece(&mut source, &mut output, &mut w, &mut m)? == Some(SECOND));
    assert!(rt; output.written().ends_with(&MIXED_SECOND));
    assert!(rt; !cutter.more());
    assert!(rt; cutter.next_piece(&mut source, &mut output, &mut w, &mut m)? == None);
    Ok(())
}

type Answer = Result<[Option<Piece>; 3], PieceFault>;

/// Both pieces, and that there is no other.
const PIECES: Answer = Ok([Some(FIRST), Some(SECOND), None]);

/// Whether both pieces are stored, one after the other, and nothing after them.
fn both_stand(room: &[u8; 200]) -> bool {
    room.starts_with(&MIXED_FIRST)
        && room[76..].starts_with(&MIXED_SECOND)
        && room[136..] == [0; 64]
}

/// Passing over the first piece, and then the second in steps.
#[test]
fn a_piece_is_passed_over_and_the_next_cut_in_steps(rt: HostRuntime) -> Result<(), Fail> {
    let mut source = Long::new(SliceSource::new(&MIXED), 18);
    let mut w = Window::new();
    let mut m = Meter::new();
    let mut cutter = Cutter::open(RawRuns::open(&source, 8)?, 88)?;
    let mut room = [0; 100];
    let mut output = SliceOutput::new(&mut room);
    assert!(rt; cutter.skip_piece(&mut source, &mut w, &mut m)? == Some(FIRST));
    let mut progress = PieceProgress::More;
    for _ in 0..32 {
        if progress == PieceProgress::More {
            progress = cutter.step(&mut source, &mut output, &mut w, &mut m)?;
        }
    }
    assert!(rt; progress == PieceProgress::Piece(SECOND));
    assert!(rt; output.written() == MIXED_SECOND.as_slice());
    assert!(rt; cutter.step(&mut source, &mut output, &mut w, &mut m)? == PieceProgress::End);
    Ok(())
}

/// The result of calls that cut one piece each in one pass, where written bytes can be overwritten; and how many
/// bytes the first of them read.
fn cut_at(room: &mut [u8; 200], handed: &mut u64) -> Answer {
    let mut source = Counting::new(SliceSource::new(&MIXED));
    let mut output = Cut::new(SliceOutput::new(room), 5);
    let mut w = Window::new();
    let mut m = Meter::new();
    let runs = match RawRuns::open(&source, 8) {
        Ok(runs) => runs,
        Err(_) => return Err(PieceFault::TooLarge),
    };
    let mut cutter = Cutter::open(runs, 88)?;
    let first = next_piece_at(&mut cutter, &mut source, &mut output, &mut w, &mut m)?;
    *handed = source.handed;
    let second = next_piece_at(&mut cutter, &mut source, &mut output, &mut w, &mut m)?;
    let third = next_piece_at(&mut cutter, &mut source, &mut output, &mut w, &mut m)?;
    Ok([first, second, third])
}

/// Each byte is read once, and at most a window again for each piece.
#[test]
fn the_pieces_are_cut_in_one_pass(rt: HostRuntime) {
    let mut room = [0; 200];
    let mut handed = 0;
    assert!(rt; cut_at(&mut room, &mut handed) == PIECES);
    assert!(rt; both_stand(&room) && handed == 18);
}

/// Writes the first piece in one pass, three bytes in a call, where write `n` fails, at 0 none: how many bytes are
/// written.
fn placed(n: u64, room: &mut [u8; 107]) -> (Result<Option<Piece>, PieceFault>, usize) {
    let mut source = SliceSource::new(&MIXED);
    let mut output = Faulty::new(Cut::new(SliceOutput::new(room), 3), n);
    let mut w = Window::new();
    let mut m = Meter::new();
    let runs = match RawRuns::open(&source, 8) {
        Ok(runs) => runs,
        Err(_) => return (Err(PieceFault::TooLarge), 0),
    };
    let mut cutter = match Cutter::open(runs, 88) {
        Ok(cutter) => cutter,
        Err(fault) => return (Err(fault), 0),
    };
    let answer = next_piece_at(&mut cutter, &mut source, &mut output, &mut w, &mut m);
    (answer, output.device.device.written().len())
}

/// Whether a reader accepts what is then stored.
fn is_read_back(n: u64, want: Result<Option<Piece>, PieceFault>) -> Option<bool> {
    let mut room = [0; 107];
    let (answer, written) = placed(n, &mut room);
    let (read, _) = expanded(
        &room[..written.min(107)],
        [1000, 1000],
        [0, 0],
        &mut [0; 40],
    );
    if answer == want {
        Some(read.is_ok())
    } else {
        None
    }
}

#[test]
fn a_write_fails_and_no_image_stands(rt: HostRuntime) {
    let failed = Err(PieceFault::Write(DeviceFault::Failed));
    for n in 1..30 {
        assert!(rt; is_read_back(n, failed) == Some(false), "write {n}");
    }
    assert!(rt; is_read_back(0, Ok(Some(FIRST))) == Some(true));
}
