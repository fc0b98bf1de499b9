//! A stop at each write, a crash, and resuming from each piece up to the one that was stopped.

use abt_flash::{
    Delivered, deliver, deliver_raw, deliver_raw_at, resume, resume_raw, resume_raw_at,
};
use abt_flash_faults::FlashFault;
use abt_io::{Meter, SliceSource, Window};
use mem_devices::{CrashPartition, Faulty, Pick, SliceSpool};
use mem_test_data::vectors::{MIXED, NO_GAP};

const PICKS: [Pick; 3] = [Pick::Old, Pick::New, Pick::Byte(0x5A)];

/// From a sparse image, or from a raw one: forward, or in one pass over it.
#[derive(Clone, Copy, PartialEq, Drop)]
enum Way {
    Sparse,
    Raw,
    Once,
}

/// What is delivered, and over what.
#[derive(Clone, Copy, Drop)]
struct Job {
    way: Way,
    /// How many pieces it has.
    pieces: u32,
    /// What it leaves of dots, of which the last are no image's.
    leaves: &'static [u8; 32],
}

/// `NO_GAP` in pieces of at most 68 bytes, and the raw `MIXED` in blocks of 8 and pieces of at most 88, both ways.
const JOBS: [Job; 3] = [
    Job {
        way: Way::Sparse,
        pieces: 3,
        leaves: b"ABCD\x04\x03\x02\x01WXYZ....................",
    },
    Job {
        way: Way::Raw,
        pieces: 2,
        leaves: b"AAAAAAAAABCDEFGHIJ\0\0\0\0\0\0........",
    },
    Job {
        way: Way::Once,
        pieces: 2,
        leaves: b"AAAAAAAAABCDEFGHIJ\0\0\0\0\0\0........",
    },
];

/// Delivers, or resumes from a piece above 0, over a partition whose call `n` fails; then the power fails. At 0 no
/// call fails.
fn stopped(
    job: Job,
    from: u32,
    n: u64,
    pick: Pick,
    now: &mut [u8; 32],
) -> Result<Delivered, FlashFault> {
    let mut room = [0u8; 88];
    let mut stable = [0u8; 32];
    let mut touched = [0u8; 32];
    let image: &[u8] = if job.way == Way::Sparse {
        &NO_GAP
    } else {
        &MIXED
    };
    let mut source = SliceSource::new(image);
    let mut spool = SliceSpool::new(&mut room);
    let mut partition = Faulty::new(CrashPartition::new(now, &mut stable, &mut touched), n);
    let mut w = Window::new();
    let mut m = Meter::new();
    let answer = match (job.way, from) {
        (Way::Sparse, 0) => deliver(&mut source, 68, &mut spool, &mut partition, &mut w, &mut m),
        (Way::Sparse, from) => resume(
            &mut source,
            68,
            from.max(1),
            &mut spool,
            &mut partition,
            &mut w,
            &mut m,
        ),
        (Way::Raw, 0) => deliver_raw(
            &mut source,
            8,
            88,
            &mut spool,
            &mut partition,
            &mut w,
            &mut m,
        ),
        (Way::Raw, from) => {
            resume_raw(
                &mut source,
                8,
                88,
                from.max(1),
                &mut spool,
                &mut partition,
                &mut w,
                &mut m,
            )
        }
        (Way::Once, 0) => deliver_raw_at(
            &mut source,
            8,
            88,
            &mut spool,
            &mut partition,
            &mut w,
            &mut m,
        ),
        (Way::Once, from) => {
            resume_raw_at(
                &mut source,
                8,
                88,
                from.max(1),
                &mut spool,
                &mut partition,
                &mut w,
                &mut m,
            )
        }
    };
    partition.inner().crash(pick);
    answer
}

/// The piece in which this stopped. It is 0 where it finished, and the image is stored. It is `u32::MAX` where
/// neither holds, or something after the image changed.
fn piece_of(job: Job, answer: Result<Delivered, FlashFault>, now: &[u8; 32]) -> u32 {
    match answer {
        Ok(_) if now == job.leaves => 0,
        Err(FlashFault::Stopped { piece, .. }) if now.ends_with(b"........") => piece,
        _ => u32::MAX,
    }
}

/// Whether resuming from each piece up to this one, in which it stopped, ends with the whole image.
fn is_mended(job: Job, piece: u32, now: &[u8; 32]) -> bool {
    for from in 1..=3u32 {
        if from <= piece {
            let mut mended = *now;
            let answer = stopped(job, from, 0, Pick::Old, &mut mended);
            let pieces = job.pieces.saturating_add(1).saturating_sub(from);
            if answer != Ok(Delivered { pieces }) || mended != *job.leaves {
                return false;
            }
        }
    }
    piece <= job.pieces
}

/// Stops at each call of a delivery, or of a resuming from a piece above 0, each mended: how many there were, 0 where
/// one is not mended.
fn stops(job: Job, from: u32, pick: Pick, before: &[u8; 32]) -> u64 {
    let mut stops = 0;
    for n in 1..10 {
        let mut now = *before;
        let answer = stopped(job, from, n, pick, &mut now);
        let piece = piece_of(job, answer, &now);
        if piece > 0 {
            if piece < from || !is_mended(job, piece, &now) {
                return 0;
            }
            stops = n;
        }
    }
    stops
}

/// Whether a stop at call `n` is mended from each piece up to it, also after a second stop at any call of that.
fn second_is_mended(job: Job, n: u64, pick: Pick) -> bool {
    let mut now = *b"................................";
    let answer = stopped(job, 0, n, pick, &mut now);
    let piece = piece_of(job, answer, &now);
    for from in 1..=3u32 {
        if from <= piece && stops(job, from, pick, &now) == 0 {
            return false;
        }
    }
    piece <= job.pieces
}

#[test]
fn a_stop_at_each_call_is_mended_from_each_piece_up_to_it(rt: HostRuntime) {
    for pick in PICKS.iter() {
        for (job, calls) in JOBS.iter().zip([6, 5, 5]) {
            // Each run is written once and each piece synced once.
            assert!(rt; stops(*job, 0, *pick, b"................................") == calls);
        }
    }
}

#[test]
fn a_second_stop_within_a_resuming_is_mended_too(rt: HostRuntime) {
    for pick in PICKS.iter() {
        for job in JOBS.iter() {
            for n in 1..7 {
                assert!(rt; second_is_mended(*job, n, *pick), "call {n}");
            }
        }
    }
}
