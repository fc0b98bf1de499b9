//! Rows whose values come from other sources: words of blocks, walks over images, faults, and sources that fail.

use abt_io::{DeviceFault, Meter, SliceSource, Window};
use abt_runs::{
    BlockRuns, OpeningProgress, RawRuns, RunFault, RunKind, SparseOpening, SparseRuns, equal_word,
};
use abt_sparse::SparseFault;
use mem_devices::{Cut, Faulty, Long};
use mem_test_data::vectors::{GAPS, MIXED, THREE_KINDS};
use std::test::Fail;

#[test]
fn one_byte_that_differs_leaves_no_equal_word(rt: HostRuntime) {
    let mut block = [0u8; 132];
    for (i, cell) in block.iter_mut().enumerate() {
        *cell = b"abcd"[i % 4];
    }
    assert!(rt; equal_word(&block[..4]) == Some(*b"abcd"));
    for words in 2..34 {
        let part = &mut block[..4 * words];
        assert!(rt; equal_word(part) == Some(*b"abcd"));
        for i in 0..part.len() {
            let byte = part[i];
            part[i] = b'x';
            assert!(rt; equal_word(part) == None);
            part[i] = byte;
        }
    }
    block[2] = b'x';
    assert!(rt; equal_word(&block[..4]) == Some(*b"abxd"));
}

/// The length that a source claims, the block size, and the fault.
#[rattlefmt::skip]
const REFUSALS: [(u64, u32, RunFault); 5] = [
    (10, 0, RunFault::BadBlock(0)),
    (10, 6, RunFault::BadBlock(6)),
    (10, 65_540, RunFault::BadBlock(65_540)),
    // One byte more than 2^32 - 1 blocks of 4.
    (17_179_869_181, 4, RunFault::TooLarge),
    (17_179_869_181, 6, RunFault::BadBlock(6)),
];

#[test]
fn a_raw_image_is_refused_for_its_blocks(rt: HostRuntime) {
    for (long, size, fault) in REFUSALS.iter() {
        let source = Long::new(SliceSource::new(&[]), *long);
        assert!(rt; RawRuns::open(&source, *size).err() == Some(*fault));
    }
    let source = SliceSource::new(&MIXED);
    assert!(rt; RawRuns::open(&source, 65_536).map(|runs| runs.blocks) == Ok(1));
}

/// The runs of a raw image of three blocks: the first of at most one block, from there one of at most one and one of
/// at most five, and the one after that.
fn raw_runs() -> Result<[(RunKind, u32); 4], RunFault> {
    let mut source = Cut::new(SliceSource::new(&MIXED), 3);
    let mut w = Window::new();
    let mut m = Meter::new();
    let mut runs = RawRuns::open(&source, 8)?;
    let start = runs.start();
    let fill = runs.next_run(&mut source, start, 1, &mut w, &mut m)?;
    let one = runs.next_run(&mut source, fill.next, 1, &mut w, &mut m)?;
    let two = runs.next_run(&mut source, fill.next, 5, &mut w, &mut m)?;
    let end = runs.next_run(&mut source, two.next, 5, &mut w, &mut m)?;
    Ok([
        (fill.kind, fill.blocks),
        (one.kind, one.blocks),
        (two.kind, two.blocks),
        (end.kind, 0),
    ])
}

#[test]
fn a_raw_image_is_walked_in_runs_of_at_most_the_cap(rt: HostRuntime) {
    let runs = [
        (RunKind::Fill(*b"AAAA"), 1),
        (RunKind::Raw, 1),
        (RunKind::Raw, 2),
        (RunKind::End, 0),
    ];
    assert!(rt; raw_runs() == Ok(runs));
}

/// The length of `GAPS`, and its first run.
fn run_of_gaps() -> Result<(u64, RunKind, u32), RunFault> {
    let mut source = SliceSource::new(&GAPS);
    let mut w = Window::new();
    let mut m = Meter::new();
    let mut runs = SparseRuns::open(&mut source, &mut w, &mut m)?;
    let start = runs.start();
    let skip = runs.next_run(&mut source, start, 1, &mut w, &mut m)?;
    Ok((runs.image, skip.kind, skip.blocks))
}

#[test]
fn chunks_of_one_class_make_one_run(rt: HostRuntime) {
    assert!(rt; run_of_gaps() == Ok((76, RunKind::Skip, 5)));
}

#[test]
fn each_step_of_an_opening_that_fails_is_answered_again(rt: HostRuntime) {
    for n in 1..5u64 {
        let mut source = Faulty::new(SliceSource::new(&THREE_KINDS), n);
        let mut w = Window::new();
        let mut m = Meter::new();
        let mut opening = SparseOpening::begin();
        for _ in 1..n {
            assert!(rt;
                opening.opening_step(&mut source, &mut w, &mut m) == Ok(OpeningProgress::More)
            );
        }
        let fault = Err(RunFault::Read(DeviceFault::Failed));
        assert!(rt; opening.opening_step(&mut source, &mut w, &mut m) == fault);
        assert!(rt; opening.opening_step(&mut source, &mut w, &mut m) == fault);
        assert!(rt; !opening.done());
    }
}

/// Opens image `THREE_KINDS`. Reads its first run, the part after that run, and the first run's bytes from the second
/// on.
fn sparse_calls(source: &mut Faulty<SliceSource<'_>>) -> Result<[u8; 3], RunFault> {
    let mut w = Window::new();
    let mut m = Meter::new();
    let mut out = [0u8; 3];
    let runs = SparseRuns::open(source, &mut w, &mut m)?;
    let start = runs.start();
    let raw = runs.next_run(source, start, 9, &mut w, &mut m)?;
    runs.next_part(source, raw.next, 9, &mut w, &mut m)?;
    if let RunKind::Raw = raw.kind {
        runs.copy(source, raw.here, 1, &mut out, &mut m)?;
    }
    Ok(out)
}

/// The one run of a raw image of two blocks, and three bytes of it.
fn raw_calls(source: &mut Faulty<SliceSource<'_>>) -> Result<[u8; 3], RunFault> {
    let mut w = Window::new();
    let mut m = Meter::new();
    let mut out = [0u8; 3];
    let runs = RawRuns::open(source, 8)?;
    let start = runs.start();
    let raw = runs.next_part(source, start, 9, &mut w, &mut m)?;
    if let RunKind::Raw = raw.kind {
        runs.copy(source, raw.here, 1, &mut out, &mut m)?;
    }
    Ok(out)
}

#[test]
fn each_read_of_a_sparse_image_fails_and_is_answered(rt: HostRuntime) {
    let mut source = Faulty::new(SliceSource::new(&THREE_KINDS), 0);
    assert!(rt; sparse_calls(&mut source) == Ok(*b"BCD"));
    let calls = source.seen;
    for n in 1..calls.saturating_add(1) {
        let mut source = Faulty::new(SliceSource::new(&THREE_KINDS), n);
        assert!(rt; sparse_calls(&mut source) == Err(RunFault::Read(DeviceFault::Failed)));
        assert!(rt; source.seen == n);
    }
}

#[test]
fn a_read_of_a_raw_image_fails_and_is_answered(rt: HostRuntime) {
    let mut source = Faulty::new(SliceSource::new(b"ABCDEFGHIJKLMNOP"), 0);
    assert!(rt; raw_calls(&mut source) == Ok(*b"BCD"));
    for n in [1, source.seen] {
        let mut source = Faulty::new(SliceSource::new(b"ABCDEFGHIJKLMNOP"), n);
        assert!(rt; raw_calls(&mut source) == Err(RunFault::Read(DeviceFault::Failed)));
    }
}

const FAULTS: [(RunFault, u32, &str); 5] = [
    (
        RunFault::Sparse(SparseFault::Truncated { at: 47 }),
        10,
        "10 Truncated at 47",
    ),
    (RunFault::Read(DeviceFault::Failed), 11, "11 Read"),
    (RunFault::TooLarge, 13, "13 TooLarge"),
    (RunFault::SourceChanged, 14, "14 SourceChanged"),
    (RunFault::BadBlock(6), 15, "15 BadBlock 6"),
];

#[test]
fn each_fault_has_its_number_and_text(rt: HostRuntime) -> Result<(), Fail> {
    for (fault, number, text) in FAULTS.iter() {
        let shown = format!(in rt.alloc(); "{fault}")?;
        assert!(rt;
            fault.number() == *number && shown.as_str() == *text,
            "{text}"
        );
    }
    Ok(())
}
