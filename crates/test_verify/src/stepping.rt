//! The machines step by step, and the laws.

use abt_chunks::MachineProgress;
use abt_io::{Forward, Meter, SliceSource, Window};
use abt_verify::{
    RawVerifier, Verifier, VerifyFault, unwritten_partition_stays, verifying_is_right,
};
use mem_devices::{Long, SlicePartition};
use mem_test_data::vectors::{MIXED, THREE_KINDS};

#[test]
fn a_machine_that_is_over_answers_again_and_reads_nothing(rt: HostRuntime) {
    let mut input = Forward::new(SliceSource::new(&THREE_KINDS));
    let mut partition = SliceSource::new(b"ABC");
    let mut w = Window::new();
    let mut m = Meter::new();
    let mut machine = Verifier::open();
    let mut last = Ok(MachineProgress::More);
    for _ in 0..4 {
        if last == Ok(MachineProgress::More) {
            last = machine.step(&mut input, &mut partition, &mut w, &mut m);
        }
    }
    let read = input.position();
    assert!(rt; last == Err(VerifyFault::Differs { at: 3 }));
    assert!(rt; machine.step(&mut input, &mut partition, &mut w, &mut m) == last);
    assert!(rt; input.position() == read);
}

#[test]
fn a_raw_machine_that_is_done_answers_done_again(rt: HostRuntime) {
    let mut source = Long::new(SliceSource::new(&MIXED), 18);
    let mut partition = SliceSource::new(&MIXED);
    let mut w = Window::new();
    let mut m = Meter::new();
    let mut machine = RawVerifier::open(&source);
    let first = machine.step(&mut source, &mut partition, &mut w, &mut m);
    assert!(rt; first == Ok(MachineProgress::More));
    for _ in 0..2 {
        let done = machine.step(&mut source, &mut partition, &mut w, &mut m);
        assert!(rt; done == Ok(MachineProgress::Done));
    }
}

#[test]
fn each_law_is_called_and_does_nothing() {
    let mut room = [0u8; 1];
    let partition = SlicePartition::new(&mut room);
    unwritten_partition_stays(&partition, &partition);
    verifying_is_right();
}
