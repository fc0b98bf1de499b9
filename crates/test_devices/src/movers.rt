//! The movers, over the devices in memory.

use crate::calls::{copied, filled, put, put_at};
use abt_io::*;
use mem_devices::*;

#[test]
fn bytes_are_gathered_and_written_in_any_cut(rt: HostRuntime) {
    let mut held = [0u8; 7];
    let mut room = [0u8; 8];
    let mut forward = Cut::new(Forward::new(SliceSource::new(b"abcdefgh")), 3);
    assert!(rt; filled(&mut forward, &mut held).count == 7);
    assert!(rt; forward.device.position() == 7);
    {
        let mut output = Cut::new(SliceOutput::new(&mut room), 2);
        assert!(rt; put(&mut output, &held) == Ok(()));
        assert!(rt; output.device.written() == b"abcdefg".as_slice());
    }
    assert!(rt; room == *b"abcdefg\0");
}

#[test]
fn a_full_output_takes_as_much_as_has_room(rt: HostRuntime) {
    let mut room = [0u8; 3];
    let mut output = SliceOutput::new(&mut room);
    assert!(rt; put(&mut output, b"abcdefgh") == Err(DeviceFault::Full));
    assert!(rt; output.written() == b"abc".as_slice());
    // An empty write finds room even there.
    assert!(rt; put(&mut output, b"") == Ok(()));
}

#[test]
fn copying_a_range_stops_where_the_source_ends(rt: HostRuntime) {
    let mut room = [0u8; 8];
    let mut output = SliceOutput::new(&mut room);
    let mut source = Cut::new(SliceSource::new(b"abcdefgh"), 3);
    assert!(rt; copied(&mut source, 2, 5, &mut output) == Ok(()));
    assert!(rt; zeros(&mut output, 2) == Ok(()));
    let past = copied(&mut source, 7, 2, &mut output);
    assert!(rt; past == Err(CopyFault::Changed));
    assert!(rt; output.written() == b"cdefg\0\0h".as_slice());
}

fn zeros<O: Output>(output: &mut O, n: u64) -> Result<(), DeviceFault> {
    write_zeros(output, n, &mut Window::new(), &mut Meter::new())
}

fn three_zeros<O: Output>(output: &mut O) -> Result<u64, DeviceFault> {
    output.write_zeros(3, &[0; 2])
}

#[test]
fn zeros_are_as_many_a_call_as_the_output_takes(rt: HostRuntime) {
    let mut room = *b"....";
    let mut output = Cut::new(SliceOutput::new(&mut room), 2);
    assert!(rt; zeros(&mut output, 3) == Ok(()));
    // It has room for one more.
    assert!(rt; three_zeros(&mut output) == Ok(1));
    assert!(rt; three_zeros(&mut output) == Err(DeviceFault::Full));
    assert!(rt; output.device.written() == b"\0\0\0\0".as_slice());
}

/// Passes over as many bytes as there is room for: how many.
fn passed<I: Input>(input: &mut I, room: &mut [u8; 5]) -> usize {
    pass_full(input, room, &mut Meter::new()).count
}

#[test]
fn what_is_passed_over_is_not_read_again(rt: HostRuntime) {
    let mut room = [0u8; 5];
    let mut rest = *b"....";
    let mut forward = Cut::new(Forward::new(SliceSource::new(b"abcdefgh")), 3);
    assert!(rt; passed(&mut forward, &mut room) == 5);
    assert!(rt; filled(&mut forward, &mut rest).count == 3);
    assert!(rt; rest == *b"fgh.");
    // After the end there are no bytes.
    assert!(rt; passed(&mut forward, &mut room) == 0);
}

/// Writes a word this often, at least once and as often as it fits.
fn lay(w: &mut Window, word: [u8; 4], n: usize) {
    lay_word(w, word, n.clamp(1, WORDS), &mut Meter::new());
}

#[test]
fn a_word_is_laid_as_often_as_asked(rt: HostRuntime) {
    let mut w = Window::new();
    lay(&mut w, *b"abcd", 3);
    assert!(rt; w.part(0, 13) == b"abcdabcdabcd\0".as_slice());
    lay(&mut w, *b"wxyz", WORDS);
    assert!(rt; w.part(WINDOW - 4, WINDOW) == b"wxyz".as_slice());
}

#[test]
fn writing_at_a_place_touches_its_range_alone(rt: HostRuntime) {
    let mut room = *b"......";
    {
        let mut partition = Cut::new(SlicePartition::new(&mut room), 2);
        assert!(rt; put_at(&mut partition, 1, b"abcd") == Ok(()));
    }
    assert!(rt; room == *b".abcd.");
}
