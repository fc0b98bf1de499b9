//! A crash after each call of a small program, with each choice of bytes.

use crate::calls::put_and_sync;
use abt_io::*;
use mem_devices::*;

/// Writes `AB` from byte 1 on and makes it last, then the same with `CD` from byte 2 on.
fn two_writes<P: Partition>(partition: &mut P) -> Result<(), DeviceFault> {
    put_and_sync(partition, 1, b"AB")?;
    put_and_sync(partition, 2, b"CD")
}

/// What is left where call `n` fails, by the crash model.
fn left(n: u64, pick: Pick) -> [u8; 5] {
    match (n, pick) {
        (1, _) | (2, Pick::Old) => *b".....",
        (2, Pick::New) | (3, _) | (4, Pick::Old) => *b".AB..",
        (2, Pick::Byte(_)) => *b".ZZ..",
        (4, Pick::Byte(_)) => *b".AZZ.",
        _ => *b".ACD.",
    }
}

#[test]
fn a_crash_leaves_what_was_synced_and_any_bytes_in_what_was_not(rt: HostRuntime) {
    for n in 1..=5u64 {
        for pick in [Pick::Old, Pick::New, Pick::Byte(b'Z')] {
            let mut now = *b".....";
            let mut stable = [0u8; 5];
            let mut touched = [7u8; 5];
            {
                let partition = CrashPartition::new(&mut now, &mut stable, &mut touched);
                let mut partition = Faulty::new(partition, n);
                assert!(rt; two_writes(&mut partition).is_ok() == (n == 5));
                partition.inner().crash(pick);
                // No byte is marked as touched now.
                partition.inner().crash(Pick::Byte(b'!'));
            }
            assert!(rt; now == left(n, pick), "call {n}, {pick:?}");
            assert!(rt; stable == now, "call {n}, {pick:?}");
            assert!(rt; touched == [0u8; 5]);
        }
    }
}
