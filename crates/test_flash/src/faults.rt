//! The numbers and texts of the faults.

use abt_flash_faults::FlashFault::{
    BadBlock, LimitTooSmall, NoSuchPiece, PartitionTooSmall, Read, SourceChanged, Sparse, Stopped,
    Sync, TooLarge, Write,
};
use abt_flash_faults::{Cause, FlashFault};
use abt_io::DeviceFault::Failed;
use abt_sparse::SparseFault;
use std::test::Fail;

#[rattlefmt::skip]
const FAULTS: [(FlashFault, u32, &str); 11] = [
    (Sparse(SparseFault::Truncated { at: 47 }), 10, "10 Truncated at 47"),
    (Read(Failed), 11, "11 Read"),
    (Write(Failed), 12, "12 Write"),
    (TooLarge, 13, "13 TooLarge"),
    (SourceChanged, 14, "14 SourceChanged"),
    (BadBlock(6), 15, "15 BadBlock 6"),
    (LimitTooSmall { least: 68 }, 16, "16 LimitTooSmall least 68"),
    (PartitionTooSmall { need: 12 }, 17, "17 PartitionTooSmall need 12"),
    (Sync(Failed), 18, "18 Sync"),
    (Stopped { piece: 2, cause: Cause::Write(Failed) }, 19, "19 Stopped piece 2 cause 12"),
    (NoSuchPiece { pieces: 3 }, 31, "31 NoSuchPiece pieces 3"),
];

const CAUSES: [(Cause, u32, &str); 7] = [
    (Cause::Read(Failed), 11, "11"),
    (Cause::Write(Failed), 12, "12"),
    (Cause::SourceChanged, 14, "14"),
    (Cause::Sync(Failed), 18, "18"),
    (Cause::SpoolWrite(Failed), 32, "32"),
    (Cause::SpoolRead(Failed), 33, "33"),
    (Cause::SpoolChanged, 34, "34"),
];

#[test]
fn each_fault_has_its_number_and_text(rt: HostRuntime) -> Result<(), Fail> {
    for (fault, number, text) in FAULTS.iter() {
        let shown = format!(in rt.alloc(); "{fault}")?;
        assert!(rt;
            fault.number() == *number && shown.as_str() == *text,
            "{text}"
        );
    }
    Ok(())
}

#[test]
fn each_cause_has_its_number_and_text(rt: HostRuntime) -> Result<(), Fail> {
    for (cause, number, text) in CAUSES.iter() {
        let shown = format!(in rt.alloc(); "{cause}")?;
        assert!(rt;
            cause.number() == *number && shown.as_str() == *text,
            "{text}"
        );
    }
    Ok(())
}
