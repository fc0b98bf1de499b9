//! The numbers and texts of the faults.

use abt_io::DeviceFault;
use abt_sparse::SparseFault;
use abt_verify::VerifyFault;
use abt_verify::VerifyFault::{BadBlock, Differs, PartitionRead, Read, SourceChanged, Sparse};
use std::test::Fail;

#[rattlefmt::skip]
const FAULTS: [(VerifyFault, u32, &str); 6] = [
    (Sparse(SparseFault::Truncated { at: 47 }), 10, "10 Truncated at 47"),
    (Read(DeviceFault::Failed), 11, "11 Read"),
    (SourceChanged, 14, "14 SourceChanged"),
    (BadBlock(6), 15, "15 BadBlock 6"),
    (Differs { at: 4096 }, 35, "35 Differs at 4096"),
    (PartitionRead(DeviceFault::Failed), 37, "37 PartitionRead"),
];

#[test]
fn each_fault_has_its_number_and_text(rt: HostRuntime) -> Result<(), Fail> {
    for (fault, number, text) in FAULTS.iter() {
        assert!(rt; fault.number() == *number);
        let shown = format!(in rt.alloc(); "{fault}")?;
        assert!(rt; shown.as_str() == *text, "{text}");
    }
    Ok(())
}
