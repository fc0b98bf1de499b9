//! Verifies a raw image as a whole.

ghost use Rattle.std.specs.Prelude.{◌≡◌, ◌≤◌, ◌+◌, ◌*◌, IsTrue, false};
ghost use Rattle.abt_chunks.specs.Costs.{StepsWithin};
ghost use Rattle.abt_verify.specs.Comparing.{ReadsMore};
ghost use Rattle.abt_verify.specs.Fault.{RawCause};
ghost use Rattle.abt_verify.specs.Raw.{IsRawBlock, JudgesBlockSize, VerifiesRaw};

use crate::fault::VerifyFault;
use crate::raw_verifier::RawVerifier;
use crate::stage::Verified;
use abt_chunks::MachineProgress;
use abt_io::{Meter, Source, Window};

/// Whether a raw image may have blocks of this size.
fn is_block_size(b: u32) -> bool
    ensures yes { IsTrue result → IsRawBlock b }
    ensures no { result ≡ false → IsRawBlock b → ⊥ }
{
    4 <= b && b <= 65_536 && b % 4 == 0
}

/// Compares each byte of the raw image that is all of the source with what is stored at its place on the partition, to
/// which nothing is written. The result counts blocks of b bytes, the last of which may be shorter. An error is the
/// first byte that differs (35), as all after the partition's end do, a device's (11 reading the source, 37 the
/// partition), 14 where the source gives fewer bytes than it has said, or 15 unless b is a multiple of 4 from 4 to
/// 65,536.
pub fn verify_raw<S: Source, P: Source>(
    source: &mut S,
    b: u32,
    partition: &mut P,
    w: &mut Window,
    m: &mut Meter,
) -> Result<Verified, VerifyFault>
    ensures verifies { IsTrue S.models → VerifiesRaw P.models result b (P.content partition.old) (S.content source.old)
        (P.given partition.old) (P.given partition.new) }
    ensures sized { JudgesBlockSize result b }
    ensures cause { RawCause result S.models (S.read_faults source.old) (S.read_faults source.new)
        (P.read_faults partition.old) (P.read_faults partition.new) }
    // Both stay as they are; of the partition its bytes, its length, and all that a write or a sync would change.
    ensures source { ReadsMore result S.Source source.old source.new }
    ensures partition { ReadsMore result P.Source partition.old partition.new }
    // What it cost.
    ensures calls { S.reads source.new + P.reads partition.new + 8 * S.given source.old + 8 * P.given partition.old
        ≤ S.reads source.old + P.reads partition.old + 8 * S.given source.new + 8 * P.given partition.new + 64 }
    ensures turns { m.new.turns.number + 8 * S.given source.old + 8 * P.given partition.old
        ≤ m.old.turns.number + 8 * S.given source.new + 8 * P.given partition.new + 64 }
    ensures steps { StepsWithin 65580 (S.given source.old + P.given partition.old)
        (S.given source.new + P.given partition.new) m.old m.new }
{
    if !is_block_size(b) {
        return Err(VerifyFault::BadBlock(b));
    }
    let mut machine = RawVerifier::open(source);
    'steps: loop {
        m.tick();
        match machine.step(source, partition, w, m) {
            Ok(MachineProgress::More) => {}
            Ok(MachineProgress::Done) => {
                return Ok(Verified {
                    blocks: machine.length.div_ceil(u64::from(b)),
                });
            }
            Err(fault) => return Err(fault),
        }
    }
}
