//! How verifying and flashing are related, as the contract of a function that does nothing.

ghost use Rattle.std.specs.Prelude.{◌≡◌};
ghost use Rattle.abt_verify.specs.Laws.{VerifyingIsRight};

use abt_io::Partition;

/// Where a partition holds an image, flashing that image changes nothing, and a partition holds what was flashed to
/// it. A partition holds an image, or there is one first byte that differs.
pub fn verifying_is_right()
    ensures { VerifyingIsRight }
{}

/// What a read leaves of a partition that can be written: its length, its states and pending bytes, and the counts of
/// its writes and syncs are as before. So does verifying, whose clause `partition` says the premise.
pub fn unwritten_partition_stays<P: Partition>(_before: &P, _after: &P)
    requires { P.read_frame _after.now ≡ P.read_frame _before.now }
    ensures size { P.size _after.now ≡ P.size _before.now }
    ensures past { P.past _after.now ≡ P.past _before.now }
    ensures puts { P.puts _after.now ≡ P.puts _before.now }
    ensures taken { P.taken _after.now ≡ P.taken _before.now }
    ensures syncs { P.syncs _after.now ≡ P.syncs _before.now }
    ensures put_faults { P.put_faults _after.now ≡ P.put_faults _before.now }
{}
