//! Writes all of some bytes: to an output, over the written bytes of one, or to a place of a partition.

ghost use Rattle.std.specs.Prelude.{◌≡◌, ◌<◌, ◌≤◌, ◌+◌, ◌-◌, ◌^◌, ◌++◌, IsTrue, OnOk, OnErr, IfErr, IsErrOf, length};
ghost use Rattle.std.specs.Prelude.{take};
ghost use Rattle.abt_io.specs.Count.{full_of};
ghost use Rattle.abt_io.specs.Lent.{OnlyWrites, NoStep};
ghost use Rattle.abt_io.specs.Moment.{Keeps, KeepsUnsynced, EachSince, in_range, moment_of, put_at};
ghost use Rattle.abt_io.specs.Over.{WritesFront};

use crate::{DeviceFault, Meter, Output, Overwrite, Partition};

/// Writes all of these bytes. Where it fails, a prefix of them is written, as far as `front` says.
#[inline(always)]
pub fn write_out<O: Output>(output: &mut O, bytes: &[u8], m: &mut Meter) -> Result<(), DeviceFault>
    requires { length bytes.now ≤ 65536 }
    ensures ok { OnOk result (O.written output.new ≡ O.written output.old ++ bytes.now) }
    ensures front { O.written output.new ≡ O.written output.old ++ take
        (length (O.written output.new) - length (O.written output.old)) bytes.now }
    ensures all { OnOk result (length (O.written output.new) ≡ length (O.written output.old) + length bytes.now) }
    ensures within { length (O.written output.new) ≤ length (O.written output.old) + length bytes.now }
    ensures cause { OnErr result (O.write_faults output.old < O.write_faults output.new) }
    ensures full { IsErrOf result DeviceFault.Full → IsTrue (O.is_full output.new) }
    ensures short { OnErr result (length (O.written output.new) < length (O.written output.old) + length bytes.now) }
    ensures calls { O.writes output.new + length (O.written output.old) ≤ O.writes output.old + length
        (O.written output.new) + 1 }
    ensures turns { m.new.turns.number + length (O.written output.old) ≤ m.old.turns.number + length
        (O.written output.new) + 1 }
    ensures writes { OnlyWrites result (full_of result) O.Output output.old output.new }
    ensures no_step { NoStep m.old m.new }
{
    let mut at = 0;
    while at < bytes.len() {
        m.tick();
        match output.write(&bytes[at..]) {
            Ok(n) => at += n,
            Err(fault) => return Err(fault),
        }
    }
    Ok(())
}

/// Writes all of these bytes at a place. Where it fails, the range may hold any bytes; all others are
/// as they were.
#[inline(always)]
pub fn write_all_at<P: Partition>(
    partition: &mut P,
    at: u64,
    bytes: &[u8],
    m: &mut Meter,
) -> Result<(), DeviceFault>
    requires window { length bytes.now ≤ 65536 }
    requires fits { at + length bytes.now ≤ P.size partition.old }
    requires below { at + length bytes.now < 2 ^ 64 }
    ensures size { P.size partition.new ≡ P.size partition.old }
    ensures written { IsTrue P.models →
        OnOk result (P.content partition.new ≡ put_at (P.content partition.old) at bytes.now) }
    ensures kept { IsTrue P.models →
        Keeps (in_range at (length bytes.now)) (moment_of (P.past partition.old) (P.content partition.old))
        (moment_of (P.past partition.new) (P.content partition.new)) }
    ensures moments { IsTrue P.models → EachSince (P.past partition.old).moments (P.past partition.new).moments
        (KeepsUnsynced (in_range at (length bytes.now)) (moment_of (P.past partition.old) (P.content partition.old))) }
    ensures synced { (P.past partition.new).synced ≡ (P.past partition.old).synced }
    ensures calls { P.puts partition.new ≤ P.puts partition.old + length bytes.now }
    ensures syncs { P.syncs partition.new ≡ P.syncs partition.old }
    ensures reads { P.reads partition.new ≡ P.reads partition.old }
    ensures given { P.given partition.new ≡ P.given partition.old }
    ensures read_faults { P.read_faults partition.new ≡ P.read_faults partition.old }
    ensures faults { P.put_faults partition.old ≤ P.put_faults partition.new }
    ensures cause { OnErr result (P.put_faults partition.old < P.put_faults partition.new) }
    ensures clean { OnOk result (P.put_faults partition.new ≡ P.put_faults partition.old) }
    ensures failed { IfErr result (λ e. e ≡ DeviceFault.Failed) }
    ensures turns { m.new.turns.number ≤ m.old.turns.number + length bytes.now }
    ensures taken { P.taken partition.old ≤ P.taken partition.new }
    ensures all { OnOk result (P.taken partition.new ≡ P.taken partition.old + length bytes.now) }
    ensures few_calls { P.puts partition.new + P.taken partition.old ≤ P.puts partition.old + P.taken
        partition.new + 1 }
    ensures few_turns { m.new.turns.number + P.taken partition.old ≤ m.old.turns.number + P.taken partition.new + 1 }
    ensures no_step { NoStep m.old m.new }
{
    let mut done = 0;
    while done < bytes.len() {
        m.tick();
        done += partition.write_at(at + done as u64, &bytes[done..])?;
    }
    Ok(())
}

/// Overwrites what is stored at a place with all of these bytes. Where it fails, a prefix of them is written, shorter
/// than all.
pub fn write_over_all<O: Overwrite>(
    output: &mut O,
    at: u64,
    bytes: &[u8],
    m: &mut Meter,
) -> Result<(), DeviceFault>
    requires window { length bytes.now ≤ 65536 }
    requires stands { at + length bytes.now ≤ length (O.written output.old) }
    requires below { at + length bytes.now < 2 ^ 64 }
    ensures ok { OnOk result (O.written output.new ≡ put_at (O.written output.old) at bytes.now) }
    ensures before { take at (O.written output.new) ≡ take at (O.written output.old) }
    ensures front { OnErr result (WritesFront (O.written output.old) (O.written output.new) at bytes.now) }
    ensures long { length (O.written output.new) ≡ length (O.written output.old) }
    ensures cause { OnErr result (O.write_faults output.old < O.write_faults output.new) }
    ensures failed { IfErr result (λ e. e ≡ DeviceFault.Failed) }
    ensures calls { O.writes output.new ≤ O.writes output.old + length bytes.now }
    ensures turns { m.new.turns.number ≤ m.old.turns.number + length bytes.now }
    ensures writes { OnlyWrites result 0 O.Output output.old output.new }
    ensures no_step { NoStep m.old m.new }
{
    let mut done = 0;
    while done < bytes.len() {
        m.tick();
        match output.write_over(at + done as u64, &bytes[done..]) {
            Ok(n) => done += n,
            Err(fault) => return Err(fault),
        }
    }
    Ok(())
}
