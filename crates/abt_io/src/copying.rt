//! Copies bytes from a place of a source to an output, and writes zeros to an output.

ghost use Rattle.std.specs.Prelude.{◌≡◌, ◌<◌, ◌≤◌, ◌+◌, ◌-◌, ◌*◌, ◌^◌, ◌++◌, IsTrue, IfOk, IfErr, OnOk, OnErr, max};
ghost use Rattle.std.specs.Prelude.{length, take, drop, replicate};
ghost use Rattle.abt_io.specs.Cause.{CopyCause, full_copied};
ghost use Rattle.abt_io.specs.Count.{full_of};
ghost use Rattle.abt_io.specs.Lent.{OnlyReads, OnlyWrites, NoStep};

use crate::fill_window::lay_byte;
use crate::{DeviceFault, Meter, Output, Source, WINDOW, Window, write_out};

/// Why a copy stopped.
#[derive(Clone, Copy, Debug, PartialEq, Eq, Drop)]
pub enum CopyFault {
    /// The source failed.
    Read(DeviceFault),
    /// The output failed.
    Write(DeviceFault),
    /// The source gave nothing where it had said that there are bytes.
    Changed,
}

/// One step: reads at most `ask` bytes from a place on, by one read, and writes what came. It
/// returns how many came, which is never 0.
pub fn copy_step<S: Source, O: Output>(
    source: &mut S,
    at: u64,
    ask: usize,
    output: &mut O,
    w: &mut Window,
    m: &mut Meter,
) -> Result<usize, CopyFault>
    requires some { 0 < ask }
    requires room { ask ≤ 65536 }
    ensures counts { IfOk result (λ k. (0 < k) × (k ≤ ask) × (S.given source.new ≡ S.given source.old + k) ×
        (length (O.written output.new) ≡ length (O.written output.old) + k)) }
    ensures asked { S.given source.old ≤ S.given source.new × S.given source.new ≤ S.given source.old + ask }
    ensures held { length (O.written output.old) ≤ length (O.written output.new) × length (O.written output.new)
        ≤ length (O.written output.old) + (S.given source.new - S.given source.old) }
    ensures present { IsTrue S.models → S.given source.new - S.given source.old ≤ length (S.content source.old) - at }
    ensures front { IsTrue S.models → O.written output.new ≡ O.written output.old ++ take
        (length (O.written output.new) - length (O.written output.old)) (drop at (S.content source.old)) }
    ensures grown { take (length (O.written output.old)) (O.written output.new) ≡ O.written output.old }
    ensures cause { IfErr result (λ e. CopyCause e (IsTrue S.models → length (S.content source.old) ≤ at)
        (S.read_faults source.old) (S.read_faults source.new) (O.write_faults output.old) (O.write_faults output.new)) }
    ensures calls { S.reads source.new ≡ S.reads source.old + 1 }
    ensures write_calls { O.writes output.new
        ≤ O.writes output.old + (length (O.written output.new) - length (O.written output.old)) + 1 }
    ensures turns { m.new.turns.number
        ≤ m.old.turns.number + (length (O.written output.new) - length (O.written output.old)) + 1 }
    ensures steps { m.new.steps.number ≡ m.old.steps.number + 1 }
    ensures greatest { m.new.greatest.number ≡ max m.old.greatest.number (S.given source.new - S.given source.old) }
    ensures reads { OnlyReads result S.Source source.old source.new }
    ensures writes { OnlyWrites result (full_copied result) O.Output output.old output.new }
{
    match source.read_at(at, w.part_mut(0, ask)) {
        Ok(got) => {
            if got == 0 {
                m.close_step(0);
                return Err(CopyFault::Changed);
            }
            let done = write_out(output, w.part(0, got), m);
            m.close_step(got as u32);
            match done {
                Ok(()) => Ok(got),
                Err(fault) => Err(CopyFault::Write(fault)),
            }
        }
        Err(fault) => {
            m.close_step(0);
            Err(CopyFault::Read(fault))
        }
    }
}

/// Copies the `n` bytes from a place on, in steps of at most a window. `Changed` comes where the
/// source ends before them.
pub fn copy_range<S: Source, O: Output>(
    source: &mut S,
    from: u64,
    n: u64,
    output: &mut O,
    w: &mut Window,
    m: &mut Meter,
) -> Result<(), CopyFault>
    requires { from + n < 2 ^ 64 }
    ensures written { IsTrue S.models →
        OnOk result (O.written output.new ≡ O.written output.old ++ take n (drop from (S.content source.old))) }
    ensures front { IsTrue S.models → O.written output.new ≡ O.written output.old ++ take
        (length (O.written output.new) - length (O.written output.old)) (take n (drop from (S.content source.old))) }
    ensures all { OnOk result (length (O.written output.new) ≡ length (O.written output.old) + n) }
    ensures given { OnOk result (S.given source.new ≡ S.given source.old + n) }
    ensures there { IsTrue S.models → OnOk result (n ≤ length (S.content source.old) - from) }
    ensures asked { S.given source.old ≤ S.given source.new × S.given source.new ≤ S.given source.old + n }
    ensures most { length (O.written output.new) ≤ length (O.written output.old) + n }
    ensures held { length (O.written output.new)
        ≤ length (O.written output.old) + (S.given source.new - S.given source.old) }
    ensures grown { take (length (O.written output.old)) (O.written output.new) ≡ O.written output.old }
    ensures cause { IfErr result (λ e. CopyCause e (IsTrue S.models → length (S.content source.old) < from + n)
        (S.read_faults source.old) (S.read_faults source.new) (O.write_faults output.old) (O.write_faults output.new)) }
    ensures calls { S.reads source.new ≤ S.reads source.old + (S.given source.new - S.given source.old) + 1 }
    ensures write_calls { O.writes output.new
        ≤ O.writes output.old + 2 * (length (O.written output.new) - length (O.written output.old)) + 1 }
    ensures turns { m.new.turns.number
        ≤ m.old.turns.number + 3 * (length (O.written output.new) - length (O.written output.old)) + 2 }
    ensures steps { (S.given source.new - S.given source.old) + 65536 * m.old.steps.number
        ≤ 65536 * m.new.steps.number }
    ensures greatest { m.new.greatest.number ≤ max m.old.greatest.number 65536 }
    ensures reads { OnlyReads result S.Source source.old source.new }
    ensures writes { OnlyWrites result (full_copied result) O.Output output.old output.new }
{
    let mut at = 0;
    while at < n {
        m.tick();
        let ask = (n - at).min(WINDOW as u64) as usize;
        let got = copy_step(source, from + at, ask, output, w, m)?;
        at += got as u64;
    }
    Ok(())
}

/// Writes `n` zeros, as many a call as the output takes. It receives nothing and closes no step.
pub fn write_zeros<O: Output>(
    output: &mut O,
    n: u64,
    w: &mut Window,
    m: &mut Meter,
) -> Result<(), DeviceFault>
    ensures written { OnOk result (O.written output.new ≡ O.written output.old ++ replicate n 0) }
    ensures front { O.written output.new ≡ O.written output.old ++ take
        (length (O.written output.new) - length (O.written output.old)) (replicate n 0) }
    ensures all { OnOk result (length (O.written output.new) ≡ length (O.written output.old) + n) }
    ensures most { length (O.written output.new) ≤ length (O.written output.old) + n }
    ensures cause { OnErr result (O.write_faults output.old < O.write_faults output.new) }
    ensures write_calls { O.writes output.new
        ≤ O.writes output.old + (length (O.written output.new) - length (O.written output.old)) + 1 }
    ensures turns { m.new.turns.number
        ≤ m.old.turns.number + (length (O.written output.new) - length (O.written output.old)) + 1 }
    ensures writes { OnlyWrites result (full_of result) O.Output output.old output.new }
    ensures no_step { NoStep m.old m.new }
{
    let front = n.min(WINDOW as u64) as usize;
    lay_byte(w, front, 0);
    let mut at = 0;
    while at < n {
        m.tick();
        match output.write_zeros(n - at, w.part(0, front)) {
            Ok(some) => at += some,
            Err(fault) => return Err(fault),
        }
    }
    Ok(())
}
