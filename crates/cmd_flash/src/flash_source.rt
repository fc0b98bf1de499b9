//! Writes a source over the beginning of a partition.

ghost use Rattle.std.specs.Prelude.{◌≡◌, ◌≤◌, ◌<◌, ◌+◌, ◌-◌, ◌^◌, IsTrue, OnOk, IfOk, length, take, drop, replicate};
ghost use Rattle.std.specs.Prelude.{IfErr, slice_range};
ghost use Rattle.abt_io.specs.Moment.{in_range, put_at};
ghost use Rattle.abt_sparse.specs.Block.{filled_to};
ghost use Rattle.cmd_flash.specs.Files.{HoldsBut};
ghost use Rattle.cmd_flash.specs.FlashingRaw.{IsLaidInPart};
ghost use Rattle.cmd_flash.specs.Laying.{MovesOnce, OnlyLays, torn_by};

use abt_io::{CopyFault, Meter, Partition, Source, WINDOW, Window, write_all_at};

/// Overwrites the beginning of a partition with all bytes of a source, and with zeros after them up to this length.
/// Zeros and equal words are read like all other data, so nothing is faster than to write them as they come.
pub(crate) fn lay_filled<S: Source, P: Partition>(
    source: &mut S,
    need: u64,
    onto: &mut P,
    w: &mut Window,
    m: &mut Meter,
) -> Result<(), CopyFault>
    requires covers { S.size source.old ≤ need }
    requires last { need ≤ S.size source.old + 65536 }
    requires room { need ≤ P.size onto.old }
    ensures laid { IsTrue S.models → IsTrue P.models → OnOk result (P.content onto.new
        ≡ put_at (P.content onto.old) 0 (filled_to need (S.content source.old))) }
    ensures broken { IsTrue S.models → IsTrue P.models → IfErr result (λ fault. IsLaidInPart (torn_by fault)
        (S.given source.new - S.given source.old) (S.content source.old) (P.content onto.old) (P.content onto.new)) }
    ensures moves { OnOk result (MovesOnce S.Source P.Partition.own (S.size source.old) need source.old source.new
        onto.old onto.new) }
    ensures lays { OnlyLays result S.Source P.Source P.Partition.own source.old source.new onto.old onto.new }
{
    let held = source.length();
    lay_source(source, held, onto, w, m)?;
    let more = (need - held) as usize;
    lay_zeros(w, more);
    match write_all_at(onto, held, w.part(0, more), m) {
        Ok(()) => Ok(()),
        Err(fault) => Err(CopyFault::Write(fault)),
    }
}

// Overwrites the beginning of a partition with the bytes of a source.
fn lay_source<S: Source, P: Partition>(
    source: &mut S,
    held: u64,
    onto: &mut P,
    w: &mut Window,
    m: &mut Meter,
) -> Result<(), CopyFault>
    requires all { held ≡ S.size source.old }
    requires room { held ≤ P.size onto.old }
    ensures laid { IsTrue S.models → IsTrue P.models → OnOk result (P.content onto.new
        ≡ put_at (P.content onto.old) 0 (S.content source.old)) }
    ensures broken { IsTrue S.models → IsTrue P.models → IfErr result (λ fault. IsLaidInPart (torn_by fault)
        (S.given source.new - S.given source.old) (S.content source.old) (P.content onto.old) (P.content onto.new)) }
    ensures moves { OnOk result (MovesOnce S.Source P.Partition.own held held source.old source.new onto.old
        onto.new) }
    ensures lays { OnlyLays result S.Source P.Source P.Partition.own source.old source.new onto.old onto.new }
{
    let mut at = 0;
    while at < held {
        m.tick();
        let ask = (held - at).min(WINDOW as u64) as usize;
        match lay_step(source, at, ask, onto, w, m) {
            Ok(got) => at += got as u64,
            Err(fault) => return Err(fault),
        }
    }
    Ok(())
}

// Reads at most this many bytes at a position, by one read, and writes them to the same position. Returns their number.
fn lay_step<S: Source, P: Partition>(
    source: &mut S,
    at: u64,
    ask: usize,
    onto: &mut P,
    w: &mut Window,
    m: &mut Meter,
) -> Result<usize, CopyFault>
    requires some { 0 < ask }
    requires window { ask ≤ 65536 }
    requires room { at + ask ≤ P.size onto.old }
    requires below { at + ask < 2 ^ 64 }
    requires there { IsTrue S.models → at + ask ≤ length (S.content source.old) }
    ensures some { IfOk result (λ got. (0 < got) × (got ≤ ask)) }
    ensures laid { IsTrue S.models → IsTrue P.models → IfOk result (λ got. P.content onto.new
        ≡ put_at (P.content onto.old) at (take got (drop at (S.content source.old)))) }
    ensures torn { IsTrue P.models → IfErr result (λ fault. HoldsBut (in_range at (torn_by fault)) (P.content onto.old)
        (P.content onto.new)) }
    ensures content { IsTrue S.models → S.content source.new ≡ S.content source.old }
    // where it fails, no more was read than what was being written
    ensures few { IfErr result (λ fault. (S.given source.old ≤ S.given source.new) ×
        (S.given source.new ≤ S.given source.old + torn_by fault)) }
    ensures moves { IfOk result (λ got. MovesOnce S.Source P.Partition.own got got source.old source.new onto.old
        onto.new) }
    ensures lays { OnlyLays result S.Source P.Source P.Partition.own source.old source.new onto.old onto.new }
{
    match source.read_at(at, w.part_mut(0, ask)) {
        Ok(got) => {
            m.close_step(got as u32);
            if got == 0 {
                return Err(CopyFault::Changed);
            }
            match write_all_at(onto, at, w.part(0, got), m) {
                Ok(()) => Ok(got),
                Err(fault) => Err(CopyFault::Write(fault)),
            }
        }
        Err(fault) => {
            m.close_step(0);
            Err(CopyFault::Read(fault))
        }
    }
}

fn lay_zeros(w: &mut Window, n: usize)
    requires { n ≤ 65536 }
    ensures { slice_range w.new.bytes 0 n ≡ replicate n 0 }
{
    w.part_mut(0, n).fill(0);
}
