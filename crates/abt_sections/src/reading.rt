//! Reads one request from a source to the beginning of the window.

ghost use Rattle.std.specs.Prelude.{◌≡◌, ◌<◌, ◌≤◌, ◌+◌, ◌^◌, IsTrue, OnOk, OnErr, length, take, drop};
ghost use Rattle.std.specs.Prelude.{slice_range};
ghost use Rattle.abt_sections.specs.Asked.{MayAsk};
ghost use Rattle.abt_sections.specs.Reads.{ReadsUnless};

use crate::fault::SectionFault;
use abt_io::{Meter, Source, Window, read_full_at};

/// Begins a step: reads the `ask` bytes from a place on. The caller ends the step once it has used them. Where they
/// don't come, the step is ended here.
#[inline(never)]
pub(crate) fn read_front<S: Source>(
    source: &mut S,
    at: u64,
    ask: usize,
    w: &mut Window,
    m: &mut Meter,
) -> Result<(), SectionFault>
    requires { MayAsk at ask }
    ensures reads { ReadsUnless result S.Source source.old source.new
        (IsTrue S.models → (0 < ask → at + ask ≤ length (S.content source.old)) → ⊥) }
    ensures given { S.given source.new ≤ S.given source.old + ask }
    ensures present { IsTrue S.models → OnOk result (0 < ask → at + ask ≤ length (S.content source.old)) }
    ensures bytes { IsTrue S.models → OnOk result (slice_range w.new.bytes 0 ask
        ≡ take ask (drop at (S.content source.old))) }
    ensures open { OnOk result (m.new.steps.number ≡ m.old.steps.number) }
    ensures ended { OnErr result (m.new.steps.number ≡ m.old.steps.number + 1) }
{
    w.is_whole();
    let gathered = read_full_at(source, at, w.part_mut(0, ask), m);
    if let Some(fault) = gathered.fault {
        m.close_step(gathered.count as u32);
        return Err(SectionFault::Read(fault));
    }
    if gathered.count < ask {
        m.close_step(gathered.count as u32);
        return Err(SectionFault::SourceChanged);
    }
    Ok(())
}

/// How much of what is left one ask takes: up to a window.
pub(crate) fn next_ask(left: u64) -> usize
    ensures some { 0 < left → 0 < result }
    ensures within { result ≤ left }
    ensures room { result ≤ 65536 }
{
    if left < abt_io::WINDOW as u64 {
        left as usize
    } else {
        abt_io::WINDOW
    }
}
