//! Texts and messages that no command prints itself.

ghost use Rattle.std.specs.Prelude.{◌≡◌, ◌≤◌, ◌++◌, IfSome, if◌then◌else◌};
ghost use Rattle.sys_refusals.specs.Host.{is_not_text};

use cmd_common_sparse::SparseRefusal;
use std::fmt;
use sys_host::{DONE, Telling, answer};
use sys_refusals::HostRefusal;
use sys_report::Report;
use sys_text::Text;

/// Prints a text that is asked for, and returns the exit status.
pub fn print<D: fmt::Display + Drop>(
    rt: HostRuntime,
    shown: D,
    how: Telling,
    report: &mut Report,
) -> u8
    ensures done { result ≡ 0 → IfSome (D.output shown) (λ told. report.new.out.log.state.bytes ≡
        report.old.out.log.state.bytes ++ told) }
    ensures status { result ≤ 2 }
{
    let Ok(shown) = format!(in rt.alloc(); "{shown}") else {
        return refused(rt, HostRefusal::memory(), how, report);
    };
    let mut text = Text::new(&mut report.out);
    text.word(shown.as_str());
    let is_whole = text.finish().is_ok();
    if is_whole {
        return DONE;
    }
    refused(rt, report.cannot_print(), how, report)
}

/// Tells why a run fails before its command begins, and returns the exit status.
#[inline(never)]
pub fn refused(rt: HostRuntime, refusal: HostRefusal<'_>, how: Telling, report: &mut Report) -> u8
    ensures { result ≡ (if is_not_text refusal.entry.fault then 2 else 1) }
{
    answer(Err(SparseRefusal::from(refusal)), how, rt, report)
}
