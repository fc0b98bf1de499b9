//! The exit status and message of a command's result.

ghost use Rattle.std.specs.Prelude.{◌≡◌, IfErr, OnOk, if◌then◌else◌, min};
ghost use Rattle.sys_host.specs.Answering.{PrintsNothing};
ghost use Rattle.sys_report.specs.Shows.{IsTold};

use sys_host::{Telling, answer};
use sys_refusals::{Refusal, Told};
use sys_report::Report;

/// The exit status of a command's result, of which the user is told. The status is no higher than this. This is a call of
/// its own, so the stack for the text is not in use while a command runs.
#[inline(never)]
pub(crate) fn told_at_most<F: Told + Drop>(
    end: Result<(), Refusal<'_, F>>,
    most: u8,
    how: Telling,
    rt: HostRuntime,
    report: &mut Report,
) -> u8
    ensures done { OnOk end.entry (result ≡ 0) }
    ensures quiet { OnOk end.entry (PrintsNothing report.old report.new) }
    ensures noted { IsTold report.old report.new }
    ensures refused { IfErr end.entry (λ refusal. result ≡ min (if F.wrong_words refusal.fault then 2 else 1) most) }
{
    answer(end, how, rt, report).min(most)
}
