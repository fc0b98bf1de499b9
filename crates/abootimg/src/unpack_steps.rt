//! What the steps of unpacking an image share: a folder is made, and a step is refused.

ghost use Rattle.std.specs.Prelude.{◌≡◌, ◌≢◌, ◌⊎◌, [], IsTrue};
ghost use Rattle.sys_disk.specs.Counts.{call};
ghost use Rattle.sys_refusals.specs.declared.refusal.HostFault.TheVariants.{CannotOpen};
ghost use Rattle.sys_report.specs.Shows.{IsTold};
ghost use Rattle.abootimg.specs.Stored.{FailsBetween};
ghost use Rattle.abootimg.specs.UnpackEnds.{StepStays};

use crate::outcome::told_at_most;
use crate::storage::Storage;
use cmd_common_boot::BootCommandFault;
use sys_host::{DONE, REFUSED, Telling};
use sys_refusals::{FileArg, HostFault, HostRefusal, Refusal};
use sys_report::Report;
use words_program::refused;

// The number of the system's error for a path that does not exist.
const NOT_THERE: i32 = 2;

/// Makes a folder, if it does not exist.
#[inline(never)]
pub(crate) fn make_folder<S: Storage>(
    rt: HostRuntime,
    path: &str,
    how: Telling,
    storage: &mut S,
    report: &mut Report,
) -> u8
    ensures stays { IsTrue S.Disk.models → StepStays (S.its storage.old) report.old (S.its storage.new) report.new
        result }
    // it fails if the path is empty, or since the call fails
    ensures refused { IsTrue S.Disk.models → result ≢ 0 → (path.now ≡ [])
        ⊎ FailsBetween (S.its storage.old) (S.its storage.new) (call CannotOpen) }
{
    if path.is_empty() {
        return refused_step(rt, cannot_make(path, Some(NOT_THERE)), how, report);
    }
    make_folder_at(rt, path, how, storage, report)
}

/// Makes a folder at a path that is not empty.
pub(crate) fn make_folder_at<S: Storage>(
    rt: HostRuntime,
    path: &str,
    how: Telling,
    storage: &mut S,
    report: &mut Report,
) -> u8
    ensures stays { IsTrue S.Disk.models → StepStays (S.its storage.old) report.old (S.its storage.new) report.new
        result }
    ensures refused { IsTrue S.Disk.models → result ≢ 0 → FailsBetween (S.its storage.old) (S.its storage.new)
        (call CannotOpen) }
{
    match storage.make_folder(path) {
        Ok(()) => DONE,
        Err(error) => refused_step(rt, cannot_make(path, error.raw_os_error()), how, report),
    }
}

pub(crate) fn cannot_make<'a>(path: &'a str, why: Option<i32>) -> HostRefusal<'a> {
    HostRefusal::at(HostFault::CannotOpen, FileArg::new("DIR", path), why)
}

/// Tells why a step is refused. No file of words is read then, so the status is 1.
pub(crate) fn refused_step(
    rt: HostRuntime,
    refusal: HostRefusal<'_>,
    how: Telling,
    report: &mut Report,
) -> u8
    ensures { result ≡ 1 }
{
    let _status = refused(rt, refusal, how, report);
    REFUSED
}

/// Tells why a step is refused, where it works on the image. The status is 1, too.
pub(crate) fn refused_image(
    rt: HostRuntime,
    refusal: Refusal<'_, BootCommandFault<'static>>,
    how: Telling,
    report: &mut Report,
) -> u8
    ensures status { result ≡ 1 }
    ensures noted { IsTold report.old report.new }
{
    let _status = told_at_most(Err(refusal), REFUSED, how, rt, report);
    REFUSED
}
