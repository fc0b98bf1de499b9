//! Selects the command of boot images.

ghost use Rattle.std.specs.Prelude.{◌≡◌, IsTrue, IfErr, IfOk, OnOk};
ghost use Rattle.sys_disk.specs.World.{HasNotFailed, IsReading};
ghost use Rattle.sys_refusals.specs.Paths.{path_of};
ghost use Rattle.cmd_boot_dispatch.specs.Commands.{DoesKind, IsKindOf, LeavesNoPartOfBoot, RefusesKind, SparesKind};

use crate::pack_order::command_of;
use abt_io::{Meter, Window};
use cmd_common_boot::{BootOutcome, PackCommand};
use cmd_info::info_file;
use cmd_pack::{pack_file, repack_file};
use cmd_unpack::unpack_file;
use std::alloc::Global;
use sys_disk::{Disk, NoMemory};
use sys_refusals::FileArg;
use sys_report::Report;
use words_orders::BootTask;

/// A command of boot images, with its arguments parsed.
#[derive(Drop)]
pub struct BootCommand<'a> {
    pub kind: BootCommandKind<'a>,
}

/// Which command it is.
#[derive(Drop)]
pub enum BootCommandKind<'a> {
    Pack(PackCommand<'a>),
    Repack {
        input: &'a str,
        command: PackCommand<'a>,
    },
    Unpack {
        input: &'a str,
        folder: &'a str,
        with_words: bool,
    },
    Info {
        input: &'a str,
        with_check: bool,
        with_hex: bool,
    },
}

impl<'a> BootCommand<'a> {
    /// Decodes the arguments that encode bytes.
    pub fn new(alloc: Global, task: BootTask<'a>) -> Result<BootCommand<'a>, NoMemory>
        ensures { IfOk result (λ command. IsKindOf task.entry command.kind) }
    {
        let kind = match task {
            BootTask::Pack(order) => match command_of(alloc, order) {
                Ok(command) => BootCommandKind::Pack(command),
                Err(refused) => return Err(refused),
            },
            BootTask::Repack { input, order } => match command_of(alloc, order) {
                Ok(command) => BootCommandKind::Repack { input, command },
                Err(refused) => return Err(refused),
            },
            BootTask::Unpack {
                input,
                folder,
                with_words,
            } => BootCommandKind::Unpack {
                input,
                folder,
                with_words,
            },
            BootTask::Info {
                input,
                with_check,
                with_hex,
            } => BootCommandKind::Info {
                input,
                with_check,
                with_hex,
            },
        };
        Ok(BootCommand { kind })
    }
}

/// Runs a command.
pub fn boot_command<'t, 'a, D: Disk>(
    disk: &mut D,
    report: &mut Report,
    command: &'t BootCommand<'a>,
    w: &mut Window,
    m: &mut Meter,
) -> BootOutcome<'t, 'a>
    requires first { IsTrue D.models → IsReading (D.held disk.old) }
    // it is done by its own body, on the files that its arguments name
    ensures done { IsTrue D.models → OnOk result (DoesKind D.on_output command.now.kind (D.world disk.old)
        (D.held disk.old) report.old (D.world disk.new) (D.held disk.new) report.new) }
    // whatever the outcome, the files that it reads hold what they held, and only its outputs may have changed
    ensures spares { IsTrue D.models → SparesKind command.now.kind (D.world disk.old) (D.held disk.old)
        (D.world disk.new) (D.held disk.new) }
    ensures whole { IsTrue D.models
        → LeavesNoPartOfBoot D.is_over command.now.kind (D.world disk.old) (D.world disk.new) }
    // the result is Ok only where nothing failed
    ensures clean { IsTrue D.models → OnOk result (HasNotFailed (D.held disk.old) (D.held disk.new)) }
    // it fails for a cause for which its body fails
    ensures refused { IsTrue D.models → IfErr result (λ refusal. RefusesKind refusal.fault command.now.kind
        (D.world disk.old) (D.held disk.old) report.old (D.world disk.new) (D.held disk.new) report.new) }
{
    match &command.kind {
        BootCommandKind::Pack(command) => pack_file(disk, report, command, w, m),
        BootCommandKind::Repack { input, command } => {
            repack_file(disk, report, input_at(input), command, w, m)
        }
        BootCommandKind::Unpack {
            input,
            folder,
            with_words,
        } => unpack_file(disk, report, input_at(input), folder, *with_words, w, m),
        BootCommandKind::Info {
            input,
            with_check,
            with_hex,
        } => info_file(disk, report, input_at(input), *with_check, *with_hex, w, m),
    }
}

// The file that an argument names, where `-` is a file of that name.
fn input_at<'a>(word: &'a str) -> FileArg<'a>
    ensures { path_of result ≡ word.now }
{
    FileArg {
        role: "IN",
        folder: None,
        name: word,
        number: None,
    }
}
