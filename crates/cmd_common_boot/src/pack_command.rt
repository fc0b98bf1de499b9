//! The parsed arguments of `pack` and `repack`, and the checks of those of `pack`.

ghost use Rattle.std.specs.Prelude.{◌≡◌, Err, IsOk, IsTrue, IfOk, IfErr, OnOk, false};
ghost use Rattle.std.specs.List.{All};
ghost use Rattle.abt_sections.specs.Fields.{cmd_common_fields};
ghost use Rattle.cmd_common_boot.specs.Carried.{IsCarried, IsTaken};
ghost use Rattle.cmd_common_boot.specs.Fault.{of_version};
ghost use Rattle.cmd_common_boot.specs.Given.{AreGiven, no_fields};
ghost use Rattle.cmd_common_boot.specs.Wrong.{IsWrong};
ghost use Rattle.cmd_common_fields.specs.Kind.{is_version, kind_for};

use crate::fault::BootCommandFault;
use crate::pack_fields::{no_fields, with_given};
use crate::pack_texts::PackTexts;
use abt_sections::BootSpec;
use cmd_common_fields::ImageKind;
use std::alloc::Global;

/// A call of `pack` or `repack`, with its options parsed.
#[derive(Drop)]
pub struct PackCommand<'a> {
    pub alloc: Global,
    pub output: &'a str,
    pub is_vendor: bool,
    /// The header version of `pack`; 0 for `repack`.
    pub version: u32,
    pub page: Option<u32>,
    pub texts: PackTexts<'a>,
    pub board_ids: Vec<&'a str>,
    pub keeps_trailing: bool,
}

/// The kind of image that the arguments describe, and its fields.
pub fn judge_words<'t, 'a>(
    command: &'t PackCommand<'a>,
) -> Result<(ImageKind, BootSpec<'t>), BootCommandFault<'a>>
    ensures version { is_version command.now.is_vendor command.now.version ≡ false →
        result ≡ Err (of_version command.now.version) }
    ensures kind { IfOk result (λ judged. judged.0 ≡ kind_for command.now.is_vendor command.now.version) }
    ensures known { IsOk result → IsTrue (is_version command.now.is_vendor command.now.version) }
    ensures carried { OnOk result (All (IsCarried (kind_for command.now.is_vendor command.now.version))
        command.now.texts.options.items) }
    ensures taken { OnOk result (All (IsTaken (kind_for command.now.is_vendor command.now.version))
        command.now.texts.fragments.items) }
    ensures given { IfOk result (λ judged. AreGiven no_fields judged.0 command.now.page
        command.now.texts.options.items (cmd_common_fields judged.1)) }
    ensures wrong { IfErr result (IsWrong no_fields (kind_for command.now.is_vendor command.now.version)
        command.now.texts.options.items command.now.texts.fragments.items) }
{
    let kind = match ImageKind::new(command.is_vendor, command.version) {
        Ok(kind) => kind,
        Err(fault) => return Err(BootCommandFault::of_header(fault)),
    };
    match command.texts.check(kind) {
        Ok(()) => {}
        Err(fault) => return Err(fault),
    }
    match with_given(no_fields(), kind, command.page, &command.texts) {
        Ok(fields) => Ok((kind, fields)),
        Err(fault) => Err(fault),
    }
}
