//! The commands of sparse images over any disk: each is one call of its body, with the files that the arguments name.

ghost use Rattle.std.specs.Prelude.{◌≡◌, [], None, Some, IsTrue, IfErr, OnOk, map};
ghost use Rattle.sys_refusals.specs.Paths.{output_path};
ghost use Rattle.sys_disk.specs.World.{IsReading};
ghost use Rattle.sys_disk.specs.DiskCalls.{HasNoPart};
ghost use Rattle.cmd_flash.specs.Files.{MayFlashPieces};
ghost use Rattle.cmd_cut.specs.Sparsing.{HoldsNoPartOfSparse};
ghost use Rattle.cmd_expand.specs.Overlaying.{MayOverlay};
ghost use Rattle.cmd_common_sparse.specs.PieceNames.{naming_of};
ghost use Rattle.cmd_sparse_dispatch.specs.Commands.{Cuts, ExpandsImages, FlashesImage, ListsImage, Sparsifies};
ghost use Rattle.cmd_sparse_dispatch.specs.Commands.{VerifiesImage, state};
ghost use Rattle.cmd_sparse_dispatch.specs.Commands.{RefusesCutting, RefusesExpand, RefusesFlashing, RefusesListing};
ghost use Rattle.cmd_sparse_dispatch.specs.Commands.{RefusesSparse, RefusesVerifying};
ghost use Rattle.cmd_sparse_dispatch.specs.Commands.{LeavesSpared, SparesCut, SparesExpanded, SparesFlashed};
ghost use Rattle.cmd_sparse_dispatch.specs.Commands.{SparesSparsified, SparesWorld};

use crate::task_files::place;
use abt_io::{Meter, Window};
use cmd_common_sparse::{PieceNaming, SparseRefusal, image_place};
use cmd_cut::{Cutting, cut_file, sparse_file};
use cmd_expand::{expand_one, expand_several};
use cmd_flash::{
    flash_file, flash_pieces_file, flash_raw_file, list_file, verify_file, verify_raw_file,
};
use std::alloc::Global;
use sys_disk::Disk;
use sys_report::Report;
use words_orders::Pieces;

/// Writes the raw image of a sparse one, or of several that overwrite one another, and prints what it has.
///
/// For one image, `-` is standard input, and standard output.
#[inline(never)]
pub(crate) fn expand_files<'a, D: Disk>(
    disk: &mut D,
    report: &mut Report,
    inputs: &[&'a str],
    output: &'a str,
    alloc: Global,
    w: &mut Window,
    m: &mut Meter,
) -> Result<(), SparseRefusal<'a>>
    requires ready { IsTrue D.models → MayOverlay (D.held disk.old) }
    ensures done { IsTrue D.models → OnOk result (ExpandsImages D.on_output (map (λ word. word.now) inputs.now)
        output.now
        (state (D.world disk.old) (D.held disk.old) report.old)
        (state (D.world disk.new) (D.held disk.new) report.new)) }
    ensures leaves { IsTrue D.models → LeavesSpared result (SparesExpanded (map (λ word. word.now) inputs.now)
        output.now)
        (state (D.world disk.old) (D.held disk.old) report.old)
        (state (D.world disk.new) (D.held disk.new) report.new) }
    ensures refused { IsTrue D.models → IfErr result (λ refusal. RefusesExpand refusal.fault
        (map (λ word. word.now) inputs.now) output.now
        (state (D.world disk.old) (D.held disk.old) report.old)
        (state (D.world disk.new) (D.held disk.new) report.new)) }
{
    let output = place("OUT", output);
    if inputs.len() != 1 {
        return expand_several(disk, report, inputs, output, alloc, w, m);
    }
    expand_one(disk, report, place("IN", inputs[0]), output, w, m)
}

/// Writes the sparse image of a raw one, and prints what it has. `-` is standard output. With `as_img2simg` the image
/// is as that tool makes it.
#[inline(never)]
pub(crate) fn sparsify<'a, D: Disk>(
    disk: &mut D,
    report: &mut Report,
    input: &'a str,
    output: &'a str,
    block: u32,
    as_img2simg: bool,
    w: &mut Window,
    m: &mut Meter,
) -> Result<(), SparseRefusal<'a>>
    requires first { IsTrue D.models → IsReading (D.held disk.old) }
    ensures done { IsTrue D.models → OnOk result (Sparsifies D.on_output input.now output.now block as_img2simg
        (state (D.world disk.old) (D.held disk.old) report.old)
        (state (D.world disk.new) (D.held disk.new) report.new)) }
    ensures leaves { IsTrue D.models → LeavesSpared result (SparesSparsified input.now output.now)
        (state (D.world disk.old) (D.held disk.old) report.old)
        (state (D.world disk.new) (D.held disk.new) report.new) }
    ensures whole { IsTrue D.models → IsTrue (D.is_over (output_path output.now)) →
        HoldsNoPartOfSparse input.now (output_path output.now) as_img2simg block (D.world disk.old)
        (D.world disk.new) }
    ensures refused { IsTrue D.models → IfErr result (λ refusal. RefusesSparse refusal.fault input.now output.now block
        as_img2simg (state (D.world disk.old) (D.held disk.old) report.old)
        (state (D.world disk.new) (D.held disk.new) report.new)) }
{
    sparse_file(
        disk,
        report,
        place("IN", input),
        place("OUT", output),
        block,
        as_img2simg,
        w,
        m,
    )
}

/// Cuts an image into pieces of at most this many bytes, each in a file of its own. The image is raw where the number
/// of bytes of its blocks is given.
#[inline(never)]
pub(crate) fn cut_image<'a, D: Disk>(
    disk: &mut D,
    report: &mut Report,
    input: &'a str,
    limit: u32,
    names: PieceNaming<'a>,
    raw: Option<u32>,
    w: &mut Window,
    m: &mut Meter,
) -> Result<(), SparseRefusal<'a>>
    requires first { IsTrue D.models → IsReading (D.held disk.old) }
    ensures done { IsTrue D.models → OnOk result (Cuts D.on_output input.now limit (naming_of names.entry) raw
        (state (D.world disk.old) (D.held disk.old) report.old)
        (state (D.world disk.new) (D.held disk.new) report.new)) }
    ensures leaves { IsTrue D.models → LeavesSpared result (SparesCut input.now names.entry.prefix.now)
        (state (D.world disk.old) (D.held disk.old) report.old)
        (state (D.world disk.new) (D.held disk.new) report.new) }
    ensures refused { IsTrue D.models → IfErr result (λ refusal. RefusesCutting refusal.fault input.now limit
        (naming_of names.entry) raw
        (state (D.world disk.old) (D.held disk.old) report.old)
        (state (D.world disk.new) (D.held disk.new) report.new)) }
{
    let order = Cutting {
        input: place("IN", input),
        limit,
        names,
        raw,
    };
    cut_file(disk, report, order, w, m)
}

/// Prints the header and each chunk of a sparse image.
#[inline(never)]
pub(crate) fn list_image<'a, D: Disk>(
    disk: &mut D,
    report: &mut Report,
    input: &'a str,
    w: &mut Window,
    m: &mut Meter,
) -> Result<(), SparseRefusal<'a>>
    requires first { IsTrue D.models → (D.held disk.old).begun ≡ [] }
    ensures done { IsTrue D.models → OnOk result (ListsImage input.now
        (state (D.world disk.old) (D.held disk.old) report.old)
        (state (D.world disk.new) (D.held disk.new) report.new)) }
    ensures leaves { IsTrue D.models → LeavesSpared result SparesWorld
        (state (D.world disk.old) (D.held disk.old) report.old)
        (state (D.world disk.new) (D.held disk.new) report.new) }
    ensures refused { IsTrue D.models → IfErr result (λ refusal. RefusesListing refusal.fault input.now
        (state (D.world disk.old) (D.held disk.old) report.old)
        (state (D.world disk.new) (D.held disk.new) report.new)) }
{
    list_file(disk, report, place("IN", input), w, m)
}

/// Flashes a sparse image straight to a partition, or a raw one in blocks of this many bytes.
#[inline(never)]
pub(crate) fn flash_straight<'a, D: Disk>(
    disk: &mut D,
    report: &mut Report,
    input: &'a str,
    partition: &'a str,
    raw: Option<u32>,
    w: &mut Window,
    m: &mut Meter,
) -> Result<(), SparseRefusal<'a>>
    requires ready { IsTrue D.models → HasNoPart (D.held disk.old) }
    ensures done { IsTrue D.models → OnOk result (FlashesImage D.on_output input.now partition.now raw None
        (state (D.world disk.old) (D.held disk.old) report.old)
        (state (D.world disk.new) (D.held disk.new) report.new)) }
    ensures leaves { IsTrue D.models → LeavesSpared result (SparesFlashed input.now partition.now None)
        (state (D.world disk.old) (D.held disk.old) report.old)
        (state (D.world disk.new) (D.held disk.new) report.new) }
    ensures refused { IsTrue D.models → IfErr result (λ refusal. RefusesFlashing refusal.fault input.now
        partition.now raw None
        (state (D.world disk.old) (D.held disk.old) report.old)
        (state (D.world disk.new) (D.held disk.new) report.new)) }
{
    let partition = place("PARTITION", partition);
    match raw {
        Some(size) => flash_raw_file(disk, report, image_place(input), partition, size, w, m),
        None => flash_file(disk, report, place("IN", input), partition, w, m),
    }
}

/// Flashes an image in pieces that are written through a file, from the piece that the arguments name on.
#[inline(never)]
pub(crate) fn flash_pieces<'a, D: Disk>(
    disk: &mut D,
    report: &mut Report,
    input: &'a str,
    partition: &'a str,
    raw: Option<u32>,
    pieces: Pieces<'a>,
    w: &mut Window,
    m: &mut Meter,
) -> Result<(), SparseRefusal<'a>>
    requires ready { IsTrue D.models → MayFlashPieces (D.held disk.old) }
    ensures done { IsTrue D.models → OnOk result (FlashesImage D.on_output input.now partition.now raw
        (Some pieces.entry)
        (state (D.world disk.old) (D.held disk.old) report.old)
        (state (D.world disk.new) (D.held disk.new) report.new)) }
    ensures leaves { IsTrue D.models → LeavesSpared result (SparesFlashed input.now partition.now (Some pieces.entry))
        (state (D.world disk.old) (D.held disk.old) report.old)
        (state (D.world disk.new) (D.held disk.new) report.new) }
    ensures refused { IsTrue D.models → IfErr result (λ refusal. RefusesFlashing refusal.fault input.now
        partition.now raw (Some pieces.entry)
        (state (D.world disk.old) (D.held disk.old) report.old)
        (state (D.world disk.new) (D.held disk.new) report.new)) }
{
    let Pieces { limit, spool, from } = pieces;
    let input = image_place(input);
    let partition = place("PARTITION", partition);
    let spool = place("SPOOL", spool);
    flash_pieces_file(
        disk, report, input, partition, raw, limit, spool, from, w, m,
    )
}

/// Compares an image with what a partition holds: a sparse one, or a raw one in blocks of this many bytes.
#[inline(never)]
pub(crate) fn verify_image<'a, D: Disk>(
    disk: &mut D,
    report: &mut Report,
    input: &'a str,
    partition: &'a str,
    raw: Option<u32>,
    w: &mut Window,
    m: &mut Meter,
) -> Result<(), SparseRefusal<'a>>
    requires first { IsTrue D.models → (D.held disk.old).begun ≡ [] }
    ensures done { IsTrue D.models → OnOk result (VerifiesImage input.now partition.now raw
        (state (D.world disk.old) (D.held disk.old) report.old)
        (state (D.world disk.new) (D.held disk.new) report.new)) }
    ensures leaves { IsTrue D.models → LeavesSpared result SparesWorld
        (state (D.world disk.old) (D.held disk.old) report.old)
        (state (D.world disk.new) (D.held disk.new) report.new) }
    ensures refused { IsTrue D.models → IfErr result (λ refusal. RefusesVerifying refusal.fault input.now
        partition.now raw
        (state (D.world disk.old) (D.held disk.old) report.old)
        (state (D.world disk.new) (D.held disk.new) report.new)) }
{
    let partition = place("PARTITION", partition);
    match raw {
        Some(size) => verify_raw_file(disk, report, image_place(input), partition, size, w, m),
        None => verify_file(disk, report, place("IN", input), partition, w, m),
    }
}
