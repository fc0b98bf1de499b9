//! The engine's calls that write the sparse image of a raw one, with the progress of the command.

ghost use Rattle.std.specs.Prelude.{◌≡◌, OnErr};
ghost use Rattle.cmd_cut.specs.Sparsing.{HoldsNoSparse, LaysSparseImage, ReadyToLay};

use abt_io::{Meter, Output, Overwrite, Source, Window};
use abt_placed::sparsify_at;
use abt_sparsify::{Written, sparsify};
use cmd_common_sparse::{Blocks, SparseCommandFault};
use sys_report::Carried;

/// Writes the sparse image of a raw one in place, its magic last.
pub(crate) fn lay_image<S: Source, O: Overwrite>(
    source: &mut Carried<'_, S>,
    blocks: Blocks,
    as_img2simg: bool,
    output: &mut O,
    w: &mut Window,
    m: &mut Meter,
) -> Result<Written, SparseCommandFault>
    requires ready { ReadyToLay as_img2simg blocks (S.size source.old.device) (O.written output.old) }
    ensures lays { LaysSparseImage result S.models as_img2simg blocks.size (S.content source.old.device)
        (O.written output.new) (S.read_faults source.old.device) (S.read_faults source.new.device)
        (O.write_faults output.old) (O.write_faults output.new) }
    ensures frame { O.write_frame output.new ≡ O.write_frame output.old }
    ensures broken { OnErr result (HoldsNoSparse (O.written output.new)) }
{
    let Blocks { size, most } = blocks;
    match sparsify_at(source, size, as_img2simg, most, output, w, m) {
        Ok(written) => Ok(written),
        Err(fault) => Err(SparseCommandFault::Piece(fault)),
    }
}

/// Writes the same from its first byte on.
pub(crate) fn write_image<S: Source, O: Output>(
    source: &mut Carried<'_, S>,
    blocks: Blocks,
    as_img2simg: bool,
    output: &mut O,
    w: &mut Window,
    m: &mut Meter,
) -> Result<Written, SparseCommandFault>
    requires ready { ReadyToLay as_img2simg blocks (S.size source.old.device) (O.written output.old) }
    ensures lays { LaysSparseImage result S.models as_img2simg blocks.size (S.content source.old.device)
        (O.written output.new) (S.read_faults source.old.device) (S.read_faults source.new.device)
        (O.write_faults output.old) (O.write_faults output.new) }
    ensures frame { O.write_frame output.new ≡ O.write_frame output.old }
{
    let Blocks { size, most } = blocks;
    match sparsify(source, size, as_img2simg, most, output, w, m) {
        Ok(written) => Ok(written),
        Err(fault) => Err(SparseCommandFault::Piece(fault)),
    }
}
