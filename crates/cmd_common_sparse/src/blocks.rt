//! The blocks of a raw image.

ghost use Rattle.std.specs.Prelude.{◌≡◌, ◌<◌, ◌≤◌, ◌+◌, ◌-◌, ◌*◌, ◌^◌, IfErr, IfOk, OnOk};
ghost use Rattle.abt_runs.specs.Raw.{RefusedRaw};
ghost use Rattle.cmd_common_sparse.specs.Blocks.{IsRawBlockSize, most_of};

use abt_io::Source;
use abt_runs::{BlockRuns, RawRuns, RunFault};

/// How many bytes of data a raw chunk has at most: whole blocks in 64 MiB.
const CHUNK_DATA: u32 = 67_108_864;

/// The same as img2simg has it: with the 12 of its header, the bytes of a chunk are a number below 2 ^ 32.
const CHUNK_DATA_IMG2SIMG: u32 = 4_294_967_283;

/// The blocks of a raw image, and of its raw chunks.
#[derive(Clone, Copy, Drop)]
pub struct Blocks {
    /// How many bytes a block has.
    pub size: u32,
    /// How many blocks a raw chunk has at most.
    pub most: u32,
    ghost some: { 1 ≤ most },
    ghost small: { 12 + most * size < 2 ^ 32 },
}

/// The blocks of a raw image, and of its raw chunks, where the image is made as img2simg does it, or not. A block size
/// that no raw image can have fails before anything is divided by it.
pub fn blocks_of<S: Source>(source: &S, size: u32, as_img2simg: bool) -> Result<Blocks, RunFault>
    ensures size { IfOk result (λ blocks. blocks.size ≡ size) }
    ensures most { IfOk result (λ blocks. blocks.most ≡ most_of as_img2simg size) }
    ensures granted { OnOk result (IsRawBlockSize size) }
    ensures few { OnOk result (S.size source.now ≤ (2 ^ 32 - 1) * size) }
    ensures refused { IfErr result (λ fault. RefusedRaw fault size (S.size source.now)) }
{
    let runs = RawRuns::open(source, size)?;
    let data = if as_img2simg {
        CHUNK_DATA_IMG2SIMG
    } else {
        CHUNK_DATA
    };
    let most = data / runs.block_size();
    Ok(Blocks { size, most })
}
