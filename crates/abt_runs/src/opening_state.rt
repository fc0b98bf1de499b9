//! The numbers of an opening between two steps.
ghost use Rattle.std.specs.Prelude.{◌≤◌, ◌≡◌, ◌+◌, ◌*◌, true};
ghost use Rattle.abt_runs.specs.Stage.{is_first, is_behind, is_opening_done};

use crate::stage::OpeningStage;
use abt_sparse::SparseHeader;

/// An opening of a sparse image: it goes through all chunk headers, step by step, and passes over
/// the data between them by position. It holds numbers and the image's header alone.
#[derive(Clone, Copy, Drop)]
pub struct SparseOpening {
    /// What it does next.
    pub stage: OpeningStage,
    /// The image's header, once it was read.
    pub header: SparseHeader,
    /// How long the source is, in bytes.
    pub length: u64,
    /// How many chunks were passed.
    pub index: u32,
    /// How many blocks these have.
    pub have: u32,
    /// Where the next chunk's header begins, in bytes.
    pub at: u64,
    pub ghost counted: { index ≤ header.total_chunks },
    pub ghost room: { have ≤ header.total_blks },
    pub ghost inside: { at ≤ length },
    pub ghost placed: { at ≤ 65535 + 4294967295 * index },
    pub ghost first: { is_first stage ≡ true → at ≡ 0 },
    pub ghost behind: { is_behind stage ≡ true → header.file_hdr_sz ≤ at },
    pub ghost whole: { is_opening_done stage ≡ true → (index ≡ header.total_chunks) × (have ≡ header.total_blks) },
}
