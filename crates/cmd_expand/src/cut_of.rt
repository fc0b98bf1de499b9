//! Whether images are pieces of one cut. The names of their files and the blocks that they write decide it.

ghost use Rattle.std.specs.Prelude.{◌≡◌, ℕ, List, None, IsTrue, IfOk, IfSome};
ghost use Rattle.abt_runs.specs.Found.{ReadsImage};
ghost use Rattle.abt_runs.specs.Part.{is_end as ends};
ghost use Rattle.cmd_common_sparse.specs.ImagePath.{image_path};
ghost use Rattle.cmd_expand.specs.Overlaying.{IsPieceAt};
ghost use Rattle.cmd_expand.specs.CutOf.{IsSpanOf, Said, TellsPiece, is_of_other_cut, is_turned, span_with};

use abt_io::{Meter, Source, Window};
use abt_runs::{BlockRuns, RunFault, RunKind};
use sys_numbered_names::number_behind;

/// The range from the first block that an image writes to the one after the last.
#[derive(Clone, Copy, Drop)]
pub struct Span {
    pub first: u32,
    pub past: u32,
}

/// An image that writes blocks and whose file has the name of a piece: PREFIX, a point and its number.
#[derive(Clone, Copy, Drop)]
pub struct CutPiece<'a> {
    pub front: &'a str,
    pub number: u32,
    pub span: Span,
}

/// The path that the argument of an image names.
pub(crate) fn path_of_word<'a>(input: &'a str) -> &'a str
    ensures { result.now ≡ image_path input.now }
{
    if input == "-" { "/dev/stdin" } else { input }
}

/// Whether two images can't be pieces of one cut: PREFIX is the same, and a block of one is not before those of the next.
pub(crate) fn is_of_other_cut(own: Option<CutPiece<'_>>, other: Option<CutPiece<'_>>) -> bool
    ensures { result ≡ is_of_other_cut own.entry other.entry }
{
    match (own, other) {
        (Some(own), Some(other)) => {
            own.front == other.front && (is_turned(own, other) || is_turned(other, own))
        }
        _ => false,
    }
}

// Whether the first has the lesser number, and a block that is not before one of the second.
fn is_turned(first: CutPiece<'_>, second: CutPiece<'_>) -> bool
    ensures { result ≡ is_turned first.entry second.entry }
{
    first.number < second.number && second.span.first < first.span.past
}

/// The piece that an image is, by its path, if its path is that of a piece and the image writes blocks.
pub(crate) fn piece_of<'a, R: BlockRuns, S: Source>(
    path: &'a str,
    image: &R,
    source: &mut S,
    w: &mut Window,
    m: &mut Meter,
) -> Result<Option<CutPiece<'a>>, RunFault>
    requires opened { IsTrue S.models → R.opened image.now (S.content source.old) }
    ensures walks { ReadsImage result S.Source source.old source.new }
    ensures piece { IsTrue S.models → IfOk result (λ piece. TellsPiece piece path.now
        (Said (R.list image.now (S.content source.old)))) }
{
    let Some((front, number)) = piece_name(path) else {
        return Ok(None);
    };
    match span_of(image, source, w, m) {
        Ok(Some(span)) => Ok(Some(CutPiece {
            front,
            number,
            span,
        })),
        Ok(None) => Ok(None),
        Err(fault) => Err(fault),
    }
}

// The PREFIX and the number of the piece that has this path.
fn piece_name<'a>(path: &'a str) -> Option<(&'a str, u32)>
    ensures some { IfSome result (λ name. IsPieceAt name.0.now name.1 path.now) }
    ensures none { result ≡ None → (front : List ℕ) → (number : ℕ) → ¬ IsPieceAt front number path.now }
{
    let Some((front, _)) = path.rsplit_once('.') else {
        return None;
    };
    match number_behind(path, front) {
        Some(number) => {
            if number > 0 {
                Some((front, number))
            } else {
                None
            }
        }
        None => None,
    }
}

// The blocks that an image writes. Each part of the image is read.
fn span_of<R: BlockRuns, S: Source>(
    runs: &R,
    source: &mut S,
    w: &mut Window,
    m: &mut Meter,
) -> Result<Option<Span>, RunFault>
    requires opened { IsTrue S.models → R.opened runs.now (S.content source.old) }
    ensures reads { ReadsImage result S.Source source.old source.new }
    ensures span { IsTrue S.models → IfOk result (λ span. IsSpanOf span
        (Said (R.list runs.now (S.content source.old)))) }
{
    let mut at = runs.start();
    let mut found = None;
    'parts: loop {
        m.tick();
        let part = match runs.next_part(source, at, u32::MAX, w, m) {
            Ok(part) => part,
            Err(fault) => return Err(fault),
        };
        if is_end(part.kind) {
            return Ok(found);
        }
        found = with_part(found, part.kind, at.block, part.next.block);
        at = part.next;
    }
}

fn is_end(kind: RunKind) -> bool
    ensures end { result ≡ ends kind }
{
    match kind {
        RunKind::End => true,
        RunKind::Raw | RunKind::Fill(_) | RunKind::Skip => false,
    }
}

// Extends the range by the blocks of a part, from the first up to the one after the last.
fn with_part(found: Option<Span>, kind: RunKind, first: u32, past: u32) -> Option<Span>
    ensures { result ≡ span_with found kind first past }
{
    let is_given = match kind {
        RunKind::Raw | RunKind::Fill(_) => first < past,
        RunKind::Skip | RunKind::End => false,
    };
    match found {
        _ if !is_given => found,
        Some(span) => Some(Span { past, ..span }),
        None => Some(Span { first, past }),
    }
}
