//! Opens the images that overwrite one another. All are opened and their shapes compared before anything is written.

ghost use Rattle.std.specs.Prelude.{◌≡◌, ◌+◌, [], IsTrue, IfOk, IfErr, OnOk, map, min};
ghost use Rattle.std.specs.List.{AllByRecursion, list_any};
ghost use Rattle.abt_io.specs.Lent.{OnlyReads};
ghost use Rattle.sys_refusals.specs.Paths.{path_of};
ghost use Rattle.sys_disk.specs.World.{OpensFile};
ghost use Rattle.cmd_common_sparse.specs.ImagePath.{image_path};
ghost use Rattle.cmd_expand.specs.CutOf.{NextPiece, TellsPiece, is_of_other_cut};
ghost use Rattle.cmd_expand.specs.Overlaying.{AreInTurn, FileGives, GivesBlock, IsImageOf};
ghost use Rattle.cmd_expand.specs.Steps.{AreOpened, OpensAlone, OpensNext, IsShapeOf, is_same_shape};
ghost use Rattle.cmd_expand.specs.Steps.{IsNotAllOpened, IsNotNext, IsNotOpened, IsNotRead};

use crate::cut_of::{CutPiece, is_of_other_cut, path_of_word, piece_of};
use abt_io::{Meter, Source, Window};
use abt_runs::{RunFault, SparseRuns};
use abt_sparse::SparseFault;
use cmd_common_sparse::{SparseCommandFault, SparseRefusal, image_place};
use std::alloc::Global;
use std::collections::VecDeque;
use sys_disk::{Disk, Lasting, push_back};
use sys_refusals::{FileArg, HostFault, Sides};
use sys_report::Progress;

/// How many blocks an image has, and how many bytes each.
#[derive(Clone, Copy, Drop)]
pub struct Shape {
    pub blocks: u32,
    pub block: u32,
}

/// An image that was opened, its file, and the piece that it is, if its path is that of a piece and it writes blocks.
#[derive(Drop)]
pub struct OpenedImage<'a, S> {
    pub source: S,
    pub place: FileArg<'a>,
    pub piece: Option<CutPiece<'a>>,
}

/// The images that were opened so far, and how many there were.
#[derive(Drop)]
pub struct OpenedImages<'a, S> {
    pub kept: VecDeque<OpenedImage<'a, S>>,
    pub shape: Option<Shape>,
    pub count: u32,
}

/// Opens all images, which have to be of one shape.
pub(crate) fn open_all<'a, D: Disk>(
    disk: &mut D,
    progress: &mut Progress,
    inputs: &[&'a str],
    alloc: Global,
    w: &mut Window,
    m: &mut Meter,
) -> Result<OpenedImages<'a, D::At>, SparseRefusal<'a>>
    requires first { IsTrue D.models → (D.held disk.old).begun ≡ [] }
    // what was opened are these files, which hold images of this shape
    ensures opened { IsTrue D.models → IfOk result (λ all. AreOpened (D.world disk.old)
        (map (λ word. image_path word.now) inputs.now) (map (λ kept. D.At.content kept.source) all.kept.items)
        (D.held disk.old) (D.held disk.new)) }
    ensures shape { IsTrue D.models → IfOk result (λ all. IsShapeOf all.shape
        (map (λ kept. D.At.content kept.source) all.kept.items)) }
    // and are no pieces of different cuts, as far as it can be determined
    ensures turn { IsTrue D.models → IfOk result (λ all. AreInTurn (map (λ word. image_path word.now) inputs.now)
        (D.world disk.old)) }
    ensures clean { IsTrue D.models → IfOk result (λ all.
        AllByRecursion (λ kept. D.At.read_faults kept.source ≡ 0) all.kept.items) }
    // nothing is written
    ensures alone { IsTrue D.models → OpensAlone (D.held disk.old) (D.held disk.new) (D.world disk.old)
        (D.world disk.new) }
    ensures refused { IsTrue D.models → IfErr result (λ refusal. IsNotAllOpened refusal.fault
        (map (λ word. image_path word.now) inputs.now) (D.world disk.old) (D.held disk.old) (D.held disk.new)) }
{
    let mut all = OpenedImages {
        kept: VecDeque::new(alloc),
        shape: None,
        count: 0,
    };
    for input in inputs {
        m.tick();
        match open_next(
            disk,
            progress,
            image_place(input),
            path_of_word(input),
            &mut all,
            w,
            m,
        ) {
            Ok(()) => {}
            Err(refusal) => return Err(refusal),
        }
    }
    Ok(all)
}

// One image more.
fn open_next<'a, D: Disk>(
    disk: &mut D,
    progress: &mut Progress,
    place: FileArg<'a>,
    path: &'a str,
    all: &mut OpenedImages<'a, D::At>,
    w: &mut Window,
    m: &mut Meter,
) -> Result<(), SparseRefusal<'a>>
    requires first { IsTrue D.models → (D.held disk.old).begun ≡ [] }
    requires path { path.now ≡ path_of place }
    ensures count { all.new.count ≡ min (all.old.count + 1) 4294967295 }
    ensures opened { IsTrue D.models → OnOk result (OpensNext (D.world disk.old) (path_of place.entry)
        (map (λ kept. D.At.content kept.source) all.old.kept.items)
        (map (λ kept. D.At.content kept.source) all.new.kept.items) (D.held disk.old) (D.held disk.new)) }
    ensures shape { IsTrue D.models → OnOk result (
        IsShapeOf all.old.shape (map (λ kept. D.At.content kept.source) all.old.kept.items) →
        IsShapeOf all.new.shape (map (λ kept. D.At.content kept.source) all.new.kept.items)) }
    ensures clean { IsTrue D.models → OnOk result (
        AllByRecursion (λ kept. D.At.read_faults kept.source ≡ 0) all.old.kept.items →
        AllByRecursion (λ kept. D.At.read_faults kept.source ≡ 0) all.new.kept.items) }
    ensures piece { IsTrue D.models → OnOk result (NextPiece (D.world disk.old) (path_of place.entry)
        (map (λ kept. kept.piece) all.old.kept.items) (map (λ kept. kept.piece) all.new.kept.items)) }
    ensures alone { IsTrue D.models → OpensAlone (D.held disk.old) (D.held disk.new) (D.world disk.old)
        (D.world disk.new) }
    ensures refused { IsTrue D.models → IfErr result (λ refusal. IsNotNext refusal.fault all.old.shape
        (map (λ kept. kept.piece) all.old.kept.items) all.new.count (path_of place.entry) (D.world disk.old)
        (D.held disk.old) (D.held disk.new)) }
{
    all.count = all.count.saturating_add(1);
    let (source, own, piece) = match open_one(disk, progress, place, path, w, m) {
        Ok(opened) => opened,
        Err(refusal) => return Err(refusal),
    };
    if !is_same(all.shape, own) {
        let sides = Sides::none().reading(place, None);
        return Err(sides.refuse(SparseCommandFault::OtherBlocks { image: all.count }));
    }
    if is_other_cut(&all.kept, piece) {
        let sides = Sides::none().reading(place, None);
        return Err(sides.refuse(SparseCommandFault::OtherCut { image: all.count }));
    }
    all.shape = Some(own);
    let opened = OpenedImage {
        source,
        place,
        piece,
    };
    match push_back(&mut all.kept, opened) {
        Ok(()) => Ok(()),
        Err(refused) => {
            disk.no_memory(refused);
            Err(SparseRefusal::of(SparseCommandFault::Host(HostFault::Memory)))
        }
    }
}

// Whether an image has the blocks of the first, if there was one.
fn is_same(first: Option<Shape>, own: Shape) -> bool
    ensures { result ≡ is_same_shape first own }
{
    match first {
        Some(first) => first.blocks == own.blocks && first.block == own.block,
        None => true,
    }
}

// Whether an image is of another cut than one of those that were opened.
fn is_other_cut<'a, S>(kept: &VecDeque<OpenedImage<'a, S>>, own: Option<CutPiece<'a>>) -> bool
    ensures { result ≡ list_any (is_of_other_cut own.entry) (map (λ kept. kept.piece) kept.now.items) }
{
    for i in 0..kept.len() {
        if is_of_other_cut(own, kept[i].piece) {
            return true;
        }
    }
    false
}

// An image whose chunks are all checked, its shape, and the piece that it is.
fn open_one<'a, D: Disk>(
    disk: &mut D,
    progress: &mut Progress,
    place: FileArg<'a>,
    word: &'a str,
    w: &mut Window,
    m: &mut Meter,
) -> Result<(D::At, Shape, Option<CutPiece<'a>>), SparseRefusal<'a>>
    requires first { IsTrue D.models → (D.held disk.old).begun ≡ [] }
    requires word { word.now ≡ path_of place }
    ensures opened { IsTrue D.models → IfOk result (λ one. OpensFile (D.world disk.old) (path_of place.entry)
        (D.At.content one.0) (D.held disk.old) (D.held disk.new)) }
    ensures image { IsTrue D.models → IfOk result (λ one. IsImageOf one.1.blocks one.1.block (D.At.content one.0)) }
    ensures clean { IsTrue D.models → IfOk result (λ one. D.At.read_faults one.0 ≡ 0) }
    ensures piece { IsTrue D.models → IfOk result (λ one. TellsPiece one.2 (path_of place.entry)
        (FileGives (D.world disk.old) (path_of place.entry))) }
    ensures alone { IsTrue D.models → OpensAlone (D.held disk.old) (D.held disk.new) (D.world disk.old)
        (D.world disk.new) }
    ensures refused { IsTrue D.models → IfErr result (λ refusal. IsNotOpened refusal.fault (path_of place.entry)
        (D.world disk.old) (D.held disk.old) (D.held disk.new)) }
{
    let mut source = disk.ahead(place)?;
    progress.expect(source.length(), 1);
    match shape_of(&mut source, word, w, m) {
        Ok((shape, piece)) => {
            source.rest();
            Ok((source, shape, piece))
        }
        Err(fault) => {
            disk.let_go_source(source);
            let sides = Sides::none().reading(place, None);
            Err(sides.refuse(fault))
        }
    }
}

// Fails because the image ends too soon, where its file is now shorter than what was read of it.
fn shape_of<'a, S: Source + Lasting>(
    source: &mut S,
    path: &'a str,
    w: &mut Window,
    m: &mut Meter,
) -> Result<(Shape, Option<CutPiece<'a>>), SparseCommandFault>
    ensures image { IsTrue S.models → IfOk result (λ one. IsImageOf one.0.blocks one.0.block (S.content source.old)) }
    ensures piece { IsTrue S.models → IfOk result (λ one. TellsPiece one.1 path.now
        (GivesBlock (S.content source.old))) }
    ensures reads { OnlyReads result S.Source source.old source.new }
    ensures refused { IsTrue S.models → IfErr result (λ fault. IsNotRead fault (S.content source.old)
        (S.read_faults source.old) (S.read_faults source.new)) }
{
    let runs = match SparseRuns::open(source, w, m) {
        Ok(runs) => runs,
        Err(fault) => return Err(SparseCommandFault::Run(fault)),
    };
    let piece = match piece_of(path, &runs, source, w, m) {
        Ok(piece) => piece,
        Err(fault) => return Err(SparseCommandFault::Run(fault)),
    };
    let shape = Shape {
        blocks: runs.header.total_blks,
        block: runs.header.blk_sz,
    };
    match source.shorter() {
        Some(at) => Err(SparseCommandFault::Run(RunFault::Sparse(SparseFault::Truncated { at }))),
        None => Ok((shape, piece)),
    }
}
