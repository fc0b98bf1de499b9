//! Laws of sparse images, each the contract of a function that does nothing. `abt_sparse/specs/Laws.antt` states them.

ghost use Rattle.abt_sparse.specs.Laws.{OneOutcome, HasBlocks, LaysBlocks, EndsEarly, KeepsRaw, OneGrouping};
ghost use Rattle.abt_sparse.specs.Laws.{ReadsBack, PiecesRead, EachPiece, Weighs, OneCutting, Fewest, FewBytes};
ghost use Rattle.abt_sparse.specs.Laws.{SamePieces, SameFromRaw, InTurn, CarriesRaw, FromPiece, Mends, OneCode};
ghost use Rattle.law_sparse.specs.Worked.{WorkedImages, WorkedFaults, WorkedPieces};

/// Bytes begin with an image or have a fault, one of these and no other, and reading finds which.
pub fn one_outcome()
    ensures { OneOutcome }
{}

/// Each kind of chunk has a type number of its own, and no other number is one.
pub fn one_code()
    ensures { OneCode }
{}

/// The blocks of an image that is encoded are blocks of its size, as many as its header says.
pub fn has_blocks()
    ensures { HasBlocks }
{}

/// For an image that ends early reading fails where it ends, and what was written is a prefix of what it would give.
pub fn ends_early()
    ensures { EndsEarly }
{}

/// What blocks write over a device, byte by byte.
pub fn lays_blocks()
    ensures { LaysBlocks }
{}

/// A raw image as blocks keeps its bytes, filled up with zeros to a whole block.
pub fn keeps_raw()
    ensures { KeepsRaw }
{}

/// A list of blocks has one grouping into runs.
pub fn one_grouping()
    ensures { OneGrouping }
{}

/// The encoding of a list of blocks reads back as that list.
pub fn reads_back()
    ensures { ReadsBack }
{}

/// A piece is itself a sparse image, of as many blocks as the image that it is cut from.
pub fn pieces_read()
    ensures { PiecesRead }
{}

/// Each piece of an image is a sparse image of all its blocks, within the limit.
pub fn each_piece()
    ensures { EachPiece }
{}

/// A piece is no longer than its segment weighs, weight never falls when a segment grows, and one block of b bytes
/// weighs at most 64 + b.
pub fn weighs()
    ensures { Weighs }
{}

/// There is one way to cut an image so that each piece is as long as the limit allows.
pub fn one_cutting()
    ensures { OneCutting }
{}

/// No way to cut has fewer pieces.
pub fn fewest_pieces()
    ensures { Fewest }
{}

/// All pieces of an image together are at most 68 bytes for each piece longer than the image.
pub fn few_bytes()
    ensures { FewBytes }
{}

/// Two encodings of one list of blocks have the same pieces.
pub fn same_pieces()
    ensures { SamePieces }
{}

/// A raw image and its sparse form have the same pieces.
pub fn same_from_raw()
    ensures { SameFromRaw }
{}

/// Flashing the pieces of an image in turn leaves any device as flashing the image does.
pub fn in_turn()
    ensures { InTurn }
{}

/// A raw image goes through its sparse form, expanded, or cut and flashed in turn over any device with room for it.
pub fn carries_raw()
    ensures { CarriesRaw }
{}

/// Flashing all pieces but the first ones writes the blocks after those.
pub fn from_piece()
    ensures { FromPiece }
{}

/// Continuing a flash from a piece that was not finished, or from any before it, mends what a stop left.
pub fn mends()
    ensures { Mends }
{}

/// The results of reading worked images.
pub fn worked_images()
    ensures { WorkedImages }
{}

/// Which fault worked bytes have, and what comes before it.
pub fn worked_faults()
    ensures { WorkedFaults }
{}

/// How worked images are sparsed, weighed and cut.
pub fn worked_pieces()
    ensures { WorkedPieces }
{}
