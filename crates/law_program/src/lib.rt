//! What the statements of commands promise together. Each step is what the statement of one of them says of the files,
//! before it and after it. No line of it runs.
//!
//! | file | has |
//! |---|---|
//! | `specs/InTurn.antt` | the commands that are given one after another, and the laws |
//! | `proofs/Chains.antt` | files that are flashed in turn |
//! | `proofs/ProgramCuts.antt` | the pieces of an image, each in its file |
//! | `proofs/CutFiles.antt` | that the files which `cut` leaves are such files |
#![tactic(auto)]

ghost use Rattle.law_program.specs.InTurn.{CutThenExpanded, CutThenFlashed, ExpandedTogether, FlashedInTurn};

/// The pieces of an image, each in a file of its own, are flashed to a partition in turn, by a command each. They leave
/// there what flashing the image leaves. Expanded together they are its expansion.
pub fn pieces_in_turn()
    ensures flashed { FlashedInTurn }
    ensures expanded { ExpandedTogether }
{}

/// An image is cut, and its pieces are then flashed to a partition by a command each. They leave there what flashing
/// the image leaves. Expanded together they are its expansion.
pub fn cut_in_turn()
    ensures flashed { CutThenFlashed }
    ensures expanded { CutThenExpanded }
{}
