//! What the statements of `unpack` and `pack` promise together. Each step is what the statement of one of them says of
//! the files, before it and after it. No line of it runs.
//!
//! | file | has |
//! |---|---|
//! | `specs/Said.antt` | the command that words say |
//! | `specs/WayBack.antt` | the law |
//! | `proofs/Options.antt`, `proofs/Fields.antt` | the options and the fields of such a command |
//! | `proofs/Parts.antt` | its parts |
//! | `proofs/Fragments.antt`, `proofs/Boards.antt` | its fragments and their board ids |
//! | `proofs/Unsaid.antt`, `proofs/Lines.antt` | what an image's words do not say; that each is on a line of its own |
//! | `proofs/PackedCuts.antt`, `proofs/Again.antt` | that a word is cut in one way; the image again |
#![tactic(auto)]

ghost use Rattle.law_pack.specs.WayBack.{UnpackedPacksAgain};

use law_boot::{canonical_is_said, canonical_packs_again, image_is_held};

/// `unpack --words` takes a canonical image apart. `pack` makes the image again from what the file of the words says.
pub fn unpacked_packs_again()
    ensures { UnpackedPacksAgain }
{
    canonical_packs_again();
    canonical_is_said();
    image_is_held();
}
