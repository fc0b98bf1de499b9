//! What the words of two runs promise together: `unpack --words IN DIR`, and `pack @DIR/pack.words OUT`. No line of it
//! runs.
//!
//! | file | has |
//! |---|---|
//! | `specs/WordsBack.antt` | the words, the runs, and the law |
//! | `proofs/Values.antt` | what `--NAME=VALUE` and `--NAME` say of a name |
//! | `proofs/PackWords.antt` | that the words of an image are of the table of `pack` |
//! | `proofs/Reading.antt`, `proofs/Due.antt` | what such words say, and the answers to a row |
//! | `proofs/Numbers.antt`, `proofs/FragmentOnce.antt` | that a word encodes one number, and describes one fragment |
//! | `proofs/Options.antt`, `proofs/Command.antt` | the command that an order becomes |
//! | `proofs/Asking.antt`, `proofs/Ordered.antt` | the orders that the words of both runs ask for |
//! | `proofs/Expanded.antt`, `proofs/Back.antt` | the words of the file in their place; the way back |
#![tactic(auto)]

ghost use Rattle.law_words.specs.WordsBack.{WordsPackAgain};

use law_boot::image_is_held;
use law_pack::unpacked_packs_again;

/// `unpack --words IN DIR` takes a canonical image apart, and `pack @DIR/pack.words OUT` makes the image again. Both
/// runs are known by their words alone.
pub fn words_pack_again()
    ensures { WordsPackAgain }
{
    unpacked_packs_again();
    image_is_held();
}
