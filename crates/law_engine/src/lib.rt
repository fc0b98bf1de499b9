//! The law of the whole way round, which joins the contracts of the crates below.
//!
//! No line of it runs. Each step of the way is what the contract of a public function states. `way_round` states what
//! follows from the steps together: parts that are packed, sent to a partition and unpacked from there come back byte
//! for byte.
//!
//! | file | has |
//! |---|---|
//! | `specs/WayRound.antt` | the steps of the way, and the law |
//! | `proofs/WayRound.antt` | that the bytes that were sent are a prefix of what arrives |
#![tactic(auto)]

ghost use Rattle.law_engine.specs.WayRound.{BootWay, FoundAgain, FragmentWay, VendorWay};

use law_sections::packed_holds_parts;
use law_sparse::{keeps_raw, one_outcome, reads_back};

/// Parts that are packed, sent to a partition with room for the image, and unpacked from there, come back byte for
/// byte: of every version of both kinds of boot image, sparse at any block size or raw, within any limit, at once or
/// after a stop, and whatever the partition held, also after the image.
pub fn way_round()
    ensures boot { BootWay }
    ensures vendor { VendorWay }
    ensures fragments { FragmentWay }
    ensures found { FoundAgain }
{
    one_outcome();
    keeps_raw();
    reads_back();
    packed_holds_parts();
}
