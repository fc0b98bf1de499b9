//! What the commands of boot images share: the meaning of their arguments, their faults, and their output files.
//!
//! The layers above rely on these facts:
//! - `with_given` returns the given fields, and the image's own value for each other field.
//! - `judge` fails where packing fails, and `pack_image` writes the bytes that `packed` defines.
//! - `set_board_ids` sets the numbers that the arguments name, in order.
//!
//! | file | content |
//! |---|---|
//! | `fault.rt` | why a command fails, and what the user is told |
//! | `pack_command.rt`, `pack_texts.rt` | the parsed arguments of `pack` and `repack`, and the bytes that they encode |
//! | `pack_fields.rt`, `loads.rt` | the fields from which an image is packed, and the load addresses of its parts |
//! | `board_ids.rt` | the board ids that arguments set |
//! | `part_rows.rt` | the parts from which an image is packed, each with its option and its section |
//! | `part_source.rt`, `measure.rt` | the source of a part: a file, or a range of one; a source that has only a size |
//! | `contents.rt` | packing the parts of an image of either kind, and the faults of packing |
//! | `not_judged.rt` | why it is not judged whether an image can be packed: a fault, or memory was refused |
//! | `part_names.rt` | the files that `unpack` writes |
#![tactic(auto)]

mod board_ids;
mod contents;
mod fault;
mod loads;
mod measure;
mod not_judged;
mod pack_command;
mod pack_fields;
mod pack_texts;
mod part_names;
mod part_rows;
mod part_source;

pub use board_ids::set_board_ids;
pub use contents::{judge, pack_image};
pub use fault::{BootCommandFault, BootOutcome};
pub use loads::{counts_ramdisk, counts_second};
pub use not_judged::NotJudged;
pub use pack_command::{PackCommand, judge_words};
pub use pack_fields::with_given;
pub use pack_texts::{FragmentText, OptionText, PackTexts};
pub use part_names::{ImagePart, part_count, part_of};
pub use part_rows::{PartRow, rows_of};
pub use part_source::PartSource;
