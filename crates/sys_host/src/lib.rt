//! The files of a run: its inputs, its outputs, and the exit status.
//!
//! All that a command reads or writes goes through this crate. `Reading` opens the inputs. Once all of them are open it
//! becomes `Writing`, which opens and creates the outputs. It checks each file, by device and inode, before it empties
//! the file. `answer` makes the exit status of an outcome.
//!
//! | file | has |
//! |---|---|
//! | `taken.rt`, `streams.rt` | the files that no output may be; where reports go |
//! | `open_file.rt` | opening one file: how, and what kind of file it has to be |
//! | `reading.rt`, `open_outputs.rt` | all inputs, and then all outputs |
//! | `ending.rt` | the end of an output: it is finished, and closed |
//! | `input_file.rt`, `origin.rt` | an input that is read forward: a file that can skip bytes, or standard input |
//! | `answering.rt` | the exit status, and the message on standard error |
#![tactic(auto)]

mod answering;
mod ending;
mod input_file;
mod open_file;
mod open_outputs;
mod origin;
mod reading;
mod streams;
mod taken;

pub use answering::{DONE, REFUSED, Telling, USAGE, answer};
pub use input_file::InputFile;
pub use open_file::not_opened;
pub use open_outputs::Writing;
pub use reading::Reading;
pub use streams::Streams;
pub use taken::Taken;
