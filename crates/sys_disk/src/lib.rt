//! The disk of a run: a command opens its inputs, and then creates, writes and finishes its outputs.
//!
//! A command is generic over any `Disk`, so the files that it leaves can be proved. A disk that models its files, such
//! as `mem_disk`, is bound by every clause. The program's own disk, over the system's files, models nothing.
//!
//! | file | has |
//! |---|---|
//! | `disk.rt` | the calls of a disk, and what contracts know of its files |
//! | `lasting.rt` | a source whose file may change while it is read |
//! | `image_to.rt` | the output of an image that has a magic |
//! | `memory.rt` | what asks for memory, and says that it was refused |
//! | `ending.rt`, `closing.rt` | the result of a call, once its output is finished, or its file in place is closed |
#![tactic(auto)]

mod closing;
mod disk;
mod ending;
mod image_to;
mod lasting;
mod memory;

pub use closing::closed;
pub use disk::{Disk, Measured, Reasons};
pub use ending::ended;
pub use image_to::{ImageTo, Late};
pub use lasting::Lasting;
pub use memory::{NoMemory, append, push, push_back};
