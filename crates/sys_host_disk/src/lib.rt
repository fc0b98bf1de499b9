//! The program's disk: the files of the system, opened by `sys_host` and read and written through buffers. Its sources
//! model what their files model. The disk itself models nothing. What its calls do to the files of a system is in
//! contracts of their own.
//!
//! | file | has |
//! |---|---|
//! | `host.rt` | the calls of the disk |
//! | `ending.rt` | the end of an output after the work before has failed |
//! | `source.rt` | what is read at any offset, maybe ahead |
#![tactic(auto)]

mod ending;
mod host;
mod source;

pub use host::Host;
pub use source::HostSource;
