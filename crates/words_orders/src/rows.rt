//! A command of the table of the command line. (`words_values` has the rows of its words and options.)

/// A command of the program.
pub(crate) struct CommandRow {
    pub name: &'static str,
    pub work: Work,
    pub about: &'static str,
    /// What its help ends with.
    pub after_help: &'static str,
}

/// What a command does.
#[derive(Clone, Copy)]
pub enum Work {
    Expand,
    List,
    Sparse,
    Cut,
    Flash,
    Verify,
    Pack,
    Repack,
    Unpack,
    Info,
    Completions,
}
