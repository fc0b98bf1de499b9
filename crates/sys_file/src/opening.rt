//! How a file is opened.

ghost use Rattle.std.specs.Prelude.{◌≡◌};
ghost use Rattle.sys_file.specs.Openings.{creates, opens_to_read, opens_to_write};

/// How a file is opened.
#[derive(Clone, Copy, Drop)]
pub enum Opening {
    /// The file exists, and is read.
    Read,
    /// The file exists, and is written.
    Write,
    /// The file is written, and created if it does not exist.
    Create,
    /// The file is read and written, and created if it does not exist.
    CreateAndRead,
}

impl Opening {
    /// Whether the file is opened to be read.
    pub fn reads(self) -> bool
        ensures { result ≡ opens_to_read self }
    {
        match self {
            Opening::Read => true,
            Opening::Write => false,
            Opening::Create => false,
            Opening::CreateAndRead => true,
        }
    }

    /// Whether it is opened to be written.
    pub fn writes(self) -> bool
        ensures { result ≡ opens_to_write self }
    {
        match self {
            Opening::Read => false,
            Opening::Write => true,
            Opening::Create => true,
            Opening::CreateAndRead => true,
        }
    }

    /// Whether it is created if it does not exist.
    pub fn creates(self) -> bool
        ensures { result ≡ creates self }
    {
        match self {
            Opening::Read => false,
            Opening::Write => false,
            Opening::Create => true,
            Opening::CreateAndRead => true,
        }
    }
}
