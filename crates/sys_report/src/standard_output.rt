//! Standard output, to which a report is printed, or a file instead of it.

ghost use Rattle.std.specs.Prelude.{◌≡◌, Some};
ghost use Rattle.std.specs.Io.{WritesAtMost};
ghost use Rattle.abt_io.specs.Frame.{nothing_logged};

use abt_io::Log;
use std::fs::File;
use std::io;
use std::io::{IsTerminal, Write};
use std::rt::Stdout;

// Where the bytes go.
#[derive(Drop)]
enum PrintedTo {
    Standard(Stdout),
    File(File),
}

impl PrintedTo {
    fn write(&mut self, bytes: &[u8]) -> io::Result<usize>
        ensures { WritesAtMost result bytes.now }
    {
        match self {
            PrintedTo::Standard(stdout) => stdout.write(bytes),
            PrintedTo::File(file) => file.write(bytes),
        }
    }
}

/// Standard output. It keeps all that it was given, and the reason of its last failure.
#[derive(Drop)]
pub struct StandardOutput {
    place: PrintedTo,
    /// The number of the system's error where its last call failed.
    pub why: Option<i32>,
    pub log: Log,
}

impl StandardOutput {
    pub fn new(stdout: Stdout) -> StandardOutput
        ensures { result.log.state ≡ nothing_logged }
    {
        StandardOutput::to(PrintedTo::Standard(stdout))
    }

    /// A file that is given what is printed, instead of standard output.
    pub fn in_file(file: File) -> StandardOutput
        ensures { result.log.state ≡ nothing_logged }
    {
        StandardOutput::to(PrintedTo::File(file))
    }

    fn to(place: PrintedTo) -> StandardOutput
        ensures { result.log.state ≡ nothing_logged }
    {
        StandardOutput {
            place,
            why: None,
            log: Log::new(),
        }
    }

    /// Whether it is a terminal.
    pub(crate) fn is_terminal(&self) -> bool {
        match &self.place {
            PrintedTo::Standard(stdout) => stdout.is_terminal(),
            PrintedTo::File(_) => false,
        }
    }
}

impl Write for StandardOutput {
    ghost contents = { λ s. Some s.log.state.bytes };

    fn write(&mut self, bytes: &[u8]) -> io::Result<usize> {
        match self.place.write(bytes) {
            Ok(n) => {
                self.log.append(&bytes[..n]);
                Ok(n)
            }
            Err(error) => {
                self.why = error.raw_os_error();
                Err(error)
            }
        }
    }

    fn flush(&mut self) -> io::Result<()> {
        Ok(())
    }
}
