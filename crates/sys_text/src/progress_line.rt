//! The line that shows the progress of a command.

ghost use Rattle.std.specs.Prelude.{◌≡◌, ◌≤◌, ◌<◌, ◌*◌, ◌/◌, ◌^◌};

use std::fmt;

const MEBIBYTE: u64 = 1_048_576;

/// The progress of a command, as a terminal shows it: on one line, without its end.
#[derive(Clone, Copy, Drop)]
pub struct ProgressLine<'a> {
    pub command: &'a str,
    /// How many bytes were moved.
    pub done: u64,
    /// How many bytes there are to move, where that is known.
    pub total: Option<u64>,
    /// How many milliseconds the command has taken.
    pub passed: u64,
}

impl fmt::Display for ProgressLine<'_> {
    fn fmt<W: fmt::Write>(&self, f: &mut fmt::Formatter<W>) -> fmt::Result {
        let command = self.command;
        let done = Mebibytes(self.done);
        let rate = rate_of(self.done, self.passed);
        let pace = Mebibytes(rate);
        match self.total {
            Some(total) if self.done < total => {
                let percent = percent_of(self.done, total);
                let left = (total - self.done) / rate.max(1);
                let minutes = left / 60;
                let seconds = left % 60;
                let total = Mebibytes(total);
                write!(f, "{command} {percent} %  {done} of {total} MiB  ")?;
                write!(f, "{pace} MiB/s  {minutes}:{seconds:02} left")
            }
            _ => write!(f, "{command} {done} MiB  {pace} MiB/s"),
        }
    }
}

// The part of the total that is done, in hundredths.
fn percent_of(done: u64, total: u64) -> u64
    requires { done < total }
    ensures { result < 100 }
{
    if total > u64::MAX / 100 {
        return (done / 100) / (total / 100 + 1);
    }
    done * 100 / total
}

// Bytes in a second.
fn rate_of(done: u64, passed: u64) -> u64 {
    done.saturating_mul(1000) / passed.max(1)
}

// A number of bytes in mebibytes, with one digit after the point.
#[derive(Clone, Copy, Drop)]
struct Mebibytes(u64);

impl fmt::Display for Mebibytes {
    fn fmt<W: fmt::Write>(&self, f: &mut fmt::Formatter<W>) -> fmt::Result {
        let whole = self.0 / MEBIBYTE;
        let tenth = self.0 % MEBIBYTE * 10 / MEBIBYTE;
        write!(f, "{whole}.{tenth}")
    }
}
