//! What a command prints.

ghost use Rattle.std.specs.Prelude.{◌≡◌, ◌<◌, ◌≤◌, ◌++◌, ◌∷◌, [], OnOk, OnErr, IfErr, IfSome};
ghost use Rattle.std.specs.Fmt.{with_newline};
ghost use Rattle.sys_report.specs.Shows.{CannotPrint, IsFirstLine, IsNoted, IsSilent, Notes, NotesOne, ShowsBeside};
ghost use Rattle.sys_report.specs.Shows.{ShowsHere, refusals};

use crate::progress::Progress;
use crate::standard_output::StandardOutput;
use abt_io::{DeviceFault, Meter, Tally, write_out};
use arrayvec::ArrayString;
use std::fmt;
use std::fmt::Write;
use std::rt::Stderr;
use sys_readers::ToWrite;
use sys_refusals::{FileArg, HostFault, HostRefusal, Told};
use sys_text::{Text, print_line};

// The most bytes of a line. A line of numbers and names has at most a fifth of it.
const LINE: usize = 512;

/// Standard output and standard error, and the progress of the command.
#[derive(Drop)]
pub struct Report {
    pub out: ToWrite<StandardOutput>,
    pub err: ToWrite<Stderr>,
    pub progress: Progress,
    // Whether data went to standard output: then no line does.
    is_data_on_output: bool,
    // Lines that are not text, or are longer than any line that a command prints; and notes that could not be written.
    unshown: Tally,
}

impl Report {
    pub fn new(rt: HostRuntime) -> Report {
        Report {
            out: ToWrite::new(StandardOutput::new(rt.stdout())),
            err: ToWrite::new(rt.stderr()),
            progress: Progress::hidden(rt),
            is_data_on_output: false,
            unshown: Tally::new(),
        }
    }

    /// Prints a line to standard output, or to standard error if data goes where standard output goes.
    #[inline(never)]
    pub fn line_beside<'a, D: fmt::Display + Drop>(
        &mut self,
        is_data_on_output: bool,
        line: D,
    ) -> Result<(), HostRefusal<'a>>
        ensures shown { OnOk result (IfSome (with_newline (D.output line)) (ShowsBeside is_data_on_output self.old
            self.new)) }
        ensures refused { OnErr result (CannotPrint self.old self.new) }
        ensures fault { IfErr result (λ refusal. refusal.fault ≡ HostFault.Write) }
        ensures rises { refusals self.old ≤ refusals self.new }
    {
        if is_data_on_output {
            self.is_data_on_output = true;
        }
        self.line(line)
    }

    /// Prints a line.
    #[inline(never)]
    pub fn line<'a, D: fmt::Display + Drop>(&mut self, line: D) -> Result<(), HostRefusal<'a>>
        ensures shown { OnOk result (IfSome (with_newline (D.output line)) (ShowsHere self.old self.new)) }
        ensures refused { OnErr result (CannotPrint self.old self.new) }
        ensures fault { IfErr result (λ refusal. refusal.fault ≡ HostFault.Write) }
        ensures rises { refusals self.old ≤ refusals self.new }
    {
        self.progress.erase();
        match self.print(line) {
            Ok(()) => Ok(()),
            Err(_) => {
                let place = FileArg::new("report", "standard output");
                Err(HostRefusal::at(HostFault::Write, place, self.out.writer.why))
            }
        }
    }

    #[inline(never)]
    fn print<D: fmt::Display + Drop>(&mut self, line: D) -> Result<(), DeviceFault>
        ensures shown { OnOk result (IfSome (with_newline (D.output line)) (ShowsHere self.old self.new)) }
        ensures refused { OnErr result (CannotPrint self.old self.new) }
        ensures rises { refusals self.old ≤ refusals self.new }
    {
        let Some(text) = text_of(line) else {
            self.unshown.add(1);
            return Err(DeviceFault::Failed);
        };
        let mut m = Meter::new();
        if self.is_data_on_output {
            write_out(&mut self.err, text.as_bytes(), &mut m)
        } else {
            write_out(&mut self.out, text.as_bytes(), &mut m)
        }
    }

    /// Prints a line to standard error. No result depends on it.
    #[inline(never)]
    pub fn note<D: fmt::Display + Drop>(&mut self, line: D)
        ensures noted { IsNoted self.old self.new }
        ensures told { IfSome (with_newline (D.output line)) (Notes self.old self.new) }
    {
        self.progress.erase();
        match print_line(&mut self.err, line) {
            Ok(()) => {}
            Err(_) => self.unshown.add(1),
        }
    }

    /// Prints a text as a line to standard error. No result depends on it.
    #[inline(never)]
    pub fn note_text(&mut self, text: &str)
        ensures noted { IsNoted self.old self.new }
        ensures rises { refusals self.old ≤ refusals self.new }
        ensures told { Notes self.old self.new (text.now ++ (10 ∷ [])) }
    {
        self.progress.erase();
        let mut line = Text::new(&mut self.err);
        line.word(text);
        line.end_line();
        if line.finish().is_err() {
            self.unshown.add(1);
        }
    }

    /// Prints the first line about a fault to standard error, with the name of the program before it.
    #[inline(never)]
    pub fn refused<F: Told>(&mut self, program: &str, fault: &F, place: Option<FileArg<'_>>)
        ensures noted { IsNoted self.old self.new }
        ensures rises { refusals self.old ≤ refusals self.new }
        ensures told { NotesOne self.old self.new (IsFirstLine program.now (F.says fault.now place.entry)) }
    {
        self.progress.erase();
        let mut text = Text::new(&mut self.err);
        text.word(program);
        text.word(": ");
        let said = fault.put(place, &mut text);
        text.end_line();
        let sent = text.finish();
        if said.is_err() || sent.is_err() {
            self.unshown.add(1);
        }
    }

    /// Counts a line for which there is no memory.
    pub fn lose(&mut self)
        ensures noted { IsSilent self.old self.new }
        ensures rises { refusals self.old ≤ refusals self.new }
        ensures counted { self.old.unshown.number < self.new.unshown.number }
    {
        self.unshown.add(1);
    }

    /// Whether standard output is a terminal, so that each line of a text is awaited.
    pub fn is_awaited(&self) -> bool {
        self.out.writer.is_terminal()
    }

    /// The error for a text that could not be printed to standard output.
    pub fn cannot_print<'a>(&self) -> HostRefusal<'a>
        ensures { result.fault ≡ HostFault.Write }
    {
        HostRefusal::of(HostFault::Write, self.out.writer.why)
    }
}

// A line with its end.
#[inline(never)]
fn text_of<D: fmt::Display + Drop>(line: D) -> Option<ArrayString<LINE>>
    ensures { IfSome result (λ text. IfSome (with_newline (D.output line)) (λ told. text.bytes ≡ told)) }
{
    let mut text = ArrayString::new();
    match text.writeln(line) {
        Ok(()) => Some(text),
        Err(_) => None,
    }
}
