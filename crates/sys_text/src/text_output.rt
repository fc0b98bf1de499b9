//! Text into an output, without allocation.

ghost use Rattle.std.specs.Prelude.{◌≡◌, ◌≤◌, ◌<◌, ◌++◌, ◌∷◌, [], Some, IfErr, IfSome, IsNone, OnOk};
ghost use Rattle.std.specs.Prelude.{List, ℕ, decimal, length, take};
ghost use Rattle.std.specs.Fmt.{with_newline};
ghost use Rattle.sys_text.specs.Printed.{Prints};
ghost use Rattle.sys_text.specs.Shown.{text_in};

use crate::held::{ROOM, TextBuffer};
use abt_io::{DeviceFault, Meter, Output, write_out};
use std::fmt;
use std::fmt::Write;

// Once this many bytes are buffered, the end of a line sends them.
const ENOUGH: usize = ROOM / 2;

/// Text that is collected in a small buffer and sent in whole lines. A line of more than 4,096 bytes may be sent in
/// parts.
///
/// Where a write fails, the output holds a prefix of the text, and what is added later is dropped: `finish` returns the
/// fault. `finish` sends the rest of the buffer. It must be called: a `Text` that is dropped loses the rest.
#[derive(Drop)]
pub struct Text<'a, O> {
    pub output: &'a mut O,
    pub held: TextBuffer,
    pub fault: Option<DeviceFault>,
    // Once this many bytes are buffered, the end of a line sends them.
    enough: usize,
}

impl<'a, O: Output> Text<'a, O> {
    pub fn new(output: &'a mut O) -> Text<'a, O>
        ensures same_reference { result.output.ghost_name ≡ output.entry.ghost_name }
        ensures written { O.written result.output.now ≡ O.written output.old }
        ensures faults { O.write_faults result.output.now ≡ O.write_faults output.old }
        ensures nothing_held { text_in result.held.bytes result.held.used ≡ [] }
        ensures whole { IsNone result.fault }
    {
        Text {
            output,
            held: TextBuffer::new(),
            fault: None,
            enough: ENOUGH,
        }
    }

    /// From now on each line is sent as it ends, for a reader who waits for it, such as a terminal's user.
    pub fn send_each_line(&mut self)
        ensures { self.new ≡ record self.old { enough = 0 } }
    {
        self.enough = 0;
    }

    /// Adds these bytes.
    #[inline(never)]
    pub fn put(&mut self, bytes: &[u8])
        ensures { Prints O.written O.write_faults self.old self.new bytes.now }
    {
        let mut at = 0;
        while at < bytes.len() {
            at += self.put_some(&bytes[at..]);
        }
    }

    /// Adds a word.
    pub fn word(&mut self, word: &str)
        ensures { Prints O.written O.write_faults self.old self.new word.now }
    {
        self.put(word.as_bytes());
    }

    /// Adds a number, in decimal.
    #[inline(never)]
    pub fn number(&mut self, n: u64)
        ensures { Prints O.written O.write_faults self.old self.new (decimal n) }
    {
        let mut digits = itoa::Buffer::new();
        self.word(digits.format(n));
    }

    /// Ends a line, and sends the buffer if it holds enough.
    #[inline(never)]
    pub fn end_line(&mut self)
        ensures { Prints O.written O.write_faults self.old self.new (10 ∷ []) }
    {
        self.put(b"\n");
        if self.held.len() < self.enough {
            return;
        }
        self.send();
    }

    /// Whether every write succeeded.
    pub fn is_whole(&self) -> Result<(), DeviceFault>
        ensures done { OnOk result (IsNone self.now.fault) }
        ensures failed { IfErr result (λ f. self.now.fault ≡ Some f) }
    {
        match self.fault {
            None => Ok(()),
            Some(fault) => Err(fault),
        }
    }

    /// Sends the buffer, and empties it, even if it can't be written.
    #[inline(never)]
    pub fn finish(&mut self) -> Result<(), DeviceFault>
        ensures prints { Prints O.written O.write_faults self.old self.new [] }
        ensures emptied { text_in self.new.held.bytes self.new.held.used ≡ [] }
        ensures done { OnOk result (IsNone self.new.fault) }
        ensures failed { IfErr result (λ f. self.new.fault ≡ Some f) }
    {
        self.send();
        self.is_whole()
    }

    // Takes some of these bytes. If they have no room, it first sends the buffer.
    #[inline(never)]
    fn put_some(&mut self, bytes: &[u8]) -> usize
        ensures within { result ≤ length bytes.now }
        ensures progress { 0 < length bytes.now → 0 < result }
        ensures prints { Prints O.written O.write_faults self.old self.new (take result bytes.now) }
    {
        if self.held.len() < ROOM {
            return self.held.put(bytes);
        }
        self.send();
        self.held.put(bytes)
    }

    // Sends the buffer, and empties it. After a failed write there is no other write.
    #[inline(never)]
    fn send(&mut self)
        ensures prints { Prints O.written O.write_faults self.old self.new [] }
        ensures used { self.new.held.used ≡ 0 }
        ensures emptied { text_in self.new.held.bytes self.new.held.used ≡ [] }
    {
        if self.fault.is_some() {
            self.held.clear();
            return;
        }
        let mut m = Meter::new();
        match write_out(self.output, self.held.all(), &mut m) {
            Ok(()) => self.held.clear(),
            Err(fault) => {
                self.held.clear();
                self.fault = Some(fault);
            }
        }
    }

    /// Adds a value as a line.
    #[inline(never)]
    pub fn line<D: fmt::Display + Drop>(&mut self, line: D) -> Result<(), DeviceFault>
        ensures { OnOk
            result (IfSome (with_newline (D.output line)) (Prints O.written O.write_faults self.old self.new)) }
    {
        match self.writeln(line) {
            Ok(()) => self.end_shown_line(),
            Err(_) => Err(self.fault.unwrap_or(DeviceFault::Failed)),
        }
    }

    /// Adds the text of a value, or its first 8,192 bytes. The text is collected first, so that no write depends on it. An
    /// Err is the value's own.
    #[inline(never)]
    pub fn short<D: fmt::Display + Drop>(&mut self, shown: D) -> fmt::Result
        ensures { (told : List ℕ) × Prints O.written O.write_faults self.old self.new told × OnOk
            result (IfSome (D.output shown) (λ text. told ≡ take 8192 text)) }
    {
        let mut held = TextBuffer::new();
        let is_whole = held.write(shown);
        self.put(held.all());
        is_whole
    }

    /// Adds a number, and then the text of a value without its own number, which is at its beginning.
    #[inline(never)]
    pub fn numbered<D: fmt::Display + Drop>(&mut self, number: u32, shown: D)
        ensures { (rest : List ℕ) × Prints O.written O.write_faults self.old self.new (decimal number ++ rest) }
    {
        let mut held = TextBuffer::new();
        let _ = held.write(shown);
        self.number(number as u64);
        let text = held.all();
        let from = digits_of(text);
        self.put(&text[from..]);
    }

    // Sends the buffer if it holds enough.
    #[inline(never)]
    fn end_shown_line(&mut self) -> Result<(), DeviceFault>
        ensures { Prints O.written O.write_faults self.old self.new [] }
    {
        if self.held.len() < self.enough {
            self.is_whole()
        } else {
            self.finish()
        }
    }

    /// Adds the text of a value, which need not end a line.
    pub fn add<D: fmt::Display + Drop>(&mut self, text: D) -> Result<(), DeviceFault>
        ensures { OnOk result (IfSome (D.output text) (Prints O.written O.write_faults self.old self.new)) }
    {
        match self.write(text) {
            Ok(()) => Ok(()),
            Err(_) => Err(self.fault.unwrap_or(DeviceFault::Failed)),
        }
    }
}

impl<O: Output> fmt::Write for Text<'_, O> {
    ghost write_str_gives = { λ s bs t. Prints O.written O.write_faults s t bs };

    fn write_str(&mut self, s: &str) -> fmt::Result {
        self.word(s);
        match self.fault {
            None => Ok(()),
            Some(_) => Err(fmt::Error),
        }
    }
}

// How many digits a text begins with.
fn digits_of(text: &[u8]) -> usize
    ensures { result ≤ length text.now }
{
    for (i, byte) in text.iter().enumerate() {
        if !byte.is_ascii_digit() {
            return i;
        }
    }
    text.len()
}

/// Prints a line at once.
#[inline(never)]
pub fn print_line<O: Output, D: fmt::Display + Drop>(
    output: &mut O,
    line: D,
) -> Result<(), DeviceFault>
    ensures { OnOk
        result (IfSome (with_newline (D.output line)) (λ bs. O.written output.new ≡ O.written output.old ++ bs)) }
{
    let mut text = Text::new(output);
    match text.line(line) {
        Ok(()) => text.finish(),
        Err(fault) => Err(fault),
    }
}
