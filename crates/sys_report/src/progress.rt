//! The progress of a command: one line on a terminal, which is overwritten as the work goes on, and erased at its end.
//! The line is drawn while the terminal does not wrap, so a narrow terminal cuts it at its margin. The cursor stays at
//! the beginning of the line, so what follows an interrupted command overwrites it.

ghost use Rattle.std.specs.Prelude.{◌≡◌, ◌+◌, ◌*◌, ◌-◌, ◌^◌, IsTrue, false, true, max, min, Some, option_map, unwrap_or};
ghost use Rattle.sys_report.specs.Moved.{Expects};

use abt_io::{Meter, write_out};
use std::time::{Duration, Instant};
use sys_readers::ToWrite;
use sys_text::{ProgressLine, Text};

// Milliseconds until the line is first shown, and between updates.
const FIRST: u64 = 1000;

const NEXT: u64 = 200;

// Moves to the beginning of the line, and turns wrapping off.
const BEGINS: &str = "\r\x1b[?7l";

// Erases the rest of the line, moves back to its beginning, and turns wrapping on.
const ENDS: &str = "\x1b[K\x1b[?7h\r";

// Moves to the beginning of the line, and erases all of it.
const ERASED: &[u8] = b"\r\x1b[K";

/// The progress of a command.
#[derive(Clone, Copy, Drop)]
pub struct Progress {
    rt: HostRuntime,
    command: &'static str,
    /// The number of bytes to be moved, if that is known.
    pub total: Option<u64>,
    /// The number of bytes moved.
    pub done: u64,
    // These bytes are those before the offset up to which the source was read: what is read again does not count again.
    is_by_place: bool,
    // The time at which it began, if it is to be shown.
    begun: Option<Instant>,
    // The time at which the line was last written, if it is shown now.
    shown: Option<Instant>,
}

impl Progress {
    /// Nothing is shown.
    pub fn hidden(rt: HostRuntime) -> Progress {
        Progress {
            rt,
            command: "",
            total: None,
            done: 0,
            is_by_place: false,
            begun: None,
            shown: None,
        }
    }

    /// Begins now, to be shown with the name of this command.
    pub fn shown(rt: HostRuntime, command: &'static str) -> Progress {
        Progress {
            rt,
            command,
            total: None,
            done: 0,
            is_by_place: false,
            begun: Instant::now(&rt).ok(),
            shown: None,
        }
    }

    /// This many bytes more are to be moved, this many times.
    #[inline(never)]
    pub fn expect(&mut self, bytes: u64, times: u64)
        ensures { Expects (Some (min (unwrap_or self.old.total 0 + min (bytes * times) (2 ^ 64 - 1)) (2 ^ 64 - 1)))
            self.old self.new }
    {
        let more = bytes.saturating_mul(times);
        self.total = Some(self.total.unwrap_or(0).saturating_add(more));
    }

    /// This many bytes more are to be moved, if that is known.
    pub fn expect_if(&mut self, bytes: Option<u64>)
        ensures done { self.new.done ≡ self.old.done }
    {
        if let Some(bytes) = bytes {
            self.expect(bytes, 1);
        }
    }

    /// All bytes that are to be moved are moved this many times.
    pub fn repeat(&mut self, times: u64)
        ensures { Expects (option_map (λ n. min (n * times) (2 ^ 64 - 1)) self.old.total) self.old self.new }
    {
        if let Some(total) = self.total {
            self.total = Some(total.saturating_mul(times));
        }
    }

    /// From now on the progress is the offset up to which the source was read.
    pub fn follow(&mut self)
        ensures { self.new ≡ record self.old { is_by_place = true } }
    {
        self.is_by_place = true;
    }

    /// This many bytes more were read, up to this offset.
    pub fn reach(&mut self, place: u64, bytes: usize)
        ensures followed { IsTrue self.old.is_by_place → self.new.done ≡ max self.old.done place }
        ensures counted { self.old.is_by_place ≡ false → self.new.done ≡ min (self.old.done + bytes) (2 ^ 64 - 1) }
        ensures total { self.new.total ≡ self.old.total }
    {
        if self.is_by_place {
            self.advance(place.saturating_sub(self.done) as usize);
        } else {
            self.advance(bytes);
        }
    }

    /// This many bytes more were moved.
    pub fn advance(&mut self, bytes: usize)
        ensures done { self.new.done ≡ min (self.old.done + bytes) (2 ^ 64 - 1) }
        ensures total { self.new.total ≡ self.old.total }
    {
        self.done = self.done.saturating_add(bytes as u64);
        let Some(begun) = self.begun else {
            return;
        };
        let Ok(now) = Instant::now(&self.rt) else {
            return;
        };
        if self.is_due(begun, now) {
            self.shown = Some(now);
            self.draw(now.duration_since(begun));
        }
    }

    /// Erases the line, if it is shown.
    #[inline(never)]
    pub fn erase(&mut self)
        ensures { Expects self.old.total self.old self.new }
    {
        if self.shown.is_some() {
            self.shown = None;
            let mut err = ToWrite::new(self.rt.stderr());
            let mut m = Meter::new();
            let _ = write_out(&mut err, ERASED, &mut m);
        }
    }

    fn is_due(&self, begun: Instant, now: Instant) -> bool {
        match self.shown {
            Some(shown) => now.duration_since(shown) >= Duration::from_millis(NEXT),
            None => now.duration_since(begun) >= Duration::from_millis(FIRST),
        }
    }

    fn draw(&self, passed: Duration) {
        let line = ProgressLine {
            command: self.command,
            done: self.done,
            total: self.total,
            passed: milliseconds(passed),
        };
        let mut err = ToWrite::new(self.rt.stderr());
        let mut text = Text::new(&mut err);
        let _ = text.add(format_args!("{BEGINS}{line}{ENDS}"));
        let _ = text.finish();
    }
}

fn milliseconds(time: Duration) -> u64 {
    let seconds = time.as_secs().saturating_mul(1000);
    seconds.saturating_add(time.subsec_millis() as u64)
}
