//! A regular file that collects small writes, and writes late headers in its buffer where they are still there. So the
//! header of a chunk, which is written once the chunk's length is known, mostly needs no call of its own.
//!
//! Where a write fails, the file is as if a separate call had written each header, after all bytes that were given
//! before it. A header is taken back if not all of those bytes were written. `end` fails for a file of this kind. It
//! also fails where a write of many bytes failed, or one over bytes that the file was given.

ghost use Rattle.std.specs.Prelude.{◌≡◌, ◌<◌, ◌≤◌, ◌+◌, ◌^◌, [], true, false, IsTrue, length, IfOk, OnOk, OnErr};
ghost use Rattle.abt_io.specs.Frame.{nothing_logged, and_bytes};
ghost use Rattle.abt_io.specs.Over.{and_put};
ghost use Rattle.sys_outputs.specs.Given.{LetsFileGo, PutsBehind, PutsFrom, TakesOrKeeps};
ghost use Rattle.sys_outputs.specs.Late.{whole, HasRoomBehind, TakesBack, HoldsAsMuch};

use crate::room::Room;
use abt_io::{FRONT, Log, WINDOW};
use std::io;
use std::io::ErrorKind;
use sys_file::{SystemFile, put_held, write_at, write_front};

// The most bytes that are buffered.
pub(crate) const ROOM: usize = WINDOW;

// A write of this many bytes or more is not buffered: copying them would cost as much as a call.
const LARGE: usize = 16_384;

// The length of a header that is written in the buffer.
const HEADER: usize = 12;

// The number of headers that are written there before all is sent.
pub(crate) const MOST: usize = 256;

/// A header that was written over buffered bytes.
#[derive(Clone, Copy, Drop)]
pub(crate) struct Laid {
    from: usize,
    /// The number of bytes buffered at that time.
    behind: usize,
    /// The bytes that were there before.
    before: [u8; HEADER],
}

impl Laid {
    // Takes the header back if fewer bytes were written than preceded it, in the file too.
    fn take_back<F: SystemFile>(&self, file: &mut F, sent: u64, done: usize, held: &mut Vec<u8>)
        requires { HasRoomBehind F.models sent done (F.stands file.old) held.old.items }
        ensures { TakesBack F.models sent (F.stands file.old) (F.stands file.new) held.old.items held.new.items }
    {
        let from = self.from;
        if done >= self.behind || from > held.len() || held.len() - from < HEADER {
            return;
        }
        put_held(held, from as u64, &self.before);
        if from < done {
            let some = (done - from).min(HEADER);
            let _ = write_front(file, sent + from as u64, &self.before[..some]);
        }
    }
}

/// A file that was just created or emptied. `settle` and `end` append the buffered bytes to those that were sent;
/// dropping the file does not.
#[derive(Drop)]
pub struct HeldFile<F: SystemFile + Drop> {
    file: F,
    sent: u64,
    held: Vec<u8>,
    laid: Vec<Laid>,
    /// A write of buffered bytes failed, and a header may have been taken back; or a write of many bytes or over others
    /// failed, and may have left anything.
    is_failed: bool,
    /// All that it was given.
    pub given: Log,
    ghost sends: { IsTrue F.models → sent ≤ length (F.stands file) },
    ghost stand: { IsTrue F.models → is_failed ≡ false → length (F.stands file) ≤ sent + length held.items },
    ghost fits: { sent + length held.items < 2 ^ 64 },
    ghost faithful: { IsTrue F.models → is_failed ≡ false → whole (F.stands file) sent held.items ≡ given.state.bytes },
}

impl<F: SystemFile + Drop> HeldFile<F> {
    /// Nothing is buffered yet, and the file is empty.
    pub fn new(file: F, room: Room) -> HeldFile<F>
        requires { IsTrue F.models → F.stands file ≡ [] }
        ensures { result.given.state ≡ nothing_logged }
    {
        let Room { held, laid } = room;
        HeldFile {
            file,
            sent: 0,
            held,
            laid,
            is_failed: false,
            given: Log::new(),
        }
    }

    /// Takes some of these bytes: it buffers them. If they have no room, or are many, it sends what it has buffered,
    /// and some of them.
    pub fn put(&mut self, bytes: &[u8]) -> io::Result<usize>
        ensures { PutsBehind result bytes.now self.old.given.state self.new.given.state }
    {
        let held = self.held.len() as u64;
        if bytes.len() as u64 > u64::MAX - self.sent - held {
            return Err(io::Error::from(ErrorKind::InvalidInput));
        }
        if self.holds(bytes) {
            return Ok(bytes.len());
        }
        self.settle()?;
        match write_at(&mut self.file, self.sent, bytes) {
            Ok(n) => {
                self.sent += n as u64;
                self.given.append(&bytes[..n]);
                Ok(n)
            }
            Err(error) => {
                self.is_failed = true;
                Err(error)
            }
        }
    }

    // Appends these bytes to the buffer, if they are few and have room.
    fn holds(&mut self, bytes: &[u8]) -> bool
        requires { self.old.sent + length self.old.held.items + length bytes.now < 2 ^ 64 }
        ensures { TakesOrKeeps result self.old.given.state self.new.given.state
            (and_bytes self.old.given.state bytes.now) self.old.sent self.new.sent self.old.held.items
            self.new.held.items }
    {
        let room = self
            .held
            .capacity()
            .min(ROOM)
            .saturating_sub(self.held.len());
        if bytes.len() >= LARGE || bytes.len() > room {
            return false;
        }
        match self.held.extend_from_slice(bytes) {
            Ok(()) => {
                self.given.append(bytes);
                true
            }
            Err(_) => false,
        }
    }

    /// Overwrites what was taken with a prefix of these bytes. What is at the beginning, such as the magic, is written
    /// once everything else is in the file. On a failure it returns the number of the system's error.
    pub fn put_over(&mut self, at: u64, bytes: &[u8]) -> Result<usize, Option<i32>>
        ensures { PutsFrom result at bytes.now self.old.given.state self.new.given.state }
    {
        let end = self.sent + self.held.len() as u64;
        if at > end || bytes.len() as u64 > end - at {
            return Err(None);
        }
        if self.lays(at, bytes) {
            return Ok(bytes.len());
        }
        if let Err(error) = self.settle() {
            return Err(error.raw_os_error());
        }
        match write_at(&mut self.file, at, bytes) {
            Ok(n) => {
                self.given.put(&bytes[..n], at);
                Ok(n)
            }
            Err(error) => {
                self.is_failed = true;
                Err(error.raw_os_error())
            }
        }
    }

    // Writes a header over buffered bytes, if all of them are buffered, and it is not at the beginning of the file.
    fn lays(&mut self, at: u64, bytes: &[u8]) -> bool
        ensures { TakesOrKeeps result self.old.given.state self.new.given.state
            (and_put self.old.given.state at bytes.now) self.old.sent self.new.sent self.old.held.items
            self.new.held.items }
    {
        if at < FRONT as u64 || at < self.sent {
            return false;
        }
        let behind = self.held.len();
        let from = at - self.sent;
        if bytes.len() != HEADER || behind < HEADER || from > (behind - HEADER) as u64 {
            return false;
        }
        let from = from as usize;
        let mut before = [0; HEADER];
        before.copy_from_slice(&self.held[from..from + HEADER]);
        let laid = Laid {
            from,
            behind,
            before,
        };
        if self.laid.len() >= MOST || self.laid.push(laid).is_err() {
            return false;
        }
        put_held(&mut self.held, from as u64, bytes);
        self.given.put(bytes, at);
        true
    }

    /// Sends the buffered bytes. If that fails they stay buffered, and the next call sends them to the same offset.
    pub fn settle(&mut self) -> io::Result<()>
        ensures none { OnOk result (self.new.held.items ≡ []) }
        ensures reach { OnOk result (self.new.sent ≡ self.old.sent + length self.old.held.items) }
        ensures all { OnOk result (IsTrue F.models → self.new.is_failed ≡ false
            → F.stands self.new.file ≡ self.new.given.state.bytes) }
        ensures held { OnErr result (length self.new.held.items ≡ length self.old.held.items) }
        ensures sent { OnErr result (self.new.sent ≡ self.old.sent) }
        ensures still { OnOk result (self.new.is_failed ≡ self.old.is_failed) }
        ensures given { self.new.given.state ≡ self.old.given.state }
    {
        let (done, result) = write_front(&mut self.file, self.sent, self.held.as_slice());
        if result.is_err() {
            self.take_back(done);
            return result;
        }
        self.sent += self.held.len() as u64;
        self.held.clear();
        self.laid.clear();
        Ok(())
    }

    /// The file, with what was sent to it.
    pub fn file(&self) -> &F
        ensures { result.now ≡ self.now.file }
    {
        &self.file
    }

    // Takes back the headers that were written after more bytes than the file took.
    fn take_back(&mut self, done: usize)
        requires { IsTrue F.models → self.old.sent + done ≤ length (F.stands self.old.file) }
        ensures { HoldsAsMuch self.old.held.items self.new.held.items self.old.sent self.new.sent self.old.given.state
            self.new.given.state }
    {
        if self.laid.is_empty() {
            return;
        }
        self.is_failed = true;
        take_all_back(
            self.laid.as_slice(),
            &mut self.file,
            self.sent,
            done,
            &mut self.held,
        );
        self.laid.clear();
    }

    /// The file, if it took all that was given. If it did not, the buffered bytes are sent once more, as far as
    /// possible, and it returns the file as it is.
    pub fn end(self) -> Result<F, (F, io::Error)>
        ensures { IsTrue F.models → IfOk result (λ file. F.stands file ≡ self.given.state.bytes) }
    {
        let mut held = self;
        if let Err(error) = held.settle() {
            let _ = held.settle();
            return Err((held.file, error));
        }
        if held.is_failed {
            return Err((held.file, io::Error::from(ErrorKind::WriteZero)));
        }
        Ok(held.file)
    }

    /// The file as it is, and whether it holds all that was given.
    pub fn let_go(self) -> (F, bool)
        ensures { LetsFileGo F.models (F.stands result.0) result.1 true self.given.state.bytes }
    {
        let is_whole = !self.is_failed && self.held.is_empty();
        (self.file, is_whole)
    }
}

// Takes headers back, the last one first.
fn take_all_back<F: SystemFile>(
    laid: &[Laid],
    file: &mut F,
    sent: u64,
    done: usize,
    held: &mut Vec<u8>,
)
    requires { HasRoomBehind F.models sent done (F.stands file.old) held.old.items }
    ensures { TakesBack F.models sent (F.stands file.old) (F.stands file.new) held.old.items held.new.items }
{
    for one in laid.iter().rev() {
        one.take_back(file, sent, done, held);
    }
}
