//! The buffer of a spool, and its file. The spool may keep the pages of the file when it is cleared. Then it overwrites
//! the old content, and truncates the rest before it writes a magic number.

ghost use Rattle.std.specs.Prelude.{◌≡◌, ◌≤◌, ◌+◌, ◌<◌, ◌^◌, ◌++◌, [], true, false, IsTrue};
ghost use Rattle.std.specs.Prelude.{OnOk, OnErr, length, take, max};
ghost use Rattle.abt_io.specs.Count.{count_of};
ghost use Rattle.abt_io.specs.Moment.{put_at};
ghost use Rattle.sys_file.specs.File.{Begins};
ghost use Rattle.sys_devices.specs.Writes.{LeavesNoMagic, LeavesTaken};
ghost use Rattle.sys_devices.specs.Writes.{TakesSome, SendsSome, Flushes, Clears, CutsBehind, LaysHeld};

use abt_io::{DeviceFault, Log, WINDOW};
use std::alloc::Global;
use sys_file::{SystemFile, put_held, write_all, write_at};

/// A write of this many bytes or more is not buffered: copying them would cost as much as a call.
const LARGE: usize = 16_384;

/// The length of the magic number at the beginning, which makes an image of what follows it.
const MAGIC: u64 = 4;

/// A file, and bytes that were taken and will be appended to what the file was given. Nothing is buffered where there
/// was no memory for it.
#[derive(Drop)]
pub(crate) struct Behind<F: SystemFile + Drop> {
    pub(crate) file: F,
    /// The number of bytes taken since the last clear.
    pub(crate) used: u64,
    pub(crate) held: Vec<u8>,
    /// What the file took since the last clear.
    pub(crate) sent: Log,
    /// From this offset on the file holds only what it took. 0 where it was emptied, or truncated since the last clear.
    pub(crate) stale: u64,
    /// Some of what was taken could not be written, or may have been overwritten wrongly.
    pub(crate) is_lost: bool,
    /// A call has failed because of that.
    pub(crate) is_told: bool,
    /// The file was emptied, because it could not be truncated or blanked: so what it took is lost.
    pub(crate) is_empty: bool,
    /// Why the last call of the system failed, where one did.
    pub(crate) why: Option<i32>,
    ghost place: { length sent.state.bytes + length held.items ≡ used },
    ghost stands: { IsTrue F.models → is_lost ≡ false → Begins sent.state.bytes (F.stands file) },
    ghost ends: { IsTrue F.models → length (F.stands file) ≤ max stale (length sent.state.bytes) },
    ghost emptied: { IsTrue F.models → IsTrue is_empty → length (F.stands file) ≡ 0 },
    ghost gone: { IsTrue is_empty → IsTrue is_lost },
}

impl<F: SystemFile + Drop> Behind<F> {
    /// Nothing is buffered yet, and the file has this many bytes of old content.
    pub(crate) fn new(alloc: Global, file: F, stale: u64) -> Behind<F>
        requires { IsTrue F.models → length (F.stands file) ≤ stale }
        ensures file { result.file ≡ file }
        ensures held { result.held.items ≡ [] }
        ensures sent { result.sent.state.bytes ≡ [] }
        ensures stale { result.stale ≡ stale }
        ensures lost { result.is_lost ≡ false }
        ensures used { result.used ≡ 0 }
    {
        let held = match Vec::with_capacity(alloc, WINDOW) {
            Ok(held) => held,
            Err(_) => Vec::new(alloc),
        };
        Behind {
            file,
            used: 0,
            held,
            sent: Log::new(),
            stale,
            is_lost: false,
            is_told: false,
            is_empty: false,
            why: None,
        }
    }

    /// Takes a prefix of these bytes, and returns how many: all if they are buffered, else what one write took of them,
    /// after the buffered bytes.
    pub(crate) fn take(&mut self, bytes: &[u8]) -> Result<usize, DeviceFault>
        requires { self.old.used + length bytes.now < 2 ^ 64 }
        ensures takes { TakesSome result bytes.now self.old.is_lost self.new.is_lost }
        ensures taken { self.new.sent.state.bytes ++ self.new.held.items
            ≡ (self.old.sent.state.bytes ++ self.old.held.items) ++ take (count_of result) bytes.now }
        ensures grows { Begins self.old.sent.state.bytes self.new.sent.state.bytes }
        ensures used { self.new.used ≡ self.old.used + count_of result }
    {
        if self.is_lost {
            return Err(DeviceFault::Failed);
        }
        let n = bytes.len();
        let room = self
            .held
            .capacity()
            .min(WINDOW)
            .saturating_sub(self.held.len());
        if n < LARGE && n <= room && self.held.extend_from_slice(bytes).is_ok() {
            self.used += n as u64;
            return Ok(n);
        }
        match self.flush() {
            Ok(()) => {}
            Err(fault) => return Err(fault),
        }
        self.send(bytes)
    }

    /// Writes all buffered bytes, and truncates the file after them. Fails if some of them could not be written, now or
    /// before. Then the file ends after those that were written.
    pub(crate) fn settle(&mut self) -> Result<(), DeviceFault>
        ensures flushes { Flushes result self.old.held.items self.new.held.items self.old.sent.state.bytes
            self.new.sent.state.bytes self.old.is_lost self.new.is_lost self.old.used self.new.used }
        ensures cut { OnOk result (self.new.stale ≡ 0) }
        ensures exact { OnOk result (IsTrue F.models → F.stands self.new.file ≡ self.new.sent.state.bytes) }
    {
        let flushed = self.flush();
        match self.cut_off() {
            Ok(()) => flushed,
            Err(fault) => Err(fault),
        }
    }

    // Writes all buffered bytes. Fails if some of them could not be written, now or before.
    fn flush(&mut self) -> Result<(), DeviceFault>
        ensures flushes { Flushes result self.old.held.items self.new.held.items self.old.sent.state.bytes
            self.new.sent.state.bytes self.old.is_lost self.new.is_lost self.old.used self.new.used }
        ensures kept_held { OnErr result (self.new.held.items ≡ self.old.held.items) }
        ensures kept_sent { OnErr result (self.new.sent.state ≡ self.old.sent.state) }
    {
        if self.is_lost {
            return Err(DeviceFault::Failed);
        }
        let count = self.held.len() as u64;
        if count == 0 {
            return Ok(());
        }
        let at = self.used - count;
        match write_all(&mut self.file, at, self.held.as_slice()) {
            Ok(()) => {
                self.sent.append(self.held.as_slice());
                self.held.clear();
                Ok(())
            }
            Err(error) => {
                self.why = error.raw_os_error();
                self.is_lost = true;
                self.stale = self.stale.max(self.used);
                Err(DeviceFault::Failed)
            }
        }
    }

    // Truncates the file after what it took, if anything may be there. If that fails, the file is emptied where
    // possible. The reason why an earlier write failed is kept.
    fn cut_off(&mut self) -> Result<(), DeviceFault>
        ensures { CutsBehind result self.old.held.items self.new.held.items self.old.sent.state self.new.sent.state
            self.old.is_lost self.new.is_lost self.old.used self.new.used self.new.stale }
    {
        let end = self.used - self.held.len() as u64;
        if self.stale > end
            && !self.is_empty
            && let Err(error) = self.file.set_len(end)
        {
            if !self.is_lost {
                self.why = error.raw_os_error();
            }
            self.is_lost = true;
            self.is_empty = self.file.set_len(0).is_ok();
            return Err(DeviceFault::Failed);
        }
        self.stale = 0;
        Ok(())
    }

    // One write to the file, after all that it was given.
    fn send(&mut self, bytes: &[u8]) -> Result<usize, DeviceFault>
        requires none { self.old.held.items ≡ [] }
        requires fits { self.old.used + length bytes.now < 2 ^ 64 }
        requires found { self.old.is_lost ≡ false }
        ensures { SendsSome result bytes.now self.old.held.items self.new.held.items self.old.sent.state.bytes
            self.new.sent.state.bytes self.old.is_lost self.new.is_lost self.old.used self.new.used }
    {
        let at = self.used;
        match write_at(&mut self.file, at, bytes) {
            Ok(n) => {
                self.sent.append(&bytes[..n]);
                self.used = at + n as u64;
                Ok(n)
            }
            Err(error) => {
                self.why = error.raw_os_error();
                self.stale = self.stale.max(at + bytes.len() as u64);
                Err(DeviceFault::Failed)
            }
        }
    }

    /// Overwrites bytes that were taken, from an offset on, with a prefix of these bytes, and returns how many. This
    /// changes the buffer if all of them fall there. Else it is one write, after the buffered bytes were written. The
    /// first four bytes, such as the magic number, are written once everything else is in the file, with nothing after
    /// that.
    pub(crate) fn put_over(&mut self, at: u64, bytes: &[u8]) -> Result<usize, DeviceFault>
        requires { at + length bytes.now ≤ self.old.used }
        ensures takes { TakesSome result bytes.now self.old.is_lost self.new.is_lost }
        ensures laid { self.new.sent.state.bytes ++ self.new.held.items
            ≡ put_at (self.old.sent.state.bytes ++ self.old.held.items) at (take (count_of result) bytes.now) }
        ensures cut { at < 4 → OnOk result (self.new.stale ≡ 0) }
        ensures used { self.new.used ≡ self.old.used }
    {
        if self.is_lost {
            return Err(DeviceFault::Failed);
        }
        if self.lays(at, bytes) {
            return Ok(bytes.len());
        }
        match self.make_way(at) {
            Ok(()) => {}
            Err(fault) => return Err(fault),
        }
        match write_at(&mut self.file, at, bytes) {
            Ok(n) => {
                self.sent.put(&bytes[..n], at);
                Ok(n)
            }
            Err(error) => {
                self.why = error.raw_os_error();
                self.is_lost = true;
                self.is_told = true;
                Err(DeviceFault::Failed)
            }
        }
    }

    // Writes all buffered bytes, before something is written at an offset. For the first four bytes, the file must have
    // nothing after what it took.
    fn make_way(&mut self, at: u64) -> Result<(), DeviceFault>
        ensures flushes { Flushes result self.old.held.items self.new.held.items self.old.sent.state.bytes
            self.new.sent.state.bytes self.old.is_lost self.new.is_lost self.old.used self.new.used }
        ensures cut { at < 4 → OnOk result (self.new.stale ≡ 0) }
    {
        if at < MAGIC {
            self.settle()
        } else {
            self.flush()
        }
    }

    // Overwrites buffered bytes, if all of the range is buffered, and it is not at the beginning of the file.
    fn lays(&mut self, at: u64, bytes: &[u8]) -> bool
        requires { at + length bytes.now ≤ self.old.used }
        ensures laid { IsTrue result → self.new.sent.state.bytes ++ self.new.held.items
            ≡ put_at (self.old.sent.state.bytes ++ self.old.held.items) at bytes.now }
        ensures behind { IsTrue result → 4 ≤ at }
        ensures rest { LaysHeld result self.old.held.items self.new.held.items self.old.sent.state self.new.sent.state
            self.old.is_lost self.new.is_lost self.old.used self.new.used }
    {
        let sent = self.used - self.held.len() as u64;
        if at < MAGIC || at < sent {
            return false;
        }
        put_held(&mut self.held, at - sent, bytes);
        true
    }

    /// Whether the file may be emptied: not where something was lost and no call has failed because of it yet.
    pub(crate) fn may_clear(&mut self) -> bool
        ensures still { IsTrue self.old.is_lost → self.old.is_told ≡ false → result ≡ false }
        ensures told { IsTrue result → IsTrue self.new.is_lost → IsTrue self.new.is_told }
        ensures found { self.old.is_lost ≡ false → IsTrue result }
        ensures rest { LeavesTaken self.old.held.items self.new.held.items self.old.sent.state self.new.sent.state
            self.old.is_lost self.new.is_lost self.old.used self.new.used }
    {
        if self.is_lost && !self.is_told {
            self.is_told = true;
            return false;
        }
        true
    }

    /// Forgets what was taken. Empties the file, or writes zeros over its first bytes and leaves the rest to be
    /// overwritten. Where that fails, all that was taken is lost, and this error reports it, except where the file was
    /// emptied instead of getting zeros.
    pub(crate) fn clear(&mut self, is_keeping: bool) -> Result<(), DeviceFault>
        requires told { IsTrue self.old.is_lost → IsTrue self.old.is_told }
        ensures clears { Clears result self.old.held.items self.new.held.items self.old.sent.state.bytes
            self.new.sent.state.bytes self.new.is_lost }
        ensures blank { OnOk result (IsTrue F.models → LeavesNoMagic (F.stands self.new.file)) }
        ensures empty { is_keeping ≡ false → OnOk result (IsTrue F.models → length (F.stands self.new.file) ≡ 0) }
        ensures used { OnErr result (self.new.used ≡ self.old.used) }
        ensures none { OnOk result (self.new.used ≡ 0) }
    {
        self.is_lost = true;
        let is_done = if is_keeping {
            self.blank()
        } else {
            self.empty()
        };
        if !is_done {
            self.is_told = self.is_told || !self.is_empty;
            return Err(DeviceFault::Failed);
        }
        self.held.clear();
        self.sent = Log::new();
        self.used = 0;
        self.is_lost = false;
        self.is_told = false;
        self.is_empty = false;
        Ok(())
    }

    // Writes zeros over the first bytes of a file that may hold something, so that nothing there makes an image of it.
    // The rest is left to be overwritten. If that fails, the file is emptied where possible.
    fn blank(&mut self) -> bool
        requires { IsTrue self.old.is_lost }
        ensures blank { IsTrue result → IsTrue F.models → LeavesNoMagic (F.stands self.new.file) }
        ensures stale { IsTrue result → IsTrue F.models → length (F.stands self.new.file) ≤ self.new.stale }
        ensures grows { (self.old.used ≤ self.new.stale) × (self.old.stale ≤ self.new.stale) }
        ensures rest { LeavesTaken self.old.held.items self.new.held.items self.old.sent.state self.new.sent.state
            self.old.is_lost self.new.is_lost self.old.used self.new.used }
    {
        let stands = self.stale.max(self.used);
        if stands == 0 {
            return true;
        }
        self.stale = stands.max(MAGIC);
        match write_all(&mut self.file, 0, &[0; MAGIC as usize]) {
            Ok(()) => {
                self.is_empty = false;
                true
            }
            Err(error) => {
                self.why = error.raw_os_error();
                self.is_empty = self.file.set_len(0).is_ok();
                false
            }
        }
    }

    // Truncates the file to length 0.
    fn empty(&mut self) -> bool
        requires { IsTrue self.old.is_lost }
        ensures empty { IsTrue result → IsTrue F.models → length (F.stands self.new.file) ≡ 0 }
        ensures stale { IsTrue result → self.new.stale ≡ 0 }
        ensures rest { LeavesTaken self.old.held.items self.new.held.items self.old.sent.state self.new.sent.state
            self.old.is_lost self.new.is_lost self.old.used self.new.used }
    {
        match self.file.set_len(0) {
            Ok(()) => {
                self.stale = 0;
                true
            }
            Err(error) => {
                self.why = error.raw_os_error();
                false
            }
        }
    }
}
