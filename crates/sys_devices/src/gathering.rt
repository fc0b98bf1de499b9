//! A spool that collects small writes, and is read ahead.

ghost use Rattle.std.specs.Prelude.{◌≡◌, ◌≤◌, ◌<◌, ◌+◌, ◌^◌, ◌++◌, [], ℕ, List, not, nat_lt, length, drop, refl};
ghost use Rattle.std.specs.Prelude.{IsTrue, IfErr, OnOk, OnErr, IsErr, false};
ghost use Rattle.std.proofs.Props.{props};
ghost use Rattle.abt_io.specs.Bytes.{AreBytes};
ghost use Rattle.abt_io.specs.BytesLaws.{bytes_of_drop};
ghost use Rattle.abt_io.specs.Frame.{last_cut};
ghost use Rattle.abt_io.specs.Held.{filled_count, held_is};
ghost use Rattle.sys_devices.specs.Ahead.{HoldsAny};
ghost use Rattle.sys_file.specs.File.{ReadsAt};
ghost use Rattle.sys_devices.specs.Writes.{StandsOver, StartsSpool, since_cut};

use crate::AheadFile;
use crate::ahead::{Ahead, forget, read_ahead};
use crate::behind::Behind;
use abt_io::{DeviceFault, Input, Log, Output, Overwrite, Spool, Tally, are_bytes};
use std::alloc::Global;
use std::rc::Rc;
use sys_file::SystemFile;

/// A spool over a file, with a buffer of up to 64 KiB for what it took. The buffer is written when it has no room, when
/// the spool is read, and by `settle`. Where that fails, the read fails, or the write that found no room. Then every
/// call fails until the spool is cleared, and the first try to clear it fails too. A read of at most 256 bytes asks for
/// up to 4 KiB.
///
/// Where it is `keeping` the file's pages, a clear writes zeros over the first four bytes instead of emptying the file.
/// What then follows the taken bytes is truncated before those four are overwritten, before the file is read, and by
/// `settle`. So this is for callers that write a magic number last: a file that has one has no old content after it.
///
/// The bytes that it is given may come from a file that is read ahead. It gives none of them back if that file has
/// changed: if its length or its time of modification is another one than when it was opened.
#[derive(Drop)]
pub struct GatheringSpool<F: SystemFile + Drop> {
    behind: Behind<F>,
    capacity: u64,
    seen: u64,
    /// How much had been written at the last clear.
    cleared: u64,
    log: Log,
    counts: Counts,
    from: Option<Rc<AheadFile<F>>>,
    is_from_short: bool,
    ahead: Option<Ahead>,
    is_keeping: bool,
    ghost cut: { cleared ≡ last_cut log.state.cuts },
    ghost since: { last_cut log.state.cuts + behind.used ≡ length log.state.bytes },
    ghost room: { behind.used ≤ capacity },
    ghost fits: { cleared + behind.used < 2 ^ 64 },
    ghost whole: { behind.sent.state.bytes ++ behind.held.items ≡ since_cut log.state },
    ghost told: { AreBytes log.state.bytes },
    ghost holds: { IsTrue F.models → HoldsAny behind.sent.state.bytes ahead } by { Prim.hlevel props },
}

impl<F: SystemFile + Drop> GatheringSpool<F> {
    /// A spool of at most `capacity` bytes over a file of this many bytes, which are overwritten, or truncated. Nothing
    /// is buffered yet. Where there is no memory for the buffer, each call is one of the file.
    pub fn new(
        alloc: Global,
        file: F,
        capacity: u64,
        from: Option<Rc<AheadFile<F>>>,
        stands: u64,
    ) -> GatheringSpool<F>
        requires { IsTrue F.models → length (F.stands file) ≤ stands }
        ensures starts { StartsSpool result.log.state result.capacity capacity result.behind.is_lost
            result.behind.stale stands }
        ensures over { StandsOver result.behind.file file result.from from result.is_from_short }
        ensures keeping { result.is_keeping ≡ false }
    {
        are_bytes(&[]);
        GatheringSpool {
            behind: Behind::new(alloc, file, stands),
            capacity,
            seen: 0,
            cleared: 0,
            log: Log::new(),
            counts: Counts::new(),
            from,
            is_from_short: false,
            ahead: Ahead::new(alloc),
            is_keeping: false,
        }
    }

    /// A spool that keeps the pages of its file, which has this many bytes. The first four are zeros, or the first
    /// clear overwrites them.
    pub fn keeping(
        alloc: Global,
        file: F,
        capacity: u64,
        from: Option<Rc<AheadFile<F>>>,
        stands: u64,
    ) -> GatheringSpool<F>
        requires { IsTrue F.models → length (F.stands file) ≤ stands }
        ensures starts { StartsSpool result.log.state result.capacity capacity result.behind.is_lost
            result.behind.stale stands }
        ensures over { StandsOver result.behind.file file result.from from result.is_from_short }
        ensures keeping { IsTrue result.is_keeping }
    {
        let mut spool = GatheringSpool::new(alloc, file, capacity, from, stands);
        spool.is_keeping = true;
        spool
    }

    /// Why its last call failed, where one did, by the number of the system's error.
    pub fn why(&self) -> Option<i32>
        ensures { result ≡ self.now.behind.why }
    {
        self.behind.why
    }

    /// Whether a read has failed because the file has changed from which all bytes come.
    pub fn is_from_short(&self) -> bool
        ensures { result ≡ self.now.is_from_short }
    {
        self.is_from_short
    }

    /// Its file, with what was sent to it. What is buffered is lost.
    pub fn into_file(self) -> F
        ensures { result ≡ self.behind.file }
    {
        self.behind.file
    }

    /// Writes the buffer, and truncates the file after it. Fails if a byte taken since the last clear could not be
    /// written, now or by an earlier call. So a read that failed for that reason is distinguished from other reads that
    /// failed.
    pub fn settle(&mut self) -> Result<(), DeviceFault>
        ensures exact { OnOk result (IsTrue F.models → F.stands self.new.behind.file ≡ since_cut self.new.log.state) }
        ensures all { OnOk result (self.new.behind.sent.state.bytes ≡ since_cut self.new.log.state) }
        ensures none { OnOk result (self.new.behind.held.items ≡ []) }
        ensures cut { OnOk result (self.new.behind.stale ≡ 0) }
        ensures lost { OnErr result (IsTrue self.new.behind.is_lost) }
        ensures still { IsTrue self.old.behind.is_lost → IsErr result }
        ensures failed { IfErr result (λ e. e ≡ DeviceFault.Failed) }
        ensures used { self.new.behind.used ≡ self.old.behind.used }
        ensures log { self.new.log ≡ self.old.log }
        ensures seen { self.new.seen ≡ self.old.seen }
        ensures capacity { self.new.capacity ≡ self.old.capacity }
        ensures counts { self.new.counts ≡ self.old.counts }
        ensures short { self.new.is_from_short ≡ self.old.is_from_short }
    {
        self.behind.settle()
    }
}

impl<F: SystemFile + Drop> Input for GatheringSpool<F> {
    ghost models = { F.models };

    ghost remaining = { λ s. drop s.seen (since_cut s.log.state) };

    ghost reads = { λ s. s.counts.reads.number };

    ghost given = { λ s. s.counts.given.number };

    ghost read_faults = { λ s. s.counts.read_faults.number };

    ghost read_frame = { λ s. record {
      written = s.log.state.bytes;
      cuts = s.log.state.cuts;
      capacity = s.capacity;
      writes = s.counts.writes.number;
      write_faults = s.counts.write_faults.number;
      full_faults = s.counts.full_faults.number;
      clears = s.counts.clears.number;
      clear_faults = s.counts.clear_faults.number;
    } };

    ghost are_bytes = { λ s _. bytes_of_drop s.seen (since_cut s.log.state)
        (bytes_of_drop (last_cut s.log.state.cuts) s.log.state.bytes s.told) };

    /// Gives nothing that was not written since the last clear.
    fn read(&mut self, out: &mut [u8]) -> Result<usize, DeviceFault> {
        let left = self.behind.used.saturating_sub(self.seen);
        let ask = left.min(out.len() as u64) as usize;
        self.counts.reads.add(1);
        match read_behind(
            &mut self.behind,
            &mut self.ahead,
            &self.from,
            &mut self.is_from_short,
            self.seen,
            &mut out[..ask],
        ) {
            Ok(n) => {
                self.counts.given.add(n as u64);
                self.seen = self.seen.saturating_add(n as u64);
                Ok(n)
            }
            Err(_) => {
                self.counts.read_faults.add(1);
                Err(DeviceFault::Failed)
            }
        }
    }
}

impl<F: SystemFile + Drop> Output for GatheringSpool<F> {
    ghost written = { λ s. s.log.state.bytes };

    ghost is_full = { λ s. not (nat_lt s.behind.used s.capacity) };

    ghost writes = { λ s. s.counts.writes.number };

    ghost write_faults = { λ s. s.counts.write_faults.number };

    ghost full_faults = { λ s. s.counts.full_faults.number };

    ghost write_frame = { λ s. record {
      file = 0;
      gone = last_cut s.log.state.cuts + s.seen;
      cuts = s.log.state.cuts;
      capacity = s.capacity;
      reads = s.counts.reads.number;
      given = s.counts.given.number;
      read_faults = s.counts.read_faults.number;
      clears = s.counts.clears.number;
      clear_faults = s.counts.clear_faults.number;
    } };

    fn write(&mut self, bytes: &[u8]) -> Result<usize, DeviceFault> {
        self.counts.writes.add(1);
        if bytes.is_empty() {
            return Ok(0);
        }
        let used = self.behind.used;
        if used >= self.capacity {
            self.counts.write_faults.add(1);
            self.counts.full_faults.add(1);
            return Err(DeviceFault::Full);
        }
        let most = (self.capacity - used).min(bytes.len() as u64) as usize;
        if most as u64 > u64::MAX - self.cleared - used {
            self.counts.write_faults.add(1);
            return Err(DeviceFault::Failed);
        }
        match self.behind.take(&bytes[..most]) {
            Ok(n) => {
                are_bytes(&bytes[..n]);
                self.log.append(&bytes[..n]);
                Ok(n)
            }
            Err(_) => {
                self.counts.write_faults.add(1);
                Err(DeviceFault::Failed)
            }
        }
    }
}

impl<F: SystemFile + Drop> Overwrite for GatheringSpool<F> {
    fn position(&self) -> u64 {
        self.cleared + self.behind.used
    }

    /// An offset before the last clear is an error: nothing is there any more.
    fn write_over(&mut self, at: u64, bytes: &[u8]) -> Result<usize, DeviceFault> {
        self.counts.writes.add(1);
        let cleared = self.cleared;
        if at < cleared {
            self.counts.write_faults.add(1);
            return Err(DeviceFault::Failed);
        }
        forget(&mut self.ahead);
        match self.behind.put_over(at - cleared, bytes) {
            Ok(n) => {
                are_bytes(&bytes[..n]);
                self.log.put(&bytes[..n], at);
                Ok(n)
            }
            Err(_) => {
                self.counts.write_faults.add(1);
                Err(DeviceFault::Failed)
            }
        }
    }
}

impl<F: SystemFile + Drop> Spool for GatheringSpool<F> {
    ghost size = { λ s. s.capacity };

    ghost gone = { λ s. last_cut s.log.state.cuts + s.seen };

    ghost cuts = { λ s. s.log.state.cuts };

    ghost clears = { λ s. s.counts.clears.number };

    ghost clear_faults = { λ s. s.counts.clear_faults.number };

    ghost reading = { λ s. refl };

    ghost writing = { λ s. refl };

    ghost held = { λ s _. held_is (since_cut s.log.state) s.log.state.bytes (last_cut s.log.state.cuts) s.seen refl };

    ghost filled = { λ s full. filled_count s.capacity s.behind.used (last_cut s.log.state.cuts)
        (length s.log.state.bytes) s.since full };

    fn capacity(&self) -> u64 {
        self.capacity
    }

    /// Truncates the file to length 0, or leaves it its pages. The file stays open. A new piece begins.
    fn clear(&mut self) -> Result<(), DeviceFault> {
        self.counts.clears.add(1);
        if !self.behind.may_clear() {
            self.counts.clear_faults.add(1);
            return Err(DeviceFault::Failed);
        }
        forget_piece(&mut self.ahead, &self.from);
        let position = self.cleared + self.behind.used;
        match self.behind.clear(self.is_keeping) {
            Ok(()) => {
                self.cleared = position;
                self.log.cut();
                self.seen = 0;
                Ok(())
            }
            Err(_) => {
                self.counts.clear_faults.add(1);
                Err(DeviceFault::Failed)
            }
        }
    }
}

/// The number of calls of a spool, what they gave, and how often they failed.
#[derive(Drop)]
struct Counts {
    reads: Tally,
    given: Tally,
    read_faults: Tally,
    writes: Tally,
    write_faults: Tally,
    full_faults: Tally,
    clears: Tally,
    clear_faults: Tally,
}

impl Counts {
    // It had none.
    fn new() -> Counts {
        Counts {
            reads: Tally::new(),
            given: Tally::new(),
            read_faults: Tally::new(),
            writes: Tally::new(),
            write_faults: Tally::new(),
            full_faults: Tally::new(),
            clears: Tally::new(),
            clear_faults: Tally::new(),
        }
    }
}

// One read of the file, once all taken bytes are in it.
fn read_behind<F: SystemFile + Drop>(
    behind: &mut Behind<F>,
    ahead: &mut Option<Ahead>,
    from: &Option<Rc<AheadFile<F>>>,
    is_from_short: &mut bool,
    seen: u64,
    out: &mut [u8],
) -> Result<usize, DeviceFault>
    requires { IsTrue F.models → HoldsAny behind.old.sent.state.bytes ahead.old }
    ensures holds { IsTrue F.models → HoldsAny behind.new.sent.state.bytes ahead.new }
    ensures whole { behind.new.sent.state.bytes ++ behind.new.held.items
        ≡ behind.old.sent.state.bytes ++ behind.old.held.items }
    ensures used { behind.new.used ≡ behind.old.used }
    ensures reads { ReadsAt F.models (behind.old.sent.state.bytes ++ behind.old.held.items) result seen out.new }
    ensures all { OnOk result (behind.new.held.items ≡ []) }
    ensures still { IsTrue behind.old.is_lost → IsErr result }
{
    match behind.settle() {
        Ok(()) => {}
        Err(fault) => return Err(fault),
    }
    if seen == 0 && is_changed(from) {
        *is_from_short = true;
        behind.why = None;
        return Err(DeviceFault::Failed);
    }
    match read_ahead(ahead, &behind.file, seen, out) {
        Ok(n) => Ok(n),
        Err(error) => {
            behind.why = error.raw_os_error();
            Err(DeviceFault::Failed)
        }
    }
}

// A piece ends: what was read ahead of the file is no longer valid, and what is buffered of the file from which all
// bytes come is read again before it is given.
fn forget_piece<F: SystemFile + Drop>(ahead: &mut Option<Ahead>, from: &Option<Rc<AheadFile<F>>>)
    ensures { (c : List ℕ) → HoldsAny c ahead.new }
{
    forget(ahead);
    if let Some(from) = from {
        from.as_ref().forget();
    }
}

// Whether a file from which all bytes come is not as it was when it was opened.
fn is_changed<F: SystemFile + Drop>(from: &Option<Rc<AheadFile<F>>>) -> bool {
    match from {
        Some(from) => from.as_ref().is_changed(),
        None => false,
    }
}
