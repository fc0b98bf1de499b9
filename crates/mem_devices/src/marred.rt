//! A partition whose first write over one byte fails, and leaves other bytes there.

ghost use Rattle.std.specs.Prelude.{◌≡◌, ◌<◌, ◌≤◌, ◌+◌, IsTrue, IsErrOf, false, true, length};
ghost use Rattle.abt_io.specs.Calls.{HasLaid, HasPut};
ghost use Rattle.mem_devices.specs.Crash.{IsTorn};
ghost use Rattle.mem_devices.specs.FrameLaws.{marred_partition};

use abt_io::{DeviceFault, Partition, Source, Tally, Window, lay_byte};

/// The first `write_at` whose range holds byte `at` fills that range with `mark` and returns `Failed`. All other calls
/// pass.
///
/// The mark is written by one `write_at` of the partition, so it fills as much of the range as the partition takes at
/// once.
#[derive(Drop)]
pub struct Marred<P> {
    pub partition: P,
    pub at: u64,
    pub mark: u8,
    pub is_done: bool,
    pub window: Window,
    pub taken: Tally,
    pub faults: Tally,
}

impl<P> Marred<P> {
    /// A partition whose first write over byte `at` leaves `mark` in its range.
    pub fn new(partition: P, at: u64, mark: u8) -> Marred<P>
        ensures partition { result.partition ≡ partition }
        ensures at { result.at ≡ at }
        ensures mark { result.mark ≡ mark }
        ensures is_done { result.is_done ≡ false }
    {
        Marred {
            partition,
            at,
            mark,
            is_done: false,
            window: Window::new(),
            taken: Tally::new(),
            faults: Tally::new(),
        }
    }
}

impl<P: Partition> Source for Marred<P> {
    ghost models = { P.models };

    ghost content = { λ s. P.content s.partition };

    ghost size = { λ s. P.size s.partition };

    ghost reads = { λ s. P.reads s.partition };

    ghost given = { λ s. P.given s.partition };

    ghost read_faults = { λ s. P.read_faults s.partition };

    ghost read_frame = { λ s. record (P.read_frame s.partition) {
      taken = s.taken.number;
      put_faults = (P.read_frame s.partition).put_faults + s.faults.number;
    } };

    ghost sized = { λ s t. P.sized s.partition t };

    ghost are_bytes = { λ s t. P.are_bytes s.partition t };

    fn length(&self) -> u64 {
        self.partition.length()
    }

    fn read_at(&mut self, at: u64, out: &mut [u8]) -> Result<usize, DeviceFault> {
        self.partition.read_at(at, out)
    }
}

impl<P: Partition> Partition for Marred<P> {
    ghost past = { λ s. P.past s.partition };

    ghost puts = { λ s. P.puts s.partition };

    ghost taken = { λ s. s.taken.number };

    ghost syncs = { λ s. P.syncs s.partition };

    ghost put_faults = { λ s. P.put_faults s.partition + s.faults.number };

    ghost reading = { λ s. marred_partition _ _ (P.reading s.partition) s.taken.number s.faults.number };

    fn write_at(&mut self, at: u64, bytes: &[u8]) -> Result<usize, DeviceFault>
        requires window { length bytes.now ≤ 65536 }
        requires fits { at + length bytes.now ≤ P.size self.old.partition }
        ensures laid { let p = ⟦<Marred<P> as Partition>⟧ in HasLaid p.models p.content p.past result self.old
            self.new at bytes.now }
        ensures put { let p = ⟦<Marred<P> as Partition>⟧ in HasPut p.size p.reads p.given p.read_faults p.puts p.taken
            p.syncs p.put_faults result self.old self.new (length bytes.now) }
        ensures tears { self.old.is_done ≡ false → at ≤ self.old.at → self.old.at < at + length bytes.now →
            IsErrOf result DeviceFault.Failed × (self.new.is_done ≡ true) }
        ensures torn { IsTrue P.models → self.old.is_done ≡ false → at ≤ self.old.at →
            self.old.at < at + length bytes.now →
            P.put_faults self.new.partition ≡ P.put_faults self.old.partition →
            IsTorn self.old.mark at (length bytes.now) (P.content self.old.partition)
            (P.content self.new.partition) }
        ensures once { self.old.is_done ≡ true → (self.new.is_done ≡ self.old.is_done)
            × (self.new.faults.number ≡ self.old.faults.number) }
        ensures before { self.old.at < at → (self.new.is_done ≡ self.old.is_done)
            × (self.new.faults.number ≡ self.old.faults.number) }
        ensures behind { at + length bytes.now ≤ self.old.at → (self.new.is_done ≡ self.old.is_done)
            × (self.new.faults.number ≡ self.old.faults.number) }
        ensures same { (self.new.at ≡ self.old.at) × (self.new.mark ≡ self.old.mark) }
    {
        let len = bytes.len();
        if !self.is_done && at <= self.at && self.at - at < len as u64 {
            self.is_done = true;
            self.faults.add(1);
            lay_byte(&mut self.window, len, self.mark);
            let _ = self.partition.write_at(at, self.window.part(0, len));
            return Err(DeviceFault::Failed);
        }
        let n = self.partition.write_at(at, bytes)?;
        self.taken.add(n as u64);
        Ok(n)
    }

    fn sync(&mut self) -> Result<(), DeviceFault> {
        self.partition.sync()
    }
}
