//! A file or a block device that is written at any offset, within the length that it had. Each call makes one call of
//! the file.

ghost use Rattle.std.specs.Prelude.{◌≡◌, IsTrue, IfOk, length, refl};
ghost use Rattle.abt_io.specs.Moment.{no_past};
ghost use Rattle.sys_devices.specs.Past.{past_of};

use abt_io::{DeviceFault, Partition, Source, Tally};
use sys_file::{SystemFile, read_at, write_at};

/// It models its content if its file does, with the file's content. It keeps no copy of any byte.
#[derive(Drop)]
pub struct FilePartition<F: SystemFile + Drop> {
    pub file: F,
    pub size: u64,
    pub reads: Tally,
    pub given: Tally,
    pub read_faults: Tally,
    pub puts: Tally,
    pub taken: Tally,
    pub syncs: Tally,
    pub synced: Tally,
    pub put_faults: Tally,
    /// Why its last call failed, where one did.
    why: Option<i32>,
    pub ghost sized: { IsTrue F.models → size ≡ length (F.stands file) },
    pub ghost counted: { IsTrue F.models → (F.past file).synced ≡ synced.number },
}

impl<F: SystemFile + Drop> FilePartition<F> {
    /// Takes the file's length, once. No byte of it is pending. On an error the file is dropped.
    pub fn new(file: F) -> Result<FilePartition<F>, DeviceFault>
        requires { IsTrue F.models → F.past file ≡ no_past }
        ensures begins { IfOk result (λ s. (s.puts.number ≡ 0) × (s.taken.number ≡ 0) × (s.synced.number ≡ 0)) }
        ensures file { IfOk result (λ s. s.file ≡ file) }
    {
        match file.length() {
            Ok(size) => Ok(FilePartition {
                file,
                size,
                reads: Tally::new(),
                given: Tally::new(),
                read_faults: Tally::new(),
                puts: Tally::new(),
                taken: Tally::new(),
                syncs: Tally::new(),
                synced: Tally::new(),
                put_faults: Tally::new(),
                why: None,
            }),
            Err(_) => Err(DeviceFault::Failed),
        }
    }

    /// Why its last call failed, where one did, by the number of the system's error.
    pub fn why(&self) -> Option<i32>
        ensures { result ≡ self.now.why }
    {
        self.why
    }
}

impl<F: SystemFile + Drop> Source for FilePartition<F> {
    ghost models = { F.models };

    ghost content = { λ s. F.stands s.file };

    ghost size = { λ s. s.size };

    ghost reads = { λ s. s.reads.number };

    ghost given = { λ s. s.given.number };

    ghost read_faults = { λ s. s.read_faults.number };

    ghost read_frame = { λ s. record {
      size = s.size;
      past = past_of (F.past s.file) s.synced.number;
      puts = s.puts.number;
      taken = s.taken.number;
      syncs = s.syncs.number;
      put_faults = s.put_faults.number;
    } };

    ghost sized = { λ s t. s.sized t };

    ghost are_bytes = { λ s t. F.are_bytes s.file t };

    fn length(&self) -> u64 {
        self.size
    }

    fn read_at(&mut self, at: u64, out: &mut [u8]) -> Result<usize, DeviceFault> {
        self.reads.add(1);
        let _size = self.size;
        match read_at(&self.file, at, out) {
            Ok(n) => {
                self.given.add(n as u64);
                Ok(n)
            }
            Err(error) => {
                self.why = error.raw_os_error();
                self.read_faults.add(1);
                Err(DeviceFault::Failed)
            }
        }
    }
}

impl<F: SystemFile + Drop> Partition for FilePartition<F> {
    ghost past = { λ s. past_of (F.past s.file) s.synced.number };

    ghost puts = { λ s. s.puts.number };

    ghost taken = { λ s. s.taken.number };

    ghost syncs = { λ s. s.syncs.number };

    ghost put_faults = { λ s. s.put_faults.number };

    ghost reading = { λ s. refl };

    fn write_at(&mut self, at: u64, bytes: &[u8]) -> Result<usize, DeviceFault> {
        self.puts.add(1);
        match write_at(&mut self.file, at, bytes) {
            Ok(n) => {
                self.taken.add(n as u64);
                Ok(n)
            }
            Err(error) => {
                self.why = error.raw_os_error();
                self.put_faults.add(1);
                Err(DeviceFault::Failed)
            }
        }
    }

    fn sync(&mut self) -> Result<(), DeviceFault> {
        self.syncs.add(1);
        match self.file.sync() {
            Ok(()) => {
                self.synced.add(1);
                Ok(())
            }
            Err(error) => {
                self.why = error.raw_os_error();
                self.put_faults.add(1);
                Err(DeviceFault::Failed)
            }
        }
    }
}
