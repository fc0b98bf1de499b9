//! A device that counts the bytes that it gives and takes.

ghost use Rattle.std.specs.Prelude.{◌≡◌};

use abt_io::{DeviceFault, Input, Output, Overwrite, Source, Spool};

/// Counts the bytes that its device gives and takes, in plain numbers. It implements each device trait that its device
/// implements, except that of a partition.
#[derive(Drop)]
pub struct Counting<D> {
    pub device: D,
    pub handed: u64,
    pub taken: u64,
}

impl<D> Counting<D> {
    /// The device, with nothing counted yet.
    pub fn new(device: D) -> Counting<D>
        ensures device { result.device ≡ device }
        ensures handed { result.handed ≡ 0 }
        ensures taken { result.taken ≡ 0 }
    {
        Counting {
            device,
            handed: 0,
            taken: 0,
        }
    }
}

impl<D: Source> Source for Counting<D> {
    ghost models = { D.models };

    ghost content = { λ c. D.content c.device };

    ghost size = { λ c. D.size c.device };

    ghost reads = { λ c. D.reads c.device };

    ghost given = { λ c. D.given c.device };

    ghost read_faults = { λ c. D.read_faults c.device };

    ghost read_frame = { λ c. D.read_frame c.device };

    ghost sized = { λ c t. D.sized c.device t };

    ghost are_bytes = { λ c t. D.are_bytes c.device t };

    fn length(&self) -> u64 {
        self.device.length()
    }

    fn read_at(&mut self, at: u64, out: &mut [u8]) -> Result<usize, DeviceFault> {
        let n = self.device.read_at(at, out)?;
        self.handed = self.handed.saturating_add(n as u64);
        Ok(n)
    }
}

impl<D: Input> Input for Counting<D> {
    ghost models = { D.models };

    ghost remaining = { λ c. D.remaining c.device };

    ghost reads = { λ c. D.reads c.device };

    ghost given = { λ c. D.given c.device };

    ghost read_faults = { λ c. D.read_faults c.device };

    ghost read_frame = { λ c. D.read_frame c.device };

    ghost are_bytes = { λ c t. D.are_bytes c.device t };

    fn read(&mut self, out: &mut [u8]) -> Result<usize, DeviceFault> {
        let n = self.device.read(out)?;
        self.handed = self.handed.saturating_add(n as u64);
        Ok(n)
    }
}

impl<D: Output> Output for Counting<D> {
    ghost written = { λ c. D.written c.device };

    ghost is_full = { λ c. D.is_full c.device };

    ghost writes = { λ c. D.writes c.device };

    ghost write_faults = { λ c. D.write_faults c.device };

    ghost full_faults = { λ c. D.full_faults c.device };

    ghost write_frame = { λ c. D.write_frame c.device };

    fn write(&mut self, bytes: &[u8]) -> Result<usize, DeviceFault> {
        let n = self.device.write(bytes)?;
        self.taken = self.taken.saturating_add(n as u64);
        Ok(n)
    }
}

impl<D: Overwrite> Overwrite for Counting<D> {
    fn position(&self) -> u64 {
        self.device.position()
    }

    fn write_over(&mut self, at: u64, bytes: &[u8]) -> Result<usize, DeviceFault> {
        let n = self.device.write_over(at, bytes)?;
        self.taken = self.taken.saturating_add(n as u64);
        Ok(n)
    }
}

impl<D: Spool> Spool for Counting<D> {
    ghost size = { λ c. D.size c.device };

    ghost gone = { λ c. D.gone c.device };

    ghost cuts = { λ c. D.cuts c.device };

    ghost clears = { λ c. D.clears c.device };

    ghost clear_faults = { λ c. D.clear_faults c.device };

    ghost reading = { λ c. D.reading c.device };

    ghost writing = { λ c. D.writing c.device };

    ghost held = { λ c t. D.held c.device t };

    ghost filled = { λ c t. D.filled c.device t };

    fn capacity(&self) -> u64 {
        self.device.capacity()
    }

    fn clear(&mut self) -> Result<(), DeviceFault> {
        self.device.clear()
    }
}
