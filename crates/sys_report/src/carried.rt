//! A device together with the progress of the command. It owns the device, so contracts know the device through every
//! call.

use crate::progress::Progress;
use abt_io::{DeviceFault, Input, Output, Overwrite, Source};

/// Does what its device does, and counts the bytes that it moves, so that a terminal shows the progress of the command.
/// It implements each device trait that its device implements, and owns the device: a borrowed device would be another
/// one after each call.
#[derive(Drop)]
pub struct Carried<'a, D> {
    pub device: D,
    pub progress: &'a mut Progress,
}

impl<D: Input> Input for Carried<'_, D> {
    ghost models = { D.models };

    ghost remaining = { λ c. D.remaining c.device };

    ghost reads = { λ c. D.reads c.device };

    ghost given = { λ c. D.given c.device };

    ghost read_faults = { λ c. D.read_faults c.device };

    ghost read_frame = { λ c. D.read_frame c.device };

    ghost are_bytes = { λ c t. D.are_bytes c.device t };

    fn read(&mut self, out: &mut [u8]) -> Result<usize, DeviceFault> {
        match self.device.read(out) {
            Ok(n) => {
                self.progress.advance(n);
                Ok(n)
            }
            Err(fault) => Err(fault),
        }
    }

    fn pass(&mut self, room: &mut [u8]) -> Result<usize, DeviceFault> {
        match self.device.pass(room) {
            Ok(n) => {
                self.progress.advance(n);
                Ok(n)
            }
            Err(fault) => Err(fault),
        }
    }
}

impl<D: Source> Source for Carried<'_, D> {
    ghost models = { D.models };

    ghost content = { λ c. D.content c.device };

    ghost size = { λ c. D.size c.device };

    ghost reads = { λ c. D.reads c.device };

    ghost given = { λ c. D.given c.device };

    ghost read_faults = { λ c. D.read_faults c.device };

    ghost read_frame = { λ c. D.read_frame c.device };

    ghost sized = { λ c t. D.sized c.device t };

    ghost are_bytes = { λ c t. D.are_bytes c.device t };

    #[inline(never)]
    fn length(&self) -> u64 {
        self.device.length()
    }

    #[inline(never)]
    fn read_at(&mut self, at: u64, out: &mut [u8]) -> Result<usize, DeviceFault> {
        match self.device.read_at(at, out) {
            Ok(n) => {
                self.progress.reach(at.saturating_add(n as u64), n);
                Ok(n)
            }
            Err(fault) => Err(fault),
        }
    }
}

impl<D: Output> Output for Carried<'_, D> {
    ghost written = { λ c. D.written c.device };

    ghost is_full = { λ c. D.is_full c.device };

    ghost writes = { λ c. D.writes c.device };

    ghost write_faults = { λ c. D.write_faults c.device };

    ghost full_faults = { λ c. D.full_faults c.device };

    ghost write_frame = { λ c. D.write_frame c.device };

    fn write(&mut self, bytes: &[u8]) -> Result<usize, DeviceFault> {
        match self.device.write(bytes) {
            Ok(n) => {
                self.progress.advance(n);
                Ok(n)
            }
            Err(fault) => Err(fault),
        }
    }

    fn write_zeros(&mut self, n: u64, zeros: &[u8]) -> Result<u64, DeviceFault> {
        match self.device.write_zeros(n, zeros) {
            Ok(some) => {
                self.progress.advance(some as usize);
                Ok(some)
            }
            Err(fault) => Err(fault),
        }
    }
}

impl<D: Overwrite> Overwrite for Carried<'_, D> {
    fn position(&self) -> u64 {
        self.device.position()
    }

    fn write_over(&mut self, at: u64, bytes: &[u8]) -> Result<usize, DeviceFault> {
        self.device.write_over(at, bytes)
    }
}
