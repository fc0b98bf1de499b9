//! An output whose bytes are counted.

ghost use Rattle.std.specs.Prelude.{◌≡◌, ◌-◌, ◌^◌, ◌∷◌, length, min};

use abt_io::{DeviceFault, Output};

/// Does what its device does, and counts the bytes that this has taken, as far as 64 bits count.
///
/// Its model begins with the number of the device's file. So a call that appends does so to the same file.
#[derive(Drop)]
pub(crate) struct Counted<D: Output> {
    pub device: D,
    pub bytes: u64,
    pub ghost counted: { bytes ≡ min (length (D.written device)) (2 ^ 64 - 1) },
}

impl<D: Output> Output for Counted<D> {
    ghost written = { λ c. (D.write_frame c.device).file ∷ D.written c.device };

    ghost is_full = { λ c. D.is_full c.device };

    ghost writes = { λ c. D.writes c.device };

    ghost write_faults = { λ c. D.write_faults c.device };

    ghost full_faults = { λ c. D.full_faults c.device };

    ghost write_frame = { λ c. D.write_frame c.device };

    fn write(&mut self, bytes: &[u8]) -> Result<usize, DeviceFault> {
        match self.device.write(bytes) {
            Ok(n) => {
                self.bytes = self.bytes.saturating_add(n as u64);
                Ok(n)
            }
            Err(fault) => Err(fault),
        }
    }
}
