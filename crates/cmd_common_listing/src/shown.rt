//! An output that always has room and keeps the first twelve bytes.

ghost use Rattle.std.specs.Prelude.{◌≡◌, ◌≤◌, [], false, length, min, replicate, take};

use abt_io::{DeviceFault, Log, Output, Tally};

/// Accepts any number of bytes and keeps the first twelve.
#[derive(Drop)]
pub struct Shown {
    pub bytes: [u8; 12],
    pub used: usize,
    pub log: Log,
    pub calls: Tally,
    ghost count: { used ≡ min 12 (length log.state.bytes) },
    ghost kept: { take used bytes ≡ take used log.state.bytes },
}

impl Shown {
    pub fn new() -> Shown
        ensures { result.log.state.bytes ≡ [] }
    {
        Shown {
            bytes: [0; 12],
            used: 0,
            log: Log::new(),
            calls: Tally::new(),
        }
    }
}

impl Shown {
    /// It has room for twelve bytes.
    pub fn is_whole(&self)
        ensures { length self.now.bytes ≡ 12 }
    {}
}

impl Output for Shown {
    ghost written = { λ o. o.log.state.bytes };

    ghost is_full = { λ _. false };

    ghost writes = { λ o. o.calls.number };

    ghost write_faults = { λ _. 0 };

    ghost full_faults = { λ _. 0 };

    fn write(&mut self, bytes: &[u8]) -> Result<usize, DeviceFault> {
        self.calls.add(1);
        let from = self.used;
        let n = bytes.len().min(12 - from);
        self.bytes[from..from + n].copy_from_slice(&bytes[..n]);
        self.log.append(bytes);
        self.used = from + n;
        Ok(bytes.len())
    }
}
