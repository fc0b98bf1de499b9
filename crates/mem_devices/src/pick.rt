//! What a crash leaves of the bytes that were written since the last sync.

ghost use Rattle.std.specs.Prelude.{◌≡◌, ℕ, length, slice_index};
ghost use Rattle.abt_io.specs.Bytes.{AreBytes};
ghost use Rattle.mem_devices.specs.Crash.{left_of};

use abt_io::are_bytes;

/// Which of the possible contents a crash leaves.
#[derive(Clone, Copy, Debug, PartialEq, Eq, Drop)]
pub enum Pick {
    /// Touched bytes are as they were after the last sync.
    Old,
    /// Touched bytes are as they were last written.
    New,
    /// Every touched byte is this one.
    Byte(u8),
}

impl Pick {
    /// What is left of one byte, from what a read gives, what was stable and whether it is touched.
    fn of(self, now: u8, stable: u8, touched: u8) -> u8
        ensures { result ≡ left_of self now stable touched }
    {
        if touched == 0 {
            return now;
        }
        match self {
            Pick::Old => stable,
            Pick::New => now,
            Pick::Byte(byte) => byte,
        }
    }
}

/// Sets every byte to what the crash leaves of it.
pub(crate) fn leave(now: &mut [u8], stable: &[u8], touched: &[u8], pick: Pick)
    requires stable { length stable.now ≡ length now.old }
    requires touched { length touched.now ≡ length now.old }
    ensures left { (i : ℕ) → slice_index now.new i ≡ left_of pick (slice_index now.old i) (slice_index stable.now i)
        (slice_index touched.now i) }
    ensures told { AreBytes now.new }
{
    for i in 0..now.len() {
        now[i] = pick.of(now[i], stable[i], touched[i]);
    }
    are_bytes(now);
}
