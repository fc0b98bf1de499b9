//! The one buffer through which all bytes pass.

ghost use Rattle.std.specs.Prelude.{◌≡◌, ◌≤◌, ◌-◌, length, take, drop, slice_range, replicate};
ghost use Rattle.std.specs.Borrow.{sem};
ghost use Rattle.abt_io.specs.Window.{LendsPart};

/// How many bytes a window holds, and the most that a device is asked for in one call.
pub const WINDOW: usize = 65_536;

/// A buffer of `WINDOW` bytes. The program makes one, and every call borrows it. Between two steps its content has no
/// meaning.
#[derive(Drop)]
pub struct Window {
    pub bytes: [u8; WINDOW],
}

impl Window {
    /// All zeros.
    pub fn new() -> Window {
        Window { bytes: [0; WINDOW] }
    }

    /// A window is this long. Only contracts need this fact.
    #[inline(always)]
    pub fn is_whole(&self)
        ensures { length self.now.bytes ≡ 65536 }
    {
        let _bytes: &[u8] = &self.bytes;
    }

    /// The bytes from `a` up to and without `b`, borrowed and not copied.
    #[inline(always)]
    pub fn part(&self, a: usize, b: usize) -> &[u8]
        requires order { a ≤ b }
        requires bound { b ≤ 65536 }
        ensures value { result.now ≡ slice_range self.now.bytes a b }
        ensures long { length result.now ≡ b - a }
    {
        &self.bytes[a..b]
    }

    /// The same, for writing. Once the loan ends, the window is as before with these bytes written
    /// over.
    #[inline(always)]
    pub fn part_mut(&mut self, a: usize, b: usize) -> &mut [u8]
        requires order { a ≤ b }
        requires bound { b ≤ 65536 }
        ensures* writes_back { sem 𝓛 (LendsPart self.entry a b result) }
        ensures value { result.now ≡ take (b - a) (drop a self.old.bytes) }
        ensures long { length result.now ≡ b - a }
    {
        &mut self.bytes[a..b]
    }
}
