//! A small buffer for text.

ghost use Rattle.std.specs.Prelude.{◌≡◌, ◌≤◌, ◌-◌, ◌++◌, [], length, take, min};
ghost use Rattle.sys_text.specs.Shown.{HoldsMore, text_in};

use std::fmt;

/// The most bytes that are buffered.
pub const ROOM: usize = 8192;

/// Bytes that wait to be written.
#[derive(Drop)]
pub struct TextBuffer {
    pub bytes: [u8; ROOM],
    pub used: usize,
    ghost fits: { used ≤ 8192 },
}

impl TextBuffer {
    pub fn new() -> TextBuffer
        ensures { text_in result.bytes result.used ≡ [] }
    {
        TextBuffer {
            bytes: [0; ROOM],
            used: 0,
        }
    }

    pub fn all(&self) -> &[u8]
        ensures value { result.now ≡ text_in self.now.bytes self.now.used }
        ensures bound { length result.now ≤ 8192 }
    {
        &self.bytes[..self.used]
    }

    pub fn len(&self) -> usize
        ensures { result ≡ self.now.used }
    {
        self.used
    }

    /// Empties the buffer.
    pub fn clear(&mut self)
        ensures text { text_in self.new.bytes self.new.used ≡ [] }
        ensures used { self.new.used ≡ 0 }
    {
        self.used = 0;
    }

    /// Takes as many of these bytes as have room, and returns how many.
    #[inline(never)]
    pub fn put(&mut self, bytes: &[u8]) -> usize
        ensures count { result ≡ min (length bytes.now) (8192 - self.old.used) }
        ensures text { text_in self.new.bytes self.new.used ≡ text_in self.old.bytes self.old.used ++ take
            result bytes.now }
    {
        let from = self.used;
        let n = bytes.len().min(ROOM - from);
        self.bytes[from..from + n].copy_from_slice(&bytes[..n]);
        self.used = from + n;
        n
    }
}

/// Keeps what has room.
impl fmt::Write for TextBuffer {
    ghost write_str_gives = { λ s text t. HoldsMore s.bytes s.used text t.bytes t.used };

    fn write_str(&mut self, s: &str) -> fmt::Result {
        self.put(s.as_bytes());
        Ok(())
    }
}
