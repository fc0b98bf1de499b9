//! Whether a buffer that was filled with dots holds given bytes.

/// Whether the buffer begins with these bytes, followed by dots.
pub fn holds(room: &[u8], stands: &[u8]) -> bool {
    for (i, byte) in room.iter().enumerate() {
        let want = match stands.get(i) {
            Some(want) => *want,
            None => b'.',
        };
        if *byte != want {
            return false;
        }
    }
    stands.len() <= room.len()
}
