//! A write over bytes that are buffered before they go to a file.

ghost use Rattle.std.specs.Prelude.{◌≡◌, ◌≤◌, ◌+◌, length};
ghost use Rattle.abt_io.specs.Moment.{put_at};

use abt_io::put_part;

/// Overwrites buffered bytes with these bytes, beginning at a position.
pub fn put_held(held: &mut Vec<u8>, from: u64, bytes: &[u8])
    requires { from + length bytes.now ≤ length held.old.items }
    ensures { held.new.items ≡ put_at held.old.items from bytes.now }
{
    put_part(held.as_mut_slice(), from, bytes);
}
