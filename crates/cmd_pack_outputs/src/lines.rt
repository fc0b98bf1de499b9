//! The line that is printed of an image that was written.

ghost use Rattle.std.specs.Prelude.{Some};
ghost use Rattle.cmd_pack_outputs.specs.Lines.{image_line};

use std::fmt;

/// The line of an image that was written: how many bytes it has.
#[derive(Drop)]
pub(crate) struct ImageLine(pub u64);

impl fmt::Display for ImageLine {
    ghost output = { λ line. Some (image_line line.0) };

    fn fmt<W: fmt::Write>(&self, f: &mut fmt::Formatter<W>) -> fmt::Result {
        let bytes = self.0;
        write!(f, "bytes {bytes}")
    }
}
