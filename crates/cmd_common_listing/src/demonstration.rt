//! The demonstration, which runs without arguments: the program expands a small built-in sparse image.

ghost use Rattle.std.specs.Prelude.{◌≡◌, ◌<◌, ◌-◌, ◌++◌, IfErr, OnOk, codes, length, take};
ghost use Rattle.hex.specs.Hex.{encode_lower};
ghost use Rattle.cmd_common_listing.specs.Demo.{IsWriteFault, demo_bytes, demo_line};

use crate::shown::Shown;
use abt_chunks::{SparseFault, expand};
use abt_io::{Forward, Meter, Output, SliceSource, Window, write_out};

/// A sparse image of 4-byte blocks: a raw chunk `ABCD`, a fill chunk and a don't-care chunk of one block each.
#[rattlefmt::skip]
pub const IMAGE: [u8; 72] = [
    0x3a, 0xff, 0x26, 0xed, 1, 0, 0, 0, 28, 0, 12, 0, 4, 0, 0, 0, 3, 0, 0, 0, 3, 0, 0, 0, 0, 0, 0, 0,
    0xc1, 0xca, 0, 0, 1, 0, 0, 0, 16, 0, 0, 0, 0x41, 0x42, 0x43, 0x44,
    0xc2, 0xca, 0, 0, 1, 0, 0, 0, 16, 0, 0, 0, 4, 3, 2, 1,
    0xc3, 0xca, 0, 0, 1, 0, 0, 0, 12, 0, 0, 0,
];

/// Expands the built-in image through the window and prints `expand ` with its bytes in hexadecimal.
///
/// The only possible error is `Write`, after a prefix of the line was written. It allocates no memory.
pub fn demo<O: Output>(out: &mut O, w: &mut Window, m: &mut Meter) -> Result<(), SparseFault>
    ensures line { OnOk result (O.written out.new ≡ O.written out.old ++ demo_line) }
    ensures front { O.written out.new ≡ O.written out.old ++ take
        (length (O.written out.new) - length (O.written out.old)) demo_line }
    ensures frame { O.write_frame out.new ≡ O.write_frame out.old }
    ensures cause { IfErr result (λ fault. IsWriteFault fault × (O.write_faults out.old < O.write_faults out.new)) }
{
    let bytes = expanded(w, m);
    let line = line_of(&bytes);
    match write_out(out, &line, m) {
        Ok(()) => Ok(()),
        Err(fault) => Err(SparseFault::Write(fault)),
    }
}

// The twelve bytes to which the built-in image expands.
fn expanded(w: &mut Window, m: &mut Meter) -> [u8; 12]
    ensures { result ≡ demo_bytes }
{
    let mut input = Forward::new(SliceSource::new(&IMAGE));
    let mut shown = Shown::new();
    let _ = expand(&mut input, &mut shown, w, m);
    shown.is_whole();
    shown.bytes
}

// The line of these bytes.
fn line_of(bytes: &[u8; 12]) -> [u8; 32]
    ensures { result ≡ codes "expand " ++ (encode_lower bytes.now ++ codes "\n") }
{
    let mut line = *b"expand ........................\n";
    let _ = hex::encode_to_slice(bytes.as_slice(), &mut line[7..31]);
    line
}
