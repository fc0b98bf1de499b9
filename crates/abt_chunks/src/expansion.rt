//! Writes each part of an image for an expander.

ghost use Rattle.std.specs.Prelude.{◌≡◌, ◌<◌, ◌*◌, ◌^◌, OnOk, length};
ghost use Rattle.abt_io.specs.Count.{full_of};
ghost use Rattle.abt_io.specs.Lent.{OnlyWrites};
ghost use Rattle.abt_chunks.specs.Costs.{LaysWords, WritingCosts};
ghost use Rattle.abt_chunks.specs.Expanding.{IsQuiet, IsWords, IsWritable, WritesOn, laid_by};
ghost use Rattle.abt_chunks.specs.Parts.{given_by};

use crate::walk::Part;
use abt_io::{DeviceFault, Meter, Output, WORDS, Window, lay_word, write_out, write_zeros};

/// Writes what a part gives where nothing was before, which of a gap is zeros. Raw bytes are taken from the window.
#[inline(always)]
pub(crate) fn write_part<O: Output>(
    part: Part,
    output: &mut O,
    w: &mut Window,
    m: &mut Meter,
) -> Result<(), DeviceFault>
    requires writable { IsWritable part }
    requires fits { given_by part < 2 ^ 64 }
    ensures front { WritesOn result (laid_by part w.old.bytes) O.Output output.old output.new }
    ensures some { OnOk result (IsWords part → length (O.written output.old) < length (O.written output.new)) }
    ensures quiet { IsQuiet part → output.new ≡ output.old }
    ensures writes { OnlyWrites result (full_of result) O.Output output.old output.new }
    ensures costs { WritingCosts result 1 O.Output output.old output.new m.old m.new }
{
    match part {
        Part::Raw(n) => write_out(output, w.part(0, n), m),
        Part::Words(word, n) => write_fill(word, n, output, w, m),
        Part::Skip(n) => write_zeros(output, 4 * n, w, m),
        _ => Ok(()),
    }
}

/// Writes a word so many times. Zeros are as many a call as the output takes.
#[inline(always)]
fn write_fill<O: Output>(
    word: [u8; 4],
    n: u64,
    output: &mut O,
    w: &mut Window,
    m: &mut Meter,
) -> Result<(), DeviceFault>
    requires some { 0 < n }
    requires fits { 4 * n < 2 ^ 64 }
    ensures lays { LaysWords result word n O.Output output.old output.new m.old m.new }
{
    if word == [0; 4] {
        write_zeros(output, 4 * n, w, m)
    } else {
        write_words(word, n, output, w, m)
    }
}

/// Writes a word so many times. The window is filled with the word once, and written as often as it takes.
fn write_words<O: Output>(
    word: [u8; 4],
    n: u64,
    output: &mut O,
    w: &mut Window,
    m: &mut Meter,
) -> Result<(), DeviceFault>
    requires { 0 < n }
    ensures lays { LaysWords result word n O.Output output.old output.new m.old m.new }
{
    let most = n.min(WORDS as u64) as usize;
    lay_word(w, word, most, m);
    w.is_whole();
    let mut done = 0;
    'writes: while done < n {
        m.tick();
        let some = (n - done).min(most as u64) as usize;
        match write_out(output, w.part(0, 4 * some), m) {
            Ok(()) => {}
            Err(fault) => return Err(fault),
        }
        done += some as u64;
    }
    Ok(())
}
