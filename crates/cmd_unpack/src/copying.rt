//! Copies the bytes of a part from the image to an output.

ghost use Rattle.std.specs.Prelude.{◌≡◌, ◌<◌, [], IsTrue, IfOk, length, slice_index_or};
ghost use Rattle.abt_headers.specs.declared.sections.SectionPlace.{SectionPlace};
ghost use Rattle.abt_sections.specs.Header.{entry_of, fragment_count, fragment_of, places_of, view_of};
ghost use Rattle.abt_sections.specs.Layout.{part_of};
ghost use Rattle.cmd_unpack.specs.Copying.{CopiesPart};
ghost use Rattle.cmd_unpack.specs.Lines.{told_text};
ghost use Rattle.cmd_common_texts.specs.Words.{image_words, words_text};

use crate::counted::Counted;
use abt_io::{Meter, Output, Source, Window};
use abt_sections::{Image, SectionFault, fragment, section, unpack, unpack_fragment};
use cmd_common_texts::write_words;
use sys_report::{Carried, Progress};

/// Writes section `i`, and returns the output and the number of its bytes.
pub fn copy_section<S: Source, O: Output>(
    image: &Image,
    i: usize,
    source: &mut S,
    onto: O,
    progress: &mut Progress,
    w: &mut Window,
    m: &mut Meter,
) -> (O, Result<u64, SectionFault>)
    requires { i < length (places_of (view_of image.now.header)) }
    ensures copies { (p : SectionPlace) → p ≡ slice_index_or (places_of (view_of image.now.header)) i p →
        CopiesPart result.1 S.Source source.old source.new O.Output onto result.0 image.now
        (part_of (S.content source.old) p) }
    ensures count { (p : SectionPlace) → p ≡ slice_index_or (places_of (view_of image.now.header)) i p →
        IfOk result.1 (λ bytes. bytes ≡ p.size) }
{
    let mut carried = Carried {
        device: onto,
        progress,
    };
    let answer = unpack(image, i, source, &mut carried, w, m);
    let Carried { device: onto, .. } = carried;
    match answer {
        Ok(()) => (onto, Ok(section(image, i).size as u64)),
        Err(fault) => (onto, Err(fault)),
    }
}

/// Writes fragment `index`, and returns the output and the number of its bytes.
pub fn copy_fragment<S: Source, O: Output>(
    image: &Image,
    index: u32,
    source: &mut S,
    onto: O,
    progress: &mut Progress,
    w: &mut Window,
    m: &mut Meter,
) -> (O, Result<u64, SectionFault>)
    requires { index < fragment_count (view_of image.now.header) }
    ensures copies { CopiesPart result.1 S.Source source.old source.new O.Output onto result.0 image.now
        (fragment_of (S.content source.old) (view_of image.now.header) index) }
    ensures count { IsTrue S.models → IfOk result.1 (λ bytes. bytes
        ≡ (entry_of (S.content source.old) (view_of image.now.header) index).ramdisk_size) }
{
    let entry = match fragment(image, index, source, w, m) {
        Ok(entry) => entry,
        Err(fault) => return (onto, Err(fault)),
    };
    let mut carried = Carried {
        device: onto,
        progress,
    };
    let answer = unpack_fragment(image, index, source, &mut carried, w, m);
    let Carried { device: onto, .. } = carried;
    match answer {
        Ok(()) => (onto, Ok(entry.ramdisk_size as u64)),
        Err(fault) => (onto, Err(fault)),
    }
}

/// Writes the arguments that pack the image again to an empty output, and returns this and the number of their bytes.
pub(crate) fn copy_words<S: Source, O: Output>(
    image: &Image,
    folder: &str,
    source: &mut S,
    onto: O,
    progress: &mut Progress,
    w: &mut Window,
    m: &mut Meter,
) -> (O, Result<u64, SectionFault>)
    requires { O.written onto ≡ [] }
    ensures copies { CopiesPart result.1 S.Source source.old source.new O.Output onto result.0 image.now
        (words_text (image_words folder.now (S.content source.old) (view_of image.now.header))) }
    ensures count { IsTrue S.models → IfOk result.1 (λ bytes. bytes ≡ (told_text (words_text (image_words folder.now
        (S.content source.old) (view_of image.now.header)))).bytes) }
{
    let mut counted = Counted {
        device: Carried {
            device: onto,
            progress,
        },
        bytes: 0,
    };
    let answer = write_words(image, folder, source, &mut counted, w, m);
    let Counted { device, bytes } = counted;
    let Carried { device: onto, .. } = device;
    match answer {
        Ok(()) => (onto, Ok(bytes)),
        Err(fault) => (onto, Err(fault)),
    }
}
