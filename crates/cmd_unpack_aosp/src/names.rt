//! The file of a part.

ghost use Rattle.std.specs.Prelude.{◌≡◌, ◌<◌, ◌≤◌, ℕ, IfOk, IfErr, Some, option_map};
ghost use Rattle.sys_refusals.specs.Paths.{in_folder, path_of};
ghost use Rattle.abt_sections.specs.Header.{fragment_count, view_of};
ghost use Rattle.cmd_unpack_aosp.specs.AospFiles.{file_count, name_at};

use abt_sections::{Image, SectionFault, fragments, section, sections};
use cmd_unpack_aosp_texts::{fragment_file, has_table, section_file};
use sys_refusals::FileArg;

/// A file in a folder.
pub(crate) fn place_in<'a>(folder: &'a str, name: &'a str) -> FileArg<'a>
    ensures { path_of result ≡ in_folder (Some folder.now) name.now }
{
    FileArg {
        role: "PART",
        folder: Some(folder),
        name,
        number: None,
    }
}

/// The name of the file of part `i`, if any. Part `i` is section `i`, or after all sections a ramdisk fragment.
pub(crate) fn name_at(image: &Image, i: u64) -> Result<Option<&'static str>, SectionFault>
    requires { i < file_count (view_of image.now.header) }
    ensures named { IfOk result (λ name. option_map (λ n. n.now) name ≡ name_at (view_of image.now.header) i) }
    ensures unnamed { IfErr result (λ fault. (index : ℕ) × (100 ≤ index)
        × (index < fragment_count (view_of image.now.header)) × (fault ≡ SectionFault.Entry index)) }
{
    let sections = sections(image) as u64;
    let _fragments = fragments(image);
    if i < sections {
        return Ok(section_file(has_table(&image.header), section(image, i as usize)));
    }
    let index = (i - sections) as u32;
    match fragment_file(index) {
        Some(name) => Ok(Some(name)),
        None => Err(SectionFault::Entry(index)),
    }
}
