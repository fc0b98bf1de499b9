//! The tables of AOSP's tools: the words and options of each, with their help.

ghost use Rattle.std.specs.Prelude.{◌≡◌, map};
ghost use Rattle.words_sayings.specs.Rows.{shape_of};
ghost use Rattle.words_tools.specs.Fragments.{fragment_rows};
ghost use Rattle.words_tools.specs.Tools.{tool_rows};

use crate::tools::Tool;
use crate::unpack_bootimg::UNPACK_BOOTIMG;
use words_orders::{FLAG, PART, PATH, TEXT};
use words_values::{Row, Value, WordPlace};

#[rattlefmt::skip]
static SIMG2IMG: [Row; 2] = [
    Row { name: "IN", place: WordPlace::Words, help: "A sparse image, a file or a pipe, or - for standard input; several are laid over one another", ..PATH },
    Row { name: "OUT", help: "The raw image, which is created or emptied, or - for standard output", ..PATH },
];

#[rattlefmt::skip]
static IMG2SIMG: [Row; 4] = [
    Row { name: "IN", help: "The raw image, a file or a block device, or - for standard input", ..PATH },
    Row { name: "OUT", help: "The sparse image, which is created or emptied, or - for standard output", ..PATH },
    Row { name: "BLOCK", value: Value::Count(1024), is_required: false, help: "Bytes of a block: a multiple of 4, from 1024 to 65536; 4096", ..PATH },
    Row { name: "s", place: WordPlace::ShortFlag('s'), value: Value::NotTaken, help: "it takes no holes for don't care: leave out -s", ..FLAG },
];

#[rattlefmt::skip]
static SIMG2SIMG: [Row; 3] = [
    Row { name: "IN", help: "The sparse image, a file", ..PATH },
    Row { name: "PREFIX", help: "The pieces are the files PREFIX.0, PREFIX.1 and so on", ..PATH },
    Row { name: "MAX", value: Value::Count(1), help: "Bytes that a piece has at most: at least 64 more than a block", ..PATH },
];

// A number as Python reads it.
const NUMBER: Row = Row {
    place: WordPlace::Option,
    value: Value::PythonNumber,
    value_name: "N",
    is_required: false,
    ..PATH
};

// An option that is rejected.
const REFUSED: Row = Row {
    place: WordPlace::Option,
    value: Value::NotTaken,
    value_name: "WORD",
    is_required: false,
    ..PATH
};

const SIGNING: &str =
    "it signs nothing: leave out --gki_signing_*, and sign the image with avbtool";

#[rattlefmt::skip]
static MKBOOTIMG: [Row; 29] = [
    Row { name: "kernel", help: "The kernel", ..PART },
    Row { name: "ramdisk", help: "The ramdisk", ..PART },
    Row { name: "second", help: "The second stage", ..PART },
    Row { name: "dtb", help: "The device tree blob", ..PART },
    Row { name: "recovery_dtbo", excludes: Some("recovery_acpio"), help: "The recovery DTBO", ..PART },
    Row { name: "recovery_acpio", help: "The recovery ACPIO, in the place of the DTBO", ..PART },
    Row { name: "cmdline", value: Value::CommandLine, help: "The kernel's command line", ..TEXT },
    Row { name: "vendor_cmdline", value: Value::CommandLine, help: "The command line of a vendor boot image", ..TEXT },
    Row { name: "base", default: Some("0x10000000"), help: "What the offsets count from", ..NUMBER },
    Row { name: "kernel_offset", default: Some("0x00008000"), help: "Of the kernel from the base", ..NUMBER },
    Row { name: "ramdisk_offset", default: Some("0x01000000"), help: "Of the ramdisk from the base", ..NUMBER },
    Row { name: "second_offset", default: Some("0x00f00000"), help: "Of the second stage from the base", ..NUMBER },
    Row { name: "dtb_offset", value: Value::LongPythonNumber, default: Some("0x01f00000"), help: "Of the device tree blob from the base", ..NUMBER },
    Row { name: "os_version", value: Value::OsVersion, default: Some("0"), help: "The OS version, A.B.C", ..TEXT },
    Row { name: "os_patch_level", value: Value::PatchLevel, default: Some("0"), help: "The patch level, YYYY-MM", ..TEXT },
    Row { name: "tags_offset", default: Some("0x00000100"), help: "Of the kernel's tags from the base", ..NUMBER },
    Row { name: "board", help: "The product's name, at most 15 bytes", ..TEXT },
    Row { name: "pagesize", default: Some("2048"), help: "Bytes in a page: 2048, 4096, 8192 or 16384", ..NUMBER },
    Row { name: "id", value: Value::IsGiven, help: "Prints the id of the image; only where it has none", ..FLAG },
    Row { name: "header_version", default: Some("0"), help: "The header version, 0 to 4", ..NUMBER },
    Row { name: "output", excludes: Some("o"), help: "The boot image, which is created or emptied", ..PART },
    Row { name: "o", place: WordPlace::Letter, help: "The same as --output", ..PART },
    Row { name: "vendor_boot", help: "The vendor boot image, which is created or emptied", ..PART },
    Row { name: "vendor_ramdisk", help: "The ramdisk of a vendor boot image", ..PART },
    Row { name: "vendor_bootconfig", help: "The bootconfig of a vendor boot image", ..PART },
    Row { name: "gki_signing_algorithm", help: SIGNING, ..REFUSED },
    Row { name: "gki_signing_key", help: SIGNING, ..REFUSED },
    Row { name: "gki_signing_signature_args", help: SIGNING, ..REFUSED },
    Row { name: "gki_signing_avbtool_path", help: SIGNING, ..REFUSED },
];

// A number of a board id.
const BOARD: Row = Row {
    help: "A number of the board id of a fragment",
    ..NUMBER
};

// The options of ramdisk fragments, which no parser reads. Each group of them ends with the file.
#[rattlefmt::skip]
static FRAGMENTS: [Row; 19] = [
    Row { name: "ramdisk_type", value_name: "TYPE", help: "The type of a fragment: none, platform, recovery, dlkm or a number", ..TEXT },
    Row { name: "ramdisk_name", value_name: "NAME", help: "The name of a fragment", ..TEXT },
    Row { name: "vendor_ramdisk_fragment", help: "The file of a fragment, behind its other options", ..PART },
    Row { name: "board_id0", ..BOARD },
    Row { name: "board_id1", ..BOARD },
    Row { name: "board_id2", ..BOARD },
    Row { name: "board_id3", ..BOARD },
    Row { name: "board_id4", ..BOARD },
    Row { name: "board_id5", ..BOARD },
    Row { name: "board_id6", ..BOARD },
    Row { name: "board_id7", ..BOARD },
    Row { name: "board_id8", ..BOARD },
    Row { name: "board_id9", ..BOARD },
    Row { name: "board_id10", ..BOARD },
    Row { name: "board_id11", ..BOARD },
    Row { name: "board_id12", ..BOARD },
    Row { name: "board_id13", ..BOARD },
    Row { name: "board_id14", ..BOARD },
    Row { name: "board_id15", ..BOARD },
];

/// The options of ramdisk fragments.
pub(crate) fn fragment_rows() -> &'static [Row]
    ensures { map shape_of result.now ≡ fragment_rows }
{
    &FRAGMENTS
}

impl Tool {
    /// The rows of its words and options.
    pub(crate) fn rows(self) -> &'static [Row]
        ensures { map shape_of result.now ≡ tool_rows self }
    {
        match self {
            Tool::Simg2img => &SIMG2IMG,
            Tool::Img2simg => &IMG2SIMG,
            Tool::Mkbootimg => &MKBOOTIMG,
            Tool::Simg2simg => &SIMG2SIMG,
            Tool::UnpackBootimg => &UNPACK_BOOTIMG,
            _ => &[],
        }
    }

    /// What it does.
    pub(crate) fn about(self) -> &'static str {
        match self {
            Tool::Simg2img =>
                "Writes the raw image of a sparse image, or of several together: abootimg expand",
            Tool::Img2simg => "Writes a raw image as a sparse image: abootimg sparse",
            Tool::Mkbootimg => "Writes a boot image, a vendor boot image or both: abootimg pack",
            Tool::Simg2simg => "Cuts a sparse image into pieces, each a sparse image: abootimg cut",
            Tool::UnpackBootimg => "Unpacks a boot image, and prints what it is: abootimg unpack",
            _ => "",
        }
    }
}
