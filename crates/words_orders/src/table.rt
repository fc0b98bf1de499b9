//! The table of the command line: every command, with its words and options and their help. Parsing, help, the answers,
//! completions and the check of `docs/COMMANDS.md` all use it.
//!
//! A row is on one line, except for its help: `tools/make_completions.py` reads this file too.

ghost use Rattle.std.specs.Prelude.{◌≡◌, ◌++◌, IfOk, OnOk, map};
ghost use Rattle.words_orders.specs.Table.{all_works, filling_rows_of, name_of, option_rows, own_rows_of};
ghost use Rattle.words_sayings.specs.Rows.{shape_of};
ghost use Rattle.words_orders.specs.Table.{rows_of, shared_rows_of, telling_rows};

use crate::rows::{CommandRow, Work};
use std::alloc::{AllocError, Global};
use words_values::{Row, Value, WordPlace};

/// The program's name and version.
pub(crate) const PROGRAM: &str = "abootimg";

pub const VERSION: &str = "0.2.0";

pub(crate) const ABOUT: &str =
    "Works on Android sparse images and boot images, with every step proved.";

pub(crate) const AFTER_HELP: &str =
    "Without a command, expands a small built-in image and prints its bytes.\n\
     A word @FILE stands for the lines of that file, @@TEXT for @TEXT.\n\
     abootimg as NAME WORDS.. reads the words as AOSP's tool NAME does: simg2img, img2simg, simg2simg, mkbootimg.\n\
     Exit status: 0 done, 1 refused, 2 wrong use.";

// ---- what rows have in common

/// A word that must be given, the path of a file.
pub const PATH: Row = Row {
    name: "",
    place: WordPlace::Word,
    value: Value::File,
    value_name: "",
    is_required: true,
    default: None,
    needs: None,
    excludes: None,
    boot: &[],
    vendor: &[],
    help: "",
};

// A number of 32 bits after `--NAME`.
const NUMBER: Row = Row {
    place: WordPlace::Option,
    value: Value::Number,
    value_name: "N",
    is_required: false,
    ..PATH
};

/// `--NAME`.
pub const FLAG: Row = Row {
    place: WordPlace::Flag,
    value: Value::IsGiven,
    is_required: false,
    ..PATH
};

/// The path of a part of an image.
pub const PART: Row = Row {
    place: WordPlace::Option,
    value_name: "FILE",
    is_required: false,
    ..PATH
};

/// A text after `--NAME`.
pub const TEXT: Row = Row {
    place: WordPlace::Option,
    value: Value::Text,
    value_name: "TEXT",
    is_required: false,
    ..PATH
};

// ---- words and options of several commands

const SPARSE_IN: &str = "The sparse image, a file or a pipe, or - for standard input";

const FILE_IN: &str = "The image, a file or a block device";

const RAW: &str = "IN is a raw image in blocks of N bytes: a multiple of 4, at most 65536";

const LIMIT: &str = "Bytes that a piece has at most, as 512M: at least 64 more than a block";

const PAGE: &str =
    "Bytes in a page, a power of two from 2048 to 131072; boot 3 and 4 always have 4096";

#[rattlefmt::skip]
const VERBOSE: Row = Row { name: "verbose", place: WordPlace::ShortFlag('v'), help: "Tells of a refusal in a second line which file it is about, and why", ..FLAG };

#[rattlefmt::skip]
const QUIET: Row = Row { name: "quiet", place: WordPlace::ShortFlag('q'), help: "Does not show on a terminal how far the work is", ..FLAG };

#[rattlefmt::skip]
const SYNC: Row = Row { name: "sync", help: "Syncs what it wrote, so that it stands after a loss of power", ..FLAG };

#[rattlefmt::skip]
const MOUNTED: Row = Row { name: "mounted", help: "Writes a block device though it is mounted, or in use as swap", ..FLAG };

// The options that may also precede the command, and that most commands have after their own rows.
static TELLING: [Row; 2] = [VERBOSE, QUIET];

// The same of those that write files.
static WRITING: [Row; 4] = [SYNC, MOUNTED, VERBOSE, QUIET];

// The options that an image is filled by, in the order in which one that isn't carried is named, and files are opened.
#[rattlefmt::skip]
static OPTIONS: [Row; 22] = [
    Row { name: "kernel", boot: &[0, 1, 2, 3, 4], vendor: &[], help: "The kernel (boot)", ..PART },
    Row { name: "ramdisk", boot: &[0, 1, 2, 3, 4], vendor: &[3], help: "The ramdisk (boot, vendor 3)", ..PART },
    Row { name: "second", boot: &[0, 1, 2], vendor: &[], help: "The second stage (boot 0 to 2)", ..PART },
    Row { name: "recovery-dtbo", boot: &[1, 2], vendor: &[], help: "The recovery DTBO (boot 1, 2)", ..PART },
    Row { name: "dtb", boot: &[2], vendor: &[3, 4], help: "The device tree blob (boot 2, vendor)", ..PART },
    Row { name: "signature", boot: &[4], vendor: &[], help: "The boot signature (boot 4)", ..PART },
    Row { name: "bootconfig", boot: &[], vendor: &[4], help: "The bootconfig (vendor 4)", ..PART },
    Row { name: "kernel-addr", boot: &[0, 1, 2], vendor: &[3, 4], help: "Where the kernel is loaded (boot 0 to 2, vendor)", ..NUMBER },
    Row { name: "ramdisk-addr", boot: &[0, 1, 2], vendor: &[3, 4], help: "Where the ramdisk is loaded (boot 0 to 2, vendor)", ..NUMBER },
    Row { name: "tags-addr", boot: &[0, 1, 2], vendor: &[3, 4], help: "Where the kernel's tags are loaded (boot 0 to 2, vendor)", ..NUMBER },
    Row { name: "second-addr", boot: &[0, 1, 2], vendor: &[], help: "Where the second stage is loaded (boot 0 to 2)", ..NUMBER },
    Row { name: "dtb-addr", value: Value::LongNumber, boot: &[2], vendor: &[3, 4], help: "Where the device tree blob is loaded, in 64 bits (boot 2, vendor)", ..NUMBER },
    Row { name: "base", boot: &[0, 1, 2], vendor: &[3, 4], help: "What the offsets count from: addresses that aren't given are sums (boot 0 to 2, vendor)", ..NUMBER },
    Row { name: "kernel-offset", boot: &[0, 1, 2], vendor: &[3, 4], help: "Of the kernel from the base; 0x8000", ..NUMBER },
    Row { name: "ramdisk-offset", boot: &[0, 1, 2], vendor: &[3, 4], help: "Of the ramdisk from the base; 0x1000000", ..NUMBER },
    Row { name: "second-offset", boot: &[0, 1, 2], vendor: &[], help: "Of the second stage from the base; 0xf00000", ..NUMBER },
    Row { name: "tags-offset", boot: &[0, 1, 2], vendor: &[3, 4], help: "Of the kernel's tags from the base; 0x100", ..NUMBER },
    Row { name: "dtb-offset", value: Value::LongNumber, boot: &[2], vendor: &[3, 4], help: "Of the device tree blob from the base; 0x1f00000", ..NUMBER },
    Row { name: "os", value: Value::Os, value_name: "A.B.C-YYYY-MM", excludes: Some("os-number"), boot: &[0, 1, 2, 3, 4], vendor: &[], help: "The OS version and its patch level (boot)", ..TEXT },
    Row { name: "os-number", boot: &[0, 1, 2, 3, 4], vendor: &[], help: "The same as the number that the header has (boot)", ..NUMBER },
    Row { name: "name", boot: &[0, 1, 2], vendor: &[3, 4], help: "The product's name, at most 15 bytes (boot 0 to 2, vendor)", ..TEXT },
    Row { name: "cmdline", value: Value::CommandLine, boot: &[0, 1, 2, 3, 4], vendor: &[3, 4], help: "The kernel's command line, at most 1535 bytes (vendor: 2047)", ..TEXT },
];

// What pack and repack have after these.
#[rattlefmt::skip]
static PACKING: [Row; 9] = [
    Row { name: "board-id", place: WordPlace::Options, value_name: "I:K=N", help: "Number K, from 0 to 15, of the board id of fragment I, counted from 0, is N (vendor 4)", ..TEXT },
    Row { name: "fragment", place: WordPlace::Options, value_name: "FRAGMENT", help: "A ramdisk, before those behind OUT (vendor 4)", ..TEXT },
    Row { name: "escaped", help: "In paths, texts and NAME \\x and two hexadecimal digits stand for a byte", ..FLAG },
    Row { name: "OUT", help: "The image, which is created or emptied", ..PATH },
    Row { name: "FRAGMENT", place: WordPlace::LastWords, value: Value::Text, is_required: false, help: "A ramdisk of a vendor 4 image: TYPE:NAME:FILE, TYPE one of none, platform, recovery, dlkm, or a number", ..PATH },
    SYNC,
    MOUNTED,
    VERBOSE,
    QUIET,
];

/// The options that may precede the command.
pub(crate) fn telling() -> &'static [Row]
    ensures { map shape_of result.now ≡ telling_rows }
{
    &TELLING
}

/// The same in a list.
pub(crate) fn front_rows(alloc: Global) -> Result<Vec<&'static Row>, AllocError>
    ensures { IfOk result (λ rows. map (λ row. shape_of row.now) rows.items ≡ telling_rows) }
{
    listed(alloc, telling())
}

/// A reference to each of these rows.
#[inline(never)]
pub(crate) fn listed(alloc: Global, more: &'static [Row]) -> Result<Vec<&'static Row>, AllocError>
    ensures { IfOk result (λ rows. map (λ row. shape_of row.now) rows.items ≡ map shape_of more.entry.now) }
{
    let mut rows: Vec<&'static Row> = Vec::new(alloc);
    push_rows(more, &mut rows)?;
    Ok(rows)
}

fn push_rows(more: &'static [Row], rows: &mut Vec<&'static Row>) -> Result<(), AllocError>
    ensures { OnOk result (map (λ row. shape_of row.now) rows.new.items ≡ map (λ row. shape_of row.now) rows.old.items
        ++ map shape_of more.entry.now) }
{
    for row in more {
        rows.push(row)?;
    }
    Ok(())
}

/// The options that an image may be filled by.
pub fn options() -> &'static [Row]
    ensures { map shape_of result.now ≡ option_rows }
{
    &OPTIONS
}

// ---- the words and options of each command

#[rattlefmt::skip]
static EXPAND: [Row; 2] = [
    Row { name: "IN", place: WordPlace::Words, help: SPARSE_IN, ..PATH },
    Row { name: "OUT", help: "The raw image, which is created or emptied, or - for standard output", ..PATH },
];

#[rattlefmt::skip]
static LIST: [Row; 1] = [
    Row { name: "IN", help: SPARSE_IN, ..PATH },
];

#[rattlefmt::skip]
static SPARSE: [Row; 3] = [
    Row { name: "IN", help: "The raw image, a file or a block device", ..PATH },
    Row { name: "OUT", help: "The sparse image, which is created or emptied, or - for standard output", ..PATH },
    Row { name: "block", default: Some("4096"), help: "Bytes of a block: a multiple of 4, at most 65536", ..NUMBER },
];

#[rattlefmt::skip]
static CUT: [Row; 4] = [
    Row { name: "IN", help: FILE_IN, ..PATH },
    Row { name: "LIMIT", value: Value::Number, help: LIMIT, ..PATH },
    Row { name: "PREFIX", help: "The pieces are the files PREFIX.1, PREFIX.2 and so on", ..PATH },
    Row { name: "raw", help: RAW, ..NUMBER },
];

#[rattlefmt::skip]
static FLASH: [Row; 7] = [
    Row { name: "IN", help: SPARSE_IN, ..PATH },
    Row { name: "PARTITION", help: "The partition, a file or a block device, which must be there", ..PATH },
    Row { name: "LIMIT", value: Value::Number, is_required: false, needs: Some("SPOOL"), help: LIMIT, ..PATH },
    Row { name: "SPOOL", is_required: false, help: "The file that each piece is written to and flashed from, which is created or emptied", ..PATH },
    Row { name: "raw", help: RAW, ..NUMBER },
    Row { name: "from", value: Value::Count(1), value_name: "J", needs: Some("SPOOL"), help: "Begins with piece J, counted from 1, and only plans those before it", ..NUMBER },
    MOUNTED,
];

#[rattlefmt::skip]
static VERIFY: [Row; 3] = [
    Row { name: "IN", help: SPARSE_IN, ..PATH },
    Row { name: "PARTITION", help: "The partition, a file or a block device", ..PATH },
    Row { name: "raw", help: RAW, ..NUMBER },
];

#[rattlefmt::skip]
static PACK: [Row; 3] = [
    Row { name: "vendor", help: "Writes a vendor boot image", ..FLAG },
    Row { name: "version", value: Value::Count(0), is_required: true, help: "The header version, 0 to 4, with --vendor 3 or 4", ..NUMBER },
    Row { name: "page", default: Some("4096"), help: PAGE, ..NUMBER },
];

#[rattlefmt::skip]
static REPACK: [Row; 3] = [
    Row { name: "IN", help: FILE_IN, ..PATH },
    Row { name: "page", help: PAGE, ..NUMBER },
    Row { name: "keep-trailing", help: "Writes what stands behind the image behind the new one", ..FLAG },
];

#[rattlefmt::skip]
static UNPACK: [Row; 3] = [
    Row { name: "IN", help: FILE_IN, ..PATH },
    Row { name: "DIR", help: "The folder, which must be there, for a file of each section and fragment", ..PATH },
    Row { name: "words", help: "Also writes DIR/pack.words, with which pack @DIR/pack.words OUT makes the image again", ..FLAG },
];

#[rattlefmt::skip]
static INFO: [Row; 3] = [
    Row { name: "check", help: "Tells why an answer of the check is no, and is refused then", ..FLAG },
    Row { name: "hex", help: "Prints addresses and sizes as 0x.., and the OS as --os takes it", ..FLAG },
    Row { name: "IN", help: FILE_IN, ..PATH },
];

#[rattlefmt::skip]
static COMPLETIONS: [Row; 1] = [
    Row { name: "SHELL", value: Value::Name(&["bash", "zsh", "fish"]), help: "bash, zsh or fish", ..PATH },
];

// ---- the commands

impl CommandRow {
    /// The rows of its table.
    pub(crate) fn rows(&self, alloc: Global) -> Result<Vec<&'static Row>, AllocError>
        ensures { IfOk result (λ rows. map (λ row. shape_of row.now) rows.items ≡ rows_of self.now.work) }
    {
        let mut rows: Vec<&'static Row> = Vec::new(alloc);
        push_rows(self.own_rows(), &mut rows)?;
        push_rows(self.filling_rows(), &mut rows)?;
        push_rows(self.shared_rows(), &mut rows)?;
        Ok(rows)
    }

    /// The rows of the command alone, which help names first.
    pub(crate) fn own_rows(&self) -> &'static [Row]
        ensures { map shape_of result.now ≡ own_rows_of self.now.work }
    {
        match self.work {
            Work::Expand => &EXPAND,
            Work::List => &LIST,
            Work::Sparse => &SPARSE,
            Work::Cut => &CUT,
            Work::Flash => &FLASH,
            Work::Verify => &VERIFY,
            Work::Pack => &PACK,
            Work::Repack => &REPACK,
            Work::Unpack => &UNPACK,
            Work::Info => &INFO,
            Work::Completions => &COMPLETIONS,
        }
    }

    /// The options that an image is filled by, of a command that fills one.
    pub(crate) fn filling_rows(&self) -> &'static [Row]
        ensures { map shape_of result.now ≡ filling_rows_of self.now.work }
    {
        match self.work {
            Work::Pack | Work::Repack => &OPTIONS,
            _ => &[],
        }
    }

    /// The other rows that it shares with others.
    pub(crate) fn shared_rows(&self) -> &'static [Row]
        ensures { map shape_of result.now ≡ shared_rows_of self.now.work }
    {
        match self.work {
            Work::Pack | Work::Repack => &PACKING,
            Work::Expand | Work::Sparse | Work::Cut | Work::Unpack => &WRITING,
            _ => &TELLING,
        }
    }
}

/// Every command, in the order in which help names them.
pub(crate) fn commands() -> &'static [CommandRow]
    ensures names { map (λ command. command.name.now) result.now ≡ map (λ command. name_of command.work) result.now }
    ensures works { map (λ command. command.work) result.now ≡ all_works }
{
    &COMMANDS
}

static COMMANDS: [CommandRow; 11] = [
    CommandRow {
        name: "expand",
        work: Work::Expand,
        about: "Writes the raw image that a sparse image stands for, or several together",
        after_help: "Several images, as the pieces of a cut, are laid over one another in their order. They are files or block\n\
             devices, and OUT is a file.\n\
             Examples:\n  \
             abootimg expand system.img system.raw.img\n  \
             abootimg expand system.piece.1 system.piece.2 system.raw.img",
    },
    CommandRow {
        name: "list",
        work: Work::List,
        about: "Prints the header and every chunk of a sparse image",
        after_help: "Example: abootimg list system.img",
    },
    CommandRow {
        name: "sparse",
        work: Work::Sparse,
        about: "Writes a raw image as a sparse image",
        after_help: "Example: abootimg sparse system.raw.img system.img",
    },
    CommandRow {
        name: "cut",
        work: Work::Cut,
        about: "Cuts an image into pieces, sparse images that a device takes one by one",
        after_help: "Example: abootimg cut system.img 268435456 system.piece",
    },
    CommandRow {
        name: "flash",
        work: Work::Flash,
        about: "Flashes an image to a partition, whole or in pieces for a download limit",
        after_help: "With LIMIT and SPOOL the image is cut into pieces, and each goes through the file SPOOL to the partition,\n\
             is synced, and gives way to the next. Where that stops in piece J, --from J mends it.\n\
             Examples:\n  \
             abootimg flash system.img /dev/block/by-name/system\n  \
             abootimg flash system.img /dev/block/by-name/system 268435456 spool",
    },
    CommandRow {
        name: "verify",
        work: Work::Verify,
        about: "Compares an image with what stands on a partition, and writes nothing",
        after_help: "Don't-care blocks are passed over.\n\
             Example: abootimg verify system.img /dev/block/by-name/system",
    },
    CommandRow {
        name: "pack",
        work: Work::Pack,
        about: "Writes a boot image or a vendor boot image of its parts",
        after_help: "Examples:\n  \
             abootimg pack --version 4 --kernel Image --ramdisk ramdisk.lz4 boot.img\n  \
             abootimg pack --vendor --version 4 --dtb dtb vendor_boot.img platform::ramdisk.lz4\n  \
             abootimg pack @parts/pack.words boot.img",
    },
    CommandRow {
        name: "repack",
        work: Work::Repack,
        about: "Writes an image again, with the given parts and fields in place of its own",
        after_help: "What isn't given is the image's own; the sizes and the id are made anew.\n\
             Example: abootimg repack boot.img new.img --ramdisk ramdisk.lz4",
    },
    CommandRow {
        name: "unpack",
        work: Work::Unpack,
        about: "Writes the sections of a boot image or vendor boot image to files",
        after_help: "Example: abootimg unpack boot.img parts",
    },
    CommandRow {
        name: "info",
        work: Work::Info,
        about: "Prints what the header of a boot image or vendor boot image says",
        after_help: "Example: abootimg info boot.img",
    },
    CommandRow {
        name: "completions",
        work: Work::Completions,
        about: "Prints what a shell needs to complete the words of this program",
        after_help: "Example: abootimg completions bash > ~/.local/share/bash-completion/completions/abootimg",
    },
];
