//! The order that the words of the command line give.

use crate::completions::Shell;
use words_values::Row;

/// The order that the words give.
#[derive(Drop)]
pub struct Order<'a> {
    /// The command's name.
    pub command: &'static str,
    pub task: Task<'a>,
    /// Whether an error is to have its second line.
    pub is_verbose: bool,
    /// Whether a terminal is not to show the progress of the command.
    pub is_quiet: bool,
    /// Whether each output is to be synced before the command is done.
    pub is_synced: bool,
    /// Whether a block device may be written though it is mounted, or in use as swap.
    pub is_mounted_allowed: bool,
}

/// What is to be done.
#[derive(Drop)]
pub enum Task<'a> {
    /// With a sparse image.
    Sparse(SparseTask<'a>),
    /// With a boot image or a vendor boot image.
    Boot(BootTask<'a>),
    /// Print what this shell needs to complete words.
    Completions(Shell),
}

/// What is to be done with a sparse image.
#[derive(Drop)]
pub enum SparseTask<'a> {
    /// Write the raw image that a sparse image encodes, or several that are overlaid in order.
    Expand {
        inputs: Vec<&'a str>,
        output: &'a str,
    },
    /// Print the header and the chunks of a sparse image.
    List {
        input: &'a str,
    },
    /// Write a raw image as a sparse one, in blocks of this many bytes.
    Sparse {
        input: &'a str,
        output: &'a str,
        block: u32,
        /// Whether it is as img2simg makes it: a last block that is not whole is raw, whatever its bytes are, and a raw
        /// chunk is as long as its header can say.
        as_img2simg: bool,
    },
    /// Cut an image into pieces of at most this many bytes; a raw one if the bytes of its blocks are given.
    Cut {
        input: &'a str,
        limit: u32,
        prefix: &'a str,
        /// Whether the first piece has the number 0, instead of 1.
        is_from_zero: bool,
        raw: Option<u32>,
    },
    /// Flash an image to a partition, whole or in pieces; a raw one if the bytes of its blocks are given.
    Flash {
        input: &'a str,
        partition: &'a str,
        raw: Option<u32>,
        pieces: Option<Pieces<'a>>,
    },
    /// Compare an image with the content of a partition.
    Verify {
        input: &'a str,
        partition: &'a str,
        raw: Option<u32>,
    },
}

/// How an image is flashed in pieces.
#[derive(Clone, Copy)]
pub struct Pieces<'a> {
    /// The most bytes of a piece.
    pub limit: u32,
    /// The file that each piece goes through.
    pub spool: &'a str,
    /// The first piece that is flashed, from 1.
    pub from: u32,
}

/// What is to be done with a boot image or a vendor boot image.
#[derive(Drop)]
pub enum BootTask<'a> {
    /// Write one of its parts.
    Pack(PackOrder<'a>),
    /// Write one again, with other parts and fields.
    Repack {
        input: &'a str,
        order: PackOrder<'a>,
    },
    /// Write the sections to files of a folder, and optionally the words that pack them again.
    Unpack {
        input: &'a str,
        folder: &'a str,
        with_words: bool,
    },
    /// Print what the header says, optionally with numbers in hexadecimal, and optionally why an answer of its check is
    /// no.
    Info {
        input: &'a str,
        with_check: bool,
        with_hex: bool,
    },
}

/// The order of `pack` and `repack`.
#[derive(Drop)]
pub struct PackOrder<'a> {
    pub output: &'a str,
    pub is_vendor: bool,
    /// The header version of `pack`; 0 for `repack`.
    pub version: u32,
    pub page: Option<u32>,
    /// What each of `options()` was given, in its order.
    pub given: Vec<Given<'a>>,
    pub board_ids: Vec<&'a str>,
    /// The fragments of `--fragment`, followed by those after OUT.
    pub fragments: Vec<&'a str>,
    pub keeps_trailing: bool,
    pub is_escaped: bool,
    /// Whether a zero ends the first field of a long command line, as mkbootimg has it.
    pub is_front_ended: bool,
}

/// What an option was given.
#[derive(Clone, Copy)]
pub struct Given<'a> {
    /// Its row in the table.
    pub row: &'static Row,
    pub word: Option<&'a str>,
    /// The number that the word encodes, if the option is one of numbers; else 0.
    pub number: u64,
}
