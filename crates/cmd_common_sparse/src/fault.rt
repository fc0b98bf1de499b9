//! Why a command of sparse images fails.

ghost use Rattle.std.specs.Prelude.{◌≡◌, ◌++◌, List, ℕ, decimal};
ghost use Rattle.sys_text.specs.Printed.{Prints};
ghost use Rattle.cmd_common_sparse.specs.Fault.{sparse_command_fault_number, side_of_cause, side_of_number};
ghost use Rattle.cmd_common_sparse.specs.Fault.{mended_from, says, side_of, side_of_flash, wrong_words};
ghost use Rattle.sys_refusals.specs.Said.{TellsNumber};
ghost use Rattle.cmd_common_sparse.specs.declared.fault.SparseCommandFault.TheVariants.{Host};

use abt_flash_faults::{Cause, FlashFault};
use abt_io::Output;
use abt_pieces::PieceFault;
use abt_runs::RunFault;
use abt_sparse::SparseFault;
use abt_verify::VerifyFault;
use std::fmt;
use sys_refusals::{FileArg, HostFault, HostRefusal, Magic, Refusal, Side, Told};
use sys_text::Text;

/// Why a command of sparse images fails.
#[derive(Drop)]
pub enum SparseCommandFault {
    /// A fault of a sparse image, or of the devices from which it is read and to which it is written.
    Sparse(SparseFault),
    /// A fault of an image that is read in passes, or of the device from which it is read.
    Run(RunFault),
    /// Of the pieces of an image, or of the devices that they are read from and written to.
    Piece(PieceFault),
    /// Of flashing and delivering, or of the devices of both.
    Flash(FlashFault),
    /// Of an image that is verified, or of the devices of both.
    Verify(VerifyFault),
    /// This one of several images has another block size or number of blocks than the first.
    OtherBlocks { image: u32 },
    /// This one of several images belongs to another cut than a piece before it: its blocks are out of order.
    OtherCut { image: u32 },
    /// Of files, whatever they hold.
    Host(HostFault),
}

/// The error that a command of sparse images returns.
pub type SparseRefusal<'a> = Refusal<'a, SparseCommandFault>;

impl From<HostFault> for SparseCommandFault {
    ghost from_gives = { λ host fault. fault ≡ Host host };

    fn from(fault: HostFault) -> SparseCommandFault {
        SparseCommandFault::Host(fault)
    }
}

impl SparseCommandFault {
    /// The fault's number, where it has one.
    pub fn number(&self) -> Option<u32>
        ensures { result ≡ sparse_command_fault_number self.now }
    {
        match self {
            SparseCommandFault::Sparse(fault) => Some(fault.number()),
            SparseCommandFault::Run(fault) => Some(fault.number()),
            SparseCommandFault::Piece(fault) => Some(fault.number()),
            SparseCommandFault::Flash(fault) => Some(fault.number()),
            SparseCommandFault::Verify(fault) => Some(fault.number()),
            SparseCommandFault::OtherBlocks { .. } => Some(36),
            SparseCommandFault::OtherCut { .. } => Some(38),
            SparseCommandFault::Host(_) => None,
        }
    }
}

impl Told for SparseCommandFault {
    ghost wrong_words = { wrong_words };

    ghost side_of = { side_of };

    ghost says = { says };

    ghost mended_from = { mended_from };

    fn is_usage(&self) -> bool {
        match self {
            SparseCommandFault::Host(fault) => fault.is_usage(),
            SparseCommandFault::Sparse(_) => false,
            SparseCommandFault::Run(_) => false,
            SparseCommandFault::Piece(_) => false,
            SparseCommandFault::Flash(_) => false,
            SparseCommandFault::Verify(_) => false,
            SparseCommandFault::OtherBlocks { .. } => false,
            SparseCommandFault::OtherCut { .. } => false,
        }
    }

    fn side(&self) -> Side {
        match self {
            SparseCommandFault::Sparse(fault) => side_of_number(fault.number()),
            SparseCommandFault::Run(fault) => side_of_number(fault.number()),
            SparseCommandFault::Piece(fault) => side_of_number(fault.number()),
            SparseCommandFault::Flash(fault) => side_of_flash(fault),
            SparseCommandFault::Verify(fault) => side_of_number(fault.number()),
            SparseCommandFault::OtherBlocks { .. } => Side::Input,
            SparseCommandFault::OtherCut { .. } => Side::Input,
            SparseCommandFault::Host(_) => Side::Call,
        }
    }

    fn is_of_a_device(&self) -> bool {
        match self {
            SparseCommandFault::Host(fault) => fault.is_of_a_device(),
            _ => matches!(self.number(), Some(11 | 12 | 18 | 19)),
        }
    }

    fn advice(&self) -> &'static str {
        match self {
            SparseCommandFault::Host(fault) => fault.advice(),
            SparseCommandFault::Piece(PieceFault::LimitTooSmall { least }) => {
                advice_of_limit(*least)
            }
            SparseCommandFault::Flash(FlashFault::LimitTooSmall { least }) => {
                advice_of_limit(*least)
            }
            _ => match self.number() {
                Some(number) => advice_of_number(number),
                None => "",
            },
        }
    }

    fn missing_magic(&self) -> Option<Magic> {
        match self.number() {
            Some(1) => Some(Magic::Sparse),
            _ => None,
        }
    }

    fn mending_piece(&self) -> Option<u32> {
        match self {
            SparseCommandFault::Flash(FlashFault::Stopped { piece, .. }) => Some(*piece),
            _ => None,
        }
    }

    fn put<O: Output>(&self, place: Option<FileArg<'_>>, text: &mut Text<'_, O>) -> fmt::Result {
        match self {
            SparseCommandFault::Sparse(fault) => put_numbered(fault.number(), fault, text),
            SparseCommandFault::Run(fault) => put_numbered(fault.number(), fault, text),
            SparseCommandFault::Piece(fault) => put_numbered(fault.number(), fault, text),
            SparseCommandFault::Flash(fault) => put_numbered(fault.number(), fault, text),
            SparseCommandFault::Verify(fault) => put_numbered(fault.number(), fault, text),
            SparseCommandFault::OtherBlocks { image } => put_image(
                "36 OtherBlocks image ",
                *image,
                text,
            ),
            SparseCommandFault::OtherCut { image } => put_image("38 OtherCut image ", *image, text),
            SparseCommandFault::Host(fault) => fault.put(place, text),
        }
    }
}

// Adds a fault with a number.
fn put_numbered<D: fmt::Display, O: Output>(
    number: u32,
    fault: &D,
    text: &mut Text<'_, O>,
) -> fmt::Result
    ensures { (told : List ℕ) × Prints O.written O.write_faults text.old text.new told × TellsNumber number told }
{
    text.numbered(number, format_args!("{fault}"));
    Ok(())
}

// Adds what is wrong with one of several images.
fn put_image<O: Output>(wrong: &str, image: u32, text: &mut Text<'_, O>) -> fmt::Result
    ensures { Prints O.written O.write_faults text.old text.new (wrong.now ++ decimal image) }
{
    text.word(wrong);
    text.number(image as u64);
    Ok(())
}

fn side_of_flash(fault: &FlashFault) -> Side
    ensures { result ≡ side_of_flash fault.now }
{
    match fault {
        FlashFault::Sparse(fault) => side_of_number(fault.number()),
        FlashFault::Read(_) => Side::Input,
        FlashFault::Write(_) => Side::Output,
        FlashFault::TooLarge => Side::Input,
        FlashFault::SourceChanged => Side::Input,
        FlashFault::BadBlock(_) => Side::Words,
        FlashFault::LimitTooSmall { .. } => Side::Words,
        FlashFault::PartitionTooSmall { .. } => Side::Output,
        FlashFault::Sync(_) => Side::Output,
        FlashFault::Stopped { cause, .. } => side_of_cause(cause),
        FlashFault::NoSuchPiece { .. } => Side::Words,
    }
}

fn side_of_cause(cause: &Cause) -> Side
    ensures { result ≡ side_of_cause cause.now }
{
    match cause {
        Cause::SpoolWrite(_) => Side::Spool,
        Cause::SpoolRead(_) => Side::Spool,
        Cause::SpoolChanged => Side::Spool,
        Cause::Write(_) => Side::Output,
        Cause::Sync(_) => Side::Output,
        Cause::Read(_) => Side::Input,
        Cause::SourceChanged => Side::Input,
    }
}

fn side_of_number(number: u32) -> Side
    ensures { result ≡ side_of_number number }
{
    match number {
        12 | 17 | 18 | 35 | 37 => Side::Output,
        15 | 16 | 31 => Side::Words,
        _ => Side::Input,
    }
}

// Of a limit that is less than this many bytes.
fn advice_of_limit(least: u64) -> &'static str {
    if least <= u32::MAX as u64 {
        "give a LIMIT of so many bytes"
    } else {
        "no LIMIT has room for it, so it can't be cut: take smaller blocks"
    }
}

fn advice_of_number(number: u32) -> &'static str {
    match number {
        1 => "it is no sparse image; a raw one is cut, flashed and verified with --raw",
        2..=9 => "its sparse header or a chunk is damaged; fetch or make it again",
        10 => "it ends there, before its last chunk; fetch or copy it again",
        11 => "it cannot be read",
        12 => "it cannot be written",
        13 => "it has more blocks than a sparse image can count; choose greater blocks",
        14 => "it changed while it was read; try again when nothing writes it",
        15 => "a block has a multiple of 4 bytes, at most 65536",
        17 => "it has fewer bytes than the image needs; nothing of it was written",
        18 => "it was written, but could not be synced",
        19 => "it failed",
        31 => "--from names a piece behind the last",
        35 => "that byte is not the image's, or is missing; flash it again",
        36 => "it has another block size or number of blocks than the first image",
        37 => "it cannot be read",
        38 => "its blocks are out of turn with an earlier piece's; remove what an older cut left",
        _ => "",
    }
}
