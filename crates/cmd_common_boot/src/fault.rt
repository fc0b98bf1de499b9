//! Why a command of boot images fails, and what the user is told.

ghost use Rattle.std.specs.Prelude.{◌≡◌, ℕ, List, MatchResult, None, OnOk, Ok, Err};
ghost use Rattle.sys_text.specs.Printed.{Prints};
ghost use Rattle.cmd_common_boot.specs.Fault.{about_word, boot_command_fault_number, boot_says, boot_side_of};
ghost use Rattle.cmd_common_boot.specs.Fault.{boot_side_of_number, is_usage};
ghost use Rattle.cmd_common_boot.specs.declared.fault.BootCommandFault.TheVariants.{Host};

use abt_headers::HeaderFault;
use abt_io::Output;
use abt_sections::SectionFault;
use std::fmt;
use sys_refusals::{FileArg, HostFault, Magic, Refusal, Side, Told};
use sys_text::{ShownPath, Text};

/// Why a command of boot images fails.
#[derive(Drop)]
pub enum BootCommandFault<'a> {
    /// Of files, whatever they hold.
    Host(HostFault),
    /// A fault of an image, or of the devices from which it is read and to which it is written.
    Section(SectionFault),
    /// An image of this kind and version doesn't carry this option.
    OptionNotCarried(&'static str),
    /// This argument is no FRAGMENT, or the image has no fragments.
    BadFragment(&'a str),
    /// This number exceeds the field where it is used.
    BadNumber(&'a str),
    /// This argument is no `I:K=N` of `--board-id`, or there is no fragment I.
    BadBoardId(&'a str),
    /// One of the answers of a check is no.
    CheckFailed,
}

/// The result of a command of boot images: the files that it concerns live for `'t`, and its arguments for `'a`.
pub type BootOutcome<'t, 'a> = Result<(), Refusal<'t, BootCommandFault<'a>>>;

impl From<HostFault> for BootCommandFault<'_> {
    ghost from_gives = { λ host fault. fault ≡ Host host };

    fn from(fault: HostFault) -> Self {
        BootCommandFault::Host(fault)
    }
}

impl<'a> BootCommandFault<'a> {
    /// A fault of the header's fields.
    pub fn of_header(fault: HeaderFault) -> BootCommandFault<'static>
        ensures { result ≡ BootCommandFault.Section (SectionFault.Header fault) }
    {
        BootCommandFault::Section(SectionFault::Header(fault))
    }

    /// The result of a call that wrote this many bytes, with its fault as one of a command.
    pub fn of_bytes(answer: Result<u64, SectionFault>) -> Result<u64, BootCommandFault<'a>>
        ensures { MatchResult answer (λ n. result ≡ Ok n) (λ f. result ≡ Err (BootCommandFault.Section f)) }
    {
        match answer {
            Ok(bytes) => Ok(bytes),
            Err(fault) => Err(BootCommandFault::Section(fault)),
        }
    }

    /// The fault's number, where it has one.
    pub fn number(&self) -> Option<u32>
        ensures { result ≡ boot_command_fault_number self.now }
    {
        match self {
            BootCommandFault::Section(fault) => Some(fault.number()),
            BootCommandFault::Host(_) => None,
            BootCommandFault::OptionNotCarried(_) => None,
            BootCommandFault::BadFragment(_) => None,
            BootCommandFault::BadNumber(_) => None,
            BootCommandFault::BadBoardId(_) => None,
            BootCommandFault::CheckFailed => None,
        }
    }
}

impl Told for BootCommandFault<'_> {
    ghost wrong_words = { is_usage };

    ghost side_of = { boot_side_of };

    ghost says = { boot_says };

    ghost mended_from = { λ _. None };

    fn is_usage(&self) -> bool {
        match self {
            BootCommandFault::Host(fault) => fault.is_usage(),
            BootCommandFault::OptionNotCarried(_) => true,
            BootCommandFault::BadFragment(_) => true,
            BootCommandFault::BadNumber(_) => true,
            BootCommandFault::BadBoardId(_) => true,
            BootCommandFault::Section(_) => false,
            BootCommandFault::CheckFailed => false,
        }
    }

    fn side(&self) -> Side {
        match self {
            BootCommandFault::Section(fault) => side_of_number(fault.number()),
            BootCommandFault::Host(_) => Side::Call,
            BootCommandFault::OptionNotCarried(_) => Side::Words,
            BootCommandFault::BadFragment(_) => Side::Words,
            BootCommandFault::BadNumber(_) => Side::Words,
            BootCommandFault::BadBoardId(_) => Side::Words,
            BootCommandFault::CheckFailed => Side::Words,
        }
    }

    fn is_of_a_device(&self) -> bool {
        match self {
            BootCommandFault::Host(fault) => fault.is_of_a_device(),
            _ => matches!(self.number(), Some(11 | 12)),
        }
    }

    fn advice(&self) -> &'static str {
        match self {
            BootCommandFault::Host(fault) => fault.advice(),
            BootCommandFault::Section(fault) => advice_of_number(fault.number()),
            BootCommandFault::OptionNotCarried(_) => {
                "leave the option out, or choose another --version"
            }
            BootCommandFault::BadFragment(_) => {
                "write TYPE:NAME:FILE, with --vendor --version 4; TYPE is none, platform, recovery, dlkm or a number"
            }
            BootCommandFault::BadNumber(_) => "write it as 4096, 0x1000, 4K, 1M or 1G",
            BootCommandFault::BadBoardId(_) => {
                "write I:K=N, with a fragment I of vendor 4, counted from 0, K from 0 to 15, and N in 32 bits"
            }
            BootCommandFault::CheckFailed => "the lines behind the check say why",
        }
    }

    fn missing_magic(&self) -> Option<Magic> {
        match self.number() {
            Some(20) => Some(Magic::Boot),
            _ => None,
        }
    }

    fn mending_piece(&self) -> Option<u32> {
        None
    }

    fn put<O: Output>(&self, place: Option<FileArg<'_>>, text: &mut Text<'_, O>) -> fmt::Result {
        match self {
            BootCommandFault::Host(fault) => fault.put(place, text),
            BootCommandFault::Section(fault) => {
                text.numbered(fault.number(), format_args!("{fault}"));
                Ok(())
            }
            BootCommandFault::OptionNotCarried(name) => put_about(
                "option not carried: --",
                name,
                text,
            ),
            BootCommandFault::BadFragment(word) => put_about("bad fragment ", word, text),
            BootCommandFault::BadNumber(word) => put_about("bad number ", word, text),
            BootCommandFault::BadBoardId(word) => put_about("bad board id ", word, text),
            BootCommandFault::CheckFailed => {
                text.word("check failed");
                Ok(())
            }
        }
    }
}

fn side_of_number(number: u32) -> Side
    ensures { result ≡ boot_side_of_number number }
{
    match number {
        12 => Side::Output,
        26 | 27 | 28 => Side::Words,
        _ => Side::Input,
    }
}

// Adds what is wrong, and the argument that it concerns, as a terminal can show it.
#[inline(never)]
fn put_about<O: Output>(wrong: &str, word: &str, text: &mut Text<'_, O>) -> fmt::Result
    ensures { (told : List ℕ) × Prints O.written O.write_faults text.old text.new told × OnOk
        result (told ≡ about_word wrong.now word.now) }
{
    text.word(wrong);
    text.short(ShownPath(word))
}

fn advice_of_number(number: u32) -> &'static str {
    match number {
        11 => "it cannot be read",
        12 => "it cannot be written",
        14 => "it changed while it was read; try again when nothing writes it",
        20 => "it is no boot image and no vendor boot image",
        21 => "boot images have versions 0 to 4, vendor boot images 3 and 4",
        22 => "a page has a power of two of bytes, from 2048 to 131072",
        23 | 24 => "its table of ramdisks is damaged",
        25 => "it ends within its header; fetch or copy it again",
        26 => "a name has at most 15 bytes, a fragment's at most 31, and no zero",
        27 => "the command line is too long for this version, or has a zero byte",
        28 => "write A.B.C-YYYY-MM, each of A, B and C at most 127, YYYY from 2000 to 2127",
        29 => "it ends within a section; fetch or copy it again",
        30 => "a section has at most 4294967295 bytes",
        _ => "",
    }
}
