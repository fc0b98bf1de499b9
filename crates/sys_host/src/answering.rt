//! The exit status of an outcome, and the message on standard error.

ghost use Rattle.std.specs.Prelude.{◌≡◌, ◌++◌, IfErr, IfOk, OnOk, if◌then◌else◌, string_bytes};
ghost use Rattle.sys_host.specs.Answering.{Answers, IsMessage, IsSecondLine, PrintsNothing, is_of_room, mending};
ghost use Rattle.sys_host.specs.Answering.{of_place, unfinished_text};
ghost use Rattle.sys_report.specs.Shows.{IsTold, NotesOne};

use crate::origin::Origin;
use std::alloc::{AllocError, Global};
use std::io;
use std::io::Read;
use sys_file::{Kind, Opening, System};
use sys_refusals::{FileArg, Magic, Refusal, Told};
use sys_report::Report;
use sys_std::OsSystem;

/// Done.
pub const DONE: u8 = 0;

/// The run failed. Standard error tells why.
pub const REFUSED: u8 = 1;

/// The words are wrong. Standard error tells why.
pub const USAGE: u8 = 2;

/// How a message about a fault is printed.
#[derive(Clone, Copy)]
pub struct Telling {
    /// The name that the program was called by, before the first line.
    pub program: &'static str,
    /// Whether there is a second line.
    pub is_verbose: bool,
}

/// The exit status of an outcome. The user is told of a fault in one line, and if it was asked for in a second one,
/// which names the file and gives the reason. Nothing is printed if it would be written into a file that is read.
#[inline(never)]
pub fn answer<F: Told + Drop>(
    outcome: Result<(), Refusal<'_, F>>,
    how: Telling,
    rt: HostRuntime,
    report: &mut Report,
) -> u8
    ensures done { OnOk outcome.entry (result ≡ 0) }
    ensures quiet { OnOk outcome.entry (PrintsNothing report.old report.new) }
    ensures refused { IfErr outcome.entry (λ refusal. result ≡ (if F.wrong_words refusal.fault then 2 else 1)) }
    ensures noted { IsTold report.old report.new }
    ensures told { IfErr outcome.entry (λ refusal. Answers refusal.about.is_untold report.old report.new
        (IsMessage (F.says refusal.fault) (F.mended_from refusal.fault) how refusal.about)) }
{
    report.progress.erase();
    let refusal = match outcome {
        Ok(()) => return DONE,
        Err(refusal) => refusal,
    };
    if !refusal.about.is_untold {
        tell(&refusal, how, &mut OsSystem { rt }, report);
    }
    if refusal.fault.is_usage() {
        USAGE
    } else {
        REFUSED
    }
}

fn tell<F: Told, S: System>(
    refusal: &Refusal<'_, F>,
    how: Telling,
    system: &mut S,
    report: &mut Report,
)
    ensures noted { IsTold report.old report.new }
    ensures told { NotesOne report.old report.new (IsMessage (F.says refusal.now.fault) (F.mended_from
        refusal.now.fault) how refusal.now.about) }
{
    if !how.is_verbose {
        report.refused(how.program, &refusal.fault, refusal.about.place);
        return;
    }
    let second = second_line(system, refusal);
    report.refused(how.program, &refusal.fault, refusal.about.place);
    match second {
        Ok(line) => report.note_text(line.as_str()),
        Err(_) => report.lose(),
    }
}

fn second_line<F: Told, S: System>(
    system: &mut S,
    refusal: &Refusal<'_, F>,
) -> Result<String, AllocError>
    ensures { IfOk result (λ line. IsSecondLine (F.mended_from refusal.now.fault) refusal.now.about
        (string_bytes line)) }
{
    let alloc = system.alloc();
    let about = refusal.about;
    let why = match about.advice {
        Some(advice) => String::from_str(alloc, advice)?,
        None => match other_image(system, refusal) {
            Some(advice) => String::from_str(alloc, advice)?,
            None => why(alloc, about.why, &refusal.fault)?,
        },
    };
    let line = of_place(alloc, about.place, why.as_str())?;
    let mended = with_mending(
        alloc,
        line.as_str(),
        refusal.fault.mending_piece(),
        about.why,
    )?;
    with_unfinished(alloc, mended.as_str(), about.unfinished)
}

fn of_place(alloc: Global, place: Option<FileArg<'_>>, why: &str) -> Result<String, AllocError>
    ensures { IfOk result (λ line. string_bytes line ≡ of_place place.entry why.now) }
{
    match place {
        Some(place) => {
            let role = place.role;
            format!(in alloc; "  {role} {place}: {why}")
        }
        None => format!(in alloc; "  {why}"),
    }
}

fn with_mending(
    alloc: Global,
    line: &str,
    piece: Option<u32>,
    number: Option<i32>,
) -> Result<String, AllocError>
    ensures { IfOk result (λ told. string_bytes told ≡ line.now ++ mending piece (is_of_room number)) }
{
    match piece {
        Some(piece) if is_of_room(number) => {
            format!(in alloc; "{line}; make room, then --from {piece} mends it")
        }
        Some(piece) => format!(in alloc; "{line}; --from {piece} mends it"),
        None => String::from_str(alloc, line),
    }
}

// Whether the number of the system's error means that there is no room: on the device, in a quota, or in a file of that
// length.
fn is_of_room(number: Option<i32>) -> bool
    ensures { result ≡ is_of_room number }
{
    matches!(number, Some(28 | 122 | 27))
}

fn with_unfinished(
    alloc: Global,
    line: &str,
    output: Option<FileArg<'_>>,
) -> Result<String, AllocError>
    ensures { IfOk result (λ told. string_bytes told ≡ line.now ++ unfinished_text output.entry) }
{
    match output {
        Some(place) => {
            let role = place.role;
            format!(in alloc; "{line}; {role} {place} is broken off")
        }
        None => String::from_str(alloc, line),
    }
}

// The kind of image that a file is, if it was rejected because the expected magic is missing. Its first bytes are read
// again.
fn other_image<F: Told, S: System>(
    system: &mut S,
    refusal: &Refusal<'_, F>,
) -> Option<&'static str> {
    let missing = refusal.fault.missing_magic()?;
    let place = refusal.about.place?;
    if place.is_standard() {
        return None;
    }
    let path = place.path(system.alloc()).ok()?;
    let front = front_of(system, path.as_str()).ok()?;
    image_of(missing, front)
}

// The first bytes of a regular file.
fn front_of<S: System>(system: &mut S, path: &str) -> io::Result<[u8; 8]> {
    if system.look(path)?.kind != Kind::File {
        return Err(io::Error::from(io::ErrorKind::InvalidInput));
    }
    let mut front = [0; 8];
    let mut file = Origin::stream(system.open(path, Opening::Read)?);
    file.read_exact(&mut front)?;
    Ok(front)
}

fn image_of(missing: Magic, front: [u8; 8]) -> Option<&'static str> {
    match missing {
        Magic::Sparse if front == *b"ANDROID!" => Some("it is a boot image; info shows it"),
        Magic::Sparse if front == *b"VNDRBOOT" => Some("it is a vendor boot image; info shows it"),
        Magic::Boot if front.starts_with(b"\x3a\xff\x26\xed") => {
            Some("it is a sparse image; list shows it")
        }
        _ => None,
    }
}

// The system's text for a call that failed, without its number; else the advice.
fn why<F: Told>(alloc: Global, number: Option<i32>, fault: &F) -> Result<String, AllocError> {
    match number {
        Some(number) if fault.is_of_a_device() => told_by_system(alloc, number),
        _ => String::from_str(alloc, fault.advice()),
    }
}

fn told_by_system(alloc: Global, number: i32) -> Result<String, AllocError> {
    let error = io::Error::from_raw_os_error(number);
    let told = format!(in alloc; "{error}")?;
    match told.as_str().split_once(" (os error ") {
        Some((text, _)) => String::from_str(alloc, text),
        None => Ok(told),
    }
}
