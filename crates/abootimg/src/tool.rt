//! Doing what the words of one of AOSP's tools ask for, and the exit status.

ghost use Rattle.std.specs.Prelude.{◌≡◌, ◌≢◌, ◌⊎◌, [], IfErr, IfOk, IfSome, IsTrue, OnOk, map, option_map};
ghost use Rattle.std.specs.Prelude.{string_bytes};
ghost use Rattle.std.specs.Option.{IsSomeAnd};
ghost use Rattle.sys_refusals.specs.Paths.{path_of};
ghost use Rattle.sys_disk.specs.Counts.{call};
ghost use Rattle.sys_disk.specs.World.{HasFailed};
ghost use Rattle.words_orders.specs.Refused.{IsOfWords};
ghost use Rattle.words_tools.specs.Rejected.{AreRejected, RejectsPartsFor};
ghost use Rattle.words_tools.specs.Tools.{AreOrdersOf, ArePartedFor};
ghost use Rattle.cmd_sparse_dispatch.specs.Commands.{state};
ghost use Rattle.abootimg.specs.OrderDone.{IsReadyForOrder};
ghost use Rattle.abootimg.specs.EmptyFiles.{HasEmptyFile, IsEmptyAt, IsNotToBeEmpty, TaskHasEmptyFile};
ghost use Rattle.abootimg.specs.LooksAhead.{IsReadAhead, LooksAhead, OpensThese, file_word, files_given};
ghost use Rattle.abootimg.specs.ToolEnds.{ArePlain, CalledEnds, OrdersEnd, OrdersFoundEnd, PartedEnds, ToolEnds, status_as};

use crate::beginning::Beginning;
use crate::image_id::print_id;
use crate::storage::{Storage, SystemStorage};
use crate::turns::do_in_turn;
use crate::unpack_image::unpack_image;
use abt_io::{Meter, Window};
use std::alloc::Global;
use std::fs;
use std::fs::OpenOptions;
use std::io::IsTerminal;
use sys_disk::Disk;
use sys_host::{DONE, Telling, USAGE};
use sys_readers::ToWrite;
use sys_refusals::{FileArg, HostRefusal};
use sys_report::{Report, StandardOutput};
use words_orders::{Answer, BootTask, Given, Order, Task, WordsFault};
use words_program::{refused, wrong_words};
use words_tools::{Orders, Parted, Tool, orders_of, part_words, texts_of};
use words_values::Value;

/// Does what the words of a tool ask for, of which the first calls it, and returns the exit status.
///
/// A tool prints nothing that it isn't asked for. The message of a fault goes to standard error, after the tool's name.
/// No word is replaced by the lines of a file. The stack that this takes is not taken from what the program does under
/// its own name.
#[inline(never)]
pub fn run_tool(
    rt: HostRuntime,
    tool: Tool,
    words: &[String],
    report: &mut Report,
    w: &mut Window,
    m: &mut Meter,
) -> u8 {
    let how = Telling {
        program: tool.name(),
        is_verbose: rt.stderr().is_terminal(),
    };
    do_tool(
        rt,
        tool,
        words,
        how,
        &mut SystemStorage { rt },
        report,
        w,
        m,
    )
}

// Does it with files wherever they are.
fn do_tool<S: Storage>(
    rt: HostRuntime,
    tool: Tool,
    words: &[String],
    how: Telling,
    storage: &mut S,
    report: &mut Report,
    w: &mut Window,
    m: &mut Meter,
) -> u8
    // the orders are carried out that the words give, if they are found; else the status is that of wrong words only if
    // they are rejected
    ensures { IsTrue S.Disk.models → ToolEnds S.Disk.on_output S.Disk.is_file tool (map string_bytes words.now)
        (S.its storage.old) report.old (S.its storage.new) report.new result }
{
    let status = do_called(rt, tool, words, how, storage, report, w, m);
    status_for(tool, status)
}

// Does what a call of a tool asks for, and returns the exit status, where that of wrong words is 2.
#[tactic(auto, using(crate::proofs::Called::called_from))]
fn do_called<S: Storage>(
    rt: HostRuntime,
    tool: Tool,
    words: &[String],
    how: Telling,
    storage: &mut S,
    report: &mut Report,
    w: &mut Window,
    m: &mut Meter,
) -> u8
    ensures { IsTrue S.Disk.models → CalledEnds S.Disk.on_output S.Disk.is_file tool (map string_bytes words.now)
        (S.its storage.old) report.old (S.its storage.new) report.new result }
{
    match parted_for(rt.alloc(), tool, words) {
        Ok(parted) => {
            let words = parted.others.as_slice();
            let said = parted.said.as_slice();
            do_parted(rt, tool, words, said, how, storage, report, w, m)
        }
        Err(fault) => wrong_words(rt, Some(tool), words, &fault, how, report),
    }
}

// The exit status under a tool's name.
fn status_for(tool: Tool, status: u8) -> u8
    ensures { result ≡ status_as tool status }
{
    if status == USAGE {
        tool.wrong_words()
    } else {
        status
    }
}

// The words separated: those of mkbootimg that say something of ramdisk fragments, and the others.
fn parted_for<'a>(alloc: Global, tool: Tool, words: &'a [String]) -> Result<Parted<'a>, WordsFault>
    ensures parted { IfOk result (λ parted. ArePartedFor tool (map string_bytes words.now)
        (map (λ word. word.now) parted.others.items) parted.said.items) }
    ensures refused { IfErr result (λ fault. IsOfWords fault → RejectsPartsFor tool (map string_bytes words.now)) }
{
    match tool {
        Tool::Mkbootimg => part_words(alloc, words),
        _ => Ok(Parted::of_others(alloc, words)?),
    }
}

// Does what these words ask for.
#[tactic(auto, using(crate::proofs::Plain::found_plain, crate::proofs::Asking::none_given))]
fn do_parted<'a, S: Storage>(
    rt: HostRuntime,
    tool: Tool,
    words: &'a [&'a str],
    said: &'a [Answer<'a>],
    how: Telling,
    storage: &mut S,
    report: &mut Report,
    w: &mut Window,
    m: &mut Meter,
) -> u8
    ensures { IsTrue S.Disk.models → PartedEnds S.Disk.on_output S.Disk.is_file tool (map (λ word. word.now) words.now) said.now
        (S.its storage.old) report.old (S.its storage.new) report.new result }
{
    match texts_of(rt.alloc(), tool, words, said) {
        Ok(texts) => {
            let found = ordered(rt.alloc(), tool, &*words, &*said, texts.as_slice());
            do_found_orders(rt, tool, words, found, how, storage, report, w, m)
        }
        Err(fault) => wrong_words(rt, Some(tool), words, &fault, how, report),
    }
}

// The orders that the words give. The stack for reading them is free again while they are carried out.
#[inline(never)]
fn ordered<'a>(
    alloc: Global,
    tool: Tool,
    words: &'a [&'a str],
    said: &'a [Answer<'a>],
    texts: &'a [String],
) -> Result<Orders<'a>, WordsFault>
    ensures orders { IfOk result (AreOrdersOf tool (map (λ word. word.now) words.now) said.now) }
    ensures none { IfErr result (λ fault. IsOfWords fault →
        AreRejected tool (map (λ word. word.now) words.now) said.now) }
{
    orders_of(alloc, tool, words, said, texts)
}

// Carries out the orders that were found in these words, or unpacks an image instead, or tells what is wrong with the
// words.
fn do_found_orders<S: Storage>(
    rt: HostRuntime,
    tool: Tool,
    words: &[&str],
    found: Result<Orders<'_>, WordsFault>,
    how: Telling,
    storage: &mut S,
    report: &mut Report,
    w: &mut Window,
    m: &mut Meter,
) -> u8
    requires plain { IfOk found ArePlain }
    ensures { IsTrue S.Disk.models → OrdersFoundEnd S.Disk.on_output S.Disk.is_file found.entry (S.its storage.old) report.old
        (S.its storage.new) report.new result }
{
    let orders = match found {
        Ok(orders) => orders,
        Err(fault) => return wrong_words(rt, Some(tool), words, &fault, how, report),
    };
    if let Some(image) = orders.unpack {
        return unpack_image(rt, image, how, storage, report, w, m);
    }
    let mut disk = storage.disk();
    let status = do_orders(rt, orders, &mut disk, how, report, w, m);
    storage.give_back(disk);
    status
}

// Does the first order, and the second if the first is done. Then an id is printed, if that is asked for.
#[tactic(auto, using(crate::proofs::Orders::turns_from))]
fn do_orders<D: Beginning>(
    rt: HostRuntime,
    orders: Orders<'_>,
    disk: &mut D,
    how: Telling,
    report: &mut Report,
    w: &mut Window,
    m: &mut Meter,
) -> u8
    requires ready { IsTrue D.models → IsReadyForOrder (D.held disk.old) }
    requires plain { ArePlain orders }
    ensures { IsTrue D.models → OrdersEnd D.on_output D.is_file orders.entry
        (state (D.world disk.old) (D.held disk.old) report.old)
        (state (D.world disk.new) (D.held disk.new) report.new) result }
{
    let Orders {
        first,
        second,
        id_of,
        ..
    } = orders;
    if let Some(instead) = refusal_of_orders(rt, &*disk, &first, &second) {
        return not_taken(rt, instead, how, report);
    }
    silence(rt, report);
    if let Err(refusal) = spare_inputs(rt, disk, &second) {
        return refused(rt, refusal, how, report);
    }
    let status = do_in_turn(rt, first, second, disk, how, report, w, m);
    if status != DONE {
        return status;
    }
    match id_of {
        Some(path) => print_id(rt, path, how),
        None => DONE,
    }
}

// Tells that this is not done, and what does it instead.
fn not_taken(rt: HostRuntime, instead: &'static str, how: Telling, report: &mut Report) -> u8
    ensures { result ≢ 0 }
{
    let words: [&str; 0] = [];
    wrong_words(
        rt,
        None,
        &words,
        &WordsFault::NotTaken(instead),
        how,
        report,
    )
}

// ---- before they begin

// Why images are not made of their files.
fn refusal_of_orders<D: Beginning>(
    rt: HostRuntime,
    disk: &D,
    first: &Option<Order<'_>>,
    second: &Option<Order<'_>>,
) -> Option<&'static str>
    ensures { IsTrue D.models → IfSome result (λ _.
        HasEmptyFile (D.world disk.now) first.now ⊎ HasEmptyFile (D.world disk.now) second.now) }
{
    if let Some(instead) = refusal_of_order(rt, disk, first) {
        return Some(instead);
    }
    refusal_of_order(rt, disk, second)
}

fn refusal_of_order<D: Beginning>(
    rt: HostRuntime,
    disk: &D,
    order: &Option<Order<'_>>,
) -> Option<&'static str>
    ensures { IsTrue D.models → IfSome result (λ _. HasEmptyFile (D.world disk.now) order.now) }
{
    match order {
        Some(order) => refusal_of_parts(rt, disk, &order.task),
        None => None,
    }
}

// Why an image is not made of its files: for one of them that is empty, mkbootimg fails, or reserves a place anyway.
fn refusal_of_parts<D: Beginning>(
    rt: HostRuntime,
    disk: &D,
    task: &Task<'_>,
) -> Option<&'static str>
    ensures { IsTrue D.models → IfSome result (λ _. TaskHasEmptyFile (D.world disk.now) task.now) }
{
    let Task::Boot(BootTask::Pack(order)) = task else {
        return None;
    };
    let version = order.version;
    for given in order.given.as_slice() {
        if let Some(instead) = refusal_of_given(rt, disk, given, version) {
            return Some(instead);
        }
    }
    None
}

fn refusal_of_given<D: Beginning>(
    rt: HostRuntime,
    disk: &D,
    given: &Given<'_>,
    version: u32,
) -> Option<&'static str>
    ensures option { IfSome result (λ _. IsNotToBeEmpty version given.now.row.now.name.now) }
    ensures named { IsTrue D.models → IfSome result (λ _.
        IsSomeAnd given.now.word (λ word. IsEmptyAt (D.world disk.now) word.now)) }
{
    let instead = refusal_of_empty(given.row.name, version)?;
    match given.word {
        Some(word) if disk.leads_to_empty_file(rt, word) => Some(instead),
        _ => None,
    }
}

// The message about an empty file of this option, if it is rejected.
fn refusal_of_empty(name: &str, version: u32) -> Option<&'static str>
    ensures { IfSome result (λ _. IsNotToBeEmpty version name.now) }
{
    if name == "recovery-dtbo" {
        return Some("the recovery DTBO is not empty: leave it out");
    }
    if name == "dtb" && version == 2 {
        return Some("the device tree blob of header version 2 is not empty");
    }
    None
}

pub(crate) fn is_empty_file(rt: HostRuntime, path: &str) -> bool {
    match fs::metadata(&rt, path) {
        Ok(found) => found.is_file() && found.len() == 0,
        Err(_) => false,
    }
}

// From now on standard output gets no report, if the system has a file that takes and discards it.
fn silence(rt: HostRuntime, report: &mut Report) {
    let mut how = OpenOptions::new();
    if let Ok(file) = how.write(true).open(&rt, "/dev/null") {
        report.out = ToWrite::new(StandardOutput::in_file(file));
    }
}

// No output is a file that a later order reads: each such file is opened once before the first order is carried out.
fn spare_inputs<'a, D: Beginning>(
    rt: HostRuntime,
    disk: &mut D,
    order: &Option<Order<'a>>,
) -> Result<(), HostRefusal<'a>>
    requires first { IsTrue D.models → (D.held disk.old).begun ≡ [] }
    ensures looks { IsTrue D.models → OnOk result (LooksAhead D.is_file (files_given order.now) (D.world disk.old)
        (D.held disk.old) (D.held disk.new)) }
    ensures world { IsTrue D.models → D.world disk.new ≡ D.world disk.old }
    ensures refused { IsTrue D.models → IfErr result (λ refusal. HasFailed (call refusal.fault) (D.held disk.old)
        (D.held disk.new)) }
{
    let Some(order) = order else {
        return Ok(());
    };
    let Task::Boot(BootTask::Pack(order)) = &order.task else {
        return Ok(());
    };
    read_all_ahead(rt, disk, order.given.as_slice())
}

fn read_all_ahead<'a, D: Beginning>(
    rt: HostRuntime,
    disk: &mut D,
    all: &[Given<'a>],
) -> Result<(), HostRefusal<'a>>
    requires first { IsTrue D.models → (D.held disk.old).begun ≡ [] }
    ensures looks { IsTrue D.models → OnOk result (LooksAhead D.is_file all.now (D.world disk.old) (D.held disk.old)
        (D.held disk.new)) }
    ensures world { IsTrue D.models → D.world disk.new ≡ D.world disk.old }
    ensures refused { IsTrue D.models → IfErr result (λ refusal. HasFailed (call refusal.fault) (D.held disk.old)
        (D.held disk.new)) }
{
    for given in all {
        match read_ahead(rt, disk, given) {
            Ok(()) => {}
            Err(refusal) => return Err(refusal),
        }
    }
    Ok(())
}

// The file that an option was given.
fn read_ahead<'a, D: Beginning>(
    rt: HostRuntime,
    disk: &mut D,
    given: &Given<'a>,
) -> Result<(), HostRefusal<'a>>
    requires first { IsTrue D.models → (D.held disk.old).begun ≡ [] }
    ensures reads { IsTrue D.models → OnOk result (OpensThese (D.held disk.old) (D.held disk.new)) }
    ensures ahead { IsTrue D.models → OnOk result (IsReadAhead D.is_file (D.world disk.old) (D.held disk.new)
        given.now) }
    ensures world { IsTrue D.models → D.world disk.new ≡ D.world disk.old }
    ensures refused { IsTrue D.models → IfErr result (λ refusal. HasFailed (call refusal.fault) (D.held disk.old)
        (D.held disk.new)) }
{
    let Some(word) = file_given(given) else {
        return Ok(());
    };
    if !disk.leads_to_file(rt, word) {
        return Ok(());
    }
    match disk.source(place_of(given.row.name, word)) {
        Ok(at) => {
            disk.let_go_source(at);
            Ok(())
        }
        Err(refusal) => Err(refusal),
    }
}

fn place_of<'a>(option: &'a str, word: &'a str) -> FileArg<'a>
    ensures { path_of result ≡ word.entry.now }
{
    FileArg {
        role: option,
        folder: None,
        name: word,
        number: None,
    }
}

// The word of an option whose value is a file.
fn file_given<'a>(given: &Given<'a>) -> Option<&'a str>
    ensures { option_map (λ word. word.now) result ≡ file_word given.now }
{
    match given.row.value {
        Value::File => given.word,
        _ => None,
    }
}

pub(crate) fn is_regular_file(rt: HostRuntime, path: &str) -> bool {
    match fs::metadata(&rt, path) {
        Ok(found) => found.is_file(),
        Err(_) => false,
    }
}
