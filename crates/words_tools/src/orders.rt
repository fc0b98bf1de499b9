//! Reading the words of AOSP's tools: the orders that they give.

ghost use Rattle.std.specs.Prelude.{◌≡◌, ◌≢◌, ◌≤◌, [], IfErr, IfOk, IfSome, map};
ghost use Rattle.std.specs.Option.{IsSomeAnd};
ghost use Rattle.words_orders.specs.Refused.{FindsNone, IsOfWords};
ghost use Rattle.words_tools.specs.declared.tools.Tool.TheVariants as tools;
ghost use Rattle.words_tools.specs.Rejected.{AreRejected, RejectsImage, RejectsImages, RejectsTogether};
ghost use Rattle.words_tools.specs.Tools.{AreOrdersOf, AsksBlocks, AsksCut, AsksImages, AsksOrders, AsksUnpacking};
ghost use Rattle.words_tools.specs.Tools.{IsToolOrder};
ghost use Rattle.words_tools.specs.Tools.{PacksAsked, standard_or};

use crate::hyphens::has_hyphens;
use crate::mkbootimg::{Image, id_asked, images_of, names_again, packing, refusal_of};
use crate::parser::tool_program;
use crate::texts::fragment_texts;
use crate::tools::Tool;
use crate::unpack_bootimg::{UnpackImage, unpacking};
use clap::Error;
use clap::error::ErrorKind;
use std::alloc::{AllocError, Global};
use std::convert::AsStr;
use words_orders::{
    Answer, Answers, Order, SparseTask, Task, WordsFault, answers_of, expand, told_by,
};

/// The orders of a tool's words, which are done one after the other, or none.
#[derive(Drop)]
pub struct Orders<'a> {
    pub first: Option<Order<'a>>,
    /// Done if the first is done.
    pub second: Option<Order<'a>>,
    /// The boot image whose id is printed once all are done.
    pub id_of: Option<&'a str>,
    /// The image that is unpacked instead of orders.
    pub unpack: Option<UnpackImage<'a>>,
}

/// Reads the words of a tool, of which the first calls it, without those that say something of ramdisk fragments. Clap
/// reports what is wrong with them. They are read here, and no contract depends on how clap read them. `texts` are what
/// `texts_of` makes of them, which is not trusted either.
pub fn orders_of<'a, S: AsStr>(
    alloc: Global,
    tool: Tool,
    words: &'a [S],
    said: &[Answer<'a>],
    texts: &'a [String],
) -> Result<Orders<'a>, WordsFault>
    ensures orders { IfOk result (AreOrdersOf tool (map S.text words.entry.now) said.now) }
    // they are rejected only if they ask for none, or for what is not made, or for a hyphen, or for want of memory, or if
    // clap read them in another way
    ensures none { IfErr result (λ fault. IsOfWords fault → AreRejected tool (map S.text words.entry.now) said.now) }
{
    if let Some(instead) = tool.instead() {
        return Err(WordsFault::NotTaken(instead));
    }
    match tool_program(alloc, tool, words)?.try_get_matches_from(words) {
        Ok(_found) => match orders_in(alloc, tool, words, said, texts) {
            Ok(Some(orders)) => Ok(orders),
            Ok(None) => Err(WordsFault::Usage(misread(alloc, tool)?)),
            Err(fault) => Err(fault),
        },
        Err(error) => Err(fault_for(alloc, tool, words, said, texts, error)),
    }
}

// What is wrong with words that clap refuses: what clap says, unless orders are found in them though no hyphen explains
// that.
#[inline(never)]
fn fault_for<'a, S: AsStr>(
    alloc: Global,
    tool: Tool,
    words: &'a [S],
    said: &[Answer<'a>],
    texts: &'a [String],
    error: Error,
) -> WordsFault
    ensures { IsOfWords result → AreRejected tool (map S.text words.entry.now) said.now }
{
    if has_hyphens(tool, words) {
        return WordsFault::from(error);
    }
    match orders_in(alloc, tool, words, said, texts) {
        Ok(None) => WordsFault::from(error),
        Ok(Some(_orders)) => match misread(alloc, tool) {
            Ok(error) => WordsFault::Misread(error),
            Err(_) => WordsFault::Memory,
        },
        Err(fault) => told_by(fault, error),
    }
}

// The orders that the words give; none if they give none.
#[inline(never)]
fn orders_in<'a, S: AsStr>(
    alloc: Global,
    tool: Tool,
    words: &'a [S],
    said: &[Answer<'a>],
    texts: &'a [String],
) -> Result<Option<Orders<'a>>, WordsFault>
    ensures orders { IfOk result (λ found. IfSome found (AreOrdersOf tool (map S.text words.entry.now) said.now)) }
    ensures none { FindsNone result → AreRejected tool (map S.text words.entry.now) said.now }
{
    let Some((_caller, own)) = words.split_first() else {
        return Ok(None);
    };
    let answers = match answers_of(alloc, tool.rows(), own) {
        Ok(Some(answers)) => answers,
        Ok(None) => return Ok(None),
        Err(fault) => return Err(fault),
    };
    match orders_for(alloc, tool, &answers, said, texts) {
        Ok(orders) => Ok(Some(orders)),
        Err(fault) => Err(fault),
    }
}

/// The texts that no word of a tool is, and that its orders need: of mkbootimg the words of `pack` for ramdisk
/// fragments. There are none of words that clap refuses.
pub fn texts_of<S: AsStr>(
    alloc: Global,
    tool: Tool,
    words: &[S],
    said: &[Answer<'_>],
) -> Result<Vec<String>, WordsFault>
    // it fails only for want of memory
    ensures { IfErr result (λ fault. IsOfWords fault → ⊥) }
{
    if tool.instead().is_some() {
        return Ok(Vec::new(alloc));
    }
    match tool_program(alloc, tool, words)?.try_get_matches_from(words) {
        Ok(found) => Ok(fragment_texts(alloc, found.get_str("vendor_ramdisk"), said)?),
        Err(error) if error.kind() == ErrorKind::OutOfMemory => Err(WordsFault::Memory),
        Err(_) => Ok(Vec::new(alloc)),
    }
}

fn orders_for<'a>(
    alloc: Global,
    tool: Tool,
    answers: &Answers<'a>,
    said: &[Answer<'a>],
    texts: &'a [String],
) -> Result<Orders<'a>, WordsFault>
    ensures asks { IfOk result (AsksOrders tool answers.now.all.items said.now) }
    ensures refused { IfErr result (λ fault. IsOfWords fault →
        (tool ≡ tools.Mkbootimg) × RejectsImages answers.now.all.items said.now) }
{
    let task = match tool {
        Tool::Simg2img => expand(alloc, answers)?,
        Tool::Img2simg => make_sparse(answers),
        Tool::Mkbootimg => return image_orders(alloc, answers, said, texts),
        Tool::Simg2simg => cut(answers),
        Tool::UnpackBootimg => return Ok(unpack_orders(answers)),
        _ => return Err(WordsFault::Misread(misread(alloc, tool)?)),
    };
    Ok(Orders {
        first: Some(order_for(tool, task)),
        second: None,
        id_of: None,
        unpack: None,
    })
}

// An image that is unpacked.
fn unpack_orders<'a>(answers: &Answers<'a>) -> Orders<'a>
    ensures { AsksUnpacking answers.now.all.items result }
{
    Orders {
        first: None,
        second: None,
        id_of: None,
        unpack: Some(unpacking(answers)),
    }
}

// Clap read the words differently, which no correct parser does.
#[inline(never)]
fn misread(alloc: Global, tool: Tool) -> Result<Error, AllocError> {
    let no_words: [&str; 0] = [];
    let mut program = tool_program(alloc, tool, &no_words)?;
    program.error(ErrorKind::InvalidValue, "the words were read as others")
}

// The order of a task of a tool, which shows no progress.
fn order_for<'a>(tool: Tool, task: Task<'a>) -> Order<'a>
    ensures task { result.task ≡ task.entry }
    ensures plain { IsToolOrder tool result }
{
    Order {
        command: tool.name(),
        task,
        is_verbose: false,
        is_quiet: true,
        is_synced: false,
        is_mounted_allowed: false,
    }
}

fn make_sparse<'a>(answers: &Answers<'a>) -> Task<'a>
    ensures { AsksBlocks answers.now.all.items result }
{
    Task::Sparse(SparseTask::Sparse {
        input: standard_or(answers.given_word("IN")),
        output: answers.given_word("OUT"),
        block: answers.number("BLOCK").unwrap_or(4096),
        as_img2simg: true,
    })
}

fn cut<'a>(answers: &Answers<'a>) -> Task<'a>
    ensures { AsksCut answers.now.all.items result }
{
    Task::Sparse(SparseTask::Cut {
        input: answers.given_word("IN"),
        limit: answers.given_number("MAX"),
        prefix: answers.given_word("PREFIX"),
        is_from_zero: true,
        raw: None,
    })
}

// The path of the file that a word names, where `-` is the file that standard input is.
fn standard_or<'a>(word: &'a str) -> &'a str
    ensures { result.now ≡ standard_or word.now }
{
    if word == "-" { "/proc/self/fd/0" } else { word }
}

// ---- images

// The vendor boot image first, and then the boot image.
fn image_orders<'a>(
    alloc: Global,
    answers: &Answers<'a>,
    said: &[Answer<'a>],
    texts: &'a [String],
) -> Result<Orders<'a>, WordsFault>
    ensures asks { IfOk result (AsksImages answers.now.all.items said.now) }
    ensures refused { IfErr result (λ fault. IsOfWords fault → RejectsImages answers.now.all.items said.now) }
{
    let (vendor, boot) = images_of(answers);
    if let Some(instead) = refusal_of_call(answers, said, vendor) {
        return Err(WordsFault::NotTaken(instead));
    }
    let first = match image_order(alloc, answers, said, vendor, texts) {
        Ok(first) => first,
        Err(fault) => return Err(fault),
    };
    let second = match image_order(alloc, answers, said, boot, texts) {
        Ok(second) => second,
        Err(fault) => return Err(fault),
    };
    Ok(Orders {
        first,
        second,
        id_of: id_asked(answers),
        unpack: None,
    })
}

// Why no image is made.
fn refusal_of_call(
    answers: &Answers<'_>,
    said: &[Answer<'_>],
    vendor: Option<Image<'_>>,
) -> Option<&'static str>
    ensures { IfSome result (λ _. RejectsTogether answers.now.all.items said.now vendor.entry) }
{
    let Some(image) = vendor else {
        return refusal_of_said(said, 0);
    };
    if names_again(answers, "vendor_boot", image.output) {
        return Some(
            "--vendor_boot names a file that another option names too: give it one of its own",
        );
    }
    refusal_of_said(said, image.version)
}

// Why words of fragments are rejected, where the vendor boot image has this version, or 0 for none.
fn refusal_of_said(said: &[Answer<'_>], version: u32) -> Option<&'static str>
    ensures { IfSome result (λ _. (said.now ≢ []) × (version ≤ 3)) }
{
    if said.is_empty() || version > 3 {
        None
    } else {
        Some("ramdisk fragments need --vendor_boot and --header_version 4")
    }
}

// The order of an image, where it is asked for.
#[inline(never)]
fn image_order<'a>(
    alloc: Global,
    answers: &Answers<'a>,
    said: &[Answer<'a>],
    image: Option<Image<'a>>,
    texts: &'a [String],
) -> Result<Option<Order<'a>>, WordsFault>
    ensures asked { IfOk result (PacksAsked answers.now.all.items said.now image.entry) }
    ensures refused { IfErr result (λ fault. IsOfWords fault →
        IsSomeAnd image.entry (RejectsImage answers.now.all.items said.now)) }
{
    let Some(image) = image else {
        return Ok(None);
    };
    if let Some(instead) = refusal_of(answers, said, image) {
        return Err(WordsFault::NotTaken(instead));
    }
    match packing(alloc, answers, said, image, texts)? {
        Some(task) => Ok(Some(order_for(Tool::Mkbootimg, task))),
        None => Err(WordsFault::Misread(misread(alloc, Tool::Mkbootimg)?)),
    }
}
