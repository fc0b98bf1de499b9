//! The images that the words of mkbootimg ask for.

ghost use Rattle.std.specs.Prelude.{◌≡◌, ◌↔◌, ◌+◌, ◌*◌, IfOk, IfSome, IsTrue, Contains, length, map, option_map, true};
ghost use Rattle.std.specs.List.{AllZip, list_any};
ghost use Rattle.words_tools.specs.Rejected.{RejectsBoot, RejectsImage, names_again, takes_file};
ghost use Rattle.words_tools.specs.Mkbootimg.{AreImagesOf, Carries, IsFillOf, IsOptionOf, PacksImage, filler_of};
ghost use Rattle.words_tools.specs.Mkbootimg.{fillers};
ghost use Rattle.words_tools.specs.Fragments.{IsBoardText, IsFragmentText};
ghost use Rattle.words_tools.specs.Mkbootimg.{boards_asked, filling, fragments_asked, id_asked, os_number};
ghost use Rattle.words_tools.specs.Mkbootimg.{output_word, page_asked};
ghost use Rattle.words_tools.specs.Mkbootimg.{IsPackOf, platform_asked, version_asked};
ghost use Rattle.words_orders.specs.Asked.{answer_named};
ghost use Rattle.words_orders.specs.Table.{option_rows};
ghost use Rattle.words_sayings.specs.Rows.{shape_of};

use crate::groups::{board_words, fragment_words, fragments_refusal};
use std::alloc::{AllocError, Global};
use words_orders::{Answer, Answers, BootTask, Given, PackOrder, Task, options};
use words_values::{Row, Value};

/// An image that is asked for.
#[derive(Clone, Copy)]
pub(crate) struct Image<'a> {
    pub is_vendor: bool,
    pub version: u32,
    pub output: &'a str,
}

/// The options of mkbootimg that fill an option of `pack`, for a boot image and for a vendor boot image.
pub(crate) struct Filler {
    pub option: &'static str,
    pub boot: &'static str,
    /// The other option that may be given instead of it.
    pub other: &'static str,
    pub vendor: &'static str,
}

#[rattlefmt::skip]
static FILLERS: [Filler; 15] = [
    Filler { option: "kernel", boot: "kernel", other: "", vendor: "" },
    Filler { option: "ramdisk", boot: "ramdisk", other: "", vendor: "vendor_ramdisk" },
    Filler { option: "second", boot: "second", other: "", vendor: "" },
    Filler { option: "recovery-dtbo", boot: "recovery_dtbo", other: "recovery_acpio", vendor: "" },
    Filler { option: "dtb", boot: "dtb", other: "", vendor: "dtb" },
    Filler { option: "bootconfig", boot: "", other: "", vendor: "vendor_bootconfig" },
    Filler { option: "base", boot: "base", other: "", vendor: "base" },
    Filler { option: "kernel-offset", boot: "kernel_offset", other: "", vendor: "kernel_offset" },
    Filler { option: "ramdisk-offset", boot: "ramdisk_offset", other: "", vendor: "ramdisk_offset" },
    Filler { option: "second-offset", boot: "second_offset", other: "", vendor: "" },
    Filler { option: "tags-offset", boot: "tags_offset", other: "", vendor: "tags_offset" },
    Filler { option: "dtb-offset", boot: "dtb_offset", other: "", vendor: "dtb_offset" },
    Filler { option: "os-number", boot: "os_version", other: "", vendor: "" },
    Filler { option: "name", boot: "board", other: "", vendor: "board" },
    Filler { option: "cmdline", boot: "cmdline", other: "", vendor: "vendor_cmdline" },
];

fn all_fillers() -> &'static [Filler]
    ensures { map filler_of result.now ≡ fillers }
{
    &FILLERS
}

/// The vendor boot image that is asked for, and the boot image.
pub(crate) fn images_of<'a>(answers: &Answers<'a>) -> (Option<Image<'a>>, Option<Image<'a>>)
    ensures { AreImagesOf answers.now.all.items result.0 result.1 }
{
    let version = answers.given_number("header_version");
    let vendor = match answers.word("vendor_boot") {
        Some(output) => Some(Image {
            is_vendor: true,
            version,
            output,
        }),
        None => None,
    };
    let boot = match output(answers) {
        Some(output) => Some(Image {
            is_vendor: false,
            version,
            output,
        }),
        None => None,
    };
    (vendor, boot)
}

/// The boot image whose id is to be printed, where it has one.
pub(crate) fn id_asked<'a>(answers: &Answers<'a>) -> Option<&'a str>
    ensures { option_map (λ word. word.now) result ≡ id_asked answers.now.all.items }
{
    if answers.flag("id") && answers.given_number("header_version") < 3 {
        output(answers)
    } else {
        None
    }
}

/// Why mkbootimg doesn't make this image, or this program doesn't.
pub(crate) fn refusal_of(
    answers: &Answers<'_>,
    said: &[Answer<'_>],
    image: Image<'_>,
) -> Option<&'static str>
    ensures { IfSome result (λ _. RejectsImage answers.now.all.items said.now image.entry) }
{
    if !image.is_vendor {
        return boot_refusal(answers, image.version);
    }
    let ramdisk = answers.find("vendor_ramdisk");
    if image.version == 3 && ramdisk.is_none() {
        return Some("vendor header version 3 has a ramdisk: give --vendor_ramdisk");
    }
    if image.version == 4 {
        return fragments_refusal(said, ramdisk);
    }
    None
}

fn boot_refusal(answers: &Answers<'_>, version: u32) -> Option<&'static str>
    ensures { IfSome result (λ _. RejectsBoot answers.now.all.items version) }
{
    if version > 2 && answers.find("second").is_some() {
        return Some("header versions from 3 on have no second stage: leave out --second");
    }
    if version == 2 && answers.find("dtb").is_none() {
        return Some("header version 2 has a device tree blob: give --dtb");
    }
    if version < 3 && answers.given_word("cmdline").len() > 1534 {
        return Some("header versions 0 to 2 have a command line of at most 1534 bytes");
    }
    None
}

/// Whether another option than this one names this file.
pub(crate) fn names_again(answers: &Answers<'_>, name: &str, path: &str) -> bool
    ensures { IsTrue result → list_any (names_again name.now path.now) answers.now.all.items ≡ true }
{
    for answer in &answers.all {
        if is_file(answer.row.value) && answer.row.name != name && answer.word == path {
            return true;
        }
    }
    false
}

fn is_file(value: Value) -> bool
    ensures { result ≡ takes_file value }
{
    match value {
        Value::File => true,
        _ => false,
    }
}

/// The task of packing an image, with these words of fragments.
pub(crate) fn packing<'a>(
    alloc: Global,
    answers: &Answers<'a>,
    said: &[Answer<'a>],
    image: Image<'a>,
    texts: &'a [String],
) -> Result<Option<Task<'a>>, AllocError>
    ensures { IfOk result (λ task. IfSome task (PacksImage answers.now.all.items said.now image.entry)) }
{
    let Some(given) = all_filled(alloc, answers, image)? else {
        return Ok(None);
    };
    let Some(fragments) = fragments(alloc, answers, said, image, texts)? else {
        return Ok(None);
    };
    let from = fragments.len();
    let Some(board_ids) = board_ids(alloc, answers, said, image, texts, from)? else {
        return Ok(None);
    };
    Ok(Some(Task::Boot(BootTask::Pack(PackOrder {
        output: image.output,
        is_vendor: image.is_vendor,
        version: image.version,
        page: page_asked(answers, image),
        given,
        board_ids,
        fragments,
        keeps_trailing: false,
        is_escaped: false,
        is_front_ended: true,
    }))))
}

// The page that is given; of a boot image from version 3 on the one that it always has.
fn page_asked(answers: &Answers<'_>, image: Image<'_>) -> Option<u32>
    ensures { result ≡ page_asked answers.now.all.items image.entry.is_vendor image.entry.version }
{
    if !image.is_vendor && image.version >= 3 {
        Some(4096)
    } else {
        answers.number("pagesize")
    }
}

// The fragments of a vendor boot image of version 4.
fn fragments<'a>(
    alloc: Global,
    answers: &Answers<'a>,
    said: &[Answer<'a>],
    image: Image<'a>,
    texts: &'a [String],
) -> Result<Option<Vec<&'a str>>, AllocError>
    ensures { IfOk result (λ all. IfSome all (λ all. AllZip (λ f text. IsFragmentText f text.now)
        (fragments_asked answers.now.all.items said.now image.entry.is_vendor image.entry.version) all.items)) }
{
    if !image.is_vendor || image.version != 4 {
        return Ok(Some(Vec::new(alloc)));
    }
    fragment_words(alloc, answers.find("vendor_ramdisk"), said, texts)
}

// The numbers of their board ids, which are the texts from a place on.
fn board_ids<'a>(
    alloc: Global,
    answers: &Answers<'a>,
    said: &[Answer<'a>],
    image: Image<'a>,
    texts: &'a [String],
    from: usize,
) -> Result<Option<Vec<&'a str>>, AllocError>
    ensures { IfOk result (λ all. IfSome all (λ all. AllZip (λ b text. IsBoardText b text.now)
        (boards_asked answers.now.all.items said.now image.entry.is_vendor image.entry.version) all.items)) }
{
    if !image.is_vendor || image.version != 4 {
        return Ok(Some(Vec::new(alloc)));
    }
    board_words(alloc, platform_count(answers), said, texts, from)
}

// How many fragments `--vendor_ramdisk` gives.
fn platform_count(answers: &Answers<'_>) -> u64
    ensures { result ≡ length (platform_asked answers.now.all.items) }
{
    match answers.find("vendor_ramdisk") {
        Some(_ramdisk) => 1,
        None => 0,
    }
}

// What each option of `pack` that mkbootimg has was given.
fn all_filled<'a>(
    alloc: Global,
    answers: &Answers<'a>,
    image: Image<'a>,
) -> Result<Option<Vec<Given<'a>>>, AllocError>
    ensures { IfOk result (λ given. IfSome given (λ given.
        AllZip (IsOptionOf answers.now.all.items image.entry) fillers given.items)) }
{
    let mut given = Vec::new(alloc);
    for filler in all_fillers() {
        let Some(filled) = filled(answers, image, filler) else {
            return Ok(None);
        };
        given.push(filled)?;
    }
    Ok(Some(given))
}

// What an option was given: nothing, if the image doesn't carry it.
fn filled<'a>(answers: &Answers<'a>, image: Image<'a>, filler: &'static Filler) -> Option<Given<'a>>
    ensures { IfSome result (IsOptionOf answers.now.all.items image.entry (filler_of filler.now)) }
{
    let row = option_named(filler.option)?;
    if is_carried(row, image) {
        carried(answers, row, image.is_vendor, filler)
    } else {
        Some(Given {
            row,
            word: None,
            number: 0,
        })
    }
}

fn carried<'a>(
    answers: &Answers<'a>,
    row: &'static Row,
    is_vendor: bool,
    filler: &'static Filler,
) -> Option<Given<'a>>
    ensures row { IfSome result (λ given. given.row.now ≡ row.now) }
    ensures fills { IfSome result (IsFillOf answers.now.all.items is_vendor (filler_of filler.now)) }
{
    let Some(answer) = filling(answers, is_vendor, filler) else {
        return Some(Given {
            row,
            word: None,
            number: 0,
        });
    };
    Some(Given {
        row,
        word: Some(answer.word),
        number: if filler.option == "os-number" {
            os_number(answers)?
        } else {
            answer.number
        },
    })
}

// The option of `pack` of this name.
fn option_named(name: &str) -> Option<&'static Row>
    ensures { IfSome result (λ row. (row.now.name.now ≡ name.now) × Contains option_rows (shape_of row.now)) }
{
    for row in options() {
        if row.name == name {
            return Some(row);
        }
    }
    None
}

// Whether an image carries the option.
fn is_carried(row: &Row, image: Image<'_>) -> bool
    ensures { IsTrue result ↔ Carries image.entry.is_vendor image.entry.version row.now }
{
    if image.is_vendor {
        row.is_carried_by(true, image.version)
    } else {
        row.is_carried_by(false, image.version)
    }
}

// The word of `--output`, or of `-o`.
fn output<'a>(answers: &Answers<'a>) -> Option<&'a str>
    ensures { option_map (λ word. word.now) result ≡ output_word answers.now.all.items }
{
    match answers.word("output") {
        Some(word) => Some(word),
        None => answers.word("o"),
    }
}

// The answer that fills an option of `pack`.
fn filling<'a>(answers: &Answers<'a>, is_vendor: bool, filler: &Filler) -> Option<Answer<'a>>
    ensures { result ≡ filling answers.now.all.items is_vendor (filler_of filler.now) }
{
    if is_vendor {
        return answers.find(filler.vendor);
    }
    match answers.find(filler.boot) {
        Some(answer) => Some(answer),
        None => answers.find(filler.other),
    }
}

// The number of an OS version and a patch level together.
fn os_number(answers: &Answers<'_>) -> Option<u64>
    ensures { IfSome result (λ n. n ≡ os_number answers.now.all.items) }
{
    let version = answers.long_number("os_version");
    let level = answers.long_number("os_patch_level");
    version.checked_mul(2048)?.checked_add(level)
}
