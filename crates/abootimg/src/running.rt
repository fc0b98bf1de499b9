//! Doing what the words ask for, and the exit status.

ghost use Rattle.std.specs.Prelude.{◌≡◌, ◌≢◌, ◌≤◌, ◌||◌, IfErr, IfOk, IsTrue, map, string_bytes};
ghost use Rattle.sys_host.specs.Answering.{PrintsNothing};
ghost use Rattle.words_orders.specs.Asked.{AskForNone, IsOrderOf};
ghost use Rattle.words_orders.specs.Refused.{IsOfWords};
ghost use Rattle.abootimg.specs.OrderDone.{IsReadyForOrder};
ghost use Rattle.abootimg.specs.OrderEnds.{OrderEnds, TaskEnds};
ghost use Rattle.abootimg.specs.WordsEnd.{FoundEnds, WordsEnd};

use crate::beginning::{Beginning, begin};
use crate::boot_task::do_boot;
use crate::sparse_task::do_sparse;
use abt_io::{Meter, Window};
use cmd_boot_dispatch::BootCommand;
use cmd_common_listing::demo;
use cmd_common_sparse::SparseCommandFault;
use std::alloc::Global;
use std::io::IsTerminal;
use sys_host::{Reading, Telling, answer};
use sys_host_disk::Host;
use sys_refusals::{HostRefusal, Refusal};
use sys_report::{Progress, Report};
use sys_std::OsSystem;
use words_orders::{Order, Task, WordsFault, order_of};
use words_program::{print, read_word_files, refused, wrong_words};
use words_values::expanded;

// The name before the first line of an error.
const PROGRAM: &str = "abootimg";

/// Does what the words ask for, of which the first is the program's name, and returns the exit status.
///
/// What a command prints goes to standard output, and the message of a fault to standard error, after it. If data goes
/// to standard output, what is printed goes to standard error. A word `@FILE` is replaced by the lines of that file.
pub fn run(
    rt: HostRuntime,
    words: &[String],
    report: &mut Report,
    w: &mut Window,
    m: &mut Meter,
) -> u8
    ensures { result ≤ 2 }
{
    let is_terminal = rt.stderr().is_terminal();
    let mut disk = Host::new(Reading::new(OsSystem { rt }));
    do_words(rt, words, is_terminal, &mut disk, report, w, m)
}

/// Does on any disk what the words ask for, where standard error is a terminal or is not.
#[tactic(auto, using(crate::proofs::Asking::none_asked))]
fn do_words<D: Beginning>(
    rt: HostRuntime,
    words: &[String],
    is_terminal: bool,
    disk: &mut D,
    report: &mut Report,
    w: &mut Window,
    m: &mut Meter,
) -> u8
    requires ready { IsTrue D.models → IsReadyForOrder (D.held disk.old) }
    ensures status { result ≤ 2 }
    // the words of files are read, and the order that all of them ask for is carried out, if one is found; else the
    // status is 2 only if they ask for none
    ensures ends { IsTrue D.models → WordsEnd D.on_output (map string_bytes words.now) (D.world disk.old)
        (D.held disk.old) report.old (D.world disk.new) (D.held disk.new) report.new result }
    // the status is 2 only if every file is as before
    ensures wrong { IsTrue D.models → result ≡ 2 → D.world disk.new ≡ D.world disk.old }
{
    let alloc = rt.alloc();
    let how = telling(is_terminal || ask_for_more(words));
    let texts = match read_word_files(disk, words, alloc) {
        Ok(texts) => texts,
        Err(refusal) => return refused(rt, refusal, how, report),
    };
    let Ok(all) = expanded(alloc, words, texts.as_slice()) else {
        return refused(rt, HostRefusal::memory(), how, report);
    };
    let all = all.as_slice();
    do_found(
        rt,
        ordered(alloc, all),
        all,
        is_terminal,
        disk,
        report,
        w,
        m,
    )
}

// Carries out the order that was found in these words, or tells what is wrong with them.
fn do_found<D: Beginning>(
    rt: HostRuntime,
    found: Result<Order<'_>, WordsFault>,
    words: &[&str],
    is_terminal: bool,
    disk: &mut D,
    report: &mut Report,
    w: &mut Window,
    m: &mut Meter,
) -> u8
    requires ready { IsTrue D.models → IsReadyForOrder (D.held disk.old) }
    ensures status { result ≤ 2 }
    ensures ends { IsTrue D.models → FoundEnds D.on_output found.entry (D.world disk.old) (D.held disk.old) report.old
        (D.world disk.new) (D.held disk.new) report.new result }
    ensures wrong { IsTrue D.models → result ≡ 2 → D.world disk.new ≡ D.world disk.old }
{
    match found {
        Ok(order) => {
            let how = telling_for(&order, is_terminal);
            begin_progress(rt, &order, is_terminal, report);
            carry_out(rt, order, disk, how, report, w, m)
        }
        Err(fault) => wrong_words(rt, None, words, &fault, telling(is_terminal), report),
    }
}

// How the faults of an order are told: with a second line if the order says so, or on a terminal.
fn telling_for(order: &Order<'_>, is_terminal: bool) -> Telling
    ensures { result.is_verbose ≡ (order.now.is_verbose || is_terminal) }
{
    telling(order.is_verbose || is_terminal)
}

// A terminal is shown the progress of an order, unless the order says not to.
fn begin_progress(rt: HostRuntime, order: &Order<'_>, is_terminal: bool, report: &mut Report)
    ensures shown { PrintsNothing report.old report.new }
    ensures quiet { IsTrue order.now.is_quiet → report.new ≡ report.old }
{
    if is_terminal && !order.is_quiet {
        report.progress = Progress::shown(rt, order.command);
    }
}

fn telling(is_verbose: bool) -> Telling
    ensures { result.is_verbose ≡ is_verbose }
{
    Telling {
        program: PROGRAM,
        is_verbose,
    }
}

// The order that the words give. The stack for reading them is free again while it is carried out.
#[inline(never)]
fn ordered<'a>(alloc: Global, words: &'a [&str]) -> Result<Order<'a>, WordsFault>
    ensures order { IfOk result (IsOrderOf (map (λ word. word.now) words.entry.now)) }
    ensures none { IfErr result (λ fault. IsOfWords fault → AskForNone (map (λ word. word.now) words.entry.now)) }
{
    order_of(alloc, words)
}

// Whether words that are not read yet ask for the second line of an error.
fn ask_for_more(words: &[String]) -> bool {
    for word in words {
        let word = word.as_str();
        if word == "--" {
            return false;
        }
        if word == "-v" || word == "--verbose" {
            return true;
        }
    }
    false
}

/// Shows what the built-in image holds.
pub fn demonstrate(rt: HostRuntime, report: &mut Report, w: &mut Window, m: &mut Meter) -> u8
    ensures { result ≤ 2 }
{
    let outcome = match demo(&mut report.out, w, m) {
        Ok(()) => Ok(()),
        Err(fault) => Err(Refusal::of(SparseCommandFault::Sparse(fault))),
    };
    answer(outcome, telling(false), rt, report)
}

/// Carries out an order, and returns the exit status.
#[inline(never)]
#[tactic(auto, using(crate::proofs::Orders::ends_from))]
pub(crate) fn carry_out<D: Beginning>(
    rt: HostRuntime,
    order: Order<'_>,
    disk: &mut D,
    how: Telling,
    report: &mut Report,
    w: &mut Window,
    m: &mut Meter,
) -> u8
    requires ready { IsTrue D.models → IsReadyForOrder (D.held disk.old) }
    // faults are told with a second line if the order says so
    requires told { IsTrue order.is_verbose → IsTrue how.is_verbose }
    ensures status { result ≤ 2 }
    ensures ends { IsTrue D.models → OrderEnds D.on_output order.entry (D.world disk.old) (D.held disk.old) report.old
        (D.world disk.new) (D.held disk.new) report.new result }
{
    begin(disk, order.is_synced, order.is_mounted_allowed);
    do_task(rt, order, disk, how, report, w, m)
}

// Does the task of an order, on a disk that has its settings.
#[tactic(auto, using(crate::proofs::Orders::lacks_arguments))]
fn do_task<D: Beginning>(
    rt: HostRuntime,
    order: Order<'_>,
    disk: &mut D,
    how: Telling,
    report: &mut Report,
    w: &mut Window,
    m: &mut Meter,
) -> u8
    requires ready { IsTrue D.models → IsReadyForOrder (D.held disk.old) }
    // block devices that are in use may be written exactly if the order says so
    requires mounted { IsTrue D.models → (D.held disk.old).allows_mounted ≡ order.is_mounted_allowed }
    ensures status { result ≤ 2 }
    ensures ends { IsTrue D.models → TaskEnds D.on_output order.entry.task (D.world disk.old) (D.held disk.old)
        report.old (D.world disk.new) (D.held disk.new) report.new result }
{
    match order.task {
        Task::Sparse(task) => do_sparse(disk, task, how, rt, report, w, m),
        Task::Boot(task) => match BootCommand::new(rt.alloc(), task) {
            Ok(command) => do_boot(disk, &command, how, rt, report, w, m),
            Err(lack) => {
                disk.no_memory(lack);
                refused(rt, HostRefusal::memory(), how, report)
            }
        },
        Task::Completions(shell) => print(rt, shell.completions(), how, report),
    }
}
