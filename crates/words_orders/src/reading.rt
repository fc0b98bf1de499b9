//! Reading the words: the order that the answers to a command's rows ask for.

ghost use Rattle.std.specs.Prelude.{◌≡◌, ◌≢◌, ◌||◌, ◌<◌, ℕ, List, None, Some, IfErr, IfOk, IfSome};
ghost use Rattle.std.specs.Prelude.{length, map, option_map, slice_get};
ghost use Rattle.std.specs.List.{AllZip, find, position_or_len};
ghost use Rattle.words_orders.specs.Asked.{AreAnswers, Asks, AsksBoot, AsksPack, AsksPieces, AsksSparse, IsGiven};
ghost use Rattle.words_sayings.specs.Rows.{shape_of};
ghost use Rattle.words_sayings.specs.Steps.{table_of};
ghost use Rattle.words_sayings.specs.Words.{says_name, saying_of, words_say};
ghost use Rattle.words_orders.specs.Asked.{AreAnswersOf, AskForNone, IsOrderOf, IsSplit, command_in, is_command_word};
ghost use Rattle.words_orders.specs.Refused.{FindsNone, IsOfWords};
ghost use Rattle.words_orders.specs.Table.{name_of, option_rows, telling_rows, work_named, work_of};
ghost use Rattle.words_orders.specs.Table.{work_of_boot, work_of_sparse};
ghost use Rattle.words_orders.specs.declared.answers.Answer.{Answer};
ghost use Rattle.words_orders.specs.declared.rows.Work.{Work};
ghost use Rattle.words_orders.specs.declared.rows.Work.TheVariants as works;

use crate::answers::Answers;
use crate::completions::Shell;
use crate::fault::WordsFault;
use crate::order::{BootTask, Given, Order, PackOrder, Pieces, SparseTask, Task};
use crate::parser::program;
use crate::rows::{CommandRow, Work};
use crate::table::{commands, front_rows, listed, options};
use clap::Error;
use clap::error::ErrorKind;
use std::alloc::{AllocError, Global};
use std::convert::AsStr;
use words_sayings::{Said, is_option_word, is_said, placed_words, read, said_by};
use words_values::Row;

/// Reads the words, of which the first is the program's name. Clap reports what is wrong with them. The order is read
/// here, and no contract depends on how clap read them.
pub fn order_of<'a, S: AsStr>(alloc: Global, words: &'a [S]) -> Result<Order<'a>, WordsFault>
    ensures order { IfOk result (IsOrderOf (map S.text words.entry.now)) }
    // they are rejected only if they ask for none, or for want of memory, or if clap read them in another way
    ensures none { IfErr result (λ fault. IsOfWords fault → AskForNone (map S.text words.entry.now)) }
{
    match program(alloc)?.try_get_matches_from(words) {
        Ok(_found) => accepted_order(alloc, words),
        Err(error) => Err(fault_for(alloc, words, error)),
    }
}

// The order of words that clap accepts.
fn accepted_order<'a, S: AsStr>(alloc: Global, words: &'a [S]) -> Result<Order<'a>, WordsFault>
    ensures order { IfOk result (IsOrderOf (map S.text words.entry.now)) }
    ensures none { IfErr result (λ fault. IsOfWords fault → AskForNone (map S.text words.entry.now)) }
{
    match order_in(alloc, words) {
        Ok(Some(order)) => Ok(order),
        Ok(None) => Err(WordsFault::Usage(misread(alloc)?)),
        Err(fault) => Err(fault),
    }
}

// What is wrong with words that clap refuses: what clap says, unless an order is found in them.
#[inline(never)]
fn fault_for<S: AsStr>(alloc: Global, words: &[S], error: Error) -> WordsFault
    ensures { IsOfWords result → AskForNone (map S.text words.now) }
{
    match order_in(alloc, words) {
        Ok(None) => WordsFault::from(error),
        Ok(Some(_order)) => misread_fault(alloc),
        Err(fault) => told_by(fault, error),
    }
}

/// The fault that clap tells of, in the place of one of the words themselves.
pub fn told_by(fault: WordsFault, told: Error) -> WordsFault
    ensures { IsOfWords result → IsOfWords fault }
{
    match fault {
        WordsFault::Usage(_error) => WordsFault::from(told),
        WordsFault::Misread(error) => WordsFault::Misread(error),
        WordsFault::BadNumber {
            word: _word,
            is_number: _is_number,
            is_verbose: _is_verbose,
        } => WordsFault::from(told),
        WordsFault::NotTaken(_instead) => WordsFault::from(told),
        WordsFault::Memory => WordsFault::Memory,
    }
}

// The order that the words ask for; none if they ask for none.
fn order_in<'a, S: AsStr>(alloc: Global, words: &'a [S]) -> Result<Option<Order<'a>>, WordsFault>
    ensures order { IfOk result (λ found. IfSome found (IsOrderOf (map S.text words.entry.now))) }
    ensures none { FindsNone result → AskForNone (map S.text words.entry.now) }
{
    match split(words) {
        Some(parts) => read_parts(alloc, parts),
        None => Ok(None),
    }
}

/// The options before a command, the command, and the words after it.
#[derive(Clone, Copy)]
pub(crate) struct Parts<'a, S> {
    front: &'a [S],
    command: &'static CommandRow,
    behind: &'a [S],
}

// The words, split at the name of a command.
fn split<'a, S: AsStr>(words: &'a [S]) -> Option<Parts<'a, S>>
    ensures some { IfSome result (λ parts. IsSplit (map S.text words.entry.now) parts.command.now.name.now
        parts.command.now.work (map S.text parts.front.now) (map S.text parts.behind.now)) }
    ensures none { result ≡ None → (work : Work) → command_in (map S.text words.entry.now) ≢ Some (name_of work) }
{
    let (_program, own) = words.split_first()?;
    let at = command_place(own);
    let word = word_at(own, at)?;
    let Some(command) = command_named(word) else {
        return None;
    };
    Some(Parts {
        front: &own[..at],
        command,
        behind: &own[at + 1..],
    })
}

fn word_at<'a, S: AsStr>(words: &'a [S], at: usize) -> Option<&'a str>
    ensures word { option_map (λ s. s.now) result ≡ slice_get (map S.text words.entry.now) at }
    ensures within { IfSome result (λ word. at < length words.entry.now) }
{
    match words.get(at) {
        Some(word) => Some(word.as_str()),
        None => None,
    }
}

// Where the first word is that is no option; after all, if there is none.
fn command_place<S: AsStr>(words: &[S]) -> usize
    ensures { result ≡ position_or_len is_command_word (map S.text words.now) }
{
    for i in 0..words.len() {
        if !is_option_word(words[i].as_str()) {
            return i;
        }
    }
    words.len()
}

// The order that these ask for; none if a word says nothing, or is left over.
fn read_parts<'a, S: AsStr>(
    alloc: Global,
    parts: Parts<'a, S>,
) -> Result<Option<Order<'a>>, WordsFault>
    ensures order { IfOk result (λ found. IfSome found (λ order. (words : List (List ℕ)) →
        IsSplit words parts.entry.command.now.name.now parts.entry.command.now.work
        (map S.text parts.entry.front.now) (map S.text parts.entry.behind.now) → IsOrderOf words order)) }
    ensures none { FindsNone result → (words : List (List ℕ)) →
        IsSplit words parts.entry.command.now.name.now parts.entry.command.now.work
        (map S.text parts.entry.front.now) (map S.text parts.entry.behind.now) → AskForNone words }
{
    let Some(before) = read_front(alloc, parts.front)? else {
        return Ok(None);
    };
    let rows = parts.command.rows(alloc)?;
    let said = match read(alloc, rows.as_slice(), parts.behind) {
        Ok(Some(said)) => said,
        Ok(None) => return Ok(None),
        Err(AllocError) => return Err(WordsFault::Memory),
    };
    let is_verbose = is_said_in("verbose", before.as_slice(), said.as_slice());
    let answers = match answers_to(alloc, rows.as_slice(), said.as_slice(), is_verbose) {
        Ok(Some(answers)) => answers,
        Ok(None) => return Ok(None),
        Err(fault) => return Err(fault),
    };
    Ok(Some(Order {
        command: parts.command.name,
        task: task_for(alloc, parts.command.work, &answers)?,
        is_verbose,
        is_quiet: is_said_in("quiet", before.as_slice(), said.as_slice()),
        is_synced: is_said("sync", said.as_slice()),
        is_mounted_allowed: is_said("mounted", said.as_slice()),
    }))
}

// Whether a flag is said before a command or after it.
fn is_said_in(name: &str, before: &[Said<'_>], said: &[Said<'_>]) -> bool
    ensures { result ≡ (says_name name.now (map saying_of before.now) || says_name name.now (map saying_of said.now)) }
{
    is_said(name, before) || is_said(name, said)
}

// What is said before a command.
fn read_front<'a, S: AsStr>(
    alloc: Global,
    front: &'a [S],
) -> Result<Option<Vec<Said<'a>>>, AllocError>
    ensures { IfOk result (λ found. option_map (λ said. map saying_of said.items) found
        ≡ words_say telling_rows (map S.text front.entry.now)) }
{
    let rows = front_rows(alloc)?;
    read(alloc, rows.as_slice(), front)
}

// The answers of what is said; none where a word is left over, or one is missing.
fn answers_to<'a>(
    alloc: Global,
    rows: &[&'static Row],
    said: &[Said<'a>],
    is_verbose: bool,
) -> Result<Option<Answers<'a>>, WordsFault>
    ensures answers { IfOk result (λ found. IfSome found (λ answers. AreAnswers (table_of rows.now)
        (map saying_of said.now) answers.all.items)) }
    ensures none { FindsNone result → (all : List Answer) →
        AreAnswers (table_of rows.now) (map saying_of said.now) all → ⊥ }
{
    let placed = placed_words(alloc, said)?;
    let mut answers = Answers::new(alloc, is_verbose);
    match answers.read_rows(alloc, rows, said, placed.as_slice()) {
        Ok(true) => {}
        Ok(false) => return Ok(None),
        Err(fault) => return Err(fault),
    }
    if !answers.are_enough(rows) {
        return Ok(None);
    }
    Ok(Some(answers))
}

/// The answers of these words to the rows of a tool, where a name may be abbreviated; none if a word says nothing, or
/// is left over.
pub fn answers_of<'a, S: AsStr>(
    alloc: Global,
    rows: &'static [Row],
    words: &'a [S],
) -> Result<Option<Answers<'a>>, WordsFault>
    ensures answers { IfOk result (λ found. IfSome found (λ answers. AreAnswersOf (map shape_of rows.entry.now)
        (map S.text words.entry.now) answers.all.items)) }
    // none are found only if these words have none
    ensures none { FindsNone result → (all : List Answer) →
        AreAnswersOf (map shape_of rows.entry.now) (map S.text words.entry.now) all → ⊥ }
{
    let rows = listed(alloc, rows)?;
    match said_by(alloc, rows.as_slice(), true, words)? {
        Some(said) => answers_to(alloc, rows.as_slice(), said.as_slice(), false),
        None => Ok(None),
    }
}

// The words were read in two ways.
#[inline(never)]
fn misread_fault(alloc: Global) -> WordsFault
    ensures { IsOfWords result → ⊥ }
{
    match misread(alloc) {
        Ok(error) => WordsFault::Misread(error),
        Err(_) => WordsFault::Memory,
    }
}

fn misread(alloc: Global) -> Result<Error, AllocError> {
    program(alloc)?.error(ErrorKind::InvalidValue, "the words were read as others")
}

fn command_named(name: &str) -> Option<&'static CommandRow>
    ensures work { option_map (λ command. command.now.work) result ≡ work_named name.now }
    ensures name { IfSome result (λ command. command.now.name.now ≡ name.now) }
{
    for command in commands() {
        if command.name == name {
            return Some(command);
        }
    }
    None
}

fn task_for<'a>(alloc: Global, work: Work, answers: &Answers<'a>) -> Result<Task<'a>, AllocError>
    ensures work { IfOk result (λ task. work_of task ≡ work) }
    ensures asks { IfOk result (Asks answers.now.all.items) }
{
    match work {
        Work::Expand => expand(alloc, answers),
        Work::Pack => pack(alloc, answers),
        Work::Repack => repack(alloc, answers),
        Work::Unpack => Ok(Task::Boot(unpack(answers))),
        Work::Info => Ok(Task::Boot(info(answers))),
        Work::List => Ok(Task::Sparse(list(answers))),
        Work::Sparse => Ok(Task::Sparse(make_sparse(answers))),
        Work::Cut => Ok(Task::Sparse(cut(answers))),
        Work::Flash => Ok(Task::Sparse(flash(answers))),
        Work::Verify => Ok(Task::Sparse(verify(answers))),
        Work::Completions => Ok(Task::Completions(Shell::new(answers.given_word("SHELL")))),
    }
}

// ---- sparse images

/// The task of `expand`.
pub fn expand<'a>(alloc: Global, answers: &Answers<'a>) -> Result<Task<'a>, AllocError>
    ensures work { IfOk result (λ task. work_of task ≡ works.Expand) }
    ensures asks { IfOk result (Asks answers.now.all.items) }
{
    let mut inputs = Vec::new(alloc);
    answers.push_words("IN", &mut inputs)?;
    let output = answers.given_word("OUT");
    Ok(Task::Sparse(SparseTask::Expand { inputs, output }))
}

fn list<'a>(answers: &Answers<'a>) -> SparseTask<'a>
    ensures work { work_of_sparse result ≡ works.List }
    ensures asks { AsksSparse answers.now.all.items result }
{
    SparseTask::List {
        input: answers.given_word("IN"),
    }
}

fn make_sparse<'a>(answers: &Answers<'a>) -> SparseTask<'a>
    ensures work { work_of_sparse result ≡ works.Sparse }
    ensures asks { AsksSparse answers.now.all.items result }
{
    SparseTask::Sparse {
        input: answers.given_word("IN"),
        output: answers.given_word("OUT"),
        block: answers.given_number("block"),
        as_img2simg: false,
    }
}

fn cut<'a>(answers: &Answers<'a>) -> SparseTask<'a>
    ensures work { work_of_sparse result ≡ works.Cut }
    ensures asks { AsksSparse answers.now.all.items result }
{
    SparseTask::Cut {
        input: answers.given_word("IN"),
        limit: answers.given_number("LIMIT"),
        prefix: answers.given_word("PREFIX"),
        is_from_zero: false,
        raw: answers.number("raw"),
    }
}

fn flash<'a>(answers: &Answers<'a>) -> SparseTask<'a>
    ensures work { work_of_sparse result ≡ works.Flash }
    ensures asks { AsksSparse answers.now.all.items result }
{
    SparseTask::Flash {
        input: answers.given_word("IN"),
        partition: answers.given_word("PARTITION"),
        raw: answers.number("raw"),
        pieces: pieces_for(answers),
    }
}

fn pieces_for<'a>(answers: &Answers<'a>) -> Option<Pieces<'a>>
    ensures { AsksPieces answers.now.all.items result }
{
    let spool = answers.word("SPOOL")?;
    Some(Pieces {
        limit: answers.given_number("LIMIT"),
        spool,
        from: answers.number("from").unwrap_or(1),
    })
}

fn verify<'a>(answers: &Answers<'a>) -> SparseTask<'a>
    ensures work { work_of_sparse result ≡ works.Verify }
    ensures asks { AsksSparse answers.now.all.items result }
{
    SparseTask::Verify {
        input: answers.given_word("IN"),
        partition: answers.given_word("PARTITION"),
        raw: answers.number("raw"),
    }
}

// ---- boot images

fn pack<'a>(alloc: Global, answers: &Answers<'a>) -> Result<Task<'a>, AllocError>
    ensures work { IfOk result (λ task. work_of task ≡ works.Pack) }
    ensures asks { IfOk result (Asks answers.now.all.items) }
{
    let order = pack_order(alloc, answers)?;
    Ok(Task::Boot(BootTask::Pack(order)))
}

fn repack<'a>(alloc: Global, answers: &Answers<'a>) -> Result<Task<'a>, AllocError>
    ensures work { IfOk result (λ task. work_of task ≡ works.Repack) }
    ensures asks { IfOk result (Asks answers.now.all.items) }
{
    let input = answers.given_word("IN");
    let order = pack_order(alloc, answers)?;
    Ok(Task::Boot(BootTask::Repack { input, order }))
}

fn unpack<'a>(answers: &Answers<'a>) -> BootTask<'a>
    ensures work { work_of_boot result ≡ works.Unpack }
    ensures asks { AsksBoot answers.now.all.items result }
{
    BootTask::Unpack {
        input: answers.given_word("IN"),
        folder: answers.given_word("DIR"),
        with_words: answers.flag("words"),
    }
}

fn info<'a>(answers: &Answers<'a>) -> BootTask<'a>
    ensures work { work_of_boot result ≡ works.Info }
    ensures asks { AsksBoot answers.now.all.items result }
{
    BootTask::Info {
        input: answers.given_word("IN"),
        with_check: answers.flag("check"),
        with_hex: answers.flag("hex"),
    }
}

fn pack_order<'a>(alloc: Global, answers: &Answers<'a>) -> Result<PackOrder<'a>, AllocError>
    ensures { IfOk result (AsksPack answers.now.all.items) }
{
    let mut board_ids = Vec::new(alloc);
    answers.push_words("board-id", &mut board_ids)?;
    let mut fragments = Vec::new(alloc);
    answers.push_words("fragment", &mut fragments)?;
    answers.push_words("FRAGMENT", &mut fragments)?;
    Ok(PackOrder {
        output: answers.given_word("OUT"),
        is_vendor: answers.flag("vendor"),
        version: answers.given_number("version"),
        page: answers.number("page"),
        given: all_given(alloc, answers)?,
        board_ids,
        fragments,
        keeps_trailing: answers.flag("keep-trailing"),
        is_escaped: answers.flag("escaped"),
        is_front_ended: false,
    })
}

// What each option of the table was given.
fn all_given<'a>(alloc: Global, answers: &Answers<'a>) -> Result<Vec<Given<'a>>, AllocError>
    ensures { IfOk result (λ given. AllZip (IsGiven answers.now.all.items) option_rows given.items) }
{
    let mut given = Vec::new(alloc);
    for row in options() {
        given.push(answers.given(row))?;
    }
    Ok(given)
}
