//! Writes the bytes of a part of an image to their place on a partition.

ghost use Rattle.std.specs.Prelude.{◌≡◌, ◌<◌, ◌≤◌, ◌+◌, ◌*◌, ◌^◌, IsTrue, OnOk, OnErr, false, is_ok, replicate};
ghost use Rattle.std.specs.List.{concat};
ghost use Rattle.abt_io.specs.Moment.{EachSince, Keeps, KeepsUnsynced, in_range, moment_of, put_at};
ghost use Rattle.abt_sparse.specs.Block.{over};
ghost use Rattle.abt_chunks.specs.Ahead.{fills, somes};
ghost use Rattle.abt_chunks.specs.Expanding.{IsWritable};
ghost use Rattle.abt_chunks.specs.Parts.{is_fault};
ghost use Rattle.abt_flash_faults.specs.Fault.{OnUnsynced, PutCause, UnlessUnwritten, refused_syncs};
ghost use Rattle.abt_flash.specs.Laying.{CanDo, IsIdle, IsStill, Settles, SettlesIn, UnlessUndone};
ghost use Rattle.abt_flash.specs.Laying.{answered, bytes_by, put_by, put_in, refused_in};
ghost use Rattle.abt_flash.specs.Laying.{syncs_by};
ghost use Rattle.abt_flash.specs.Laying.{syncs_in, task_of};
ghost use Rattle.abt_flash.specs.Devices.{LeavesUnread};
ghost use Rattle.abt_flash.specs.Laying.{IsFrontLaid, LaysCells, Touches, PutCosts, PutFails};
ghost use Rattle.abt_chunks.specs.Expanding.{cells_by};
ghost use Rattle.abt_chunks.specs.Places.{from_place};

use abt_chunks::Part;
use abt_flash_faults::FlashFault;
use abt_io::{DeviceFault, Meter, Partition, WORDS, Window, lay_word, write_all_at};

/// What a part asks of the partition.
#[derive(Clone, Copy, Debug, PartialEq, Eq, Drop)]
pub enum PartTask {
    /// So many bytes from the beginning of the window are written.
    Bytes(usize),
    /// A word is written so many times.
    Words([u8; 4], u64),
    /// All is synced.
    Sync,
    /// Nothing.
    Nothing,
}

/// What is done for a part. A gap is left as it is, and so is what follows a fault.
#[inline(always)]
fn task_for(part: Part) -> PartTask
    ensures { result ≡ task_of part }
{
    match part {
        Part::Raw(n) => PartTask::Bytes(n),
        Part::Words(word, n) => PartTask::Words(word, n),
        Part::Skip(_) => PartTask::Nothing,
        Part::Nothing => PartTask::Nothing,
        Part::End => PartTask::Sync,
        Part::Fault(_) => PartTask::Nothing,
    }
}

/// What is returned once the partition has.
#[inline(always)]
fn answer_to(task: PartTask, done: Result<(), DeviceFault>) -> Result<(), FlashFault>
    ensures { result ≡ answered task done }
{
    match done {
        Ok(()) => Ok(()),
        Err(fault) => match task {
            PartTask::Sync => Err(FlashFault::Sync(fault)),
            PartTask::Bytes(_) => Err(FlashFault::Write(fault)),
            PartTask::Words(_, _) => Err(FlashFault::Write(fault)),
            PartTask::Nothing => Err(FlashFault::Write(fault)),
        },
    }
}

/// Where the words are that follow so many.
fn place_behind(at: u64, done: u64) -> u64
    requires below { at + 4 * done < 2 ^ 64 }
    ensures { result ≡ at + 4 * done }
{
    at + 4 * done
}

/// How many words have been written after so many, and then some.
fn count_behind(done: u64, some: usize) -> u64
    requires below { done + some < 2 ^ 64 }
    ensures { result ≡ done + some }
{
    done + some as u64
}

/// Writes a word so many times from a place on. The window is filled with the word once, and written as often as it
/// takes.
fn lay_words<P: Partition>(
    word: [u8; 4],
    n: u64,
    at: u64,
    partition: &mut P,
    w: &mut Window,
    m: &mut Meter,
) -> Result<(), DeviceFault>
    requires some { 0 < n }
    requires fits { at + 4 * n ≤ P.size partition.old }
    requires below { at + 4 * n < 2 ^ 64 }
    ensures unread { LeavesUnread P.Source partition.old partition.new }
    ensures written { IsTrue P.models →
        OnOk result (P.content partition.new ≡ put_at (P.content partition.old) at (concat (replicate n word))) }
    // Where a write fails, a front of the words is there.
    ensures broken { IsTrue P.models →
        OnErr result (IsFrontLaid 65536 at (fills n word) (P.content partition.old) (P.content partition.new)) }
    ensures kept { IsTrue P.models →
        Keeps (in_range at (4 * n)) (moment_of (P.past partition.old) (P.content partition.old))
        (moment_of (P.past partition.new) (P.content partition.new)) }
    ensures moments { IsTrue P.models → EachSince (P.past partition.old).moments (P.past partition.new).moments
        (KeepsUnsynced (in_range at (4 * n)) (moment_of (P.past partition.old) (P.content partition.old))) }
    ensures synced { (P.past partition.new).synced ≡ (P.past partition.old).synced }
    ensures syncs { P.syncs partition.new ≡ P.syncs partition.old }
    ensures all { OnOk result (P.taken partition.new ≡ P.taken partition.old + 4 * n) }
    ensures costs { PutCosts result 0 P.Partition.own partition.old partition.new m.old m.new }
    ensures fails { PutFails result (P.put_faults partition.old) (P.put_faults partition.new) }
{
    let most = n.min(WORDS as u64) as usize;
    lay_word(w, word, most, m);
    w.is_whole();
    let mut done = 0;
    'writes: while done < n {
        m.tick();
        let some = (n - done).min(most as u64) as usize;
        match write_all_at(partition, place_behind(at, done), w.part(0, 4 * some), m) {
            Ok(()) => {}
            Err(fault) => return Err(fault),
        }
        done = count_behind(done, some);
    }
    Ok(())
}

/// Does a task, which writes from a place on.
#[inline(always)]
fn carry_out<P: Partition>(
    task: PartTask,
    at: u64,
    partition: &mut P,
    w: &mut Window,
    m: &mut Meter,
) -> Result<(), DeviceFault>
    requires can { CanDo task }
    requires fits { at + put_in task ≤ P.size partition.old }
    requires below { at + put_in task < 2 ^ 64 }
    ensures unread { LeavesUnread P.Source partition.old partition.new }
    ensures laid { IsTrue P.models → UnlessUndone task result
        (P.content partition.new ≡ over (P.content partition.old) (from_place at (somes (bytes_by task w.old.bytes)))) }
    // Where a write fails, a front of them is there.
    ensures broken { IsTrue P.models → OnErr result (IsFrontLaid 65536 at (somes (bytes_by task w.old.bytes))
        (P.content partition.old) (P.content partition.new)) }
    // No byte outside the range that is written is touched in any intermediate state.
    ensures touches { IsTrue P.models → Touches (in_range at (put_in task)) (P.past partition.old)
        (P.past partition.new) (P.content partition.old) (P.content partition.new) }
    ensures settled { IsTrue P.models → OnOk result (SettlesIn task (P.past partition.new).pending) }
    ensures synced { (P.past partition.new).synced ≡ (P.past partition.old).synced + syncs_in task result }
    ensures refused_syncs { P.syncs partition.new + (P.past partition.old).synced
        ≡ P.syncs partition.old + (P.past partition.new).synced + refused_in task result }
    ensures all { UnlessUndone task result (P.taken partition.new ≡ P.taken partition.old + put_in task) }
    ensures costs { PutCosts result 1 P.Partition.own partition.old partition.new m.old m.new }
    // Where nothing is to be done it isn't called.
    ensures still { IsIdle task → partition.new ≡ partition.old }
    ensures sound { IsIdle task → IsTrue (is_ok result) }
    ensures fails { PutFails result (P.put_faults partition.old) (P.put_faults partition.new) }
{
    match task {
        PartTask::Bytes(n) => write_all_at(partition, at, w.part(0, n), m),
        PartTask::Words(word, n) => lay_words(word, n, at, partition, w, m),
        PartTask::Sync => partition.sync(),
        PartTask::Nothing => Ok(()),
    }
}

/// Writes what a part gives from a place on; of a gap nothing, which leaves the bytes as they are. At the end of the
/// image the partition is synced.
#[inline(always)]
pub(crate) fn lay_part<P: Partition>(
    part: Part,
    at: u64,
    partition: &mut P,
    w: &mut Window,
    m: &mut Meter,
) -> Result<(), FlashFault>
    requires writable { IsWritable part }
    requires fits { at + put_by part ≤ P.size partition.old }
    requires below { at + put_by part < 2 ^ 64 }
    ensures unread { LeavesUnread P.Source partition.old partition.new }
    // All is written, and where a write fails, a front of it.
    ensures laid { IsTrue P.models → LaysCells result at (cells_by part w.old.bytes) (P.content partition.old)
        (P.content partition.new) }
    // No byte outside the range that is written is touched in any intermediate state.
    ensures touches { IsTrue P.models → Touches (in_range at (put_by part)) (P.past partition.old)
        (P.past partition.new) (P.content partition.old) (P.content partition.new) }
    ensures settled { IsTrue P.models → OnOk result (Settles part (P.past partition.new).pending) }
    ensures synced { (P.past partition.new).synced ≡ (P.past partition.old).synced + syncs_by part result }
    ensures sound { OnErr result (is_fault part ≡ false) }
    // A sync is refused after the end of the image, and leaves what is written.
    ensures ends { OnUnsynced result (part ≡ Part.End) }
    ensures refused_syncs { P.syncs partition.new + (P.past partition.old).synced
        ≡ P.syncs partition.old + (P.past partition.new).synced + refused_syncs result }
    ensures all { UnlessUnwritten result (P.taken partition.new ≡ P.taken partition.old + put_by part) }
    ensures costs { PutCosts result 1 P.Partition.own partition.old partition.new m.old m.new }
    ensures still { IsStill part → partition.new ≡ partition.old }
    ensures cause { PutCause result (P.put_faults partition.old) (P.put_faults partition.new) }
{
    let task = task_for(part);
    let done = carry_out(task, at, partition, w, m);
    answer_to(task, done)
}
