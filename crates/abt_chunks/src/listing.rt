//! Lists the chunks of a sparse image, one after the other.

ghost use Rattle.std.specs.Prelude.{◌≡◌, ◌<◌, ◌≤◌, ◌+◌, ◌-◌, ◌*◌, ℕ, IsTrue, IfErr, IfOk, MatchResult, OnOk};
ghost use Rattle.std.specs.Prelude.{true, false};
ghost use Rattle.abt_io.specs.Lent.{OneStep};
ghost use Rattle.abt_chunks.specs.Cause.{InputBlamed, UnlessCut};
ghost use Rattle.abt_chunks.specs.Expanding.{IsGoing, OnDone, OnMoreExpanding, ExpandingLeaves, UnlessExpandingDevice};
ghost use Rattle.abt_chunks.specs.Listing.{headless, listing_of};
ghost use Rattle.abt_chunks.specs.ListingAhead.{MayEnd, Numbers, at_end, info_at, is_between};
ghost use Rattle.abt_chunks.specs.Showing.{IsFew, ListsTo, Lists_next, Opens, Passes, SettlesWalk, Stands_next};
ghost use Rattle.abt_chunks.specs.Stepping.{ListReads, ListTaken, WalksOn};
ghost use Rattle.abt_chunks.specs.Taking.{ReadStep, WithinWords, input_state};
ghost use Rattle.abt_chunks.specs.Turns.{AtTurn, IsWalkOver, todo};

use crate::expander::answer;
use crate::kinds::has_word;
use crate::progress::{ChunkInfo, MachineProgress};
use crate::walk::{Phase, Turn, Walk, WalkStep};
use abt_io::{Input, Meter, Window, pass_full};
use abt_sparse::{SparseFault, SparseHeader};

/// Reads a sparse image chunk by chunk, and writes nothing. Between two calls it is after the image's header or after
/// a whole chunk.
#[derive(Drop)]
pub struct Chunks {
    pub walk: Walk,
    pub ghost between: { is_between walk.phase walk ≡ true },
}

/// Raw bytes, of which a listing shows none: they are passed over, at most a window of them.
#[inline(always)]
fn pass_raw<I: Input>(walk: &mut Walk, input: &mut I, w: &mut Window, m: &mut Meter) -> WalkStep
    requires { AtTurn Turn.Raw walk.old }
    ensures taken { ListTaken I.Input result walk.old walk.new input.old input.new m.old m.new }
    ensures words { (n : ℕ) → WithinWords result.part walk.old walk.new n n }
{
    let ask = walk.ask(Turn::Raw);
    w.is_whole();
    let got = pass_full(input, w.part_mut(0, ask), m);
    let part = match got.fault {
        Some(fault) => walk.fail(SparseFault::Read(fault)),
        None => walk.take_raw(got.count),
    };
    WalkStep {
        part,
        received: got.count as u32,
    }
}

/// What comes next of an image. Raw bytes are passed over, and all else is read; of a fill and of a gap it gives at
/// most so many words.
#[inline(always)]
fn next_part<I: Input>(
    walk: &mut Walk,
    most: u64,
    input: &mut I,
    w: &mut Window,
    m: &mut Meter,
) -> WalkStep
    requires { 0 < most }
    ensures taken { ListTaken I.Input result walk.old walk.new input.old input.new m.old m.new }
    ensures words { WithinWords result.part walk.old walk.new most most }
{
    match walk.turn() {
        Turn::Raw => pass_raw(walk, input, w, m),
        _ => walk.part(most, most, input, w, m),
    }
}

/// One step of the reading machine, whose blocks go nowhere: the words of a fill or of a gap are passed at once.
#[inline(always)]
fn step<I: Input>(
    walk: &mut Walk,
    input: &mut I,
    w: &mut Window,
    m: &mut Meter,
) -> Result<MachineProgress, SparseFault>
    ensures input { ReadStep (I.given input.new - I.given input.old) 65536 walk.old I.models
        (input_state I.Input input.old) (input_state I.Input input.new) }
    ensures lists { IsTrue I.models → ListsTo result walk.old walk.new (I.remaining input.old) (I.remaining input.new) }
    ensures numbers { OnMoreExpanding result
        (Numbers walk.old.phase walk.old walk.new (I.given input.new - I.given input.old)) }
    ensures closes { OnDone result (MayEnd walk.old.phase walk.old) }
    ensures refuses { IfErr result (λ f. walk.old.phase ≡ Phase.Body → UnlessCut f (at_end walk.old ≡ true)) }
    ensures stands { ExpandingLeaves result walk.new.phase }
    ensures header { walk.old.phase ≡ Phase.Body → walk.new.header ≡ walk.old.header }
    ensures blame { IsGoing walk.old.phase → InputBlamed result (I.read_faults input.old) (I.read_faults input.new) }
    ensures again { IsWalkOver walk.old.phase → (walk.new ≡ walk.old) × (input.new ≡ input.old) }
    ensures fewer { OnMoreExpanding result (todo walk.new < todo walk.old) }
    ensures moves { OnMoreExpanding result (at_end walk.new ≡ false → 0 < I.given input.new - I.given input.old) }
    ensures turns { m.new.turns.number ≤ m.old.turns.number + (I.given input.new - I.given input.old) + 1 }
    ensures one_step { OneStep (I.given input.new - I.given input.old) m.old m.new }
{
    let all = walk.words.max(1);
    let taken = next_part(walk, all, input, w, m);
    m.close_step(taken.received);
    answer(taken.part)
}

/// Reads on to the end of the header or of the chunk that was begun.
#[inline(always)]
fn pass<I: Input>(
    walk: &mut Walk,
    input: &mut I,
    w: &mut Window,
    m: &mut Meter,
) -> Result<(), SparseFault>
    requires { walk.old.phase ≡ Phase.Body }
    ensures walks { WalksOn I.Input 65536 input.old input.new m.old m.new }
    ensures passes { IsTrue I.models → Passes result walk.old walk.new (I.remaining input.old) (I.remaining input.new) }
    ensures settles { SettlesWalk result walk.new }
    ensures index { OnOk result (walk.new.index ≡ walk.old.index) }
    ensures header { walk.new.header ≡ walk.old.header }
    ensures cut { IfErr result (λ f. UnlessCut f ⊥) }
    ensures blame { InputBlamed result (I.read_faults input.old) (I.read_faults input.new) }
    ensures reads { I.reads input.new ≤ I.reads input.old + 2 * (I.given input.new - I.given input.old) + 1 }
    ensures turns { m.new.turns.number ≤ m.old.turns.number + 3 * (I.given input.new - I.given input.old) + 2 }
{
    'steps: while !walk.is_at_end() {
        m.tick();
        match step(walk, input, w, m) {
            Ok(MachineProgress::More) => {}
            Ok(MachineProgress::Done) => return Ok(()),
            Err(fault) => return Err(fault),
        }
    }
    Ok(())
}

/// What is shown of the chunk that has ended.
#[inline(always)]
fn info(walk: &Walk) -> ChunkInfo
    ensures { result ≡ info_at walk.now }
{
    ChunkInfo {
        index: walk.index.saturating_sub(1),
        kind: walk.kind,
        blocks: walk.blocks,
        word: if has_word(walk.kind) {
            walk.word
        } else {
            [0; 4]
        },
    }
}

impl Chunks {
    /// Reads the header of the image, with its extra bytes. A refusal is the header's own (1 to 5), an input that
    /// ends before it (10) or a failed read (11).
    pub fn open<I: Input>(
        input: &mut I,
        w: &mut Window,
        m: &mut Meter,
    ) -> Result<Chunks, SparseFault>
        ensures reads { ListReads I.Input input.old input.new m.old m.new }
        ensures opens { IsTrue I.models → MatchResult result (λ chunks. Opens chunks.walk (I.remaining input.old)
            (I.remaining input.new)) (λ fault. UnlessExpandingDevice fault
            (listing_of (I.remaining input.old) ≡ headless fault)) }
        ensures going { IfOk result (λ chunks. IsGoing chunks.walk.phase) }
        // A header that is refused for what it says is known once its 28 bytes have been read, and no more are.
        ensures bounded { IfErr result (λ f. UnlessCut f (I.given input.new ≤ I.given input.old + 28)) }
        ensures blame { InputBlamed result (I.read_faults input.old) (I.read_faults input.new) }
    {
        let mut walk = Walk::new();
        m.tick();
        match step(&mut walk, input, w, m) {
            Ok(MachineProgress::More) => {}
            Ok(MachineProgress::Done) => return Ok(Chunks { walk }),
            Err(fault) => return Err(fault),
        }
        match pass(&mut walk, input, w, m) {
            Ok(()) => Ok(Chunks { walk }),
            Err(fault) => Err(fault),
        }
    }

    /// The header of the image.
    pub fn header(&self) -> SparseHeader
        ensures { result ≡ self.now.walk.header }
    {
        self.walk.header
    }

    /// The next chunk, once its data has been read or passed over. After the last chunk it returns none, where the
    /// blocks of the chunks are as many as the header says. After a fault and after none it returns that again, and
    /// reads nothing.
    #[inline(always)]
    pub fn next<I: Input>(
        &mut self,
        input: &mut I,
        w: &mut Window,
        m: &mut Meter,
    ) -> Result<Option<ChunkInfo>, SparseFault>
        ensures reads { ListReads I.Input input.old input.new m.old m.new }
        ensures lists { IsTrue I.models → Lists_next result self.old.walk self.new.walk (I.remaining input.old)
            (I.remaining input.new) }
        ensures stands { Stands_next result self.new.walk.phase }
        ensures header { self.new.walk.header ≡ self.old.walk.header }
        // A chunk that is refused for what it says is known once its first 12 bytes have been read, and no more are.
        ensures bounded { IfErr result (λ f. UnlessCut f (I.given input.new ≤ I.given input.old + 12)) }
        ensures blame { IsGoing self.old.walk.phase → InputBlamed result (I.read_faults input.old)
            (I.read_faults input.new) }
        ensures again { IsWalkOver self.old.walk.phase → (self.new.walk ≡ self.old.walk) × (input.new ≡ input.old) }
        ensures few { IsFew result (I.given input.new - I.given input.old) (I.reads input.new - I.reads input.old)
            (m.new.turns.number - m.old.turns.number) }
    {
        m.tick();
        match step(&mut self.walk, input, w, m) {
            Ok(MachineProgress::More) => {}
            Ok(MachineProgress::Done) => return Ok(None),
            Err(fault) => return Err(fault),
        }
        match pass(&mut self.walk, input, w, m) {
            Ok(()) => Ok(Some(info(&self.walk))),
            Err(fault) => Err(fault),
        }
    }
}
