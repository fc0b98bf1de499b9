//! A walk that gets its input in pieces of any length, as a caller has them. It keeps the bytes of a header or of a
//! word until all of it has come. It keeps no other bytes.

ghost use Rattle.std.specs.Prelude.{◌≡◌, ◌≤◌, ◌<◌, ◌+◌, ◌++◌, ℕ, List, [], length, take};
ghost use Rattle.abt_chunks.specs.Feeding.{TakesWhole, whole_next, whole_of};
ghost use Rattle.abt_chunks.specs.Parts.{PartLeaves, Says, given_by};
ghost use Rattle.abt_chunks.specs.Places.{place_of, upto_of};
ghost use Rattle.abt_chunks.specs.Pulling.{PullFalls, Pulls, ReadyAt, pulled_front};
ghost use Rattle.abt_chunks.specs.Turns.{AtTurn, IsWalkOver, needed_of};

use crate::feed::{Pull, Pulled, Puller};
use crate::walk::{Part, Phase, Turn, Walk};

/// The least number of bytes by which a walk goes on.
fn needed(turn: Turn) -> usize
    ensures value { result ≡ needed_of turn }
    ensures room { result ≤ 28 }
{
    match turn {
        Turn::Header => 28,
        Turn::Extra => 1,
        Turn::Raw => 1,
        Turn::Word => 4,
        Turn::Fill => 0,
        Turn::Gap => 0,
        Turn::Chunk => 12,
        Turn::End => 0,
        Turn::Over => 0,
    }
}

/// The first `n` bytes that are held.
fn front(held: &[u8; 28], n: usize) -> &[u8]
    requires { n ≤ 28 }
    ensures value { result.now ≡ take n held.now }
    ensures long { length result.now ≡ n }
{
    &held[..n]
}

/// What is held, with so many of these bytes after it.
fn joined(held: [u8; 28], count: usize, n: usize, bytes: &[u8]) -> [u8; 28]
    requires room { count + n ≤ 28 }
    requires there { n ≤ length bytes.now }
    ensures { take (count + n) result ≡ take count held ++ take n bytes.now }
{
    let mut all = held;
    all[count..count + n].copy_from_slice(&bytes[..n]);
    all
}

/// What a walk does next. Where that is to take a header or a word, it takes so many bytes whole.
#[tactic(auto, using(crate::proofs::Fed::whole_at))]
fn next(walk: &Walk) -> Turn
    ensures here { AtTurn result walk.now }
    ensures whole { whole_next walk.now ≡ whole_of result }
{
    walk.turn()
}

impl Walk {
    /// How many bytes it takes whole next: a header or a word, of which fewer may be held.
    pub fn whole(&self) -> usize
        ensures { result ≡ whole_next self.now }
    {
        match next(self) {
            Turn::Header => 28,
            Turn::Extra => 0,
            Turn::Raw => 0,
            Turn::Word => 4,
            Turn::Fill => 0,
            Turn::Gap => 0,
            Turn::Chunk => 12,
            Turn::End => 0,
            Turn::Over => 0,
        }
    }
}

impl Puller {
    /// Before the first byte.
    pub fn new() -> Puller
        ensures phase { result.walk.phase ≡ Phase.Header }
        ensures count { result.count ≡ 0 }
    {
        Puller {
            walk: Walk::new(),
            held: [0; 28],
            count: 0,
        }
    }

    /// A header or a word, which is taken once all of it is there.
    fn pull_whole(&mut self, turn: Turn, bytes: &[u8]) -> Pulled
        requires here { AtTurn turn self.old.walk }
        requires whole { TakesWhole turn }
        requires all { whole_next self.old.walk ≡ needed_of turn }
        requires few { self.old.count < needed_of turn }
        ensures pulls { Pulls result self.old self.new bytes.now }
    {
        let whole = needed(turn);
        let used = bytes.len().min(whole - self.count);
        let held = joined(self.held, self.count, used, bytes);
        let count = self.count + used;
        if count < whole {
            self.held = held;
            self.count = count;
            return Pulled {
                pull: Pull::Need,
                used,
            };
        }
        self.count = 0;
        let part = self.walk.take(turn, front(&held, whole), 1, 1);
        Pulled {
            pull: Pull::Gives(part),
            used,
        }
    }

    /// Raw bytes, as many as there are.
    fn pull_raw(&mut self, bytes: &[u8]) -> Pulled
        requires ready { ReadyAt Turn.Raw self.old }
        ensures pulls { Pulls result self.old self.new bytes.now }
    {
        let n = self.walk.raw.min(bytes.len() as u64) as usize;
        if n == 0 {
            return Pulled {
                pull: Pull::Need,
                used: 0,
            };
        }
        let part = self.walk.take_raw(n);
        Pulled {
            pull: Pull::Gives(part),
            used: n,
        }
    }

    /// Extra bytes of a header, as many as there are.
    fn pull_extra(&mut self, bytes: &[u8]) -> Pulled
        requires ready { ReadyAt Turn.Extra self.old }
        ensures pulls { Pulls result self.old self.new bytes.now }
    {
        let n = bytes.len().min(self.walk.extra as usize);
        if n == 0 {
            return Pulled {
                pull: Pull::Need,
                used: 0,
            };
        }
        let part = self.walk.take_extra(&bytes[..n]);
        Pulled {
            pull: Pull::Gives(part),
            used: n,
        }
    }

    /// What is given without another byte.
    fn pull_given(&mut self, turn: Turn) -> Pulled
        requires ready { ReadyAt turn self.old }
        requires nothing { needed_of turn ≡ 0 }
        ensures pulls { (bytes : List ℕ) → Pulls result self.old self.new bytes }
    {
        let _words = self.walk.words;
        let part = self.walk.take(turn, &[], u64::MAX, u64::MAX);
        Pulled {
            pull: Pull::Gives(part),
            used: 0,
        }
    }

    /// The next part of the image, as far as these bytes go: they are what follows those that were used.
    pub fn pull(&mut self, bytes: &[u8]) -> Pulled
        ensures pulls { Pulls result self.old self.new bytes.now }
    {
        let turn = next(&self.walk);
        match turn {
            Turn::Header => self.pull_whole(turn, bytes),
            Turn::Extra => self.pull_extra(bytes),
            Turn::Raw => self.pull_raw(bytes),
            Turn::Word => self.pull_whole(turn, bytes),
            Turn::Fill => self.pull_given(turn),
            Turn::Gap => self.pull_given(turn),
            Turn::Chunk => self.pull_whole(turn, bytes),
            Turn::End => self.pull_given(turn),
            Turn::Over => self.pull_given(turn),
        }
    }

    /// The next part where the input has ended.
    #[tactic(auto, using(crate::proofs::Turns::needed_asked))]
    pub fn last(&mut self) -> Part
        ensures says { Says result self.old.walk self.new.walk (pulled_front self.old) [] }
        ensures empty { self.new.count ≡ 0 }
        ensures leaves { PartLeaves result self.new.walk.phase }
        ensures falls { PullFalls (Pull.Gives result) self.old.walk self.new.walk }
        ensures again { IsWalkOver self.old.walk.phase → self.new.walk ≡ self.old.walk }
        ensures inside { place_of self.old.walk + given_by result ≤ upto_of self.old.walk }
    {
        let turn = next(&self.walk);
        let held = self.held;
        let n = self.count;
        self.count = 0;
        self.walk.take(turn, front(&held, n), u64::MAX, u64::MAX)
    }
}
