//! Verifies a raw image in steps.

ghost use Rattle.std.specs.Prelude.{◌≡◌, ◌<◌, ◌≤◌, ◌+◌, ◌-◌, ◌*◌, ◌^◌, IsTrue, IsNone, IfNone, OnOk, length, take};
ghost use Rattle.std.specs.Prelude.{drop, min};
ghost use Rattle.abt_io.specs.Lent.{OneStep};
ghost use Rattle.abt_chunks.specs.Ahead.{somes};
ghost use Rattle.abt_chunks.specs.Costs.{TurnsOnly};
ghost use Rattle.abt_chunks.specs.Places.{from_place};
ghost use Rattle.abt_verify.specs.Comparing.{PartDiffers, ReadsUpTo, answer_to};
ghost use Rattle.abt_verify.specs.Fault.{PieceCause, RawRises, short_fault};
ghost use Rattle.abt_verify.specs.Standing.{FirstDiffers, Stands};
ghost use Rattle.abt_verify.specs.Stepping.{HasEnded, IsUnderway, OnDiffers, RawAdvances, passed_by, raw_answer};

use crate::comparing::{Compared, HALF, compare_at};
use crate::fault::VerifyFault;
use crate::stage::VerifyStage;
use crate::verifier::stage_behind;
use abt_chunks::MachineProgress;
use abt_io::{FullRead, Meter, Source, Window, read_full_at};

/// Compares the bytes of a raw image with what is stored at their places on a partition. It holds no bytes: each step
/// compares what it read.
#[derive(Drop)]
pub struct RawVerifier {
    /// How many bytes the image has.
    pub length: u64,
    /// How many were compared.
    pub at: u64,
    pub stage: VerifyStage,
    pub ghost within: { at ≤ length },
}

/// Why fewer bytes came than were asked for, if fewer came.
fn fault_of(got: FullRead, n: usize) -> Option<VerifyFault>
    ensures { result ≡ short_fault got.fault got.count n }
{
    match got.fault {
        Some(fault) => Some(VerifyFault::Read(fault)),
        None => {
            if got.count < n {
                Some(VerifyFault::SourceChanged)
            } else {
                None
            }
        }
    }
}

/// Reads n bytes of the source from a place on, and compares them with what is stored there on the partition.
fn compare_piece<S: Source, P: Source>(
    source: &mut S,
    n: usize,
    at: u64,
    partition: &mut P,
    w: &mut Window,
    m: &mut Meter,
) -> Compared
    requires half { n ≤ 32768 }
    requires below { at + n < 2 ^ 64 }
    requires there { IsTrue S.models → at + n ≤ length (S.content source.old) }
    ensures received { result.received ≡ (S.given source.new - S.given source.old)
        + (P.given partition.new - P.given partition.old) }
    ensures all { IfNone result.fault ((S.given source.new ≡ S.given source.old + n) ×
        (P.given partition.new ≡ P.given partition.old + n)) }
    ensures stands { IsTrue S.models → IsTrue P.models → IfNone result.fault
        (Stands (P.content partition.old) (from_place at (somes (take n (drop at (S.content source.old)))))) }
    ensures differs { IsTrue S.models → IsTrue P.models → PartDiffers result.fault (P.content partition.old)
        (from_place at (somes (take n (drop at (S.content source.old))))) }
    ensures cause { PieceCause result.fault S.models (S.read_faults source.old) (S.read_faults source.new)
        (P.read_faults partition.old) (P.read_faults partition.new) }
    ensures source { ReadsUpTo (answer_to result.fault) n S.Source source.old source.new }
    ensures partition { ReadsUpTo (answer_to result.fault) n P.Source partition.old partition.new }
    ensures meter { TurnsOnly ((S.given source.new - S.given source.old)
        + 2 * (P.given partition.new - P.given partition.old) + 3) m.old m.new }
{
    w.is_whole();
    let got = read_full_at(source, at, w.part_mut(0, n), m);
    match fault_of(got, n) {
        Some(fault) => Compared {
            received: got.count as u32,
            fault: Some(fault),
        },
        None => {
            let done = compare_at(n, at, partition, w, m);
            Compared {
                received: n as u32 + done.received,
                fault: done.fault,
            }
        }
    }
}

/// What a step returns once it has compared n bytes.
fn answer(n: usize, fault: Option<VerifyFault>) -> Result<MachineProgress, VerifyFault>
    ensures { result ≡ raw_answer n fault }
{
    match fault {
        Some(fault) => Err(fault),
        None => {
            if n == 0 {
                Ok(MachineProgress::Done)
            } else {
                Ok(MachineProgress::More)
            }
        }
    }
}

/// How many of n bytes are passed.
fn passed(n: usize, fault: Option<VerifyFault>) -> usize
    ensures value { result ≡ passed_by n fault }
    ensures within { result ≤ n }
{
    match fault {
        Some(_) => 0,
        None => n,
    }
}

impl RawVerifier {
    /// A verifier that has read nothing of the raw image that is all of the source.
    pub fn open<S: Source>(source: &S) -> RawVerifier
        ensures size { result.length ≡ S.size source.now }
        ensures told { IsTrue S.models → result.length ≡ length (S.content source.now) }
        ensures at { result.at ≡ 0 }
        ensures stage { result.stage ≡ VerifyStage.Going }
    {
        RawVerifier {
            length: source.length(),
            at: 0,
            stage: VerifyStage::Going,
        }
    }

    /// How many bytes the next step compares.
    fn ask(&self) -> usize
        ensures value { result ≡ min (self.now.length - self.now.at) 32768 }
        ensures there { self.now.at + result < 2 ^ 64 }
    {
        (self.length - self.at).min(HALF as u64) as usize
    }

    /// One step: at most half a window is read of the source, and compared with as many bytes of the partition. An
    /// error is a device's (11 reading the source, 37 the partition), the first byte that differs (35), as all after
    /// the partition's end do, or 14 where the source gives fewer bytes than it has said. After an error or Done every
    /// step returns that again and calls no device.
    pub fn step<S: Source, P: Source>(
        &mut self,
        source: &mut S,
        partition: &mut P,
        w: &mut Window,
        m: &mut Meter,
    ) -> Result<MachineProgress, VerifyFault>
        requires { IsTrue S.models → self.old.length ≡ length (S.content source.old) }
        // What was held so far is held with what was compared, or the first byte that differs is reported.
        ensures stands { IsTrue S.models → IsTrue P.models → Stands (P.content partition.old)
            (somes (take self.old.at (S.content source.old))) →
            OnOk result (Stands (P.content partition.old) (somes (take self.new.at (S.content source.old)))) }
        ensures differs { IsTrue S.models → IsTrue P.models → IsUnderway self.old.stage →
            Stands (P.content partition.old) (somes (take self.old.at (S.content source.old))) →
            OnDiffers result (λ n. FirstDiffers (P.content partition.old) (somes (S.content source.old)) n) }
        ensures goes { RawAdvances result self.old.stage self.new.stage self.old.length self.new.length self.old.at
            self.new.at }
        ensures counted { OnOk result ((S.given source.new ≡ S.given source.old + (self.new.at - self.old.at)) ×
            (P.given partition.new ≡ P.given partition.old + (self.new.at - self.old.at))) }
        ensures again { HasEnded self.old.stage → (self.new ≡ self.old) × (source.new ≡ source.old) ×
            (partition.new ≡ partition.old) }
        ensures cause { IsUnderway self.old.stage → RawRises result S.models (S.read_faults source.old)
            (S.read_faults source.new) (P.read_faults partition.old) (P.read_faults partition.new) }
        // Both stay as they are.
        ensures source { ReadsUpTo result 32768 S.Source source.old source.new }
        ensures partition { ReadsUpTo result 32768 P.Source partition.old partition.new }
        ensures turns { m.new.turns.number ≤ m.old.turns.number + (S.given source.new - S.given source.old)
            + 2 * (P.given partition.new - P.given partition.old) + 3 }
        ensures one_step { OneStep ((S.given source.new - S.given source.old)
            + (P.given partition.new - P.given partition.old)) m.old m.new }
    {
        match self.stage {
            VerifyStage::Done => {
                m.close_step(0);
                Ok(MachineProgress::Done)
            }
            VerifyStage::Failed(fault) => {
                m.close_step(0);
                Err(fault)
            }
            VerifyStage::Going => {
                let n = self.ask();
                let done = compare_piece(source, n, self.at, partition, w, m);
                m.close_step(done.received);
                self.at += passed(n, done.fault) as u64;
                let answer = answer(n, done.fault);
                self.stage = stage_behind(answer);
                answer
            }
        }
    }
}
