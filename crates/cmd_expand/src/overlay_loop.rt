//! Writes opened images over one another: each is flashed in turn to a file of zeros.

ghost use Rattle.std.specs.Prelude.{◌≡◌, ◌+◌, ◌-◌, ◌*◌, ℕ, [], None, Ok, IsTrue, IfOk, IfErr, OnOk, length, map};
ghost use Rattle.std.specs.Prelude.{IfSome, IsErr};
ghost use Rattle.std.specs.List.{AllByRecursion};
ghost use Rattle.abt_flash_faults.specs.Fault.{FlashingRises};
ghost use Rattle.abt_flash.specs.Flashing.{Holds};
ghost use Rattle.abt_sparse.specs.Pieces.{flashed, flashed_in_turn};
ghost use Rattle.sys_disk.specs.Counts.{Cause, of_reading, reading, writing};
ghost use Rattle.sys_disk.specs.World.{HasNotFailed};
ghost use Rattle.cmd_expand.specs.Overlaying.{IsImageOf};
ghost use Rattle.cmd_expand.specs.Steps.{BreaksAmong, BreaksAt, IsNotFlashed, IsNotLaid, LaysAlone};

use crate::open_images::OpenedImage;
use abt_flash::{Flashed, flash};
use abt_flash_faults::FlashFault;
use abt_io::{Forward, Meter, Partition, Source, Window};
use abt_sparse::SparseFault;
use cmd_common_sparse::{SparseCommandFault, SparseRefusal};
use std::collections::VecDeque;
use sys_disk::{Disk, Lasting};
use sys_refusals::{FileArg, Sides};
use sys_report::{Carried, Progress};

/// Flashes images in turn, the first of them first.
pub(crate) fn lay_all<'a, D: Disk>(
    disk: &mut D,
    progress: &mut Progress,
    kept: VecDeque<OpenedImage<'a, D::At>>,
    onto: &mut D::InPlace,
    output: FileArg<'a>,
    w: &mut Window,
    m: &mut Meter,
) -> Result<(), SparseRefusal<'a>>
    ensures laid { IsTrue D.models → OnOk result (D.InPlace.content onto.new
        ≡ flashed_in_turn (D.InPlace.content onto.old) (map (λ one. D.At.content one.source) kept.entry.items)) }
    // where one is refused, those before it are flashed, and of it what that leaves
    ensures broken { IsTrue D.models → IfErr result (λ refusal. BreaksAmong refusal.fault
        (map (λ one. D.At.content one.source) kept.entry.items) (D.InPlace.content onto.old)
        (D.InPlace.content onto.new)) }
    // it was synced once for each image, and after the last byte
    ensures synced { OnOk result ((D.InPlace.past onto.new).synced
        ≡ (D.InPlace.past onto.old).synced + length kept.entry.items) }
    ensures settled { IsTrue D.models → (D.InPlace.past onto.old).pending ≡ [] →
        OnOk result ((D.InPlace.past onto.new).pending ≡ []) }
    // of the disk only what is counted has changed, and nothing has failed where all images were written
    ensures alone { LaysAlone D.models D.InPlace.Source D.InPlace.Partition.own onto.old onto.new (D.held disk.old)
        (D.held disk.new) (D.world disk.old) (D.world disk.new) }
    ensures clean { IsTrue D.models → AllByRecursion (λ one. D.At.read_faults one.source ≡ 0) kept.entry.items →
        OnOk result (HasNotFailed (D.held disk.old) (D.held disk.new)
        × (D.InPlace.put_faults onto.new ≡ D.InPlace.put_faults onto.old)) }
    ensures refused { IsTrue D.models → (blocks : ℕ) → (block : ℕ) → D.InPlace.size onto.old ≡ blocks * block →
        AllByRecursion (IsImageOf blocks block) (map (λ one. D.At.content one.source) kept.entry.items) →
        AllByRecursion (λ one. D.At.read_faults one.source ≡ 0) kept.entry.items →
        IfErr result (λ refusal. IsNotLaid refusal.fault
        ((D.held disk.old).counts.failed reading) ((D.held disk.new).counts.failed reading)
        ((D.held disk.old).counts.failed writing + D.InPlace.put_faults onto.old)
        ((D.held disk.new).counts.failed writing + D.InPlace.put_faults onto.new)) }
{
    let mut kept = kept;
    'images: loop {
        match kept.pop_front() {
            Some(one) => {
                m.tick();
                match lay_one(disk, progress, one, onto, output, w, m) {
                    Ok(()) => {}
                    Err(refusal) => return Err(refusal),
                }
            }
            None => return Ok(()),
        }
    }
}

// Writes one image, and then closes it.
fn lay_one<'a, D: Disk>(
    disk: &mut D,
    progress: &mut Progress,
    one: OpenedImage<'a, D::At>,
    onto: &mut D::InPlace,
    output: FileArg<'a>,
    w: &mut Window,
    m: &mut Meter,
) -> Result<(), SparseRefusal<'a>>
    ensures laid { IsTrue D.models → OnOk result (D.InPlace.content onto.new
        ≡ flashed (D.InPlace.content onto.old) (D.At.content one.entry.source)) }
    ensures broken { IsTrue D.models → IfErr result (λ refusal. BreaksAt refusal.fault
        (D.At.content one.entry.source) (D.InPlace.content onto.old) (D.InPlace.content onto.new)) }
    ensures synced { OnOk result ((D.InPlace.past onto.new).synced ≡ (D.InPlace.past onto.old).synced + 1) }
    ensures settled { IsTrue D.models → OnOk result ((D.InPlace.past onto.new).pending ≡ []) }
    ensures alone { LaysAlone D.models D.InPlace.Source D.InPlace.Partition.own onto.old onto.new (D.held disk.old)
        (D.held disk.new) (D.world disk.old) (D.world disk.new) }
    ensures clean { IsTrue D.models → OnOk result (((cause : Cause) → (D.held disk.new).counts.failed cause
        ≡ (D.held disk.old).counts.failed cause + of_reading (D.At.read_faults one.entry.source) cause)
        × (D.InPlace.put_faults onto.new ≡ D.InPlace.put_faults onto.old)) }
    ensures refused { IsTrue D.models → (blocks : ℕ) → (block : ℕ) → D.InPlace.size onto.old ≡ blocks * block →
        IsImageOf blocks block (D.At.content one.entry.source) →
        IfErr result (λ refusal. IsNotLaid refusal.fault
        ((D.held disk.old).counts.failed reading + D.At.read_faults one.entry.source)
        ((D.held disk.new).counts.failed reading)
        ((D.held disk.old).counts.failed writing + D.InPlace.put_faults onto.old)
        ((D.held disk.new).counts.failed writing + D.InPlace.put_faults onto.new)) }
{
    let OpenedImage { source, place, .. } = one;
    let mut source = source;
    source.forget();
    let mut carried = Carried {
        device: Forward::new(source),
        progress,
    };
    let answer = flash_one(&mut carried, onto, w, m);
    let Carried { device, .. } = carried;
    let Forward { source, .. } = device;
    let answer = lasting(answer, source.shorter());
    disk.let_go_source(source);
    match answer {
        Ok(_) => Ok(()),
        Err(fault) => {
            let sides = Sides::none().reading(place, None).begun(output, None);
            Err(sides.refuse(SparseCommandFault::Flash(fault)))
        }
    }
}

// Why an image was not written completely. Where its file has fewer bytes now than were read, the image ends there.
fn lasting(answer: Result<Flashed, FlashFault>, now: Option<u64>) -> Result<Flashed, FlashFault>
    ensures whole { now ≡ None → result ≡ answer }
    ensures shorter { IfSome now (λ _. IsErr result) }
    ensures done { IfOk result (λ done. answer ≡ Ok done) }
{
    let Some(at) = now else {
        return answer;
    };
    match answer {
        Ok(_) => Err(FlashFault::Sparse(SparseFault::Truncated { at })),
        Err(FlashFault::Sparse(SparseFault::Truncated { .. })) => {
            Err(FlashFault::Sparse(SparseFault::Truncated { at }))
        }
        Err(fault) => Err(fault),
    }
}

// Reads the image forward, from its first byte on.
fn flash_one<S: Source, P: Partition>(
    from: &mut Carried<'_, Forward<S>>,
    onto: &mut P,
    w: &mut Window,
    m: &mut Meter,
) -> Result<Flashed, FlashFault>
    requires first { from.old.device.position ≡ 0 }
    ensures holds { IsTrue S.models → IsTrue P.models →
        Holds result (S.given from.new.device.source - S.given from.old.device.source) (P.content onto.old)
        (P.content onto.new) (S.content from.old.device.source) }
    ensures size { P.size onto.new ≡ P.size onto.old }
    ensures same { IsTrue S.models → IsTrue P.models → (P.past onto.new).file ≡ (P.past onto.old).file }
    ensures synced { OnOk result ((P.past onto.new).synced ≡ (P.past onto.old).synced + 1) }
    ensures settled { IsTrue P.models → OnOk result ((P.past onto.new).pending ≡ []) }
    ensures cause { FlashingRises result (S.read_faults from.old.device.source) (S.read_faults from.new.device.source)
        (P.put_faults onto.old) (P.put_faults onto.new) }
    ensures refused { IsTrue S.models → (blocks : ℕ) → (block : ℕ) → P.size onto.old ≡ blocks * block →
        IsImageOf blocks block (S.content from.old.device.source) → IfErr result (λ fault. IsNotFlashed fault
        (S.read_faults from.old.device.source) (S.read_faults from.new.device.source)
        (P.put_faults onto.old) (P.put_faults onto.new)) }
{
    flash(from, onto, w, m)
}
