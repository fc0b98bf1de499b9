//! The ramdisk fragments of a vendor boot image, each open for reading.

ghost use Rattle.std.specs.Prelude.{◌≡◌, ◌++◌, ◌∷◌, [], IsSome, IsTrue, IfErr, IfOk, length, map};
ghost use Rattle.std.specs.List.{All};
ghost use Rattle.abt_sections.specs.Cause.{total};
ghost use Rattle.cmd_common_boot.specs.Boards.{AreSet};
ghost use Rattle.cmd_pack_inputs.specs.Opening.{OpensEach};
ghost use Rattle.cmd_pack_inputs.specs.Parts.{AddsFragment, AreFragmentsOf, IsFragmentInput};
ghost use Rattle.cmd_pack_inputs.specs.BadBoards.{IsBadBoard};

use crate::parts::open_file;
use abt_io::Source;
use abt_sections::FragmentSpec;
use cmd_common_boot::{BootCommandFault, FragmentText, PackTexts, PartSource, set_board_ids};
use std::alloc::Global;
use sys_disk::{Disk, Lasting, NoMemory, push};
use sys_refusals::{HostRefusal, Refusal};

/// The fragments of a vendor ramdisk, each with its source.
#[derive(Drop)]
pub struct Ramdisks<'a, S: Source + Lasting + Drop> {
    pub specs: Vec<FragmentSpec>,
    pub sources: Vec<PartSource<'a, S>>,
    pub ghost paired: { length specs.items ≡ length sources.items },
}

impl<'a, S: Source + Lasting + Drop> Ramdisks<'a, S> {
    /// No fragment.
    pub(crate) fn new(alloc: Global) -> Ramdisks<'a, S>
        ensures specs { result.specs.items ≡ [] }
        ensures sources { result.sources.items ≡ [] }
    {
        Ramdisks {
            specs: Vec::new(alloc),
            sources: Vec::new(alloc),
        }
    }

    /// These and one more.
    pub(crate) fn with(
        self,
        spec: FragmentSpec,
        source: PartSource<'a, S>,
    ) -> Result<Ramdisks<'a, S>, NoMemory>
        ensures specs { IfOk result (λ more. more.specs.items ≡ self.entry.specs.items ++ (spec ∷ [])) }
        ensures sources { IfOk result (λ more. more.sources.items ≡ self.entry.sources.items ++ (source.entry ∷ [])) }
    {
        let Ramdisks {
            mut specs,
            mut sources,
        } = self;
        match push(&mut specs, spec) {
            Ok(()) => {}
            Err(refused) => return Err(refused),
        }
        match push(&mut sources, source) {
            Ok(()) => Ok(Ramdisks { specs, sources }),
            Err(refused) => Err(refused),
        }
    }

    /// These, with the numbers of board ids that the arguments set.
    pub fn with_board_ids<'w>(
        self,
        words: &[&'w str],
    ) -> Result<Ramdisks<'a, S>, Refusal<'a, BootCommandFault<'w>>>
        ensures sources { IfOk result (λ set. set.sources.items ≡ self.entry.sources.items) }
        ensures specs { IfOk result (λ set. AreSet (map (λ word. word.now) words.now) self.entry.specs.items
            set.specs.items) }
        ensures refused { IfErr result (λ refusal. IsBadBoard (map (λ word. word.now) words.now)
            (length self.entry.specs.items) refusal.fault) }
    {
        let Ramdisks { mut specs, sources } = self;
        match set_board_ids(specs.as_mut_slice(), words) {
            Ok(()) => Ok(Ramdisks { specs, sources }),
            Err(word) => Err(Refusal::of(BootCommandFault::BadBoardId(word))),
        }
    }
}

/// Opens the given files, in order.
pub fn open_fragments<'a, D: Disk>(
    disk: &mut D,
    alloc: Global,
    texts: &'a PackTexts<'_>,
) -> Result<Ramdisks<'a, D::At>, HostRefusal<'a>>
    requires first { IsTrue D.models → (D.held disk.old).begun ≡ [] }
    requires said { All (λ fragment. IsSome fragment.spec) texts.now.fragments.items }
    ensures fragments { IsTrue D.models → IfOk result (λ all. AreFragmentsOf (D.world disk.old)
        texts.now.fragments.items
        all.specs.items (map ⟦<PartSource<'a, D::At> as Source>⟧.content all.sources.items)) }
    ensures opens { OpensEach D.models result (IsFragmentInput texts.now.fragments.items)
        (λ all. total ⟦<PartSource<'a, D::At> as Source>⟧.read_faults all.sources.items) 0
        (D.held disk.old) (D.held disk.new) (D.world disk.old) (D.world disk.new) }
{
    let mut ramdisks = Ramdisks::new(alloc);
    for fragment in &texts.fragments {
        ramdisks = match with_file(disk, ramdisks, fragment) {
            Ok(more) => more,
            Err(refusal) => return Err(refusal),
        };
    }
    Ok(ramdisks)
}

// These and one that was given.
fn with_file<'a, D: Disk>(
    disk: &mut D,
    ramdisks: Ramdisks<'a, D::At>,
    fragment: &'a FragmentText<'_>,
) -> Result<Ramdisks<'a, D::At>, HostRefusal<'a>>
    requires first { IsTrue D.models → (D.held disk.old).begun ≡ [] }
    requires said { IsSome fragment.now.spec }
    ensures added { IsTrue D.models → IfOk result (λ more. AddsFragment (D.world disk.old) fragment.now
        ramdisks.entry.specs.items more.specs.items
        (map ⟦<PartSource<'a, D::At> as Source>⟧.content ramdisks.entry.sources.items)
        (map ⟦<PartSource<'a, D::At> as Source>⟧.content more.sources.items)) }
    ensures opens { OpensEach D.models result (λ path. path ≡ fragment.now.path.items)
        (λ more. total ⟦<PartSource<'a, D::At> as Source>⟧.read_faults more.sources.items)
        (total ⟦<PartSource<'a, D::At> as Source>⟧.read_faults ramdisks.entry.sources.items)
        (D.held disk.old) (D.held disk.new) (D.world disk.old) (D.world disk.new) }
{
    let Some(spec) = fragment.spec else {
        return Ok(ramdisks);
    };
    let path = fragment.path.as_slice();
    match open_file(disk, "FRAGMENT", &*fragment.word, path) {
        Ok(source) => match ramdisks.with(spec, source) {
            Ok(more) => Ok(more),
            Err(refused) => {
                disk.no_memory(refused);
                Err(HostRefusal::memory())
            }
        },
        Err(refusal) => Err(refusal),
    }
}
