//! Joins parts of one class to runs.
ghost use Rattle.std.specs.Prelude.{◌≡◌, ◌<◌, ◌+◌, ◌^◌};
ghost use Rattle.abt_runs.specs.Part.{is_end as ends};
ghost use Rattle.abt_runs.specs.declared.part.RunKind.{RunKind};
ghost use Rattle.abt_runs.specs.Whole.{alike_kinds, and_part, room_in};

use crate::{Cursor, Run, RunKind};

/// Whether blocks of these classes make one run.
pub fn are_alike(one: RunKind, other: RunKind) -> bool
    ensures { result ≡ alike_kinds one other }
{
    match (one, other) {
        (RunKind::Raw, RunKind::Raw) | (RunKind::Skip, RunKind::Skip) => true,
        (RunKind::Fill(v), RunKind::Fill(w)) => v.as_slice() == w.as_slice(),
        _ => false,
    }
}

fn is_end(kind: RunKind) -> bool
    ensures { result ≡ ends kind }
{
    match kind {
        RunKind::End => true,
        RunKind::Raw | RunKind::Fill(_) | RunKind::Skip => false,
    }
}

/// No block yet, as a run of the end.
pub(crate) fn none_yet(from: Cursor) -> Run
    ensures kind { result.kind ≡ RunKind.End }
    ensures blocks { result.blocks ≡ 0 }
    ensures places { (result.here ≡ from) × (result.next ≡ from) }
{
    Run {
        kind: RunKind::End,
        blocks: 0,
        here: from,
        next: from,
    }
}

/// A run and a part after it as one, if they are.
pub(crate) fn joined(run: Run, part: Run) -> Option<Run>
    requires { run.blocks + part.blocks < 2 ^ 32 }
    ensures { result ≡ and_part run part }
{
    if is_end(part.kind) {
        return None;
    }
    if part.blocks == 0 {
        let here = if run.blocks == 0 { part.next } else { run.here };
        return Some(Run {
            here,
            next: part.next,
            ..run
        });
    }
    if run.blocks == 0 {
        return Some(part);
    }
    if are_alike(run.kind, part.kind) {
        return Some(Run {
            blocks: run.blocks + part.blocks,
            next: part.next,
            ..run
        });
    }
    None
}

/// How many more raw blocks a run may have.
pub(crate) fn room(run: &Run, cap: u32) -> u32
    ensures { result ≡ room_in run.now.kind run.now.blocks cap }
{
    match run.kind {
        RunKind::Raw => cap.saturating_sub(run.blocks),
        RunKind::Fill(_) => cap,
        RunKind::Skip => cap,
        RunKind::End => cap,
    }
}
