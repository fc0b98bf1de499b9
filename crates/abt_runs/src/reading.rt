//! Reads bytes at a place of the source into the window.
ghost use Rattle.std.specs.Prelude.{◌≡◌, ◌≤◌, IsTrue, IfNone, take, drop};
ghost use Rattle.abt_runs.specs.Loads.{AsksBytes, LoadsWanted};

use crate::RunFault;
use abt_io::{Meter, Source, Window, read_full_at};

/// How many bytes came, and why not all that were wanted.
#[derive(Clone, Copy, Debug, PartialEq, Eq, Drop)]
pub struct Loaded {
    pub received: u32,
    pub fault: Option<RunFault>,
}

/// Reads so many bytes from a place of the source to the beginning of the window.
#[inline(always)]
pub fn load<S: Source>(
    source: &mut S,
    at: u64,
    want: usize,
    w: &mut Window,
    m: &mut Meter,
) -> Loaded
    requires window { want ≤ 65536 }
    requires asks { AsksBytes S.models (S.content source.old) at want }
    ensures wanted { LoadsWanted result.fault result.received want S.Source source.old source.new m.old m.new }
    ensures bytes { IsTrue S.models →
        IfNone result.fault (take want w.new.bytes ≡ take want (drop at (S.content source.old))) }
{
    w.is_whole();
    let got = read_full_at(source, at, w.part_mut(0, want), m);
    let received = got.count as u32;
    if let Some(fault) = got.fault {
        return Loaded {
            received,
            fault: Some(RunFault::Read(fault)),
        };
    }
    if got.count < want {
        return Loaded {
            received,
            fault: Some(RunFault::SourceChanged),
        };
    }
    Loaded {
        received,
        fault: None,
    }
}
