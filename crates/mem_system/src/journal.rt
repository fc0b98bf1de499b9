//! What the open files of a system in memory were told to do, in order. So it can be said what a run leaves that stops
//! between two of these calls.

use abt_io::put_part;
use std::alloc::Global;
use std::cell::{Cell, RefCell};

// What a crash leaves of a byte in the last of its cases.
const MARK: u8 = 0x5a;

/// What a crash makes of what was written and not synced.
#[derive(Clone, Copy, Drop)]
pub enum Crash {
    /// All of it is kept.
    Kept,
    /// None of it is.
    Lost,
    /// Every second call is kept: those of an odd place in the journal.
    Odd,
    /// The others are.
    Even,
    /// Each byte that was written is another now.
    Marred,
}

impl Crash {
    // Whether the call at this place is kept.
    fn keeps(self, place: usize) -> bool {
        match self {
            Crash::Kept => true,
            Crash::Lost => false,
            Crash::Odd => place % 2 == 1,
            Crash::Even => place % 2 == 0,
            Crash::Marred => true,
        }
    }

    fn mars(self) -> bool {
        match self {
            Crash::Marred => true,
            Crash::Kept => false,
            Crash::Lost => false,
            Crash::Odd => false,
            Crash::Even => false,
        }
    }
}

#[derive(Drop)]
enum Change {
    /// These bytes were written at this offset.
    Wrote(u64, Vec<u8>),
    /// The file got this length.
    Long(u64),
    /// What was written is stored.
    Synced,
}

/// A call that has changed the file of a number, or has synced it.
#[derive(Drop)]
struct Deed {
    file: u64,
    change: Change,
}

impl Deed {
    fn syncs(&self, file: u64) -> bool {
        if self.file != file {
            return false;
        }
        match &self.change {
            Change::Synced => true,
            Change::Wrote(_, _) => false,
            Change::Long(_) => false,
        }
    }

    // Does it to what its file holds. Returns whether there was memory for that.
    fn is_done_to(&self, bytes: &mut Vec<u8>, is_marred: bool) -> bool {
        match &self.change {
            Change::Wrote(at, part) => lay(bytes, *at, part.as_slice(), is_marred),
            Change::Long(n) => bytes.resize(*n as usize, 0).is_ok(),
            Change::Synced => true,
        }
    }
}

/// Calls in the order in which they were made.
#[derive(Drop)]
pub struct Journal {
    alloc: Global,
    deeds: RefCell<Vec<Deed>>,
    // There was no memory for one of them.
    is_cut: Cell<bool>,
}

impl Journal {
    pub(crate) fn new(alloc: Global) -> Journal {
        Journal {
            alloc,
            deeds: RefCell::new(Vec::new(alloc)),
            is_cut: Cell::new(false),
        }
    }

    pub(crate) fn wrote(&self, file: u64, at: u64, bytes: &[u8]) {
        match Vec::from_slice(self.alloc, bytes) {
            Ok(bytes) => self.add(file, Change::Wrote(at, bytes)),
            Err(_) => self.is_cut.set(true),
        }
    }

    pub(crate) fn set_len(&self, file: u64, n: u64) {
        self.add(file, Change::Long(n));
    }

    pub(crate) fn synced(&self, file: u64) {
        self.add(file, Change::Synced);
    }

    fn add(&self, file: u64, change: Change) {
        if let Ok(mut deeds) = self.deeds.try_borrow_mut()
            && deeds.push(Deed { file, change }).is_ok()
        {
            return;
        }
        self.is_cut.set(true);
    }

    /// How many calls it has.
    pub fn len(&self) -> usize {
        match self.deeds.try_borrow() {
            Ok(deeds) => deeds.len(),
            Err(_) => 0,
        }
    }

    /// How often a file was synced by the first calls, which are so many.
    pub fn syncs(&self, file: u64, calls: usize) -> u32 {
        let mut n: u32 = 0;
        if let Ok(deeds) = self.deeds.try_borrow() {
            for deed in deeds.as_slice().iter().take(calls) {
                if deed.syncs(file) {
                    n = n.saturating_add(1);
                }
            }
        }
        n
    }

    /// What a file holds that held these bytes, if the run stops after so many calls. None, if there is no memory for
    /// it, or was none for the journal.
    pub fn left(&self, file: u64, before: &[u8], calls: usize, crash: Crash) -> Option<Vec<u8>> {
        if self.is_cut.get() {
            return None;
        }
        let mut bytes = Vec::from_slice(self.alloc, before).ok()?;
        let deeds = self.deeds.try_borrow().ok()?;
        let settled = settled(deeds.as_slice(), file, calls);
        for (place, deed) in deeds.as_slice().iter().take(calls).enumerate() {
            let is_pending = place >= settled;
            if deed.file != file || (is_pending && !crash.keeps(place)) {
                continue;
            }
            if !deed.is_done_to(&mut bytes, is_pending && crash.mars()) {
                return None;
            }
        }
        Some(bytes)
    }
}

// The number of the first calls up to the last sync of a file among so many.
fn settled(deeds: &[Deed], file: u64, calls: usize) -> usize {
    let mut settled = 0;
    for (place, deed) in deeds.iter().take(calls).enumerate() {
        if deed.syncs(file) {
            settled = place;
        }
    }
    settled
}

// Writes bytes at an offset of these, or marks in their place, and returns whether there was room for them.
fn lay(bytes: &mut Vec<u8>, at: u64, part: &[u8], is_marred: bool) -> bool {
    let Some(end) = (at as usize).checked_add(part.len()) else {
        return false;
    };
    if end > bytes.len() && bytes.resize(end, 0).is_err() {
        return false;
    }
    if is_marred {
        bytes.as_mut_slice()[at as usize..end].fill(MARK);
    } else {
        put_part(bytes.as_mut_slice(), at, part);
    }
    true
}
