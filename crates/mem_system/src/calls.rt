//! What the calls of a system in memory do otherwise than they are asked: one fails, reads and writes are short, or a
//! signal interrupts them.

ghost use Rattle.std.specs.Prelude.{◌≤◌, ◌<◌, ◌≢◌, IfOk, IfErr, IsTrue};
ghost use Rattle.std.specs.IoError.{error_kind};

use crate::journal::Journal;
use std::alloc::Global;
use std::cell::Cell;
use std::io;
use std::io::ErrorKind;
use std::rc::Rc;

/// How calls go.
#[derive(Clone, Copy, Drop)]
pub struct Way {
    /// The call of this number fails, counted from 1. With 0 none does.
    pub failing: u64,
    /// A write that fails has written half of its bytes.
    pub is_torn: bool,
    /// A read or a write moves at most this many bytes. With 0 it moves all of them.
    pub most: usize,
    /// Of so many reads and writes, the last is interrupted and does nothing. With 0 none is.
    pub interrupted: u64,
}

impl Way {
    /// Each call does all of what it is asked.
    pub const PLAIN: Way = Way {
        failing: 0,
        is_torn: false,
        most: 0,
        interrupted: 0,
    };
}

/// Counts the calls that may fail, of a system and of its open files, and keeps what they have done.
#[derive(Drop)]
pub struct Calls {
    pub journal: Journal,
    left: Cell<u64>,
    is_torn: bool,
    most: usize,
    interrupted: u64,
    moves: Cell<u64>,
}

impl Calls {
    /// Calls that go this way.
    pub fn new(alloc: Global, way: Way) -> Calls {
        Calls {
            journal: Journal::new(alloc),
            left: Cell::new(way.failing),
            is_torn: way.is_torn,
            most: way.most,
            interrupted: way.interrupted,
            moves: Cell::new(0),
        }
    }

    /// Whether the call that was to fail has failed.
    pub fn have_failed(&self) -> bool {
        self.left.get() == 0
    }

    // Whether it is this call that fails.
    fn fails(&self) -> bool {
        let left = self.left.get();
        if left == 0 {
            return false;
        }
        self.left.set(left - 1);
        left == 1
    }

    // Whether it is this read or write that is interrupted.
    fn is_interrupted(&self) -> bool {
        if self.interrupted == 0 {
            return false;
        }
        let moves = self.moves.get().saturating_add(1);
        if moves >= self.interrupted {
            self.moves.set(0);
            return true;
        }
        self.moves.set(moves);
        false
    }
}

/// Counts a call, and fails if it is the one that is to fail.
pub(crate) fn counted(calls: &Option<Rc<Calls>>) -> io::Result<()>
    ensures { IfErr result (λ e. error_kind e ≢ ErrorKind.NotFound) }
{
    match calls {
        Some(calls) if calls.as_ref().fails() => Err(io::Error::from(ErrorKind::Other)),
        _ => Ok(()),
    }
}

/// The same of a read or a write of this many bytes. Returns how many of them it moves.
pub(crate) fn moved(calls: &Option<Rc<Calls>>, n: usize) -> io::Result<usize>
    ensures within { IfOk result (λ k. k ≤ n) }
    ensures some { IfOk result (λ k. 0 < n → 0 < k) }
{
    let Some(shared) = calls else {
        return Ok(n);
    };
    if shared.as_ref().is_interrupted() {
        return Err(io::Error::from(ErrorKind::Interrupted));
    }
    counted(calls)?;
    let most = shared.as_ref().most;
    if most == 0 { Ok(n) } else { Ok(n.min(most)) }
}

/// Whether a write that failed so has written half of its bytes.
pub(crate) fn is_torn(calls: &Option<Rc<Calls>>, error: &io::Error) -> bool
    ensures { IsTrue result → error_kind error.now ≢ ErrorKind.Interrupted }
{
    match calls {
        Some(calls) => calls.as_ref().is_torn && error.kind() != ErrorKind::Interrupted,
        None => false,
    }
}
