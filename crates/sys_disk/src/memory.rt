//! What a command asks of memory, where it ends if that is refused.

ghost use Rattle.std.specs.Prelude.{◌≡◌, ◌<◌, ◌≤◌, ◌+◌, ◌++◌, ◌∷◌, [], OnErr, if◌then◌else◌, is_ok, length};
ghost use Rattle.std.specs.Prelude.{vec_capacity, vec_len};

use std::collections::VecDeque;

/// A refusal of memory. Only the calls below make one, each of a request that std has refused. A disk counts it.
#[derive(Drop)]
pub struct NoMemory {
    _refused: (),
}

/// Adds an item at the end of a list.
#[inline(never)]
pub fn push<T: Drop>(list: &mut Vec<T>, item: T) -> Result<(), NoMemory>
    ensures items { list.new.items ≡ (if is_ok result then list.old.items ++ (item ∷ []) else list.old.items) }
    ensures full { OnErr result (vec_capacity list.old ≤ vec_len list.old) }
{
    match list.push(item) {
        Ok(()) => Ok(()),
        Err(_) => Err(NoMemory { _refused: () }),
    }
}

/// The same for a queue.
pub fn push_back<T: Drop>(queue: &mut VecDeque<T>, item: T) -> Result<(), NoMemory>
    ensures { queue.new.items ≡ (if is_ok result then queue.old.items ++ (item ∷ []) else queue.old.items) }
{
    match queue.push_back(item) {
        Ok(()) => Ok(()),
        Err(_) => Err(NoMemory { _refused: () }),
    }
}

/// Adds bytes at the end of others.
pub fn append(bytes: &mut Vec<u8>, more: &[u8]) -> Result<(), NoMemory>
    ensures items { bytes.new.items ≡ (if is_ok result then bytes.old.items ++ more.now else bytes.old.items) }
    ensures full { OnErr result (vec_capacity bytes.old < vec_len bytes.old + length more.now) }
{
    match bytes.extend_from_slice(more) {
        Ok(()) => Ok(()),
        Err(_) => Err(NoMemory { _refused: () }),
    }
}
