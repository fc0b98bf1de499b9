//! The calls on a sparse image, for a program that has it in pieces.

ghost use Rattle.std.specs.Prelude.{◌≡◌, ◌≤◌, ◌<◌, ◌+◌, ◌*◌, ◌↔◌, take, length};
ghost use Rattle.abt_c.specs.Standing.{Answered, Ended, IsLeft, KeptFault, Told, no_size};
ghost use Rattle.abt_c.specs.Moving.{Moves, Nears};
ghost use Rattle.abt_c.specs.Telling.{IsBare};

use crate::state::{AbtPart, AbtSize, AbtSparse};
use crate::stored::{puller_in, state_of};
use crate::told::{STATE, part_of, refused};
use abt_chunks::{Pull, Puller};

/// What is returned in a state that has failed: its fault once more, where these calls left it so.
fn again(state: &AbtSparse) -> AbtPart
    ensures bare { IsBare result }
    ensures some { 3 ≤ state.now.phase → 0 < result.fault }
    ensures spoiled { result.fault ≡ 90 → result.detail ≡ 0 }
    ensures left { IsLeft state.now ↔ (result.fault ≡ 90 → ⊥) }
    ensures same { IsLeft state.now → (result.fault ≡ state.now.fault) × (result.detail ≡ state.now.detail) }
{
    match puller_in(state) {
        None => refused(STATE, 0),
        Some(_) => refused(state.fault, state.detail),
    }
}

/// The fault that a state keeps, or that of a state that no call left. 0 where it is good to go on.
pub fn fault_of(state: &AbtSparse) -> u32
    ensures { KeptFault result state.now }
{
    match puller_in(state) {
        None => STATE,
        Some(_) => state.fault,
    }
}

/// Sets a state to the one before the first byte.
#[unsafe(no_mangle)]
pub extern "C" fn abt_sparse_init(state: &mut AbtSparse)
    ensures left { IsLeft state.new }
    ensures first { state.new.phase ≡ 0 }
    ensures none { state.new.count ≡ 0 }
{
    *state = state_of(&Puller::new());
}

/// The next part of the image, as far as this input goes: it is what follows all that was used before. 0, or the
/// number of the fault.
#[unsafe(no_mangle)]
pub extern "C" fn abt_sparse_next(state: &mut AbtSparse, input: &[u8], out: &mut AbtPart) -> u32
    // A state that these calls left is taken and left so; each other one is returned with 90, and left as it is.
    // After a fault it returns that again.
    ensures answers { Answered result out.new state.old state.new }
    ensures used { out.new.used ≤ length input.now }
    // More input is asked for only where all of this one was used.
    ensures needs { out.new.kind ≡ 0 → out.new.used ≡ length input.now }
    // What lay ahead of the state is this part, and then what lies ahead of it now, whatever bytes follow.
    ensures told { state.old.phase < 3 → (out.new.fault ≡ 90 → ⊥) →
        Told out.new state.old state.new (take out.new.used input.now) }
    // What it made of the input, and that the end comes nearer, or is kept.
    ensures moves { state.old.phase < 3 → (out.new.fault ≡ 90 → ⊥) →
        Moves out.new state.old state.new (length input.now) }
    ensures lent { out.new.kind ≡ 1 → out.new.offset + out.new.length ≤ out.new.used }
    ensures offset { (out.new.kind ≡ 1 → ⊥) → out.new.offset ≡ 0 }
    // After the end it returns that again.
    ensures ended { state.old.phase ≡ 2 → (out.new.fault ≡ 90 → ⊥) →
        (out.new.kind ≡ 5) × (out.new.used ≡ 0) × (state.new.phase ≡ 2) }
{
    if state.phase >= 3 {
        *out = again(state);
        return out.fault;
    }
    match puller_in(state) {
        None => {
            *out = refused(STATE, 0);
            STATE
        }
        Some(mut puller) => {
            let place = puller.walk.place();
            let pulled = puller.pull(input);
            *out = part_of(pulled.pull, pulled.used, place);
            *state = state_of(&puller);
            out.fault
        }
    }
}

/// The part after all others where the input has ended. 0, or the number of the fault: an image that is cut short has
/// fault 10.
#[unsafe(no_mangle)]
pub extern "C" fn abt_sparse_last(state: &mut AbtSparse, out: &mut AbtPart) -> u32
    ensures answers { Answered result out.new state.old state.new }
    ensures used { out.new.used ≡ 0 }
    ensures told { state.old.phase < 3 → (out.new.fault ≡ 90 → ⊥) → Ended out.new state.old state.new }
    // After each result but the end and a fault less is left to do; these two are kept, and returned again.
    ensures nears { state.old.phase < 3 → (out.new.fault ≡ 90 → ⊥) → Nears out.new state.old state.new }
    ensures ended { state.old.phase ≡ 2 → (out.new.fault ≡ 90 → ⊥) → out.new.kind ≡ 5 }
    ensures offset { out.new.offset ≡ 0 }
{
    if state.phase >= 3 {
        *out = again(state);
        return out.fault;
    }
    match puller_in(state) {
        None => {
            *out = refused(STATE, 0);
            STATE
        }
        Some(mut puller) => {
            let place = puller.walk.place();
            let part = puller.last();
            *out = part_of(Pull::Gives(part), 0, place);
            *state = state_of(&puller);
            out.fault
        }
    }
}

/// How large the image is, once its header has been read; before that all numbers are 0. 0, or the number of the fault
/// that the state keeps.
#[unsafe(no_mangle)]
pub extern "C" fn abt_sparse_size(state: &AbtSparse, out: &mut AbtSize) -> u32
    ensures kept { KeptFault result state.now }
    ensures refused { (result ≡ 0 → ⊥) → out.new ≡ no_size }
    ensures unread { state.now.phase ≡ 0 → out.new ≡ no_size }
    ensures block_size { 0 < state.now.phase → result ≡ 0 → out.new.block_size ≡ state.now.blk_sz }
    ensures blocks { 0 < state.now.phase → result ≡ 0 → out.new.blocks ≡ state.now.total_blks }
    ensures chunks { 0 < state.now.phase → result ≡ 0 → out.new.chunks ≡ state.now.total_chunks }
    ensures bytes { 0 < state.now.phase → result ≡ 0 → out.new.bytes ≡ state.now.total_blks * state.now.blk_sz }
{
    *out = AbtSize {
        bytes: 0,
        block_size: 0,
        blocks: 0,
        chunks: 0,
    };
    let fault = fault_of(state);
    if fault == 0 && state.phase > 0 {
        *out = AbtSize {
            bytes: u64::from(state.total_blks) * u64::from(state.blk_sz),
            block_size: state.blk_sz,
            blocks: state.total_blks,
            chunks: state.total_chunks,
        };
    }
    fault
}
