//! The board ids of ramdisk fragments, as the arguments of `--board-id` set them.

ghost use Rattle.std.specs.Prelude.{◌≡◌, ◌<◌, ◌↔◌, IsTrue, IfErr, OnOk, Contains, false, length, map};
ghost use Rattle.cmd_common_fields.specs.Board.{BoardFits, IsBoardWord};
ghost use Rattle.cmd_common_boot.specs.Boards.{AreSet, IsSet, with_board};

use abt_sections::FragmentSpec;
use cmd_common_fields::BoardWord;

/// Sets the numbers of the arguments, in order. Fails with the first that is invalid, or whose fragment is missing.
pub fn set_board_ids<'a>(specs: &mut [FragmentSpec], words: &[&'a str]) -> Result<(), &'a str>
    ensures same { length specs.new ≡ length specs.old }
    ensures set { OnOk result (AreSet (map (λ w. w.now) words.now) specs.old specs.new) }
    ensures refused { IfErr result (λ word. Contains (map (λ w. w.now) words.now) word.now ×
        ((b : BoardWord) → IsBoardWord word.now b → BoardFits b → b.fragment < length specs.old → ⊥)) }
{
    for word in words {
        if !set_by_word(specs, word) {
            return Err(word);
        }
    }
    Ok(())
}

/// Sets the number that an argument encodes. Returns whether it is valid and its fragment exists.
fn set_by_word(specs: &mut [FragmentSpec], word: &str) -> bool
    ensures set { IsTrue result → IsSet word.now specs.old specs.new }
    ensures refused { result ≡ false →
        (b : BoardWord) → IsBoardWord word.now b → BoardFits b → b.fragment < length specs.old → ⊥ }
{
    match BoardWord::new(word) {
        Some(board) => set_board_id(specs, board),
        None => false,
    }
}

/// Sets a number of the fragment that the argument names, and returns whether that fragment exists.
fn set_board_id(specs: &mut [FragmentSpec], board: BoardWord) -> bool
    requires { board.place < 16 }
    ensures named { IsTrue result ↔ (board.fragment < length specs.old) }
    ensures set { specs.new ≡ with_board specs.old board }
{
    let i = board.fragment as usize;
    if i >= specs.len() {
        return false;
    }
    let mut spec = specs[i];
    spec.board_id[board.place as usize] = board.number;
    specs[i] = spec;
    true
}
