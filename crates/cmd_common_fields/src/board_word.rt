//! The argument of `--board-id`.

ghost use Rattle.std.specs.Prelude.{◌≡◌, ◌<◌, ◌^◌, ℕ, IfSome, Some};
ghost use Rattle.cmd_common_fields.specs.declared.board_word.BoardWord.{BoardWord};
ghost use Rattle.cmd_common_fields.specs.Board.{IsBoardWord, BoardFits};

use crate::os_word::number;

/// An argument `I:K=N`: number K of the board id of fragment I is N.
#[derive(Clone, Copy)]
pub struct BoardWord {
    /// The fragment, counted from 0.
    pub fragment: u32,
    /// Which of its sixteen numbers, from 0 to 15.
    pub place: u32,
    pub number: u32,
}

impl BoardWord {
    /// Reads an argument. Returns `None` where it has another format, K is above 15, or a number exceeds 32 bits.
    pub fn new(word: &str) -> Option<BoardWord>
        ensures value { IfSome result (λ b. IsBoardWord word.now b × BoardFits b) }
        ensures accepts { (b : BoardWord) → IsBoardWord word.now b → BoardFits b → result ≡ Some b }
    {
        let (fragment, rest) = word.split_once(':')?;
        let (place, value) = rest.split_once('=')?;
        let board = BoardWord {
            fragment: number(fragment)?,
            place: number(place)?,
            number: number(value)?,
        };
        if board.place < 16 { Some(board) } else { None }
    }
}
