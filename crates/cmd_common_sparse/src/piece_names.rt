//! The names of the files of pieces.

ghost use Rattle.std.specs.Prelude.{◌↔◌, IsTrue, All};
ghost use Rattle.cmd_common_sparse.specs.PieceNames.{IsDigit, IsPieceName};

/// Whether a path is that of a piece: PREFIX, a point and digits.
pub fn is_piece_name(path: &str, prefix: &str) -> bool
    ensures { IsTrue result ↔ IsPieceName prefix.now path.now }
{
    let Some(rest) = path.strip_prefix(prefix) else {
        return false;
    };
    match rest.strip_prefix('.') {
        Some(digits) => !digits.is_empty() && are_digits(digits.as_bytes()),
        None => false,
    }
}

fn are_digits(text: &[u8]) -> bool
    ensures { IsTrue result ↔ All IsDigit text.now }
{
    text.iter().all(|byte| byte.is_ascii_digit())
}
