//! Whether a name is short for another of a table.

ghost use Rattle.std.specs.Prelude.{◌≡◌, ◌==◌, map};
ghost use Rattle.std.specs.List.{list_all, starts_with};
ghost use Rattle.words_sayings.specs.Rows.{shape_of};
ghost use Rattle.words_sayings.specs.Words.{is_only, is_short_of};

use words_values::Row;

/// Whether this is a prefix of the name, and of no other.
pub(crate) fn is_short_of(rows: &[Row], short: &str, name: &str) -> bool
    ensures { result ≡ is_short_of (map shape_of rows.now) short.now name.now }
{
    begins(name, short) && is_only(rows, short, name)
}

/// Whether a text begins with another.
pub(crate) fn begins(name: &str, front: &str) -> bool
    ensures { result ≡ starts_with ◌==◌ name.now front.now }
{
    name.starts_with(front)
}

fn is_only(rows: &[Row], short: &str, name: &str) -> bool
    ensures { result ≡ list_all (is_only short.now name.now) (map shape_of rows.now) }
{
    for row in rows {
        if !is_this(row, short, name) {
            return false;
        }
    }
    true
}

// Whether a row has this name, or one that doesn't begin so.
fn is_this(row: &Row, short: &str, name: &str) -> bool
    ensures { result ≡ is_only short.now name.now (shape_of row.now) }
{
    row.name == name || !begins(row.name, short)
}
