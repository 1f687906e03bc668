//! The rows of a text.
ghost use Rattle.std.specs.Prelude.{◌≡◌};
ghost use Rattle.room_script.specs.Grammar.{is_skipped};
ghost use Rattle.room_script.specs.Rows.{row_of, behind_row};

/// What stands before the first line feed, and what behind it; the last row may lack its own.
pub(crate) fn cut_row(text: &[u8]) -> (&[u8], &[u8])
    ensures row { result.0.now ≡ row_of text.now }
    ensures behind { result.1.now ≡ behind_row text.now }
{
    for at in 0..text.len() {
        if text[at] == b'\n' {
            return (&text[..at], &text[at + 1..]);
        }
    }
    (text, &text[text.len()..])
}

/// An empty row, or one that begins with `#`.
pub(crate) fn is_skipped(row: &[u8]) -> bool
    ensures { result ≡ is_skipped row.now }
{
    match row {
        [] => true,
        [first, ..] => *first == b'#',
    }
}
