//! The columns of a card. Section 3.2.

ghost use Rattle.std.specs.Prelude.{◌≡◌, ◌<◌, ◌≤◌, ◌+◌, ◌++◌, length, take, drop, replicate};
ghost use Rattle.std.specs.List.{list_all};
ghost use Rattle.fortran_text.specs.Cards.{card_of, spread, tab_width};
ghost use Rattle.cards.specs.Passes.{seen, is_blank_or_tab};

use crate::lines::without_end;

/// The columns of a card that are read.
pub(crate) const COLUMNS: usize = 72;
/// The columns before the text of a card.
const FIELD: usize = 6;

/// Columns 1 to 72 of a card, filled with blanks, and the bytes of its line past them.
#[derive(Drop)]
pub(crate) struct CardBytes<'a> {
    pub(crate) columns: [u8; COLUMNS],
    pub(crate) past: &'a [u8],
}

/// The card of a line, which comes with its end.
#[tactic(auto, unfolding(fortran_text::specs::Cards::card_of, fortran_text::specs::Cards::columns_of, fortran_text::specs::Cards::past_of))]
pub(crate) fn card_of(line: &[u8]) -> CardBytes<'_>
    ensures { seen result ≡ card_of line.now }
{
    in_columns(without_end(line))
}

/// The card of a line without its end.
fn in_columns(line: &[u8]) -> CardBytes<'_>
    ensures columns { result.columns ≡ take 72 (spread 1 line.now ++ replicate 72 32) }
    ensures past { spread 73 result.past.now ≡ drop 72 (spread 1 line.now) }
{
    let mut columns = [b' '; COLUMNS];
    let mut column = 0;
    let mut past = line;
    while column < COLUMNS {
        let [first, behind @ ..] = past else { break };
        past = behind;
        if *first == b'\t' {
            column = behind_tab(column);
        } else {
            columns[column] = *first;
            column += 1;
        }
    }
    CardBytes { columns, past }
}

/// The column behind a tab, both counted from 0.
#[tactic(auto, unfolding(fortran_text::specs::Cards::tab_width))]
fn behind_tab(column: usize) -> usize
    requires { column < 72 }
    ensures { result ≡ column + tab_width (column + 1) }
{
    if column < FIELD { FIELD } else { column + 1 }
}

/// Whether bytes are blank where tabs are blanks, as past column 72.
pub(crate) fn is_blank_past(past: &[u8]) -> bool
    ensures { result ≡ list_all is_blank_or_tab past.now }
{
    past.iter().all(|b| is_blank_or_tab(*b))
}

/// Whether a byte is a blank or a tab.
fn is_blank_or_tab(b: u8) -> bool
    ensures { result ≡ is_blank_or_tab b }
{
    b == b' ' || b == b'\t'
}
