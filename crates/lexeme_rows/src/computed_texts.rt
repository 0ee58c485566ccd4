//! Texts of statements with their kinds, pieces and rows. A function here does nothing, and its contract is the rows.
ghost use Rattle.std.specs.Prelude.{◌≡◌, map};
ghost use Rattle.lexeme_rows.specs.KindRows as kind_rows;
ghost use Rattle.lexeme_rows.specs.PieceRows as piece_rows;
ghost use Rattle.lexeme_rows.specs.RefusedTexts as refused_texts;

/// Which statement a text is, where a keyword is not enough to tell.
pub fn kinds_of_hard_texts()
    ensures { map kind_rows.found kind_rows.rows ≡ map kind_rows.wanted kind_rows.rows }
{}

/// The pieces of a text, for each place at which a word of a statement may stand and for each piece of its own.
pub fn pieces_of_texts()
    ensures { map piece_rows.found piece_rows.rows ≡ map piece_rows.wanted piece_rows.rows }
{}

/// The first row by which a text is refused before any form is asked for.
pub fn rows_of_texts()
    ensures { map refused_texts.found refused_texts.rows ≡ map refused_texts.wanted refused_texts.rows }
{}
