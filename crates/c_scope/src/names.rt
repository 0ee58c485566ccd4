//! Which texts are names.

ghost use Rattle.std.specs.Prelude.{◌≡◌, bytes_eq};
ghost use Rattle.std.specs.List.{list_any, list_all};
ghost use Rattle.c_lexer.specs.c_tree.Tokens.{begins_with, is_letter, is_word_byte};
ghost use Rattle.c_lexer.specs.c_tree.CWords as spec;

use c_lexer::{is_letter, is_word_byte};

/// The words of the grammar and of C89 (3.1.1), which are no names.
static WORDS: [&[u8]; 52] = [
    b"integer",
    b"logical",
    b"char",
    b"unsigned",
    b"int",
    b"VOID",
    b"void",
    b"static",
    b"extern",
    b"ftnlen",
    b"ftnint",
    b"address",
    b"S_fp",
    b"I_fp",
    b"L_fp",
    b"U_fp",
    b"cilist",
    b"icilist",
    b"olist",
    b"cllist",
    b"alist",
    b"goto",
    b"return",
    b"if",
    b"else",
    b"switch",
    b"case",
    b"for",
    b"do",
    b"while",
    b"sizeof",
    b"max",
    b"min",
    b"abs",
    b"TRUE_",
    b"FALSE_",
    b"auto",
    b"break",
    b"const",
    b"continue",
    b"default",
    b"double",
    b"enum",
    b"float",
    b"long",
    b"register",
    b"short",
    b"signed",
    b"struct",
    b"typedef",
    b"union",
    b"volatile",
];

/// Whether a text is one of these words.
fn is_among(text: &[u8], words: &[&[u8]]) -> bool
    ensures { result ≡ list_any (λ word. bytes_eq text.now word.now) words.now }
{
    words.iter().any(|word| text == *word)
}

/// Whether a text is a word of the grammar or of C89.
fn is_word(text: &[u8]) -> bool
    ensures { result ≡ spec.is_among text.now spec.words }
{
    is_among(text, &WORDS)
}

/// Whether a text begins with a letter or an underscore.
fn begins_with_letter(text: &[u8]) -> bool
    ensures { result ≡ begins_with is_letter text.now }
{
    match text {
        [first, ..] => is_letter(*first),
        [] => false,
    }
}

/// Whether all bytes of a text may stand in a name.
fn are_word_bytes(text: &[u8]) -> bool
    ensures { result ≡ list_all is_word_byte text.now }
{
    text.iter().all(|byte| is_word_byte(*byte))
}

/// Whether a text is a name: a letter or an underscore with letters, digits and underscores behind it, and no word of the grammar or of C89.
pub fn is_name(text: &[u8]) -> bool
    ensures { result ≡ spec.is_name text.now }
{
    begins_with_letter(text) && are_word_bytes(text) && !is_word(text)
}
