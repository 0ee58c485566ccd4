//! The texts of written formats. Sections 13.1 and 13.5.
#![tactic(auto)]

ghost use Rattle.std.specs.Prelude.{◌≡◌, IfOk, is_some};
ghost use Rattle.std.specs.List.{list_any};
ghost use Rattle.f_tree.specs.Attributes.{option_list};
ghost use Rattle.edit_rules.specs.edit_meaning.FormatTexts.{format_of};
ghost use Rattle.declaration_rows.specs.FormatRows as rows;

use edit_rules::check_format;
use f_tree::Kind;
use fortran_text::Character;
use found_rows::unless;
use std::alloc::{AllocError, Global};
use stmt_lex::squeezed;

/// Whether a character is a letter of an edit descriptor of real or complex data: F, E, D or G outside texts. Section 13.5.9.
#[tactic(auto, unfolding(declaration_rows::specs::FormatRows::is_real_letter))]
fn is_real_letter(c: &Character) -> bool
    ensures { result ≡ rows.is_real_letter c.now }
{
    !c.quoted && (c.code == b'f' || c.code == b'e' || c.code == b'd' || c.code == b'g')
}

/// Whether characters have such a letter.
fn have_real_letter(characters: &[Character]) -> bool
    ensures { result ≡ list_any rows.is_real_letter characters.now }
{
    characters.iter().any(is_real_letter)
}

/// Whether the text of a format has such a letter.
#[tactic(auto, unfolding(declaration_rows::specs::FormatRows::has_real_letter))]
fn has_real_letter(alloc: Global, text: &[u8]) -> Result<bool, AllocError>
    ensures { IfOk result (λ has. has ≡ rows.has_real_letter text.now) }
{
    let characters = squeezed(alloc, true, text)?;
    Ok(have_real_letter(characters.as_slice()))
}

/// Whether a text begins with a format.
fn is_format(text: &[u8]) -> bool
    ensures { result ≡ is_some (format_of text.now) }
{
    check_format(text).is_ok()
}

/// The row that the text of a written format breaks, if it breaks one. An error where memory ran out.
#[tactic(auto, unfolding(declaration_rows::specs::FormatRows::format_text_rows, f_tree::specs::Attributes::option_list))]
pub(crate) fn text_fault(alloc: Global, text: &[u8]) -> Result<Option<Kind>, AllocError>
    ensures { IfOk result (λ fault. option_list fault ≡ rows.format_text_rows text.now) }
{
    if has_real_letter(alloc, text)? {
        return Ok(Some(Kind::EditDescriptorNotSupported));
    }
    Ok(unless(is_format(text), Kind::BadFormat))
}
