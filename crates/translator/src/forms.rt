//! The forms of statements that are translated: no shared storage, no initial values, no type CHARACTER, and no input or
//! output but by lists. Sections 8 to 12 and 15.

ghost use Rattle.std.specs.List.{list_all};
ghost use Rattle.std.specs.Prelude.{◌≡◌};
ghost use Rattle.f_tree.specs.Folds.{fold_item};
ghost use Rattle.f_tree.specs.declared.statements.Control.{Control as WrittenControl};
ghost use Rattle.translated_forms.specs.TranslatedForms as spec;
ghost use Rattle.translated_files.specs.TranslatedFiles as files;

use f_tree::Basic;
use f_tree::statements::{Body, Control, ControlValue, ControlWord, Direction, ListItem};

/// Whether a type is one of numbers or truth values, or none is written.
#[tactic(auto, unfolding(translated_forms::specs::TranslatedForms::is_number))]
fn is_number(basic: Basic) -> bool
    ensures { result ≡ spec.is_number basic }
{
    match basic {
        Basic::Character => false,
        Basic::Integer | Basic::Logical | Basic::Untyped => true,
    }
}

/// Whether a value is `*`.
#[tactic(auto, unfolding(translated_forms::specs::TranslatedForms::is_star))]
fn is_star(value: &ControlValue) -> bool
    ensures { result ≡ spec.is_star value.now }
{
    match value {
        ControlValue::Star => true,
        ControlValue::Label(_) | ControlValue::Value(_) => false,
    }
}

/// Whether a control word is a unit, or the format `*`.
#[tactic(auto, unfolding(translated_forms::specs::TranslatedForms::is_plain_word))]
fn is_plain_word(word: ControlWord, value: &ControlValue) -> bool
    ensures { result ≡ spec.is_plain_word word value.now }
{
    match word {
        ControlWord::Unit => true,
        ControlWord::Format => is_star(value),
        ControlWord::Status | ControlWord::OnError | ControlWord::OnEnd => false,
        ControlWord::File | ControlWord::FileStatus | ControlWord::Access => false,
        ControlWord::Form | ControlWord::Blank => false,
    }
}

/// Whether control words are units, and the format `*`.
fn are_plain_words(controls: &[Control]) -> bool
    ensures { result ≡ list_all (λ (c : WrittenControl). spec.is_plain_word c.word c.value) controls.now }
{
    controls
        .iter()
        .all(|control| is_plain_word(control.word, &control.value))
}

/// Whether an item is no implied DO.
#[tactic(auto, unfolding(translated_forms::specs::TranslatedForms::layer_single), using(crate::proofs::FormLemmas::item_forms))]
fn is_single(item: &ListItem) -> bool
    ensures { result ≡ fold_item spec.layer_single item.now }
{
    match item {
        ListItem::Item(_) => true,
        ListItem::Loop(_, _) => false,
    }
}

/// Whether no item is an implied DO.
fn are_single(items: &[ListItem]) -> bool
    ensures { result ≡ list_all (fold_item spec.layer_single) items.now }
{
    items.iter().all(|item| is_single(item))
}

/// Whether a transfer is output.
#[tactic(auto, unfolding(translated_forms::specs::TranslatedForms::is_output))]
fn is_output(direction: Direction) -> bool
    ensures { result ≡ spec.is_output direction }
{
    match direction {
        Direction::Write => true,
        Direction::Read => false,
    }
}

/// Whether a transfer is list-directed output.
#[tactic(auto, unfolding(translated_forms::specs::TranslatedForms::is_listed))]
fn is_listed(direction: Direction, controls: &[Control], items: &[ListItem]) -> bool
    ensures { result ≡ spec.is_listed direction controls.now items.now }
{
    is_output(direction) && (are_plain_words(controls) && are_single(items))
}

/// Whether a statement is of a form that is translated, as is the statement of a logical IF.
#[cycle(forms)]
#[tactic(auto, using(crate::proofs::FormLemmas::body_forms))]
pub(crate) fn is_translated_form(body: &Body) -> bool
    ensures { result ≡ files.is_translated_form body.now }
{
    match body {
        Body::Declare(written, _) => is_number(written.basic),
        Body::Common(_) | Body::Equivalence(_) | Body::Init(_) | Body::Entry(..) => false,
        Body::Auxiliary(..) | Body::Include(_) => false,
        Body::IfOne(_, body) => is_translated_form(body.get()),
        Body::Transfer(direction, controls, items) => {
            is_listed(*direction, controls.as_slice(), items.as_slice())
        }
        _ => true,
    }
}
