//! Lists of control information. Sections 12.8.1 and 12.10.

ghost use Rattle.std.specs.Prelude.{◌≡◌};
ghost use Rattle.declaration_rows.specs.StatementRows.{any_word, is_unit_word, is_format_word};
ghost use Rattle.statement_judge.specs.StatementSteps as spec;

use crate::site::Site;
use crate::targets::{branch, target};
use expression_judge::{Found, Operand, is_same_basic, judge, one_wanted, with_wanted};
use f_tree::{Basic, Control, ControlValue, ControlWord, Expr, Kind};
use kind_order::unless;
use refusal_order::lesser_of;

/// The row that an operand breaks where a text is wanted.
#[tactic(auto, unfolding(crate::specs::StatementSteps::text_one_found))]
fn text_one(what: Operand) -> Option<Kind>
    ensures { result ≡ spec.text_one_found what }
{
    match what {
        Operand::Value | Operand::Place => None,
        Operand::Array(sized) => unless(sized, Kind::NumberOfSubscripts),
        Operand::ProcedureName | Operand::FunctionName => Some(Kind::OperandTypes),
        Operand::Exit(_) | Operand::Nothing => Some(Kind::OperandTypes),
    }
}

/// The least row of a text; `kind` says which row another type breaks.
#[tactic(auto, unfolding(crate::specs::StatementSteps::text_found))]
fn text(kind: Kind, found: Found) -> Option<Kind>
    ensures { result ≡ spec.text_found kind found }
{
    let typed = unless(is_same_basic(found.basic, Basic::Character), kind);
    lesser_of(found.fault, lesser_of(text_one(found.what), typed))
}

/// The row that an operand breaks as the number of a unit.
#[tactic(auto, unfolding(crate::specs::StatementSteps::number_found))]
fn number(what: Operand, basic: Basic) -> Option<Kind>
    ensures { result ≡ spec.number_found what basic }
{
    let typed = unless(is_same_basic(basic, Basic::Integer), Kind::OperandTypes);
    lesser_of(one_wanted(what), typed)
}

/// The row that an operand of type CHARACTER breaks as an internal file.
#[tactic(auto, unfolding(crate::specs::StatementSteps::file_found))]
fn internal_file(what: Operand) -> Option<Kind>
    ensures { result ≡ spec.file_found what }
{
    match what {
        Operand::Place => None,
        Operand::Array(sized) => unless(sized, Kind::NumberOfSubscripts),
        Operand::Value | Operand::ProcedureName => number(what, Basic::Character),
        Operand::FunctionName | Operand::Exit(_) | Operand::Nothing => {
            number(what, Basic::Character)
        }
    }
}

/// Whether a type is CHARACTER.
#[tactic(auto, unfolding(crate::specs::StatementSteps::is_text_type))]
fn is_text_type(basic: Basic) -> bool
    ensures { result ≡ spec.is_text_type basic }
{
    match basic {
        Basic::Character => true,
        Basic::Integer | Basic::Logical | Basic::Untyped => false,
    }
}

/// The row that an operand breaks as an internal file or the number of a unit.
#[tactic(auto, unfolding(crate::specs::StatementSteps::file_or_number_found))]
fn file_or_number(what: Operand, basic: Basic) -> Option<Kind>
    ensures { result ≡ spec.file_or_number_found what basic }
{
    if is_text_type(basic) {
        internal_file(what)
    } else {
        number(what, basic)
    }
}

/// The least row of a unit; `files` says whether it may be an internal file.
#[tactic(auto, unfolding(crate::specs::StatementSteps::unit_found))]
fn unit(files: bool, found: Found) -> Option<Kind>
    ensures { result ≡ spec.unit_found files found }
{
    if files {
        lesser_of(found.fault, file_or_number(found.what, found.basic))
    } else {
        with_wanted(Basic::Integer, found)
    }
}

/// The least row of a text value.
#[tactic(auto, unfolding(crate::specs::StatementSteps::text_by))]
fn text_value(site: &Site, e: &Expr) -> Option<Kind>
    ensures { result ≡ spec.text_by site.now e.now }
{
    with_wanted(Basic::Character, judge(site.names, e))
}

/// The least row of a control word with an expression.
#[tactic(auto, unfolding(crate::specs::StatementSteps::expression_by))]
fn expression(site: &Site, files: bool, word: ControlWord, e: &Expr) -> Option<Kind>
    ensures { result ≡ spec.expression_by site.now files word e.now }
{
    match word {
        ControlWord::Unit => unit(files, judge(site.names, e)),
        ControlWord::Format => text(Kind::BadFormat, judge(site.names, e)),
        ControlWord::Status => target(Basic::Integer, judge(site.names, e)),
        ControlWord::OnError | ControlWord::OnEnd => Some(Kind::SyntaxError),
        ControlWord::File => text(Kind::OperandTypes, judge(site.names, e)),
        ControlWord::FileStatus | ControlWord::Access => text_value(site, e),
        ControlWord::Form | ControlWord::Blank => text_value(site, e),
    }
}

/// The row of a control word with a label.
#[tactic(auto, unfolding(crate::specs::StatementSteps::label_by))]
fn label(site: &Site, word: ControlWord, label: u32) -> Option<Kind>
    ensures { result ≡ spec.label_by site.now word label }
{
    match word {
        ControlWord::Format => unless(site.is_format(label), Kind::LabelMissingOrTwice),
        ControlWord::OnError | ControlWord::OnEnd => branch(site, label),
        ControlWord::Unit | ControlWord::Status | ControlWord::File => Some(Kind::SyntaxError),
        ControlWord::FileStatus | ControlWord::Access => Some(Kind::SyntaxError),
        ControlWord::Form | ControlWord::Blank => Some(Kind::SyntaxError),
    }
}

/// The row of a control word with `*`.
#[tactic(auto, unfolding(crate::specs::StatementSteps::star_by))]
fn star(word: ControlWord) -> Option<Kind>
    ensures { result ≡ spec.star_by word }
{
    match word {
        ControlWord::Unit | ControlWord::Format => None,
        ControlWord::Status | ControlWord::OnError | ControlWord::OnEnd => Some(Kind::SyntaxError),
        ControlWord::File | ControlWord::FileStatus => Some(Kind::SyntaxError),
        ControlWord::Access | ControlWord::Form | ControlWord::Blank => Some(Kind::SyntaxError),
    }
}

/// The least row of a control word with its value.
#[tactic(auto, unfolding(crate::specs::StatementSteps::control_by))]
fn control_value(site: &Site, files: bool, word: ControlWord, value: &ControlValue) -> Option<Kind>
    ensures { result ≡ spec.control_by site.now files word value.now }
{
    match value {
        ControlValue::Star => star(word),
        ControlValue::Label(at) => label(site, word, *at),
        ControlValue::Value(e) => expression(site, files, word, e),
    }
}

/// The least row of a list of control information; `files` says whether its unit may be an internal file.
#[tactic(auto, unfolding(crate::specs::StatementSteps::controls_by, crate::specs::StatementSteps::controls_onward))]
pub(crate) fn controls(site: &Site, files: bool, list: &[Control]) -> Option<Kind>
    ensures { result ≡ spec.controls_by site.now files list.now }
{
    let mut fault = None;
    for one in list {
        fault = lesser_of(fault, control_value(site, files, one.word, &one.value));
    }
    fault
}

/// Whether a list has UNIT.
#[tactic(auto, unfolding(declaration_rows::specs::StatementRows::any_word, declaration_rows::specs::StatementRows::is_unit_word))]
pub(crate) fn has_unit(list: &[Control]) -> bool
    ensures { result ≡ any_word is_unit_word list.now }
{
    for one in list {
        if matches!(one.word, ControlWord::Unit) {
            return true;
        }
    }
    false
}

/// Whether a list has FMT.
#[tactic(auto, unfolding(declaration_rows::specs::StatementRows::any_word, declaration_rows::specs::StatementRows::is_format_word))]
pub(crate) fn has_format(list: &[Control]) -> bool
    ensures { result ≡ any_word is_format_word list.now }
{
    for one in list {
        if matches!(one.word, ControlWord::Format) {
            return true;
        }
    }
    false
}
