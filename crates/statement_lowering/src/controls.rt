//! Lists of control words with their operands, and what is taken of an expression there and in the list of a transfer. Sections 12.8 and 12.10.

ghost use Rattle.std.specs.Prelude.{◌≡◌, ◌++◌, List, map, true, IfOk, OnOk, option_map, option_to_list};
ghost use Rattle.f_tree.specs.Facts as fact;
ghost use Rattle.f_tree.specs.Values.{IsInt};
ghost use Rattle.f_tree.specs.Terms as term;
ghost use Rattle.f_tree.specs.Uses.{heading_of};
ghost use Rattle.f_tree.specs.Reading.{read, name_or_none};
ghost use Rattle.f_tree.specs.Lines as lines;
ghost use Rattle.f_tree.specs.Lines.{Naming};
ghost use Rattle.lowered_tree.specs.l_core.Pures as core;
ghost use Rattle.lowering.specs.Expressions as low;
ghost use Rattle.lowered_tree.specs.Shapes as shapes;
ghost use Rattle.lowered_tree.specs.Shapes.{pure_of};
ghost use Rattle.expression_lowering.specs.declared.purpose.Aspect.TheVariants.{Actual};
ghost use Rattle.expression_lowering.specs.Purposes.{purpose_of};
ghost use Rattle.expression_lowering.specs.TableNames.{AreFactsOf, is_lowered_value};
ghost use Rattle.expression_lowering.specs.Outcomes.{IsLoweredFor, IsPlain};
ghost use Rattle.statement_lowering.specs.TransferForms as form;
ghost use Rattle.statement_lowering.specs.LoweredTransfers as spec;

use crate::assignments::{ahead, is_text_target};
use crate::loops::value_for;
use expression_lowering::{Lowered, Purpose, has_reference, is_lowered, lower_actual};
use f_tree::Expr;
use f_tree::names::Class;
use f_tree::statements::{Control, ControlValue, ControlWord, Direction};
use lowered_tree::{Controls, Literal, Pure, Step, Text, Word};
use name_facts::NameFacts;
use plain_data::{Boxed, Items};
use std::alloc::{AllocError, Global};

/// What is taken of an expression.
#[derive(Clone, Copy)]
pub(crate) enum Taken {
    /// Its value.
    Value,
    /// The place that it is, without the elements behind it.
    Alone,
    /// All elements of the array that it names.
    Whole,
}

/// What is taken of the expression after a control word.
#[derive(Clone, Copy)]
pub(crate) enum Manner {
    /// Its value.
    Value,
    /// What it is as an actual argument.
    Place,
    /// All elements where it names an array, a place alone where it is one, else its value.
    Settled,
    /// The same where it is of type CHARACTER, else its value.
    Unit,
}

/// The name that an expression is.
#[tactic(auto, using(crate::proofs::ControlForms::alone_forms))]
fn alone_name(e: &Expr) -> Option<&[u8]>
    ensures { option_map (λ x. x.now) result ≡ (heading_of e.now).alone }
{
    match e {
        Expr::Name(name) => Some(name.as_slice()),
        Expr::Int(_) | Expr::Logical(_) | Expr::Text(_) | Expr::Apply(_, _) => None,
        Expr::Part(_, _, _) | Expr::Minus(_) | Expr::Plus(_) | Expr::Not(_) => None,
        Expr::Paren(_) | Expr::Binary(_, _, _) | Expr::AltReturn(_) => None,
        Expr::Bind(_, _) | Expr::Bound(_) => None,
    }
}

/// Whether a name alone is a place whose value is fetched.
#[tactic(auto, unfolding(crate::specs::LoweredTransfers::is_variable))]
pub(crate) fn is_variable(class: Class) -> bool
    ensures { result ≡ spec.is_variable class }
{
    match class {
        Class::Constant | Class::Procedure | Class::DummyProcedure => false,
        Class::StatementFunction | Class::Intrinsic => false,
        Class::Stored | Class::Dummy | Class::Result | Class::Unit => true,
    }
}

/// Whether a name with a list is an element.
#[tactic(auto, unfolding(crate::specs::LoweredTransfers::is_element))]
pub(crate) fn is_element(class: Class) -> bool
    ensures { result ≡ spec.is_element class }
{
    match class {
        Class::Result | Class::Procedure | Class::DummyProcedure => false,
        Class::StatementFunction | Class::Intrinsic => false,
        Class::Constant | Class::Stored | Class::Dummy | Class::Unit => true,
    }
}

/// Whether an expression is a variable, an array or a part of one.
#[tactic(auto, using(crate::proofs::ControlForms::placed_forms))]
fn is_placed(table: &NameFacts, e: &Expr) -> bool
    ensures { result ≡ spec.is_placed table.now e.now }
{
    match e {
        Expr::Name(name) => is_variable(table.class(name.as_slice())),
        Expr::Apply(name, _) => is_element(table.class(name.as_slice())),
        Expr::Part(whole, _, _) => is_placed(table, whole.get()),
        Expr::Int(_) | Expr::Logical(_) | Expr::Text(_) | Expr::Minus(_) => false,
        Expr::Plus(_) | Expr::Not(_) | Expr::Paren(_) | Expr::Binary(_, _, _) => false,
        Expr::AltReturn(_) | Expr::Bind(_, _) | Expr::Bound(_) => false,
    }
}

/// Whether an expression is the name of an array.
pub(crate) fn names_array(table: &NameFacts, e: &Expr) -> bool
    ensures { (names : Naming) → AreFactsOf names table.now → result ≡ form.names_array names (heading_of e.now).alone }
{
    match alone_name(e) {
        Some(name) => table.rank(name) > 0,
        None => false,
    }
}

/// What is fetched later: all elements of an array, a place, or the value of any other expression.
pub(crate) fn settled(table: &NameFacts, e: &Expr) -> Taken
    requires { is_lowered_value table.now e.now ≡ true }
    ensures { (names : Naming) → AreFactsOf names table.now → form.taking result e.now names ≡ lines.settled names (read names e.now) }
{
    if names_array(table, e) {
        Taken::Whole
    } else if is_placed(table, e) {
        Taken::Alone
    } else {
        Taken::Value
    }
}

/// What is taken of the expression of a unit: that of an internal file is settled.
fn unit_taken(table: &NameFacts, e: &Expr) -> Taken
    requires { is_lowered_value table.now e.now ≡ true }
    ensures { (names : Naming) → AreFactsOf names table.now → form.taking result e.now names ≡ form.taking_by Manner.Unit e.now names }
{
    if is_text_target(table, e) {
        settled(table, e)
    } else {
        Taken::Value
    }
}

/// The name that an expression is, or an empty one.
#[tactic(auto, unfolding(f_tree::specs::Reading::name_or_none))]
fn name_of(alloc: Global, e: &Expr) -> Result<Text, AllocError>
    ensures { IfOk result (λ x. x ≡ name_or_none (heading_of e.now).alone) }
{
    match alone_name(e) {
        Some(name) => Items::from_slice(alloc, name),
        None => Ok(Items::new(alloc)),
    }
}

/// All elements of the array that an expression names.
#[tactic(auto, using(lowered_tree::proofs::ShapeForms::pure_forms))]
fn all_of(alloc: Global, free: usize, e: &Expr) -> Result<Lowered, AllocError>
    ensures { IfOk result (IsPlain (core.AllOf (name_or_none (heading_of e.now).alone)) free) }
{
    let name = name_of(alloc, e)?;
    Ok(Lowered {
        value: Pure::AllOf(name),
        free,
    })
}

/// A place, without the elements behind it.
#[tactic(auto, using(lowered_tree::proofs::ShapeForms::pure_forms))]
fn first_of(alloc: Global, place: Lowered) -> Result<Lowered, AllocError>
    ensures { IfOk result (IsPlain (core.FirstOf (pure_of place.value)) place.free) }
{
    Ok(Lowered {
        value: Pure::FirstOf(Boxed::new(alloc, place.value)?),
        free: place.free,
    })
}

/// Appends the steps of an expression as an actual argument, of a form that is lowered.
#[tactic(auto, unfolding(expression_lowering::specs::Outcomes::IsOutcome))]
pub(crate) fn place_for(
    alloc: Global,
    table: &NameFacts,
    purpose: Purpose,
    free: usize,
    e: &Expr,
    steps: &mut Vec<Step>,
) -> Result<Lowered, AllocError>
    ensures { IfOk result (IsLoweredFor table.now Actual purpose free e.now steps.old.items steps.new.items) }
{
    match lower_actual(alloc, table, purpose, free, e, steps) {
        Ok(place) => Ok(place),
        Err(_) => Err(AllocError),
    }
}

/// What the operands of a place are for: they are used when it is.
#[tactic(auto, unfolding(lowering::specs::Expressions::for_place))]
fn inside(purpose: Purpose) -> Purpose
    ensures { purpose_of result ≡ low.for_place (purpose_of purpose) }
{
    match purpose {
        Purpose::ForLater => Purpose::ForLater,
        Purpose::ForUse | Purpose::ForCall | Purpose::ForReading => Purpose::ForUse,
    }
}

/// Appends the steps of a place that is taken alone.
fn lower_alone(
    alloc: Global,
    table: &NameFacts,
    purpose: Purpose,
    free: usize,
    e: &Expr,
    steps: &mut Vec<Step>,
) -> Result<Lowered, AllocError>
    ensures { IfOk result (spec.IsLoweredTerm table.now (form.taking Taken.Alone e.now) (purpose_of purpose) free steps.old.items steps.new.items) }
{
    let place = place_for(alloc, table, inside(purpose), free, e, steps)?;
    first_of(alloc, place)
}

/// Appends the steps of what is taken of an expression.
pub(crate) fn lower_taken(
    alloc: Global,
    table: &NameFacts,
    taken: Taken,
    purpose: Purpose,
    free: usize,
    e: &Expr,
    steps: &mut Vec<Step>,
) -> Result<Lowered, AllocError>
    ensures { IfOk result (spec.IsLoweredTerm table.now (form.taking taken e.now) (purpose_of purpose) free steps.old.items steps.new.items) }
{
    match taken {
        Taken::Value => value_for(alloc, table, purpose, free, e, steps),
        Taken::Alone => lower_alone(alloc, table, purpose, free, e, steps),
        Taken::Whole => all_of(alloc, free, e),
    }
}

/// What is taken of the expression after a control word, where it takes one.
#[tactic(auto, unfolding(crate::specs::TransferForms::manner_of))]
fn manner_of(word: ControlWord) -> Option<Manner>
    ensures { result ≡ form.manner_of word }
{
    match word {
        ControlWord::Unit => Some(Manner::Unit),
        ControlWord::Format | ControlWord::File => Some(Manner::Settled),
        ControlWord::Status => Some(Manner::Place),
        ControlWord::FileStatus | ControlWord::Access => Some(Manner::Value),
        ControlWord::Form | ControlWord::Blank => Some(Manner::Value),
        ControlWord::OnError | ControlWord::OnEnd => None,
    }
}

/// Appends the steps of the expression after a control word.
fn lower_by(
    alloc: Global,
    table: &NameFacts,
    manner: Manner,
    purpose: Purpose,
    free: usize,
    e: &Expr,
    steps: &mut Vec<Step>,
) -> Result<Lowered, AllocError>
    requires { is_lowered_value table.now e.now ≡ true }
    ensures { IfOk result (spec.IsLoweredTerm table.now (form.taking_by manner e.now) (purpose_of purpose) free steps.old.items steps.new.items) }
{
    match manner {
        Manner::Value => value_for(alloc, table, purpose, free, e, steps),
        Manner::Place => place_for(alloc, table, purpose, free, e, steps),
        Manner::Settled => {
            let taken = settled(table, e);
            lower_taken(alloc, table, taken, purpose, free, e, steps)
        }
        Manner::Unit => {
            let taken = unit_taken(table, e);
            lower_taken(alloc, table, taken, purpose, free, e, steps)
        }
    }
}

/// Whether a control word is that of the unit.
#[tactic(auto, unfolding(crate::specs::TransferForms::is_unit))]
fn is_unit(word: ControlWord) -> bool
    ensures { result ≡ form.is_unit word }
{
    match word {
        ControlWord::Unit => true,
        ControlWord::Format | ControlWord::Status | ControlWord::OnError => false,
        ControlWord::OnEnd | ControlWord::File | ControlWord::FileStatus => false,
        ControlWord::Access | ControlWord::Form | ControlWord::Blank => false,
    }
}

/// A number that is written.
#[tactic(auto, using(lowered_tree::proofs::ShapeForms::pure_forms))]
fn constant(number: i32, free: usize) -> Lowered
    ensures { IsPlain (core.Constant (IsInt number)) free result }
{
    Lowered {
        value: Pure::Constant(Literal::Integer(number)),
        free,
    }
}

/// The standard unit. Section 12.9.
#[tactic(auto, unfolding(f_tree::specs::Lines::way_of, f_tree::specs::Lines::standard_unit))]
fn standard_unit(way: Direction, free: usize) -> Lowered
    ensures { IsPlain (core.Constant (IsInt (lines.standard_unit (lines.way_of way)))) free result }
{
    match way {
        Direction::Read => constant(5, free),
        Direction::Write => constant(6, free),
    }
}

/// The operand of a control word that has `*`.
fn star_operand(way: Direction, word: ControlWord, free: usize) -> Option<Lowered>
    ensures { (names : Naming) (purpose : low.Purpose) (steps : List Step) → spec.IsLoweredIf (form.operand_of (lines.way_of way) names word ControlValue.Star) purpose free steps steps result }
{
    if is_unit(word) {
        Some(standard_unit(way, free))
    } else {
        None
    }
}

/// Appends the steps of the expression after a control word, where the word takes one.
fn lower_after(
    alloc: Global,
    table: &NameFacts,
    way: Direction,
    word: ControlWord,
    purpose: Purpose,
    free: usize,
    e: &Expr,
    steps: &mut Vec<Step>,
) -> Result<Option<Lowered>, AllocError>
    requires { is_lowered_value table.now e.now ≡ true }
    ensures { IfOk result (λ o. (names : Naming) → AreFactsOf names table.now → spec.IsLoweredIf (form.operand_of (lines.way_of way) names word (ControlValue.Value e.now)) (purpose_of purpose) free steps.old.items steps.new.items o) }
{
    match manner_of(word) {
        None => Ok(None),
        Some(manner) => {
            let one = lower_by(alloc, table, manner, purpose, free, e, steps)?;
            Ok(Some(one))
        }
    }
}

/// Appends the steps of the operand of a control word, where it has one.
fn lower_operand(
    alloc: Global,
    table: &NameFacts,
    way: Direction,
    purpose: Purpose,
    free: usize,
    control: &Control,
    steps: &mut Vec<Step>,
) -> Result<Option<Lowered>, AllocError>
    requires { spec.value_lowers table.now control.now.value ≡ true }
    ensures { IfOk result (λ o. (names : Naming) → AreFactsOf names table.now → spec.IsLoweredIf (form.operand_of (lines.way_of way) names control.now.word control.now.value) (purpose_of purpose) free steps.old.items steps.new.items o) }
{
    match &control.value {
        ControlValue::Star => Ok(star_operand(way, control.word, free)),
        ControlValue::Label(_) => Ok(None),
        ControlValue::Value(e) => {
            lower_after(alloc, table, way, control.word, purpose, free, e, steps)
        }
    }
}

/// Puts a value behind others, where there is one, and answers the first temporary that is free then.
#[tactic(auto, unfolding(crate::specs::LoweredTransfers::IsAddedIf))]
fn add_value(
    one: Option<Lowered>,
    free: usize,
    values: &mut Items<Pure>,
) -> Result<usize, AllocError>
    ensures { IfOk result (spec.IsAddedIf one free values.old values.new) }
{
    match one {
        None => Ok(free),
        Some(one) => {
            values.push(one.value)?;
            Ok(one.free)
        }
    }
}

/// Whether the expression after a control word has a reference to a function, where the word takes one.
fn after_refers(table: &NameFacts, word: ControlWord, e: &Expr) -> bool
    requires { is_lowered_value table.now e.now ≡ true }
    ensures { (way : Direction) (names : Naming) → AreFactsOf names table.now → result ≡ term.any_refers (term.terms (option_to_list (form.operand_of (lines.way_of way) names word (ControlValue.Value e.now)))) }
{
    match manner_of(word) {
        None => false,
        Some(_) => has_reference(table, e),
    }
}

/// Whether the operand of a control word has a reference to a function.
fn operand_refers(table: &NameFacts, control: &Control) -> bool
    requires { spec.value_lowers table.now control.now.value ≡ true }
    ensures { (way : Direction) (names : Naming) → AreFactsOf names table.now → result ≡ term.any_refers (term.terms (option_to_list (form.operand_of (lines.way_of way) names control.now.word control.now.value))) }
{
    match &control.value {
        ControlValue::Star => false,
        ControlValue::Label(_) => false,
        ControlValue::Value(e) => after_refers(table, control.word, e),
    }
}

/// Whether the operand of any control word has a reference to a function.
fn any_refers(table: &NameFacts, controls: &[Control]) -> bool
    requires { spec.controls_lower table.now controls.now ≡ true }
    ensures { (way : Direction) (names : Naming) → AreFactsOf names table.now → result ≡ term.any_refers (term.terms (form.operands_in (lines.way_of way) controls.now names)) }
{
    for control in controls {
        if operand_refers(table, control) {
            return true;
        }
    }
    false
}

/// Appends the steps of the operands of a list of control words.
pub(crate) fn lower_controls(
    alloc: Global,
    table: &NameFacts,
    way: Direction,
    first: usize,
    controls: &[Control],
    steps: &mut Vec<Step>,
) -> Result<Items<Pure>, AllocError>
    requires { spec.controls_lower table.now controls.now ≡ true }
    ensures { IfOk result (spec.AreLoweredTerms table.now (form.operands_in (lines.way_of way) controls.now) low.ForUse first steps.old.items steps.new.items) }
{
    let mut values = Items::new(alloc);
    let mut free = first;
    for (at, control) in controls.iter().enumerate() {
        let wanted = ahead(any_refers(table, &controls[at + 1..]));
        let one = lower_operand(alloc, table, way, wanted, free, control, steps)?;
        let behind = add_value(one, free, &mut values)?;
        free = behind;
    }
    Ok(values)
}

/// Whether what stands after a control word is lowered.
#[tactic(auto, unfolding(crate::specs::LoweredTransfers::value_lowers))]
fn value_lowers(table: &NameFacts, value: &ControlValue) -> bool
    ensures { result ≡ spec.value_lowers table.now value.now }
{
    match value {
        ControlValue::Star | ControlValue::Label(_) => true,
        ControlValue::Value(e) => is_lowered(table, e),
    }
}

/// Whether a list of control words is lowered.
#[tactic(auto, unfolding(crate::specs::LoweredTransfers::controls_lower, expression_lowering::specs::TableNames::all_lower))]
pub(crate) fn controls_lower(table: &NameFacts, controls: &[Control]) -> bool
    ensures { result ≡ spec.controls_lower table.now controls.now }
{
    for control in controls {
        if !value_lowers(table, &control.value) {
            return false;
        }
    }
    true
}

/// The word that has `*` for its operand.
#[tactic(auto, unfolding(crate::specs::TransferForms::star_word))]
fn star_word(word: ControlWord) -> Option<Word>
    ensures { option_map shapes.word_of result ≡ form.star_word word }
{
    match word {
        ControlWord::Unit => Some(Word::Unit),
        ControlWord::Format | ControlWord::Status | ControlWord::OnError => None,
        ControlWord::OnEnd | ControlWord::File | ControlWord::FileStatus => None,
        ControlWord::Access | ControlWord::Form | ControlWord::Blank => None,
    }
}

/// The word that has an expression for its operand.
#[tactic(auto, unfolding(crate::specs::TransferForms::word_before))]
fn word_before(word: ControlWord) -> Option<Word>
    ensures { option_map shapes.word_of result ≡ form.word_before word }
{
    match word {
        ControlWord::Unit => Some(Word::Unit),
        ControlWord::Format => Some(Word::Format),
        ControlWord::Status => Some(Word::Status),
        ControlWord::File => Some(Word::File),
        ControlWord::FileStatus => Some(Word::FileStatus),
        ControlWord::Access => Some(Word::Access),
        ControlWord::Form => Some(Word::Form),
        ControlWord::Blank => Some(Word::Blank),
        ControlWord::OnError | ControlWord::OnEnd => None,
    }
}

/// The word whose operand stands among those of its statement.
#[tactic(auto, unfolding(crate::specs::TransferForms::word_of))]
fn word_of(control: &Control) -> Option<Word>
    ensures { option_map shapes.word_of result ≡ form.word_of control.now.word control.now.value }
{
    match &control.value {
        ControlValue::Star => star_word(control.word),
        ControlValue::Label(_) => None,
        ControlValue::Value(_) => word_before(control.word),
    }
}

/// Puts a word behind others, where there is one.
fn add_word(word: Option<Word>, words: &mut Items<Word>) -> Result<(), AllocError>
    ensures { OnOk result (map shapes.word_of words.new ≡ map shapes.word_of words.old ++ option_to_list (option_map shapes.word_of word)) }
{
    match word {
        None => Ok(()),
        Some(word) => words.push(word),
    }
}

/// The words of a list whose operands stand among those of the statement.
fn words_in(alloc: Global, controls: &[Control]) -> Result<Items<Word>, AllocError>
    ensures { IfOk result (λ words. (way : fact.Direction) (names : Naming) → map shapes.word_of words ≡ (lines.controls_written way names controls.now).words) }
{
    let mut words = Items::new(alloc);
    for control in controls {
        add_word(word_of(control), &mut words)?;
    }
    Ok(words)
}

/// The label of a control word.
#[tactic(auto, unfolding(crate::specs::TransferForms::label_of))]
fn label_of(value: &ControlValue) -> Option<u32>
    ensures { result ≡ form.label_of value.now }
{
    match value {
        ControlValue::Label(label) => Some(*label),
        ControlValue::Star | ControlValue::Value(_) => None,
    }
}

/// The label of ERR.
#[tactic(auto, unfolding(crate::specs::TransferForms::error_of))]
fn error_of(control: &Control) -> Option<u32>
    ensures { result ≡ form.error_of control.now.word control.now.value }
{
    match control.word {
        ControlWord::OnError => label_of(&control.value),
        ControlWord::Unit | ControlWord::Format | ControlWord::Status => None,
        ControlWord::OnEnd | ControlWord::File | ControlWord::FileStatus => None,
        ControlWord::Access | ControlWord::Form | ControlWord::Blank => None,
    }
}

/// The label of END.
#[tactic(auto, unfolding(crate::specs::TransferForms::end_of))]
fn end_of(control: &Control) -> Option<u32>
    ensures { result ≡ form.end_of control.now.word control.now.value }
{
    match control.word {
        ControlWord::OnEnd => label_of(&control.value),
        ControlWord::Unit | ControlWord::Format | ControlWord::Status => None,
        ControlWord::OnError | ControlWord::File | ControlWord::FileStatus => None,
        ControlWord::Access | ControlWord::Form | ControlWord::Blank => None,
    }
}

/// The label of ERR in a list.
fn error_in(controls: &[Control]) -> Option<u32>
    ensures { (way : fact.Direction) (names : Naming) → result ≡ (lines.controls_written way names controls.now).on_error }
{
    for control in controls {
        match error_of(control) {
            Some(label) => return Some(label),
            None => {}
        }
    }
    None
}

/// The label of END in a list.
fn end_in(controls: &[Control]) -> Option<u32>
    ensures { (way : fact.Direction) (names : Naming) → result ≡ (lines.controls_written way names controls.now).on_end }
{
    for control in controls {
        match end_of(control) {
            Some(label) => return Some(label),
            None => {}
        }
    }
    None
}

/// A list of control words as steps have it.
pub(crate) fn written(alloc: Global, controls: &[Control]) -> Result<Controls, AllocError>
    ensures { IfOk result (λ c. (way : fact.Direction) (names : Naming) → shapes.controls_of c ≡ lines.controls_of (lines.controls_written way names controls.now)) }
{
    let words = words_in(alloc, controls)?;
    let on_error = error_in(controls);
    let on_end = end_in(controls);
    Ok(Controls {
        words,
        on_error,
        on_end,
    })
}
