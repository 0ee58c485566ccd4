//! What a unit is, as text.

use crate::Stop;
use crate::names::{FactText, text_of};
use crate::source::Source;
use decl_table::name_facts;
use f_tree::{Options, Refusal, Unit, UnitKind};
use name_facts::NameFacts;
use name_places::all_names;
use name_uses::array_set;
use unit_judge::unit_fault;

/// The word for the kind of a unit.
fn kind_word(kind: &UnitKind) -> &'static str {
    match kind {
        UnitKind::Main => "main program",
        UnitKind::Subroutine => "subroutine",
        UnitKind::Function(_) => "function",
        UnitKind::BlockData => "block data",
    }
}

/// Prints the title of a unit, with its kind and its name.
fn print_title(rt: &HostRuntime, title: &str, unit: &Unit) -> Result<(), Stop> {
    let kind = kind_word(&unit.kind);
    match &unit.name {
        Some(name) => {
            let name = text_of(name.as_slice());
            rt.println(format_args!("== {title}: {kind} {name}"))?;
        }
        None => rt.println(format_args!("== {title}: {kind}"))?,
    }
    Ok(())
}

/// Prints what a name is.
fn print_name(rt: &HostRuntime, facts: &NameFacts, name: &[u8]) -> Result<(), Stop> {
    let text = text_of(name);
    match facts.get(name) {
        Some(fact) => rt.println(format_args!("   {text}: {}", FactText(fact)))?,
        None => rt.println(format_args!("   {text}: nothing"))?,
    }
    Ok(())
}

/// Prints what each name of a unit is.
fn print_names(rt: &HostRuntime, unit: &Unit) -> Result<(), Stop> {
    let arrays = array_set(rt.alloc(), unit)?;
    let facts = name_facts(rt.alloc(), unit)?;
    let names = all_names(rt.alloc(), &arrays, unit)?;
    for name in names.iter() {
        print_name(rt, &facts, name)?;
    }
    Ok(())
}

/// Prints a row that a unit breaks, with its card.
fn print_refusal(rt: &HostRuntime, source: &Source, refusal: Refusal) -> Result<(), Stop> {
    let number = refusal.kind.number();
    let words = text_of(refusal.kind.text());
    let card = refusal.card;
    let line = source.card(card).trim();
    rt.println(format_args!("   F{number} {words}, card {card}: {line}"))?;
    Ok(())
}

/// Prints the first row that a unit breaks, if it breaks one.
fn print_fault(
    rt: &HostRuntime,
    source: &Source,
    options: Options,
    unit: &Unit,
) -> Result<(), Stop> {
    match unit_fault(rt.alloc(), options, unit)? {
        Some(refusal) => print_refusal(rt, source, refusal),
        None => Ok(()),
    }
}

/// The options that a unit is judged with.
fn options_of(title: &str) -> Options {
    Options {
        undeclared: title.ends_with(" -u"),
        onetrip: false,
        long_cards: false,
        checks: false,
    }
}

/// Prints the title of a unit, what its names are, and the first row that it breaks.
pub fn print_unit(rt: &HostRuntime, source: &Source, unit: &Unit) -> Result<(), Stop> {
    let title = source.title(unit.card);
    print_title(rt, title, unit)?;
    print_names(rt, unit)?;
    print_fault(rt, source, options_of(title), unit)
}
