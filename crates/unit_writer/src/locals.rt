//! What the function of a unit declares: the variable for its result, temporaries, what it keeps of its dummy arrays, functions of the library, procedures,
//! variables and control lists. Sections 4.1, 5.1, 5.5.1, 12.8, 15.5 and 15.6; C89, 3.5.

ghost use Rattle.std.specs.HashMap.{get_by};
ghost use Rattle.std.specs.Prelude.{◌≡◌, ◌++◌, ◌∷◌, [], IfOk, OnOk, map, pos, bytes_eq};
ghost use Rattle.c_tree.specs.declared.declaration.CField.TheVariants as field;
ghost use Rattle.c_tree.specs.declared.types.ResultType.TheVariants as result_type;
ghost use Rattle.library_functions.specs.Described.{described};
ghost use Rattle.unit_contents.specs.ContentsOf.{listing_of};
ghost use Rattle.main_translation.specs.main_file.MainFile as file;
ghost use Rattle.main_translation.specs.Contents as contents;
ghost use Rattle.unit_translation.specs.unit_file.UnitFile.{bound_for, result_local};
ghost use Rattle.unit_translation.specs.UnitContents.{returned_by};
ghost use Rattle.f_tree.specs.Valuing.{elements_of};
ghost use Rattle.name_facts.specs.GivenFacts.{bounds_of, fact_in};
ghost use Rattle.unit_writer.specs.Functions as spec;
ghost use Rattle.unit_writer.specs.ToldUnits.{bound_told, is_stored_class, stored_names};

use crate::bounds::{bound_name, bounds_in, elements};
use crate::heading::{KeptBound, Procedure};
use crate::procedures::add_procedures;
use c_names::{control_list_name, result_name, temporary_name, variable_name};
use c_tree::declaration::{CField, CLocal};
use c_tree::types::{ArgumentType, ListType, NumberType, ParameterType, ResultType};
use f_tree::{Basic, Class};
use indexmap::IndexMap;
use library_functions::LibraryFunction;
use name_facts::{Bound, NameFacts, all_closed};
use plain_data::Items;
use std::alloc::{AllocError, Global};
use unit_contents::{Calls, Contents, Listing};

/// Declares the temporaries.
fn add_temporaries(alloc: Global, locals: &mut Vec<CLocal>, count: usize) -> Result<(), AllocError>
    ensures { OnOk result (locals.new.items ≡ locals.old.items ++ file.temporaries_from 1 count) }
{
    for before in 0..count {
        let name = temporary_name(alloc, before + 1)?;
        locals.push(CLocal::Number(NumberType::Integer, name))?;
    }
    Ok(())
}

/// Declares what is kept of dummy arrays.
fn add_bounds(
    alloc: Global,
    locals: &mut Vec<CLocal>,
    bounds: &[KeptBound],
) -> Result<(), AllocError>
    ensures { OnOk result (locals.new.items ≡ locals.old.items ++ map bound_for (map bound_told bounds.now)) }
{
    for one in bounds {
        let name = bound_name(alloc, one)?;
        locals.push(CLocal::Number(NumberType::Integer, name))?;
    }
    Ok(())
}

/// Declares a function of the library, where it is called.
#[tactic(auto, unfolding(main_translation::specs::Contents::if_called))]
fn add_call(
    alloc: Global,
    locals: &mut Vec<CLocal>,
    is_called: bool,
    name: &[u8],
    arguments: &[ArgumentType],
) -> Result<(), AllocError>
    ensures { OnOk result (locals.new.items ≡ locals.old.items ++ map file.call_for (contents.if_called is_called (record { result = result_type.Integer; name = name.now; arguments = arguments.now }))) }
{
    if !is_called {
        return Ok(());
    }
    let name = Items::from_slice(alloc, name)?;
    let arguments = Items::from_slice(alloc, arguments)?;
    locals.push(CLocal::Extern(ResultType::Integer, name, arguments))?;
    Ok(())
}

/// The function that takes an item, where it is called.
fn add_output_item(
    alloc: Global,
    locals: &mut Vec<CLocal>,
    is_called: bool,
) -> Result<(), AllocError>
    ensures { OnOk result (locals.new.items ≡ locals.old.items ++ map file.call_for (contents.if_called is_called contents.output_item)) }
{
    let arguments = [
        ArgumentType::Parameter(ParameterType::Integers),
        ArgumentType::Parameter(ParameterType::Integers),
        ArgumentType::Parameter(ParameterType::Chars),
        ArgumentType::Parameter(ParameterType::Length),
    ];
    add_call(alloc, locals, is_called, b"do_lio", &arguments)
}

/// The function that stops the run, where it is called.
fn add_stop(alloc: Global, locals: &mut Vec<CLocal>, is_called: bool) -> Result<(), AllocError>
    ensures { OnOk result (locals.new.items ≡ locals.old.items ++ map file.call_for (contents.if_called is_called contents.stop_run)) }
{
    let arguments = [
        ArgumentType::Parameter(ParameterType::Chars),
        ArgumentType::Parameter(ParameterType::Length),
    ];
    add_call(alloc, locals, is_called, b"s_stop", &arguments)
}

/// The function that starts an output, where it is called.
fn add_start(alloc: Global, locals: &mut Vec<CLocal>, is_called: bool) -> Result<(), AllocError>
    ensures { OnOk result (locals.new.items ≡ locals.old.items ++ map file.call_for (contents.if_called is_called contents.start_output)) }
{
    let arguments = [ArgumentType::List(ListType::Transfer)];
    add_call(alloc, locals, is_called, b"s_wsle", &arguments)
}

/// The function that ends an output, where it is called.
fn add_finish(alloc: Global, locals: &mut Vec<CLocal>, is_called: bool) -> Result<(), AllocError>
    ensures { OnOk result (locals.new.items ≡ locals.old.items ++ map file.call_for (contents.if_called is_called contents.end_output)) }
{
    add_call(alloc, locals, is_called, b"e_wsle", &[])
}

/// The type of the value of a function of the library.
#[tactic(auto, unfolding(main_translation::specs::Contents::result_of))]
fn result_type(basic: Basic) -> ResultType
    ensures { result ≡ contents.result_of basic }
{
    match basic {
        Basic::Logical => ResultType::Logical,
        Basic::Integer | Basic::Character | Basic::Untyped => ResultType::Integer,
    }
}

/// The arguments of a function of so many numbers, which are passed by their addresses.
fn number_arguments(alloc: Global, count: usize) -> Result<Items<ArgumentType>, AllocError>
    ensures { IfOk result (λ row. row ≡ contents.number_arguments count) }
{
    let row = vec![in alloc; ArgumentType::Parameter(ParameterType::Integers); count]?;
    Ok(Items::from_vec(row))
}

/// The declaration of a function of the library that gives a number for numbers.
#[tactic(auto, unfolding(main_translation::specs::Contents::function_called))]
fn function_local(alloc: Global, function: &LibraryFunction) -> Result<CLocal, AllocError>
    ensures { IfOk result (λ local. local ≡ file.call_for (contents.function_called (described function.now))) }
{
    let name = Items::from_slice(alloc, function.name)?;
    let arguments = number_arguments(alloc, function.takes)?;
    Ok(CLocal::Extern(result_type(function.gives), name, arguments))
}

/// Declares the functions of numbers of the library.
fn add_functions(
    alloc: Global,
    locals: &mut Vec<CLocal>,
    functions: &[LibraryFunction],
) -> Result<(), AllocError>
    ensures { OnOk result (locals.new.items ≡ locals.old.items ++ map file.call_for (map contents.function_called (map described functions.now))) }
{
    for function in functions {
        locals.push(function_local(alloc, function)?)?;
    }
    Ok(())
}

/// Declares the functions of the library that are called.
fn add_calls(alloc: Global, locals: &mut Vec<CLocal>, calls: &Calls) -> Result<(), AllocError>
    ensures { OnOk result (locals.new.items ≡ locals.old.items ++ map file.call_for (spec.calls_by calls.now)) }
{
    add_start(alloc, locals, calls.starts)?;
    add_output_item(alloc, locals, calls.takes)?;
    add_finish(alloc, locals, calls.finishes)?;
    add_stop(alloc, locals, calls.stops)?;
    add_functions(alloc, locals, &calls.functions)?;
    Ok(())
}

/// The type of an object of numbers or truth values.
#[tactic(auto, unfolding(main_translation::specs::Contents::number_type_of))]
fn number_type(basic: Basic) -> NumberType
    ensures { result ≡ contents.number_type_of basic }
{
    match basic {
        Basic::Logical => NumberType::Logical,
        Basic::Integer | Basic::Character | Basic::Untyped => NumberType::Integer,
    }
}

/// How many elements there are, as the tree has it.
fn length_of(count: u64) -> Result<u32, AllocError>
    ensures { IfOk result (λ length. length ≡ count) }
{
    if count > 4_294_967_295 {
        return Err(AllocError);
    }
    Ok(count as u32)
}

/// How many elements an array has, where no upper bound is `*`.
fn known_count(bounds: &[Bound]) -> Result<Option<u32>, AllocError>
    ensures { IfOk result (λ found. found ≡ elements_of (map bounds_of bounds.now)) }
{
    if !all_closed(bounds) {
        return Ok(None);
    }
    Ok(Some(length_of(elements(bounds)?)?))
}

/// How many elements an array has; none for what is no array.
#[tactic(auto, unfolding(main_translation::specs::Contents::count_by))]
fn count(bounds: &[Bound]) -> Result<Option<u32>, AllocError>
    ensures { IfOk result (λ found. found ≡ contents.count_by (map bounds_of bounds.now)) }
{
    match bounds {
        [] => Ok(None),
        [_, ..] => known_count(bounds),
    }
}

/// The declaration of a variable or an array.
#[tactic(auto, unfolding(crate::specs::Functions::local_of))]
fn variable_local(alloc: Global, table: &NameFacts, name: &[u8]) -> Result<CLocal, AllocError>
    ensures { IfOk result (λ local. local ≡ spec.local_of table.now name.now) }
{
    let basic = number_type(table.basic(name));
    let written = variable_name(alloc, name)?;
    match count(bounds_in(table, name))? {
        Some(length) => Ok(CLocal::StaticNumbers(basic, written, length, None)),
        None => Ok(CLocal::StaticNumber(basic, written, None)),
    }
}

/// Whether a class is that of a name which stands in storage.
#[tactic(auto, unfolding(crate::specs::ToldUnits::is_stored_class))]
fn is_stored(class: Class) -> bool
    ensures { result ≡ is_stored_class class }
{
    match class {
        Class::Stored => true,
        Class::Constant | Class::Dummy | Class::Result | Class::Procedure => false,
        Class::DummyProcedure | Class::StatementFunction => false,
        Class::Intrinsic | Class::Unit => false,
    }
}

/// Declares a variable or an array, where the name stands in storage.
#[tactic(auto, unfolding(crate::specs::Functions::local_if))]
fn add_variable(
    alloc: Global,
    locals: &mut Vec<CLocal>,
    table: &NameFacts,
    name: &[u8],
) -> Result<(), AllocError>
    ensures { OnOk result (locals.new.items ≡ locals.old.items ++ spec.local_if (is_stored_class (fact_in table.now name.now).class) (spec.local_of table.now name.now)) }
{
    if !is_stored(table.class(name)) {
        return Ok(());
    }
    locals.push(variable_local(alloc, table, name)?)?;
    Ok(())
}

/// Declares the variables and arrays.
fn add_variables(
    alloc: Global,
    locals: &mut Vec<CLocal>,
    table: &NameFacts,
    names: &[&[u8]],
) -> Result<(), AllocError>
    ensures { OnOk result (locals.new.items ≡ locals.old.items ++ map (spec.local_of table.now) (stored_names table.now (map (λ name. name.now) names.now))) }
{
    for name in names {
        add_variable(alloc, locals, table, name)?;
    }
    Ok(())
}

/// The fields of a control list for a unit.
fn fields(alloc: Global, unit: i32) -> Result<Items<CField>, AllocError>
    ensures { IfOk result (λ found. found ≡ field.Number (pos 0) ∷ field.Number unit ∷ field.Number (pos 0) ∷ field.Number (pos 0) ∷ field.Number (pos 0) ∷ []) }
{
    let mut found = Items::new(alloc);
    found.push(CField::Number(0))?;
    found.push(CField::Number(unit))?;
    found.push(CField::Number(0))?;
    found.push(CField::Number(0))?;
    found.push(CField::Number(0))?;
    Ok(found)
}

/// The declaration of a control list, by its number from 1.
fn list_local(alloc: Global, number: usize, list: &Listing) -> Result<CLocal, AllocError>
    ensures { IfOk result (λ local. local ≡ file.list_for number (listing_of list.now)) }
{
    let name = control_list_name(alloc, number)?;
    let fields = fields(alloc, list.unit)?;
    Ok(CLocal::StaticList(ListType::Transfer, name, fields))
}

/// Declares the control lists.
fn add_lists(alloc: Global, locals: &mut Vec<CLocal>, lists: &[Listing]) -> Result<(), AllocError>
    ensures { OnOk result (locals.new.items ≡ locals.old.items ++ file.lists_from 1 (map listing_of lists.now)) }
{
    for before in 0..lists.len() {
        locals.push(list_local(alloc, before + 1, &lists[before])?)?;
    }
    Ok(())
}

/// Declares the variable for the result of a function.
#[tactic(auto, unfolding(unit_translation::specs::UnitContents::returned_by))]
fn add_result(
    alloc: Global,
    locals: &mut Vec<CLocal>,
    basic: Option<Basic>,
) -> Result<(), AllocError>
    ensures { OnOk result (locals.new.items ≡ locals.old.items ++ result_local (returned_by basic)) }
{
    let Some(basic) = basic else {
        return Ok(());
    };
    locals.push(CLocal::Number(number_type(basic), result_name(alloc)?))?;
    Ok(())
}

/// What the function declares, given the type of its result, if it is one of numbers.
///
/// # Errors
///
/// Want of memory, a dimension that has no number, or an array of more elements than a number has room for.
#[tactic(auto, unfolding(crate::specs::Functions::locals_by))]
pub(crate) fn locals(
    alloc: Global,
    table: &NameFacts,
    names: &[&[u8]],
    basic: Option<Basic>,
    bounds: &[KeptBound],
    procedures: &IndexMap<&[u8], Procedure>,
    contents: &Contents,
) -> Result<Items<CLocal>, AllocError>
    ensures { IfOk result (λ found. found ≡ spec.locals_by table.now (map (λ name. name.now) names.now) basic (map bound_told bounds.now) (λ x. get_by (λ k. bytes_eq x k.now) procedures.now) contents.now) }
{
    let mut found = Vec::new(alloc);
    add_result(alloc, &mut found, basic)?;
    add_temporaries(alloc, &mut found, contents.temporaries)?;
    add_bounds(alloc, &mut found, bounds)?;
    add_calls(alloc, &mut found, &contents.calls)?;
    add_procedures(alloc, &mut found, procedures, &contents.procedures)?;
    add_variables(alloc, &mut found, table, names)?;
    add_lists(alloc, &mut found, &contents.lists)?;
    Ok(Items::from_vec(found))
}
