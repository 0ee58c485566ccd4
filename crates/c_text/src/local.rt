//! Declarations: at the head of a function, external objects and constants.
ghost use Rattle.std.specs.Prelude.{◌≡◌, ◌++◌, ◌∷◌, [], OnOk, codes};
ghost use Rattle.c_text.specs.Declarations.{bounds, bounds_or_none, first_value, first_values, first_string, printed_field, printed_param, printed_params, printed_types, printed_extern, number_name, printed_static, printed_statics, printed_static_chars, printed_list, printed_array, printed_local, part_of, part_heading, is_part, heading_after, local_line, parts_end, locals_after, object_line, printed_objects, constant_line, printed_constants};
ghost use Rattle.c_text.specs.Lists.{between_commas, braced};
ghost use Rattle.c_text.specs.Types.{argument_word, printed_value};

use crate::out::{print_length, print_string, print_value};
use crate::phrase::{Phrase, letters};
use crate::types::{argument_word, list_word, number_word, parameter_front, result_word};
use c_tree::declaration::{CField, CLocal, CParam};
use c_tree::expression::Text;
use c_tree::file::{CConstant, CObject};
use c_tree::types::{ArgumentType, ListType, NumberType, ResultType};
use plain_data::Items;
use std::alloc::AllocError;

/// A part of a function's head, in the house form's order.
#[derive(Clone, Copy)]
pub(crate) enum Part {
    /// Temporaries.
    System,
    /// Functions of the library and of other units.
    Builtin,
    /// Variables of the unit.
    Variables,
    /// Formats and lists of input and output statements.
    Blocks,
}

/// Appends the values of an image in braces.
#[tactic(auto, using(std::proofs::lemmas::Grind::common_steps), unfolding(crate::specs::Lists::braced))]
fn print_values(values: &[i32], out: &mut Vec<u8>) -> Result<(), AllocError>
    ensures { OnOk result (out.new.items ≡ out.old.items ++ braced printed_value values.now) }
{
    out.extend_from_slice(b"{ ")?;
    if let Some((first, later)) = values.split_first() {
        print_value(*first, out)?;
        for value in later {
            out.extend_from_slice(b", ")?;
            print_value(*value, out)?;
        }
    }
    out.extend_from_slice(b" }")
}

/// Appends a field of a list.
#[tactic(auto, unfolding(crate::specs::Declarations::printed_field))]
fn print_field(field: &CField, out: &mut Vec<u8>) -> Result<(), AllocError>
    ensures { OnOk result (out.new.items ≡ out.old.items ++ printed_field field.now) }
{
    match field {
        CField::Number(number) => print_value(*number, out),
        CField::Str(bytes) => print_string(bytes.as_slice(), out),
        CField::Name(name) => out.extend_from_slice(name.as_slice()),
    }
}

/// Appends the fields of a list in braces.
#[tactic(auto, using(std::proofs::lemmas::Grind::common_steps), unfolding(crate::specs::Lists::braced))]
fn print_fields(fields: &[CField], out: &mut Vec<u8>) -> Result<(), AllocError>
    ensures { OnOk result (out.new.items ≡ out.old.items ++ braced printed_field fields.now) }
{
    out.extend_from_slice(b"{ ")?;
    if let Some((first, later)) = fields.split_first() {
        print_field(first, out)?;
        for field in later {
            out.extend_from_slice(b", ")?;
            print_field(field, out)?;
        }
    }
    out.extend_from_slice(b" }")
}

/// Appends a parameter.
fn print_param(param: &CParam, out: &mut Vec<u8>) -> Result<(), AllocError>
    ensures { OnOk result (out.new.items ≡ out.old.items ++ printed_param param.now) }
{
    out.extend_from_slice(parameter_front(param.of))?;
    out.extend_from_slice(param.name.as_slice())
}

/// Appends the parameters of a function, or `void`.
#[tactic(auto, using(std::proofs::lemmas::Grind::common_steps), unfolding(crate::specs::Declarations::printed_params))]
pub(crate) fn print_params(params: &[CParam], out: &mut Vec<u8>) -> Result<(), AllocError>
    ensures { OnOk result (out.new.items ≡ out.old.items ++ printed_params params.now) }
{
    let Some((first, later)) = params.split_first() else {
        return out.extend_from_slice(b"void");
    };
    print_param(first, out)?;
    for param in later {
        out.extend_from_slice(b", ")?;
        print_param(param, out)?;
    }
    Ok(())
}

/// Appends the types of the arguments of a declared function, or `void`.
#[tactic(auto, using(std::proofs::lemmas::Grind::common_steps), unfolding(crate::specs::Declarations::printed_types))]
fn print_types(types: &[ArgumentType], out: &mut Vec<u8>) -> Result<(), AllocError>
    ensures { OnOk result (out.new.items ≡ out.old.items ++ printed_types types.now) }
{
    let Some((first, later)) = types.split_first() else {
        return out.extend_from_slice(b"void");
    };
    out.extend_from_slice(argument_word(*first))?;
    for of in later {
        out.extend_from_slice(b", ")?;
        out.extend_from_slice(argument_word(*of))?;
    }
    Ok(())
}

/// Appends the length of an array in brackets.
fn print_bounds(length: u32, out: &mut Vec<u8>) -> Result<(), AllocError>
    ensures { OnOk result (out.new.items ≡ out.old.items ++ bounds length) }
{
    out.push(b'[')?;
    print_length(length, out)?;
    out.extend_from_slice(b"]")
}

/// Appends the length of an array in brackets, which stay empty where none is written.
#[tactic(auto, unfolding(crate::specs::Declarations::bounds_or_none))]
fn print_bounds_or_none(length: Option<u32>, out: &mut Vec<u8>) -> Result<(), AllocError>
    ensures { OnOk result (out.new.items ≡ out.old.items ++ bounds_or_none length) }
{
    match length {
        Some(length) => print_bounds(length, out),
        None => out.extend_from_slice(b"[]"),
    }
}

/// Appends the value that a variable starts with, where one is written.
#[tactic(auto, unfolding(crate::specs::Declarations::first_value))]
fn print_first_value(value: Option<i32>, out: &mut Vec<u8>) -> Result<(), AllocError>
    ensures { OnOk result (out.new.items ≡ out.old.items ++ first_value value) }
{
    let Some(value) = value else {
        return Ok(());
    };
    out.extend_from_slice(b" = ")?;
    print_value(value, out)
}

/// Appends the values that an array starts with, where they are written.
#[tactic(auto, unfolding(crate::specs::Declarations::first_values))]
fn print_first_values(values: &Option<Items<i32>>, out: &mut Vec<u8>) -> Result<(), AllocError>
    ensures { OnOk result (out.new.items ≡ out.old.items ++ first_values values.now) }
{
    match values {
        Some(values) => {
            out.extend_from_slice(b" = ")?;
            print_values(values.as_slice(), out)
        }
        None => Ok(()),
    }
}

/// Appends the string that an array starts with, where one is written.
#[tactic(auto, unfolding(crate::specs::Declarations::first_string))]
fn print_first_string(bytes: &Option<Text>, out: &mut Vec<u8>) -> Result<(), AllocError>
    ensures { OnOk result (out.new.items ≡ out.old.items ++ first_string bytes.now) }
{
    match bytes {
        Some(bytes) => {
            out.extend_from_slice(b" = ")?;
            print_string(bytes.as_slice(), out)
        }
        None => Ok(()),
    }
}

/// Appends the declaration of a function of another text.
#[tactic(auto, unfolding(crate::specs::Declarations::printed_extern))]
fn print_extern(
    gives: ResultType,
    name: &[u8],
    types: &[ArgumentType],
    out: &mut Vec<u8>,
) -> Result<(), AllocError>
    ensures { OnOk result (out.new.items ≡ out.old.items ++ printed_extern gives name.now types.now) }
{
    out.extend_from_slice(letters(Phrase::Extern))?;
    out.extend_from_slice(result_word(gives))?;
    out.push(b' ')?;
    out.extend_from_slice(name)?;
    out.push(b'(')?;
    print_types(types, out)?;
    out.extend_from_slice(b")")
}

/// Appends a type of numbers and the name that it declares.
fn print_number_name(of: NumberType, name: &[u8], out: &mut Vec<u8>) -> Result<(), AllocError>
    ensures { OnOk result (out.new.items ≡ out.old.items ++ number_name of name.now) }
{
    out.extend_from_slice(number_word(of))?;
    out.push(b' ')?;
    out.extend_from_slice(name)
}

/// Appends a variable that keeps its value.
#[tactic(auto, unfolding(crate::specs::Declarations::printed_static))]
fn print_static_number(
    of: NumberType,
    name: &[u8],
    value: Option<i32>,
    out: &mut Vec<u8>,
) -> Result<(), AllocError>
    ensures { OnOk result (out.new.items ≡ out.old.items ++ printed_static of name.now value) }
{
    out.extend_from_slice(letters(Phrase::Static))?;
    print_number_name(of, name, out)?;
    print_first_value(value, out)
}

/// Appends an array that keeps its values.
#[tactic(auto, unfolding(crate::specs::Declarations::printed_statics))]
fn print_static_numbers(
    of: NumberType,
    name: &[u8],
    length: u32,
    values: &Option<Items<i32>>,
    out: &mut Vec<u8>,
) -> Result<(), AllocError>
    ensures { OnOk result (out.new.items ≡ out.old.items ++ printed_statics of name.now length values.now) }
{
    out.extend_from_slice(letters(Phrase::Static))?;
    print_number_name(of, name, out)?;
    print_bounds(length, out)?;
    print_first_values(values, out)
}

/// Appends a text that keeps its characters.
#[tactic(auto, unfolding(crate::specs::Declarations::printed_static_chars))]
fn print_static_chars(
    name: &[u8],
    length: Option<u32>,
    bytes: &Option<Text>,
    out: &mut Vec<u8>,
) -> Result<(), AllocError>
    ensures { OnOk result (out.new.items ≡ out.old.items ++ printed_static_chars name.now length bytes.now) }
{
    out.extend_from_slice(letters(Phrase::StaticChars))?;
    out.extend_from_slice(name)?;
    print_bounds_or_none(length, out)?;
    print_first_string(bytes, out)
}

/// Appends a list of an input or output statement.
#[tactic(auto, unfolding(crate::specs::Declarations::printed_list))]
fn print_static_list(
    of: ListType,
    name: &[u8],
    fields: &[CField],
    out: &mut Vec<u8>,
) -> Result<(), AllocError>
    ensures { OnOk result (out.new.items ≡ out.old.items ++ printed_list of name.now fields.now) }
{
    out.extend_from_slice(letters(Phrase::Static))?;
    out.extend_from_slice(list_word(of))?;
    out.push(b' ')?;
    out.extend_from_slice(name)?;
    out.extend_from_slice(b" = ")?;
    print_fields(fields, out)
}

/// Appends a word and the array that it declares.
fn print_array(word: &[u8], name: &[u8], length: u32, out: &mut Vec<u8>) -> Result<(), AllocError>
    ensures { OnOk result (out.new.items ≡ out.old.items ++ printed_array word.now name.now length) }
{
    out.extend_from_slice(word)?;
    out.push(b' ')?;
    out.extend_from_slice(name)?;
    print_bounds(length, out)
}

/// Appends a declaration at the head of a function, without its semicolon.
#[tactic(auto, unfolding(crate::specs::Declarations::printed_local))]
fn print_local(local: &CLocal, out: &mut Vec<u8>) -> Result<(), AllocError>
    ensures { OnOk result (out.new.items ≡ out.old.items ++ printed_local local.now) }
{
    match local {
        CLocal::Extern(gives, name, types) => print_extern(
            *gives,
            name.as_slice(),
            types.as_slice(),
            out,
        ),
        CLocal::StaticNumber(of, name, value) => print_static_number(
            *of,
            name.as_slice(),
            *value,
            out,
        ),
        CLocal::StaticNumbers(of, name, length, values) => print_static_numbers(
            *of,
            name.as_slice(),
            *length,
            values,
            out,
        ),
        CLocal::StaticChars(name, length, bytes) => print_static_chars(
            name.as_slice(),
            *length,
            bytes,
            out,
        ),
        CLocal::StaticList(of, name, fields) => print_static_list(
            *of,
            name.as_slice(),
            fields.as_slice(),
            out,
        ),
        CLocal::Number(of, name) => print_number_name(*of, name.as_slice(), out),
        CLocal::Numbers(of, name, length) => print_array(
            number_word(*of),
            name.as_slice(),
            *length,
            out,
        ),
        CLocal::Chars(name, length) => print_array(b"char", name.as_slice(), *length, out),
        CLocal::Addresses(name, length) => print_array(b"address", name.as_slice(), *length, out),
    }
}

/// The part of a function's head to which a declaration belongs.
#[tactic(auto, unfolding(crate::specs::Declarations::part_of))]
fn part_of(local: &CLocal) -> Part
    ensures { result ≡ part_of local.now }
{
    match local {
        CLocal::Extern(_, _, _) => Part::Builtin,
        CLocal::StaticNumber(_, _, _) | CLocal::StaticNumbers(_, _, _, _) => Part::Variables,
        CLocal::StaticChars(_, None, _) | CLocal::StaticList(_, _, _) => Part::Blocks,
        CLocal::StaticChars(_, Some(_), _) => Part::Variables,
        CLocal::Number(_, _) | CLocal::Numbers(_, _, _) => Part::System,
        CLocal::Chars(_, _) | CLocal::Addresses(_, _) => Part::System,
    }
}

/// The heading of a part.
#[tactic(auto, unfolding(crate::specs::Declarations::part_heading))]
fn part_heading(part: Part) -> &'static [u8]
    ensures { result.now ≡ part_heading part }
{
    match part {
        Part::System => b"    /* System generated locals */\n",
        Part::Builtin => b"    /* Builtin functions */\n",
        Part::Variables => b"    /* Local variables */\n",
        Part::Blocks => b"    /* Fortran I/O blocks */\n",
    }
}

/// Whether two declarations belong to one part.
#[tactic(auto, unfolding(crate::specs::Declarations::is_part))]
fn is_part(before: Part, next: Part) -> bool
    ensures { result ≡ is_part before next }
{
    match before {
        Part::System => matches!(next, Part::System),
        Part::Builtin => matches!(next, Part::Builtin),
        Part::Variables => matches!(next, Part::Variables),
        Part::Blocks => matches!(next, Part::Blocks),
    }
}

/// Appends what stands before a declaration of a part: the heading where the part begins there.
#[tactic(auto, unfolding(crate::specs::Declarations::heading_after))]
fn print_heading(before: Option<Part>, next: Part, out: &mut Vec<u8>) -> Result<(), AllocError>
    ensures { OnOk result (out.new.items ≡ out.old.items ++ heading_after before next) }
{
    match before {
        None => out.extend_from_slice(part_heading(next)),
        Some(before) => {
            if is_part(before, next) {
                return Ok(());
            }
            out.push(b'\n')?;
            out.extend_from_slice(part_heading(next))
        }
    }
}

/// Appends a declaration at the head of a function as a line.
#[tactic(auto, unfolding(crate::specs::Declarations::local_line))]
fn print_local_line(local: &CLocal, out: &mut Vec<u8>) -> Result<(), AllocError>
    ensures { OnOk result (out.new.items ≡ out.old.items ++ local_line local.now) }
{
    out.extend_from_slice(b"    ")?;
    print_local(local, out)?;
    out.extend_from_slice(b";\n")
}

/// Appends the empty line that ends the last part.
#[tactic(auto, unfolding(crate::specs::Declarations::parts_end))]
fn print_parts_end(before: Option<Part>, out: &mut Vec<u8>) -> Result<(), AllocError>
    ensures { OnOk result (out.new.items ≡ out.old.items ++ parts_end before) }
{
    match before {
        None => Ok(()),
        Some(_) => out.extend_from_slice(b"\n"),
    }
}

/// Appends the declarations of a function in order, each part under its heading.
pub(crate) fn print_locals(locals: &[CLocal], out: &mut Vec<u8>) -> Result<(), AllocError>
    ensures { OnOk result (out.new.items ≡ out.old.items ++ locals_after None locals.now) }
{
    let mut before = None;
    for local in locals {
        let part = part_of(local);
        print_heading(before, part, out)?;
        print_local_line(local, out)?;
        before = Some(part);
    }
    print_parts_end(before, out)
}

/// Appends an external object as a line.
#[tactic(auto, unfolding(crate::specs::Declarations::object_line))]
fn print_object(object: &CObject, out: &mut Vec<u8>) -> Result<(), AllocError>
    ensures { OnOk result (out.new.items ≡ out.old.items ++ object_line object.now) }
{
    match object {
        CObject::Integers(name, length, values) => {
            print_array(b"integer", name.as_slice(), *length, out)?;
            print_first_values(values, out)?
        }
        CObject::Chars(name, length, bytes) => {
            print_array(b"char", name.as_slice(), *length, out)?;
            print_first_string(bytes, out)?
        }
    }
    out.extend_from_slice(b";\n")
}

/// Appends the external objects, under their heading where there is one.
#[tactic(auto, using(std::proofs::lemmas::Grind::common_steps), unfolding(crate::specs::Declarations::printed_objects))]
pub(crate) fn print_objects(objects: &[CObject], out: &mut Vec<u8>) -> Result<(), AllocError>
    ensures { OnOk result (out.new.items ≡ out.old.items ++ printed_objects objects.now) }
{
    if objects.is_empty() {
        return Ok(());
    }
    out.extend_from_slice(letters(Phrase::Objects))?;
    for object in objects {
        print_object(object, out)?;
    }
    Ok(())
}

/// Appends a constant as a line.
#[tactic(auto, unfolding(crate::specs::Declarations::constant_line))]
fn print_constant(constant: &CConstant, out: &mut Vec<u8>) -> Result<(), AllocError>
    ensures { OnOk result (out.new.items ≡ out.old.items ++ constant_line constant.now) }
{
    out.extend_from_slice(letters(Phrase::StaticInteger))?;
    out.extend_from_slice(constant.name.as_slice())?;
    out.extend_from_slice(b" = ")?;
    print_value(constant.value, out)?;
    out.extend_from_slice(b";\n")
}

/// Appends the constants, under their heading where there is one.
#[tactic(auto, using(std::proofs::lemmas::Grind::common_steps), unfolding(crate::specs::Declarations::printed_constants))]
pub(crate) fn print_constants(constants: &[CConstant], out: &mut Vec<u8>) -> Result<(), AllocError>
    ensures { OnOk result (out.new.items ≡ out.old.items ++ printed_constants constants.now) }
{
    if constants.is_empty() {
        return Ok(());
    }
    out.extend_from_slice(letters(Phrase::Constants))?;
    for constant in constants {
        print_constant(constant, out)?;
    }
    Ok(())
}
