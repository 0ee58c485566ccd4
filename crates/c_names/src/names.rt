//! Names of variables, and made names.

ghost use Rattle.std.specs.Prelude.{◌≡◌, ◌++◌, IfOk, bytes_eq, decimal, codes};
ghost use Rattle.std.specs.List.{list_any};
ghost use Rattle.f_tree.specs.CNames.{made_name, FunctionResult, NumberTemporary, ControlList, ConstantOf, StatementLabel, MadeLabel, DimensionOf, LowerBoundOf};
ghost use Rattle.f_tree.specs.CNames as spec;

use itoa::Buffer;
use plain_data::Items;
use std::alloc::{AllocError, Global};

/// The words of C89, in the order of the alphabet.
static C_KEYWORDS: [&[u8]; 32] = [
    b"auto",
    b"break",
    b"case",
    b"char",
    b"const",
    b"continue",
    b"default",
    b"do",
    b"double",
    b"else",
    b"enum",
    b"extern",
    b"float",
    b"for",
    b"goto",
    b"if",
    b"int",
    b"long",
    b"register",
    b"return",
    b"short",
    b"signed",
    b"sizeof",
    b"static",
    b"struct",
    b"switch",
    b"typedef",
    b"union",
    b"unsigned",
    b"void",
    b"volatile",
    b"while",
];

/// What the include line declares, and the types of pointers to functions.
static BUILT_IN_NAMES: [&[u8]; 21] = [
    b"integer", b"logical", b"ftnlen", b"ftnint", b"flag", b"address", b"VOID", b"TRUE_",
    b"FALSE_", b"max", b"min", b"abs", b"cilist", b"icilist", b"olist", b"cllist", b"alist",
    b"S_fp", b"I_fp", b"L_fp", b"U_fp",
];

/// The fields of the lists that calls of the library take.
static FIELD_NAMES: [&[u8]; 25] = [
    b"cierr", b"ciunit", b"ciend", b"cifmt", b"cirec", b"icierr", b"iciunit", b"iciend", b"icifmt",
    b"icirlen", b"icirnum", b"oerr", b"ounit", b"ofnm", b"ofnmlen", b"osta", b"oacc", b"ofm",
    b"orl", b"oblnk", b"cerr", b"cunit", b"csta", b"aerr", b"aunit",
];

/// The single letters that are not left to variables.
static SINGLE_LETTERS: [&[u8]; 7] = [b"c", b"d", b"g", b"h", b"i", b"r", b"z"];

/// Whether a name is one of these words.
fn is_among(words: &[&[u8]], name: &[u8]) -> bool
    ensures { result ≡ list_any (λ word. bytes_eq word.now name.now) words.now }
{
    words.iter().any(|word| *word == name)
}

/// Whether a name is a word of C.
#[tactic(auto, unfolding(f_tree::specs::CNames::c_keywords))]
fn is_keyword(name: &[u8]) -> bool
    ensures { result ≡ spec.is_among spec.c_keywords name.now }
{
    is_among(&C_KEYWORDS, name)
}

/// Whether a name is one that the include line or the library declares.
#[tactic(auto, unfolding(f_tree::specs::CNames::built_in_names))]
fn is_built_in(name: &[u8]) -> bool
    ensures { result ≡ spec.is_among spec.built_in_names name.now }
{
    is_among(&BUILT_IN_NAMES, name)
}

/// Whether a name is that of a field of a list.
#[tactic(auto, unfolding(f_tree::specs::CNames::field_names))]
fn is_field(name: &[u8]) -> bool
    ensures { result ≡ spec.is_among spec.field_names name.now }
{
    is_among(&FIELD_NAMES, name)
}

/// Whether a name is a single letter that made names are built from.
#[tactic(auto, unfolding(f_tree::specs::CNames::single_letters))]
fn is_single_letter(name: &[u8]) -> bool
    ensures { result ≡ spec.is_among spec.single_letters name.now }
{
    is_among(&SINGLE_LETTERS, name)
}

/// Whether a name may not stand in the C text as it is.
#[tactic(auto, unfolding(f_tree::specs::CNames::is_reserved))]
fn is_reserved(name: &[u8]) -> bool
    ensures { result ≡ spec.is_reserved name.now }
{
    is_keyword(name) || is_built_in(name) || is_field(name) || is_single_letter(name)
}

/// Whether a name has an underscore.
#[tactic(auto, unfolding(f_tree::specs::CNames::has_underscore))]
fn has_underscore(name: &[u8]) -> bool
    ensures { result ≡ spec.has_underscore name.now }
{
    name.iter().any(|byte| *byte == b'_')
}

/// Whether a name gets two underscores at its end.
#[tactic(auto, unfolding(f_tree::specs::CNames::takes_underscores))]
fn takes_underscores(name: &[u8]) -> bool
    ensures { result ≡ spec.takes_underscores name.now }
{
    has_underscore(name) || is_reserved(name)
}

/// The C name of a variable: its name in lower case, with two underscores behind it where it could be
/// taken for another.
#[tactic(auto, unfolding(f_tree::specs::CNames::variable_name))]
pub fn variable_name(alloc: Global, name: &[u8]) -> Result<Items<u8>, AllocError>
    ensures { IfOk result (λ text. text ≡ spec.variable_name name.now) }
{
    let mut text = Vec::from_slice(alloc, name)?;
    if takes_underscores(name) {
        text.extend_from_slice(b"__")?;
    }
    Ok(Items::from_vec(text))
}

/// The C name of a procedure: its name in lower case, with one underscore behind it, and with two where it has one.
#[tactic(auto, unfolding(f_tree::specs::CNames::external_name))]
pub fn external_name(alloc: Global, name: &[u8]) -> Result<Items<u8>, AllocError>
    ensures { IfOk result (λ text. text ≡ spec.external_name name.now) }
{
    let end: &[u8] = if has_underscore(name) { b"__" } else { b"_" };
    let mut text = Vec::from_slice(alloc, name)?;
    text.extend_from_slice(end)?;
    Ok(Items::from_vec(text))
}

/// The name of the variable for the result of a function.
#[tactic(auto, unfolding(f_tree::specs::CNames::made_name))]
pub fn result_name(alloc: Global) -> Result<Items<u8>, AllocError>
    ensures { IfOk result (λ text. text ≡ made_name FunctionResult) }
{
    Items::from_slice(alloc, b"ret_val")
}

/// A text with the digits of a number behind it.
fn numbered(alloc: Global, front: &[u8], number: usize) -> Result<Items<u8>, AllocError>
    ensures { IfOk result (λ text. text ≡ front.now ++ decimal number) }
{
    let mut buffer = Buffer::new();
    let mut text = Vec::from_slice(alloc, front)?;
    text.extend_from_slice(buffer.format(number).as_bytes())?;
    Ok(Items::from_vec(text))
}

/// The name of a constant in the table of constant values.
#[tactic(auto, unfolding(f_tree::specs::CNames::constant_name, f_tree::specs::CNames::made_name))]
pub fn constant_name(alloc: Global, value: i32) -> Result<Items<u8>, AllocError>
    ensures { IfOk result (λ text. text ≡ made_name (ConstantOf value)) }
{
    let front: &[u8] = if value < 0 { b"c_n" } else { b"c__" };
    numbered(alloc, front, value.unsigned_abs() as usize)
}

/// The name of a temporary for numbers, by its number from 1.
#[tactic(auto, unfolding(f_tree::specs::CNames::made_name))]
pub fn temporary_name(alloc: Global, number: usize) -> Result<Items<u8>, AllocError>
    ensures { IfOk result (λ text. text ≡ made_name (NumberTemporary number)) }
{
    numbered(alloc, b"i__", number)
}

/// The name of a control list, by its number in its unit from 1.
#[tactic(auto, unfolding(f_tree::specs::CNames::made_name))]
pub fn control_list_name(alloc: Global, number: usize) -> Result<Items<u8>, AllocError>
    ensures { IfOk result (λ text. text ≡ made_name (ControlList number)) }
{
    numbered(alloc, b"io___", number)
}

/// The label of a statement with a FORTRAN statement label.
#[tactic(auto, unfolding(f_tree::specs::CNames::made_name))]
pub fn statement_label_name(alloc: Global, label: u32) -> Result<Items<u8>, AllocError>
    ensures { IfOk result (λ text. text ≡ made_name (StatementLabel label)) }
{
    numbered(alloc, b"L", label as usize)
}

/// A label that the translator makes, by its number in its unit from 1.
#[tactic(auto, unfolding(f_tree::specs::CNames::made_name))]
pub fn made_label_name(alloc: Global, number: usize) -> Result<Items<u8>, AllocError>
    ensures { IfOk result (λ text. text ≡ made_name (MadeLabel number)) }
{
    numbered(alloc, b"L__", number)
}

/// The name of what keeps the lower bound of a dimension of an array, by the number of the dimension from 1.
#[tactic(auto, unfolding(f_tree::specs::CNames::made_name))]
pub fn lower_bound_name(alloc: Global, array: &[u8], number: usize) -> Result<Items<u8>, AllocError>
    ensures { IfOk result (λ text. text ≡ made_name (LowerBoundOf (spec.variable_name array.now) number)) }
{
    let name = variable_name(alloc, array)?;
    let mut front = Vec::from_slice(alloc, name.as_slice())?;
    front.extend_from_slice(b"_low")?;
    numbered(alloc, front.as_slice(), number)
}

/// The name of what keeps the size of a dimension of an array, by the number of the dimension from 1.
#[tactic(auto, unfolding(f_tree::specs::CNames::made_name))]
pub fn size_name(alloc: Global, array: &[u8], number: usize) -> Result<Items<u8>, AllocError>
    ensures { IfOk result (λ text. text ≡ made_name (DimensionOf (spec.variable_name array.now) number)) }
{
    let name = variable_name(alloc, array)?;
    let mut front = Vec::from_slice(alloc, name.as_slice())?;
    front.extend_from_slice(b"_dim")?;
    numbered(alloc, front.as_slice(), number)
}
