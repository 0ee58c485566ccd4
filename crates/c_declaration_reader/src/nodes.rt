//! Declarations, made of their parts.

ghost use Rattle.std.specs.Prelude.{◌≡◌, Some, None, IfOk};
ghost use Rattle.c_tree.specs.declared.declaration.CLocal.TheVariants as local;
ghost use Rattle.c_tree.specs.declared.declaration.CField.TheVariants as field;
ghost use Rattle.c_tree.specs.declared.file.CObject.TheVariants as object;
ghost use Rattle.c_readers.specs.HeadReader.{a_parameter};
ghost use Rattle.c_declaration_reader.specs.SeenDeclarations.{seen_declared, seen_named, parameter_class, local_class};

use c_scope::NameClass;
use c_tree::declaration::{CField, CLocal, CParam};
use c_tree::expression::Text;
use c_tree::file::{CConstant, CObject};
use c_tree::types::{ArgumentType, ListType, NumberType, ParameterType, ResultType};
use plain_data::Items;
use std::alloc::{AllocError, Global};

/// A declaration, with the name that it declares where it stands in the text.
#[derive(Drop)]
pub(crate) struct Declared<'a> {
    pub(crate) local: CLocal,
    pub(crate) name: &'a [u8],
}

/// An external object, with the name that it declares where it stands in the text.
#[derive(Drop)]
pub struct Named<'a> {
    /// The object.
    pub object: CObject,
    /// Its name.
    pub name: &'a [u8],
}

/// A constant, with the name that it declares where it stands in the text.
#[derive(Drop)]
pub struct NamedConstant<'a> {
    /// The constant.
    pub constant: CConstant,
    /// Its name.
    pub name: &'a [u8],
}

/// A copy of a text.
pub(crate) fn copied(alloc: Global, text: &[u8]) -> Result<Text, AllocError>
    ensures { IfOk result (λ made. made ≡ text.now) }
{
    Items::from_slice(alloc, text)
}

/// What the name of a parameter stands for.
#[tactic(auto, unfolding(crate::specs::SeenDeclarations::parameter_class))]
pub(crate) fn parameter_class(of: ParameterType) -> NameClass
    ensures { result ≡ parameter_class of }
{
    match of {
        ParameterType::Function(_) => NameClass::Pointer,
        _ => NameClass::Object,
    }
}

/// What the name of a declaration stands for.
#[tactic(auto, unfolding(crate::specs::SeenDeclarations::local_class))]
pub(crate) fn local_class(local: &CLocal) -> NameClass
    ensures { result ≡ local_class local.now }
{
    match local {
        CLocal::Extern(..) => NameClass::Function,
        CLocal::StaticNumbers(..) | CLocal::StaticChars(..) => NameClass::Array,
        _ => NameClass::Object,
    }
}

/// A parameter.
pub(crate) fn parameter(alloc: Global, of: ParameterType, name: &[u8]) -> Result<CParam, AllocError>
    ensures { IfOk result (λ made. made ≡ a_parameter of name.now) }
{
    let name = copied(alloc, name)?;
    Ok(CParam { of, name })
}

/// A field that holds a string.
pub(crate) fn string_field(alloc: Global, bytes: &[u8]) -> Result<CField, AllocError>
    ensures { IfOk result (λ made. made ≡ field.Str bytes.now) }
{
    Ok(CField::Str(copied(alloc, bytes)?))
}

/// A field that holds the start of an array, or a function.
pub(crate) fn name_field(alloc: Global, name: &[u8]) -> Result<CField, AllocError>
    ensures { IfOk result (λ made. made ≡ field.Name name.now) }
{
    Ok(CField::Name(copied(alloc, name)?))
}

/// A function that stands elsewhere.
pub(crate) fn external<'a>(
    alloc: Global,
    of: ResultType,
    name: &'a [u8],
    types: Items<ArgumentType>,
) -> Result<Declared<'a>, AllocError>
    ensures { IfOk result (λ made. seen_declared made ≡ (local.Extern of name.now types, name.now)) }
{
    let local = CLocal::Extern(of, copied(alloc, name)?, types);
    Ok(Declared { local, name })
}

/// A number that lasts.
pub(crate) fn static_number<'a>(
    alloc: Global,
    of: NumberType,
    name: &'a [u8],
    value: Option<i32>,
) -> Result<Declared<'a>, AllocError>
    ensures { IfOk result (λ made. seen_declared made ≡ (local.StaticNumber of name.now value, name.now)) }
{
    let local = CLocal::StaticNumber(of, copied(alloc, name)?, value);
    Ok(Declared { local, name })
}

/// An array of numbers that lasts.
pub(crate) fn static_numbers<'a>(
    alloc: Global,
    of: NumberType,
    name: &'a [u8],
    count: u32,
    values: Option<Items<i32>>,
) -> Result<Declared<'a>, AllocError>
    ensures { IfOk result (λ made. seen_declared made ≡ (local.StaticNumbers of name.now count values, name.now)) }
{
    let local = CLocal::StaticNumbers(of, copied(alloc, name)?, count, values);
    Ok(Declared { local, name })
}

/// An array of characters that lasts.
pub(crate) fn static_chars<'a>(
    alloc: Global,
    name: &'a [u8],
    count: Option<u32>,
    bytes: Option<Text>,
) -> Result<Declared<'a>, AllocError>
    ensures { IfOk result (λ made. seen_declared made ≡ (local.StaticChars name.now count bytes, name.now)) }
{
    let local = CLocal::StaticChars(copied(alloc, name)?, count, bytes);
    Ok(Declared { local, name })
}

/// A list block.
pub(crate) fn static_list<'a>(
    alloc: Global,
    of: ListType,
    name: &'a [u8],
    fields: Items<CField>,
) -> Result<Declared<'a>, AllocError>
    ensures { IfOk result (λ made. seen_declared made ≡ (local.StaticList of name.now fields, name.now)) }
{
    let local = CLocal::StaticList(of, copied(alloc, name)?, fields);
    Ok(Declared { local, name })
}

/// A number.
pub(crate) fn number<'a>(
    alloc: Global,
    of: NumberType,
    name: &'a [u8],
) -> Result<Declared<'a>, AllocError>
    ensures { IfOk result (λ made. seen_declared made ≡ (local.Number of name.now, name.now)) }
{
    let local = CLocal::Number(of, copied(alloc, name)?);
    Ok(Declared { local, name })
}

/// An array of numbers.
pub(crate) fn numbers<'a>(
    alloc: Global,
    of: NumberType,
    name: &'a [u8],
    count: u32,
) -> Result<Declared<'a>, AllocError>
    ensures { IfOk result (λ made. seen_declared made ≡ (local.Numbers of name.now count, name.now)) }
{
    let local = CLocal::Numbers(of, copied(alloc, name)?, count);
    Ok(Declared { local, name })
}

/// An array of characters.
pub(crate) fn chars<'a>(
    alloc: Global,
    name: &'a [u8],
    count: u32,
) -> Result<Declared<'a>, AllocError>
    ensures { IfOk result (λ made. seen_declared made ≡ (local.Chars name.now count, name.now)) }
{
    let local = CLocal::Chars(copied(alloc, name)?, count);
    Ok(Declared { local, name })
}

/// An array of addresses.
pub(crate) fn addresses<'a>(
    alloc: Global,
    name: &'a [u8],
    count: u32,
) -> Result<Declared<'a>, AllocError>
    ensures { IfOk result (λ made. seen_declared made ≡ (local.Addresses name.now count, name.now)) }
{
    let local = CLocal::Addresses(copied(alloc, name)?, count);
    Ok(Declared { local, name })
}

/// An external array of integers.
pub(crate) fn external_integers<'a>(
    alloc: Global,
    name: &'a [u8],
    count: u32,
    values: Option<Items<i32>>,
) -> Result<Named<'a>, AllocError>
    ensures { IfOk result (λ made. seen_named made ≡ (object.Integers name.now count values, name.now)) }
{
    let object = CObject::Integers(copied(alloc, name)?, count, values);
    Ok(Named { object, name })
}

/// An external array of characters.
pub(crate) fn external_characters<'a>(
    alloc: Global,
    name: &'a [u8],
    count: u32,
    bytes: Option<Text>,
) -> Result<Named<'a>, AllocError>
    ensures { IfOk result (λ made. seen_named made ≡ (object.Chars name.now count bytes, name.now)) }
{
    let object = CObject::Chars(copied(alloc, name)?, count, bytes);
    Ok(Named { object, name })
}

/// A constant.
pub(crate) fn constant<'a>(
    alloc: Global,
    name: &'a [u8],
    value: i32,
) -> Result<NamedConstant<'a>, AllocError>
    ensures made { IfOk result (λ made. made.constant ≡ record { name = name.now; value = value }) }
    ensures named { IfOk result (λ made. made.name.now ≡ name.now) }
{
    let constant = CConstant {
        name: copied(alloc, name)?,
        value,
    };
    Ok(NamedConstant { constant, name })
}
