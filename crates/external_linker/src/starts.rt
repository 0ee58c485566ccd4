//! External objects as their files declare them (C89, 3.7.2).

ghost use Rattle.std.specs.Prelude.{◌≡◌, ◌*◌, option_map};
ghost use Rattle.c_tree.specs.Declarations.{number_bytes};
ghost use Rattle.c_tree.specs.Linking as tree;
ghost use Rattle.external_linker.specs.Externals.{external_of, image_of, merged};

use c_tree::expression::Text;
use c_tree::file::CObject;
use plain_data::Items;

/// What an object starts with.
#[derive(Clone, Copy)]
pub enum StartBytes<'a> {
    /// Numbers, of four bytes each.
    Numbers(&'a [i32]),
    /// The bytes of a string.
    Text(&'a [u8]),
}

/// An external object.
#[derive(Clone, Copy)]
pub struct ExternalObject<'a> {
    /// Its name.
    pub name: &'a [u8],
    /// How many bytes it has.
    pub size: usize,
    /// What it starts with where a file says so.
    pub image: Option<StartBytes<'a>>,
}

/// Numbers that an object starts with, if there are some.
fn numbers_image(values: &Option<Items<i32>>) -> Option<StartBytes<'_>>
    ensures { option_map image_of result ≡ option_map number_bytes values.now }
{
    match values {
        None => None,
        Some(values) => Some(StartBytes::Numbers(values.as_slice())),
    }
}

/// A string that an object starts with, if there is one.
fn text_image(text: &Option<Text>) -> Option<StartBytes<'_>>
    ensures { option_map image_of result ≡ text.now }
{
    match text {
        None => None,
        Some(text) => Some(StartBytes::Text(text.as_slice())),
    }
}

/// The object that a declaration of a file gives.
pub(crate) fn declared<'a>(object: &'a CObject) -> ExternalObject<'a>
    ensures { external_of result ≡ tree.external object.now }
{
    match object {
        CObject::Integers(name, count, values) => ExternalObject {
            name: name.as_slice(),
            size: 4 * *count as usize,
            image: numbers_image(values),
        },
        CObject::Chars(name, size, text) => ExternalObject {
            name: name.as_slice(),
            size: *size as usize,
            image: text_image(text),
        },
    }
}

/// The image of an object that is declared again: the first one.
fn first_image<'a>(
    known: Option<StartBytes<'a>>,
    new: Option<StartBytes<'a>>,
) -> Option<StartBytes<'a>>
    ensures { option_map image_of result ≡ tree.or_else (option_map image_of known.entry) (option_map image_of new.entry) }
{
    match known {
        Some(image) => Some(image),
        None => new,
    }
}

/// An object that is declared again: of the greater size, and with the first image.
pub(crate) fn merged<'a>(known: ExternalObject<'a>, new: ExternalObject<'a>) -> ExternalObject<'a>
    ensures { external_of result ≡ merged (external_of known.entry) (external_of new.entry) }
{
    ExternalObject {
        name: known.name,
        size: known.size.max(new.size),
        image: first_image(known.image, new.image),
    }
}
