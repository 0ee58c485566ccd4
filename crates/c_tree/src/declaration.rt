//! Declarations at the head of a function (C89, 3.5).
use crate::expression::Text;
use crate::types::{ArgumentType, ListType, NumberType, ParameterType, ResultType};
use plain_data::Items;

/// A parameter of a function.
#[derive(Drop)]
pub struct CParam {
    /// Its type.
    pub of: ParameterType,
    /// Its name.
    pub name: Text,
}

/// A field of a list block, before the program runs.
#[derive(Drop)]
pub enum CField {
    /// A number; 0 in a pointer field is the null pointer.
    Number(i32),
    /// A string.
    Str(Text),
    /// The name of an array, a pointer to its start.
    Name(Text),
}

/// A declaration inside a function. A length counts elements, from 1 to 2147483647.
#[derive(Drop)]
pub enum CLocal {
    /// `extern result name(types);`
    Extern(ResultType, Text, Items<ArgumentType>),
    /// `static integer name;`, with the value that it starts with where one is written.
    StaticNumber(NumberType, Text, Option<i32>),
    /// `static integer name[length];`, with the values that its elements start with where they
    /// are written.
    StaticNumbers(NumberType, Text, u32, Option<Items<i32>>),
    /// `static char name[length];`, with the string that it starts with where one is written.
    /// Where no length is written, the string and its zero byte give it.
    StaticChars(Text, Option<u32>, Option<Text>),
    /// `static cilist name = { .. };` and its like.
    StaticList(ListType, Text, Items<CField>),
    /// `integer name;`
    Number(NumberType, Text),
    /// `integer name[length];`
    Numbers(NumberType, Text, u32),
    /// `char name[length];`
    Chars(Text, u32),
    /// `address name[length];`
    Addresses(Text, u32),
}
