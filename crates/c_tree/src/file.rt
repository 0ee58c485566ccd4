//! Files: external objects, constants and functions (C89, 3.7).
use crate::declaration::{CLocal, CParam};
use crate::expression::Text;
use crate::statement::CStmt;
use crate::types::ResultType;
use plain_data::Items;

/// An external object: an array of `length` elements, from 1 to 2147483647.
#[derive(Drop)]
pub enum CObject {
    /// `integer name[length];`, with the values that its elements start with where they are
    /// written.
    Integers(Text, u32, Option<Items<i32>>),
    /// `char name[length];`, with the string that it starts with where one is written.
    Chars(Text, u32, Option<Text>),
}

/// `static integer name = value;`
#[derive(Drop)]
pub struct CConstant {
    /// Its name.
    pub name: Text,
    /// Its value.
    pub value: i32,
}

/// A function.
#[derive(Drop)]
pub struct CFunction {
    /// What it gives its caller.
    pub result: ResultType,
    /// Its name.
    pub name: Text,
    /// Its parameters, from the left.
    pub params: Items<CParam>,
    /// The declarations at its head, in order.
    pub locals: Items<CLocal>,
    /// Its statements, in order.
    pub body: Items<CStmt>,
}

/// A file: what stands behind its include line, in order.
#[derive(Drop)]
pub struct CFile {
    /// The external objects.
    pub objects: Items<CObject>,
    /// The constants.
    pub constants: Items<CConstant>,
    /// The functions.
    pub functions: Items<CFunction>,
}
