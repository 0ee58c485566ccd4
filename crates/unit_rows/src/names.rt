//! What a name is, as text.

use f_tree::{Basic, Class};
use name_facts::{Bound, ConstantValue, NameFact};
use std::fmt::{self, Display, Formatter, Write};

/// A name or a constant, as text.
pub fn text_of(bytes: &[u8]) -> &str {
    str::from_utf8(bytes).unwrap_or("no text")
}

/// The word for a class.
fn class_word(class: Class) -> &'static str {
    match class {
        Class::Constant => "constant",
        Class::Stored => "stored",
        Class::Dummy => "dummy",
        Class::Result => "result",
        Class::Procedure => "procedure",
        Class::DummyProcedure => "dummy procedure",
        Class::StatementFunction => "statement function",
        Class::Intrinsic => "intrinsic",
        Class::Unit => "unit",
    }
}

/// The word for a type.
fn type_word(basic: Basic) -> &'static str {
    match basic {
        Basic::Integer => "INTEGER",
        Basic::Logical => "LOGICAL",
        Basic::Character => "CHARACTER",
        Basic::Untyped => "no type",
    }
}

/// The type of a name with its length, or with its width where that is not 4.
#[derive(Drop)]
pub struct TypeText<'a>(&'a NameFact);

impl<'a> Display for TypeText<'a> {
    fn fmt<W: Write>(&self, f: &mut Formatter<W>) -> fmt::Result {
        let word = type_word(self.0.basic);
        match (self.0.basic, self.0.width) {
            (Basic::Character, Some(length)) => write!(f, "{word}*{length}"),
            (Basic::Character, None) => write!(f, "{word} of no length"),
            (_, Some(4)) => write!(f, "{word}"),
            (_, Some(width)) => write!(f, "{word} of width {width}"),
            (_, None) => write!(f, "{word} of no width"),
        }
    }
}

/// The constant bounds of dimensions.
#[derive(Drop)]
pub struct BoundsText<'a>(&'a [Bound]);

impl<'a> Display for BoundsText<'a> {
    fn fmt<W: Write>(&self, f: &mut Formatter<W>) -> fmt::Result {
        for bound in self.0 {
            match bound.upper {
                Some(upper) => write!(f, " {}:{upper}", bound.lower)?,
                None => write!(f, " {}:*", bound.lower)?,
            }
        }
        Ok(())
    }
}

/// The dimensions of a name, if it has some.
#[derive(Drop)]
pub struct DimensionsText<'a>(&'a NameFact);

impl<'a> Display for DimensionsText<'a> {
    fn fmt<W: Write>(&self, f: &mut Formatter<W>) -> fmt::Result {
        let rank = self.0.rank;
        let bounds = BoundsText(self.0.bounds.as_slice());
        let end = if self.0.sized { "" } else { ", the last one *" };
        match rank {
            0 => write!(f, "{bounds}{end}"),
            1 => write!(f, ", 1 dimension{bounds}{end}"),
            _ => write!(f, ", {rank} dimensions{bounds}{end}"),
        }
    }
}

/// The value of a name, if it has one.
#[derive(Drop)]
pub struct ValueText<'a>(Option<&'a ConstantValue>);

impl<'a> Display for ValueText<'a> {
    fn fmt<W: Write>(&self, f: &mut Formatter<W>) -> fmt::Result {
        match self.0 {
            Some(ConstantValue::Integer(number)) => write!(f, " = {number}"),
            Some(ConstantValue::Logical(true)) => write!(f, " = .TRUE."),
            Some(ConstantValue::Logical(false)) => write!(f, " = .FALSE."),
            Some(ConstantValue::Text(text)) => write!(f, " = '{}'", text_of(text.as_slice())),
            Some(ConstantValue::Label(label)) => write!(f, " = label {label}"),
            None => Ok(()),
        }
    }
}

/// What a name is.
#[derive(Drop)]
pub struct FactText<'a>(pub &'a NameFact);

impl<'a> Display for FactText<'a> {
    fn fmt<W: Write>(&self, f: &mut Formatter<W>) -> fmt::Result {
        let class = class_word(self.0.class);
        let basic = TypeText(self.0);
        let dimensions = DimensionsText(self.0);
        let value = ValueText(self.0.constant.as_ref());
        write!(f, "{class}, {basic}{dimensions}{value}")
    }
}
