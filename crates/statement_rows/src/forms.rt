//! What a statement is.

use f_tree::{Body, Expr};
use std::fmt::{self, Display, Formatter, Write};

/// What a statement is, with the name that tells it from others that look like it.
#[derive(Clone, Copy, Debug, PartialEq, Eq)]
pub enum Form<'a> {
    AssignsVariable(&'a [u8]),
    AssignsElement(&'a [u8]),
    Loop(&'a [u8]),
    BranchBySign(&'a [u8]),
    BranchByNumber(&'a [u8]),
    SetsLabel(&'a [u8]),
    Array(&'a [u8]),
    Closes,
    Other,
}

/// The name that an expression is, or that has a list in it.
fn name_of(e: &Expr) -> &[u8] {
    match e {
        Expr::Name(name) | Expr::Apply(name, _) => name.as_slice(),
        _ => b"",
    }
}

/// An assignment to a variable or to an element of an array.
fn assignment(target: &Expr) -> Form {
    match target {
        Expr::Name(name) => Form::AssignsVariable(name.as_slice()),
        Expr::Apply(name, _) => Form::AssignsElement(name.as_slice()),
        _ => Form::Other,
    }
}

/// What a statement is.
pub fn form_of(body: &Body) -> Form {
    match body {
        Body::Assign(target, _) => assignment(target),
        Body::Do(_, control) => Form::Loop(control.variable.as_slice()),
        Body::IfSign(e, _, _, _) => Form::BranchBySign(name_of(e)),
        Body::GotoList(_, e) => Form::BranchByNumber(name_of(e)),
        Body::AssignLabel(_, name) => Form::SetsLabel(name.as_slice()),
        Body::Declare(_, items) => match items.as_slice() {
            [item] => Form::Array(item.name.as_slice()),
            _ => Form::Other,
        },
        Body::EndIf => Form::Closes,
        _ => Form::Other,
    }
}

/// A name, as text.
fn text_of(name: &[u8]) -> &str {
    str::from_utf8(name).unwrap_or("no text")
}

impl<'a> Display for Form<'a> {
    fn fmt<W: Write>(&self, f: &mut Formatter<W>) -> fmt::Result {
        match self {
            Form::AssignsVariable(name) => write!(
                f,
                "assignment to the variable {}",
                text_of(name)
            ),
            Form::AssignsElement(name) => write!(
                f,
                "assignment to an element of {}",
                text_of(name)
            ),
            Form::Loop(name) => write!(f, "DO of {}", text_of(name)),
            Form::BranchBySign(name) => write!(f, "arithmetic IF of {}", text_of(name)),
            Form::BranchByNumber(name) => write!(f, "computed GO TO of {}", text_of(name)),
            Form::SetsLabel(name) => write!(f, "ASSIGN to {}", text_of(name)),
            Form::Array(name) => write!(f, "type statement of {}", text_of(name)),
            Form::Closes => write!(f, "END IF"),
            Form::Other => write!(f, "another statement"),
        }
    }
}
