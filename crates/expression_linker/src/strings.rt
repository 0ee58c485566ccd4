//! The strings in expressions and calls (C89, 3.1.4).

ghost use Rattle.std.specs.Prelude.{◌≡◌, ◌∷◌, ◌++◌, [], OnOk};
ghost use Rattle.c_tree.specs.LinkedExpressions as tree;
ghost use Rattle.expression_linker.specs.StringsSeen.{texts};

use c_tree::expression::{CCall, CExpr};
use std::alloc::AllocError;

/// Puts a string behind others.
pub fn put_string<'a>(out: &mut Vec<&'a [u8]>, bytes: &'a [u8]) -> Result<(), AllocError>
    ensures { OnOk result (texts out.new.items ≡ texts out.old.items ++ bytes.now ∷ []) }
{
    out.push(bytes)?;
    Ok(())
}

/// Puts the strings of an expression behind others.
pub fn put_strings<'a>(out: &mut Vec<&'a [u8]>, e: &'a CExpr) -> Result<(), AllocError>
    ensures { OnOk result (texts out.new.items ≡ texts out.old.items ++ (tree.linked e.now).strings) }
{
    match e {
        CExpr::Number(_) => Ok(()),
        CExpr::Str(bytes) => put_string(out, bytes.as_slice()),
        CExpr::Name(_) => Ok(()),
        CExpr::Unary(_, operand) => put_strings(out, operand.get()),
        CExpr::Cast(_, operand) => put_strings(out, operand.get()),
        CExpr::Binary(_, left, right) => {
            put_strings(out, left.get())?;
            put_strings(out, right.get())
        }
        CExpr::Choose(test, first, second) => {
            put_strings(out, test.get())?;
            put_strings(out, first.get())?;
            put_strings(out, second.get())
        }
        CExpr::Index(array, index) => {
            put_strings(out, array.get())?;
            put_strings(out, index.get())
        }
        CExpr::Field(operand, _) => put_strings(out, operand.get()),
        CExpr::SizeInt => Ok(()),
        CExpr::MaxMin(_, left, right) => {
            put_strings(out, left.get())?;
            put_strings(out, right.get())
        }
        CExpr::Abs(operand) => put_strings(out, operand.get()),
    }
}

/// Puts the strings of expressions behind others.
#[tactic(auto, using(crate::proofs::ArgumentLaws::string_laws, std::proofs::lemmas::Grind::common_steps))]
fn put_all_strings<'a>(out: &mut Vec<&'a [u8]>, list: &'a [CExpr]) -> Result<(), AllocError>
    ensures { OnOk result (texts out.new.items ≡ texts out.old.items ++ (tree.linked_all list.now).strings) }
{
    for e in list {
        put_strings(out, e)?;
    }
    Ok(())
}

/// Puts the strings of a call behind others.
pub fn put_call_strings<'a>(out: &mut Vec<&'a [u8]>, call: &'a CCall) -> Result<(), AllocError>
    ensures { OnOk result (texts out.new.items ≡ texts out.old.items ++ (tree.linked_call call.now).strings) }
{
    put_all_strings(out, call.arguments.as_slice())
}
