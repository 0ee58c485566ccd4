//! The text of prototypes.

ghost use Rattle.std.specs.Prelude.{◌≡◌, ◌++◌, true, OnOk, IfOk};
ghost use Rattle.std.specs.List.{list_all};
ghost use Rattle.c_text.specs.Declarations.{printed_param, printed_params};
ghost use Rattle.prototypes.specs.PrototypeText.{prototype_line, prototype_text, is_prototype};
ghost use Rattle.proto_file.specs.Lists.{SpellsAlone};
ghost use Rattle.proto_file.specs.Parts.{line_front, line_rest};

use crate::protos::Protos;
use crate::types::{parameter_front, result_word};
use c_tree::declaration::CParam;
use c_tree::types::ResultType;
use prototypes::Prototype;
use std::alloc::{AllocError, Global};

/// Appends a parameter.
fn print_param(param: &CParam, out: &mut Vec<u8>) -> Result<(), AllocError>
    ensures { OnOk result (out.new.items ≡ out.old.items ++ printed_param param.now) }
{
    out.extend_from_slice(parameter_front(param.of))?;
    out.extend_from_slice(param.name.as_slice())
}

/// Appends the parameters of a function, or `void`.
#[tactic(auto, using(std::proofs::lemmas::Grind::common_steps), unfolding(c_text::specs::Declarations::printed_params))]
fn print_params(params: &[CParam], out: &mut Vec<u8>) -> Result<(), AllocError>
    ensures { OnOk result (out.new.items ≡ out.old.items ++ printed_params params.now) }
{
    let Some((first, later)) = params.split_first() else {
        return out.extend_from_slice(b"void");
    };
    print_param(first, out)?;
    for param in later {
        out.extend_from_slice(b", ")?;
        print_param(param, out)?;
    }
    Ok(())
}

/// Appends the line of a prototype up to the name of the function.
#[tactic(auto, unfolding(crate::specs::Parts::line_front))]
fn print_front(of: ResultType, out: &mut Vec<u8>) -> Result<(), AllocError>
    ensures { OnOk result (out.new.items ≡ out.old.items ++ line_front of) }
{
    out.extend_from_slice(b"extern ")?;
    out.extend_from_slice(result_word(of))?;
    out.extend_from_slice(b" ")
}

/// Appends the line of a prototype from the name of the function on.
#[tactic(auto, unfolding(crate::specs::Parts::line_rest))]
fn print_rest(prototype: &Prototype, out: &mut Vec<u8>) -> Result<(), AllocError>
    ensures { OnOk result (out.new.items ≡ out.old.items ++ line_rest prototype.now) }
{
    out.extend_from_slice(prototype.name.as_slice())?;
    out.extend_from_slice(b"(")?;
    print_params(prototype.params.as_slice(), out)?;
    out.extend_from_slice(b");\n")
}

/// Appends the line of a prototype.
#[tactic(auto, using(crate::proofs::PartSteps::line_appended))]
pub(crate) fn print_prototype(prototype: &Prototype, out: &mut Vec<u8>) -> Result<(), AllocError>
    ensures { OnOk result (out.new.items ≡ out.old.items ++ prototype_line prototype.now) }
{
    print_front(prototype.result, out)?;
    print_rest(prototype, out)
}

/// The lines of prototypes.
#[tactic(auto, using(std::proofs::lemmas::Grind::common_steps))]
fn print_lines(alloc: Global, protos: &Protos) -> Result<Vec<u8>, AllocError>
    ensures { IfOk result (λ text. text.items ≡ prototype_text protos.now) }
{
    let mut out = Vec::new(alloc);
    for prototype in protos.as_slice() {
        print_prototype(prototype, &mut out)?;
    }
    Ok(out)
}

/// The text of prototypes, one line for each. Where a line may say each of them, it spells them and no others, so it is read back as them. An error says
/// that there is no memory for it.
pub fn print_protos(alloc: Global, protos: &Protos) -> Result<Vec<u8>, AllocError>
    ensures text { IfOk result (λ text. text.items ≡ prototype_text protos.now) }
    ensures spelled { IfOk result (λ text. list_all is_prototype protos.now ≡ true → SpellsAlone text.items protos.now) }
{
    let text = print_lines(alloc, protos)?;
    Ok(text)
}
