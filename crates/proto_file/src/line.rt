//! A line of a prototype file: it is read by its words, and has to be the line that is printed of what is read.

ghost use Rattle.std.specs.Prelude.{◌≡◌, [], map, Some, IfOk, bytes_eq};
ghost use Rattle.prototypes.specs.PrototypeText.{prototype_line, are_parameters, is_prototype};
ghost use Rattle.c_scope.specs.ScopeSeen.{here_of};
ghost use Rattle.proto_file.specs.Parts.{is_new};
ghost use Rattle.prototype_laws.specs.Reading.{params_behind, prototype_in, if_told, line_prototype};

use crate::printer::print_prototype;
use crate::types::{result_named, type_named};
use crate::words::words_of;
use c_scope::{CScope, NameClass, is_name};
use c_tree::declaration::CParam;
use plain_data::Items;
use prototypes::Prototype;
use std::alloc::{AllocError, Global};

/// The parameters that pairs of words tell, of a type and of a name each. A word that stands alone is judged with its line.
#[tactic(auto, using(crate::proofs::LineSteps::param_steps, std::proofs::lemmas::Grind::common_steps))]
fn params_in(alloc: Global, words: &[&[u8]]) -> Result<Option<Items<CParam>>, AllocError>
    ensures { IfOk result (λ found. found ≡ params_behind [] (map (λ w. w.now) words.now)) }
{
    let mut params = Items::new(alloc);
    let mut rest = words;
    while let [word, name, more @ ..] = rest {
        let Some(of) = type_named(word) else {
            return Ok(None);
        };
        let name = Items::from_slice(alloc, name)?;
        params.push(CParam { of, name })?;
        rest = more;
    }
    Ok(Some(params))
}

/// The prototype that the words of a line tell.
#[tactic(auto, unfolding(prototype_laws::specs::Reading::prototype_in))]
fn prototype_in(alloc: Global, words: &[&[u8]]) -> Result<Option<Prototype>, AllocError>
    ensures { IfOk result (λ found. found ≡ prototype_in (map (λ w. w.now) words.now)) }
{
    let [_, gives, name, more @ ..] = words else {
        return Ok(None);
    };
    let Some(result) = result_named(gives) else {
        return Ok(None);
    };
    let Some(params) = params_in(alloc, more)? else {
        return Ok(None);
    };
    let name = Items::from_slice(alloc, name)?;
    Ok(Some(Prototype {
        result,
        name,
        params,
    }))
}

/// Whether a text is a name, and none of those that are declared.
#[tactic(auto, unfolding(crate::specs::Parts::is_new))]
fn is_new(names: &CScope, name: &[u8]) -> bool
    ensures { result ≡ is_new (here_of names.now) name.now }
{
    is_name(name) && !names.is_here(name)
}

/// Whether each parameter has a name, and no two of them the same (C89, 3.1.2.1).
#[tactic(auto, using(crate::proofs::LineSteps::name_steps, std::proofs::lemmas::Grind::common_steps))]
fn are_parameters(alloc: Global, params: &[CParam]) -> Result<bool, AllocError>
    ensures { IfOk result (λ are. are ≡ are_parameters [] params.now) }
{
    let mut names = CScope::new(alloc);
    let mut rest = params;
    while let [first, later @ ..] = rest {
        let name = first.name.as_slice();
        if is_new(&names, name) {
            names.declare(name, NameClass::Object)?;
        } else {
            return Ok(false);
        }
        rest = later;
    }
    Ok(true)
}

/// Whether a prototype is one that a line may say.
#[tactic(auto, unfolding(prototypes::specs::PrototypeText::is_prototype))]
fn is_prototype(alloc: Global, prototype: &Prototype) -> Result<bool, AllocError>
    ensures { IfOk result (λ is. is ≡ is_prototype prototype.now) }
{
    if is_name(prototype.name.as_slice()) {
        are_parameters(alloc, prototype.params.as_slice())
    } else {
        Ok(false)
    }
}

/// Whether a line is that of a prototype, byte for byte.
fn is_line_of(alloc: Global, prototype: &Prototype, line: &[u8]) -> Result<bool, AllocError>
    ensures { IfOk result (λ is. is ≡ bytes_eq (prototype_line prototype.now) line.now) }
{
    let mut printed = Vec::new(alloc);
    print_prototype(prototype, &mut printed)?;
    Ok(printed.as_slice() == line)
}

/// A prototype, where a line may say it and is its line.
#[tactic(auto, unfolding(prototype_laws::specs::Reading::if_told))]
fn if_told(
    alloc: Global,
    line: &[u8],
    prototype: Prototype,
) -> Result<Option<Prototype>, AllocError>
    ensures { IfOk result (λ found. found ≡ if_told line.now (Some prototype)) }
{
    if is_prototype(alloc, &prototype)? && is_line_of(alloc, &prototype, line)? {
        Ok(Some(prototype))
    } else {
        Ok(None)
    }
}

/// The prototype of a line, with the line feed that ends it.
#[tactic(auto, unfolding(prototype_laws::specs::Reading::line_prototype, prototype_laws::specs::Reading::if_told))]
pub(crate) fn read_line(alloc: Global, line: &[u8]) -> Result<Option<Prototype>, AllocError>
    ensures { IfOk result (λ found. found ≡ line_prototype line.now) }
{
    let words = words_of(alloc, line)?;
    match prototype_in(alloc, words.as_slice())? {
        Some(prototype) => if_told(alloc, line, prototype),
        None => Ok(None),
    }
}
