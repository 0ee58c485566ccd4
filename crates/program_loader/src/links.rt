//! Files that are linked, and why files are not (C89, 3.1.2.2 and 3.7).

ghost use Rattle.std.specs.Prelude.{◌≡◌, IfErr, IfOk, OnOk};
ghost use Rattle.c_tree.specs.Linking as linking;
ghost use Rattle.linked_programs.specs.LinkedPrograms.{program_of};
ghost use Rattle.c_totality.specs.Totality.{AreWellFormed};
ghost use Rattle.program_loader.specs.declared.links.LoadFail.TheVariants.{NoMemory};
ghost use Rattle.program_loader.specs.Loaded.{IsNotLoaded, KeepsFirstRules};

use c_linker::link_files;
use c_tree::file::CFile;
use expression_linker::LinkFail;
use known_code::known::linked_code_is_known;
use link_rules::{LinkRule, broken_before_bytes, has_too_many_bytes};
use linked_programs::LinkedProgram;
use std::alloc::{AllocError, Global};

/// Why a program is not loaded.
#[derive(Clone, Copy, Debug, PartialEq, Eq)]
pub enum LoadFail {
    /// No memory is left.
    NoMemory,
    /// The files break this rule of linking, the least one.
    Link(u8),
}

impl From<AllocError> for LoadFail {
    ghost from_gives = { λ _ failure. failure ≡ NoMemory };

    fn from(_error: AllocError) -> LoadFail {
        LoadFail::NoMemory
    }
}

/// Files keep the rules of linking before the one on bytes.
fn keep_first_rules(alloc: Global, files: &[CFile]) -> Result<(), LoadFail>
    ensures kept { OnOk result (KeepsFirstRules files.now) }
    ensures refused { IfErr result (IsNotLoaded files.now) }
{
    match broken_before_bytes(alloc, files) {
        Ok(None) => Ok(()),
        Ok(Some(rule)) => Err(LoadFail::Link(rule.number() as u8)),
        Err(_) => Err(LoadFail::NoMemory),
    }
}

/// The program of well-formed files that keep the rules before the one on bytes: each of its names stands for something.
fn linked(alloc: Global, files: &[CFile]) -> Result<LinkedProgram, LoadFail>
    requires formed { AreWellFormed files.now }
    requires kept { KeepsFirstRules files.now }
    ensures linked { IfOk result (λ program. program_of program ≡ linking.program files.now) }
    ensures refused { IfErr result (IsNotLoaded files.now) }
{
    linked_code_is_known();
    match link_files(alloc, files) {
        Ok(program) => Ok(program),
        Err(LinkFail::Memory) => Err(LoadFail::NoMemory),
        Err(LinkFail::Unknown) => unreachable!(),
    }
}

/// The program of files that keep the rules before the one on bytes does not have too many bytes.
fn keep_last_rule(_files: &[CFile], program: &LinkedProgram) -> Result<(), LoadFail>
    requires kept { KeepsFirstRules _files.now }
    requires linked { program_of program.now ≡ linking.program _files.now }
    ensures kept { OnOk result (linking.first_broken_rule _files.now ≡ None) }
    ensures refused { IfErr result (IsNotLoaded _files.now) }
{
    if has_too_many_bytes(program) {
        return Err(LoadFail::Link(LinkRule::Bytes.number() as u8));
    }
    Ok(())
}

/// The program of well-formed files that keep the rules of linking.
pub(crate) fn link(alloc: Global, files: &[CFile]) -> Result<LinkedProgram, LoadFail>
    requires { AreWellFormed files.now }
    ensures rules { OnOk result (linking.first_broken_rule files.now ≡ None) }
    ensures linked { IfOk result (λ program. program_of program ≡ linking.program files.now) }
    ensures refused { IfErr result (IsNotLoaded files.now) }
{
    keep_first_rules(alloc, files)?;
    let program = linked(alloc, files)?;
    keep_last_rule(files, &program)?;
    Ok(program)
}
