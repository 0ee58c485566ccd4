//! The four rules (C89, 3.1.2.2, 3.5.4 and 3.7.2).

ghost use Rattle.std.specs.Prelude.{◌≡◌, Bool, IfOk};
ghost use Rattle.c_tree.specs.Linking as tree;
ghost use Rattle.link_rules.specs.Rules.{rule_number, or_bytes, has_too_many_bytes};

use crate::definitions::defined_again;
use crate::mains::lacks_main;
use crate::missing::some_missing;
use c_tree::file::CFile;
use function_numbers::{defined_names, function_numbers};
use std::alloc::{AllocError, Global};

/// A rule that the files of a program must keep.
#[derive(Clone, Copy, Debug, PartialEq, Eq)]
pub enum LinkRule {
    /// There is a main program, and it has no parameters.
    Main,
    /// No function is defined twice or under a name of the library, and no external object has two images.
    Definitions,
    /// Each function that is mentioned is defined.
    Missing,
    /// The objects do not have too many bytes.
    Bytes,
}

impl LinkRule {
    /// The number of the rule.
    pub fn number(self) -> usize
        ensures { result ≡ rule_number self }
    {
        match self {
            LinkRule::Main => 1,
            LinkRule::Definitions => 2,
            LinkRule::Missing => 3,
            LinkRule::Bytes => 4,
        }
    }
}

/// The first of the rules before the last one that is broken.
fn first_broken(main: bool, again: bool, missing: bool) -> Option<LinkRule>
    ensures { (many : Bool) → tree.broken_rule main again missing many ≡ or_bytes result many }
{
    match (main, again, missing) {
        (true, _, _) => Some(LinkRule::Main),
        (false, true, _) => Some(LinkRule::Definitions),
        (false, false, true) => Some(LinkRule::Missing),
        (false, false, false) => None,
    }
}

/// The first rule that files break; whether they have too many bytes is told once they are linked.
#[tactic(auto, unfolding(c_tree::specs::Linking::first_broken_rule))]
pub fn broken_before_bytes(alloc: Global, files: &[CFile]) -> Result<Option<LinkRule>, AllocError>
    ensures { IfOk result (λ broken. tree.first_broken_rule files.now ≡ or_bytes broken (has_too_many_bytes files.now)) }
{
    let defined = defined_names(alloc, files)?;
    let numbers = function_numbers(alloc, defined.as_slice())?;
    let main = lacks_main(files);
    let again = defined_again(alloc, defined.as_slice(), files)?;
    let missing = some_missing(alloc, &numbers, files)?;
    Ok(first_broken(main, again, missing))
}
