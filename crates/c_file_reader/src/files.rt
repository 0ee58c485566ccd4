//! The parts of a file in their order, and whole files (C89, 3.7).

ghost use Rattle.std.specs.Prelude.{◌≡◌, []};
ghost use Rattle.c_file_readers.specs.FileReader as reader;
ghost use Rattle.c_scope.specs.ScopeSeen.{here_of, file_scope_of, file_here_of};
ghost use Rattle.c_expression_reader.specs.Readings.{shown, Gives};

use crate::parts::{Part, is_end, next_part, no_parts};
use c_expression_reader::Failure;
use c_lexer::{CToken, PlacedCToken};
use c_scope::CScope;
use c_tree::file::CFile;
use std::alloc::Global;

/// The parts of a file, up to the end of the tokens: so many, and so many nests in each, at most.
#[tactic(auto, using(crate::proofs::PartSteps::part_steps), unfolding(crate::specs::PartsSeen::seen_part))]
fn all_parts<'a>(
    alloc: Global,
    scope: &mut CScope<'a>,
    tokens: &'a [PlacedCToken],
    nests: usize,
) -> Result<CFile, Failure<'a>>
    requires outside { here_of scope.old ≡ [] }
    ensures { Gives (λ file. (file, [])) result (reader.parts nests nests reader.Objects (file_scope_of scope.old) (file_here_of scope.old) reader.no_parts (shown tokens.now)) }
{
    let mut file = no_parts(alloc);
    let mut part = Part::Objects;
    let mut rest = tokens;
    let mut left = nests;
    while left > 0 {
        left -= 1;
        if is_end(rest) {
            return Ok(file);
        }
        let (read, behind) = next_part(alloc, scope, part, file, rest, nests)?;
        part = read.0;
        file = read.1;
        rest = behind;
    }
    Err(Failure::Memory)
}

/// The file that tokens spell: the include line, and what stands behind it. Each list is of so many items, and so many nests are open, at most.
///
/// # Errors
///
/// The tokens from the first one on with which nothing goes on, or want of memory.
#[tactic(auto, unfolding(c_expression_reader::specs::Readings::shown, c_lexer::specs::SeenTokens::seen, c_file_readers::specs::FileReader::a_file))]
pub(crate) fn read_file<'a>(
    alloc: Global,
    tokens: &'a [PlacedCToken],
    nests: usize,
) -> Result<CFile, Failure<'a>>
    ensures { Gives (λ file. (file, [])) result (reader.a_file nests (shown tokens.now)) }
{
    match tokens {
        [
            PlacedCToken {
                token: CToken::Including,
                ..
            },
            rest @ ..,
        ] => {
            let mut scope = CScope::new(alloc);
            all_parts(alloc, &mut scope, rest, nests)
        }
        _ => Err(Failure::NotC(tokens)),
    }
}
