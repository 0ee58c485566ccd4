//! F07 of INCLUDE: the cards of a file and of those that it includes.

ghost use Rattle.std.specs.Prelude.{◌≡◌, ◌<◌, ◌^◌, length, IfOk, IfSome, List, ℕ};
ghost use Rattle.source_acceptance.specs.SourceFiles.{included_name};
ghost use Rattle.source_reader.specs.Limits.{first_named, value_named, count_in, count_at, added, passes, passing, first_passing};

use crate::mentions::included_name;
use cards::Cards;
use f_tree::{Kind, Refusal, Text};
use fortran_text::Statement;
use std::alloc::{AllocError, Global};
use std::collections::HashMap;

/// The most cards that a file has with those that it includes.
const MOST_CARDS: u64 = 65_536;

/// The values of names: where a name stands more than once, the first.
pub(crate) fn by_name<'a, V: Copy>(
    alloc: Global,
    names: &'a [Text],
    values: &[V],
) -> Result<HashMap<&'a [u8], V>, AllocError>
    requires { length names.now ≡ length values.now }
    ensures { IfOk result (λ map. (name : List ℕ) → value_named map name ≡ first_named names.now values.now name) }
{
    let mut map = HashMap::new(alloc);
    let mut left = names.len();
    while left > 0 {
        left -= 1;
        map.insert(names[left].as_slice(), values[left])?;
    }
    Ok(map)
}

/// How many cards a name counts.
fn count_in(counts: &HashMap<&[u8], u32>, name: &[u8]) -> u32
    ensures { result ≡ count_in counts.now name.now }
{
    counts.get(name).copied().unwrap_or(0)
}

/// How many cards the file counts that a statement includes, if it includes one.
fn count_at(
    alloc: Global,
    counts: &HashMap<&[u8], u32>,
    statement: &Statement,
) -> Result<Option<u32>, AllocError>
    ensures { IfOk result (λ count. count ≡ count_at (count_in counts.now) (included_name statement.now)) }
{
    match included_name(alloc, statement)? {
        Some(name) => Ok(Some(count_in(counts, name.as_slice()))),
        None => Ok(None),
    }
}

/// A sum with what is added to it; none where that is more than the greatest number of cards.
#[tactic(auto, unfolding(fortran_text::specs::FirstFault::most_cards))]
fn added(sum: u64, more: Option<u32>) -> Option<u64>
    requires { sum < 2 ^ 32 }
    ensures value { result ≡ added sum more }
    ensures few { IfSome result (λ n. n < 2 ^ 32) }
{
    match more {
        Some(more) => {
            let sum = sum + u64::from(more);
            if sum > MOST_CARDS { None } else { Some(sum) }
        }
        None => Some(sum),
    }
}

/// The card at which a file passes the greatest number of cards with those that it includes.
fn passes(
    alloc: Global,
    counts: &HashMap<&[u8], u32>,
    cards: &Cards,
) -> Result<Option<u32>, AllocError>
    ensures { IfOk result (λ card. card ≡ passes (count_in counts.now) cards.now.cards cards.now.statements) }
{
    let mut sum = u64::from(cards.cards());
    for statement in cards.statements() {
        match added(sum, count_at(alloc, counts, statement)?) {
            Some(more) => sum = more,
            None => return Ok(Some(statement.card)),
        }
    }
    Ok(None)
}

/// F07 of INCLUDE in a file with a number.
fn passing(
    alloc: Global,
    counts: &HashMap<&[u8], u32>,
    file: usize,
    cards: &Cards,
) -> Result<Option<Refusal>, AllocError>
    ensures { IfOk result (λ refusal. refusal ≡ passing (count_in counts.now) file cards.now) }
{
    match passes(alloc, counts, cards)? {
        Some(card) => Ok(Some(Refusal {
            file,
            card,
            kind: Kind::FileTooLong,
        })),
        None => Ok(None),
    }
}

/// F07 of INCLUDE in the first file that has it.
pub(crate) fn first_passing(
    alloc: Global,
    counts: &HashMap<&[u8], u32>,
    files: &[Cards],
) -> Result<Option<Refusal>, AllocError>
    ensures { IfOk result (λ refusal. refusal ≡ first_passing (count_in counts.now) 0 files.now) }
{
    for (file, cards) in files.iter().enumerate() {
        let found = passing(alloc, counts, file, cards)?;
        if found.is_some() {
            return Ok(found);
        }
    }
    Ok(None)
}
