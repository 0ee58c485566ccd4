//! The cases of a switch (C89, 3.6.4.2).

ghost use Rattle.std.specs.Prelude.{◌≡◌, ◌≤◌, [], IfOk};
ghost use Rattle.c_tree.specs.CLabels.{both};
ghost use Rattle.c_readers.specs.Readers.{a_name};
ghost use Rattle.c_readers.specs.ValueReader.{a_number};
ghost use Rattle.c_expression_reader.specs.Readings.{shown, Gives};
ghost use Rattle.c_statement_readers.specs.CaseReader as reader;
ghost use Rattle.c_statement_readers.specs.LabelTests.{may_be_named};
ghost use Rattle.c_statement_reader.specs.CaseLists.{cases_in};
ghost use Rattle.c_statement_reader.specs.Endings.{case_ending};
ghost use Rattle.c_statement_reader.specs.LabelCounts.{naming, case_labels};
ghost use Rattle.c_statement_reader.specs.LabelLists.{labels_seen};

use crate::case_list::CaseList;
use crate::labels::LabelsSeen;
use crate::signs::is_closing_brace;
use c_expression_reader::{Failure, a_sign, a_word};
use c_lexer::{CSign, CToken, PlacedCToken};
use c_tree::statement::CCase;
use plain_data::Items;
use std::alloc::Global;

/// A label that may be named, and the tokens behind it.
#[tactic(auto, unfolding(c_expression_reader::specs::Readings::shown, c_lexer::specs::SeenTokens::seen, c_readers::specs::Readers::a_name))]
pub(crate) fn a_label<'a>(
    labels: &LabelsSeen<'a>,
    tokens: &'a [PlacedCToken],
) -> Result<(&'a [u8], &'a [PlacedCToken]), Failure<'a>>
    ensures { Gives (λ p. (p.0.now, shown p.1.now)) result (a_name (may_be_named (labels_seen labels.now).stand) (shown tokens.now)) }
{
    match tokens {
        [
            PlacedCToken {
                token: CToken::Word(text),
                ..
            },
            rest @ ..,
        ] if labels.may_be_named(text.as_slice()) => Ok((text.as_slice(), rest)),
        _ => Err(Failure::NotC(tokens)),
    }
}

/// A number that stands behind no `case` yet, and the tokens behind it.
#[tactic(auto, unfolding(c_expression_reader::specs::Readings::shown, c_lexer::specs::SeenTokens::seen, c_readers::specs::ValueReader::a_number))]
fn a_new_number<'a>(
    read: &CaseList,
    tokens: &'a [PlacedCToken],
) -> Result<(u32, &'a [PlacedCToken]), Failure<'a>>
    ensures read { Gives (λ p. (p.0, shown p.1.now)) result (a_number (reader.is_new_number (cases_in read.now)) (shown tokens.now)) }
    ensures within { IfOk result (λ p. p.0 ≤ 2147483647) }
{
    match tokens {
        [
            PlacedCToken {
                token: CToken::Digits(value),
                ..
            },
            rest @ ..,
        ] if read.is_new(*value) => Ok((*value, rest)),
        _ => Err(Failure::NotC(tokens)),
    }
}

/// Behind `case`: the number, and the label to which it goes.
#[tactic(auto, unfolding(c_statement_readers::specs::CaseReader::one_case, c_lexer::specs::SeenTokens::sign_codes))]
fn one_case<'a>(
    labels: &LabelsSeen<'a>,
    read: &CaseList,
    tokens: &'a [PlacedCToken],
) -> Result<((u32, &'a [u8]), &'a [PlacedCToken]), Failure<'a>>
    ensures read { Gives (λ p. (reader.case_of p.0.0 p.0.1.now, shown p.1.now)) result (reader.one_case (labels_seen labels.now).stand (cases_in read.now) (shown tokens.now)) }
    ensures within { IfOk result (λ p. p.0.0 ≤ 2147483647) }
{
    let (number, rest) = a_new_number(read, tokens)?;
    let rest = a_sign(CSign::Colon, rest)?;
    let rest = a_word(b"goto", rest)?;
    let (label, rest) = a_label(labels, rest)?;
    let rest = a_sign(CSign::Semicolon, rest)?;
    Ok(((number, label), rest))
}

/// Whether the cases end, with the tokens behind the brace, or another one begins, with the tokens behind its word.
#[tactic(auto, unfolding(c_expression_reader::specs::Readings::shown, c_lexer::specs::SeenTokens::seen, crate::specs::Endings::case_ending))]
fn case_ending<'a>(
    read: &CaseList,
    tokens: &'a [PlacedCToken],
) -> Result<(bool, &'a [PlacedCToken]), Failure<'a>>
    ensures { Gives (λ p. (p.0, shown p.1.now)) result (case_ending (cases_in read.now) (shown tokens.now)) }
{
    let [first, rest @ ..] = tokens else {
        return Err(Failure::NotC(tokens));
    };
    match &first.token {
        CToken::Word(text) if text.as_slice() == b"case".as_slice() && read.leaves_number() => {
            Ok((false, rest))
        }
        CToken::Sign(sign) if is_closing_brace(*sign) => Ok((true, rest)),
        _ => Err(Failure::NotC(tokens)),
    }
}

/// The cases of a switch up to its closing brace, and the tokens behind it: so many at most. No number stands twice, and each label is one that
/// may be named.
///
/// # Errors
///
/// The tokens from the first one on with which nothing goes on, or want of memory.
#[tactic(auto, using(crate::proofs::CaseSteps::case_steps))]
pub fn read_cases<'a>(
    alloc: Global,
    labels: &mut LabelsSeen<'a>,
    tokens: &'a [PlacedCToken],
    count: usize,
) -> Result<(Items<CCase>, &'a [PlacedCToken]), Failure<'a>>
    ensures read { Gives (λ p. (p.0, shown p.1.now)) result (reader.cases count (labels_seen labels.old).stand [] (shown tokens.now)) }
    ensures labels { IfOk result (λ p. labels_seen labels.new ≡ both (labels_seen labels.old) (naming (case_labels p.0))) }
{
    let mut found = CaseList::new(alloc);
    let mut rest = tokens;
    let mut left = count;
    while left > 0 {
        left -= 1;
        let (ends, behind) = case_ending(&found, rest)?;
        if ends {
            return Ok((found.into_cases(), behind));
        }
        let ((number, label), behind) = one_case(labels, &found, behind)?;
        labels.name(label)?;
        found = found.with(alloc, number, label)?;
        rest = behind;
    }
    Err(Failure::Memory)
}
