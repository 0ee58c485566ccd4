//! The names of the files that statements include. MIL-STD-1753: INCLUDE.

ghost use Rattle.std.specs.Prelude.{◌≡◌, ◌++◌, [], IfOk};
ghost use Rattle.std.specs.Option.{option_to_list};
ghost use Rattle.fortran_lexemes.specs.declared.kinds.StmtKind.TheVariants as kind;
ghost use Rattle.fortran_grammar.specs.UnitsOfFile.{pieces_of, may_stand};
ghost use Rattle.stmt_lex.specs.SeenTokens.{seen};
ghost use Rattle.source_acceptance.specs.SourceFiles.{quoted_name, included_name, names_in, first_mentions};
ghost use Rattle.source_reader.specs.Mentions.{mentioned_in_cards, name_where_it_stands, is_include, span_of, span_behind, quoted_span};

use cards::Cards;
use expression_parse::constant_text;
use f_tree::Text;
use fortran_lexemes::StmtKind;
use fortran_text::{Character, Statement};
use plain_data::Items;
use std::alloc::{AllocError, Global};
use std::collections::HashSet;
use stmt_lex::{LexFail, Span, Token, classify, tokens};

/// The length of the text of one card, in columns.
const ONE_CARD: usize = 66;

/// The names of files, each once, in the order in which they are first mentioned.
pub(crate) fn first_mentions(alloc: Global, mentions: &[Text]) -> Result<Items<Text>, AllocError>
    ensures { IfOk result (λ names. names ≡ first_mentions [] mentions.now) }
{
    let mut names = Items::new(alloc);
    let mut seen = HashSet::new(alloc);
    for name in mentions {
        if seen.insert(name.as_slice())? {
            names.push(Items::from_slice(alloc, name.as_slice())?)?;
        }
    }
    Ok(names)
}

/// The names of the files that files include, in the order in which they are mentioned, each as often as it is.
pub(crate) fn mentioned_in_files(alloc: Global, files: &[Cards]) -> Result<Items<Text>, AllocError>
    ensures { IfOk result (λ names. names ≡ mentioned_in_cards files.now) }
{
    let mut names = Items::new(alloc);
    for cards in files {
        names.append(names_in(alloc, cards.statements())?)?;
    }
    Ok(names)
}

/// The names of the files that statements include.
fn names_in(alloc: Global, statements: &[Statement]) -> Result<Items<Text>, AllocError>
    ensures { IfOk result (λ names. names ≡ names_in statements.now) }
{
    let mut names = Items::new(alloc);
    for statement in statements {
        names = with_name(names, included_name(alloc, statement)?)?;
    }
    Ok(names)
}

/// Names, and one more, if there is one.
fn with_name(names: Items<Text>, name: Option<Text>) -> Result<Items<Text>, AllocError>
    ensures { IfOk result (λ more. more ≡ names ++ option_to_list name) }
{
    let mut names = names;
    match name {
        Some(name) => {
            names.push(name)?;
            Ok(names)
        }
        None => Ok(names),
    }
}

/// The name of the file that a statement includes, where it is an INCLUDE statement in its grammar.
#[tactic(auto, unfolding(source_acceptance::specs::SourceFiles::included_name, source_acceptance::specs::SourceFiles::name_by))]
pub(crate) fn included_name(
    alloc: Global,
    statement: &Statement,
) -> Result<Option<Text>, AllocError>
    ensures { IfOk result (λ name. name ≡ included_name statement.now) }
{
    match classify(false, statement.label.is_some(), statement.text.as_slice()) {
        Some(StmtKind::Include) => name_that_stands(alloc, statement),
        _ => Ok(None),
    }
}

/// The name in an INCLUDE statement, where that may stand so: without a label and on one card.
fn name_that_stands(alloc: Global, statement: &Statement) -> Result<Option<Text>, AllocError>
    ensures { IfOk result (λ name. name ≡ name_where_it_stands statement.now) }
{
    if may_stand(statement) {
        quoted_name(alloc, statement)
    } else {
        Ok(None)
    }
}

/// Whether an INCLUDE statement may stand so.
#[tactic(auto, unfolding(fortran_grammar::specs::UnitsOfFile::may_stand))]
fn may_stand(statement: &Statement) -> bool
    ensures { result ≡ may_stand kind.Include statement.now }
{
    statement.label.is_none() && statement.text.len() == ONE_CARD
}

/// The name in an INCLUDE statement.
fn quoted_name(alloc: Global, statement: &Statement) -> Result<Option<Text>, AllocError>
    ensures { IfOk result (λ name. name ≡ quoted_name (pieces_of kind.Include statement.now)) }
{
    match tokens(
        alloc,
        StmtKind::Include,
        statement.label.is_some(),
        statement.text.as_slice(),
    ) {
        Ok(list) => name_of_tokens(alloc, list.text(), list.tokens()),
        Err(LexFail::Refused(_)) => Ok(None),
        Err(LexFail::NoMemory) => Err(AllocError),
    }
}

/// The name that tokens write, if they are the word INCLUDE and a constant.
#[tactic(auto, using(crate::proofs::NameLemmas::name_in_span, crate::proofs::NameLemmas::no_name_in_span))]
fn name_of_tokens(
    alloc: Global,
    text: &[Character],
    tokens: &[Token],
) -> Result<Option<Text>, AllocError>
    ensures { IfOk result (λ name. name ≡ quoted_name (seen text.now tokens.now)) }
{
    match quoted_span(tokens) {
        Some(span) => Ok(Some(constant_text(alloc, text, span)?)),
        None => Ok(None),
    }
}

/// Where the constant stands, if tokens are the word INCLUDE and a constant.
fn quoted_span(tokens: &[Token]) -> Option<Span>
    ensures { result ≡ quoted_span tokens.now }
{
    match tokens {
        [first, second] => span_behind(*first, *second),
        _ => None,
    }
}

/// Where a constant stands behind the word INCLUDE.
fn span_behind(first: Token, second: Token) -> Option<Span>
    ensures { result ≡ span_behind first second }
{
    if is_include(first) {
        span_of(second)
    } else {
        None
    }
}

/// Whether a token is the word INCLUDE.
fn is_include(token: Token) -> bool
    ensures { result ≡ is_include token }
{
    match token {
        Token::Word(kind) => kind == StmtKind::Include,
        _ => false,
    }
}

/// Where a constant stands.
fn span_of(token: Token) -> Option<Span>
    ensures { result ≡ span_of token }
{
    match token {
        Token::Quoted(span) => Some(span),
        _ => None,
    }
}
