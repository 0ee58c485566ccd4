//! COMMON. Section 8.3 of the standard, ANSI X3.9-1978.

ghost use Rattle.std.specs.Prelude.{◌≡◌, [], ◌∷◌, ◌++◌, Some, None, IfOk};
ghost use Rattle.fortran_grammar.specs.DeclarationForms as meaning;
ghost use Rattle.fortran_grammar.specs.Forms as sort;
ghost use Rattle.grammar_laws.specs.DeclarationReading as reading;
ghost use Rattle.grammar_laws.specs.FormReading as form;
ghost use Rattle.declaration_parse.specs.DeclarationSteps as step;
ghost use Rattle.stmt_lex.specs.SeenTokens.{seen};
ghost use Rattle.expression_parse.specs.Readings.{Gives};

use super::declaration_forms::{
    After, Both, Comma, Either, Maybe, Name, Piece, Read, Slash, TwoSlashes, UpTo,
};
use super::declaration_lists::{Many, listed, pushed};
use super::declaration_types::Dimensions;
use expression_parse::Failure;
use f_tree::{ArrayDeclarator, Body, CommonGroup, Text};
use fortran_text::Character;
use plain_data::Items;
use std::alloc::{AllocError, Global};
use stmt_lex::Token;

/// The name of a common block, in slashes. Section 8.3.1.
struct NamedBlock;

#[tactic(auto, unfolding(grammar_laws::specs::FormReading::meant, grammar_laws::specs::FormReading::going_on))]
impl Read for NamedBlock {
    type Found = Option<Text>;

    ghost reader = { form.meant Some (form.after sort.Slash (form.up_to form.a_name sort.Slash)) };

    fn read<'a>(
        alloc: Global,
        text: &[Character],
        tokens: &'a [Token],
    ) -> Result<(Option<Text>, &'a [Token]), Failure> {
        let (name, rest) = After::<Slash, UpTo<Name, Slash>>::read(alloc, text, tokens)?;
        Ok((Some(name), rest))
    }
}

/// `//`: blank common. Section 8.3.1.
struct BlankBlock;

#[tactic(auto, using(crate::proofs::DeclarationLemmas::piece_steps), unfolding(grammar_laws::specs::FormReading::said))]
impl Read for BlankBlock {
    type Found = Option<Text>;

    ghost reader = { form.after sort.TwoSlashes (form.said None) };

    fn read<'a>(
        alloc: Global,
        text: &[Character],
        tokens: &'a [Token],
    ) -> Result<(Option<Text>, &'a [Token]), Failure> {
        match TwoSlashes::behind(text, tokens) {
            Some(rest) => Ok((None, rest)),
            None => Err(Failure::Syntax),
        }
    }
}

/// A common block before its names.
type Block = Either<NamedBlock, BlankBlock>;

/// A name with the block that is written before it, if one is.
type Placed = (Option<Option<Text>>, ArrayDeclarator);

/// A name in a COMMON statement, with its dimensions.
struct CommonName;

#[tactic(auto, unfolding(grammar_laws::specs::FormReading::meant, grammar_laws::specs::FormReading::going_on, fortran_grammar::specs::DeclarationForms::name_or_array))]
impl Read for CommonName {
    type Found = ArrayDeclarator;

    ghost reader = { reading.common_name_form };

    fn read<'a>(
        alloc: Global,
        text: &[Character],
        tokens: &'a [Token],
    ) -> Result<(ArrayDeclarator, &'a [Token]), Failure> {
        let ((name, dimensions), rest) = Both::<Name, Maybe<Dimensions>>::read(
            alloc, text, tokens,
        )?;
        let dimensions = listed(alloc, dimensions);
        Ok((ArrayDeclarator { name, dimensions }, rest))
    }
}

/// A name with a block before it.
struct BlockName;

#[tactic(auto, unfolding(grammar_laws::specs::FormReading::meant, grammar_laws::specs::FormReading::going_on))]
impl Read for BlockName {
    type Found = Placed;

    ghost reader = { reading.block_name_form };

    fn read<'a>(
        alloc: Global,
        text: &[Character],
        tokens: &'a [Token],
    ) -> Result<(Placed, &'a [Token]), Failure> {
        let ((block, name), rest) = Both::<Block, CommonName>::read(alloc, text, tokens)?;
        Ok(((Some(block), name), rest))
    }
}

/// A name in the same block.
struct SameBlockName;

#[tactic(auto, unfolding(grammar_laws::specs::FormReading::meant, grammar_laws::specs::FormReading::going_on))]
impl Read for SameBlockName {
    type Found = Placed;

    ghost reader = { form.meant meaning.in_same_block reading.common_name_form };

    fn read<'a>(
        alloc: Global,
        text: &[Character],
        tokens: &'a [Token],
    ) -> Result<(Placed, &'a [Token]), Failure> {
        let (name, rest) = CommonName::read(alloc, text, tokens)?;
        Ok(((None, name), rest))
    }
}

/// The next name: behind a comma, in the same block or with another; another block needs no comma. Section 8.3.1.
type NextName = Either<After<Comma, Either<SameBlockName, BlockName>>, BlockName>;

/// A group with one name more.
fn with_name(group: CommonGroup, name: ArrayDeclarator) -> Result<CommonGroup, AllocError>
    ensures { IfOk result (λ made. made ≡ record { block = group.block; items = group.items ++ name ∷ [] }) }
{
    let CommonGroup { block, items } = group;
    let items = pushed(items, name)?;
    Ok(CommonGroup { block, items })
}

/// A group of one name.
fn group_of(
    alloc: Global,
    block: Option<Text>,
    name: ArrayDeclarator,
) -> Result<CommonGroup, AllocError>
    ensures { IfOk result (λ made. made ≡ record { block = block; items = name ∷ [] }) }
{
    let items = pushed(Items::new(alloc), name)?;
    Ok(CommonGroup { block, items })
}

/// The groups with one name more: those before the last, and the last.
#[tactic(auto, unfolding(crate::specs::DeclarationSteps::next_group))]
fn next_group(
    alloc: Global,
    groups: Items<CommonGroup>,
    last: CommonGroup,
    placed: Placed,
) -> Result<(Items<CommonGroup>, CommonGroup), AllocError>
    ensures { IfOk result (λ p. p ≡ step.next_group (groups, last) placed) }
{
    let (block, name) = placed;
    match block {
        None => Ok((groups, with_name(last, name)?)),
        Some(block) => Ok((pushed(groups, last)?, group_of(alloc, block, name)?)),
    }
}

/// The groups of names behind a first one: those before the last, and the last.
#[tactic(auto, using(crate::proofs::DeclarationBlockLemmas::group_steps), unfolding(crate::specs::DeclarationSteps::groups_from))]
fn groups_from(
    alloc: Global,
    first: CommonGroup,
    mut more: Items<Placed>,
) -> Result<(Items<CommonGroup>, CommonGroup), AllocError>
    ensures { IfOk result (λ p. p ≡ step.groups_from ([], first) more) }
{
    match more.pop() {
        Some(placed) => {
            let (groups, last) = groups_from(alloc, first, more)?;
            next_group(alloc, groups, last, placed)
        }
        None => Ok((Items::new(alloc), first)),
    }
}

/// The block of a first name: blank common where none is written. Section 8.3.1.
#[tactic(auto, unfolding(fortran_grammar::specs::DeclarationForms::block_of))]
fn block_of(block: Option<Option<Text>>) -> Option<Text>
    ensures { result ≡ meaning.block_of block }
{
    match block {
        Some(block) => block,
        None => None,
    }
}

/// A group, with the names that follow, and the groups behind it.
#[tactic(auto, using(crate::proofs::DeclarationBlockLemmas::whole_groups))]
fn groups_behind(
    alloc: Global,
    first: CommonGroup,
    more: Items<Placed>,
) -> Result<Items<CommonGroup>, AllocError>
    ensures { IfOk result (λ made. made ≡ meaning.common_groups first.block first.items more) }
{
    let (groups, last) = groups_from(alloc, first, more)?;
    pushed(groups, last)
}

/// The blocks with their names. Section 8.3.
#[tactic(auto, unfolding(fortran_grammar::specs::DeclarationForms::common_of))]
fn groups_of(
    alloc: Global,
    first: Placed,
    more: Items<Placed>,
) -> Result<Items<CommonGroup>, AllocError>
    ensures { IfOk result (λ made. made ≡ meaning.common_of (first, more)) }
{
    let (block, name) = first;
    let group = group_of(alloc, block_of(block), name)?;
    groups_behind(alloc, group, more)
}

/// What stands behind COMMON. Section 8.3.
///
/// # Errors
///
/// A fault of syntax where it is no such form, or want of memory.
#[tactic(auto, unfolding(grammar_laws::specs::FormReading::meant, grammar_laws::specs::FormReading::going_on))]
pub fn common_statement<'a>(
    alloc: Global,
    text: &[Character],
    tokens: &'a [Token],
) -> Result<(Body, &'a [Token]), Failure>
    ensures { Gives (λ p. (p.0, seen text.now p.1.now)) result (reading.common_form (seen text.now tokens.now)) }
{
    let ((first, more), rest) = Both::<Both<Maybe<Block>, CommonName>, Many<NextName>>::read(
        alloc, text, tokens,
    )?;
    Ok((Body::Common(groups_of(alloc, first, more)?), rest))
}
