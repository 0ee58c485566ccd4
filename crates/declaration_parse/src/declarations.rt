//! The specification statements, and the statements that begin a unit. Sections 8, 14, 15 and 16 of the standard, ANSI X3.9-1978.

ghost use Rattle.std.specs.Prelude.{◌≡◌, Some, None};
ghost use Rattle.f_tree.specs.declared.statements.SavedItem.TheVariants as saved;
ghost use Rattle.fortran_grammar.specs.DeclarationForms as meaning;
ghost use Rattle.fortran_grammar.specs.Forms as sort;
ghost use Rattle.fortran_grammar.specs.Forms.{listed};
ghost use Rattle.grammar_laws.specs.DeclarationReading as reading;
ghost use Rattle.grammar_laws.specs.ExpressionReading.{read_expression, read_place};
ghost use Rattle.grammar_laws.specs.FormReading as form;
ghost use Rattle.stmt_lex.specs.SeenTokens.{seen};
ghost use Rattle.expression_parse.specs.Readings.{Gives};

use super::declaration_forms::{
    After, Both, Either, Enclosed, Equals, Expression, Maybe, Name, Read, Slash, UpTo,
};
use super::declaration_lists::{Separated, listed};
use expression_parse::Failure;
use f_tree::{Body, ConstantDefinition, SavedItem};
use fortran_text::Character;
use std::alloc::Global;
use stmt_lex::Token;

/// A name and its value in a PARAMETER statement. Section 8.6.
struct Constant;

#[tactic(auto, unfolding(grammar_laws::specs::FormReading::meant, grammar_laws::specs::FormReading::going_on, fortran_grammar::specs::DeclarationForms::constant_of))]
impl Read for Constant {
    type Found = ConstantDefinition;

    ghost reader = { form.meant meaning.constant_of (form.both form.a_name (form.after sort.Equals read_expression)) };

    fn read<'a>(
        alloc: Global,
        text: &[Character],
        tokens: &'a [Token],
    ) -> Result<(ConstantDefinition, &'a [Token]), Failure> {
        let ((name, value), rest) = Both::<Name, After<Equals, Expression>>::read(
            alloc, text, tokens,
        )?;
        Ok((ConstantDefinition { name, value }, rest))
    }
}

/// What stands behind PARAMETER. Section 8.6.
///
/// # Errors
///
/// A fault of syntax where it is no such list, or want of memory.
#[tactic(auto, unfolding(grammar_laws::specs::FormReading::meant, grammar_laws::specs::FormReading::going_on))]
pub fn parameter_statement<'a>(
    alloc: Global,
    text: &[Character],
    tokens: &'a [Token],
) -> Result<(Body, &'a [Token]), Failure>
    ensures { Gives (λ p. (p.0, seen text.now p.1.now)) result (reading.parameter_form (seen text.now tokens.now)) }
{
    let (found, rest) = Enclosed::<Separated<Constant>>::read(alloc, text, tokens)?;
    Ok((Body::Parameter(found), rest))
}

/// What stands behind EXTERNAL. Section 8.7.
///
/// # Errors
///
/// A fault of syntax where it is no such list, or want of memory.
#[tactic(auto, unfolding(grammar_laws::specs::FormReading::meant, grammar_laws::specs::FormReading::going_on))]
pub fn external_statement<'a>(
    alloc: Global,
    text: &[Character],
    tokens: &'a [Token],
) -> Result<(Body, &'a [Token]), Failure>
    ensures { Gives (λ p. (p.0, seen text.now p.1.now)) result (reading.external_form (seen text.now tokens.now)) }
{
    let (found, rest) = Separated::<Name>::read(alloc, text, tokens)?;
    Ok((Body::External(found), rest))
}

/// What stands behind INTRINSIC. Section 8.8.
///
/// # Errors
///
/// A fault of syntax where it is no such list, or want of memory.
#[tactic(auto, unfolding(grammar_laws::specs::FormReading::meant, grammar_laws::specs::FormReading::going_on))]
pub fn intrinsic_statement<'a>(
    alloc: Global,
    text: &[Character],
    tokens: &'a [Token],
) -> Result<(Body, &'a [Token]), Failure>
    ensures { Gives (λ p. (p.0, seen text.now p.1.now)) result (reading.intrinsic_form (seen text.now tokens.now)) }
{
    let (found, rest) = Separated::<Name>::read(alloc, text, tokens)?;
    Ok((Body::Intrinsic(found), rest))
}

/// A variable or an array in a SAVE statement.
struct SavedName;

#[tactic(auto, unfolding(grammar_laws::specs::FormReading::meant, grammar_laws::specs::FormReading::going_on))]
impl Read for SavedName {
    type Found = SavedItem;

    ghost reader = { form.meant saved.Named form.a_name };

    fn read<'a>(
        alloc: Global,
        text: &[Character],
        tokens: &'a [Token],
    ) -> Result<(SavedItem, &'a [Token]), Failure> {
        let (name, rest) = Name::read(alloc, text, tokens)?;
        Ok((SavedItem::Named(name), rest))
    }
}

/// A common block in a SAVE statement.
struct SavedBlock;

#[tactic(auto, unfolding(grammar_laws::specs::FormReading::meant, grammar_laws::specs::FormReading::going_on))]
impl Read for SavedBlock {
    type Found = SavedItem;

    ghost reader = { form.meant saved.Block (form.after sort.Slash (form.up_to form.a_name sort.Slash)) };

    fn read<'a>(
        alloc: Global,
        text: &[Character],
        tokens: &'a [Token],
    ) -> Result<(SavedItem, &'a [Token]), Failure> {
        let (name, rest) = After::<Slash, UpTo<Name, Slash>>::read(alloc, text, tokens)?;
        Ok((SavedItem::Block(name), rest))
    }
}

/// What stands behind SAVE. Section 8.9.
///
/// # Errors
///
/// A fault of syntax where it is no such list, or want of memory.
#[tactic(auto, unfolding(grammar_laws::specs::FormReading::meant, grammar_laws::specs::FormReading::going_on))]
pub fn save_statement<'a>(
    alloc: Global,
    text: &[Character],
    tokens: &'a [Token],
) -> Result<(Body, &'a [Token]), Failure>
    ensures { Gives (λ p. (p.0, seen text.now p.1.now)) result (reading.save_form (seen text.now tokens.now)) }
{
    let (found, rest) = Maybe::<Separated<Either<SavedName, SavedBlock>>>::read(
        alloc, text, tokens,
    )?;
    Ok((Body::Save(listed(alloc, found)), rest))
}
