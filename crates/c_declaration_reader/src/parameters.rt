//! The parameters of a function (C89, 3.7.1).

ghost use Rattle.std.specs.Prelude.{◌≡◌, ◌∷◌, [], true, false, codes, IfOk, OnOk};
ghost use Rattle.c_tree.specs.CWords.{is_among};
ghost use Rattle.c_tree.specs.CDeclarationText.{with_parameter};
ghost use Rattle.c_readers.specs.HeadReader as reader;
ghost use Rattle.c_readers.specs.DeclarationReader.{is_new};
ghost use Rattle.c_scope.specs.ScopeSeen.{scope_of, here_of, file_scope_of, file_here_of};
ghost use Rattle.c_expression_reader.specs.Readings.{shown, Gives};
ghost use Rattle.c_declaration_reader.specs.HeadParts.{one_parameter};
ghost use Rattle.c_declaration_reader.specs.SeenDeclarations.{parameter_class};

use crate::nodes::{parameter, parameter_class};
use crate::types::parameter_type;
use crate::wanted::a_name_of_the_function;
use c_expression_reader::{Failure, a_sign, is_closed};
use c_lexer::{CSign, CToken, PlacedCToken};
use c_scope::CScope;
use c_tree::declaration::CParam;
use c_tree::types::ParameterType;
use plain_data::Items;
use std::alloc::{AllocError, Global};

/// Declares a parameter in the scope.
#[tactic(auto, using(crate::proofs::ScopeSteps::scope_steps))]
fn declared<'a>(
    alloc: Global,
    scope: &mut CScope<'a>,
    of: ParameterType,
    name: &'a [u8],
) -> Result<CParam, AllocError>
    requires { is_among name.now (here_of scope.old) ≡ false }
    ensures made { IfOk result (λ made. made ≡ reader.a_parameter of name.now) }
    ensures scope { OnOk result (scope_of scope.new ≡ with_parameter of name.now (scope_of scope.old)) }
    ensures here { OnOk result (here_of scope.new ≡ name.now ∷ here_of scope.old) }
    ensures file_scope { OnOk result (file_scope_of scope.new ≡ file_scope_of scope.old) }
    ensures file_here { OnOk result (file_here_of scope.new ≡ file_here_of scope.old) }
{
    scope.declare(name, parameter_class(of))?;
    parameter(alloc, of, name)
}

/// A parameter, which is declared in the scope, and the tokens behind it.
#[tactic(auto, unfolding(crate::specs::HeadParts::one_parameter))]
fn a_parameter<'a>(
    alloc: Global,
    scope: &mut CScope<'a>,
    tokens: &'a [PlacedCToken],
) -> Result<(CParam, &'a [PlacedCToken]), Failure<'a>>
    ensures read { Gives (λ p. (p.0, shown p.1.now)) result (one_parameter (is_new (here_of scope.old)) (shown tokens.now)) }
    ensures scope { IfOk result (λ p. scope_of scope.new ≡ with_parameter p.0.of p.0.name (scope_of scope.old)) }
    ensures here { IfOk result (λ p. here_of scope.new ≡ p.0.name ∷ here_of scope.old) }
    ensures file_scope { OnOk result (file_scope_of scope.new ≡ file_scope_of scope.old) }
    ensures file_here { OnOk result (file_here_of scope.new ≡ file_here_of scope.old) }
{
    let (of, rest) = parameter_type(tokens)?;
    let (name, rest) = a_name_of_the_function(scope, rest)?;
    Ok((declared(alloc, scope, of, name)?, rest))
}

/// One parameter or more, up to the closing parenthesis: so many at most.
#[tactic(auto, using(crate::proofs::HeadSteps::parameter_steps), unfolding(c_lexer::specs::SeenTokens::sign_codes))]
fn some_parameters<'a>(
    alloc: Global,
    scope: &mut CScope<'a>,
    tokens: &'a [PlacedCToken],
    count: usize,
) -> Result<(Items<CParam>, &'a [PlacedCToken]), Failure<'a>>
    ensures read { Gives (λ p. ((p.0, scope_of scope.new, here_of scope.new), shown p.1.now)) result (reader.parameters count (scope_of scope.old) (here_of scope.old) [] (shown tokens.now)) }
    ensures file_scope { OnOk result (file_scope_of scope.new ≡ file_scope_of scope.old) }
    ensures file_here { OnOk result (file_here_of scope.new ≡ file_here_of scope.old) }
{
    let mut found = Items::new(alloc);
    let mut rest = tokens;
    let mut left = count;
    while left > 0 {
        left -= 1;
        let (one, behind) = a_parameter(alloc, scope, rest)?;
        found.push(one)?;
        let (closed, behind) = is_closed(CSign::CloseParenthesis, behind)?;
        if closed {
            return Ok((found, behind));
        }
        rest = behind;
    }
    Err(Failure::Memory)
}

/// Behind `void`: the closing parenthesis.
#[tactic(auto, unfolding(c_readers::specs::HeadReader::parameters_or_none, c_lexer::specs::SeenTokens::sign_codes))]
fn no_parameter<'a>(
    alloc: Global,
    scope: &CScope<'a>,
    tokens: &'a [PlacedCToken],
) -> Result<(Items<CParam>, &'a [PlacedCToken]), Failure<'a>>
    ensures { Gives (λ p. ((p.0, scope_of scope.now, here_of scope.now), shown p.1.now)) result (reader.parameters_or_none 0 (scope_of scope.now) (here_of scope.now) [] (shown tokens.now) true) }
{
    let _scope = scope;
    let rest = a_sign(CSign::CloseParenthesis, tokens)?;
    Ok((Items::new(alloc), rest))
}

/// The parameters of a function, up to the closing parenthesis, and the tokens behind it: so many at most (C89, 3.7.1). They are declared in the
/// scope, each behind those before it.
///
/// # Errors
///
/// The tokens from the first one on with which nothing goes on, or want of memory. Some parameters may be declared then.
#[tactic(auto, unfolding(c_expression_reader::specs::Readings::shown, c_lexer::specs::SeenTokens::seen, c_readers::specs::HeadReader::parameter_list, c_readers::specs::HeadReader::parameters_or_none))]
pub fn read_parameters<'a>(
    alloc: Global,
    scope: &mut CScope<'a>,
    tokens: &'a [PlacedCToken],
    count: usize,
) -> Result<(Items<CParam>, &'a [PlacedCToken]), Failure<'a>>
    ensures read { Gives (λ p. ((p.0, scope_of scope.new, here_of scope.new), shown p.1.now)) result (reader.parameter_list count (scope_of scope.old) (here_of scope.old) (shown tokens.now)) }
    ensures file_scope { OnOk result (file_scope_of scope.new ≡ file_scope_of scope.old) }
    ensures file_here { OnOk result (file_here_of scope.new ≡ file_here_of scope.old) }
{
    match tokens {
        [
            PlacedCToken {
                token: CToken::Word(text),
                ..
            },
            rest @ ..,
        ] if text.as_slice() == b"void".as_slice() => no_parameter(alloc, scope, rest),
        _ => some_parameters(alloc, scope, tokens, count),
    }
}
