//! Functions (C89, 3.7.1).

ghost use Rattle.std.specs.Prelude.{◌≡◌, ◌≤◌, ◌∷◌, [], false, IfOk, OnOk};
ghost use Rattle.c_tree.specs.CWords.{is_among};
ghost use Rattle.c_tree.specs.CDeclarationText.{with_function};
ghost use Rattle.c_file_readers.specs.c_readers.DeclarationReader.{is_new};
ghost use Rattle.c_file_readers.specs.c_statement_readers.StatementReader.{body};
ghost use Rattle.c_file_readers.specs.FileReader as reader;
ghost use Rattle.c_scope.specs.ScopeSeen.{scope_of, here_of, file_scope_of, file_here_of};
ghost use Rattle.c_expression_reader.specs.Readings.{shown, Gives};

use c_declaration_reader::{a_name_of_the_file, read_locals, read_parameters, read_result_type};
use c_expression_reader::{Failure, a_sign};
use c_lexer::{CSign, PlacedCToken};
use c_scope::{CScope, NameClass};
use c_statement_reader::read_body;
use c_tree::declaration::CParam;
use c_tree::file::CFunction;
use c_tree::statement::CStmt;
use c_tree::types::ResultType;
use plain_data::Items;
use std::alloc::Global;

/// How many statements may be open at once at most, so that the machine's stack holds their readers.
const MOST_STATEMENTS: usize = 512;

/// How many statements may be open at once, where so many may be in the text.
fn most_open(nests: usize) -> usize
    ensures { result ≤ nests }
{
    if nests < MOST_STATEMENTS {
        nests
    } else {
        MOST_STATEMENTS
    }
}

/// The statements of a function, up to its closing brace, and the tokens behind that: more open at once than the stack holds are want of memory.
#[tactic(auto, using(crate::proofs::BodySteps::body_lasts))]
fn body_within<'a>(
    alloc: Global,
    scope: &CScope,
    tokens: &'a [PlacedCToken],
    nests: usize,
) -> Result<(Items<CStmt>, &'a [PlacedCToken]), Failure<'a>>
    ensures { Gives (λ p. (p.0, shown p.1.now)) result (body (scope_of scope.now) nests nests (shown tokens.now)) }
{
    read_body(alloc, scope, tokens, nests, most_open(nests))
}

/// Behind the head of a function: its declarations and its statements, in braces.
#[tactic(auto, unfolding(c_file_readers::specs::FileReader::function_body, c_lexer::specs::SeenTokens::sign_codes))]
fn function_body<'a>(
    alloc: Global,
    scope: &mut CScope<'a>,
    of: ResultType,
    name: &[u8],
    params: Items<CParam>,
    tokens: &'a [PlacedCToken],
    nests: usize,
) -> Result<(CFunction, &'a [PlacedCToken]), Failure<'a>>
    ensures read { Gives (λ p. (p.0, shown p.1.now)) result (reader.function_body nests of name.now (params, scope_of scope.old, here_of scope.old) (shown tokens.now)) }
    ensures named { IfOk result (λ p. p.0.name ≡ name.now) }
    ensures file_scope { OnOk result (file_scope_of scope.new ≡ file_scope_of scope.old) }
    ensures file_here { OnOk result (file_here_of scope.new ≡ file_here_of scope.old) }
{
    let rest = a_sign(CSign::OpenBrace, tokens)?;
    let (locals, rest) = read_locals(alloc, scope, rest, nests, nests)?;
    let (body, rest) = body_within(alloc, scope, rest, nests)?;
    let name = Items::from_slice(alloc, name)?;
    let function = CFunction {
        result: of,
        name,
        params,
        locals,
        body,
    };
    Ok((function, rest))
}

/// Behind the name of a function, which is declared in the file from the parameters on.
#[tactic(auto, unfolding(c_file_readers::specs::FileReader::function_behind, c_scope::specs::NamesSeen::with_name, c_lexer::specs::SeenTokens::sign_codes))]
fn function_behind<'a>(
    alloc: Global,
    scope: &mut CScope<'a>,
    of: ResultType,
    name: &'a [u8],
    tokens: &'a [PlacedCToken],
    nests: usize,
) -> Result<(CFunction, &'a [PlacedCToken]), Failure<'a>>
    requires fresh { is_among name.now (file_here_of scope.old) ≡ false }
    requires outside { here_of scope.old ≡ [] }
    ensures read { Gives (λ p. (p.0, shown p.1.now)) result (reader.function_behind nests (file_scope_of scope.old) of name.now (shown tokens.now)) }
    ensures file_scope { IfOk result (λ p. file_scope_of scope.new ≡ with_function p.0.name (file_scope_of scope.old)) }
    ensures file_here { IfOk result (λ p. file_here_of scope.new ≡ p.0.name ∷ file_here_of scope.old) }
{
    scope.declare_in_file(name, NameClass::Function)?;
    let rest = a_sign(CSign::OpenParenthesis, tokens)?;
    let (params, rest) = read_parameters(alloc, scope, rest, nests)?;
    function_body(alloc, scope, of, name, params, rest, nests)
}

/// A function of a name that the file does not declare yet, and the tokens behind it. It is declared in the file, and no name of its own stays in
/// the scope. Each list in it is of so many items at most, and so many nests are open at once at most.
///
/// # Errors
///
/// The tokens from the first one on with which nothing goes on, or want of memory. The name and some names of the function may be declared then.
#[tactic(auto, unfolding(c_file_readers::specs::FileReader::a_function))]
pub(crate) fn read_function<'a>(
    alloc: Global,
    scope: &mut CScope<'a>,
    tokens: &'a [PlacedCToken],
    nests: usize,
) -> Result<(CFunction, &'a [PlacedCToken]), Failure<'a>>
    requires outside { here_of scope.old ≡ [] }
    ensures read { Gives (λ p. (p.0, shown p.1.now)) result (reader.a_function nests (file_scope_of scope.old) (is_new (file_here_of scope.old)) (shown tokens.now)) }
    ensures file_scope { IfOk result (λ p. file_scope_of scope.new ≡ with_function p.0.name (file_scope_of scope.old)) }
    ensures file_here { IfOk result (λ p. file_here_of scope.new ≡ p.0.name ∷ file_here_of scope.old) }
    ensures outside { OnOk result (here_of scope.new ≡ []) }
{
    let (of, rest) = read_result_type(tokens)?;
    let (name, rest) = a_name_of_the_file(scope, rest)?;
    let (function, rest) = function_behind(alloc, scope, of, name, rest, nests)?;
    scope.end_function();
    Ok((function, rest))
}
