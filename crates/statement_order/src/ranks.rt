//! What a statement is in the order of statements, and how far the statements before it have come. Section 3.5.
#![tactic(auto)]

ghost use Rattle.std.specs.Prelude.{◌≡◌};
ghost use Rattle.f_tree.specs.Attributes.{option_list};
ghost use Rattle.f_tree.specs.Uses.{heading_of, defines_function as defines};
ghost use Rattle.declaration_rows.specs.OrderRows as written;
ghost use Rattle.name_table.specs.Named.{names_in, IsNameSet};
ghost use Rattle.statement_order.specs.OrderSteps.{rank_in, stage_in};

use f_tree::{Body, Expr, Kind};
use found_rows::unless;
use name_table::NameSet;
use name_uses::assignments::defines_function;

/// What a statement is in the order of statements.
#[derive(Clone, Copy, Debug, PartialEq, Eq)]
pub enum Rank {
    /// FORMAT, ENTRY and END, which may stand anywhere.
    Anywhere,
    /// IMPLICIT.
    Implicit,
    /// PARAMETER.
    Parameter,
    /// Another specification statement.
    Specification,
    /// DATA.
    Initial,
    /// The definition of a statement function.
    Definition,
    /// An executable statement.
    Executable,
    /// A PROGRAM, SUBROUTINE, FUNCTION or BLOCK DATA statement that does not begin its unit.
    Heading,
}

/// How far statements have come.
#[derive(Clone, Copy, Debug, PartialEq, Eq)]
pub enum Stage {
    /// To none but IMPLICIT and PARAMETER.
    AtImplicits,
    /// To specifications.
    AtSpecifications,
    /// To DATA and definitions of statement functions.
    AtDefinitions,
    /// To executable statements.
    AtExecutables,
}

/// What an assignment is, which may define a statement function.
#[tactic(auto, unfolding(declaration_rows::specs::OrderRows::assigned_rank, crate::specs::OrderSteps::rank_in))]
fn assigned_rank(arrays: &NameSet, target: &Expr) -> Rank
    requires { IsNameSet arrays.now }
    ensures { rank_in result ≡ written.assigned_rank (defines (names_in arrays.now) (heading_of target.now)) }
{
    if defines_function(arrays, target) {
        Rank::Definition
    } else {
        Rank::Executable
    }
}

/// What a statement is in the order of statements.
#[tactic(auto, unfolding(crate::specs::OrderSteps::rank_in), using(crate::proofs::RankForms::rank_forms))]
pub fn rank_of(arrays: &NameSet, body: &Body) -> Rank
    requires { IsNameSet arrays.now }
    ensures { rank_in result ≡ written.rank_of (names_in arrays.now) body.now }
{
    match body {
        Body::Header(..) => Rank::Heading,
        Body::Declare(..) | Body::Dimension(_) | Body::Common(_) => Rank::Specification,
        Body::Equivalence(_) | Body::External(_) | Body::Intrinsic(_) => Rank::Specification,
        Body::Save(_) => Rank::Specification,
        Body::Implicit(_) | Body::ImplicitNone => Rank::Implicit,
        Body::Parameter(_) => Rank::Parameter,
        Body::Init(_) => Rank::Initial,
        Body::Format(_) | Body::Entry(..) | Body::Include(_) | Body::End => Rank::Anywhere,
        Body::Assign(target, _) => assigned_rank(arrays, target),
        Body::AssignLabel(..) | Body::Goto(_) | Body::GotoList(..) => Rank::Executable,
        Body::GotoName(..) | Body::IfSign(..) | Body::IfOne(..) => Rank::Executable,
        Body::IfThen(_) | Body::ElseIf(_) | Body::Else | Body::EndIf => Rank::Executable,
        Body::Do(..) | Body::DoWhile(..) | Body::EndDo | Body::Continue => Rank::Executable,
        Body::Call(..) | Body::Return(_) | Body::Stop(_) => Rank::Executable,
        Body::Transfer(..) | Body::Auxiliary(..) => Rank::Executable,
    }
}

/// Whether statements have come to none but IMPLICIT and PARAMETER.
#[tactic(auto, unfolding(declaration_rows::specs::OrderRows::is_at_implicits, crate::specs::OrderSteps::stage_in))]
fn is_at_implicits(stage: Stage) -> bool
    ensures { result ≡ written.is_at_implicits (stage_in stage) }
{
    match stage {
        Stage::AtImplicits => true,
        Stage::AtSpecifications | Stage::AtDefinitions | Stage::AtExecutables => false,
    }
}

/// Whether statements have come to no DATA, no definition of a statement function and no executable statement.
#[tactic(auto, unfolding(declaration_rows::specs::OrderRows::is_before_definitions, crate::specs::OrderSteps::stage_in))]
fn is_before_definitions(stage: Stage) -> bool
    ensures { result ≡ written.is_before_definitions (stage_in stage) }
{
    match stage {
        Stage::AtImplicits | Stage::AtSpecifications => true,
        Stage::AtDefinitions | Stage::AtExecutables => false,
    }
}

/// Whether statements have come to executable statements.
#[tactic(auto, unfolding(declaration_rows::specs::OrderRows::is_at_executables, crate::specs::OrderSteps::stage_in))]
fn is_at_executables(stage: Stage) -> bool
    ensures { result ≡ written.is_at_executables (stage_in stage) }
{
    match stage {
        Stage::AtExecutables => true,
        Stage::AtImplicits | Stage::AtSpecifications | Stage::AtDefinitions => false,
    }
}

/// The row of a statement that stands behind what it must stand before.
#[tactic(auto, unfolding(declaration_rows::specs::OrderRows::order_rows, f_tree::specs::Attributes::option_list, crate::specs::OrderSteps::rank_in))]
pub fn order_row(stage: Stage, rank: Rank) -> Option<Kind>
    ensures { option_list result ≡ written.order_rows (stage_in stage) (rank_in rank) }
{
    match rank {
        Rank::Implicit => unless(is_at_implicits(stage), Kind::StatementOutOfOrder),
        Rank::Parameter | Rank::Specification => {
            unless(is_before_definitions(stage), Kind::StatementOutOfOrder)
        }
        Rank::Definition => unless(!is_at_executables(stage), Kind::BadStatementFunction),
        Rank::Heading => Some(Kind::StatementOutOfOrder),
        Rank::Anywhere | Rank::Initial | Rank::Executable => None,
    }
}

/// How far statements have come behind one. What stands out of order leaves the stage as it is.
#[tactic(auto, unfolding(declaration_rows::specs::OrderRows::stage_behind, crate::specs::OrderSteps::stage_in, crate::specs::OrderSteps::rank_in))]
pub fn stage_behind(stage: Stage, rank: Rank) -> Stage
    ensures { stage_in result ≡ written.stage_behind (stage_in stage) (rank_in rank) }
{
    match (stage, rank) {
        (_, Rank::Executable) => Stage::AtExecutables,
        (Stage::AtImplicits, Rank::Specification) => Stage::AtSpecifications,
        (Stage::AtImplicits, Rank::Initial | Rank::Definition) => Stage::AtDefinitions,
        (Stage::AtSpecifications, Rank::Initial | Rank::Definition) => Stage::AtDefinitions,
        _ => stage,
    }
}
