//! Statements, made of their parts, and their labels.

ghost use Rattle.std.specs.Prelude.{◌≡◌, ◌∷◌, [], IfOk};
ghost use Rattle.c_tree.specs.declared.statement.CStmt.TheVariants as stmt;
ghost use Rattle.c_tree.specs.CLabels.{no_label, both, standing, labels_of, labels_of_all};
ghost use Rattle.c_statement_reader.specs.LabelCounts.{naming, case_labels};
ghost use Rattle.c_statement_reader.specs.Seconds.{labels_of_second};

use crate::heads::ForHead;
use c_tree::expression::CExpr;
use c_tree::statement::{CCase, CStmt};
use plain_data::{Boxed, Items};
use std::alloc::{AllocError, Global};

/// A jump to a label (C89, 3.6.6.1).
#[tactic(auto, using(crate::proofs::LabelSums::tree_labels))]
pub(crate) fn jump_to(alloc: Global, label: &[u8]) -> Result<CStmt, AllocError>
    ensures made { IfOk result (λ made. made ≡ stmt.Goto label.now) }
    ensures labels { IfOk result (λ made. labels_of made ≡ naming (label.now ∷ [])) }
{
    Ok(CStmt::Goto(Items::from_slice(alloc, label)?))
}

/// A statement with its label (C89, 3.6.1).
#[tactic(auto, using(crate::proofs::LabelSums::tree_labels))]
pub(crate) fn with_label(alloc: Global, label: &[u8], inner: CStmt) -> Result<CStmt, AllocError>
    ensures made { IfOk result (λ made. made ≡ stmt.Label label.now inner) }
    ensures labels { IfOk result (λ made. labels_of made ≡ standing label.now (labels_of inner)) }
{
    let inner = Boxed::new(alloc, inner)?;
    let label = Items::from_slice(alloc, label)?;
    Ok(CStmt::Label(label, inner))
}

/// A block (C89, 3.6.2).
#[tactic(auto, using(crate::proofs::LabelSums::tree_labels))]
pub(crate) fn block_of(inner: Items<CStmt>) -> CStmt
    ensures made { result ≡ stmt.Block inner }
    ensures labels { labels_of result ≡ labels_of_all inner }
{
    CStmt::Block(inner)
}

/// A choice between blocks (C89, 3.6.4.1).
#[tactic(auto, using(crate::proofs::LabelSums::tree_labels))]
pub(crate) fn choice_of(test: CExpr, first: Items<CStmt>, second: Option<Items<CStmt>>) -> CStmt
    ensures made { result ≡ stmt.If test first second }
    ensures labels { labels_of result ≡ both (labels_of_all first) (labels_of_second second) }
{
    CStmt::If(test, first, second)
}

/// A choice between cases (C89, 3.6.4.2).
#[tactic(auto, using(crate::proofs::LabelSums::tree_labels))]
pub(crate) fn switch_of(value: CExpr, cases: Items<CCase>) -> CStmt
    ensures made { result ≡ stmt.Switch value cases }
    ensures labels { labels_of result ≡ naming (case_labels cases) }
{
    CStmt::Switch(value, cases)
}

/// A loop with a head (C89, 3.6.5.3).
#[tactic(auto, using(crate::proofs::LabelSums::tree_labels))]
pub(crate) fn loop_of(head: ForHead, inner: Items<CStmt>) -> CStmt
    ensures made { result ≡ stmt.For head.target head.first head.test head.turn inner }
    ensures labels { labels_of result ≡ labels_of_all inner }
{
    let ForHead {
        target,
        first,
        test,
        turn,
    } = head;
    CStmt::For(target, first, test, turn, inner)
}

/// A loop whose test stands behind it (C89, 3.6.5.2).
#[tactic(auto, using(crate::proofs::LabelSums::tree_labels))]
pub(crate) fn repeat_of(inner: Items<CStmt>, test: CExpr) -> CStmt
    ensures made { result ≡ stmt.DoWhile inner test }
    ensures labels { labels_of result ≡ labels_of_all inner }
{
    CStmt::DoWhile(inner, test)
}

/// The empty statement (C89, 3.6.3).
#[tactic(auto, using(crate::proofs::LabelSums::plain_forms))]
pub(crate) fn nothing() -> CStmt
    ensures made { result ≡ stmt.Empty }
    ensures labels { labels_of result ≡ no_label }
{
    CStmt::Empty
}
