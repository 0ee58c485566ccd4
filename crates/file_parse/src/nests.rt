//! Nests of DO and IF blocks. Section 11 of the standard, ANSI X3.9-1978, and MIL-STD-1753: DO WHILE and END DO.

ghost use Rattle.std.specs.Prelude.{◌≡◌, ◌∷◌, ◌++◌, if◌then◌else◌, List, [], length, nat_lt, IfOk, OnOk, None, Some};
ghost use Rattle.fortran_grammar.specs.SyntaxRows.{Block, IfBlock, LoopTo, without_if, without_loop, closed_by_label, ends_labelled_loop, closed_by_body, unit_deep_rows};
ghost use Rattle.file_parse.specs.OpenBlocks.{Counts, Opens, OpensBody, Passes, Becomes, ended_do, loops_to, deep_at};
ghost use Rattle.f_tree.specs.declared.refusals.Refusal.{Refusal};
ghost use Rattle.file_parse.specs.FirstRefusals.{IsFirstAmong};

use crate::first_refusals::first_of;
use f_tree::{Body, Kind, Refusal, Stmt, Unit};
use std::alloc::{AllocError, Global};
use std::collections::HashMap;

/// The most blocks that may be open.
const MOST_OPEN: usize = 64;

/// How many blocks are open. Which of them stands in which is of no account: a statement closes a block by its kind or by its label.
#[derive(Drop)]
pub(crate) struct OpenBlocks {
    /// IF blocks.
    pub(crate) conditional: usize,
    /// Loops up to their END DO.
    pub(crate) unlabelled: usize,
    /// Loops up to a label.
    pub(crate) labelled: usize,
    /// Loops up to a label, by the label.
    pub(crate) by_label: HashMap<u32, usize>,
}

impl OpenBlocks {
    /// No blocks.
    fn new(alloc: Global) -> OpenBlocks
        ensures { Counts [] result }
    {
        OpenBlocks {
            conditional: 0,
            unlabelled: 0,
            labelled: 0,
            by_label: HashMap::new(alloc),
        }
    }

    /// Whether more blocks are open than may be.
    #[tactic(auto, using(crate::proofs::OpenBlockLemmas::too_many))]
    fn are_too_many(&self) -> bool
        ensures { (blocks : List Block) → Counts blocks self.now → result ≡ nat_lt 64 (length blocks) }
    {
        let all = self
            .conditional
            .saturating_add(self.unlabelled)
            .saturating_add(self.labelled);
        all > MOST_OPEN
    }

    /// How many loops are open up to a label.
    fn loops_to(&self, label: u32) -> usize
        ensures { result ≡ loops_to self.now label }
    {
        self.by_label.get(&label).copied().unwrap_or(0)
    }

    /// Opens an IF block.
    #[tactic(auto, using(crate::proofs::OpenBlockLemmas::opens_if))]
    fn open_conditional(&mut self)
        ensures { Opens IfBlock self.old self.new }
    {
        self.conditional = self.conditional.saturating_add(1);
    }

    /// Opens a loop up to its END DO.
    #[tactic(auto, using(crate::proofs::OpenBlockLemmas::opens_loop))]
    fn open_unlabelled(&mut self)
        ensures { Opens (LoopTo None) self.old self.new }
    {
        self.unlabelled = self.unlabelled.saturating_add(1);
    }

    /// Opens a loop up to a label.
    #[tactic(auto, using(crate::proofs::OpenBlockLemmas::opens_labelled))]
    fn open_labelled(&mut self, label: u32) -> Result<(), AllocError>
        ensures { OnOk result (Opens (LoopTo (Some label)) self.old self.new) }
    {
        let loops = self.loops_to(label).saturating_add(1);
        self.by_label.insert(label, loops)?;
        self.labelled = self.labelled.saturating_add(1);
        Ok(())
    }

    /// Opens a loop, up to a label or up to its END DO.
    fn open_loop(&mut self, label: Option<u32>) -> Result<(), AllocError>
        ensures { OnOk result (Opens (LoopTo label) self.old self.new) }
    {
        match label {
            Some(label) => self.open_labelled(label),
            None => {
                self.open_unlabelled();
                Ok(())
            }
        }
    }

    /// Closes the innermost IF block, if one is open.
    #[tactic(auto, using(crate::proofs::OpenBlockLemmas::closes_if))]
    fn close_conditional(&mut self)
        ensures { Becomes without_if self.old self.new }
    {
        self.conditional = self.conditional.saturating_sub(1);
    }

    /// Closes the innermost loop without a label, if one is open.
    #[tactic(auto, using(crate::proofs::OpenBlockLemmas::closes_loop))]
    fn close_unlabelled(&mut self)
        ensures { Becomes without_loop self.old self.new }
    {
        self.unlabelled = self.unlabelled.saturating_sub(1);
    }

    /// Closes the loops up to a label.
    #[tactic(auto, using(crate::proofs::OpenBlockLemmas::closes_labelled))]
    fn close_labelled(&mut self, label: u32)
        ensures { Becomes (closed_by_label (Some label)) self.old self.new }
    {
        let loops = self.by_label.remove(&label).unwrap_or(0);
        self.labelled = self.labelled.saturating_sub(loops);
    }

    /// Closes the loops that the label of a statement ends, if it has one.
    #[tactic(auto, unfolding(fortran_grammar::specs::SyntaxRows::closed_by_label))]
    fn close_by_label(&mut self, label: Option<u32>)
        ensures { Becomes (closed_by_label label) self.old self.new }
    {
        match label {
            Some(label) => self.close_labelled(label),
            None => {}
        }
    }

    /// Whether the label of a statement ends a loop.
    #[tactic(auto, using(crate::proofs::OpenBlockLemmas::ends_some), unfolding(fortran_grammar::specs::SyntaxRows::ends_labelled_loop))]
    fn ends_loop(&self, label: Option<u32>) -> bool
        ensures { (blocks : List Block) → Counts blocks self.now → result ≡ ends_labelled_loop label blocks }
    {
        match label {
            Some(label) => self.loops_to(label) > 0,
            None => false,
        }
    }

    /// Closes the loop that an END DO ends by itself.
    fn close_by_end_do(&mut self, label: Option<u32>)
        ensures { Becomes (ended_do label) self.old self.new }
    {
        if !self.ends_loop(label) {
            self.close_unlabelled();
        }
    }

    /// Closes the block that END IF or END DO ends.
    #[tactic(auto, using(crate::proofs::NestLemmas::closes_nothing), unfolding(fortran_grammar::specs::SyntaxRows::closed_by_body, f_tree::specs::Folds::layer_of))]
    fn close_by_body(&mut self, body: &Body, label: Option<u32>)
        ensures { Becomes (closed_by_body body.now label) self.old self.new }
    {
        match body {
            Body::EndIf => self.close_conditional(),
            Body::EndDo => self.close_by_end_do(label),
            _ => {}
        }
    }

    /// Opens the block that a statement opens, and tells whether it opens one.
    #[tactic(auto, using(crate::proofs::NestLemmas::opens_nothing), unfolding(fortran_grammar::specs::SyntaxRows::opened_by, f_tree::specs::Folds::layer_of))]
    fn open_by_body(&mut self, body: &Body) -> Result<bool, AllocError>
        ensures { IfOk result (λ opens. OpensBody body.now opens self.old self.new) }
    {
        match body {
            Body::IfThen(_) => {
                self.open_conditional();
                Ok(true)
            }
            Body::Do(label, _) => {
                self.open_loop(*label)?;
                Ok(true)
            }
            Body::DoWhile(label, _) => {
                self.open_loop(*label)?;
                Ok(true)
            }
            _ => Ok(false),
        }
    }

    /// Closes and opens what a statement closes and opens, and tells whether it opens one block more than may be open.
    fn pass(&mut self, statement: &Stmt) -> Result<bool, AllocError>
        ensures { IfOk result (λ deep. Passes statement.now deep self.old self.new) }
    {
        self.close_by_body(&statement.body, statement.label);
        self.close_by_label(statement.label);
        let opens = self.open_by_body(&statement.body)?;
        Ok(opens && self.are_too_many())
    }
}

/// F17 of blocks: the first of the statements of a unit that opens one block more than may be open, by its file and its card; none where no
/// statement does.
///
/// # Errors
///
/// Want of memory.
pub fn first_deep(alloc: Global, unit: &Unit) -> Result<Option<Refusal>, AllocError>
    ensures { IfOk result (IsFirstAmong (unit_deep_rows unit.now)) }
{
    let mut blocks = OpenBlocks::new(alloc);
    let mut found = None;
    for statement in unit.statements.as_slice() {
        let deep = blocks.pass(statement)?;
        found = noted(found, deep, statement);
    }
    Ok(found)
}

/// The first of what was found and of F17 at a statement, where that opens one block too many.
fn noted(found: Option<Refusal>, deep: bool, statement: &Stmt) -> Option<Refusal>
    ensures { (rows : List Refusal) → IsFirstAmong rows found → IsFirstAmong (rows ++ (if deep then deep_at statement.now ∷ [] else [])) result }
{
    if deep {
        first_of(found, Some(deep_at(statement)))
    } else {
        found
    }
}

/// F17 of blocks at a statement.
fn deep_at(statement: &Stmt) -> Refusal
    ensures { result ≡ deep_at statement.now }
{
    Refusal {
        file: statement.file,
        card: statement.card,
        kind: Kind::NestingTooDeep,
    }
}
