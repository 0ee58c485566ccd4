//! What is known where a statement stands, and what is found of it.

ghost use Rattle.std.specs.Prelude.{◌≡◌};
ghost use Rattle.statement_judge.specs.StatementSites as seen;

use expression_judge::Names;
use f_tree::Kind;
use indexmap::IndexSet;

/// What is known where a statement stands: what the names of its unit are, the labels of the statements that a branch may go to, those of the
/// FORMAT statements, and, where the statement is a DO or a DO WHILE, whether its range ends.
#[derive(Drop)]
pub struct Site<'a, 'n> {
    pub names: &'a Names<'n>,
    pub branches: &'a IndexSet<u32>,
    pub formats: &'a IndexSet<u32>,
    pub ends_loop: bool,
}

/// The least of the rows that a statement breaks, and of those that it breaks besides as the statement of a logical IF.
#[derive(Clone, Copy, Debug, PartialEq, Eq)]
pub struct Broken {
    pub rows: Option<Kind>,
    pub guarded: Option<Kind>,
}

impl<'a, 'n> Site<'a, 'n> {
    /// Whether a branch may go to a statement with this label. Section 11.
    #[tactic(auto, unfolding(crate::specs::StatementSites::may_branch))]
    pub fn may_branch(&self, label: u32) -> bool
        ensures { result ≡ seen.may_branch self.now label }
    {
        self.branches.contains(&label)
    }

    /// Whether a FORMAT statement has this label. Section 13.1.
    #[tactic(auto, unfolding(crate::specs::StatementSites::is_format))]
    pub fn is_format(&self, label: u32) -> bool
        ensures { result ≡ seen.is_format self.now label }
    {
        self.formats.contains(&label)
    }
}
