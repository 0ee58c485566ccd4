//! Labels in their order, and how often each is there.

ghost use Rattle.std.specs.Prelude.{◌≡◌, ℕ, List};
ghost use Rattle.c_statement_reader.specs.LabelCounts.{texts, times, again, found_at};

use indexmap::IndexMap;
use std::alloc::{AllocError, Global};

/// Labels in their order, and a table that tells of each whether it is there more than once. They are kept where they stand in the text.
#[derive(Drop)]
pub(crate) struct LabelList<'a> {
    labels: Vec<&'a [u8]>,
    table: IndexMap<&'a [u8], bool>,
    ghost told: { (q : List ℕ) → found_at q table.entries ≡ again (times q (texts labels.items)) },
}

impl<'a> LabelList<'a> {
    ghost use Rattle.std.specs.Prelude.{◌≡◌, ◌∷◌, ◌++◌, [], not, nat_le, length, filter, bytes_eq, OnOk};
    ghost use Rattle.std.specs.List.{list_all};
    ghost use Rattle.c_tree.specs.CWords.{is_among};
    ghost use Rattle.c_tree.specs.CLabels.{stands_once};
    ghost use Rattle.c_statement_reader.specs.LabelLists.{labels_in};

    /// No labels.
    #[tactic(auto, unfolding(crate::specs::LabelLists::labels_in))]
    pub(crate) fn new(alloc: Global) -> LabelList<'a>
        ensures { labels_in result ≡ [] }
    {
        LabelList {
            labels: Vec::new(alloc),
            table: IndexMap::new(alloc),
        }
    }

    /// Whether a label is there.
    pub(crate) fn has(&self, label: &[u8]) -> bool
        ensures { result ≡ is_among label.now (labels_in self.now) }
    {
        self.table.contains_key(label)
    }

    /// Whether a label is there once at most.
    #[tactic(auto, using(crate::proofs::LabelTimes::label_times), unfolding(crate::specs::LabelLists::labels_in))]
    pub(crate) fn has_few(&self, label: &[u8]) -> bool
        ensures { result ≡ nat_le (length (filter (bytes_eq label.now) (labels_in self.now))) 1 }
    {
        match self.table.get(label) {
            Some(again) => !*again,
            None => true,
        }
    }

    /// Whether a label is there once.
    #[tactic(auto, using(crate::proofs::LabelTimes::label_times), unfolding(crate::specs::LabelLists::labels_in))]
    pub(crate) fn has_once(&self, label: &[u8]) -> bool
        ensures { result ≡ stands_once (labels_in self.now) label.now }
    {
        match self.table.get(label) {
            Some(again) => !*again,
            None => false,
        }
    }

    /// Whether each of some labels is there once.
    fn has_all_once(&self, labels: &[&[u8]]) -> bool
        ensures { result ≡ list_all (λ label. stands_once (labels_in self.now) label.now) labels.now }
    {
        labels.iter().all(|label| self.has_once(*label))
    }

    /// Whether each label of another list is in this one once.
    #[tactic(auto, using(crate::proofs::LabelTimes::label_texts), unfolding(crate::specs::LabelLists::labels_in))]
    pub(crate) fn has_each_once(&self, other: &LabelList<'a>) -> bool
        ensures { result ≡ list_all (stands_once (labels_in self.now)) (labels_in other.now) }
    {
        self.has_all_once(other.labels.as_slice())
    }

    /// Adds a label.
    pub(crate) fn add(&mut self, label: &'a [u8]) -> Result<(), AllocError>
        ensures { OnOk result (labels_in self.new ≡ labels_in self.old ++ label.now ∷ []) }
    {
        let again = self.table.contains_key(label);
        self.labels.push(label)?;
        match self.table.insert(label, again) {
            Ok(_) => Ok(()),
            Err(_) => {
                let _ = self.labels.pop();
                Err(AllocError)
            }
        }
    }
}
