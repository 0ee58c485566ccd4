//! The labels of a function (C89, 3.1.2.1 and 3.6.1).

ghost use Rattle.std.specs.Prelude.{◌≡◌, [], ◌∷◌, OnOk};
ghost use Rattle.c_tree.specs.CLabels.{no_label, both};
ghost use Rattle.c_statement_readers.specs.LabelTests as test;
ghost use Rattle.c_statement_reader.specs.LabelLists.{labels_seen};
ghost use Rattle.c_statement_reader.specs.LabelCounts.{naming};

use crate::label_list::LabelList;
use c_scope::is_name;
use std::alloc::{AllocError, Global};

/// The labels that stand and those that are named so far in a function.
#[derive(Drop)]
pub struct LabelsSeen<'a> {
    stand: LabelList<'a>,
    named: LabelList<'a>,
}

impl<'a> LabelsSeen<'a> {
    /// No labels.
    #[tactic(auto, unfolding(crate::specs::LabelLists::labels_seen))]
    pub fn new(alloc: Global) -> LabelsSeen<'a>
        ensures { labels_seen result ≡ no_label }
    {
        LabelsSeen {
            stand: LabelList::new(alloc),
            named: LabelList::new(alloc),
        }
    }

    /// Whether a label may be named: it is a name, and stands once at most.
    #[tactic(auto, unfolding(crate::specs::LabelLists::labels_seen))]
    pub fn may_be_named(&self, label: &[u8]) -> bool
        ensures { result ≡ test.may_be_named (labels_seen self.now).stand label.now }
    {
        is_name(label) && self.stand.has_few(label)
    }

    /// Whether a label may stand: it is a name, and does not stand already where it is named.
    #[tactic(auto, unfolding(crate::specs::LabelLists::labels_seen))]
    pub fn may_stand(&self, label: &[u8]) -> bool
        ensures { result ≡ test.may_stand (labels_seen self.now) label.now }
    {
        is_name(label) && !(self.named.has(label) && self.stand.has(label))
    }

    /// Whether each label that is named stands once.
    #[tactic(auto, unfolding(crate::specs::LabelLists::labels_seen))]
    pub fn do_meet(&self) -> bool
        ensures { result ≡ test.meet (labels_seen self.now) }
    {
        self.stand.has_each_once(&self.named)
    }

    /// A label stands.
    #[tactic(auto, using(crate::proofs::LabelSums::label_sums), unfolding(crate::specs::LabelLists::labels_seen))]
    pub fn stand(&mut self, label: &'a [u8]) -> Result<(), AllocError>
        ensures { OnOk result (labels_seen self.new ≡ test.with_label (labels_seen self.old) label.now) }
    {
        self.stand.add(label)
    }

    /// A label is named.
    #[tactic(auto, using(crate::proofs::LabelSums::label_sums), unfolding(crate::specs::LabelLists::labels_seen))]
    pub fn name(&mut self, label: &'a [u8]) -> Result<(), AllocError>
        ensures { OnOk result (labels_seen self.new ≡ both (labels_seen self.old) (naming (label.now ∷ []))) }
    {
        self.named.add(label)
    }
}
