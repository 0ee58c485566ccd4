//! What an active function keeps for itself (C89, 3.6).

ghost use Rattle.std.specs.Prelude.{◌≡◌, ◌<◌, ◌+◌, ◌^◌};
ghost use Rattle.c_tree.specs.Steps as steps;
ghost use Rattle.item_deeds.specs.Deeds.{view_of};

use linked_terms::LinkedPlace;

/// What is done with the answer to a call.
#[derive(Clone, Copy, Debug, PartialEq, Eq)]
pub enum CallWants {
    /// Nothing.
    Nothing,
    /// A store at a place that is settled.
    Value(LinkedPlace),
    /// The return of the function that calls.
    Answer,
}

/// The view of an active function; one that waits stands at its call.
#[derive(Clone, Copy, Debug, PartialEq, Eq)]
pub struct CallView {
    /// The number of the item that comes next.
    pub position: usize,
    /// What is done with the answer to the call.
    pub wants: CallWants,
    /// What the call before gave, where the function returns it.
    pub answer: Option<i32>,
}

impl CallView {
    /// The view that goes on at a position.
    pub fn at(self, position: usize) -> CallView
        ensures { view_of result ≡ record (view_of self) { position = position } }
    {
        CallView { position, ..self }
    }

    /// The view that goes on behind its call.
    pub fn past(self) -> CallView
        requires { self.position + 1 < 2 ^ 64 }
        ensures { view_of result ≡ steps.past (view_of self) }
    {
        CallView {
            position: self.position + 1,
            wants: CallWants::Nothing,
            answer: self.answer,
        }
    }
}
