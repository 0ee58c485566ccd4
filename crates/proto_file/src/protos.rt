//! The prototypes of a file.

ghost use Rattle.std.specs.Prelude.{◌≡◌, ◌<◌, ◌==◌, ◌++◌, ◌∷◌, [], length, map, slice_get, Some, OnOk};

use c_tree::declaration::CParam;
use c_tree::types::ResultType;
use plain_data::Items;
use prototypes::Prototype;
use std::alloc::{AllocError, Global};
use std::marker::Model;

/// The prototypes of a file, in the order of its lines.
#[derive(Drop)]
pub struct Protos {
    lines: Items<Prototype>,
}

impl Model for Protos {
    ghost use Rattle.std.specs.Prelude.{List};
    ghost use Rattle.prototypes.specs.declared.prototype.Prototype.{Prototype};

    ghost Value = { List Prototype };

    ghost view = { λ p. p.lines };
}

impl Protos {
    /// No prototype yet.
    pub(crate) fn new(alloc: Global) -> Protos
        ensures { result ≡ [] }
    {
        Protos {
            lines: Items::new(alloc),
        }
    }

    /// Puts a prototype behind the others.
    pub(crate) fn push(&mut self, prototype: Prototype) -> Result<(), AllocError>
        ensures { OnOk result (self.new ≡ self.old ++ prototype ∷ []) }
    {
        self.lines.push(prototype)?;
        Ok(())
    }

    /// The prototypes, in their order.
    pub fn as_slice(&self) -> &[Prototype]
        ensures { result.now ≡ self.now }
    {
        self.lines.as_slice()
    }

    /// How many prototypes there are.
    pub fn len(&self) -> usize
        ensures { result ≡ length self.now }
    {
        self.lines.as_slice().len()
    }

    /// Whether there is none.
    pub fn is_empty(&self) -> bool
        ensures { result ≡ (length self.now == 0) }
    {
        self.lines.as_slice().is_empty()
    }

    /// The name of the function of a line, by the place of the line from 0.
    pub fn name(&self, i: usize) -> &[u8]
        requires { i < length self.now }
        ensures { slice_get (map (λ p. p.name) self.now) i ≡ Some result.now }
    {
        self.lines.as_slice()[i].name.as_slice()
    }

    /// What that function gives its caller.
    pub fn result(&self, i: usize) -> ResultType
        requires { i < length self.now }
        ensures { slice_get (map (λ p. p.result) self.now) i ≡ Some result }
    {
        self.lines.as_slice()[i].result
    }

    /// The parameters of that function, from the left.
    pub fn params(&self, i: usize) -> &[CParam]
        requires { i < length self.now }
        ensures { slice_get (map (λ p. p.params) self.now) i ≡ Some result.now }
    {
        self.lines.as_slice()[i].params.as_slice()
    }
}
