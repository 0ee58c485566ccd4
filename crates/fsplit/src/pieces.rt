//! The pieces of a file.

ghost use Rattle.std.specs.Prelude.{◌≡◌, ◌<◌, ◌==◌, ◌++◌, ◌∷◌, [], length, map, slice_get, Some, OnOk};

use split_pieces::{Wanted, WantedName};
use std::alloc::{AllocError, Global};
use std::marker::Model;

/// A piece: its text, and the name that it asks for.
#[derive(Drop)]
struct Part<'a> {
    text: &'a [u8],
    wanted: WantedName,
}

/// The pieces of a file, in their order, each with the name that it asks for.
#[derive(Drop)]
pub struct Pieces<'a> {
    parts: Vec<Part<'a>>,
}

impl<'a> Model for Pieces<'a> {
    ghost use Rattle.std.specs.Prelude.{List, map};
    ghost use Rattle.split_pieces.specs.Pieces.{Piece};

    ghost Value = { List Piece };

    ghost view = { λ p. map (λ part. record { text = part.text.now; wanted = part.wanted }) p.parts.items };
}

impl<'a> Pieces<'a> {
    /// No piece yet.
    pub(crate) fn new(alloc: Global) -> Pieces<'a>
        ensures { result ≡ [] }
    {
        Pieces {
            parts: Vec::new(alloc),
        }
    }

    /// Puts a piece behind the others.
    pub(crate) fn push(&mut self, text: &'a [u8], wanted: WantedName) -> Result<(), AllocError>
        ensures { OnOk result (self.new ≡ self.old ++ record { text = text.now; wanted = wanted } ∷ []) }
    {
        self.parts.push(Part { text, wanted })?;
        Ok(())
    }

    /// How many pieces there are.
    pub fn len(&self) -> usize
        ensures { result ≡ length self.now }
    {
        self.parts.len()
    }

    /// Whether the file has no piece: it is empty.
    pub fn is_empty(&self) -> bool
        ensures { result ≡ (length self.now == 0) }
    {
        self.parts.len() == 0
    }

    /// The text of a piece, by its place from 0.
    pub fn piece(&self, i: usize) -> &'a [u8]
        requires { i < length self.now }
        ensures { slice_get (map (λ p. p.text) self.now) i ≡ Some result.now }
    {
        self.parts[i].text
    }

    /// How the name of a piece is found, by the place of the piece from 0.
    pub fn wanted(&self, i: usize) -> Wanted
        requires { i < length self.now }
        ensures { slice_get (map (λ p. p.wanted.wanted) self.now) i ≡ Some result }
    {
        self.parts[i].wanted.wanted
    }

    /// The name that a piece asks for, by its place from 0: that of its unit with `.f`, and no byte where `wanted` is not `Named`.
    pub fn name(&self, i: usize) -> &[u8]
        requires { i < length self.now }
        ensures { slice_get (map (λ p. p.wanted.name) self.now) i ≡ Some result.now }
    {
        self.parts[i].wanted.name.as_slice()
    }
}
