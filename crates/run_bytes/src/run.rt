//! The objects of a run (C89, 3.1.2.5 and 3.3.2).

ghost use Rattle.std.specs.Prelude.{◌≡◌, ◌<◌, ◌^◌, Bool, List, Option, slice_get, option_map, map, length, IfOk, IfSome, OnOk};
ghost use Rattle.c_tree.specs.declared.outcome.CValue.TheVariants.{Number, Pointer};
ghost use Rattle.c_tree.specs.Access.{ToNumber};
ghost use Rattle.c_tree.specs.Objects as objects;
ghost use Rattle.c_tree.specs.LibraryArguments as arguments;
ghost use Rattle.run_bytes.specs.Accesses.{access_of, typed_of, object_at_first};
ghost use Rattle.run_bytes.specs.Answers.{answered};
ghost use Rattle.run_bytes.specs.Layout.{Stores, unset_at, held_type};

use crate::access::{AccessType, ObjectKind, TypedValue};
use crate::places::{self, StoredObject};
use crate::{held, room};
use c_tree::outcome::{CFault, CValue};
use std::alloc::{AllocError, Global};
use std::marker::Model;

/// The objects of a run, one behind the other. A contract sees them as the list of the objects.
#[derive(Drop)]
pub struct RunBytes {
    bytes: Vec<u8>,
    marks: Vec<bool>,
    values: Vec<Option<CValue>>,
    places: Vec<StoredObject>,
}

impl Model for RunBytes {
    ghost use Rattle.std.specs.Prelude.{List};
    ghost use Rattle.c_tree.specs.Objects.{Object};
    ghost use Rattle.run_bytes.specs.ObjectCode.{objects_code};

    ghost Value = { List Object };

    ghost coded = { objects_code };

    ghost use Rattle.run_bytes.specs.Cells.{marked};
    ghost use Rattle.run_bytes.specs.Layout.{objects_in, IsLaidOut};

    ghost view = { λ run. objects_in run.places.items (marked run.bytes.items run.marks.items) run.values.items };

    ghost invariant = { λ run. IsLaidOut run.places.items run.bytes.items run.marks.items run.values.items };
}

impl RunBytes {
    /// The objects of a run as they start, one behind the other. An error where memory ran out.
    pub fn new(alloc: Global, objects: &[ObjectKind]) -> Result<RunBytes, AllocError>
        ensures { IfOk result (λ run. run ≡ map object_at_first objects.now) }
    {
        let (byte_count, value_count) = room::room_of(objects);
        let mut bytes = Vec::with_capacity(alloc, byte_count)?;
        let mut marks = Vec::with_capacity(alloc, byte_count)?;
        let mut values = Vec::with_capacity(alloc, value_count)?;
        let mut places = Vec::with_capacity(alloc, objects.len())?;
        for kind in objects {
            room::add(*kind, &mut bytes, &mut marks, &mut values, &mut places)?;
        }
        Ok(RunBytes {
            bytes,
            marks,
            values,
            places,
        })
    }

    /// What an access reads at an offset of an object.
    fn read(&self, object: usize, offset: usize, access: AccessType) -> Result<TypedValue, CFault>
        ensures { answered typed_of result ≡ objects.read_object (access_of access) offset (slice_get self.now object) }
    {
        match places::place_at(&self.places, object) {
            Some(place) => places::read(
                place,
                &self.bytes,
                &self.marks,
                &self.values,
                offset,
                access,
            ),
            None => Err(CFault::Outside),
        }
    }

    /// The value at a place, with the type of accesses through it (C89, 3.2.2.1).
    ///
    /// # Errors
    /// `Unset` where it was not set; `Outside` past the object, through null, and for a number at an offset that is no multiple of
    /// four; `Kind` for another type than the object's, and through a number or a function.
    #[tactic(auto, unfolding(c_tree::specs::Objects::fetched))]
    pub fn fetch(&self, at: CValue, access: AccessType) -> Result<TypedValue, CFault>
        ensures { answered typed_of result ≡ objects.fetched self.now (record { at = at; access = access_of access }) }
    {
        if !held::is_valued(access) {
            return Err(CFault::Kind);
        }
        match at {
            CValue::Pointer { object, offset } => self.read(object, offset, access),
            CValue::Null => Err(CFault::Outside),
            _ => Err(CFault::Kind),
        }
    }

    /// The number at an offset of an object: what `fetch` finds there for an access to numbers.
    ///
    /// # Errors
    /// `Unset` where it was not set; `Outside` past the object, where there is none, and at an offset that is no multiple of four; `Kind`
    /// for an object of values.
    pub fn number_at(&self, object: usize, offset: usize) -> Result<i32, CFault>
        ensures { answered (λ number. objects.plain (Number number)) result ≡ objects.read_object ToNumber offset (slice_get self.now object) }
    {
        match places::place_at(&self.places, object) {
            Some(place) => places::number(place, &self.bytes, &self.marks, offset),
            None => Err(CFault::Outside),
        }
    }

    /// Stores a value at an offset of an object as it is: no other form is made of it, as `store` does.
    ///
    /// # Errors
    /// `Outside` past the object, where there is none, and for a number at an offset that is no multiple of four; `Kind` for another type than
    /// the object's.
    pub fn write(
        &mut self,
        object: usize,
        offset: usize,
        access: AccessType,
        value: CValue,
    ) -> Result<(), CFault>
        ensures { Stores (λ all. objects.store_through all (Pointer object offset) (access_of access) value) self.old self.new result }
    {
        match places::place_at(&self.places, object) {
            Some(place) => places::write(
                place,
                &mut self.bytes,
                &mut self.marks,
                &mut self.values,
                offset,
                access,
                value,
            ),
            None => Err(CFault::Outside),
        }
    }

    /// Stores a number at an offset of an object, as `write` does for an access to numbers.
    ///
    /// # Errors
    /// `Outside` past the object, where there is none, and at an offset that is no multiple of four; `Kind` for an object of values.
    pub fn put_number(&mut self, object: usize, offset: usize, number: i32) -> Result<(), CFault>
        ensures { Stores (λ all. objects.store_through all (Pointer object offset) ToNumber (Number number)) self.old self.new result }
    {
        match places::place_at(&self.places, object) {
            Some(place) => {
                places::put_number(place, &mut self.bytes, &mut self.marks, offset, number)
            }
            None => Err(CFault::Outside),
        }
    }

    /// Stores a value at a place (C89, 3.3.16.1). At a fault everything stays as it was.
    ///
    /// # Errors
    /// `Outside` past the object, through null, and for a number at an offset that is no multiple of four; `Kind` for a value of
    /// another kind, for another type than the object's, and through a number or a function.
    #[tactic(auto, unfolding(c_tree::specs::Objects::stored))]
    pub fn store(&mut self, at: CValue, access: AccessType, value: CValue) -> Result<(), CFault>
        ensures { Stores (λ all. objects.stored all (record { at = at; access = access_of access }) value) self.old self.new result }
    {
        match held::converted(access, value) {
            Ok(held) => match at {
                CValue::Pointer { object, offset } => self.write(object, offset, access, held),
                CValue::Null => Err(CFault::Outside),
                _ => Err(CFault::Kind),
            },
            Err(fault) => Err(fault),
        }
    }

    /// The text of so many bytes from an offset of an object on.
    fn text_in(&self, object: usize, offset: usize, count: usize) -> Result<&[u8], CFault>
        ensures { answered (λ text. text.now) result ≡ arguments.text_in (slice_get self.now object) offset count }
    {
        match places::place_at(&self.places, object) {
            Some(place) => places::text(place, &self.bytes, &self.marks, offset, count),
            None => Err(CFault::Outside),
        }
    }

    /// The text of so many bytes that a pointer points to. An empty one is no access.
    ///
    /// # Errors
    /// `Unset` where a byte was not set; `Outside` past the object and through null; `Kind` for an object of values, and through a
    /// number or a function.
    pub fn text(&self, at: CValue, count: usize) -> Result<&[u8], CFault>
        ensures { answered (λ text. text.now) result ≡ arguments.text_at self.now at count }
    {
        if count == 0 {
            return Ok(&[]);
        }
        match at {
            CValue::Pointer { object, offset } => self.text_in(object, offset, count),
            CValue::Null => Err(CFault::Outside),
            _ => Err(CFault::Kind),
        }
    }

    /// Stores a text from an offset of an object on.
    fn put_text_in(&mut self, object: usize, offset: usize, text: &[u8]) -> Result<(), CFault>
        ensures { Stores (λ all. arguments.store_text all (Pointer object offset) text.now) self.old self.new result }
    {
        match places::place_at(&self.places, object) {
            Some(place) => {
                places::put_text(place, &mut self.bytes, &mut self.marks, offset, text)
            }
            None => Err(CFault::Outside),
        }
    }

    /// Stores a text where a pointer points to. An empty one is no access; at a fault everything stays as it was.
    ///
    /// # Errors
    /// `Outside` past the object and through null; `Kind` for an object of values, and through a number or a function.
    pub fn put_text(&mut self, at: CValue, text: &[u8]) -> Result<(), CFault>
        ensures { Stores (λ all. arguments.text_stored all at text.now) self.old self.new result }
    {
        if text.is_empty() {
            return Ok(());
        }
        match at {
            CValue::Pointer { object, offset } => self.put_text_in(object, offset, text),
            CValue::Null => Err(CFault::Outside),
            _ => Err(CFault::Kind),
        }
    }

    /// Makes an object one of which nothing is set, as a call finds its automatic objects. It does nothing for a number that no
    /// object has.
    pub fn unset(&mut self, object: usize)
        ensures { self.new ≡ unset_at object self.old }
    {
        if let Some(place) = places::place_at(&self.places, object) {
            places::unset(place, &mut self.marks, &mut self.values);
        }
    }

    /// How many bytes or values an object has.
    pub fn extent(&self, object: usize) -> Option<usize>
        ensures value { result ≡ option_map objects.extent (slice_get self.now object) }
        ensures small { IfSome result (λ count. count < 2 ^ 63) }
    {
        match places::place_at(&self.places, object) {
            Some(place) => Some(places::extent(place, &self.bytes, &self.values)),
            None => None,
        }
    }

    /// The type of the values that an object holds, or of the list whose fields they are; none of an object of bytes.
    pub fn held_type(&self, object: usize) -> Option<AccessType>
        ensures { option_map access_of result ≡ held_type (slice_get self.now object) }
    {
        match places::place_at(&self.places, object) {
            Some(place) => places::held_type(place),
            None => None,
        }
    }
}
