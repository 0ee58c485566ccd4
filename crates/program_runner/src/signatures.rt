//! What the functions of the library take and give, by their numbers (CSTR 149, appendix on the run time library).

ghost use Rattle.std.specs.Prelude.{◌≡◌, ◌&&◌, map, option_map, slice_get};
ghost use Rattle.c_tree.specs.Builtins.{signatures};
ghost use Rattle.c_tree.specs.Steps as steps;
ghost use Rattle.item_deeds.specs.Deeds.{wants_of};
ghost use Rattle.program_runner.specs.Signatures.{taken_of, shape_of, listed_shape, Allows};

use c_tree::outcome::{CFault, CValue};
use item_deeds::CallWants;

/// What a function takes: numbers by value, and pointers.
#[derive(Clone, Copy)]
pub(crate) enum Taken {
    Number,
    Pointer,
}

/// What a function takes from the left, and whether it gives a value.
#[derive(Clone, Copy)]
pub(crate) struct LibrarySignature {
    pub(crate) takes: &'static [Taken],
    pub(crate) gives: bool,
}

/// Two texts and their lengths.
const TEXTS: &[Taken] = &[Taken::Pointer, Taken::Pointer, Taken::Number, Taken::Number];

/// A target, the pieces, their lengths and their count, and the length of the target.
const PIECES: &[Taken] = &[
    Taken::Pointer,
    Taken::Pointer,
    Taken::Pointer,
    Taken::Pointer,
    Taken::Number,
];

/// Two pointers.
const POINTERS: &[Taken] = &[Taken::Pointer, Taken::Pointer];

/// A text and its length.
const TEXT: &[Taken] = &[Taken::Pointer, Taken::Number];

/// One pointer.
const POINTER: &[Taken] = &[Taken::Pointer];

/// A count, the items and their size.
const ITEMS: &[Taken] = &[Taken::Pointer, Taken::Pointer, Taken::Number];

/// A type, a count, the items and their size.
const TYPED_ITEMS: &[Taken] = &[
    Taken::Pointer,
    Taken::Pointer,
    Taken::Pointer,
    Taken::Number,
];

/// Nothing.
const NOTHING: &[Taken] = &[];

/// A name, a number, a name and a number.
const PLACE: &[Taken] = &[Taken::Pointer, Taken::Number, Taken::Pointer, Taken::Number];

/// The functions of the library in the order of their numbers.
static SIGNATURES: [LibrarySignature; 44] = [
    // s_copy
    LibrarySignature {
        takes: TEXTS,
        gives: false,
    },
    // s_cmp
    LibrarySignature {
        takes: TEXTS,
        gives: true,
    },
    // s_cat
    LibrarySignature {
        takes: PIECES,
        gives: false,
    },
    // i_indx
    LibrarySignature {
        takes: TEXTS,
        gives: true,
    },
    // pow_ii
    LibrarySignature {
        takes: POINTERS,
        gives: true,
    },
    // i_sign
    LibrarySignature {
        takes: POINTERS,
        gives: true,
    },
    // i_dim
    LibrarySignature {
        takes: POINTERS,
        gives: true,
    },
    // l_ge
    LibrarySignature {
        takes: TEXTS,
        gives: true,
    },
    // l_gt
    LibrarySignature {
        takes: TEXTS,
        gives: true,
    },
    // l_le
    LibrarySignature {
        takes: TEXTS,
        gives: true,
    },
    // l_lt
    LibrarySignature {
        takes: TEXTS,
        gives: true,
    },
    // s_stop
    LibrarySignature {
        takes: TEXT,
        gives: true,
    },
    // s_wsfe
    LibrarySignature {
        takes: POINTER,
        gives: true,
    },
    // s_rsfe
    LibrarySignature {
        takes: POINTER,
        gives: true,
    },
    // s_wsle
    LibrarySignature {
        takes: POINTER,
        gives: true,
    },
    // s_rsle
    LibrarySignature {
        takes: POINTER,
        gives: true,
    },
    // s_wsfi
    LibrarySignature {
        takes: POINTER,
        gives: true,
    },
    // s_rsfi
    LibrarySignature {
        takes: POINTER,
        gives: true,
    },
    // s_wsli
    LibrarySignature {
        takes: POINTER,
        gives: true,
    },
    // s_rsli
    LibrarySignature {
        takes: POINTER,
        gives: true,
    },
    // do_fio
    LibrarySignature {
        takes: ITEMS,
        gives: true,
    },
    // do_lio
    LibrarySignature {
        takes: TYPED_ITEMS,
        gives: true,
    },
    // e_wsfe
    LibrarySignature {
        takes: NOTHING,
        gives: true,
    },
    // e_rsfe
    LibrarySignature {
        takes: NOTHING,
        gives: true,
    },
    // e_wsle
    LibrarySignature {
        takes: NOTHING,
        gives: true,
    },
    // e_rsle
    LibrarySignature {
        takes: NOTHING,
        gives: true,
    },
    // e_wsfi
    LibrarySignature {
        takes: NOTHING,
        gives: true,
    },
    // e_rsfi
    LibrarySignature {
        takes: NOTHING,
        gives: true,
    },
    // e_wsli
    LibrarySignature {
        takes: NOTHING,
        gives: true,
    },
    // e_rsli
    LibrarySignature {
        takes: NOTHING,
        gives: true,
    },
    // f_open
    LibrarySignature {
        takes: POINTER,
        gives: true,
    },
    // f_clos
    LibrarySignature {
        takes: POINTER,
        gives: true,
    },
    // f_back
    LibrarySignature {
        takes: POINTER,
        gives: true,
    },
    // f_rew
    LibrarySignature {
        takes: POINTER,
        gives: true,
    },
    // f_end
    LibrarySignature {
        takes: POINTER,
        gives: true,
    },
    // i_or
    LibrarySignature {
        takes: POINTERS,
        gives: true,
    },
    // i_and
    LibrarySignature {
        takes: POINTERS,
        gives: true,
    },
    // i_eor
    LibrarySignature {
        takes: POINTERS,
        gives: true,
    },
    // i_not
    LibrarySignature {
        takes: POINTER,
        gives: true,
    },
    // i_shft
    LibrarySignature {
        takes: POINTERS,
        gives: true,
    },
    // b_test
    LibrarySignature {
        takes: POINTERS,
        gives: true,
    },
    // b_set
    LibrarySignature {
        takes: POINTERS,
        gives: true,
    },
    // b_clr
    LibrarySignature {
        takes: POINTERS,
        gives: true,
    },
    // s_rnge
    LibrarySignature {
        takes: PLACE,
        gives: true,
    },
];

/// The functions of the library in the order of their numbers.
fn table() -> &'static [LibrarySignature]
    ensures { map shape_of result.now ≡ map listed_shape signatures }
{
    &SIGNATURES
}

/// The signature at a place, if there is one.
fn signature_at(table: &[LibrarySignature], place: usize) -> Option<LibrarySignature>
    ensures { result ≡ slice_get table.now place }
{
    table.get(place).copied()
}

/// The signature of the function of a number.
fn signature(number: usize) -> Option<LibrarySignature>
    ensures { option_map shape_of result ≡ option_map listed_shape (slice_get signatures number) }
{
    signature_at(table(), number)
}

/// Whether a value is of the kind that a function takes.
fn takes(taken: Taken, value: CValue) -> bool
    ensures { result ≡ steps.takes (taken_of taken) value }
{
    match taken {
        Taken::Number => matches!(value, CValue::Number(_)),
        Taken::Pointer => matches!(value, CValue::Pointer { .. } | CValue::Null),
    }
}

/// Whether the values agree with what a function takes in number and kind.
fn takes_all(all: &[Taken], values: &[CValue]) -> bool
    ensures { result ≡ steps.takes_all (map taken_of all.now) values.now }
{
    match all {
        [] => values.is_empty(),
        [taken, kinds @ ..] => match values {
            [] => false,
            [value, later @ ..] => takes(*taken, *value) && takes_all(kinds, later),
        },
    }
}

/// Whether a function may be called so: the value of one that gives none is not used.
fn may_give(gives: bool, wants: CallWants) -> bool
    ensures { result ≡ steps.may_give gives (wants_of wants) }
{
    gives || matches!(wants, CallWants::Nothing)
}

/// Whether a function takes these values, and its value may be used so.
fn agrees(found: LibrarySignature, values: &[CValue], wants: CallWants) -> bool
    ensures { result ≡ (steps.takes_all (map taken_of found.takes.now) values.now && steps.may_give found.gives (wants_of wants)) }
{
    takes_all(found.takes, values) && may_give(found.gives, wants)
}

/// Whether the function of a number may be called with these values.
///
/// # Errors
/// `Kind` where there is no such function; `Disagree` where the values do not agree with what it takes, or its value is used and there
/// is none.
#[tactic(auto, using(crate::proofs::SignatureLaws::allowing_laws))]
pub(crate) fn allowed(number: usize, values: &[CValue], wants: CallWants) -> Result<(), CFault>
    ensures { Allows number values.now (wants_of wants) result }
{
    match signature(number) {
        None => Err(CFault::Kind),
        Some(found) if agrees(found, values, wants) => Ok(()),
        Some(_) => Err(CFault::Disagree),
    }
}
