//! The intrinsic functions by their names. Section 15.10, and MIL-STD-1753.

ghost use Rattle.std.specs.Prelude.{◌≡◌, ◌≤◌, option_copied};
ghost use Rattle.expression_judge.specs.Intrinsics as spec;

use f_tree::Basic;

/// What an intrinsic function wants of its operands, and the type that it gives.
#[derive(Clone, Copy, Debug, PartialEq, Eq)]
pub struct Intrinsic {
    /// The type of each operand.
    pub wants: Basic,
    /// How many operands, at the least where there may be more.
    pub count: usize,
    /// Whether there may be more.
    pub or_more: bool,
    /// The type of its value.
    pub gives: Basic,
}

/// One operand and a value of type INTEGER.
const OF_INTEGER: Intrinsic = Intrinsic {
    wants: Basic::Integer,
    count: 1,
    or_more: false,
    gives: Basic::Integer,
};

/// Two operands and a value of type INTEGER.
const OF_INTEGERS: Intrinsic = Intrinsic {
    wants: Basic::Integer,
    count: 2,
    or_more: false,
    gives: Basic::Integer,
};

/// Two or more operands and a value of type INTEGER.
const OF_MANY: Intrinsic = Intrinsic {
    wants: Basic::Integer,
    count: 2,
    or_more: true,
    gives: Basic::Integer,
};

/// The number of a character, or the length of a text.
const OF_TEXT: Intrinsic = Intrinsic {
    wants: Basic::Character,
    count: 1,
    or_more: false,
    gives: Basic::Integer,
};

/// A character by its number.
const TO_TEXT: Intrinsic = Intrinsic {
    wants: Basic::Integer,
    count: 1,
    or_more: false,
    gives: Basic::Character,
};

/// The place of a text in another.
const OF_TEXTS: Intrinsic = Intrinsic {
    wants: Basic::Character,
    count: 2,
    or_more: false,
    gives: Basic::Integer,
};

/// Two texts by the order of the alphabet.
const COMPARING: Intrinsic = Intrinsic {
    wants: Basic::Character,
    count: 2,
    or_more: false,
    gives: Basic::Logical,
};

/// A bit of a number.
const TESTING: Intrinsic = Intrinsic {
    wants: Basic::Integer,
    count: 2,
    or_more: false,
    gives: Basic::Logical,
};

/// An intrinsic function with its name.
struct NamedIntrinsic {
    name: &'static [u8],
    intrinsic: Intrinsic,
}

/// The intrinsic functions.
static INTRINSICS: [NamedIntrinsic; 28] = [
    NamedIntrinsic {
        name: b"int",
        intrinsic: OF_INTEGER,
    },
    NamedIntrinsic {
        name: b"abs",
        intrinsic: OF_INTEGER,
    },
    NamedIntrinsic {
        name: b"iabs",
        intrinsic: OF_INTEGER,
    },
    NamedIntrinsic {
        name: b"mod",
        intrinsic: OF_INTEGERS,
    },
    NamedIntrinsic {
        name: b"sign",
        intrinsic: OF_INTEGERS,
    },
    NamedIntrinsic {
        name: b"isign",
        intrinsic: OF_INTEGERS,
    },
    NamedIntrinsic {
        name: b"dim",
        intrinsic: OF_INTEGERS,
    },
    NamedIntrinsic {
        name: b"idim",
        intrinsic: OF_INTEGERS,
    },
    NamedIntrinsic {
        name: b"max",
        intrinsic: OF_MANY,
    },
    NamedIntrinsic {
        name: b"max0",
        intrinsic: OF_MANY,
    },
    NamedIntrinsic {
        name: b"min",
        intrinsic: OF_MANY,
    },
    NamedIntrinsic {
        name: b"min0",
        intrinsic: OF_MANY,
    },
    NamedIntrinsic {
        name: b"ichar",
        intrinsic: OF_TEXT,
    },
    NamedIntrinsic {
        name: b"char",
        intrinsic: TO_TEXT,
    },
    NamedIntrinsic {
        name: b"len",
        intrinsic: OF_TEXT,
    },
    NamedIntrinsic {
        name: b"index",
        intrinsic: OF_TEXTS,
    },
    NamedIntrinsic {
        name: b"lge",
        intrinsic: COMPARING,
    },
    NamedIntrinsic {
        name: b"lgt",
        intrinsic: COMPARING,
    },
    NamedIntrinsic {
        name: b"lle",
        intrinsic: COMPARING,
    },
    NamedIntrinsic {
        name: b"llt",
        intrinsic: COMPARING,
    },
    NamedIntrinsic {
        name: b"ior",
        intrinsic: OF_INTEGERS,
    },
    NamedIntrinsic {
        name: b"iand",
        intrinsic: OF_INTEGERS,
    },
    NamedIntrinsic {
        name: b"not",
        intrinsic: OF_INTEGER,
    },
    NamedIntrinsic {
        name: b"ieor",
        intrinsic: OF_INTEGERS,
    },
    NamedIntrinsic {
        name: b"ishft",
        intrinsic: OF_INTEGERS,
    },
    NamedIntrinsic {
        name: b"btest",
        intrinsic: TESTING,
    },
    NamedIntrinsic {
        name: b"ibset",
        intrinsic: OF_INTEGERS,
    },
    NamedIntrinsic {
        name: b"ibclr",
        intrinsic: OF_INTEGERS,
    },
];

/// The one of these intrinsic functions that has a name.
#[tactic(auto, unfolding(crate::specs::Intrinsics::named_in))]
fn named_in(table: &[NamedIntrinsic], name: &[u8]) -> Option<Intrinsic>
    ensures { result ≡ spec.named_in table.now name.now }
{
    match table {
        [] => None,
        [first, ..] if first.name == name => Some(first.intrinsic),
        [_, rest @ ..] => named_in(rest, name),
    }
}

/// The intrinsic function with a name.
#[tactic(auto, unfolding(crate::specs::Intrinsics::intrinsic_named, crate::specs::Intrinsics::intrinsic_in, crate::specs::Intrinsics::named_in, crate::specs::Intrinsics::intrinsic_of, crate::specs::Intrinsics::takes, crate::specs::Intrinsics::takes_two_or_more, f_tree::specs::Reading::intrinsics))]
pub fn intrinsic_named(name: &[u8]) -> Option<Intrinsic>
    ensures { result ≡ spec.intrinsic_named name.now }
{
    named_in(&INTRINSICS, name)
}

/// How many operands an intrinsic function wants where so many stand.
#[tactic(auto, unfolding(crate::specs::Intrinsics::operands_wanted))]
pub fn operands_wanted(intrinsic: Intrinsic, stand: usize) -> usize
    ensures { result ≡ spec.operands_wanted intrinsic stand }
{
    if intrinsic.or_more {
        intrinsic.count.max(stand)
    } else {
        intrinsic.count
    }
}
