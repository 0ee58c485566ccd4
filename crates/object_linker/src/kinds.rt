//! What parameters hold (C89, 3.7.1).

ghost use Rattle.std.specs.Prelude.{◌≡◌};
ghost use Rattle.c_tree.specs.Declarations as tree;
ghost use Rattle.run_bytes.specs.Accesses.{access_of, object_at_first};

use c_tree::types::ParameterType;
use run_bytes::{AccessType, ObjectKind, PointedType};

/// By what type a parameter is read or stored.
pub fn parameter_access(of: ParameterType) -> AccessType
    ensures { access_of result ≡ tree.parameter_access of }
{
    match of {
        ParameterType::Integers | ParameterType::Logicals => {
            AccessType::Pointer(PointedType::Number)
        }
        ParameterType::Chars => AccessType::Pointer(PointedType::Char),
        ParameterType::Length | ParameterType::Int => AccessType::Number,
        ParameterType::Function(_) => AccessType::Function,
    }
}

/// The object of a parameter before a call: four bytes, or one value.
pub fn parameter_kind(of: ParameterType) -> ObjectKind
    ensures { object_at_first result ≡ tree.parameter_object of }
{
    match of {
        ParameterType::Length | ParameterType::Int => ObjectKind::Bytes { len: 4, set: false },
        _ => ObjectKind::Values {
            len: 1,
            holds: parameter_access(of),
        },
    }
}
