//! What a name stands for.

ghost use Rattle.std.specs.Prelude.{◌≡◌, ◌||◌, ◌∷◌, [], codes};
ghost use Rattle.c_lexer.specs.c_tree.CWords.{is_among};
ghost use Rattle.c_scope.specs.NamesSeen as spec;

/// What a name stands for.
#[derive(Clone, Copy, Debug, PartialEq, Eq)]
pub enum NameClass {
    /// An object that does not last for the whole run, or that is no array.
    Object,
    /// An array that lasts for the whole run.
    Array,
    /// A function that is declared or defined.
    Function,
    /// A parameter that points to a function.
    Pointer,
}

/// Whether a name of a class is a function.
pub(crate) fn is_function(class: Option<NameClass>) -> bool
    ensures { result ≡ spec.is_function class }
{
    matches!(class, Some(NameClass::Function))
}

/// Whether a name of a class is a parameter that points to a function.
pub(crate) fn is_pointer(class: Option<NameClass>) -> bool
    ensures { result ≡ spec.is_pointer class }
{
    matches!(class, Some(NameClass::Pointer))
}

/// Whether a name of a class is an array that lasts for the whole run.
pub(crate) fn is_array(class: Option<NameClass>) -> bool
    ensures { result ≡ spec.is_array class }
{
    matches!(class, Some(NameClass::Array))
}

/// Whether a name is one of the two of the include line.
pub(crate) fn is_truth(name: &[u8]) -> bool
    ensures { result ≡ is_among name.now (codes "TRUE_" ∷ codes "FALSE_" ∷ []) }
{
    name == b"TRUE_".as_slice() || name == b"FALSE_".as_slice()
}

/// Whether some parameter points to a function, where a name more is declared.
pub(crate) fn has_either(before: bool, class: NameClass) -> bool
    ensures { result ≡ (before || spec.is_pointer (Some class)) }
{
    before || is_pointer(Some(class))
}
