//! The names of a file and of the function that is being read.

ghost use Rattle.std.specs.Prelude.{◌≡◌, true, false};
ghost use Rattle.c_lexer.specs.c_tree.CText.{no_names};
ghost use Rattle.c_readers.specs.CallReader.{has_some};
ghost use Rattle.c_scope.specs.NamesSeen.{behind, stand_once};

use crate::class::{NameClass, has_either, is_array, is_function, is_pointer, is_truth};
use indexmap::IndexMap;
use std::alloc::{AllocError, Global};

/// The names that are declared in a file so far, and in the function that is being read. They are kept where they stand in the text.
#[derive(Drop)]
pub struct CScope<'a> {
    file: IndexMap<&'a [u8], NameClass>,
    function: IndexMap<&'a [u8], NameClass>,
    pointer: bool,
    ghost file_once: { stand_once file.entries ≡ true },
    ghost function_once: { stand_once function.entries ≡ true },
    ghost no_parameters: { has_some (behind file.entries no_names).pointers ≡ false },
    ghost points: { pointer ≡ has_some (behind function.entries (behind file.entries no_names)).pointers },
}

impl<'a> CScope<'a> {
    ghost use Rattle.std.specs.Prelude.{◌≡◌, ◌∷◌, ◌++◌, [], ◌||◌, false, true, OnOk, Some, codes};
    ghost use Rattle.c_lexer.specs.c_tree.CWords.{is_among};
    ghost use Rattle.c_lexer.specs.c_tree.CText.{no_names};
    ghost use Rattle.c_readers.specs.ExpressionReader.{is_known};
    ghost use Rattle.c_readers.specs.CallReader.{has_some};
    ghost use Rattle.c_scope.specs.NamesSeen.{with_name};
    ghost use Rattle.c_scope.specs.NamesSeen as spec;
    ghost use Rattle.c_scope.specs.ScopeSeen.{scope_of, file_scope_of, here_of, file_here_of, class_of};

    /// No names.
    #[tactic(auto, unfolding(crate::specs::ScopeSeen::scope_of, crate::specs::ScopeSeen::file_scope_of, crate::specs::ScopeSeen::here_of, crate::specs::ScopeSeen::file_here_of, crate::specs::NamesSeen::behind, crate::specs::NamesSeen::declared, crate::specs::NamesSeen::stand_once))]
    pub fn new(alloc: Global) -> CScope<'a>
        ensures scope { scope_of result ≡ no_names }
        ensures here { here_of result ≡ [] }
        ensures file_scope { file_scope_of result ≡ no_names }
        ensures file_here { file_here_of result ≡ [] }
    {
        CScope {
            file: IndexMap::new(alloc),
            function: IndexMap::new(alloc),
            pointer: false,
        }
    }

    /// What a name stands for, if it is declared.
    fn class_of(&self, name: &[u8]) -> Option<NameClass>
        ensures { result ≡ class_of self.now name.now }
    {
        match self.function.get(name) {
            Some(class) => Some(*class),
            None => self.file.get(name).copied(),
        }
    }

    /// Whether a name is one that an expression may use: one that is declared, or one of the include line's two.
    #[tactic(auto, using(crate::proofs::ScopeLemmas::known_names))]
    pub fn is_known(&self, name: &[u8]) -> bool
        ensures { result ≡ is_known (scope_of self.now) name.now }
    {
        match self.class_of(name) {
            Some(_) => true,
            None => is_truth(name),
        }
    }

    /// Whether a name is that of a function.
    #[tactic(auto, using(crate::proofs::ScopeLemmas::told_names))]
    pub fn is_function(&self, name: &[u8]) -> bool
        ensures { result ≡ is_among name.now (scope_of self.now).functions }
    {
        is_function(self.class_of(name))
    }

    /// Whether a name is that of a parameter that points to a function.
    #[tactic(auto, using(crate::proofs::ScopeLemmas::told_names))]
    pub fn is_pointer(&self, name: &[u8]) -> bool
        ensures { result ≡ is_among name.now (scope_of self.now).pointers }
    {
        is_pointer(self.class_of(name))
    }

    /// Whether a name is that of an array that lasts for the whole run.
    #[tactic(auto, using(crate::proofs::ScopeLemmas::told_names))]
    pub fn is_array(&self, name: &[u8]) -> bool
        ensures { result ≡ is_among name.now (scope_of self.now).arrays }
    {
        is_array(self.class_of(name))
    }

    /// Whether some parameter points to a function.
    #[tactic(auto, unfolding(crate::specs::ScopeSeen::scope_of, crate::specs::ScopeSeen::file_scope_of))]
    pub fn has_pointer(&self) -> bool
        ensures { result ≡ has_some (scope_of self.now).pointers }
    {
        self.pointer
    }

    /// Whether the function declares a name.
    #[tactic(auto, using(crate::proofs::ScopeLemmas::names_here))]
    pub fn is_here(&self, name: &[u8]) -> bool
        ensures { result ≡ is_among name.now (here_of self.now) }
    {
        self.function.contains_key(name)
    }

    /// Whether the file declares a name, outside functions.
    #[tactic(auto, using(crate::proofs::ScopeLemmas::names_here))]
    pub fn is_in_file(&self, name: &[u8]) -> bool
        ensures { result ≡ is_among name.now (file_here_of self.now) }
    {
        self.file.contains_key(name)
    }

    /// Declares a name in the function, which hides what has the name outside.
    pub fn declare(&mut self, name: &'a [u8], class: NameClass) -> Result<(), AllocError>
        requires { is_among name.now (here_of self.old) ≡ false }
        ensures scope { OnOk result (scope_of self.new ≡ with_name class name.now (scope_of self.old)) }
        ensures here { OnOk result (here_of self.new ≡ name.now ∷ here_of self.old) }
        ensures file_scope { OnOk result (file_scope_of self.new ≡ file_scope_of self.old) }
        ensures file_here { OnOk result (file_here_of self.new ≡ file_here_of self.old) }
    {
        let pointer = has_either(self.pointer, class);
        match self.function.insert(name, class) {
            Ok(_) => {
                self.pointer = pointer;
                Ok(())
            }
            Err(_) => Err(AllocError),
        }
    }

    /// Declares a name in the file, outside functions.
    pub fn declare_in_file(&mut self, name: &'a [u8], class: NameClass) -> Result<(), AllocError>
        requires fresh { is_among name.now (file_here_of self.old) ≡ false }
        requires outside { here_of self.old ≡ [] }
        requires no_parameter { spec.is_pointer (Some class) ≡ false }
        ensures file_scope { OnOk result (file_scope_of self.new ≡ with_name class name.now (file_scope_of self.old)) }
        ensures file_here { OnOk result (file_here_of self.new ≡ name.now ∷ file_here_of self.old) }
        ensures scope { OnOk result (scope_of self.new ≡ file_scope_of self.new) }
        ensures here { OnOk result (here_of self.new ≡ []) }
    {
        match self.file.insert(name, class) {
            Ok(_) => Ok(()),
            Err(_) => Err(AllocError),
        }
    }

    /// The end of the function: its names are forgotten.
    #[tactic(auto, unfolding(crate::specs::ScopeSeen::scope_of, crate::specs::ScopeSeen::file_scope_of, crate::specs::ScopeSeen::here_of, crate::specs::ScopeSeen::file_here_of, crate::specs::NamesSeen::behind, crate::specs::NamesSeen::declared, crate::specs::NamesSeen::stand_once))]
    pub fn end_function(&mut self)
        ensures scope { scope_of self.new ≡ file_scope_of self.old }
        ensures here { here_of self.new ≡ [] }
        ensures file_scope { file_scope_of self.new ≡ file_scope_of self.old }
        ensures file_here { file_here_of self.new ≡ file_here_of self.old }
    {
        self.function.clear();
        self.pointer = false;
    }
}
