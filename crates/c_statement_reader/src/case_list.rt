//! The cases of a switch, and a table of their numbers.

ghost use Rattle.std.specs.Prelude.{◌≡◌, ℕ, pos};
ghost use Rattle.std.specs.List.{list_any};
ghost use Rattle.std.specs.Ordering.{int_eq};
ghost use Rattle.c_tree.specs.CStatementText.{case_numbers};
ghost use Rattle.c_statement_reader.specs.CaseNumbers.{has_number};

use c_tree::statement::CCase;
use indexmap::IndexMap;
use plain_data::Items;
use std::alloc::{AllocError, Global};

/// The greatest number (C89, 3.1.3.2).
const GREATEST: u32 = 2_147_483_647;

/// The cases that are read so far, and a table of their numbers.
#[derive(Drop)]
pub(crate) struct CaseList {
    cases: Items<CCase>,
    numbers: IndexMap<u32, ()>,
    ghost told: { (q : ℕ) → has_number q numbers.entries ≡ list_any (int_eq (pos q)) (case_numbers cases) },
}

impl CaseList {
    ghost use Rattle.std.specs.Prelude.{◌≡◌, ◌≤◌, ◌∷◌, ◌++◌, [], IfOk};
    ghost use Rattle.c_statement_readers.specs.CaseReader as reader;
    ghost use Rattle.c_statement_reader.specs.CaseLists.{cases_in};

    /// No cases.
    #[tactic(auto, unfolding(crate::specs::CaseLists::cases_in))]
    pub(crate) fn new(alloc: Global) -> CaseList
        ensures { cases_in result ≡ [] }
    {
        CaseList {
            cases: Items::new(alloc),
            numbers: IndexMap::new(alloc),
        }
    }

    /// Whether a number may stand behind these: one that does not stand yet.
    #[tactic(auto, unfolding(crate::specs::CaseLists::cases_in))]
    pub(crate) fn is_new(&self, number: u32) -> bool
        ensures { result ≡ reader.is_new_number (cases_in self.now) number }
    {
        number <= GREATEST && !self.numbers.contains_key(&number)
    }

    /// Whether not all numbers stand.
    #[tactic(auto, unfolding(crate::specs::CaseLists::cases_in))]
    pub(crate) fn leaves_number(&self) -> bool
        ensures { result ≡ reader.leaves_number (cases_in self.now) }
    {
        self.cases.len() <= GREATEST as usize
    }

    /// The cases, and one more.
    #[tactic(auto, unfolding(crate::specs::CaseLists::cases_in))]
    pub(crate) fn with(
        self,
        alloc: Global,
        number: u32,
        label: &[u8],
    ) -> Result<CaseList, AllocError>
        requires { number ≤ 2147483647 }
        ensures { IfOk result (λ made. cases_in made ≡ cases_in self ++ reader.case_of number label.now ∷ []) }
    {
        let CaseList {
            mut cases,
            mut numbers,
        } = self;
        let label = Items::from_slice(alloc, label)?;
        cases.push(CCase {
            number: number as i32,
            label,
        })?;
        match numbers.insert(number, ()) {
            Ok(_) => Ok(CaseList { cases, numbers }),
            Err(_) => Err(AllocError),
        }
    }

    /// The cases alone.
    #[tactic(auto, unfolding(crate::specs::CaseLists::cases_in))]
    pub(crate) fn into_cases(self) -> Items<CCase>
        ensures { result ≡ cases_in self }
    {
        self.cases
    }
}
