//! Codes.

ghost use Rattle.std.specs.Prelude.{◌≡◌, IfOk, Some, refl};
ghost use Rattle.std.specs.Ordering.{int_cmp, int_eq, as_partial_cmp};
ghost use Rattle.std.specs.Cmp.{partial_equiv_from_equiv, partial_order_from_total, int_cmp_total, int_eq_equiv};
ghost use Rattle.std.specs.Cmp.Lexicographic.{slice_cmp, slice_partial_cmp, lists_po, lists_agrees, pointwise, lists_total, lists_equiv, lists_ties};

use std::alloc::{AllocError, Global};
use std::cmp::Ordering;
use std::marker::Model;

/// The code of a triangulation. Contracts see it as its list of whole numbers.
#[derive(Drop)]
pub struct Code {
    numbers: Vec<i128>,
}

impl Model for Code {
    ghost use Rattle.std.specs.Prelude.{List, ℤ};

    ghost Value = { List ℤ };

    ghost view = { λ c. c.numbers.items };
}

impl Code {
    /// The code of these numbers.
    pub(crate) fn new(numbers: Vec<i128>) -> Code
        ensures { result ≡ numbers.items }
    {
        Code { numbers }
    }

    /// Its numbers.
    pub fn numbers(&self) -> &[i128]
        ensures { result.now ≡ self.now }
    {
        self.numbers.as_slice()
    }

    /// A copy.
    pub fn copy(&self, alloc: Global) -> Result<Code, AllocError>
        ensures { IfOk result (λ c. c ≡ self.now) }
    {
        Ok(Code {
            numbers: Vec::from_slice(alloc, self.numbers.as_slice())?,
        })
    }
}

impl PartialEq for Code {
    ghost eq = { λ a b. pointwise int_eq a b };

    ghost laws = { partial_equiv_from_equiv (lists_equiv int_eq_equiv) };

    fn eq(&self, other: &Code) -> bool {
        self.numbers() == other.numbers()
    }
}

impl Eq for Code {
    ghost laws = { lists_equiv int_eq_equiv };
}

impl PartialOrd for Code {
    ghost partial_cmp = { λ a b. slice_partial_cmp (as_partial_cmp int_cmp) a b };

    ghost laws = { lists_po (partial_order_from_total int_cmp_total) };

    fn partial_cmp(&self, other: &Code) -> Option<Ordering> {
        Some(self.cmp(other))
    }
}

impl Ord for Code {
    ghost cmp = { λ a b. slice_cmp int_cmp a b };

    ghost total = { lists_total int_cmp_total };

    ghost matches_partial_cmp = { λ a b. lists_agrees (λ x y. refl) a b };

    ghost matches_eq = { λ a b. lists_ties int_cmp (λ x y. refl) a b };

    fn cmp(&self, other: &Code) -> Ordering {
        self.numbers().cmp(other.numbers())
    }
}
