//! Matrices over the field.

ghost use Rattle.std.specs.Prelude.{◌≡◌, ◌↔◌, ◌<ℤ◌, pos, IsTrue};
ghost use Rattle.plane.specs.Matrices.{identity, rows_of, entries_of, IsInLowestTerms, IsReducedTo};

use quad_field::{Quad, reduce};
use std::marker::Model;

const ZERO: Quad = Quad { a: 0, b: 0 };

const ONE: Quad = Quad { a: 1, b: 0 };

/// A matrix of two rows and two columns over the field, in lowest terms: equal matrices have equal fields.
/// Contracts see its rows and its denominator, which is above zero.
#[derive(Clone, Copy, Debug)]
pub struct Mat2 {
    n: [Quad; 4],
    den: i128,
}

impl Model for Mat2 {
    ghost use Rattle.std.specs.Prelude.{◌≡◌, pos, unsigned_abs};
    ghost use Rattle.plane.specs.Matrices.{FieldMatrix, rows_of, entries_of, IsInLowestTerms};

    ghost Value = { FieldMatrix };

    ghost view = { λ m. record { rows = rows_of m.n; denominator = unsigned_abs m.den } };

    ghost invariant = { λ m. (entries_of (rows_of m.n) ≡ m.n) × (pos (unsigned_abs m.den) ≡ m.den)
        × IsInLowestTerms (record { rows = rows_of m.n; denominator = unsigned_abs m.den }) };

    ghost inverse = { λ m. record { n = entries_of m.rows; den = pos m.denominator } };

    ghost inverse_ok = { λ a h i. record { n = h.0 i; den = h.1 i } };
}

impl Mat2 {
    /// The matrix of these numbers, by rows, over a denominator.
    pub fn reduced(n: [Quad; 4], den: i128) -> Mat2
        requires { pos 0 <ℤ den }
        ensures value { IsReducedTo (rows_of n) den result }
        ensures lowest { IsInLowestTerms result }
    {
        let mut n = n;
        let mut den = den;
        reduce(&mut n, &mut den);
        Mat2 { n, den }
    }

    /// Its numbers by rows, which are to be divided by the denominator.
    pub fn entries(&self) -> &[Quad; 4]
        ensures rows { result.now ≡ entries_of self.now.rows }
        ensures lowest { IsInLowestTerms self.now }
    {
        &self.n
    }

    /// The denominator of all its numbers.
    pub fn denominator(&self) -> i128
        ensures denominator { result ≡ pos self.now.denominator }
        ensures lowest { IsInLowestTerms self.now }
    {
        self.den
    }
}

/// Whether two matrices are equal.
pub fn mat_equal(a: &Mat2, b: &Mat2) -> bool
    ensures { IsTrue result ↔ (a.now ≡ b.now) }
{
    a.den == b.den && a.n == b.n
}

/// The matrix that keeps every vector.
pub fn mat_identity() -> Mat2
    ensures { result ≡ identity }
{
    Mat2 {
        n: [ONE, ZERO, ZERO, ONE],
        den: 1,
    }
}
