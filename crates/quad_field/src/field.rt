//! The field, and its arithmetic.

ghost use Rattle.std.specs.Prelude.{◌≡◌, ◌↔◌, IsOk, IfOk};
ghost use Rattle.std.specs.Option.{SomeIff};
ghost use Rattle.quad_field.specs.FieldNumber.{IsFieldNumber};
ghost use Rattle.std.specs.Prelude.{pos};
ghost use Rattle.quad_field.specs.Quads.{conjugate_of, quad, quad_ops, scaled, IsPositive, IsSign, IsZero};
ghost use Rattle.quad_field.specs.Width.{number, sum, difference, product, negation, scaling, conjugate, StepsFit};

use super::comparison::is_positive;
use super::product::product_of;
use super::radicand::is_square_free;
use super::{Quad, Sign, TooWide};
use std::marker::Model;

/// The field of √D, for a square-free D from 2 to 1000. Contracts see it as D.
#[derive(Clone, Copy)]
pub struct Field {
    d: u32,
}

impl Model for Field {
    ghost use Rattle.std.specs.Prelude.{ℕ};
    ghost use Rattle.quad_field.specs.FieldNumber.{IsFieldNumber};

    ghost Value = { ℕ };

    ghost view = { λ f. f.d };

    ghost invariant = { λ f. IsFieldNumber f.d };

    ghost inverse = { λ d. record { d = d } };
}

impl Field {
    /// The field of √d: none where d is below 2, above 1000 or divisible by the square of a whole number above 1.
    pub fn make(d: u32) -> Option<Field>
        ensures { SomeIff result (IsFieldNumber d) d }
    {
        if 2 <= d && d <= 1000 && is_square_free(d) {
            Some(Field { d })
        } else {
            None
        }
    }

    /// Its D.
    pub fn number(&self) -> u32
        ensures number { result ≡ self.now }
        ensures valid { IsFieldNumber self.now }
    {
        self.d
    }

    /// x + y, too wide exactly where a part of it lies outside i128.
    #[inline]
    pub fn add(&self, x: Quad, y: Quad) -> Result<Quad, TooWide>
        ensures exact { IfOk result (λ z. z ≡ (quad_ops self.now).add x y) }
        ensures fits { IsOk result ↔ StepsFit self.now (sum (number x) (number y)) }
    {
        let a = x.a.checked_add(y.a).ok_or(TooWide)?;
        let b = x.b.checked_add(y.b).ok_or(TooWide)?;
        Ok(Quad { a, b })
    }

    /// x - y, too wide exactly where a part of it lies outside i128.
    #[inline]
    pub fn sub(&self, x: Quad, y: Quad) -> Result<Quad, TooWide>
        ensures exact { IfOk result (λ z. z ≡ (quad_ops self.now).sub x y) }
        ensures fits { IsOk result ↔ StepsFit self.now (difference (number x) (number y)) }
    {
        let a = x.a.checked_sub(y.a).ok_or(TooWide)?;
        let b = x.b.checked_sub(y.b).ok_or(TooWide)?;
        Ok(Quad { a, b })
    }

    /// x·y, too wide exactly where one of its seven steps lies outside i128.
    #[inline]
    pub fn mul(&self, x: Quad, y: Quad) -> Result<Quad, TooWide>
        ensures exact { IfOk result (λ z. z ≡ (quad_ops self.now).mul x y) }
        ensures fits { IsOk result ↔ StepsFit self.now (product (number x) (number y)) }
    {
        product_of(self.d, x, y)
    }

    /// -x, too wide exactly where a part of x is the least i128.
    pub fn neg(&self, x: Quad) -> Result<Quad, TooWide>
        ensures exact { IfOk result (λ z. z ≡ (quad_ops self.now).neg x) }
        ensures fits { IsOk result ↔ StepsFit self.now (negation (number x)) }
    {
        let a = x.a.checked_neg().ok_or(TooWide)?;
        let b = x.b.checked_neg().ok_or(TooWide)?;
        Ok(Quad { a, b })
    }

    /// k·x, too wide exactly where a part of it lies outside i128.
    pub fn scale(&self, x: Quad, k: i128) -> Result<Quad, TooWide>
        ensures exact { IfOk result (λ z. z ≡ scaled k x) }
        ensures fits { IsOk result ↔ StepsFit self.now (scaling k (number x)) }
    {
        let a = x.a.checked_mul(k).ok_or(TooWide)?;
        let b = x.b.checked_mul(k).ok_or(TooWide)?;
        Ok(Quad { a, b })
    }

    /// The conjugate a - b·√D of x, too wide exactly where b is the least i128.
    pub fn conj(&self, x: Quad) -> Result<Quad, TooWide>
        ensures exact { IfOk result (λ z. z ≡ conjugate_of x) }
        ensures fits { IsOk result ↔ StepsFit self.now (conjugate (number x)) }
    {
        let b = x.b.checked_neg().ok_or(TooWide)?;
        Ok(Quad { a: x.a, b })
    }

    /// The norm a² - D·b² of x, as the product of x and its conjugate: too wide exactly where a step of these lies outside i128.
    #[tactic(auto, using(crate::proofs::Norms::norm_is))]
    pub fn norm(&self, x: Quad) -> Result<i128, TooWide>
        ensures exact { IfOk result (λ n. quad n (pos 0) ≡ (quad_ops self.now).mul x (conjugate_of x)) }
        ensures fits { IsOk result ↔ StepsFit self.now (product (number x) (conjugate (number x))) }
    {
        let conjugate = self.conj(x)?;
        let product = self.mul(x, conjugate)?;
        Ok(product.a)
    }

    /// The sign of the real number a + b·√D, for every x.
    pub fn sign(&self, x: Quad) -> Sign
        ensures sign { IsSign self.now x result }
        ensures plus { (result ≡ Sign.Plus) ↔ IsPositive self.now x }
        ensures minus { (result ≡ Sign.Minus) ↔ IsPositive self.now ((quad_ops self.now).neg x) }
        ensures zero { (result ≡ Sign.Zero) ↔ IsZero x }
    {
        if x.a == 0 && x.b == 0 {
            Sign::Zero
        } else if is_positive(self.d, x.a, x.b) {
            Sign::Plus
        } else {
            Sign::Minus
        }
    }
}
