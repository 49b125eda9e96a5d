//! Products and inverses of matrices over the field, in lowest terms.

ghost use Rattle.std.specs.Prelude.{◌≡◌, ◌↔◌, ◌*◌, ◌<◌, ◌<ℤ◌, pos, neg_ℤ, unsigned_abs, IsOk, IfOk, IfErr};
ghost use Rattle.rings.specs.Matrices.{matrix_det, matrix_product};
ghost use Rattle.quad_field.specs.Quads.{quad, quad_ops, scaled, conjugate_of, IsZero};
ghost use Rattle.quad_field.specs.Width.{term_ops, number, sum, difference, product, negation, scaling, conjugate, StepsFit, FitsI128};
ghost use Rattle.plane.specs.Vectors.{matrix_term};
ghost use Rattle.plane.specs.Matrices.{rows_of, matrix_times, HaveOneValue, IsInLowestTerms, IsInverseOf};
ghost use Rattle.plane.specs.MatrixWidth.{EntriesFit, ProductFits, InverseFits, multiples_by, negations};

use super::mat2::Mat2;
use quad_field::{Field, Formula, Quad, TooWide, Wide};

/// The product of two matrices, in lowest terms: it maps by b first, and then by a.
/// Wide exactly where a step of an entry or the product of the denominators is.
pub fn mat_mul(f: &Field, a: &Mat2, b: &Mat2) -> Result<Mat2, Wide>
    ensures product { IfOk result (λ c. HaveOneValue (matrix_times f.now a.now b.now) c) }
    ensures lowest { IfOk result (λ c. IsInLowestTerms c) }
    ensures fits { IsOk result ↔ ProductFits f.now a.now b.now }
    ensures wide { IfErr result (λ w. w.formula ≡ Formula.F10) }
{
    match product_of(f, a, b) {
        Ok(c) => Ok(c),
        Err(TooWide) => Err(Wide {
            formula: Formula::F10,
        }),
    }
}

/// The inverse of a matrix whose determinant isn't zero, in lowest terms: the adjugate over the determinant, both
/// multiplied by the determinant's conjugate. Wide exactly where a step of this is.
pub fn mat_inverse(f: &Field, a: &Mat2) -> Result<Mat2, Wide>
    requires invertible { ¬ (IsZero (matrix_det (quad_ops f.now) a.now.rows)) }
    ensures inverse { IfOk result (λ c. IsInverseOf f.now c a.now) }
    ensures lowest { IfOk result (λ c. IsInLowestTerms c) }
    ensures fits { IsOk result ↔ InverseFits f.now a.now }
    ensures wide { IfErr result (λ w. w.formula ≡ Formula.F11) }
{
    match inverse_of(f, a) {
        Ok(c) => Ok(c),
        Err(TooWide) => Err(Wide {
            formula: Formula::F11,
        }),
    }
}

/// The product of two matrices, in lowest terms.
fn product_of(f: &Field, a: &Mat2, b: &Mat2) -> Result<Mat2, TooWide>
    ensures product { IfOk result (λ c. HaveOneValue (matrix_times f.now a.now b.now) c) }
    ensures lowest { IfOk result (λ c. IsInLowestTerms c) }
    ensures fits { IsOk result ↔ ProductFits f.now a.now b.now }
{
    let n = product_entries(f, a, b)?;
    let den = product_of_denominators(a, b)?;
    Ok(Mat2::reduced(n, den))
}

/// The four entries of a product.
fn product_entries(f: &Field, a: &Mat2, b: &Mat2) -> Result<[Quad; 4], TooWide>
    ensures exact { IfOk result (λ c. rows_of c ≡ matrix_product (quad_ops f.now) a.now.rows b.now.rows) }
    ensures fits { IsOk result ↔ EntriesFit f.now (matrix_product term_ops (matrix_term a.now.rows) (matrix_term b.now.rows)) }
{
    let n = a.entries();
    let m = b.entries();
    let first = sum_of_products(f, n[0], m[0], n[1], m[2])?;
    let second = sum_of_products(f, n[0], m[1], n[1], m[3])?;
    let third = sum_of_products(f, n[2], m[0], n[3], m[2])?;
    let fourth = sum_of_products(f, n[2], m[1], n[3], m[3])?;
    Ok([first, second, third, fourth])
}

/// The product of two denominators.
fn product_of_denominators(a: &Mat2, b: &Mat2) -> Result<i128, TooWide>
    ensures exact { IfOk result (λ c. c ≡ pos (a.now.denominator * b.now.denominator)) }
    ensures positive { IfOk result (λ c. pos 0 <ℤ c) }
    ensures fits { IsOk result ↔ FitsI128 (pos (a.now.denominator * b.now.denominator)) }
{
    a.denominator().checked_mul(b.denominator()).ok_or(TooWide)
}

/// p·q + r·s.
fn sum_of_products(f: &Field, p: Quad, q: Quad, r: Quad, s: Quad) -> Result<Quad, TooWide>
    ensures exact { IfOk result (λ x. x ≡ (let O = quad_ops f.now in O.add (O.mul p q) (O.mul r s))) }
    ensures fits { IsOk result ↔ StepsFit f.now (sum (product (number p) (number q)) (product (number r) (number s))) }
{
    let first = f.mul(p, q)?;
    let second = f.mul(r, s)?;
    f.add(first, second)
}

/// p·q - r·s.
fn difference_of_products(f: &Field, p: Quad, q: Quad, r: Quad, s: Quad) -> Result<Quad, TooWide>
    ensures exact { IfOk result (λ x. x ≡ (let O = quad_ops f.now in O.sub (O.mul p q) (O.mul r s))) }
    ensures fits { IsOk result ↔ StepsFit f.now (difference (product (number p) (number q)) (product (number r) (number s))) }
{
    let first = f.mul(p, q)?;
    let second = f.mul(r, s)?;
    f.sub(first, second)
}

/// The inverse of a matrix whose determinant isn't zero, in lowest terms.
fn inverse_of(f: &Field, a: &Mat2) -> Result<Mat2, TooWide>
    requires invertible { ¬ (IsZero (matrix_det (quad_ops f.now) a.now.rows)) }
    ensures inverse { IfOk result (λ c. IsInverseOf f.now c a.now) }
    ensures lowest { IfOk result (λ c. IsInLowestTerms c) }
    ensures fits { IsOk result ↔ InverseFits f.now a.now }
{
    let (conjugate, norm) = conjugate_and_norm(f, a)?;
    let entries = entries_over_norm(f, a, conjugate)?;
    let (n, den) = over_positive(f, &entries, norm)?;
    Ok(Mat2::reduced(n, den))
}

/// The conjugate of the determinant, and the product of both.
fn conjugate_and_norm(f: &Field, a: &Mat2) -> Result<(Quad, i128), TooWide>
    requires invertible { ¬ (IsZero (matrix_det (quad_ops f.now) a.now.rows)) }
    ensures conjugate { IfOk result (λ y. y.0 ≡ conjugate_of (matrix_det (quad_ops f.now) a.now.rows)) }
    ensures norm { IfOk result (λ y. quad y.1 (pos 0) ≡ (quad_ops f.now).mul (matrix_det (quad_ops f.now) a.now.rows) y.0) }
    ensures not_zero { IfOk result (λ y. ¬ (y.1 ≡ pos 0)) }
    ensures denominator { 0 < a.now.denominator }
    ensures fits { IsOk result ↔ (let δ = matrix_det term_ops (matrix_term a.now.rows) in StepsFit f.now (product δ (conjugate δ))) }
{
    let _number = f.number();
    let n = a.entries();
    let determinant = difference_of_products(f, n[0], n[3], n[1], n[2])?;
    let conjugate = f.conj(determinant)?;
    let norm = f.norm(determinant)?;
    Ok((conjugate, norm))
}

/// The entries of the inverse over the norm, for the conjugate k of the determinant.
fn entries_over_norm(f: &Field, a: &Mat2, k: Quad) -> Result<[Quad; 4], TooWide>
    ensures exact { IfOk result (λ c. let O = quad_ops f.now in let n = a.now.rows in let den = pos a.now.denominator in rows_of c
        ≡ (O.mul (scaled den n.3) k, O.neg (O.mul (scaled den n.1) k), O.neg (O.mul (scaled den n.2) k), O.mul (scaled den n.0) k)) }
    ensures fits { IsOk result ↔ EntriesFit f.now (multiples_by a.now (number k)) }
{
    let n = a.entries();
    let first = scaled_product(f, a, n[3], k)?;
    let second = scaled_product(f, a, n[1], k)?;
    let minus_second = f.neg(second)?;
    let third = scaled_product(f, a, n[2], k)?;
    let minus_third = f.neg(third)?;
    let fourth = scaled_product(f, a, n[0], k)?;
    Ok([first, minus_second, minus_third, fourth])
}

/// (den·x)·k, for the denominator den.
fn scaled_product(f: &Field, a: &Mat2, x: Quad, k: Quad) -> Result<Quad, TooWide>
    ensures exact { IfOk result (λ y. y ≡ (quad_ops f.now).mul (scaled (pos a.now.denominator) x) k) }
    ensures fits { IsOk result ↔ StepsFit f.now (product (scaling (pos a.now.denominator) (number x)) (number k)) }
{
    let multiple = times_denominator(f, a, x)?;
    f.mul(multiple, k)
}

/// den·x, for the denominator den.
fn times_denominator(f: &Field, a: &Mat2, x: Quad) -> Result<Quad, TooWide>
    ensures exact { IfOk result (λ y. y ≡ scaled (pos a.now.denominator) x) }
    ensures fits { IsOk result ↔ StepsFit f.now (scaling (pos a.now.denominator) (number x)) }
{
    f.scale(x, a.denominator())
}

/// Numbers over a norm that isn't zero, over the norm's absolute value: their negatives where the norm is negative.
fn over_positive(f: &Field, n: &[Quad; 4], norm: i128) -> Result<([Quad; 4], i128), TooWide>
    requires not_zero { ¬ (norm ≡ pos 0) }
    ensures positive { IfOk result (λ y. pos 0 <ℤ y.1) }
    ensures above { IfOk result (λ y. pos 0 <ℤ norm → (rows_of y.0 ≡ rows_of n.now) × (y.1 ≡ norm)) }
    ensures below { IfOk result (λ y. norm <ℤ pos 0 → (let O = quad_ops f.now in let m = rows_of n.now in rows_of y.0 ≡ (O.neg m.0, O.neg m.1, O.neg m.2, O.neg m.3)) × (y.1 ≡ neg_ℤ norm)) }
    ensures fits { IsOk result ↔ (norm <ℤ pos 0 → EntriesFit f.now (negations (matrix_term (rows_of n.now))) × FitsI128 (neg_ℤ norm)) }
{
    if norm < 0 {
        let negatives = negatives(f, n)?;
        let negative = norm.checked_neg().ok_or(TooWide)?;
        Ok((negatives, negative))
    } else {
        Ok((*n, norm))
    }
}

/// The negatives of four numbers.
fn negatives(f: &Field, n: &[Quad; 4]) -> Result<[Quad; 4], TooWide>
    ensures exact { IfOk result (λ c. let O = quad_ops f.now in let m = rows_of n.now in rows_of c ≡ (O.neg m.0, O.neg m.1, O.neg m.2, O.neg m.3)) }
    ensures fits { IsOk result ↔ EntriesFit f.now (negations (matrix_term (rows_of n.now))) }
{
    let first = f.neg(n[0])?;
    let second = f.neg(n[1])?;
    let third = f.neg(n[2])?;
    let fourth = f.neg(n[3])?;
    Ok([first, second, third, fourth])
}
