//! The chord of a line inside the parabola, and the inner test of a place, each with the refusal that names its formula.

ghost use Rattle.std.specs.Prelude.{◌≡◌, ◌↔◌, IsOk, IfOk, IfErr, IsTrue};
ghost use Rattle.rings.specs.Forms.{discriminant, inner_value, chord_point as slanted_point, upright_chord_point};
ghost use Rattle.quad_field.specs.declared.formula.Formula.TheVariants.{F3, F4, F6};
ghost use Rattle.quad_field.specs.Quads.{quad_ops, IsZero, IsSign};
ghost use Rattle.quad_field.specs.Width.{term_ops};
ghost use Rattle.hinge_form.specs.Triples.{of_form, of_place, leaves, AllThreeFit};
ghost use Rattle.hinge_form.specs.Lines.{HasChord};
ghost use Rattle.parabola_region.specs.Chords.{IsChordPoint, ChordTestFits, ChordPointFits, InnerFits};

use super::meeting::is_field;
use hinge_form::{Form, Place3, reduced_place};
use quad_field::{Field, Formula, Quad, Sign, TooWide, Wide};

/// The K-integer 2.
const TWO: Quad = Quad { a: 2, b: 0 };

/// The K-integer 4.
const FOUR: Quad = Quad { a: 4, b: 0 };

/// β·β - 4·(α·γ).
fn discriminant_of(f: &Field, line: &Form) -> Result<Quad, TooWide>
    ensures exact { IfOk result (λ x. x ≡ discriminant (quad_ops f.now) (of_form line.now)) }
    ensures fits { IsOk result ↔ ChordTestFits f.now (of_form line.now) }
{
    let square = f.mul(line.beta, line.beta)?;
    let product = f.mul(line.alpha, line.gamma)?;
    f.sub(square, f.mul(FOUR, product)?)
}

/// The chord test: whether the line of a form meets the inside of the parabola.
pub fn has_chord(f: &Field, line: &Form) -> Result<bool, Wide>
    ensures chord { IfOk result (λ has. IsTrue has ↔ HasChord f.now (of_form line.now)) }
    ensures wide { IfErr result (λ wide. (wide.formula ≡ F3) × ¬ (ChordTestFits f.now (of_form line.now))) }
{
    match discriminant_of(f, line) {
        Ok(x) => Ok(f.sign(x) == Sign::Plus),
        Err(TooWide) => Err(Wide {
            formula: Formula::F3,
        }),
    }
}

/// (2·(γγ), -(βγ), ββ - 2·(αγ)).
fn slanted(f: &Field, line: &Form) -> Result<Place3, TooWide>
    ensures exact { IfOk result (λ at. of_place at ≡ slanted_point (quad_ops f.now) (of_form line.now)) }
    ensures fits { IsOk result ↔ AllThreeFit f.now (slanted_point term_ops (leaves (of_form line.now))) }
{
    let w = f.mul(TWO, f.mul(line.gamma, line.gamma)?)?;
    let x = f.neg(f.mul(line.beta, line.gamma)?)?;
    let square = f.mul(line.beta, line.beta)?;
    let product = f.mul(line.alpha, line.gamma)?;
    let y = f.sub(square, f.mul(TWO, product)?)?;
    Ok(Place3 { w, x, y })
}

/// (ββ, -(αβ), αα + ββ).
fn upright(f: &Field, line: &Form) -> Result<Place3, TooWide>
    ensures exact { IfOk result (λ at. of_place at ≡ upright_chord_point (quad_ops f.now) (of_form line.now)) }
    ensures fits { IsOk result ↔ AllThreeFit f.now (upright_chord_point term_ops (leaves (of_form line.now))) }
{
    let w = f.mul(line.beta, line.beta)?;
    let x = f.neg(f.mul(line.alpha, line.beta)?)?;
    let square = f.mul(line.alpha, line.alpha)?;
    let y = f.add(square, f.mul(line.beta, line.beta)?)?;
    Ok(Place3 { w, x, y })
}

/// Whether a number is zero.
fn is_zero(f: &Field, x: Quad) -> bool
    ensures { IsTrue result ↔ IsZero x }
{
    f.sign(x) == Sign::Zero
}

/// A half-plane point on a line that has one: its chord point, with the greatest common divisor of all six components taken out.
pub fn chord_point(f: &Field, line: &Form) -> Result<Place3, Wide>
    requires { HasChord f.now (of_form line.now) }
    ensures point { IfOk result (λ at. IsChordPoint f.now (of_form line.now) (of_place at)) }
    ensures wide { IfErr result (λ wide. (wide.formula ≡ F4) × ¬ (ChordPointFits f.now (of_form line.now))) }
{
    is_field(f);
    if is_zero(f, line.gamma) {
        match upright(f, line) {
            Ok(at) => Ok(reduced_place(&at)),
            Err(TooWide) => Err(Wide {
                formula: Formula::F4,
            }),
        }
    } else {
        match slanted(f, line) {
            Ok(at) => Ok(reduced_place(&at)),
            Err(TooWide) => Err(Wide {
                formula: Formula::F4,
            }),
        }
    }
}

/// w·y - x·x.
fn inner_of(f: &Field, at: &Place3) -> Result<Quad, TooWide>
    ensures exact { IfOk result (λ x. x ≡ inner_value (quad_ops f.now) (of_place at.now)) }
    ensures fits { IsOk result ↔ InnerFits f.now (of_place at.now) }
{
    let product = f.mul(at.w, at.y)?;
    let square = f.mul(at.x, at.x)?;
    f.sub(product, square)
}

/// The inner test of a place: the sign of w·y - x·x.
pub fn inner_sign(f: &Field, at: &Place3) -> Result<Sign, Wide>
    ensures sign { IfOk result (IsSign f.now (inner_value (quad_ops f.now) (of_place at.now))) }
    ensures wide { IfErr result (λ wide. (wide.formula ≡ F6) × ¬ (InnerFits f.now (of_place at.now))) }
{
    match inner_of(f, at) {
        Ok(x) => Ok(f.sign(x)),
        Err(TooWide) => Err(Wide {
            formula: Formula::F6,
        }),
    }
}
