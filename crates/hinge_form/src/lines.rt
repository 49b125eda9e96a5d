//! How the lines of two forms lie, and where they cross.

ghost use Rattle.std.specs.Prelude.{◌≡◌, ◌↔◌, IsOk, IfOk, IfErr, IsTrue, MatchOption};
ghost use Rattle.rings.specs.Lines.{crossing_point};
ghost use Rattle.quad_field.specs.declared.formula.Formula.TheVariants.{F5, F9};
ghost use Rattle.quad_field.specs.FieldNumber.{IsFieldNumber};
ghost use Rattle.quad_field.specs.Quads.{quad_ops};
ghost use Rattle.quad_field.specs.Width.{StepsFit, term_ops, number};
ghost use Rattle.hinge_form.specs.Triples.{of_form, of_place, zeros};
ghost use Rattle.hinge_form.specs.Lines.{IsRelated, AreParallel, IsCrossing, CrossingFits, DirectionFits, IsWideBetween};

use super::reduced::reduced_place;
use super::values::sum_of_products;
use super::{Form, Place3};
use plane::{Vec2, det};
use quad_field::{Field, Formula, Quad, Sign, TooWide, Wide};

/// How the lines of two forms lie.
#[derive(Clone, Copy, Debug, PartialEq, Eq)]
pub enum Relation {
    /// The second form is a positive multiple of the first, over the field.
    Same,
    /// It is a negative multiple of it.
    Opposite,
    /// It is neither.
    Apart,
}

/// Does nothing: whoever holds a field knows what its number is.
fn is_field(f: &Field)
    ensures { IsFieldNumber f.now }
{
    f.number();
}

/// x·v - y·u.
fn turn(f: &Field, x: Quad, y: Quad, u: Quad, v: Quad) -> Result<Quad, TooWide>
    ensures exact { IfOk result (λ z. let O = quad_ops f.now in z ≡ O.sub (O.mul x v) (O.mul y u)) }
    ensures fits { IsOk result ↔ StepsFit f.now (let O = term_ops in O.sub (O.mul (number x) (number v)) (O.mul (number y) (number u))) }
{
    det(f, &Vec2 { s: x, t: y }, &Vec2 { s: u, t: v })
}

/// The crossing point of two lines, before a common divisor is taken out.
fn full_crossing(f: &Field, one: &Form, two: &Form) -> Result<Place3, TooWide>
    ensures exact { IfOk result (λ x. of_place x ≡ crossing_point (quad_ops f.now) (of_form one.now) (of_form two.now)) }
    ensures fits { IsOk result ↔ CrossingFits f.now (of_form one.now) (of_form two.now) }
{
    let w = turn(f, one.beta, one.gamma, two.beta, two.gamma)?;
    let x = turn(f, one.gamma, one.alpha, two.gamma, two.alpha)?;
    let y = turn(f, one.alpha, one.beta, two.alpha, two.beta)?;
    Ok(Place3 { w, x, y })
}

/// Whether all three numbers are zero.
fn is_nothing(at: &Place3) -> bool
    ensures { IsTrue result ↔ (of_place at.now ≡ zeros) }
{
    let zero = Quad { a: 0, b: 0 };
    at.w == zero && at.x == zero && at.y == zero
}

/// The relation of two parallel lines, by the sign of α1·α2 + β1·β2 + γ1·γ2.
fn along(f: &Field, one: &Form, two: &Form) -> Result<Relation, Wide>
    requires one { ¬ (of_form one.now ≡ zeros) }
    requires two { ¬ (of_form two.now ≡ zeros) }
    requires parallel { AreParallel f.now (of_form one.now) (of_form two.now) }
    ensures relation { IfOk result (IsRelated f.now (of_form one.now) (of_form two.now)) }
    ensures fits { IsOk result ↔ DirectionFits f.now (of_form one.now) (of_form two.now) }
    ensures wide { IfErr result (λ wide. wide.formula ≡ F9) }
{
    is_field(f);
    let direction = Place3 {
        w: two.alpha,
        x: two.beta,
        y: two.gamma,
    };
    match sum_of_products(f, one, &direction) {
        Ok(product) => Ok(match f.sign(product) {
            Sign::Plus => Relation::Same,
            Sign::Minus => Relation::Opposite,
            Sign::Zero => Relation::Apart,
        }),
        Err(TooWide) => Err(Wide {
            formula: Formula::F9,
        }),
    }
}

/// How the lines of two forms lie that aren't zero. It is refused exactly where a step of their crossing point is wide,
/// or they are parallel and a step of their direction is.
pub fn same_line(f: &Field, one: &Form, two: &Form) -> Result<Relation, Wide>
    requires one { ¬ (of_form one.now ≡ zeros) }
    requires two { ¬ (of_form two.now ≡ zeros) }
    ensures relation { IfOk result (IsRelated f.now (of_form one.now) (of_form two.now)) }
    ensures fits { IsOk result ↔ (CrossingFits f.now (of_form one.now) (of_form two.now)
        × (AreParallel f.now (of_form one.now) (of_form two.now) → DirectionFits f.now (of_form one.now) (of_form two.now))) }
    ensures wide { IfErr result (λ wide. IsWideBetween f.now (of_form one.now) (of_form two.now) wide.formula) }
{
    is_field(f);
    match full_crossing(f, one, two) {
        Ok(at) => {
            if is_nothing(&at) {
                along(f, one, two)
            } else {
                Ok(Relation::Apart)
            }
        }
        Err(TooWide) => Err(Wide {
            formula: Formula::F5,
        }),
    }
}

/// Where two lines cross, with the greatest common divisor of all six components taken out; none where they are parallel.
/// It is refused exactly where a step of it is wide.
pub fn crossing(f: &Field, one: &Form, two: &Form) -> Result<Option<Place3>, Wide>
    ensures point { IfOk result (λ at. MatchOption at (AreParallel f.now (of_form one.now) (of_form two.now))
        (λ x. IsCrossing f.now (of_form one.now) (of_form two.now) (of_place x))) }
    ensures fits { IsOk result ↔ CrossingFits f.now (of_form one.now) (of_form two.now) }
    ensures wide { IfErr result (λ wide. wide.formula ≡ F5) }
{
    match full_crossing(f, one, two) {
        Ok(at) => {
            if is_nothing(&at) {
                Ok(None)
            } else {
                Ok(Some(reduced_place(&at)))
            }
        }
        Err(TooWide) => Err(Wide {
            formula: Formula::F5,
        }),
    }
}
