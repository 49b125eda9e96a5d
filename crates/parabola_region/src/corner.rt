//! The corner of two lines.

ghost use Rattle.std.specs.Prelude.{◌≡◌, ◌↔◌, ◌<◌, ℕ, IfOk, IfErr, IsTrue, length};
ghost use Rattle.rings.specs.Forms.{value_at};
ghost use Rattle.rings.specs.Lines.{IsForward};
ghost use Rattle.quad_field.specs.Quads.{quad_ops, IsPositive};
ghost use Rattle.quad_field.specs.declared.formula.Formula.TheVariants.{F7};
ghost use Rattle.hinge_form.specs.Triples.{of_form, of_place};
ghost use Rattle.hinge_form.specs.Hinges.{PlaceFits};
ghost use Rattle.hinge_form.specs.Lines.{AreParallel, IsCrossing};
ghost use Rattle.parabola_region.specs.HingeLists.{form_at};
ghost use Rattle.parabola_region.specs.Corners.{NotNegative};
ghost use Rattle.parabola_region.specs.Spots.{NoneNegative, IsSide, IsSpot, IsWideAt, IsCornerOf, IsWideCorner};

use super::chord::inner_sign;
use super::hinge_list::Hinge;
use super::meeting::{is_field, order_at};
use hinge_form::{Form, Place3, crossing};
use quad_field::{Field, Quad, Sign, Wide};

/// A corner's place, and whether it lies on the parabola.
#[derive(Clone, Copy)]
pub struct Spot {
    pub at: Place3,
    pub ideal: bool,
}

/// A corner of the region: the numbers of two walls, the first below the second, the place where their lines cross, and whether
/// it is ideal: it lies on the parabola w·y = x², so it is no half-plane point.
#[derive(Clone, Copy, Debug, PartialEq, Eq)]
pub struct Corner {
    pub first: u32,
    pub second: u32,
    pub at: Place3,
    pub ideal: bool,
}

/// On which side of the zero place a place lies.
#[derive(Clone, Copy)]
pub enum Side {
    /// w is positive, or w is zero and y is positive.
    Forward,
    /// Its negative is forward.
    Backward,
    /// w and y are zero.
    Neither,
}

/// The side of a place.
fn side_of(f: &Field, at: &Place3) -> Side
    ensures { IsSide f.now (of_place at.now) result }
{
    is_field(f);
    match f.sign(at.w) {
        Sign::Plus => Side::Forward,
        Sign::Minus => Side::Backward,
        Sign::Zero => match f.sign(at.y) {
            Sign::Plus => Side::Forward,
            Sign::Minus => Side::Backward,
            Sign::Zero => Side::Neither,
        },
    }
}

/// Whether a form isn't negative at a place.
fn is_not_negative_at(f: &Field, form: &Form, at: &Place3) -> Result<bool, Wide>
    ensures sign { IfOk result (λ yes. IsTrue yes ↔ NotNegative f.now (value_at (quad_ops f.now) (of_form form.now) (of_place at.now))) }
    ensures wide { IfErr result (λ wide. (wide.formula ≡ F7) × ¬ (PlaceFits f.now (of_form form.now) (of_place at.now))) }
{
    is_field(f);
    match order_at(f, form, at) {
        Ok(Sign::Minus) => Ok(false),
        Ok(Sign::Zero) => Ok(true),
        Ok(Sign::Plus) => Ok(true),
        Err(wide) => Err(wide),
    }
}

/// Whether no form of a list is negative at a place.
fn none_negative(f: &Field, forms: &[Hinge], at: &Place3) -> Result<bool, Wide>
    ensures none { IfOk result (λ yes. IsTrue yes ↔ NoneNegative f.now forms.now (of_place at.now)) }
    ensures wide { IfErr result (λ wide. (wide.formula ≡ F7) × ((i : ℕ) × (i < length forms.now) × ¬ (PlaceFits f.now (form_at forms.now i) (of_place at.now)))) }
{
    for i in 0..forms.len() {
        match is_not_negative_at(f, &forms[i].form, at) {
            Ok(true) => {}
            Ok(false) => return Ok(false),
            Err(wide) => return Err(wide),
        }
    }
    Ok(true)
}

/// Whether a number is negative.
fn is_negative(f: &Field, x: Quad) -> bool
    ensures { IsTrue result ↔ IsPositive f.now ((quad_ops f.now).neg x) }
{
    f.sign(x) == Sign::Minus
}

/// A corner at a place.
fn found_at(at: &Place3, ideal: bool) -> Spot
    ensures place { of_place result.at ≡ of_place at.now }
    ensures ideal { result.ideal ≡ ideal }
{
    Spot { at: *at, ideal }
}

/// The corner at a forward place, if it is one: the values first, and the inner test, whose numbers are the widest, last.
fn spot_at(f: &Field, forms: &[Hinge], at: &Place3) -> Result<Option<Spot>, Wide>
    requires forward { IsForward (quad_ops f.now) (IsPositive f.now) (of_place at.now) }
    ensures spot { IfOk result (IsSpot f.now forms.now (of_place at.now)) }
    ensures wide { IfErr result (λ wide. IsWideAt f.now forms.now (of_place at.now) wide.formula) }
{
    is_field(f);
    if is_negative(f, at.y) {
        return Ok(None);
    }
    match none_negative(f, forms, at) {
        Ok(true) => match inner_sign(f, at) {
            Ok(Sign::Minus) => Ok(None),
            Ok(Sign::Zero) => Ok(Some(found_at(at, true))),
            Ok(Sign::Plus) => Ok(Some(found_at(at, false))),
            Err(wide) => Err(wide),
        },
        Ok(false) => Ok(None),
        Err(wide) => Err(wide),
    }
}

/// The same where their crossing point points backward: by that of the two lines in the other order.
fn corner_behind(
    f: &Field,
    one: &Form,
    two: &Form,
    forms: &[Hinge],
    at: &Place3,
) -> Result<Option<Spot>, Wide>
    requires at { IsCrossing f.now (of_form one.now) (of_form two.now) (of_place at.now) }
    requires backward { IsSide f.now (of_place at.now) Side.Backward }
    ensures corner { IfOk result (IsCornerOf f.now (of_form one.now) (of_form two.now) forms.now) }
    ensures wide { IfErr result (λ wide. IsWideCorner f.now (of_form one.now) (of_form two.now) forms.now wide.formula) }
{
    is_field(f);
    match crossing(f, two, one) {
        Ok(Some(turned)) => spot_at(f, forms, &turned),
        Ok(None) => Ok(None),
        Err(wide) => Err(wide),
    }
}

/// The corner of two lines that cross, if there is one. Where the crossing point points backward, that of the two lines in
/// the other order is taken: nothing is negated.
pub fn corner_of(f: &Field, one: &Form, two: &Form, forms: &[Hinge]) -> Result<Option<Spot>, Wide>
    requires apart { ¬ (AreParallel f.now (of_form one.now) (of_form two.now)) }
    ensures corner { IfOk result (IsCornerOf f.now (of_form one.now) (of_form two.now) forms.now) }
    ensures wide { IfErr result (λ wide. IsWideCorner f.now (of_form one.now) (of_form two.now) forms.now wide.formula) }
{
    is_field(f);
    match crossing(f, one, two) {
        Ok(Some(at)) => match side_of(f, &at) {
            Side::Forward => spot_at(f, forms, &at),
            Side::Backward => corner_behind(f, one, two, forms, &at),
            Side::Neither => Ok(None),
        },
        Ok(None) => Ok(None),
        Err(wide) => Err(wide),
    }
}
