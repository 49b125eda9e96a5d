//! Where a form vanishes on a line, and its sign at a place.

ghost use Rattle.std.specs.Prelude.{◌≡◌, ◌↔◌, IfOk, IfErr, IsTrue};
ghost use Rattle.rings.specs.Forms.{value_at};
ghost use Rattle.quad_field.specs.FieldNumber.{IsFieldNumber};
ghost use Rattle.quad_field.specs.declared.quad.Quad.{Quad as Number};
ghost use Rattle.quad_field.specs.Quads.{quad_ops, IsPositive, IsZero, IsSign};
ghost use Rattle.quad_field.specs.declared.formula.Formula.TheVariants.{F7, F8};
ghost use Rattle.hinge_form.specs.Triples.{Triple, of_form, of_place, zeros};
ghost use Rattle.hinge_form.specs.Hinges.{PlaceFits};
ghost use Rattle.hinge_form.specs.Lines.{IsCrossing, IsWideBetween};
ghost use Rattle.parabola_region.specs.Stretches.{turned_value, bound_point, IsMeeting};

use hinge_form::{Form, Place3, Relation, crossing, same_line, value};
use quad_field::{Field, Formula, Sign, Wide};

/// Where a form vanishes on a line: at a place, or at its negative where the form falls along the line.
#[derive(Clone, Copy)]
pub struct Bound {
    pub form: Form,
    pub at: Place3,
    pub falls: bool,
}

/// How a form meets a line.
#[derive(Clone, Copy)]
pub enum Meeting {
    /// It is a positive multiple of the line's.
    Own,
    /// It keeps its sign along the line, or vanishes on it and is no positive multiple.
    Never,
    /// It vanishes at one point of the line.
    At(Bound),
}

/// Does nothing: whoever holds a field knows what its number is.
pub fn is_field(f: &Field)
    ensures { IsFieldNumber f.now }
{
    f.number();
}

/// Whether a form is positive at a place: the value at a point.
pub fn is_positive_at(f: &Field, form: &Form, at: &Place3) -> Result<bool, Wide>
    ensures positive { IfOk result (λ yes. IsTrue yes ↔ IsPositive f.now (value_at (quad_ops f.now) (of_form form.now) (of_place at.now))) }
    ensures wide { IfErr result (λ wide. (wide.formula ≡ F8) × ¬ (PlaceFits f.now (of_form form.now) (of_place at.now))) }
{
    match value(f, form, at) {
        Ok(v) => Ok(f.sign(v) == Sign::Plus),
        Err(wide) => Err(wide),
    }
}

/// Whether a form is zero at a place: the value at a point.
pub fn is_zero_at(f: &Field, form: &Form, at: &Place3) -> Result<bool, Wide>
    ensures zero { IfOk result (λ yes. IsTrue yes ↔ IsZero (value_at (quad_ops f.now) (of_form form.now) (of_place at.now))) }
    ensures wide { IfErr result (λ wide. (wide.formula ≡ F8) × ¬ (PlaceFits f.now (of_form form.now) (of_place at.now))) }
{
    match value(f, form, at) {
        Ok(v) => Ok(f.sign(v) == Sign::Zero),
        Err(wide) => Err(wide),
    }
}

/// The sign of a form at a crossing point: the order of two bounds.
pub fn order_at(f: &Field, form: &Form, at: &Place3) -> Result<Sign, Wide>
    ensures sign { IfOk result (IsSign f.now (value_at (quad_ops f.now) (of_form form.now) (of_place at.now))) }
    ensures wide { IfErr result (λ wide. (wide.formula ≡ F7) × ¬ (PlaceFits f.now (of_form form.now) (of_place at.now))) }
{
    match value(f, form, at) {
        Ok(v) => Ok(f.sign(v)),
        Err(_) => Err(Wide {
            formula: Formula::F7,
        }),
    }
}

/// The sign of -x for the sign of x, where it is to be turned.
fn turned(f: &Field, sign: Sign, turns: bool) -> Sign
    ensures { (x : Number) → IsSign f.now x sign → IsSign f.now (turned_value f.now turns x) result }
{
    is_field(f);
    if !turns {
        return sign;
    }
    match sign {
        Sign::Minus => Sign::Plus,
        Sign::Zero => Sign::Zero,
        Sign::Plus => Sign::Minus,
    }
}

/// The sign of a form where a bound vanishes.
pub fn sign_at_bound(f: &Field, form: &Form, bound: &Bound) -> Result<Sign, Wide>
    ensures sign { IfOk result (IsSign f.now (value_at (quad_ops f.now) (of_form form.now) (bound_point f.now bound.now))) }
    ensures wide { IfErr result (λ wide. (wide.formula ≡ F7) × ¬ (PlaceFits f.now (of_form form.now) (of_place bound.now.at))) }
{
    match order_at(f, form, &bound.at) {
        Ok(sign) => Ok(turned(f, sign, bound.falls)),
        Err(wide) => Err(wide),
    }
}

/// The bound of a form that crosses a line at a place.
fn bound_at(f: &Field, form: &Form, at: &Place3) -> Meeting
    ensures { (l : Triple) → IsCrossing f.now l (of_form form.now) (of_place at.now) → IsMeeting f.now l (of_form form.now) result }
{
    is_field(f);
    match f.sign(at.w) {
        Sign::Zero => Meeting::Never,
        Sign::Minus => Meeting::At(Bound {
            form: *form,
            at: *at,
            falls: true,
        }),
        Sign::Plus => Meeting::At(Bound {
            form: *form,
            at: *at,
            falls: false,
        }),
    }
}

/// How a form meets a line, both not zero.
pub fn meet(f: &Field, line: &Form, form: &Form) -> Result<Meeting, Wide>
    requires line { ¬ (of_form line.now ≡ zeros) }
    requires form { ¬ (of_form form.now ≡ zeros) }
    ensures meeting { IfOk result (IsMeeting f.now (of_form line.now) (of_form form.now)) }
    ensures wide { IfErr result (λ wide. IsWideBetween f.now (of_form line.now) (of_form form.now) wide.formula) }
{
    is_field(f);
    match crossing(f, line, form) {
        Ok(Some(at)) => Ok(bound_at(f, form, &at)),
        Ok(None) => match same_line(f, line, form) {
            Ok(Relation::Same) => Ok(Meeting::Own),
            Ok(Relation::Opposite) => Ok(Meeting::Never),
            Ok(Relation::Apart) => Ok(Meeting::Never),
            Err(wide) => Err(wide),
        },
        Err(wide) => Err(wide),
    }
}
