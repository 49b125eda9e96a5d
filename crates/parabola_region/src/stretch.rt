//! What forms leave of the chord of a line.

ghost use Rattle.std.specs.Prelude.{◌≡◌, ◌+◌, ◌<◌, IfOk, IfErr, IsTrue, ◌↔◌, length};
ghost use Rattle.hinge_form.specs.Triples.{of_form, of_place, zeros};
ghost use Rattle.parabola_region.specs.HingeLists.{form_at, HasForms};
ghost use Rattle.parabola_region.specs.Stretches.{IsBoundFor, IsStretch, IsLeftBy, IsStart, IsBehindAt, HasPointFor, IsWideFor};

use super::chord::inner_sign;
use super::hinge_list::Hinge;
use super::meeting::{Bound, Meeting, is_field, is_positive_at, meet, sign_at_bound};
use hinge_form::{Form, Place3};
use quad_field::{Field, Sign, Wide};

/// What forms leave of the chord of a line, from a start on it.
#[derive(Clone, Copy)]
pub enum Stretch {
    /// All are positive at the start.
    Whole,
    /// This one isn't, and where it vanishes none that rises as it does is negative.
    Behind(Bound),
    /// They are positive together nowhere.
    Empty,
}

/// What form i alone leaves of a line from its start on.
fn left_by(
    f: &Field,
    line: &Form,
    start: &Place3,
    forms: &[Hinge],
    i: usize,
) -> Result<Stretch, Wide>
    requires line { ¬ (of_form line.now ≡ zeros) }
    requires forms { HasForms forms.now }
    requires start { IsStart f.now (of_form line.now) (of_place start.now) }
    requires inside { i < length forms.now }
    ensures left { IfOk result (IsLeftBy f.now (of_form line.now) (of_place start.now) forms.now i) }
    ensures wide { IfErr result (λ wide. IsWideFor f.now (of_form line.now) forms.now wide.formula) }
{
    is_field(f);
    let form = forms[i].form;
    match is_positive_at(f, &form, start) {
        Ok(true) => Ok(Stretch::Whole),
        Ok(false) => match meet(f, line, &form) {
            Ok(Meeting::Own) => Ok(Stretch::Whole),
            Ok(Meeting::Never) => Ok(Stretch::Empty),
            Ok(Meeting::At(bound)) => Ok(Stretch::Behind(bound)),
            Err(wide) => Err(wide),
        },
        Err(wide) => Err(wide),
    }
}

/// What is left behind two bounds, the second that of form i.
fn join(
    f: &Field,
    line: &Form,
    start: &Place3,
    old: &Bound,
    new: &Bound,
    forms: &[Hinge],
    i: usize,
) -> Result<Stretch, Wide>
    requires line { ¬ (of_form line.now ≡ zeros) }
    requires start { IsStart f.now (of_form line.now) (of_place start.now) }
    requires inside { i < length forms.now }
    requires old { IsBoundFor f.now (of_form line.now) (of_place start.now) forms.now i old.now }
    requires new { IsLeftBy f.now (of_form line.now) (of_place start.now) forms.now i (Stretch.Behind new.now) }
    ensures stretch { IfOk result (IsStretch f.now (of_form line.now) (of_place start.now) forms.now (i + 1)) }
    ensures wide { IfErr result (λ wide. IsWideFor f.now (of_form line.now) forms.now wide.formula) }
{
    is_field(f);
    if old.falls != new.falls {
        return Ok(Stretch::Empty);
    }
    match sign_at_bound(f, &new.form, old) {
        Ok(Sign::Minus) => Ok(Stretch::Behind(*new)),
        Ok(Sign::Zero) => Ok(Stretch::Behind(*old)),
        Ok(Sign::Plus) => Ok(Stretch::Behind(*old)),
        Err(wide) => Err(wide),
    }
}

/// What form i leaves of a stretch.
fn narrow(
    f: &Field,
    line: &Form,
    start: &Place3,
    before: Stretch,
    forms: &[Hinge],
    i: usize,
) -> Result<Stretch, Wide>
    requires line { ¬ (of_form line.now ≡ zeros) }
    requires forms { HasForms forms.now }
    requires start { IsStart f.now (of_form line.now) (of_place start.now) }
    requires inside { i < length forms.now }
    requires before { IsStretch f.now (of_form line.now) (of_place start.now) forms.now i before }
    ensures stretch { IfOk result (IsStretch f.now (of_form line.now) (of_place start.now) forms.now (i + 1)) }
    ensures wide { IfErr result (λ wide. IsWideFor f.now (of_form line.now) forms.now wide.formula) }
{
    is_field(f);
    match before {
        Stretch::Empty => Ok(Stretch::Empty),
        Stretch::Whole => match left_by(f, line, start, forms, i) {
            Ok(Stretch::Whole) => Ok(Stretch::Whole),
            Ok(Stretch::Empty) => Ok(Stretch::Empty),
            Ok(Stretch::Behind(bound)) => Ok(Stretch::Behind(bound)),
            Err(wide) => Err(wide),
        },
        Stretch::Behind(old) => match left_by(f, line, start, forms, i) {
            Ok(Stretch::Whole) => Ok(Stretch::Behind(old)),
            Ok(Stretch::Empty) => Ok(Stretch::Empty),
            Ok(Stretch::Behind(new)) => join(f, line, start, &old, &new, forms, i),
            Err(wide) => Err(wide),
        },
    }
}

/// What all forms of a list leave of the chord of a line.
fn stretch_of(f: &Field, line: &Form, start: &Place3, forms: &[Hinge]) -> Result<Stretch, Wide>
    requires line { ¬ (of_form line.now ≡ zeros) }
    requires forms { HasForms forms.now }
    requires start { IsStart f.now (of_form line.now) (of_place start.now) }
    ensures stretch { IfOk result (IsStretch f.now (of_form line.now) (of_place start.now) forms.now (length forms.now)) }
    ensures wide { IfErr result (λ wide. IsWideFor f.now (of_form line.now) forms.now wide.formula) }
{
    let mut stretch = Stretch::Whole;
    for i in 0..forms.len() {
        stretch = narrow(f, line, start, stretch, forms, i)?;
    }
    Ok(stretch)
}

/// Whether form i is positive right behind a bound.
fn is_behind(
    f: &Field,
    line: &Form,
    start: &Place3,
    bound: &Bound,
    forms: &[Hinge],
    i: usize,
) -> Result<bool, Wide>
    requires line { ¬ (of_form line.now ≡ zeros) }
    requires forms { HasForms forms.now }
    requires start { IsStart f.now (of_form line.now) (of_place start.now) }
    requires inside { i < length forms.now }
    requires bound { IsBoundFor f.now (of_form line.now) (of_place start.now) forms.now (length forms.now) bound.now }
    ensures behind { IfOk result (IsBehindAt f.now (of_form line.now) forms.now bound.now i) }
    ensures wide { IfErr result (λ wide. IsWideFor f.now (of_form line.now) forms.now wide.formula) }
{
    is_field(f);
    let form = forms[i].form;
    match sign_at_bound(f, &form, bound) {
        Ok(Sign::Plus) => Ok(true),
        Ok(Sign::Minus) => Ok(false),
        Ok(Sign::Zero) => match meet(f, line, &form) {
            Ok(Meeting::Own) => Ok(true),
            Ok(Meeting::Never) => Ok(false),
            Ok(Meeting::At(other)) => Ok(other.falls == bound.falls),
            Err(wide) => Err(wide),
        },
        Err(wide) => Err(wide),
    }
}

/// Whether all forms of a list are positive at a half-plane point of the line right behind a bound.
fn has_point_behind(
    f: &Field,
    line: &Form,
    start: &Place3,
    bound: &Bound,
    forms: &[Hinge],
) -> Result<bool, Wide>
    requires line { ¬ (of_form line.now ≡ zeros) }
    requires forms { HasForms forms.now }
    requires start { IsStart f.now (of_form line.now) (of_place start.now) }
    requires bound { IsBoundFor f.now (of_form line.now) (of_place start.now) forms.now (length forms.now) bound.now }
    ensures point { IfOk result (λ yes. IsTrue yes ↔ HasPointFor f.now (of_form line.now) forms.now) }
    ensures wide { IfErr result (λ wide. IsWideFor f.now (of_form line.now) forms.now wide.formula) }
{
    is_field(f);
    for i in 0..forms.len() {
        if !is_behind(f, line, start, bound, forms, i)? {
            return Ok(false);
        }
    }
    match inner_sign(f, &bound.at) {
        Ok(Sign::Plus) => Ok(true),
        Ok(Sign::Zero) => Ok(false),
        Ok(Sign::Minus) => Ok(false),
        Err(wide) => Err(wide),
    }
}

/// Whether a line has a half-plane point at which all forms of a list are positive that aren't positive multiples of its own.
/// The forms are looked at from the line's chord point on.
pub fn has_point(f: &Field, line: &Form, start: &Place3, forms: &[Hinge]) -> Result<bool, Wide>
    requires line { ¬ (of_form line.now ≡ zeros) }
    requires forms { HasForms forms.now }
    requires start { IsStart f.now (of_form line.now) (of_place start.now) }
    ensures point { IfOk result (λ yes. IsTrue yes ↔ HasPointFor f.now (of_form line.now) forms.now) }
    ensures wide { IfErr result (λ wide. IsWideFor f.now (of_form line.now) forms.now wide.formula) }
{
    is_field(f);
    match stretch_of(f, line, start, forms)? {
        Stretch::Whole => Ok(true),
        Stretch::Empty => Ok(false),
        Stretch::Behind(bound) => has_point_behind(f, line, start, &bound, forms),
    }
}
