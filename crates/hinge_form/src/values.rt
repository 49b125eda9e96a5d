//! The value of a form at a place.

ghost use Rattle.std.specs.Prelude.{◌≡◌, ◌↔◌, IsOk, IfOk, IfErr};
ghost use Rattle.quad_field.specs.declared.formula.Formula.TheVariants.{F8};
ghost use Rattle.hinge_form.specs.Hinges.{value_of, ValueFits};

use super::small::{have_medium, medium_value};
use super::{Form, Place3};
use quad_field::{Field, Formula, Quad, TooWide, Wide};

/// The sum α·w + β·x + γ·y, step by step.
fn long_way(f: &Field, form: &Form, at: &Place3) -> Result<Quad, TooWide>
    ensures exact { IfOk result (λ v. v ≡ value_of f.now form.now at.now) }
    ensures fits { IsOk result ↔ ValueFits f.now form.now at.now }
{
    let first = f.mul(form.alpha, at.w)?;
    let second = f.mul(form.beta, at.x)?;
    let third = f.mul(form.gamma, at.y)?;
    f.add(f.add(first, second)?, third)
}

/// The sum α·w + β·x + γ·y, with a refusal that names no formula: the same steps serve a value and the direction of a multiple.
#[inline]
pub fn sum_of_products(f: &Field, form: &Form, at: &Place3) -> Result<Quad, TooWide>
    ensures exact { IfOk result (λ v. v ≡ value_of f.now form.now at.now) }
    ensures fits { IsOk result ↔ ValueFits f.now form.now at.now }
{
    if have_medium(form, at) {
        return Ok(medium_value(form, at));
    }
    long_way(f, form, at)
}

/// The value α·w + β·x + γ·y of a form at a place. It is refused exactly where a step of it is wide.
pub fn value(f: &Field, form: &Form, at: &Place3) -> Result<Quad, Wide>
    ensures exact { IfOk result (λ v. v ≡ value_of f.now form.now at.now) }
    ensures fits { IsOk result ↔ ValueFits f.now form.now at.now }
    ensures wide { IfErr result (λ wide. wide.formula ≡ F8) }
{
    match sum_of_products(f, form, at) {
        Ok(v) => Ok(v),
        Err(TooWide) => Err(Wide {
            formula: Formula::F8,
        }),
    }
}
