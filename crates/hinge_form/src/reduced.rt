//! Triples with their greatest common divisor taken out.

ghost use Rattle.std.specs.Prelude.{◌≡◌};
ghost use Rattle.hinge_form.specs.Triples.{of_form, of_place, zeros, IsReduced};

use super::{Form, Place3};
use quad_field::primitive_part;

/// A form that isn't zero, with the greatest common divisor of its six components taken out.
pub fn reduced(form: &Form) -> Form
    requires { ¬ (of_form form.now ≡ zeros) }
    ensures { IsReduced (of_form form.now) (of_form result) }
{
    let mut parts = [form.alpha, form.beta, form.gamma];
    primitive_part(&mut parts);
    Form {
        alpha: parts[0],
        beta: parts[1],
        gamma: parts[2],
    }
}

/// A place that isn't zero, with the greatest common divisor of its six components taken out.
pub fn reduced_place(at: &Place3) -> Place3
    requires { ¬ (of_place at.now ≡ zeros) }
    ensures { IsReduced (of_place at.now) (of_place result) }
{
    let form = reduced(&Form {
        alpha: at.w,
        beta: at.x,
        gamma: at.y,
    });
    Place3 {
        w: form.alpha,
        x: form.beta,
        y: form.gamma,
    }
}
