//! The different forms of a list of hinges: what is asked of a form is asked once.

ghost use Rattle.std.specs.Prelude.{◌≡◌, ◌+◌, ◌<◌, length, IsTrue, IfOk, OnOk, IfSome};
ghost use Rattle.hinge_form.specs.Triples.{of_form};
ghost use Rattle.parabola_region.specs.HingeLists.{form_at};
ghost use Rattle.parabola_region.specs.Different.{AreDifferent, HasFormBefore};

use super::hinge_list::Hinge;
use hinge_form::Form;
use std::alloc::{AllocError, Global};

/// The first hinge of each form, and for each hinge of the list the place among these of the one with its form.
#[derive(Drop)]
pub struct Different {
    pub firsts: Vec<Hinge>,
    pub places: Vec<usize>,
}

/// Whether two forms are equal.
#[inline]
fn equal(one: &Form, two: &Form) -> bool
    ensures { IsTrue result → of_form one.now ≡ of_form two.now }
{
    *one == *two
}

/// The place of a hinge with this form.
fn place_of(firsts: &[Hinge], form: &Form) -> Option<usize>
    ensures within { IfSome result (λ place. place < length firsts.now) }
    ensures same { IfSome result (λ place. form_at firsts.now place ≡ of_form form.now) }
{
    for i in 0..firsts.len() {
        if equal(&firsts[i].form, form) {
            return Some(i);
        }
    }
    None
}

/// Looks at hinge k: where none before it has its form, it is kept.
fn look(
    firsts: &mut Vec<Hinge>,
    places: &mut Vec<usize>,
    forms: &[Hinge],
    k: usize,
) -> Result<(), AllocError>
    requires before { AreDifferent forms.now firsts.old.items places.old.items k }
    requires inside { k < length forms.now }
    ensures { OnOk result (AreDifferent forms.now firsts.new.items places.new.items (k + 1)) }
{
    if let Some(place) = place_of(firsts.as_slice(), &forms[k].form) {
        places.push(place)?;
        return Ok(());
    }
    places.push(firsts.len())?;
    firsts.push(forms[k])?;
    Ok(())
}

/// The different forms of a list.
pub fn different_of(alloc: Global, forms: &[Hinge]) -> Result<Different, AllocError>
    ensures { IfOk result (λ x. AreDifferent forms.now x.firsts.items x.places.items (length forms.now)) }
{
    let mut firsts = Vec::new(alloc);
    let mut places = Vec::with_capacity(alloc, forms.len())?;
    for k in 0..forms.len() {
        look(&mut firsts, &mut places, forms, k)?;
    }
    Ok(Different { firsts, places })
}

/// Whether a hinge before hinge i has its form: another hinge stands at its place.
pub fn stood_before(different: &Different, forms: &[Hinge], i: usize) -> bool
    requires different { AreDifferent forms.now different.now.firsts.items different.now.places.items (length forms.now) }
    requires inside { i < length forms.now }
    ensures { IsTrue result → HasFormBefore forms.now i }
{
    different.firsts[different.places[i]].edge != forms[i].edge
}
