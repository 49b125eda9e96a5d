//! The canonical triangulation of a code.

ghost use Rattle.std.specs.Prelude.{◌≡◌, ◌↔◌, ℕ, pos, ◌+◌, ◌*◌, ◌<◌, ◌≤◌, ◌+ℤ◌, neg_ℤ, ◌∷◌, [], length, unsigned_abs, IfOk, OnOk, IfErr, IfSome, SomeIff, None};
ghost use Rattle.quad_field.specs.Quads.{quad_ops};
ghost use Rattle.quad_field.specs.Width.{FitsI128, PartsFit};
ghost use Rattle.plane.specs.Vectors.{vector, vector_sum, opposite_vector};
ghost use Rattle.canon_code.specs.Canonical.{number_at, vector_from, canonical, PairFits, IsMade};
ghost use Rattle.canon_code.specs.Listing.{IsTwinNumber, HasTwins, HasThird, with_triangle};
ghost use Rattle.canon_code.specs.Refusals.{HasSerialLength};
ghost use Rattle.canon_code.specs.declared.triangulation.Unlisted.TheVariants.{Twin, Third, Memory};

use super::Code;
use plane::Vec2;
use quad_field::{Field, Quad};
use std::alloc::{AllocError, AllocFailed, Global};
use tri_core::{Half, Tri};

/// Why half-edges can't be made of numbers.
#[derive(Clone, Copy, Debug, PartialEq, Eq)]
pub(crate) enum Unlisted {
    /// The number of a twin isn't from 0 to 767.
    Twin,
    /// A third vector lies outside i128.
    Third,
    /// Memory ran out.
    Memory,
}

impl<T: Drop> From<AllocFailed<T>> for Unlisted {
    ghost from_gives = { λ _ e. e ≡ Memory };

    fn from(_full: AllocFailed<T>) -> Unlisted {
        Unlisted::Memory
    }
}

impl From<AllocError> for Unlisted {
    ghost from_gives = { λ _ e. e ≡ Memory };

    fn from(_full: AllocError) -> Unlisted {
        Unlisted::Memory
    }
}

/// -(a + b), none where that lies outside i128; a + b itself may be 2^127.
fn third_part(a: i128, b: i128) -> Option<i128>
    ensures { SomeIff result (FitsI128 (neg_ℤ (a +ℤ b))) (neg_ℤ (a +ℤ b)) }
{
    match a.checked_neg() {
        Some(negative) => negative.checked_sub(b),
        None => i128::MAX.checked_sub(b)?.checked_add(1),
    }
}

/// -(x + y), none where a part lies outside i128.
fn third_number(x: Quad, y: Quad) -> Option<Quad>
    ensures { SomeIff result (PartsFit ((quad_ops 0).neg ((quad_ops 0).add x y))) ((quad_ops 0).neg ((quad_ops 0).add x y)) }
{
    let a = third_part(x.a, y.a)?;
    let b = third_part(x.b, y.b)?;
    Some(Quad { a, b })
}

/// The vector that makes a triangle with u and v, none where it lies outside i128.
fn third_vector(u: &Vec2, v: &Vec2) -> Option<Vec2>
    ensures some { IfSome result (λ w. vector w ≡ opposite_vector (quad_ops 0) (vector_sum (quad_ops 0) (vector u.now) (vector v.now))) }
    ensures none { (result ≡ None) ↔ ¬ (PairFits (opposite_vector (quad_ops 0) (vector_sum (quad_ops 0) (vector u.now) (vector v.now)))) }
{
    let s = third_number(u.s, v.s)?;
    let t = third_number(u.t, v.t)?;
    Some(Vec2 { s, t })
}

/// The vector whose four numbers begin at place i.
#[inline]
pub(crate) fn vector_at(numbers: &[i128], i: usize) -> Vec2
    requires { i + 3 < length numbers.now }
    ensures { vector result ≡ vector_from numbers.now i }
{
    Vec2 {
        s: Quad {
            a: numbers[i],
            b: numbers[i + 1],
        },
        t: Quad {
            a: numbers[i + 2],
            b: numbers[i + 3],
        },
    }
}

/// The number of a twin at place i, none where it isn't from 0 to 767.
fn twin_number(numbers: &[i128], i: usize) -> Option<u32>
    requires { i < length numbers.now }
    ensures { SomeIff result (IsTwinNumber (number_at numbers.now i)) (unsigned_abs (number_at numbers.now i)) }
{
    let n = numbers[i];
    if 0 <= n && n < 768 {
        Some(n as u32)
    } else {
        None
    }
}

/// The numbers of the three twins of a triangle.
#[derive(Clone, Copy)]
struct Twins {
    first: u32,
    second: u32,
    third: u32,
}

/// The numbers of the three twins of triangle t, none where one isn't from 0 to 767.
fn twins_at(numbers: &[i128], t: u32) -> Option<Twins>
    requires inside { 2 + 11 * t + 10 < length numbers.now }
    ensures twins { IfSome result (λ twins. HasTwins numbers.now t) }
    ensures first { IfSome result (λ twins. twins.first ≡ unsigned_abs (number_at numbers.now (2 + 11 * t + 8))) }
    ensures second { IfSome result (λ twins. twins.second ≡ unsigned_abs (number_at numbers.now (2 + 11 * t + 9))) }
    ensures third { IfSome result (λ twins. twins.third ≡ unsigned_abs (number_at numbers.now (2 + 11 * t + 10))) }
    ensures none { result ≡ None → ¬ (HasTwins numbers.now t) }
{
    let place = 2 + 11 * t as usize;
    let first = twin_number(numbers, place + 8)?;
    let second = twin_number(numbers, place + 9)?;
    let third = twin_number(numbers, place + 10)?;
    Some(Twins {
        first,
        second,
        third,
    })
}

/// Appends the half-edges of triangle t.
fn push_triangle(halves: &mut Vec<Half>, numbers: &[i128], t: u32) -> Result<(), Unlisted>
    requires inside { 2 + 11 * t + 10 < length numbers.now }
    ensures halves { OnOk result (halves.new.items ≡ with_triangle numbers.now halves.old.items t) }
    ensures twins { OnOk result (HasTwins numbers.now t) }
    ensures twin { IfErr result (λ fault. fault ≡ Twin → ¬ (HasTwins numbers.now t)) }
    ensures third { IfErr result (λ fault. fault ≡ Third → ¬ (HasThird numbers.now t)) }
{
    let Some(twins) = twins_at(numbers, t) else {
        return Err(Unlisted::Twin);
    };
    let place = 2 + 11 * t as usize;
    let u = vector_at(numbers, place);
    let v = vector_at(numbers, place + 4);
    let Some(w) = third_vector(&u, &v) else {
        return Err(Unlisted::Third);
    };
    halves.push(Half {
        vec: u,
        twin: twins.first,
    })?;
    halves.push(Half {
        vec: v,
        twin: twins.second,
    })?;
    halves.push(Half {
        vec: w,
        twin: twins.third,
    })?;
    Ok(())
}

/// How many triangles the numbers list, none where they haven't the length of a triangulation's serial.
pub(crate) fn triangles_of(numbers: &[i128]) -> Option<u32>
    ensures first { IfSome result (λ n. number_at numbers.now 0 ≡ pos n) }
    ensures some { IfSome result (λ n. 2 ≤ n) }
    ensures few { IfSome result (λ n. n ≤ 256) }
    ensures count { IfSome result (λ n. length numbers.now ≡ 2 + 11 * n) }
    ensures none { result ≡ None → ¬ (HasSerialLength numbers.now) }
{
    let first = *numbers.first()?;
    if first < 2 || first > 256 {
        return None;
    }
    let count = first as u32;
    if numbers.len() == 2 + 11 * count as usize {
        Some(count)
    } else {
        None
    }
}

/// The half-edges that numbers of a serial's length list.
pub(crate) fn halves_of(alloc: Global, numbers: &[i128], count: u32) -> Result<Vec<Half>, Unlisted>
    requires long { length numbers.now ≡ 2 + 11 * count }
    requires few { count ≤ 256 }
    requires first { number_at numbers.now 0 ≡ pos count }
    ensures halves { IfOk result (λ halves. halves.items ≡ canonical 0 numbers.now) }
    ensures twins { OnOk result ((t : ℕ) → t < count → HasTwins numbers.now t) }
    ensures twin { IfErr result (λ fault. fault ≡ Twin → (t : ℕ) × (t < count) × ¬ (HasTwins numbers.now t)) }
    ensures third { IfErr result (λ fault. fault ≡ Third → (t : ℕ) × (t < count) × ¬ (HasThird numbers.now t)) }
{
    let mut halves = Vec::with_capacity(alloc, 3 * count as usize)?;
    for t in 0..count {
        push_triangle(&mut halves, numbers, t)?;
    }
    Ok(halves)
}

/// The canonical triangulation of a code.
pub fn tri_of(alloc: Global, f: &Field, code: &Code) -> Result<Tri, AllocError>
    requires { ∥ IsMade f.now code.now ∥₁ }
    ensures { IfOk result (λ tri. tri ≡ record { field = f.now; halves = canonical f.now code.now }) }
{
    let _number = f.number();
    let numbers = code.numbers();
    let Some(count) = triangles_of(numbers) else {
        unreachable!()
    };
    match halves_of(alloc, numbers, count) {
        Ok(halves) => Ok(Tri::known(f, halves)),
        Err(Unlisted::Memory) => Err(AllocError),
        Err(Unlisted::Twin) => unreachable!(),
        Err(Unlisted::Third) => unreachable!(),
    }
}
