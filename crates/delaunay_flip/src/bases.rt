//! Flipping to a strictly Delaunay triangulation.

ghost use Rattle.std.specs.Prelude.{◌≡◌, ◌+◌, ◌^◌, ◌<◌, ◌≤◌, ◌↔◌, ℕ, IsTrue, length};
ghost use Rattle.std.specs.List.{AllByRecursion};
ghost use Rattle.surface_text.specs.Limits.{IsBasePoint};
ghost use Rattle.delaunay_flip.specs.Bases.{EndsAt, EndsListed};
ghost use Rattle.delaunay_flip.specs.Faults.{IsOfFlip, base_fault};
ghost use Rattle.delaunay_flip.specs.Answers.{IsRight, IsComplete, IsNotStrict};

use super::base::{Base, BaseFault};
use super::edges::is_valid;
use super::kept::{Kept, KeptFault};
use quad_field::{Field, Formula};
use std::alloc::Global;
use surface_text::Point;
use tri_core::Tri;

/// Whether a fault is that of a new diagonal.
fn is_of_flip(fault: KeptFault) -> bool
    ensures { IsTrue result ↔ IsOfFlip fault }
{
    match fault {
        KeptFault::Wide { formula, .. } => formula == Formula::F12,
        KeptFault::Memory => false,
    }
}

/// Why there is no base, where a triangulation isn't kept after so many flips.
fn not_kept(fault: KeptFault, flips: u32) -> BaseFault
    ensures { result ≡ base_fault fault flips }
{
    match fault {
        KeptFault::Wide { formula, edge } => BaseFault::Wide {
            formula,
            flips,
            edge,
        },
        KeptFault::Memory => BaseFault::Memory,
    }
}

/// Why there is no base, where it isn't flipped after so many flips: a new diagonal is met before the flip, an edge after it.
fn not_flipped(fault: KeptFault, made: u32) -> BaseFault
    requires { made + 1 < 2 ^ 32 }
    ensures here { IsOfFlip fault → result ≡ base_fault fault made }
    ensures after { ¬ (IsOfFlip fault) → result ≡ base_fault fault (made + 1) }
{
    let flips = if is_of_flip(fault) { made } else { made + 1 };
    not_kept(fault, flips)
}

/// Flips the least edge of negative value, again and again, as `base_of` says.
fn flipped(alloc: Global, f: &Field, tri: &Tri, at: &Point, flips: u32) -> Result<Base, BaseFault>
    requires field { f.now ≡ tri.now.field }
    requires point { IsBasePoint at.now }
    ensures { IsRight tri.now (λ point ending. (point ≡ at.now) × EndsAt tri.now.field tri.now.halves at.now flips ending) result }
{
    is_valid(f, tri);
    let mut kept = match Kept::start(alloc, f, tri, at) {
        Ok(kept) => kept,
        Err(fault) => return Err(not_kept(fault, 0)),
    };
    let mut made = 0;
    while kept.least().is_some() {
        if made == flips {
            return Err(BaseFault::FlipsEnded { point: *at });
        }
        match kept.flip(alloc, f) {
            Ok(next) => kept = next,
            Err(fault) => return Err(not_flipped(fault, made)),
        }
        made += 1;
    }
    match kept.zero(f) {
        Some(edge) => Err(BaseFault::NotStrict { edge }),
        None => Ok(Base {
            tri: kept.into_tri(),
            point: *at,
            flips: made,
        }),
    }
}

/// The base of a triangulation at a point: the least edge of negative value is flipped, again and again, until none is
/// negative, with at most so many flips.
pub fn base_of(
    alloc: Global,
    f: &Field,
    tri: &Tri,
    at: &Point,
    flips: u32,
) -> Result<Base, BaseFault>
    requires field { f.now ≡ tri.now.field }
    requires point { IsBasePoint at.now }
    ensures right { IsRight tri.now (λ point ending. (point ≡ at.now) × EndsAt tri.now.field tri.now.halves at.now flips ending) result }
    ensures complete { IsComplete tri.now (λ point ending. (point ≡ at.now) × EndsAt tri.now.field tri.now.halves at.now flips ending) result }
{
    is_valid(f, tri);
    flipped(alloc, f, tri, at, flips)
}

/// Whether an answer names an edge of value zero.
fn is_not_strict(answer: &Result<Base, BaseFault>) -> bool
    ensures { IsTrue result ↔ IsNotStrict answer.now }
{
    matches!(answer, Err(BaseFault::NotStrict { .. }))
}

/// Tries the points in order, as `base_listed` says.
fn tried(
    alloc: Global,
    f: &Field,
    tri: &Tri,
    points: &[Point],
    flips: u32,
) -> Result<Base, BaseFault>
    requires field { f.now ≡ tri.now.field }
    requires some { 1 ≤ length points.now }
    requires points { AllByRecursion IsBasePoint points.now }
    ensures { IsRight tri.now (EndsListed tri.now.field tri.now.halves points.now flips) result }
{
    let last = points.len() - 1;
    for i in 0..last {
        let answer = base_of(alloc, f, tri, &points[i], flips);
        if !is_not_strict(&answer) {
            return answer;
        }
    }
    base_of(alloc, f, tri, &points[last], flips)
}

/// The base over a list of points, tried in order, each from the triangulation itself with its own flips.
pub fn base_listed(
    alloc: Global,
    f: &Field,
    tri: &Tri,
    points: &[Point],
    flips: u32,
) -> Result<Base, BaseFault>
    requires field { f.now ≡ tri.now.field }
    requires some { 1 ≤ length points.now }
    requires points { AllByRecursion IsBasePoint points.now }
    ensures right { IsRight tri.now (EndsListed tri.now.field tri.now.halves points.now flips) result }
    ensures complete { IsComplete tri.now (EndsListed tri.now.field tri.now.halves points.now flips) result }
{
    is_valid(f, tri);
    tried(alloc, f, tri, points, flips)
}
