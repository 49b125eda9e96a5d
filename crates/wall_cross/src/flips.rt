//! The flips of a crossing: either all edges of a wall are flipped, or none.

ghost use Rattle.std.specs.Prelude.{◌≡◌, ◌↔◌, IsOk, OnOk, IfErr};
ghost use Rattle.quad_field.specs.declared.formula.Formula.TheVariants.{F12};
ghost use Rattle.tri_core.specs.Flips.{IsEdge, IsStrictlyConvex, IsFlip, DiagonalFits};
ghost use Rattle.hinge_form.specs.Triples.{Triple};
ghost use Rattle.hinge_form.specs.Walls.{IsWall};
ghost use Rattle.wall_cross.specs.Crossings.{AreAllFlipped, DiagonalsFit};

use super::diagonals::{diagonals_fit, is_valid};
use quad_field::{Field, Formula, Wide};
use tri_core::Tri;

/// Flips an edge whose new diagonal fits.
fn flip_one(f: &Field, tri: &mut Tri, edge: u32)
    requires field { f.now ≡ tri.old.field }
    requires edge { IsEdge tri.old.halves edge }
    requires convex { IsStrictlyConvex tri.old.field tri.old.halves edge }
    requires fits { DiagonalFits tri.old.field tri.old.halves edge }
    ensures field { tri.new.field ≡ tri.old.field }
    ensures flipped { IsFlip tri.old.field tri.old.halves edge tri.new.halves }
{
    match tri.flip(f, edge) {
        Ok(()) => {}
        Err(_) => unreachable!(),
    }
}

/// Flips all edges of a wall, in their order, where their new diagonals fit.
fn flip_all(f: &Field, tri: &mut Tri, edges: &[u32])
    requires field { f.now ≡ tri.old.field }
    requires wall { (form : Triple) × IsWall tri.old.field tri.old.halves form edges.now }
    requires fits { DiagonalsFit tri.old.field tri.old.halves edges.now }
    ensures field { tri.new.field ≡ tri.old.field }
    ensures flipped { AreAllFlipped tri.old.field tri.old.halves edges.now tri.new.halves }
{
    is_valid(f, tri);
    for i in 0..edges.len() {
        flip_one(f, tri, edges[i]);
    }
}

/// Flips all edges of a wall, in their order. Nothing is changed where a new diagonal is wide.
pub fn flip_wall(f: &Field, tri: &mut Tri, edges: &[u32]) -> Result<(), Wide>
    requires field { f.now ≡ tri.old.field }
    requires wall { (form : Triple) × IsWall tri.old.field tri.old.halves form edges.now }
    ensures field { OnOk result (tri.new.field ≡ tri.old.field) }
    ensures flipped { OnOk result (AreAllFlipped tri.old.field tri.old.halves edges.now tri.new.halves) }
    ensures fits { IsOk result ↔ DiagonalsFit tri.old.field tri.old.halves edges.now }
    ensures wide { IfErr result (λ wide. (wide.formula ≡ F12) × (tri.new ≡ tri.old)) }
{
    is_valid(f, tri);
    if diagonals_fit(f, tri, edges) {
        flip_all(f, tri, edges);
        Ok(())
    } else {
        Err(Wide {
            formula: Formula::F12,
        })
    }
}
