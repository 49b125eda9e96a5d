//! Triangulations.

ghost use Rattle.std.specs.Prelude.{◌≡◌, ◌↔◌, ℕ, ◌+◌, ◌*◌, ◌<◌, ◌≤◌, length, slice_get, Some, IsTrue, IsErrOf, IsOk, IfOk, OnOk, IfErr, MatchResult, ◌⊎◌};
ghost use Rattle.tri_core.specs.HalfEdges.{next_of, twin_at};
ghost use Rattle.tri_core.specs.Triangulation.{HasTriangles, IsTriangulation};
ghost use Rattle.tri_core.specs.Refusals.{IsCause, IsForced, IsFree};
ghost use Rattle.tri_core.specs.declared.tri.BadTri.{BadTri as Refusal};
ghost use Rattle.tri_core.specs.declared.tri.BadTri.TheVariants.{Wide, Memory};
ghost use Rattle.tri_core.specs.Flips.{IsEdge, IsStrictlyConvex, IsFlip, DiagonalFits};
ghost use Rattle.tri_core.specs.Images.{IsImage};
ghost use Rattle.tri_core.specs.Mapped.{AreMapped, ImagesFit};
ghost use Rattle.tri_core.specs.declared.image.ImageFault.TheVariants.{Wide as TooWideImage};
ghost use Rattle.plane.specs.Matrices.{rows_of};
ghost use Rattle.rings.specs.Matrices.{matrix_det};
ghost use Rattle.quad_field.specs.Quads.{quad_ops, IsPositive};
ghost use Rattle.quad_field.specs.declared.formula.Formula.TheVariants.{F12, F13};

use super::Half;
use super::closed::first_open;
use super::image::{ImageFault, mapped_halves};
use super::joined::first_apart;
use super::paired::first_unpaired;
use super::quadrilateral::{exchange, new_diagonal};
use super::turns::first_not_left;
use quad_field::{Field, Formula, Quad, TooWide, Wide};
use std::alloc::{AllocError, Global};
use std::marker::Model;

/// Why half-edges aren't a triangulation: the first condition that fails, at the least triangle or half-edge.
#[derive(Clone, Copy, Debug, PartialEq, Eq)]
pub enum BadTri {
    /// The number of half-edges isn't a multiple of 3 from 6 to 768.
    Count,
    /// A sum of a triangle's vectors, or the determinant of its first two, has a step outside i128.
    Wide(Formula),
    /// The vectors of this triangle don't sum to zero.
    Sum(u32),
    /// The first two vectors of this triangle have no positive determinant.
    Turn(u32),
    /// The twin of this half-edge isn't a half-edge whose twin it is and whose vector is opposite.
    Twin(u32),
    /// This triangle isn't joined to triangle 0.
    Apart(u32),
    /// Memory ran out.
    Memory,
}

impl From<TooWide> for BadTri {
    ghost from_gives = { λ _ e. e ≡ Wide F13 };

    fn from(_wide: TooWide) -> BadTri {
        BadTri::Wide(Formula::F13)
    }
}

impl From<AllocError> for BadTri {
    ghost from_gives = { λ _ e. e ≡ Memory };

    fn from(_full: AllocError) -> BadTri {
        BadTri::Memory
    }
}

/// Whether this many half-edges make 2 to 256 triangles.
fn has_triangles(halves: &[Half]) -> bool
    ensures { IsTrue result ↔ HasTriangles halves.now }
{
    let count = halves.len();
    count % 3 == 0 && 6 <= count && count <= 768
}

/// Whether these half-edges are a triangulation: the conditions in their order, each at all its places.
fn check(alloc: Global, f: &Field, halves: &[Half]) -> Result<(), BadTri>
    ensures valid { OnOk result (IsTriangulation f.now halves.now) }
    ensures cause { IfErr result (IsCause f.now halves.now) }
    ensures count { ¬ (HasTriangles halves.now) → IsErrOf result BadTri.Count }
{
    if !has_triangles(halves) {
        return Err(BadTri::Count);
    }
    if let Some(t) = first_open(f, halves)? {
        return Err(BadTri::Sum(t));
    }
    if let Some(t) = first_not_left(f, halves)? {
        return Err(BadTri::Turn(t));
    }
    if let Some(h) = first_unpaired(f, halves) {
        return Err(BadTri::Twin(h));
    }
    if let Some(t) = first_apart(alloc, halves)? {
        return Err(BadTri::Apart(t));
    }
    Ok(())
}

/// A checked triangulation over one field. Half-edge `3t + k` is side k of triangle t.
/// Contracts see the number of its field and the list of its half-edges.
#[derive(Drop)]
pub struct Tri {
    field: u32,
    halves: Vec<Half>,
}

impl Model for Tri {
    ghost use Rattle.tri_core.specs.Triangulation.{Triangulation, IsTriangulation};

    ghost Value = { Triangulation };

    ghost view = { λ t. record { field = t.field; halves = t.halves.items } };

    ghost invariant = { λ t. IsTriangulation t.field t.halves.items };
}

impl Tri {
    /// The triangulation of these half-edges over this field, refused exactly where they are none, memory and width aside.
    /// `BadTri::Wide` may stand in place of any other answer where a sum or a determinant of a triangle is wide.
    pub fn make(alloc: Global, f: &Field, halves: Vec<Half>) -> Result<Tri, BadTri>
        ensures made { IfOk result (λ tri. tri ≡ record { field = f.now; halves = halves.items }) }
        ensures valid { OnOk result (IsTriangulation f.now halves.items) }
        ensures cause { IfErr result (IsCause f.now halves.items) }
        ensures count { IsErrOf result BadTri.Count ↔ ¬ (HasTriangles halves.items) }
        // The other way round: what has its cause is answered, unless width or memory stands in its place.
        ensures accepted { IsTriangulation f.now halves.items → IfErr result IsFree }
        ensures refused { (bad : Refusal) → IsForced bad → IsCause f.now halves.items bad
            → MatchResult result (λ _. ⊥) (λ other. (other ≡ bad) ⊎ IsFree other) }
    {
        check(alloc, f, halves.as_slice())?;
        Ok(Tri {
            field: f.number(),
            halves,
        })
    }

    /// The triangulation of half-edges that are known to be one. It takes no memory, and a determinant of them may be wide.
    pub fn known(f: &Field, halves: Vec<Half>) -> Tri
        requires { IsTriangulation f.now halves.items }
        ensures { result ≡ record { field = f.now; halves = halves.items } }
    {
        Tri {
            field: f.number(),
            halves,
        }
    }

    /// How many triangles it has.
    pub fn triangles(&self) -> u32
        ensures count { 3 * result ≡ length self.now.halves }
        ensures valid { IsTriangulation self.now.field self.now.halves }
    {
        (self.halves.len() / 3) as u32
    }

    /// The half-edge of number h.
    pub fn half(&self, h: u32) -> &Half
        requires { h < length self.now.halves }
        ensures { slice_get self.now.halves h ≡ Some result.now }
    {
        &self.halves[h as usize]
    }

    /// Whether h is the name of an edge: a half-edge that is less than its twin.
    pub fn is_edge(&self, h: u32) -> bool
        ensures { IsTrue result ↔ ((h < length self.now.halves) × (h < twin_at self.now.halves h)) }
    {
        match self.halves.as_slice().get(h as usize) {
            Some(half) => h < half.twin,
            None => false,
        }
    }

    /// The half-edge after h in its triangle.
    pub fn next(h: u32) -> u32
        requires { h < 768 }
        ensures { result ≡ next_of h }
    {
        if h % 3 == 2 { h - 2 } else { h + 1 }
    }

    /// All its half-edges, by their numbers.
    pub(crate) fn halves(&self) -> &[Half]
        ensures halves { result.now ≡ self.now.halves }
        ensures valid { IsTriangulation self.now.field self.now.halves }
    {
        self.halves.as_slice()
    }

    /// The image by a matrix of positive determinant, whose numbers stand by rows: every vector is mapped, and the twins stay.
    /// `ImageFault::Wide` only where the image of a vector has a step outside i128.
    pub fn image(&self, alloc: Global, f: &Field, n: &[Quad; 4]) -> Result<Tri, ImageFault>
        requires field { f.now ≡ self.now.field }
        requires positive { IsPositive f.now (matrix_det (quad_ops f.now) (rows_of n.now)) }
        ensures mapped { IfOk result (λ tri. (tri.field ≡ f.now) × AreMapped f.now (rows_of n.now) self.now.halves tri.halves) }
        ensures image { IfOk result (λ tri. IsImage f.now (rows_of n.now) 1 self.now.halves tri.halves (λ k. k) (λ k. k)) }
        ensures wide { IfErr result (λ fault. fault ≡ TooWideImage → ¬ (ImagesFit f.now (rows_of n.now) self.now.halves)) }
    {
        let halves = mapped_halves(alloc, f, n, self.halves.as_slice())?;
        Ok(Tri {
            field: f.number(),
            halves,
        })
    }

    /// A copy of the triangulation.
    pub fn copy(&self, alloc: Global) -> Result<Tri, AllocError>
        ensures { IfOk result (λ tri. tri ≡ self.now) }
    {
        let halves = Vec::from_slice(alloc, self.halves.as_slice())?;
        Ok(Tri {
            field: self.field,
            halves,
        })
    }

    /// Whether the other diagonal of the quadrilateral at a half-edge, and its opposite, can be had without a wide step.
    pub fn diagonal_fits(&self, f: &Field, edge: u32) -> bool
        requires field { f.now ≡ self.now.field }
        requires edge { edge < length self.now.halves }
        ensures { IsTrue result ↔ DiagonalFits self.now.field self.now.halves edge }
    {
        new_diagonal(f, self.halves.as_slice(), edge).is_ok()
    }

    /// Replaces an edge by the other diagonal of its quadrilateral, in place and without memory.
    /// The new diagonal takes the numbers of the edge and of its twin, and each outer side the number of the outer side after it round the quadrilateral.
    /// Refused, and then nothing is changed, exactly where the new diagonal or its opposite is wide.
    pub fn flip(&mut self, f: &Field, edge: u32) -> Result<(), Wide>
        requires field { f.now ≡ self.old.field }
        requires edge { IsEdge self.old.halves edge }
        requires convex { IsStrictlyConvex self.old.field self.old.halves edge }
        ensures flipped { OnOk result ((self.new.field ≡ self.old.field) × IsFlip self.old.field self.old.halves edge self.new.halves) }
        ensures fits { IsOk result ↔ DiagonalFits self.old.field self.old.halves edge }
        ensures wide { IfErr result (λ wide. (wide.formula ≡ F12) × (self.new ≡ self.old)) }
    {
        let diagonal = new_diagonal(f, self.halves.as_slice(), edge)?;
        exchange(self.halves.as_mut_slice(), edge, diagonal);
        Ok(())
    }
}
