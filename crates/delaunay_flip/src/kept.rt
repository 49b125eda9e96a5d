//! Triangulations that are kept with the values of their edges at a point.

ghost use Rattle.std.specs.Prelude.{◌≡◌, ℕ, OnOk, IfOk, IfErr};
ghost use Rattle.quad_field.specs.FieldNumber.{IsFieldNumber};
ghost use Rattle.surface_text.specs.Limits.{IsBasePoint};
ghost use Rattle.tri_core.specs.Flips.{IsEdge};
ghost use Rattle.hinge_form.specs.Hinges.{of_place, place_at, IsHalfPlanePoint};
ghost use Rattle.delaunay_flip.specs.Flipping.{IsNegative, IsZeroAt, IsLeastOrNone, IsNextFlip, IsValueAt};
ghost use Rattle.delaunay_flip.specs.Widths.{EdgesFit, FlipFits};
ghost use Rattle.delaunay_flip.specs.Keeping.{IsKept, IsNotKept, IsNotFlipped};
ghost use Rattle.delaunay_flip.specs.Tables.{IsTable};
ghost use Rattle.delaunay_flip.specs.declared.kept.KeptFault.TheVariants.{Wide, Memory};

use super::edge_values::EdgeValues;
use super::edges::{WideEdge, is_valid};
use hinge_form::{Place3, place_of};
use quad_field::{Field, Formula, Quad};
use std::alloc::{AllocError, Global};
use std::marker::Model;
use surface_text::Point;
use tri_core::Tri;

/// Why a triangulation isn't kept, or isn't flipped.
#[derive(Clone, Copy, Debug, PartialEq, Eq)]
pub enum KeptFault {
    /// A step of this formula lies outside i128 at this edge.
    Wide { formula: Formula, edge: u32 },
    /// Memory ran out.
    Memory,
}

/// A triangulation with a half-plane point, the value of each edge there, and the edges of negative value.
#[derive(Drop)]
pub struct Kept {
    tri: Tri,
    point: Point,
    values: EdgeValues,
}

/// Flips the least edge of negative value, and has the values follow.
fn flip_least(
    f: &Field,
    tri: &mut Tri,
    at: &Place3,
    values: &mut EdgeValues,
) -> Result<(), KeptFault>
    requires field { f.now ≡ tri.old.field }
    requires place { (d : ℕ) → IsFieldNumber d → IsHalfPlanePoint d (of_place at.now) }
    requires table { IsTable tri.old.field (of_place at.now) tri.old.halves values.old }
    requires some { (h : ℕ) × IsNegative tri.old.field (of_place at.now) tri.old.halves h }
    ensures field { OnOk result (tri.new.field ≡ tri.old.field) }
    ensures flipped { OnOk result (IsNextFlip tri.old.field (of_place at.now) tri.old.halves tri.new.halves) }
    ensures diagonal { OnOk result (FlipFits tri.old.field (of_place at.now) tri.old.halves) }
    ensures table { OnOk result (IsTable tri.old.field (of_place at.now) tri.new.halves values.new) }
    ensures wide { IfErr result (IsNotFlipped tri.old.field (of_place at.now) tri.old.halves) }
{
    is_valid(f, tri);
    let Some(edge) = values.least() else {
        unreachable!()
    };
    if let Err(wide) = tri.flip(f, edge) {
        return Err(KeptFault::Wide {
            formula: wide.formula,
            edge,
        });
    }
    values.follow(f, tri, at, edge)?;
    Ok(())
}

impl Model for Kept {
    ghost use Rattle.surface_text.specs.Limits.{IsBasePoint};
    ghost use Rattle.hinge_form.specs.Hinges.{place_at};
    ghost use Rattle.delaunay_flip.specs.Keeping.{KeptAt};
    ghost use Rattle.delaunay_flip.specs.Tables.{IsTable};

    ghost Value = { KeptAt };

    ghost view = { λ k. record { tri = k.tri; point = k.point } };

    ghost invariant = { λ k. IsBasePoint k.point × IsTable k.tri.field (place_at k.point) k.tri.halves k.values };
}

impl Kept {
    /// Keeps a copy of a triangulation with the values of its edges at a point.
    /// Refused, memory aside, exactly where a hinge triple or a value is wide at an edge: for the least such edge, and the first formula that is wide there.
    pub fn start(alloc: Global, f: &Field, tri: &Tri, at: &Point) -> Result<Kept, KeptFault>
        requires field { f.now ≡ tri.now.field }
        requires point { IsBasePoint at.now }
        ensures kept { IfOk result (λ kept. (kept.tri ≡ tri.now) × (kept.point ≡ at.now)) }
        ensures fits { OnOk result (EdgesFit tri.now.field (place_at at.now) tri.now.halves) }
        ensures wide { IfErr result (IsNotKept tri.now.field (place_at at.now) tri.now.halves) }
    {
        let tri = tri.copy(alloc)?;
        let mut values = EdgeValues::new(alloc, 3 * tri.triangles())?;
        values.fill(f, &tri, &place_of(at))?;
        Ok(Kept {
            tri,
            point: *at,
            values,
        })
    }

    /// The least edge of negative value.
    pub fn least(&self) -> Option<u32>
        ensures { IsLeastOrNone (IsNegative self.now.tri.field (place_at self.now.point) self.now.tri.halves) result }
    {
        self.values.least()
    }

    /// The triangulation.
    pub fn tri(&self) -> &Tri
        ensures tri { result.now ≡ self.now.tri }
        ensures kept { IsKept self.now }
    {
        &self.tri
    }

    /// The value of an edge: that of its hinge triple at the point.
    pub fn value(&self, edge: u32) -> Quad
        requires { IsEdge self.now.tri.halves edge }
        ensures { IsValueAt self.now.tri.field (place_at self.now.point) self.now.tri.halves edge result }
    {
        self.values.value(edge)
    }

    /// Flips the least edge of negative value. It takes no memory.
    /// Refused exactly where the new diagonal is wide, and otherwise exactly where a hinge triple or a value is wide at an edge after the flip:
    /// for the least such edge, and the first formula that is wide there. A refused flip gives nothing back.
    pub fn flip(self, _alloc: Global, f: &Field) -> Result<Kept, KeptFault>
        requires field { f.now ≡ self.tri.field }
        requires some { (h : ℕ) × IsNegative self.tri.field (place_at self.point) self.tri.halves h }
        ensures field { IfOk result (λ kept. kept.tri.field ≡ self.tri.field) }
        ensures point { IfOk result (λ kept. kept.point ≡ self.point) }
        ensures flipped { IfOk result (λ kept. IsNextFlip self.tri.field (place_at self.point) self.tri.halves kept.tri.halves) }
        ensures diagonal { OnOk result (FlipFits self.tri.field (place_at self.point) self.tri.halves) }
        ensures fits { IfOk result (λ kept. EdgesFit self.tri.field (place_at self.point) kept.tri.halves) }
        ensures wide { IfErr result (IsNotFlipped self.tri.field (place_at self.point) self.tri.halves) }
    {
        let Kept {
            mut tri,
            point,
            mut values,
        } = self;
        flip_least(f, &mut tri, &place_of(&point), &mut values)?;
        Ok(Kept { tri, point, values })
    }

    /// The least edge of value zero.
    pub(crate) fn zero(&self, f: &Field) -> Option<u32>
        requires { f.now ≡ self.now.tri.field }
        ensures { IsLeastOrNone (IsZeroAt self.now.tri.field (place_at self.now.point) self.now.tri.halves) result }
    {
        is_valid(f, &self.tri);
        self.values.zero(&self.tri)
    }

    /// The triangulation, taken out.
    pub(crate) fn into_tri(self) -> Tri
        ensures { result ≡ self.tri }
    {
        self.tri
    }
}

impl From<AllocError> for KeptFault {
    ghost from_gives = { λ _ fault. fault ≡ Memory };

    fn from(_error: AllocError) -> KeptFault {
        KeptFault::Memory
    }
}

impl From<WideEdge> for KeptFault {
    ghost from_gives = { λ wide fault. fault ≡ Wide wide.formula wide.edge };

    fn from(wide: WideEdge) -> KeptFault {
        KeptFault::Wide {
            formula: wide.formula,
            edge: wide.edge,
        }
    }
}
