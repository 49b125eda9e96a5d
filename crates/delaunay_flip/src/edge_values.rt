//! The values of the edges of a triangulation at a place, and which of them are negative.

ghost use Rattle.std.specs.Prelude.{◌≡◌, ◌≢◌, ◌↔◌, ℕ, ◌<◌, OnOk, IfOk, IfErr, length, slice_index, vec_len};
ghost use Rattle.tri_core.specs.HalfEdges.{previous_of};
ghost use Rattle.tri_core.specs.Triangulation.{IsTriangulation};
ghost use Rattle.tri_core.specs.Flips.{IsEdge};
ghost use Rattle.hinge_form.specs.Hinges.{of_place};
ghost use Rattle.delaunay_flip.specs.Flipping.{IsLeastOrNone};
ghost use Rattle.delaunay_flip.specs.Widths.{IsWideEdge};
ghost use Rattle.delaunay_flip.specs.Words.{Holds};
ghost use Rattle.delaunay_flip.specs.Tables.{entry, IsEntered, IsTable, IsTableBut, IsNamed, IsRenewed, sides_of};

use super::edge_set::EdgeSet;
use super::edges::{WideEdge, edge_value, is_negative, is_valid};
use hinge_form::Place3;
use quad_field::{Field, Quad, Wide};
use std::alloc::{AllocError, Global};
use tri_core::Tri;

/// The K-integer 0.
const ZERO: Quad = Quad { a: 0, b: 0 };

/// The value of each edge, at the place of its number, and the edges of negative value.
#[derive(Drop)]
pub struct EdgeValues {
    values: Vec<Quad>,
    negative: EdgeSet,
}

/// The half-edge before h in its triangle.
fn previous(h: u32) -> u32
    requires { h < 768 }
    ensures { result ≡ previous_of h }
{
    Tri::next(Tri::next(h))
}

/// An edge and the four sides round it.
fn sides(tri: &Tri, edge: u32) -> [u32; 5]
    requires valid { IsTriangulation tri.now.field tri.now.halves }
    requires half { edge < length tri.now.halves }
    ensures sides { result ≡ sides_of tri.now.halves edge }
    ensures inside { (i : ℕ) → i < 5 → slice_index result i < length tri.now.halves }
{
    let twin = tri.half(edge).twin;
    [
        edge,
        Tri::next(edge),
        previous(edge),
        Tri::next(twin),
        previous(twin),
    ]
}

/// Of a half-edge and its twin, the one by which their edge goes, and the other.
fn names(tri: &Tri, h: u32) -> (u32, u32)
    requires valid { IsTriangulation tri.now.field tri.now.halves }
    requires half { h < length tri.now.halves }
    ensures { IsNamed tri.now.halves h result.0 result.1 }
{
    let twin = tri.half(h).twin;
    if h < twin { (h, twin) } else { (twin, h) }
}

impl EdgeValues {
    /// Room for the values of so many half-edges.
    pub fn new(alloc: Global, count: u32) -> Result<EdgeValues, AllocError>
        ensures { IfOk result (λ table. vec_len table.values ≡ count) }
    {
        Ok(EdgeValues {
            values: vec![in alloc; ZERO; count as usize]?,
            negative: EdgeSet::new(),
        })
    }

    /// Enters the value of an edge.
    fn enter(&mut self, f: &Field, edge: u32, v: Quad)
        requires few { edge < 768 }
        requires inside { edge < vec_len self.old.values }
        ensures { IsEntered f.now edge v self.old self.new }
    {
        self.values[edge as usize] = v;
        if is_negative(f, v) {
            self.negative.insert(edge);
        } else {
            self.negative.remove(edge);
        }
    }

    /// Enters the values of all edges, the least first, or says which is the first wide one.
    pub fn fill(&mut self, f: &Field, tri: &Tri, at: &Place3) -> Result<(), WideEdge>
        requires field { f.now ≡ tri.now.field }
        requires count { vec_len self.old.values ≡ length tri.now.halves }
        ensures table { OnOk result (IsTable tri.now.field (of_place at.now) tri.now.halves self.new) }
        ensures wide { IfErr result (λ wide. IsWideEdge tri.now.field (of_place at.now) tri.now.halves wide.formula wide.edge) }
    {
        is_valid(f, tri);
        self.negative = EdgeSet::new();
        for h in 0..3 * tri.triangles() {
            if tri.is_edge(h) {
                match edge_value(f, tri, at, h) {
                    Ok(v) => self.enter(f, h, v),
                    Err(wide) => {
                        return Err(WideEdge {
                            formula: wide.formula,
                            edge: h,
                        });
                    }
                }
            }
        }
        Ok(())
    }

    /// Enters the value of the edge of a half-edge anew.
    fn renew(&mut self, f: &Field, tri: &Tri, at: &Place3, h: u32) -> Result<(), Wide>
        requires field { f.now ≡ tri.now.field }
        requires half { h < length tri.now.halves }
        requires count { vec_len self.old.values ≡ length tri.now.halves }
        ensures count { vec_len self.new.values ≡ length tri.now.halves }
        ensures renewed { OnOk result (IsRenewed tri.now.field (of_place at.now) tri.now.halves h self.old self.new) }
    {
        is_valid(f, tri);
        let (edge, other) = names(tri, h);
        let v = edge_value(f, tri, at, edge)?;
        self.negative.remove(other);
        self.enter(f, edge, v);
        Ok(())
    }

    /// Enters the values of an edge and of the four sides round it anew.
    fn renew_round(&mut self, f: &Field, tri: &Tri, at: &Place3, edge: u32) -> Result<(), Wide>
        requires field { f.now ≡ tri.now.field }
        requires edge { IsEdge tri.now.halves edge }
        requires others { IsTableBut tri.now.field (of_place at.now) tri.now.halves (sides_of tri.now.halves edge) self.old }
        ensures count { vec_len self.new.values ≡ length tri.now.halves }
        ensures table { OnOk result (IsTable tri.now.field (of_place at.now) tri.now.halves self.new) }
    {
        is_valid(f, tri);
        for side in sides(tri, edge) {
            self.renew(f, tri, at, side)?;
        }
        Ok(())
    }

    /// Enters what a flip of this edge changed. Only where one of the changed edges is wide are all edges looked at, to name the least.
    pub fn follow(&mut self, f: &Field, tri: &Tri, at: &Place3, edge: u32) -> Result<(), WideEdge>
        requires field { f.now ≡ tri.now.field }
        requires edge { IsEdge tri.now.halves edge }
        requires others { IsTableBut tri.now.field (of_place at.now) tri.now.halves (sides_of tri.now.halves edge) self.old }
        ensures table { OnOk result (IsTable tri.now.field (of_place at.now) tri.now.halves self.new) }
        ensures wide { IfErr result (λ wide. IsWideEdge tri.now.field (of_place at.now) tri.now.halves wide.formula wide.edge) }
    {
        match self.renew_round(f, tri, at, edge) {
            Ok(()) => Ok(()),
            Err(_) => self.fill(f, tri, at),
        }
    }

    /// The least edge of negative value.
    pub fn least(&self) -> Option<u32>
        ensures { IsLeastOrNone (Holds self.now.negative.words) result }
    {
        self.negative.least()
    }

    /// The value of an edge.
    pub fn value(&self, edge: u32) -> Quad
        requires { edge < vec_len self.now.values }
        ensures { result ≡ entry self.now edge }
    {
        self.values[edge as usize]
    }

    /// The least edge for which zero is entered.
    pub fn zero(&self, tri: &Tri) -> Option<u32>
        requires { vec_len self.now.values ≡ length tri.now.halves }
        ensures { IsLeastOrNone (λ h. IsEdge tri.now.halves h × (entry self.now h ≡ ZERO)) result }
    {
        for h in 0..3 * tri.triangles() {
            if tri.is_edge(h) && self.value(h) == ZERO {
                return Some(h);
            }
        }
        None
    }
}
