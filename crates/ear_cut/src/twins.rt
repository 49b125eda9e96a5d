//! The twins of the sides of triangles.

ghost use Rattle.std.specs.Prelude.{◌≡◌, ◌+◌, ◌*◌, ◌^◌, ◌<◌, ◌≤◌, length, map, slice_index, vec_len, IfOk};
ghost use Rattle.surface_text.specs.declared.file.Polygon.{Polygon as PolygonValue};
ghost use Rattle.ear_cut.specs.Cuttings.{ArePartners, IsEarCutting};
ghost use Rattle.ear_cut.specs.Steps.{seen, origin_of, IsSourceThere, ArePolygonsCut};
ghost use Rattle.ear_cut.specs.Slots.{side_count, slot_count, slot_in, AreFirstSlots, HasFirstSlot, AreSlots, ArePlaces};

use super::side::{Edge, Source};
use gluing::Glued;
use std::alloc::{AllocError, Global};
use surface_text::Polygon;
use tri_core::Half;

/// Where the twin of a side comes from.
fn partner(glued: &Glued, source: Source) -> Source
    requires { IsSourceThere glued.now.polygons (origin_of source) }
    ensures { ArePartners glued.now.glues (origin_of source) (origin_of result) }
{
    match source {
        Source::Outer { p, e } => {
            let (q, f) = glued.twin(p, e);
            Source::Outer { p: q, e: f }
        }
        Source::Chord { t } => Source::Back { t },
        Source::Back { t } => Source::Chord { t },
    }
}

/// The slots of the polygons' first sides in a table of places: the chords of so many triangles and their opposites come
/// first, and then the sides of one polygon after another. Last the number of all slots.
fn first_slots(
    alloc: Global,
    triangles: usize,
    polygons: &[Polygon],
) -> Result<Vec<usize>, AllocError>
    requires { 2 * triangles + side_count (map (λ (polygon : PolygonValue). polygon.sides.items) polygons.now) ≤ 1280 }
    ensures { IfOk result (λ first. AreFirstSlots triangles (map (λ (polygon : PolygonValue). polygon.sides.items) polygons.now) first.items) }
{
    let mut slot = 2 * triangles;
    let mut first = Vec::with_capacity(alloc, polygons.len())?;
    first.push(slot)?;
    for polygon in polygons {
        slot += polygon.sides.len();
        first.push(slot)?;
    }
    Ok(first)
}

/// The slot of a side in a table of places.
fn slot_of(first: &[usize], source: Source) -> usize
    requires there { HasFirstSlot first.now (origin_of source) }
    requires fits { slot_in first.now (origin_of source) < 2 ^ 64 }
    ensures { result ≡ slot_in first.now (origin_of source) }
{
    match source {
        Source::Outer { p, e } => first[p as usize] + e as usize,
        Source::Chord { t } => 2 * t as usize,
        Source::Back { t } => 2 * t as usize + 1,
    }
}

/// The table of places: in the slot of each side stands its number.
fn places_of(alloc: Global, first: &[usize], edges: &[Edge]) -> Result<Vec<u32>, AllocError>
    requires some { 1 ≤ length first.now }
    requires few { length edges.now ≤ 768 }
    requires slots { AreSlots first.now (seen edges.now) }
    ensures long { IfOk result (λ places. vec_len places ≡ slot_count first.now) }
    ensures places { IfOk result (λ places. ArePlaces first.now (seen edges.now) (length edges.now) places.items) }
{
    let mut places = vec![in alloc; 0; first[first.len() - 1]]?;
    for (h, edge) in edges.iter().enumerate() {
        places[slot_of(first, edge.source)] = h as u32;
    }
    Ok(places)
}

/// The number of a side, found in its slot.
fn place_of(first: &[usize], places: &[u32], source: Source) -> u32
    requires there { HasFirstSlot first.now (origin_of source) }
    requires inside { slot_in first.now (origin_of source) < length places.now }
    ensures { result ≡ slice_index places.now (slot_in first.now (origin_of source)) }
{
    places[slot_of(first, source)]
}

/// The half-edges of the triangles that glued polygons are cut into.
pub(crate) fn half_edges(
    alloc: Global,
    glued: &Glued,
    edges: &[Edge],
) -> Result<Vec<Half>, AllocError>
    requires { ArePolygonsCut glued.now.field glued.now.polygons (seen edges.now) }
    ensures { IfOk result (λ halves. IsEarCutting glued.now halves.items) }
{
    let first = first_slots(alloc, edges.len() / 3, glued.polygons())?;
    let places = places_of(alloc, &first, edges)?;
    let mut halves = Vec::with_capacity(alloc, edges.len())?;
    for edge in edges {
        let other = partner(glued, edge.source);
        halves.push(Half {
            vec: edge.vec,
            twin: place_of(&first, &places, other),
        })?;
    }
    Ok(halves)
}
