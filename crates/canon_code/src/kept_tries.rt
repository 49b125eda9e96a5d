//! A start whose frame is kept, tried by the numbers that are listed with it: they are its coordinates over the scale, and need no arithmetic.

ghost use Rattle.std.specs.Prelude.{◌≡◌, ℕ, pos, ◌*◌, ◌<◌, length, unsigned_abs, IsTrue, IfOk, IfErr};
ghost use Rattle.canon_code.specs.Coordinates.{AreCoordinates};
ghost use Rattle.canon_code.specs.Distinct.{AreTaken};
ghost use Rattle.canon_code.specs.FrameWidth.{FrameFits};
ghost use Rattle.canon_code.specs.KeptFrames.{AreKeptFrames};
ghost use Rattle.canon_code.specs.Tries.{IsTried};
ghost use Rattle.canon_code.specs.declared.fault.CanonFault.TheVariants.{Wide};

use super::CanonFault;
use super::coordinates::Coordinates;
use super::distinct::listed_pair;
use super::kept_frames::KeptFrames;
use super::numbering::number_from;
use super::serial::{Tried, tried_at};
use quad_field::{Field, Quad};
use tri_core::Tri;

/// Writes the numbers of each half-edge over earlier ones, from a list of those of the different vectors: whether all are listed.
fn take_listed(count: u32, places: &[u32], list: &[Quad], taken: &mut [Quad]) -> bool
    requires places { length places.now ≡ count }
    requires room { length taken.old ≡ 2 * count }
    ensures { IsTrue result → AreTaken places.now list.now taken.new count }
{
    for k in 0..count {
        match listed_pair(places, list, k) {
            Some((x, y)) => {
                let place = 2 * k as usize;
                taken[place] = x;
                taken[place + 1] = y;
            }
            None => return false,
        }
    }
    true
}

/// Writes the coordinates of start h over earlier ones: whether its frame is kept, with the numbers of all vectors, and there were as many before.
fn put_kept(f: &Field, tri: &Tri, kept: &KeptFrames, h: u32, coordinates: &mut Coordinates) -> bool
    requires field { f.now ≡ tri.now.field }
    requires kept { AreKeptFrames f.now tri.now.halves kept.now }
    requires half { h < length tri.now.halves }
    ensures scale { IsTrue result → pos (unsigned_abs coordinates.new.scale) ≡ coordinates.new.scale }
    ensures coordinates { IsTrue result → AreCoordinates f.now tri.now.halves h (unsigned_abs coordinates.new.scale) coordinates.new.list.items }
{
    let _number = f.number();
    let count = 3 * tri.triangles();
    if coordinates.list.len() != 2 * count as usize {
        return false;
    }
    match kept.place_of(tri, h) {
        Some(place) => {
            let list = kept.frames[place].list.as_slice();
            let places = kept.distinct.places.as_slice();
            coordinates.scale = kept.scale;
            take_listed(count, places, list, &mut coordinates.list)
        }
        None => false,
    }
}

/// Tries start h, in the lists of an earlier start: its coordinates are computed only where they aren't kept.
pub fn tried_kept(
    f: &Field,
    tri: &Tri,
    kept: &KeptFrames,
    h: u32,
    old: Tried,
) -> Result<Tried, CanonFault>
    requires field { f.now ≡ tri.now.field }
    requires kept { AreKeptFrames f.now tri.now.halves kept.now }
    requires half { h < length tri.now.halves }
    ensures tried { IfOk result (λ tried. IsTried f.now tri.now.halves h tried) }
    ensures wide { IfErr result (λ fault. fault ≡ Wide → ¬ (FrameFits f.now tri.now.halves h)) }
{
    let mut coordinates = old.coordinates;
    if put_kept(f, tri, kept, h, &mut coordinates) {
        let numbering = number_from(tri, h, old.numbering)?;
        return Ok(Tried {
            numbering,
            coordinates,
        });
    }
    let lists = Tried {
        numbering: old.numbering,
        coordinates,
    };
    tried_at(f, tri, &kept.distinct, h, lists)
}
