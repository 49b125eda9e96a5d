//! The code of a triangulation, with its starts.

ghost use Rattle.std.specs.Prelude.{◌≡◌, ℕ, pos, ◌+◌, ◌<◌, ◌<ℤ◌, ◌⊎◌, ◌∷◌, [], length, slice_get, Some, IfOk, OnOk, IfErr, IsTrue, IsFalse, ℤ, ◌≤◌, ◌++◌};
ghost use Rattle.plane.specs.Matrices.{IsReducedTo, IsInLowestTerms};
ghost use Rattle.tri_core.specs.Images.{IsImageBy, CarriesFrame};
ghost use Rattle.canon_code.specs.Codes.{IsCode, AreStarts, IsStart};
ghost use Rattle.canon_code.specs.Canonical.{canonical, frame, ThirdVectorsFit, IsMade, number_at};
ghost use Rattle.canon_code.specs.Numbered.{entry, IsNumberedBy};
ghost use Rattle.canon_code.specs.Orbits.{AreLinked, AreOrbits, IsBestOf};
ghost use Rattle.canon_code.specs.Serials.{IsSerial};
ghost use Rattle.canon_code.specs.Tries.{IsTried, tried_serial};
ghost use Rattle.canon_code.specs.FrameWidth.{FrameFits, HasWideFrame};
ghost use Rattle.canon_code.specs.KeptFrames.{AreKeptFrames};
ghost use Rattle.std.specs.declared.cmp.Ordering.TheVariants.{Less, Equal, Greater};
ghost use Rattle.canon_code.specs.declared.fault.CanonFault.TheVariants.{Wide};

use super::coordinates::Coordinates;
use super::distinct::distinct_of;
use super::kept_frames::KeptFrames;
use super::kept_tries::tried_kept;
use super::numbering::Numbering;
use super::orbits::Orbits;
use super::serial::{Tried, order_of, scale_number, serial_of, tried_at};
use super::whole::{Told, told_of};
use super::{CanonFault, Code};
use plane::Mat2;
use quad_field::Field;
use std::alloc::{AllocError, Global};
use std::cmp::Ordering;
use tri_core::Tri;

/// The least serial that was found, the starts with this serial, ascending, and the orbits that are known.
#[derive(Drop)]
pub struct Best {
    pub serial: Vec<i128>,
    pub starts: Vec<u32>,
    pub orbits: Orbits,
}

/// Empty lists with room for a triangulation of so many half-edges.
fn room(alloc: Global, count: u32) -> Result<(Tried, Vec<i128>), AllocError> {
    let numbering = Numbering::with_room(alloc, count as usize)?;
    let list = Vec::with_capacity(alloc, 2 * count as usize)?;
    let serial = Vec::with_capacity(alloc, 2 + 4 * count as usize)?;
    let coordinates = Coordinates { scale: 1, list };
    Ok((
        Tried {
            numbering,
            coordinates,
        },
        serial,
    ))
}

/// The start that was tried as the only best one.
fn only(f: &Field, tri: &Tri, tried: &Tried, h: u32, old: Best) -> Result<Best, AllocError>
    requires field { f.now ≡ tri.now.field }
    requires half { h < length tri.now.halves }
    requires tried { IsTried f.now tri.now.halves h tried.now }
    requires linked { AreLinked f.now tri.now.halves old.orbits.links.items }
    ensures serial { IfOk result (λ b. b.serial.items ≡ tried_serial tri.now.halves tried.now) }
    ensures starts { IfOk result (λ b. b.starts.items ≡ h ∷ []) }
    ensures orbits { IfOk result (λ b. AreOrbits f.now tri.now.halves b.serial.items b.orbits.places.items b.orbits.links.items) }
    ensures thirds { IfOk result (λ b. ThirdVectorsFit f.now b.serial.items) }
{
    let serial = serial_of(f, tri, tried, old.serial)?;
    let mut starts = old.starts;
    starts.clear();
    starts.push(h)?;
    let orbits = old.orbits.ordered(tried.numbering.places.as_slice())?;
    Ok(Best {
        serial,
        starts,
        orbits,
    })
}

/// The better of the best and the start that was tried: a lesser serial is the only best one, and an equal one is another start.
fn better(f: &Field, tri: &Tri, tried: &Tried, h: u32, best: Best) -> Result<Best, AllocError>
    requires field { f.now ≡ tri.now.field }
    requires half { h < length tri.now.halves }
    requires tried { IsTried f.now tri.now.halves h tried.now }
    requires best { IsBestOf f.now tri.now.halves h best }
    ensures { IfOk result (λ b. IsBestOf f.now tri.now.halves (h + 1) b) }
{
    let _number = f.number();
    let _count = tri.triangles();
    match order_of(best.serial.as_slice(), tri, tried) {
        Ordering::Less => only(f, tri, tried, h, best),
        Ordering::Equal => with_image(f, tri, &tried.numbering, h, best),
        Ordering::Greater => Ok(best),
    }
}

/// The best with one more start.
fn with_start(best: Best, h: u32) -> Result<Best, AllocError>
    ensures serial { IfOk result (λ b. b.serial.items ≡ best.serial.items) }
    ensures starts { IfOk result (λ b. b.starts.items ≡ best.starts.items ++ h ∷ []) }
    ensures orbits { IfOk result (λ b. b.orbits ≡ best.orbits) }
{
    let mut starts = best.starts;
    starts.push(h)?;
    Ok(Best {
        serial: best.serial,
        starts,
        orbits: best.orbits,
    })
}

/// The best with one more start, whose numbering is known: so is the symmetry that takes the best start to it.
fn with_image(
    f: &Field,
    tri: &Tri,
    numbering: &Numbering,
    h: u32,
    best: Best,
) -> Result<Best, AllocError>
    requires field { f.now ≡ tri.now.field }
    requires half { h < length tri.now.halves }
    requires numbering { IsNumberedBy tri.now.halves h numbering.now.places.items numbering.now.numbers.items }
    requires serial { IsSerial f.now tri.now.halves h best.serial.items }
    requires best { IsBestOf f.now tri.now.halves h best }
    ensures { IfOk result (λ b. IsBestOf f.now tri.now.halves (h + 1) b) }
{
    let _number = f.number();
    let _count = tri.triangles();
    let more = with_start(best, h)?;
    let orbits = more.orbits.joined(numbering.places.as_slice());
    Ok(Best {
        serial: more.serial,
        starts: more.starts,
        orbits,
    })
}

/// The better of the best and start h, whose serial is computed in the lists of an earlier start.
fn tried_whole(
    f: &Field,
    tri: &Tri,
    kept: &KeptFrames,
    h: u32,
    old: Tried,
    best: Best,
) -> Result<(Tried, Best), CanonFault>
    requires field { f.now ≡ tri.now.field }
    requires kept { AreKeptFrames f.now tri.now.halves kept.now }
    requires half { h < length tri.now.halves }
    requires best { IsBestOf f.now tri.now.halves h best }
    ensures best { IfOk result (λ r. IsBestOf f.now tri.now.halves (h + 1) r.1) }
    ensures wide { IfErr result (λ fault. fault ≡ Wide → ¬ (FrameFits f.now tri.now.halves h)) }
{
    let tried = match tried_kept(f, tri, kept, h, old) {
        Ok(tried) => tried,
        Err(fault) => return Err(fault),
    };
    let best = better(f, tri, &tried, h, best)?;
    Ok((tried, best))
}

/// The better of the best and start h, which is compared in the lists of an earlier start.
fn compared(
    alloc: Global,
    f: &Field,
    tri: &Tri,
    kept: &mut KeptFrames,
    h: u32,
    old: Tried,
    best: Best,
) -> Result<(Tried, Best), CanonFault>
    requires field { f.now ≡ tri.now.field }
    requires kept { AreKeptFrames f.now tri.now.halves kept.old }
    requires half { h < length tri.now.halves }
    requires best { IsBestOf f.now tri.now.halves h best }
    ensures best { IfOk result (λ r. IsBestOf f.now tri.now.halves (h + 1) r.1) }
    ensures kept { OnOk result (AreKeptFrames f.now tri.now.halves kept.new) }
    ensures wide { IfErr result (λ fault. fault ≡ Wide → ¬ (FrameFits f.now tri.now.halves h)) }
{
    let _number = f.number();
    let _count = tri.triangles();
    let (tried, answer) = told_of(alloc, f, tri, kept, h, old, best.serial.as_slice())?;
    match answer {
        Told::After => Ok((tried, best)),
        Told::Same => {
            let best = with_image(f, tri, &tried.numbering, h, best)?;
            Ok((tried, best))
        }
        Told::Open => tried_whole(f, tri, kept, h, tried, best),
    }
}

/// Whether start h is passed over: an earlier start is of its orbit, and isn't a start of the best.
fn is_passed(f: &Field, tri: &Tri, best: &Best, h: u32) -> bool
    requires field { f.now ≡ tri.now.field }
    requires half { h < length tri.now.halves }
    requires best { IsBestOf f.now tri.now.halves h best.now }
    ensures passed { IsTrue result → IsBestOf f.now tri.now.halves (h + 1) best.now }
    ensures other { IsFalse result → (entry best.now.orbits.links.items h ≡ h) ⊎ IsSerial f.now tri.now.halves h best.now.serial.items }
{
    let _number = f.number();
    let _count = tri.triangles();
    let first = best.orbits.links[h as usize];
    if first == h {
        return false;
    }
    match best.starts.as_slice().binary_search(&first) {
        Ok(_place) => false,
        Err(_place) => true,
    }
}

/// The better of the best and start h, which isn't passed over: where an earlier start is of its orbit, both are starts of the best.
fn next(
    alloc: Global,
    f: &Field,
    tri: &Tri,
    kept: &mut KeptFrames,
    h: u32,
    old: Tried,
    best: Best,
) -> Result<(Tried, Best), CanonFault>
    requires field { f.now ≡ tri.now.field }
    requires kept { AreKeptFrames f.now tri.now.halves kept.old }
    requires half { h < length tri.now.halves }
    requires best { IsBestOf f.now tri.now.halves h best }
    requires other { (entry best.orbits.links.items h ≡ h) ⊎ IsSerial f.now tri.now.halves h best.serial.items }
    ensures best { IfOk result (λ r. IsBestOf f.now tri.now.halves (h + 1) r.1) }
    ensures kept { OnOk result (AreKeptFrames f.now tri.now.halves kept.new) }
    ensures wide { IfErr result (λ fault. fault ≡ Wide → ¬ (FrameFits f.now tri.now.halves h)) }
{
    let _number = f.number();
    let _count = tri.triangles();
    if best.orbits.links[h as usize] == h {
        return compared(alloc, f, tri, kept, h, old, best);
    }
    let best = with_start(best, h)?;
    Ok((old, best))
}

/// The least serial over all starts, with its starts. The lists of the best start and of the one that is tried are kept.
pub fn best_of(alloc: Global, f: &Field, tri: &Tri) -> Result<Best, CanonFault>
    requires { f.now ≡ tri.now.field }
    ensures code { IfOk result (λ b. IsCode f.now tri.now.halves b.serial.items) }
    ensures starts { IfOk result (λ b. AreStarts f.now tri.now.halves b.serial.items b.starts.items) }
    ensures thirds { IfOk result (λ b. ThirdVectorsFit f.now b.serial.items) }
    ensures wide { IfErr result (λ fault. fault ≡ Wide → HasWideFrame f.now tri.now.halves) }
{
    let _number = f.number();
    let count = 3 * tri.triangles();
    let distinct = distinct_of(alloc, tri)?;
    let (empty, serial) = room(alloc, count)?;
    let mut tried = match tried_at(f, tri, &distinct, 0, empty) {
        Ok(tried) => tried,
        Err(fault) => return Err(fault),
    };
    let starts = Vec::with_capacity(alloc, count as usize)?;
    let orbits = Orbits::alone(alloc, count)?;
    let none = Best {
        serial,
        starts,
        orbits,
    };
    let mut best = only(f, tri, &tried, 0, none)?;
    let mut kept = KeptFrames::none(alloc, distinct);
    for h in 1..count {
        if is_passed(f, tri, &best, h) {
            continue;
        }
        (tried, best) = match next(alloc, f, tri, &mut kept, h, tried, best) {
            Ok(both) => both,
            Err(fault) => return Err(fault),
        };
    }
    Ok(best)
}

/// The code of a triangulation, the frame of its first start, and all its starts.
#[derive(Drop)]
pub struct Canon {
    pub code: Code,
    pub frame: Mat2,
    pub start: u32,
    pub starts: Vec<u32>,
}

/// The frame of start h over a scale.
fn frame_at(tri: &Tri, h: u32, scale: i128) -> Mat2
    requires half { h < length tri.now.halves }
    requires positive { pos 0 <ℤ scale }
    ensures { IsReducedTo (frame tri.now.halves h) scale result }
{
    let _count = tri.triangles();
    let e = tri.half(h).vec;
    let g = tri.half(Tri::next(h)).vec;
    Mat2::reduced([e.s, g.s, e.t, g.t], scale)
}

/// The frame of a start of the least serial: it takes the canonical triangulation to `tri`, half-edge 0 to the start.
pub fn frame_of(f: &Field, tri: &Tri, code: &Code, start: u32) -> Mat2
    requires field { f.now ≡ tri.now.field }
    requires start { IsStart f.now tri.now.halves code.now start }
    ensures frame { CarriesFrame f.now result.rows result.denominator (canonical f.now code.now) 0 tri.now.halves start }
    ensures lowest { IsInLowestTerms result }
{
    let _number = f.number();
    let _count = tri.triangles();
    let numbers = code.numbers();
    let scale = scale_number(numbers);
    let frame = frame_at(tri, start, scale);
    let _lowest = frame.denominator();
    frame
}

/// The code of a triangulation. `frame` takes the canonical triangulation to `tri`, half-edge 0 to `start`.
pub fn canon_of(alloc: Global, f: &Field, tri: &Tri) -> Result<Canon, CanonFault>
    requires { f.now ≡ tri.now.field }
    ensures code { IfOk result (λ c. IsCode f.now tri.now.halves c.code) }
    ensures starts { IfOk result (λ c. AreStarts f.now tri.now.halves c.code c.starts.items) }
    ensures start { IfOk result (λ c. slice_get c.starts.items 0 ≡ Some c.start) }
    ensures frame { IfOk result (λ c. CarriesFrame f.now c.frame.rows c.frame.denominator (canonical f.now c.code) 0 tri.now.halves c.start) }
    ensures image { IfOk result (λ c. IsImageBy f.now c.frame.rows c.frame.denominator (canonical f.now c.code) tri.now.halves) }
    ensures made { IfOk result (λ c. IsMade f.now c.code) }
    ensures wide { IfErr result (λ fault. fault ≡ Wide → HasWideFrame f.now tri.now.halves) }
{
    let _number = f.number();
    let _count = tri.triangles();
    let best = match best_of(alloc, f, tri) {
        Ok(best) => best,
        Err(fault) => return Err(fault),
    };
    let start = best.starts[0];
    let frame = frame_at(tri, start, best.serial[1]);
    Ok(Canon {
        code: Code::new(best.serial),
        frame,
        start,
        starts: best.starts,
    })
}
