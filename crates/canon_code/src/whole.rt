//! What is told of a start without all of its coordinates: that it is after the best, by its scale or by the first number that differs, or that it is
//! another start of the best.

ghost use Rattle.std.specs.Prelude.{◌≡◌, ℕ, pos, ◌+◌, ◌*◌, ◌/◌, ◌<◌, ◌<ℤ◌, ◌*ℤ◌, List, length, unsigned_abs, IsTrue, IfOk, IfErr, OnOk, IfSome, IfNone};
ghost use Prim.Native.Nat.{◌∣◌};
ghost use Rattle.quad_field.specs.Width.{FitsI128, PartsFit};
ghost use Rattle.quad_field.specs.Content.{DividesParts};
ghost use Rattle.plane.specs.Vectors.{vector};
ghost use Rattle.tri_core.specs.declared.half.Half.{Half};
ghost use Rattle.tri_core.specs.HalfEdges.{vector_at};
ghost use Rattle.tri_core.specs.Triangulation.{IsTriangulation};
ghost use Rattle.canon_code.specs.Canonical.{number_at};
ghost use Rattle.canon_code.specs.Numbered.{entry, IsListSearch, IsNumberedBy, IsUnderWay};
ghost use Rattle.canon_code.specs.declared.whole.Told.TheVariants.{Same};
ghost use Rattle.canon_code.specs.Small.{IsSmallFrame};
ghost use Rattle.canon_code.specs.Distinct.{AreInside, ArePairs, AreListed};
ghost use Rattle.canon_code.specs.KeptFrames.{AreKeptFrames};
ghost use Rattle.canon_code.specs.WholeFrames.{IsFrameOf, IsDivisorOf, IsScaledBy, IsWhole, IsNotWhole, IsWholeAt, IsWholeRow, HasNoWhole, IsTold};

use super::coordinates::{Frame, frame_of, push_pair, whole_number, whole_pair};
use super::distinct::listed_pair;
use super::kept_frames::KeptFrames;
use super::numbering::{Numbering, begin, look_around};
use super::same_rows::{same_row, twin_at};
use super::serial::{Tried, row_in, scale_number};
use super::small::{SmallFrame, quick_numbers, small_numbers, small_of, whole_both};
use plane::Vec2;
use quad_field::{Field, Quad, TooWide, content};
use std::alloc::{AllocError, Global};
use std::cmp::Ordering;
use tri_core::Tri;

/// What is told of a start.
#[derive(Clone, Copy)]
pub enum Told {
    /// It is after the best.
    After,
    /// It is another start of the best.
    Same,
    /// Nothing.
    Open,
}

/// A start whose scale isn't below the best one's: its frame, the norm over the best scale, and both in 64 bits where that fits.
#[derive(Clone, Copy)]
pub struct Scaled {
    pub h: u32,
    pub frame: Frame,
    pub divisor: i128,
    pub small: Option<SmallFrame>,
}

impl Scaled {
    /// The same for another start with the same two vectors.
    pub fn moved(self, h: u32) -> Scaled
        ensures h { result.h ≡ h }
        ensures frame { result.frame ≡ self.frame }
        ensures divisor { result.divisor ≡ self.divisor }
        ensures small { result.small ≡ self.small }
    {
        Scaled {
            h,
            frame: self.frame,
            divisor: self.divisor,
            small: self.small,
        }
    }
}

/// The frame of two vectors with a norm above zero, none where a step is wide.
fn positive_frame(f: &Field, tri: &Tri, h: u32) -> Option<Frame>
    requires field { f.now ≡ tri.now.field }
    requires half { h < length tri.now.halves }
    ensures frame { IfSome result (λ x. IsFrameOf f.now tri.now.halves h x) }
    ensures positive { IfSome result (λ x. pos 0 <ℤ x.norm) }
{
    let _count = tri.triangles();
    let e = tri.half(h).vec;
    let g = tri.half(Tri::next(h)).vec;
    let Ok(frame) = frame_of(f, &e, &g) else {
        return None;
    };
    if frame.norm > 0 {
        return Some(frame);
    }
    if frame.norm == 0 {
        return None;
    }
    turned(f, frame)
}

/// The frame with the conjugate and the norm negated, none where a step is wide.
fn turned(f: &Field, frame: Frame) -> Option<Frame>
    requires { frame.norm <ℤ pos 0 }
    ensures frame { IfSome result (λ x. (halves : List Half) (h : ℕ) → IsFrameOf f.now halves h frame → IsFrameOf f.now halves h x) }
    ensures positive { IfSome result (λ x. pos 0 <ℤ x.norm) }
{
    let norm = frame.norm.checked_neg()?;
    let Ok(conjugate) = f.neg(frame.conjugate) else {
        return None;
    };
    Some(Frame {
        e: frame.e,
        g: frame.g,
        conjugate,
        norm,
    })
}

/// n / g, where g divides n.
fn quotient(n: i128, g: i128) -> i128
    requires positive { pos 0 <ℤ g }
    requires divides { unsigned_abs g ∣ unsigned_abs n }
    ensures { n ≡ result *ℤ g }
{
    n / g
}

/// Whether g divides both parts.
fn divides(g: i128, x: Quad) -> bool
    requires { pos 0 <ℤ g }
    ensures { IsTrue result → DividesParts (unsigned_abs g) x }
{
    match whole_number(x, g) {
        Some(_multiple) => true,
        None => false,
    }
}

/// The greatest common divisor of g and the parts of two numbers.
fn common(g: i128, x: Quad, y: Quad) -> i128
    requires { pos 0 <ℤ g }
    ensures positive { pos 0 <ℤ result }
    ensures divides { unsigned_abs result ∣ unsigned_abs g }
    ensures within { (k n : ℕ) → k ∣ (n * unsigned_abs g) → k ∣ (n * unsigned_abs x.a) → k ∣ (n * unsigned_abs x.b) → k ∣ (n * unsigned_abs y.a) → k ∣ (n * unsigned_abs y.b)
        → k ∣ (n * unsigned_abs result) }
{
    if divides(g, x) && divides(g, y) {
        return g;
    }
    content(&[Quad { a: g, b: 0 }, x, y]) as i128
}

/// A divisor of the norm: all that the norm and the numbers of the first half-edges have in common, up to where the scale isn't below the best one.
fn divisor_of(f: &Field, tri: &Tri, h: u32, frame: &Frame, scale: i128) -> i128
    requires field { f.now ≡ tri.now.field }
    requires half { h < length tri.now.halves }
    requires frame { IsFrameOf f.now tri.now.halves h frame.now }
    requires positive { pos 0 <ℤ frame.now.norm }
    ensures { IsDivisorOf f.now tri.now.halves h frame.now.norm result }
{
    let _number = f.number();
    let count = 3 * tri.triangles();
    let small = small_of(f, frame, 1);
    let mut divisor = frame.norm;
    for k in 0..count {
        if quotient(frame.norm, divisor) >= scale {
            return divisor;
        }
        let Ok((x, y)) = quick_numbers(f, frame, small, &tri.half(k).vec) else {
            return divisor;
        };
        divisor = common(divisor, x, y);
    }
    divisor
}

/// The coordinates of a vector over the best scale, none where they aren't whole, by arithmetic of 64 bits where that fits.
fn pair_over(f: &Field, start: &Scaled, v: &Vec2) -> Result<Option<(Quad, Quad)>, TooWide>
    requires positive { pos 0 <ℤ start.now.divisor }
    requires small { IfSome start.now.small (IsSmallFrame f.now start.now.frame start.now.divisor) }
    ensures whole { IfOk result (λ o. IfSome o (λ w. IsWhole f.now start.now.frame start.now.divisor (vector v.now) (w.0, w.1))) }
    ensures none { IfOk result (λ o. IfNone o (IsNotWhole f.now start.now.frame start.now.divisor (vector v.now))) }
    ensures fits { IfOk result (λ o. IfSome o (λ w. PartsFit w.0 × PartsFit w.1)) }
{
    match start.small {
        Some(small) => match small_numbers(f.number(), &small, v) {
            Some((s, t)) => Ok(whole_both(s, t, small.divisor)),
            None => whole_pair(f, &start.frame, start.divisor, v),
        },
        None => whole_pair(f, &start.frame, start.divisor, v),
    }
}

/// The numbers over the best scale of the vectors of these half-edges, up to one that has none.
fn pairs_of(
    alloc: Global,
    f: &Field,
    tri: &Tri,
    start: &Scaled,
    firsts: &[u32],
) -> Result<Vec<Quad>, AllocError>
    requires positive { pos 0 <ℤ start.now.divisor }
    requires small { IfSome start.now.small (IsSmallFrame f.now start.now.frame start.now.divisor) }
    requires inside { AreInside tri.now.halves firsts.now }
    ensures { IfOk result (λ list. ArePairs f.now tri.now.halves start.now firsts.now list.items) }
{
    let mut list = Vec::with_capacity(alloc, 2 * firsts.len())?;
    for i in 0..firsts.len() {
        let first = firsts[i];
        match pair_over(f, start, &tri.half(first).vec) {
            Ok(Some((x, y))) => push_pair(&mut list, (x, y))?,
            Ok(None) => return Ok(list),
            Err(TooWide) => return Ok(list),
        }
    }
    Ok(list)
}

/// The coordinates of a half-edge over the best scale, none where they aren't whole: those that are listed, where they are.
#[inline]
fn pair_of(
    f: &Field,
    tri: &Tri,
    start: &Scaled,
    places: &[u32],
    list: &[Quad],
    half: u32,
) -> Result<Option<(Quad, Quad)>, TooWide>
    requires positive { pos 0 <ℤ start.now.divisor }
    requires small { IfSome start.now.small (IsSmallFrame f.now start.now.frame start.now.divisor) }
    requires listed { AreListed f.now tri.now.halves start.now places.now list.now }
    requires half { half < length tri.now.halves }
    ensures whole { IfOk result (λ o. IfSome o (λ w. IsWhole f.now start.now.frame start.now.divisor (vector_at tri.now.halves half) (w.0, w.1))) }
    ensures none { IfOk result (λ o. IfNone o (IsNotWhole f.now start.now.frame start.now.divisor (vector_at tri.now.halves half))) }
    ensures fits { IfOk result (λ o. IfSome o (λ w. PartsFit w.0 × PartsFit w.1)) }
{
    match listed_pair(places, list, half) {
        Some((x, y)) => Ok(Some((x, y))),
        None => pair_over(f, start, &tri.half(half).vec),
    }
}

/// The coordinates of the half-edge of new number k over the best scale, none where they aren't whole.
fn whole_at(
    f: &Field,
    tri: &Tri,
    start: &Scaled,
    places: &[u32],
    list: &[Quad],
    numbering: &Numbering,
    k: u32,
) -> Result<Option<(Quad, Quad)>, TooWide>
    requires positive { pos 0 <ℤ start.now.divisor }
    requires small { IfSome start.now.small (IsSmallFrame f.now start.now.frame start.now.divisor) }
    requires listed { AreListed f.now tri.now.halves start.now places.now list.now }
    requires numbering { (looked : ℕ) × IsListSearch tri.now.halves numbering.now.places.items numbering.now.numbers.items looked }
    requires half { k < length numbering.now.places.items }
    ensures whole { IfOk result (λ o. IfSome o (λ w. IsWholeAt f.now tri.now.halves start.now (entry numbering.now.places.items) k (w.0, w.1))) }
    ensures none { IfOk result (λ o. IfNone o (HasNoWhole f.now tri.now.halves start.now)) }
    ensures fits { IfOk result (λ o. IfSome o (λ w. PartsFit w.0 × PartsFit w.1)) }
{
    pair_of(f, tri, start, places, list, numbering.places[k as usize])
}

/// The coordinates of the first two half-edges of triangle t, of the new numbers, over the best scale, none where they aren't whole.
fn both_at(
    f: &Field,
    tri: &Tri,
    start: &Scaled,
    places: &[u32],
    list: &[Quad],
    numbering: &Numbering,
    t: u32,
) -> Result<Option<(Quad, Quad, Quad, Quad)>, TooWide>
    requires positive { pos 0 <ℤ start.now.divisor }
    requires small { IfSome start.now.small (IsSmallFrame f.now start.now.frame start.now.divisor) }
    requires listed { AreListed f.now tri.now.halves start.now places.now list.now }
    requires numbering { (looked : ℕ) × IsListSearch tri.now.halves numbering.now.places.items numbering.now.numbers.items looked }
    requires triangle { 3 * t + 2 < length tri.now.halves }
    requires reached { 3 * t + 2 < length numbering.now.places.items }
    ensures first { IfOk result (λ o. IfSome o (λ w. IsWholeAt f.now tri.now.halves start.now (entry numbering.now.places.items) (3 * t) (w.0, w.1))) }
    ensures second { IfOk result (λ o. IfSome o (λ w. IsWholeAt f.now tri.now.halves start.now (entry numbering.now.places.items) (3 * t + 1) (w.2, w.3))) }
    ensures none { IfOk result (λ o. IfNone o (HasNoWhole f.now tri.now.halves start.now)) }
    ensures fits { IfOk result (λ o. IfSome o (λ w. PartsFit w.0 × PartsFit w.1 × PartsFit w.2 × PartsFit w.3)) }
{
    let _count = tri.triangles();
    match whole_at(f, tri, start, places, list, numbering, 3 * t)? {
        Some((x, y)) => match whole_at(f, tri, start, places, list, numbering, 3 * t + 1)? {
            Some((z, w)) => Ok(Some((x, y, z, w))),
            None => Ok(None),
        },
        None => Ok(None),
    }
}

/// The numbers of triangle t over the best scale, none where its vectors aren't whole.
fn whole_row(
    f: &Field,
    tri: &Tri,
    start: &Scaled,
    places: &[u32],
    list: &[Quad],
    numbering: &Numbering,
    t: u32,
) -> Result<Option<[i128; 11]>, TooWide>
    requires valid { IsTriangulation tri.now.field tri.now.halves }
    requires positive { pos 0 <ℤ start.now.divisor }
    requires small { IfSome start.now.small (IsSmallFrame f.now start.now.frame start.now.divisor) }
    requires listed { AreListed f.now tri.now.halves start.now places.now list.now }
    requires numbering { (looked : ℕ) × IsListSearch tri.now.halves numbering.now.places.items numbering.now.numbers.items looked }
    requires triangle { 3 * t + 2 < length tri.now.halves }
    requires reached { 3 * t + 2 < length numbering.now.places.items }
    ensures whole { IfOk result (λ o. IfSome o (IsWholeRow f.now tri.now.halves start.now (entry numbering.now.places.items) (entry numbering.now.numbers.items) t)) }
    ensures none { IfOk result (λ o. IfNone o (HasNoWhole f.now tri.now.halves start.now)) }
{
    match both_at(f, tri, start, places, list, numbering, t)? {
        Some((x, y, z, w)) => {
            let one = twin_at(tri, numbering, 3 * t);
            let two = twin_at(tri, numbering, 3 * t + 1);
            let three = twin_at(tri, numbering, 3 * t + 2);
            Ok(Some([x.a, x.b, y.a, y.b, z.a, z.b, w.a, w.b, one, two, three]))
        }
        None => Ok(None),
    }
}

/// Whether a half-edge has coordinates that aren't whole over the best scale. Where that isn't told the answer is no.
fn is_broken(f: &Field, tri: &Tri, start: &Scaled, places: &[u32], list: &[Quad]) -> bool
    requires positive { pos 0 <ℤ start.now.divisor }
    requires small { IfSome start.now.small (IsSmallFrame f.now start.now.frame start.now.divisor) }
    requires listed { AreListed f.now tri.now.halves start.now places.now list.now }
    ensures { IsTrue result → HasNoWhole f.now tri.now.halves start.now }
{
    if start.divisor == 1 {
        return false;
    }
    let count = 3 * tri.triangles();
    for k in 0..count {
        match pair_of(f, tri, start, places, list, k) {
            Ok(Some(_whole)) => {}
            Ok(None) => return true,
            Err(TooWide) => return false,
        }
    }
    false
}

/// How a start compares with the best, told by the first triangle that differs: the numbering goes on only as far as the triangles that are compared.
fn compared(
    best: &[i128],
    f: &Field,
    tri: &Tri,
    start: &Scaled,
    places: &[u32],
    list: &[Quad],
    numbering: &mut Numbering,
) -> Result<Told, AllocError>
    requires field { f.now ≡ tri.now.field }
    requires start { IsScaledBy f.now tri.now.halves (number_at best.now 1) start.now }
    requires small { IfSome start.now.small (IsSmallFrame f.now start.now.frame start.now.divisor) }
    requires listed { AreListed f.now tri.now.halves start.now places.now list.now }
    requires numbering { IsUnderWay tri.now.halves start.now.h numbering.old.places.items numbering.old.numbers.items 0 }
    requires long { length best.now ≡ 2 + 11 * (length tri.now.halves / 3) }
    requires first { number_at best.now 0 ≡ pos (length tri.now.halves / 3) }
    ensures told { IfOk result (IsTold f.now tri.now.halves start.now.h best.now) }
    ensures numbered { IfOk result (λ told. told ≡ Same → IsNumberedBy tri.now.halves start.now.h numbering.new.places.items numbering.new.numbers.items) }
{
    let _number = f.number();
    let count = tri.triangles();
    for t in 0..count {
        let twins = look_around(tri, numbering, t)?;
        let own = row_in(best, t);
        if same_row(tri, places, list, numbering, twins, own, t) {
            continue;
        }
        match whole_row(f, tri, start, places, list, numbering, t) {
            Ok(Some(row)) => match row.as_slice().cmp(own) {
                Ordering::Less => {
                    if is_broken(f, tri, start, places, list) {
                        return Ok(Told::After);
                    }
                    return Ok(Told::Open);
                }
                Ordering::Equal => {}
                Ordering::Greater => return Ok(Told::After),
            },
            Ok(None) => return Ok(Told::After),
            Err(TooWide) => return Ok(Told::Open),
        }
    }
    Ok(Told::Same)
}

/// What is told of a start whose scale may be the best one, in the lists of an earlier one.
fn told_at(
    f: &Field,
    tri: &Tri,
    places: &[u32],
    start: &Scaled,
    list: &[Quad],
    old: Tried,
    best: &[i128],
) -> Result<(Tried, Told), AllocError>
    requires field { f.now ≡ tri.now.field }
    requires start { IsScaledBy f.now tri.now.halves (number_at best.now 1) start.now }
    requires small { IfSome start.now.small (IsSmallFrame f.now start.now.frame start.now.divisor) }
    requires listed { AreListed f.now tri.now.halves start.now places.now list.now }
    requires long { length best.now ≡ 2 + 11 * (length tri.now.halves / 3) }
    requires first { number_at best.now 0 ≡ pos (length tri.now.halves / 3) }
    ensures told { IfOk result (λ r. IsTold f.now tri.now.halves start.now.h best.now r.1) }
    ensures numbered { IfOk result (λ r. r.1 ≡ Same → IsNumberedBy tri.now.halves start.now.h r.0.numbering.places.items r.0.numbering.numbers.items) }
{
    let mut numbering = begin(tri, start.h, old.numbering)?;
    let told = compared(best, f, tri, start, places, list, &mut numbering)?;
    let tried = Tried {
        numbering,
        coordinates: old.coordinates,
    };
    Ok((tried, told))
}

/// Start h where its scale may be the best one, and else what is told of it.
fn scaled_of(f: &Field, tri: &Tri, h: u32, best: &[i128]) -> Result<Scaled, Told>
    requires field { f.now ≡ tri.now.field }
    requires half { h < length tri.now.halves }
    requires long { length best.now ≡ 2 + 11 * (length tri.now.halves / 3) }
    requires first { number_at best.now 0 ≡ pos (length tri.now.halves / 3) }
    requires scale { pos 0 <ℤ number_at best.now 1 }
    ensures start { IfOk result (λ start. start.h ≡ h) }
    ensures scaled { IfOk result (IsScaledBy f.now tri.now.halves (number_at best.now 1)) }
    ensures small { IfOk result (λ start. IfSome start.small (IsSmallFrame f.now start.frame start.divisor)) }
    ensures told { IfErr result (IsTold f.now tri.now.halves h best.now) }
    ensures other { IfErr result (λ told. ¬ (told ≡ Same)) }
{
    let _count = tri.triangles();
    let Some(frame) = positive_frame(f, tri, h) else {
        return Err(Told::Open);
    };
    let scale = scale_number(best);
    let divisor = divisor_of(f, tri, h, &frame, scale);
    match quotient(frame.norm, divisor).cmp(&scale) {
        Ordering::Less => Err(Told::Open),
        Ordering::Greater => Err(Told::After),
        Ordering::Equal => {
            let small = small_of(f, &frame, divisor);
            Ok(Scaled {
                h,
                frame,
                divisor,
                small,
            })
        }
    }
}

/// What is told of start h, whose frame is kept where its scale may be the best one.
fn told_first(
    alloc: Global,
    f: &Field,
    tri: &Tri,
    kept: &mut KeptFrames,
    h: u32,
    old: Tried,
    best: &[i128],
) -> Result<(Tried, Told), AllocError>
    requires field { f.now ≡ tri.now.field }
    requires kept { AreKeptFrames f.now tri.now.halves kept.old }
    requires over { kept.old.scale ≡ number_at best.now 1 }
    requires half { h < length tri.now.halves }
    requires long { length best.now ≡ 2 + 11 * (length tri.now.halves / 3) }
    requires first { number_at best.now 0 ≡ pos (length tri.now.halves / 3) }
    requires scale { pos 0 <ℤ number_at best.now 1 }
    ensures told { IfOk result (λ r. IsTold f.now tri.now.halves h best.now r.1) }
    ensures numbered { IfOk result (λ r. r.1 ≡ Same → IsNumberedBy tri.now.halves h r.0.numbering.places.items r.0.numbering.numbers.items) }
    ensures kept { OnOk result (AreKeptFrames f.now tri.now.halves kept.new) }
{
    match scaled_of(f, tri, h, best) {
        Ok(start) => {
            let list = pairs_of(alloc, f, tri, &start, kept.distinct.firsts.as_slice())?;
            let places = kept.distinct.places.as_slice();
            let both = told_at(f, tri, places, &start, list.as_slice(), old, best)?;
            kept.keep(start, list)?;
            Ok(both)
        }
        Err(told) => Ok((old, told)),
    }
}

/// What is told of start h, in the lists of an earlier one where its scale may be the best one.
pub fn told_of(
    alloc: Global,
    f: &Field,
    tri: &Tri,
    kept: &mut KeptFrames,
    h: u32,
    old: Tried,
    best: &[i128],
) -> Result<(Tried, Told), AllocError>
    requires field { f.now ≡ tri.now.field }
    requires kept { AreKeptFrames f.now tri.now.halves kept.old }
    requires half { h < length tri.now.halves }
    requires long { length best.now ≡ 2 + 11 * (length tri.now.halves / 3) }
    requires first { number_at best.now 0 ≡ pos (length tri.now.halves / 3) }
    requires scale { pos 0 <ℤ number_at best.now 1 }
    ensures told { IfOk result (λ r. IsTold f.now tri.now.halves h best.now r.1) }
    ensures numbered { IfOk result (λ r. r.1 ≡ Same → IsNumberedBy tri.now.halves h r.0.numbering.places.items r.0.numbering.numbers.items) }
    ensures kept { OnOk result (AreKeptFrames f.now tri.now.halves kept.new) }
{
    let _count = tri.triangles();
    kept.rescale(scale_number(best));
    match kept.place_of(tri, h) {
        Some(place) => {
            let frame = &kept.frames[place];
            let start = frame.start.moved(h);
            let places = kept.distinct.places.as_slice();
            let both = told_at(f, tri, places, &start, frame.list.as_slice(), old, best)?;
            Ok(both)
        }
        None => told_first(alloc, f, tri, kept, h, old, best),
    }
}
