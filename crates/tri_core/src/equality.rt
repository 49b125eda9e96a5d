//! Whether one triangulation is the image of another.

ghost use Rattle.std.specs.Prelude.{◌≡◌, ◌↔◌, ℕ, pos, ◌<◌, ◌≤◌, ◌%◌, length, slice_index, IsTrue, IfOk, IfErr};
ghost use Rattle.tri_core.specs.declared.equality.EqualFault.TheVariants.{Wide, Memory};
ghost use Rattle.tri_core.specs.HalfEdges.{vector_at, twin_at, triangle_of, next_of, previous_of};
ghost use Rattle.tri_core.specs.Images.{IsImageBy, AreTranslationEqual};
ghost use Rattle.tri_core.specs.Mapped.{ImagesFit, MultiplesFit};
ghost use Rattle.tri_core.specs.Walks.{AreGlued, IsWalk, Carries, CarriesAt, AreSameTriangle, IsPlaced, AreInside, AgreeBefore, equal_fault};

use super::image::{ImageFault, mapped_halves, multiplied_halves};
use super::walk::walk_over;
use super::{Half, Tri};
use plane::Mat2;
use quad_field::Field;
use std::alloc::{AllocError, Global};

/// Why two triangulations can't be compared.
#[derive(Clone, Copy, Debug, PartialEq, Eq)]
pub enum EqualFault {
    /// The image of a vector by the rows of the matrix, or a vector times its denominator, has a step outside i128.
    Wide,
    /// Memory ran out.
    Memory,
}

impl From<ImageFault> for EqualFault {
    ghost from_gives = { λ fault e. e ≡ equal_fault fault };

    fn from(fault: ImageFault) -> EqualFault {
        match fault {
            ImageFault::Wide => EqualFault::Wide,
            ImageFault::Memory => EqualFault::Memory,
        }
    }
}

impl From<AllocError> for EqualFault {
    ghost from_gives = { λ _ e. e ≡ Memory };

    fn from(_full: AllocError) -> EqualFault {
        EqualFault::Memory
    }
}

/// Whether half-edge g has the vector of half-edge h.
fn same_vector(one: &[Half], two: &[Half], h: u32, g: u32) -> bool
    requires first { h < length one.now }
    requires second { g < length two.now }
    ensures { IsTrue result ↔ (vector_at two.now g ≡ vector_at one.now h) }
{
    two[g as usize].vec == one[h as usize].vec
}

/// Whether the vectors of the triangle of g, from g on, are those of the triangle of h, from h on.
fn same_triangle(one: &[Half], two: &[Half], h: u32, g: u32) -> bool
    requires first { (h < length one.now) × (length one.now ≤ 768) × (length one.now % 3 ≡ 0) }
    requires second { (g < length two.now) × (length two.now ≤ 768) × (length two.now % 3 ≡ 0) }
    ensures { IsTrue result ↔ AreSameTriangle one.now two.now h g }
{
    let (k, m) = (Tri::next(h), Tri::next(g));
    same_vector(one, two, h, g)
        && same_vector(one, two, k, m)
        && same_vector(one, two, Tri::next(k), Tri::next(m))
}

/// Lets h go to g, and the half-edges behind h to those behind g.
fn place(images: &mut [u32], h: u32, g: u32)
    requires first { (h < length images.old) × (length images.old ≤ 768) × (length images.old % 3 ≡ 0) }
    requires second { g < 768 }
    ensures { IsPlaced images.old h g images.new }
{
    let (k, m) = (Tri::next(h), Tri::next(g));
    images[h as usize] = g;
    images[k as usize] = m;
    images[Tri::next(k) as usize] = Tri::next(m);
}

/// Where the walk's half-edge at place i goes, as the half-edges of the triangles before have their images.
fn image_at(walk: &[u32], one: &[Half], two: &[Half], start: u32, images: &[u32], i: usize) -> u32
    requires walk { IsWalk one.now walk.now }
    requires one { AreGlued one.now }
    requires two { AreGlued two.now }
    requires start { start < length two.now }
    requires images { length images.now ≡ length one.now }
    requires inside { AreInside images.now two.now }
    requires place { i < length walk.now }
    ensures inside { result < length two.now }
    ensures carried { (forth : ℕ → ℕ) → Carries one.now two.now forth → forth 0 ≡ start → AgreeBefore one.now walk.now i forth images.now
        → result ≡ forth (slice_index walk.now i) }
{
    if i == 0 {
        return start;
    }
    let across = one[walk[i] as usize].twin;
    two[images[across as usize] as usize].twin
}

/// Carries the half-edges of one list along a walk to those of another, from half-edge 0 to `start`.
/// False at the first vector that differs. Otherwise `images` has the image of each half-edge, if there are such.
fn carry(walk: &[u32], one: &[Half], two: &[Half], start: u32, images: &mut [u32]) -> bool
    requires walk { IsWalk one.now walk.now }
    requires one { AreGlued one.now }
    requires two { AreGlued two.now }
    requires start { start < length two.now }
    requires images { length images.old ≡ length one.now }
    requires inside { AreInside images.old two.now }
    ensures inside { AreInside images.new two.now }
    ensures carried { (forth : ℕ → ℕ) → Carries one.now two.now forth → forth 0 ≡ start
        → IsTrue result × ((k : ℕ) → k < length one.now → slice_index images.new k ≡ forth k) }
{
    for i in 0..walk.len() {
        let h = walk[i];
        let g = image_at(walk, one, two, start, images, i);
        if !same_triangle(one, two, h, g) {
            return false;
        }
        place(images, h, g);
    }
    true
}

/// Whether the image of half-edge k has its vector, the image of its twin as twin, and that of the next as next.
fn keeps_at(one: &[Half], two: &[Half], images: &[u32], k: u32) -> bool
    requires one { AreGlued one.now }
    requires two { AreGlued two.now }
    requires images { length images.now ≡ length one.now }
    requires inside { AreInside images.now two.now }
    requires half { k < length one.now }
    ensures { IsTrue result ↔ CarriesAt one.now two.now (slice_index images.now) k }
{
    let half = &one[k as usize];
    let image = images[k as usize];
    let other = &two[image as usize];
    other.vec == half.vec
        && images[half.twin as usize] == other.twin
        && images[Tri::next(k) as usize] == Tri::next(image)
}

/// Whether the images keep every next, twin and vector.
fn keeps(one: &[Half], two: &[Half], images: &[u32]) -> bool
    requires one { AreGlued one.now }
    requires two { AreGlued two.now }
    requires images { length images.now ≡ length one.now }
    requires inside { AreInside images.now two.now }
    ensures { IsTrue result ↔ Carries one.now two.now (slice_index images.now) }
{
    for k in 0..one.len() {
        if !keeps_at(one, two, images, k as u32) {
            return false;
        }
    }
    true
}

/// Whether the half-edges of one list are carried to those of another with half-edge 0 going to `start`.
fn carries_from(walk: &[u32], one: &[Half], two: &[Half], start: u32, images: &mut [u32]) -> bool
    requires walk { IsWalk one.now walk.now }
    requires one { AreGlued one.now }
    requires two { AreGlued two.now }
    requires start { start < length two.now }
    requires images { length images.old ≡ length one.now }
    requires inside { AreInside images.old two.now }
    ensures inside { AreInside images.new two.now }
    ensures sound { IsTrue result → (forth : ℕ → ℕ) × Carries one.now two.now forth }
    ensures complete { (forth : ℕ → ℕ) → Carries one.now two.now forth → forth 0 ≡ start → IsTrue result }
{
    carry(walk, one, two, start, images) && keeps(one, two, images)
}

/// Whether the half-edges of one list are carried to those of another. Half-edge 0 is tried against each.
fn are_carried(alloc: Global, one: &[Half], two: &[Half]) -> Result<bool, AllocError>
    requires one { AreGlued one.now }
    requires two { AreGlued two.now }
    ensures { IfOk result (λ b. IsTrue b ↔ ((forth : ℕ → ℕ) × Carries one.now two.now forth)) }
{
    let walk = walk_over(alloc, one)?;
    let mut places = vec![in alloc; 0; one.len()]?;
    let images = places.as_mut_slice();
    for start in 0..two.len() {
        if carries_from(walk.as_slice(), one, two, start as u32, images) {
            return Ok(true);
        }
    }
    Ok(false)
}

/// Whether `to` is the image of `from` by a matrix: some bijection of half-edges keeps next and twin and takes each vector to its image.
/// `EqualFault::Wide` only where the image of a vector of `from` by the rows, or a vector of `to` times the denominator, has a step outside i128.
pub fn equal_by(
    alloc: Global,
    f: &Field,
    m: &Mat2,
    from: &Tri,
    to: &Tri,
) -> Result<bool, EqualFault>
    requires from { f.now ≡ from.now.field }
    requires to { f.now ≡ to.now.field }
    ensures exact { IfOk result (λ b. IsTrue b ↔ IsImageBy f.now m.now.rows m.now.denominator from.now.halves to.now.halves) }
    ensures wide { IfErr result (λ fault. fault ≡ Wide
        → ¬ (ImagesFit f.now m.now.rows from.now.halves × MultiplesFit f.now (pos m.now.denominator) to.now.halves)) }
{
    if from.triangles() != to.triangles() {
        return Ok(false);
    }
    let one = mapped_halves(alloc, f, m.entries(), from.halves())?;
    let two = multiplied_halves(alloc, f, m.denominator(), to.halves())?;
    Ok(are_carried(alloc, one.as_slice(), two.as_slice())?)
}

/// Whether two triangulations are translation-equal: some bijection of half-edges keeps next, twin and every vector.
pub fn are_translation_equal(alloc: Global, from: &Tri, to: &Tri) -> Result<bool, AllocError>
    requires { from.now.field ≡ to.now.field }
    ensures { IfOk result (λ b. IsTrue b ↔ AreTranslationEqual from.now.field from.now.halves to.now.halves) }
{
    if from.triangles() != to.triangles() {
        return Ok(false);
    }
    are_carried(alloc, from.halves(), to.halves())
}
