//! Walks about the vertices of a triangulation.

ghost use Rattle.std.specs.Prelude.{◌≡◌, ℕ, ◌+◌, ◌<◌, ◌≤◌, ◌⊎◌, false, not, ◌&&◌, cond, length, get_or, IfOk, OnOk};
ghost use Rattle.quad_field.specs.FieldNumber.{IsFieldNumber};
ghost use Rattle.tri_core.specs.Triangulation.{IsTriangulation};
ghost use Rattle.cone_points.specs.Vertices.{turned, StartsWith};
ghost use Rattle.tri_core.specs.HalfEdges.{previous_of};
ghost use Rattle.cone_points.specs.Angles.{sum_of};
ghost use Rattle.cone_points.specs.Walks.{TellsUpper, rises_by, number_below, IsMarked, risen, IsTurnedOn, AreTurnsBelow, IsRound};

use std::alloc::{AllocError, Global};
use tri_core::Tri;

/// The half-edge before h in its triangle.
fn previous(h: u32) -> u32
    requires { h < 768 }
    ensures { result ≡ previous_of h }
{
    if h % 3 == 0 { h + 2 } else { h - 1 }
}

/// The next half-edge counterclockwise about the starting point of h.
fn turn(tri: &Tri, h: u32) -> u32
    requires valid { IsTriangulation tri.now.field tri.now.halves }
    requires place { h < length tri.now.halves }
    ensures turned { result ≡ turned tri.now.halves h }
    ensures place { result < length tri.now.halves }
{
    tri.half(previous(h)).twin
}

/// One where a half-edge before `next` rises, and zero elsewhere.
fn rise(uppers: &[bool], place: u32, next: u32) -> u32
    requires place { place < length uppers.now }
    requires next { next < length uppers.now }
    ensures { result ≡ cond (not (get_or uppers.now place false) && get_or uppers.now next false) 1 0 }
{
    if !uppers[place as usize] && uppers[next as usize] {
        1
    } else {
        0
    }
}

/// Marks the half-edges that start where h starts, and counts those that rise. With each marked one the whole round was marked before.
fn walk(tri: &Tri, uppers: &[bool], marks: &mut [bool], h: u32) -> u32
    requires valid { IsTriangulation tri.now.field tri.now.halves }
    requires uppers { length uppers.now ≡ length tri.now.halves }
    requires marks { length marks.old ≡ length tri.now.halves }
    requires place { h < length tri.now.halves }
    requires turned_on { IsTurnedOn tri.now.halves marks.old }
    ensures count { risen tri.now.halves uppers.now marks.new ≡ risen tri.now.halves uppers.now marks.old + result }
    ensures kept { (k : ℕ) → IsMarked marks.old k → IsMarked marks.new k }
    ensures more { (k : ℕ) → IsMarked marks.new k → IsMarked marks.old k ⊎ StartsWith tri.now.halves h k }
    ensures turned_on { IsTurnedOn tri.now.halves marks.new }
    ensures start { IsMarked marks.new h }
{
    let mut place = h;
    let mut rises = 0;
    while !marks[place as usize] {
        marks[place as usize] = true;
        let next = turn(tri, place);
        rises += rise(uppers, place, next);
        place = next;
    }
    rises
}

/// Goes round h if it is a vertex, and appends its turns.
fn visit(
    tri: &Tri,
    uppers: &[bool],
    marks: &mut [bool],
    turns: &mut Vec<u32>,
    h: u32,
) -> Result<(), AllocError>
    requires valid { IsTriangulation tri.now.field tri.now.halves }
    requires number { IsFieldNumber tri.now.field }
    requires tells { TellsUpper tri.now.field tri.now.halves uppers.now }
    requires place { h < length tri.now.halves }
    requires round { IsRound tri.now.field tri.now.halves uppers.now h marks.old turns.old.items }
    ensures round { OnOk result (IsRound tri.now.field tri.now.halves uppers.now (h + 1) marks.new turns.new.items) }
{
    if marks[h as usize] {
        return Ok(());
    }
    let rises = walk(tri, uppers, marks, h);
    turns.push(rises)?;
    Ok(())
}

/// The turns of each vertex, in the order of their names.
pub fn all_turns(alloc: Global, tri: &Tri, uppers: &[bool]) -> Result<Vec<u32>, AllocError>
    requires valid { IsTriangulation tri.now.field tri.now.halves }
    requires number { IsFieldNumber tri.now.field }
    requires tells { TellsUpper tri.now.field tri.now.halves uppers.now }
    ensures turns { IfOk result (λ turns. AreTurnsBelow tri.now.field tri.now.halves (length tri.now.halves) turns.items) }
    ensures sum { IfOk result (λ turns. sum_of turns.items ≡ number_below (rises_by tri.now.halves uppers.now) (length tri.now.halves)) }
    ensures positive { IfOk result (λ turns. length turns.items ≤ sum_of turns.items) }
{
    let count = uppers.len();
    let mut marks = vec![in alloc; false; count]?;
    let mut turns = Vec::new(alloc);
    for h in 0..count as u32 {
        visit(tri, uppers, marks.as_mut_slice(), &mut turns, h)?;
    }
    Ok(turns)
}
