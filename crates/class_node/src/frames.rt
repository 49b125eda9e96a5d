//! Codes and frames of triangulations.

ghost use Rattle.std.specs.Prelude.{◌≡◌, ℕ, ◌<◌, List, length, get_or, IfOk, IfErr, None};
ghost use Rattle.tri_core.specs.Images.{IsImageBy};
ghost use Rattle.quad_field.specs.declared.formula.Formula.TheVariants.{F1};
ghost use Rattle.canon_code.specs.Codes.{IsCode, AreStarts};
ghost use Rattle.canon_code.specs.Canonical.{canonical, ThirdVectorsFit};
ghost use Rattle.canon_code.specs.FrameWidth.{HasWideFrame};
ghost use Rattle.terrain.specs.Stops.{IfFault};
ghost use Rattle.class_node.specs.Classes.{IsClassOver};
ghost use Rattle.class_node.specs.Leads.{IsFrame, AreFrames};

use super::ClassFault;
use canon_code::{Canon, CanonFault, Code, canon_of, frame_of, tri_of};
use plane::Mat2;
use quad_field::{Field, Formula};
use std::alloc::{AllocError, Global};
use terrain::Stop;
use tri_core::Tri;

/// The code of a triangulation with its starts. A fault names the frame formula, and the wall behind which the triangulation lies.
pub(crate) fn canon_behind(
    alloc: Global,
    f: &Field,
    tri: &Tri,
    wall: Option<u32>,
) -> Result<Canon, Stop<ClassFault>>
    requires field { f.now ≡ tri.now.field }
    ensures code { IfOk result (λ c. IsCode f.now tri.now.halves c.code) }
    ensures starts { IfOk result (λ c. AreStarts f.now tri.now.halves c.code c.starts.items) }
    ensures own { IfOk result (λ c. ∥ IsClassOver f.now c.code ∥₁) }
    ensures fits { IfOk result (λ c. ThirdVectorsFit f.now c.code) }
    ensures frame { IfOk result (λ c. IsFrame f.now tri.now.halves c.code c.frame) }
    ensures image { IfOk result (λ c. IsImageBy f.now c.frame.rows c.frame.denominator (canonical f.now c.code) tri.now.halves) }
    ensures fault { IfErr result (λ stop. IfFault stop (λ fault. (fault ≡ record { formula = F1; wall = wall }) × HasWideFrame f.now tri.now.halves)) }
{
    let _number = f.number();
    match canon_of(alloc, f, tri) {
        Ok(canon) => {
            let _lowest = canon.frame.denominator();
            Ok(canon)
        }
        Err(CanonFault::Wide) => Err(Stop::Fault(ClassFault {
            formula: Formula::F1,
            wall,
        })),
        Err(CanonFault::Memory) => Err(Stop::Memory),
    }
}

/// All starts of a triangulation with this code. A fault names the frame formula and no wall.
fn starts_of(alloc: Global, f: &Field, tri: &Tri, code: &Code) -> Result<Vec<u32>, Stop<ClassFault>>
    requires field { f.now ≡ tri.now.field }
    requires code { ∥ IsCode f.now tri.now.halves code.now ∥₁ }
    ensures starts { IfOk result (λ starts. AreStarts f.now tri.now.halves code.now starts.items) }
    ensures fault { IfErr result (λ stop. IfFault stop (λ fault. (fault ≡ record { formula = F1; wall = None }) × HasWideFrame f.now tri.now.halves)) }
{
    match canon_behind(alloc, f, tri, None) {
        Ok(canon) => Ok(canon.starts),
        Err(stop) => Err(stop),
    }
}

/// The frames of all starts of a triangulation, in their order.
fn frames_at(
    alloc: Global,
    f: &Field,
    tri: &Tri,
    code: &Code,
    starts: &[u32],
) -> Result<Vec<Mat2>, AllocError>
    requires field { f.now ≡ tri.now.field }
    requires starts { AreStarts f.now tri.now.halves code.now starts.now }
    ensures frames { IfOk result (λ frames. AreFrames f.now tri.now.halves code.now frames.items) }
{
    let mut frames = Vec::with_capacity(alloc, starts.len())?;
    for i in 0..starts.len() {
        frames.push(frame_of(f, tri, code, starts[i]))?;
    }
    Ok(frames)
}

/// The frames of all starts of the canonical triangulation of a class. A fault names the frame formula and no wall.
pub(crate) fn turns_of(alloc: Global, f: &Field, code: &Code) -> Result<Vec<Mat2>, Stop<ClassFault>>
    requires own { ∥ IsClassOver f.now code.now ∥₁ }
    ensures frames { IfOk result (λ frames. AreFrames f.now (canonical f.now code.now) code.now frames.items) }
    ensures fault { IfErr result (λ stop. IfFault stop (λ fault. (fault ≡ record { formula = F1; wall = None }) × HasWideFrame f.now (canonical f.now code.now))) }
{
    let tri = match tri_of(alloc, f, code) {
        Ok(tri) => tri,
        Err(_) => return Err(Stop::Memory),
    };
    let starts = match starts_of(alloc, f, &tri, code) {
        Ok(starts) => starts,
        Err(stop) => return Err(stop),
    };
    match frames_at(alloc, f, &tri, code, starts.as_slice()) {
        Ok(frames) => Ok(frames),
        Err(_) => Err(Stop::Memory),
    }
}
