//! Frames that are kept: what is found of one start stands for each other with the same two vectors.

ghost use Rattle.std.specs.Prelude.{◌≡◌, ℕ, ◌<◌, length, List, IsTrue, IfSome, OnOk};
ghost use Rattle.std.specs.List.{HoldsAt};
ghost use Rattle.tri_core.specs.declared.half.Half.{Half};
ghost use Rattle.canon_code.specs.Distinct.{AreDistinct, ArePairs};
ghost use Rattle.canon_code.specs.Small.{IsSmallFrame};
ghost use Rattle.canon_code.specs.WholeFrames.{IsScaledBy};
ghost use Rattle.canon_code.specs.KeptFrames.{HaveOneFrame, AreKeptFrames};

use super::distinct::{Distinct, have_one_place};
use super::whole::Scaled;
use quad_field::Quad;
use std::alloc::{AllocError, Global};
use tri_core::Tri;

/// A start whose scale isn't below a known one, and the numbers over that one of the different vectors.
#[derive(Drop)]
pub struct KeptFrame {
    pub start: Scaled,
    pub list: Vec<Quad>,
}

/// The different vectors of a triangulation, a scale, and frames over it.
#[derive(Drop)]
pub struct KeptFrames {
    pub distinct: Distinct,
    pub scale: i128,
    pub frames: Vec<KeptFrame>,
}

/// Whether half-edge h and the next have the vectors of half-edge g and the next, by their places among the different vectors.
fn have_one_frame(tri: &Tri, distinct: &Distinct, h: u32, g: u32) -> bool
    requires distinct { AreDistinct tri.now.halves distinct.now.firsts.items distinct.now.places.items }
    requires first { h < length tri.now.halves }
    requires second { g < length tri.now.halves }
    ensures { IsTrue result → HaveOneFrame tri.now.halves h g }
{
    let _count = tri.triangles();
    if have_one_place(distinct, h, g) {
        return have_one_place(distinct, Tri::next(h), Tri::next(g));
    }
    false
}

impl KeptFrames {
    /// No frames.
    pub fn none(alloc: Global, distinct: Distinct) -> KeptFrames
        ensures { (d : ℕ) (halves : List Half) → AreDistinct halves distinct.firsts.items distinct.places.items → AreKeptFrames d halves result }
    {
        let frames = Vec::new(alloc);
        KeptFrames {
            distinct,
            scale: 1,
            frames,
        }
    }

    /// Keeps the frames only where they are over this scale.
    pub fn rescale(&mut self, scale: i128)
        ensures scale { self.new.scale ≡ scale }
        ensures kept { (d : ℕ) (halves : List Half) → AreKeptFrames d halves self.old → AreKeptFrames d halves self.new }
    {
        if self.scale != scale {
            self.frames.clear();
            self.scale = scale;
        }
    }

    /// The place of a frame with the two vectors of start h.
    pub fn place_of(&self, tri: &Tri, h: u32) -> Option<usize>
        requires kept { (d : ℕ) × AreKeptFrames d tri.now.halves self.now }
        requires half { h < length tri.now.halves }
        ensures within { IfSome result (λ i. i < length self.now.frames.items) }
        ensures same { IfSome result (λ i. HoldsAt (λ kept. HaveOneFrame tri.now.halves kept.start.h h) self.now.frames.items i) }
    {
        for i in 0..self.frames.len() {
            if have_one_frame(tri, &self.distinct, self.frames[i].start.h, h) {
                return Some(i);
            }
        }
        None
    }

    /// Keeps a frame, where the different vectors are few.
    pub fn keep(&mut self, start: Scaled, list: Vec<Quad>) -> Result<(), AllocError>
        ensures scale { OnOk result (self.new.scale ≡ self.old.scale) }
        ensures kept { OnOk result ((d : ℕ) (halves : List Half) → AreKeptFrames d halves self.old → IsScaledBy d halves self.old.scale start
            → IfSome start.small (IsSmallFrame d start.frame start.divisor) → ArePairs d halves start self.old.distinct.firsts.items list.items → AreKeptFrames d halves self.new) }
    {
        if list.is_empty() {
            return Ok(());
        }
        self.frames.push(KeptFrame { start, list })?;
        Ok(())
    }
}
