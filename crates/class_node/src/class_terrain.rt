//! The classes over a field as a terrain.

ghost use Rattle.std.specs.Prelude.{◌≡◌, IfOk, IfErr, None};
ghost use Rattle.quad_field.specs.declared.formula.Formula.TheVariants.{F1};
ghost use Rattle.tri_core.specs.Images.{IsImageBy};
ghost use Rattle.canon_code.specs.Codes.{IsCode};
ghost use Rattle.canon_code.specs.Canonical.{canonical};
ghost use Rattle.canon_code.specs.FrameWidth.{HasWideFrame};
ghost use Rattle.terrain.specs.Stops.{IfFault};
ghost use Rattle.class_node.specs.Classes.{IsClassOver};
ghost use Rattle.class_node.specs.Leads.{IsFrame, AreFrames};

use super::ClassFault;
use super::classes::{ClassWalls, counted_walls, lead_among, lead_of, wall_count};
use super::frames::{canon_behind, turns_of};
use super::shards::shard_number;
use canon_code::Code;
use delaunay_flip::Base;
use plane::Mat2;
use quad_field::Field;
use std::alloc::{AllocError, Global};
use std::cmp::Ordering;
use std::marker::Model;
use terrain::{Numbers, Stop, Terrain};

/// The classes of the triangulations over a field, by their codes. Contracts see it as the field's D.
#[derive(Clone, Copy)]
pub struct ClassTerrain {
    field: Field,
}

impl Model for ClassTerrain {
    ghost use Rattle.std.specs.Prelude.{ℕ};

    ghost Value = { ℕ };

    ghost view = { λ t. t.field };

    ghost inverse = { λ d. record { field = d } };
}

impl ClassTerrain {
    /// The classes over a field.
    pub fn make(f: Field) -> ClassTerrain
        ensures { result ≡ f }
    {
        ClassTerrain { field: f }
    }

    /// The code of a base and its frame, which takes the canonical triangulation to the base.
    /// A fault names the frame formula F1, wide at a start of the base, and no wall.
    pub fn root(&self, alloc: Global, base: &Base) -> Result<(Code, Mat2), Stop<ClassFault>>
        requires field { self.now ≡ base.now.tri.field }
        ensures code { IfOk result (λ r. IsCode self.now base.now.tri.halves r.0) }
        ensures own { IfOk result (λ r. ∥ IsClassOver self.now r.0 ∥₁) }
        ensures frame { IfOk result (λ r. IsFrame self.now base.now.tri.halves r.0 r.1) }
        ensures image { IfOk result (λ r. IsImageBy self.now r.1.rows r.1.denominator (canonical self.now r.0) base.now.tri.halves) }
        ensures fault { IfErr result (λ stop. IfFault stop (λ fault. (fault ≡ record { formula = F1; wall = None }) × HasWideFrame self.now base.now.tri.halves)) }
    {
        match canon_behind(alloc, &self.field, &base.tri, None) {
            Ok(canon) => Ok((canon.code, canon.frame)),
            Err(stop) => Err(stop),
        }
    }

    /// The frames of all starts of the canonical triangulation of a class, in the order of the starts: the matrices that take it to itself.
    /// A fault names F1, wide at a start, and no wall.
    pub fn turns(&self, alloc: Global, code: &Code) -> Result<Vec<Mat2>, Stop<ClassFault>>
        requires own { ∥ IsClassOver self.now code.now ∥₁ }
        ensures frames { IfOk result (λ frames. AreFrames self.now (canonical self.now code.now) code.now frames.items) }
        ensures fault { IfErr result (λ stop. IfFault stop (λ fault. (fault ≡ record { formula = F1; wall = None }) × HasWideFrame self.now (canonical self.now code.now))) }
    {
        turns_of(alloc, &self.field, code)
    }
}

impl Numbers for ClassTerrain {
    ghost use Rattle.class_node.specs.Classes.{field_numbers};
    ghost use Rattle.terrain.specs.Singles.{one_number};

    ghost numbers = { field_numbers };

    ghost apart = { one_number };
}

impl Terrain for ClassTerrain {
    type Key = Code;

    type Link = Mat2;

    type Fault = ClassFault;

    type Walls = ClassWalls;

    ghost use Rattle.std.specs.Prelude.{◌≡◌};
    ghost use Rattle.std.specs.Ordering.{int_cmp};
    ghost use Rattle.std.specs.Cmp.Lexicographic.{slice_cmp};
    ghost use Rattle.class_node.specs.Classes.{IsClass, HasWalls};
    ghost use Rattle.class_node.specs.Found.{AreFound};
    ghost use Rattle.class_node.specs.Leads.{LeadsBy};
    ghost use Rattle.class_node.specs.Stuck.{IsStuck, IsStuckAt};
    ghost use Rattle.class_node.specs.Shards.{shard_number};
    ghost use Rattle.class_node.specs.TerrainLaws as laws;

    ghost is_own = { IsClass };

    ghost has_walls = { HasWalls };

    ghost are_walls = { AreFound };

    ghost leads = { LeadsBy };

    ghost is_stuck = { IsStuck };

    ghost is_stuck_at = { IsStuckAt };

    ghost order = { slice_cmp int_cmp };

    ghost shard = { shard_number };

    ghost own_proofs_agree = { laws.own_proofs_agree };

    ghost walls_proofs_agree = { laws.walls_proofs_agree };

    ghost leads_proofs_agree = { laws.leads_proofs_agree };

    ghost walls_agree = { laws.walls_agree };

    ghost walls_few = { laws.walls_few };

    ghost leads_agree = { laws.leads_agree };

    ghost leads_own = { laws.leads_own };

    ghost order_total = { laws.order_total };

    ghost order_exact = { laws.order_exact };

    ghost shard_low = { laws.shard_low };

    fn walls(&self, alloc: Global, key: &Code) -> Result<u32, Stop<ClassFault>> {
        wall_count(alloc, &self.field, key)
    }

    fn cross(
        &self,
        alloc: Global,
        key: &Code,
        wall: u32,
    ) -> Result<(Code, Mat2), Stop<ClassFault>> {
        lead_of(alloc, &self.field, key, wall)
    }

    fn find_walls(&self, alloc: Global, key: &Code) -> Result<(u32, ClassWalls), Stop<ClassFault>> {
        counted_walls(alloc, &self.field, key)
    }

    fn cross_found(
        &self,
        alloc: Global,
        key: &Code,
        walls: &ClassWalls,
        wall: u32,
    ) -> Result<(Code, Mat2), Stop<ClassFault>> {
        lead_among(alloc, &self.field, key, walls, wall)
    }

    fn copy_key(&self, alloc: Global, key: &Code) -> Result<Code, AllocError> {
        key.copy(alloc)
    }

    fn copy_fault(&self, fault: &ClassFault) -> ClassFault {
        *fault
    }

    fn compare(&self, one: &Code, two: &Code) -> Ordering {
        one.cmp(two)
    }

    fn shard_of(&self, key: &Code) -> u32 {
        shard_number(key.numbers())
    }
}
