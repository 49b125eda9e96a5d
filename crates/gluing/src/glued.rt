//! Glued polygons.

ghost use Rattle.std.specs.Prelude.{◌≡◌, ◌≤◌, ◌⊎◌, ℕ, length, map, IfOk, IfErr, IsErrAnd};
ghost use Rattle.surface_text.specs.declared.file.Polygon.{Polygon as PolygonValue};
ghost use Rattle.surface_text.specs.Spelling.{content, text};
ghost use Rattle.surface_text.specs.Limits.{IsWithinLimits, IsThere};
ghost use Rattle.gluing.specs.declared.fault.GlueFault.TheVariants.{Bad, Memory};
ghost use Rattle.gluing.specs.Gluings.{Gluing, IsGluing, AreTwins, gluing_of};
ghost use Rattle.gluing.specs.Tables.{rows_of, IsTable};
ghost use Rattle.gluing.specs.Refusals.{IsRefused, IsFaultOf};

use super::checks::check;
use super::copies::copy_polygons;
use super::fault::GlueFault;
use super::table::entry;
use quad_field::Field;
use std::alloc::Global;
use std::marker::Model;
use surface_text::{Glue, Polygon, SurfaceFile};

/// Polygons over one field whose sides are paired to a connected surface of at most 256 triangles.
/// Contracts see the number of the field, the polygons, and the glue lines.
#[derive(Drop)]
pub struct Glued {
    field: u32,
    polygons: Vec<Polygon>,
    glues: Vec<Glue>,
    twins: Vec<Vec<Option<(u32, u32)>>>,
}

impl Model for Glued {
    ghost use Rattle.std.specs.Prelude.{map};
    ghost use Rattle.surface_text.specs.declared.file.Polygon.{Polygon as PolygonValue};
    ghost use Rattle.gluing.specs.Gluings.{Gluing, IsGluing};
    ghost use Rattle.gluing.specs.Tables.{rows_of, IsTable};

    ghost Value = { Gluing };

    ghost view = { λ g. record { field = g.field; polygons = map (λ (polygon : PolygonValue). polygon.sides.items) g.polygons.items; glues = g.glues.items } };

    ghost invariant = { λ g. IsGluing (record { field = g.field; polygons = map (λ (polygon : PolygonValue). polygon.sides.items) g.polygons.items; glues = g.glues.items })
        × IsTable (map (λ (polygon : PolygonValue). polygon.sides.items) g.polygons.items) g.glues.items (rows_of g.twins.items) };
}

/// The polygons of a file that make a surface, with their table of twins.
fn with_twins(
    alloc: Global,
    file: &SurfaceFile,
    twins: Vec<Vec<Option<(u32, u32)>>>,
) -> Result<Glued, GlueFault>
    requires valid { IsGluing (gluing_of (content file.now)) }
    requires table { IsTable (content file.now).polygons file.now.glues.items (rows_of twins.items) }
    ensures glued { IfOk result (λ g. g ≡ gluing_of (content file.now)) }
    ensures fault { IfErr result (λ fault. fault ≡ Memory) }
{
    let polygons = copy_polygons(alloc, file.polygons.as_slice())?;
    let glues = Vec::from_slice(alloc, file.glues.as_slice())?;
    Ok(Glued {
        field: file.field,
        polygons,
        glues,
        twins,
    })
}

/// The polygons of the file glued by its glue lines. Refused exactly where they make no surface, for the first cause in
/// its line, or for want of memory.
pub fn glue(alloc: Global, f: &Field, file: &SurfaceFile) -> Result<Glued, GlueFault>
    requires limits { IsWithinLimits (content file.now) }
    requires short { length (text (content file.now)) ≤ 1048576 }
    requires field { f.now ≡ file.now.field }
    ensures glued { IfOk result (λ g. g ≡ gluing_of (content file.now)) }
    ensures cause { IfErr result (IsFaultOf (content file.now)) }
    // The other way round: what makes a surface is glued, and what is refused is refused so.
    ensures accepted { IsGluing (gluing_of (content file.now))
        → IfErr result (λ fault. fault ≡ Memory) }
    ensures refused { (cause line : ℕ) → IsRefused (content file.now) cause line
        → IsErrAnd result (λ fault. (fault ≡ Bad cause line) ⊎ (fault ≡ Memory)) }
{
    match check(alloc, f, file) {
        Ok(twins) => with_twins(alloc, file, twins),
        Err(fault) => Err(fault),
    }
}

impl Glued {
    /// The polygons, in the order of the file.
    pub fn polygons(&self) -> &[Polygon]
        ensures polygons { map (λ (polygon : PolygonValue). polygon.sides.items) result.now ≡ self.now.polygons }
        ensures valid { IsGluing self.now }
    {
        self.polygons.as_slice()
    }

    /// The side that is glued to side e of polygon p: its polygon, and its number there.
    pub fn twin(&self, p: u32, e: u32) -> (u32, u32)
        requires { IsThere self.now.polygons p e }
        ensures { AreTwins self.now.glues (p, e) result }
    {
        match entry(self.twins.as_slice(), p as usize, e as usize) {
            Some(twin) => twin,
            None => unreachable!(),
        }
    }
}
