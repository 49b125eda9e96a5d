//! The checks of a file in their order, each at all its places.

ghost use Rattle.std.specs.Prelude.{◌≡◌, ◌≤◌, length, IfOk, OnOk, IfErr};
ghost use Rattle.surface_text.specs.Spelling.{content, text};
ghost use Rattle.surface_text.specs.Limits.{IsWithinLimits};
ghost use Rattle.gluing.specs.Gluings.{IsGluing, gluing_of};
ghost use Rattle.gluing.specs.Tables.{rows_of, IsTable};
ghost use Rattle.gluing.specs.Refusals.{shape_check, glue_check, pairing_check, triangle_check, joining_check, Passes, IsFaultOf};
ghost use Rattle.gluing.specs.Parts.{IsFaultBy};

use super::copies::empty_table;
use super::fault::GlueFault;
use super::faults::{at_glue, at_polygon};
use super::joined::first_apart;
use super::lines::first_unglued;
use super::paired::first_unpaired;
use super::polygons::first_improper;
use super::triangles::first_over;
use quad_field::Field;
use std::alloc::Global;
use surface_text::SurfaceFile;

/// The number of the cause where a side is named by no glue line.
const UNPAIRED: u8 = 20;

/// The number of the cause where the polygons are cut into more than 256 triangles.
const MANY_TRIANGLES: u8 = 21;

/// The number of the cause where a polygon isn't joined to polygon 0.
const APART: u8 = 22;

/// Whether each polygon closes, isn't flat, and is convex.
fn check_shapes(f: &Field, file: &SurfaceFile) -> Result<(), GlueFault>
    requires limits { IsWithinLimits (content file.now) }
    requires field { f.now ≡ file.now.field }
    ensures passes { OnOk result (Passes (shape_check (content file.now))) }
    ensures refused { IfErr result (IsFaultBy (shape_check (content file.now))) }
{
    match first_improper(f, file.polygons.as_slice()) {
        Some((cause, p)) => Err(at_polygon(file, cause.number(), p)),
        None => Ok(()),
    }
}

/// The table of all glue lines, where they pair opposite sides, each once.
fn check_glues(
    alloc: Global,
    f: &Field,
    file: &SurfaceFile,
) -> Result<Vec<Vec<Option<(u32, u32)>>>, GlueFault>
    requires limits { IsWithinLimits (content file.now) }
    requires short { length (text (content file.now)) ≤ 1048576 }
    requires field { f.now ≡ file.now.field }
    ensures passes { OnOk result (Passes (glue_check (content file.now))) }
    ensures table { IfOk result (λ table. IsTable (content file.now).polygons file.now.glues.items (rows_of table.items)) }
    ensures refused { IfErr result (IsFaultBy (glue_check (content file.now))) }
{
    let mut table = empty_table(alloc, file.polygons.as_slice())?;
    match first_unglued(
        f,
        file.polygons.as_slice(),
        file.glues.as_slice(),
        &mut table,
    ) {
        Some((cause, k)) => Err(at_glue(file, cause.number(), k)),
        None => Ok(table),
    }
}

/// Whether all sides are paired.
fn check_pairing(file: &SurfaceFile, table: &[Vec<Option<(u32, u32)>>]) -> Result<(), GlueFault>
    requires limits { IsWithinLimits (content file.now) }
    requires table { IsTable (content file.now).polygons file.now.glues.items (rows_of table.now) }
    ensures passes { OnOk result (Passes (pairing_check (content file.now))) }
    ensures refused { IfErr result (IsFaultBy (pairing_check (content file.now))) }
{
    match first_unpaired(table) {
        Some(p) => Err(at_polygon(file, UNPAIRED, p)),
        None => Ok(()),
    }
}

/// Whether there are at most 256 triangles.
fn check_triangles(file: &SurfaceFile) -> Result<(), GlueFault>
    requires { IsWithinLimits (content file.now) }
    ensures passes { OnOk result (Passes (triangle_check (content file.now))) }
    ensures refused { IfErr result (IsFaultBy (triangle_check (content file.now))) }
{
    match first_over(file.polygons.as_slice()) {
        Some(p) => Err(at_polygon(file, MANY_TRIANGLES, p)),
        None => Ok(()),
    }
}

/// Whether all polygons are joined.
fn check_joining(
    alloc: Global,
    file: &SurfaceFile,
    table: &[Vec<Option<(u32, u32)>>],
) -> Result<(), GlueFault>
    requires limits { IsWithinLimits (content file.now) }
    requires paired { Passes (pairing_check (content file.now)) }
    requires table { IsTable (content file.now).polygons file.now.glues.items (rows_of table.now) }
    ensures passes { OnOk result (Passes (joining_check (content file.now))) }
    ensures refused { IfErr result (IsFaultBy (joining_check (content file.now))) }
{
    match first_apart(alloc, table)? {
        Some(p) => Err(at_polygon(file, APART, p)),
        None => Ok(()),
    }
}

/// The table of the glue lines, where the polygons make a surface.
pub fn check(
    alloc: Global,
    f: &Field,
    file: &SurfaceFile,
) -> Result<Vec<Vec<Option<(u32, u32)>>>, GlueFault>
    requires limits { IsWithinLimits (content file.now) }
    requires short { length (text (content file.now)) ≤ 1048576 }
    requires field { f.now ≡ file.now.field }
    ensures valid { OnOk result (IsGluing (gluing_of (content file.now))) }
    ensures table { IfOk result (λ table. IsTable (content file.now).polygons file.now.glues.items (rows_of table.items)) }
    ensures cause { IfErr result (IsFaultOf (content file.now)) }
{
    check_shapes(f, file)?;
    let table = check_glues(alloc, f, file)?;
    check_pairing(file, &table)?;
    check_triangles(file)?;
    check_joining(alloc, file, &table)?;
    Ok(table)
}
