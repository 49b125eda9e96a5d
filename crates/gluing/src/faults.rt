//! The refusal of a file for a cause at a polygon or at a glue line.

ghost use Rattle.std.specs.Prelude.{◌≡◌, ◌+◌, ◌<◌, ◌≤◌, length};
ghost use Rattle.surface_text.specs.Spelling.{content, text};
ghost use Rattle.surface_text.specs.Limits.{IsWithinLimits};
ghost use Rattle.gluing.specs.declared.fault.GlueFault.TheVariants.{Bad};
ghost use Rattle.gluing.specs.Refusals.{shape_check, glue_check};

use super::fault::GlueFault;
use surface_text::SurfaceFile;

/// The refusal for the cause of this number in the line of polygon p.
pub fn at_polygon(file: &SurfaceFile, cause: u8, p: usize) -> GlueFault
    requires limits { IsWithinLimits (content file.now) }
    requires inside { p < length (content file.now).polygons }
    ensures { result ≡ Bad cause ((shape_check (content file.now)).line p) }
{
    GlueFault::Bad {
        cause,
        line: 3 + file.bases.len() as u64 + p as u64,
    }
}

/// The refusal for the cause of this number in glue line k.
pub fn at_glue(file: &SurfaceFile, cause: u8, k: usize) -> GlueFault
    requires limits { IsWithinLimits (content file.now) }
    requires short { length (text (content file.now)) ≤ 1048576 }
    requires inside { k < length (content file.now).glues }
    ensures { result ≡ Bad cause ((glue_check (content file.now)).line k) }
{
    GlueFault::Bad {
        cause,
        line: 3 + file.bases.len() as u64 + file.polygons.len() as u64 + k as u64,
    }
}
