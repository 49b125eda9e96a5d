//! The table of twins.

ghost use Rattle.std.specs.Prelude.{◌≡◌, ◌↔◌, ◌<◌, [], length, IfOk, IsTrue};
ghost use Rattle.std.specs.List.{AllByRecursion};
ghost use Rattle.surface_text.specs.Limits.{IsPolygon};
ghost use Rattle.gluing.specs.Gluings.{first_of, second_of};
ghost use Rattle.gluing.specs.Parts.{sides_of};
ghost use Rattle.gluing.specs.Tables.{rows_of, entry_of, HasEntry, with_twin, with_glue, IsRepeated, IsTable};

use std::alloc::{AllocError, Global};
use surface_text::{Glue, Polygon};

/// The twin of side e of polygon p, none where no glue line named it yet.
pub fn entry(table: &[Vec<Option<(u32, u32)>>], p: usize, e: usize) -> Option<(u32, u32)>
    requires { HasEntry (rows_of table.now) (p, e) }
    ensures { result ≡ entry_of (rows_of table.now) (p, e) }
{
    table[p][e]
}

/// Writes the twin of side e of polygon p.
fn put(table: &mut [Vec<Option<(u32, u32)>>], p: u32, e: u32, twin: (u32, u32))
    requires { HasEntry (rows_of table.old) (p, e) }
    ensures { rows_of table.new ≡ with_twin (rows_of table.old) (p, e) twin }
{
    table[p as usize][e as usize] = Some(twin);
}

/// Writes the twins of the two sides of a glue line.
pub fn pair(table: &mut [Vec<Option<(u32, u32)>>], g: &Glue)
    requires first { HasEntry (rows_of table.old) (first_of g.now) }
    requires second { HasEntry (rows_of table.old) (second_of g.now) }
    ensures { rows_of table.new ≡ with_glue (rows_of table.old) g.now }
{
    put(table, g.p1, g.e1, (g.p2, g.e2));
    put(table, g.p2, g.e2, (g.p1, g.e1));
}

/// Whether a side of the glue line has a twin, or it names one side twice.
pub fn is_repeated(table: &[Vec<Option<(u32, u32)>>], g: &Glue) -> bool
    requires first { HasEntry (rows_of table.now) (first_of g.now) }
    requires second { HasEntry (rows_of table.now) (second_of g.now) }
    ensures { IsTrue result ↔ IsRepeated (rows_of table.now) g.now }
{
    if entry(table, g.p1 as usize, g.e1 as usize).is_some() {
        return true;
    }
    if entry(table, g.p2 as usize, g.e2 as usize).is_some() {
        return true;
    }
    g.p1 == g.p2 && g.e1 == g.e2
}
