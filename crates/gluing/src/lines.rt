//! Whether each glue line names two sides once, with opposite vectors.

ghost use Rattle.std.specs.Prelude.{◌≡◌, ◌↔◌, ℕ, [], length, IsTrue, MatchOption};
ghost use Rattle.std.specs.List.{AllByRecursion};
ghost use Rattle.surface_text.specs.Limits.{IsPolygon, IsThere, NamesSides};
ghost use Rattle.plane.specs.Vectors.{vector};
ghost use Rattle.gluing.specs.Polygons.{polygon_at, side_at};
ghost use Rattle.surface_text.specs.Limits.{IsBoundedVector};
ghost use Rattle.gluing.specs.Gluings.{IsOpposite};
ghost use Rattle.gluing.specs.Parts.{sides_of, line_number};
ghost use Rattle.gluing.specs.Tables.{rows_of, HasShape, IsTable, line_conditions};
ghost use Rattle.gluing.specs.Refusals.{glue_conditions, AllHold, FailsFor, HoldBefore, IsFirstFailure};

use super::corners::side;
use super::polygons::sides_at;
use super::table::{is_repeated, pair};
use super::vectors::{add, is_zero};
use plane::Vec2;
use quad_field::Field;
use surface_text::{Glue, Polygon};

/// Why a glue line is refused, in the order in which the causes are tried.
#[derive(Clone, Copy, Debug, PartialEq, Eq)]
pub(crate) enum LineCause {
    /// It names a side that an earlier line has named, or one side twice.
    Twice,
    /// Its two sides aren't opposite.
    NotOpposite,
}

impl LineCause {
    /// The number of the cause.
    pub(crate) fn number(self) -> u8
        ensures { result ≡ line_number self }
    {
        match self {
            LineCause::Twice => 18,
            LineCause::NotOpposite => 19,
        }
    }
}

/// Side e of polygon p.
fn side_of(polygons: &[Polygon], p: u32, e: u32) -> &Vec2
    requires there { IsThere (sides_of polygons.now) p e }
    requires bounded { AllByRecursion IsPolygon (sides_of polygons.now) }
    ensures value { (d : ℕ) → side_at d (polygon_at (sides_of polygons.now) p) e ≡ vector result.now }
    ensures bounded { IsBoundedVector result.now }
{
    side(sides_at(polygons, p as usize), e as usize)
}

/// Whether the vectors of the two sides of a glue line sum to zero.
fn is_opposite(f: &Field, polygons: &[Polygon], g: &Glue) -> bool
    requires there { NamesSides (sides_of polygons.now) g.now }
    requires bounded { AllByRecursion IsPolygon (sides_of polygons.now) }
    ensures { IsTrue result ↔ IsOpposite f.now (sides_of polygons.now) g.now }
{
    let sum = add(
        f,
        side_of(polygons, g.p1, g.e1),
        side_of(polygons, g.p2, g.e2),
    );
    is_zero(f, &sum)
}

/// Why a glue line is refused: the first cause, or none.
fn cause_of_line(
    f: &Field,
    polygons: &[Polygon],
    table: &[Vec<Option<(u32, u32)>>],
    g: &Glue,
) -> Option<LineCause>
    requires there { NamesSides (sides_of polygons.now) g.now }
    requires bounded { AllByRecursion IsPolygon (sides_of polygons.now) }
    requires shape { HasShape (sides_of polygons.now) (rows_of table.now) }
    ensures { MatchOption result
        (AllHold (line_conditions f.now (sides_of polygons.now) (rows_of table.now) g.now))
        (λ cause. FailsFor (line_number cause) (line_conditions f.now (sides_of polygons.now) (rows_of table.now) g.now)) }
{
    if is_repeated(table, g) {
        return Some(LineCause::Twice);
    }
    if is_opposite(f, polygons, g) {
        None
    } else {
        Some(LineCause::NotOpposite)
    }
}

/// Fills the table by the glue lines, up to the first that is refused, which is answered with its cause.
pub(crate) fn first_unglued(
    f: &Field,
    polygons: &[Polygon],
    glues: &[Glue],
    table: &mut [Vec<Option<(u32, u32)>>],
) -> Option<(LineCause, usize)>
    requires there { AllByRecursion (NamesSides (sides_of polygons.now)) glues.now }
    requires bounded { AllByRecursion IsPolygon (sides_of polygons.now) }
    requires empty { IsTable (sides_of polygons.now) [] (rows_of table.old) }
    ensures { MatchOption result
        (HoldBefore (glue_conditions f.now (sides_of polygons.now) glues.now) (length glues.now)
        × IsTable (sides_of polygons.now) glues.now (rows_of table.new))
        (λ found. IsFirstFailure (glue_conditions f.now (sides_of polygons.now) glues.now) (length glues.now) (line_number found.0) found.1) }
{
    for k in 0..glues.len() {
        let g = &glues[k];
        if let Some(cause) = cause_of_line(f, polygons, table, g) {
            return Some((cause, k));
        }
        pair(table, g);
    }
    None
}
