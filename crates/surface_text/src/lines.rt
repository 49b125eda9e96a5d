//! Single lines of a surface file, each with the least cause where it is refused.

ghost use Rattle.std.specs.Prelude.{◌≡◌, ◌↔◌, ◌≤◌, ◌<◌, true, [], ◌∷◌, ◌++◌, length, IsTrue, MatchOption, MatchResult, Contains, map};
ghost use Rattle.quad_field.specs.FieldNumber.{IsFieldNumber};
ghost use Rattle.surface_text.specs.Spelling.{Line, line_text, content, lines_before_end};
ghost use Rattle.surface_text.specs.Lines.{HasFittingLength, IsSoFar, MayFollow, IsTaken, line_of, IsLineRefused, IsNextLine, IsNoNextLine};
ghost use Rattle.surface_text.specs.declared.file.Polygon.{Polygon as PolygonValue};
ghost use Rattle.surface_text.specs.Limits.{IsBoundedPoint, IsAbove, IsThere, NamesSides};
ghost use Rattle.surface_text.specs.Readings.{IsReading, IsTheOne, IsTailPoint};
ghost use Rattle.surface_text.specs.Bases.{IsBaseBad};
ghost use Rattle.surface_text.specs.Faults.{IsLeastOfLine, IsBodyRefused, IsTailNumber, IsFieldBad, AreTheSides, IsPolygonRefused, IsTailGlue, IsBoundedGlue, IsGlueBad, word_of_kind, words_by, IsOpen};
ghost use Rattle.std.specs.List.{AllByRecursion};
ghost use Rattle.surface_text.specs.Causes.{StopsAt, IsPrinted, IsLeast};

use super::cause::Cause;
use super::file::{Glue, Point, Polygon, SurfaceFile};
use super::fronts::{Reading, front, natural};
use super::names::{Name, name_of};
use super::points::{is_above, point_of};
use super::sides::{LineFault, sides_of};
use quad_field::Field;
use std::alloc::Global;

/// A line behind the field line.
#[derive(Drop)]
pub(crate) enum BodyLine {
    Base(Point),
    Polygon(Polygon),
    Glue(Glue),
    End,
}

/// What a line behind the field line begins with.
#[derive(Drop)]
enum Kind {
    Base,
    Polygon,
    Glue,
    End,
}

/// All bytes are those of printed characters.
fn is_printed(line: &[u8]) -> bool
    ensures { IsTrue result ↔ AllByRecursion IsPrinted line.now }
{
    for byte in line {
        if *byte < 32 || 126 < *byte {
            return false;
        }
    }
    true
}

/// The next line without its line feed, and what follows it.
fn split_line(rest: &[u8]) -> Result<(&[u8], &[u8]), Cause>
    ensures { MatchResult result (λ x. IsNextLine rest.now x.0.now x.1.now) (λ cause. IsNoNextLine rest.now cause) }
{
    if rest.is_empty() {
        return Err(Cause::NoLine);
    }
    let (line, tail) = front(rest, b'\n');
    let Some(after) = tail.strip_prefix(b"\n") else {
        return Err(Cause::CutLine);
    };
    if !is_printed(line) {
        return Err(Cause::BadByte);
    }
    Ok((line, after))
}

/// Takes the first line.
pub(crate) fn first_line(bytes: &[u8]) -> Result<&[u8], Cause>
    ensures { MatchResult result
        (λ after. bytes.now ≡ line_text Line.flat ++ 10 ∷ after.now)
        (λ cause. IsLeast cause [] bytes.now) }
{
    let (line, after) = split_line(bytes)?;
    if line != b"flat 1".as_slice() {
        return Err(Cause::BadFirst);
    }
    Ok(after)
}

/// What follows the word of a field line as a number.
fn field_of(tail: &[u8]) -> Result<u32, Cause>
    ensures { MatchResult result
        (λ d. IsTailNumber tail.now d × IsFieldNumber d)
        (λ cause. IsFieldBad tail.now cause) }
{
    let Some(digits) = tail.strip_prefix(b" ") else {
        return Err(Cause::BadForm);
    };
    match natural(digits) {
        Reading::Value(d) if Field::make(d).is_some() => Ok(d),
        Reading::Value(_) => Err(Cause::BadField),
        Reading::Large => Err(Cause::BadField),
        Reading::Not => Err(Cause::BadForm),
    }
}

/// The number of a field line.
fn field_in(line: &[u8]) -> Result<u32, Cause>
    requires { AllByRecursion IsPrinted line.now }
    ensures { MatchResult result
        (λ d. (line.now ≡ line_text (Line.field d)) × IsFieldNumber d)
        (λ cause. IsLeastOfLine cause (Line.flat ∷ []) line.now) }
{
    let (word, tail) = front(line, b' ');
    if word != b"field".as_slice() {
        return Err(Cause::BadKind);
    }
    field_of(tail)
}

/// Takes the field line.
pub(crate) fn field_line(rest: &[u8]) -> Result<(u32, &[u8]), Cause>
    ensures { MatchResult result
        (λ taken. (rest.now ≡ line_text (Line.field taken.0) ++ 10 ∷ taken.1.now) × IsFieldNumber taken.0)
        (λ cause. IsLeast cause (Line.flat ∷ []) rest.now) }
{
    let (line, after) = split_line(rest)?;
    Ok((field_in(line)?, after))
}

/// The point of a base line behind this many base lines.
fn base_of(tail: &[u8], bases: usize) -> Result<Point, Cause>
    ensures { MatchResult result
        (λ at. IsTheOne (IsTailPoint tail.now) IsBoundedPoint at × IsAbove at × (bases < 8))
        (λ cause. IsBaseBad tail.now bases cause) }
{
    let Some(text) = tail.strip_prefix(b" ") else {
        return Err(Cause::BadForm);
    };
    match point_of(text) {
        Reading::Not => Err(Cause::BadForm),
        Reading::Large => Err(Cause::BadNumber),
        Reading::Value(at) if !is_above(&at) => Err(Cause::BadBase),
        Reading::Value(_) if bases >= 8 => Err(Cause::ManyBases),
        Reading::Value(at) => Ok(at),
    }
}

/// The polygon of a polygon line behind this many polygon lines.
fn polygon_of(alloc: Global, tail: &[u8], polygons: usize) -> Result<Polygon, LineFault>
    requires { StopsAt 32 tail.now }
    ensures { MatchResult result
        (λ polygon. AreTheSides tail.now polygon.sides.items × (3 ≤ length polygon.sides.items) × (polygons < 256))
        (λ fault. IsPolygonRefused tail.now polygons fault) }
{
    let sides = sides_of(alloc, tail)?;
    if sides.len() < 3 {
        return Err(LineFault::Bad(Cause::FewSides));
    }
    if polygons >= 256 {
        return Err(LineFault::Bad(Cause::ManyPolygons));
    }
    Ok(Polygon { sides })
}

/// The side is there.
fn is_there(polygons: &[Polygon], name: Name) -> bool
    ensures { IsTrue result ↔ IsThere (map (λ (polygon : PolygonValue). polygon.sides.items) polygons.now) name.p name.e }
{
    match polygons.get(name.p as usize) {
        Some(polygon) => (name.e as usize) < polygon.sides.len(),
        None => false,
    }
}

/// Both sides are there.
fn are_there(polygons: &[Polygon], glue: Glue) -> bool
    ensures { IsTrue result ↔ NamesSides (map (λ (polygon : PolygonValue). polygon.sides.items) polygons.now) glue }
{
    is_there(
        polygons,
        Name {
            p: glue.p1,
            e: glue.e1,
        },
    ) && is_there(
        polygons,
        Name {
            p: glue.p2,
            e: glue.e2,
        },
    )
}

/// Reads the names of two sides, each behind a space.
fn names_of(tail: &[u8]) -> Reading<Glue>
    ensures { IsReading (IsTailGlue tail.now) IsBoundedGlue result }
{
    let Some(text) = tail.strip_prefix(b" ") else {
        return Reading::Not;
    };
    let (first, behind) = front(text, b' ');
    let Some(second) = behind.strip_prefix(b" ") else {
        return Reading::Not;
    };
    match (name_of(first), name_of(second)) {
        (Reading::Not, _) | (_, Reading::Not) => Reading::Not,
        (Reading::Value(a), Reading::Value(b)) => Reading::Value(Glue {
            p1: a.p,
            e1: a.e,
            p2: b.p,
            e2: b.e,
        }),
        _ => Reading::Large,
    }
}

/// The sides that a glue line names, of these polygons.
fn glue_of(tail: &[u8], polygons: &[Polygon]) -> Result<Glue, Cause>
    requires few { length polygons.now ≤ 256 }
    requires lengths { AllByRecursion HasFittingLength (map (λ (polygon : PolygonValue). polygon.sides.items) polygons.now) }
    ensures { MatchResult result
        (λ g. IsTailGlue tail.now g × NamesSides (map (λ (polygon : PolygonValue). polygon.sides.items) polygons.now) g)
        (λ cause. IsGlueBad tail.now (map (λ (polygon : PolygonValue). polygon.sides.items) polygons.now) cause) }
{
    match names_of(tail) {
        Reading::Not => Err(Cause::BadForm),
        Reading::Large => Err(Cause::BadName),
        Reading::Value(glue) if are_there(polygons, glue) => Ok(glue),
        Reading::Value(_) => Err(Cause::BadName),
    }
}

/// The kind of line that begins with this word, where it may stand.
fn kind_of(word: &[u8], before_polygons: bool, before_glues: bool) -> Option<Kind>
    requires { before_polygons ≡ true → before_glues ≡ true }
    ensures { MatchOption result
        (¬ (Contains (words_by before_polygons before_glues) word.now))
        (λ kind. (word.now ≡ word_of_kind kind) × IsOpen before_polygons before_glues kind) }
{
    if word == b"base".as_slice() && before_polygons {
        return Some(Kind::Base);
    }
    if word == b"polygon".as_slice() && before_glues {
        return Some(Kind::Polygon);
    }
    if word == b"glue".as_slice() && !before_polygons {
        return Some(Kind::Glue);
    }
    if word == b"end".as_slice() && !before_polygons {
        return Some(Kind::End);
    }
    None
}

/// What this line says behind the lines of the file so far.
fn body_line(alloc: Global, file: &SurfaceFile, line: &[u8]) -> Result<BodyLine, LineFault>
    requires so_far { IsSoFar (content file.now) }
    requires printed { AllByRecursion IsPrinted line.now }
    ensures { MatchResult result
        (λ taken. (line.now ≡ line_text (line_of taken)) × MayFollow (content file.now) (line_of taken))
        (λ fault. IsBodyRefused (lines_before_end (content file.now)) line.now fault) }
{
    let (word, tail) = front(line, b' ');
    match kind_of(word, file.polygons.is_empty(), file.glues.is_empty()) {
        Some(Kind::Base) => Ok(BodyLine::Base(base_of(tail, file.bases.len())?)),
        Some(Kind::Polygon) => Ok(BodyLine::Polygon(polygon_of(alloc, tail, file.polygons.len())?)),
        Some(Kind::Glue) => Ok(BodyLine::Glue(glue_of(tail, &file.polygons)?)),
        Some(Kind::End) if tail.is_empty() => Ok(BodyLine::End),
        Some(Kind::End) => Err(LineFault::Bad(Cause::BadForm)),
        None => Err(LineFault::Bad(Cause::BadKind)),
    }
}

/// Takes the next line behind the lines of the file so far.
pub(crate) fn next_line<'a>(
    alloc: Global,
    file: &SurfaceFile,
    rest: &'a [u8],
) -> Result<(BodyLine, &'a [u8]), LineFault>
    requires { IsSoFar (content file.now) }
    ensures { MatchResult result
        (λ taken. IsTaken (content file.now) rest.now (line_of taken.0) taken.1.now)
        (λ fault. IsLineRefused (lines_before_end (content file.now)) rest.now fault) }
{
    let (line, after) = split_line(rest)?;
    Ok((body_line(alloc, file, line)?, after))
}
