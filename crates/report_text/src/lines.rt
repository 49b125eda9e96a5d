//! Single lines of a report, each read off the front of bytes.

ghost use Rattle.std.specs.Prelude.{◌≡◌, ◌≢◌, ◌↔◌, ◌∷◌, ◌++◌, ℕ, List, MatchOption};
ghost use Rattle.quad_field.specs.FieldNumber.{IsFieldNumber};
ghost use Rattle.plane.specs.Spelling.{natural_text};
ghost use Rattle.surface_text.specs.Limits.{IsBasePoint};
ghost use Rattle.report_text.specs.Lines.{Line, line_text};
ghost use Rattle.report_text.specs.Limits.{IsWithin, IsClassCount, IsMatrix};
ghost use Rattle.report_text.specs.Readings.{Lacks, IsSplitAt, IsTaken, IsNotTaken};

use super::read_matrix;
use memchr::memchr;
use plane::{Mat2, NaturalWord, read_natural};
use quad_field::Field;
use surface_text::{Point, read_point};

/// The bytes before the first stop and those behind it, none where there is no stop.
pub(crate) fn split_at_first(stop: u8, bytes: &[u8]) -> Option<(&[u8], &[u8])>
    ensures { MatchOption result (Lacks stop bytes.now) (λ parts. IsSplitAt stop bytes.now parts.0.now parts.1.now) }
{
    let place = memchr(stop, bytes)?;
    Some((&bytes[..place], &bytes[place + 1..]))
}

/// What follows the line of the version, none where it doesn't come next.
pub(crate) fn version_line(rest: &[u8]) -> Option<&[u8]>
    ensures { MatchOption result
        ((after : List ℕ) → rest.now ≢ line_text Line.version ++ 10 ∷ after)
        (λ after. rest.now ≡ line_text Line.version ++ 10 ∷ after.now) }
{
    rest.strip_prefix(b"veech 1\n")
}

/// What follows the end line, none where it doesn't come next.
pub(crate) fn end_line(rest: &[u8]) -> Option<&[u8]>
    ensures { MatchOption result
        ((after : List ℕ) → rest.now ≢ line_text Line.end ++ 10 ∷ after)
        (λ after. rest.now ≡ line_text Line.end ++ 10 ∷ after.now) }
{
    rest.strip_prefix(b"end\n")
}

/// The field whose number a word spells, none where it spells none.
fn field_of(word: &[u8]) -> Option<Field>
    ensures { (d : ℕ) → (result ≡ Some d) ↔ ((word.now ≡ natural_text d) × IsFieldNumber d) }
{
    match read_natural(word) {
        NaturalWord::Value(d) if d <= 1000 => Field::make(d as u32),
        _ => None,
    }
}

/// The field of the next line and what follows it, none where no field line comes next.
pub(crate) fn field_line(rest: &[u8]) -> Option<(Field, &[u8])>
    ensures { MatchOption result
        (IsNotTaken Line.field IsFieldNumber rest.now)
        (λ taken. IsTaken Line.field IsFieldNumber rest.now taken.0 taken.1.now) }
{
    let (line, after) = split_at_first(b'\n', rest)?;
    let word = line.strip_prefix(b"field ")?;
    let field = field_of(word)?;
    Some((field, after))
}

/// The base point of the next line and what follows it, none where no base line comes next.
pub(crate) fn base_line(rest: &[u8]) -> Option<(Point, &[u8])>
    ensures { MatchOption result
        (IsNotTaken Line.base IsBasePoint rest.now)
        (λ taken. IsTaken Line.base IsBasePoint rest.now taken.0 taken.1.now) }
{
    let (line, after) = split_at_first(b'\n', rest)?;
    let word = line.strip_prefix(b"base ")?;
    let point = read_point(word)?;
    Some((point, after))
}

/// The natural number within i128 that a word spells, none where it spells none.
pub(crate) fn within(word: &[u8]) -> Option<u128>
    ensures { (n : ℕ) → (result ≡ Some n) ↔ ((word.now ≡ natural_text n) × IsWithin n) }
{
    match read_natural(word) {
        NaturalWord::Value(n) if n <= i128::MAX as u128 => Some(n),
        _ => None,
    }
}

/// How many class lines the next line asks for and what follows it, none where it asks for none.
pub(crate) fn class_count_line(rest: &[u8]) -> Option<(u128, &[u8])>
    ensures { MatchOption result
        (IsNotTaken Line.class_count IsClassCount rest.now)
        (λ taken. IsTaken Line.class_count IsClassCount rest.now taken.0 taken.1.now) }
{
    let (line, after) = split_at_first(b'\n', rest)?;
    let word = line.strip_prefix(b"classes ")?;
    let count = within(word)?;
    if count == 0 {
        None
    } else {
        Some((count, after))
    }
}

/// How many matrix lines the next line asks for and what follows it, none where no such line comes next.
pub(crate) fn matrix_count_line(rest: &[u8]) -> Option<(u128, &[u8])>
    ensures { MatchOption result
        (IsNotTaken Line.matrix_count IsWithin rest.now)
        (λ taken. IsTaken Line.matrix_count IsWithin rest.now taken.0 taken.1.now) }
{
    let (line, after) = split_at_first(b'\n', rest)?;
    let word = line.strip_prefix(b"matrices ")?;
    let count = within(word)?;
    Some((count, after))
}

/// The matrix of the next line and what follows it, none where no matrix line comes next.
pub(crate) fn matrix_line(rest: &[u8]) -> Option<(Mat2, &[u8])>
    ensures { MatchOption result
        (IsNotTaken Line.matrix IsMatrix rest.now)
        (λ taken. IsTaken Line.matrix IsMatrix rest.now taken.0 taken.1.now) }
{
    let (line, after) = split_at_first(b'\n', rest)?;
    let matrix = read_matrix(line)?;
    Some((matrix, after))
}
