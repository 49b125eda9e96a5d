//! A matrix by its numbers.

ghost use Rattle.std.specs.Prelude.{◌≡◌, ◌↔◌, ◌<◌, ◌∷◌, ◌++◌, None, ℕ, List, OnOk, MatchOption};
ghost use Rattle.quad_field.specs.declared.quad.Quad.{Quad as QuadValue};
ghost use Rattle.quad_field.specs.Width.{PartsFit};
ghost use Rattle.plane.specs.Matrices.{FieldMatrix, rows_of, IsInLowestTerms};
ghost use Rattle.plane.specs.Spelling.{quad_text};
ghost use Rattle.report_text.specs.Reports.{entries_text, matrix_text};
ghost use Rattle.report_text.specs.Readings.{spaced_entries, AreEntries};
ghost use Rattle.report_text.specs.Limits.{IsWithin, IsMatrixLine};

use super::lines::{split_at_first, within};
use plane::{Mat2, QuadWord, put_quad, put_whole, read_quad};
use quad_field::Quad;
use std::alloc::{AllocError, Global};

/// Appends numbers of the field, each with a space before it.
fn put_entries(alloc: Global, out: &mut Vec<u8>, entries: &[Quad]) -> Result<(), AllocError>
    ensures { OnOk result (out.new.items ≡ out.old.items ++ entries_text entries.now) }
{
    for x in entries {
        out.push(b' ')?;
        put_quad(alloc, out, *x)?;
    }
    Ok(())
}

/// Appends `matrix`, the numbers of a matrix by rows and their denominator, without a line feed.
pub fn put_matrix(alloc: Global, out: &mut Vec<u8>, matrix: &Mat2) -> Result<(), AllocError>
    ensures { OnOk result (out.new.items ≡ out.old.items ++ matrix_text matrix.now) }
{
    out.extend_from_slice(b"matrix")?;
    put_entries(alloc, out, matrix.entries())?;
    out.push(b' ')?;
    put_whole(alloc, out, matrix.denominator())?;
    Ok(())
}

/// The number of the field before the first space and what follows the space, none where there are none.
fn entry(bytes: &[u8]) -> Option<(Quad, &[u8])>
    ensures { MatchOption result
        ((x : QuadValue) (behind : List ℕ) → bytes.now ≡ quad_text x ++ 32 ∷ behind → ¬ (PartsFit x))
        (λ read. (bytes.now ≡ quad_text read.0 ++ 32 ∷ read.1.now) × PartsFit read.0) }
{
    let (word, behind) = split_at_first(b' ', bytes)?;
    match read_quad(word) {
        QuadWord::Value(x) => Some((x, behind)),
        QuadWord::Large => None,
        QuadWord::Not => None,
    }
}

/// The four numbers of a matrix line and the word of the denominator, none where there are none.
fn four_entries(line: &[u8]) -> Option<([Quad; 4], &[u8])>
    ensures { MatchOption result
        ((a b c d : QuadValue) (word : List ℕ) → line.now ≡ spaced_entries a b c d word → ¬ (PartsFit a × PartsFit b × PartsFit c × PartsFit d))
        (λ read. AreEntries line.now read.0 read.1.now) }
{
    let tail = line.strip_prefix(b"matrix ")?;
    let (a, second) = entry(tail)?;
    let (b, third) = entry(second)?;
    let (c, fourth) = entry(third)?;
    let (d, word) = entry(fourth)?;
    Some(([a, b, c, d], word))
}

/// The matrix of these numbers over the denominator, none where they aren't in lowest terms.
fn lowest(n: [Quad; 4], den: u128) -> Option<Mat2>
    requires some { 0 < den }
    requires within { IsWithin den }
    ensures { (m : FieldMatrix) → (result ≡ Some m) ↔ ((m.rows ≡ rows_of n) × (m.denominator ≡ den) × IsInLowestTerms m) }
{
    let matrix = Mat2::reduced(n, den as i128);
    if matrix.denominator() == den as i128 {
        Some(matrix)
    } else {
        None
    }
}

/// The matrix whose line this is, none where it is no matrix line.
fn matrix_of(line: &[u8]) -> Option<Mat2>
    ensures { (m : FieldMatrix) → (result ≡ Some m) ↔ IsMatrixLine line.now m }
{
    let (n, word) = four_entries(line)?;
    let den = within(word)?;
    if den == 0 { None } else { lowest(n, den) }
}

/// The matrix whose line this is, without the line feed. None exactly where it is no matrix line: `matrix`, four numbers of
/// the field and a denominator of at least 1, in lowest terms and within i128.
pub fn read_matrix(line: &[u8]) -> Option<Mat2>
    ensures matrix { (m : FieldMatrix) → (result ≡ Some m) ↔ IsMatrixLine line.now m }
    ensures none { (result ≡ None) ↔ ((m : FieldMatrix) → ¬ (IsMatrixLine line.now m)) }
{
    matrix_of(line)
}
