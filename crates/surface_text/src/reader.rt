//! Reading a surface file.

ghost use Rattle.std.specs.Prelude.{◌≡◌, ◌≤◌, ◌+◌, ◌⊎◌, ℕ, List, length, IfOk, IfErr, MatchResult};
ghost use Rattle.quad_field.specs.FieldNumber.{IsFieldNumber};
ghost use Rattle.surface_text.specs.declared.file.TextFault.TheVariants.{Bad, Memory};
ghost use Rattle.surface_text.specs.Spelling.{Content, content, text, lines_before_end};
ghost use Rattle.surface_text.specs.Limits.{IsWithinLimits};
ghost use Rattle.surface_text.specs.Causes.{IsRefused, number_of};
ghost use Rattle.surface_text.specs.Refusals.{IsFaultOf, IsTextOf};
ghost use Rattle.surface_text.specs.Lines.{IsFaultAt, IsBody, behind_field};

use super::cause::Cause;
use super::file::{SurfaceFile, TextFault};
use super::lines::{BodyLine, field_line, first_line, next_line};
use super::sides::LineFault;
use std::alloc::Global;

/// The refusal for this cause in this line.
fn bad(cause: Cause, line: u64) -> TextFault
    ensures { result ≡ Bad (number_of cause) line }
{
    TextFault::Bad {
        cause: cause.number(),
        line,
    }
}

/// The same, memory included.
fn fault_at(fault: LineFault, line: u64) -> TextFault
    ensures { IsFaultAt fault line result }
{
    match fault {
        LineFault::Bad(cause) => bad(cause, line),
        LineFault::Memory => TextFault::Memory,
    }
}

/// The number of the line behind the lines of the file so far.
fn next_number(file: &SurfaceFile) -> u64
    requires bases { length file.now.bases.items ≤ 8 }
    requires polygons { length file.now.polygons.items ≤ 256 }
    requires glues { length file.now.glues.items ≤ 1048576 }
    ensures { result ≡ length (lines_before_end (content file.now)) + 1 }
{
    3 + file.bases.len() as u64 + file.polygons.len() as u64 + file.glues.len() as u64
}

/// Reads the lines behind the field line, up to the end line and with it.
fn body(alloc: Global, field: u32, bytes: &[u8]) -> Result<(SurfaceFile, &[u8]), TextFault>
    requires field_number { IsFieldNumber field }
    requires few_bytes { length bytes.now ≤ 1048576 }
    ensures { MatchResult result
        (λ read. IsBody (behind_field field bytes.now) (content read.0) read.1.now)
        (IsFaultOf (behind_field field bytes.now)) }
{
    let mut file = SurfaceFile {
        field,
        bases: Vec::new(alloc),
        polygons: Vec::new(alloc),
        glues: Vec::new(alloc),
    };
    let mut rest = bytes;
    'lines: loop {
        let (line, after) = match next_line(alloc, &file, rest) {
            Ok(taken) => taken,
            Err(fault) => return Err(fault_at(fault, next_number(&file))),
        };
        rest = after;
        match line {
            BodyLine::Base(at) => file.bases.push(at)?,
            BodyLine::Polygon(polygon) => file.polygons.push(polygon)?,
            BodyLine::Glue(glue) => file.glues.push(glue)?,
            BodyLine::End => return Ok((file, rest)),
        }
    }
}

/// The file that the bytes spell, or why they spell none.
fn file_of(alloc: Global, bytes: &[u8]) -> Result<SurfaceFile, TextFault>
    requires { length bytes.now ≤ 1048576 }
    ensures { MatchResult result (λ file. IsTextOf bytes.now (content file)) (IsFaultOf bytes.now) }
{
    let rest = match first_line(bytes) {
        Ok(rest) => rest,
        Err(cause) => return Err(bad(cause, 1)),
    };
    let (field, rest) = match field_line(rest) {
        Ok(taken) => taken,
        Err(cause) => return Err(bad(cause, 2)),
    };
    let (file, rest) = body(alloc, field, rest)?;
    if !rest.is_empty() {
        return Err(bad(Cause::AfterEnd, next_number(&file) + 1));
    }
    Ok(file)
}

/// The file that the bytes spell, all of the bytes. Else the first line with a fault, and the least cause in it.
pub fn read(alloc: Global, bytes: &[u8]) -> Result<SurfaceFile, TextFault>
    requires { length bytes.now ≤ 1048576 }
    // What is answered: the file that the bytes spell, within the limits, or the first refused line and its least cause.
    ensures spelled { IfOk result (λ file. bytes.now ≡ text (content file)) }
    ensures limits { IfOk result (λ file. IsWithinLimits (content file)) }
    ensures cause { IfErr result (IsFaultOf bytes.now) }
    // The other way round: a text within the limits is read as the file that it spells, and what is refused is refused so.
    ensures accepted { (file : Content) → bytes.now ≡ text file → IsWithinLimits file
        → MatchResult result (λ read. content read ≡ file) (λ fault. fault ≡ Memory) }
    ensures refused { (cause line : ℕ) → IsRefused bytes.now cause line
        → MatchResult result (λ _. ⊥) (λ fault. (fault ≡ Bad cause line) ⊎ (fault ≡ Memory)) }
{
    file_of(alloc, bytes)
}
