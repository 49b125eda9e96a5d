//! Reading a report.

ghost use Rattle.std.specs.Prelude.{◌≡◌, ◌≢◌, ◌⊎◌, ◌↔◌, ◌<◌, ◌^◌, ◌∷◌, ◌++◌, ℕ, ℤ, List, [], length, IsTrue, IfOk, IfErr, MatchResult};
ghost use Rattle.std.specs.List.{AllByRecursion};
ghost use Rattle.plane.specs.Matrices.{FieldMatrix};
ghost use Rattle.surface_text.specs.declared.file.Point.{Point as PointValue};
ghost use Rattle.canon_code.specs.Canonical.{IsMade};
ghost use Rattle.canon_code.specs.declared.fault.CodeFault.TheVariants.{Memory};
ghost use Rattle.report_text.specs.declared.fault.ReportFault.{ReportFault as ReportFaultValue};
ghost use Rattle.report_text.specs.declared.fault.ReportFault.TheVariants.{Code as CodeRefusal, Memory as OutOfMemory};
ghost use Rattle.report_text.specs.Reports.{report_text};
ghost use Rattle.report_text.specs.Lines.{Line, line_text, lines_then, head_lines};
ghost use Rattle.report_text.specs.Limits.{IsClass, IsAboveLast, IsReport};
ghost use Rattle.report_text.specs.Following.{SoFar, AllFollow};
ghost use Rattle.report_text.specs.Refusals.{IsFaultBehind, IsFaultOf, IsFree};
ghost use Rattle.report_text.specs.Readings.{IsNextFault, AreClassesRead, AreMatricesRead};

use super::lines::{
    base_line, class_count_line, end_line, field_line, matrix_count_line, matrix_line,
    split_at_first, version_line,
};
use super::{Report, ReportFault};
use canon_code::{Code, CodeFault, read_code};
use plane::Mat2;
use quad_field::Field;
use std::alloc::Global;
use surface_text::Point;

/// What the lines before the class lines say.
#[derive(Drop)]
struct Head {
    field: Field,
    point: Point,
    /// How many class lines are wanted.
    classes: u128,
}

/// Reads the lines before the class lines.
fn read_head(bytes: &[u8]) -> Result<(Head, &[u8]), ReportFault>
    ensures { MatchResult result
        (λ read. (bytes.now ≡ lines_then (head_lines read.0.field read.0.point read.0.classes) read.1.now)
        × AllFollow SoFar.nothing (head_lines read.0.field read.0.point read.0.classes))
        (IsFaultOf bytes.now) }
{
    let Some(after_version) = version_line(bytes) else {
        return Err(ReportFault::Bad { line: 1 });
    };
    let Some(read) = field_line(after_version) else {
        return Err(ReportFault::Bad { line: 2 });
    };
    let (field, after_field) = read;
    let Some((point, after_base)) = base_line(after_field) else {
        return Err(ReportFault::Bad { line: 3 });
    };
    let Some((classes, after_count)) = class_count_line(after_base) else {
        return Err(ReportFault::Bad { line: 4 });
    };
    let head = Head {
        field,
        point,
        classes,
    };
    Ok((head, after_count))
}

/// The code is above the last of these, where there is a last.
fn is_above_last(codes: &[Code], code: &Code) -> bool
    ensures { IsTrue result ↔ IsAboveLast codes.now code.now }
{
    match codes.last() {
        Some(last) => last.cmp(code).is_lt(),
        None => true,
    }
}

/// The refusal of the class line of this number, whose text is refused so.
fn code_refusal(line: u64, fault: CodeFault) -> ReportFault
    ensures code { fault ≢ Memory → result ≡ CodeRefusal line fault }
    ensures memory { fault ≡ Memory → result ≡ OutOfMemory }
{
    let CodeFault::Memory = fault else {
        return ReportFault::Code { line, fault };
    };
    ReportFault::Memory
}

/// The code of the next line, which has this number and stands behind those of these codes, and what follows it.
fn class_line<'a>(
    alloc: Global,
    f: &Field,
    codes: &[Code],
    rest: &'a [u8],
    line: u64,
) -> Result<(Code, &'a [u8]), ReportFault>
    ensures read { IfOk result (λ read. (rest.now ≡ line_text (Line.class read.0) ++ 10 ∷ read.1.now) × IsClass f.now read.0 × IsAboveLast codes.now read.0 × IsMade f.now read.0) }
    ensures fault { (n : ℕ) → length codes.now < n → IfErr result (IsNextFault (SoFar.classes f.now n codes.now) rest.now line) }
{
    let Some((bytes, after)) = split_at_first(b'\n', rest) else {
        return Err(ReportFault::Bad { line });
    };
    let Some(text) = bytes.strip_prefix(b"class ") else {
        return Err(ReportFault::Bad { line });
    };
    match read_code(alloc, f, text) {
        Ok(code) if is_above_last(codes, &code) => Ok((code, after)),
        Ok(_) => Err(ReportFault::Bad { line }),
        Err(fault) => Err(code_refusal(line, fault)),
    }
}

/// Reads as many class lines as are wanted, behind the lines of the head.
fn read_classes<'a>(
    alloc: Global,
    f: &Field,
    wanted: u128,
    bytes: &'a [u8],
) -> Result<(Vec<Code>, &'a [u8]), ReportFault>
    ensures read { IfOk result (λ read. AreClassesRead f.now wanted bytes.now read.0.items read.1.now) }
    ensures fault { IfErr result (IsFaultBehind (SoFar.classes f.now wanted []) 4 bytes.now) }
{
    let mut codes = Vec::new(alloc);
    let mut rest = bytes;
    'classes: while (codes.len() as u128) < wanted {
        let line = codes.len() as u64 + 5;
        let (code, after) = match class_line(alloc, f, codes.as_slice(), rest, line) {
            Ok(read) => read,
            Err(fault) => return Err(fault),
        };
        codes.push(code)?;
        rest = after;
    }
    Ok((codes, rest))
}

/// Reads as many matrix lines as are wanted, behind so many lines.
fn read_matrices(
    alloc: Global,
    wanted: u128,
    bytes: &[u8],
    passed: u64,
) -> Result<(Vec<Mat2>, &[u8]), ReportFault>
    requires { passed < 2 ^ 63 }
    ensures read { IfOk result (λ read. AreMatricesRead wanted bytes.now read.0.items read.1.now) }
    ensures fault { IfErr result (IsFaultBehind (SoFar.matrices wanted 0) passed bytes.now) }
{
    let mut mats = Vec::new(alloc);
    let mut rest = bytes;
    'matrices: while (mats.len() as u128) < wanted {
        let Some(read) = matrix_line(rest) else {
            return Err(ReportFault::Bad {
                line: passed + mats.len() as u64 + 1,
            });
        };
        let (matrix, after) = read;
        mats.push(matrix)?;
        rest = after;
    }
    Ok((mats, rest))
}

/// The report that the bytes spell, or their first bad line.
fn report_of(alloc: Global, bytes: &[u8]) -> Result<Report, ReportFault>
    ensures read { IfOk result (λ report. (bytes.now ≡ report_text report.field report.point report.codes.items report.mats.items)
        × IsReport report.field report.point report.codes.items report.mats.items) }
    ensures made { IfOk result (λ report. AllByRecursion (IsMade report.field) report.codes.items) }
    ensures fault { IfErr result (IsFaultOf bytes.now) }
{
    let (head, after_head) = match read_head(bytes) {
        Ok(read) => read,
        Err(fault) => return Err(fault),
    };
    let (codes, after_codes) = match read_classes(alloc, &head.field, head.classes, after_head) {
        Ok(read) => read,
        Err(fault) => return Err(fault),
    };
    let passed = codes.len() as u64 + 4;
    let Some((wanted, after_count)) = matrix_count_line(after_codes) else {
        return Err(ReportFault::Bad { line: passed + 1 });
    };
    let (mats, after_mats) = match read_matrices(alloc, wanted, after_count, passed + 1) {
        Ok(read) => read,
        Err(fault) => return Err(fault),
    };
    let reached = passed + mats.len() as u64 + 1;
    let Some(left) = end_line(after_mats) else {
        return Err(ReportFault::Bad { line: reached + 1 });
    };
    if !left.is_empty() {
        return Err(ReportFault::Bad { line: reached + 2 });
    }
    Ok(Report {
        field: head.field.number(),
        point: head.point,
        codes,
        mats,
    })
}

/// The report that the bytes spell, all of the bytes. Else their first bad line: with the fault of `read_code` where it is a class
/// line in its place whose text isn't read as a code.
pub fn read_report(alloc: Global, bytes: &[u8]) -> Result<Report, ReportFault>
    // What is answered: the report that the bytes spell, within the limits, or the first bad line.
    ensures spelled { IfOk result (λ report. bytes.now ≡ report_text report.field report.point report.codes.items report.mats.items) }
    ensures limits { IfOk result (λ report. IsReport report.field report.point report.codes.items report.mats.items) }
    ensures made { IfOk result (λ report. AllByRecursion (IsMade report.field) report.codes.items) }
    ensures fault { IfErr result (IsFaultOf bytes.now) }
    // The other way round: a text within the limits is read as the report that it spells, and what is refused is refused so, unless width or memory stands in its place.
    ensures accepted { (d : ℕ) (at : PointValue) (codes : List (List ℤ)) (mats : List FieldMatrix) → bytes.now ≡ report_text d at codes mats → IsReport d at codes mats
        → MatchResult result (λ report. (report.field ≡ d) × (report.point ≡ at) × (report.codes.items ≡ codes) × (report.mats.items ≡ mats)) IsFree }
    ensures refused { (fault : ReportFaultValue) → IsFaultOf bytes.now fault → ¬ (IsFree fault) → MatchResult result (λ _. ⊥) (λ answer. (answer ≡ fault) ⊎ IsFree answer) }
{
    report_of(alloc, bytes)
}
