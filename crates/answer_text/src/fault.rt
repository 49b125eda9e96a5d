//! The line of a refusal.

ghost use Rattle.std.specs.Prelude.{◌≡◌, IfOk};
ghost use Rattle.surface_text.specs.Limits.{IsBasePoint};
ghost use Rattle.answer_text.specs.Lines.{status_line};
ghost use Rattle.answer_text.specs.Statuses.{HasBasePoint};

use super::cause::name_of;
use super::formula::name_of_formula;
use super::no_cause::no_line;
use super::place::put_place;
use super::{Place, Status};
use plane::put_natural;
use quad_field::Formula;
use std::alloc::{AllocError, Global};
use surface_text::{Point, put_point};

/// The one line that a status writes in place of output, with its line feed. `Done` and `WriteFault` have none: there it is empty.
pub fn fault_line(alloc: Global, status: &Status) -> Result<Vec<u8>, AllocError>
    requires { HasBasePoint status.now }
    ensures { IfOk result (λ text. text.items ≡ status_line status.now) }
{
    match status {
        Status::Done => Vec::from_slice(alloc, b""),
        Status::Words => Vec::from_slice(alloc, b"fault words\n"),
        Status::File { cause, line } => file_line(alloc, *cause, *line),
        Status::NotStrict { edge } => strict_line(alloc, *edge),
        Status::FlipsEnded { point } => flips_line(alloc, point),
        Status::TooWide { formula, place } => wide_line(alloc, *formula, place),
        Status::LimitPassed { limit } => limit_line(alloc, *limit),
        Status::ReadFault => Vec::from_slice(alloc, b"fault read\n"),
        Status::WriteFault => Vec::from_slice(alloc, b""),
        Status::Memory => Vec::from_slice(alloc, b"fault memory\n"),
        Status::No(cause) => no_line(alloc, *cause),
    }
}

/// The line of a refused file.
fn file_line(alloc: Global, cause: u8, line: u64) -> Result<Vec<u8>, AllocError>
    ensures { IfOk result (λ text. text.items ≡ status_line (Status.File cause line)) }
{
    let mut text = Vec::from_slice(alloc, b"fault file ")?;
    put_natural(alloc, &mut text, u64::from(cause))?;
    text.extend_from_slice(b" ")?;
    put_natural(alloc, &mut text, line)?;
    text.extend_from_slice(b" ")?;
    text.extend_from_slice(name_of(cause))?;
    text.extend_from_slice(b"\n")?;
    Ok(text)
}

/// The line of a triangulation that isn't strict.
fn strict_line(alloc: Global, edge: u32) -> Result<Vec<u8>, AllocError>
    ensures { IfOk result (λ text. text.items ≡ status_line (Status.NotStrict edge)) }
{
    let mut text = Vec::from_slice(alloc, b"fault strict ")?;
    put_natural(alloc, &mut text, u64::from(edge))?;
    text.extend_from_slice(b"\n")?;
    Ok(text)
}

/// The line of flips that ended too early.
fn flips_line(alloc: Global, point: &Point) -> Result<Vec<u8>, AllocError>
    requires { IsBasePoint point.now }
    ensures { IfOk result (λ text. text.items ≡ status_line (Status.FlipsEnded point.now)) }
{
    let mut text = Vec::from_slice(alloc, b"fault flips ")?;
    put_point(alloc, &mut text, point)?;
    text.extend_from_slice(b"\n")?;
    Ok(text)
}

/// The line of a limit that was passed.
fn limit_line(alloc: Global, limit: u32) -> Result<Vec<u8>, AllocError>
    ensures { IfOk result (λ text. text.items ≡ status_line (Status.LimitPassed limit)) }
{
    let mut text = Vec::from_slice(alloc, b"fault limit ")?;
    put_natural(alloc, &mut text, u64::from(limit))?;
    text.extend_from_slice(b"\n")?;
    Ok(text)
}

/// The line of a formula that is too wide.
fn wide_line(alloc: Global, formula: Formula, place: &Place) -> Result<Vec<u8>, AllocError>
    ensures { IfOk result (λ text. text.items ≡ status_line (Status.TooWide formula place.now)) }
{
    let mut text = Vec::from_slice(alloc, b"fault wide ")?;
    text.extend_from_slice(name_of_formula(formula))?;
    text.extend_from_slice(b" ")?;
    put_place(alloc, &mut text, place)?;
    text.extend_from_slice(b"\n")?;
    Ok(text)
}
