//! The texts of `plain --summary` and `trial`: how many classes and matrices a report has.

ghost use Rattle.std.specs.Prelude.{◌≡◌, ◌++◌, length, IfOk, OnOk};
ghost use Rattle.answer_text.specs.SummaryTexts.{summary_lines, trial_lines};

use plane::put_natural;
use report_text::Report;
use std::alloc::{AllocError, Global};

/// The numbers of classes and matrices of a report, as `plain --summary` prints them.
pub fn summary_text(alloc: Global, report: &Report) -> Result<Vec<u8>, AllocError>
    ensures { IfOk result (λ text. text.items ≡ summary_lines (length report.now.codes.items) (length report.now.mats.items)) }
{
    let mut text = Vec::new(alloc);
    put_summary(alloc, &mut text, report)?;
    Ok(text)
}

/// The number of a surface of the families, and the numbers of classes and matrices of its report, as `trial` prints them.
pub fn trial_text(alloc: Global, number: u32, report: &Report) -> Result<Vec<u8>, AllocError>
    ensures { IfOk result (λ text. text.items ≡ trial_lines number (length report.now.codes.items) (length report.now.mats.items)) }
{
    let mut text = Vec::from_slice(alloc, b"trial ")?;
    put_natural(alloc, &mut text, u64::from(number))?;
    text.extend_from_slice(b"\n")?;
    put_summary(alloc, &mut text, report)?;
    Ok(text)
}

/// Appends the numbers of classes and matrices.
fn put_summary(alloc: Global, out: &mut Vec<u8>, report: &Report) -> Result<(), AllocError>
    ensures { OnOk result (out.new.items ≡ out.old.items ++ summary_lines (length report.now.codes.items) (length report.now.mats.items)) }
{
    out.extend_from_slice(b"classes ")?;
    put_natural(alloc, out, report.codes.len() as u64)?;
    out.extend_from_slice(b"\nmatrices ")?;
    put_natural(alloc, out, report.mats.len() as u64)?;
    out.extend_from_slice(b"\nend\n")?;
    Ok(())
}
