//! Reports and their text.

ghost use Rattle.std.specs.Prelude.{◌≡◌, ◌++◌, IfOk, OnOk};
ghost use Rattle.std.specs.List.{flat_map};
ghost use Rattle.surface_text.specs.Limits.{IsBasePoint};
ghost use Rattle.report_text.specs.Reports.{class_line, matrix_line, head_text, classes_text, matrices_text, report_text};

use super::{put_class, put_matrix};
use canon_code::Code;
use plane::{Mat2, put_natural};
use std::alloc::{AllocError, Global};
use surface_text::{Point, put_point};

/// What was found of a surface.
#[derive(Drop)]
pub struct Report {
    /// The number of the field.
    pub field: u32,
    /// The point at which the base is strictly Delaunay.
    pub point: Point,
    /// The codes of the classes, ascending.
    pub codes: Vec<Code>,
    /// The matrices that generate the group.
    pub mats: Vec<Mat2>,
}

/// The text of a report.
pub fn print(alloc: Global, report: &Report) -> Result<Vec<u8>, AllocError>
    requires { IsBasePoint report.now.point }
    ensures { IfOk result (λ text. text.items ≡ report_text report.now.field report.now.point report.now.codes.items report.now.mats.items) }
{
    let mut text = Vec::new(alloc);
    put_head(alloc, &mut text, report.field, &report.point)?;
    put_classes(alloc, &mut text, report.codes.as_slice())?;
    put_matrices(alloc, &mut text, report.mats.as_slice())?;
    text.extend_from_slice(b"end\n")?;
    Ok(text)
}

/// Appends the lines of the version, the field and the base point.
fn put_head(alloc: Global, out: &mut Vec<u8>, field: u32, point: &Point) -> Result<(), AllocError>
    requires { IsBasePoint point.now }
    ensures { OnOk result (out.new.items ≡ out.old.items ++ head_text field point.now) }
{
    out.extend_from_slice(b"veech 1\nfield ")?;
    put_natural(alloc, out, u64::from(field))?;
    out.extend_from_slice(b"\nbase ")?;
    put_point(alloc, out, point)?;
    out.extend_from_slice(b"\n")?;
    Ok(())
}

/// Appends the number of classes, and a line for each.
fn put_classes(alloc: Global, out: &mut Vec<u8>, classes: &[Code]) -> Result<(), AllocError>
    ensures { OnOk result (out.new.items ≡ out.old.items ++ classes_text classes.now) }
{
    out.extend_from_slice(b"classes ")?;
    put_natural(alloc, out, classes.len() as u64)?;
    out.extend_from_slice(b"\n")?;
    put_class_lines(alloc, out, classes)?;
    Ok(())
}

/// Appends the lines of classes.
fn put_class_lines(alloc: Global, out: &mut Vec<u8>, classes: &[Code]) -> Result<(), AllocError>
    ensures { OnOk result (out.new.items ≡ out.old.items ++ flat_map class_line classes.now) }
{
    for class in classes {
        put_class(alloc, out, class)?;
        out.extend_from_slice(b"\n")?;
    }
    Ok(())
}

/// Appends the number of matrices, and a line for each.
fn put_matrices(alloc: Global, out: &mut Vec<u8>, matrices: &[Mat2]) -> Result<(), AllocError>
    ensures { OnOk result (out.new.items ≡ out.old.items ++ matrices_text matrices.now) }
{
    out.extend_from_slice(b"matrices ")?;
    put_natural(alloc, out, matrices.len() as u64)?;
    out.extend_from_slice(b"\n")?;
    put_matrix_lines(alloc, out, matrices)?;
    Ok(())
}

/// Appends the lines of matrices.
fn put_matrix_lines(alloc: Global, out: &mut Vec<u8>, matrices: &[Mat2]) -> Result<(), AllocError>
    ensures { OnOk result (out.new.items ≡ out.old.items ++ flat_map matrix_line matrices.now) }
{
    for matrix in matrices {
        put_matrix(alloc, out, matrix)?;
        out.extend_from_slice(b"\n")?;
    }
    Ok(())
}
