//! Whole runs of `plain`.

ghost use Rattle.std.specs.Prelude.{◌≤◌};

use super::examples::{
    DOUBLE_OCTAGON, EIERLEGENDE_WOLLMILCHSAU, L_8, L_12, L_13, L_17_MINUS, L_17_PLUS,
};
use super::{
    DOUBLE_PENTAGON, Ends, FLAT_CORNERS, GOLDEN_L, L_CLASS, L_FOUR_SQUARES, L_THREE_SQUARES,
    LARGE_TORUS, OCTAGON, ROW_CLASS, SHEARED_TORUS, TORUS, TORUS_CLASS, TORUS_TRIANGLES,
    TWO_SQUARES, moving, row_of_squares, run,
};
use plane::{Mat2, Vec2, det};
use quad_field::{Field, Quad};
use report_text::{ReportFault, print, read_report};
use std::alloc::{AllocError, Global};
use std::test::Fail;

/// A torus with a second marked point that isn't rational in its lattice.
pub(super) const MARKED_TORUS: &[u8] =
    b"flat 1\nfield 2\npolygon 2,0 -4+2r,1 2-2r,-1\npolygon 0,2 -4+2r,-1 4-2r,-1\npolygon -2,0 -2+2r,-1 4-2r,1\npolygon 0,-2 -2+2r,1 2-2r,1\nglue 0.0 2.0\nglue 1.0 3.0\nglue 0.1 1.2\nglue 1.1 2.2\nglue 2.1 3.2\nglue 3.1 0.2\nend\n";

/// Ends that never fail, with room for long reports.
pub(super) fn roomy() -> Ends {
    Ends {
        most: 65536,
        failing_read: None,
        room: 1_048_576,
    }
}

/// The matrices of the square torus.
const TORUS_MATRICES: &[u8] =
    b"matrices 8\nmatrix 1 2 -1 -1 1\nmatrix 1 1 -2 -1 1\nmatrix 0 1 -1 0 1\nmatrix -1 -1 1 0 1\nmatrix 0 1 -1 -1 1\nmatrix -1 0 0 -1 1\nmatrix 1 1 -1 0 1\nmatrix 0 -1 1 1 1\n";

/// Those of three squares in an L.
const L_MATRICES: &[u8] =
    b"matrices 4\nmatrix 0 1 -1 0 1\nmatrix -2 -1 1 0 1\nmatrix 0 -1 1 2 1\nmatrix -1 0 0 -1 1\n";

/// Those of two squares in a row, both lattice points marked. Four starts have the code, two of them by the identity.
const ROW_MATRICES: &[u8] =
    b"matrices 4\nmatrix -1 0 1 -1 1\nmatrix 1 0 1 1 1\nmatrix 1 2 -1 -1 1\nmatrix -1 0 0 -1 1\n";

/// The report of one class over the field of √2, with its line and the matrices.
fn report_of_one(alloc: Global, class: &[u8], matrices: &[u8]) -> Result<Vec<u8>, AllocError> {
    let mut text = Vec::from_slice(alloc, b"veech 1\nfield 2\nbase 1/10 11/10\nclasses 1\n")?;
    text.extend_from_slice(class)?;
    text.extend_from_slice(matrices)?;
    text.extend_from_slice(b"end\n")?;
    Ok(text)
}

#[test]
fn prints_the_one_class(rt: HostRuntime) -> Result<(), Fail> {
    let alloc = rt.alloc();
    let rows: [(&[&str], &[u8], &[u8], &[u8]); 5] = [
        (&["plain"], TORUS, TORUS_CLASS, TORUS_MATRICES),
        (
            &["plain", "--limit", "1"],
            TORUS,
            TORUS_CLASS,
            TORUS_MATRICES,
        ),
        (
            &["plain", "--limit=2048", "--flips", "1"],
            TORUS,
            TORUS_CLASS,
            TORUS_MATRICES,
        ),
        (&["plain"], L_THREE_SQUARES, L_CLASS, L_MATRICES),
        (&["plain"], TWO_SQUARES, ROW_CLASS, ROW_MATRICES),
    ];
    for (words, input, class, matrices) in rows {
        let (ended, written) = run(alloc, words, input, moving(4096))?;
        assert_eq!(rt; ended, 0);
        let text = report_of_one(alloc, class, matrices)?;
        assert_eq!(rt; written.as_slice(), text.as_slice());
    }
    Ok(())
}

#[test]
fn refuses_reports(rt: HostRuntime) -> Result<(), Fail> {
    let rows: [(&[&str], &[u8], u8, &[u8]); 16] = [
        (
            &["plain", "--limit", "2"],
            L_FOUR_SQUARES,
            7,
            b"fault limit 2\n",
        ),
        (
            &["plain", "--limit", "20"],
            MARKED_TORUS,
            7,
            b"fault limit 20\n",
        ),
        (
            &["plain"],
            LARGE_TORUS,
            6,
            b"fault wide F2 flips 0 edge 0\n",
        ),
        (
            &["plain", "--flips=4"],
            SHEARED_TORUS,
            5,
            b"fault flips 1/10 11/10\n",
        ),
        (
            &["plain"],
            b"flat 1\nfield 2\nbase 0 1\npolygon 1,0 0,1 -1,0 0,-1\nglue 0.1 0.3\nglue 0.2 0.0\nend\n",
            4,
            b"fault strict 2\n",
        ),
        (
            &["plain"],
            b"flat 1\nfield 2\nbase 1 1\npolygon 1,0 0,1 -1,0 0,-1\nglue 0.1 0.3\nglue 0.2 0.0\nend\n",
            3,
            b"fault file 9 3 BadBase\n",
        ),
        (&["plain"], b"", 3, b"fault file 1 1 NoLine\n"),
        (&["plain", "--limit", "0"], TORUS, 2, b"fault words\n"),
        (&["plain", "--limit", "2049"], TORUS, 2, b"fault words\n"),
        (&["plain", "--limit", "01"], TORUS, 2, b"fault words\n"),
        (&["plain", "--limit"], TORUS, 2, b"fault words\n"),
        (
            &["plain", "--limit=7", "--limit", "7"],
            TORUS,
            2,
            b"fault words\n",
        ),
        (&["plain", "--summarys"], TORUS, 2, b"fault words\n"),
        (&["plain", "--flips", "0"], TORUS, 2, b"fault words\n"),
        (&["plain", "7"], TORUS, 2, b"fault words\n"),
        (&["base", "--limit", "7"], TORUS, 2, b"fault words\n"),
    ];
    for (words, input, status, text) in rows {
        let (ended, written) = run(rt.alloc(), words, input, moving(4096))?;
        assert_eq!(rt; ended, status);
        assert_eq!(rt; written.as_slice(), text);
    }
    Ok(())
}

/// So many squares in a row have as many classes as the lattice of index n has images under SL(2, Z), in threes but for those
/// that a turn of order three keeps: (3 + 0) / 3, (4 + 2 * 1) / 3, (14 + 2 * 2) / 3, (90 + 0) / 3.
#[test]
fn counts_the_classes_of_rows(rt: HostRuntime) -> Result<(), Fail> {
    let alloc = rt.alloc();
    for (n, classes) in [(2, 1), (3, 2), (13, 6), (50, 30)] {
        let input = row_of_squares(alloc, n, false)?;
        let limit = format!(in alloc; "--limit={classes}")?;
        let (ended, written) = run(alloc, &["plain", limit.as_str()], input.as_bytes(), roomy())?;
        assert_eq!(rt; ended, 0);
        let front = format!(in alloc;
            "veech 1\nfield 2\nbase 1/10 11/10\nclasses {classes}\nclass "
        )?;
        assert!(rt; written.starts_with(front.as_bytes()));
    }
    for (n, limit, text) in [
        (3, "--limit=1", "fault limit 1\n"),
        (13, "--limit=5", "fault limit 5\n"),
    ] {
        let input = row_of_squares(alloc, n, false)?;
        let (ended, written) = run(alloc, &["plain", limit], input.as_bytes(), roomy())?;
        assert_eq!(rt; ended, 7);
        assert_eq!(rt; written.as_slice(), text.as_bytes());
    }
    Ok(())
}

/// Whether a matrix has determinant 1.
fn has_determinant_one(f: &Field, m: &Mat2) -> bool {
    let [a, b, c, d] = *m.entries();
    let first = Vec2 { s: a, t: b };
    let second = Vec2 { s: c, t: d };
    let (Ok(determinant), Some(square)) = (
        det(f, &first, &second),
        m.denominator().checked_mul(m.denominator()),
    ) else {
        return false;
    };
    determinant == Quad { a: square, b: 0 }
}

/// Whether a report is read back as it was printed, has matrices of determinant 1 alone, and with one class more in its count is
/// bad in the line behind its classes.
fn is_read_back(alloc: Global, written: &[u8]) -> Result<bool, AllocError> {
    let Ok(report) = read_report(alloc, written) else {
        return Ok(false);
    };
    let Some(f) = Field::make(report.field) else {
        return Ok(false);
    };
    for m in &report.mats {
        if !has_determinant_one(&f, m) {
            return Ok(false);
        }
    }
    let again = print(alloc, &report)?;
    let classes = report.codes.len();
    let front = format!(in alloc;
        "veech 1\nfield {}\nbase 1/10 11/10\nclasses ",
        report.field
    )?;
    let counted = format!(in alloc; "{front}{classes}")?;
    let mut more = format!(in alloc; "{front}{}", classes.saturating_add(1))?.into_bytes();
    let Some(rest) = written.get(counted.len()..) else {
        return Ok(false);
    };
    more.extend_from_slice(rest)?;
    let line = (classes as u64).saturating_add(5);
    Ok(
        again.as_slice() == written
            && written.starts_with(counted.as_bytes())
            && read_report(alloc, more.as_slice()).err() == Some(ReportFault::Bad { line }),
    )
}

#[test]
fn closes_every_example(rt: HostRuntime) -> Result<(), Fail> {
    let examples = [
        TORUS,
        TORUS_TRIANGLES,
        L_THREE_SQUARES,
        L_FOUR_SQUARES,
        FLAT_CORNERS,
        OCTAGON,
        GOLDEN_L,
        DOUBLE_PENTAGON,
        DOUBLE_OCTAGON,
        EIERLEGENDE_WOLLMILCHSAU,
        L_8,
        L_12,
        L_13,
        L_17_MINUS,
        L_17_PLUS,
    ];
    for input in examples {
        let (ended, written) = run(rt.alloc(), &["plain"], input, roomy())?;
        assert_eq!(rt; ended, 0);
        assert!(rt; is_read_back(rt.alloc(), written.as_slice())?);
    }
    Ok(())
}
