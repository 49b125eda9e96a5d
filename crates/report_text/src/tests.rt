//! The report of the square torus, byte for byte, both ways, and texts that are no reports.

use super::{Report, ReportFault, print, read_matrix, read_report};
use canon_code::{CodeFault, code_text, read_code};
use plane::{Mat2, mat_equal};
use quad_field::{Field, Formula, Quad};
use std::alloc::Global;
use std::test::Fail;
use surface_text::read_point;

/// The code of the square torus.
const TORUS: &[u8] = b"2 1 1 0 0 0 0 0 1 0 3 4 5 -1 0 0 0 0 0 -1 0 0 1 2";

/// The report of the square torus.
const REPORT: &[u8] =
    b"veech 1\nfield 2\nbase 1/10 11/10\nclasses 1\nclass 2 1 1 0 0 0 0 0 1 0 3 4 5 -1 0 0 0 0 0 -1 0 0 1 2\nmatrices 8\nmatrix 1 2 -1 -1 1\nmatrix 1 1 -2 -1 1\nmatrix 0 1 -1 0 1\nmatrix -1 -1 1 0 1\nmatrix 0 1 -1 -1 1\nmatrix -1 0 0 -1 1\nmatrix 1 1 -1 0 1\nmatrix 0 -1 1 1 1\nend\n";

/// The rows of the matrices of the square torus.
const ROWS: [[i128; 4]; 8] = [
    [1, 2, -1, -1],
    [1, 1, -2, -1],
    [0, 1, -1, 0],
    [-1, -1, 1, 0],
    [0, 1, -1, -1],
    [-1, 0, 0, -1],
    [1, 1, -1, 0],
    [0, -1, 1, 1],
];

/// The matrix of four whole numbers.
fn whole_matrix(rows: &[i128; 4]) -> Mat2 {
    let [a, b, c, d] = *rows;
    Mat2::reduced(
        [
            Quad { a, b: 0 },
            Quad { a: b, b: 0 },
            Quad { a: c, b: 0 },
            Quad { a: d, b: 0 },
        ],
        1,
    )
}

#[test]
fn prints_the_report_of_the_square_torus(rt: HostRuntime) -> Result<(), Fail> {
    let f = Field::make(2).ok_or("2 is square-free")?;
    let Ok(code) = read_code(rt.alloc(), &f, TORUS) else {
        return Err("no code".into());
    };
    let mut codes = Vec::new(rt.alloc());
    codes.push(code)?;
    let mut mats = Vec::new(rt.alloc());
    for rows in &ROWS {
        mats.push(whole_matrix(rows))?;
    }
    let Some(point) = read_point(b"1/10 11/10") else {
        return Err("no base point".into());
    };
    let report = Report {
        field: 2,
        point,
        codes,
        mats,
    };
    let text = print(rt.alloc(), &report)?;
    assert_eq!(rt; text.as_slice(), REPORT);
    Ok(())
}

/// The lines of the square torus up to its class.
const HEAD: &str =
    "veech 1\nfield 2\nbase 1/10 11/10\nclasses 1\nclass 2 1 1 0 0 0 0 0 1 0 3 4 5 -1 0 0 0 0 0 -1 0 0 1 2\n";

/// The same with a second class line wanted.
const HEAD_OF_TWO: &str =
    "veech 1\nfield 2\nbase 1/10 11/10\nclasses 2\nclass 2 1 1 0 0 0 0 0 1 0 3 4 5 -1 0 0 0 0 0 -1 0 0 1 2\n";

/// The lines before the number of classes.
const BASE: &str = "veech 1\nfield 2\nbase 1/10 11/10\n";

/// What the text of these two parts is refused for; none where it is read.
const REFUSALS: [(&str, &str, Option<ReportFault>); 49] = [
    (HEAD, "matrices 0\nend\n", None),
    (HEAD, "matrices 1\nmatrix 1 0 0 1 1\nend\n", None),
    (
        HEAD_OF_TWO,
        "class 4 1 1 0 0 0 0 0 1 0 3 4 6 -1 0 0 0 0 0 -1 0 0 1 9 1 0 1 0 -1 0 0 0 2 10 11 -1 0 -1 0 1 0 0 0 5 7 8\nmatrices 0\nend\n",
        None,
    ),
    ("", "", Some(ReportFault::Bad { line: 1 })),
    ("", "veech 1", Some(ReportFault::Bad { line: 1 })),
    ("", "veech 2\n", Some(ReportFault::Bad { line: 1 })),
    ("", "flat 1\n", Some(ReportFault::Bad { line: 1 })),
    ("", "veech 1 \n", Some(ReportFault::Bad { line: 1 })),
    ("", "veech 1\n", Some(ReportFault::Bad { line: 2 })),
    ("", "veech 1\nfield 2", Some(ReportFault::Bad { line: 2 })),
    ("", "veech 1\nfield 4\n", Some(ReportFault::Bad { line: 2 })),
    (
        "",
        "veech 1\nfield 02\n",
        Some(ReportFault::Bad { line: 2 }),
    ),
    (
        "",
        "veech 1\nfield 1001\n",
        Some(ReportFault::Bad { line: 2 }),
    ),
    (
        "",
        "veech 1\nbase 0 1\n",
        Some(ReportFault::Bad { line: 2 }),
    ),
    (
        "",
        "veech 1\nfield 2\nbase 1 1\n",
        Some(ReportFault::Bad { line: 3 }),
    ),
    (
        "",
        "veech 1\nfield 2\nbase 2/20 11/10\n",
        Some(ReportFault::Bad { line: 3 }),
    ),
    (
        "",
        "veech 1\nfield 2\nbase 1/10\n",
        Some(ReportFault::Bad { line: 3 }),
    ),
    (
        "",
        "veech 1\nfield 2\nclasses 1\n",
        Some(ReportFault::Bad { line: 3 }),
    ),
    (BASE, "classes 0\n", Some(ReportFault::Bad { line: 4 })),
    (
        BASE,
        "classes 170141183460469231731687303715884105728\n",
        Some(ReportFault::Bad { line: 4 }),
    ),
    (BASE, "classes -1\n", Some(ReportFault::Bad { line: 4 })),
    (BASE, "class 1\n", Some(ReportFault::Bad { line: 4 })),
    (
        BASE,
        "classes 170141183460469231731687303715884105727\n",
        Some(ReportFault::Bad { line: 5 }),
    ),
    (
        BASE,
        "classes 1\nmatrices 0\n",
        Some(ReportFault::Bad { line: 5 }),
    ),
    (
        BASE,
        "classes 1\nclass\n",
        Some(ReportFault::Bad { line: 5 }),
    ),
    (
        BASE,
        "classes 1\nclass 2 1",
        Some(ReportFault::Bad { line: 5 }),
    ),
    (
        BASE,
        "classes 1\nclass \n",
        Some(ReportFault::Code {
            line: 5,
            fault: CodeFault::Form,
        }),
    ),
    (
        BASE,
        "classes 1\nclass 2  1\n",
        Some(ReportFault::Code {
            line: 5,
            fault: CodeFault::Form,
        }),
    ),
    (
        BASE,
        "classes 1\nclass 2 1\n",
        Some(ReportFault::Code {
            line: 5,
            fault: CodeFault::NotCode,
        }),
    ),
    (
        BASE,
        "classes 1\nclass 2 1 -170141183460469231731687303715884105728 0 0 0 0 0 1 0 3 4 5 -1 0 0 0 0 0 -1 0 0 1 2\n",
        Some(ReportFault::Code {
            line: 5,
            fault: CodeFault::Wide(Formula::F13),
        }),
    ),
    (
        HEAD_OF_TWO,
        "class 2 1 1 0 0 0 0 0 1 0 3 4 5 -1 0 0 0 0 0 -1 0 0 1 2\n",
        Some(ReportFault::Bad { line: 6 }),
    ),
    (
        HEAD_OF_TWO,
        "class 2\n",
        Some(ReportFault::Code {
            line: 6,
            fault: CodeFault::NotCode,
        }),
    ),
    (
        HEAD_OF_TWO,
        "matrices 0\nend\n",
        Some(ReportFault::Bad { line: 6 }),
    ),
    (HEAD, "class 2\n", Some(ReportFault::Bad { line: 6 })),
    (HEAD, "", Some(ReportFault::Bad { line: 6 })),
    (HEAD, "matrices\n", Some(ReportFault::Bad { line: 6 })),
    (HEAD, "matrices 01\n", Some(ReportFault::Bad { line: 6 })),
    (
        HEAD,
        "matrices 170141183460469231731687303715884105728\n",
        Some(ReportFault::Bad { line: 6 }),
    ),
    (HEAD, "matrices 0\n", Some(ReportFault::Bad { line: 7 })),
    (
        HEAD,
        "matrices 1\nend\n",
        Some(ReportFault::Bad { line: 7 }),
    ),
    (
        HEAD,
        "matrices 1\nmatrix 2 0 0 2 2\nend\n",
        Some(ReportFault::Bad { line: 7 }),
    ),
    (
        HEAD,
        "matrices 1\nmatrix 1 0 0 1 1",
        Some(ReportFault::Bad { line: 7 }),
    ),
    (
        HEAD,
        "matrices 0\nmatrix 1 0 0 1 1\nend\n",
        Some(ReportFault::Bad { line: 7 }),
    ),
    (HEAD, "matrices 0\nend", Some(ReportFault::Bad { line: 7 })),
    (
        HEAD,
        "matrices 0\nend \n",
        Some(ReportFault::Bad { line: 7 }),
    ),
    (
        HEAD,
        "matrices 2\nmatrix 1 0 0 1 1\nend\n",
        Some(ReportFault::Bad { line: 8 }),
    ),
    (
        HEAD,
        "matrices 0\nend\n\n",
        Some(ReportFault::Bad { line: 8 }),
    ),
    (
        HEAD,
        "matrices 0\nend\nend",
        Some(ReportFault::Bad { line: 8 }),
    ),
    (
        BASE,
        "classes 2\nclass 2\nend\n",
        Some(ReportFault::Code {
            line: 5,
            fault: CodeFault::NotCode,
        }),
    ),
];

/// What the text of two parts is refused for.
fn refusal(alloc: Global, front: &str, back: &str) -> Result<Option<ReportFault>, Fail> {
    let mut text = Vec::new(alloc);
    text.extend_from_slice(front.as_bytes())?;
    text.extend_from_slice(back.as_bytes())?;
    Ok(read_report(alloc, text.as_slice()).err())
}

#[test]
fn refuses_what_is_no_report(rt: HostRuntime) -> Result<(), Fail> {
    for (front, back, fault) in REFUSALS {
        let found = refusal(rt.alloc(), front, back)?;
        assert!(rt; found == fault);
    }
    Ok(())
}

/// The square torus with the number of its classes changed to two.
const TWO_WANTED: &[u8] =
    b"veech 1\nfield 2\nbase 1/10 11/10\nclasses 2\nclass 2 1 1 0 0 0 0 0 1 0 3 4 5 -1 0 0 0 0 0 -1 0 0 1 2\nmatrices 8\nmatrix 1 2 -1 -1 1\nmatrix 1 1 -2 -1 1\nmatrix 0 1 -1 0 1\nmatrix -1 -1 1 0 1\nmatrix 0 1 -1 -1 1\nmatrix -1 0 0 -1 1\nmatrix 1 1 -1 0 1\nmatrix 0 -1 1 1 1\nend\n";

#[test]
fn reads_the_report_of_the_square_torus(rt: HostRuntime) -> Result<(), Fail> {
    let Ok(report) = read_report(rt.alloc(), REPORT) else {
        return Err("no report".into());
    };
    assert_eq!(rt; report.field, 2);
    assert_eq!(rt; Some(report.point), read_point(b"1/10 11/10"));
    assert_eq!(rt; report.codes.len(), 1);
    let text = code_text(rt.alloc(), &report.codes[0])?;
    assert_eq!(rt; text.as_slice(), TORUS);
    assert_eq!(rt; report.mats.len(), 8);
    for (matrix, rows) in report.mats.iter().zip(&ROWS) {
        let same = mat_equal(matrix, &whole_matrix(rows));
        assert!(rt; same);
    }
    let refused = read_report(rt.alloc(), TWO_WANTED).err();
    assert!(rt; refused == Some(ReportFault::Bad { line: 6 }));
    Ok(())
}

/// Whether the line is read as the matrix with these parts, by rows, over this denominator.
fn is_matrix_line(line: &str, parts: [(i128, i128); 4], den: i128) -> bool {
    let [(a, ar), (b, br), (c, cr), (d, dr)] = parts;
    match read_matrix(line.as_bytes()) {
        Some(m) => {
            *m.entries()
                == [
                    Quad { a, b: ar },
                    Quad { a: b, b: br },
                    Quad { a: c, b: cr },
                    Quad { a: d, b: dr },
                ]
                && m.denominator() == den
        }
        None => false,
    }
}

/// Lines of matrices, the last three at the limits of 128 bits.
const MATRIX_LINES: [(&str, [(i128, i128); 4], i128); 5] = [
    ("matrix 1 2 -1 -1 1", [(1, 0), (2, 0), (-1, 0), (-1, 0)], 1),
    (
        "matrix 0+1r -3-2r 0 1 2",
        [(0, 1), (-3, -2), (0, 0), (1, 0)],
        2,
    ),
    (
        "matrix 170141183460469231731687303715884105727 0 0 -170141183460469231731687303715884105728 1",
        [(i128::MAX, 0), (0, 0), (0, 0), (i128::MIN, 0)],
        1,
    ),
    (
        "matrix 0+170141183460469231731687303715884105727r 0 0 0-170141183460469231731687303715884105728r 1",
        [(0, i128::MAX), (0, 0), (0, 0), (0, i128::MIN)],
        1,
    ),
    (
        "matrix 1 0 0 1 170141183460469231731687303715884105727",
        [(1, 0), (0, 0), (0, 0), (1, 0)],
        i128::MAX,
    ),
];

/// Lines of no matrix.
const NO_MATRIX_LINES: [&str; 16] = [
    "",
    "matrix",
    "matrices 1 0 0 1 1",
    "matrix 1 0 0 1",
    "matrix 1 0 0 1 1 1",
    "matrix  1 0 0 1 1",
    "matrix 1 0 0 1 1 ",
    "matrix 1 0 0 1 1\n",
    "matrix 1 0 0 1 0",
    "matrix 1 0 0 1 -1",
    "matrix 1 0 0 01 1",
    "matrix 1+0r 0 0 1 1",
    "matrix 2 0 0 4 2",
    "matrix 0 0 0 0 2",
    "matrix 1 0 0 170141183460469231731687303715884105728 1",
    "matrix 1 0 0 1 170141183460469231731687303715884105728",
];

#[test]
fn reads_matrices(rt: HostRuntime) -> Result<(), Fail> {
    for (line, parts, den) in MATRIX_LINES {
        let found = is_matrix_line(line, parts, den);
        assert!(rt; found);
    }
    for line in NO_MATRIX_LINES {
        let found = read_matrix(line.as_bytes());
        assert!(rt; found.is_none());
    }
    Ok(())
}
