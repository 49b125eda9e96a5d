//! Files at a limit, and one past it.

use super::{TORUS_COUNTS, run, sound};
use std::alloc::{AllocError, Global};
use std::test::Fail;

/// The square file over the field of √998, with a base line so many times.
fn with_bases(alloc: Global, bases: u32, base: &str) -> Result<String, AllocError> {
    let mut text = String::from_str(alloc, "flat 1\nfield 998\n")?;
    for _ in 0..bases {
        text.push_str(base)?;
    }
    text.push_str("polygon 1,0 0,1 -1,0 0,-1\nglue 0.1 0.3\nglue 0.2 0.0\nend\n")?;
    Ok(text)
}

/// A torus of 128 squares in a row, each cut along its diagonal: 256 polygons, and so many more that no side is glued to.
fn cut_squares(alloc: Global, more: u32) -> Result<String, AllocError> {
    let mut text = String::from_str(alloc, "flat 1\nfield 2\n")?;
    for _ in 0..128 {
        text.push_str("polygon 1,0 0,1 -1,-1\npolygon 1,1 -1,0 0,-1\n")?;
    }
    for _ in 0..more {
        text.push_str("polygon 1,0 0,1 -1,-1\n")?;
    }
    for square in 0..128u32 {
        let lower = square * 2;
        let upper = lower + 1;
        let right = (upper + 2) % 256;
        let glues = format!(in alloc;
            "glue {lower}.2 {upper}.0\nglue {lower}.0 {upper}.1\nglue {lower}.1 {right}.2\n"
        )?;
        text.push_str(glues.as_str())?;
    }
    text.push_str("end\n")?;
    Ok(text)
}

/// What `check` writes for the torus of 128 squares.
fn row_counts(alloc: Global) -> Result<String, AllocError> {
    let mut text = String::from_str(
        alloc,
        "valid\ntriangles 256\nedges 384\nvertices 128\ngenus 1\ncones",
    )?;
    for _ in 0..128 {
        text.push_str(" 1")?;
    }
    text.push_str("\nend\n")?;
    Ok(text)
}

/// So many squares, each glued to itself.
fn lone_squares(alloc: Global, n: u32) -> Result<String, AllocError> {
    let mut text = String::from_str(alloc, "flat 1\nfield 2\n")?;
    for _ in 0..n {
        text.push_str("polygon 1,0 0,1 -1,0 0,-1\n")?;
    }
    for p in 0..n {
        let glues = format!(in alloc; "glue {p}.1 {p}.3\nglue {p}.2 {p}.0\n")?;
        text.push_str(glues.as_str())?;
    }
    text.push_str("end\n")?;
    Ok(text)
}

/// The torus of a rectangle with one glue line again and again. Where its field number has two digits it has 48 bytes and 13 more for
/// each of these lines, of which 80,656 make it 1,048,576 bytes long.
fn glued_again(alloc: Global, field: &str, glues: u32) -> Result<String, AllocError> {
    let mut text = format!(in alloc; "flat 1\nfield {field}\npolygon 10,0 0,1 -10,0 0,-1\n")?;
    for _ in 0..glues {
        text.push_str("glue 0.1 0.3\n")?;
    }
    text.push_str("end\n")?;
    Ok(text)
}

#[test]
fn takes_what_is_at_a_limit_and_no_more(rt: HostRuntime) -> Result<(), Fail> {
    let alloc = rt.alloc();
    let counts = row_counts(alloc)?;
    let rows: [(String, u8, &[u8]); 10] = [
        (with_bases(alloc, 8, "base 0 1\n")?, 0, TORUS_COUNTS),
        (
            with_bases(alloc, 9, "base 0 1\n")?,
            3,
            b"fault file 10 11 ManyBases\n",
        ),
        (
            with_bases(alloc, 1, "base 0 1000000000\n")?,
            0,
            TORUS_COUNTS,
        ),
        (
            with_bases(alloc, 1, "base -999999999/1000000000 1\n")?,
            0,
            TORUS_COUNTS,
        ),
        (cut_squares(alloc, 0)?, 0, counts.as_bytes()),
        (
            cut_squares(alloc, 1)?,
            3,
            b"fault file 12 259 ManyPolygons\n",
        ),
        (lone_squares(alloc, 128)?, 3, b"fault file 22 4 Apart\n"),
        (
            lone_squares(alloc, 129)?,
            3,
            b"fault file 21 131 ManyTriangles\n",
        ),
        (
            glued_again(alloc, "10", 80_656)?,
            3,
            b"fault file 18 5 Twice\n",
        ),
        (
            glued_again(alloc, "101", 80_656)?,
            3,
            b"fault file 0 0 TooLong\n",
        ),
    ];
    for (file, status, text) in &rows {
        let (ended, written) = run(alloc, &["check"], file.as_bytes(), sound())?;
        assert_eq!(rt; ended, *status);
        assert_eq!(rt; written.as_slice(), *text);
    }
    Ok(())
}
