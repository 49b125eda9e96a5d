//! Tables of base points and files with their text, and of texts that are refused.

ghost use Rattle.std.specs.Prelude.{◌≡◌, ◌∷◌, [], IfOk};
ghost use Rattle.surface_text.specs.Limits.{IsBasePoint};

use super::{Glue, Point, Polygon, SurfaceFile, TextFault, put_point, read, read_point, write};
use plane::Vec2;
use quad_field::Quad;
use std::alloc::{AllocError, Global};
use std::test::Fail;

fn point(xn: i64, xd: i64, yn: i64, yd: i64) -> Point {
    Point { xn, xd, yn, yd }
}

#[test]
fn reads_and_writes_base_points(rt: HostRuntime) -> Result<(), Fail> {
    for (text, at) in [
        ("0 1", point(0, 1, 1, 1)),
        ("1/10 11/10", point(1, 10, 11, 10)),
        ("-2/13 5/4", point(-2, 13, 5, 4)),
        ("3/11 2", point(3, 11, 2, 1)),
        ("31622 1000000000", point(31622, 1, 1_000_000_000, 1)),
        (
            "-1/1000000000 1/999999999",
            point(-1, 1_000_000_000, 1, 999_999_999),
        ),
        (
            "999999999/1000000000 1",
            point(999_999_999, 1_000_000_000, 1, 1),
        ),
    ] {
        let read = read_point(text.as_bytes());
        assert_eq!(rt; read, Some(at), "at {text}");
        if let Some(found) = read {
            let mut out = Vec::from_slice(rt.alloc(), b"|")?;
            put_point(rt.alloc(), &mut out, &found)?;
            assert_eq!(rt;
                out.split_first(),
                Some((&b'|', text.as_bytes())),
                "at {text}"
            );
        }
    }
    Ok(())
}

#[test]
fn refuses_what_is_no_base_point(rt: HostRuntime) {
    for text in [
        "",
        "0",
        "0 ",
        " 1",
        "0  1",
        "0 1 ",
        "0 1 2",
        "0\t1",
        "0 +1",
        "-0 1",
        "00 1",
        "0 01",
        "0 1/1",
        "0 2/1",
        "0 1/0",
        "0 1/",
        "0 /2",
        "0 2/4",
        "2/2 2",
        "0/2 1",
        "0 1/-2",
        "0 1/02",
        "0 1+1r",
        "0 1r",
        "0 0+1r",
        "0,1",
        "0 1/2/3",
        "1 1",
        "0 0",
        "0 -1",
        "2 3",
        "1/2 1/4",
        "0 1000000001",
        "1000000001 1",
        "0 1/1000000001",
        "-1000000001 1",
        "31623 1000000000",
        "0 1000000000000000000000000000000000000000",
    ] {
        assert_eq!(rt; read_point(text.as_bytes()), None, "at {text}");
    }
}

/// The vector (a + b√D, c + d√D).
fn vector(a: i128, b: i128, c: i128, d: i128) -> Vec2 {
    Vec2 {
        s: Quad { a, b },
        t: Quad { a: c, b: d },
    }
}

/// A file with this base point and a number of each form.
fn of_each_form(alloc: Global, at: Point) -> Result<SurfaceFile, AllocError>
    requires { IsBasePoint at }
    ensures { IfOk result (λ file. file.bases.items ≡ at ∷ []) }
{
    let bases = vec![in alloc; at]?;
    let first = Polygon {
        sides: Vec::from_slice(
            alloc,
            &[
                vector(1, 0, 0, 0),
                vector(0, 1, -10, -1),
                vector(-5, 3, 2, 0),
            ],
        )?,
    };
    let second = Polygon {
        sides: Vec::new(alloc),
    };
    let mut polygons = Vec::new(alloc);
    polygons.push(first)?;
    polygons.push(second)?;
    let glue = Glue {
        p1: 0,
        e1: 2,
        p2: 10,
        e2: 4_294_967_295,
    };
    let glues = vec![in alloc; glue]?;
    Ok(SurfaceFile {
        field: 997,
        bases,
        polygons,
        glues,
    })
}

#[test]
fn writes_each_form_of_a_number(rt: HostRuntime) -> Result<(), Fail> {
    let at = read_point(b"-2/13 5/4");
    assert_eq!(rt; at, Some(point(-2, 13, 5, 4)));
    if let Some(at) = at {
        let file = of_each_form(rt.alloc(), at)?;
        let text = write(rt.alloc(), &file)?;
        assert_eq!(rt;
            text.as_slice(),
            b"flat 1\nfield 997\nbase -2/13 5/4\npolygon 1,0 0+1r,-10-1r -5+3r,2\npolygon\nglue 0.2 10.4294967295\nend\n".as_slice()
        );
    }
    Ok(())
}

/// The square torus.
const SQUARE: &str =
    "flat 1\nfield 2\npolygon 1,0 0,1 -1,0 0,-1\nglue 0.0 0.2\nglue 0.1 0.3\nend\n";

/// A file with each kind of line.
const EACH_KIND: &str =
    "flat 1\nfield 997\nbase -2/13 5/4\nbase 0 1\npolygon 1,0 0+1r,-10-1r -5+3r,2\npolygon 1,0 0,1 -1,-1\nglue 0.2 1.0\nend\n";

/// The cause and the line of a refusal, where the bytes are few enough.
fn refusal(alloc: Global, text: &[u8]) -> Option<(u8, u64)> {
    if text.len() > 1_048_576 {
        return None;
    }
    match read(alloc, text) {
        Err(TextFault::Bad { cause, line }) => Some((cause, line)),
        _ => None,
    }
}

/// What is written of what is read, where the bytes are few enough and are read.
fn written(alloc: Global, text: &[u8]) -> Result<Option<Vec<u8>>, AllocError> {
    if text.len() > 1_048_576 {
        return Ok(None);
    }
    match read(alloc, text) {
        Ok(file) => Ok(Some(write(alloc, &file)?)),
        Err(_) => Ok(None),
    }
}

/// A text with this part so many times in it.
fn repeated(
    alloc: Global,
    start: &str,
    part: &str,
    count: usize,
    end: &str,
) -> Result<String, AllocError> {
    let mut text = String::from_str(alloc, start)?;
    for _ in 0..count {
        text.push_str(part)?;
    }
    text.push_str(end)?;
    Ok(text)
}

#[test]
fn refuses_the_first_line_with_a_fault_for_its_least_cause(rt: HostRuntime) {
    for (text, cause, line) in [
        // A missing line, and one that is cut.
        ("", 1, 1),
        ("flat 1", 2, 1),
        ("x", 2, 1),
        ("flat 1\n", 1, 2),
        ("flat 1\nfield 2", 2, 2),
        ("flat 1\nfield 2\npolygon 1,0 0,1 -1,-1\n", 1, 4),
        ("flat 1\nfield 2\npolygon 1,0 0,1 -1,-1\nend", 2, 4),
        // A byte before all else in its line.
        ("\n", 4, 1),
        ("flat 1\r\n", 3, 1),
        ("flat 2\r\n", 3, 1),
        ("flat 1\nfield 2\npolygon 1,0 0,1\t-1,-1\n", 3, 3),
        ("flat 1\nfield 2\n\u{7f}\n", 3, 3),
        ("flat 1\nfield 2\r\n", 3, 2),
        ("flat 1\nfield 1\t\n", 3, 2),
        ("flat 1\nfield 2\nglue\t0.0\n", 3, 3),
        ("flat 1\nfield 2\nbase 1 1\u{7f}\n", 3, 3),
        ("flat 1\nfield 2\npolygon 2000000000,0 \u{7f}\n", 3, 3),
        ("flat 1\nfield 2\npolygon 1,0 -1,0 é\n", 3, 3),
        // The first line.
        ("flat 2\n", 4, 1),
        (" flat 1\n", 4, 1),
        ("flat 1 \n", 4, 1),
        // A word that may not stand there, against a form.
        ("flat 1\n\n", 5, 2),
        ("flat 1\nfields 2\n", 5, 2),
        ("flat 1\nbase 0 1\n", 5, 2),
        ("flat 1\nfield 2\nglue 0.0 0.1\n", 5, 3),
        ("flat 1\nfield 2\nend\n", 5, 3),
        ("flat 1\nfield 2\nfield 2\n", 5, 3),
        ("flat 1\nfield 2\npolygon 1,0 0,1 -1,-1\nbase 0 1\n", 5, 4),
        (
            "flat 1\nfield 2\npolygon 1,0 0,1 -1,-1\nglue 0.0 0.1\npolygon x\n",
            5,
            5,
        ),
        ("flat 1\nfield 2\npolygon 1,0 0,1 -1,-1\nend x\n", 6, 4),
        ("flat 1\nfield 2\npolygon 1,0 0,1 -1,-1\nend \n", 6, 4),
        // Forms.
        ("flat 1\nfield\n", 6, 2),
        ("flat 1\nfield 02\n", 6, 2),
        ("flat 1\nfield -2\n", 6, 2),
        ("flat 1\nfield 2\npolygon\n", 6, 3),
        ("flat 1\nfield 2\npolygon \n", 6, 3),
        ("flat 1\nfield 2\npolygon 1,0  0,1 -1,-1\n", 6, 3),
        ("flat 1\nfield 2\npolygon 1,0 0,1 -1,-1 \n", 6, 3),
        ("flat 1\nfield 2\npolygon -0,0 0,1 -1,-1\n", 6, 3),
        ("flat 1\nfield 2\npolygon +1,0 0,1 -1,-1\n", 6, 3),
        ("flat 1\nfield 2\npolygon 01,0 0,1 -1,-1\n", 6, 3),
        ("flat 1\nfield 2\npolygon 1r,0 0,1 -1,-1\n", 6, 3),
        ("flat 1\nfield 2\npolygon 0r,0 0,1 -1,-1\n", 6, 3),
        ("flat 1\nfield 2\npolygon 1+0r,0 0,1 -1,-1\n", 6, 3),
        ("flat 1\nfield 2 \n", 6, 2),
        ("flat 1\nfield  2\n", 6, 2),
        ("flat 1\nfield +2\n", 6, 2),
        ("flat 1\nfield 1r\n", 6, 2),
        ("flat 1\nfield 02 x\n", 6, 2),
        ("flat 1\nfield 2\nbase\n", 6, 3),
        ("flat 1\nfield 2\nbase 0\n", 6, 3),
        ("flat 1\nfield 2\nbase 0 1 \n", 6, 3),
        ("flat 1\nfield 2\nbase 0  1\n", 6, 3),
        ("flat 1\nfield 2\nbase -0 1\n", 6, 3),
        ("flat 1\nfield 2\nbase 0 1/0\n", 6, 3),
        ("flat 1\nfield 2\nbase 1000000000/1000000000 1\n", 6, 3),
        ("flat 1\nfield 2\nbase 0 2/4\n", 6, 3),
        ("flat 1\nfield 2\nbase 0 1/1\n", 6, 3),
        ("flat 1\nfield 2\nbase 2000000000 x\n", 6, 3),
        ("flat 1\nfield 2\npolygon 2000000000,0 x\n", 6, 3),
        (
            "flat 1\nfield 2\nbase 4000000000/02 1000000000000000000000000000000000000000\n",
            6,
            3,
        ),
        // Numbers that are too large, against what comes before and behind.
        (
            "flat 1\nfield 2\nbase 2000000000000000000000000000000000000000/2 1\n",
            7,
            3,
        ),
        (
            "flat 1\nfield 2\nbase 0 1000000000000000000000000000000000000000\n",
            7,
            3,
        ),
        ("flat 1\nfield 2\nbase 0 2000000000/4000000000\n", 7, 3),
        ("flat 1\nfield 2\nbase 1000000001 0\n", 7, 3),
        ("flat 1\nfield 2\npolygon 1000000001,0\n", 7, 3),
        (
            "flat 1\nfield 2\npolygon 0,0+1000000000000000000000000000000000000000r\n",
            7,
            3,
        ),
        ("flat 1\nfield 2\npolygon 1000000001,0 0,1\n", 7, 3),
        // Fields.
        ("flat 1\nfield 0\n", 8, 2),
        ("flat 1\nfield 1\n", 8, 2),
        ("flat 1\nfield 12\n", 8, 2),
        ("flat 1\nfield 1001\n", 8, 2),
        (
            "flat 1\nfield 1000000000000000000000000000000000000000\n",
            8,
            2,
        ),
        // Base points.
        ("flat 1\nfield 2\nbase 1 1\n", 9, 3),
        ("flat 1\nfield 2\nbase 0 0\n", 9, 3),
        ("flat 1\nfield 2\nbase 0 1\nbase 2 3\n", 9, 4),
        // Polygons.
        ("flat 1\nfield 2\npolygon 1,0 -1,0\n", 11, 3),
        // Names.
        (
            "flat 1\nfield 2\npolygon 1,0 0,1 -1,-1\nglue 0.0 0.3\n",
            13,
            4,
        ),
        (
            "flat 1\nfield 2\npolygon 1,0 0,1 -1,-1\nglue 1.0 0.1\n",
            13,
            4,
        ),
        (
            "flat 1\nfield 2\npolygon 1,0 0,1 -1,-1\nglue 4294967296.0 0.1\n",
            13,
            4,
        ),
        (
            "flat 1\nfield 2\npolygon 1,0 0,1 -1,-1\nglue 0.1 0.1000000000000000000000000000000000000000\n",
            13,
            4,
        ),
        (
            "flat 1\nfield 2\npolygon 1,0 0,1 -1,-1\nglue 9.9 0.01\n",
            6,
            4,
        ),
        (
            "flat 1\nfield 2\npolygon 1,0 0,1 -1,-1\nglue 0.0 0.1 \n",
            6,
            4,
        ),
        ("flat 1\nfield 2\npolygon 1,0 0,1 -1,-1\nglue 0.0 0\n", 6, 4),
        // Bytes behind the end.
        ("flat 1\nfield 2\npolygon 1,0 0,1 -1,-1\nend\n\n", 14, 5),
        ("flat 1\nfield 2\npolygon 1,0 0,1 -1,-1\nend\nx", 14, 5),
    ] {
        assert_eq!(rt;
            refusal(rt.alloc(), text.as_bytes()),
            Some((cause, line)),
            "at {text}"
        );
    }
}

#[test]
fn refuses_long_texts_too(rt: HostRuntime) -> Result<(), Fail> {
    let head = "flat 1\nfield 2\n";
    let base = "base 0 1\n";
    let triangle = "polygon 1,0 0,1 -1,-1\n";
    for (start, part, count, end, cause, line) in [
        // The ninth base line and the 257th polygon line.
        (head, base, 9, "", 10, 11),
        (head, base, 8, "", 1, 11),
        (head, base, 8, "base 1 1\n", 9, 11),
        (head, base, 8, "end\n", 5, 11),
        (head, triangle, 257, "", 12, 259),
        (head, triangle, 256, "", 1, 259),
        (head, triangle, 256, "polygon 1,0 -1,0\n", 11, 259),
        (head, triangle, 256, "glue 256.0 0.0\n", 13, 259),
        (head, triangle, 256, "end\nend\n", 14, 260),
        // A megabyte of line feeds, and one of sides.
        ("", "\n", 1_048_576, "", 4, 1),
        ("flat 1\nfield 2\npolygon", " 1,0", 262_000, "\n", 1, 4),
        ("flat 1\nfield 2\npolygon", " 1,0", 262_000, " \n", 6, 3),
        // Numbers of ten thousand digits.
        ("flat 1\nfield ", "9", 10_000, "\n", 8, 2),
        ("flat 1\nfield 2\nbase 0 ", "9", 10_000, "\n", 7, 3),
        ("flat 1\nfield 2\nbase 0 ", "0", 10_000, "\n", 6, 3),
        ("flat 1\nfield 2\nbase 1/", "9", 10_000, " x\n", 6, 3),
        ("flat 1\nfield 2\nbase 6", "0", 10_000, "/4 1\n", 7, 3),
        ("flat 1\nfield 2\npolygon 1,0+", "9", 10_000, "r\n", 7, 3),
        (
            "flat 1\nfield 2\npolygon 1,0 0,1 -1,-1\nglue 0.",
            "9",
            10_000,
            " 0.0\n",
            13,
            4,
        ),
    ] {
        let text = repeated(rt.alloc(), start, part, count, end)?;
        assert_eq!(rt;
            refusal(rt.alloc(), text.as_bytes()),
            Some((cause, line)),
            "at {start} {count} {end}"
        );
    }
    Ok(())
}

#[test]
fn refuses_every_proper_prefix(rt: HostRuntime) {
    let text = EACH_KIND.as_bytes();
    let mut line: u64 = 1;
    let mut is_cut = false;
    for (length, byte) in text.iter().enumerate() {
        let (prefix, _) = text.split_at(length);
        let cause = if is_cut { 2 } else { 1 };
        assert_eq!(rt;
            refusal(rt.alloc(), prefix),
            Some((cause, line)),
            "at {length}"
        );
        is_cut = *byte != b'\n';
        if !is_cut {
            line = line.saturating_add(1);
        }
    }
}

#[test]
fn writes_again_what_it_reads(rt: HostRuntime) -> Result<(), Fail> {
    for text in [
        SQUARE,
        EACH_KIND,
        "flat 1\nfield 2\npolygon 1,0 0,1 -1,-1\nend\n",
        "flat 1\nfield 2\npolygon 0,0 0,0 0,0\npolygon 1,0 0,1 -1,-1\nglue 0.0 0.0\nglue 0.0 1.2\nend\n",
        "flat 1\nfield 2\npolygon 1000000000,-1000000000 0,0-1000000000r 0+1000000000r,1\nend\n",
    ] {
        assert_eq!(rt;
            written(rt.alloc(), text.as_bytes())?.as_deref(),
            Some(text.as_bytes()),
            "at {text}"
        );
    }
    let most = repeated(
        rt.alloc(),
        "flat 1\nfield 2\nbase 0 1\nbase 0 1\nbase 0 1\nbase 0 1\nbase 0 1\nbase 0 1\nbase 0 1\nbase 1 2\n",
        "polygon 1,0 0,1 -1,-1\n",
        256,
        "glue 255.2 0.0\nend\n",
    )?;
    assert_eq!(rt;
        written(rt.alloc(), most.as_bytes())?.as_deref(),
        Some(most.as_bytes())
    );
    Ok(())
}

#[test]
fn takes_the_square(rt: HostRuntime) -> Result<(), Fail> {
    match read(rt.alloc(), SQUARE.as_bytes()) {
        Ok(file) => {
            assert_eq!(rt;
                (
                    file.field,
                    file.bases.len(),
                    file.polygons.len(),
                    file.glues.len()
                ),
                (2, 0, 1, 2)
            );
        }
        Err(_) => assert!(rt; false),
    }
    Ok(())
}
