//! The square file with one of its lines changed, left out or repeated.

use super::{TORUS, run, sound};
use std::alloc::{AllocError, Global};
use std::test::Fail;

/// The square file with these lines in place of the one of this number, from 1.
fn changed(alloc: Global, number: usize, lines: &[u8]) -> Result<Vec<u8>, AllocError> {
    let mut file = Vec::new(alloc);
    for (before, line) in TORUS.split(|byte| *byte == b'\n').enumerate() {
        if before.saturating_add(1) == number {
            file.extend_from_slice(lines)?;
        } else if !line.is_empty() {
            file.extend_from_slice(line)?;
            file.push(b'\n')?;
        }
    }
    Ok(file)
}

#[test]
fn names_the_line_that_was_changed(rt: HostRuntime) -> Result<(), Fail> {
    let alloc = rt.alloc();
    let rows: [(usize, &[u8], &[u8]); 17] = [
        (1, b"flat 1\r\n", b"fault file 3 1 BadByte\n"),
        (1, b"flat 2\n", b"fault file 4 1 BadFirst\n"),
        (2, b"base 0 1\n", b"fault file 5 2 BadKind\n"),
        (2, b"field 02\n", b"fault file 6 2 BadForm\n"),
        (2, b"field 1\n", b"fault file 8 2 BadField\n"),
        (2, b"field 1000\n", b"fault file 8 2 BadField\n"),
        (2, b"field 1001\n", b"fault file 8 2 BadField\n"),
        (3, b"polygon\n", b"fault file 6 3 BadForm\n"),
        (
            3,
            b"polygon 1,0 0,1 -1,0 0,-01\n",
            b"fault file 6 3 BadForm\n",
        ),
        (
            3,
            b"polygon 1000000001,0 0,1 -1,0 0,-1\n",
            b"fault file 7 3 BadNumber\n",
        ),
        (3, b"polygon 1,0 -1,0\n", b"fault file 11 3 FewSides\n"),
        (
            3,
            b"polygon 1,0 -1,1 1,0 -1,-1\n",
            b"fault file 17 3 NotConvex\n",
        ),
        (
            3,
            b"base 0 1000000001\npolygon 1,0 0,1 -1,0 0,-1\n",
            b"fault file 7 3 BadNumber\n",
        ),
        (
            3,
            b"base 1/1000000001 1\npolygon 1,0 0,1 -1,0 0,-1\n",
            b"fault file 7 3 BadNumber\n",
        ),
        (
            3,
            b"base 1000000000 1000000000\npolygon 1,0 0,1 -1,0 0,-1\n",
            b"fault file 9 3 BadBase\n",
        ),
        (4, b"glue 0.1 1.3\n", b"fault file 13 4 BadName\n"),
        (6, b"", b"fault file 1 6 NoLine\n"),
    ];
    for (number, lines, text) in rows {
        let file = changed(alloc, number, lines)?;
        let (ended, written) = run(alloc, &["check"], file.as_slice(), sound())?;
        assert_eq!(rt; ended, 3);
        assert_eq!(rt; written.as_slice(), text);
    }
    Ok(())
}
