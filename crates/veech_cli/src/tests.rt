//! Whole runs over ends in memory: what is written and how it ends, byte for byte.

ghost use Rattle.std.specs.Prelude.{◌≤◌};

mod examples;
mod group;
mod plain;
mod trial;

use super::{WordList, run_plain, status_number};
use io_ends::{MemSink, MemSource};
use std::alloc::{AllocError, Global};
use std::test::Fail;

/// A square torus.
const TORUS: &[u8] =
    b"flat 1\nfield 2\npolygon 1,0 0,1 -1,0 0,-1\nglue 0.1 0.3\nglue 0.2 0.0\nend\n";

/// The same torus, cut along a diagonal.
const TORUS_TRIANGLES: &[u8] =
    b"flat 1\nfield 2\npolygon 1,0 0,1 -1,-1\npolygon 1,1 -1,0 0,-1\nglue 0.0 1.1\nglue 0.1 1.2\nglue 0.2 1.0\nend\n";

/// Three squares in an L.
const L_THREE_SQUARES: &[u8] =
    b"flat 1\nfield 2\npolygon 1,0 0,1 -1,0 0,-1\npolygon 1,0 0,1 -1,0 0,-1\npolygon 1,0 0,1 -1,0 0,-1\nglue 0.1 1.3\nglue 1.1 0.3\nglue 2.1 2.3\nglue 0.2 2.0\nglue 1.2 1.0\nglue 2.2 0.0\nend\n";

/// Four squares in an L.
const L_FOUR_SQUARES: &[u8] =
    b"flat 1\nfield 2\npolygon 1,0 0,1 -1,0 0,-1\npolygon 1,0 0,1 -1,0 0,-1\npolygon 1,0 0,1 -1,0 0,-1\npolygon 1,0 0,1 -1,0 0,-1\nglue 0.1 1.3\nglue 1.1 2.3\nglue 2.1 0.3\nglue 3.1 3.3\nglue 0.2 3.0\nglue 3.2 0.0\nglue 1.2 1.0\nglue 2.2 2.0\nend\n";

/// The regular octagon.
const OCTAGON: &[u8] =
    b"flat 1\nfield 2\npolygon 2,0 0+1r,0+1r 0,2 0-1r,0+1r -2,0 0-1r,0-1r 0,-2 0+1r,0-1r\nglue 0.0 0.4\nglue 0.1 0.5\nglue 0.2 0.6\nglue 0.3 0.7\nend\n";

/// The golden L.
const GOLDEN_L: &[u8] =
    b"flat 1\nfield 5\npolygon 2,0 0,2 -2,0 0,-2\npolygon -1+1r,0 0,2 1-1r,0 0,-2\npolygon 2,0 0,-1+1r -2,0 0,1-1r\nglue 0.1 1.3\nglue 1.1 0.3\nglue 0.2 2.0\nglue 2.2 0.0\nglue 1.2 1.0\nglue 2.1 2.3\nend\n";

/// A rectangle with flat corners under a square.
const FLAT_CORNERS: &[u8] =
    b"flat 1\nfield 2\npolygon 1,0 1,0 0,1 -1,0 -1,0 0,-1\npolygon 1,0 0,1 -1,0 0,-1\nglue 0.2 0.5\nglue 0.0 1.2\nglue 0.1 0.3\nglue 0.4 1.0\nglue 1.1 1.3\nend\n";

/// Two regular pentagons, in an affine frame.
const DOUBLE_PENTAGON: &[u8] =
    b"flat 1\nfield 5\npolygon 2,0 0,2 -2,-1+1r 1-1r,1-1r -1+1r,-2\npolygon -2,0 0,-2 2,1-1r -1+1r,-1+1r 1-1r,2\nglue 0.0 1.0\nglue 0.1 1.1\nglue 0.2 1.2\nglue 0.3 1.3\nglue 0.4 1.4\nend\n";

/// What `check` writes for a torus.
const TORUS_COUNTS: &[u8] = b"valid\ntriangles 2\nedges 3\nvertices 1\ngenus 1\ncones 1\nend\n";

/// What it writes for a surface of genus 2 with one cone point, cut into six triangles.
const ONE_CONE: &[u8] = b"valid\ntriangles 6\nedges 9\nvertices 1\ngenus 2\ncones 3\nend\n";

/// A torus of two squares in a row, both lattice points marked.
const TWO_SQUARES: &[u8] =
    b"flat 1\nfield 2\npolygon 1,0 0,1 -1,0 0,-1\npolygon 1,0 0,1 -1,0 0,-1\nglue 0.1 1.3\nglue 1.1 0.3\nglue 0.2 0.0\nglue 1.2 1.0\nend\n";

/// A square torus whose side has the greatest numbers of a file.
const LARGE_TORUS: &[u8] =
    b"flat 1\nfield 997\npolygon 1000000000+1000000000r,0 0,1000000000+1000000000r -1000000000-1000000000r,0 0,-1000000000-1000000000r\nglue 0.1 0.3\nglue 0.2 0.0\nend\n";

/// The square torus, sheared by 4.
const SHEARED_TORUS: &[u8] =
    b"flat 1\nfield 2\nbase 1/10 11/10\npolygon 1,0 4,1 -1,0 -4,-1\nglue 0.1 0.3\nglue 0.2 0.0\nend\n";

/// What `base` writes for it.
const SHEARED_BASE: &[u8] =
    b"base 1/10 11/10\nflips 5\nhalf 0 -1,1 4\nhalf 1 0,-1 5\nhalf 2 1,0 3\nhalf 3 -1,0 2\nhalf 4 1,-1 0\nhalf 5 0,1 1\nend\n";

/// What it writes for the square torus at 1/10 11/10.
const TORUS_BASE: &[u8] =
    b"base 1/10 11/10\nflips 1\nhalf 0 0,-1 4\nhalf 1 1,0 5\nhalf 2 -1,1 3\nhalf 3 1,-1 2\nhalf 4 0,1 0\nhalf 5 -1,0 1\nend\n";

/// An octagon with opposite sides glued, whose numbers are near 700.
const WIDE_OCTAGON: &[u8] =
    b"flat 1\nfield 2\npolygon 585+513r,527-39r -540+266r,-542+627r 354-671r,69+185r -490-695r,376-182r -585-513r,-527+39r 540-266r,542-627r -354+671r,-69-185r 490+695r,-376+182r\nglue 0.0 0.4\nglue 0.1 0.5\nglue 0.2 0.6\nglue 0.3 0.7\nend\n";

/// The region of the base of the square torus at 1/10 11/10.
const TORUS_REGION: &[u8] =
    b"region 3\nwall 1 -1 0 edges 0\nwall 0 -1 1 edges 1\nwall 0 1 0 edges 2\nideal 0 1 1 1 1\nideal 0 2 0 0 1\nideal 1 2 1 0 0\nend\n";

/// That of three squares in an L: the same lines, each of three edges.
const L_REGION: &[u8] =
    b"region 3\nwall 1 -1 0 edges 0 4 12\nwall 0 -1 1 edges 1 5 7\nwall 0 1 0 edges 2 8 14\nideal 0 1 1 1 1\nideal 0 2 0 0 1\nideal 1 2 1 0 0\nend\n";

/// That of a rectangle with flat corners under a square.
const FLAT_REGION: &[u8] =
    b"region 3\nwall 1 -1 0 edges 0 4 12\nwall 0 -1 1 edges 1 5 11\nwall 0 1 0 edges 2 3 14\nideal 0 1 1 1 1\nideal 0 2 0 0 1\nideal 1 2 1 0 0\nend\n";

/// That of the regular octagon: one inner corner, at z with |z| = 1 and real part 0, where the octagon has its symmetry.
const OCTAGON_REGION: &[u8] =
    b"region 3\nwall 2+1r -2-2r 0+1r edges 0 4 8\nwall -1-1r 0 1+1r edges 1 5 6\nwall 3+2r 6+4r -3-2r edges 3 7\nideal 0 1 3+2r 3+2r 3+2r\nideal 0 2 3+2r 7+5r 17+12r\ninner 1 2 7+5r 0 7+5r\nend\n";

/// That of the golden L.
const GOLDEN_REGION: &[u8] =
    b"region 3\nwall 1 1-1r 0 edges 0 4\nwall 0 1-1r 1 edges 1 5\nwall 0 1 0 edges 2 8 14\ninner 0 1 -1+1r 1 -1+1r\nideal 0 2 0 0 1\nideal 1 2 1 0 0\nend\n";

/// That of two pentagons.
const PENTAGON_REGION: &[u8] =
    b"region 3\nwall 1 1 0 edges 1 3 7\nwall 1 -1-1r 0 edges 2 11\nwall -1-1r 0 1+1r edges 5 14\nideal 0 1 0 0 2+1r\nideal 0 2 1+1r -1-1r 1+1r\ninner 1 2 6+2r 1+1r 6+2r\nend\n";

/// The line of the one class of the square torus.
const TORUS_CLASS: &[u8] = b"class 2 1 1 0 0 0 0 0 1 0 3 4 5 -1 0 0 0 0 0 -1 0 0 1 2\n";

/// That of the one class of three squares in an L.
const L_CLASS: &[u8] =
    b"class 6 1 1 0 0 0 0 0 1 0 3 4 6 -1 0 0 0 0 0 -1 0 0 1 9 1 0 1 0 -1 0 0 0 2 10 12 -1 0 -1 0 1 0 0 0 5 7 15 0 0 1 0 -1 0 -1 0 8 16 17 0 0 -1 0 1 0 1 0 11 13 14\n";

/// That of the one class of two squares in a row.
const ROW_CLASS: &[u8] =
    b"class 4 1 1 0 0 0 0 0 1 0 3 4 6 -1 0 0 0 0 0 -1 0 0 1 9 1 0 1 0 -1 0 0 0 2 10 11 -1 0 -1 0 1 0 0 0 5 7 8\n";

/// A walk of 200 crossings from the base of the square torus, and the same walls back.
const THERE_AND_BACK: &[u8] =
    b"0220121220200000021220022221122101000101221122122122122221222222221010100111002201221212222102212222221122221221122222212212202011211221010112111002222021001222112100122211000220112211111121111100022222200011111211111122110220001122210012112221001202222001112110101221121102022122122222211221222211222222122012222121221022001110010101222222221222212212212211221010001012211222200221200000020221210220";

/// How the ends of a run behave: the most that a call moves, the source's call that fails, and the sink's room.
#[derive(Clone, Copy)]
struct Ends {
    most: usize,
    failing_read: Option<u64>,
    room: usize,
    ghost moves: { 1 ≤ most },
}

/// Ends that move this many bytes a call and never fail.
fn moving(most: usize) -> Ends
    requires { 1 ≤ most }
{
    Ends {
        most,
        failing_read: None,
        room: 8192,
    }
}

/// The status of a run on these words and this input, and what the sink holds after it.
fn run(
    alloc: Global,
    words: &[&str],
    input: &[u8],
    ends: Ends,
) -> Result<(u8, Vec<u8>), AllocError> {
    let mut list = WordList::start(alloc);
    for word in words {
        list.push(alloc, word)?;
    }
    let mut failing = Vec::new(alloc);
    if let Some(call) = ends.failing_read {
        failing.push(call)?;
    }
    let bytes = Vec::from_slice(alloc, input)?;
    let mut source = MemSource::make(bytes, ends.most, failing);
    let mut sink = MemSink::make(alloc, ends.most, ends.room, Vec::new(alloc))?;
    let status = run_plain(alloc, &list, &mut source, &mut sink);
    let written = Vec::from_slice(alloc, sink.bytes())?;
    Ok((status_number(&status), written))
}

/// Squares in a row, the right of the last glued to the left of the first.
fn row_of_squares(alloc: Global, n: u32, lone: bool) -> Result<String, AllocError>
    requires { n ≤ 1000 }
{
    let mut text = String::from_str(alloc, "flat 1\nfield 2\n")?;
    for _ in 0..n {
        text.push_str("polygon 1,0 0,1 -1,0 0,-1\n")?;
    }
    if lone {
        text.push_str("polygon 1,0 0,1 -1,0 0,-1\n")?;
    }
    for i in 0..n {
        let next = if i + 1 == n { 0 } else { i + 1 };
        let glues = format!(in alloc; "glue {i}.1 {next}.3\nglue {i}.2 {i}.0\n")?;
        text.push_str(glues.as_str())?;
    }
    if lone {
        let glues = format!(in alloc; "glue {n}.1 {n}.3\nglue {n}.2 {n}.0\n")?;
        text.push_str(glues.as_str())?;
    }
    text.push_str("end\n")?;
    Ok(text)
}

/// An L of squares: so many in a row, and above the first of them so many in a column.
fn l_of_squares(alloc: Global, row: u32, column: u32) -> Result<String, AllocError>
    requires row { row ≤ 1000 }
    requires column { column ≤ 1000 }
{
    let mut text = String::from_str(alloc, "flat 1\nfield 2\n")?;
    for _ in 0..row + column {
        text.push_str("polygon 1,0 0,1 -1,0 0,-1\n")?;
    }
    for i in 0..row {
        let right = if i + 1 == row { 0 } else { i + 1 };
        let glue = format!(in alloc; "glue {i}.1 {right}.3\n")?;
        text.push_str(glue.as_str())?;
    }
    for i in row..row + column {
        let glue = format!(in alloc; "glue {i}.1 {i}.3\n")?;
        text.push_str(glue.as_str())?;
    }
    for i in 0..row + column {
        let up = if i == 0 {
            row
        } else if i < row {
            i
        } else if i + 1 == row + column {
            0
        } else {
            i + 1
        };
        let glue = format!(in alloc; "glue {i}.2 {up}.0\n")?;
        text.push_str(glue.as_str())?;
    }
    text.push_str("end\n")?;
    Ok(text)
}

/// A torus of one rectangle, n long and 1 high, with flat corners all along.
fn long_rectangle(alloc: Global, n: u32) -> Result<String, AllocError>
    requires { n ≤ 1000 }
{
    let mut text = String::from_str(alloc, "flat 1\nfield 2\npolygon")?;
    for _ in 0..n {
        text.push_str(" 1,0")?;
    }
    text.push_str(" 0,1")?;
    for _ in 0..n {
        text.push_str(" -1,0")?;
    }
    text.push_str(" 0,-1\n")?;
    for i in 0..n {
        let above = 2 * n - i;
        let glue = format!(in alloc; "glue 0.{i} 0.{above}\n")?;
        text.push_str(glue.as_str())?;
    }
    let left = 2 * n + 1;
    let glue = format!(in alloc; "glue 0.{n} 0.{left}\nend\n")?;
    text.push_str(glue.as_str())?;
    Ok(text)
}

/// What `check` writes for a surface of these counts, whose vertices turn once but for the last ones.
fn counts(
    alloc: Global,
    triangles: u32,
    edges: u32,
    vertices: u32,
    genus: u32,
    ones: u32,
    last: &str,
) -> Result<String, AllocError> {
    let mut text = format!(in alloc;
        "valid\ntriangles {triangles}\nedges {edges}\nvertices {vertices}\ngenus {genus}\ncones"
    )?;
    for _ in 0..ones {
        text.push_str(" 1")?;
    }
    text.push_str(last)?;
    text.push_str("\nend\n")?;
    Ok(text)
}

#[test]
fn checks_every_example(rt: HostRuntime) -> Result<(), Fail> {
    let alloc = rt.alloc();
    let rows: [(&[u8], &[u8]); 10] = [
        (TORUS, TORUS_COUNTS),
        (TORUS_TRIANGLES, TORUS_COUNTS),
        (LARGE_TORUS, TORUS_COUNTS),
        (L_THREE_SQUARES, ONE_CONE),
        (FLAT_CORNERS, ONE_CONE),
        (OCTAGON, ONE_CONE),
        (GOLDEN_L, ONE_CONE),
        (DOUBLE_PENTAGON, ONE_CONE),
        (
            L_FOUR_SQUARES,
            b"valid\ntriangles 8\nedges 12\nvertices 2\ngenus 2\ncones 1 3\nend\n",
        ),
        (
            TWO_SQUARES,
            b"valid\ntriangles 4\nedges 6\nvertices 2\ngenus 1\ncones 1 1\nend\n",
        ),
    ];
    for (input, text) in rows {
        for most in [1, 7, 4096] {
            let (ended, written) = run(alloc, &["check"], input, moving(most))?;
            assert_eq!(rt; ended, 0);
            assert_eq!(rt; written.as_slice(), text);
        }
    }
    Ok(())
}

#[test]
fn refuses_words(rt: HostRuntime) -> Result<(), Fail> {
    let rows: [&[&str]; 44] = [
        &[],
        &["check", "check"],
        &["plan"],
        &["--help"],
        &["check "],
        &[""],
        &["check", "--flips", "5"],
        &["check", "--flips=5"],
        &["base", "--flips", "0"],
        &["base", "--flips", "01"],
        &["base", "--flips", "1000001"],
        &["base", "--flips", "-1"],
        &["base", "--flips", "+5"],
        &["base", "--flips", ""],
        &["base", "--flips"],
        &["base", "--flips="],
        &["base", "--flips=0"],
        &["base", "--flips=01"],
        &["base", "--flips=1000001"],
        &["base", "--flips", "5", "--flips", "5"],
        &["base", "--flips=5", "--flips=5"],
        &["base", "--flip", "5"],
        &["base", "-f", "5"],
        &["base", ""],
        &["base", "5"],
        &["--flips", "5", "base"],
        &["base", "--"],
        &["base", "-0"],
        &["base", "--flips=-0"],
        &["base", "--flips=+5"],
        &["base", "--flips= 5"],
        &["base", "--flips", "05"],
        &["base", "--flips", "5", "--flips=5"],
        &["base", "--flips=5", "--flips", "5"],
        &["base", "5", "--flips", "5"],
        &["base", "--flips", "5", "5"],
        &["region", "--limit", "5"],
        &["reg"],
        &["path", "1000"],
        &["path", "02"],
        &["path", "-1"],
        &["path", "2", "--flips", "5"],
        &["path", "2", ""],
        &["path", "--flips", "5", "--flips=5", "2"],
    ];
    for words in rows {
        let (ended, written) = run(rt.alloc(), words, TORUS, moving(4096))?;
        assert_eq!(rt; ended, 2);
        assert_eq!(rt; written.as_slice(), b"fault words\n".as_slice());
    }
    Ok(())
}

#[test]
fn names_the_cause_and_the_line(rt: HostRuntime) -> Result<(), Fail> {
    let alloc = rt.alloc();
    let rows: [(&[u8], &[u8]); 21] = [
        (b"", b"fault file 1 1 NoLine\n"),
        (
            b"flat 1\nfield 2\npolygon 1,0 0,1 -1,0 0,-1\nglue 0.1 0.3\nglue 0.2 0.",
            b"fault file 2 5 CutLine\n",
        ),
        (
            b"flat 1\nfield 2\npolygon 1,0 0,1 -1,0 0,-1\nglue 0.1 0.3\nglue 0.2 0.0\n",
            b"fault file 1 6 NoLine\n",
        ),
        (
            b"flat 1\nfield 2\npolygon 1,0 0,1 -1,0 0,-1\nglue 0.1 0.3\nglue 0.2 0.0\nend\nx\n",
            b"fault file 14 7 AfterEnd\n",
        ),
        (
            b"flat 1\nfield\t2\npolygon 1,0 0,1 -1,0 0,-1\nglue 0.1 0.3\nglue 0.2 0.0\nend\n",
            b"fault file 3 2 BadByte\n",
        ),
        (
            b"flat 1\nglue 0.1 0.3\nglue 0.2 0.0\nend\n",
            b"fault file 5 2 BadKind\n",
        ),
        (
            b"flat 1\nfield 2\npolygon 1,0 0,01 -1,0 0,-1\nglue 0.1 0.3\nglue 0.2 0.0\nend\n",
            b"fault file 6 3 BadForm\n",
        ),
        (
            b"flat 1\nfield 2\npolygon 1,0 0,1000000001 -1,0 0,-1000000001\nglue 0.1 0.3\nglue 0.2 0.0\nend\n",
            b"fault file 7 3 BadNumber\n",
        ),
        (
            b"flat 1\nfield 12\npolygon 1,0 0,1 -1,0 0,-1\nglue 0.1 0.3\nglue 0.2 0.0\nend\n",
            b"fault file 8 2 BadField\n",
        ),
        (
            b"flat 1\nfield 2\nbase 1 1\npolygon 1,0 0,1 -1,0 0,-1\nglue 0.1 0.3\nglue 0.2 0.0\nend\n",
            b"fault file 9 3 BadBase\n",
        ),
        (
            b"flat 1\nfield 2\npolygon 1,0 -1,0\nglue 0.0 0.1\nend\n",
            b"fault file 11 3 FewSides\n",
        ),
        (
            b"flat 1\nfield 2\npolygon 1,0 0,1 -1,0 0,-1\nglue 0.4 0.0\nglue 0.2 0.0\nend\n",
            b"fault file 13 4 BadName\n",
        ),
        (
            b"flat 1\nfield 2\npolygon 1,0 0,1 -1,0 0,-2\nglue 0.1 0.3\nglue 0.2 0.0\nend\n",
            b"fault file 15 3 NotClosed\n",
        ),
        (
            b"flat 1\nfield 2\npolygon 1,0 1,0 -1,0 -1,0\nglue 0.1 0.3\nglue 0.2 0.0\nend\n",
            b"fault file 16 3 Flat\n",
        ),
        (
            b"flat 1\nfield 2\nbase 0 2\npolygon 1,0 0,-1 -1,0 0,1\nglue 0.1 0.3\nglue 0.2 0.0\nend\n",
            b"fault file 17 4 NotConvex\n",
        ),
        (
            b"flat 1\nfield 2\npolygon 1,0 0,1 -1,0 0,-1\nglue 0.1 0.3\nglue 0.1 0.0\nend\n",
            b"fault file 18 5 Twice\n",
        ),
        (
            b"flat 1\nfield 2\npolygon 1,0 0,1 -1,0 0,-1\nglue 0.0 0.0\nglue 0.2 0.0\nend\n",
            b"fault file 18 4 Twice\n",
        ),
        (
            b"flat 1\nfield 2\npolygon 1,0 0,1 -1,0 0,-1\nglue 0.0 0.1\nglue 0.2 0.0\nend\n",
            b"fault file 19 4 NotOpposite\n",
        ),
        (
            b"flat 1\nfield 2\npolygon 1,0 0,1 -1,0 0,-1\nglue 0.1 0.3\nend\n",
            b"fault file 20 3 Unpaired\n",
        ),
        (
            b"flat 1\nfield 2\npolygon 1,0 0,1 -1,0 0,-1\npolygon 1,0 0,1 -1,0 0,-1\nglue 0.1 0.3\nglue 0.2 0.0\nglue 1.1 1.3\nglue 1.2 1.0\nend\n",
            b"fault file 22 4 Apart\n",
        ),
        (
            b"flat 1\nfield 2\npolygon 1,0 0,1 -1,-2\npolygon 1,1 -1,0 0,-1\nglue 0.0 1.1\nglue 0.1 1.2\nglue 0.2 1.0\nend\n",
            b"fault file 15 3 NotClosed\n",
        ),
    ];
    for (input, text) in rows {
        for most in [1, 4096] {
            let (ended, written) = run(alloc, &["check"], input, moving(most))?;
            assert_eq!(rt; ended, 3);
            assert_eq!(rt; written.as_slice(), text);
        }
    }
    Ok(())
}

#[test]
fn keeps_to_the_limits(rt: HostRuntime) -> Result<(), Fail> {
    let alloc = rt.alloc();
    let large = l_of_squares(alloc, 51, 50)?;
    let large_counts = counts(alloc, 202, 303, 99, 2, 98, " 3")?;
    let rectangle = long_rectangle(alloc, 128)?;
    let rectangle_counts = counts(alloc, 256, 384, 128, 1, 128, "")?;
    let most = row_of_squares(alloc, 128, false)?;
    let most_counts = counts(alloc, 256, 384, 128, 1, 128, "")?;
    for (input, text) in [
        (large.as_bytes(), large_counts.as_bytes()),
        (rectangle.as_bytes(), rectangle_counts.as_bytes()),
        (most.as_bytes(), most_counts.as_bytes()),
    ] {
        let (ended, written) = run(alloc, &["check"], input, moving(4096))?;
        assert_eq!(rt; ended, 0);
        assert_eq!(rt; written.as_slice(), text);
    }
    let one_more = row_of_squares(alloc, 128, true)?;
    let two_more = row_of_squares(alloc, 129, false)?;
    for input in [one_more.as_bytes(), two_more.as_bytes()] {
        let (ended, written) = run(alloc, &["check"], input, moving(4096))?;
        assert_eq!(rt; ended, 3);
        assert_eq!(rt;
            written.as_slice(),
            b"fault file 21 131 ManyTriangles\n".as_slice()
        );
    }
    let rows: [(usize, &[u8]); 2] = [
        (1_048_576, b"fault file 4 1 BadFirst\n"),
        (1_048_577, b"fault file 0 0 TooLong\n"),
    ];
    for (length, text) in rows {
        let lines = vec![in alloc; b'\n'; length]?;
        let (ended, written) = run(alloc, &["check"], lines.as_slice(), moving(65536))?;
        assert_eq!(rt; ended, 3);
        assert_eq!(rt; written.as_slice(), text);
    }
    Ok(())
}

#[test]
fn blames_the_end_that_failed(rt: HostRuntime) -> Result<(), Fail> {
    let alloc = rt.alloc();
    for call in [0, 3, 9] {
        let ends = Ends {
            most: 7,
            failing_read: Some(call),
            room: 4096,
        };
        let (ended, written) = run(alloc, &["check"], TORUS, ends)?;
        assert_eq!(rt; ended, 8);
        assert_eq!(rt; written.as_slice(), b"fault read\n".as_slice());
    }
    let small = Ends {
        most: 4096,
        failing_read: None,
        room: 4,
    };
    let rows: [(&str, &[u8], &[u8]); 3] = [
        ("check", TORUS, b"vali"),
        ("check", b"", b"faul"),
        ("plan", TORUS, b"faul"),
    ];
    for (word, input, text) in rows {
        let (ended, written) = run(alloc, &[word], input, small)?;
        assert_eq!(rt; ended, 9);
        assert_eq!(rt; written.as_slice(), text);
    }
    Ok(())
}

/// What a proper prefix of the square file is refused for: a cut line, but at the ends of lines, where one is missing.
#[test]
fn refuses_every_proper_prefix(rt: HostRuntime) -> Result<(), Fail> {
    let alloc = rt.alloc();
    let mut line: u32 = 1;
    let mut at_start = true;
    for (length, byte) in TORUS.iter().enumerate() {
        let (cause, name) = if at_start {
            (1, "NoLine")
        } else {
            (2, "CutLine")
        };
        let text = format!(in alloc; "fault file {cause} {line} {name}\n")?;
        let (ended, written) = run(alloc, &["check"], &TORUS[..length], moving(4096))?;
        assert_eq!(rt; ended, 3);
        assert_eq!(rt; written.as_slice(), text.as_bytes());
        at_start = *byte == b'\n';
        if at_start {
            line = line.wrapping_add(1);
        }
    }
    Ok(())
}

#[test]
fn finds_regions(rt: HostRuntime) -> Result<(), Fail> {
    let rows: [(&[u8], u8, &[u8]); 9] = [
        (TORUS, 0, TORUS_REGION),
        (L_THREE_SQUARES, 0, L_REGION),
        (FLAT_CORNERS, 0, FLAT_REGION),
        (OCTAGON, 0, OCTAGON_REGION),
        (GOLDEN_L, 0, GOLDEN_REGION),
        (DOUBLE_PENTAGON, 0, PENTAGON_REGION),
        (LARGE_TORUS, 6, b"fault wide F2 flips 0 edge 0\n"),
        (WIDE_OCTAGON, 6, b"fault wide F6 base\n"),
        (b"", 3, b"fault file 1 1 NoLine\n"),
    ];
    for (input, status, text) in rows {
        let (ended, written) = run(rt.alloc(), &["region"], input, moving(4096))?;
        assert_eq!(rt; ended, status);
        assert_eq!(rt; written.as_slice(), text);
    }
    Ok(())
}

#[test]
fn finds_bases(rt: HostRuntime) -> Result<(), Fail> {
    let alloc = rt.alloc();
    let rows: [(&[&str], &[u8], u8, &[u8]); 12] = [
        (
            &["base", "--flips", "1"],
            SHEARED_TORUS,
            5,
            b"fault flips 1/10 11/10\n",
        ),
        (
            &["base", "--flips", "4"],
            SHEARED_TORUS,
            5,
            b"fault flips 1/10 11/10\n",
        ),
        (&["base", "--flips", "5"], SHEARED_TORUS, 0, SHEARED_BASE),
        (&["base", "--flips=5"], SHEARED_TORUS, 0, SHEARED_BASE),
        (&["base", "--flips=1000000"], SHEARED_TORUS, 0, SHEARED_BASE),
        (&["base"], SHEARED_TORUS, 0, SHEARED_BASE),
        (&["base"], TORUS, 0, TORUS_BASE),
        (
            &["base"],
            b"flat 1\nfield 2\nbase 0 1\npolygon 1,0 0,1 -1,0 0,-1\nglue 0.1 0.3\nglue 0.2 0.0\nend\n",
            4,
            b"fault strict 2\n",
        ),
        (
            &["base"],
            b"flat 1\nfield 2\nbase 0 1\nbase 1/10 11/10\npolygon 1,0 0,1 -1,0 0,-1\nglue 0.1 0.3\nglue 0.2 0.0\nend\n",
            0,
            TORUS_BASE,
        ),
        (
            &["base"],
            b"flat 1\nfield 2\nbase 1 1\npolygon 1,0 0,1 -1,0 0,-1\nglue 0.1 0.3\nglue 0.2 0.0\nend\n",
            3,
            b"fault file 9 3 BadBase\n",
        ),
        (&["base"], b"", 3, b"fault file 1 1 NoLine\n"),
        (&["base"], LARGE_TORUS, 6, b"fault wide F2 flips 0 edge 0\n"),
    ];
    for (words, input, status, text) in rows {
        for most in [1, 4096] {
            let (ended, written) = run(alloc, words, input, moving(most))?;
            assert_eq!(rt; ended, status);
            assert_eq!(rt; written.as_slice(), text);
        }
    }
    Ok(())
}

#[test]
fn finds_the_base_of_three_squares(rt: HostRuntime) -> Result<(), Fail> {
    let (ended, written) = run(rt.alloc(), &["base"], L_THREE_SQUARES, moving(4096))?;
    assert_eq!(rt; ended, 0);
    assert!(rt; written.starts_with(b"base 1/10 11/10\nflips 3\nhalf 0 "));
    assert!(rt; written.ends_with(b"\nend\n"));
    assert_eq!(rt; written.iter().filter(|byte| **byte == b'\n').count(), 21);
    Ok(())
}

/// The words of `path` with these choices, a digit each.
fn path_words<'a>(alloc: Global, choices: &[u8]) -> Result<Vec<&'a str>, AllocError> {
    let mut words = Vec::with_capacity(alloc, choices.len() + 1)?;
    words.push("path")?;
    for choice in choices {
        words.push(match *choice {
            b'0' => "0",
            b'1' => "1",
            _ => "2",
        })?;
    }
    Ok(words)
}

/// What `path` writes of a walk with this many choices, its line of whether it came back and the line of its class.
fn walk_lines(
    alloc: Global,
    choices: &str,
    same: &str,
    class: &[u8],
) -> Result<Vec<u8>, AllocError> {
    let mut text = Vec::from_slice(alloc, b"path ")?;
    text.extend_from_slice(choices.as_bytes())?;
    text.extend_from_slice(b"\nsame ")?;
    text.extend_from_slice(same.as_bytes())?;
    text.extend_from_slice(b"\n")?;
    text.extend_from_slice(class)?;
    text.extend_from_slice(b"end\n")?;
    Ok(text)
}

#[test]
fn walks_through_walls(rt: HostRuntime) -> Result<(), Fail> {
    let alloc = rt.alloc();
    let rows: [(&[&str], &[u8], &str, &str, &[u8]); 9] = [
        (&["path"], TORUS, "0", "yes", TORUS_CLASS),
        (&["path", "2"], TORUS, "1", "no", TORUS_CLASS),
        (&["path", "2", "2"], TORUS, "2", "yes", TORUS_CLASS),
        (
            &["path", "--flips", "1", "0", "1"],
            TORUS,
            "2",
            "no",
            TORUS_CLASS,
        ),
        (&["path"], L_THREE_SQUARES, "0", "yes", L_CLASS),
        (&["path", "0"], L_THREE_SQUARES, "1", "no", L_CLASS),
        (
            &["path", "--flips=3", "0", "0"],
            L_THREE_SQUARES,
            "2",
            "yes",
            L_CLASS,
        ),
        (&["path"], TWO_SQUARES, "0", "yes", ROW_CLASS),
        (&["path", "1"], TWO_SQUARES, "1", "no", ROW_CLASS),
    ];
    for (words, input, choices, same, class) in rows {
        let (ended, written) = run(alloc, words, input, moving(4096))?;
        assert_eq!(rt; ended, 0);
        let text = walk_lines(alloc, choices, same, class)?;
        assert_eq!(rt; written.as_slice(), text.as_slice());
    }
    Ok(())
}

#[test]
fn walks_there_and_back(rt: HostRuntime) -> Result<(), Fail> {
    let alloc = rt.alloc();
    let most = vec![in alloc; b'2'; 4096]?;
    let rows: [(&[u8], &str, &str); 3] = [
        (THERE_AND_BACK, "400", "yes"),
        (&THERE_AND_BACK[..200], "200", "no"),
        (most.as_slice(), "4096", "yes"),
    ];
    for (choices, count, same) in rows {
        let words = path_words(alloc, choices)?;
        let (ended, written) = run(alloc, words.as_slice(), TORUS, moving(4096))?;
        assert_eq!(rt; ended, 0);
        let text = walk_lines(alloc, count, same, TORUS_CLASS)?;
        assert_eq!(rt; written.as_slice(), text.as_slice());
    }
    Ok(())
}

#[test]
fn refuses_walks(rt: HostRuntime) -> Result<(), Fail> {
    let alloc = rt.alloc();
    let rows: [(&[&str], &[u8], u8, &[u8]); 7] = [
        (&["path", "3"], TORUS, 11, b"no wall 0\n"),
        (&["path", "2", "3", "999"], TORUS, 11, b"no wall 1\n"),
        (
            &["path", "0", "0", "0", "3"],
            L_THREE_SQUARES,
            11,
            b"no wall 3\n",
        ),
        (
            &["path", "0"],
            LARGE_TORUS,
            6,
            b"fault wide F2 flips 0 edge 0\n",
        ),
        (&["path", "0"], WIDE_OCTAGON, 6, b"fault wide F6 walk 0\n"),
        (
            &["path", "--flips=4", "0"],
            SHEARED_TORUS,
            5,
            b"fault flips 1/10 11/10\n",
        ),
        (&["path", "0"], b"", 3, b"fault file 1 1 NoLine\n"),
    ];
    for (words, input, status, text) in rows {
        let (ended, written) = run(alloc, words, input, moving(4096))?;
        assert_eq!(rt; ended, status);
        assert_eq!(rt; written.as_slice(), text);
    }
    Ok(())
}

#[test]
fn crosses_every_wall_and_back(rt: HostRuntime) -> Result<(), Fail> {
    let alloc = rt.alloc();
    let examples = [
        TORUS,
        TORUS_TRIANGLES,
        L_THREE_SQUARES,
        L_FOUR_SQUARES,
        FLAT_CORNERS,
        OCTAGON,
        GOLDEN_L,
        DOUBLE_PENTAGON,
    ];
    for input in examples {
        for wall in [b"0", b"1", b"2"] {
            let mut came_back = false;
            for back in [b"0", b"1", b"2"] {
                let words = path_words(alloc, &[wall[0], back[0]])?;
                let (ended, written) = run(alloc, words.as_slice(), input, moving(4096))?;
                assert_eq!(rt; ended, 0);
                came_back = came_back || written.as_slice().starts_with(b"path 2\nsame yes\n");
            }
            assert!(rt; came_back);
        }
    }
    Ok(())
}

#[test]
fn refuses_long_words(rt: HostRuntime) -> Result<(), Fail> {
    let alloc = rt.alloc();
    let too_many = vec![in alloc; b'2'; 4097]?;
    let words = path_words(alloc, too_many.as_slice())?;
    let (ended, written) = run(alloc, words.as_slice(), TORUS, moving(4096))?;
    assert_eq!(rt; ended, 2);
    assert_eq!(rt; written.as_slice(), b"fault words\n".as_slice());

    let mut options = Vec::with_capacity(alloc, 5001)?;
    options.push("base")?;
    for _ in 0..5000 {
        options.push("--flips=5")?;
    }
    let (ended, written) = run(alloc, options.as_slice(), TORUS, moving(4096))?;
    assert_eq!(rt; ended, 2);
    assert_eq!(rt; written.as_slice(), b"fault words\n".as_slice());

    let digits = String::from_utf8(vec![in alloc; b'1'; 100_000]?)?;
    let mut option = String::from_str(alloc, "--flips=")?;
    option.push_str(digits.as_str())?;
    for words in [["check", digits.as_str()], ["base", option.as_str()]] {
        let (ended, written) = run(alloc, &words, TORUS, moving(4096))?;
        assert_eq!(rt; ended, 2);
        assert_eq!(rt; written.as_slice(), b"fault words\n".as_slice());
    }
    Ok(())
}
