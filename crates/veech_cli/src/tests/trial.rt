//! Whole runs of `make`, of `trial` and of `plain --summary`.

use super::{Ends, L_THREE_SQUARES, TORUS, TWO_SQUARES, moving, run};
use std::test::Fail;

/// The octagon of side 100, which is that of the last number.
const LAST_OCTAGON: &[u8] =
    b"flat 1\nfield 2\npolygon 100,0 0+50r,0+50r 0,100 0-50r,0+50r -100,0 0-50r,0-50r 0,-100 0+50r,0-50r\nglue 0.0 0.4\nglue 0.1 0.5\nglue 0.2 0.6\nglue 0.3 0.7\nend\n";

/// The summary of the square torus.
const TORUS_SUMMARY: &[u8] = b"classes 1\nmatrices 8\nend\n";

/// Ends of which the source fails at its first read.
fn unreadable() -> Ends {
    Ends {
        most: 4096,
        failing_read: Some(0),
        room: 8192,
    }
}

#[test]
fn works_on_numbers_without_reading(rt: HostRuntime) -> Result<(), Fail> {
    let rows: [(&[&str], &[u8]); 12] = [
        (&["make", "0"], TORUS),
        (&["make", "1"], L_THREE_SQUARES),
        (&["make", "4"], TWO_SQUARES),
        (&["make", "199"], LAST_OCTAGON),
        (&["trial", "0"], b"trial 0\nclasses 1\nmatrices 8\nend\n"),
        (&["trial", "1"], b"trial 1\nclasses 1\nmatrices 4\nend\n"),
        (
            &["trial", "--flips", "1", "--limit", "1", "0"],
            b"trial 0\nclasses 1\nmatrices 8\nend\n",
        ),
        (
            &["trial", "--limit=2048", "--flips=1000000", "0"],
            b"trial 0\nclasses 1\nmatrices 8\nend\n",
        ),
        (
            &["trial", "--limit", "1", "--flips=3", "1"],
            b"trial 1\nclasses 1\nmatrices 4\nend\n",
        ),
        (
            &["trial", "--flips=1000", "4"],
            b"trial 4\nclasses 1\nmatrices 4\nend\n",
        ),
        (
            &["trial", "--limit=1", "4"],
            b"trial 4\nclasses 1\nmatrices 4\nend\n",
        ),
        (&["trial", "4"], b"trial 4\nclasses 1\nmatrices 4\nend\n"),
    ];
    for (words, text) in rows {
        let (ended, written) = run(rt.alloc(), words, TORUS, unreadable())?;
        assert_eq!(rt; ended, 0);
        assert_eq!(rt; written.as_slice(), text);
    }
    Ok(())
}

#[test]
fn sums_reports_up(rt: HostRuntime) -> Result<(), Fail> {
    let rows: [(&[&str], &[u8], &[u8]); 6] = [
        (&["plain", "--summary"], TORUS, TORUS_SUMMARY),
        (
            &["plain", "--summary", "--flips=1", "--limit", "1"],
            TORUS,
            TORUS_SUMMARY,
        ),
        (
            &["plain", "--limit=1", "--summary", "--flips", "1"],
            TORUS,
            TORUS_SUMMARY,
        ),
        (
            &["plain", "--flips", "1000", "--limit=2048", "--summary"],
            TORUS,
            TORUS_SUMMARY,
        ),
        (
            &["plain", "--summary"],
            L_THREE_SQUARES,
            b"classes 1\nmatrices 4\nend\n",
        ),
        (
            &["plain", "--summary"],
            TWO_SQUARES,
            b"classes 1\nmatrices 4\nend\n",
        ),
    ];
    for (words, input, text) in rows {
        let (ended, written) = run(rt.alloc(), words, input, moving(4096))?;
        assert_eq!(rt; ended, 0);
        assert_eq!(rt; written.as_slice(), text);
    }
    Ok(())
}

#[test]
fn refuses_trials(rt: HostRuntime) -> Result<(), Fail> {
    let rows: [(&[&str], u8, &[u8]); 19] = [
        (&["trial", "--limit", "2", "5"], 7, b"fault limit 2\n"),
        (&["trial", "--flips=2", "1"], 5, b"fault flips 1/10 11/10\n"),
        (&["trial", "5", "--limit", "2"], 2, b"fault words\n"),
        (&["trial"], 2, b"fault words\n"),
        (&["trial", "200"], 2, b"fault words\n"),
        (&["trial", "00"], 2, b"fault words\n"),
        (&["trial", "0", "0"], 2, b"fault words\n"),
        (&["trial", "--limit", "0", "5"], 2, b"fault words\n"),
        (
            &["trial", "--limit=2", "--limit", "2", "5"],
            2,
            b"fault words\n",
        ),
        (&["trial", "--limit", "5"], 2, b"fault words\n"),
        (&["trial", "--summary", "5"], 2, b"fault words\n"),
        (&["make"], 2, b"fault words\n"),
        (&["make", "200"], 2, b"fault words\n"),
        (&["make", "01"], 2, b"fault words\n"),
        (&["make", "-1"], 2, b"fault words\n"),
        (&["make", "1", "1"], 2, b"fault words\n"),
        (&["make", "--flips", "5", "1"], 2, b"fault words\n"),
        (&["plain", "--summary=1"], 2, b"fault words\n"),
        (&["plain", "--summary", "--summary"], 2, b"fault words\n"),
    ];
    for (words, status, text) in rows {
        let (ended, written) = run(rt.alloc(), words, TORUS, unreadable())?;
        assert_eq!(rt; ended, status);
        assert_eq!(rt; written.as_slice(), text);
    }
    Ok(())
}

/// Rows of n squares are the numbers 4n - 4. Their classes are a third of the images of a lattice of index n under SL(2, Z), those that a
/// turn of order three keeps counted three times: (4 + 2) / 3 for 3 squares, (90 + 0) / 3 for 50.
#[test]
fn counts_the_classes_of_families(rt: HostRuntime) -> Result<(), Fail> {
    let rows: [(&[&str], &[u8]); 2] = [
        (&["trial", "8"], b"trial 8\nclasses 2\nmatrices "),
        (
            &["trial", "--limit=30", "196"],
            b"trial 196\nclasses 30\nmatrices ",
        ),
    ];
    for (words, front) in rows {
        let (ended, written) = run(rt.alloc(), words, TORUS, unreadable())?;
        assert_eq!(rt; ended, 0);
        assert!(rt; written.starts_with(front));
    }
    Ok(())
}

/// What `trial` counts are the lines of the report that `plain` writes of the file that `make` writes.
#[test]
fn counts_what_plain_reports(rt: HostRuntime) -> Result<(), Fail> {
    let alloc = rt.alloc();
    for number in ["0", "2", "3", "5", "6", "8", "12"] {
        let (made, file) = run(alloc, &["make", number], b"", unreadable())?;
        let (ended, written) = run(alloc, &["plain"], file.as_slice(), moving(4096))?;
        let (tried, counts) = run(alloc, &["trial", number], b"", unreadable())?;
        assert_eq!(rt; [made, ended, tried], [0, 0, 0]);
        let report = String::from_utf8(written)?;
        let classes = report
            .lines()
            .filter(|line| line.starts_with("class "))
            .count();
        let matrices = report
            .lines()
            .filter(|line| line.starts_with("matrix "))
            .count();
        let text = format!(in alloc;
            "trial {number}\nclasses {classes}\nmatrices {matrices}\nend\n"
        )?;
        assert_eq!(rt; counts.as_slice(), text.as_bytes());
    }
    Ok(())
}
