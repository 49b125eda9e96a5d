//! Ends that fail at each of their calls in turn.

use super::{Ends, TORUS, run};
use std::test::Fail;

/// The report of the square torus.
const TORUS_REPORT: &[u8] =
    b"veech 1\nfield 2\nbase 1/10 11/10\nclasses 1\nclass 2 1 1 0 0 0 0 0 1 0 3 4 5 -1 0 0 0 0 0 -1 0 0 1 2\nmatrices 8\nmatrix 1 2 -1 -1 1\nmatrix 1 1 -2 -1 1\nmatrix 0 1 -1 0 1\nmatrix -1 -1 1 0 1\nmatrix 0 1 -1 -1 1\nmatrix -1 0 0 -1 1\nmatrix 1 1 -1 0 1\nmatrix 0 -1 1 1 1\nend\n";

/// The file has 71 bytes, so eight a call are read in nine calls, and a tenth finds the end.
#[test]
fn answers_a_failure_of_each_read(rt: HostRuntime) -> Result<(), Fail> {
    for call in 0..=10 {
        let ends = Ends {
            most_read: 8,
            failing_read: Some(call),
            most_written: 4096,
            failing_write: None,
        };
        let (ended, written) = run(rt.alloc(), &["plain"], TORUS, ends)?;
        let (status, text): (u8, &[u8]) = if call < 10 {
            (8, b"fault read\n")
        } else {
            (0, TORUS_REPORT)
        };
        assert_eq!(rt; ended, status, "call {call}");
        assert_eq!(rt; written.as_slice(), text, "call {call}");
    }
    Ok(())
}

/// The report has 262 bytes, so sixteen a call are taken in seventeen calls.
#[test]
fn answers_a_failure_of_each_write(rt: HostRuntime) -> Result<(), Fail> {
    for call in 0..=17 {
        let ends = Ends {
            most_read: 4096,
            failing_read: None,
            most_written: 16,
            failing_write: Some(call),
        };
        let (ended, written) = run(rt.alloc(), &["plain"], TORUS, ends)?;
        let status = if call < 17 { 9 } else { 0 };
        let taken = TORUS_REPORT.len().min(16 * call as usize);
        assert_eq!(rt; ended, status, "call {call}");
        assert_eq!(rt; written.as_slice(), &TORUS_REPORT[..taken], "call {call}");
    }
    Ok(())
}
