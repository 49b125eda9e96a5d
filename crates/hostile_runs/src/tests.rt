//! Whole runs on hostile input, over ends in memory: what is written and how it ends, byte for byte.

ghost use Rattle.std.specs.Prelude.{◌≤◌};

mod bytes;
mod failing_ends;
mod limits;
mod lines;
mod plain_reader;

use io_ends::{MemSink, MemSource};
use std::alloc::{AllocError, Global};
use veech_cli::{WordList, run_plain, status_number};

/// A square torus.
const TORUS: &[u8] =
    b"flat 1\nfield 2\npolygon 1,0 0,1 -1,0 0,-1\nglue 0.1 0.3\nglue 0.2 0.0\nend\n";

/// What `check` writes for it.
const TORUS_COUNTS: &[u8] = b"valid\ntriangles 2\nedges 3\nvertices 1\ngenus 1\ncones 1\nend\n";

/// How the ends of a run behave: the most that a call of each moves, and the one call of each that fails.
#[derive(Clone, Copy)]
struct Ends {
    most_read: usize,
    failing_read: Option<u64>,
    most_written: usize,
    failing_write: Option<u64>,
    ghost reads: { 1 ≤ most_read },
    ghost writes: { 1 ≤ most_written },
}

/// Ends that move a page a call and never fail.
fn sound() -> Ends {
    Ends {
        most_read: 4096,
        failing_read: None,
        most_written: 4096,
        failing_write: None,
    }
}

/// The calls that fail: this one, or none.
fn failing(alloc: Global, call: Option<u64>) -> Result<Vec<u64>, AllocError> {
    let mut calls = Vec::new(alloc);
    if let Some(call) = call {
        calls.push(call)?;
    }
    Ok(calls)
}

/// The status of a run on these words and this input, and what the sink holds after it.
fn run(
    alloc: Global,
    words: &[&str],
    input: &[u8],
    ends: Ends,
) -> Result<(u8, Vec<u8>), AllocError> {
    let mut list = WordList::start(alloc);
    for word in words {
        list.push(alloc, word)?;
    }
    let bytes = Vec::from_slice(alloc, input)?;
    let mut source = MemSource::make(bytes, ends.most_read, failing(alloc, ends.failing_read)?);
    let calls = failing(alloc, ends.failing_write)?;
    let mut sink = MemSink::make(alloc, ends.most_written, 8192, calls)?;
    let status = run_plain(alloc, &list, &mut source, &mut sink);
    let written = Vec::from_slice(alloc, sink.bytes())?;
    Ok((status_number(&status), written))
}
