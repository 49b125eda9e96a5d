//! Whole runs of `group`: what `plain` writes, by any number of workers.

use super::super::run as run_with_workers;
use super::examples::{
    DOUBLE_OCTAGON, EIERLEGENDE_WOLLMILCHSAU, L_8, L_12, L_13, L_17_MINUS, L_17_PLUS,
};
use super::plain::{MARKED_TORUS, roomy};
use super::{
    DOUBLE_PENTAGON, FLAT_CORNERS, GOLDEN_L, L_FOUR_SQUARES, L_THREE_SQUARES, LARGE_TORUS, OCTAGON,
    SHEARED_TORUS, TORUS, TORUS_TRIANGLES, TWO_SQUARES, WIDE_OCTAGON, WordList, run, status_number,
};
use io_ends::{Gate, GateStep, MemSink, MemSource, OpenGate};
use std::alloc::{AllocError, Global};
use std::sync::Wait;
use std::sync::atomic::{AtomicU64, Ordering};
use std::test::Fail;
use std::thread::Threads;

/// The status of a run of `group` with these options on this input, and what was written.
fn run_group<R: Threads + Wait + Sync, G: Gate>(
    rt: &R,
    alloc: Global,
    options: &[&str],
    input: &[u8],
    gate: &G,
) -> Result<(u8, Vec<u8>), AllocError> {
    let mut words = WordList::start(alloc);
    words.push(alloc, "group")?;
    for option in options {
        words.push(alloc, option)?;
    }
    let bytes = Vec::from_slice(alloc, input)?;
    let mut source = MemSource::make(bytes, 65536, Vec::new(alloc));
    let mut sink = MemSink::make(alloc, 65536, 1_048_576, Vec::new(alloc))?;
    let status = run_with_workers(rt, alloc, &words, &mut source, &mut sink, gate);
    let written = Vec::from_slice(alloc, sink.bytes())?;
    Ok((status_number(&status), written))
}

#[test]
fn writes_the_report_of_every_example(rt: HostRuntime) -> Result<(), Fail> {
    let alloc = rt.alloc();
    let examples = [
        TORUS,
        TORUS_TRIANGLES,
        TWO_SQUARES,
        L_THREE_SQUARES,
        L_FOUR_SQUARES,
        FLAT_CORNERS,
        OCTAGON,
        GOLDEN_L,
        DOUBLE_PENTAGON,
        DOUBLE_OCTAGON,
        EIERLEGENDE_WOLLMILCHSAU,
        L_8,
        L_12,
        L_13,
        L_17_MINUS,
        L_17_PLUS,
    ];
    for input in examples {
        let (ended, report) = run(alloc, &["plain"], input, roomy())?;
        assert_eq!(rt; ended, 0);
        for workers in ["1", "4", "16"] {
            let (ended, written) = run_group(
                &rt,
                alloc,
                &["--workers", workers],
                input,
                &OpenGate,
            )?;
            assert_eq!(rt; ended, 0);
            assert_eq!(rt; written.as_slice(), report.as_slice());
        }
    }
    Ok(())
}

#[test]
fn writes_the_reports_of_families(rt: HostRuntime) -> Result<(), Fail> {
    let alloc = rt.alloc();
    for number in [
        "0", "1", "2", "3", "4", "5", "6", "7", "8", "10", "12", "13", "17", "25", "40", "48",
        "57", "100", "196", "199",
    ] {
        let (made, file) = run(alloc, &["make", number], b"", roomy())?;
        let (ended, report) = run(alloc, &["plain"], file.as_slice(), roomy())?;
        let (ended_too, written) = run_group(&rt, alloc, &[], file.as_slice(), &OpenGate)?;
        assert_eq!(rt; [made, ended_too], [0, ended]);
        assert_eq!(rt; written.as_slice(), report.as_slice());
    }
    Ok(())
}

#[test]
fn refuses_what_plain_does(rt: HostRuntime) -> Result<(), Fail> {
    let rows: [(&[&str], &[u8], u8, &[u8]); 9] = [
        (
            &["--limit", "2", "--workers", "4"],
            L_FOUR_SQUARES,
            7,
            b"fault limit 2\n",
        ),
        (&["--limit=20"], MARKED_TORUS, 7, b"fault limit 20\n"),
        (
            &["--limit=20", "--workers=16"],
            MARKED_TORUS,
            7,
            b"fault limit 20\n",
        ),
        (
            &["--workers=1"],
            LARGE_TORUS,
            6,
            b"fault wide F2 flips 0 edge 0\n",
        ),
        (
            &["--flips=4"],
            SHEARED_TORUS,
            5,
            b"fault flips 1/10 11/10\n",
        ),
        (&["--workers=16"], b"", 3, b"fault file 1 1 NoLine\n"),
        (&["--workers", "0"], TORUS, 2, b"fault words\n"),
        (&["--workers=17"], TORUS, 2, b"fault words\n"),
        (&["--summary"], TORUS, 2, b"fault words\n"),
    ];
    let alloc = rt.alloc();
    for (options, input, status, text) in rows {
        let (ended, written) = run_group(&rt, alloc, options, input, &OpenGate)?;
        assert_eq!(rt; ended, status);
        assert_eq!(rt; written.as_slice(), text);
    }
    Ok(())
}

#[test]
fn answers_words_and_wide_classes(rt: HostRuntime) -> Result<(), Fail> {
    let (ended, written) = run(rt.alloc(), &["group"], TORUS, roomy())?;
    assert_eq!(rt; ended, 2);
    assert!(rt; written.as_slice() == &b"fault words\n"[..]);
    let (wide, line) = run_group(&rt, rt.alloc(), &[], WIDE_OCTAGON, &OpenGate)?;
    assert_eq!(rt; wide, 6);
    assert!(rt; line.starts_with(b"fault wide "));
    Ok(())
}

/// A gate that holds the first crossing of each of two workers until the other's has begun, and counts the steps that have begun.
#[derive(Drop)]
struct BothCross {
    crossings: [AtomicU64; 2],
    meetings: AtomicU64,
    fillings: AtomicU64,
    missed: AtomicU64,
}

impl BothCross {
    fn new() -> BothCross {
        BothCross {
            crossings: [AtomicU64::new(0), AtomicU64::new(0)],
            meetings: AtomicU64::new(0),
            fillings: AtomicU64::new(0),
            missed: AtomicU64::new(0),
        }
    }

    /// Counts a crossing of a worker, and holds its first one.
    fn cross(&self, own: &AtomicU64, other: &AtomicU64) {
        if own.fetch_add(1, Ordering::SeqCst) > 0 {
            return;
        }
        for _ in 0..200_000_000 {
            if other.load(Ordering::SeqCst) > 0 {
                return;
            }
        }
        self.missed.fetch_add(1, Ordering::SeqCst);
    }

    /// The steps that have begun: each worker's crossings, the meetings, the fillings; and the crossings that were held to the limit.
    fn counts(&self) -> [u64; 5] {
        [
            self.crossings[0].load(Ordering::SeqCst),
            self.crossings[1].load(Ordering::SeqCst),
            self.meetings.load(Ordering::SeqCst),
            self.fillings.load(Ordering::SeqCst),
            self.missed.load(Ordering::SeqCst),
        ]
    }
}

impl Gate for BothCross {
    fn before(&self, worker: u32, step: GateStep) {
        match step {
            GateStep::Cross => {
                if worker == 0 {
                    self.cross(&self.crossings[0], &self.crossings[1]);
                } else {
                    self.cross(&self.crossings[1], &self.crossings[0]);
                }
            }
            GateStep::Meet => {
                self.meetings.fetch_add(1, Ordering::SeqCst);
            }
            GateStep::Fill => {
                self.fillings.fetch_add(1, Ordering::SeqCst);
            }
            GateStep::Take | GateStep::Look => {}
        }
    }
}

/// The one class of the torus has three walls, and so has each of the thirty classes of fifty squares in a row.
#[test]
fn two_workers_cross_at_once(rt: HostRuntime) -> Result<(), Fail> {
    let alloc = rt.alloc();
    for (number, walls) in [("0", 3), ("196", 90)] {
        let (made, file) = run(alloc, &["make", number], b"", roomy())?;
        let (ended, report) = run(alloc, &["plain"], file.as_slice(), roomy())?;
        let gate = BothCross::new();
        let (ended_too, written) = run_group(
            &rt,
            alloc,
            &["--workers", "2"],
            file.as_slice(),
            &gate,
        )?;
        assert_eq!(rt; [made, ended, ended_too], [0, 0, 0]);
        assert_eq!(rt; written.as_slice(), report.as_slice());
        let [first, second, meetings, fillings, missed] = gate.counts();
        assert!(rt; first > 0 && second > 0);
        assert_eq!(rt; first.saturating_add(second), walls);
        assert_eq!(rt; [meetings, fillings, missed], [walls, walls, 0]);
    }
    Ok(())
}
