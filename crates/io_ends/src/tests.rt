//! What no clause says: that calls succeed, worked rows, and the ends of std.

use super::*;
use std::fs::File;
use std::io;
use std::sync::atomic::{AtomicU64, Ordering};
use std::test::Fail;

/// Two readings of "abcdefghij", the first under `limit` and the second under 100, and what they answer.
#[derive(Drop)]
struct Reading<'a> {
    most: usize,
    fails: &'a [u64],
    limit: usize,
    first: Result<&'a [u8], ReadAll>,
    second: Result<&'a [u8], ReadAll>,
}

#[rattlefmt::skip]
fn readings() -> [Reading<'static>; 11] {
    let fault = Err(ReadAll::Fault);
    let too_long = Err(ReadAll::TooLong);
    [
        Reading { most: 1, fails: &[], limit: 10, first: Ok(b"abcdefghij"), second: Ok(b"") },
        Reading { most: 7, fails: &[], limit: 10, first: Ok(b"abcdefghij"), second: Ok(b"") },
        Reading { most: 5000, fails: &[], limit: 10, first: Ok(b"abcdefghij"), second: Ok(b"") },
        Reading { most: 1, fails: &[], limit: 9, first: too_long, second: Ok(b"") },
        Reading { most: 7, fails: &[], limit: 6, first: too_long, second: Ok(b"hij") },
        Reading { most: 5000, fails: &[], limit: 0, first: too_long, second: Ok(b"bcdefghij") },
        Reading { most: 5000, fails: &[0], limit: 10, first: fault, second: Ok(b"abcdefghij") },
        Reading { most: 1, fails: &[3], limit: 10, first: fault, second: Ok(b"defghij") },
        Reading { most: 7, fails: &[2], limit: 10, first: fault, second: Ok(b"") },
        Reading { most: 7, fails: &[5, 3], limit: 10, first: Ok(b"abcdefghij"), second: fault },
        Reading { most: 7, fails: &[0, 1], limit: 10, first: fault, second: fault },
    ]
}

fn lent(answer: &Result<Vec<u8>, ReadAll>) -> Result<&[u8], ReadAll> {
    match answer {
        Ok(bytes) => Ok(bytes.as_slice()),
        Err(refusal) => Err(*refusal),
    }
}

#[test]
fn reads_in_memory(rt: HostRuntime) -> Result<(), Fail> {
    for row in &readings() {
        assert!(rt; 1 <= row.most && row.limit <= 10);
        let bytes = b"abcdefghij".to_vec(rt.alloc())?;
        let mut source = MemSource::make(bytes, row.most, row.fails.to_vec(rt.alloc())?);
        let first = read_all(rt.alloc(), &mut source, row.limit);
        assert_eq!(rt;
            lent(&first),
            row.first,
            "most {}, limit {}",
            row.most,
            row.limit
        );
        let second = read_all(rt.alloc(), &mut source, 100);
        assert_eq!(rt;
            lent(&second),
            row.second,
            "most {}, limit {}",
            row.most,
            row.limit
        );
    }
    Ok(())
}

/// A sink is given "abcdefghij": what it answers and then holds.
#[derive(Drop)]
struct Writing<'a> {
    most: usize,
    room: usize,
    fails: &'a [u64],
    answer: Result<(), WriteFault>,
    held: &'a [u8],
}

#[rattlefmt::skip]
fn writings() -> [Writing<'static>; 8] {
    let fault = Err(WriteFault);
    [
        Writing { most: 1, room: 10, fails: &[], answer: Ok(()), held: b"abcdefghij" },
        Writing { most: 7, room: 12, fails: &[], answer: Ok(()), held: b"abcdefghij" },
        Writing { most: 5000, room: 10, fails: &[], answer: Ok(()), held: b"abcdefghij" },
        Writing { most: 3, room: 5, fails: &[], answer: fault, held: b"abcde" },
        Writing { most: 1, room: 0, fails: &[], answer: fault, held: b"" },
        Writing { most: 3, room: 10, fails: &[1], answer: fault, held: b"abc" },
        Writing { most: 3, room: 10, fails: &[4], answer: Ok(()), held: b"abcdefghij" },
        Writing { most: 5000, room: 10, fails: &[7, 0], answer: fault, held: b"" },
    ]
}

#[test]
fn writes_in_memory(rt: HostRuntime) -> Result<(), Fail> {
    for row in &writings() {
        assert!(rt; 1 <= row.most);
        let fails = row.fails.to_vec(rt.alloc())?;
        let mut sink = MemSink::make(rt.alloc(), row.most, row.room, fails)?;
        assert_eq!(rt;
            write_all(&mut sink, b"abcdefghij"),
            row.answer,
            "most {}",
            row.most
        );
        assert_eq!(rt;
            sink.bytes(),
            row.held,
            "most {}, room {}",
            row.most,
            row.room
        );
        assert_eq!(rt; write_all(&mut sink, b""), Ok(()));
    }
    Ok(())
}

#[test]
fn a_call_moves_the_least(rt: HostRuntime) -> Result<(), Fail> {
    let mut source = MemSource::make(b"abcde".to_vec(rt.alloc())?, 3, Vec::new(rt.alloc()));
    let mut buf = *b"....";
    for (len, count, held) in [
        (4usize, 3, b"abc."),
        (1, 1, b"dbc."),
        (4, 1, b"ebc."),
        (4, 0, b"ebc."),
    ] {
        assert!(rt; 0 < len && len <= 4);
        assert_eq!(rt; source.read(&mut buf[..len]), Ok(count));
        assert_eq!(rt; &buf, held);
    }
    Ok(())
}

#[test]
fn the_ends_of_std(rt: HostRuntime) -> Result<(), Fail> {
    let mut source = StdSource::make(b"abc".as_slice());
    assert_eq!(rt;
        lent(&read_all(rt.alloc(), &mut source, 2)),
        Err(ReadAll::TooLong)
    );
    let mut source = StdSource::make(b"abc".as_slice());
    assert_eq!(rt;
        lent(&read_all(rt.alloc(), &mut source, 3)),
        Ok(b"abc".as_slice())
    );
    let mut written = Vec::new(rt.alloc());
    assert_eq!(rt; write_all(&mut StdSink::make(&mut written), b"abc"), Ok(()));
    assert_eq!(rt; written.as_slice(), b"abc".as_slice());
    assert_eq!(rt;
        write_all(&mut StdSink::make(io::writer(&rt)), b"written\n"),
        Ok(())
    );
    Ok(())
}

/// A folder opens and gives an error when it is read; a file that is open for reading refuses what is written; and
/// a slice without room takes no bytes.
#[test]
fn the_faults_of_std(rt: HostRuntime) -> Result<(), Fail> {
    let mut folder = StdSource::make(File::open(&rt, "/")?);
    assert_eq!(rt;
        lent(&read_all(rt.alloc(), &mut folder, 9)),
        Err(ReadAll::Fault)
    );
    let mut empty = StdSource::make(File::open(&rt, "/dev/null")?);
    assert_eq!(rt;
        lent(&read_all(rt.alloc(), &mut empty, 9)),
        Ok(b"".as_slice())
    );
    let mut shut = StdSink::make(File::open(&rt, "/dev/null")?);
    assert_eq!(rt; write_all(&mut shut, b"abc"), Err(WriteFault));
    let mut room = *b"..";
    assert_eq!(rt;
        write_all(&mut StdSink::make(room.as_mut_slice()), b"abc"),
        Err(WriteFault)
    );
    assert_eq!(rt; &room, b"ab");
    Ok(())
}

/// A gate that counts the steps before which it stands.
#[derive(Drop)]
struct Counter {
    steps: AtomicU64,
}

impl Gate for Counter {
    fn before(&self, _worker: u32, _step: GateStep) {
        self.steps.fetch_add(1, Ordering::SeqCst);
    }
}

fn pass<G: Gate>(gate: &G) {
    for (worker, step) in [
        (0, GateStep::Take),
        (0, GateStep::Cross),
        (15, GateStep::Meet),
        (15, GateStep::Fill),
        (1, GateStep::Look),
    ] {
        gate.before(worker, step);
    }
}

#[test]
fn a_gate_lets_every_step_go_on(rt: HostRuntime) {
    pass(&OpenGate);
    let counter = Counter {
        steps: AtomicU64::new(0),
    };
    pass(&counter);
    assert_eq!(rt; counter.steps.load(Ordering::SeqCst), 5);
}
