//! A source in memory, whose calls fail as a list says.

ghost use Rattle.std.specs.Prelude.{◌≡◌, ◌<◌, ◌≤◌, ◌↔◌, min, [], length, take, drop, ◌++◌, Some, IsErr, IfOk, OnErr};
ghost use Rattle.io_ends.specs.Memory.{SourceFails, moved_count, source_moved, source_failed};

use super::calls::is_failing;
use super::{Failed, Source};
use std::marker::Model;

/// A source in memory. Its calls are numbered from 0, and those in a list fail; every other call moves the
/// least of `most`, the length of the buffer and what is left. Its count is the number of failed calls.
#[derive(Drop)]
pub struct MemSource {
    bytes: Vec<u8>,
    at: usize,
    most: usize,
    fails: Vec<u64>,
    call: u64,
    faults: u64,
}

impl Model for MemSource {
    ghost use Rattle.std.specs.Prelude.{◌≤◌, drop, length};
    ghost use Rattle.io_ends.specs.Memory.{MemoryBytes};

    ghost Value = { MemoryBytes };

    ghost view = { λ s. record { bytes = drop s.at s.bytes.items; most = s.most; fails = s.fails.items; call = s.call; faults = s.faults } };

    ghost invariant = { λ s. (s.at ≤ length s.bytes.items) × (1 ≤ s.most) };
}

impl MemSource {
    /// A source of these bytes, which moves at most `most` bytes a call and fails at the calls of these numbers.
    pub fn make(bytes: Vec<u8>, most: usize, fails: Vec<u64>) -> MemSource
        requires { 1 ≤ most }
        ensures { result ≡ record { bytes = bytes.items; most = most; fails = fails.items; call = 0; faults = 0 } }
    {
        MemSource {
            bytes,
            at: 0,
            most,
            fails,
            call: 0,
            faults: 0,
        }
    }
}

impl Source for MemSource {
    ghost left = { λ s. Some s.bytes };

    ghost faults = { λ s. s.faults };

    /// Fails exactly at the calls of the list; else moves as many bytes as it may, and leaves the rest of `buf`.
    fn read(&mut self, buf: &mut [u8]) -> Result<usize, Failed>
        requires { 0 < length buf.old }
        ensures fails { IsErr result ↔ SourceFails self.old }
        ensures count { IfOk result (λ n. n ≡ moved_count self.old (length buf.old)) }
        ensures after { IfOk result (λ n. self.new ≡ source_moved self.old n) }
        ensures front { IfOk result (λ n. buf.new ≡ take n self.old.bytes ++ drop n buf.old) }
        ensures end { IfOk result (λ n. n ≡ 0 → self.old.bytes ≡ []) }
        ensures failed { OnErr result (self.new ≡ source_failed self.old) }
        ensures untouched { OnErr result (buf.new ≡ buf.old) }
        ensures never_falls { self.old.faults ≤ self.new.faults }
    {
        let fails = is_failing(&self.fails, self.call);
        self.call = self.call.saturating_add(1);
        if fails {
            self.faults = self.faults.saturating_add(1);
            return Err(Failed);
        }
        let n = copy_front(&self.bytes[self.at..], self.most, buf);
        self.at += n;
        Ok(n)
    }
}

/// Copies the first bytes into the front of `buf`, at most `most`, and answers how many.
fn copy_front(bytes: &[u8], most: usize, buf: &mut [u8]) -> usize
    ensures count { result ≡ min (min most (length buf.old)) (length bytes.now) }
    ensures front { buf.new ≡ take result bytes.now ++ drop result buf.old }
{
    let n = most.min(buf.len()).min(bytes.len());
    buf[..n].copy_from_slice(&bytes[..n]);
    n
}
