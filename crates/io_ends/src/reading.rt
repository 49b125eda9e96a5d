//! Reading a source to its end.

ghost use Rattle.std.specs.Prelude.{◌≡◌, ℕ, ◌+◌, ◌^◌, ◌<◌, ◌≤◌, ◌↔◌, [], length, IfOk, IfSome, OnOk, IsErrOf};
ghost use Rattle.std.specs.Option.{option_map};
ghost use Rattle.io_ends.specs.Ends.{Rose, given};
ghost use Rattle.io_ends.specs.declared.reading.ReadAll.TheVariants.{Fault, Memory};

use super::{Failed, Source};
use std::alloc::{AllocError, Global};

/// Why a source wasn't read to its end. What it gave before stays read.
#[derive(Clone, Copy, Debug, PartialEq, Eq)]
pub enum ReadAll {
    /// A call of the source failed.
    Fault,
    /// More bytes came than the limit allows.
    TooLong,
    /// No memory is left.
    Memory,
}

impl From<Failed> for ReadAll {
    ghost from_gives = { λ _ refusal. refusal ≡ Fault };

    fn from(_failed: Failed) -> ReadAll {
        ReadAll::Fault
    }
}

impl From<AllocError> for ReadAll {
    ghost from_gives = { λ _ refusal. refusal ≡ Memory };

    fn from(_error: AllocError) -> ReadAll {
        ReadAll::Memory
    }
}

/// How many bytes a turn asks for at most.
const CHUNK: usize = 4096;

/// Reads a source to its end: all the bytes that are left, at most `limit`.
///
/// Refuses with [`ReadAll::Fault`] where a call of the source failed, with [`ReadAll::TooLong`] exactly where more
/// than `limit` bytes came (then `limit + 1` were read), and with [`ReadAll::Memory`] where no memory is left.
pub fn read_all<S: Source>(alloc: Global, source: &mut S, limit: usize) -> Result<Vec<u8>, ReadAll>
    requires { limit ≤ 2 ^ 31 }
    ensures within { IfOk result (λ bytes. length bytes.items ≤ limit) }
    ensures all { IfOk result (λ bytes. IfSome (S.left source.old) (λ left. bytes.items ≡ left)) }
    ensures nothing_left { OnOk result (S.left source.new ≡ option_map (λ _. []) (S.left source.old)) }
    ensures too_long { IsErrOf result ReadAll.TooLong → IfSome (S.left source.old) (λ left. limit < length left) }
    ensures one_past { IsErrOf result ReadAll.TooLong → S.left source.new ≡ given (limit + 1) (S.left source.old) }
    ensures fault { IsErrOf result ReadAll.Fault → Rose (S.faults source.old) (S.faults source.new) }
    // n bytes were read: limit + 1 where there were too many, and else at most limit.
    ensures reads { (n : ℕ) × (n ≤ limit + 1) × (IsErrOf result ReadAll.TooLong ↔ (n ≡ limit + 1))
        × (S.left source.new ≡ given n (S.left source.old)) }
    ensures never_falls { S.faults source.old ≤ S.faults source.new }
{
    let mut bytes = Vec::new(alloc);
    let mut chunk = [0u8; CHUNK];
    loop {
        let room = limit - bytes.len();
        let wanted = CHUNK.min(room + 1);
        let n = source.read(&mut chunk[..wanted])?;
        if n == 0 {
            return Ok(bytes);
        }
        if room < n {
            return Err(ReadAll::TooLong);
        }
        bytes.extend_from_slice(&chunk[..n])?;
    }
}
