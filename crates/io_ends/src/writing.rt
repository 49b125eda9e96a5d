//! Writing all of some bytes to a sink.

ghost use Rattle.std.specs.Prelude.{◌≡◌, ℕ, ◌<◌, ◌≤◌, length, take, OnOk, OnErr, IsOk};
ghost use Rattle.io_ends.specs.Ends.{Rose, taken_after};

use super::{Failed, Sink};

/// A call of the sink failed. The sink has taken the bytes before.
#[derive(Clone, Copy, Debug, PartialEq, Eq)]
pub struct WriteFault;

impl From<Failed> for WriteFault {
    fn from(_failed: Failed) -> WriteFault {
        WriteFault
    }
}

/// Writes all the bytes to a sink, in order. It takes no memory.
///
/// Refuses where a call of the sink failed; the sink has then taken some first bytes, not all.
pub fn write_all<K: Sink>(sink: &mut K, bytes: &[u8]) -> Result<(), WriteFault>
    ensures taken { OnOk result (K.taken sink.new ≡ taken_after (K.taken sink.old) bytes.now) }
    ensures fault { OnErr result (Rose (K.faults sink.old) (K.faults sink.new)) }
    ensures prefix { OnErr result ((n : ℕ) × (n < length bytes.now)
        × (K.taken sink.new ≡ taken_after (K.taken sink.old) (take n bytes.now))) }
    ensures never_falls { K.faults sink.old ≤ K.faults sink.new }
    ensures no_bytes { length bytes.now ≡ 0 → IsOk result × (sink.new ≡ sink.old) }
{
    let mut at = 0;
    while at < bytes.len() {
        at += sink.write(&bytes[at..])?;
    }
    Ok(())
}
