//! The events of an exploration.

use terrain::Stop;

/// What may happen to a book at the wall of a key: the key to which it leads is added, or its slot is filled with its lead.
#[derive(Drop)]
pub enum Event<K> {
    Meet { from: K, wall: u32 },
    Fill { from: K, wall: u32 },
}

/// Why an event was refused.
#[derive(Debug, PartialEq, Eq, Drop)]
pub enum StepFault<F> {
    /// The key isn't in the book, or has no such slot, or the slot is filled.
    NoTicket,
    /// The key to which the wall leads isn't in the book.
    NotMet,
    /// The terrain is stuck at the wall, or at the key to which it leads.
    Fault(F),
    Memory,
}

impl<F> From<Stop<F>> for StepFault<F> {
    ghost use Rattle.std.specs.Prelude.{◌≡◌};
    ghost use Rattle.explore_core.specs.Refusals.{step_fault};

    ghost from_gives = { λ stop e. e ≡ step_fault stop };

    fn from(stop: Stop<F>) -> StepFault<F> {
        match stop {
            Stop::Fault(fault) => StepFault::Fault(fault),
            Stop::Memory => StepFault::Memory,
        }
    }
}
