//! The deque of another worker.

ghost use Rattle.std.specs.Prelude.{◌≡◌, IfNone};
ghost use Rattle.crossbeam_deque.specs.Handles.{IsPassOf, stealer_deque, stealer_flavor};
ghost use Rattle.crossbeam_deque.specs.Steals.{MatchSteal};
ghost use Rattle.wall_steal.specs.Outcomes.{Tells};

use class_shards::{Naming, Ticket};
use crossbeam_deque::protocol::{Free, Outcome};
use crossbeam_deque::{Pass, Steal, Stealer};
use std::alloc::Global;
use std::sync::Wait;
use std::thread;
use terrain::{Numbers, Terrain};

/// Another worker's deque, and the pass to take from it.
#[derive(Drop)]
pub(crate) struct Other<T: Terrain, N: Naming> {
    pub(crate) stealer: Stealer<Ticket<T, N>, Global, (), Free>,
    pub(crate) pass: Pass<Ticket<T, N>, (), Global>,
    ghost fits: { IsPassOf (stealer_deque stealer) pass },
    ghost fifo: { stealer_flavor stealer ≡ 0 },
}

impl<T: Terrain, N: Naming> Other<T, N> {
    fn steal<M: Outcome<Ticket<T, N>, ()>>(&mut self) -> Steal<Ticket<T, N>>
        requires { Tells M.then M.empty }
        ensures { MatchSteal result (M.empty tt) (Unit {0}) (λ _. Unit {0}) }
    {
        let Other { stealer, pass } = self;
        stealer.steal_as::<M>(pass)
    }

    /// The ticket at the front. A steal that lost its race is tried again.
    pub(crate) fn take<M: Outcome<Ticket<T, N>, ()>, R: Wait>(
        &mut self,
        rt: &R,
    ) -> Option<Ticket<T, N>>
        requires { Tells M.then M.empty }
        ensures { IfNone result (M.empty tt) }
    {
        for _ in rt.forever() {
            match self.steal::<M>() {
                Steal::Success(ticket) => return Some(ticket),
                Steal::Empty => return None,
                Steal::Retry => thread::yield_now(),
            }
        }
        unreachable!()
    }
}
