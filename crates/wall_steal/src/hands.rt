//! A worker's deque and the stealers of all others.

ghost use Rattle.std.specs.Prelude.{◌≡◌, ◌+◌, IfOk, IfErr, IfNone, OnOk, OnErr};
ghost use Rattle.crossbeam_deque.specs.Handles.{worker_flavor};
ghost use Rattle.wall_steal.specs.Outcomes.{Tells};

use super::cause::{HaltCause, Known};
use super::halt::{Halt, HaltNote};
use super::other::Other;
use class_shards::{Naming, Ticket};
use crossbeam_deque::Worker;
use crossbeam_deque::protocol::{Free, Outcome};
use std::alloc::{AllocError, Global};
use std::marker::PhantomData;
use std::sync::Wait;
use terrain::{Numbers, Terrain};

/// The slots with which a deque begins.
const FIRST_SLOTS: usize = 256;

/// One worker's deque, first in, first out; the stealers of all others; and the room for one cause to halt.
#[derive(Drop)]
pub struct Hands<T: Terrain, N: Naming> {
    pub(crate) own: Worker<Ticket<T, N>, Global, (), Free>,
    pub(crate) others: Vec<Other<T, N>>,
    pub(crate) room: Option<Box<Known<T, N>>>,
    ghost fifo: { worker_flavor own ≡ 0 },
}

impl<T: Terrain, N: Naming> Hands<T, N> {
    ghost use Rattle.wall_steal.specs.Causes.{IsCause};
    ghost use Rattle.wall_steal.specs.Cells.{cell_of, noted_cell};
    ghost use Rattle.wall_steal.specs.Deques.{own_deque, deque_behind, other_deques, puts_of, HasRoom};

    /// An empty deque, with no other's.
    pub(crate) fn alone(alloc: Global) -> Result<Hands<T, N>, AllocError>
        ensures room { IfOk result HasRoom }
    {
        let own = Worker::fifo_as(alloc, FIRST_SLOTS)?;
        let room = Box::new(
            alloc,
            Known {
                cause: HaltCause::Memory,
                of: PhantomData,
            },
        )?;
        Ok(Hands {
            own,
            others: Vec::new(alloc),
            room: Some(room),
        })
    }

    /// The stealer of this deque, for another worker.
    pub(crate) fn share(&self) -> Result<Other<T, N>, AllocError>
        ensures { IfOk result (λ o. deque_behind o ≡ own_deque self.now) }
    {
        let stealer = self.own.stealer()?;
        let pass = stealer.pass();
        Ok(Other { stealer, pass })
    }

    /// Puts the ticket at the back of the own deque.
    pub fn put(
        &mut self,
        _alloc: Global,
        ticket: Ticket<T, N>,
    ) -> Result<(), (AllocError, Ticket<T, N>)>
        ensures put { OnOk result (puts_of self.new ≡ puts_of self.old + 1) }
        ensures stays { OnErr result (puts_of self.new ≡ puts_of self.old) }
        ensures back { IfErr result (λ e. e.1 ≡ ticket) }
        ensures same { (own_deque self.new ≡ own_deque self.old) × (other_deques self.new ≡ other_deques self.old) }
        ensures room { HasRoom self.old → HasRoom self.new }
    {
        match self.own.push_as::<Free>(ticket) {
            Ok(()) => Ok(()),
            Err(ticket) => Err((AllocError, ticket)),
        }
    }

    /// A ticket from the own deque, or else from the first other, in rising order, that has one. None only where each deque was empty at a moment of its own.
    pub fn take<M: Outcome<Ticket<T, N>, ()>, R: Wait>(&mut self, rt: &R) -> Option<Ticket<T, N>>
        requires { Tells M.then M.empty }
        ensures none { IfNone result (M.empty tt) }
        ensures room { HasRoom self.old → HasRoom self.new }
    {
        let Hands { own, others, .. } = self;
        let first = own.pop_as::<M>();
        if let Some(ticket) = first {
            return Some(ticket);
        }
        for other in others.iter_mut() {
            if let Some(ticket) = other.take::<M, R>(rt) {
                return Some(ticket);
            }
        }
        None
    }

    /// Sets the cause where none is set, with the room of these hands.
    pub(crate) fn halt(&mut self, halt: &Halt<T, N>, cause: HaltCause<T>) -> HaltNote<T, N>
        requires room { HasRoom self.old }
        requires cause { IsCause (T.has_walls N.terrain) (T.leads N.terrain) (T.is_stuck N.terrain) (T.is_stuck_at N.terrain) N.root N.limit cause }
        ensures { noted_cell result ≡ cell_of halt.now }
    {
        let Some(room) = self.room.take() else {
            unreachable!()
        };
        halt.set(room, cause)
    }
}
