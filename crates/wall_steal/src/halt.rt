//! The cell of the one cause that stops all workers.

ghost use Rattle.std.specs.Prelude.{◌≡◌, Some, IfSome, is_some, true};

use super::cause::{HaltCause, Known};
use class_shards::Naming;
use once_cell::race::{Note, OnceBox};
use std::alloc::Global;
use std::marker::PhantomData;
use terrain::{Numbers, Terrain};

/// A cell that is set once, to a cause that is true of the run.
#[derive(Drop)]
pub struct Halt<T: Terrain, N: Naming> {
    cell: OnceBox<Known<T, N>>,
    limit: u32,
    ghost limited: { limit ≡ N.limit },
}

/// Knows the cause that its cell holds.
#[derive(Drop)]
pub struct HaltNote<T: Terrain, N: Naming> {
    note: Note<Known<T, N>>,
    ghost known: { is_some note.known ≡ true },
}

impl<T: Terrain, N: Naming> Halt<T, N> {
    ghost use Rattle.wall_steal.specs.Causes.{IsCause};
    ghost use Rattle.wall_steal.specs.Cells.{cell_of, noted_cell, noted_cause};

    /// An empty cell for the causes of a run with this limit. It takes no memory.
    pub fn make(alloc: Global, limit: u32) -> Halt<T, N>
        requires { limit ≡ N.limit }
    {
        Halt {
            cell: OnceBox::new(alloc),
            limit,
        }
    }

    /// The limit of the run.
    pub fn limit(&self) -> u32
        ensures { result ≡ N.limit }
    {
        self.limit
    }

    /// Sets the cause where none is set. It takes no memory: the room was had before.
    pub(crate) fn set(&self, mut room: Box<Known<T, N>>, cause: HaltCause<T>) -> HaltNote<T, N>
        requires { IsCause (T.has_walls N.terrain) (T.leads N.terrain) (T.is_stuck N.terrain) (T.is_stuck_at N.terrain) N.root N.limit cause }
        ensures { noted_cell result ≡ cell_of self.now }
    {
        *room = Known {
            cause,
            of: PhantomData,
        };
        let mut note = self.cell.note();
        let _ = self.cell.get_or_init_as(move || room, &mut note);
        HaltNote { note }
    }

    /// A note of the cause, where there is one.
    pub(crate) fn seen(&self) -> Option<HaltNote<T, N>>
        ensures { IfSome result (λ n. noted_cell n ≡ cell_of self.now) }
    {
        let mut note = self.cell.note();
        match self.cell.get_as(&mut note) {
            Some(_) => Some(HaltNote { note }),
            None => None,
        }
    }

    /// The cell's one cause, which the note knows.
    pub fn read(&self, note: &mut HaltNote<T, N>) -> &HaltCause<T>
        requires { noted_cell note.old ≡ cell_of self.now }
        ensures cause { noted_cause note.old ≡ Some result.now }
        ensures holds { IsCause (T.has_walls N.terrain) (T.leads N.terrain) (T.is_stuck N.terrain) (T.is_stuck_at N.terrain) N.root N.limit result.now }
        ensures same { (noted_cell note.new ≡ noted_cell note.old) × (noted_cause note.new ≡ noted_cause note.old) }
    {
        match self.cell.get_as(&mut note.note) {
            Some(known) => &known.cause,
            None => unreachable!(),
        }
    }
}
