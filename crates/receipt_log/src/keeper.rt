//! The keeper of a log.

ghost use Rattle.std.specs.Prelude.{◌≡◌, ℤ, List, ◌<◌, ◌^◌, ◌++◌, ◌∷◌, [], IfOk, length};
ghost use mathlib.Core.List.{IsPrefix};
ghost use Rattle.terrain.specs.Places.{IsAt};
ghost use Rattle.receipt_log.specs.Views.{keeper};

use super::rule::{Appends, Copies, Logging, Looks, Named, Notes, Picked, TakesIn};
use super::{Receipt, View};
use atomic_table::{Seat, Table};
use std::alloc::{AllocError, Global};
use std::marker::{Brand, PhantomData};
use terrain::Numbers;

/// The one that adds entries to a log.
#[derive(Drop)]
pub struct LogKeeper<E: Numbers> {
    pub(crate) table: Table<u8, View, (), Logging, Global>,
    pub(crate) seat: Seat<u8, View>,
    pub(crate) of: PhantomData<E>,
    ghost one: { table.shared.table_id.words ≡ 1 },
    ghost own: { seat.table_id ≡ table.shared.table_id },
    ghost empty: { seat.me.1 ≡ [] },
    ghost view: { seat.me.0 ≡ keeper seat.me.0.list },
}

impl<E: Numbers> LogKeeper<E> {
    ghost use Rattle.receipt_log.specs.Logs.{name_of_log, list_of, log_of, place_of, seen_by};

    /// An empty list.
    pub fn start(alloc: Global) -> Result<LogKeeper<E>, AllocError>
        ensures { IfOk result (λ k. list_of k ≡ []) }
    {
        let (table, seat) = Table::of_words(alloc, &[0], &())?;
        Ok(LogKeeper {
            table,
            seat,
            of: PhantomData,
        })
    }

    /// The list grows by the entry, whose place is answered.
    pub fn append(&mut self, entry: &E) -> u64
        requires { length (list_of self.old) < 2 ^ 32 }
        ensures name { name_of_log self.new ≡ name_of_log self.old }
        ensures list { list_of self.new ≡ list_of self.old ++ E.numbers entry.now ∷ [] }
        ensures place { result ≡ length (list_of self.old) }
    {
        self.append_named::<Brand>(entry)
    }

    fn append_named<N: Named>(&mut self, entry: &E) -> u64
        requires room { length (list_of self.old) < 2 ^ 32 }
        requires entry { E.numbers entry.now ≡ N.entry }
        ensures name { name_of_log self.new ≡ name_of_log self.old }
        ensures list { list_of self.new ≡ list_of self.old ++ E.numbers entry.now ∷ [] }
        ensures place { result ≡ length (list_of self.old) }
    {
        let LogKeeper { table, seat, .. } = self;
        table.shared.fetch_add::<Appends<N>>(seat, 0, 1)
    }

    /// A receipt of the entry at a place, which has seen the whole list.
    pub fn note(&mut self, place: u64) -> Receipt<E>
        requires { place < length (list_of self.old) }
        ensures name { (name_of_log self.new ≡ name_of_log self.old) × (log_of result ≡ name_of_log self.old) }
        ensures place { place_of result ≡ place }
        ensures seen { seen_by result ≡ list_of self.old }
        ensures same { list_of self.new ≡ list_of self.old }
    {
        self.note_named::<Brand>(place)
    }

    fn note_named<N: Picked>(&mut self, place: u64) -> Receipt<E>
        requires within { place < length (list_of self.old) }
        requires place { place ≡ N.place }
        ensures name { (name_of_log self.new ≡ name_of_log self.old) × (log_of result ≡ name_of_log self.old) }
        ensures place { place_of result ≡ place }
        ensures seen { seen_by result ≡ list_of self.old }
        ensures same { list_of self.new ≡ list_of self.old }
    {
        let LogKeeper {
            table,
            seat: own_seat,
            ..
        } = self;
        let seat = table.shared.split_seat::<Notes<N>>(own_seat);
        Receipt {
            place,
            seat,
            of: PhantomData,
        }
    }

    /// What the receipt has seen is a prefix of the list, so its entry stands there at its place. Both stay as they are.
    pub fn meet(&mut self, receipt: &mut Receipt<E>)
        requires { log_of receipt.old ≡ name_of_log self.old }
        ensures prefix { IsPrefix (seen_by receipt.old) (list_of self.old) }
        ensures entry { (e : List ℤ) × IsAt (seen_by receipt.old) (place_of receipt.old) e × IsAt (list_of self.old) (place_of receipt.old) e }
        ensures same { (name_of_log self.new ≡ name_of_log self.old) × (list_of self.new ≡ list_of self.old) }
        ensures receipt { (log_of receipt.new ≡ log_of receipt.old) × (place_of receipt.new ≡ place_of receipt.old) × (seen_by receipt.new ≡ seen_by receipt.old) }
    {
        let LogKeeper { table, seat, .. } = self;
        let copy = table.shared.split_seat::<Copies>(&mut receipt.seat);
        table.shared.join_seat::<TakesIn>(seat, copy);
        table.shared.load::<Looks>(seat, 0);
    }

    /// The length of the list.
    pub fn look(&mut self) -> u64
        ensures length { result ≡ length (list_of self.old) }
        ensures same { (name_of_log self.new ≡ name_of_log self.old) × (list_of self.new ≡ list_of self.old) }
    {
        let LogKeeper { table, seat, .. } = self;
        table.shared.load::<Looks>(seat, 0)
    }
}
