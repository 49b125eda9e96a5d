//! The word, and the seats that change it.

ghost use Rattle.std.specs.Prelude.{◌≡◌, ◌≢◌, ℕ, ◌+◌, ◌≤◌, ◌<◌, ◌^◌, ◌∷◌, [], Some, None, true, length, IfOk, OnOk, vec_len};
ghost use Rattle.walls_out.specs.declared.entry.Entry.TheVariants.{Root, Wall};
ghost use Rattle.walls_out.specs.Views.{first_seat, last_of, raised, keeps_front, holds_last, named, new_keeper, joined, lowered, saw};
ghost use Rattle.walls_out.specs.Told.{HasDoneAll, WasOpen};

use super::View;
use super::rule::{Copies, Counting, Joins, Looks, Lowers, LowersRoot, Moves, Names, Raises};
use atomic_table::{Seat, Table};
use std::alloc::{AllocError, Global};

/// A word that counts the entries that seats owe.
#[derive(Drop)]
pub struct Count {
    pub(crate) table: Table<u8, View, (), Counting, Global>,
    ghost one: { table.shared.table_id.words ≡ 1 },
}

/// A right to change the word, with what its owner knows.
#[derive(Drop)]
pub struct CountSeat {
    pub(crate) seat: Seat<u8, View>,
    ghost empty: { seat.me.1 ≡ [] },
}

impl Count {
    ghost use Rattle.walls_out.specs.Seats.{name_of, count_of, view_of, AreKeepers};

    /// A word of 1, the first seat, which owes the root's entry, and the keepers in the order of their numbers, which owe nothing.
    pub fn start(
        alloc: Global,
        keepers: u32,
    ) -> Result<(Count, CountSeat, Vec<CountSeat>), AllocError>
        requires { keepers ≤ 64 }
        ensures first { IfOk result (λ r. (count_of r.1 ≡ name_of r.0) × (view_of r.1 ≡ first_seat keepers)) }
        ensures len { IfOk result (λ r. vec_len r.2 ≡ keepers) }
        ensures keepers { IfOk result (λ r. AreKeepers (name_of r.0) r.2.items) }
    {
        let (table, seat) = Table::of_words(alloc, &[1], &())?;
        let count = Count { table };
        let mut first = CountSeat { seat };
        let all = first.name_all(alloc, &count, keepers)?;
        Ok((count, first, all))
    }
}

impl CountSeat {
    ghost use Rattle.walls_out.specs.Seats.{name_of, count_of, view_of, AreKeepers};

    /// So many keepers, by the first seat, which has named none.
    fn name_all(
        &mut self,
        alloc: Global,
        count: &Count,
        keepers: u32,
    ) -> Result<Vec<CountSeat>, AllocError>
        requires name { count_of self.old ≡ name_of count.now }
        requires few { keepers ≤ 64 }
        requires first { view_of self.old ≡ first_seat 0 }
        ensures name { count_of self.new ≡ count_of self.old }
        ensures len { IfOk result (λ v. vec_len v ≡ keepers) }
        ensures first { OnOk result (view_of self.new ≡ first_seat keepers) }
        ensures keepers { IfOk result (λ v. AreKeepers (count_of self.old) v.items) }
    {
        let mut all = Vec::new(alloc);
        for b in 0..keepers {
            all.push(self.name(count))?;
        }
        Ok(all)
    }

    /// The next keeper.
    fn name(&mut self, count: &Count) -> CountSeat
        requires name { count_of self.old ≡ name_of count.now }
        requires few { (n : ℕ) × (n < 64) × ((view_of self.old).naming ≡ Some n) }
        ensures name { (count_of self.new ≡ count_of self.old) × (count_of result ≡ count_of self.old) }
        ensures left { view_of self.new ≡ named (view_of self.old) }
        ensures right { view_of result ≡ new_keeper (view_of self.old) }
    {
        CountSeat {
            seat: count.table.shared.split_seat::<Names>(&mut self.seat),
        }
    }

    /// Makes and owes `k` new entries, by a keeper that owes an entry.
    pub fn raise(&mut self, count: &Count, k: u64)
        requires name { count_of self.old ≡ name_of count.now }
        requires keeper { (b : ℕ) × ((view_of self.old).keeper ≡ Some b) }
        requires owes { 0 < length (view_of self.old).owed }
        requires few { (view_of self.old).made + k ≤ 2 ^ 55 }
        ensures name { count_of self.new ≡ count_of self.old }
        ensures view { view_of self.new ≡ raised k (view_of self.old) }
    {
        count.table.shared.fetch_add::<Raises>(&mut self.seat, 0, k);
    }

    /// A new seat, no keeper, that owes the last entry that this one owed.
    pub fn split(&mut self, count: &Count) -> CountSeat
        requires name { count_of self.old ≡ name_of count.now }
        requires owes { 0 < length (view_of self.old).owed }
        ensures name { (count_of self.new ≡ count_of self.old) × (count_of result ≡ count_of self.old) }
        ensures left { view_of self.new ≡ keeps_front (view_of self.old) }
        ensures right { view_of result ≡ holds_last (view_of self.old) }
    {
        CountSeat {
            seat: count.table.shared.split_seat::<Moves>(&mut self.seat),
        }
    }

    /// Owes what both owed, and has seen 0 where either had. The other is no keeper.
    pub fn join(&mut self, count: &Count, other: CountSeat)
        requires name { (count_of self.old ≡ name_of count.now) × (count_of other ≡ name_of count.now) }
        requires plain { (view_of other).keeper ≡ None }
        ensures name { count_of self.new ≡ count_of self.old }
        ensures view { view_of self.new ≡ joined (view_of self.old) (view_of other) }
    {
        let CountSeat { seat } = other;
        count.table.shared.join_seat::<Joins>(&mut self.seat, seat);
    }

    /// Does the last entry that the keeper owes, which is of its own making.
    pub fn lower(&mut self, count: &Count)
        requires name { count_of self.old ≡ name_of count.now }
        requires own { (b : ℕ) × (i : ℕ) × ((view_of self.old).keeper ≡ Some b) × (last_of (view_of self.old).owed ≡ Wall b i ∷ []) }
        ensures name { count_of self.new ≡ count_of self.old }
        ensures view { view_of self.new ≡ lowered (view_of self.old) }
        ensures was_open { WasOpen (view_of self.old) }
    {
        count.table.shared.fetch_sub::<Lowers>(&mut self.seat, 0, 1);
    }

    /// Is rid of the root's entry, which is the last that the seat owes.
    pub fn lower_root(&mut self, count: &Count)
        requires name { count_of self.old ≡ name_of count.now }
        requires own { last_of (view_of self.old).owed ≡ Root ∷ [] }
        ensures name { count_of self.new ≡ count_of self.old }
        ensures view { view_of self.new ≡ keeps_front (view_of self.old) }
    {
        count
            .table
            .shared
            .fetch_sub::<LowersRoot>(&mut self.seat, 0, 1);
    }

    /// The word. Where it is 0 the seat has seen 0, owes nothing, and, if it is a keeper, has done all that it made.
    pub fn look(&mut self, count: &Count) -> u64
        requires { count_of self.old ≡ name_of count.now }
        ensures name { count_of self.new ≡ count_of self.old }
        ensures zero { result ≡ 0 → (view_of self.new ≡ saw (view_of self.old)) × ((view_of self.old).owed ≡ []) × HasDoneAll (view_of self.old) }
        ensures other { result ≢ 0 → view_of self.new ≡ view_of self.old }
        // Once 0 was seen it is read again.
        ensures stays { (view_of self.old).seen ≡ true → result ≡ 0 }
    {
        count.table.shared.load::<Looks>(&mut self.seat, 0)
    }

    /// The keeper has done all that it made, by a seat that has seen 0.
    pub fn certify(&mut self, count: &Count, seen: &mut CountSeat)
        requires name { (count_of self.old ≡ name_of count.now) × (count_of seen.old ≡ name_of count.now) }
        requires seen { (view_of seen.old).seen ≡ true }
        ensures name { (count_of self.new ≡ count_of self.old) × (count_of seen.new ≡ count_of seen.old) }
        ensures view { view_of self.new ≡ saw (view_of self.old) }
        ensures done { ((view_of self.old).owed ≡ []) × HasDoneAll (view_of self.old) }
        ensures other { view_of seen.new ≡ view_of seen.old }
    {
        let copy = CountSeat {
            seat: count.table.shared.split_seat::<Copies>(&mut seen.seat),
        };
        self.join(count, copy);
        self.look(count);
    }
}
