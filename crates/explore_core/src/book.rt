//! The book of an exploration.

ghost use Rattle.std.specs.Prelude.{◌≡◌, ◌<◌, ◌+◌, ◌^◌, ◌∷◌, [], ℕ, vec_len, length, map, IfOk, IfErr};
ghost use Rattle.terrain.specs.Places.{IsAt};
ghost use Rattle.terrain.specs.Reach.{AreReached, AreReachedOnce};
ghost use Rattle.terrain.specs.Stops.{IfFault};
ghost use Rattle.terrain.specs.Graphs.{IsGraph};
ghost use Rattle.explore_core.specs.Books.{Row, IsSound, empty_row, keys_of, out};
ghost use Rattle.explore_core.specs.Graphs.{IsGraphOf};
ghost use Rattle.explore_core.specs.Index.{IsIndex};
ghost use Rattle.explore_core.specs.Records.{rows_from, ArePlaced};

use super::ranks::{all_leads, in_order, keys_out, ranks_of};
use super::record::Record;
use super::slots::empty_slots;
use std::alloc::{AllocError, Global};
use std::snapshot::Snapshot;
use terrain::{Graph, Numbers, Stop, Terrain};

/// The keys that were met from a root, numbered in the order in which they were added, each with a slot for each of its walls.
#[derive(Drop)]
pub struct Book<T: Terrain> {
    // What is explored and from where, which contracts alone see.
    pub(crate) terrain: Snapshot<T>,
    pub(crate) root: Snapshot<T::Key>,
    pub(crate) records: Vec<Record<T::Key, T::Link>>,
    // The places of the keys, by ascending keys.
    pub(crate) places: Vec<u32>,
    // The number of empty slots.
    pub(crate) left: u64,
    ghost own: { ∥ T.is_own (T.numbers terrain.value) (T.Key.numbers root.value) ∥₁ },
    ghost sound: { ∥ IsSound (T.has_walls (T.numbers terrain.value)) (T.leads (T.numbers terrain.value)) (T.Key.numbers root.value) (rows_from T.Key.numbers records.items) ∥₁ },
    ghost placed: { ArePlaced T.Key.numbers records.items },
    ghost index: { IsIndex T.order (keys_of (rows_from T.Key.numbers records.items)) places.items },
    ghost counted: { left ≡ out (rows_from T.Key.numbers records.items) },
    ghost few: { vec_len records < 2 ^ 32 },
}

impl<T: Terrain> Book<T> {
    ghost use Rattle.explore_core.specs.Views.{rows_of, terrain_of, root_of, walls_in, leads_in};

    /// A book with the root alone, its slots empty. Fault: the root is stuck.
    pub fn start(alloc: Global, terrain: &T, root: &T::Key) -> Result<Book<T>, Stop<T::Fault>>
        requires { T.is_own (T.numbers terrain.now) (T.Key.numbers root.now) }
        ensures names { IfOk result (λ b. (terrain_of b ≡ T.numbers terrain.now) × (root_of b ≡ T.Key.numbers root.now)) }
        ensures rows { IfOk result (λ b. (n : ℕ) × T.has_walls (T.numbers terrain.now) (T.Key.numbers root.now) n × (rows_of b ≡ empty_row (T.Key.numbers root.now) n ∷ [])) }
        ensures stuck { IfErr result (λ stop. IfFault stop (T.is_stuck (T.numbers terrain.now) (T.Key.numbers root.now))) }
    {
        let walls = terrain.walls(alloc, root)?;
        Ok(Book::of_root(alloc, terrain, root, walls)?)
    }

    /// A book with the root alone, which has so many walls, its slots empty.
    pub fn of_root(
        alloc: Global,
        terrain: &T,
        root: &T::Key,
        walls: u32,
    ) -> Result<Book<T>, AllocError>
        requires own { T.is_own (T.numbers terrain.now) (T.Key.numbers root.now) }
        requires walls { T.has_walls (T.numbers terrain.now) (T.Key.numbers root.now) walls }
        ensures names { IfOk result (λ b. (terrain_of b ≡ T.numbers terrain.now) × (root_of b ≡ T.Key.numbers root.now)) }
        ensures rows { IfOk result (λ b. rows_of b ≡ empty_row (T.Key.numbers root.now) walls ∷ []) }
    {
        let slots = empty_slots(alloc, walls)?;
        let key = terrain.copy_key(alloc, root)?;
        let mut records = Vec::new(alloc);
        records.push(Record { key, slots })?;
        let mut places = Vec::new(alloc);
        places.push(0)?;
        Ok(Book {
            terrain: Snapshot::of(terrain),
            root: Snapshot::of(root),
            records,
            places,
            left: u64::from(walls),
        })
    }

    /// The number of slots that aren't filled.
    pub fn left(&self) -> u64
        ensures left { result ≡ out (rows_of self.now) }
        // Where none is left the keys are exactly the reached ones.
        ensures closed { result ≡ 0 → AreReached (walls_in self.now) (leads_in self.now) (root_of self.now) (keys_of (rows_of self.now)) }
    {
        self.left
    }

    /// The number of keys.
    pub fn size(&self) -> u32
        ensures size { result ≡ length (rows_of self.now) }
        // All of them are reached, and each is there once.
        ensures keys { AreReachedOnce (walls_in self.now) (leads_in self.now) (root_of self.now) (keys_of (rows_of self.now)) }
    {
        self.records.len() as u32
    }

    /// The key with that number; the root has number 0.
    pub fn key(&self, place: u32) -> &T::Key
        requires { place < length (rows_of self.now) }
        ensures { IsAt (keys_of (rows_of self.now)) place (T.Key.numbers result.now) }
    {
        &self.records[place as usize].key
    }

    /// The number of slots of the key with that number.
    pub fn slots(&self, place: u32) -> u32
        requires { place < length (rows_of self.now) }
        ensures { (r : Row T.Link) × IsAt (rows_of self.now) place r × (result ≡ length r.slots) }
    {
        self.records[place as usize].slots.len() as u32
    }

    /// All keys, ascending, with their slots as leads, and the place of the root.
    pub fn graph(self, alloc: Global) -> Result<Graph<T>, AllocError>
        requires { out (rows_of self) ≡ 0 }
        ensures book { IfOk result (λ g. IsGraphOf T.order (rows_of self) (map T.Key.numbers g.keys.items) (map (λ v. v.items) g.leads.items) g.root) }
        ensures size { IfOk result (λ g. vec_len g.keys ≡ length (rows_of self)) }
        ensures reached { IfOk result (λ g. IsGraph T.order (walls_in self) (leads_in self) (root_of self) (map T.Key.numbers g.keys.items) (map (λ v. v.items) g.leads.items) g.root) }
    {
        let Book {
            terrain: _,
            root: _,
            records,
            places,
            left: _,
        } = self;
        let ranks = ranks_of(alloc, places.as_slice())?;
        let mut records = in_order(alloc, records, places.as_slice())?;
        let leads = all_leads(alloc, &mut records, ranks.as_slice())?;
        let keys = keys_out(alloc, records)?;
        Ok(Graph {
            keys,
            leads,
            root: ranks[0],
        })
    }
}
