//! The keys of a book by their places, and the changes of which events are made.

ghost use Rattle.std.specs.Prelude.{◌≡◌, ◌<◌, ◌+◌, ◌^◌, ◌++◌, ◌∷◌, [], ℕ, ℤ, List, Some, None, length, slice_set, IfOk, IfErr, IfSome, IfNone, OnOk, OnErr};
ghost use Rattle.terrain.specs.Places.{IsAt};
ghost use Rattle.terrain.specs.Reach.{IsReached};
ghost use Rattle.terrain.specs.Stops.{IfFault};
ghost use Rattle.explore_core.specs.Books.{Row, HasKey, IsOpen, empty_row, keys_of};
ghost use Rattle.explore_core.specs.Events.{Adds, with_slot};
ghost use Rattle.explore_core.specs.Index.{IsGap};
ghost use Rattle.explore_core.specs.Places.{IsSpot, AreWallsOfAdded};

use super::book::Book;
use super::record::{Filled, Record};
use super::search::find;
use super::slots::empty_slots;
use super::spot::Spot;
use std::alloc::{AllocError, Global};
use std::snapshot::Snapshot;
use terrain::{Numbers, Stop, Terrain};

impl<T: Terrain> Book<T> {
    ghost use Rattle.explore_core.specs.Views.{rows_of, terrain_of, root_of, walls_in, leads_in, found_in, stuck_in, stuck_at_in};

    /// The place of the key, or the index at which it would stand among the places.
    pub(crate) fn place_of(&self, terrain: &T, key: &T::Key) -> Result<u32, usize>
        ensures found { IfOk result (λ p. IsAt (keys_of (rows_of self.now)) p (T.Key.numbers key.now)) }
        ensures gap { IfErr result (IsGap T.order (keys_of (rows_of self.now)) self.now.places.items (T.Key.numbers key.now)) }
        ensures fresh { OnErr result (HasKey (rows_of self.now) (T.Key.numbers key.now) → ⊥) }
    {
        find(
            terrain,
            self.records.as_slice(),
            self.places.as_slice(),
            key,
        )
    }

    /// The number of a reached key's walls, and the walls.
    pub(crate) fn walls_of(
        &self,
        alloc: Global,
        terrain: &T,
        key: &T::Key,
    ) -> Result<(u32, T::Walls), Stop<T::Fault>>
        requires terrain { T.numbers terrain.now ≡ terrain_of self.now }
        requires reached { IsReached (walls_in self.now) (leads_in self.now) (root_of self.now) (T.Key.numbers key.now) }
        ensures walls { IfOk result (λ r. walls_in self.now (T.Key.numbers key.now) r.0) }
        ensures found { IfOk result (λ r. found_in self.now (T.Key.numbers key.now) r.1) }
        ensures stuck { IfErr result (λ stop. IfFault stop (stuck_in self.now (T.Key.numbers key.now))) }
    {
        terrain.find_walls(alloc, key)
    }

    /// Where a reached key is, or where it would stand.
    pub(crate) fn look_up(
        &self,
        alloc: Global,
        terrain: &T,
        key: &T::Key,
    ) -> Result<Spot<T::Walls>, Stop<T::Fault>>
        requires terrain { T.numbers terrain.now ≡ terrain_of self.now }
        requires reached { IsReached (walls_in self.now) (leads_in self.now) (root_of self.now) (T.Key.numbers key.now) }
        ensures spot { IfOk result (IsSpot T.order (walls_in self.now) (found_in self.now) (rows_of self.now) self.now.places.items (T.Key.numbers key.now)) }
        ensures stuck { IfErr result (λ stop. IfFault stop (stuck_in self.now (T.Key.numbers key.now))) }
    {
        match self.place_of(terrain, key) {
            Ok(place) => Ok(Spot::There(place)),
            Err(index) => {
                let (count, walls) = self.walls_of(alloc, terrain, key)?;
                Ok(Spot::New {
                    index,
                    count,
                    walls,
                })
            }
        }
    }

    /// Adds a reached key that isn't there, with its empty slots.
    fn add(
        &mut self,
        alloc: Global,
        key: T::Key,
        walls: u32,
        index: usize,
    ) -> Result<(), AllocError>
        requires room { length (rows_of self.old) + 1 < 2 ^ 32 }
        requires reached { IsReached (walls_in self.old) (leads_in self.old) (root_of self.old) (T.Key.numbers key) }
        requires walls { walls_in self.old (T.Key.numbers key) walls }
        requires gap { IsGap T.order (keys_of (rows_of self.old)) self.old.places.items (T.Key.numbers key) index }
        ensures names { (terrain_of self.new ≡ terrain_of self.old) × (root_of self.new ≡ root_of self.old) }
        ensures added { OnOk result (rows_of self.new ≡ rows_of self.old ++ empty_row (T.Key.numbers key) walls ∷ []) }
        ensures same { OnErr result (rows_of self.new ≡ rows_of self.old) }
    {
        let slots = empty_slots(alloc, walls)?;
        let place = self.records.len() as u32;
        self.places.reserve(1)?;
        self.records.push(Record { key, slots })?;
        self.places.insert(index, place)?;
        self.left += u64::from(walls);
        Ok(())
    }

    /// The place of a reached key, which is added where it isn't there; its walls where it was added.
    pub(crate) fn put(
        &mut self,
        alloc: Global,
        key: T::Key,
        spot: Spot<T::Walls>,
    ) -> Result<(u32, Option<T::Walls>), AllocError>
        requires room { length (rows_of self.old) + 1 < 2 ^ 32 }
        requires reached { IsReached (walls_in self.old) (leads_in self.old) (root_of self.old) (T.Key.numbers key) }
        requires spot { IsSpot T.order (walls_in self.old) (found_in self.old) (rows_of self.old) self.old.places.items (T.Key.numbers key) spot }
        ensures names { (terrain_of self.new ≡ terrain_of self.old) × (root_of self.new ≡ root_of self.old) }
        ensures added { OnOk result (Adds (walls_in self.old) (T.Key.numbers key) (rows_of self.old) (rows_of self.new)) }
        ensures place { IfOk result (λ r. IsAt (keys_of (rows_of self.new)) r.0 (T.Key.numbers key)) }
        ensures walls { IfOk result (λ r. AreWallsOfAdded (found_in self.old) (keys_of (rows_of self.old)) (keys_of (rows_of self.new)) r.1) }
        ensures same { OnErr result (rows_of self.new ≡ rows_of self.old) }
    {
        match spot {
            Spot::There(place) => Ok((place, None)),
            Spot::New {
                index,
                count,
                walls,
            } => {
                let place = self.records.len() as u32;
                self.add(alloc, key, count, index)?;
                Ok((place, Some(walls)))
            }
        }
    }

    /// Fills an empty slot with its lead.
    pub(crate) fn write(&mut self, place: u32, wall: u32, to: u32, link: T::Link)
        requires { (r : Row T.Link) × (d : List ℤ) × IsAt (rows_of self.old) place r × IsAt r.slots wall None × IsAt (keys_of (rows_of self.old)) to d × leads_in self.old r.key wall d link }
        ensures names { (terrain_of self.new ≡ terrain_of self.old) × (root_of self.new ≡ root_of self.old) }
        ensures filled { (r : Row T.Link) × (d : List ℤ) × IsAt (rows_of self.old) place r × IsAt (keys_of (rows_of self.old)) to d × (rows_of self.new ≡ slice_set (rows_of self.old) place (with_slot r wall (record { target = d; link = link }))) }
    {
        let target = Snapshot::of(&self.records[to as usize].key);
        let record = &mut self.records[place as usize];
        record.slots[wall as usize] = Some(Filled {
            target,
            place: to,
            link,
        });
        self.left -= 1;
    }

    /// The place of the key, where it is in the book and its slot is there and empty.
    pub(crate) fn open_at(&self, terrain: &T, from: &T::Key, wall: u32) -> Option<u32>
        ensures open { IfSome result (λ place. (r : Row T.Link) × IsAt (rows_of self.now) place r × (r.key ≡ T.Key.numbers from.now) × IsAt r.slots wall None) }
        ensures none { IfNone result (IsOpen (rows_of self.now) (T.Key.numbers from.now) wall → ⊥) }
    {
        let Ok(place) = self.place_of(terrain, from) else {
            return None;
        };
        let record = &self.records[place as usize];
        let wall = wall as usize;
        if wall < record.slots.len() && record.slots[wall].is_none() {
            Some(place)
        } else {
            None
        }
    }

    /// The key to which a slot's wall leads, and the link.
    pub(crate) fn lead_of(
        &self,
        alloc: Global,
        terrain: &T,
        place: u32,
        wall: u32,
    ) -> Result<(T::Key, T::Link), Stop<T::Fault>>
        requires terrain { T.numbers terrain.now ≡ terrain_of self.now }
        requires slot { (r : Row T.Link) × IsAt (rows_of self.now) place r × (wall < length r.slots) }
        ensures lead { IfOk result (λ l. (r : Row T.Link) × IsAt (rows_of self.now) place r × leads_in self.now r.key wall (T.Key.numbers l.0) l.1) }
        ensures reached { IfOk result (λ l. IsReached (walls_in self.now) (leads_in self.now) (root_of self.now) (T.Key.numbers l.0)) }
        ensures stuck { IfErr result (λ stop. (r : Row T.Link) × IsAt (rows_of self.now) place r × IfFault stop (stuck_at_in self.now r.key wall)) }
    {
        let record = &self.records[place as usize];
        terrain.cross(alloc, &record.key, wall)
    }
}
