//! Both events of a slot, with its wall crossed once.

ghost use Rattle.std.specs.Prelude.{◌≡◌, ◌<◌, ◌+◌, ◌^◌, ℤ, List, None, Err, true, false, length, IfOk, IfErr, OnOk, OnErr};
ghost use Rattle.terrain.specs.Places.{IsAt};
ghost use Rattle.terrain.specs.Reach.{IsReached};
ghost use Rattle.terrain.specs.Causes.{IsStuckWithin};
ghost use Rattle.terrain.specs.Stops.{IfFault};
ghost use Rattle.explore_core.specs.Books.{Row, IsFilled, keys_of};
ghost use Rattle.explore_core.specs.Events.{Adds, FillsSlot};
ghost use Rattle.explore_core.specs.Places.{AreWallsOfAdded};

use super::book::Book;
use std::alloc::Global;
use terrain::{ExploreFault, Numbers, Stop, Terrain};

impl<T: Terrain> Book<T> {
    ghost use Rattle.explore_core.specs.Views.{rows_of, terrain_of, root_of, walls_in, leads_in, found_in, stuck_in, stuck_at_in};

    /// Whether a slot is filled.
    fn is_filled(&self, place: u32, wall: u32) -> bool
        requires { (r : Row T.Link) × IsAt (rows_of self.now) place r × (wall < length r.slots) }
        ensures filled { result ≡ true → IsFilled (rows_of self.now) place wall }
        ensures empty { result ≡ false → (r : Row T.Link) × IsAt (rows_of self.now) place r × IsAt r.slots wall None }
    {
        let record = &self.records[place as usize];
        record.slots[wall as usize].is_some()
    }

    /// The key to which a slot's wall leads, which is one of the walls that were found, and the link.
    fn lead_among(
        &self,
        alloc: Global,
        terrain: &T,
        place: u32,
        walls: &T::Walls,
        wall: u32,
    ) -> Result<(T::Key, T::Link), Stop<T::Fault>>
        requires terrain { T.numbers terrain.now ≡ terrain_of self.now }
        requires slot { (r : Row T.Link) × IsAt (rows_of self.now) place r × (wall < length r.slots) × found_in self.now r.key walls.now }
        ensures lead { IfOk result (λ l. (r : Row T.Link) × IsAt (rows_of self.now) place r × leads_in self.now r.key wall (T.Key.numbers l.0) l.1) }
        ensures reached { IfOk result (λ l. IsReached (walls_in self.now) (leads_in self.now) (root_of self.now) (T.Key.numbers l.0)) }
        ensures stuck { IfErr result (λ stop. (r : Row T.Link) × IsAt (rows_of self.now) place r × IfFault stop (stuck_at_in self.now r.key wall)) }
    {
        let record = &self.records[place as usize];
        terrain.cross_found(alloc, &record.key, walls, wall)
    }

    /// The same, where a fault names the slot's key; Limit never comes.
    fn lead_or_fault(
        &self,
        alloc: Global,
        terrain: &T,
        place: u32,
        walls: &T::Walls,
        wall: u32,
    ) -> Result<(T::Key, T::Link), ExploreFault<T>>
        requires terrain { T.numbers terrain.now ≡ terrain_of self.now }
        requires slot { (r : Row T.Link) × IsAt (rows_of self.now) place r × (wall < length r.slots) × found_in self.now r.key walls.now }
        ensures lead { IfOk result (λ l. (r : Row T.Link) × IsAt (rows_of self.now) place r × leads_in self.now r.key wall (T.Key.numbers l.0) l.1) }
        ensures reached { IfOk result (λ l. IsReached (walls_in self.now) (leads_in self.now) (root_of self.now) (T.Key.numbers l.0)) }
        ensures fault { (key : T.Key) (fault : T.Fault) → result ≡ Err (ExploreFault.Fault key fault) → IsStuckWithin (walls_in self.now) (leads_in self.now) (stuck_in self.now) (stuck_at_in self.now) (root_of self.now) (T.Key.numbers key) fault }
        ensures limit { result ≡ Err ExploreFault.Limit → ⊥ }
    {
        match self.lead_among(alloc, terrain, place, walls, wall) {
            Ok(lead) => Ok(lead),
            Err(Stop::Memory) => Err(ExploreFault::Memory),
            Err(Stop::Fault(fault)) => {
                let record = &self.records[place as usize];
                let key = terrain.copy_key(alloc, &record.key)?;
                Err(ExploreFault::Fault { key, fault })
            }
        }
    }

    /// The place of a reached key, which is added where it isn't there; its walls where it was added. A fault names the key; Limit never comes.
    fn put_or_fault(
        &mut self,
        alloc: Global,
        terrain: &T,
        key: T::Key,
    ) -> Result<(u32, Option<T::Walls>), ExploreFault<T>>
        requires terrain { T.numbers terrain.now ≡ terrain_of self.old }
        requires room { length (rows_of self.old) + 1 < 2 ^ 32 }
        requires reached { IsReached (walls_in self.old) (leads_in self.old) (root_of self.old) (T.Key.numbers key) }
        ensures names { (terrain_of self.new ≡ terrain_of self.old) × (root_of self.new ≡ root_of self.old) }
        ensures added { OnOk result (Adds (walls_in self.old) (T.Key.numbers key) (rows_of self.old) (rows_of self.new)) }
        ensures place { IfOk result (λ r. IsAt (keys_of (rows_of self.new)) r.0 (T.Key.numbers key)) }
        ensures walls { IfOk result (λ r. AreWallsOfAdded (found_in self.old) (keys_of (rows_of self.old)) (keys_of (rows_of self.new)) r.1) }
        ensures same { OnErr result (rows_of self.new ≡ rows_of self.old) }
        ensures fault { (at : T.Key) (fault : T.Fault) → result ≡ Err (ExploreFault.Fault at fault) → (at ≡ key) × stuck_in self.old (T.Key.numbers key) fault }
        ensures limit { result ≡ Err ExploreFault.Limit → ⊥ }
    {
        match self.look_up(alloc, terrain, &key) {
            Ok(spot) => Ok(self.put(alloc, key, spot)?),
            Err(Stop::Memory) => Err(ExploreFault::Memory),
            Err(Stop::Fault(fault)) => Err(ExploreFault::Fault { key, fault }),
        }
    }

    /// Meets and fills a slot that isn't filled, of a key whose walls were found. Where a key was added, its walls.
    /// A fault names the key that is stuck; Limit never comes.
    pub fn fill_slot(
        &mut self,
        alloc: Global,
        terrain: &T,
        place: u32,
        walls: &T::Walls,
        wall: u32,
    ) -> Result<Option<T::Walls>, ExploreFault<T>>
        requires terrain { T.numbers terrain.now ≡ terrain_of self.old }
        requires room { length (rows_of self.old) + 1 < 2 ^ 32 }
        requires slot { (r : Row T.Link) × IsAt (rows_of self.old) place r × (wall < length r.slots) × found_in self.old r.key walls.now }
        ensures names { (terrain_of self.new ≡ terrain_of self.old) × (root_of self.new ≡ root_of self.old) }
        ensures done { OnOk result ((k : List ℤ) × IsAt (keys_of (rows_of self.old)) place k × FillsSlot (walls_in self.old) (leads_in self.old) k wall (rows_of self.old) (rows_of self.new)) }
        ensures filled { OnOk result (IsFilled (rows_of self.new) place wall) }
        ensures walls { IfOk result (AreWallsOfAdded (found_in self.old) (keys_of (rows_of self.old)) (keys_of (rows_of self.new))) }
        ensures same { OnErr result (rows_of self.new ≡ rows_of self.old) }
        ensures fault { (key : T.Key) (fault : T.Fault) → result ≡ Err (ExploreFault.Fault key fault) → IsStuckWithin (walls_in self.old) (leads_in self.old) (stuck_in self.old) (stuck_at_in self.old) (root_of self.old) (T.Key.numbers key) fault }
        ensures limit { result ≡ Err ExploreFault.Limit → ⊥ }
    {
        if self.is_filled(place, wall) {
            return Ok(None);
        }
        let (key, link) = self.lead_or_fault(alloc, terrain, place, walls, wall)?;
        let (to, added) = self.put_or_fault(alloc, terrain, key)?;
        self.write(place, wall, to, link);
        Ok(added)
    }
}
