//! The events of an exploration, one by one and in a list.

ghost use Rattle.std.specs.Prelude.{◌≡◌, ◌<◌, ◌+◌, ◌^◌, ℕ, length, take, MatchResult, IfErr, OnOk, OnErr, Err};
ghost use Rattle.terrain.specs.Places.{IsAt};
ghost use Rattle.explore_core.specs.declared.event.Event.{Event};
ghost use Rattle.explore_core.specs.declared.event.StepFault.TheVariants.{NoTicket};
ghost use Rattle.explore_core.specs.Books.{IsOpen, IsSound};
ghost use Rattle.explore_core.specs.Events.{Meets, Fills, Does, Runs};
ghost use Rattle.explore_core.specs.Refusals.{Refuses, RefusesMeet, RefusesFill, HasTicket, IsUnmet, IsNotMet};

use super::book::Book;
use super::event::{Event, StepFault};
use std::alloc::Global;
use terrain::{Numbers, Terrain};

impl<T: Terrain> Book<T> {
    ghost use Rattle.explore_core.specs.Views.{rows_of, terrain_of, root_of, walls_in, leads_in, stuck_in, stuck_at_in};

    /// Meet(k, w): the key to which wall w of k leads is added where it isn't there.
    fn meet(
        &mut self,
        alloc: Global,
        terrain: &T,
        from: &T::Key,
        wall: u32,
    ) -> Result<(), StepFault<T::Fault>>
        requires terrain { T.numbers terrain.now ≡ terrain_of self.old }
        requires room { length (rows_of self.old) + 1 < 2 ^ 32 }
        ensures names { (terrain_of self.new ≡ terrain_of self.old) × (root_of self.new ≡ root_of self.old) }
        ensures done { OnOk result (Meets (walls_in self.old) (leads_in self.old) (T.Key.numbers from.now) wall (rows_of self.old) (rows_of self.new)) }
        ensures same { OnErr result (rows_of self.new ≡ rows_of self.old) }
        ensures refused { IfErr result (RefusesMeet (leads_in self.old) (stuck_at_in self.old) (stuck_in self.old) (rows_of self.old) (T.Key.numbers from.now) wall) }
        ensures no_ticket { (IsOpen (rows_of self.old) (T.Key.numbers from.now) wall → ⊥) → result ≡ Err NoTicket }
    {
        let Some(place) = self.open_at(terrain, from, wall) else {
            return Err(StepFault::NoTicket);
        };
        let (key, _link) = self.lead_of(alloc, terrain, place, wall)?;
        let spot = self.look_up(alloc, terrain, &key)?;
        let Ok(_added) = self.put(alloc, key, spot) else {
            return Err(StepFault::Memory);
        };
        Ok(())
    }

    /// Fill(k, w): slot w of k is filled with its lead.
    fn fill(
        &mut self,
        alloc: Global,
        terrain: &T,
        from: &T::Key,
        wall: u32,
    ) -> Result<(), StepFault<T::Fault>>
        requires { T.numbers terrain.now ≡ terrain_of self.old }
        ensures names { (terrain_of self.new ≡ terrain_of self.old) × (root_of self.new ≡ root_of self.old) }
        ensures done { OnOk result (Fills (leads_in self.old) (T.Key.numbers from.now) wall (rows_of self.old) (rows_of self.new)) }
        ensures same { OnErr result (rows_of self.new ≡ rows_of self.old) }
        ensures refused { IfErr result (RefusesFill (leads_in self.old) (stuck_at_in self.old) (rows_of self.old) (T.Key.numbers from.now) wall) }
        ensures no_ticket { (IsOpen (rows_of self.old) (T.Key.numbers from.now) wall → ⊥) → result ≡ Err NoTicket }
    {
        let Some(place) = self.open_at(terrain, from, wall) else {
            return Err(StepFault::NoTicket);
        };
        let (key, link) = self.lead_of(alloc, terrain, place, wall)?;
        let Ok(to) = self.place_of(terrain, &key) else {
            return Err(StepFault::NotMet);
        };
        self.write(place, wall, to, link);
        Ok(())
    }

    /// One event.
    pub fn step(
        &mut self,
        alloc: Global,
        terrain: &T,
        event: &Event<T::Key>,
    ) -> Result<(), StepFault<T::Fault>>
        requires terrain { T.numbers terrain.now ≡ terrain_of self.old }
        requires room { length (rows_of self.old) + 1 < 2 ^ 32 }
        ensures names { (terrain_of self.new ≡ terrain_of self.old) × (root_of self.new ≡ root_of self.old) }
        ensures done { OnOk result (Does T.Key.numbers (walls_in self.old) (leads_in self.old) event.now (rows_of self.old) (rows_of self.new)) }
        ensures same { OnErr result (rows_of self.new ≡ rows_of self.old) }
        ensures refused { IfErr result (Refuses T.Key.numbers (leads_in self.old) (stuck_at_in self.old) (stuck_in self.old) (rows_of self.old) event.now) }

        // An event without a ticket is always refused so, and a Fill before its target was met is, unless the terrain stops.
        ensures no_ticket { (HasTicket T.Key.numbers (rows_of self.old) event.now → ⊥) → result ≡ Err NoTicket }
        ensures not_met { IsUnmet T.Key.numbers (leads_in self.old) (rows_of self.old) event.now → MatchResult result (λ _. ⊥) IsNotMet }
    {
        match event {
            Event::Meet { from, wall } => self.meet(alloc, terrain, from, *wall),
            Event::Fill { from, wall } => self.fill(alloc, terrain, from, *wall),
        }
    }

    /// The events in order, up to the first that is refused; those before it are done.
    pub fn run_events(
        &mut self,
        alloc: Global,
        terrain: &T,
        events: &[Event<T::Key>],
    ) -> Result<(), StepFault<T::Fault>>
        requires terrain { T.numbers terrain.now ≡ terrain_of self.old }
        requires room { length (rows_of self.old) + length events.now < 2 ^ 32 }
        ensures names { (terrain_of self.new ≡ terrain_of self.old) × (root_of self.new ≡ root_of self.old) }
        ensures done { OnOk result (Runs T.Key.numbers (walls_in self.old) (leads_in self.old) events.now (rows_of self.old) (rows_of self.new)) }
        ensures refused { IfErr result (λ e. (n : ℕ) × (event : Event T.Key) × IsAt events.now n event × Runs T.Key.numbers (walls_in self.old) (leads_in self.old) (take n events.now) (rows_of self.old) (rows_of self.new) × Refuses T.Key.numbers (leads_in self.old) (stuck_at_in self.old) (stuck_in self.old) (rows_of self.new) event e) }

        // Whatever the events are, each key of the book is reached, and each filled slot holds its lead.
        ensures sound { IsSound (walls_in self.new) (leads_in self.new) (root_of self.new) (rows_of self.new) }
    {
        for event in events {
            self.step(alloc, terrain, event)?;
        }
        Ok(())
    }
}
