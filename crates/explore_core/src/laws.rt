//! A law over all lists of events.

ghost use Rattle.std.specs.Prelude.{◌≡◌, ◌↔◌, ℕ, ℤ, List, Contains};
ghost use Rattle.explore_core.specs.declared.event.Event.{Event};
ghost use Rattle.explore_core.specs.Books.{Row, IsSound, keys_of, out};
ghost use Rattle.explore_core.specs.Events.{IsSchedule};
ghost use Rattle.terrain.specs.Reach.{AreReached};

use terrain::{Numbers, Terrain};

/// All complete schedules end in one book: whatever the order of their events, their rows are the same.
pub fn complete_schedules_agree<T: Terrain>()
    // After every schedule each key is reached, and each filled slot holds its lead.
    ensures sound { (t root : List ℤ) (events : List (Event T.Key)) (rows : List (Row T.Link)) → IsSchedule T.Key.numbers (T.has_walls t) (T.leads t) root events rows → IsSound (T.has_walls t) (T.leads t) root rows }
    // After a complete one the keys are exactly the reached ones.
    ensures closed { (t root : List ℤ) (events : List (Event T.Key)) (rows : List (Row T.Link)) → IsSchedule T.Key.numbers (T.has_walls t) (T.leads t) root events rows → out rows ≡ 0 → AreReached (T.has_walls t) (T.leads t) root (keys_of rows) }
    ensures agree { (t root : List ℤ) (events others : List (Event T.Key)) (rows ends : List (Row T.Link)) → IsSchedule T.Key.numbers (T.has_walls t) (T.leads t) root events rows → IsSchedule T.Key.numbers (T.has_walls t) (T.leads t) root others ends → out rows ≡ 0 → out ends ≡ 0 → (row : Row T.Link) → (Contains rows row) ↔ (Contains ends row) }
{}
