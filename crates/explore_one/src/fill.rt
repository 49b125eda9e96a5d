//! A book whose slots are filled one after the other.

ghost use Rattle.std.specs.Prelude.{◌≡◌, ◌<◌, ◌≤◌, ◌+◌, ◌^◌, ◌∷◌, ◌++◌, [], ℤ, List, Err, IfOk, OnOk, length};
ghost use Rattle.std.specs.Option.{option_to_list};
ghost use Rattle.terrain.specs.Places.{IsAt};
ghost use Rattle.terrain.specs.Causes.{MoreAreReached, IsStuckWithin};
ghost use Rattle.explore_core.specs.Books.{keys_of, out};
ghost use Rattle.explore_core.specs.Views.{rows_of, terrain_of, root_of, walls_in, leads_in, found_in, stuck_in, stuck_at_in};
ghost use Rattle.explore_one.specs.Filled.{Keeps, IsFullAt};
ghost use Rattle.explore_one.specs.Frontiers.{AreWallsFrom};

use explore_core::Book;
use std::alloc::{AllocError, Global};
use std::collections::VecDeque;
use terrain::{ExploreFault, Numbers, Stop, Terrain};

/// The book of the root with the walls of the root, or a fault that names it.
fn root_book<T: Terrain>(
    alloc: Global,
    terrain: &T,
    root: &T::Key,
) -> Result<(Book<T>, T::Walls), ExploreFault<T>>
    requires { T.is_own (T.numbers terrain.now) (T.Key.numbers root.now) }
    ensures names { IfOk result (λ r. (terrain_of r.0 ≡ T.numbers terrain.now) × (root_of r.0 ≡ T.Key.numbers root.now)) }
    ensures keys { IfOk result (λ r. keys_of (rows_of r.0) ≡ T.Key.numbers root.now ∷ []) }
    ensures walls { IfOk result (λ r. T.are_walls (T.numbers terrain.now) (T.Key.numbers root.now) r.1) }
    ensures limit { result ≡ Err ExploreFault.Limit → ⊥ }
    ensures fault { (key : T.Key) (fault : T.Fault) → result ≡ Err (ExploreFault.Fault key fault) → (key ≡ root.now) × T.is_stuck (T.numbers terrain.now) (T.Key.numbers root.now) fault }
{
    match terrain.find_walls(alloc, root) {
        Ok((count, walls)) => {
            let book = Book::of_root(alloc, terrain, root, count)?;
            Ok((book, walls))
        }
        Err(Stop::Memory) => Err(ExploreFault::Memory),
        Err(Stop::Fault(fault)) => {
            let key = terrain.copy_key(alloc, root)?;
            Err(ExploreFault::Fault { key, fault })
        }
    }
}

/// Puts the walls of an added key at the end of the frontier.
fn keep_walls<W: Drop>(frontier: &mut VecDeque<W>, added: Option<W>) -> Result<(), AllocError>
    ensures { OnOk result (frontier.new.items ≡ frontier.old.items ++ option_to_list added) }
{
    if let Some(walls) = added {
        frontier.push_back(walls)?;
    }
    Ok(())
}

/// Fills the slots of the key with that number and these walls, until the book has more than `limit` keys. The frontier holds the walls of all later keys.
fn fill_slots<T: Terrain>(
    alloc: Global,
    terrain: &T,
    book: &mut Book<T>,
    place: u32,
    walls: &T::Walls,
    frontier: &mut VecDeque<T::Walls>,
    limit: u32,
) -> Result<(), ExploreFault<T>>
    requires terrain { T.numbers terrain.now ≡ terrain_of book.old }
    requires walls { (k : List ℤ) × IsAt (keys_of (rows_of book.old)) place k × found_in book.old k walls.now }
    requires frontier { AreWallsFrom (found_in book.old) (keys_of (rows_of book.old)) (place + 1) frontier.old.items }
    requires few { length (rows_of book.old) ≤ limit }
    requires limit { limit ≤ 2 ^ 31 }
    ensures names { (terrain_of book.new ≡ terrain_of book.old) × (root_of book.new ≡ root_of book.old) }
    ensures keeps { OnOk result (Keeps (rows_of book.old) (rows_of book.new)) }
    ensures full { OnOk result (IsFullAt (rows_of book.new) place) }
    ensures frontier { OnOk result (AreWallsFrom (found_in book.old) (keys_of (rows_of book.new)) (place + 1) frontier.new.items) }
    ensures few { OnOk result (length (rows_of book.new) ≤ limit) }
    ensures limit { result ≡ Err ExploreFault.Limit → MoreAreReached (walls_in book.old) (leads_in book.old) (root_of book.old) limit }
    ensures fault { (key : T.Key) (fault : T.Fault) → result ≡ Err (ExploreFault.Fault key fault) → IsStuckWithin (walls_in book.old) (leads_in book.old) (stuck_in book.old) (stuck_at_in book.old) (root_of book.old) (T.Key.numbers key) fault }
{
    for wall in 0..book.slots(place) {
        let added = book.fill_slot(alloc, terrain, place, walls, wall)?;
        if book.size() > limit {
            return Err(ExploreFault::Limit);
        }
        keep_walls(frontier, added)?;
    }
    Ok(())
}

/// A book of the root with at most `limit` keys and no empty slot.
pub(crate) fn filled_book<T: Terrain>(
    alloc: Global,
    terrain: &T,
    root: &T::Key,
    limit: u32,
) -> Result<Book<T>, ExploreFault<T>>
    requires own { T.is_own (T.numbers terrain.now) (T.Key.numbers root.now) }
    requires limit { limit ≤ 2 ^ 31 }
    ensures names { IfOk result (λ b. (terrain_of b ≡ T.numbers terrain.now) × (root_of b ≡ T.Key.numbers root.now)) }
    ensures few { IfOk result (λ b. length (rows_of b) ≤ limit) }
    ensures full { IfOk result (λ b. out (rows_of b) ≡ 0) }
    ensures limit { result ≡ Err ExploreFault.Limit → MoreAreReached (T.has_walls (T.numbers terrain.now)) (T.leads (T.numbers terrain.now)) (T.Key.numbers root.now) limit }
    ensures fault { (key : T.Key) (fault : T.Fault) → result ≡ Err (ExploreFault.Fault key fault) → IsStuckWithin (T.has_walls (T.numbers terrain.now)) (T.leads (T.numbers terrain.now)) (T.is_stuck (T.numbers terrain.now)) (T.is_stuck_at (T.numbers terrain.now)) (T.Key.numbers root.now) (T.Key.numbers key) fault }
{
    let (mut book, walls) = root_book(alloc, terrain, root)?;
    if limit < book.size() {
        return Err(ExploreFault::Limit);
    }
    let mut frontier = VecDeque::new(alloc);
    keep_walls(&mut frontier, Some(walls))?;
    let mut place = 0;
    while let Some(walls) = frontier.pop_front() {
        fill_slots(
            alloc,
            terrain,
            &mut book,
            place,
            &walls,
            &mut frontier,
            limit,
        )?;
        place += 1;
    }
    Ok(book)
}
