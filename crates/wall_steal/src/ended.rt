//! How a worker ends.

use super::halt::HaltNote;
use class_shards::Naming;
use terrain::{Numbers, Terrain};
use walls_out::CountSeat;

/// With a seat that has seen 0, or with a note of the cause to halt.
#[derive(Drop)]
pub enum Ended<T: Terrain, N: Naming> {
    Drained(CountSeat),
    Halted(HaltNote<T, N>),
}
