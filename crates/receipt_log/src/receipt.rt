//! Receipts.

ghost use Rattle.std.specs.Prelude.{◌≡◌, ◌<◌, [], length};
ghost use Rattle.receipt_log.specs.Views.{receipt};

use super::View;
use atomic_table::Seat;
use std::marker::PhantomData;
use terrain::Numbers;

/// Shows the place of an entry, and a prefix of the keeper's list that holds that place.
#[derive(Drop)]
pub struct Receipt<E: Numbers> {
    pub(crate) place: u64,
    pub(crate) seat: Seat<u8, View>,
    pub(crate) of: PhantomData<E>,
    ghost empty: { seat.me.1 ≡ [] },
    ghost view: { seat.me.0 ≡ receipt place seat.me.0.list },
    ghost within: { place < length seat.me.0.list },
}

impl<E: Numbers> Receipt<E> {
    ghost use Rattle.receipt_log.specs.Logs.{place_of, seen_by};

    /// The place of its entry.
    pub fn place(&self) -> u64
        ensures place { result ≡ place_of self.now }
        ensures within { result < length (seen_by self.now) }
    {
        self.place
    }
}
