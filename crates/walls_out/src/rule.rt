//! The rule of the word, and the kinds of step.

use super::View;
use atomic_table::{Join, Play, Split, TableRule};

/// The rule: the word is the number of owed entries.
pub(crate) struct Counting;

impl TableRule<u8, View, ()> for Counting {
    ghost use Rattle.walls_out.specs.Counting.{Rule};
    ghost use Rattle.walls_out.specs.Views.{first_seat};

    ghost holds = { λ _ s. Rule s.words s.views };

    ghost first = { λ _. first_seat 0 };
}

/// Makes and owes new entries.
pub(crate) struct Raises;

impl Play<u8, View> for Raises {
    ghost use Rattle.walls_out.specs.Told.{Raised};

    ghost then = { λ s v found w. Raised s.first v w };
}

/// Does the last entry owed.
pub(crate) struct Lowers;

impl Play<u8, View> for Lowers {
    ghost use Rattle.walls_out.specs.Told.{Lowered};

    ghost then = { λ s v found w. Lowered v w };
}

/// Is rid of the root's entry.
pub(crate) struct LowersRoot;

impl Play<u8, View> for LowersRoot {
    ghost use Rattle.walls_out.specs.Told.{LoweredRoot};

    ghost then = { λ s v found w. LoweredRoot v w };
}

/// Reads the word.
pub(crate) struct Looks;

impl Play<u8, View> for Looks {
    ghost use Rattle.walls_out.specs.Told.{Looked};

    ghost then = { λ s v found w. Looked v found w };
}

/// Moves the last entry owed to a new seat.
pub(crate) struct Moves;

impl Split<View> for Moves {
    ghost use Rattle.walls_out.specs.Views.{keeps_front, holds_last};

    ghost left = { keeps_front };

    ghost right = { holds_last };
}

/// Makes a seat that has seen 0 where this one has.
pub(crate) struct Copies;

impl Split<View> for Copies {
    ghost use Rattle.walls_out.specs.Views.{copy_seen};

    ghost left = { λ v. v };

    ghost right = { copy_seen };
}

/// Makes the next keeper.
pub(crate) struct Names;

impl Split<View> for Names {
    ghost use Rattle.walls_out.specs.Views.{named, new_keeper};

    ghost left = { named };

    ghost right = { new_keeper };
}

/// Takes in another seat, of which nothing is left.
pub(crate) struct Joins;

impl Join<View> for Joins {
    ghost use Rattle.walls_out.specs.Views.{joined, spent};

    ghost both = { joined };

    ghost spent = { spent };
}
