//! The rule of the log, and the kinds of step.

use super::View;
use atomic_table::{Join, Play, Split, TableRule};
use std::marker::{Brand, PhantomData};

/// The entry that a step adds.
pub(crate) trait Named {
    ghost use Rattle.std.specs.Prelude.{ℤ, List};

    ghost entry: { List ℤ };
}

impl Named for Brand {
    ghost use Rattle.std.specs.Prelude.{[]};

    ghost entry = { [] };
}

/// The place of a new receipt.
pub(crate) trait Picked {
    ghost use Rattle.std.specs.Prelude.{ℕ};

    ghost place: { ℕ };
}

impl Picked for Brand {
    ghost place = { 0 };
}

/// The rule: the word is the length of the keeper's list, of which all else is a prefix.
pub(crate) struct Logging;

impl TableRule<u8, View, ()> for Logging {
    ghost use Rattle.std.specs.Prelude.{[]};
    ghost use Rattle.receipt_log.specs.Rule.{Rule};
    ghost use Rattle.receipt_log.specs.Views.{keeper};

    ghost holds = { λ _ s. Rule s.words s.views };

    ghost first = { λ _. keeper [] };
}

/// Adds an entry.
pub(crate) struct Appends<N: Named> {
    of: PhantomData<N>,
}

impl<N: Named> Play<u8, View> for Appends<N> {
    ghost use Rattle.receipt_log.specs.Told.{Appended};

    ghost then = { λ s v found w. Appended N.entry v found w };
}

/// Reads the length.
pub(crate) struct Looks;

impl Play<u8, View> for Looks {
    ghost use Rattle.receipt_log.specs.Told.{Looked};

    ghost then = { λ s v found w. Looked v found w };
}

/// Makes a receipt.
pub(crate) struct Notes<N: Picked> {
    of: PhantomData<N>,
}

impl<N: Picked> Split<View> for Notes<N> {
    ghost use Rattle.receipt_log.specs.Views.{receipt};

    ghost left = { λ v. v };

    ghost right = { λ v. receipt N.place v.list };
}

/// Copies a receipt.
pub(crate) struct Copies;

impl Split<View> for Copies {
    ghost left = { λ v. v };

    ghost right = { λ v. v };
}

/// Takes in a copy of a receipt, of which nothing is left.
pub(crate) struct TakesIn;

impl Join<View> for TakesIn {
    ghost use Rattle.receipt_log.specs.Views.{took, spent};

    ghost both = { took };

    ghost spent = { spent };
}
