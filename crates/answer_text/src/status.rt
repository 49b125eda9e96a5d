//! How a run ends.

ghost use Rattle.std.specs.Prelude.{◌≡◌};
ghost use Rattle.answer_text.specs.Statuses.{number_of};

use super::{NoCause, Place};
use quad_field::Formula;
use surface_text::Point;

/// How a run ends. Each status but `Done` and `WriteFault` has written its one line in place of the output.
#[derive(Drop)]
pub enum Status {
    /// The output was written whole.
    Done,
    /// The words aren't in the grammar.
    Words,
    /// The input is refused as a surface file, for the cause of this number in this line. Line 0 is that of an input that is too long.
    File { cause: u8, line: u64 },
    /// The triangulation isn't strictly Delaunay at its last point: no hinge value is negative there, and that of this edge is zero.
    NotStrict { edge: u32 },
    /// A hinge value at this point is still negative after all flips.
    FlipsEnded { point: Point },
    /// A step of this formula lies outside 128 bits at this place.
    TooWide { formula: Formula, place: Place },
    /// More classes are reached than the limit of the command.
    LimitPassed { limit: u32 },
    /// The source failed.
    ReadFault,
    /// The sink failed; a prefix of what was to be written stands there.
    WriteFault,
    /// Memory ran out.
    Memory,
    /// The answer is no, for this cause; it stands in the one line that was written.
    No(NoCause),
}

/// The number with which the program ends.
pub fn status_number(status: &Status) -> u8
    ensures { result ≡ number_of status.now }
{
    match status {
        Status::Done => 0,
        Status::Words => 2,
        Status::File { .. } => 3,
        Status::NotStrict { .. } => 4,
        Status::FlipsEnded { .. } => 5,
        Status::TooWide { .. } => 6,
        Status::LimitPassed { .. } => 7,
        Status::ReadFault => 8,
        Status::WriteFault => 9,
        Status::Memory => 10,
        Status::No(_) => 11,
    }
}
