//! Why the answer of a command is no.

ghost use Rattle.std.specs.Prelude.{◌≡◌, IfOk};
ghost use Rattle.answer_text.specs.Lines.{status_line};
ghost use Rattle.answer_text.specs.declared.status.Status.TheVariants.{No};

use plane::put_natural;
use std::alloc::{AllocError, Global};

/// Why the answer of a command is no.
#[derive(Clone, Copy, Debug, PartialEq, Eq)]
pub enum NoCause {
    /// A walk has no wall for the choice at this place, counted from 0.
    Wall { place: u32 },
}

/// The line of a no.
pub(crate) fn no_line(alloc: Global, cause: NoCause) -> Result<Vec<u8>, AllocError>
    ensures { IfOk result (λ text. text.items ≡ status_line (No cause)) }
{
    match cause {
        NoCause::Wall { place } => {
            let mut text = Vec::from_slice(alloc, b"no wall ")?;
            put_natural(alloc, &mut text, u64::from(place))?;
            text.extend_from_slice(b"\n")?;
            Ok(text)
        }
    }
}
