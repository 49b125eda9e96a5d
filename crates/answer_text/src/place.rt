//! Where a formula was too wide.

ghost use Rattle.std.specs.Prelude.{◌≡◌, ◌++◌, OnOk};
ghost use Rattle.answer_text.specs.Lines.{class_place_text, place_text};

use canon_code::Code;
use plane::put_natural;
use report_text::put_class;
use std::alloc::{AllocError, Global};

/// Where a formula was too wide.
#[derive(Drop)]
pub enum Place {
    /// After this many flips at the point that decides, at this edge.
    Flips { flips: u32, edge: u32 },
    /// At the base.
    Base,
    /// At a reached class: at its canonical triangulation, or at this wall of it.
    Class { code: Code, wall: Option<u32> },
    /// In the matrices: in a product or an inverse of the tree of the classes or of its quotients.
    Quotient,
    /// On a walk after this many choices: at the walls there, or at the wall that is chosen next.
    Walk { choice: u32 },
}

/// Appends a place.
pub(crate) fn put_place(alloc: Global, out: &mut Vec<u8>, place: &Place) -> Result<(), AllocError>
    ensures { OnOk result (out.new.items ≡ out.old.items ++ place_text place.now) }
{
    match place {
        Place::Flips { flips, edge } => {
            out.extend_from_slice(b"flips ")?;
            put_natural(alloc, out, u64::from(*flips))?;
            out.extend_from_slice(b" edge ")?;
            put_natural(alloc, out, u64::from(*edge))
        }
        Place::Base => Ok(out.extend_from_slice(b"base")?),
        Place::Class { code, wall } => put_class_place(alloc, out, code, *wall),
        Place::Quotient => Ok(out.extend_from_slice(b"quotient")?),
        Place::Walk { choice } => {
            out.extend_from_slice(b"walk ")?;
            put_natural(alloc, out, u64::from(*choice))
        }
    }
}

/// Appends a class, or a wall of it.
fn put_class_place(
    alloc: Global,
    out: &mut Vec<u8>,
    class: &Code,
    wall: Option<u32>,
) -> Result<(), AllocError>
    ensures { OnOk result (out.new.items ≡ out.old.items ++ class_place_text class.now wall) }
{
    if let Some(wall) = wall {
        out.extend_from_slice(b"wall ")?;
        put_natural(alloc, out, u64::from(wall))?;
        out.extend_from_slice(b" ")?;
    }
    put_class(alloc, out, class)
}
