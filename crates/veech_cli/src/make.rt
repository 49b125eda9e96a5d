//! The command `make`.

ghost use Rattle.std.specs.Prelude.{◌≡◌, ◌<◌, IfOk};
ghost use Rattle.surface_text.specs.Spelling.{text};
ghost use Rattle.family_gen.specs.Families.{family_of};

use family_gen::family;
use family_gen::laws::surfaces;
use std::alloc::{AllocError, Global};
use surface_text::write;

/// What `make` prints for a number: the text of its surface's file.
pub(crate) fn make(alloc: Global, number: u32) -> Result<Vec<u8>, AllocError>
    requires { number < 200 }
    ensures { IfOk result (λ out. out.items ≡ text (family_of number)) }
{
    surfaces();
    let file = family(alloc, number)?;
    write(alloc, &file)
}
