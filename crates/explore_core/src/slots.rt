//! Empty slots.

ghost use Rattle.std.specs.Prelude.{◌≡◌, None, IfOk, replicate};

use std::alloc::{AllocError, Global};

/// So many empty slots.
pub fn empty_slots<X: Drop>(alloc: Global, count: u32) -> Result<Vec<Option<X>>, AllocError>
    ensures { IfOk result (λ v. v.items ≡ replicate count None) }
{
    let mut slots = Vec::with_capacity(alloc, count as usize)?;
    for _i in 0..count {
        slots.push(None)?;
    }
    Ok(slots)
}
