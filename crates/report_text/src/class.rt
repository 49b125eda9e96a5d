//! A class by its code.

ghost use Rattle.std.specs.Prelude.{◌≡◌, ◌++◌, OnOk};
ghost use Rattle.report_text.specs.Reports.{class_text};

use canon_code::{Code, code_text};
use std::alloc::{AllocError, Global};

/// Appends `class` and the code of a class, without a line feed.
pub fn put_class(alloc: Global, out: &mut Vec<u8>, class: &Code) -> Result<(), AllocError>
    ensures { OnOk result (out.new.items ≡ out.old.items ++ class_text class.now) }
{
    let code = code_text(alloc, class)?;
    out.extend_from_slice(b"class ")?;
    out.extend_from_slice(code.as_slice())?;
    Ok(())
}
