//! The text of `path`: how long a walk was, whether it came back, and the class of its end.

ghost use Rattle.std.specs.Prelude.{◌≡◌, IfOk};
ghost use Rattle.answer_text.specs.WalkTexts.{same_line, walk_text};

use canon_code::Code;
use plane::put_natural;
use report_text::put_class;
use std::alloc::{AllocError, Global};

/// The number of choices of a walk, whether its end is translation-equal to its start, and the code of the end's class, as `path` prints them.
pub fn path_text(
    alloc: Global,
    choices: u32,
    same: bool,
    class: &Code,
) -> Result<Vec<u8>, AllocError>
    ensures { IfOk result (λ text. text.items ≡ walk_text choices same class.now) }
{
    let mut text = Vec::from_slice(alloc, b"path ")?;
    put_natural(alloc, &mut text, u64::from(choices))?;
    text.extend_from_slice(b"\n")?;
    text.extend_from_slice(line_of_same(same))?;
    put_class(alloc, &mut text, class)?;
    text.extend_from_slice(b"\nend\n")?;
    Ok(text)
}

/// The line that says whether the end is translation-equal to the start.
fn line_of_same(same: bool) -> &'static [u8]
    ensures { result.now ≡ same_line same }
{
    if same { b"same yes\n" } else { b"same no\n" }
}
