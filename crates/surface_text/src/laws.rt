//! The laws of surface files and their texts, each the contract of a function that does nothing.

ghost use Rattle.std.specs.Prelude.{◌≡◌, ◌≤◌, ℕ, List, length};
ghost use Rattle.surface_text.specs.Spelling.{Content, text};
ghost use Rattle.surface_text.specs.Causes.{IsRefused};
ghost use Rattle.surface_text.specs.Refusals.{IsTextOf};

/// Two files with one text are the same. So what `write` gives for a file within the limits is read as that file and no other.
pub fn one_file()
    ensures { (x y : Content) → text x ≡ text y → x ≡ y }
{}

/// A text is refused for one cause in one line.
pub fn one_refusal()
    ensures { (bytes : List ℕ) (cause other line place : ℕ) → IsRefused bytes cause line → IsRefused bytes other place → (cause ≡ other) × (line ≡ place) }
{}

/// The text of a file within the limits is refused for no cause in any line.
pub fn no_refusal()
    ensures { (bytes : List ℕ) (file : Content) (cause line : ℕ) → IsTextOf bytes file → ¬ (IsRefused bytes cause line) }
{}

/// No text of at most 1,048,576 bytes is neither that of a file within the limits nor refused.
pub fn file_or_refusal()
    ensures { (bytes : List ℕ) → length bytes ≤ 1048576
        → ((file : Content) → ¬ (IsTextOf bytes file)) → ¬ ((cause line : ℕ) → ¬ (IsRefused bytes cause line)) }
{}
