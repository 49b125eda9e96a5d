//! The law of the families, the contract of a function that does nothing.

ghost use Rattle.std.specs.Prelude.{ℕ, ◌<◌, ◌≤◌, length};
ghost use Rattle.surface_text.specs.Spelling.{text};
ghost use Rattle.surface_text.specs.Limits.{IsWithinLimits};
ghost use Rattle.gluing.specs.Gluings.{IsGluing, gluing_of};
ghost use Rattle.family_gen.specs.Families.{family_of};

/// The file of every number below 200 is within the limits of the text, which is short enough to be read, and its polygons
/// make a surface. So it is written and read again, and glued, but for want of memory.
pub fn surfaces()
    ensures limits { (n : ℕ) → n < 200 → IsWithinLimits (family_of n) }
    ensures short { (n : ℕ) → n < 200 → length (text (family_of n)) ≤ 1048576 }
    ensures glued { (n : ℕ) → n < 200 → IsGluing (gluing_of (family_of n)) }
{}
