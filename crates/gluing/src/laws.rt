//! The laws of gluings and refusals, each the contract of a function that does nothing.
//! By them each file within the limits of the text is either glued, or refused for one cause in one line.

ghost use Rattle.std.specs.Prelude.{◌≡◌, ◌⊎◌, ℕ};
ghost use Rattle.surface_text.specs.Spelling.{Content};
ghost use Rattle.surface_text.specs.Limits.{IsWithinLimits};
ghost use Rattle.gluing.specs.Gluings.{IsGluing, gluing_of};
ghost use Rattle.gluing.specs.Refusals.{IsRefused};

/// A file whose polygons make a surface is refused for no cause in any line.
pub fn not_both()
    ensures { (file : Content) (cause line : ℕ) → IsGluing (gluing_of file) → ¬ (IsRefused file cause line) }
{}

/// A file is refused for one cause in one line.
pub fn one_refusal()
    ensures { (file : Content) (cause other line place : ℕ) → IsRefused file cause line → IsRefused file other place → (cause ≡ other) × (line ≡ place) }
{}

/// Each file within the limits of the text is glued or refused.
pub fn glued_or_refused()
    ensures { (file : Content) → IsWithinLimits file → IsGluing (gluing_of file) ⊎ ((cause : ℕ) × (line : ℕ) × IsRefused file cause line) }
{}
