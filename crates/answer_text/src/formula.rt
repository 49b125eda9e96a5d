//! The names of the formulas.

ghost use Rattle.std.specs.Prelude.{◌≡◌};
ghost use Rattle.answer_text.specs.Lines.{formula_name};

use quad_field::Formula;

/// The name of a formula, as a refusal prints it.
pub(crate) fn name_of_formula(formula: Formula) -> &'static [u8]
    ensures { result.now ≡ formula_name formula }
{
    match formula {
        Formula::F1 => b"F1",
        Formula::F2 => b"F2",
        Formula::F3 => b"F3",
        Formula::F4 => b"F4",
        Formula::F5 => b"F5",
        Formula::F6 => b"F6",
        Formula::F7 => b"F7",
        Formula::F8 => b"F8",
        Formula::F9 => b"F9",
        Formula::F10 => b"F10",
        Formula::F11 => b"F11",
        Formula::F12 => b"F12",
        Formula::F13 => b"F13",
    }
}
