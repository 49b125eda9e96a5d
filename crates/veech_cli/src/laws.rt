//! The laws of inputs and of what they are owed, each the contract of a function that does nothing: an input is accepted as one file,
//! or refused for one cause in one line, never both, a command owes it one status, and one report, `group` owes what `plain` does, and a
//! report that is owed is closed.

ghost use Rattle.std.specs.Prelude.{◌≡◌, ◌↔◌, ◌⊎◌, ℕ, Bool, false, List};
ghost use Rattle.surface_text.specs.Spelling.{Content};
ghost use Rattle.answer_text.specs.declared.status.Status.{Status};
ghost use Rattle.answer_text.specs.declared.status.Status.TheVariants.{Done};
ghost use Rattle.command_words.specs.declared.command.Command.{Command};
ghost use Rattle.command_words.specs.declared.command.Command.TheVariants.{Plain, Group, Trial};
ghost use Rattle.family_gen.specs.Families.{family_of};
ghost use Rattle.veech_cli.specs.Writings.{trial_text, plain_text};
ghost use Rattle.veech_cli.specs.SurfaceFiles.{IsAccepted, IsRefused};
ghost use Rattle.veech_cli.specs.Owed.{Owes, IsOptional};
ghost use Rattle.veech_cli.specs.Headline.{IsClosed};

use returning::laws::{
    quotients_generate_the_returning_derivatives, quotients_have_determinant_one,
};

/// An input is accepted as one file.
pub fn one_file()
    ensures { (input : List ℕ) (file other : Content) → IsAccepted input file → IsAccepted input other → file ≡ other }
{}

/// An input is refused for one cause in one line.
pub fn one_refusal()
    ensures { (input : List ℕ) (cause other line place : ℕ) → IsRefused input cause line → IsRefused input other place → (cause ≡ other) × (line ≡ place) }
{}

/// An input that is accepted isn't refused.
pub fn not_both()
    ensures { (input : List ℕ) (file : Content) (cause line : ℕ) → IsAccepted input file → ¬ (IsRefused input cause line) }
{}

/// There is no input that is neither accepted nor refused.
pub fn not_neither()
    ensures { (input : List ℕ) → ((file : Content) → ¬ (IsAccepted input file)) → ((cause line : ℕ) → ¬ (IsRefused input cause line)) → ⊥ }
{}

/// A command owes an input one status, but for a wide formula that its answer may do without.
pub fn one_answer()
    ensures { (command : Command) (input : List ℕ) (status other : Status) (text line : List ℕ) → Owes command input status text → Owes command input other line
        → (status ≡ other) ⊎ IsOptional status ⊎ IsOptional other }
{}

/// What `plain` writes of an input is one text, by the number of flips alone, and so is what `trial` writes of a number: the limit
/// changes nothing of it.
pub fn one_report()
    ensures plain { (flips limit other : ℕ) (summary : Bool) (input text line : List ℕ) → Owes (Plain flips limit summary) input Done text
        → Owes (Plain flips other summary) input Done line → text ≡ line }
    ensures trial { (flips limit other number : ℕ) (input text line : List ℕ) → Owes (Trial flips limit number) input Done text
        → Owes (Trial flips other number) input Done line → text ≡ line }
{}

/// What `group` owes an input is what `plain` owes it, for every number of workers.
pub fn group_is_plain()
    ensures { (flips limit workers : ℕ) (input : List ℕ) (status : Status) (text : List ℕ)
        → Owes (Group flips limit workers) input status text ↔ Owes (Plain flips limit false) input status text }
{}

/// A report that is owed is closed, and so is its summary: it has exactly the classes that crossings reach from the base, and matrices
/// that generate exactly the derivatives of the paths that return to an image of the base. What `trial` owes is the summary of such a
/// report, of the file of its number.
pub fn reports_are_closed()
    ensures plain { (flips limit : ℕ) (summary : Bool) (input text : List ℕ) → Owes (Plain flips limit summary) input Done text
        → IsClosed (IsAccepted input) flips limit (plain_text summary) text }
    ensures trial { (flips limit number : ℕ) (input text : List ℕ) → Owes (Trial flips limit number) input Done text
        → IsClosed (λ file. file ≡ family_of number) flips limit (trial_text number) text }
{
    quotients_generate_the_returning_derivatives();
    quotients_have_determinant_one();
}
