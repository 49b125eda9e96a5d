//! The law of words, the contract of a function that does nothing.

ghost use Rattle.std.specs.Prelude.{◌≡◌, ℕ, List};
ghost use Rattle.command_words.specs.Commands.{Names};
ghost use Rattle.command_words.specs.declared.command.Command.{Command};

/// Words name one command.
pub fn one_command()
    ensures { (words : List (List ℕ)) (one other : Command) → Names words one → Names words other → one ≡ other }
{}
