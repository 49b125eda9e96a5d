//! Reading a line by clap.

ghost use Rattle.std.specs.Prelude.{◌≡◌, ◌++◌, ℕ, List, false, map, string_bytes, IfOk};
ghost use Rattle.clap.specs.Walk.{rule_of};
ghost use Rattle.clap.specs.Simple.{app_of};
ghost use Rattle.clap.specs.Matches.{found_of};
ghost use Rattle.command_words.specs.Lines.{Given, IsLine, IsTaken};
ghost use Rattle.command_words.specs.Fronts.{IsRow};
ghost use Rattle.command_words.specs.Parsers.{option_rule, parser_of, HoldsLine};
ghost use Rattle.command_words.specs.Rows.{row_of, option_of};

use super::rows::{CommandRow, OptionRow};
use clap::error::ErrorKind;
use clap::{Arg, ArgAction, ArgMatches, Command as Parser};
use std::alloc::{AllocError, Global};

/// The id of the plain values.
pub(crate) const VALUES: &str = "values";

/// The matches that clap gives a line of this row.
///
/// Refuses only where no memory is left.
pub(crate) fn parse<'a>(
    alloc: Global,
    row: &CommandRow,
    words: &'a [String],
) -> Result<ArgMatches<'a>, AllocError>
    requires row { IsRow (row_of row.now) }
    requires line { IsTaken (row_of row.now) (map string_bytes words.now) }
    ensures { IfOk result (λ matches. (options : List Given) (plain : List ℕ) → IsLine (row_of row.now) options plain (map string_bytes words.entry.now)
        → HoldsLine (row_of row.now) options plain (found_of matches)) }
{
    let parser = parser_for(alloc, row)?;
    match parser.try_get_matches_from(words) {
        Ok(matches) => Ok(matches),
        Err(error) => match error.kind() {
            ErrorKind::OutOfMemory => Err(AllocError),
            _ => unreachable!(),
        },
    }
}

/// The clap command of a row.
fn parser_for<'a>(alloc: Global, row: &CommandRow) -> Result<Parser<'a>, AllocError>
    ensures { IfOk result (λ parser. app_of parser ≡ parser_of (row_of row.now)) }
{
    let mut parser = Parser::new(alloc, row.word).disable_help_flag(true);
    for option in row.options {
        parser = parser.arg(argument_for(alloc, option))?;
    }
    if row.plain.most == 0 {
        return Ok(parser);
    }
    let values = Arg::new(alloc, VALUES).action(ArgAction::Append);
    parser.arg(values)
}

/// The argument of an option.
fn argument_for<'a>(alloc: Global, option: &OptionRow) -> Arg<'a>
    ensures rule { rule_of result ≡ option_rule (option_of option.now) }
    ensures local { result.global ≡ false }
{
    let action = match option.numbers {
        Some(_) => ArgAction::Set,
        None => ArgAction::SetTrue,
    };
    Arg::new(alloc, option.name)
        .long(option.name)
        .action(action)
}
