//! The commands, and how words name them.

ghost use Rattle.std.specs.Prelude.{◌≡◌, map, string_bytes, MatchOption, IfOk};
ghost use Rattle.command_words.specs.Lines.{IsTaken};
ghost use Rattle.command_words.specs.Grammar.{check_row, base_row, region_row, path_row, plain_row, group_row, make_row, trial_row};
ghost use Rattle.command_words.specs.Commands.{Names, AreTaken};

use super::grammar::{
    BASE, CHECK, FLIPS, GROUP, LIMIT, MAKE, PATH, PLAIN, REGION, SUMMARY, TRIAL, WORKERS,
};
use super::lines::is_line;
use super::parsing::parse;
use super::values::{choices_of, is_set, number_of, value_of};
use super::{Choices, ClassLimit, FamilyNumber, WordList, WorkerNumber};
use std::alloc::{AllocError, Global};

/// A command with what its words say.
#[derive(Drop)]
pub enum Command {
    /// The counts of the file's triangulation.
    Check,
    /// The base of the file's triangulation, reached by at most so many flips.
    Base {
        flips: u32,
    },
    /// The walls and corners of the region of that base.
    Region {
        flips: u32,
    },
    /// The end of a walk from that base through the walls that are chosen.
    Path {
        flips: u32,
        choices: Choices,
    },
    /// The classes that crossings reach from that base, where they are no more than the limit, or their summary.
    Plain {
        flips: u32,
        limit: ClassLimit,
        summary: bool,
    },
    /// The same as `plain`, found by so many workers.
    Group {
        flips: u32,
        limit: ClassLimit,
        workers: WorkerNumber,
    },
    /// The file of a surface of the families.
    Make {
        number: FamilyNumber,
    },
    /// The summary of the classes of that surface, where they are no more than the limit.
    Trial {
        flips: u32,
        limit: ClassLimit,
        number: FamilyNumber,
    },
}

/// The command that the words name: none exactly where they aren't in the grammar.
///
/// Refuses only where no memory is left, and never words outside the grammar.
pub fn read_command(alloc: Global, words: &WordList) -> Result<Option<Command>, AllocError>
    ensures named { IfOk result (λ found. MatchOption found (¬ (AreTaken words.now)) (Names words.now)) }
    ensures refused { ¬ (AreTaken words.now) → result ≡ Ok None }
{
    let words = words.as_slice();
    if is_line(&CHECK, words) {
        return Ok(Some(check(alloc, words)?));
    }
    if is_line(&BASE, words) {
        return Ok(Some(base(alloc, words)?));
    }
    if is_line(&REGION, words) {
        return Ok(Some(region(alloc, words)?));
    }
    if is_line(&PATH, words) {
        return Ok(Some(path(alloc, words)?));
    }
    if is_line(&PLAIN, words) {
        return Ok(Some(plain(alloc, words)?));
    }
    if is_line(&GROUP, words) {
        return Ok(Some(group(alloc, words)?));
    }
    if is_line(&MAKE, words) {
        return Ok(Some(make(alloc, words)?));
    }
    if is_line(&TRIAL, words) {
        return Ok(Some(trial(alloc, words)?));
    }
    Ok(None)
}

/// The command of a line of `check`.
fn check(alloc: Global, words: &[String]) -> Result<Command, AllocError>
    requires { IsTaken check_row (map string_bytes words.now) }
    ensures { IfOk result (Names (map string_bytes words.now)) }
{
    let _matches = parse(alloc, &CHECK, words)?;
    Ok(Command::Check)
}

/// The command of a line of `base`.
fn base(alloc: Global, words: &[String]) -> Result<Command, AllocError>
    requires { IsTaken base_row (map string_bytes words.now) }
    ensures { IfOk result (Names (map string_bytes words.now)) }
{
    let matches = parse(alloc, &BASE, words)?;
    let flips = number_of(&matches, &FLIPS);
    Ok(Command::Base { flips })
}

/// The command of a line of `region`.
fn region(alloc: Global, words: &[String]) -> Result<Command, AllocError>
    requires { IsTaken region_row (map string_bytes words.now) }
    ensures { IfOk result (Names (map string_bytes words.now)) }
{
    let matches = parse(alloc, &REGION, words)?;
    let flips = number_of(&matches, &FLIPS);
    Ok(Command::Region { flips })
}

/// The command of a line of `path`.
fn path(alloc: Global, words: &[String]) -> Result<Command, AllocError>
    requires { IsTaken path_row (map string_bytes words.now) }
    ensures { IfOk result (Names (map string_bytes words.now)) }
{
    let matches = parse(alloc, &PATH, words)?;
    let flips = number_of(&matches, &FLIPS);
    let choices = choices_of(alloc, &matches)?;
    Ok(Command::Path { flips, choices })
}

/// The command of a line of `plain`.
fn plain(alloc: Global, words: &[String]) -> Result<Command, AllocError>
    requires { IsTaken plain_row (map string_bytes words.now) }
    ensures { IfOk result (Names (map string_bytes words.now)) }
{
    let matches = parse(alloc, &PLAIN, words)?;
    let flips = number_of(&matches, &FLIPS);
    let limit = number_of(&matches, &LIMIT);
    let summary = is_set(&matches, &SUMMARY);
    Ok(Command::Plain {
        flips,
        limit: ClassLimit::new(limit),
        summary,
    })
}

/// The command of a line of `group`.
fn group(alloc: Global, words: &[String]) -> Result<Command, AllocError>
    requires { IsTaken group_row (map string_bytes words.now) }
    ensures { IfOk result (Names (map string_bytes words.now)) }
{
    let matches = parse(alloc, &GROUP, words)?;
    let flips = number_of(&matches, &FLIPS);
    let limit = number_of(&matches, &LIMIT);
    let workers = number_of(&matches, &WORKERS);
    Ok(Command::Group {
        flips,
        limit: ClassLimit::new(limit),
        workers: WorkerNumber::new(workers),
    })
}

/// The command of a line of `make`.
fn make(alloc: Global, words: &[String]) -> Result<Command, AllocError>
    requires { IsTaken make_row (map string_bytes words.now) }
    ensures { IfOk result (Names (map string_bytes words.now)) }
{
    let matches = parse(alloc, &MAKE, words)?;
    let number = value_of(&matches);
    Ok(Command::Make {
        number: FamilyNumber::new(number),
    })
}

/// The command of a line of `trial`.
fn trial(alloc: Global, words: &[String]) -> Result<Command, AllocError>
    requires { IsTaken trial_row (map string_bytes words.now) }
    ensures { IfOk result (Names (map string_bytes words.now)) }
{
    let matches = parse(alloc, &TRIAL, words)?;
    let flips = number_of(&matches, &FLIPS);
    let limit = number_of(&matches, &LIMIT);
    let number = value_of(&matches);
    Ok(Command::Trial {
        flips,
        limit: ClassLimit::new(limit),
        number: FamilyNumber::new(number),
    })
}
