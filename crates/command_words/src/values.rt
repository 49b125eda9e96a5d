//! What the matches of a line hold.

ghost use Rattle.std.specs.Prelude.{◌≡◌, ℕ, List, [], ◌∷◌, ◌^◌, ◌<◌, ◌≤◌, length, codes, true, false, Some, IsSome, IsSomeAnd, IfSome, IfOk, MatchOption, map};
ghost use Rattle.std.specs.List.{AllByRecursion};
ghost use Rattle.clap.specs.Matches.{first_value, one_text, found_of};
ghost use Rattle.plane.specs.Spelling.{natural_text};
ghost use Rattle.command_words.specs.Parsers.{HoldsPlain};

use super::Choices;
use super::parsing::VALUES;
use super::rows::OptionRow;
use clap::ArgMatches;
use plane::{NaturalWord, read_natural};
use std::alloc::{AllocError, Global};

/// The number of an option: the one that it is given, or else the one that stands unless it is given.
pub(crate) fn number_of(matches: &ArgMatches<'_>, option: &OptionRow) -> u32
    requires takes { IsSome option.now.numbers }
    requires given { IfSome (first_value (found_of matches.now) option.now.name.now) (λ text. (n : ℕ) × (text ≡ natural_text n) × (n < 2 ^ 32)) }
    ensures { MatchOption (first_value (found_of matches.now) option.now.name.now) (IsSomeAnd option.now.numbers (λ numbers. result ≡ numbers.unless_given))
        (λ text. text ≡ natural_text result) }
{
    match (matches.get_str(option.name), option.numbers) {
        (Some(text), _) => number_in(text),
        (None, Some(numbers)) => numbers.unless_given,
        (None, None) => unreachable!(),
    }
}

/// The number that a word is.
fn number_in(word: &str) -> u32
    requires { (n : ℕ) × (word.now ≡ natural_text n) × (n < 2 ^ 32) }
    ensures { word.now ≡ natural_text result }
{
    match read_natural(word.as_bytes()) {
        NaturalWord::Value(n) => n as u32,
        NaturalWord::Large => unreachable!(),
        NaturalWord::Not => unreachable!(),
    }
}

/// Whether a flag is given.
pub(crate) fn is_set(matches: &ArgMatches<'_>, option: &OptionRow) -> bool
    ensures given { one_text (found_of matches.now) option.now.name.now ≡ Some (codes "true") → result ≡ true }
    ensures not_given { IfSome (one_text (found_of matches.now) option.now.name.now) (λ text. text ≡ codes "false") → result ≡ false }
{
    matches.get_flag(option.name)
}

/// The one plain value of the matches.
pub(crate) fn value_of(matches: &ArgMatches<'_>) -> u32
    requires { (n : ℕ) × (n < 2 ^ 32) × HoldsPlain (n ∷ []) (found_of matches.now) }
    ensures { (n : ℕ) → HoldsPlain (n ∷ []) (found_of matches.now) → result ≡ n }
{
    match matches.get_str(VALUES) {
        Some(word) => number_in(word),
        None => unreachable!(),
    }
}

/// The plain values of the matches, as choices.
pub(crate) fn choices_of(alloc: Global, matches: &ArgMatches<'_>) -> Result<Choices, AllocError>
    requires { (plain : List ℕ) × (length plain ≤ 4096) × AllByRecursion (λ n. n < 2 ^ 32) plain × HoldsPlain plain (found_of matches.now) }
    ensures { IfOk result (λ choices. HoldsPlain choices (found_of matches.now)) }
{
    let places = match matches.get_strs(VALUES) {
        Some(words) => numbers_in(alloc, words)?,
        None => Vec::new(alloc),
    };
    Ok(Choices::new(places))
}

/// The numbers that words are.
fn numbers_in(alloc: Global, words: &[&str]) -> Result<Vec<u32>, AllocError>
    requires { (plain : List ℕ) × AllByRecursion (λ n. n < 2 ^ 32) plain × (map (λ word. word.now) words.now ≡ map natural_text plain) }
    ensures { IfOk result (λ numbers. map (λ word. word.now) words.now ≡ map natural_text numbers.items) }
{
    let mut numbers = Vec::with_capacity(alloc, words.len())?;
    for word in words {
        numbers.push(number_in(word))?;
    }
    Ok(numbers)
}
