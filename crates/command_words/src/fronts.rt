//! What the words at the front of a list give.

ghost use Rattle.std.specs.Prelude.{◌≡◌, ℕ, ◌↔◌, List, [], ◌∷◌, ◌++◌, map, codes, string_bytes, IsTrue, MatchOption, Some};
ghost use Rattle.command_words.specs.Lines.{IsGivenAs, IsGivenOf};
ghost use Rattle.command_words.specs.Fronts.{IsWithin, GivesValue, GivesNoValue, GivesFirst, GivesNone};
ghost use Rattle.command_words.specs.Rows.{option_of};

use super::rows::{NumberBounds, OptionRow};
use plane::{NaturalWord, read_natural};

/// An option that is given at the front of a list of words.
#[derive(Clone, Copy)]
pub(crate) struct Front {
    /// Its name.
    pub(crate) name: &'static str,
    /// How many words give it.
    pub(crate) words: usize,
}

/// Which of these options is given at the front of the words.
pub(crate) fn front_of(options: &[OptionRow], words: &[String]) -> Option<Front>
    ensures { MatchOption result (GivesNone (IsGivenOf (map option_of options.now)) (map string_bytes words.now))
        (λ front. GivesFirst (λ given. IsGivenOf (map option_of options.now) given × (given.name ≡ front.name.now)) (map string_bytes words.now) front.words) }
{
    for option in options {
        if let Some(words) = front_as(option, words) {
            return Some(Front {
                name: option.name,
                words,
            });
        }
    }
    None
}

/// How many words at the front give this option: none where they don't.
fn front_as(option: &OptionRow, words: &[String]) -> Option<usize>
    ensures { MatchOption result (GivesNone (IsGivenAs (option_of option.now)) (map string_bytes words.now))
        (GivesFirst (IsGivenAs (option_of option.now)) (map string_bytes words.now)) }
{
    match words.split_first() {
        Some((first, others)) => match tail_of(first.as_str(), option.name) {
            Some(tail) => value_words(option.numbers, tail, others),
            None => None,
        },
        None => None,
    }
}

/// What follows `--` and this name in a word.
pub(crate) fn tail_of<'w>(word: &'w str, name: &str) -> Option<&'w [u8]>
    ensures { MatchOption result ((tail : List ℕ) → ¬ (word.entry.now ≡ codes "--" ++ (name.now ++ tail)))
        (λ tail. word.entry.now ≡ codes "--" ++ (name.now ++ tail.now)) }
{
    match after(word.as_bytes(), b"--") {
        Some(named) => after(named, name.as_bytes()),
        None => None,
    }
}

/// What follows these bytes at the front of a word.
pub(crate) fn after<'w>(word: &'w [u8], front: &[u8]) -> Option<&'w [u8]>
    ensures { MatchOption result ((tail : List ℕ) → ¬ (word.entry.now ≡ front.now ++ tail)) (λ tail. word.entry.now ≡ front.now ++ tail.now) }
{
    word.strip_prefix(front)
}

/// How many words an option has that takes these numbers, by what follows its name in its word, and by the words after it.
fn value_words(numbers: Option<NumberBounds>, tail: &[u8], others: &[String]) -> Option<usize>
    ensures { MatchOption result (GivesNoValue numbers tail.now (map string_bytes others.now)) (GivesValue numbers tail.now (map string_bytes others.now)) }
{
    match numbers {
        None if tail.is_empty() => Some(1),
        Some(numbers) if tail.is_empty() => apart_words(numbers, others),
        Some(numbers) => joined_words(numbers, tail),
        None => None,
    }
}

/// How many words an option has whose number is the next word.
fn apart_words(numbers: NumberBounds, others: &[String]) -> Option<usize>
    ensures { MatchOption result (GivesNoValue (Some numbers) [] (map string_bytes others.now)) (GivesValue (Some numbers) [] (map string_bytes others.now)) }
{
    match others.split_first() {
        Some((number, _)) if is_within(numbers, number.as_bytes()) => Some(2),
        _ => None,
    }
}

/// How many words an option has whose number stands behind `=`.
fn joined_words(numbers: NumberBounds, tail: &[u8]) -> Option<usize>
    ensures { MatchOption result ((word : List ℕ) → IsWithin numbers word → ¬ (tail.now ≡ codes "=" ++ word))
        (λ n. (word : List ℕ) × IsWithin numbers word × (tail.now ≡ codes "=" ++ word) × (n ≡ 1)) }
{
    match after(tail, b"=") {
        Some(number) if is_within(numbers, number) => Some(1),
        _ => None,
    }
}

/// Whether the word is a number within these bounds.
fn is_within(numbers: NumberBounds, word: &[u8]) -> bool
    ensures { IsTrue result ↔ IsWithin numbers word.now }
{
    match read_natural(word) {
        NaturalWord::Value(n) => u128::from(numbers.least) <= n && n <= u128::from(numbers.most),
        NaturalWord::Large => false,
        NaturalWord::Not => false,
    }
}
