//! Which words are a line of a row of the grammar.

ghost use Rattle.std.specs.Prelude.{◌≡◌, ℕ, ◌<◌, ◌≤◌, ◌↔◌, ◌⊎◌, List, [], ◌∷◌, ◌++◌, map, codes, length, string_bytes, IsTrue};
ghost use Rattle.plane.specs.Spelling.{natural_text};
ghost use Rattle.command_words.specs.Lines.{IsTaken};
ghost use Rattle.command_words.specs.Rows.{row_of};
ghost use Rattle.command_words.specs.Fronts.{IsRow, IsNamed, NamesOption, EndsName, ArePlain, IsBelow};

use super::fronts::{after, front_of, tail_of};
use super::rows::{CommandRow, PlainBounds};
use plane::{NaturalWord, read_natural};

/// Whether the words are a line of this row.
pub(crate) fn is_line(row: &CommandRow, words: &[String]) -> bool
    requires { IsRow (row_of row.now) }
    ensures { IsTrue result ↔ IsTaken (row_of row.now) (map string_bytes words.now) }
{
    match words.split_first() {
        Some((word, others)) => word.as_str() == row.word && ends_line(row, others),
        None => false,
    }
}

/// Whether the words end a line of this row, behind the command's word.
fn ends_line(row: &CommandRow, words: &[String]) -> bool
    requires { IsRow (row_of row.now) }
    ensures { IsTrue result ↔ IsTaken (row_of row.now) (row.now.word.now ∷ map string_bytes words.now) }
{
    let mut at = 0;
    while let Some(front) = front_of(row.options, &words[at..]) {
        if is_named(front.name, &words[..at]) {
            return false;
        }
        at += front.words;
    }
    are_plain(row.plain, &words[at..])
}

/// Whether one of these words names the option of this name.
fn is_named(name: &str, words: &[String]) -> bool
    ensures { IsTrue result ↔ IsNamed name.now (map string_bytes words.now) }
{
    for word in words {
        if names_option(name, word.as_str()) {
            return true;
        }
    }
    false
}

/// Whether the word names the option of this name, with or without something behind `=`.
fn names_option(name: &str, word: &str) -> bool
    ensures { IsTrue result ↔ NamesOption name.now word.now }
{
    match tail_of(word, name) {
        Some(tail) => ends_name(tail),
        None => false,
    }
}

/// Whether an option's name ends where these bytes follow.
fn ends_name(tail: &[u8]) -> bool
    ensures { IsTrue result ↔ EndsName tail.now }
{
    tail.is_empty() || after(tail, b"=").is_some()
}

/// Whether the words are plain values within these bounds.
fn are_plain(bounds: PlainBounds, words: &[String]) -> bool
    ensures { IsTrue result ↔ ((plain : List ℕ) × ArePlain bounds plain (map string_bytes words.now)) }
{
    if words.len() < bounds.fewest || bounds.most < words.len() {
        return false;
    }
    for word in words {
        if !is_below(bounds.below, word.as_bytes()) {
            return false;
        }
    }
    true
}

/// Whether the word is a number below this one.
fn is_below(bound: u32, word: &[u8]) -> bool
    ensures { IsTrue result ↔ IsBelow bound word.now }
{
    match read_natural(word) {
        NaturalWord::Value(n) => n < u128::from(bound),
        NaturalWord::Large => false,
        NaturalWord::Not => false,
    }
}
