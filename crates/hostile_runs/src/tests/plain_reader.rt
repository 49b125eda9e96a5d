//! A second reader of surface files, plain enough to be believed, and written from the table of refusals alone.
//!
//! It reads what comes of the square file where one byte is changed. That has no base line, no number with a root, and one polygon at
//! most: these would take more changes than one.

use std::alloc::{AllocError, Global};

/// Which line came last.
#[derive(Clone, Copy, Debug, PartialEq, Eq)]
enum Last {
    Nothing,
    First,
    Field,
    Sides,
    End,
}

/// What the lines say so far: the sides of the polygon, which stands in the third line, and the glued sides, two a line from the fourth.
#[derive(Drop)]
struct Said {
    last: Last,
    sides: Vec<(i64, i64)>,
    glues: Vec<(usize, usize)>,
}

/// Why a line isn't taken.
#[derive(Clone, Copy, Debug, PartialEq, Eq)]
enum Refused {
    Cause(u8),
    Memory,
}

const BAD_BYTE: Refused = Refused::Cause(3);

const BAD_FIRST: Refused = Refused::Cause(4);

const BAD_KIND: Refused = Refused::Cause(5);

const BAD_FORM: Refused = Refused::Cause(6);

const BAD_NUMBER: Refused = Refused::Cause(7);

const BAD_FIELD: Refused = Refused::Cause(8);

const FEW_SIDES: Refused = Refused::Cause(11);

const BAD_NAME: Refused = Refused::Cause(13);

/// The squares of the primes below 32.
const SQUARES: [i64; 11] = [4, 9, 25, 49, 121, 169, 289, 361, 529, 841, 961];

/// The name of a cause.
pub(super) fn name_of(cause: u8) -> &'static str {
    match cause {
        1 => "NoLine",
        2 => "CutLine",
        3 => "BadByte",
        4 => "BadFirst",
        5 => "BadKind",
        6 => "BadForm",
        7 => "BadNumber",
        8 => "BadField",
        11 => "FewSides",
        13 => "BadName",
        14 => "AfterEnd",
        15 => "NotClosed",
        16 => "Flat",
        17 => "NotConvex",
        18 => "Twice",
        19 => "NotOpposite",
        20 => "Unpaired",
        _ => "",
    }
}

/// The cause for which a file is refused, and its line; None where it is accepted.
pub(super) fn refusal(alloc: Global, file: &[u8]) -> Result<Option<(u8, usize)>, AllocError> {
    let ends = file.iter().filter(|byte| **byte == b'\n').count();
    let mut said = Said {
        last: Last::Nothing,
        sides: Vec::new(alloc),
        glues: Vec::new(alloc),
    };
    for (before, line) in file.split(|byte| *byte == b'\n').enumerate() {
        let number = before.saturating_add(1);
        let is_cut = before == ends;
        if said.last == Last::End {
            if is_cut && line.is_empty() {
                break;
            }
            return Ok(Some((14, number)));
        }
        if is_cut {
            let cause = if line.is_empty() { 1 } else { 2 };
            return Ok(Some((cause, number)));
        }
        match take_line(line, &mut said) {
            Ok(()) => {}
            Err(Refused::Cause(cause)) => return Ok(Some((cause, number))),
            Err(Refused::Memory) => return Err(AllocError),
        }
    }
    surface_refusal(alloc, &said)
}

/// Takes one line, without its end.
fn take_line(line: &[u8], said: &mut Said) -> Result<(), Refused> {
    if line.iter().any(|byte| *byte < 32 || 126 < *byte) {
        return Err(BAD_BYTE);
    }
    let Ok(text) = str::from_utf8(line) else {
        return Err(BAD_BYTE);
    };
    let word = text.split(' ').next().unwrap_or("");
    said.last = match (said.last, word) {
        (Last::Nothing, _) => take_first(text)?,
        (Last::First, "field") => take_field(text)?,
        (Last::Field, "polygon") => take_sides(text, &mut said.sides)?,
        (Last::Sides, "glue") => take_glue(text, said)?,
        (Last::Sides, "end") => take_end(text)?,
        _ => return Err(BAD_KIND),
    };
    Ok(())
}

fn take_first(text: &str) -> Result<Last, Refused> {
    if text == "flat 1" {
        Ok(Last::First)
    } else {
        Err(BAD_FIRST)
    }
}

fn take_end(text: &str) -> Result<Last, Refused> {
    if text == "end" {
        Ok(Last::End)
    } else {
        Err(BAD_FORM)
    }
}

fn take_field(text: &str) -> Result<Last, Refused> {
    let word = text.strip_prefix("field ").ok_or(BAD_FORM)?;
    let number = natural(word).ok_or(BAD_FORM)?;
    let has_square = SQUARES
        .iter()
        .any(|square| number.checked_rem(*square) == Some(0));
    if number < 2 || 1000 < number || has_square {
        return Err(BAD_FIELD);
    }
    Ok(Last::Field)
}

fn take_sides(text: &str, sides: &mut Vec<(i64, i64)>) -> Result<Last, Refused> {
    let words = text.strip_prefix("polygon ").ok_or(BAD_FORM)?;
    for word in words.split(' ') {
        let side = vector(word).ok_or(BAD_FORM)?;
        if sides.push(side).is_err() {
            return Err(Refused::Memory);
        }
    }
    if sides.iter().any(|(s, t)| is_large(*s) || is_large(*t)) {
        return Err(BAD_NUMBER);
    }
    if sides.len() < 3 {
        return Err(FEW_SIDES);
    }
    Ok(Last::Sides)
}

fn take_glue(text: &str, said: &mut Said) -> Result<Last, Refused> {
    let names = text.strip_prefix("glue ").ok_or(BAD_FORM)?;
    let (first, second) = names.split_once(' ').ok_or(BAD_FORM)?;
    let first = name(first).ok_or(BAD_FORM)?;
    let second = name(second).ok_or(BAD_FORM)?;
    let sides = said.sides.len();
    let first = side(first, sides).ok_or(BAD_NAME)?;
    let second = side(second, sides).ok_or(BAD_NAME)?;
    if said.glues.push((first, second)).is_err() {
        return Err(Refused::Memory);
    }
    Ok(Last::Sides)
}

/// A natural number; one that is too large for the type is its greatest.
fn natural(word: &str) -> Option<i64> {
    if word.is_empty() || (word.starts_with('0') && word != "0") {
        return None;
    }
    let mut number: i64 = 0;
    for byte in word.bytes() {
        if !byte.is_ascii_digit() {
            return None;
        }
        let digit = i64::from(byte.wrapping_sub(b'0'));
        number = number.saturating_mul(10).saturating_add(digit);
    }
    Some(number)
}

/// A whole number.
fn whole(word: &str) -> Option<i64> {
    let Some(digits) = word.strip_prefix('-') else {
        return natural(word);
    };
    match natural(digits) {
        Some(0) | None => None,
        Some(number) => Some(number.saturating_neg()),
    }
}

/// A vector of two whole numbers.
fn vector(word: &str) -> Option<(i64, i64)> {
    let (s, t) = word.split_once(',')?;
    Some((whole(s)?, whole(t)?))
}

/// The name of a side: the numbers of the polygon and of the side.
fn name(word: &str) -> Option<(i64, i64)> {
    let (polygon, side) = word.split_once('.')?;
    Some((natural(polygon)?, natural(side)?))
}

/// The side that is named, of so many of the one polygon.
fn side(name: (i64, i64), sides: usize) -> Option<usize> {
    let (polygon, side) = name;
    let side = usize::try_from(side).ok()?;
    if polygon == 0 && side < sides {
        Some(side)
    } else {
        None
    }
}

fn is_large(number: i64) -> bool {
    number < -1_000_000_000 || 1_000_000_000 < number
}

/// The cause for which the surface is refused, and its line.
fn surface_refusal(alloc: Global, said: &Said) -> Result<Option<(u8, usize)>, AllocError> {
    if let Some(cause) = polygon_cause(said.sides.as_slice()) {
        return Ok(Some((cause, 3)));
    }
    let mut named = Vec::new(alloc);
    for (before, (first, second)) in said.glues.iter().enumerate() {
        let line = before.saturating_add(4);
        if first == second || named.contains(first) || named.contains(second) {
            return Ok(Some((18, line)));
        }
        if !are_opposite(said.sides.get(*first), said.sides.get(*second)) {
            return Ok(Some((19, line)));
        }
        named.push(*first)?;
        named.push(*second)?;
    }
    if named.len() < said.sides.len() {
        return Ok(Some((20, 3)));
    }
    Ok(None)
}

/// The cause for which the polygon is refused.
fn polygon_cause(sides: &[(i64, i64)]) -> Option<u8> {
    let mut sum = (0i64, 0i64);
    for (s, t) in sides {
        sum = (sum.0.saturating_add(*s), sum.1.saturating_add(*t));
    }
    if sum != (0, 0) {
        return Some(15);
    }
    let after = sides.iter().cycle().skip(1);
    let mut is_flat = true;
    let mut is_convex = true;
    let mut rises = 0u32;
    for (side, next) in sides.iter().zip(after) {
        let turn = product(side.0, next.1).saturating_sub(product(side.1, next.0));
        let along = product(side.0, next.0).saturating_add(product(side.1, next.1));
        is_flat = is_flat && turn == 0;
        is_convex = is_convex && *side != (0, 0) && (0 < turn || (turn == 0 && 0 < along));
        if !is_upper(side) && is_upper(next) {
            rises = rises.saturating_add(1);
        }
    }
    if is_flat {
        Some(16)
    } else if !is_convex || rises != 1 {
        Some(17)
    } else {
        None
    }
}

fn product(x: i64, y: i64) -> i128 {
    i128::from(x).saturating_mul(i128::from(y))
}

/// Whether a vector points into the upper half: up, or along the first axis.
fn is_upper(vector: &(i64, i64)) -> bool {
    0 < vector.1 || (vector.1 == 0 && 0 < vector.0)
}

fn are_opposite(first: Option<&(i64, i64)>, second: Option<&(i64, i64)>) -> bool {
    match (first, second) {
        (Some(first), Some(second)) => {
            first.0.saturating_neg() == second.0 && first.1.saturating_neg() == second.1
        }
        _ => false,
    }
}
