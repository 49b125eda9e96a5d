//! The text of a code, and its numbers read from bytes.

ghost use Rattle.std.specs.Prelude.{◌≡◌, ◌≢◌, ℤ, ◌++◌, None, IfOk, IfErr, IfSome, OnOk};
ghost use Rattle.plane.specs.Spelling.{whole_text};
ghost use Rattle.quad_field.specs.Width.{FitsI128};
ghost use Rattle.canon_code.specs.CodeText.{spaced_text, numbers_text, Lists};
ghost use Rattle.canon_code.specs.TextReading.{FrontOf, IsTextFault};

use super::{Code, CodeFault};
use memchr::memchr;
use plane::{WholeWord, put_whole, read_whole};
use std::alloc::{AllocError, Global};

/// Appends whole numbers, each with a space before it.
fn put_spaced(alloc: Global, out: &mut Vec<u8>, numbers: &[i128]) -> Result<(), AllocError>
    ensures { OnOk result (out.new.items ≡ out.old.items ++ spaced_text numbers.now) }
{
    for n in numbers {
        out.push(b' ')?;
        put_whole(alloc, out, *n)?;
    }
    Ok(())
}

/// The numbers of a code in decimal, one space between.
pub fn code_text(alloc: Global, code: &Code) -> Result<Vec<u8>, AllocError>
    ensures { IfOk result (λ text. text.items ≡ numbers_text code.now) }
{
    let mut text = Vec::new(alloc);
    if let Some((first, others)) = code.numbers().split_first() {
        put_whole(alloc, &mut text, *first)?;
        put_spaced(alloc, &mut text, others)?;
    }
    Ok(text)
}

/// The bytes before the first space, or all of them, and what is left, which begins with the space.
fn front(bytes: &[u8]) -> (&[u8], &[u8])
    ensures { FrontOf bytes.now result.0.now result.1.now }
{
    match memchr(b' ', bytes) {
        Some(i) => bytes.split_at(i),
        None => bytes.split_at(bytes.len()),
    }
}

/// The whole number of 128 bits that a word spells, none where it spells none.
fn number_of(word: &[u8]) -> Option<i128>
    ensures number { IfSome result (λ n. (word.now ≡ whole_text n) × FitsI128 n) }
    ensures none { result ≡ None → (n : ℤ) → FitsI128 n → word.now ≢ whole_text n }
{
    match read_whole(word) {
        WholeWord::Value(n) => Some(n),
        WholeWord::Large => None,
        WholeWord::Not => None,
    }
}

/// The numbers that a text lists.
pub(crate) fn numbers_of(alloc: Global, text: &[u8]) -> Result<Vec<i128>, CodeFault>
    ensures numbers { IfOk result (λ numbers. Lists text.now numbers.items) }
    ensures fault { IfErr result (IsTextFault text.now) }
{
    let (word, mut rest) = front(text);
    let Some(first) = number_of(word) else {
        return Err(CodeFault::Form);
    };
    let mut numbers = Vec::new(alloc);
    numbers.push(first)?;
    'numbers: while let Some(behind) = rest.strip_prefix(b" ") {
        let (word, after) = front(behind);
        let Some(number) = number_of(word) else {
            return Err(CodeFault::Form);
        };
        numbers.push(number)?;
        rest = after;
    }
    Ok(numbers)
}
