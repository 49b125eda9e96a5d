//! Words of a text as numbers and vectors, read in their one spelling.

ghost use Rattle.std.specs.Prelude.{◌≡◌, ◌≢◌, ◌↔◌, ℕ, ◌<◌, ◌+◌, ◌*◌, ◌^◌, ℤ, None, SomeIff, MatchOption, IsTrue, length, slice_index};
ghost use Rattle.quad_field.specs.Width.{FitsI128, PartsFit};
ghost use Rattle.quad_field.specs.declared.quad.Quad.{Quad as QuadValue};
ghost use Rattle.plane.specs.declared.vec2.Vec2.{Vec2 as VectorValue};
ghost use Rattle.plane.specs.Spelling.{natural_text, whole_text, root_text, quad_text, vector_text};
ghost use Rattle.plane.specs.Reading.{IsNaturalRead, IsWholeRead, IsQuadRead, IsVectorRead, IsNonnegative, IsPositive, IsNegative, EndsAtSign, EndsAtComma};

use super::Vec2;
use quad_field::Quad;

/// What a word is as a natural number.
#[derive(Clone, Copy, Debug, PartialEq, Eq)]
pub enum NaturalWord {
    /// This number.
    Value(u128),
    /// A natural number of 2^128 or more.
    Large,
    /// No natural number in its spelling.
    Not,
}

/// What a word is as a whole number.
#[derive(Clone, Copy, Debug, PartialEq, Eq)]
pub enum WholeWord {
    /// This whole number.
    Value(i128),
    /// A whole number outside i128.
    Large,
    /// No whole number in its spelling.
    Not,
}

/// What a word is as a K-integer.
#[derive(Clone, Copy, Debug, PartialEq, Eq)]
pub enum QuadWord {
    /// This K-integer.
    Value(Quad),
    /// A K-integer with a part outside i128.
    Large,
    /// No K-integer in its spelling.
    Not,
}

/// What a word is as a vector.
#[derive(Clone, Copy, Debug, PartialEq, Eq)]
pub enum VectorWord {
    /// This vector.
    Value(Vec2),
    /// A vector with a part of a coordinate outside i128.
    Large,
    /// No vector in its spelling.
    Not,
}

/// A zero stands before other bytes.
fn has_leading_zero(word: &[u8]) -> bool
    ensures { IsTrue result ↔ ((slice_index word.now 0 ≡ 48) × (1 < length word.now)) }
{
    word.len() > 1 && word[0] == b'0'
}

/// The number with one digit more, or None from 2^128 on.
fn with_digit(value: Option<u128>, digit: u8) -> Option<u128>
    ensures { MatchOption value (result ≡ None) (λ n. SomeIff result (n * 10 + digit < 2 ^ 128) (n * 10 + digit)) }
{
    value?.checked_mul(10)?.checked_add(u128::from(digit))
}

/// Reads a natural number, all of the word.
pub fn read_natural(word: &[u8]) -> NaturalWord
    ensures value { (n : ℕ) → (result ≡ NaturalWord.Value n) ↔ ((word.now ≡ natural_text n) × (n < 2 ^ 128)) }
    ensures large { (result ≡ NaturalWord.Large) ↔ ((n : ℕ) × (word.now ≡ natural_text n) × ¬ (n < 2 ^ 128)) }
    ensures not { (result ≡ NaturalWord.Not) ↔ ((n : ℕ) → word.now ≢ natural_text n) }
{
    natural_of(word)
}

/// The same, case by case.
fn natural_of(word: &[u8]) -> NaturalWord
    ensures { IsNaturalRead word.now result }
{
    if word.is_empty() {
        return NaturalWord::Not;
    }
    if has_leading_zero(word) {
        return NaturalWord::Not;
    }
    let mut value = Some(0);
    for byte in word {
        if !byte.is_ascii_digit() {
            return NaturalWord::Not;
        }
        value = with_digit(value, *byte - b'0');
    }
    match value {
        Some(n) => NaturalWord::Value(n),
        None => NaturalWord::Large,
    }
}

/// Reads the digits of a whole number that isn't below 0.
fn read_nonnegative(digits: &[u8]) -> WholeWord
    ensures { IsWholeRead (IsNonnegative digits.now) result }
{
    match natural_of(digits) {
        NaturalWord::Value(n) if n <= i128::MAX as u128 => WholeWord::Value(n as i128),
        NaturalWord::Not => WholeWord::Not,
        _ => WholeWord::Large,
    }
}

/// Reads the digits of a whole number above 0.
fn read_positive(digits: &[u8]) -> WholeWord
    ensures { IsWholeRead (IsPositive digits.now) result }
{
    match read_nonnegative(digits) {
        WholeWord::Value(n) if n == 0 => WholeWord::Not,
        WholeWord::Value(n) => WholeWord::Value(n),
        WholeWord::Large => WholeWord::Large,
        WholeWord::Not => WholeWord::Not,
    }
}

/// Reads the digits of a whole number below 0.
fn read_negative(digits: &[u8]) -> WholeWord
    ensures { IsWholeRead (IsNegative digits.now) result }
{
    match natural_of(digits) {
        NaturalWord::Not => WholeWord::Not,
        NaturalWord::Value(n) if n == 0 => WholeWord::Not,
        NaturalWord::Value(n) if n <= i128::MAX as u128 => WholeWord::Value(-(n as i128)),
        NaturalWord::Value(n) if n == i128::MAX as u128 + 1 => WholeWord::Value(i128::MIN),
        _ => WholeWord::Large,
    }
}

/// The first byte is this one.
fn starts_with(word: &[u8], byte: u8) -> bool
    ensures { IsTrue result ↔ ((0 < length word.now) × (slice_index word.now 0 ≡ byte)) }
{
    !word.is_empty() && word[0] == byte
}

/// Reads a whole number, all of the word.
pub fn read_whole(word: &[u8]) -> WholeWord
    ensures value { (n : ℤ) → (result ≡ WholeWord.Value n) ↔ ((word.now ≡ whole_text n) × FitsI128 n) }
    ensures large { (result ≡ WholeWord.Large) ↔ ((n : ℤ) × (word.now ≡ whole_text n) × ¬ (FitsI128 n)) }
    ensures not { (result ≡ WholeWord.Not) ↔ ((n : ℤ) → word.now ≢ whole_text n) }
{
    whole_of(word)
}

/// The same, case by case.
fn whole_of(word: &[u8]) -> WholeWord
    ensures { IsWholeRead (λ n. word.now ≡ whole_text n) result }
{
    if starts_with(word, b'-') {
        read_negative(&word[1..])
    } else {
        read_nonnegative(word)
    }
}

/// Reads how many times √D, all of the word.
fn read_root(word: &[u8]) -> WholeWord
    ensures { IsWholeRead (λ n. word.now ≡ root_text n) result }
{
    if word.is_empty() {
        return WholeWord::Value(0);
    }
    let last = word.len() - 1;
    if last == 0 {
        return WholeWord::Not;
    }
    if word[last] != b'r' {
        return WholeWord::Not;
    }
    match word[0] {
        b'+' => read_positive(&word[1..last]),
        b'-' => read_negative(&word[1..last]),
        _ => WholeWord::Not,
    }
}

/// Where the first sign behind the first byte stands, or the length.
fn sign_place(word: &[u8]) -> usize
    ensures { EndsAtSign word.now result }
{
    for (i, byte) in word.iter().enumerate() {
        if i > 0 && (*byte == b'+' || *byte == b'-') {
            return i;
        }
    }
    word.len()
}

/// Reads a K-integer, all of the word.
pub fn read_quad(word: &[u8]) -> QuadWord
    ensures value { (x : QuadValue) → (result ≡ QuadWord.Value x) ↔ ((word.now ≡ quad_text x) × PartsFit x) }
    ensures large { (result ≡ QuadWord.Large) ↔ ((x : QuadValue) × (word.now ≡ quad_text x) × ¬ (PartsFit x)) }
    ensures not { (result ≡ QuadWord.Not) ↔ ((x : QuadValue) → word.now ≢ quad_text x) }
{
    quad_of(word)
}

/// The same, case by case.
fn quad_of(word: &[u8]) -> QuadWord
    ensures { IsQuadRead word.now result }
{
    let end = sign_place(word);
    let (front, back) = word.split_at(end);
    match (whole_of(front), read_root(back)) {
        (WholeWord::Value(a), WholeWord::Value(b)) => QuadWord::Value(Quad { a, b }),
        (WholeWord::Not, _) | (_, WholeWord::Not) => QuadWord::Not,
        _ => QuadWord::Large,
    }
}

/// Where the first comma stands, or the length.
fn comma_place(word: &[u8]) -> usize
    ensures { EndsAtComma word.now result }
{
    for (i, byte) in word.iter().enumerate() {
        if *byte == b',' {
            return i;
        }
    }
    word.len()
}

/// Reads a vector, all of the word.
pub fn read_vector(word: &[u8]) -> VectorWord
    ensures value { (v : VectorValue) → (result ≡ VectorWord.Value v)
        ↔ ((word.now ≡ vector_text v) × PartsFit v.s × PartsFit v.t) }
    ensures large { (result ≡ VectorWord.Large)
        ↔ ((v : VectorValue) × (word.now ≡ vector_text v) × ¬ (PartsFit v.s × PartsFit v.t)) }
    ensures not { (result ≡ VectorWord.Not) ↔ ((v : VectorValue) → word.now ≢ vector_text v) }
{
    vector_of(word)
}

/// The same, case by case.
fn vector_of(word: &[u8]) -> VectorWord
    ensures { IsVectorRead word.now result }
{
    let end = comma_place(word);
    if end == word.len() {
        return VectorWord::Not;
    }
    let s = quad_of(&word[..end]);
    let t = quad_of(&word[end + 1..]);
    match (s, t) {
        (QuadWord::Value(s), QuadWord::Value(t)) => VectorWord::Value(Vec2 { s, t }),
        (QuadWord::Not, _) | (_, QuadWord::Not) => VectorWord::Not,
        _ => VectorWord::Large,
    }
}
