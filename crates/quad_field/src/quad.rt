//! The numbers themselves.

/// The K-integer a + b·√D.
#[derive(Clone, Copy, Debug, PartialEq, Eq)]
pub struct Quad {
    /// The whole part.
    pub a: i128,
    /// How many times √D.
    pub b: i128,
}

/// The sign of a real number.
#[derive(Clone, Copy, Debug, PartialEq, Eq)]
pub enum Sign {
    Minus,
    Zero,
    Plus,
}

/// A step of the operation lies outside i128.
#[derive(Clone, Copy, Debug, PartialEq, Eq)]
pub struct TooWide;
