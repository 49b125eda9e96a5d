//! The rows of the grammar of words.

/// The numbers that an option takes, and the one that stands where it isn't given.
#[derive(Clone, Copy, Debug)]
pub(crate) struct NumberBounds {
    pub(crate) least: u32,
    pub(crate) most: u32,
    pub(crate) unless_given: u32,
}

/// An option of a command: its name without the two hyphens, and the numbers that it takes, where it isn't a flag.
#[derive(Clone, Copy, Debug)]
pub(crate) struct OptionRow {
    pub(crate) name: &'static str,
    pub(crate) numbers: Option<NumberBounds>,
}

/// The plain values of a command: the fewest and the most, and the number below which each of them lies.
#[derive(Clone, Copy, Debug)]
pub(crate) struct PlainBounds {
    pub(crate) fewest: usize,
    pub(crate) most: usize,
    pub(crate) below: u32,
}

/// A row of the grammar: a command's word, its options and its plain values, which stand last.
#[derive(Clone, Copy, Debug)]
pub(crate) struct CommandRow {
    pub(crate) word: &'static str,
    pub(crate) options: &'static [OptionRow],
    pub(crate) plain: PlainBounds,
}
