//! The grammar of words, a row a command.

use super::rows::{CommandRow, NumberBounds, OptionRow, PlainBounds};

/// How many flips a point is given.
pub(crate) const FLIPS: OptionRow = OptionRow {
    name: "flips",
    numbers: Some(NumberBounds {
        least: 1,
        most: 1_000_000,
        unless_given: 100_000,
    }),
};

/// How many classes may be reached.
pub(crate) const LIMIT: OptionRow = OptionRow {
    name: "limit",
    numbers: Some(NumberBounds {
        least: 1,
        most: 2048,
        unless_given: 1024,
    }),
};

/// How many workers share the exploration.
pub(crate) const WORKERS: OptionRow = OptionRow {
    name: "workers",
    numbers: Some(NumberBounds {
        least: 1,
        most: 16,
        unless_given: 4,
    }),
};

/// A flag: the summary is printed in place of the report.
pub(crate) const SUMMARY: OptionRow = OptionRow {
    name: "summary",
    numbers: None,
};

/// No plain values.
const NO_PLAIN: PlainBounds = PlainBounds {
    fewest: 0,
    most: 0,
    below: 0,
};

/// The number of a surface.
const ONE_NUMBER: PlainBounds = PlainBounds {
    fewest: 1,
    most: 1,
    below: 200,
};

/// `check`.
pub(crate) const CHECK: CommandRow = CommandRow {
    word: "check",
    options: &[],
    plain: NO_PLAIN,
};

/// `base [--flips N]`.
pub(crate) const BASE: CommandRow = CommandRow {
    word: "base",
    options: &[FLIPS],
    plain: NO_PLAIN,
};

/// `region [--flips N]`.
pub(crate) const REGION: CommandRow = CommandRow {
    word: "region",
    options: &[FLIPS],
    plain: NO_PLAIN,
};

/// `path [--flips N] [CHOICE]...`.
pub(crate) const PATH: CommandRow = CommandRow {
    word: "path",
    options: &[FLIPS],
    plain: PlainBounds {
        fewest: 0,
        most: 4096,
        below: 1000,
    },
};

/// `plain [--flips N] [--limit K] [--summary]`.
pub(crate) const PLAIN: CommandRow = CommandRow {
    word: "plain",
    options: &[FLIPS, LIMIT, SUMMARY],
    plain: NO_PLAIN,
};

/// `group [--flips N] [--limit K] [--workers W]`.
pub(crate) const GROUP: CommandRow = CommandRow {
    word: "group",
    options: &[FLIPS, LIMIT, WORKERS],
    plain: NO_PLAIN,
};

/// `make N`.
pub(crate) const MAKE: CommandRow = CommandRow {
    word: "make",
    options: &[],
    plain: ONE_NUMBER,
};

/// `trial [--flips N] [--limit K] N`.
pub(crate) const TRIAL: CommandRow = CommandRow {
    word: "trial",
    options: &[FLIPS, LIMIT],
    plain: ONE_NUMBER,
};
