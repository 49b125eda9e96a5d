//! The causes of a refusal.

ghost use Rattle.std.specs.Prelude.{◌≡◌};
ghost use Rattle.surface_text.specs.Causes.{number_of};

/// Why a text is refused at a line.
#[derive(Clone, Copy, Debug, PartialEq, Eq)]
pub(crate) enum Cause {
    /// The input ends where a line is wanted.
    NoLine,
    /// Bytes are left, and none of them is a line feed.
    CutLine,
    /// The line has a byte outside 32 to 126.
    BadByte,
    /// The first line isn't `flat 1`.
    BadFirst,
    /// The line's first word may not stand there.
    BadKind,
    /// The line isn't in the form for its word.
    BadForm,
    /// A number of a base or polygon line is above 1,000,000,000 in absolute value.
    BadNumber,
    /// The number of the field isn't square-free from 2 to 1000.
    BadField,
    /// A base point has Y <= X·X.
    BadBase,
    /// The line is the ninth base line.
    ManyBases,
    /// A polygon line has fewer than three vectors.
    FewSides,
    /// The line is the 257th polygon line.
    ManyPolygons,
    /// A glue line names a polygon or a side that isn't there.
    BadName,
    /// Bytes stand after the `end` line.
    AfterEnd,
}

impl Cause {
    /// Its number, from 1.
    pub(crate) fn number(self) -> u8
        ensures { result ≡ number_of self }
    {
        match self {
            Cause::NoLine => 1,
            Cause::CutLine => 2,
            Cause::BadByte => 3,
            Cause::BadFirst => 4,
            Cause::BadKind => 5,
            Cause::BadForm => 6,
            Cause::BadNumber => 7,
            Cause::BadField => 8,
            Cause::BadBase => 9,
            Cause::ManyBases => 10,
            Cause::FewSides => 11,
            Cause::ManyPolygons => 12,
            Cause::BadName => 13,
            Cause::AfterEnd => 14,
        }
    }
}
