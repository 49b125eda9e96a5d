//! The names of the causes of a refused file.

ghost use Rattle.std.specs.Prelude.{◌≡◌};
ghost use Rattle.answer_text.specs.Lines.{cause_name};

/// The name of a cause, as a refusal prints it. There is none past the last.
pub(crate) fn name_of(cause: u8) -> &'static [u8]
    ensures { result.now ≡ cause_name cause }
{
    match cause {
        0 => b"TooLong",
        1 => b"NoLine",
        2 => b"CutLine",
        3 => b"BadByte",
        4 => b"BadFirst",
        5 => b"BadKind",
        6 => b"BadForm",
        7 => b"BadNumber",
        8 => b"BadField",
        9 => b"BadBase",
        10 => b"ManyBases",
        11 => b"FewSides",
        12 => b"ManyPolygons",
        13 => b"BadName",
        14 => b"AfterEnd",
        15 => b"NotClosed",
        16 => b"Flat",
        17 => b"NotConvex",
        18 => b"Twice",
        19 => b"NotOpposite",
        20 => b"Unpaired",
        21 => b"ManyTriangles",
        22 => b"Apart",
        _ => b"",
    }
}
