//! The names of sides.

ghost use Rattle.surface_text.specs.Readings.{IsReading};
ghost use Rattle.surface_text.specs.Names.{IsNameOf, IsBoundedName};

use super::fronts::{Reading, front, natural};

/// The name `P.E` of a side.
#[derive(Clone, Copy, Debug, PartialEq, Eq)]
pub(crate) struct Name {
    pub p: u32,
    pub e: u32,
}

/// Reads the name `P.E` of a side.
pub(crate) fn name_of(text: &[u8]) -> Reading<Name>
    ensures { IsReading (IsNameOf text.now) IsBoundedName result }
{
    let (p, tail) = front(text, b'.');
    let Some(e) = tail.strip_prefix(b".") else {
        return Reading::Not;
    };
    match (natural(p), natural(e)) {
        (Reading::Not, _) | (_, Reading::Not) => Reading::Not,
        (Reading::Value(p), Reading::Value(e)) => Reading::Value(Name { p, e }),
        _ => Reading::Large,
    }
}
