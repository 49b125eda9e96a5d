//! The numbers of the calls that fail.

ghost use Rattle.std.specs.Prelude.{◌↔◌, IsTrue, Contains};

/// Whether the call of this number is to fail.
pub(crate) fn is_failing(fails: &[u64], call: u64) -> bool
    ensures { IsTrue result ↔ Contains fails.now call }
{
    fails.contains(&call)
}
