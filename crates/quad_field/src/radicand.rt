//! Which numbers may stand under the root.

ghost use Rattle.std.specs.Prelude.{◌≤◌, ◌↔◌, IsTrue};
ghost use Rattle.quad_field.specs.FieldNumber.{IsSquareFree};

/// Whether no square above 1 divides d.
pub fn is_square_free(d: u32) -> bool
    requires some { 1 ≤ d }
    requires small { d ≤ 1000 }
    ensures { IsTrue result ↔ IsSquareFree d }
{
    let mut k: u32 = 2;
    while k * k <= d {
        if d % (k * k) == 0 {
            return false;
        }
        k += 1;
    }
    true
}
