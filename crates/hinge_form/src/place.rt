//! Places of the half-plane.

ghost use Rattle.std.specs.Prelude.{◌≡◌, ℕ, pos, ◌*ℤ◌};
ghost use Rattle.quad_field.specs.FieldNumber.{IsFieldNumber};
ghost use Rattle.quad_field.specs.Quads.{quad};
ghost use Rattle.surface_text.specs.Limits.{IsBasePoint};
ghost use Rattle.hinge_form.specs.Triples.{of_place};
ghost use Rattle.hinge_form.specs.Hinges.{place_at, IsHalfPlanePoint};

use quad_field::Quad;
use surface_text::Point;

/// A place (w, x, y), three K-integers. With w > 0 and w·y > x² it is a half-plane point:
/// it stands for the complex number with real part x/w and squared absolute value y/w.
#[derive(Clone, Copy, Debug, PartialEq, Eq)]
pub struct Place3 {
    pub w: Quad,
    pub x: Quad,
    pub y: Quad,
}

/// The product of two whole numbers, as a K-integer.
fn whole(n: i64, m: i64) -> Quad
    ensures { result ≡ quad (n *ℤ m) (pos 0) }
{
    Quad {
        a: i128::from(n) * i128::from(m),
        b: 0,
    }
}

/// The place of a base point X = xn/xd, Y = yn/yd: (xd·yd, xn·yd, yn·xd), a half-plane point in every field.
pub fn place_of(at: &Point) -> Place3
    requires { IsBasePoint at.now }
    ensures place { of_place result ≡ place_at at.now }
    ensures inside { (d : ℕ) → IsFieldNumber d → IsHalfPlanePoint d (of_place result) }
{
    Place3 {
        w: whole(at.xd, at.yd),
        x: whole(at.xn, at.yd),
        y: whole(at.yn, at.xd),
    }
}
