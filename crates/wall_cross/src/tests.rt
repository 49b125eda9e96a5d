//! The square torus, crossed through one of its walls and back; each wall of larger surfaces is crossed where walls are found.

ghost use Rattle.std.specs.Prelude.{◌≡◌, pos, [], ◌∷◌, IfOk};
ghost use Rattle.quad_field.specs.Quads.{quad};
ghost use Rattle.tri_core.specs.Triangulation.{IsTriangulation};
ghost use Rattle.hinge_form.specs.Walls.{IsWall};

use super::{cross, cross_back, cross_in_place};
use hinge_form::{Form, Wall};
use plane::Vec2;
use quad_field::{Field, Quad};
use std::alloc::{AllocError, Global};
use std::test::Fail;
use tri_core::{Half, Tri};

/// A half-edge as the whole coordinates of its vector, and the number of its twin.
type Row = (i128, i128, u32);

/// The square torus: its edge 2 is a wall alone, on the line x = 0.
const TORUS: [Row; 6] = [
    (0, -1, 4),
    (1, 0, 5),
    (-1, 1, 3),
    (1, -1, 2),
    (0, 1, 0),
    (-1, 0, 1),
];

/// Across that wall.
const ACROSS: [Row; 6] = [
    (-1, 0, 4),
    (0, -1, 5),
    (1, 1, 3),
    (-1, -1, 2),
    (1, 0, 0),
    (0, 1, 1),
];

/// And back: the torus again, with its triangles exchanged.
const BACK: [Row; 6] = [
    (0, 1, 4),
    (-1, 0, 5),
    (1, -1, 3),
    (-1, 1, 2),
    (0, -1, 0),
    (1, 0, 1),
];

fn whole(a: i128) -> Quad
    ensures { result ≡ quad a (pos 0) }
{
    Quad { a, b: 0 }
}

fn half(row: Row) -> Half
    ensures { result ≡ record { vec = record { s = quad row.0 (pos 0); t = quad row.1 (pos 0) }; twin = row.2 } }
{
    let (s, t, twin) = row;
    Half {
        vec: Vec2 {
            s: whole(s),
            t: whole(t),
        },
        twin,
    }
}

/// The torus over the field of √2.
fn torus(alloc: Global, f: &Field) -> Result<Tri, Fail>
    requires { f.now ≡ 2 }
    ensures field { IfOk result (λ tri. tri.field ≡ f.now) }
    ensures valid { IfOk result (λ tri. IsTriangulation tri.field tri.halves) }
    ensures wall { IfOk result (λ tri. IsWall tri.field tri.halves (quad (pos 0) (pos 0), quad (pos 1) (pos 0), quad (pos 0) (pos 0)) (2 ∷ [])) }
{
    f.number();
    let halves = vec![in alloc;
        half(TORUS[0]),
        half(TORUS[1]),
        half(TORUS[2]),
        half(TORUS[3]),
        half(TORUS[4]),
        half(TORUS[5]),
    ]?;
    Ok(Tri::make(alloc, f, halves)?)
}

/// Its wall.
fn upright(alloc: Global) -> Result<Wall, AllocError>
    ensures form { IfOk result (λ wall. wall.form ≡ record { alpha = quad (pos 0) (pos 0); beta = quad (pos 1) (pos 0); gamma = quad (pos 0) (pos 0) }) }
    ensures edges { IfOk result (λ wall. wall.edges.items ≡ 2 ∷ []) }
{
    let edges = vec![in alloc; 2]?;
    let form = Form {
        alpha: whole(0),
        beta: whole(1),
        gamma: whole(0),
    };
    Ok(Wall { form, edges })
}

/// Whether these are its half-edges.
fn has_rows(tri: &Tri, rows: &[Row; 6]) -> bool {
    if tri.triangles() != 2 {
        return false;
    }
    for h in 0..6 {
        if *tri.half(h) != half(rows[h as usize]) {
            return false;
        }
    }
    true
}

#[test]
fn crosses_a_wall_of_the_square_torus(rt: HostRuntime) -> Result<(), Fail> {
    let f = Field::make(2).ok_or("2 is square-free")?;
    let mut tri = torus(rt.alloc(), &f)?;
    let wall = upright(rt.alloc())?;
    let crossed = cross(rt.alloc(), &f, &tri, &wall)?;
    assert!(rt; has_rows(&crossed, &ACROSS));
    let back = cross_back(rt.alloc(), &f, &crossed, &wall)?;
    assert!(rt; has_rows(&back, &BACK));
    cross_in_place(&f, &mut tri, &wall)?;
    assert!(rt; has_rows(&tri, &ACROSS));
    Ok(())
}
