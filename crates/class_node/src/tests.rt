//! The one class of the square torus, by hand.

ghost use Rattle.std.specs.Prelude.{◌≡◌, IfOk};

use super::{ClassFault, ClassTerrain};
use canon_code::Code;
use delaunay_flip::{Base, base_of, standard_points};
use plane::{Mat2, Vec2};
use quad_field::{Field, Formula, Quad};
use std::alloc::{AllocError, Global};
use std::cmp::Ordering;
use std::test::Fail;
use terrain::{Stop, Terrain};
use tri_core::{Half, Tri};

/// A half-edge as the whole coordinates of its vector, and the number of its twin.
type Row = (i128, i128, u32);

/// The square torus, strictly Delaunay at the second standard point.
const TORUS: [Row; 6] = [
    (0, -1, 4),
    (1, 0, 5),
    (-1, 1, 3),
    (1, -1, 2),
    (0, 1, 0),
    (-1, 0, 1),
];

/// Its code.
const CODE: [i128; 24] = [
    2, 1, 1, 0, 0, 0, 0, 0, 1, 0, 3, 4, 5, -1, 0, 0, 0, 0, 0, -1, 0, 0, 1, 2,
];

/// The frames of the crossed triangulations, by walls.
const LINKS: [[i128; 4]; 3] = [[-1, 1, -2, 1], [-1, 2, -1, 1], [0, 1, -1, 0]];

/// The frames of the starts of the canonical triangulation.
const TURNS: [[i128; 4]; 6] = [
    [1, 0, 0, 1],
    [0, -1, 1, -1],
    [-1, 1, -1, 0],
    [-1, 0, 0, -1],
    [0, 1, -1, 1],
    [1, -1, 1, 0],
];

const fn whole(a: i128) -> Quad {
    Quad { a, b: 0 }
}

fn halves(alloc: Global, rows: &[Row]) -> Result<Vec<Half>, AllocError> {
    let mut halves = Vec::new(alloc);
    for (s, t, twin) in rows.iter().copied() {
        let vec = Vec2 {
            s: whole(s),
            t: whole(t),
        };
        halves.push(Half { vec, twin })?;
    }
    Ok(halves)
}

/// The base of the torus at the second standard point.
fn torus(alloc: Global, f: &Field) -> Result<Base, Fail>
    ensures { IfOk result (λ base. base.tri.field ≡ f.now) }
{
    let Ok(tri) = Tri::make(alloc, f, halves(alloc, &TORUS)?) else {
        return Err("no triangulation".into());
    };
    match base_of(alloc, f, &tri, &standard_points()[1], 10) {
        Ok(base) => Ok(base),
        Err(_) => Err("no base".into()),
    }
}

/// Whether a matrix has these whole numbers by rows, over 1.
fn is_whole(m: &Mat2, rows: &[i128; 4]) -> bool {
    let [a, b, c, d] = *rows;
    m.denominator() == 1 && m.entries() == &[whole(a), whole(b), whole(c), whole(d)]
}

/// Whether the code is that of the torus.
fn is_torus(code: &Code) -> bool {
    code.numbers() == CODE.as_slice()
}

#[test]
fn the_torus_has_one_class_with_three_walls(rt: HostRuntime) -> Result<(), Fail> {
    let f = Field::make(2).ok_or("2 is square-free")?;
    let terrain = ClassTerrain::make(f);
    let base = torus(rt.alloc(), &f)?;
    let Ok((code, frame)) = terrain.root(rt.alloc(), &base) else {
        return Err("no root".into());
    };
    assert!(rt; is_torus(&code));
    assert!(rt; is_whole(&frame, &[0, 1, -1, 0]));
    let Ok(count) = terrain.walls(rt.alloc(), &code) else {
        return Err("no walls".into());
    };
    assert_eq!(rt; count, 3);
    for wall in 0..count {
        let Ok((target, link)) = terrain.cross(rt.alloc(), &code, wall) else {
            return Err("no crossing".into());
        };
        assert!(rt; is_torus(&target));
        assert!(rt;
            LINKS
                .get(wall as usize)
                .is_some_and(|rows| is_whole(&link, rows))
        );
        assert_eq!(rt; terrain.compare(&code, &target), Ordering::Equal);
    }
    Ok(())
}

#[test]
fn the_walls_of_the_torus_are_found_once(rt: HostRuntime) -> Result<(), Fail> {
    let f = Field::make(2).ok_or("2 is square-free")?;
    let terrain = ClassTerrain::make(f);
    let base = torus(rt.alloc(), &f)?;
    let Ok((code, _)) = terrain.root(rt.alloc(), &base) else {
        return Err("no root".into());
    };
    let Ok((count, walls)) = terrain.find_walls(rt.alloc(), &code) else {
        return Err("no walls".into());
    };
    assert_eq!(rt; count, 3);
    for wall in 0..count {
        let Ok((target, link)) = terrain.cross_found(rt.alloc(), &code, &walls, wall) else {
            return Err("no crossing".into());
        };
        assert!(rt; is_torus(&target));
        assert!(rt;
            LINKS
                .get(wall as usize)
                .is_some_and(|rows| is_whole(&link, rows))
        );
    }
    Ok(())
}

#[test]
fn the_torus_has_six_turns(rt: HostRuntime) -> Result<(), Fail> {
    let f = Field::make(2).ok_or("2 is square-free")?;
    let terrain = ClassTerrain::make(f);
    let base = torus(rt.alloc(), &f)?;
    let Ok((code, _)) = terrain.root(rt.alloc(), &base) else {
        return Err("no root".into());
    };
    let Ok(turns) = terrain.turns(rt.alloc(), &code) else {
        return Err("no turns".into());
    };
    assert_eq!(rt; turns.len(), 6);
    for (turn, rows) in turns.iter().zip(TURNS.iter()) {
        assert!(rt; is_whole(turn, rows));
    }
    assert_eq!(rt; terrain.shard_of(&code), 5);
    assert!(rt; is_torus(&terrain.copy_key(rt.alloc(), &code)?));
    let fault = ClassFault {
        formula: Formula::F12,
        wall: Some(2),
    };
    assert_eq!(rt; terrain.copy_fault(&fault), fault);
    Ok(())
}
