//! Small graphs by hand.

ghost use Rattle.std.specs.Prelude.{◌≡◌, IfSome};
ghost use Rattle.rings.specs.Matrices.{matrix_det};
ghost use Rattle.quad_field.specs.Quads.{quad_ops, IsZero};

use super::{Group, QuotientFault, quotient};
use plane::{Mat2, Vec2, det};
use quad_field::{Field, Formula, Quad, Sign};
use std::alloc::{AllocError, Global};
use std::cmp::Ordering;
use std::test::Fail;
use terrain::{Graph, Lead, Numbers, Stop, Stuck, Terrain, TwoWalls};

/// A terrain whose keys have two walls each, all of them stuck, so that its graphs are made by hand.
struct Walled;

impl Numbers for Walled {
    ghost use Rattle.std.specs.Prelude.{[]};

    ghost numbers = { λ _. [] };

    ghost apart = { λ x y e i. x };
}

impl Terrain for Walled {
    type Key = u32;

    type Link = Mat2;

    type Fault = Stuck;

    type Walls = TwoWalls;

    ghost use Rattle.std.specs.Prelude.{◌≡◌, ⊤};
    ghost use Rattle.std.specs.Ordering.{int_cmp};
    ghost use Rattle.std.specs.Cmp.Lexicographic.{slice_cmp};
    ghost use Rattle.terrain.specs.Rings.{HasTwo, ring_shard};
    ghost use Rattle.terrain.specs.RingLaws as laws;

    ghost is_own = { λ t k. ⊤ };

    ghost has_walls = { HasTwo };

    ghost are_walls = { λ t k walls. ⊤ };

    ghost leads = { λ t k w d g. ⊥ };

    ghost is_stuck = { λ t k f. ⊥ };

    ghost is_stuck_at = { λ t k w f. ⊤ };

    ghost order = { slice_cmp int_cmp };

    ghost shard = { ring_shard };

    ghost own_proofs_agree = { λ t k a b i. a };

    ghost walls_proofs_agree = { laws.walls_proofs_agree };

    ghost leads_proofs_agree = { λ t k w d g a b. absurd a };

    ghost walls_agree = { laws.walls_agree };

    ghost walls_few = { laws.walls_few };

    ghost leads_agree = { λ t k w d e g h a b. absurd a };

    ghost leads_own = { λ t k n w d g a b c e. absurd e };

    ghost order_total = { laws.order_total };

    ghost order_exact = { laws.order_exact };

    ghost shard_low = { laws.shard_low };

    fn walls(&self, _alloc: Global, _key: &u32) -> Result<u32, Stop<Stuck>> {
        Ok(2)
    }

    fn cross(&self, _alloc: Global, _key: &u32, _wall: u32) -> Result<(u32, Mat2), Stop<Stuck>> {
        Err(Stop::Fault(Stuck))
    }

    fn find_walls(&self, _alloc: Global, _key: &u32) -> Result<(u32, TwoWalls), Stop<Stuck>> {
        Ok((2, TwoWalls))
    }

    fn cross_found(
        &self,
        _alloc: Global,
        _key: &u32,
        _walls: &TwoWalls,
        _wall: u32,
    ) -> Result<(u32, Mat2), Stop<Stuck>> {
        Err(Stop::Fault(Stuck))
    }

    fn copy_key(&self, _alloc: Global, key: &u32) -> Result<u32, AllocError> {
        Ok(*key)
    }

    fn copy_fault(&self, _fault: &Stuck) -> Stuck {
        Stuck
    }

    fn compare(&self, one: &u32, two: &u32) -> Ordering {
        one.cmp(two)
    }

    fn shard_of(&self, key: &u32) -> u32 {
        *key % 16
    }
}

/// The whole numbers of a matrix by rows, and its denominator.
type Numbered = ([i128; 4], i128);

/// What comes of a small graph.
type Answer = Result<Result<Group, QuotientFault>, Fail>;

const fn whole(a: i128) -> Quad {
    Quad { a, b: 0 }
}

fn over_one(n: &[i128; 4]) -> Mat2 {
    let [a, b, c, d] = *n;
    Mat2::reduced([whole(a), whole(b), whole(c), whole(d)], 1)
}

/// The matrix of these numbers, unless its determinant is zero or wide.
fn invertible(f: &Field, n: &[i128; 4]) -> Option<Mat2>
    ensures { IfSome result (λ m. ¬ (IsZero (matrix_det (quad_ops f.now) m.rows))) }
{
    let m = over_one(n);
    let entries = m.entries();
    let first = Vec2 {
        s: entries[0],
        t: entries[1],
    };
    let second = Vec2 {
        s: entries[2],
        t: entries[3],
    };
    let Ok(determinant) = det(f, &first, &second) else {
        return None;
    };
    if f.sign(determinant) == Sign::Zero {
        return None;
    }
    Some(m)
}

fn matrices(alloc: Global, list: &[[i128; 4]]) -> Result<Vec<Mat2>, AllocError> {
    let mut matrices = Vec::new(alloc);
    for n in list {
        matrices.push(over_one(n))?;
    }
    Ok(matrices)
}

/// Place 0 with three leads back to it.
fn one_place(
    alloc: Global,
    f: &Field,
    root: &[i128; 4],
    links: &[[i128; 4]; 3],
    turns: &[[i128; 4]],
) -> Answer {
    let Some(first) = invertible(f, root) else {
        return Err("the root's determinant is zero".into());
    };
    let (Some(a), Some(b), Some(c)) = (
        invertible(f, &links[0]),
        invertible(f, &links[1]),
        invertible(f, &links[2]),
    ) else {
        return Err("a link's determinant is zero".into());
    };
    let row = vec![in alloc;
        Lead { to: 0, link: a },
        Lead { to: 0, link: b },
        Lead { to: 0, link: c },
    ]?;
    let graph: Graph<Walled> = Graph {
        keys: vec![in alloc; 0]?,
        leads: vec![in alloc; row]?,
        root: 0,
    };
    let turns = vec![in alloc; matrices(alloc, turns)?]?;
    Ok(quotient(alloc, f, &graph, &first, &turns))
}

/// Place 0 with a lead to place 1 and one back to it, and place 1 with a lead to place 0.
fn two_places(
    alloc: Global,
    f: &Field,
    root: &[i128; 4],
    links: &[[i128; 4]; 3],
    turns: [&[[i128; 4]]; 2],
) -> Answer {
    let Some(first) = invertible(f, root) else {
        return Err("the root's determinant is zero".into());
    };
    let (Some(a), Some(b), Some(c)) = (
        invertible(f, &links[0]),
        invertible(f, &links[1]),
        invertible(f, &links[2]),
    ) else {
        return Err("a link's determinant is zero".into());
    };
    let from_first = vec![in alloc; Lead { to: 1, link: a }, Lead { to: 0, link: b }]?;
    let from_second = vec![in alloc; Lead { to: 0, link: c }]?;
    let graph: Graph<Walled> = Graph {
        keys: vec![in alloc; 0, 1]?,
        leads: vec![in alloc; from_first, from_second]?,
        root: 0,
    };
    let turns = vec![in alloc; matrices(alloc, turns[0])?, matrices(alloc, turns[1])?]?;
    Ok(quotient(alloc, f, &graph, &first, &turns))
}

/// Whether matrices have these numbers.
fn are(matrices: &[Mat2], numbers: &[Numbered]) -> bool {
    matrices.len() == numbers.len()
        && matrices.iter().zip(numbers).all(|(m, (n, den))| {
            let [a, b, c, d] = *n;
            m.denominator() == *den && m.entries() == &[whole(a), whole(b), whole(c), whole(d)]
        })
}

#[test]
fn the_square_torus(rt: HostRuntime) -> Result<(), Fail> {
    let Some(f) = Field::make(2) else {
        return Err("a field".into());
    };
    let links = [[-1, 1, -2, 1], [-1, 2, -1, 1], [0, 1, -1, 0]];
    let turns = [
        [1, 0, 0, 1],
        [0, -1, 1, -1],
        [-1, 1, -1, 0],
        [-1, 0, 0, -1],
        [0, 1, -1, 1],
        [1, -1, 1, 0],
    ];
    let Ok(group) = one_place(rt.alloc(), &f, &[0, 1, -1, 0], &links, &turns)? else {
        return Err("a wide product".into());
    };
    assert!(rt; are(&group.tree, &[([0, 1, -1, 0], 1)]));
    assert!(rt;
        are(
            &group.mats,
            &[
                ([1, 2, -1, -1], 1),
                ([1, 1, -2, -1], 1),
                ([0, 1, -1, 0], 1),
                ([-1, -1, 1, 0], 1),
                ([0, 1, -1, -1], 1),
                ([-1, 0, 0, -1], 1),
                ([1, 1, -1, 0], 1),
                ([0, -1, 1, 1], 1),
            ]
        )
    );
    Ok(())
}

#[test]
fn two_places_with_a_repeat(rt: HostRuntime) -> Result<(), Fail> {
    let Some(f) = Field::make(2) else {
        return Err("a field".into());
    };
    let links = [[2, 1, 0, 1], [1, 1, 0, 1], [1, 0, 1, 1]];
    let turns: [&[[i128; 4]]; 2] = [
        &[[1, 0, 0, 1], [-1, 0, 0, -1], [1, 1, 0, 1]],
        &[[0, -1, 1, 0]],
    ];
    let Ok(group) = two_places(rt.alloc(), &f, &[1, 0, 0, 1], &links, turns)? else {
        return Err("a wide product".into());
    };
    assert!(rt; are(&group.tree, &[([1, 0, 0, 1], 1), ([2, 1, 0, 1], 1)]));
    assert!(rt;
        are(
            &group.mats,
            &[
                ([1, 1, 0, 1], 1),
                ([3, 1, 1, 1], 1),
                ([-1, 0, 0, -1], 1),
                ([1, -5, 1, -1], 2),
            ]
        )
    );
    Ok(())
}

#[test]
fn wide_products_and_inverses(rt: HostRuntime) -> Result<(), Fail> {
    let Some(f) = Field::make(2) else {
        return Err("a field".into());
    };
    let one = [1, 0, 0, 1];
    for (root, link, turn, formula) in [
        ([1 << 60, 0, 0, 1], [1 << 70, 0, 0, 1], one, Formula::F10),
        ([1 << 60, 0, 0, 1], one, [1 << 70, 0, 0, 1], Formula::F10),
        ([1 << 100, 0, 0, 1], one, one, Formula::F11),
    ] {
        match one_place(rt.alloc(), &f, &root, &[one, link, one], &[turn])? {
            Err(fault) => assert_eq!(rt; fault, QuotientFault::Wide(formula)),
            Ok(_) => return Err("nothing is wide".into()),
        }
    }
    Ok(())
}
