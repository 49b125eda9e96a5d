//! Small graphs, by hand.

ghost use Rattle.std.specs.Prelude.{◌≡◌};

use super::{Graph, first_apart};
use std::test::Fail;

/// The numbers from 0 to `last`, each with itself and with the number `step` further round as neighbours.
#[derive(Drop)]
struct Round {
    last: u8,
    step: u8,
}

impl Graph for Round {
    ghost use Rattle.std.specs.Prelude.{◌+◌, ◌%◌, ◌∷◌, []};

    ghost node_count = { λ r. r.last + 1 };

    ghost neighbours_of = { λ r node. node ∷ (node + r.step) % (r.last + 1) ∷ [] };

    fn nodes(&self) -> usize {
        self.last as usize + 1
    }

    fn degree(&self, _node: usize) -> usize {
        2
    }

    fn neighbour(&self, node: usize, place: usize) -> usize {
        if place == 0 {
            node
        } else {
            (node + self.step as usize) % (self.last as usize + 1)
        }
    }
}

#[test]
fn finds_the_first_node_apart(rt: HostRuntime) -> Result<(), Fail> {
    for (last, step, apart) in [
        (0, 0, None),
        (4, 0, Some(1)),
        (5, 2, Some(1)),
        (5, 5, None),
        (8, 4, None),
    ] {
        let round = Round { last, step };
        assert_eq!(rt;
            first_apart(rt.alloc(), &round)?,
            apart,
            "from 0 to {last} by {step}"
        );
    }
    Ok(())
}
