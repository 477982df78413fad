// The choice of Rule 3: the lowest root with two edges that stay, and of their leaves the two lowest.
ghost use Rattle.std.specs.Prelude.{◌≤◌};
ghost use Rattle.graph.specs.Graph.{Graph};
ghost use Rattle.solve_reduce.specs.Reduced.{Wide, LooplessForm};
ghost use Rattle.solve_reduce.specs.Chosen.{Bounded, Chosen};

use crate::forks::second_lowest;
use base_nodeset::NodeSet;

#[derive(Clone, Copy)]
pub struct Fork {
    pub root: usize,
    pub first: usize,
    pub second: usize,
}

// The choice. The test of `second` is for the bounds alone: a fork has its two leaves.
pub fn choose(sets: &[NodeSet], n: usize) -> Option<Fork>
    requires { Wide n sets.now × (n ≤ 128) }
    ensures bounded { Bounded n result }
    ensures chosen { (g : Graph) → LooplessForm g n sets.now → Chosen g result }
{
    let root = sets[n].lowest();
    if n <= root {
        return None;
    }
    let leaves = sets[root];
    let second = second_lowest(leaves);
    if n <= second {
        return None;
    }
    let first = leaves.lowest();
    Some(Fork {
        root,
        first,
        second,
    })
}
