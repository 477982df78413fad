// How many readings a solvable set of fragments has: the sum over its free fragments of the product over the components left.
ghost use Rattle.std.specs.Prelude.{◌≤◌};

use crate::graph::Graph;
use crate::set::{FRAGMENTS, Set};

// Stands for this number and each larger one.
pub const MORE: usize = 65536;

fn times(a: usize, b: usize) -> usize
    requires { (a ≤ 65536) × (b ≤ 65536) }
    ensures { result ≤ 65536 }
{
    a.saturating_mul(b).min(MORE)
}

// Of a connected set. It has at most `left` fragments.
#[cycle(product_sum)]
fn sum(graph: &Graph, set: Set, left: usize) -> usize
    ensures { result ≤ 65536 }
{
    let mut total = 0;
    if left == 0 {
        return total;
    }
    for f in 0..FRAGMENTS {
        if total < MORE && graph.is_free(f, set) {
            let rest = set.without(Set::one(f));
            total = MORE.min(total + product(graph, rest, left - 1));
        }
    }
    total
}

// Of any set. It has at most `left` fragments.
#[cycle(product_sum)]
pub fn product(graph: &Graph, set: Set, left: usize) -> usize
    ensures { result ≤ 65536 }
{
    let mut total = 1;
    let mut rest = set;
    for _turn in 0..FRAGMENTS {
        let Some(part) = graph.split(&mut rest) else {
            return total;
        };
        total = times(total, sum(graph, part, left));
    }
    total
}
