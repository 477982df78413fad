// Which sets have several members, and the roots that several leaves have edges to.
ghost use Rattle.std.specs.Prelude.{◌≡◌, ◌<◌};
ghost use Rattle.base_nodeset.specs.Set.{mem};
ghost use Rattle.solve_reduce.specs.Reduced.{second_lowest, Noted};

use base_nodeset::NodeSet;

// The lowest member but one, and 128 where there are no two.
pub fn second_lowest(set: NodeSet) -> usize
    ensures { result ≡ second_lowest (mem set) }
{
    let mut rest = set;
    rest.pop_first();
    rest.lowest()
}

// v among the forks where its leaves are several, and else not.
pub fn noted(forks: NodeSet, v: usize, leaves: NodeSet) -> NodeSet
    requires { v < 128 }
    ensures { Noted forks v leaves result }
{
    if second_lowest(leaves) < 128 {
        return forks.with(v);
    }
    forks.without(v)
}
