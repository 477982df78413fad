// Is a solved form a reading? From the graph follow at each choice of Rule 3 the half that the solved form is in: it is a
// reading if the way ends in it.
ghost use Rattle.std.specs.Prelude.{◌≡◌, true, false, List, ◌↔◌, ℕ, ◌-◌, ◌*◌, ◌+◌, ◌≤◌, ◌<◌, length, get_or, take};
ghost use Rattle.graph.specs.Graph as spec;
ghost use Rattle.graph.specs.Order.{Choice};
ghost use Rattle.graph.specs.Placing.{Below, SolvedForm, Reading};
ghost use Rattle.theory_forest.specs.Shape.{Shaped};
ghost use Rattle.theory_list.specs.Settled.{settled};
ghost use Rattle.base_tables.specs.Trees.{Parents, Bounded, TreesOf, Owners, Fits};
ghost use Rattle.base_tables.specs.Rows.{Long, Rows};
ghost use Rattle.base_tables.specs.Tables.{Tables};
ghost use Rattle.solve_below.specs.Below.{Fragments};
ghost use Rattle.solve_reduce.specs.Reduced.{Wide, LooplessForm};
ghost use Rattle.check_placing.specs.Guide.{Within, HalfOf, Standing, Arrived};

use base_nodeset::NodeSet;
use base_tables::Graph;
use base_tables::trees::Trees;
use solve_below::{below, fragments};
use solve_closure::graph_rows;
use solve_reduce::choose::choose;
use solve_reduce::reduced::{WIDE, add, reduce};
use solve_reduce::settle::settle;

// The edge that leads into a half.
#[derive(Clone, Copy)]
pub struct Edge {
    pub leaf: usize,
    pub root: usize,
}

// What the descent is guided by: the graph's trees, the fragment of each root, and a placing's rows.
#[derive(Clone, Copy)]
struct Guide<'a> {
    trees: &'a Trees,
    fragments: &'a [NodeSet],
    under: &'a [NodeSet],
    ghost owners: { Owners trees.now },
    ghost long: { Long fragments.now × Long under.now },
    ghost gathered: { Fragments trees.now.n (λ v. get_or trees.now.owner v 0) fragments.now },
}

// Where no choice is left: the placing is the one that is reached.
fn settles(sets: &[NodeSet], trees: &Trees, placing: &[u8]) -> bool
    requires { Wide trees.now.n sets.now × Bounded trees.now × (trees.now.n ≤ length placing.now) }
    ensures { (h : spec.Graph) → TreesOf h trees.now → LooplessForm h trees.now.n sets.now →
        (result ≡ true) ↔ (settled h ≡ take trees.now.n placing.now) }
{
    let mut end = [0u8; 128];
    settle(sets, trees, &mut end);
    end[..trees.n] == placing[..trees.n]
}

impl Guide<'_> {
    // The half of the choice between a and b that the placing is in.
    fn half(&self, a: usize, b: usize) -> Edge
        requires { (a < self.now.trees.now.n) × (b < self.now.trees.now.n) }
        ensures within { Within self.now.trees.now.n result }
        ensures half_of { (g : spec.Graph) (p : List ℕ) (v : ℕ) → Fits g self.now.trees.now → Rows (Below g p) self.now.under.now →
            Choice g v a b → SolvedForm g p → HalfOf g p a b result }
    {
        let over = self.trees.owner[b] as usize;
        if self.under[a].has(over) {
            Edge {
                leaf: a,
                root: over,
            }
        } else {
            Edge {
                leaf: b,
                root: self.trees.owner[a] as usize,
            }
        }
    }

    // One choice taken; no, where none is left.
    fn turn(&self, sets: &mut [NodeSet]) -> bool
        requires { Wide self.now.trees.now.n sets.old }
        ensures { (g : spec.Graph) (p : List ℕ) (k : ℕ) → Standing g p self.now.trees.now self.now.under.now k sets.old →
            (result ≡ true → Standing g p self.now.trees.now self.now.under.now (k - 1) sets.new)
            × (result ≡ false → Arrived g p self.now.trees.now sets.new) }
    {
        let trees = self.trees;
        let Some(fork) = choose(sets, trees.n) else {
            return false;
        };
        let next = self.half(fork.first, fork.second);
        let lower = below(sets, self.fragments, trees, next.root);
        add(sets, trees, next.leaf, next.root, lower);
        true
    }

    // From the reduced form of a graph to the end. Each choice adds a pair to the descent relation, so that n * n are enough.
    fn follow(&self, placing: &[u8], sets: &mut [NodeSet]) -> bool
        requires { Wide self.now.trees.now.n sets.old × (self.now.trees.now.n ≤ length placing.now) }
        ensures { (g : spec.Graph) → Standing g (take self.now.trees.now.n placing.now) self.now.trees.now self.now.under.now (self.now.trees.now.n * self.now.trees.now.n + 1) sets.old →
            Shaped g → SolvedForm g (take self.now.trees.now.n placing.now) → (result ≡ true) ↔ Reading g (take self.now.trees.now.n placing.now) }
    {
        let trees = self.trees;
        for _turn in 0..trees.n * trees.n + 1 {
            if !self.turn(sets) {
                return settles(sets, trees, placing);
            }
        }
        false
    }
}

// A solved form, with its rows, is a reading.
pub fn reading(graph: &Graph, trees: &Trees, under: &[NodeSet], placing: &[u8]) -> bool
    requires parents { Parents graph.now.n graph.now.parent × Owners trees.now × (trees.now.n ≡ graph.now.n) }
    requires long { Long under.now × (trees.now.n ≤ length placing.now) }
    ensures { (g : spec.Graph) (edges : ℕ) → Tables g trees.now.n graph.now.parent graph.now.heads edges →
        Fits g trees.now → Rows (Below g (take trees.now.n placing.now)) under.now →
        SolvedForm g (take trees.now.n placing.now) → (result ≡ true) ↔ Reading g (take trees.now.n placing.now) }
{
    let mut trees_below = [NodeSet::empty(); 128];
    fragments(trees, &mut trees_below);
    let mut rows = [NodeSet::empty(); 128];
    graph_rows(graph, &mut rows);
    let mut sets = [NodeSet::empty(); WIDE];
    reduce(&rows, trees, &mut sets);
    let guide = Guide {
        trees,
        fragments: &trees_below,
        under,
    };
    guide.follow(placing, &mut sets)
}
