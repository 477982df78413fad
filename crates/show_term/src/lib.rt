// The term of a solved form: each labelled node writes its symbol and its children in turn, and each hole the roots that it carries.
#![tactic(auto)]

ghost use Rattle.std.specs.Prelude.{◌≡◌, ◌≤◌, ◌<◌, [], ◌∷◌, ◌++◌, cond, eqb, length, take};
ghost use Rattle.base_finite.specs.Stores.{Written};
ghost use Rattle.graph.specs.Graph.{none};
ghost use Rattle.format.specs.Term.{text, term};
ghost use Rattle.format.specs.Text.{decimal};
ghost use Rattle.show_term.specs.Terms.{Above, child_in, node_text, arguments_text, others_text, hole_text, topmost_text, pair_text, Next, Lent, Room};
ghost use Rattle.show_drawing.specs.Drawn.{Drawn};
ghost use Rattle.show_term.specs.Written.{Writable};

use base_nodeset::NodeSet;
use base_tables::Graph;
use graph::NONE;

// The constant of an empty hole, which also fills out a pair.
const FILLER: u8 = b'0';

// What stands directly above a node: a root has no parent, and hangs under a leaf or stands on top.
fn directly_above(parent: u8, leaf: u8) -> u8
    ensures { result ≡ cond (eqb parent none) leaf parent }
{
    if parent == NONE { leaf } else { parent }
}

fn fill_above(parent: &[u8], placing: &[u8], n: usize, above: &mut [u8])
    requires { (n ≤ 128) × (n ≤ length parent.now) × (n ≤ length placing.now) × (length above.old ≡ 128) }
    ensures { Above n parent.now placing.now above.new }
{
    for v in 0..n {
        above[v] = directly_above(parent[v], placing[v]);
    }
}

// The lowest node from `from` on that stands directly below v.
fn next(above: &[u8], v: u8, from: usize) -> usize
    requires { from ≤ length above.now }
    ensures { Next above.now v from result }
{
    let mut r = from;
    while r < above.len() {
        if above[r] == v {
            return r;
        }
        r += 1;
    }
    r
}

// A child's place: the node that it is of, and how many come before it.
#[derive(Clone, Copy)]
struct Place {
    of: usize,
    number: usize,
}

// No node has more than three.
fn child(table: &[u8], place: Place) -> u8
    requires { (length table.now ≡ 512) × (place.of < 128) }
    ensures { result ≡ child_in table.now place.of place.number }
{
    if 3 <= place.number {
        return NONE;
    }
    let at = 4 * place.of + (place.number + 1);
    table[at]
}

fn put(byte: u8, at: usize, out: &mut [u8]) -> usize
    requires { at < length out.old }
    ensures { Written out.old at (byte ∷ []) out.new result }
{
    out[at] = byte;
    at + 1
}

// The two-place symbol under which roots stand beside each other, and its bracket.
fn open_pair(at: usize, out: &mut [u8]) -> usize
    requires { Room (decimal 128 ++ 40 ∷ []) at out.old }
    ensures { Written out.old at (decimal 128 ++ 40 ∷ []) out.new result }
{
    let end = base_text::decimal(128, out, at);
    put(b'(', end, out)
}

// Where the next byte goes, and how deep nodes may still stand.
#[derive(Clone, Copy)]
struct Pen {
    at: usize,
    depth: usize,
}

// The nodes from `from` on that stand directly below a node; below no node they are on top.
#[derive(Clone, Copy)]
struct Roots {
    under: u8,
    from: usize,
}

// A node, with what stands below it. The depth does not run out: fewer than all nodes stand above one.
#[cycle(arguments_hole_node_others_pair_topmost)]
fn node(table: &[u8], labelled: NodeSet, above: &[u8], v: usize, pen: Pen, out: &mut [u8]) -> usize
    requires { Lent table.now above.now × (v < 128) × Room (node_text pen.depth table.now labelled above.now v) pen.at out.old }
    ensures { Written out.old pen.at (node_text pen.depth table.now labelled above.now v) out.new result }
{
    if pen.depth == 0 {
        return put(FILLER, pen.at, out);
    }
    let depth = pen.depth - 1;
    if !labelled.has(v) {
        return hole(table, labelled, above, v, Pen { at: pen.at, depth }, out);
    }
    let symbol = table[4 * v];
    let at = base_text::decimal(symbol as usize, out, pen.at);
    arguments(table, labelled, above, v, Pen { at, depth }, out)
}

// The children of v in brackets, where it has some.
#[cycle(arguments_hole_node_others_pair_topmost)]
fn arguments(
    table: &[u8],
    labelled: NodeSet,
    above: &[u8],
    v: usize,
    pen: Pen,
    out: &mut [u8],
) -> usize
    requires { Lent table.now above.now × (v < 128) × Room (arguments_text pen.depth table.now labelled above.now v) pen.at out.old }
    ensures { Written out.old pen.at (arguments_text pen.depth table.now labelled above.now v) out.new result }
{
    let first = child(table, Place { of: v, number: 0 });
    if first == NONE {
        return pen.at;
    }
    let depth = pen.depth;
    let at = put(b'(', pen.at, out);
    let end = node(
        table,
        labelled,
        above,
        first as usize,
        Pen { at, depth },
        out,
    );
    others(
        table,
        labelled,
        above,
        Place { of: v, number: 1 },
        Pen { at: end, depth },
        out,
    )
}

// What follows a child: the children from this place on, and the bracket.
#[cycle(arguments_hole_node_others_pair_topmost)]
fn others(
    table: &[u8],
    labelled: NodeSet,
    above: &[u8],
    place: Place,
    pen: Pen,
    out: &mut [u8],
) -> usize
    requires { Lent table.now above.now × (place.of < 128) × Room (others_text pen.depth table.now labelled above.now place) pen.at out.old }
    ensures { Written out.old pen.at (others_text pen.depth table.now labelled above.now place) out.new result }
{
    let next_child = child(table, place);
    if next_child == NONE {
        return put(b')', pen.at, out);
    }
    let depth = pen.depth;
    let at = put(b',', pen.at, out);
    let end = node(
        table,
        labelled,
        above,
        next_child as usize,
        Pen { at, depth },
        out,
    );
    let after = Place {
        of: place.of,
        number: place.number + 1,
    };
    others(table, labelled, above, after, Pen { at: end, depth }, out)
}

// A hole, with the roots that it carries: a node that is not labelled is a leaf, so that no others stand directly below it.
#[cycle(arguments_hole_node_others_pair_topmost)]
fn hole(table: &[u8], labelled: NodeSet, above: &[u8], v: usize, pen: Pen, out: &mut [u8]) -> usize
    requires { Lent table.now above.now × (v < 128) × Room (hole_text pen.depth table.now labelled above.now v) pen.at out.old }
    ensures { Written out.old pen.at (hole_text pen.depth table.now labelled above.now v) out.new result }
{
    let lowest = next(above, v as u8, 0);
    if lowest == above.len() {
        return put(FILLER, pen.at, out);
    }
    pair(table, labelled, above, lowest, pen, out)
}

// The root r, and in the second place those that stand beside it after it.
#[cycle(arguments_hole_node_others_pair_topmost)]
fn pair(table: &[u8], labelled: NodeSet, above: &[u8], r: usize, pen: Pen, out: &mut [u8]) -> usize
    requires { Lent table.now above.now × (r < length above.now) × Room (pair_text pen.depth table.now labelled above.now r) pen.at out.old }
    ensures { Written out.old pen.at (pair_text pen.depth table.now labelled above.now r) out.new result }
{
    let depth = pen.depth;
    let at = open_pair(pen.at, out);
    let comma = node(table, labelled, above, r, Pen { at, depth }, out);
    let second = put(b',', comma, out);
    let beside = Roots {
        under: above[r],
        from: r + 1,
    };
    let close = topmost(
        table,
        labelled,
        above,
        beside,
        Pen { at: second, depth },
        out,
    );
    put(b')', close, out)
}

// Roots beside each other: one alone as it is, of several the lowest with the others in the second place.
#[cycle(arguments_hole_node_others_pair_topmost)]
fn topmost(
    table: &[u8],
    labelled: NodeSet,
    above: &[u8],
    roots: Roots,
    pen: Pen,
    out: &mut [u8],
) -> usize
    requires { Lent table.now above.now × (roots.from ≤ length above.now) × Room (topmost_text pen.depth table.now labelled above.now roots) pen.at out.old }
    ensures { Written out.old pen.at (topmost_text pen.depth table.now labelled above.now roots) out.new result }
{
    let r = next(above, roots.under, roots.from);
    if r == above.len() {
        return put(FILLER, pen.at, out);
    }
    let s = next(above, roots.under, r + 1);
    if s == above.len() {
        return node(table, labelled, above, r, pen, out);
    }
    pair(table, labelled, above, r, pen, out)
}

// Writes the term of the placing in the first n bytes; its length. Bytes past it stay unwritten.
pub fn write(
    graph: &Graph,
    placing: &[u8],
    table: &[u8],
    labelled: NodeSet,
    out: &mut [u8],
) -> usize
    requires { Writable graph.now.n graph.now.parent placing.now table.now labelled × (2048 ≤ length out.old) }
    ensures { (w : Writable graph.now.n graph.now.parent placing.now table.now labelled) →
        Drawn (text (term w.content (take graph.now.n placing.now))) result out.old out.new }
{
    let n = graph.n;
    let mut above = [0u8; 128];
    fill_above(&graph.parent, placing, n, &mut above);
    let top = Roots {
        under: NONE,
        from: 0,
    };
    topmost(
        table,
        labelled,
        &above[..n],
        top,
        Pen { at: 0, depth: n },
        out,
    )
}
