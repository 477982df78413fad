// The drawing of a placing: each fragment writes its leaves in turn, and each leaf the fragments hung under it.
#![tactic(auto)]

ghost use Rattle.std.specs.Prelude.{◌≡◌, ◌+◌, ◌≤◌, ◌<◌, [], ◌∷◌, ◌&&◌, eqb, length, take};
ghost use Rattle.base_finite.specs.Stores.{Written};
ghost use Rattle.graph.specs.Graph.{none};
ghost use Rattle.format.specs.Drawing.{drawing};
ghost use Rattle.format.specs.Text.{decimal};
ghost use Rattle.base_tables.specs.Trees.{Parents, InnerSet};
ghost use Rattle.show_drawing.specs.Drawn.{home_in, Homes, hung_leaf_in, hung_size_in, fragment_in, size_in, tops_in, joint, Lent, Ready, Moved, Counted, Drawable, Drawn};

use base_nodeset::NodeSet;
use base_tables::Graph;
use base_tables::trees::{inner_nodes, own, root_nodes};
use graph::NONE;

// The root of v's fragment, where v is a leaf.
fn home(parent: &[u8], n: usize, inner: NodeSet, v: usize) -> u8
    requires { Parents n parent.now × (v < n) × InnerSet n parent.now inner }
    ensures { result ≡ home_in n parent.now v }
{
    if inner.has(v) {
        return NONE;
    }
    own(parent, n, v) as u8
}

fn fill_homes(parent: &[u8], n: usize, inner: NodeSet, homes: &mut [u8])
    requires { Parents n parent.now × InnerSet n parent.now inner × (length homes.old ≡ 128) }
    ensures { Homes n parent.now homes.new }
{
    for v in 0..n {
        homes[v] = home(parent, n, inner, v);
    }
}

// Where the next byte goes, and how many fragments are not yet drawn.
#[derive(Clone, Copy)]
struct Pen {
    at: usize,
    left: usize,
}

fn put(byte: u8, pen: Pen, out: &mut [u8]) -> Pen
    requires { pen.at < length out.old }
    ensures { Moved (byte ∷ []) 0 pen out.old result out.new }
{
    let at = pen.at;
    out[at] = byte;
    Pen {
        at: at + 1,
        left: pen.left,
    }
}

fn number(v: u8, pen: Pen, out: &mut [u8]) -> Pen
    requires { pen.at + length (decimal v) ≤ length out.old }
    ensures { Moved (decimal v) 0 pen out.old result out.new }
{
    Pen {
        at: base_text::decimal(v as usize, out, pen.at),
        left: pen.left,
    }
}

// The fragment of the root r, with what hangs below it. It counts itself.
#[cycle(fragment_leaf)]
fn fragment(home: &[u8], placing: &[u8], n: usize, r: u8, from: Pen, out: &mut [u8]) -> Pen
    requires lent { Lent n home.now placing.now }
    requires ready { Ready (fragment_in n n home.now placing.now r) (size_in n n home.now placing.now r) n from out.old }
    ensures { Moved (fragment_in n n home.now placing.now r) (size_in n n home.now placing.now r) from out.old result out.new }
{
    let left = from.left - 1;
    let mut pen = number(r, Pen { at: from.at, left }, out);
    let mut mark = b'(';
    for x in 0..n {
        if home[x] != r {
            continue;
        }
        let next = put(mark, pen, out);
        pen = leaf(home, placing, n, x as u8, next, out);
        mark = b',';
    }
    put(b')', pen, out)
}

// The leaf l, with what hangs below it.
#[cycle(fragment_leaf)]
fn leaf(home: &[u8], placing: &[u8], n: usize, l: u8, from: Pen, out: &mut [u8]) -> Pen
    requires lent { Lent n home.now placing.now }
    requires ready { Ready (hung_leaf_in n home.now placing.now l) (hung_size_in n home.now placing.now l) n from out.old }
    ensures { Moved (hung_leaf_in n home.now placing.now l) (hung_size_in n home.now placing.now l) from out.old result out.new }
{
    let mut pen = number(l, from, out);
    let mut mark = b'[';
    for r in 0..n {
        if placing[r] != l {
            continue;
        }
        let next = put(mark, pen, out);
        pen = fragment(home, placing, n, r as u8, next, out);
        mark = b';';
    }
    if mark == b'[' {
        return pen;
    }
    put(b']', pen, out)
}

fn on_top(parent: u8, leaf: u8) -> bool
    ensures { result ≡ (eqb parent none && eqb leaf none) }
{
    parent == NONE && leaf == NONE
}

// What stands before a top fragment: nothing before the first.
fn join(pen: Pen, out: &mut [u8]) -> Pen
    requires { pen.at + length (joint pen.at) ≤ length out.old }
    ensures { Moved (joint pen.at) 0 pen out.old result out.new }
{
    if pen.at == 0 {
        return pen;
    }
    put(b';', pen, out)
}

// The top fragments, with what hangs below them: all fragments of the sheet, so none is left.
fn tops(parent: &[u8], home: &[u8], placing: &[u8], n: usize, out: &mut [u8]) -> Pen
    requires lent { Lent n home.now placing.now }
    requires n_nonzero { (0 < n) × Parents n parent.now }
    requires counted { Counted n parent.now home.now placing.now }
    requires placing_in_bounds { length (tops_in n parent.now home.now placing.now) ≤ length out.old }
    ensures written { Written out.old 0 (tops_in n parent.now home.now placing.now) out.new result.at }
    ensures left_value { result.left ≡ 0 }
{
    let left = root_nodes(parent, n).count();
    let mut pen = Pen { at: 0, left };
    for r in 0..n {
        if !on_top(parent[r], placing[r]) {
            continue;
        }
        let next = join(pen, out);
        pen = fragment(home, placing, n, r as u8, next, out);
    }
    pen
}

// Writes the drawing of the placing in the first n bytes; its length. Bytes past it stay unwritten.
pub fn draw(graph: &Graph, placing: &[u8], out: &mut [u8]) -> usize
    requires { Drawable graph.now.n graph.now.parent placing.now × (1024 ≤ length out.old) }
    ensures { (d : Drawable graph.now.n graph.now.parent placing.now) → Drawn (drawing d.graph (take graph.now.n placing.now)) result out.old out.new }
{
    let n = graph.n;
    let inner = inner_nodes(&graph.parent, n);
    let mut homes = [0u8; 128];
    fill_homes(&graph.parent, n, inner, &mut homes);
    tops(&graph.parent, &homes, placing, n, out).at
}
