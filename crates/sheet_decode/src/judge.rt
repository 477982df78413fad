// What is tested after the last command: 4, 13, 6, and of a labelled sheet 14, 15, 16.
ghost use Rattle.std.specs.Prelude.{◌≡◌, List, ℕ, ◌≤◌, ◌<◌};
ghost use Rattle.base_nodeset.specs.Set.{mem};
ghost use Rattle.graph.specs.Graph.{Edge};
ghost use Rattle.base_tables.specs.Rows.{Long};
ghost use Rattle.base_tables.specs.Tables.{Holds};
ghost use Rattle.base_tables.specs.Trees.{Parents};
ghost use Rattle.format.specs.Sheet as spec;
ghost use Rattle.format.specs.declared.Form.TheVariants.{Labelled};
ghost use Rattle.sheet_commands.specs.Labels.{labels_in};
ghost use Rattle.sheet_labels.specs.Keep.{Keeps};
ghost use Rattle.sheet_decode.specs.Judge.{rises_in, cyclic_in, strays, astray_in, Judged, Fitted};

use base_nodeset::NodeSet;
use base_tables::Graph;
use base_tables::trees::{inner_nodes, root_nodes};
use format::{Form, Refusal};
use graph::NONE;
use sheet_labels::fit::{holed, mislabelled, overlapping};
use sheet_labels::gather::labels_of;
use sheet_labels::table::Labels;

// The most nodes of a sheet, with the added leaves.
const MOST_NODES: usize = 128;

// n edges lead up from v, one above the other.
fn rises(parent: &[u8], n: usize, v: usize) -> bool
    requires { Parents n parent.now × (v < n) }
    ensures { result ≡ rises_in n parent.now v }
{
    let mut at = v;
    for _step in 0..n {
        let above = parent[at];
        if above == NONE {
            return false;
        }
        at = above as usize;
    }
    true
}

// 4: tree edges form a cycle.
fn cyclic(parent: &[u8], n: usize) -> bool
    requires { Parents n parent.now }
    ensures { result ≡ cyclic_in n parent.now }
{
    for v in 0..n {
        if rises(parent, n, v) {
            return true;
        }
    }
    false
}

// Some dominance edge from l doesn't go from a leaf to a root.
fn stray(row: NodeSet, l: usize, inner: NodeSet, roots: NodeSet) -> bool
    requires { l < 128 }
    ensures { result ≡ strays (mem row) l inner roots }
{
    if inner.has(l) {
        !row.is_empty()
    } else {
        !row.difference(roots).is_empty()
    }
}

// 6: a dominance edge doesn't go from a leaf to a root.
fn astray(heads: &[NodeSet], n: usize, inner: NodeSet, roots: NodeSet) -> bool
    requires { (n ≤ 128) × Long heads.now }
    ensures { result ≡ astray_in n heads.now inner roots }
{
    for l in 0..n {
        if stray(heads[l], l, inner, roots) {
            return true;
        }
    }
    false
}

pub fn judge(graph: &Graph) -> Result<(), Refusal>
    requires { Parents graph.now.n graph.now.parent }
    ensures { (t d : List Edge) (edges : ℕ) → Holds graph.now.n t d graph.now.parent graph.now.heads edges
        → Judged graph.now.n t d result }
{
    let n = graph.n;
    if cyclic(&graph.parent, n) {
        return Err(Refusal::Tree);
    }
    let inner = inner_nodes(&graph.parent, n);
    let roots = root_nodes(&graph.parent, n);
    let bare = roots.difference(inner);
    if MOST_NODES < n + bare.count() {
        return Err(Refusal::Overgrown);
    }
    // A bare node is no leaf: it will have one.
    if astray(&graph.heads, n, inner.union(bare), roots) {
        return Err(Refusal::Ends);
    }
    Ok(())
}

// 14, 15, 16, in this order.
fn fit(labels: &Labels, graph: &Graph) -> Result<(), Refusal>
    requires { Parents graph.now.n graph.now.parent }
    ensures { (m : spec.Labels) (t d : List Edge) (edges : ℕ) → m.form ≡ Labelled → Keeps m labels.now
        → Holds graph.now.n t d graph.now.parent graph.now.heads edges → Fitted graph.now.n t d m result }
{
    if mislabelled(labels, &graph.parent, graph.n) {
        return Err(Refusal::Label);
    }
    if overlapping(labels, graph.n) {
        return Err(Refusal::Overlap);
    }
    if holed(labels, graph) {
        return Err(Refusal::Hole);
    }
    Ok(())
}

// What the sheet says of labels, held against its edges.
pub fn judge_labels(form: Form, sheet: &[u8], graph: &Graph) -> Result<(), Refusal>
    requires { Parents graph.now.n graph.now.parent }
    ensures { (t d : List Edge) (edges : ℕ) → Holds graph.now.n t d graph.now.parent graph.now.heads edges
        → Fitted graph.now.n t d (labels_in form sheet.now) result }
{
    match form {
        Form::Plain => Ok(()),
        Form::Labelled => fit(&labels_of(sheet), graph),
    }
}
