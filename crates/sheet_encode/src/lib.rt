// Tidying: the sheet that writes the same, with its commands in the tidy order.
#![tactic(auto)]

ghost use Rattle.std.specs.Prelude.{◌≡◌, ◌+◌, ◌≤◌, [], ◌∷◌, length};
ghost use Rattle.std.proofs.lemmas.List.Edits.{sets};
ghost use Rattle.base_tables.specs.Rows.{Long};
ghost use Rattle.base_tables.specs.Trees.{Parents};
ghost use Rattle.format.specs.Sheet.{outcome_of};
ghost use Rattle.base_finite.specs.Stores.{Written};
ghost use Rattle.sheet_encode.specs.Tidy.{tree_bytes, trees_in, row_bytes, tree_part, dominance_part, TidyTables, TidiesTo, Tidies};

use base_nodeset::NodeSet;
use base_tables::Graph;
use format::{Form, Refusal};
use graph::NONE;
use sheet_decode::read::read_written;

fn put(out: &mut [u8], at: usize, a: u8, b: u8, c: u8)
    requires { at + 3 ≤ length out.old }
    ensures { out.new ≡ sets out.old at (a ∷ b ∷ c ∷ []) }
{
    out[at] = a;
    out[at + 1] = b;
    out[at + 2] = c;
}

// The command of c's tree edge, where it has one; the place after it.
fn put_tree(out: &mut [u8], at: usize, p: u8, c: u8) -> usize
    requires { at + length (tree_bytes p c) ≤ length out.old }
    ensures { Written out.old at (tree_bytes p c) out.new result }
{
    if p == NONE {
        return at;
    }
    put(out, at, 2, p, c);
    at + 3
}

fn write_tree(parent: &[u8], n: usize, out: &mut [u8], start: usize) -> usize
    requires { Parents n parent.now × (start + length (tree_part n parent.now) ≤ length out.old) }
    ensures { Written out.old start (tree_part n parent.now) out.new result }
{
    let mut at = start;
    for c in 0..n {
        at = put_tree(out, at, parent[c], c as u8);
    }
    at
}

// The commands of the dominance edges from l, which go to the members of the row.
fn write_row(row: NodeSet, l: u8, out: &mut [u8], start: usize) -> usize
    requires { start + length (row_bytes l row) ≤ length out.old }
    ensures { Written out.old start (row_bytes l row) out.new result }
{
    let mut left = row;
    let mut at = start;
    while let Some(r) = left.pop_first() {
        put(out, at, 3, l, r as u8);
        at += 3;
    }
    at
}

fn write_dominance(heads: &[NodeSet], n: usize, out: &mut [u8], start: usize) -> usize
    requires { (n ≤ 128) × Long heads.now × (start + length (dominance_part n heads.now) ≤ length out.old) }
    ensures { Written out.old start (dominance_part n heads.now) out.new result }
{
    let mut at = start;
    for l in 0..n {
        at = write_row(heads[l], l as u8, out, at);
    }
    at
}

fn tree_edges(parent: &[u8], n: usize) -> usize
    requires { Parents n parent.now }
    ensures { result ≡ trees_in n parent.now }
{
    parent[..n].iter().filter(|above| **above != NONE).count()
}

// The tidy sheet of the graph.
pub fn write(graph: &Graph, out: &mut [u8]) -> Result<usize, Refusal>
    requires { TidyTables graph.now }
    ensures { (h : TidyTables graph.now) → TidiesTo h.graph result out.old out.new }
{
    let n = graph.n;
    let needed = 3 + 3 * tree_edges(&graph.parent, n) + 3 * graph.edges;
    if out.len() < needed {
        return Err(Refusal::SmallBuffer);
    }
    out[0] = 1;
    out[1] = n as u8;
    let after_tree = write_tree(&graph.parent, n, out, 2);
    let end = write_dominance(&graph.heads, n, out, after_tree);
    out[end] = 0;
    Ok(needed)
}

// The tidy plain sheet of the same nodes and edges, from the first lent byte on; and how many bytes were filled.
pub fn tidy(form: Form, sheet: &[u8], out: &mut [u8]) -> Result<usize, Refusal>
    ensures { Tidies (outcome_of form sheet.now) result out.old out.new }
{
    let graph = read_written(form, sheet)?;
    write(&graph, out)
}
