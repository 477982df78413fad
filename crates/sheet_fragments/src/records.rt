// The records of a sheet, for a lent table: one for each fragment, by ascending root.
ghost use Rattle.std.specs.Prelude.{◌≡◌, ◌≤◌, length, take};
ghost use Rattle.format.specs.Sheet.{outcome};
ghost use Rattle.base_tables.specs.Trees.{Parents, RootSet};
ghost use Rattle.sheet_fragments.specs.Owner.{fragment_in, RecordsOf};
ghost use Rattle.sheet_fragments.specs.Records.{FragmentsIn, ReadsRecords, Prepares};

use base_nodeset::NodeSet;
use base_tables::trees::{inner_nodes, nodes_with, owners, root_nodes};
use format::Refusal;
use graph::Fragment;
use sheet_decode::read::read;

// The first `count` of the fragments. No sheet has more fragments than nodes.
#[derive(Clone, Copy)]
pub struct Records {
    pub fragments: [Fragment; 128],
    pub count: usize,
}

impl Records {
    pub fn as_slice(&self) -> &[Fragment]
        requires { self.now.count ≤ 128 }
        ensures value { result.now ≡ take self.now.count self.now.fragments }
        ensures len { length result.now ≡ self.now.count }
    {
        &self.fragments[..self.count]
    }
}

// The record of a root: its leaves are the nodes that it owns, without the inner ones.
fn record(owner: &[u8], n: usize, inner: NodeSet, root: u8) -> Fragment
    requires { (n ≤ 128) × (length owner.now ≡ 128) }
    ensures { result ≡ fragment_in n owner.now inner root }
{
    let leaves = nodes_with(owner, n, root).difference(inner);
    Fragment {
        root,
        lowest_leaf: leaves.lowest() as u8,
        leaves: leaves.count() as u8,
    }
}

// The records of all roots.
fn fill(owner: &[u8], n: usize, inner: NodeSet, roots: NodeSet) -> Records
    requires { (n ≤ 128) × (length owner.now ≡ 128) }
    ensures { RecordsOf n owner.now inner roots result }
{
    let none = Fragment {
        root: 0,
        lowest_leaf: 0,
        leaves: 0,
    };
    let mut fragments = [none; 128];
    let mut count = 0;
    for r in 0..n {
        if roots.has(r) {
            fragments[count] = record(owner, n, inner, r as u8);
            count += 1;
        }
    }
    Records { fragments, count }
}

// The records of a graph with these parents and roots.
pub(crate) fn tabulate(parent: &[u8], n: usize, roots: NodeSet) -> Records
    requires { Parents n parent.now × RootSet n parent.now roots }
    ensures { FragmentsIn n parent.now result }
{
    let inner = inner_nodes(parent, n);
    let mut owner = [0u8; 128];
    owners(parent, n, &mut owner);
    fill(&owner, n, inner, roots)
}

// The records of a sheet.
fn read_records(sheet: &[u8]) -> Result<Records, Refusal>
    ensures { ReadsRecords (outcome sheet.now) result }
{
    let graph = read(sheet)?;
    let roots = root_nodes(&graph.parent, graph.n);
    Ok(tabulate(&graph.parent, graph.n, roots))
}

// For a table with room for so many records.
pub fn prepare(sheet: &[u8], room: usize) -> Result<Records, Refusal>
    ensures { Prepares (outcome sheet.now) room result }
{
    let records = read_records(sheet)?;
    if room < records.count {
        return Err(Refusal::SmallBuffer);
    }
    Ok(records)
}
