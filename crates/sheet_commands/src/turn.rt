// One command taken: its edge goes into the graph, or its refusal comes out.
ghost use Rattle.std.specs.Prelude.{◌≡◌, ◌≤◌, OnErr};
ghost use Rattle.sheet_commands.specs.Turn.{begun, Blank, node_answer, tree_answer, dominance_answer, TreeAfter, HeadsAfter, Turned};

use crate::command::Command;
use base_nodeset::NodeSet;
use base_tables::Graph;
use format::Refusal;
use graph::NONE;

// Different dominance edges of a sheet.
const MOST_EDGES: usize = 255;

// The first command: 3. So many nodes.
pub(crate) fn begin(command: Command) -> Result<usize, Refusal>
    ensures { result ≡ begun command }
{
    let Command::Nodes(nodes) = command else {
        return Err(Refusal::Command);
    };
    let n = nodes as usize;
    if n < 1 || 128 < n {
        return Err(Refusal::Range);
    }
    Ok(n)
}

// No edge: what the commands are read into.
pub fn blank() -> Graph
    ensures { Blank result }
{
    Graph {
        n: 0,
        parent: [NONE; 128],
        heads: [NodeSet::empty(); 128],
        edges: 0,
    }
}

// The node with this number: 3.
fn node(n: usize, operand: u8) -> Result<usize, Refusal>
    ensures { result ≡ node_answer n operand }
{
    let v = operand as usize;
    if v < n { Ok(v) } else { Err(Refusal::Range) }
}

// 3, then 4.
#[tactic(auto, unfolding(format::specs::Sheet::beyond))]
fn tree_edge(graph: &mut Graph, p: u8, c: u8) -> Result<(), Refusal>
    requires { graph.old.n ≤ 128 }
    ensures value { result ≡ tree_answer graph.old p c }
    ensures ok { TreeAfter p c result graph.old graph.new }
    ensures err { OnErr result (graph.new ≡ graph.old) }
{
    node(graph.n, p)?;
    let child = node(graph.n, c)?;
    if p == c || graph.parent[child] != NONE {
        return Err(Refusal::Tree);
    }
    graph.parent[child] = p;
    Ok(())
}

// 3, then 8 for an edge that is new. One that has stood before changes nothing.
#[tactic(auto, unfolding(format::specs::Sheet::beyond))]
fn dominance_edge(graph: &mut Graph, l: u8, r: u8) -> Result<(), Refusal>
    requires { graph.old.n ≤ 128 }
    ensures value { result ≡ dominance_answer graph.old l r }
    ensures ok { HeadsAfter l r result graph.old graph.new }
    ensures err { OnErr result (graph.new ≡ graph.old) }
{
    let leaf = node(graph.n, l)?;
    let head = node(graph.n, r)?;
    let heads = graph.heads[leaf];
    if heads.has(head) {
        return Ok(());
    }
    if MOST_EDGES <= graph.edges {
        return Err(Refusal::TooMany);
    }
    graph.heads[leaf] = heads.with(head);
    graph.edges += 1;
    Ok(())
}

// A command after the first. A label, and what ends the sheet, leave the graph as it is.
pub(crate) fn turn(graph: &mut Graph, command: Command) -> Result<(), Refusal>
    requires { graph.old.n ≤ 128 }
    ensures turned { Turned command graph.old result graph.new }
    ensures err { OnErr result (graph.new ≡ graph.old) }
{
    match command {
        Command::Tree(p, c) => tree_edge(graph, p, c),
        Command::Dominance(l, r) => dominance_edge(graph, l, r),
        Command::Label(p, _) => {
            node(graph.n, p)?;
            Ok(())
        }
        Command::Differ | Command::End => Ok(()),
        Command::Nodes(_) => Err(Refusal::Command),
    }
}
