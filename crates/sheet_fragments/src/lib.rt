// The fragment table of a sheet.
#![tactic(auto)]

pub mod records;

ghost use Rattle.std.specs.Prelude.{◌≡◌, ◌*◌, ◌≤◌, length};
ghost use Rattle.std.proofs.lemmas.List.Edits.{sets};
ghost use Rattle.format.specs.Sheet.{outcome};
ghost use Rattle.sheet_fragments.specs.Table.{flat, Tabled};

use base_tables::trees::root_nodes;
use format::Refusal;
use graph::Fragment;
use records::tabulate;
use sheet_decode::read::read;

// Three bytes a record: root, lowest leaf, number of leaves.
fn put(records: &[Fragment], out: &mut [u8])
    requires { 3 * length records.now ≤ length out.old }
    ensures { out.new ≡ sets out.old 0 (flat records.now) }
{
    let mut at = 0;
    for fragment in records {
        out[at] = fragment.root;
        out[at + 1] = fragment.lowest_leaf;
        out[at + 2] = fragment.leaves;
        at += 3;
    }
}

// One record per fragment, and how many there are. They come by ascending root; later bytes, and in a refusal all, stay unwritten.
pub fn fragment_table(sheet: &[u8], out: &mut [u8]) -> Result<usize, Refusal>
    ensures { Tabled (outcome sheet.now) result out.old out.new }
{
    let graph = read(sheet)?;
    let roots = root_nodes(&graph.parent, graph.n);
    let fragments = roots.count();
    if out.len() < 3 * fragments {
        return Err(Refusal::SmallBuffer);
    }
    let records = tabulate(&graph.parent, graph.n, roots);
    put(records.as_slice(), out);
    Ok(records.count)
}
