// The lines of readings whose placings stand one after the other, a page at a time.
#![tactic(auto)]

ghost use Rattle.std.specs.Prelude.{◌≤◌, ◌<◌, length};
ghost use Rattle.graph.specs.Order.{limit};
ghost use Rattle.base_finite.specs.Stores.{Written};
ghost use Rattle.show_page.specs.Pages.{lines, Held};

use base_tables::trees::Trees;
use base_text::{LINE, reading_line};

// How many bytes the page has, and the number of its last reading.
#[derive(Clone, Copy)]
pub struct Lines {
    pub bytes: usize,
    pub last: usize,
}

// The placings are those after the first `passed`, up to the number `last`. The lines of those after the first `done`, until
// none is left or no place for one.
pub fn fill_page(
    placings: &[u8],
    trees: &Trees,
    passed: usize,
    last: usize,
    done: usize,
    out: &mut [u8],
) -> Lines
    requires n_bound { (trees.now.n ≤ 128) × (passed ≤ done) × (done ≤ last) × (last ≤ limit) }
    requires held { Held trees.now passed last placings.now × (1100 ≤ length out.old) }
    ensures bytes_in_bounds { (result.bytes ≤ length out.new) × (result.last ≤ last) × (done ≤ result.last) × (done < last → done < result.last) }
    ensures written { (s : Held trees.now passed last placings.now) → Written out.old 0 (lines s.graph done result.last) out.new result.bytes }
{
    let n = trees.n;
    let mut end = 0;
    for k in done..last {
        let placing = &placings[(k - passed) * n..];
        end = reading_line(placing, n, trees.roots, k + 1, out, end);
        if out.len() - end < LINE {
            return Lines {
                bytes: end,
                last: k + 1,
            };
        }
    }
    Lines { bytes: end, last }
}
