// What is said of labels: of each node its symbol (0 where it has none), which nodes are labelled, whether one is labelled twice, and
// whether all that are labelled differ.
ghost use Rattle.std.specs.Prelude.{◌<◌};
ghost use Rattle.format.specs.declared.Form.{Form};
ghost use Rattle.format.specs.Sheet as spec;
ghost use Rattle.sheet_labels.specs.Keep.{Keeps};

use base_nodeset::NodeSet;

#[derive(Clone, Copy)]
pub struct Labels {
    pub symbols: [u8; 128],
    pub labelled: NodeSet,
    pub twice: bool,
    pub differ: bool,
}

impl Labels {
    pub fn none() -> Labels
        ensures { (f : Form) → Keeps (spec.unlabelled f) result }
    {
        Labels {
            symbols: [0; 128],
            labelled: NodeSet::empty(),
            twice: false,
            differ: false,
        }
    }

    // The symbol s for p. One that is labelled again is labelled twice.
    pub fn label(&mut self, p: usize, s: u8)
        requires { p < 128 }
        ensures { (m : spec.Labels) → Keeps m self.old → Keeps (spec.labelling m p s) self.new }
    {
        self.twice |= self.labelled.has(p);
        self.labelled = self.labelled.with(p);
        self.symbols[p] = s;
    }

    pub fn differing(&mut self)
        ensures { (m : spec.Labels) → Keeps m self.old → Keeps (spec.differing m) self.new }
    {
        self.differ = true;
    }
}
