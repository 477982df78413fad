// What the definitions under specs/ speak of; no code.
#![tactic(auto)]

// No node: what stands for the parent of a root, and in a placing for the top.
pub const NONE: u8 = 255;

// The kinds of the edges on a cycle.
pub const TREE: u8 = 2;

pub const DOMINANCE: u8 = 3;

// The last number that a reading is asked for by.
pub const LAST: usize = 65535;

// The count: exact up to 65,535, and otherwise "more".
#[derive(Clone, Copy, PartialEq, Eq, Debug)]
pub enum Count {
    Exactly(usize),
    More,
}

// One record of the fragment table.
#[derive(Clone, Copy, PartialEq, Eq, Debug)]
pub struct Fragment {
    pub root: u8,
    pub lowest_leaf: u8,
    pub leaves: u8,
}
