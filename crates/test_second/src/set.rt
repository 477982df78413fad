// Sets of fragments, as bits: a sheet has at most 64 fragments.
pub const FRAGMENTS: usize = 64;

#[derive(Clone, Copy, PartialEq, Eq)]
pub struct Set {
    bits: u64,
}

impl Set {
    pub fn empty() -> Set {
        Set { bits: 0 }
    }

    // The fragment f alone; empty where f is no fragment's number.
    pub fn one(f: usize) -> Set {
        Set {
            bits: if f < FRAGMENTS { 1 << f } else { 0 },
        }
    }

    pub fn is_empty(self) -> bool {
        self.bits == 0
    }

    pub fn meets(self, other: Set) -> bool {
        self.bits & other.bits != 0
    }

    pub fn has(self, f: usize) -> bool {
        self.meets(Set::one(f))
    }

    pub fn with(self, more: Set) -> Set {
        Set {
            bits: self.bits | more.bits,
        }
    }

    pub fn within(self, whole: Set) -> Set {
        Set {
            bits: self.bits & whole.bits,
        }
    }

    pub fn without(self, part: Set) -> Set {
        Set {
            bits: self.bits & !part.bits,
        }
    }

    // The lowest fragment, alone.
    pub fn lowest(self) -> Set {
        Set::one(self.bits.trailing_zeros() as usize)
    }
}
