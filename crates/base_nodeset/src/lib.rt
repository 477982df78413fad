// A set of node numbers 0..127, as two words of bits, by value.
#![tactic(auto)]

ghost use Rattle.std.specs.Prelude.{◌≡◌, not, ◌+◌, ◌≤◌, ◌<◌, length};
ghost use Rattle.base_finite.specs.Below.{any, count, least, select};
ghost use Rattle.base_finite.specs.Stores.{Written};
ghost use Rattle.base_nodeset.specs.Set.{mem, Empty, Only, OfByte, Inserted, Removed, Union, Intersection, Difference, Pops};

#[derive(Clone, Copy, PartialEq, Eq)]
pub struct NodeSet {
    pub low: u64,
    pub high: u64,
}

impl NodeSet {
    pub fn empty() -> NodeSet
        ensures { Empty result }
    {
        NodeSet { low: 0, high: 0 }
    }

    // The set of k alone.
    pub fn only(k: usize) -> NodeSet
        requires { k < 128 }
        ensures { Only k result }
    {
        if k < 64 {
            NodeSet {
                low: 1 << k,
                high: 0,
            }
        } else {
            NodeSet {
                low: 0,
                high: 1 << (k - 64),
            }
        }
    }

    // The set of a byte's node, empty for a byte that is no node.
    pub fn of_byte(byte: u8) -> NodeSet
        ensures { OfByte byte result }
    {
        if byte < 128 {
            NodeSet::only(byte as usize)
        } else {
            NodeSet::empty()
        }
    }

    pub fn has(self, k: usize) -> bool
        requires { k < 128 }
        ensures { result ≡ mem self k }
    {
        if k < 64 {
            (self.low >> k) % 2 == 1
        } else {
            (self.high >> (k - 64)) % 2 == 1
        }
    }

    pub fn with(self, k: usize) -> NodeSet
        requires { k < 128 }
        ensures { Inserted self k result }
    {
        NodeSet::only(k).union(self)
    }

    pub fn without(self, k: usize) -> NodeSet
        requires { k < 128 }
        ensures { Removed self k result }
    {
        self.difference(NodeSet::only(k))
    }

    pub fn union(self, other: NodeSet) -> NodeSet
        ensures { Union self other result }
    {
        NodeSet {
            low: self.low | other.low,
            high: self.high | other.high,
        }
    }

    pub fn intersection(self, other: NodeSet) -> NodeSet
        ensures { Intersection self other result }
    {
        NodeSet {
            low: self.low & other.low,
            high: self.high & other.high,
        }
    }

    // By ^ and not by !, so that no fact needs the words' width.
    pub fn difference(self, other: NodeSet) -> NodeSet
        ensures { Difference self other result }
    {
        NodeSet {
            low: self.low ^ (self.low & other.low),
            high: self.high ^ (self.high & other.high),
        }
    }

    pub fn is_empty(self) -> bool
        ensures { result ≡ not (any 128 (mem self)) }
    {
        if self.low == 0 { self.high == 0 } else { false }
    }

    // The lowest member, and 128 where there is none: a word of no bits has 64 trailing zeros.
    pub fn lowest(self) -> usize
        ensures { result ≡ least 128 (mem self) }
    {
        if self.low == 0 {
            64 + u64::trailing_zeros(self.high) as usize
        } else {
            u64::trailing_zeros(self.low) as usize
        }
    }

    // The set without k, which is of the low word.
    fn without_low(self, k: usize) -> NodeSet
        requires { k < 64 }
        ensures { Removed self k result }
    {
        NodeSet {
            low: self.low ^ (self.low & (1 << k)),
            high: self.high,
        }
    }

    // The set without 64 + k, which is of the high word.
    fn without_high(self, k: usize) -> NodeSet
        requires { k < 64 }
        ensures { Removed self (64 + k) result }
    {
        NodeSet {
            low: self.low,
            high: self.high ^ (self.high & (1 << k)),
        }
    }

    // Takes the lowest member out. Only the word that has it changes.
    pub fn pop_first(&mut self) -> Option<usize>
        ensures { Pops self.old self.new result }
    {
        if self.low != 0 {
            let k = u64::trailing_zeros(self.low) as usize;
            *self = self.without_low(k);
            Some(k)
        } else if self.high != 0 {
            let k = u64::trailing_zeros(self.high) as usize;
            *self = self.without_high(k);
            Some(64 + k)
        } else {
            None
        }
    }

    pub fn count(self) -> usize
        ensures { result ≡ count 128 (mem self) }
    {
        u64::count_ones(self.low) as usize + u64::count_ones(self.high) as usize
    }

    // The members, the lowest first, put into the bytes from `at` on. Gives the place after the last.
    pub fn list(self, out: &mut [u8], at: usize) -> usize
        requires { at + count 128 (mem self) ≤ length out.old }
        ensures { Written out.old at (select 128 (mem self)) out.new result }
    {
        let mut left = self;
        let mut end = at;
        while let Some(x) = left.pop_first() {
            out[end] = x as u8;
            end += 1;
        }
        end
    }
}
