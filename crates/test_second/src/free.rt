// Components of a set of fragments, and the fragments that can stand on top of it.
use crate::graph::{Graph, Node};
use crate::set::{FRAGMENTS, Set};

impl Graph {
    // The set, with the fragments within the whole that are joined with one of it.
    fn grow(&self, set: Set, whole: Set) -> Set {
        let mut all = set;
        for (f, fragment) in self.fragments.iter().enumerate() {
            if all.has(f) {
                all = all.with(fragment.joined.within(whole));
            }
        }
        all
    }

    // The component of the lowest fragment of the whole.
    pub fn component(&self, whole: Set) -> Set {
        let mut part = whole.lowest();
        for _turn in 0..FRAGMENTS {
            let more = self.grow(part, whole);
            if more == part {
                return part;
            }
            part = more;
        }
        part
    }

    // Takes the component of its lowest fragment out of the set, if there is one.
    pub fn split(&self, set: &mut Set) -> Option<Set> {
        if set.is_empty() {
            return None;
        }
        let part = self.component(*set);
        *set = set.without(part);
        Some(part)
    }

    // The first leaf of the fragment f that leads into the part.
    pub fn hook(&self, f: usize, part: Set) -> Option<usize> {
        self.nodes
            .iter()
            .take(self.n)
            .position(|node| node.hooks(f, part))
    }

    // Whether two leaves of the fragment f lead into the part.
    fn forks(&self, f: usize, part: Set) -> bool {
        self.nodes
            .iter()
            .take(self.n)
            .filter(|node| node.hooks(f, part))
            .nth(1)
            .is_some()
    }

    // Whether no two leaves of f lead into one component of the rest.
    fn parts(&self, f: usize, rest: Set) -> bool {
        let mut left = rest;
        for _turn in 0..FRAGMENTS {
            match self.split(&mut left) {
                Some(part) if self.forks(f, part) => return false,
                Some(_) => {}
                None => return true,
            }
        }
        true
    }

    // Whether f is a free fragment of the set: no dominance edge of the set goes into its root, and its leaves part the rest.
    pub fn is_free(&self, f: usize, set: Set) -> bool {
        match self.fragments.get(f) {
            Some(fragment) => {
                set.has(f) && !fragment.over.meets(set) && self.parts(f, set.without(Set::one(f)))
            }
            None => false,
        }
    }

    // The first free fragment of the set after the given one, or at all.
    pub fn next_free(&self, set: Set, after: Option<usize>) -> Option<usize> {
        (0..FRAGMENTS).find(|f| after < Some(*f) && self.is_free(*f, set))
    }
}

impl Node {
    // Whether it is a leaf of the fragment f that leads into the part.
    fn hooks(&self, f: usize, part: Set) -> bool {
        self.fragment == Some(f) && self.leads.meets(part)
    }
}
