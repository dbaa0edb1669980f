// Terms are compared by their numbers; no two terms share one, so equal terms are the same term.
ghost use Rattle.std.specs.Prelude.{◌≡◌, ◌↔◌, IsTrue, ◌==◌};
ghost use Rattle.std.proofs.Common.{rules};
ghost use Rattle.std.specs.Cmp.{partial_order_from_own_ties};
ghost use Rattle.std.specs.Cmp.Rules.{comparing};
ghost use Rattle.std.specs.Ordering.{on, nat_cmp, as_partial_cmp};
ghost use Rattle.terms.specs.Terms.{rank};

use crate::term::Term;
use std::cmp::Ordering;

// Not derived: the law that bytes tie exactly where numbers do would move the proof of `NumbersDiffer` into `specs/`.
impl PartialEq for Term {
    ghost eq = { on rank ◌==◌ };

    ghost laws = { Prim.search (comparing, rules) };

    fn eq(&self, other: &Term) -> bool
        ensures value { result ≡ (rank self.now == rank other.now) }
        ensures same { IsTrue result ↔ (self.now ≡ other.now) }
    {
        self.number() == other.number()
    }
}

impl Eq for Term {
    ghost laws = { Prim.search (comparing, rules) };
}

impl Ord for Term {
    ghost cmp = { on rank nat_cmp };

    ghost total = { Prim.search (comparing, rules) };

    ghost matches_partial_cmp = { Prim.search (comparing, rules) };

    ghost matches_eq = { Prim.search (comparing, rules) };

    fn cmp(&self, other: &Term) -> Ordering {
        self.number().cmp(&other.number())
    }
}

impl PartialOrd for Term {
    ghost partial_cmp = { as_partial_cmp (on rank nat_cmp) };

    ghost laws = { partial_order_from_own_ties (Prim.search (comparing, rules))
        (Prim.search (comparing, rules)) };

    fn partial_cmp(&self, other: &Term) -> Option<Ordering> {
        Some(self.cmp(other))
    }
}
