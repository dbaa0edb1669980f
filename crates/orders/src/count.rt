// Fewer terms first, then fewer contacts.
ghost use Rattle.std.specs.Prelude.{◌≡◌, ◌+◌};
ghost use Rattle.terms.specs.Terms.{contacts};
ghost use Rattle.orders.specs.Kinds.{by_count, pair_at_most, stopped};
ghost use Rattle.orders.specs.Lawful.{count_laws};

use crate::order::CostOrder;
use terms::Term;

#[derive(Clone, Copy, Debug, Default, PartialEq, Eq)]
pub struct Count;

// A total is the number of terms and the number of contacts.
impl CostOrder for Count {
    type Total = (u32, u32);

    ghost meaning = { λ _. by_count };

    ghost laws = { λ _. count_laws };

    ghost exact = { λ _ a. a };

    ghost empty_gives = { λ _ r. r ≡ (0, 0) };

    ghost price_gives = { λ _ term r. r ≡ (1, contacts term) };

    ghost join_gives = { λ _ a b r. r ≡ (stopped (a.0 + b.0), stopped (a.1 + b.1)) };

    ghost at_most_gives = { λ _ a b r. r ≡ pair_at_most a b };

    fn empty(&self) -> (u32, u32) {
        (0, 0)
    }

    fn price(&self, term: Term) -> (u32, u32) {
        (1, term.contacts() as u32)
    }

    #[tactic(auto, using(crate::proofs::Small::count_joins))]
    fn join(&self, a: (u32, u32), b: (u32, u32)) -> (u32, u32) {
        (a.0.saturating_add(b.0), a.1.saturating_add(b.1))
    }

    fn at_most(&self, a: (u32, u32), b: (u32, u32)) -> bool {
        a <= b
    }
}
