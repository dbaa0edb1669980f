// The most contacts in any one term: the longest term decides.
ghost use Rattle.std.specs.Prelude.{◌≡◌, max, nat_le};
ghost use Rattle.terms.specs.Terms.{contacts};
ghost use Rattle.orders.specs.Kinds.{by_longest};
ghost use Rattle.orders.specs.Lawful.{longest_laws};

use crate::order::CostOrder;
use terms::Term;

#[derive(Clone, Copy, Debug, Default, PartialEq, Eq)]
pub struct Longest;

// A total is the length of the longest term, and 0 without terms.
impl CostOrder for Longest {
    type Total = u32;

    ghost meaning = { λ _. by_longest };

    ghost laws = { λ _. longest_laws };

    ghost exact = { λ _ a. a };

    ghost empty_gives = { λ _ r. r ≡ 0 };

    ghost price_gives = { λ _ term r. r ≡ contacts term };

    ghost join_gives = { λ _ a b r. r ≡ max a b };

    ghost at_most_gives = { λ _ a b r. r ≡ nat_le a b };

    fn empty(&self) -> u32 {
        0
    }

    fn price(&self, term: Term) -> u32 {
        term.contacts() as u32
    }

    fn join(&self, a: u32, b: u32) -> u32 {
        a.max(b)
    }

    fn at_most(&self, a: u32, b: u32) -> bool {
        a <= b
    }
}
