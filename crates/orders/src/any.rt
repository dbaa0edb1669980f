// One of the three orders, chosen while running.
ghost use Rattle.std.specs.Prelude.{◌≡◌};
ghost use Rattle.orders.specs.Any.{any_meaning, any_laws, any_exact, any_price, any_join, any_at_most};

use crate::count::Count;
use crate::longest::Longest;
use crate::order::CostOrder;
use crate::price::Price;
use terms::Term;

// An enum and no trait object: each order has its own kind of total, so there is no `dyn CostOrder`.
#[derive(Clone, Copy, Debug, PartialEq, Eq)]
pub enum AnyOrder {
    Count(Count),
    Price(Price),
    Longest(Longest),
}

// A total is a pair; price and longest use its first number.
impl CostOrder for AnyOrder {
    type Total = (u32, u32);

    ghost meaning = { any_meaning };

    ghost laws = { any_laws };

    ghost exact = { any_exact };

    ghost empty_gives = { λ _ r. r ≡ (0, 0) };

    ghost price_gives = { λ o term r. r ≡ any_price o term };

    ghost join_gives = { λ o a b r. r ≡ any_join o a b };

    ghost at_most_gives = { λ o a b r. r ≡ any_at_most o a b };

    fn empty(&self) -> (u32, u32) {
        match self {
            AnyOrder::Count(order) => order.empty(),
            AnyOrder::Price(order) => (order.empty(), 0),
            AnyOrder::Longest(order) => (order.empty(), 0),
        }
    }

    fn price(&self, term: Term) -> (u32, u32) {
        match self {
            AnyOrder::Count(order) => order.price(term),
            AnyOrder::Price(order) => (order.price(term), 0),
            AnyOrder::Longest(order) => (order.price(term), 0),
        }
    }

    fn join(&self, a: (u32, u32), b: (u32, u32)) -> (u32, u32) {
        match self {
            AnyOrder::Count(order) => order.join(a, b),
            AnyOrder::Price(order) => (order.join(a.0, b.0), 0),
            AnyOrder::Longest(order) => (order.join(a.0, b.0), 0),
        }
    }

    fn at_most(&self, a: (u32, u32), b: (u32, u32)) -> bool {
        match self {
            AnyOrder::Count(order) => order.at_most(a, b),
            AnyOrder::Price(order) => order.at_most(a.0, b.0),
            AnyOrder::Longest(order) => order.at_most(a.0, b.0),
        }
    }
}
