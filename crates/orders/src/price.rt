// The sum of prices: one for each term, and one for each contact, by its input.
ghost use Rattle.std.specs.Prelude.{◌≡◌, suc, ◌+◌, ◌*◌, ◌<◌, true, replicate, nat_le, slice_index};
ghost use Rattle.orders.specs.Kinds.{all_small, by_price, contact_prices, price_at, stopped, priced, prices_after};
ghost use Rattle.orders.specs.Lawful.{price_laws};
ghost use Rattle.terms.specs.Terms.{bit};

use crate::order::CostOrder;
use terms::{Refusal, Term};

const HIGHEST_PRICE: usize = 1000;

// The first price is the term's; the one after it belongs to a contact of input 0, and so on. None is above 1,000.
#[derive(Clone, Copy, Debug, PartialEq, Eq)]
pub struct Price {
    pub prices: [usize; 9],
    ghost small: { all_small prices ≡ true },
}

impl Price {
    // All prices 1.
    pub fn new() -> Price
        ensures { result.prices ≡ replicate 9 1 }
    {
        Price { prices: [1; 9] }
    }

    // Takes nine prices: the term's, and then one for a contact of each input from input 0 on.
    pub fn set_prices(&mut self, prices: [usize; 9]) -> Result<(), Refusal>
        ensures result { result ≡ priced prices }
        ensures after { self.new.prices ≡ prices_after self.old.prices prices }
    {
        if !prices.iter().all(|&price| price <= HIGHEST_PRICE) {
            return Err(Refusal::PriceTooHigh);
        }
        *self = Price { prices };
        Ok(())
    }

    // What a term's contact at an input costs, and nothing where it has none there.
    fn contact_price(&self, term: Term, input: usize) -> usize
        requires { input < 8 }
        ensures { result ≡ bit term.mask input * slice_index self.now.prices (suc input) }
    {
        if term.mask >> input & 1 == 0 {
            return 0;
        }
        self.prices[input + 1]
    }

    // What the contacts of a term cost.
    fn contact_prices(&self, term: Term) -> usize
        ensures { result ≡ contact_prices self.now.prices term }
    {
        (0..8).map(|input| self.contact_price(term, input)).sum()
    }
}

impl Default for Price {
    ghost is_default = { λ price. price.prices ≡ replicate 9 1 };

    fn default() -> Price {
        Price::new()
    }
}

impl CostOrder for Price {
    type Total = u32;

    ghost meaning = { λ o. by_price o.prices };

    ghost laws = { λ o. price_laws o.prices };

    ghost exact = { λ _ a. a };

    ghost empty_gives = { λ _ r. r ≡ 0 };

    ghost price_gives = { λ o term r. r ≡ price_at o.prices term };

    ghost join_gives = { λ _ a b r. r ≡ stopped (a + b) };

    ghost at_most_gives = { λ _ a b r. r ≡ nat_le a b };

    fn empty(&self) -> u32 {
        0
    }

    #[tactic(auto, using(crate::proofs::Small::price_small))]
    fn price(&self, term: Term) -> u32 {
        (self.prices[0] + self.contact_prices(term)) as u32
    }

    #[tactic(auto, using(crate::proofs::Small::price_joins))]
    fn join(&self, a: u32, b: u32) -> u32 {
        a.saturating_add(b)
    }

    fn at_most(&self, a: u32, b: u32) -> bool {
        a <= b
    }
}
