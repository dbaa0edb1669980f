// What a list of terms costs.
ghost use Rattle.std.specs.Prelude.{◌≡◌, ◌<◌, length, is_some, MatchOption, nat_le};
ghost use Rattle.orders.specs.Orders.{Laws, total};
ghost use Rattle.orders.specs.Kinds.{by_count, by_price, by_longest};
ghost use Rattle.orders.specs.TotalLaws.{TotalInAnyOrder, MoreCostsMore, WiderCostsLess};

use crate::order::CostOrder;
use crate::price::Price;
use terms::Term;

const MOST_TERMS: usize = 256;

// The total of up to 256 terms; totals are exact no further. Whatever the order, the sequence of the terms does not matter,
// more terms cost no less, and wider terms cost no more.
#[tactic(auto, using(crate::proofs::Totalling::any_order, crate::proofs::Totalling::more_costs_more, crate::proofs::Totalling::wider_costs_less))]
pub fn cost<O: CostOrder>(order: &O, terms: &[Term]) -> Option<O::Total>
    ensures answered { is_some result ≡ nat_le (length terms.now) 256 }
    ensures total { MatchOption result (256 < length terms.now) (λ a. O.CostOrder.exact order.now a ≡ total (O.CostOrder.meaning order.now) terms.now) }
    ensures sequence { TotalInAnyOrder (O.CostOrder.meaning order.now) }
    ensures more { MoreCostsMore (O.CostOrder.meaning order.now) }
    ensures wider { WiderCostsLess (O.CostOrder.meaning order.now) }
{
    if terms.len() > MOST_TERMS {
        return None;
    }
    // From the last term to the first, each in front of those after it, as `total` has them.
    let sum = terms.iter().rev().fold(
        order.empty(),
        |sum, &term| order.join(order.price(term), sum),
    );
    Some(sum)
}

// The three orders keep the five laws: count, price at any prices, longest. The answer is how many orders there are.
// A number that is known beforehand: the function is there for its clauses, which say of each order what the trait's `laws` holds.
#[tactic(auto, using(crate::specs::Lawful::count_laws, crate::specs::Lawful::price_laws, crate::specs::Lawful::longest_laws))]
pub fn lawful_orders(price: &Price) -> usize
    ensures count { Laws by_count }
    ensures price { Laws (by_price price.now.prices) }
    ensures longest { Laws by_longest }
    ensures orders { result ≡ 3 }
{
    3
}
