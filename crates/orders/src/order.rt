// The one interface to a cost order.
ghost use Rattle.std.specs.Prelude.{◌≡◌, Bool, ⊤};
ghost use Rattle.terms.specs.declared.term.Term.{Term as TermOf};
ghost use Rattle.orders.specs.Orders.{Meaning, Laws, JoinsExactly, ComparesExactly};

use terms::Term;

// Asking changes nothing, and no question is refused.
pub trait CostOrder {
    // the order's own kind of total
    type Total: Copy;

    // what the order means, over exact totals
    ghost meaning: { Self → Meaning };

    // the five laws
    ghost laws: { (o : Self) → Laws (meaning o) };

    // the exact total that a total stands for
    ghost exact: { (o : Self) → Self.Total → (meaning o).Total };

    // what each method may answer, at any totals; an order may leave it open
    ghost empty_gives: { Self → Self.Total → Type 0 } = { λ _ _. ⊤ };

    ghost price_gives: { Self → TermOf → Self.Total → Type 0 } = { λ _ _ _. ⊤ };

    ghost join_gives: { Self → Self.Total → Self.Total → Self.Total → Type 0 } = { λ _ _ _ _. ⊤ };

    ghost at_most_gives: { Self → Self.Total → Self.Total → Bool → Type 0 } = { λ _ _ _ _. ⊤ };

    // What no terms cost.
    fn empty(&self) -> Self::Total
        ensures exact { exact self.now result ≡ (meaning self.now).empty }
        ensures value { empty_gives self.now result };

    // What one term costs.
    fn price(&self, term: Term) -> Self::Total
        ensures exact { exact self.now result ≡ (meaning self.now).price term }
        ensures value { price_gives self.now term result };

    // What two sets of terms cost together, of at most 256 terms in all.
    fn join(&self, a: Self::Total, b: Self::Total) -> Self::Total
        ensures exact { JoinsExactly (meaning self.now) (exact self.now a) (exact self.now b) (exact self.now result) }
        ensures value { join_gives self.now a b result };

    // Whether one total is at most another, of at most 256 terms each. No default body: it would ask `Ord` of every kind of total.
    fn at_most(&self, a: Self::Total, b: Self::Total) -> bool
        ensures exact { ComparesExactly (meaning self.now) (exact self.now a) (exact self.now b) result }
        ensures value { at_most_gives self.now a b result };
}
