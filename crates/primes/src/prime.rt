// The prime list: up to 256 records, the earliest term first.
ghost use Rattle.std.specs.Prelude.{◌≡◌};

use crate::digits::term_at;
use fixed::FixedList;
use terms::Term;

// One prime: its term and number, how many needs it holds, and whether it alone among the primes holds some need.
#[derive(Clone, Copy)]
pub struct Prime {
    pub term: Term,
    pub number: usize,
    pub needs: usize,
    pub essential: bool,
}

impl Default for Prime {
    ghost use Rattle.primes.specs.Records.{no_prime};

    ghost is_default = { λ p. p ≡ no_prime };

    // A record that stands for no prime.
    fn default() -> Prime {
        Prime {
            term: term_at(0),
            number: 0,
            needs: 0,
            essential: false,
        }
    }
}

// Primes, as records, at most 256.
pub type PrimeList = FixedList<Prime, 256>;
