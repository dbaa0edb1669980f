// Filling the records of the prime list.
ghost use Rattle.std.specs.Prelude.{◌≡◌, false, length, is_ok, nat_lt};
ghost use Rattle.fixed.specs.Lists.{entries, pushed, Tidy};
ghost use Rattle.primes.specs.Cubes.{term_of};
ghost use Rattle.primes.specs.Records.{held, no_prime};

use crate::digits::term_at;
use crate::need::NeedList;
use crate::prime::{Prime, PrimeList};
use fixed::list::Full;
use terms::Term;

// Adds the term of a number, with the count of the needs that it holds, where there is room.
pub(crate) fn push(list: &mut PrimeList, x: usize, needs: &NeedList) -> Result<(), Full>
    requires { Tidy no_prime list.old }
    ensures room { is_ok result ≡ nat_lt (length (entries list.old)) 256 }
    ensures after { entries list.new ≡ pushed 256 (entries list.old) (record { term = term_of x; number = x; needs = held (entries needs.now) (term_of x); essential = false }) }
    ensures tidy { Tidy no_prime list.new }
{
    let mut prime = Prime {
        term: term_at(x),
        number: x,
        needs: 0,
        essential: false,
    };
    count_needs(&mut prime, needs);
    list.push(prime)
}

// Counts the needs that a prime holds, and notes the count in its record.
fn count_needs(prime: &mut Prime, needs: &NeedList)
    ensures { prime.new ≡ record { term = prime.old.term; number = prime.old.number; needs = held (entries needs.now) prime.old.term; essential = prime.old.essential } }
{
    prime.needs = needs_held(prime.term, needs);
}

// How many needs a term holds.
fn needs_held(term: Term, needs: &NeedList) -> usize
    ensures { result ≡ held (entries needs.now) term }
{
    needs
        .as_slice()
        .iter()
        .filter(|need| need.is_met_by(term))
        .count()
}
