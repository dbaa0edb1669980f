// Finding the essential primes: those that alone hold some need.
ghost use Rattle.std.specs.Prelude.{◌≡◌, map, position};
ghost use Rattle.fixed.specs.Lists.{entries, Tidy};
ghost use Rattle.primes.specs.Records.{fresh, record_of, no_prime, terms_in, record_meets, sole_place};

use crate::need::{Need, NeedList};
use crate::prime::{Prime, PrimeList};

// Notes in each record whether the prime is essential for the needs. A loop, since each need may change a record.
pub(crate) fn mark_essentials(list: &mut PrimeList, needs: &NeedList)
    requires items { entries list.old ≡ map (fresh (entries needs.now)) (terms_in list.old) }
    requires tidy { Tidy no_prime list.old }
    ensures items { entries list.new ≡ map (record_of (terms_in list.old) (entries needs.now)) (terms_in list.old) }
    ensures tidy { Tidy no_prime list.new }
{
    for need in needs.as_slice() {
        if let Some(place) = sole_holder(list.as_slice(), *need) {
            let prime = list.as_slice()[place];
            list.set(
                place,
                Prime {
                    essential: true,
                    ..prime
                },
            );
        }
    }
}

// The place of the only prime that holds a need, where there is just one.
fn sole_holder(primes: &[Prime], need: Need) -> Option<usize>
    ensures { result ≡ sole_place (record_meets need) primes.now }
{
    let place = first_holder(primes, need)?;
    match first_holder(&primes[place + 1..], need) {
        Some(_) => None,
        None => Some(place),
    }
}

// The place of the first prime that holds a need.
fn first_holder(primes: &[Prime], need: Need) -> Option<usize>
    ensures { result ≡ position (record_meets need) primes.now }
{
    primes.iter().position(|prime| need.is_met_by(prime.term))
}
