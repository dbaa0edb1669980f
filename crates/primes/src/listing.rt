// Listing the primes of a source.
ghost use Rattle.std.specs.Prelude.{◌≡◌, ◌<◌, map, length, IfOk, MatchResult};
ghost use Rattle.fixed.specs.Lists.{entries, padded, Tidy};
ghost use Rattle.terms.specs.declared.refusal.Refusal.TheVariants.{TooManyPrimes};
ghost use Rattle.primes.specs.Primes.{primes};
ghost use Rattle.primes.specs.PrimeLaws.{PrimesListed, PrimesRising};
ghost use Rattle.primes.specs.Records.{fresh, no_prime, records, primes_break};
ghost use Rattle.sources.specs.Rules.{judged, settled};

use crate::digits::{digit, power};
use crate::essentials::mark_essentials;
use crate::implicants::judge_all;
use crate::need::{NeedList, Work};
use crate::needs::list_needs;
use crate::prime::PrimeList;
use crate::records::push;
use sources::Source;
use terms::Refusal;

// The primes in rising number, with their needs counted, unless there are more than 256: every implicant is tried, and the
// trial ends at the first input that can be dropped. A labelled loop, since that input ends the trial of its term.
fn find_primes<S: Source>(source: &S, needs: &NeedList) -> Result<PrimeList, Refusal>
    ensures items { MatchResult result (λ list. entries list ≡ map (fresh (entries needs.now)) (primes (S.Source.meaning source.now))) (λ e. (e ≡ TooManyPrimes) × (256 < length (primes (S.Source.meaning source.now)))) }
    ensures tidy { IfOk result (λ list. Tidy no_prime list) }
{
    let n = source.inputs();
    let found = judge_all(source);
    let mut list = PrimeList::new();
    'terms: for x in 0..power(n) {
        if found.contains(x) {
            for i in 0..n {
                let d = digit(x, i);
                if d != 0 && found.contains(x - d * power(i)) {
                    continue 'terms;
                }
            }
            push(&mut list, x, needs).map_err(|_| Refusal::TooManyPrimes)?;
        }
    }
    Ok(list)
}

// Fills the list with the primes of a source, the earliest first, and notes of each how many needs of the work it holds and
// whether it is essential. The records behind the last prime are blank; a refusal leaves the whole list as it was.
pub fn primes<S: Source>(source: &S, work: Work, list: &mut PrimeList) -> Result<(), Refusal>
    ensures result { result ≡ judged (primes_break (S.Source.meaning source.now)) tt }
    ensures table { entries list.new ≡ settled (primes_break (S.Source.meaning source.now)) (entries list.old) (records (S.Source.meaning source.now) work) }
    ensures whole { list.new.items ≡ settled (primes_break (S.Source.meaning source.now)) list.old.items (padded 256 no_prime (records (S.Source.meaning source.now) work)) }
    ensures count { list.new.len ≡ settled (primes_break (S.Source.meaning source.now)) list.old.len (length (primes (S.Source.meaning source.now))) }
    ensures listed { PrimesListed }
    ensures rising { PrimesRising }
{
    let needs = list_needs(source, work);
    let mut found = find_primes(source, &needs)?;
    mark_essentials(&mut found, &needs);
    *list = found;
    Ok(())
}
