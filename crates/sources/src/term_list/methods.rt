// Making and filling a term list.
ghost use Rattle.std.specs.Prelude.{◌≡◌, true, [], map, is_ok, if◌then◌else◌, MatchResult};
ghost use Rattle.sources.specs.Rules.{judged};
ghost use Rattle.sources.specs.TermLists.{bytes, listed, term_table, all_terms, fill_breaks, Filled};
ghost use Rattle.terms.specs.declared.failure.Failure.TheVariants.{OutOfMemory};

use crate::term_list::TermList;
use std::alloc::Global;
use terms::{Failure, Refusal, Term};

impl TermList {
    // One input and empty lists: OFF throughout.
    pub fn new(heap: Global) -> TermList
        ensures { term_table result ≡ listed 1 [] [] }
    {
        TermList {
            inputs: 1,
            on: Vec::new(heap),
            free: Vec::new(heap),
        }
    }

    // Takes a number of inputs and two lists of terms, each term a mask and levels, in place of what it held.
    pub fn fill(
        &mut self,
        heap: Global,
        inputs: usize,
        on: &[(u8, u8)],
        free: &[(u8, u8)],
    ) -> Result<(), Failure>
        ensures result { Filled (fill_breaks inputs on.now free.now) result }
        ensures after { term_table self.new ≡ (if is_ok result then listed inputs on.now free.now else term_table self.old) }
    {
        judge(inputs, on, free)?;
        let on = gather(heap, inputs, on)?;
        let free = gather(heap, inputs, free)?;
        *self = TermList { inputs, on, free };
        Ok(())
    }
}

// Whether such lists may be filled in.
fn judge(inputs: usize, on: &[(u8, u8)], free: &[(u8, u8)]) -> Result<(), Refusal>
    ensures { result ≡ judged (fill_breaks inputs on.now free.now) tt }
{
    if !(1..=8).contains(&inputs) {
        return Err(Refusal::InputsOutOfRange);
    }
    if !all_terms(inputs, on) || !all_terms(inputs, free) {
        return Err(Refusal::MalformedTerm);
    }
    Ok(())
}

// Whether every pair of bytes is a term of so many inputs.
fn all_terms(inputs: usize, terms: &[(u8, u8)]) -> bool
    ensures { result ≡ all_terms inputs terms.now }
{
    terms
        .iter()
        .all(|&(mask, levels)| Term::new(inputs, mask, levels).is_ok())
}

// The terms of a list of pairs of bytes.
fn gather(heap: Global, inputs: usize, terms: &[(u8, u8)]) -> Result<Vec<Term>, Failure>
    requires { all_terms inputs terms.now ≡ true }
    ensures { MatchResult result (λ v. map bytes v.items ≡ terms.now) (λ e. e ≡ OutOfMemory) }
{
    // A loop: tried `try_collect`, and the answer that it gathers these very terms did not close.
    let mut gathered = Vec::new(heap);
    for &(mask, levels) in terms {
        gathered.push(Term::new(inputs, mask, levels)?)?;
    }
    Ok(gathered)
}
