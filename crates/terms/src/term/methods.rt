// What is asked of a term.
ghost use Rattle.std.specs.Prelude.{◌≡◌, ◌≤◌, is_ok, IfOk, string_bytes, MatchResult};
ghost use Rattle.terms.specs.Terms.{is_term, holds, contacts, weight, number, earlier, symbol, written};
ghost use Rattle.terms.specs.TermLaws.{HoldsByLevels, NumbersDiffer, NumbersBounded};
ghost use Rattle.terms.specs.declared.refusal.Refusal.TheVariants.{MalformedTerm};

use crate::refusal::Refusal;
use crate::term::Term;
use crate::weights::weight;
use std::alloc::{AllocError, Global};

impl Term {
    // The term of two bytes, for a function of so many inputs. The struct of the two bytes is the term itself, once they make one.
    pub fn new(inputs: usize, mask: u8, levels: u8) -> Result<Term, Refusal>
        ensures test { is_ok result ≡ is_term inputs mask levels }
        ensures value { MatchResult result (λ t. (t.mask ≡ mask) × (t.levels ≡ levels)) (λ e. e ≡ MalformedTerm) }
    {
        if inputs < 8 && mask >> inputs != 0 {
            return Err(Refusal::MalformedTerm);
        }
        if levels & mask != levels {
            return Err(Refusal::MalformedTerm);
        }
        Ok(Term { mask, levels })
    }

    // Whether the term holds a row.
    #[tactic(auto, using(crate::proofs::Bits::holds_by_levels))]
    pub fn holds(self, row: usize) -> bool
        ensures value { result ≡ holds self row }
        ensures law { HoldsByLevels }
    {
        row & usize::from(self.mask) == usize::from(self.levels)
    }

    // How many contacts it takes to wire the term.
    pub fn contacts(self) -> usize
        ensures value { result ≡ contacts self }
        ensures bound { result ≤ 8 }
    {
        self.mask.count_ones() as usize
    }

    // The term's number, 0 to 6,560; no two terms share one.
    #[tactic(auto, using(crate::proofs::Numbers::numbers_differ, crate::proofs::Numbers::numbers_bounded))]
    pub fn number(self) -> usize
        ensures value { result ≡ number self }
        ensures differ { NumbersDiffer }
        ensures bounded { NumbersBounded }
    {
        weight(self.mask) + weight(self.levels)
    }

    // Whether the term comes before another in every list of terms.
    pub fn is_earlier(self, other: Term) -> bool
        ensures { result ≡ earlier self other }
    {
        self < other
    }

    // How the term is written at one input: `0` or `1` for the level it wants, `-` where it does not read the input.
    pub fn symbol(self, input: usize) -> u8
        ensures { result ≡ symbol self input }
    {
        if input >= 8 || self.mask >> input & 1 == 0 {
            return b'-';
        }
        b'0' + (self.levels >> input & 1)
    }

    // The term in writing, for a function of so many inputs: one symbol for each, the highest input first.
    pub fn written(self, heap: Global, inputs: usize) -> Result<String, AllocError>
        ensures { IfOk result (λ s. string_bytes s ≡ written inputs self) }
    {
        (0..inputs)
            .map(|k| char::from(self.symbol(inputs - 1 - k)))
            .collect(heap)
    }
}
