// Any sequence of calls on a new truth table.
ghost use Rattle.std.specs.Prelude.{◌≡◌, [], IfOk};
ghost use Rattle.sources.specs.Model.{answers, Faithful};

use crate::call::{Call, Outcome};
use crate::truth_table::TruthTable;
use std::alloc::{AllocError, Global};

// Makes the calls one after the other on a new truth table, and says what each came to.
pub fn run_calls(heap: Global, calls: &[Call]) -> Result<Vec<Outcome>, AllocError>
    ensures value { IfOk result (λ v. v.items ≡ answers [] calls.now) }
    ensures law { IfOk result (λ v. Faithful calls.now v.items) }
{
    // A loop: each call changes the table, and of what such a closure returned a chain's proof would know nothing.
    let mut truth = TruthTable::new();
    let mut outcomes = Vec::new(heap);
    for call in calls {
        outcomes.push(truth.call(*call))?;
    }
    Ok(outcomes)
}
