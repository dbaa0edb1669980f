// Listing the needs of a source.
ghost use Rattle.std.specs.Prelude.{◌≡◌, ◌^◌, ◌<◌, [], ◌∷◌, length};
ghost use Rattle.fixed.specs.Lists.{entries, padded, Tidy};
ghost use Rattle.primes.specs.Needs.{needs, row_need, row_needs, is_needed, pair_need, pairs_at, pairs, added};

use crate::need::{Need, NeedList, Work};
use sources::Source;

// The needs of a source in some kind of work. There is room for all of them: 8 inputs have 256 rows and 1,024 pairs. What stands
// behind them is blank.
pub fn list_needs<S: Source>(source: &S, work: Work) -> NeedList
    ensures items { entries result ≡ needs (S.Source.meaning source.now) work }
    ensures table { result.items ≡ padded 1280 (row_need 0) (needs (S.Source.meaning source.now) work) }
    ensures count { result.len ≡ length (needs (S.Source.meaning source.now) work) }
{
    let inputs = source.inputs();
    let mut list = NeedList::new();
    add_rows(source, inputs, &mut list);
    match work {
        Work::Plain => {}
        Work::HazardFree => add_pairs(source, inputs, &mut list),
    }
    list
}

// Adds the ON rows, rising. A loop, here and below, since each step changes the list; a struct of the source and the list
// would lend both at every call, and is no plainer.
fn add_rows<S: Source>(source: &S, inputs: usize, list: &mut NeedList)
    requires inputs { inputs ≡ (S.Source.meaning source.now).inputs }
    requires tidy { Tidy (row_need 0) list.old }
    ensures items { entries list.new ≡ added (S.Source.meaning source.now) (entries list.old) (row_needs (2 ^ (S.Source.meaning source.now).inputs)) }
    ensures tidy { Tidy (row_need 0) list.new }
{
    for row in 0..1 << inputs {
        add(
            source,
            Need {
                low: row,
                high: row,
            },
            list,
        );
    }
}

// Adds the pairs of neighbouring ON rows, by the lower row and then by the input in which they differ.
fn add_pairs<S: Source>(source: &S, inputs: usize, list: &mut NeedList)
    requires inputs { inputs ≡ (S.Source.meaning source.now).inputs }
    requires tidy { Tidy (row_need 0) list.old }
    ensures items { entries list.new ≡ added (S.Source.meaning source.now) (entries list.old) (pairs (S.Source.meaning source.now).inputs 0 (2 ^ (S.Source.meaning source.now).inputs)) }
    ensures tidy { Tidy (row_need 0) list.new }
{
    for row in 0..1 << inputs {
        add_pairs_at(source, inputs, row, list);
    }
}

// Adds the pairs with one lower row, by the input. The bound on the row is a clause: rows are plain numbers to every source.
fn add_pairs_at<S: Source>(source: &S, inputs: usize, row: usize, list: &mut NeedList)
    requires inputs { inputs ≡ (S.Source.meaning source.now).inputs }
    requires row { row < 256 }
    requires tidy { Tidy (row_need 0) list.old }
    ensures items { entries list.new ≡ added (S.Source.meaning source.now) (entries list.old) (pairs_at row 0 (S.Source.meaning source.now).inputs) }
    ensures tidy { Tidy (row_need 0) list.new }
{
    for input in 0..inputs {
        if row >> input & 1 == 0 {
            add(source, pair(row, input), list);
        }
    }
}

// A row and its neighbour with one input more at 1.
fn pair(row: usize, input: usize) -> Need
    requires row { row < 256 }
    requires input { input < 8 }
    ensures { result ≡ pair_need row input }
{
    Need {
        low: row,
        high: row + (1 << input),
    }
}

// Adds a need to the list where both its rows are ON and there is room.
fn add<S: Source>(source: &S, need: Need, list: &mut NeedList)
    requires { Tidy (row_need 0) list.old }
    ensures items { entries list.new ≡ added (S.Source.meaning source.now) (entries list.old) (need ∷ []) }
    ensures tidy { Tidy (row_need 0) list.new }
{
    if is_needed(source, need) {
        let _ = list.push(need);
    }
}

// Whether both rows of a need are ON.
fn is_needed<S: Source>(source: &S, need: Need) -> bool
    ensures { result ≡ is_needed (S.Source.meaning source.now) need }
{
    source.is_on(need.low) && source.is_on(need.high)
}
