// The needs that are open, and those that follow from others.
ghost use Rattle.std.specs.Prelude.{◌≡◌, ℕ, ◌<◌, ◌≤◌, true, false, ◌⊎◌, not, ◌&&◌, nat_lt};
ghost use Rattle.fixed.specs.Sets.{member};
ghost use Rattle.charts.specs.Sets.{is_held, Held};
ghost use Rattle.reductions.specs.Spares.{Enough, follows, is_implied};
ghost use Rattle.reductions.specs.Trails.{taken, banned};

use crate::columns_left::{held_by, is_left};
use crate::needs::NeedSet;
use crate::node::Node;
use charts::{Chart, ColumnSet};

// The needs that no column of the set holds.
pub fn open_needs<C: Chart>(chart: &C, columns: &ColumnSet) -> NeedSet
    ensures value { (i : ℕ) → member result i ≡ (nat_lt i (C.Chart.grid chart.now).wanted && not (is_held (C.Chart.grid chart.now) (member columns.now) i)) }
    ensures closed { (i : ℕ) → i < (C.Chart.grid chart.now).wanted → member result i ≡ false → Held (C.Chart.grid chart.now) (member columns.now) i }
    ensures loose { (i : ℕ) → i < (C.Chart.grid chart.now).wanted → member result i ≡ true → (c : ℕ) → c < (C.Chart.grid chart.now).width → member columns.now c ≡ true → (C.Chart.grid chart.now).held c i ≡ false }
    ensures past { (i : ℕ) → (C.Chart.grid chart.now).wanted ≤ i → member result i ≡ false }
{
    NeedSet::from_fn_below(
        chart.needs(),
        |need: usize| -> bool
            ensures { result ≡ not (is_held (C.Chart.grid chart.entry.now) (member columns.entry.now) need) }
        { !held_by(chart, columns, need) },
    )
}

// Whether each column that is left for the need `i` holds the need `j`.
fn follows<C: Chart>(chart: &C, left_out: &ColumnSet, i: usize, j: usize) -> bool
    ensures { result ≡ follows (C.Chart.grid chart.now) (member left_out.now) i j }
{
    (0..chart.columns())
        .filter(|column| is_left(chart, left_out, i, *column))
        .all(|column| chart.holds(column, j))
}

// Whether the need is held wherever another of the needs is.
fn is_implied<C: Chart>(chart: &C, left_out: &ColumnSet, needs: &NeedSet, j: usize) -> bool
    ensures { result ≡ is_implied (C.Chart.grid chart.now) (member left_out.now) (member needs.now) j }
{
    (0..chart.needs())
        .filter(|i| *i != j)
        .filter(|i| needs.contains(*i))
        .any(|i| follows(chart, left_out, i, j))
}

// Needs that are enough at the node: the open ones, each left out that is held wherever another one is.
pub(crate) fn needs_to_hold<C: Chart>(chart: &C, node: &Node) -> NeedSet
    ensures { Enough (C.Chart.grid chart.now) (taken node.now) (banned node.now) (member result) }
{
    let mut needs = open_needs(chart, &node.taken);
    // A loop: each need that goes changes the set that the next turn asks.
    for need in 0..chart.needs() {
        if needs.contains(need) && is_implied(chart, &node.banned, &needs, need) {
            needs.remove(need);
        }
    }
    needs
}
