// Which need to settle next, and by which column.
ghost use Rattle.std.specs.Prelude.{◌≡◌, ◌<◌, true, false, not, filter, length, IfSome, IsNone};
ghost use Rattle.fixed.specs.Sets.{member};
ghost use Rattle.charts.specs.Sets.{is_held};
ghost use Rattle.reductions.specs.Spares.{needs as needs_of, is_left, left_for};
ghost use Rattle.reductions.specs.Trails.{taken, banned};

use charts::{Chart, ColumnSet};
use reductions::{NeedSet, Node, held_by, is_left, open_needs};
use std::cmp::Reverse;

// How many columns are left for the need.
fn count_left<C: Chart>(chart: &C, left_out: &ColumnSet, need: usize) -> usize
    ensures { result ≡ length (left_for (C.Chart.grid chart.now) (member left_out.now) need) }
{
    (0..chart.columns())
        .filter(|column| is_left(chart, left_out, need, *column))
        .count()
}

// Of the needs that no taken column holds, one with the fewest columns left; none where each is held.
pub(crate) fn hardest_need<C: Chart>(chart: &C, node: &Node) -> Option<usize>
    ensures there { IfSome result (λ i. i < (C.Chart.grid chart.now).wanted) }
    ensures unheld { IfSome result (λ i. is_held (C.Chart.grid chart.now) (taken node.now) i ≡ false) }
    ensures none { IsNone result → length (filter (λ i. not (is_held (C.Chart.grid chart.now) (taken node.now) i)) (needs_of (C.Chart.grid chart.now))) ≡ 0 }
{
    (0..chart.needs())
        .filter(|need| !held_by(chart, &node.taken, *need))
        .min_by_key(|need| count_left(chart, &node.banned, *need))
}

// How many of the needs the column holds.
fn count_held<C: Chart>(chart: &C, needs: &NeedSet, column: usize) -> usize
    ensures { result ≡ length (filter (λ i. (C.Chart.grid chart.now).held column i) (filter (member needs.now) (needs_of (C.Chart.grid chart.now)))) }
{
    (0..chart.needs())
        .filter(|need| needs.contains(*need))
        .filter(|need| chart.holds(column, *need))
        .count()
}

// Of the columns that are left for the need, one that holds the most open needs.
pub(crate) fn widest_column<C: Chart>(chart: &C, node: &Node, need: usize) -> Option<usize>
    ensures there { IfSome result (λ c. c < (C.Chart.grid chart.now).width) }
    ensures left { IfSome result (λ c. is_left (C.Chart.grid chart.now) (banned node.now) need c ≡ true) }
    ensures none { IsNone result → length (left_for (C.Chart.grid chart.now) (banned node.now) need) ≡ 0 }
{
    let needs = open_needs(chart, &node.taken);
    (0..chart.columns())
        .filter(|column| is_left(chart, &node.banned, need, *column))
        .min_by_key(|column| Reverse(count_held(chart, &needs, *column)))
}
