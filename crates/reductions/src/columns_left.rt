// Which columns hold a need. The chart, what is left out and the need stay three parameters, here and in what asks about columns:
// a struct of the two references would lengthen every clause, and be no plainer.
ghost use Rattle.std.specs.Prelude.{◌≡◌, ℕ, ◌+◌, ◌-◌, ◌<◌, true, false, IfSome};
ghost use Rattle.std.specs.List.{list_any, range_with_len};
ghost use Rattle.fixed.specs.Sets.{member};
ghost use Rattle.charts.specs.Sets.{is_held, HeldTells};
ghost use Rattle.reductions.specs.Spares.{is_left, OnlyLeft};

use charts::{Chart, ColumnSet};

// Whether one of the set's columns holds the need.
pub fn held_by<C: Chart>(chart: &C, set: &ColumnSet, need: usize) -> bool
    ensures value { result ≡ is_held (C.Chart.grid chart.now) (member set.now) need }
    ensures law { HeldTells }
{
    (0..chart.columns())
        .filter(|column| set.contains(*column))
        .any(|column| chart.holds(column, need))
}

// Whether the column holds the need and is not left out.
pub fn is_left<C: Chart>(chart: &C, left_out: &ColumnSet, need: usize, column: usize) -> bool
    ensures { result ≡ is_left (C.Chart.grid chart.now) (member left_out.now) need column }
{
    !left_out.contains(column) && chart.holds(column, need)
}

// The one column that is left for the need; none where there is no such column, or more than one.
pub(crate) fn only_column<C: Chart>(chart: &C, banned: &ColumnSet, need: usize) -> Option<usize>
    ensures { IfSome result (OnlyLeft (C.Chart.grid chart.now) (member banned.now) need) }
{
    let only = first_left(chart, banned, need)?;
    if has_another(chart, banned, need, only) {
        return None;
    }
    Some(only)
}

// The first column that is left for the need.
fn first_left<C: Chart>(chart: &C, banned: &ColumnSet, need: usize) -> Option<usize>
    ensures there { IfSome result (λ c. c < (C.Chart.grid chart.now).width) }
    ensures left { IfSome result (λ c. is_left (C.Chart.grid chart.now) (member banned.now) need c ≡ true) }
    ensures first { IfSome result (λ c. (k : ℕ) → k < c → is_left (C.Chart.grid chart.now) (member banned.now) need k ≡ false) }
{
    (0..chart.columns()).find(|column| is_left(chart, banned, need, *column))
}

// Whether a column after this one is left for the need.
fn has_another<C: Chart>(chart: &C, banned: &ColumnSet, need: usize, only: usize) -> bool
    requires { only < (C.Chart.grid chart.now).width }
    ensures { result ≡ list_any (is_left (C.Chart.grid chart.now) (member banned.now) need) (range_with_len (only + 1) ((C.Chart.grid chart.now).width - (only + 1))) }
{
    (only + 1..chart.columns()).any(|column| is_left(chart, banned, need, column))
}
