// One step of a search.

// A column taken or banned; where it was taken by a decision, the other side is still owed.
// Two flags and no enum of three: a decision that bans is the fourth, and `fix` may be asked for it. No enum of two for `takes`
// either: the definitions use the flag as a test (`taken_by` asks `takes && column == k`), and so does `mark`.
#[derive(Clone, Copy, Default)]
pub struct Step {
    pub column: usize,
    pub takes: bool,
    pub decided: bool,
}
