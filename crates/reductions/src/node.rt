// A node of the search.
ghost use Rattle.std.specs.Prelude.{◌≡◌, ℕ, ◌<◌, true, if◌then◌else◌, slice_set, not, ◌&&◌, ◌||◌, ◌==◌};
ghost use Rattle.fixed.specs.Sets.{member};

use charts::ColumnSet;

// The columns that a set must have, and those that it must lack.
#[derive(Clone, Copy)]
pub struct Node {
    pub taken: ColumnSet,
    pub banned: ColumnSet,
}

impl Node {
    // Takes a column, or bans it; a flag, since a step keeps it as one.
    pub fn mark(&mut self, column: usize, takes: bool)
        ensures taken { (k : ℕ) → k < 256 → member self.new.taken k ≡ ((takes && column == k) || member self.old.taken k) }
        ensures taken_table { self.new.taken.on ≡ (if takes then slice_set self.old.taken.on column true else self.old.taken.on) }
        ensures banned { (k : ℕ) → k < 256 → member self.new.banned k ≡ ((not takes && column == k) || member self.old.banned k) }
        ensures banned_table { self.new.banned.on ≡ (if takes then self.old.banned.on else slice_set self.old.banned.on column true) }
    {
        if takes {
            self.taken.insert(column);
        } else {
            self.banned.insert(column);
        }
    }
}
