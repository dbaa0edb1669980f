// What is asked of a trail.
ghost use Rattle.std.specs.Prelude.{◌≡◌, length};
ghost use Rattle.reductions.specs.Steps.{is_free};
ghost use Rattle.reductions.specs.Trails.{steps_of, taken, banned};

use crate::node::Node;
use crate::trail::Trail;

impl Trail {
    // The node that the steps lead to.
    pub fn node(&self) -> &Node
        ensures { result.now ≡ self.now.node }
    {
        &self.node
    }

    // How many steps there are.
    pub fn len(&self) -> usize
        ensures { result ≡ length (steps_of self.now) }
    {
        self.steps.len()
    }

    // Whether a column is neither taken nor banned.
    pub fn is_free(&self, column: usize) -> bool
        ensures { result ≡ is_free (taken self.now.node) (banned self.now.node) column }
    {
        column < 256 && !self.node.taken.contains(column) && !self.node.banned.contains(column)
    }
}
