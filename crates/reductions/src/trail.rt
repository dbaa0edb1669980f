// The trail of a search.
ghost use Rattle.std.specs.Prelude.{◌≡◌, ℕ, true, reverse};
ghost use Rattle.fixed.specs.Lists.{entries};
ghost use Rattle.fixed.specs.Sets.{member};
ghost use Rattle.reductions.specs.Steps.{taken_by, banned_by, is_fresh};

use crate::node::Node;
use crate::step::Step;
use fixed::FixedList;

pub mod methods;
pub mod reading;

// A stack of steps from a root, and the node that they lead to. Each column was free when its step came.
#[derive(Clone, Copy)]
pub struct Trail {
    root: Node,
    steps: FixedList<Step, 256>,
    node: Node,
    ghost fresh: { is_fresh (member root.taken) (member root.banned) (reverse (entries steps)) ≡ true },
    ghost taken: { (k : ℕ) → member node.taken k ≡ taken_by (member root.taken) (reverse (entries steps)) k },
    ghost banned: { (k : ℕ) → member node.banned k ≡ banned_by (member root.banned) (reverse (entries steps)) k },
}
