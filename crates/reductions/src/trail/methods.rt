// Moves of a search along its trail.
ghost use Rattle.std.specs.Prelude.{◌≡◌, ℕ, true, [], ◌∷◌, reverse, if◌then◌else◌};
ghost use Rattle.fixed.specs.Lists.{entries};
ghost use Rattle.fixed.specs.Sets.{member};
ghost use Rattle.reductions.specs.Steps.{step, taken_by, banned_by, is_free, is_fresh, owes, backed};
ghost use Rattle.reductions.specs.Trails.{steps_of, taken, banned};

use crate::node::Node;
use crate::step::Step;
use crate::trail::Trail;
use fixed::FixedList;

impl Trail {
    // No step yet.
    pub fn new(root: &Node) -> Trail
        ensures root { result.root ≡ root.now }
        ensures steps { steps_of result ≡ [] }
    {
        Trail {
            root: *root,
            steps: FixedList::new(),
            node: *root,
        }
    }

    // Takes or bans a free column; any other stays as it is. The two flags are those of `Step`.
    pub fn fix(&mut self, column: usize, takes: bool, decided: bool)
        ensures root { self.new.root ≡ self.old.root }
        ensures steps { steps_of self.new ≡ (if is_free (taken self.old.node) (banned self.old.node) column then step column takes decided ∷ steps_of self.old else steps_of self.old) }
    {
        if !self.is_free(column) {
            return;
        }
        let step = Step {
            column,
            takes,
            decided,
        };
        self.steps.push(step).unwrap();
        self.node.mark(column, takes);
    }

    // Turns the last decision, with all that came after it undone; with none left the trail is back at its root, and that is told.
    // What it turned is in the trail, so the answer is a flag with no value beside it.
    pub fn back_up(&mut self) -> bool
        ensures root { self.new.root ≡ self.old.root }
        ensures owed { result ≡ owes (steps_of self.old) }
        ensures steps { steps_of self.new ≡ backed (steps_of self.old) }
    {
        let Trail { root, steps, node } = self;
        let turned = turn_last(steps);
        *node = replay(root, steps.as_slice());
        turned
    }
}

// Turns the last decision of the steps, and takes off what came after it; with none left no step is left, and that is told.
fn turn_last(steps: &mut FixedList<Step, 256>) -> bool
    ensures owed { result ≡ owes (reverse (entries steps.old)) }
    ensures left { reverse (entries steps.new) ≡ backed (reverse (entries steps.old)) }
{
    while let Some(last) = steps.pop() {
        if last.decided {
            let turned = Step {
                takes: false,
                decided: false,
                ..last
            };
            steps.push(turned).unwrap();
            return true;
        }
    }
    false
}

// The node that the steps lead to.
fn replay(root: &Node, steps: &[Step]) -> Node
    requires fresh { is_fresh (member root.now.taken) (member root.now.banned) (reverse steps.now) ≡ true }
    ensures taken { (k : ℕ) → member result.taken k ≡ taken_by (member root.now.taken) (reverse steps.now) k }
    ensures banned { (k : ℕ) → member result.banned k ≡ banned_by (member root.now.banned) (reverse steps.now) k }
{
    let mut node = *root;
    for step in steps {
        node.mark(step.column, step.takes);
    }
    node
}
