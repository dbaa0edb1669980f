// The complement of any source: ON and OFF change places, FREE stays.
ghost use Rattle.std.specs.Prelude.{◌≡◌};
ghost use Rattle.layers.specs.Layers.{complement, opposite, ComplementTwice};
ghost use Rattle.layers.specs.ProperLayers.{complement_proper};

use sources::Source;
use terms::{Mark, Refusal};

// It gives no way to write to what lies below.
#[derive(Clone, Copy, Drop, Debug)]
pub struct Complement<S> {
    below: S,
}

impl<S> Complement<S> {
    #[tactic(auto, using(crate::proofs::Layering::complement_twice))]
    pub fn new(below: S) -> Complement<S>
        ensures value { result.below ≡ below }
        ensures twice { ComplementTwice }
    {
        Complement { below }
    }

    // What lies below.
    pub fn below(&self) -> &S
        ensures { result.now ≡ self.now.below }
    {
        &self.below
    }

    // Takes the layer off.
    pub fn into_below(self) -> S
        ensures { result ≡ self.below }
    {
        let Complement { below } = self;
        below
    }
}

impl<S: Source> Source for Complement<S> {
    ghost meaning = { λ s. complement (S.Source.meaning s.below) };

    ghost proper = { λ s. complement_proper (S.Source.meaning s.below) (S.Source.proper s.below) };

    fn inputs(&self) -> usize {
        self.below.inputs()
    }

    fn look(&self, row: usize) -> Result<Mark, Refusal> {
        self.below.look(row).map(opposite)
    }
}

// The mark that stands in the complement.
fn opposite(mark: Mark) -> Mark
    ensures { result ≡ opposite mark }
{
    match mark {
        Mark::Off => Mark::On,
        Mark::On => Mark::Off,
        Mark::Free => Mark::Free,
    }
}
