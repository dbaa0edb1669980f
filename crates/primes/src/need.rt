// What a cover must hold.
ghost use Rattle.std.specs.Prelude.{◌≡◌};
ghost use Rattle.primes.specs.Needs.{meets};

use fixed::FixedList;
use terms::Term;

// Plain work asks for the ON rows; hazard-free work also for every two neighbouring ON rows together.
#[derive(Clone, Copy, PartialEq, Eq, Debug)]
pub enum Work {
    Plain,
    HazardFree,
}

// A need: two rows that one term must hold together; a row alone is the same row twice.
#[derive(Clone, Copy, Debug, Default)]
pub struct Need {
    pub low: usize,
    pub high: usize,
}

impl Need {
    // Whether a term holds the need: both its rows.
    pub fn is_met_by(self, term: Term) -> bool
        ensures { result ≡ meets term self }
    {
        term.holds(self.low) && term.holds(self.high)
    }
}

// Needs, at most 1,280: as many as 8 inputs can have, 256 rows and 1,024 pairs.
pub type NeedList = FixedList<Need, 1280>;
