// The cofactor of any source: one input held at a level.
ghost use Rattle.std.specs.Prelude.{◌≡◌};

use crate::setting::Setting;

pub mod methods;
pub mod source;

// Open, it passes everything. It gives no way to write to what lies below.
#[derive(Clone, Copy, Drop, Debug)]
pub struct Cofactor<S> {
    below: S,
    setting: Option<Setting>,
}

impl<S> Cofactor<S> {
    // What is held, where something is.
    pub fn setting(&self) -> Option<Setting>
        ensures { result ≡ self.now.setting }
    {
        self.setting
    }

    // What lies below.
    pub fn below(&self) -> &S
        ensures { result.now ≡ self.now.below }
    {
        &self.below
    }

    // Takes the layer off.
    pub fn into_below(self) -> S
        ensures { result ≡ self.below }
    {
        let Cofactor { below, setting: _ } = self;
        below
    }
}
