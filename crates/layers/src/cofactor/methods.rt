// Setting and releasing a cofactor.
ghost use Rattle.std.specs.Prelude.{◌≡◌, Some, None};
ghost use Rattle.sources.specs.Rules.{judged, settled};
ghost use Rattle.layers.specs.Layers.{hold_breaks, cofactor, view, PutInBits, CofactorRows, LayersCommute};

use crate::cofactor::Cofactor;
use crate::setting::Setting;
use sources::Source;
use terms::Refusal;

impl<S: Source> Cofactor<S> {
    // Open.
    pub fn new(below: S) -> Cofactor<S>
        ensures below { result.below ≡ below }
        ensures setting { result.setting ≡ None }
    {
        Cofactor {
            below,
            setting: None,
        }
    }

    // Holds an input of what lies below at a level, in place of what was held before.
    pub fn set(&mut self, input: usize, level: bool) -> Result<(), Refusal>
        ensures result { result ≡ judged (hold_breaks (S.Source.meaning self.old.below).inputs input) tt }
        ensures below { self.new.below ≡ self.old.below }
        ensures setting { self.new.setting ≡ settled (hold_breaks (S.Source.meaning self.old.below).inputs input) self.old.setting (Some (record { input = input; level = level })) }
        ensures meaning { view self.new.setting (S.Source.meaning self.new.below) ≡ settled (hold_breaks (S.Source.meaning self.old.below).inputs input) (view self.old.setting (S.Source.meaning self.old.below)) (cofactor input level (S.Source.meaning self.old.below)) }
        ensures bits { PutInBits }
        ensures rows { CofactorRows }
        ensures commute { LayersCommute }
    {
        judge(self.below.inputs(), input)?;
        self.setting = Some(Setting { input, level });
        Ok(())
    }

    // Opens it again.
    pub fn release(&mut self)
        ensures below { self.new.below ≡ self.old.below }
        ensures setting { self.new.setting ≡ None }
    {
        self.setting = None;
    }
}

// Whether an input of a source of so many inputs can be held.
pub(crate) fn judge(inputs: usize, input: usize) -> Result<(), Refusal>
    ensures { result ≡ judged (hold_breaks inputs input) tt }
{
    if input >= inputs {
        return Err(Refusal::NoSuchInput);
    }
    if inputs == 1 {
        return Err(Refusal::OnlyInput);
    }
    Ok(())
}
