// A cofactor as a source.
ghost use Rattle.std.specs.Prelude.{◌≡◌, ◌<◌};
ghost use Rattle.layers.specs.Layers.{view, in_force, put_in};
ghost use Rattle.layers.specs.ProperLayers.{view_proper};

use crate::cofactor::Cofactor;
use crate::cofactor::methods::judge;
use crate::setting::Setting;
use sources::Source;
use terms::{Mark, Refusal};

impl<S: Source> Source for Cofactor<S> {
    ghost meaning = { λ s. view s.setting (S.Source.meaning s.below) };

    ghost proper = { λ s. view_proper s.setting (S.Source.meaning s.below) (S.Source.proper s.below) };

    fn inputs(&self) -> usize {
        let inputs = self.below.inputs();
        match held(self.setting, inputs) {
            None => inputs,
            Some(_) => inputs - 1,
        }
    }

    fn look(&self, row: usize) -> Result<Mark, Refusal> {
        let inputs = self.below.inputs();
        match held(self.setting, inputs) {
            None => self.below.look(row),
            Some(setting) => {
                if row >= 1 << (inputs - 1) {
                    return Err(Refusal::NoSuchRow);
                }
                self.below.look(put_in(setting, row))
            }
        }
    }
}

// The setting, where a source of so many inputs has such an input to hold.
fn held(setting: Option<Setting>, inputs: usize) -> Option<Setting>
    ensures { result ≡ in_force inputs setting }
{
    setting.filter(|held| judge(inputs, held.input).is_ok())
}

// The row below: the held input put in at its level, the inputs from it on moved up one.
fn put_in(setting: Setting, row: usize) -> usize
    requires input { setting.input < 8 }
    requires row { row < 256 }
    ensures { result ≡ put_in setting.input setting.level row }
{
    let weight = 1 << setting.input;
    let level = usize::from(setting.level);
    row / weight * (2 * weight) + (level * weight + row % weight)
}
