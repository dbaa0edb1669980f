// Which terms are implicants: the set of their numbers.
ghost use Rattle.std.specs.Prelude.{◌≡◌, ℕ, ◌^◌, ◌<◌, not};
ghost use Rattle.fixed.specs.Sets.{member};
ghost use Rattle.sources.specs.Sources.{off_at};
ghost use Rattle.primes.specs.Primes.{implicant_at};

use crate::digits::{byte_at, power, unread};
use fixed::FixedSet;
use sources::Source;

// Numbers of terms.
pub(crate) type Numbers = FixedSet<6561>;

// Judges every term over the source's inputs. A term that reads every input is judged by its one row; any other is an
// implicant when both terms that read one input more are, and their numbers are higher: so one pass downwards does.
// A loop over a range, since each term is judged by those before it.
pub(crate) fn judge_all<S: Source>(source: &S) -> Numbers
    ensures { (x : ℕ) → x < 3 ^ (S.Source.meaning source.now).inputs → member result x ≡ implicant_at (S.Source.meaning source.now) x }
{
    let inputs = source.inputs();
    let mut found = Numbers::none();
    for x in (0..power(inputs)).rev() {
        let is_implicant = judge(source, inputs, &found, x);
        found.put(x, is_implicant);
    }
    found
}

// Judges the term of one number over the source's inputs, where the later ones are judged.
fn judge<S: Source>(source: &S, inputs: usize, found: &Numbers, x: usize) -> bool
    requires inputs { inputs ≡ (S.Source.meaning source.now).inputs }
    requires number { x < 3 ^ (S.Source.meaning source.now).inputs }
    requires later { (y : ℕ) → x < y → y < 3 ^ (S.Source.meaning source.now).inputs → member found.now y ≡ implicant_at (S.Source.meaning source.now) y }
    ensures { result ≡ implicant_at (S.Source.meaning source.now) x }
{
    match unread(x, inputs) {
        Some(i) => {
            let step = power(i);
            found.contains(x + step) && found.contains(x + 2 * step)
        }
        None => may_hold(source, byte_at(x, 0)),
    }
}

// Whether an implicant may hold a row: it is not OFF.
fn may_hold<S: Source>(source: &S, row: usize) -> bool
    ensures { result ≡ not (off_at (S.Source.meaning source.now) row) }
{
    !source.is_off(row)
}
