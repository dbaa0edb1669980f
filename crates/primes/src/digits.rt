// The digits of a term's number in base three: what the term asks of each input.
ghost use Rattle.std.specs.Prelude.{◌≡◌, ℕ, ◌+◌, ◌*◌, ◌/◌, ◌%◌, ◌^◌, ◌<◌, ◌≤◌, MatchOption, ◌≢◌};
ghost use Rattle.primes.specs.Cubes.{byte_in, cube_of, term_of};

use terms::Term;

// A table: 3usize.pow would multiply anew at each digit.
const POWERS: [usize; 9] = [1, 3, 9, 27, 81, 243, 729, 2187, 6561];

// 3^i: how much a contact of input i adds to a term's number at level 0.
pub(crate) fn power(i: usize) -> usize
    requires { i ≤ 8 }
    ensures { result ≡ 3 ^ i }
{
    POWERS[i]
}

// What the term of a number asks of input i: 0 for nothing, 1 for level 0, 2 for level 1.
// The number and the input go together, here and in `bit_at`: a struct of the two would be made for each call, and is no plainer.
pub(crate) fn digit(x: usize, i: usize) -> usize
    requires { i ≤ 8 }
    ensures { result ≡ x / 3 ^ i % 3 }
{
    x / power(i) % 3
}

// An input below n that the term does not read. The number and n go together in this one call: a struct of the two is no plainer.
pub(crate) fn unread(x: usize, n: usize) -> Option<usize>
    requires { n ≤ 8 }
    ensures { MatchOption result ((k : ℕ) → k < n → x / 3 ^ k % 3 ≢ 0) (λ i. (i < n) × (x / 3 ^ i % 3 ≡ 0)) }
{
    (0..n).find(|i| digit(x, *i) == 0)
}

// A byte of a number's term, by the bits of its digits: the levels, or with 1 added to each digit the mask.
pub(crate) fn byte_at(x: usize, plus: usize) -> usize
    requires { plus ≤ 1 }
    ensures { result ≡ byte_in plus (cube_of 8 x) }
{
    (0..8).map(|i| bit_at(x, i, plus)).sum()
}

// Bit i of that byte, in its place: half the digit, or half of one more.
fn bit_at(x: usize, i: usize, plus: usize) -> usize
    requires input { i < 8 }
    requires bit { plus ≤ 1 }
    ensures { result ≡ (x / 3 ^ i % 3 + plus) / 2 * 2 ^ i }
{
    (digit(x, i) + plus) / 2 << i
}

// The term of a number.
pub(crate) fn term_at(x: usize) -> Term
    ensures { result ≡ term_of x }
{
    Term {
        mask: byte_at(x, 1) as u8,
        levels: byte_at(x, 0) as u8,
    }
}
