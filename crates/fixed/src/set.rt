// Sets of numbers below a bound.
ghost use Rattle.std.specs.Prelude.{◌≡◌, ℕ, ◌<◌, ◌≤◌, true, false, ◌&&◌, length, replicate, nat_lt, slice_set};

// Some of the numbers below N: a switch for each.
#[derive(Clone, Copy, PartialEq, Eq, Debug)]
pub struct FixedSet<const N: usize> {
    on: [bool; N],
    ghost full: { length on ≡ N },
}

impl<const N: usize> FixedSet<N> {
    ghost use Rattle.fixed.specs.Sets.{member};

    // No number.
    pub fn none() -> FixedSet<N>
        ensures { result.on ≡ replicate N false }
    {
        FixedSet { on: [false; N] }
    }

    // Every number below N.
    pub fn all() -> FixedSet<N>
        ensures { result.on ≡ replicate N true }
    {
        FixedSet { on: [true; N] }
    }

    // Whether the set has a number.
    pub fn contains(&self, number: usize) -> bool
        ensures { result ≡ member self.now number }
    {
        number < N && self.on[number]
    }

    // Puts a number into the set, where it is below N.
    pub fn insert(&mut self, number: usize)
        ensures { self.new.on ≡ slice_set self.old.on number true }
    {
        if number < N {
            self.on[number] = true;
        }
    }

    // Takes a number out of the set.
    pub fn remove(&mut self, number: usize)
        ensures { self.new.on ≡ slice_set self.old.on number false }
    {
        if number < N {
            self.on[number] = false;
        }
    }

    // Puts a number into the set, or takes it out, where it is below N: a write and no branch.
    pub fn put(&mut self, number: usize, has: bool)
        ensures { self.new.on ≡ slice_set self.old.on number has }
    {
        if number < N {
            self.on[number] = has;
        }
    }

    // The numbers below N that pass a test.
    pub fn from_fn<F: Fn(usize) -> bool>(test: F) -> FixedSet<N>
        requires { F.IsAlwaysCallable test }
        ensures { (k : ℕ) → k < N → F.post test k (member result k) }
    {
        FixedSet::from_fn_below(N, test)
    }

    // The numbers below n, and below N, that pass a test; no other number is asked.
    pub fn from_fn_below<F: Fn(usize) -> bool>(n: usize, test: F) -> FixedSet<N>
        requires { F.IsAlwaysCallable test }
        ensures judged { (k : ℕ) → k < N → k < n → F.post test k (member result k) }
        ensures past { (k : ℕ) → n ≤ k → member result k ≡ false }
    {
        let mut set = FixedSet::none();
        // A loop: each turn writes one place of the set, which stays where it is.
        for number in 0..n.min(N) {
            set.put(number, test(number));
        }
        set
    }

    // The members below n.
    pub fn below(&self, n: usize) -> FixedSet<N>
        ensures { (k : ℕ) → member result k ≡ (member self.now k && nat_lt k n) }
    {
        FixedSet::from_fn_below(
            n,
            |number: usize| -> bool
                ensures { result ≡ member self.entry.now number }
            { self.contains(number) },
        )
    }
}
