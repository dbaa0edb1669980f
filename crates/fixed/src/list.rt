// Lists of at most a fixed number of items.
ghost use Rattle.std.specs.Prelude.{⊤, Some, min, take, ◌≡◌, ◌+◌, ◌-◌, ◌≤◌, ◌++◌, ◌==◌, [], All, if◌then◌else◌, length, is_ok, nat_lt, slice_get, slice_set};
ghost use Rattle.std.specs.Option.{option_to_list};
ghost use Rattle.fixed.specs.Texts.{full_text};

use std::alloc::AllocError;
use std::error::Error;
use std::fmt;

// The first `len` items of the table are the list. What stands behind them is part of the value too: each function says what it
// leaves there, and `table` reads it. Not the kit's `arrayvec`, which is not `Copy`; and no model, since a `Copy` type with one has
// to give all its fields back. A derive does not go over a ghost field.
pub struct FixedList<T, const N: usize> {
    items: [T; N],
    len: usize,
    ghost whole: { length items ≡ N },
    ghost fits: { len ≤ N },
}

// There is no room for another item.
#[derive(Clone, Copy, PartialEq, Eq, Debug)]
pub struct Full;

impl fmt::Display for Full {
    ghost output = { λ _. Some full_text };

    fn fmt<W: fmt::Write>(&self, f: &mut fmt::Formatter<W>) -> fmt::Result {
        write!(f, "no room for another item")
    }
}

impl Error for Full {}

impl<T: Copy, const N: usize> Copy for FixedList<T, N> {}

impl<T: Copy, const N: usize> Clone for FixedList<T, N> {
    ghost is_clone = { λ x y. y ≡ x };

    ghost is_infallible = { λ _. ⊤ };

    fn clone(&self) -> Result<FixedList<T, N>, AllocError> {
        Ok(*self)
    }
}

impl<T: Copy + Default, const N: usize> FixedList<T, N> {
    ghost use Rattle.fixed.specs.Lists.{entries};

    // No item yet, and every place holds the default.
    pub fn new() -> FixedList<T, N>
        ensures items { entries result ≡ [] }
        ensures blank { All T.is_default result.items }
        ensures len { result.len ≡ 0 }
    {
        FixedList {
            items: [T::default(); N],
            len: 0,
        }
    }
}

impl<T: Copy, const N: usize> FixedList<T, N> {
    ghost use Rattle.fixed.specs.Lists.{entries, pushed};

    // The first `len` items of a table, or all where it has no more. The whole table is kept.
    pub fn from_table(items: [T; N], len: usize) -> FixedList<T, N>
        ensures items { entries result ≡ take (min len N) items }
        ensures table { result.items ≡ items }
        ensures len { result.len ≡ min len N }
    {
        FixedList {
            items,
            len: len.min(N),
        }
    }

    // The whole table: the items, and what stands behind them.
    pub fn table(&self) -> &[T]
        ensures value { result.now ≡ self.now.items }
        ensures bound { length result.now ≡ N }
    {
        &self.items
    }

    // How many items there are.
    pub fn len(&self) -> usize
        ensures value { result ≡ length (entries self.now) }
        ensures bound { result ≤ N }
    {
        self.as_slice().len()
    }

    // Whether there is no item.
    pub fn is_empty(&self) -> bool
        ensures { result ≡ (length (entries self.now) == 0) }
    {
        self.len == 0
    }

    // The items, in order.
    pub fn as_slice(&self) -> &[T]
        ensures value { result.now ≡ entries self.now }
        ensures bound { length result.now ≤ N }
    {
        &self.table()[..self.len]
    }

    // The item at a place, counted from 0.
    pub fn get(&self, place: usize) -> Option<T>
        ensures { result ≡ slice_get (entries self.now) place }
    {
        self.as_slice().get(place).copied()
    }

    // Adds an item at the end, where there is room.
    pub fn push(&mut self, item: T) -> Result<(), Full>
        ensures room { is_ok result ≡ nat_lt (length (entries self.old)) N }
        ensures after { entries self.new ≡ pushed N (entries self.old) item }
        ensures table { self.new.items ≡ slice_set self.old.items self.old.len item }
        ensures len { self.new.len ≡ min (self.old.len + 1) N }
    {
        if self.len == N {
            return Err(Full);
        }
        self.items[self.len] = item;
        self.len += 1;
        Ok(())
    }

    // Takes the last item off; it stays in the table, behind the list.
    pub fn pop(&mut self) -> Option<T>
        ensures last { result ≡ slice_get (entries self.old) (length (entries self.old) - 1) }
        ensures rest { entries self.old ≡ entries self.new ++ option_to_list result }
        ensures table { self.new.items ≡ self.old.items }
        ensures len { self.new.len ≡ self.old.len - 1 }
    {
        let at = self.len.checked_sub(1)?;
        self.len = at;
        Some(self.items[at])
    }

    // Puts an item at a place, counted from 0, where there is one.
    #[tactic(auto, using(crate::proofs::Pushed::front_set))]
    pub fn set(&mut self, place: usize, item: T)
        ensures items { entries self.new ≡ slice_set (entries self.old) place item }
        ensures table { self.new.items ≡ (if nat_lt place self.old.len then slice_set self.old.items place item else self.old.items) }
        ensures len { self.new.len ≡ self.old.len }
    {
        if place < self.len {
            self.items[place] = item;
        }
    }
}
