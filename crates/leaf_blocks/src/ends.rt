// Sizes in order, and how much there is up to the end of each, so that the one of a place is found by halving.
ghost use Rattle.std.specs.Prelude.{◌≡◌, ℕ, ◌+◌, ◌-◌, ◌*◌, ◌^◌, ◌<◌, ◌≤◌, [], ◌∷◌, ◌++◌, length, take, sum, slice_index, slice_set, insert, remove, vec_capacity, OnOk};

use idb_base::NoMemory;
use std::alloc::Global;
use std::marker::Model;

/// One of a list, and a place in it.
#[derive(Clone, Copy)]
pub struct Inner {
    pub at: usize,
    pub rest: usize,
}

/// Sizes in order.
#[derive(Drop)]
pub struct Ends {
    sizes: Vec<usize>,
    ends: Vec<usize>,
    room: usize,
}

impl Model for Ends {
    ghost use Rattle.std.specs.Prelude.{vec_capacity};
    ghost use Rattle.leaf_blocks.specs.Leaves.{Row, AreEnds};

    ghost Value = { Row };

    ghost view = { λ a. record { sizes = a.sizes.items; room = a.room } };

    ghost invariant = { λ a. AreEnds a.sizes.items a.ends.items a.room (vec_capacity a.sizes)
        (vec_capacity a.ends) };
}

impl Ends {
    /// No size, and room for none.
    pub fn new(alloc: Global) -> Ends
        ensures sizes { result.sizes ≡ [] }
        ensures room { result.room ≡ 0 }
    {
        Ends {
            sizes: Vec::new(alloc),
            ends: Vec::new(alloc),
            room: 0,
        }
    }

    /// Makes room for this many sizes more.
    pub fn reserve(&mut self, n: usize) -> Result<(), NoMemory>
        requires few { length self.old.sizes + n ≤ 2 ^ 41 }
        ensures sizes { self.new.sizes ≡ self.old.sizes }
        ensures kept { self.old.room ≤ self.new.room }
        ensures room { OnOk result (length self.new.sizes + n ≤ self.new.room) }
    {
        let wanted = self.sizes.len() + n;
        grow(&mut self.sizes, n)?;
        grow(&mut self.ends, n)?;
        if self.room < wanted {
            self.room = wanted;
        }
        Ok(())
    }

    /// The sum of all sizes.
    pub fn total(&self) -> usize
        ensures { result ≡ sum self.now.sizes }
    {
        let count = self.sizes.len();
        self.start(count)
    }

    /// The sum of the sizes before this one.
    pub fn start(&self, at: usize) -> usize
        requires { at ≤ length self.now.sizes }
        ensures value { result ≡ sum (take at self.now.sizes) }
        ensures fits { sum self.now.sizes < 2 ^ 64 }
    {
        if at == 0 { 0 } else { self.ends[at - 1] }
    }

    /// This size.
    pub fn at(&self, at: usize) -> usize
        requires { at < length self.now.sizes }
        ensures { result ≡ slice_index self.now.sizes at }
    {
        self.sizes[at]
    }

    /// The one of a place, and how much of it stands before the place.
    pub fn seat(&self, place: usize) -> Inner
        requires some { 0 < length self.now.sizes }
        requires within { place ≤ sum self.now.sizes }
        ensures at { result.at < length self.now.sizes }
        ensures place { place ≡ sum (take result.at self.now.sizes) + result.rest }
        ensures rest { result.rest ≤ slice_index self.now.sizes result.at }
        ensures inner { place < sum self.now.sizes → result.rest < slice_index self.now.sizes result.at }
    {
        let at = end_behind(self.ends.as_slice(), place);
        Inner {
            at,
            rest: place - self.start(at),
        }
    }

    /// This size is so much more.
    pub fn raise(&mut self, at: usize, n: usize)
        requires within { at < length self.old.sizes }
        requires small { sum self.old.sizes + n < 2 ^ 64 }
        ensures sizes { self.new.sizes ≡ slice_set self.old.sizes at (slice_index self.old.sizes at + n) }
        ensures room { self.new.room ≡ self.old.room }
    {
        self.sizes[at] += n;
        raise_from(&mut self.ends, at, n);
    }

    /// This size is so much less.
    pub fn lower(&mut self, at: usize, n: usize)
        requires within { at < length self.old.sizes }
        requires part { n ≤ slice_index self.old.sizes at }
        ensures sizes { self.new.sizes ≡ slice_set self.old.sizes at (slice_index self.old.sizes at - n) }
        ensures room { self.new.room ≡ self.old.room }
    {
        self.sizes[at] -= n;
        lower_from(&mut self.ends, at, n);
    }

    /// One more size, behind the others.
    pub fn push(&mut self, size: usize)
        requires room { length self.old.sizes < self.old.room }
        requires small { sum self.old.sizes + size < 2 ^ 64 }
        ensures sizes { self.new.sizes ≡ self.old.sizes ++ size ∷ [] }
        ensures room { self.new.room ≡ self.old.room }
    {
        let end = self.total() + size;
        let count = self.sizes.len();
        put(&mut self.ends, count, end);
        put(&mut self.sizes, count, size);
    }

    /// This size is in two parts.
    pub fn split(&mut self, at: usize, left: usize)
        requires within { at < length self.old.sizes }
        requires part { left ≤ slice_index self.old.sizes at }
        requires room { length self.old.sizes < self.old.room }
        ensures sizes { self.new.sizes ≡ insert (slice_set self.old.sizes at left) (at + 1)
            (slice_index self.old.sizes at - left) }
        ensures room { self.new.room ≡ self.old.room }
    {
        let end = self.start(at) + left;
        let right = self.sizes[at] - left;
        put(&mut self.ends, at, end);
        self.sizes[at] = left;
        put(&mut self.sizes, at + 1, right);
    }

    /// A size of nothing goes.
    pub fn remove(&mut self, at: usize)
        requires within { at < length self.old.sizes }
        requires none { slice_index self.old.sizes at ≡ 0 }
        ensures sizes { self.new.sizes ≡ remove self.old.sizes at }
        ensures room { self.new.room ≡ self.old.room }
    {
        let _ = self.sizes.remove(at);
        let _ = self.ends.remove(at);
    }
}

/// The first end behind this place, or the last.
fn end_behind(ends: &[usize], place: usize) -> usize
    requires { 0 < length ends.now }
    ensures within { result < length ends.now }
    ensures before { 0 < result → slice_index ends.now (result - 1) ≤ place }
    ensures behind { result + 1 < length ends.now → place < slice_index ends.now result }
{
    let mut low = 0;
    let mut high = ends.len() - 1;
    while low < high {
        let middle = low + (high - low) / 2;
        if ends[middle] <= place {
            low = middle + 1;
        } else {
            high = middle;
        }
    }
    low
}

/// So much more up to each end from this one on.
fn raise_from(ends: &mut Vec<usize>, from: usize, n: usize)
    requires { (i : ℕ) → i < length ends.old.items → slice_index ends.old.items i + n < 2 ^ 64 }
    ensures len { length ends.new.items ≡ length ends.old.items }
    ensures capacity { vec_capacity ends.new ≡ vec_capacity ends.old }
    ensures below { (i : ℕ) → i < from → slice_index ends.new.items i ≡ slice_index ends.old.items i }
    ensures raised { (i : ℕ) → from ≤ i → i < length ends.old.items
        → slice_index ends.new.items i ≡ slice_index ends.old.items i + n }
{
    raise_in(ends.as_mut_slice(), from, n);
}

/// The same in a slice.
fn raise_in(ends: &mut [usize], from: usize, n: usize)
    requires { (i : ℕ) → i < length ends.old → slice_index ends.old i + n < 2 ^ 64 }
    ensures len { length ends.new ≡ length ends.old }
    ensures below { (i : ℕ) → i < from → slice_index ends.new i ≡ slice_index ends.old i }
    ensures raised { (i : ℕ) → from ≤ i → i < length ends.old
        → slice_index ends.new i ≡ slice_index ends.old i + n }
{
    for i in from..ends.len() {
        ends[i] += n;
    }
}

/// So much less up to each end from this one on.
fn lower_from(ends: &mut Vec<usize>, from: usize, n: usize)
    requires { (i : ℕ) → from ≤ i → i < length ends.old.items → n ≤ slice_index ends.old.items i }
    ensures len { length ends.new.items ≡ length ends.old.items }
    ensures capacity { vec_capacity ends.new ≡ vec_capacity ends.old }
    ensures below { (i : ℕ) → i < from → slice_index ends.new.items i ≡ slice_index ends.old.items i }
    ensures lowered { (i : ℕ) → from ≤ i → i < length ends.old.items
        → slice_index ends.new.items i + n ≡ slice_index ends.old.items i }
{
    lower_in(ends.as_mut_slice(), from, n);
}

/// The same in a slice.
fn lower_in(ends: &mut [usize], from: usize, n: usize)
    requires { (i : ℕ) → from ≤ i → i < length ends.old → n ≤ slice_index ends.old i }
    ensures len { length ends.new ≡ length ends.old }
    ensures below { (i : ℕ) → i < from → slice_index ends.new i ≡ slice_index ends.old i }
    ensures lowered { (i : ℕ) → from ≤ i → i < length ends.old
        → slice_index ends.new i + n ≡ slice_index ends.old i }
{
    for i in from..ends.len() {
        ends[i] -= n;
    }
}

/// Makes room for this many numbers more.
fn grow(numbers: &mut Vec<usize>, n: usize) -> Result<(), NoMemory>
    ensures items { numbers.new.items ≡ numbers.old.items }
    ensures kept { vec_capacity numbers.old ≤ vec_capacity numbers.new }
    ensures room { OnOk result (length numbers.old.items + n ≤ vec_capacity numbers.new) }
{
    numbers.reserve(n)?;
    Ok(())
}

/// Puts a number in.
fn put(numbers: &mut Vec<usize>, place: usize, number: usize)
    requires within { place ≤ length numbers.old.items }
    requires room { length numbers.old.items < vec_capacity numbers.old }
    ensures items { numbers.new.items ≡ insert numbers.old.items place number }
    ensures capacity { vec_capacity numbers.old ≤ vec_capacity numbers.new }
{
    match numbers.insert(place, number) {
        Ok(()) => {}
        Err(_) => unreachable!(),
    }
}
