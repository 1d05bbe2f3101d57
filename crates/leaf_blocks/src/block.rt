// A block: a run of at most 128 leaves with their sizes.
ghost use Rattle.std.specs.Prelude.{◌≡◌, ◌+◌, ◌^◌, ◌<◌, ◌≤◌, [], ◌∷◌, ◌++◌, length, take, drop, slice_get, slice_set, insert, remove, Some, IfOk, vec_capacity};
ghost use Rattle.sorted_table.specs.Tables.{value_there, with_value};
ghost use Rattle.leaf_blocks.specs.Leaves.{joined, before, leaf_at, split_run, items_in};

use crate::ends::{Ends, Inner};
use crate::heads::{cut_head, head_at, last_below, last_up_to, put_head, set_head};
use crate::leaf::{HALF, Leaf};
use idb_base::NoMemory;
use std::alloc::Global;
use std::marker::Model;

/// How many leaves a block holds at most.
pub const WIDTH: usize = 128;

/// How many leaves each half of a full block has.
pub const HALF_WIDTH: usize = 64;

/// Leaves in order, with room for 128.
#[derive(Drop)]
pub struct Block<T> {
    leaves: Vec<Leaf<T>>,
    ends: Ends,
    heads: Vec<i64>,
}

impl<T> Model for Block<T> {
    ghost use Rattle.std.specs.Prelude.{List, vec_capacity};
    ghost use Rattle.leaf_blocks.specs.Leaves.{IsBlock};

    ghost Value = { List (List T) };

    ghost view = { λ a. a.leaves.items };

    ghost invariant = { λ a. IsBlock a.leaves.items a.ends (vec_capacity a.leaves) };
}

impl<T: Drop> Block<T> {
    /// No leaf.
    pub fn new(alloc: Global) -> Result<Block<T>, NoMemory>
        ensures { IfOk result (λ block. block ≡ []) }
    {
        let mut ends = Ends::new(alloc);
        ends.reserve(WIDTH)?;
        Ok(Block {
            leaves: Vec::with_capacity(alloc, WIDTH)?,
            ends,
            heads: Vec::with_capacity(alloc, WIDTH)?,
        })
    }

    /// How many leaves there are.
    pub fn len(&self) -> usize
        ensures value { result ≡ length self.now }
        ensures most { result ≤ 128 }
    {
        self.leaves.len()
    }

    /// How many items there are.
    pub fn count(&self) -> usize
        ensures { result ≡ items_in self.now }
    {
        self.ends.total()
    }

    /// How many items stand before this leaf.
    pub fn start(&self, leaf: usize) -> usize
        requires { leaf ≤ length self.now }
        ensures { result ≡ before self.now leaf }
    {
        self.ends.start(leaf)
    }

    /// The leaf of a place, and how many of its items stand before the place.
    pub fn seat(&self, place: usize) -> Inner
        requires some { 0 < length self.now }
        requires within { place ≤ items_in self.now }
        ensures at { result.at < length self.now }
        ensures place { place ≡ before self.now result.at + result.rest }
        ensures rest { result.rest ≤ length (leaf_at self.now result.at) }
        ensures inner { place < items_in self.now → result.rest < length (leaf_at self.now result.at) }
    {
        self.ends.seat(place)
    }

    /// How many items this leaf has.
    pub fn size(&self, leaf: usize) -> usize
        requires { leaf < length self.now }
        ensures value { result ≡ length (leaf_at self.now leaf) }
        ensures most { result ≤ 64 }
    {
        self.leaves[leaf].len()
    }

    /// The items of this leaf.
    pub fn leaf(&self, leaf: usize) -> &[T]
        requires { leaf < length self.now }
        ensures { result.now ≡ leaf_at self.now leaf }
    {
        self.leaves[leaf].as_slice()
    }

    /// Puts an item into a leaf, before the one at this offset.
    pub fn put(&mut self, leaf: usize, offset: usize, item: T)
        requires within { leaf < length self.old }
        requires offset { offset ≤ length (leaf_at self.old leaf) }
        requires room { length (leaf_at self.old leaf) < 64 }
        requires small { items_in self.old < 2 ^ 63 }
        ensures { self.new ≡ slice_set self.old leaf (insert (leaf_at self.old leaf) offset item) }
    {
        self.ends.raise(leaf, 1);
        self.leaves[leaf].insert(offset, item);
    }

    /// Takes an item out of a leaf, which may then be empty.
    pub fn take(&mut self, leaf: usize, offset: usize) -> T
        requires within { leaf < length self.old }
        requires offset { offset < length (leaf_at self.old leaf) }
        ensures taken { slice_get (leaf_at self.old leaf) offset ≡ Some result }
        ensures left { self.new ≡ slice_set self.old leaf (remove (leaf_at self.old leaf) offset) }
    {
        self.ends.lower(leaf, 1);
        self.leaves[leaf].remove(offset)
    }

    /// Splits a full leaf into halves.
    pub fn split(&mut self, leaf: usize, mut upper: Leaf<T>)
        requires within { leaf < length self.old }
        requires full { length (leaf_at self.old leaf) ≡ 64 }
        requires room { length self.old < 128 }
        requires empty { upper ≡ [] }
        ensures { self.new ≡ split_run 32 self.old leaf }
    {
        self.leaves[leaf].split(&mut upper);
        self.ends.split(leaf, HALF);
        put_head(&mut self.heads, leaf + 1, i64::MIN);
        put_leaf(&mut self.leaves, leaf + 1, upper);
    }

    /// Puts a leaf behind the others.
    pub fn push(&mut self, leaf: Leaf<T>, head: i64)
        requires room { length self.old < 128 }
        requires small { items_in self.old < 2 ^ 63 }
        ensures { self.new ≡ self.old ++ leaf ∷ [] }
    {
        let count = self.leaves.len();
        self.ends.push(leaf.len());
        put_head(&mut self.heads, count, head);
        put_leaf(&mut self.leaves, count, leaf);
    }

    /// Takes a leaf out.
    pub fn pull(&mut self, leaf: usize) -> Leaf<T>
        requires { leaf < length self.old }
        ensures taken { result ≡ leaf_at self.old leaf }
        ensures left { self.new ≡ remove self.old leaf }
    {
        let size = self.ends.at(leaf);
        self.ends.lower(leaf, size);
        self.ends.remove(leaf);
        cut_head(&mut self.heads, leaf);
        self.leaves.remove(leaf)
    }

    /// Moves all items of another leaf behind those of this one.
    pub fn append(&mut self, leaf: usize, other: &mut Leaf<T>)
        requires within { leaf < length self.old }
        requires room { length (leaf_at self.old leaf) + length other.old ≤ 64 }
        requires small { items_in self.old < 2 ^ 63 }
        ensures items { self.new ≡ slice_set self.old leaf (leaf_at self.old leaf ++ other.old) }
        ensures rest { other.new ≡ [] }
    {
        self.ends.raise(leaf, other.len());
        self.leaves[leaf].append(other);
    }

    /// The number in place of the first key of this leaf.
    pub fn head(&self, leaf: usize) -> i64 {
        head_at(self.heads.as_slice(), leaf)
    }

    /// The number in place of the first key of this leaf is this one.
    pub fn set_head(&mut self, leaf: usize, head: i64)
        ensures { self.new ≡ self.old }
    {
        set_head(&mut self.heads, leaf, head);
    }

    /// The last leaf that may have a key of this number.
    pub fn last_leaf(&self, number: i64) -> usize {
        last_up_to(self.heads.as_slice(), number)
    }

    /// The first leaf that may have a key of this number.
    pub fn first_leaf(&self, number: i64) -> usize {
        last_below(self.heads.as_slice(), number)
    }
}

impl<K: Drop, V: Drop> Block<(K, V)> {
    /// Puts another value into the pair at this offset of a leaf.
    pub fn replace(&mut self, leaf: usize, offset: usize, value: V) -> V
        requires within { leaf < length self.old }
        requires offset { offset < length (leaf_at self.old leaf) }
        ensures given { value_there (leaf_at self.old leaf) offset ≡ Some result }
        ensures left { self.new ≡ slice_set self.old leaf (with_value (leaf_at self.old leaf) offset value) }
    {
        self.leaves[leaf].replace(offset, value)
    }
}

/// Puts a leaf in.
fn put_leaf<T: Drop>(leaves: &mut Vec<Leaf<T>>, at: usize, leaf: Leaf<T>)
    requires within { at ≤ length leaves.old.items }
    requires room { length leaves.old.items < vec_capacity leaves.old }
    ensures items { leaves.new.items ≡ insert leaves.old.items at leaf }
    ensures capacity { vec_capacity leaves.old ≤ vec_capacity leaves.new }
{
    match leaves.insert(at, leaf) {
        Ok(()) => {}
        Err(_) => unreachable!(),
    }
}

/// Moves the leaves behind the first 64 of a full block into an empty one.
pub fn halve<T: Drop>(lower: &mut Block<T>, upper: &mut Block<T>)
    requires full { length lower.old ≡ 128 }
    requires empty { upper.old ≡ [] }
    requires small { items_in lower.old < 2 ^ 63 }
    ensures lower { lower.new ≡ take 64 lower.old }
    ensures upper { upper.new ≡ drop 64 lower.old }
{
    while lower.len() > HALF_WIDTH {
        let head = lower.head(HALF_WIDTH);
        let leaf = lower.pull(HALF_WIDTH);
        upper.push(leaf, head);
    }
}

/// Moves all leaves of another block behind those of this one.
pub fn absorb<T: Drop>(block: &mut Block<T>, other: &mut Block<T>)
    requires room { length block.old + length other.old ≤ 128 }
    requires small { items_in block.old + items_in other.old < 2 ^ 63 }
    ensures leaves { block.new ≡ block.old ++ other.old }
    ensures rest { other.new ≡ [] }
{
    while other.len() > 0 {
        let head = other.head(0);
        let leaf = other.pull(0);
        block.push(leaf, head);
    }
}
