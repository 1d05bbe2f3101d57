// A leaf: a run of at most 64 items, with room for as many.
ghost use Rattle.std.specs.Prelude.{◌≡◌, ◌+◌, ◌<◌, ◌≤◌, List, [], ◌∷◌, ◌++◌, vec_len, vec_capacity, length, take, drop, slice_get, insert, remove, IfOk, Some};
ghost use Rattle.sorted_table.specs.Tables.{value_there, with_value};

use idb_base::NoMemory;
use std::alloc::Global;
use std::marker::Model;
use std::mem;

/// How many items a leaf holds at most.
pub const MOST: usize = 64;

/// How many items each half of a full leaf has.
pub const HALF: usize = 32;

/// A run of items, with room for 64.
#[derive(Drop)]
pub struct Leaf<T> {
    items: Vec<T>,
}

impl<T> Model for Leaf<T> {
    ghost use Rattle.std.specs.Prelude.{List, ◌≤◌, vec_len, vec_capacity};

    ghost Value = { List T };

    ghost view = { λ a. a.items.items };

    ghost invariant = { λ a. (vec_len a.items ≤ 64) × (64 ≤ vec_capacity a.items) };
}

impl<T: Drop> Leaf<T> {
    /// An empty leaf.
    pub fn new(alloc: Global) -> Result<Leaf<T>, NoMemory>
        ensures { IfOk result (λ leaf. leaf ≡ []) }
    {
        Ok(Leaf {
            items: Vec::with_capacity(alloc, MOST)?,
        })
    }

    /// How many items there are.
    pub fn len(&self) -> usize
        ensures value { result ≡ length self.now }
        ensures most { result ≤ 64 }
    {
        self.items.len()
    }

    /// The items in order.
    pub fn as_slice(&self) -> &[T]
        ensures { result.now ≡ self.now }
    {
        self.items.as_slice()
    }

    /// Takes all items out.
    pub fn clear(&mut self)
        ensures { self.new ≡ [] }
    {
        self.items.clear();
    }

    /// Puts an item before the one at this place.
    pub fn insert(&mut self, place: usize, item: T)
        requires within { place ≤ length self.old }
        requires room { length self.old < 64 }
        ensures { self.new ≡ insert self.old place item }
    {
        match self.items.insert(place, item) {
            Ok(()) => {}
            Err(_) => unreachable!(),
        }
    }

    /// Takes the item at this place out.
    pub fn remove(&mut self, place: usize) -> T
        requires { place < length self.old }
        ensures taken { slice_get self.old place ≡ Some result }
        ensures left { self.new ≡ remove self.old place }
    {
        self.items.remove(place)
    }

    /// Moves what stands behind the first 32 items into an empty leaf.
    pub fn split(&mut self, upper: &mut Leaf<T>)
        requires full { length self.old ≡ 64 }
        requires empty { upper.old ≡ [] }
        ensures lower { self.new ≡ take 32 self.old }
        ensures upper { upper.new ≡ drop 32 self.old }
    {
        move_half(&mut self.items, &mut upper.items);
    }

    /// Moves all items of the other behind those of this one.
    pub fn append(&mut self, other: &mut Leaf<T>)
        requires { length self.old + length other.old ≤ 64 }
        ensures items { self.new ≡ self.old ++ other.old }
        ensures rest { other.new ≡ [] }
    {
        match self.items.append(&mut other.items) {
            Ok(()) => {}
            Err(_) => unreachable!(),
        }
    }
}

impl<K: Drop, V: Drop> Leaf<(K, V)> {
    /// Puts another value into the pair at this place.
    pub fn replace(&mut self, place: usize, value: V) -> V
        requires { place < length self.old }
        ensures given { value_there self.old place ≡ Some result }
        ensures left { self.new ≡ with_value self.old place value }
    {
        replace_in(&mut self.items, place, value)
    }
}

/// Puts another value into the pair at this place.
fn replace_in<K: Drop, V: Drop>(items: &mut Vec<(K, V)>, place: usize, value: V) -> V
    requires { place < length items.old.items }
    ensures given { value_there items.old.items place ≡ Some result }
    ensures items { items.new.items ≡ with_value items.old.items place value }
    ensures len { vec_len items.new ≡ vec_len items.old }
    ensures capacity { vec_capacity items.new ≡ vec_capacity items.old }
{
    mem::replace(&mut items[place].1, value)
}

/// Moves what stands behind the first 32 items of a full run into an empty one.
fn move_half<T: Drop>(lower: &mut Vec<T>, upper: &mut Vec<T>)
    requires full { vec_len lower.old ≡ 64 }
    requires empty { upper.old.items ≡ [] }
    requires room { 64 ≤ vec_capacity upper.old }
    ensures lower { lower.new.items ≡ take 32 lower.old.items }
    ensures upper { upper.new.items ≡ drop 32 lower.old.items }
    ensures lower_len { vec_len lower.new ≡ 32 }
    ensures upper_len { vec_len upper.new ≡ 32 }
    ensures lower_room { vec_capacity lower.new ≡ vec_capacity lower.old }
    ensures upper_room { vec_capacity upper.old ≤ vec_capacity upper.new }
{
    while lower.len() > HALF {
        move_last(lower, upper);
    }
    upper.reverse();
}

/// Moves the last item of one run to the end of another.
fn move_last<T: Drop>(from: &mut Vec<T>, to: &mut Vec<T>)
    requires some { 0 < vec_len from.old }
    requires room { vec_len to.old < vec_capacity to.old }
    ensures moved { (x : T) × (from.old.items ≡ from.new.items ++ x ∷ [])
        × (to.new.items ≡ to.old.items ++ x ∷ []) }
    ensures from_len { vec_len from.new + 1 ≡ vec_len from.old }
    ensures to_len { vec_len to.new ≡ vec_len to.old + 1 }
    ensures from_room { vec_capacity from.new ≡ vec_capacity from.old }
    ensures to_room { vec_capacity to.old ≤ vec_capacity to.new }
{
    match from.pop() {
        Some(item) => match to.push(item) {
            Ok(()) => {}
            Err(_) => unreachable!(),
        },
        None => unreachable!(),
    }
}
