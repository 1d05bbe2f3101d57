// Lists over vectors.
ghost use Rattle.std.specs.Prelude.{◌≡◌, ◌<◌, ◌≤◌, [], ◌∷◌, ◌++◌, length, slice_get, insert, remove, Some, IfSome, IfNone, OnOk, OnErr, IfOk};
ghost use Rattle.std.specs.Option.{option_copied};
ghost use Rattle.idb_base.specs.Lists.{StandsAt};

use crate::NoMemory;
use std::alloc::Global;
use std::marker::Model;

/// A list of items, which contracts see plain: with no capacity and no pointer in it.
#[derive(Debug, Drop)]
pub struct Listed<T> {
    items: Vec<T>,
}

impl<T> Model for Listed<T> {
    ghost use Rattle.std.specs.Prelude.{List};

    ghost Value = { List T };

    ghost view = { λ a. a.items.items };
}

impl<T> Listed<T> {
    /// The empty list; it takes no memory.
    pub fn new(alloc: Global) -> Self
        ensures { result ≡ [] }
    {
        Listed {
            items: Vec::new(alloc),
        }
    }

    /// The items of a vector, in order. It takes no memory.
    pub fn from_vec(items: Vec<T>) -> Self
        ensures { result ≡ items.items }
    {
        Listed { items }
    }

    /// The items as a vector, in order. It takes no memory.
    pub fn into_vec(self) -> Vec<T>
        ensures { result.items ≡ self }
    {
        self.items
    }

    /// How many items there are.
    pub fn len(&self) -> usize
        ensures { result ≡ length self.now }
    {
        self.items.len()
    }

    /// The item at this place, counted from 0; `None` past the end.
    pub fn at(&self, place: usize) -> Option<&T>
        ensures item { option_copied result ≡ slice_get self.now place }
        ensures stands { IfSome result (λ x. StandsAt self.now place x.now) }
        ensures past_end { IfNone result (length self.now ≤ place) }
    {
        self.items.get(place)
    }

    /// All items in order.
    pub fn as_slice(&self) -> &[T]
        ensures { result.now ≡ self.now }
    {
        self.items.as_slice()
    }
}

impl<T: Drop> Listed<T> {
    /// Puts an item at the end.
    pub fn push(&mut self, item: T) -> Result<(), NoMemory>
        ensures stored { OnOk result (self.new ≡ self.old ++ item ∷ []) }
        ensures unchanged { OnErr result (self.new ≡ self.old) }
    {
        self.items.push(item)?;
        Ok(())
    }

    /// Puts an item at this place, before the one that stands there.
    pub fn insert_at(&mut self, place: usize, item: T) -> Result<(), NoMemory>
        requires { place ≤ length self.old }
        ensures stored { OnOk result (self.new ≡ insert self.old place item) }
        ensures unchanged { OnErr result (self.new ≡ self.old) }
    {
        self.items.insert(place, item)?;
        Ok(())
    }

    /// Takes the item at this place out. It takes no memory.
    pub fn remove_at(&mut self, place: usize) -> T
        requires { place < length self.old }
        ensures given { slice_get self.old place ≡ Some result }
        ensures left { self.new ≡ remove self.old place }
    {
        self.items.remove(place)
    }
}

impl<T: Clone + Drop> Listed<T> {
    /// An equal list, where clones of its items are equal to them.
    pub fn copy(&self, alloc: Global) -> Result<Self, NoMemory>
        requires { (x y : T) → T.is_clone x y → y ≡ x }
        ensures { IfOk result (λ copied. copied ≡ self.now) }
    {
        Ok(Listed {
            items: Vec::from_clones(alloc, self.items.as_slice())?,
        })
    }
}
