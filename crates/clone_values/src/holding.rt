// Lists that their copies share. An empty list is `Empty`, and takes no memory; a change first makes the list its own.
ghost use Rattle.std.specs.Prelude.{◌≡◌, ◌<◌, ◌≤◌, [], ◌∷◌, ◌++◌, length, slice_set, OnOk, OnErr, IfOk};
ghost use Rattle.std.specs.List.{insert};
ghost use Rattle.clone_values.specs.Held.{items_held};

use std::alloc::{AllocError, Global};
use std::sync::Arc;
use value_trees::NoMemory;

/// No items, or items that other lists may share.
#[derive(Debug, Drop)]
pub(crate) enum Held<T> {
    Empty,
    Shared(Arc<Vec<T>>),
}

/// The items of a vector, in order; no items take no memory.
pub(crate) fn hold<T: Drop>(alloc: Global, items: Vec<T>) -> Result<Held<T>, NoMemory>
    ensures { IfOk result (λ l. items_held l ≡ items.items) }
{
    if items.is_empty() {
        return Ok(Held::Empty);
    }
    Ok(Held::Shared(Arc::new(alloc, items)?))
}

/// The items in order.
pub(crate) fn slice<T>(list: &Held<T>) -> &[T]
    ensures { result.now ≡ items_held list.now }
{
    match list {
        Held::Shared(items) => items.as_slice(),
        Held::Empty => &[],
    }
}

/// The same list once more; its items are shared.
pub(crate) fn share<T>(list: &Held<T>) -> Result<Held<T>, AllocError>
    ensures { IfOk result (λ l. items_held l ≡ items_held list.now) }
{
    match list {
        Held::Shared(items) => Ok(Held::Shared(Arc::try_clone(items)?)),
        Held::Empty => Ok(Held::Empty),
    }
}

/// Gives the list items that no other list shares.
pub(crate) fn own<T: Clone + Drop>(alloc: Global, list: &mut Held<T>) -> Result<(), NoMemory>
    requires { (x y : T) → T.is_clone x y → y ≡ x }
    ensures { items_held list.new ≡ items_held list.old }
{
    match list {
        Held::Shared(items) => {
            if Arc::strong_count(items) != 1 {
                let copies = Vec::from_clones(alloc, items.as_slice())?;
                *items = Arc::new(alloc, copies)?;
            }
        }
        Held::Empty => *list = Held::Shared(Arc::new(alloc, Vec::new(alloc))?),
    }
    Ok(())
}

/// Puts an item at the end.
pub(crate) fn push<T: Clone + Drop>(
    alloc: Global,
    list: &mut Held<T>,
    item: T,
) -> Result<(), NoMemory>
    requires { (x y : T) → T.is_clone x y → y ≡ x }
    ensures stored { OnOk result (items_held list.new ≡ items_held list.old ++ item ∷ []) }
    ensures unchanged { OnErr result (items_held list.new ≡ items_held list.old) }
{
    own(alloc, list)?;
    if let Held::Shared(shared) = list {
        if let Some(items) = Arc::get_mut(shared) {
            items.push(item)?;
            return Ok(());
        }
    }
    Err(NoMemory)
}

/// Puts an item in the place of the one that stands there.
pub(crate) fn replace_held<T: Clone + Drop>(
    alloc: Global,
    list: &mut Held<T>,
    place: usize,
    item: T,
) -> Result<(), NoMemory>
    requires clones { (x y : T) → T.is_clone x y → y ≡ x }
    requires within { place < length (items_held list.old) }
    ensures replaced { OnOk result (items_held list.new ≡ slice_set (items_held list.old) place item) }
    ensures unchanged { OnErr result (items_held list.new ≡ items_held list.old) }
{
    own(alloc, list)?;
    if let Held::Shared(shared) = list {
        if let Some(items) = Arc::get_mut(shared) {
            items[place] = item;
            return Ok(());
        }
    }
    Err(NoMemory)
}

/// Puts an item before the one that stands at this place, or at the end.
pub(crate) fn insert_held<T: Clone + Drop>(
    alloc: Global,
    list: &mut Held<T>,
    place: usize,
    item: T,
) -> Result<(), NoMemory>
    requires clones { (x y : T) → T.is_clone x y → y ≡ x }
    requires within { place ≤ length (items_held list.old) }
    ensures inserted { OnOk result (items_held list.new ≡ insert (items_held list.old) place item) }
    ensures unchanged { OnErr result (items_held list.new ≡ items_held list.old) }
{
    own(alloc, list)?;
    if let Held::Shared(shared) = list {
        if let Some(items) = Arc::get_mut(shared) {
            items.insert(place, item)?;
            return Ok(());
        }
    }
    Err(NoMemory)
}
