// What stands under one name, and what stood there before the transaction.
ghost use Rattle.std.specs.Prelude.{◌≡◌, Some, None, option_map};
ghost use Rattle.std.specs.Option.{option_copied};
ghost use Rattle.live_stores.specs.Holding.{held_store, held_before};
ghost use Rattle.live_stores.specs.declared.slots.Slot.TheVariants.{Stood};
ghost use Rattle.live_stores.specs.Slots.{slot_now, slot_before, is_vacant_slot, IsHeldIn, IsPlain};

use crate::held::{Held, settle, undo};
use index_tables::Tables;
use std::mem;

/// What stands under a name, and what stood there before.
#[derive(Drop)]
pub(crate) enum Slot<T: Tables> {
    /// No store stands here, and none stood here before.
    Vacant,
    /// This store stood here before, and still does.
    Stood(Held<T>),
    /// This store was made, and none stood here before.
    Made(Held<T>),
    /// This store stood here before, and was dropped.
    Gone(Held<T>),
    /// One store stood here before and was dropped, and another was made.
    Replaced { gone: Held<T>, made: Held<T> },
}

/// The store that stands here.
pub(crate) fn held_now<T: Tables>(slot: &Slot<T>) -> Option<&Held<T>>
    ensures { option_map held_store (option_copied result) ≡ slot_now slot.now }
{
    match slot {
        Slot::Vacant => None,
        Slot::Stood(held) => Some(held),
        Slot::Made(held) => Some(held),
        Slot::Gone(_) => None,
        Slot::Replaced { gone: _, made } => Some(made),
    }
}

/// With a store that is made here.
fn with_made<T: Tables>(slot: Slot<T>, store: Held<T>) -> Slot<T>
    ensures here { slot_now result ≡ Some (held_store store) }
    ensures before { slot_before result ≡ slot_before slot }
{
    match slot {
        Slot::Vacant => Slot::Made(store),
        Slot::Stood(held) => Slot::Replaced {
            gone: held,
            made: store,
        },
        Slot::Made(made) => {
            drop(made);
            Slot::Made(store)
        }
        Slot::Gone(held) => Slot::Replaced {
            gone: held,
            made: store,
        },
        Slot::Replaced { gone, made } => {
            drop(made);
            Slot::Replaced { gone, made: store }
        }
    }
}

/// Without the store that stands here; one that stood here before is kept.
fn without_now<T: Tables>(slot: Slot<T>) -> Slot<T>
    ensures here { slot_now result ≡ None }
    ensures before { slot_before result ≡ slot_before slot }
{
    match slot {
        Slot::Vacant => Slot::Vacant,
        Slot::Stood(held) => Slot::Gone(held),
        Slot::Made(made) => {
            drop(made);
            Slot::Vacant
        }
        Slot::Gone(held) => Slot::Gone(held),
        Slot::Replaced { gone, made } => {
            drop(made);
            Slot::Gone(gone)
        }
    }
}

/// As it was before the transaction. It takes no memory.
fn restored<T: Tables>(slot: Slot<T>) -> Slot<T>
    ensures here { slot_now result ≡ slot_before slot }
    ensures before { slot_before result ≡ slot_before slot }
{
    match slot {
        Slot::Vacant => Slot::Vacant,
        Slot::Stood(held) => stood(held),
        Slot::Made(made) => {
            drop(made);
            Slot::Vacant
        }
        Slot::Gone(held) => stood(held),
        Slot::Replaced { gone, made: _ } => stood(gone),
    }
}

fn stood<T: Tables>(held: Held<T>) -> Slot<T>
    ensures here { slot_now result ≡ Some (held_before held) }
    ensures before { slot_before result ≡ Some (held_before held) }
{
    let mut held = held;
    undo(&mut held);
    Slot::Stood(held)
}

/// What stands here now is what a later transaction finds. It takes no memory.
fn settled<T: Tables>(slot: Slot<T>) -> Slot<T>
    ensures here { slot_now result ≡ slot_now slot }
    ensures plain { IsPlain result }
{
    match slot {
        Slot::Vacant => Slot::Vacant,
        Slot::Stood(held) => settled_here(held),
        Slot::Made(held) => settled_here(held),
        Slot::Gone(_) => Slot::Vacant,
        Slot::Replaced { gone: _, made } => settled_here(made),
    }
}

fn settled_here<T: Tables>(held: Held<T>) -> Slot<T>
    ensures here { slot_now result ≡ Some (held_store held) }
    ensures plain { IsPlain result }
{
    let mut held = held;
    settle(&mut held);
    Slot::Stood(held)
}

/// This stands here from now on.
fn put_slot<T: Tables>(slot: &mut Slot<T>, new: Slot<T>)
    ensures { slot.new ≡ new }
{
    drop(mem::replace(slot, new));
}

/// A store is made here.
pub(crate) fn make_here<T: Tables>(slot: &mut Slot<T>, store: Held<T>)
    ensures here { slot_now slot.new ≡ Some (held_store store) }
    ensures before { slot_before slot.new ≡ slot_before slot.old }
{
    let old = mem::replace(slot, Slot::Vacant);
    put_slot(slot, with_made(old, store));
}

/// The store that stands here goes. It takes no memory.
pub(crate) fn drop_here<T: Tables>(slot: &mut Slot<T>)
    ensures here { slot_now slot.new ≡ None }
    ensures before { slot_before slot.new ≡ slot_before slot.old }
{
    let old = mem::replace(slot, Slot::Vacant);
    put_slot(slot, without_now(old));
}

/// What stood here before stands here as it was then. It takes no memory.
pub(crate) fn restore_here<T: Tables>(slot: &mut Slot<T>)
    ensures here { slot_now slot.new ≡ slot_before slot.old }
    ensures before { slot_before slot.new ≡ slot_before slot.old }
{
    let old = mem::replace(slot, Slot::Vacant);
    put_slot(slot, restored(old));
}

/// What stands here is what a later transaction finds. It takes no memory.
pub(crate) fn settle_here<T: Tables>(slot: &mut Slot<T>)
    ensures here { slot_now slot.new ≡ slot_now slot.old }
    ensures plain { IsPlain slot.new }
{
    let old = mem::replace(slot, Slot::Vacant);
    put_slot(slot, settled(old));
}

/// Whether no store stands here, and none stood before.
pub(crate) fn is_vacant<T: Tables>(slot: &Slot<T>) -> bool
    ensures { result ≡ is_vacant_slot slot.now }
{
    match slot {
        Slot::Vacant => true,
        Slot::Stood(_) => false,
        Slot::Made(_) => false,
        Slot::Gone(_) => false,
        Slot::Replaced { gone: _, made: _ } => false,
    }
}

/// This store stands here, and stood here before.
pub(crate) fn put_here<T: Tables>(slot: &mut Slot<T>, held: Held<T>)
    ensures { slot.new ≡ Stood held }
{
    put_slot(slot, Slot::Stood(held));
}

/// The store that stands here and stood here before; `None` where it is otherwise.
pub(crate) fn held_given<T: Tables>(slot: Slot<T>) -> Option<Held<T>>
    ensures { IsHeldIn slot result }
{
    match slot {
        Slot::Vacant => None,
        Slot::Stood(held) => Some(held),
        Slot::Made(held) => none_of(held),
        Slot::Gone(held) => none_of(held),
        Slot::Replaced { gone, made } => {
            let _ = none_of(gone);
            none_of(made)
        }
    }
}

/// Nothing of a store that goes.
fn none_of<T: Tables>(_held: Held<T>) -> Option<Held<T>>
    ensures { result ≡ None }
{
    None
}

/// The same of a place that is lent.
pub(crate) fn given_here<T: Tables>(slot: &Slot<T>) -> Option<&Held<T>>
    ensures { IsHeldIn slot.now (option_copied result) }
{
    match slot {
        Slot::Vacant => None,
        Slot::Stood(held) => Some(held),
        Slot::Made(_) => None,
        Slot::Gone(_) => None,
        Slot::Replaced { gone: _, made: _ } => None,
    }
}
