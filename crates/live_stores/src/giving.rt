// Stores that are handed over, under their names.
ghost use Rattle.std.specs.Prelude.{◌≡◌, ◌<◌, option_map, vec_len, vec_capacity, IfSome};
ghost use Rattle.std.specs.FinMap as finite;
ghost use Rattle.idb_databases.specs.Stores.{IsStoreNamed};
ghost use Rattle.live_stores.specs.Holding.{held_store, HasNoPast};
ghost use Rattle.live_stores.specs.Slots.{stores_now, AreGiven};

use crate::held::{Held, settle};
use crate::slots::{Slot, held_given, put_here};
use clone_values::Text;
use idb_databases::place_in;
use index_tables::Tables;

/// Puts a store under its name. It takes no memory.
pub(crate) fn put_given<T: Tables>(items: &mut Vec<(Text, Slot<T>)>, name: Text, held: Held<T>)
    requires given { AreGiven items.old.items }
    requires named { IsStoreNamed name (held_store held) }
    requires room { vec_len items.old < vec_capacity items.old }
    ensures stores { stores_now items.new.items
        ≡ finite.insert (stores_now items.old.items) name (held_store held) }
    ensures given { AreGiven items.new.items }
{
    let mut held = held;
    settle(&mut held);
    match place_in(items, &name) {
        Ok(place) => put_here(&mut items[place].1, held),
        Err(place) => match items.insert(place, (name, Slot::Stood(held))) {
            Ok(()) => {}
            Err(_) => unreachable!(),
        },
    }
}

/// Takes the store of this name out; `None` where there is none. It takes no memory.
pub(crate) fn take_given<T: Tables>(
    items: &mut Vec<(Text, Slot<T>)>,
    name: &Text,
) -> Option<Held<T>>
    requires { AreGiven items.old.items }
    ensures store { option_map held_store result ≡ finite.get (stores_now items.old.items) name.now }
    ensures settled { IfSome result (λ held. HasNoPast held) }
    ensures left { stores_now items.new.items ≡ finite.remove (stores_now items.old.items) name.now }
    ensures given { AreGiven items.new.items }
{
    match place_in(items, name) {
        Ok(place) => {
            let (_, slot) = items.remove(place);
            return held_given(slot);
        }
        Err(_) => return None,
    }
}
