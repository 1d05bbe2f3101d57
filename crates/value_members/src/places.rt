// A list, and the places of its primitives.
ghost use Rattle.std.specs.Prelude.{◌≡◌, [], ◌∷◌, ◌++◌, length, OnOk, OnErr};
ghost use Rattle.std.specs.BTreeMap.{insert_entry};
ghost use Rattle.value_members.specs.Primitives.{mark_cmp};
ghost use Rattle.value_members.specs.Shown.{key_mark_shown};

use crate::primitives::PrimitiveKey;
use idb_base::NoMemory;
use std::collections::BTreeMap;

/// Puts an item at the end, and its key beside it.
pub(crate) fn put_new<T: Drop>(
    items: &mut Vec<T>,
    places: &mut BTreeMap<PrimitiveKey, usize>,
    key: PrimitiveKey,
    item: T,
) -> Result<(), NoMemory>
    ensures stored { OnOk result (items.new.items ≡ items.old.items ++ item ∷ []) }
    ensures kept { OnOk result (places.new.entries
        ≡ insert_entry (λ a b. mark_cmp (key_mark_shown a) (key_mark_shown b)) places.old.entries key (length items.old.items)) }
    ensures unchanged { OnErr result (items.new.items ≡ items.old.items) }
    ensures same_places { OnErr result (places.new.entries ≡ places.old.entries) }
{
    let place = items.len();
    items.push(item)?;
    match places.insert(key, place) {
        Ok(_) => Ok(()),
        Err(_) => {
            let _ = items.pop();
            Err(NoMemory)
        }
    }
}
