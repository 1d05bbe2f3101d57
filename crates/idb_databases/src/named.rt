// Vectors of entries in the order of their names.
ghost use Rattle.std.specs.Prelude.{◌≡◌, slice_get, option_map, IfOk, IfErr, OnOk, OnErr};
ghost use Rattle.std.specs.Option.{option_copied};
ghost use Rattle.std.specs.FinMap.{find, put};
ghost use Rattle.sorted_table.specs.Tables.{IsSorted, HasKeyAt, BelongsAt, without};
ghost use Rattle.item_changes.specs.Items.{name_cmp};

use clone_values::Text;
use idb_base::NoMemory;
use std::cmp::Ordering;

/// The place of the name, or the place where it would stand. It halves.
pub fn place_in<V: Drop>(items: &[(Text, V)], name: &Text) -> Result<usize, usize>
    requires { IsSorted name_cmp items.now }
    ensures found { IfOk result (λ place. HasKeyAt name_cmp items.now place name.now) }
    ensures absent { IfErr result (λ place. BelongsAt name_cmp items.now place name.now) }
{
    let mut low = 0;
    let mut high = items.len();
    while low < high {
        let middle = low + (high - low) / 2;
        match name.cmp(&items[middle].0) {
            Ordering::Less => high = middle,
            Ordering::Equal => return Ok(middle),
            Ordering::Greater => low = middle + 1,
        }
    }
    Err(low)
}

/// What stands at this place, counted from 0; `None` past the end.
pub(crate) fn nth_in<V: Drop>(items: &[(Text, V)], place: usize) -> Option<&V>
    ensures { option_copied result ≡ option_map (λ e. e.1) (slice_get items.now place) }
{
    match items.get(place) {
        Some((_, item)) => Some(item),
        None => None,
    }
}

/// What has the name, found by halving; `None` where nothing has.
pub fn find_in<'a, V: Drop>(items: &'a [(Text, V)], name: &Text) -> Option<&'a V>
    requires { IsSorted name_cmp items.now }
    ensures { option_copied result ≡ find name_cmp name.now items.now }
{
    match place_in(items, name) {
        Ok(place) => Some(&items[place].1),
        Err(_) => None,
    }
}

/// Puts a thing in its place, where it takes that of one with the same name.
pub(crate) fn put_in<V: Drop>(
    items: &mut Vec<(Text, V)>,
    name: Text,
    item: V,
) -> Result<(), NoMemory>
    requires { IsSorted name_cmp items.old.items }
    ensures stored { OnOk result (items.new.items
        ≡ put name_cmp name item items.old.items) }
    ensures unchanged { OnErr result (items.new.items ≡ items.old.items) }
{
    match place_in(items, &name) {
        Ok(place) => {
            items[place].1 = item;
            Ok(())
        }
        Err(place) => {
            items.insert(place, (name, item))?;
            Ok(())
        }
    }
}

/// Takes what has the name out; `None` where nothing has. It takes no memory.
pub(crate) fn take_from<V: Drop>(items: &mut Vec<(Text, V)>, name: &Text) -> Option<V>
    requires { IsSorted name_cmp items.old.items }
    ensures taken { result ≡ find name_cmp name.now items.old.items }
    ensures left { items.new.items
        ≡ without name_cmp name.now items.old.items }
{
    match place_in(items, name) {
        Ok(place) => Some(items.remove(place).1),
        Err(_) => None,
    }
}
