// What a store or its index shows, as the source of a cursor.
ghost use Rattle.std.specs.Prelude.{◌≡◌, ℕ, ◌-◌, ◌≤◌, Some, slice_get, option_map, IfOk, IsSome, OnErr};
ghost use Rattle.std.specs.Option.{option_and_then};
ghost use Rattle.idb_keys.specs.declared.names.Over.{Over};
ghost use Rattle.index_tables.specs.Rows.{RowTree};
ghost use Rattle.idb_cursors.specs.Cursors.{turn_of, iterated, cursor_after};
ghost use Rattle.idb_cursors.specs.View.{key_shown};
ghost use Rattle.object_stores.specs.Showing.{shown_in};
ghost use Rattle.object_stores.specs.Store.{Store};
ghost use Rattle.store_cursors.specs.Members.{member_value, valued, member_taken};
ghost use Rattle.store_cursors.specs.View.{member_seen};

use clone_values::{Key, Value};
use idb_base::NoMemory;
use idb_cursors::{Cursor, RecordsShown, RowsShown};
use idb_keys::Over;
use index_tables::Tables;
use object_stores::StoreVersion;
use std::alloc::Global;

/// A member of a store or of an index, with the value of its record.
#[derive(Clone, Copy)]
pub struct Member<'a> {
    pub key: &'a Key,
    pub primary: &'a Key,
    pub value: &'a Value,
}

/// Moves the cursor by so many turns over the store or its index ("iterate a cursor"), and lends the member at which it then
/// stands; `None` at the first turn that finds nothing, where the cursor stays as it was. Where the index stands now is
/// the caller's to say: it may have moved since the cursor was opened. No member is copied but the keys that the cursor keeps.
pub fn take_turn<'a, T: Tables>(
    alloc: Global,
    store: &'a StoreVersion<T>,
    over: Over,
    cursor: &mut Cursor,
    key: Option<&Key>,
    primary: Option<&Key>,
    count: u32,
) -> Result<Option<Member<'a>>, NoMemory>
    requires one_at_least { 1 ≤ count }
    ensures member { IfOk result (λ member. option_map member_seen member
        ≡ member_taken store.now.store over
        (turn_of cursor.old (key_shown key.entry) (key_shown primary.entry)) (count - 1)) }
    ensures moved { IfOk result (λ member. cursor.new
        ≡ cursor_after (shown_in store.now.store over) cursor.old
        (iterated (shown_in store.now.store over)
        (turn_of cursor.old (key_shown key.entry) (key_shown primary.entry)) (count - 1))) }
    ensures unchanged { OnErr result (cursor.new ≡ cursor.old) }
{
    match place_taken(alloc, store, over, cursor, key, primary, count)? {
        Some(place) => Ok(member_at(store, over, place)),
        None => Ok(None),
    }
}

/// The place of the member that the turns take.
fn place_taken<T: Tables>(
    alloc: Global,
    store: &StoreVersion<T>,
    over: Over,
    cursor: &mut Cursor,
    key: Option<&Key>,
    primary: Option<&Key>,
    count: u32,
) -> Result<Option<usize>, NoMemory>
    requires one_at_least { 1 ≤ count }
    ensures found { IfOk result (λ place. place ≡ iterated (shown_in store.now.store over)
        (turn_of cursor.old (key_shown key.entry) (key_shown primary.entry)) (count - 1)) }
    ensures moved { IfOk result (λ place. cursor.new
        ≡ cursor_after (shown_in store.now.store over) cursor.old place) }
    ensures unchanged { OnErr result (cursor.new ≡ cursor.old) }
{
    match over {
        Over::Store => {
            let shown = RecordsShown {
                table: store.record_table(),
            };
            return cursor.iterate(alloc, &shown, key, primary, count);
        }
        Over::Index(index) => match store.row_table(index) {
            Some(table) => {
                let shown = RowsShown { table };
                return cursor.iterate(alloc, &shown, key, primary, count);
            }
            None => return Ok(None),
        },
    }
}

/// The member at this place. Over an index its value is that of the record to which the row leads.
pub fn member_at<'a, T: Tables>(
    store: &'a StoreVersion<T>,
    over: Over,
    place: usize,
) -> Option<Member<'a>>
    ensures { option_map member_seen result ≡ option_and_then (valued store.now.store)
        (slice_get (shown_in store.now.store over) place) }
{
    let (key, primary) = store.row(over, place)?;
    match store.value_of(primary) {
        Some(value) => Some(Member {
            key,
            primary,
            value,
        }),
        None => None,
    }
}

/// Each member that a store or its index shows has a record, so a cursor that finds a member finds its value.
pub fn member_laws()
    ensures { (store : Store) (over : Over) (place : ℕ) (member : RowTree)
        → slice_get (shown_in store over) place ≡ Some member
        → IsSome (member_value store member) }
{}
