// Requests of cursors that read.
ghost use Rattle.std.specs.Prelude.{◌≡◌, ◌-◌, ◌≤◌, IfOk};
ghost use Rattle.idb_base.specs.Lists.{IsWithinLimit};
ghost use Rattle.clone_values.specs.View.{tree_of, key_tree_of, prop_of};
ghost use Rattle.idb_cursors.specs.Cursors.{turn_of, iterated, cursor_after};
ghost use Rattle.idb_cursors.specs.View.{key_shown};
ghost use Rattle.item_changes.specs.Showing.{shown_in};
ghost use Rattle.store_cursors.specs.Members.{member_taken};
ghost use Rattle.store_requests.specs.Answers.{cursor_answer, member_answer};

use clone_values::{Key, Prop, Props, Text, Value, copy_value};
use idb_base::NoMemory;
use idb_cursors::Cursor;
use idb_keys::Over;
use index_tables::Tables;
use item_changes::StoreVersion;
use key_paths::to_value;
use std::alloc::Global;
use store_cursors::{Member, take_turn};

/// So many turns of a cursor over its store: `openCursor`, `openKeyCursor`, `continue`, `continuePrimaryKey` and `advance`. It
/// answers the Object of `key`, `primaryKey` and, but for a cursor that shows keys alone, `value`; Null at the first turn that
/// finds nothing, where the cursor stays as it was. After `NoMemory` the cursor may have moved.
pub fn turn_cursor<T: Tables>(
    alloc: Global,
    store: &StoreVersion<T>,
    over: Over,
    cursor: &mut Cursor,
    key: Option<&Key>,
    primary: Option<&Key>,
    count: u32,
) -> Result<Value, NoMemory>
    requires one_at_least { 1 ≤ count }
    ensures answer { IfOk result (λ v. tree_of v ≡ cursor_answer cursor.old.keys_only
        (member_taken store.now.store over
        (turn_of cursor.old (key_shown key.entry) (key_shown primary.entry)) (count - 1))) }
    ensures moved { IfOk result (λ v. cursor.new ≡ cursor_after (shown_in store.now.store over) cursor.old
        (iterated (shown_in store.now.store over)
        (turn_of cursor.old (key_shown key.entry) (key_shown primary.entry)) (count - 1))) }
{
    let keys_only = cursor.keys_only();
    match take_turn(alloc, store, over, cursor, key, primary, count)? {
        Some(
            Member {
                key,
                primary,
                value,
            },
        ) => member_value(alloc, keys_only, key, primary, value),
        None => Ok(Value::Null),
    }
}

/// The Object of a member, as a cursor answers it.
pub fn member_value(
    alloc: Global,
    keys_only: bool,
    key: &Key,
    primary: &Key,
    value: &Value,
) -> Result<Value, NoMemory>
    ensures { IfOk result (λ v. tree_of v ≡ member_answer keys_only
        (key_tree_of key.now, key_tree_of primary.now) (tree_of value.now)) }
{
    let mut props = Vec::new(alloc);
    props.push(named(alloc, "key", to_value(alloc, key)?)?)?;
    props.push(named(alloc, "primaryKey", to_value(alloc, primary)?)?)?;
    if !keys_only {
        props.push(named(alloc, "value", copy_value(alloc, value)?)?)?;
    }
    Ok(Value::Object(Props::from_vec(alloc, props)?))
}

fn named(alloc: Global, name: &str, value: Value) -> Result<Prop, NoMemory>
    requires { IsWithinLimit name.now }
    ensures { IfOk result (λ p. prop_of p ≡ (name.now, tree_of value)) }
{
    Ok(Prop {
        name: Text::copy_of(alloc, name)?,
        value,
    })
}
