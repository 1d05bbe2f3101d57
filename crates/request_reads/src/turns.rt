// Turns of cursors.
ghost use Rattle.std.specs.Prelude.{◌≡◌, ◌-◌, ◌≤◌, [], option_map, slice_get, IfOk};
ghost use Rattle.std.specs.Option.{option_and_then};
ghost use Rattle.clone_values.specs.View.{tree_of, key_tree_of};
ghost use Rattle.clone_values.specs.WellFormed.{IsValue};
ghost use Rattle.key_paths.specs.Conversion.{key_of};
ghost use Rattle.idb_cursors.specs.View.{key_shown};
ghost use Rattle.object_stores.specs.Showing.{shown_in};
ghost use Rattle.store_cursors.specs.Members.{valued};
ghost use Rattle.store_requests.specs.Answers.{cursor_answer};
ghost use Rattle.request_lists.specs.Fronts.{cursor_of};
ghost use Rattle.request_lists.specs.Running.{turn_found, with_cursor_turned};
ghost use Rattle.list_machine.specs.Requests.{key_said, key_asked, primary_asked, more_turns};
ghost use Rattle.placed_calls.specs.Fitting.{IsFitCall, AreFit};
ghost use Rattle.request_reads.specs.Reads.{HasValidPath, no_members_shown, nothing_rises, turn_answered, with_turn_made};

use crate::laws_of_answers::answer_laws;
use clone_values::{Key, Value};
use idb_base::NoMemory;
use idb_calls::Call;
use idb_cursors::{RecordsShown, RowView, RowsShown};
use idb_keys::Over;
use idb_schema::StoreInfo;
use index_tables::Tables;
use key_paths::to_key;
use object_stores::StoreVersion;
use request_lists::TxFront;
use std::alloc::Global;
use store_cursors::{Member, member_at};
use store_requests::member_value;

/// The cursor of this number makes the turns for which the call asks, over its store or the index at this place, and the member that
/// it takes is answered: the Object of `key`, `primaryKey` and, but for a cursor that shows keys alone, `value`; Null at the first
/// turn that finds nothing. After `NoMemory` the cursor may have moved.
pub fn turn_over<T: Tables, H: Drop>(
    alloc: Global,
    front: &mut TxFront<H>,
    number: u32,
    store: &StoreVersion<T>,
    over: Over,
    call: &Call,
) -> Result<Value, NoMemory>
    requires { IsFitCall call.now }
    ensures answer { IfOk result (λ v. tree_of v
        ≡ turn_answered front.old number store.now.store over call.now) }
    ensures moved { IfOk result (λ v. front.new
        ≡ with_turn_made front.old number store.now.store over call.now) }
    ensures formed { IfOk result (λ v. IsValue (tree_of v)) }
    ensures fit { IfOk result (λ v. AreFit front.old → AreFit front.new) }
{
    answer_laws();
    check_path(store.info(), over);
    let Some(cursor) = front.cursor_of(number) else {
        return Ok(Value::Null);
    };
    let keys_only = cursor.cursor.keys_only();
    match place_asked(alloc, front, number, store, over, call)? {
        Some(place) => {
            let answer = member_answer(alloc, store, over, place, keys_only)?;
            return Ok(answer);
        }
        None => return Ok(Value::Null),
    }
}

/// The place of the member that the turns for which the call asks take.
fn place_asked<T: Tables, H: Drop>(
    alloc: Global,
    front: &mut TxFront<H>,
    number: u32,
    store: &StoreVersion<T>,
    over: Over,
    call: &Call,
) -> Result<Option<usize>, NoMemory>
    requires { IsFitCall call.now }
    ensures found { IfOk result (λ place. place ≡ turn_found (shown_in store.now.store over)
        (cursor_of front.old number) (key_asked call.now) (primary_asked call.now) (more_turns call.now)) }
    ensures moved { IfOk result (λ place. front.new
        ≡ with_cursor_turned number (shown_in store.now.store over) place front.old) }
{
    let key = key_asked(alloc, call)?;
    let primary = primary_asked(alloc, call)?;
    place_taken(
        front,
        number,
        store,
        over,
        lent(&key),
        lent(&primary),
        turn_count(call),
    )
}

/// The place of the member that the turns take, over what the store or its index shows.
fn place_taken<T: Tables, H: Drop>(
    front: &mut TxFront<H>,
    number: u32,
    store: &StoreVersion<T>,
    over: Over,
    key: Option<&Key>,
    primary: Option<&Key>,
    count: u32,
) -> Result<Option<usize>, NoMemory>
    requires one_at_least { 1 ≤ count }
    ensures found { IfOk result (λ place. place ≡ turn_found (shown_in store.now.store over)
        (cursor_of front.old number) (key_shown key.entry) (key_shown primary.entry) (count - 1)) }
    ensures moved { IfOk result (λ place. front.new
        ≡ with_cursor_turned number (shown_in store.now.store over) place front.old) }
{
    match over {
        Over::Store => {
            let shown = RecordsShown {
                table: store.record_table(),
            };
            return front.turn_cursor(number, &shown, key, primary, count);
        }
        Over::Index(index) => match store.row_table(index) {
            Some(table) => {
                let shown = RowsShown { table };
                return front.turn_cursor(number, &shown, key, primary, count);
            }
            None => return front.turn_cursor(number, &NoRows, key, primary, count),
        },
    }
}

/// The index at this place has a path that the grammar has.
fn check_path(info: &StoreInfo, over: Over)
    ensures { HasValidPath info.now.indexes over }
{
    if let Over::Index(place) = over {
        if let Some(index) = info.indexes.at(place) {
            let _valid = index.path.spec();
        }
    }
}

/// What an index shows that isn't there.
struct NoRows;

impl RowView for NoRows {
    ghost rows = { λ v. no_members_shown };

    fn len(&self) -> usize {
        0
    }

    fn at(&self, _place: usize) -> Option<(&Key, &Key)> {
        None
    }

    ghost rises = { λ v. nothing_rises };
}

/// The Object of the member at this place.
fn member_answer<T: Tables>(
    alloc: Global,
    store: &StoreVersion<T>,
    over: Over,
    place: usize,
    keys_only: bool,
) -> Result<Value, NoMemory>
    ensures { IfOk result (λ v. tree_of v ≡ cursor_answer keys_only
        (option_and_then (valued store.now.store) (slice_get (shown_in store.now.store over) place))) }
{
    match member_at(store, over, place) {
        Some(
            Member {
                key,
                primary,
                value,
            },
        ) => member_value(alloc, keys_only, key, primary, value),
        None => Ok(Value::Null),
    }
}

/// The key, lent.
fn lent(key: &Option<Key>) -> Option<&Key>
    ensures { key_shown result ≡ option_map key_tree_of key.now }
{
    match key {
        Some(key) => Some(key),
        None => None,
    }
}

/// The key that the call gives the turn, if it gives one.
fn key_asked(alloc: Global, call: &Call) -> Result<Option<Key>, NoMemory>
    ensures { IfOk result (λ r. option_map key_tree_of r ≡ key_asked call.now) }
{
    match call {
        Call::Continue { key, .. } => key_said(alloc, key),
        Call::ContinuePrimaryKey { key, .. } => to_key(alloc, key),
        _ => Ok(None),
    }
}

fn key_said(alloc: Global, key: &Option<Value>) -> Result<Option<Key>, NoMemory>
    ensures { IfOk result (λ r. option_map key_tree_of r ≡ key_said key.now) }
{
    match key {
        Some(key) => to_key(alloc, key),
        None => Ok(None),
    }
}

/// The primary key that it gives.
fn primary_asked(alloc: Global, call: &Call) -> Result<Option<Key>, NoMemory>
    ensures { IfOk result (λ r. option_map key_tree_of r ≡ primary_asked call.now) }
{
    match call {
        Call::ContinuePrimaryKey { primary, .. } => to_key(alloc, primary),
        _ => Ok(None),
    }
}

/// How many turns the cursor makes.
fn turn_count(call: &Call) -> u32
    requires { IsFitCall call.now }
    ensures one_at_least { 1 ≤ result }
    ensures count { result - 1 ≡ more_turns call.now }
{
    match call {
        Call::Advance { count, .. } => *count as u32,
        _ => 1,
    }
}
