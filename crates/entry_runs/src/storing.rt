// Requests that store a record.
ghost use Rattle.std.specs.Prelude.{◌≡◌, false, Some, option_map, IfOk, IfSome};
ghost use Rattle.clone_values.specs.Values.{IsCloneable};
ghost use Rattle.clone_values.specs.View.{tree_of, key_tree_of};
ghost use Rattle.clone_values.specs.WellFormed.{IsValue};
ghost use Rattle.store_requests.specs.Runs.{storing};
ghost use Rattle.request_lists.specs.Fronts.{cursor_of};
ghost use Rattle.placed_calls.specs.Fitting.{AreFit};
ghost use Rattle.tx_courses.specs.Courses.{restored, HasCome};
ghost use Rattle.entry_runs.specs.Asked.{done_with, done_at, place_here, CanStoreIn};

use crate::asked::{names_asked, place_here};
use clone_values::{Key, Value, copy_value};
use idb_base::NoMemory;
use idb_schema::StoreId;
use index_tables::Tables;
use object_stores::StoreError;
use request_lists::TxFront;
use tx_courses::Course;

/// `add`, `put` and `update`: what is stored in the store of this id. `None` where it is refused with ConstraintError.
pub(crate) fn store_value<T: Tables>(
    course: &mut Course<T>,
    store: StoreId,
    value: &Value,
    key: Option<Key>,
    add: bool,
) -> Result<Option<Value>, NoMemory>
    requires { CanStoreIn course.old store (tree_of value.now) (option_map key_tree_of key) }
    ensures come { IfOk result (λ r. HasCome (done_with course.old store
        (λ named x. storing named x (tree_of value.now) (option_map key_tree_of key) add))
        (option_map tree_of r) course.old course.new) }
    ensures formed { IfOk result (λ r. IfSome r (λ v. IsValue (tree_of v))) }
    ensures kept { restored course.new ≡ restored course.old }
{
    let Some(names) = names_asked(course, store)? else {
        return Ok(Some(Value::Undefined));
    };
    let value = copy_value(course.alloc(), value)?;
    match course.put_record(&names, value, key, add) {
        Ok(answer) => {
            let _sound = course.store(&names.store);
            return Ok(Some(answer));
        }
        Err(StoreError::Constraint) => return Ok(None),
        Err(StoreError::NoMemory) => return Err(NoMemory),
    }
}

/// A cursor's `update`: what is stored under the key of its place.
pub(crate) fn update<T: Tables, H: Drop>(
    course: &mut Course<T>,
    front: &TxFront<H>,
    number: u32,
    value: &Value,
) -> Result<Option<Value>, NoMemory>
    requires value { IsValue (tree_of value.now) × IsCloneable (tree_of value.now) }
    requires cursors { AreFit front.now }
    ensures come { IfOk result (λ r. HasCome (done_at course.old (place_here (cursor_of front.now number))
        (λ key named x. storing named x (tree_of value.now) (Some key) false))
        (option_map tree_of r) course.old course.new) }
    ensures formed { IfOk result (λ r. IfSome r (λ v. IsValue (tree_of v))) }
    ensures kept { restored course.new ≡ restored course.old }
{
    match place_here(course.alloc(), front, number)? {
        Some((store, key)) => return store_value(course, store, value, Some(key), false),
        None => return Ok(Some(Value::Undefined)),
    }
}
