// Requests that delete records.
ghost use Rattle.std.specs.Prelude.{◌≡◌, option_map, IfOk, IfSome};
ghost use Rattle.clone_values.specs.View.{tree_of};
ghost use Rattle.clone_values.specs.WellFormed.{IsValue};
ghost use Rattle.idb_keys.specs.KeyRange.{range_of_one};
ghost use Rattle.store_requests.specs.Runs.{deleting, clearing};
ghost use Rattle.request_lists.specs.Fronts.{cursor_of};
ghost use Rattle.tx_courses.specs.Courses.{restored, HasCome};
ghost use Rattle.entry_runs.specs.Asked.{done_with, done_at, place_here};

use crate::asked::{names_asked, place_here};
use clone_values::Value;
use idb_base::NoMemory;
use idb_keys::KeyRange;
use idb_schema::StoreId;
use index_tables::Tables;
use request_lists::TxFront;
use tx_courses::Course;

/// `delete`: the records in range of the store of this id go.
pub(crate) fn delete<T: Tables>(
    course: &mut Course<T>,
    store: StoreId,
    range: &KeyRange,
) -> Result<Option<Value>, NoMemory>
    ensures come { IfOk result (λ r. HasCome
        (done_with course.old store (λ named x. deleting named x range.now))
        (option_map tree_of r) course.old course.new) }
    ensures formed { IfOk result (λ r. IfSome r (λ v. IsValue (tree_of v))) }
    ensures kept { restored course.new ≡ restored course.old }
{
    let Some(names) = names_asked(course, store)? else {
        return Ok(Some(Value::Undefined));
    };
    match course.delete_records(&names, range) {
        Ok(answer) => return Ok(Some(answer)),
        Err(NoMemory) => return Err(NoMemory),
    }
}

/// `clear`: all records of the store of this id go.
pub(crate) fn clear<T: Tables>(
    course: &mut Course<T>,
    store: StoreId,
) -> Result<Option<Value>, NoMemory>
    ensures come { IfOk result (λ r. HasCome (done_with course.old store clearing)
        (option_map tree_of r) course.old course.new) }
    ensures formed { IfOk result (λ r. IfSome r (λ v. IsValue (tree_of v))) }
    ensures kept { restored course.new ≡ restored course.old }
{
    let Some(names) = names_asked(course, store)? else {
        return Ok(Some(Value::Undefined));
    };
    match course.clear_store(&names) {
        Ok(answer) => return Ok(Some(answer)),
        Err(NoMemory) => return Err(NoMemory),
    }
}

/// A cursor's `delete`: the record of its place goes.
pub(crate) fn delete_here<T: Tables, H: Drop>(
    course: &mut Course<T>,
    front: &TxFront<H>,
    number: u32,
) -> Result<Option<Value>, NoMemory>
    ensures come { IfOk result (λ r. HasCome (done_at course.old (place_here (cursor_of front.now number))
        (λ key named x. deleting named x (range_of_one key)))
        (option_map tree_of r) course.old course.new) }
    ensures formed { IfOk result (λ r. IfSome r (λ v. IsValue (tree_of v))) }
    ensures kept { restored course.new ≡ restored course.old }
{
    match place_here(course.alloc(), front, number)? {
        Some((store, key)) => {
            let range = KeyRange::only(course.alloc(), key)?;
            return delete(course, store, &range);
        }
        None => return Ok(Some(Value::Undefined)),
    }
}
