// Requests, but for those of cursors that are opened or go on.
ghost use Rattle.std.specs.Prelude.{◌≡◌, option_map, IfOk, IfSome, OnErr, min};
ghost use Rattle.clone_values.specs.View.{tree_of};
ghost use Rattle.clone_values.specs.WellFormed.{IsValue};
ghost use Rattle.list_machine.specs.Noting.{IsChecked};
ghost use Rattle.list_machine.specs.Entries.{bytes_to_store, done_by_request};
ghost use Rattle.placed_calls.specs.Fitting.{IsFitCall, AreFit};
ghost use Rattle.tx_courses.specs.Courses.{state_with, restored, HasCome};
ghost use Rattle.entry_runs.specs.Replies.{Replies, IsFormed};

use crate::asked::key_said;
use crate::deleting::{clear, delete, delete_here};
use crate::reading::read;
use crate::replies::Reply;
use crate::storing::{store_value, update};
use clone_values::Value;
use idb_base::NoMemory;
use idb_calls::Call;
use index_tables::Tables;
use query_ranges::range_of_query;
use request_lists::TxFront;
use tx_courses::Course;
use value_bytes::value_size;

/// Runs a request that was taken off the list of this front. The stores and the changes are as it leaves them, and it is counted;
/// where it would have passed a limit, what it did is there to be undone (Indexed Database API 3.0, "asynchronously execute a
/// request"). A call that opens a cursor or lets one go on does nothing here, and Undefined is answered.
pub fn run_request<T: Tables, H: Drop>(
    course: &mut Course<T>,
    front: &TxFront<H>,
    call: &Call,
) -> Result<Reply, NoMemory>
    requires checked { IsChecked (state_with front.now course.old) call.now }
    requires fit { IsFitCall call.now }
    requires cursors { AreFit front.now }
    ensures replied { IfOk result (λ r. Replies (state_with front.now course.old) (bytes_to_store call.now)
        (done_by_request (state_with front.now course.old) call.now) r course.new) }
    ensures formed { IfOk result IsFormed }
    ensures kept { OnErr result (restored course.new ≡ restored course.old) }
    ensures before { course.new.before ≡ course.old.before }
{
    let bytes = bytes_to_store(call);
    let answer = answer_request(course, front, call)?;
    if course.is_past(1, bytes, 0) {
        return Ok(Reply::PastLimit);
    }
    match answer {
        Some(value) => {
            course.count(bytes);
            return Ok(Reply::Answered(value));
        }
        None => {
            course.count(0);
            return Ok(Reply::Failed);
        }
    }
}

/// The same without the counts. `None` where the request failed.
fn answer_request<T: Tables, H: Drop>(
    course: &mut Course<T>,
    front: &TxFront<H>,
    call: &Call,
) -> Result<Option<Value>, NoMemory>
    requires checked { IsChecked (state_with front.now course.old) call.now }
    requires fit { IsFitCall call.now }
    requires cursors { AreFit front.now }
    ensures come { IfOk result (λ r. HasCome (done_by_request (state_with front.now course.old) call.now)
        (option_map tree_of r) course.old course.new) }
    ensures formed { IfOk result (λ r. IfSome r (λ v. IsValue (tree_of v))) }
    ensures kept { restored course.new ≡ restored course.old }
{
    match call {
        Call::Add { store, value, key } => {
            let key = key_said(course.alloc(), key)?;
            return store_value(course, *store, value, key, true);
        }
        Call::Put { store, value, key } => {
            let key = key_said(course.alloc(), key)?;
            return store_value(course, *store, value, key, false);
        }
        Call::Get { target, .. } => return read(course, *target, call),
        Call::GetKey { target, .. } => return read(course, *target, call),
        Call::Count { target, .. } => return read(course, *target, call),
        Call::GetAll { target, .. } => return read(course, *target, call),
        Call::GetAllKeys { target, .. } => return read(course, *target, call),
        Call::Delete { store, query } => {
            let range = range_of_query(course.alloc(), query)?;
            return delete(course, *store, &range);
        }
        Call::Clear { store } => return clear(course, *store),
        Call::Update { cursor, value } => return update(course, front, *cursor, value),
        Call::DeleteHere { cursor } => return delete_here(course, front, *cursor),
        _ => return Ok(Some(Value::Undefined)),
    }
}

/// The bytes of the value that the call stores, if it stores one; u64::MAX where they are more.
fn bytes_to_store(call: &Call) -> u64
    ensures { result ≡ min (bytes_to_store call.now) 18446744073709551615 }
{
    match call {
        Call::Add { value, .. } => value_size(value),
        Call::Put { value, .. } => value_size(value),
        Call::Update { value, .. } => value_size(value),
        _ => 0,
    }
}
