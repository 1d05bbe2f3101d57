// The requests of cursors that are opened or go on.
ghost use Rattle.std.specs.Prelude.{◌≡◌, Some, IfOk, OnErr};
ghost use Rattle.clone_values.specs.View.{tree_of};
ghost use Rattle.clone_values.specs.WellFormed.{IsValue};
ghost use Rattle.request_lists.specs.Fronts.{cursor_of};
ghost use Rattle.list_machine.specs.Entries.{done_by_turn, with_turn_taken};
ghost use Rattle.placed_calls.specs.Fitting.{IsFitCall, AreFit};
ghost use Rattle.tx_courses.specs.Courses.{state_with};
ghost use Rattle.entry_runs.specs.Replies.{Replies, IsFormed, HasTurned};

use crate::asked::{over_of, store_of};
use crate::replies::Reply;
use clone_values::Value;
use idb_base::NoMemory;
use idb_calls::Call;
use index_tables::Tables;
use request_lists::TxFront;
use request_reads::turn_over;
use tx_courses::Course;

/// The cursor of this number makes the turns for which the call asks, which was taken off the list of this front, and its request is
/// counted: the member that it takes is answered, or Null where nothing is left (Indexed Database API 3.0, "iterate a cursor").
/// Where it would pass a limit nothing is done. After `NoMemory` the cursor may have moved.
pub fn run_turn<T: Tables, H: Drop>(
    course: &mut Course<T>,
    front: &mut TxFront<H>,
    number: u32,
    call: &Call,
) -> Result<Reply, NoMemory>
    requires fit { IsFitCall call.now }
    ensures replied { IfOk result (λ r. Replies
        (with_turn_taken (state_with front.old course.old) number call.now) 0
        (done_by_turn (state_with front.old course.old) call.now (cursor_of front.old number)) r course.new) }
    ensures turned { IfOk result (λ r. HasTurned r front.old
        (with_turn_taken (state_with front.old course.old) number call.now).front front.new) }
    ensures formed { IfOk result IsFormed }
    ensures fit { IfOk result (λ r. AreFit front.old → AreFit front.new) }
    ensures unchanged { OnErr result (course.new ≡ course.old) }
    ensures before { course.new.before ≡ course.old.before }
{
    if course.is_past(1, 0, 0) {
        return Ok(Reply::PastLimit);
    }
    let value = answer_turn(course, front, number, call)?;
    course.count(0);
    Ok(Reply::Answered(value))
}

/// The same without the counts.
fn answer_turn<T: Tables, H: Drop>(
    course: &Course<T>,
    front: &mut TxFront<H>,
    number: u32,
    call: &Call,
) -> Result<Value, NoMemory>
    requires { IsFitCall call.now }
    ensures answer { IfOk result (λ v. Some (tree_of v)
        ≡ (done_by_turn (state_with front.old course.now) call.now (cursor_of front.old number)).answer) }
    ensures turned { IfOk result (λ v. front.new
        ≡ (with_turn_taken (state_with front.old course.now) number call.now).front) }
    ensures formed { IfOk result (λ v. IsValue (tree_of v)) }
    ensures fit { IfOk result (λ v. AreFit front.old → AreFit front.new) }
{
    let Some(cursor) = front.cursor_of(number) else {
        return Ok(Value::Null);
    };
    let target = cursor.target;
    let Some(info) = store_of(course.schema(), target.store) else {
        return Ok(Value::Null);
    };
    match course.store(&info.name) {
        Some(store) => {
            let over = over_of(course.schema(), target.index);
            return turn_over(course.alloc(), front, number, store, over, call);
        }
        None => return Ok(Value::Null),
    }
}
