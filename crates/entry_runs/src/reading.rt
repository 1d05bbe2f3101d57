// Requests that read.
ghost use Rattle.std.specs.Prelude.{◌≡◌, option_map, IfOk, IfSome};
ghost use Rattle.clone_values.specs.View.{tree_of};
ghost use Rattle.clone_values.specs.WellFormed.{IsValue};
ghost use Rattle.placed_calls.specs.Fitting.{IsFitCall};
ghost use Rattle.entry_runs.specs.Asked.{answer_reading};

use crate::asked::{over_of, store_of};
use clone_values::Value;
use idb_base::NoMemory;
use idb_calls::{Call, Target};
use index_tables::Tables;
use request_reads::read_store;
use tx_courses::Course;

/// What the call answers, over what it reads; Undefined where that store isn't there. `None` of a call that doesn't only read.
pub(crate) fn read<T: Tables>(
    course: &Course<T>,
    target: Target,
    call: &Call,
) -> Result<Option<Value>, NoMemory>
    requires { IsFitCall call.now }
    ensures answer { IfOk result (λ r. option_map tree_of r ≡ answer_reading course.now target call.now) }
    ensures formed { IfOk result (λ r. IfSome r (λ v. IsValue (tree_of v))) }
{
    let Some(info) = store_of(course.schema(), target.store) else {
        return Ok(Some(Value::Undefined));
    };
    match course.store(&info.name) {
        Some(store) => {
            let over = over_of(course.schema(), target.index);
            return read_store(course.alloc(), store, over, call);
        }
        None => return Ok(Some(Value::Undefined)),
    }
}
