// Requests that read.
ghost use Rattle.std.specs.Prelude.{◌≡◌, ◌≤◌, false, length, option_map, IfOk, IfSome};
ghost use Rattle.idb_base.specs.declared.limits.TheConstants.{GREATEST_LENGTH};
ghost use Rattle.clone_values.specs.View.{tree_of};
ghost use Rattle.clone_values.specs.WellFormed.{IsValue};
ghost use Rattle.store_requests.specs.Answers.{value_answer, key_answer, values_answer, keys_answer, count_answer};
ghost use Rattle.query_ranges.specs.Queries.{range_of_query};
ghost use Rattle.request_lists.specs.Refusals.{is_count_refused};
ghost use Rattle.list_machine.specs.Requests.{limit_said};
ghost use Rattle.placed_calls.specs.Fitting.{IsFitCall};
ghost use Rattle.request_reads.specs.Reads.{has_few_items, reading_answer};

use crate::laws_of_answers::answer_laws;
use clone_values::Value;
use idb_base::{GREATEST_LENGTH, NoMemory};
use idb_calls::{Call, Query};
use idb_keys::Over;
use index_tables::Tables;
use object_stores::StoreVersion;
use query_ranges::range_of_query;
use std::alloc::Global;
use store_requests::{count_records, get_all_keys, get_all_values, get_key, get_value};

/// What the call answers over the store, or over its index at this place; `None` of a call that doesn't only read. A list of more
/// items than a value may have is never answered: `NoMemory` is.
pub fn read_store<T: Tables>(
    alloc: Global,
    store: &StoreVersion<T>,
    over: Over,
    call: &Call,
) -> Result<Option<Value>, NoMemory>
    requires { IsFitCall call.now }
    ensures answer { IfOk result (λ r. option_map tree_of r
        ≡ reading_answer store.now.store over call.now) }
    ensures formed { IfOk result (λ r. IfSome r (λ v. IsValue (tree_of v))) }
{
    match call {
        Call::Get { query, .. } => Ok(Some(read_value(alloc, store, over, query)?)),
        Call::GetKey { query, .. } => Ok(Some(read_key(alloc, store, over, query)?)),
        Call::Count { query, .. } => Ok(Some(read_count(alloc, store, over, query)?)),
        Call::GetAll { query, count, .. } => {
            Ok(Some(read_values(alloc, store, over, query, *count)?))
        }
        Call::GetAllKeys { query, count, .. } => {
            Ok(Some(read_keys(alloc, store, over, query, *count)?))
        }
        _ => Ok(None),
    }
}

fn read_value<T: Tables>(
    alloc: Global,
    store: &StoreVersion<T>,
    over: Over,
    query: &Query,
) -> Result<Value, NoMemory>
    ensures answer { IfOk result (λ v. tree_of v
        ≡ value_answer store.now.store over (range_of_query query.now)) }
    ensures formed { IfOk result (λ v. IsValue (tree_of v)) }
{
    answer_laws();
    let _sound = store.info();
    let range = range_of_query(alloc, query)?;
    get_value(store, over, &range)
}

fn read_key<T: Tables>(
    alloc: Global,
    store: &StoreVersion<T>,
    over: Over,
    query: &Query,
) -> Result<Value, NoMemory>
    ensures answer { IfOk result (λ v. tree_of v
        ≡ key_answer store.now.store over (range_of_query query.now)) }
    ensures formed { IfOk result (λ v. IsValue (tree_of v)) }
{
    answer_laws();
    let _sound = store.info();
    let range = range_of_query(alloc, query)?;
    get_key(alloc, store, over, &range)
}

fn read_count<T: Tables>(
    alloc: Global,
    store: &StoreVersion<T>,
    over: Over,
    query: &Query,
) -> Result<Value, NoMemory>
    ensures answer { IfOk result (λ v. tree_of v
        ≡ count_answer store.now.store over (range_of_query query.now)) }
    ensures formed { IfOk result (λ v. IsValue (tree_of v)) }
{
    answer_laws();
    let range = range_of_query(alloc, query)?;
    Ok(count_records(store, over, &range))
}

fn read_values<T: Tables>(
    alloc: Global,
    store: &StoreVersion<T>,
    over: Over,
    query: &Query,
    count: Option<i64>,
) -> Result<Value, NoMemory>
    requires { is_count_refused count ≡ false }
    ensures answer { IfOk result (λ v. tree_of v
        ≡ values_answer store.now.store over (range_of_query query.now) (limit_said count)) }
    ensures formed { IfOk result (λ v. IsValue (tree_of v)) }
{
    answer_laws();
    let _sound = store.info();
    let value = values_in_range(alloc, store, over, query, limit_said(count))?;
    match has_few_items(&value) {
        true => return Ok(value),
        false => return Err(NoMemory),
    }
}

fn read_keys<T: Tables>(
    alloc: Global,
    store: &StoreVersion<T>,
    over: Over,
    query: &Query,
    count: Option<i64>,
) -> Result<Value, NoMemory>
    requires { is_count_refused count ≡ false }
    ensures answer { IfOk result (λ v. tree_of v
        ≡ keys_answer store.now.store over (range_of_query query.now) (limit_said count)) }
    ensures formed { IfOk result (λ v. IsValue (tree_of v)) }
{
    answer_laws();
    let _sound = store.info();
    let value = keys_in_range(alloc, store, over, query, limit_said(count))?;
    match has_few_items(&value) {
        true => return Ok(value),
        false => return Err(NoMemory),
    }
}

/// The values of the records that the query asks for, up to this many.
fn values_in_range<T: Tables>(
    alloc: Global,
    store: &StoreVersion<T>,
    over: Over,
    query: &Query,
    limit: u32,
) -> Result<Value, NoMemory>
    ensures { IfOk result (λ v. tree_of v
        ≡ values_answer store.now.store over (range_of_query query.now) limit) }
{
    let range = range_of_query(alloc, query)?;
    get_all_values(alloc, store, over, &range, limit)
}

/// The primary keys of the records that the query asks for, up to this many.
fn keys_in_range<T: Tables>(
    alloc: Global,
    store: &StoreVersion<T>,
    over: Over,
    query: &Query,
    limit: u32,
) -> Result<Value, NoMemory>
    ensures { IfOk result (λ v. tree_of v
        ≡ keys_answer store.now.store over (range_of_query query.now) limit) }
{
    let range = range_of_query(alloc, query)?;
    get_all_keys(alloc, store, over, &range, limit)
}

/// Whether an Array has no more items than a value may have.
fn has_few_items(value: &Value) -> bool
    ensures { result ≡ has_few_items (tree_of value.now) }
{
    match value {
        Value::Array(items, _) => items.len() <= GREATEST_LENGTH,
        _ => true,
    }
}

/// How many items are asked for; 0 where nothing is said.
fn limit_said(count: Option<i64>) -> u32
    requires { is_count_refused count ≡ false }
    ensures { result ≡ limit_said count }
{
    match count {
        Some(count) => count as u32,
        None => 0,
    }
}
