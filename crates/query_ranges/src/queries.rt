// What queries ask for (Indexed Database API 3.0, "convert a value to a key range").
ghost use Rattle.std.specs.Prelude.{◌≡◌, Bool, Some, option_map, IfOk};
ghost use Rattle.clone_values.specs.View.{tree_of, key_tree_of};
ghost use Rattle.query_ranges.specs.Queries.{is_query_refused, range_of_query, wanted, wanted_key, wanted_one, wanted_bounds, wanted_between, wanted_within, key_given, leave_none};
ghost use Rattle.key_paths.specs.Conversion.{key_of};
ghost use Rattle.idb_keys.specs.KeyRange.{bound_at};
ghost use Rattle.query_ranges.specs.View.{wanted_seen};

use clone_values::{Key, Value};
use idb_base::NoMemory;
use idb_calls::Query;
use idb_keys::KeyRange;
use key_order::key_order_laws;
use key_paths::{compare_values, is_key, to_key};
use std::alloc::Global;
use std::cmp::Ordering;

/// What a query asks for.
#[derive(Drop)]
pub enum QueryKeys {
    /// It says nothing: it is absent, Undefined or Null.
    Anything,
    Keys(KeyRange),
    /// A value is no key, or no key can lie between the bounds.
    NoQuery,
}

/// What the query asks for.
pub fn read_query(alloc: Global, query: &Query) -> Result<QueryKeys, NoMemory>
    ensures { IfOk result (λ r. wanted_seen r ≡ wanted query.now) }
{
    match query {
        Query::Absent => Ok(QueryKeys::Anything),
        Query::One(value) => read_one(alloc, value),
        Query::Range {
            lower,
            upper,
            lower_open,
            upper_open,
        } => {
            let lower = read_bound(alloc, lower)?;
            let upper = read_bound(alloc, upper)?;
            match (lower, upper) {
                (Some(lower), Some(upper)) => {
                    Ok(range_between(lower, upper, *lower_open, *upper_open))
                }
                (Some(_), None) => Ok(QueryKeys::NoQuery),
                (None, _) => Ok(QueryKeys::NoQuery),
            }
        }
    }
}

/// Whether what was given is no query, or says nothing where keys must be said. It takes no memory.
pub fn is_query_refused(must_say: bool, query: &Query) -> bool
    ensures { result ≡ is_query_refused must_say (wanted query.now) }
{
    match query {
        Query::Absent => must_say,
        Query::One(value) => is_one_refused(must_say, value),
        Query::Range {
            lower,
            upper,
            lower_open,
            upper_open,
        } => is_range_refused(must_say, lower, upper, *lower_open, *upper_open),
    }
}

fn is_one_refused(must_say: bool, value: &Value) -> bool
    ensures { result ≡ is_query_refused must_say (wanted_one (tree_of value.now)) }
{
    match value {
        Value::Undefined | Value::Null => must_say,
        _ => !is_key(value),
    }
}

/// Whether a bound that is given is no key, or no key can lie between the two.
fn is_range_refused(
    must_say: bool,
    lower: &Option<Value>,
    upper: &Option<Value>,
    lower_open: bool,
    upper_open: bool,
) -> bool
    ensures { result ≡ is_query_refused must_say
        (wanted_within (key_given lower.now) (key_given upper.now) lower_open upper_open) }
{
    match (lower, upper) {
        (Some(lower), Some(upper)) => are_refused(lower, upper, lower_open, upper_open),
        (Some(bound), None) => !is_key(bound),
        (None, Some(bound)) => !is_key(bound),
        (None, None) => false,
    }
}

/// Whether one of two bounds is no key, or no key can lie between them.
fn are_refused(lower: &Value, upper: &Value, lower_open: bool, upper_open: bool) -> bool
    ensures { (must_say : Bool) → result ≡ is_query_refused must_say (wanted_within
        (option_map Some (key_of (tree_of lower.now))) (option_map Some (key_of (tree_of upper.now)))
        lower_open upper_open) }
{
    leave_none(compare_values(upper, lower), lower_open | upper_open)
}

/// Whether no key lies between an upper and a lower bound that lie so to each other, or one is no key.
fn leave_none(order: Option<Ordering>, is_open: bool) -> bool
    ensures { result ≡ leave_none order is_open }
{
    match order {
        Some(order) => order.is_lt() || (order.is_eq() && is_open),
        None => true,
    }
}

/// The keys that the query asks for; all where it says nothing.
pub fn range_of_query(alloc: Global, query: &Query) -> Result<KeyRange, NoMemory>
    ensures { IfOk result (λ r. r ≡ range_of_query query.now) }
{
    match read_query(alloc, query)? {
        QueryKeys::Anything => Ok(KeyRange::all()),
        QueryKeys::Keys(range) => Ok(range),
        QueryKeys::NoQuery => Ok(KeyRange::all()),
    }
}

fn read_one(alloc: Global, value: &Value) -> Result<QueryKeys, NoMemory>
    ensures { IfOk result (λ r. wanted_seen r ≡ wanted_one (tree_of value.now)) }
{
    match value {
        Value::Undefined | Value::Null => Ok(QueryKeys::Anything),
        _ => range_of_one(alloc, value),
    }
}

fn range_of_one(alloc: Global, value: &Value) -> Result<QueryKeys, NoMemory>
    ensures { IfOk result (λ r. wanted_seen r ≡ wanted_key (key_of (tree_of value.now))) }
{
    match to_key(alloc, value)? {
        Some(key) => Ok(QueryKeys::Keys(KeyRange::only(alloc, key)?)),
        None => Ok(QueryKeys::NoQuery),
    }
}

/// The key of a bound, which may be left out; none at all where the value is no key.
fn read_bound(alloc: Global, value: &Option<Value>) -> Result<Option<Option<Key>>, NoMemory>
    ensures { IfOk result (λ r. option_map (option_map key_tree_of) r ≡ key_given value.now) }
{
    match value {
        Some(value) => match to_key(alloc, value)? {
            Some(key) => Ok(Some(Some(key))),
            None => Ok(None),
        },
        None => Ok(Some(None)),
    }
}

fn range_between(
    lower: Option<Key>,
    upper: Option<Key>,
    lower_open: bool,
    upper_open: bool,
) -> QueryKeys
    ensures { wanted_seen result
        ≡ wanted_between (option_map key_tree_of lower) (option_map key_tree_of upper) lower_open upper_open }
{
    match (lower, upper) {
        (Some(lower), Some(upper)) => range_of_bounds(lower, upper, lower_open, upper_open),
        (Some(lower), None) => QueryKeys::Keys(KeyRange::lower(lower, lower_open)),
        (None, Some(upper)) => QueryKeys::Keys(KeyRange::upper(upper, upper_open)),
        (None, None) => QueryKeys::Keys(KeyRange::all()),
    }
}

fn range_of_bounds(lower: Key, upper: Key, lower_open: bool, upper_open: bool) -> QueryKeys
    ensures { wanted_seen result ≡ wanted_bounds (bound_at (key_tree_of lower) lower_open)
        (bound_at (key_tree_of upper) upper_open) }
{
    key_order_laws();
    match KeyRange::bound(lower, upper, lower_open, upper_open) {
        Ok(range) => QueryKeys::Keys(range),
        Err(_) => QueryKeys::NoQuery,
    }
}
