// How names come to those that have a place.
ghost use Rattle.std.specs.Prelude.{◌≡◌, ◌≤◌, ◌&&◌, ◌++◌, [], ◌∷◌, filter, length, position, map, nat_lt, OnOk, OnErr, IfOk, IfSome, IfNone};
ghost use Rattle.std.specs.List.{list_any, position_or_len};
ghost use Rattle.name_queues.specs.Names.{is_name, has_place, name_of, queued, blank_name};
ghost use Rattle.connection_queues.specs.Machine.{comes_before, enqueued, is_admitted, put_name, names_of_schemas};
ghost use Rattle.name_queues.specs.declared.asks.Ask.{Ask};

use crate::steps::name_place;
use clone_values::Text;
use idb_base::NoMemory;
use idb_schema::{Schema, Schemas};
use name_queues::{Ask, GREATEST_NAME_COUNT, Named, blank_name, push};
use std::alloc::Global;

/// How many names have a place.
fn places_taken(names: &[Named]) -> usize
    ensures { result ≡ length (filter has_place names.now) }
{
    let mut count = 0;
    for n in names {
        if n.has_place() {
            count += 1;
        }
    }
    count
}

/// The name has a place, or there is room for one more.
pub(crate) fn is_admitted(names: &[Named], name: &str) -> bool
    ensures { result ≡ is_admitted name.now names.now }
{
    is_placed(names, name) || places_taken(names) < GREATEST_NAME_COUNT
}

/// The name has a place.
fn is_placed(names: &[Named], name: &str) -> bool
    ensures { result ≡ list_any (λ n. is_name name.now n && has_place n) names.now }
{
    names.iter().any(|n| n.is_name(name) && n.has_place())
}

/// Where a name comes by the bytes.
fn name_gap(names: &[Named], name: &str) -> usize
    ensures place { result ≡ position_or_len (comes_before name.now) names.now }
    ensures within { result ≤ length names.now }
{
    match first_behind(names, name) {
        Some(place) => place,
        None => names.len(),
    }
}

/// The first that the name comes before.
fn first_behind(names: &[Named], name: &str) -> Option<usize>
    ensures { result ≡ position (comes_before name.now) names.now }
{
    names.iter().position(|m| name < m.blank.name().as_str())
}

/// Puts a name in its place by the bytes.
fn put_name(names: &mut Vec<Named>, n: Named) -> Result<(), NoMemory>
    ensures stored { OnOk result (names.new.items ≡ put_name n names.old.items) }
    ensures unchanged { OnErr result (names.new.items ≡ names.old.items) }
{
    let place = name_gap(names, n.blank.name().as_str());
    names.insert(place, n)?;
    Ok(())
}

/// Names without a place go.
fn keep_placed(names: &mut Vec<Named>)
    ensures { names.new.items ≡ filter has_place names.old.items }
{
    names.retain(|n| n.has_place());
}

/// The request stands in the queue of its name.
pub(crate) fn enqueue(
    alloc: Global,
    names: &mut Vec<Named>,
    name: Text,
    ask: Ask,
) -> Result<(), NoMemory>
    ensures stored { OnOk result (names.new.items ≡ enqueued name ask names.old.items) }
    ensures unchanged { OnErr result (names.new.items ≡ names.old.items) }
{
    match name_place(names, name.as_str()) {
        Some(place) => {
            let n = &mut names[place];
            push(n, ask)
        }
        None => {
            let mut n = blank_name(alloc, name, None)?;
            push(&mut n, ask)?;
            put_name(names, n)?;
            keep_placed(names);
            Ok(())
        }
    }
}

/// The names of these databases.
pub(crate) fn names_of_schemas(alloc: Global, schemas: Schemas) -> Result<Vec<Named>, NoMemory>
    ensures { IfOk result (λ names. names.items ≡ names_of_schemas [] schemas) }
{
    let mut names = Vec::new(alloc);
    for schema in schemas.into_vec() {
        let name = schema.name().copy(alloc)?;
        let n = blank_name(alloc, name, Some(schema))?;
        put_name(&mut names, n)?;
    }
    Ok(names)
}
