// The places of the databases, and the numbers of their items.
ghost use Rattle.std.specs.Prelude.{◌≡◌, ◌<◌, ◌≤◌, ◌+◌, ◌^◌, ◌-◌, ◌*◌, ℕ, [], ◌∷◌, ◌++◌, map, length, position, Some, None, OnOk, OnErr, IfOk, IfSome};
ghost use Rattle.std.specs.Vec.{vec_len, vec_capacity};
ghost use Rattle.desk_steps.specs.Numbers.{is_placed_name, is_free_place, with_place, at_place, new_place, place_of_name, one_more_unfinished, whole_database, numbers_from, store_item, scope_items, places_of_schemas};
ghost use Rattle.desk_steps.specs.Placing.{placed_at};
ghost use Rattle.desk_steps.specs.Steps.{place_left};

use clone_values::{Text, Texts};
use desk_steps::{DeskPlace, TxKind};
use idb_base::NoMemory;
use idb_schema::{Schema, Schemas};
use std::alloc::Global;

/// The items of a database: its schema and 63 stores.
const ITEM_COUNT: usize = 64;

/// The greatest count of places whose items have numbers below 2^16.
const GREATEST_PLACE_COUNT: usize = 1024;

/// Where a database has its place.
pub(crate) fn named_place(places: &[DeskPlace], name: &Text) -> Option<usize>
    ensures { result ≡ position (is_placed_name name.now) places.now }
{
    places.iter().position(|p| p.name == *name)
}

/// Where the first free place is.
fn free_place(places: &[DeskPlace]) -> Option<usize>
    ensures { result ≡ position is_free_place places.now }
{
    places.iter().position(|p| !p.exists && p.unfinished == 0)
}

/// The place of a database with one unfinished transaction more, where it has a place.
fn place_again(place: &DeskPlace, name: Text) -> Result<DeskPlace, NoMemory>
    requires { name ≡ place.now.name }
    ensures { IfOk result (λ p. p ≡ one_more_unfinished place.now) }
{
    let unfinished = one_more(place.unfinished)?;
    Ok(DeskPlace {
        name,
        exists: place.exists,
        unfinished,
    })
}

/// The place of a database that has none yet, with one unfinished transaction.
fn place_anew(name: Text) -> DeskPlace
    ensures { result ≡ one_more_unfinished (new_place name) }
{
    DeskPlace {
        name,
        exists: false,
        unfinished: 1,
    }
}

/// The place of a database with one unfinished transaction more, and where it is to stand.
pub(crate) fn place_to_draw(
    alloc: Global,
    places: &[DeskPlace],
    name: &Text,
) -> Result<(usize, DeskPlace), NoMemory>
    ensures placed { IfOk result (λ x. placed_at x.0 x.1 places.now
        ≡ at_place name.now one_more_unfinished (with_place name.now places.now)) }
    ensures number { IfOk result (λ x. x.0 ≡ place_of_name name.now (with_place name.now places.now)) }
{
    if let Some(place) = named_place(places, name) {
        let p = place_again(&places[place], places[place].name.copy(alloc)?)?;
        return Ok((place, p));
    }
    let p = place_anew(name.copy(alloc)?);
    match free_place(places) {
        Some(place) => Ok((place, p)),
        None => Ok((places.len(), p)),
    }
}

fn one_more(count: u64) -> Result<u64, NoMemory>
    ensures { IfOk result (λ n. n ≡ count + 1) }
{
    match count.checked_add(1) {
        Some(n) => Ok(n),
        None => Err(NoMemory),
    }
}

/// Puts a place where it is to stand, for which there is room.
pub(crate) fn put_at(places: &mut Vec<DeskPlace>, place: usize, p: DeskPlace)
    requires { vec_len places.old < vec_capacity places.old }
    ensures { places.new.items ≡ placed_at place p places.old.items }
{
    if place < places.len() {
        places[place] = p;
        return;
    }
    match places.push(p) {
        Ok(()) => {}
        Err(_) => unreachable!(),
    }
}

fn leave_one(p: &mut DeskPlace, kind: TxKind, committed: bool)
    ensures { p.new ≡ place_left kind committed p.old }
{
    p.unfinished = p.unfinished.saturating_sub(1);
    if committed {
        match kind {
            TxKind::Plain => {}
            TxKind::Upgrade { .. } => p.exists = true,
            TxKind::Deletion => p.exists = false,
        }
    }
}

/// A transaction of the database is finished. It takes no memory.
pub(crate) fn leave_place(places: &mut Vec<DeskPlace>, name: &Text, kind: TxKind, committed: bool)
    ensures { places.new.items ≡ at_place name.now (place_left kind committed) places.old.items }
{
    if let Some(place) = named_place(places, name) {
        let p = &mut places[place];
        leave_one(p, kind, committed);
    }
}

/// The first item of the database at this place.
fn first_item(place: usize) -> Result<u16, NoMemory>
    ensures value { IfOk result (λ first. first ≡ 64 * place) }
    ensures small { IfOk result (λ first. first ≤ 65472) }
{
    if place >= GREATEST_PLACE_COUNT {
        return Err(NoMemory);
    }
    Ok((ITEM_COUNT * place) as u16)
}

/// So many numbers, from this one on.
fn numbers_from(alloc: Global, count: u16, first: u16) -> Result<Vec<u16>, NoMemory>
    requires { count + first ≤ 65536 }
    ensures { IfOk result (λ items. items.items ≡ numbers_from count first) }
{
    let mut items = Vec::new(alloc);
    for k in 0..count {
        items.push(first + k)?;
    }
    Ok(items)
}

/// The items of a database.
#[tactic(auto, unfolding(desk_steps::specs::Numbers::whole_database))]
pub(crate) fn whole_database(alloc: Global, place: usize) -> Result<Vec<u16>, NoMemory>
    ensures { IfOk result (λ items. items.items ≡ whole_database place) }
{
    numbers_from(alloc, 64, first_item(place)?)
}

/// The item of a store.
fn store_item(place: usize, schema: &Schema, name: &Text) -> Result<u16, NoMemory>
    ensures { IfOk result (λ item. item ≡ store_item place schema.now name.now) }
{
    let first = first_item(place)?;
    let store = schema.store_place(name).unwrap_or(0);
    if store > 62 {
        return Err(NoMemory);
    }
    Ok(first + 1 + store as u16)
}

/// The items of a scope.
pub(crate) fn scope_items(
    alloc: Global,
    place: usize,
    schema: &Schema,
    scope: &Texts,
) -> Result<Vec<u16>, NoMemory>
    ensures { IfOk result (λ items. items.items ≡ scope_items place schema.now scope.now) }
{
    let mut items = Vec::new(alloc);
    for i in 0..scope.len() {
        if let Some(name) = scope.at(i) {
            items.push(store_item(place, schema, name)?)?;
        }
    }
    Ok(items)
}

/// The places at the beginning.
pub(crate) fn places_of_schemas(
    alloc: Global,
    schemas: &Schemas,
) -> Result<Vec<DeskPlace>, NoMemory>
    ensures { IfOk result (λ places. places.items ≡ places_of_schemas schemas.now) }
{
    let mut places = Vec::new(alloc);
    for schema in schemas.as_slice() {
        places.push(DeskPlace {
            name: schema.name().copy(alloc)?,
            exists: true,
            unfinished: 0,
        })?;
    }
    Ok(places)
}
