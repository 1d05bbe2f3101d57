// The calls of an upgrade.
ghost use Rattle.std.specs.Prelude.{◌≡◌, true, false, None, OnOk, OnErr, IfOk};
ghost use Rattle.item_changes.specs.Effects.{finds_all};
ghost use Rattle.idb_schema.specs.declared.calls.SchemaCall.TheVariants as change;
ghost use Rattle.version_upgrade.specs.Upgrades.{refusal_of_schema, schema_after};
ghost use Rattle.request_lists.specs.Fronts.{is_store_deleted};
ghost use Rattle.request_lists.specs.Refusals.{is_store_gone};
ghost use Rattle.list_machine.specs.Entries.{deltas_of_call};
ghost use Rattle.machine_laws.specs.Keeping.{IsCheckedChange};
ghost use Rattle.tx_courses.specs.Courses.{state_with, restored};
ghost use Rattle.tx_courses.specs.Changes.{ChangesBy, deltas_in, is_store_too_many, is_index_broken, with_changes};

use crate::course::Course;
use crate::upgrades::{read, read_optional};
use clone_values::{PathSpec, Text};
use idb_base::NoMemory;
use idb_keys::ErrorName;
use idb_schema::{IndexInfo, SchemaCall, StoreId};
use index_tables::Tables;
use list_machine::GREATEST_STORE_COUNT;
use request_lists::TxFront;
use std::alloc::Global;
use version_upgrade::apply_schema;

/// Runs a call of an upgrade, which waits first in this front, or did: the schema, the stores and the changes are as it leaves them.
/// The error with which it aborts the upgrade is QuotaExceededError where it would pass a limit or make one store too many, and
/// ConstraintError where the records break a unique index. After an error, or `NoMemory`, it can only be undone.
pub fn run_change<T: Tables, H: Drop>(
    course: &mut Course<T>,
    front: &TxFront<H>,
    call: &SchemaCall,
) -> Result<Option<ErrorName>, NoMemory>
    requires checked { IsCheckedChange true course.old.schema call.now }
    requires finds { finds_all (deltas_of_call (state_with front.now course.old) call.now)
        course.old.database ≡ true }
    ensures came { IfOk result (λ stop. ChangesBy
        (state_with front.now course.old) call.now stop course.new) }
    ensures before { course.new.before ≡ course.old.before }
    ensures kept { OnErr result (restored course.new ≡ restored course.old) }
{
    if course.is_past(0, 0, 1) {
        return Ok(Some(ErrorName::QuotaExceededError));
    }
    if is_store_too_many(course, call) {
        return Ok(Some(ErrorName::QuotaExceededError));
    }
    if change_stores(course, call)? {
        return Ok(Some(ErrorName::ConstraintError));
    }
    change_schema(course, call)?;
    Ok(None)
}

/// The stores and the changes are as the call leaves them; or the call would make a unique index that the records break, which is
/// answered.
fn change_stores<T: Tables>(course: &mut Course<T>, call: &SchemaCall) -> Result<bool, NoMemory>
    requires there { is_store_gone course.old.schema call.now ≡ false }
    requires taken { refusal_of_schema course.old.schema call.now ≡ None }
    requires finds { finds_all (deltas_in course.old call.now) course.old.database ≡ true }
    ensures broken { IfOk result (λ is_broken. is_broken ≡ is_index_broken course.old call.now) }
    ensures changed { IfOk result (λ is_broken. is_broken ≡ false
        → course.new ≡ with_changes course.old (deltas_in course.old call.now)) }
    ensures kept { restored course.new ≡ restored course.old }
{
    match call {
        SchemaCall::CreateStore { name, path, auto } => create_store(course, name, path, *auto),
        SchemaCall::DropStore { name } => drop_store(course, name),
        SchemaCall::CreateIndex {
            store,
            name,
            path,
            unique,
            multi,
        } => create_index(course, *store, name, path, *unique, *multi),
        SchemaCall::DropIndex { store, name } => drop_index(course, *store, name),
    }
}

/// `createObjectStore`.
fn create_store<T: Tables>(
    course: &mut Course<T>,
    name: &Text,
    path: &Option<PathSpec>,
    auto: bool,
) -> Result<bool, NoMemory>
    requires taken { refusal_of_schema course.old.schema (change.CreateStore name.now path.now auto) ≡ None }
    requires finds { finds_all (deltas_in course.old (change.CreateStore name.now path.now auto))
        course.old.database ≡ true }
    ensures sound { IfOk result (λ is_broken. is_broken ≡ false) }
    ensures changed { OnOk result (course.new
        ≡ with_changes course.old (deltas_in course.old (change.CreateStore name.now path.now auto))) }
    ensures kept { restored course.new ≡ restored course.old }
{
    let names = course.names_of(name)?;
    let path = read_optional(course.alloc, path)?;
    course.create_store(names, path, auto)?;
    Ok(false)
}

/// `deleteObjectStore`.
fn drop_store<T: Tables>(course: &mut Course<T>, name: &Text) -> Result<bool, NoMemory>
    requires finds { finds_all (deltas_in course.old (change.DropStore name.now)) course.old.database ≡ true }
    ensures sound { IfOk result (λ is_broken. is_broken ≡ false) }
    ensures changed { OnOk result (course.new
        ≡ with_changes course.old (deltas_in course.old (change.DropStore name.now))) }
    ensures kept { restored course.new ≡ restored course.old }
{
    let names = course.names_of(name)?;
    course.drop_store(names)?;
    Ok(false)
}

/// `createIndex`.
fn create_index<T: Tables>(
    course: &mut Course<T>,
    store: StoreId,
    name: &Text,
    path: &PathSpec,
    unique: bool,
    multi: bool,
) -> Result<bool, NoMemory>
    requires there { is_store_deleted course.old.schema store ≡ false }
    requires taken { refusal_of_schema course.old.schema
        (change.CreateIndex store name.now path.now unique multi) ≡ None }
    requires finds { finds_all (deltas_in course.old
        (change.CreateIndex store name.now path.now unique multi))
        course.old.database ≡ true }
    ensures broken { IfOk result (λ is_broken. is_broken
        ≡ is_index_broken course.old (change.CreateIndex store name.now path.now unique multi)) }
    ensures changed { IfOk result (λ is_broken. is_broken ≡ false → course.new ≡ with_changes course.old
        (deltas_in course.old (change.CreateIndex store name.now path.now unique multi))) }
    ensures kept { restored course.new ≡ restored course.old }
{
    let names = course.names_at(store)?;
    let index = IndexInfo {
        name: name.copy(course.alloc)?,
        path: read(course.alloc, path)?,
        unique,
        multi,
    };
    course.create_index(names, index)
}

/// `deleteIndex`.
fn drop_index<T: Tables>(
    course: &mut Course<T>,
    store: StoreId,
    name: &Text,
) -> Result<bool, NoMemory>
    requires there { is_store_deleted course.old.schema store ≡ false }
    requires finds { finds_all (deltas_in course.old (change.DropIndex store name.now))
        course.old.database ≡ true }
    ensures sound { IfOk result (λ is_broken. is_broken ≡ false) }
    ensures changed { OnOk result (course.new
        ≡ with_changes course.old (deltas_in course.old (change.DropIndex store name.now))) }
    ensures kept { restored course.new ≡ restored course.old }
{
    let names = course.names_at(store)?;
    let name = name.copy(course.alloc)?;
    course.drop_index(names, name)?;
    Ok(false)
}

/// Whether the call would make one store too many.
fn is_store_too_many<T: Tables>(course: &Course<T>, call: &SchemaCall) -> bool
    ensures { result ≡ is_store_too_many course.now call.now }
{
    match call {
        SchemaCall::CreateStore { .. } => course.schema.len() >= GREATEST_STORE_COUNT,
        SchemaCall::DropStore { .. } => false,
        SchemaCall::CreateIndex { .. } => false,
        SchemaCall::DropIndex { .. } => false,
    }
}

/// The schema is as the call leaves it.
fn change_schema<T: Tables>(course: &mut Course<T>, call: &SchemaCall) -> Result<(), NoMemory>
    requires { refusal_of_schema course.old.schema call.now ≡ None }
    ensures changed { OnOk result
        (course.new ≡ record course.old { schema = schema_after course.old.schema call.now }) }
    ensures unchanged { OnErr result (course.new ≡ course.old) }
{
    let copy = copied(course.alloc, call)?;
    apply_schema(course.alloc, &mut course.schema, copy)
}

/// An equal call.
fn copied(alloc: Global, call: &SchemaCall) -> Result<SchemaCall, NoMemory>
    ensures { IfOk result (λ r. r ≡ call.now) }
{
    match call {
        SchemaCall::CreateStore { name, path, auto } => {
            let name = name.copy(alloc)?;
            let path = match path {
                Some(path) => Some(path.copy(alloc)?),
                None => None,
            };
            Ok(SchemaCall::CreateStore {
                name,
                path,
                auto: *auto,
            })
        }
        SchemaCall::DropStore { name } => Ok(SchemaCall::DropStore {
            name: name.copy(alloc)?,
        }),
        SchemaCall::CreateIndex {
            store,
            name,
            path,
            unique,
            multi,
        } => Ok(SchemaCall::CreateIndex {
            store: *store,
            name: name.copy(alloc)?,
            path: path.copy(alloc)?,
            unique: *unique,
            multi: *multi,
        }),
        SchemaCall::DropIndex { store, name } => Ok(SchemaCall::DropIndex {
            store: *store,
            name: name.copy(alloc)?,
        }),
    }
}
