// The changes with which a transaction begins, and a least client that is proved from the public clauses alone.
ghost use Rattle.std.specs.Prelude.{◌≡◌, []};
ghost use Rattle.live_stores.specs.Live.{live_from};

use clone_values::Text;
use idb_calls::Delta;
use idb_keys::Mode;
use idb_schema::{Schema, StoreInfos};
use index_tables::{FlatTables, Tables};
use live_stores::{LiveStores, Stores};
use std::alloc::Global;
use std::fmt::Write;
use std::process::Abort;
use store_requests::StoreNames;
use tx_courses::{Course, CourseParts, opening_changes};

/// The least client: a transaction that clears a store and then aborts gives back the stores as they were, and no change.
fn cleared_in_vain<T: Tables>(
    rt: &impl Abort,
    alloc: Global,
    mode: Mode,
    schema: Schema,
    stores: LiveStores<T>,
    names: &StoreNames,
) -> CourseParts<T>
    ensures stores { result.stores ≡ live_from stores.before }
    ensures changes { result.changes ≡ [] }
{
    let changes = opening_changes(alloc, mode, &schema).expect(rt, "memory");
    let mut course = Course::new(alloc, mode, schema, stores, changes);
    let _answer = course.clear_store(names);
    course.restore();
    course.into_parts()
}

/// The schema of the database db in its version 7, without stores.
fn schema(rt: &impl Abort, alloc: Global) -> Schema {
    let name = Text::copy_of(alloc, "db").expect(rt, "memory");
    Schema::new(alloc, name, 7, StoreInfos::new(alloc)).expect(rt, "memory")
}

/// Writes the changes with which a transaction of this mode begins.
fn write_opening(rt: &impl Abort, alloc: Global, mode: Mode, said: &mut String) {
    let schema = schema(rt, alloc);
    let changes = opening_changes(alloc, mode, &schema).expect(rt, "memory");
    let _ = write!(said, "{}", changes.len());
    if let Some(Delta::Version { db, version }) = changes.at(0) {
        let _ = write!(said, " {} {version}", db.as_str());
    }
    let _ = write!(said, "; ");
}

fn openings(rt: &impl Abort, alloc: Global) -> String {
    let mut said = String::new(alloc);
    for mode in [Mode::ReadOnly, Mode::ReadWrite, Mode::VersionChange] {
        write_opening(rt, alloc, mode, &mut said);
    }
    said
}

#[test]
fn only_an_upgrade_begins_with_the_version_of_its_database(rt: HostRuntime) {
    let said = openings(&rt, rt.alloc());
    assert_eq!(rt; said.as_str(), "0; 0; 1 db 7; ");
}

fn names(rt: &impl Abort, alloc: Global) -> StoreNames {
    StoreNames {
        database: Text::copy_of(alloc, "db").expect(rt, "memory"),
        store: Text::copy_of(alloc, "s").expect(rt, "memory"),
    }
}

fn left<T: Tables>(rt: &impl Abort, alloc: Global) -> CourseParts<T> {
    let schema = schema(rt, alloc);
    let names = names(rt, alloc);
    let none: Stores<T> = Stores::new(alloc);
    let stores = LiveStores::new(alloc, None, none);
    cleared_in_vain(rt, alloc, Mode::VersionChange, schema, stores, &names)
}

/// The version of the stores that are left, the number of changes, and the version of the schema.
fn seen<T: Tables>(rt: &impl Abort, alloc: Global) -> (Option<u64>, usize, u64) {
    let left: CourseParts<T> = left(rt, alloc);
    (
        left.stores.version(),
        left.changes.len(),
        left.schema.version(),
    )
}

#[test]
fn an_upgrade_that_aborts_leaves_nothing(rt: HostRuntime) {
    assert_eq!(rt; seen::<FlatTables>(&rt, rt.alloc()), (None, 0, 7));
}
