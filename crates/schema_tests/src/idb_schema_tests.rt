use clone_values::{PathSpec, Text};
use idb_base::GREATEST_LENGTH;
use idb_schema::*;
use path_grammar::KeyPath;
use std::alloc::Global;
use std::process::Abort;

fn text(rt: &impl Abort, alloc: Global, s: &str) -> Text {
    assert!(rt; s.len() <= GREATEST_LENGTH);
    Text::copy_of(alloc, s).expect(rt, "memory")
}

fn index(rt: &impl Abort, alloc: Global, name: &str) -> IndexInfo {
    IndexInfo {
        name: text(rt, alloc, name),
        path: KeyPath::parse(PathSpec::One(text(rt, alloc, "a.b"))).expect(rt, "a path"),
        unique: true,
        multi: false,
    }
}

/// A store of this name with indexes of these names.
fn store(rt: &impl Abort, alloc: Global, name: &str, indexes: &[&str]) -> StoreInfo {
    let mut infos = IndexInfos::new(alloc);
    for index_name in indexes {
        infos
            .push(index(rt, alloc, *index_name))
            .expect(rt, "memory");
    }
    StoreInfo {
        name: text(rt, alloc, name),
        path: None,
        auto: true,
        indexes: infos,
    }
}

/// The stores of these names that can be put behind one another.
fn stores(rt: &impl Abort, alloc: Global, names: &[&str]) -> StoreInfos {
    let mut infos = StoreInfos::new(alloc);
    for name in names {
        let info = store(rt, alloc, *name, &["one", "two"]);
        if infos.can_push(&info.name) {
            infos.push(info).expect(rt, "memory");
        }
    }
    infos
}

fn schema(rt: &impl Abort, alloc: Global, names: &[&str]) -> Schema {
    Schema::new(alloc, text(rt, alloc, "db"), 7, stores(rt, alloc, names)).expect(rt, "memory")
}

fn name_at(schema: &Schema, place: usize) -> &str {
    match schema.store(place) {
        Some(info) => info.name.as_str(),
        None => "",
    }
}

/// The names of the stores, each behind a slash.
fn names(rt: &impl Abort, alloc: Global, schema: &Schema) -> String {
    let mut out = String::new(alloc);
    for place in 0..schema.len() {
        out.push('/').expect(rt, "memory");
        out.push_str(name_at(schema, place)).expect(rt, "memory");
    }
    out
}

/// The names of the indexes of the store at this place, each behind a slash.
fn index_names(rt: &impl Abort, alloc: Global, schema: &Schema, place: usize) -> String {
    let mut out = String::new(alloc);
    if let Some(info) = schema.store(place) {
        for at in 0..info.indexes.len() {
            if let Some(index) = info.indexes.at(at) {
                out.push('/').expect(rt, "memory");
                out.push_str(index.name.as_str()).expect(rt, "memory");
            }
        }
    }
    out
}

/// Adds a store, where its name is new, and gives its id.
fn add(rt: &impl Abort, alloc: Global, schema: &mut Schema, name: &str) -> Option<StoreId> {
    let info = store(rt, alloc, name, &[]);
    if schema.store_place(&info.name).is_none() {
        schema.add_store(info).expect(rt, "memory");
    }
    id(rt, alloc, schema, name)
}

fn id(rt: &impl Abort, alloc: Global, schema: &Schema, name: &str) -> Option<StoreId> {
    match schema.store_place(&text(rt, alloc, name)) {
        Some(place) => Some(schema.store_id(place)),
        None => None,
    }
}

fn drop_named(rt: &impl Abort, alloc: Global, schema: &mut Schema, name: &str) {
    if let Some(place) = schema.store_place(&text(rt, alloc, name)) {
        schema.drop_store(place);
    }
}

/// Adds an index to the store of this name, where the index's name is new.
fn add_index(rt: &impl Abort, alloc: Global, schema: &mut Schema, store: &str, name: &str) {
    let info = index(rt, alloc, name);
    if let Some(place) = schema.store_place(&text(rt, alloc, store)) {
        if schema.index_place(place, &info.name).is_none() {
            schema.add_index(place, info).expect(rt, "memory");
        }
    }
}

fn index_id(
    rt: &impl Abort,
    alloc: Global,
    schema: &Schema,
    store: &str,
    name: &str,
) -> Option<IndexId> {
    let Some(place) = schema.store_place(&text(rt, alloc, store)) else {
        return None;
    };
    match schema.index_place(place, &text(rt, alloc, name)) {
        Some(at) => Some(schema.index_id(place, at)),
        None => None,
    }
}

fn drop_index(rt: &impl Abort, alloc: Global, schema: &mut Schema, store: &str, name: &str) {
    let Some(place) = schema.store_place(&text(rt, alloc, store)) else {
        return;
    };
    if let Some(at) = schema.index_place(place, &text(rt, alloc, name)) {
        schema.drop_index(place, at);
    }
}

/// Where a store that an id may name stands.
fn standing(schema: &Schema, id: Option<StoreId>) -> Option<usize> {
    match id {
        Some(id) => schema.place_of(id),
        None => None,
    }
}

/// Where an index that an id may name stands.
fn both_places(schema: &Schema, id: Option<IndexId>) -> Option<(usize, usize)> {
    match id {
        Some(id) => schema.places_of(id),
        None => None,
    }
}

/// A store that was created: its name, its id, and whether it was dropped since.
#[derive(Drop)]
struct Created {
    name: &'static str,
    id: Option<StoreId>,
    dropped: bool,
}

/// Names that rise by their bytes; by code units U+10000 would stand before U+FF61.
static NAMES: [&str; 7] = ["", "A", "a", "aa", "b", "\u{FF61}", "\u{10000}"];

/// The stores to create, or with a minus to drop, by their places among the names.
static STEPS: [(bool, usize); 16] = [
    (true, 4),
    (true, 2),
    (true, 6),
    (true, 5),
    (false, 2),
    (true, 0),
    (true, 2),
    (true, 3),
    (false, 6),
    (true, 1),
    (true, 6),
    (false, 0),
    (false, 4),
    (true, 4),
    (false, 3),
    (true, 3),
];

/// Where the store stands, counted over all that were created: how many that still stand have a smaller name.
fn slow_place(created: &[Created], at: usize) -> Option<usize> {
    let store = created.get(at)?;
    if store.dropped {
        return None;
    }
    let smaller = created
        .iter()
        .filter(|other| !other.dropped && other.name < store.name);
    Some(smaller.count())
}

fn check_ids(rt: &impl Abort, schema: &Schema, created: &[Created]) {
    for at in 0..created.len() {
        let place = standing(schema, created[at].id);
        assert_eq!(rt; place, slow_place(created, at));
        if let Some(place) = place {
            assert_eq!(rt; name_at(schema, place), created[at].name);
        }
    }
}

fn mark_dropped(created: &mut [Created], name: &str) {
    for store in created.iter_mut() {
        if store.name == name {
            store.dropped = true;
        }
    }
}

/// Creates or drops the store of the name at this place of `NAMES`.
fn make(
    rt: &impl Abort,
    alloc: Global,
    schema: &mut Schema,
    created: &mut Vec<Created>,
    creates: bool,
    at: usize,
) {
    let name: &'static str = NAMES.get(at).copied().unwrap_or("");
    if creates {
        let id = add(rt, alloc, schema, name);
        created
            .push(Created {
                name,
                id,
                dropped: false,
            })
            .expect(rt, "memory");
    } else {
        drop_named(rt, alloc, schema, name);
        mark_dropped(created, name);
    }
}

/// Each id goes on naming its store while others come and go, and names none once it is dropped, even where a new store
/// has the name.
#[test]
fn store_ids_outlast_changes(rt: HostRuntime) {
    let mut schema = schema(&rt, rt.alloc(), &[]);
    let mut created = Vec::new(rt.alloc());
    for (creates, at) in &STEPS {
        make(&rt, rt.alloc(), &mut schema, &mut created, *creates, *at);
        check_ids(&rt, &schema, &created);
    }
    assert_eq!(rt;
        names(&rt, rt.alloc(), &schema).as_str(),
        "/A/a/aa/b/\u{FF61}/\u{10000}"
    );
}

/// The stores b and d, of which d has the index three too.
fn with_three(rt: &impl Abort, alloc: Global) -> Schema {
    let mut schema = schema(rt, alloc, &["b", "d"]);
    add_index(rt, alloc, &mut schema, "d", "three");
    schema
}

/// Drops the index one of d, adds the store c, and adds the index again.
fn change(rt: &impl Abort, alloc: Global, schema: &mut Schema) {
    drop_index(rt, alloc, schema, "d", "one");
    let _ = add(rt, alloc, schema, "c");
    add_index(rt, alloc, schema, "d", "one")
}

/// The store and the name of each index whose id is looked at.
static INDEXES: [(&str, &str); 4] = [("d", "one"), ("d", "two"), ("d", "three"), ("b", "two")];

type Id = Option<IndexId>;

/// The ids of the indexes in `INDEXES`.
fn ids(rt: &impl Abort, alloc: Global, schema: &Schema) -> Vec<Id> {
    let mut ids = Vec::new(alloc);
    for (store, name) in &INDEXES {
        ids.push(index_id(rt, alloc, schema, store, name))
            .expect(rt, "memory");
    }
    ids
}

/// Where the index of the id at this place of the list stands.
fn places_at(schema: &Schema, ids: &[Id], at: usize) -> Option<(usize, usize)> {
    match ids.get(at) {
        Some(id) => both_places(schema, *id),
        None => None,
    }
}

/// Indexes stand where they were added.
#[test]
fn index_ids_name_places(rt: HostRuntime) {
    let schema = with_three(&rt, rt.alloc());
    let ids = ids(&rt, rt.alloc(), &schema);
    for (at, places) in [(0, Some((1, 0))), (2, Some((1, 2)))] {
        assert_eq!(rt; places_at(&schema, &ids, at), places);
    }
}

/// Indexes keep their order and their ids, whatever happens to others and to other stores.
#[test]
fn index_ids_outlast_changes(rt: HostRuntime) {
    let mut schema = with_three(&rt, rt.alloc());
    let ids = ids(&rt, rt.alloc(), &schema);
    change(&rt, rt.alloc(), &mut schema);
    for (at, places) in [
        (0, None),
        (1, Some((2, 0))),
        (2, Some((2, 1))),
        (3, Some((0, 1))),
    ] {
        assert_eq!(rt; places_at(&schema, &ids, at), places);
    }
    assert_eq!(rt;
        index_names(&rt, rt.alloc(), &schema, 2).as_str(),
        "/two/three/one"
    );
}

/// The ids of the indexes of a store that was dropped name none, and others are kept.
#[test]
fn index_ids_end_with_their_store(rt: HostRuntime) {
    let mut schema = with_three(&rt, rt.alloc());
    let ids = ids(&rt, rt.alloc(), &schema);
    change(&rt, rt.alloc(), &mut schema);
    drop_named(&rt, rt.alloc(), &mut schema, "d");
    for (at, places) in [(1, None), (3, Some((0, 1)))] {
        assert_eq!(rt; places_at(&schema, &ids, at), places);
    }
}

/// The stores b and c, of the version 9; a, which would stand before b, is not put behind it.
fn at_version_nine(rt: &impl Abort, alloc: Global) -> Schema {
    let mut schema = schema(rt, alloc, &["b", "a", "c"]);
    schema.set_version(9);
    schema
}

/// Only names that rise are put behind one another.
#[test]
fn names_rise(rt: HostRuntime) {
    let schema = schema(&rt, rt.alloc(), &["b", "a", "c"]);
    assert_eq!(rt; names(&rt, rt.alloc(), &schema).as_str(), "/b/c");
}

/// A copy has the same ids.
#[test]
fn a_copy_keeps_ids(rt: HostRuntime) {
    let mut schema = at_version_nine(&rt, rt.alloc());
    let id = id(&rt, rt.alloc(), &schema, "c");
    let copy = schema.copy(rt.alloc()).expect(&rt, "memory");
    drop_named(&rt, rt.alloc(), &mut schema, "b");
    assert_eq!(rt;
        (standing(&copy, id), standing(&schema, id)),
        (Some(1), Some(0))
    );
}

fn copy_of_nine(rt: &impl Abort, alloc: Global) -> Schema {
    at_version_nine(rt, alloc).copy(alloc).expect(rt, "memory")
}

/// A copy has the version and the names that were given.
#[test]
fn a_copy_keeps_names(rt: HostRuntime) {
    let copy = copy_of_nine(&rt, rt.alloc());
    assert_eq!(rt; (copy.version(), copy.name().as_str()), (9, "db"));
    assert_eq!(rt; index_names(&rt, rt.alloc(), &copy, 1).as_str(), "/one/two");
}

/// The indexes x, y and z, of which y came last.
fn three_infos(rt: &impl Abort, alloc: Global) -> IndexInfos {
    let mut infos = IndexInfos::new(alloc);
    infos.push(index(rt, alloc, "x")).expect(rt, "memory");
    infos.push(index(rt, alloc, "z")).expect(rt, "memory");
    infos
        .insert_at(1, index(rt, alloc, "y"))
        .expect(rt, "memory");
    infos
}

/// Lists of indexes and of schemas hold what was put in, in order.
#[test]
fn lists_keep_their_order(rt: HostRuntime) {
    let mut infos = three_infos(&rt, rt.alloc());
    assert!(rt; infos.len() == 3);
    let taken = infos.remove_at(0);
    assert_eq!(rt;
        (
            taken.name.as_str(),
            infos.at(1).map_or("", |i| i.name.as_str())
        ),
        ("x", "z")
    );
}

fn one_schema(rt: &impl Abort, alloc: Global) -> Schemas {
    let mut schemas = Schemas::new(alloc);
    schemas.push(schema(rt, alloc, &["a"])).expect(rt, "memory");
    schemas
}

/// A list of schemas holds what was put in.
#[test]
fn a_list_of_schemas_holds_one(rt: HostRuntime) {
    let schemas = one_schema(&rt, rt.alloc());
    assert!(rt; schemas.at(0).map_or(0, |s| s.len()) == 1 && schemas.at(1).is_none());
}
