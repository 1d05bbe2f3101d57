// What a call of an upgrade makes of the schema.
ghost use Rattle.std.specs.Prelude.{◌≡◌, true, None, OnOk, OnErr};
ghost use Rattle.path_grammar.specs.KeyPath.{is_key_path};
ghost use Rattle.version_upgrade.specs.Upgrades.{refusal_of_schema, schema_after, is_valid_path, without_named, without_index_named};

use clone_values::{PathSpec, Text};
use idb_base::NoMemory;
use idb_schema::{IndexInfo, IndexInfos, Schema, SchemaCall, StoreId, StoreInfo};
use path_grammar::KeyPath;
use std::alloc::Global;

/// Changes the schema as the call asks, which `check_schema` took. Every other id goes on naming what it named. Where an id names
/// a store that is deleted, nothing changes.
pub fn apply_schema(alloc: Global, schema: &mut Schema, call: SchemaCall) -> Result<(), NoMemory>
    requires { refusal_of_schema schema.old call ≡ None }
    ensures applied { OnOk result (schema.new ≡ schema_after schema.old call) }
    ensures unchanged { OnErr result (schema.new ≡ schema.old) }
{
    match call {
        SchemaCall::CreateStore { name, path, auto } => schema.add_store(StoreInfo {
            name,
            path: read_optional(path),
            auto,
            indexes: IndexInfos::new(alloc),
        }),
        SchemaCall::DropStore { name } => {
            drop_store(schema, &name);
            Ok(())
        }
        SchemaCall::CreateIndex {
            store,
            name,
            path,
            unique,
            multi,
        } => match schema.place_of(store) {
            Some(place) => schema.add_index(
                place,
                IndexInfo {
                    name,
                    path: read(path),
                    unique,
                    multi,
                },
            ),
            None => Ok(()),
        },
        SchemaCall::DropIndex { store, name } => {
            drop_index(schema, store, &name);
            Ok(())
        }
    }
}

/// The path that a specification reads as.
fn read(spec: PathSpec) -> KeyPath
    requires { is_key_path spec ≡ true }
    ensures { result ≡ spec }
{
    match KeyPath::parse(spec) {
        Ok(path) => path,
        Err(_) => unreachable!(),
    }
}

fn read_optional(spec: Option<PathSpec>) -> Option<KeyPath>
    requires { is_valid_path spec ≡ true }
    ensures { result ≡ spec }
{
    match spec {
        Some(spec) => Some(read(spec)),
        None => None,
    }
}

/// Deletes the store of this name.
fn drop_store(schema: &mut Schema, name: &Text)
    ensures { schema.new ≡ without_named schema.old name.now }
{
    if let Some(place) = schema.store_place(name) {
        schema.drop_store(place);
    }
}

/// Deletes the index of this name of the store that the id names.
fn drop_index(schema: &mut Schema, store: StoreId, name: &Text)
    ensures { schema.new ≡ without_index_named schema.old store name.now }
{
    if let Some(store) = schema.place_of(store) {
        if let Some(place) = schema.index_place(store, name) {
            schema.drop_index(store, place);
        }
    }
}
