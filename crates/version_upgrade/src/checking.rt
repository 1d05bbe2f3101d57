// Why a schema refuses a call: the first cause in the order of the standard.
ghost use Rattle.std.specs.Prelude.{◌≡◌, not, [], ◌∷◌, None, Some, OnOk, IfErr};
ghost use Rattle.idb_schema.specs.Definitions.{is_list_path, takes_generator};
ghost use Rattle.version_upgrade.specs.Upgrades.{first_of, has_store, has_index, refusal_of_new_store, refusal_of_new_index, refusal_of_schema};

use clone_values::{PathSpec, Text};
use idb_keys::ErrorName;
use idb_schema::{Schema, SchemaCall, StoreId};
use path_grammar::is_key_path;

/// Whether the schema takes the call, past the questions whether an upgrade is running and active. It takes no memory.
pub fn check_schema(schema: &Schema, call: &SchemaCall) -> Result<(), ErrorName>
    ensures taken { OnOk result (refusal_of_schema schema.now call.now ≡ None) }
    ensures refused { IfErr result (λ name. refusal_of_schema schema.now call.now ≡ Some name) }
{
    match call {
        SchemaCall::CreateStore { name, path, auto } => check_new_store(schema, name, path, *auto),
        SchemaCall::DropStore { name } => found(has_store(schema, name)),
        SchemaCall::CreateIndex {
            store,
            name,
            path,
            unique: _,
            multi,
        } => check_new_index(schema, *store, name, path, *multi),
        SchemaCall::DropIndex { store, name } => found(has_index(schema, *store, name)),
    }
}

fn check_new_store(
    schema: &Schema,
    name: &Text,
    path: &Option<PathSpec>,
    auto: bool,
) -> Result<(), ErrorName>
    ensures taken { OnOk result (refusal_of_new_store schema.now name.now path.now auto ≡ None) }
    ensures refused { IfErr result (λ e. refusal_of_new_store schema.now name.now path.now auto ≡ Some e) }
{
    if let Some(path) = path {
        if !is_key_path(path) {
            return Err(ErrorName::SyntaxError);
        }
    }
    if has_store(schema, name) {
        return Err(ErrorName::ConstraintError);
    }
    if auto && !takes_generator(path) {
        return Err(ErrorName::InvalidAccessError);
    }
    Ok(())
}

fn check_new_index(
    schema: &Schema,
    store: StoreId,
    name: &Text,
    path: &PathSpec,
    multi: bool,
) -> Result<(), ErrorName>
    ensures taken { OnOk result (refusal_of_new_index schema.now store name.now path.now multi ≡ None) }
    ensures refused { IfErr result (λ e.
        refusal_of_new_index schema.now store name.now path.now multi ≡ Some e) }
{
    if has_index(schema, store, name) {
        return Err(ErrorName::ConstraintError);
    }
    if !is_key_path(path) {
        return Err(ErrorName::SyntaxError);
    }
    if multi && is_list_path(path) {
        return Err(ErrorName::InvalidAccessError);
    }
    Ok(())
}

fn found(is_there: bool) -> Result<(), ErrorName>
    ensures taken { OnOk result (first_of ((not is_there, ErrorName.NotFoundError) ∷ []) ≡ None) }
    ensures refused { IfErr result (λ e. first_of ((not is_there, ErrorName.NotFoundError) ∷ []) ≡ Some e) }
{
    if is_there {
        Ok(())
    } else {
        Err(ErrorName::NotFoundError)
    }
}

/// Whether the database has a store of this name.
fn has_store(schema: &Schema, name: &Text) -> bool
    ensures { result ≡ has_store schema.now name.now }
{
    schema.store_place(name).is_some()
}

/// Whether the store that the id names has an index of this name.
fn has_index(schema: &Schema, store: StoreId, name: &Text) -> bool
    ensures { result ≡ has_index schema.now store name.now }
{
    match schema.place_of(store) {
        Some(place) => schema.index_place(place, name).is_some(),
        None => false,
    }
}

/// Whether a key generator's number can be put at the path.
fn takes_generator(path: &Option<PathSpec>) -> bool
    ensures { result ≡ takes_generator path.now }
{
    match path {
        None => true,
        Some(PathSpec::One(string)) => !string.as_str().is_empty(),
        Some(PathSpec::Many(_)) => false,
    }
}

fn is_list_path(path: &PathSpec) -> bool
    ensures { result ≡ is_list_path path.now }
{
    match path {
        PathSpec::One(_) => false,
        PathSpec::Many(_) => true,
    }
}
