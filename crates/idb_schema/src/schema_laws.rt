// What a reader may rely on of names and ids.
ghost use Rattle.std.specs.Prelude.{◌≡◌, ◌≢◌, ◌↔◌, ℕ, List, Some, None, slice_get};
ghost use Rattle.idb_schema.specs.declared.definitions.IndexInfo.{IndexInfo};
ghost use Rattle.idb_schema.specs.declared.definitions.StoreInfo.{StoreInfo};
ghost use Rattle.idb_schema.specs.declared.identities.IndexId.{IndexId};
ghost use Rattle.idb_schema.specs.declared.identities.StoreId.{StoreId};
ghost use Rattle.std.specs.List.{AllByRecursion};
ghost use Rattle.idb_schema.specs.Definitions.{store_names, index_names, store_named, index_named, IsStoreInfo, IsIndexInfo};
ghost use Rattle.idb_schema.specs.Sound.{AreSound};
ghost use Rattle.idb_schema.specs.Schemas.{SchemaData, IsSchema, stores_of, indexes_at, NamesStore, NamesIndex, next_store_id, next_index_id, place_of, places_of, store_of, index_of, WasGiven, WasGivenIndex, KeepsGiven, new_schema, with_store, without_store, with_index, without_index};

/// The laws of names: the place that a name finds is where it stands, a name that finds none stands nowhere, and in a
/// schema a store's name finds it wherever it stands.
pub fn name_laws()
    ensures store_stands { (stores : List StoreInfo) (name : List ℕ) (place : ℕ)
        → store_named stores name ≡ Some place → slice_get (store_names stores) place ≡ Some name }
    ensures store_absent { (stores : List StoreInfo) (name : List ℕ) (place : ℕ)
        → store_named stores name ≡ None → slice_get (store_names stores) place ≢ Some name }
    ensures index_stands { (indexes : List IndexInfo) (name : List ℕ) (place : ℕ)
        → index_named indexes name ≡ Some place → slice_get (index_names indexes) place ≡ Some name }
    ensures index_absent { (indexes : List IndexInfo) (name : List ℕ) (place : ℕ)
        → index_named indexes name ≡ None → slice_get (index_names indexes) place ≢ Some name }
    ensures found { (schema : SchemaData) (name : List ℕ) (place : ℕ) → IsSchema schema
        → slice_get (store_names (stores_of schema)) place ≡ Some name
        → store_named (stores_of schema) name ≡ Some place }
{}

/// The laws of ids: the place that an id finds is the one that it names, and the definition that it names stands there.
pub fn id_laws()
    ensures store { (schema : SchemaData) (id : StoreId) (place : ℕ) → IsSchema schema
        → (place_of schema id ≡ Some place) ↔ NamesStore schema id place }
    ensures index { (schema : SchemaData) (id : IndexId) (store place : ℕ) → IsSchema schema
        → (places_of schema id ≡ Some (store, place)) ↔ NamesIndex schema id store place }
    ensures store_definition { (schema : SchemaData) (id : StoreId) (place : ℕ) → IsSchema schema
        → NamesStore schema id place → slice_get (stores_of schema) place ≡ store_of schema id }
    ensures index_definition { (schema : SchemaData) (id : IndexId) (store place : ℕ) → IsSchema schema
        → NamesIndex schema id store place → slice_get (indexes_at schema store) place ≡ index_of schema id }
{}

/// The laws of changes: what is added is named by the next id, what is dropped is named no more, and every other id goes
/// on naming the definition that it named.
pub fn change_laws()
    ensures new_store { (schema : SchemaData) (info : StoreInfo) → IsSchema schema
        → store_of (with_store schema info) (next_store_id schema) ≡ Some info }
    ensures store_after_new { (schema : SchemaData) (info : StoreInfo) (id : StoreId)
        → id ≢ next_store_id schema
        → store_of (with_store schema info) id ≡ store_of schema id }
    ensures index_after_new { (schema : SchemaData) (info : StoreInfo) (id : IndexId)
        → id.store ≢ next_store_id schema
        → index_of (with_store schema info) id ≡ index_of schema id }
    ensures dropped_store { (schema : SchemaData) (place : ℕ) (id : StoreId) → IsSchema schema
        → NamesStore schema id place → store_of (without_store schema place) id ≡ None }
    ensures store_after_drop { (schema : SchemaData) (place : ℕ) (id : StoreId) → ¬ NamesStore schema id place
        → store_of (without_store schema place) id ≡ store_of schema id }
    ensures index_after_drop { (schema : SchemaData) (place : ℕ) (id : IndexId)
        → ¬ NamesStore schema id.store place
        → index_of (without_store schema place) id ≡ index_of schema id }
    ensures dropped_with_store { (schema : SchemaData) (place : ℕ) (id : IndexId) → IsSchema schema
        → NamesStore schema id.store place → index_of (without_store schema place) id ≡ None }
    ensures new_index { (schema : SchemaData) (store : ℕ) (info : IndexInfo) (id : IndexId) → IsSchema schema
        → next_index_id schema store ≡ Some id → index_of (with_index schema store info) id ≡ Some info }
    ensures index_after_index { (schema : SchemaData) (store : ℕ) (info : IndexInfo) (id : IndexId)
        → IsSchema schema
        → next_index_id schema store ≢ Some id
        → index_of (with_index schema store info) id ≡ index_of schema id }
    ensures dropped_index { (schema : SchemaData) (store place : ℕ) (id : IndexId) → IsSchema schema
        → NamesIndex schema id store place → index_of (without_index schema store place) id ≡ None }
    ensures index_after_index_drop { (schema : SchemaData) (store place : ℕ) (id : IndexId) → IsSchema schema
        → ¬ NamesIndex schema id store place
        → index_of (without_index schema store place) id ≡ index_of schema id }
    ensures store_after_index { (schema : SchemaData) (store : ℕ) (info : IndexInfo) (id : StoreId)
        → ¬ NamesStore schema id store → store_of (with_index schema store info) id ≡ store_of schema id }
    ensures store_after_index_drop { (schema : SchemaData) (store place : ℕ) (id : StoreId)
        → ¬ NamesStore schema id store → store_of (without_index schema store place) id ≡ store_of schema id }
    ensures place_after_index { (schema : SchemaData) (store : ℕ) (info : IndexInfo) (id : StoreId)
        → place_of (with_index schema store info) id ≡ place_of schema id }
    ensures place_after_index_drop { (schema : SchemaData) (store place : ℕ) (id : StoreId)
        → place_of (without_index schema store place) id ≡ place_of schema id }
{}

/// The laws of given ids: what names something was given, no given id is given again, and after a change a given id stays
/// one. So an id whose store or index is deleted never comes to name another.
pub fn given_laws()
    ensures store { (schema : SchemaData) (id : StoreId) (place : ℕ) → IsSchema schema
        → NamesStore schema id place → WasGiven schema id }
    ensures index { (schema : SchemaData) (id : IndexId) (store place : ℕ) → IsSchema schema
        → NamesIndex schema id store place → WasGivenIndex schema id }
    ensures next_store { (schema : SchemaData) (id : StoreId) → WasGiven schema id
        → id ≢ next_store_id schema }
    ensures next_index { (schema : SchemaData) (id : IndexId) (store : ℕ) → WasGivenIndex schema id
        → next_index_id schema store ≢ Some id }
    ensures new_store { (schema : SchemaData) (info : StoreInfo)
        → KeepsGiven schema (with_store schema info) }
    ensures dropped_store { (schema : SchemaData) (place : ℕ)
        → KeepsGiven schema (without_store schema place) }
    ensures new_index { (schema : SchemaData) (store : ℕ) (info : IndexInfo)
        → KeepsGiven schema (with_index schema store info) }
    ensures dropped_index { (schema : SchemaData) (store place : ℕ)
        → KeepsGiven schema (without_index schema store place) }
{}

/// The laws of sound definitions: a schema of sound definitions stays one through each change.
pub fn sound_laws()
    ensures new_schema { (name : List ℕ) (version : ℕ) (stores : List StoreInfo)
        → AllByRecursion IsStoreInfo stores → AreSound (new_schema name version stores).entries }
    ensures new_store { (schema : SchemaData) (info : StoreInfo) → AreSound schema.entries → IsStoreInfo info
        → AreSound (with_store schema info).entries }
    ensures dropped_store { (schema : SchemaData) (place : ℕ) → AreSound schema.entries
        → AreSound (without_store schema place).entries }
    ensures new_index { (schema : SchemaData) (store : ℕ) (index : IndexInfo) → AreSound schema.entries
        → IsIndexInfo index → index_named (indexes_at schema store) index.name ≡ None
        → AreSound (with_index schema store index).entries }
    ensures dropped_index { (schema : SchemaData) (store place : ℕ) → AreSound schema.entries
        → AreSound (without_index schema store place).entries }
{}
