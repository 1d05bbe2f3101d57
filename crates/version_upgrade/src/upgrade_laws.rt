// What a reader may rely on of the calls of an upgrade.
ghost use Rattle.std.specs.Prelude.{◌≡◌, ◌≢◌, ℕ, Bool, true, not, ◌&&◌, ◌||◌, nat_eq, List, Option, Some, None};
ghost use Rattle.std.specs.Cmp.Lexicographic.{pointwise};
ghost use Rattle.clone_values.specs.declared.path_types.PathSpec.{PathSpec};
ghost use Rattle.idb_schema.specs.declared.calls.SchemaCall.{SchemaCall};
ghost use Rattle.idb_schema.specs.declared.calls.SchemaCall.TheVariants.{CreateStore, DropStore, CreateIndex, DropIndex};
ghost use Rattle.idb_schema.specs.declared.identities.StoreId.{StoreId};
ghost use Rattle.idb_schema.specs.Schemas.{SchemaData, IsSchema, place_of};
ghost use Rattle.idb_schema.specs.Sound.{AreSound};
ghost use Rattle.version_upgrade.specs.Upgrades.{has_store, has_index, indexes_of, refusal_of_schema, schema_after};

use idb_schema::{change_laws, name_laws as names_of_schemas, sound_laws};

/// The laws of names: after a call the schema has exactly the names that it had, and the one that the call adds or without the
/// one that it takes; the indexes of other stores stay.
pub fn name_laws()
    ensures new_store { (schema : SchemaData) (name : List ℕ) (path : Option PathSpec) (auto : Bool)
        (other : List ℕ) → has_store (schema_after schema (CreateStore name path auto)) other
        ≡ (pointwise nat_eq name other || has_store schema other) }
    ensures dropped_store { (schema : SchemaData) (name other : List ℕ) → IsSchema schema
        → has_store (schema_after schema (DropStore name)) other
        ≡ (has_store schema other && not (pointwise nat_eq name other)) }
    ensures new_index { (schema : SchemaData) (store : StoreId) (name : List ℕ) (path : PathSpec)
        (unique multi : Bool) (other : List ℕ) → place_of schema store ≢ None
        → has_index (schema_after schema (CreateIndex store name path unique multi)) store other
        ≡ (pointwise nat_eq name other || has_index schema store other) }
    ensures dropped_index { (schema : SchemaData) (store : StoreId) (name other : List ℕ)
        → AreSound schema.entries → has_index (schema_after schema (DropIndex store name)) store other
        ≡ (has_index schema store other && not (pointwise nat_eq name other)) }
    ensures stores_after_index { (schema : SchemaData) (store : StoreId) (name : List ℕ) (path : PathSpec)
        (unique multi : Bool) (other : List ℕ)
        → has_store (schema_after schema (CreateIndex store name path unique multi)) other
        ≡ has_store schema other }
    ensures stores_after_index_drop { (schema : SchemaData) (store : StoreId) (name other : List ℕ)
        → has_store (schema_after schema (DropIndex store name)) other ≡ has_store schema other }
    ensures others_after_index { (schema : SchemaData) (store id : StoreId) (name : List ℕ) (path : PathSpec)
        (unique multi : Bool) → id ≢ store
        → indexes_of (schema_after schema (CreateIndex store name path unique multi)) id
        ≡ indexes_of schema id }
    ensures others_after_index_drop { (schema : SchemaData) (store id : StoreId) (name : List ℕ) → id ≢ store
        → indexes_of (schema_after schema (DropIndex store name)) id ≡ indexes_of schema id }
{
    names_of_schemas();
    change_laws();
}

/// The law of sound definitions: a call that isn't refused leaves definitions as the standard asks where there were such.
pub fn sound_law()
    ensures { (schema : SchemaData) (call : SchemaCall) → AreSound schema.entries
        → refusal_of_schema schema call ≡ None → AreSound (schema_after schema call).entries }
{
    sound_laws();
}
