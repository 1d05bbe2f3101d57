// The laws of changes.
ghost use Rattle.std.specs.Prelude.{◌≡◌, ℕ, ◌<◌, Bool, true, false, List, Option, Some, None, option_map, IfSome};
ghost use Rattle.std.specs.FinMap as finite;
ghost use Rattle.clone_values.specs.Tree.{Tree};
ghost use Rattle.clone_values.specs.KeyTree.{KeyTree};
ghost use Rattle.clone_values.specs.declared.path_types.PathSpec.{PathSpec};
ghost use Rattle.idb_schema.specs.Definitions.{index_named};
ghost use Rattle.object_stores.specs.Store.{Store};
ghost use Rattle.object_stores.specs.Changed.{store_with_record, store_without_record, cleared, with_current, store_with_index, store_without_index};
ghost use Rattle.idb_calls.specs.Deltas.{DeltaTree, Version, DropDatabase, CreateStore, DropStore, CreateIndex, DropIndex, Put, Remove, Clear, Current};
ghost use Rattle.item_changes.specs.Items.{Name, Database, Items, is_same_name, store_at, stores_at};
ghost use Rattle.item_changes.specs.Effects.{OnStore, effect_of, database_of, new_store, new_index, applied, applies, Turns};

/// The laws of changes. Where a change applies, what it names is there as it asks, and afterwards is as it says.
pub fn change_laws()
    ensures version { (items : Items) (db : Name) (version : ℕ) → applies items (Version db version) ≡ true
        → IfSome (finite.get items db) (λ d. d.version < version)
        × (finite.get (applied items (Version db version)) db
        ≡ Some (record { version = version; stores = stores_at items db })) }
    ensures drop_database { (items : Items) (db : Name) → applies items (DropDatabase db) ≡ true
        → (d : Database) × (finite.get items db ≡ Some d)
        × (finite.get (applied items (DropDatabase db)) db ≡ None) }
    ensures create_store { (items : Items) (db store : Name) (path : Option PathSpec) (auto : Bool)
        → applies items (CreateStore db store path auto) ≡ true
        → Turns items (CreateStore db store path auto) db store None (Some (new_store store path auto)) }
    ensures drop_store { (items : Items) (db store : Name) → applies items (DropStore db store) ≡ true
        → (x : Store) × Turns items (DropStore db store) db store (Some x) None }
    ensures create_index { (items : Items) (db store index : Name) (path : PathSpec) (unique multi : Bool)
        → applies items (CreateIndex db store index path unique multi) ≡ true
        → (x : Store) × (index_named x.info.indexes index ≡ None)
        × Turns items (CreateIndex db store index path unique multi) db store
        (Some x) (Some (store_with_index x (new_index index path unique multi))) }
    ensures drop_index { (items : Items) (db store index : Name)
        → applies items (DropIndex db store index) ≡ true
        → (x : Store) × (place : ℕ) × (index_named x.info.indexes index ≡ Some place)
        × Turns items (DropIndex db store index) db store (Some x) (Some (store_without_index x place)) }
    ensures put { (items : Items) (db store : Name) (key : KeyTree) (value : Tree)
        → applies items (Put db store key value) ≡ true
        → (x : Store) × Turns items (Put db store key value) db store
        (Some x) (Some (store_with_record x key value)) }
    ensures remove { (items : Items) (db store : Name) (key : KeyTree)
        → applies items (Remove db store key) ≡ true
        → (x : Store) × (value : Tree) × (finite.get x.records key ≡ Some value)
        × Turns items (Remove db store key) db store (Some x) (Some (store_without_record x key)) }
    ensures clear { (items : Items) (db store : Name) → applies items (Clear db store) ≡ true
        → (x : Store) × Turns items (Clear db store) db store (Some x) (Some (cleared x)) }
    ensures current { (items : Items) (db store : Name) (current : ℕ)
        → applies items (Current db store current) ≡ true
        → (x : Store) × (x.info.auto ≡ true)
        × Turns items (Current db store current) db store (Some x) (Some (with_current x current)) }
    ensures other_databases { (items : Items) (delta : DeltaTree) (db : Name)
        → is_same_name (database_of delta) db ≡ false
        → finite.get (applied items delta) db ≡ finite.get items db }
    ensures other_stores { (items : Items) (delta : DeltaTree) (db store other : Name)
        (test : Option Store → Bool) (make : Option Store → Option Store)
        → effect_of delta ≡ OnStore store test make → is_same_name store other ≡ false
        → store_at (applied items delta) db other ≡ store_at items db other }
    ensures same_version { (items : Items) (delta : DeltaTree) (db store : Name)
        (test : Option Store → Bool) (make : Option Store → Option Store)
        → effect_of delta ≡ OnStore store test make
        → option_map (λ d. d.version) (finite.get (applied items delta) db)
        ≡ option_map (λ d. d.version) (finite.get items db) }
{}

/// Where what a change names is there as it asks, the change applies.
pub fn condition_laws()
    ensures version { (items : Items) (db : Name) (version : ℕ)
        → IfSome (finite.get items db) (λ d. d.version < version)
        → applies items (Version db version) ≡ true }
    ensures drop_database { (items : Items) (db : Name) (d : Database) → finite.get items db ≡ Some d
        → applies items (DropDatabase db) ≡ true }
    ensures create_store { (items : Items) (db store : Name) (path : Option PathSpec) (auto : Bool)
        (d : Database) → finite.get items db ≡ Some d → finite.get d.stores store ≡ None
        → applies items (CreateStore db store path auto) ≡ true }
    ensures drop_store { (items : Items) (db store : Name) (x : Store) → store_at items db store ≡ Some x
        → applies items (DropStore db store) ≡ true }
    ensures create_index { (items : Items) (db store index : Name) (path : PathSpec) (unique multi : Bool)
        (x : Store) → store_at items db store ≡ Some x → index_named x.info.indexes index ≡ None
        → applies items (CreateIndex db store index path unique multi) ≡ true }
    ensures drop_index { (items : Items) (db store index : Name) (x : Store) (place : ℕ)
        → store_at items db store ≡ Some x → index_named x.info.indexes index ≡ Some place
        → applies items (DropIndex db store index) ≡ true }
    ensures put { (items : Items) (db store : Name) (key : KeyTree) (value : Tree) (x : Store)
        → store_at items db store ≡ Some x → applies items (Put db store key value) ≡ true }
    ensures remove { (items : Items) (db store : Name) (key : KeyTree) (value : Tree) (x : Store)
        → store_at items db store ≡ Some x → finite.get x.records key ≡ Some value
        → applies items (Remove db store key) ≡ true }
    ensures clear { (items : Items) (db store : Name) (x : Store) → store_at items db store ≡ Some x
        → applies items (Clear db store) ≡ true }
    ensures current { (items : Items) (db store : Name) (current : ℕ) (x : Store)
        → store_at items db store ≡ Some x → x.info.auto ≡ true
        → applies items (Current db store current) ≡ true }
{}
