// What the changes that a request notes make of its database.
ghost use Rattle.std.specs.Prelude.{Bool, Option};
ghost use Rattle.clone_values.specs.Tree.{Tree};
ghost use Rattle.clone_values.specs.KeyTree.{KeyTree};
ghost use Rattle.idb_keys.specs.KeyRange.{Range};
ghost use Rattle.item_changes.specs.Store.{Store};
ghost use Rattle.item_changes.specs.Storing.{CanStore};
ghost use Rattle.store_requests.specs.Runs.{storing, deleting, clearing};
ghost use Rattle.store_requests.specs.Leaving.{Leaves};
ghost use Rattle.store_requests.specs.declared.changes.StoreNames.{StoreNames};

/// The laws of what requests note. Their changes, made one after the other, leave the store as the request itself leaves it, and
/// each finds what it needs.
pub fn leaving_laws()
    ensures storing { (named : StoreNames) (store : Store) (value : Tree) (key : Option KeyTree) (add : Bool)
        → CanStore store.info.path store.info.auto value key
        → Leaves named store (storing named store value key add) }
    ensures deleting { (named : StoreNames) (store : Store) (range : Range)
        → Leaves named store (deleting named store range) }
    ensures clearing { (named : StoreNames) (store : Store) → Leaves named store (clearing named store) }
{}
