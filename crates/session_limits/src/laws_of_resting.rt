// The laws of databases at rest, and of records that apply.
ghost use Rattle.std.specs.Prelude.{◌≡◌, true, List, [], ◌∷◌, ◌++◌, Some};
ghost use Rattle.std.specs.FinMap as finite;
ghost use Rattle.item_changes.specs.Items.{Name, Database, Items};
ghost use Rattle.item_changes.specs.Effects.{applied_all, all_apply};
ghost use Rattle.idb_databases.specs.Stores.{AreStores};
ghost use Rattle.idb_databases.specs.Items.{AreItems, is_within_limits};
ghost use Rattle.record_bytes.specs.declared.records.LogRecord.{LogRecord};
ghost use Rattle.log_history.specs.Replayed.{are_unbroken, is_at_rest, after_record, after_records};
ghost use Rattle.log_history.specs.Batching.{Commit, records_of_commits};

/// The laws of rest. Databases whose stores are as the standard asks are unbroken; databases that are so are, within limits, at rest. A
/// record whose changes apply, and after which all is at rest, gives what its changes make. And after records and one more record, or commits and one more commit, stands
/// what that one gives.
pub fn resting_laws()
    ensures unbroken { (items : Items)
        → ((name : Name) (d : Database) → finite.get items name ≡ Some d → AreStores d.stores)
        → are_unbroken items ≡ true }
    ensures rest { (items : Items) → AreItems items → is_within_limits items ≡ true
        → is_at_rest items ≡ true }
    ensures logged { (items : Items) (r : LogRecord) → all_apply items r.deltas ≡ true
        → is_at_rest (applied_all items r.deltas) ≡ true
        → after_record items r ≡ Some (applied_all items r.deltas) }
    ensures one_more { (items mid new : Items) (rs : List LogRecord) (r : LogRecord)
        → after_records items rs ≡ Some mid → after_record mid r ≡ Some new
        → after_records items (rs ++ r ∷ []) ≡ Some new }
    ensures one_commit_more { (items mid new : Items) (commits : List Commit) (c : Commit)
        → after_records items (records_of_commits commits) ≡ Some mid → after_record mid c.logged ≡ Some new
        → after_records items (records_of_commits (commits ++ c ∷ [])) ≡ Some new }
{}
