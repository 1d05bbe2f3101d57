// The laws of lists of changes.
ghost use Rattle.std.specs.Prelude.{◌≡◌, ◌≤◌, ◌++◌, true, List, [], ◌∷◌, length};
ghost use Rattle.idb_base.specs.Lists.{IsWithinLimit};
ghost use Rattle.idb_keys.specs.declared.names.Mode.{Mode};
ghost use Rattle.idb_schema.specs.Schemas.{SchemaData};
ghost use Rattle.idb_calls.specs.Deltas.{DeltaTree, DropDatabase};
ghost use Rattle.idb_calls.specs.declared.traces.TheConstants.{GREATEST_DELTA_COUNT};
ghost use Rattle.item_changes.specs.Items.{Name};
ghost use Rattle.record_bytes.specs.Loggable.{is_logged_version};
ghost use Rattle.request_lists.specs.Fronts.{is_upgrade_mode};
ghost use Rattle.list_machine.specs.States.{opening_changes};
ghost use Rattle.loggable_changes.specs.Logging.{AreLoggable};

/// The laws of lists of changes. Those with which a transaction begins can be logged, where the version of an upgrade can; so can
/// changes and then more; as many as a transaction may make are few enough for one record; and the deletion of a database is a
/// record of its own.
pub fn loggable_change_laws()
    ensures opening { (mode : Mode) (schema : SchemaData)
        → (is_upgrade_mode mode ≡ true → is_logged_version schema.version ≡ true)
        → AreLoggable (opening_changes mode schema) }
    ensures both { (before more : List DeltaTree)
        → AreLoggable before → AreLoggable more → AreLoggable (before ++ more) }
    ensures count { (changes : List DeltaTree)
        → length changes ≤ GREATEST_DELTA_COUNT → IsWithinLimit changes }
    ensures deletion { (name : Name)
        → AreLoggable (DropDatabase name ∷ []) × IsWithinLimit (DropDatabase name ∷ []) }
{}
