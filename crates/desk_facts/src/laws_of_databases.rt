// The laws of databases.
ghost use Rattle.std.specs.Prelude.{◌≡◌, ℕ, List, ◌++◌, true, false, Option, Some, None};
ghost use Rattle.std.specs.List.{find, list_any};
ghost use Rattle.idb_schema.specs.Schemas.{SchemaData};
ghost use Rattle.idb_calls.specs.declared.traces.Outcome.{Outcome};
ghost use Rattle.name_queues.specs.declared.ids.ConnId.{ConnId};
ghost use Rattle.desk_steps.specs.declared.stands.DrawnTx.{DrawnTx};
ghost use Rattle.desk_steps.specs.declared.stands.TxKind.TheVariants as kind;
ghost use Rattle.desk_steps.specs.declared.steps.DeskStep.{DeskStep};
ghost use Rattle.desk_steps.specs.declared.steps.DeskStep.TheVariants as step;
ghost use Rattle.idb_desk.specs.Databases.{database_under};
ghost use Rattle.idb_desk.specs.Desks.{DeskState};
ghost use Rattle.idb_desk.specs.Refusals.{is_allowed, is_committed, is_usable};
ghost use Rattle.idb_desk.specs.Steps.{after, new_desk, DeskRun, desk_run, IsDeskRun};
ghost use Rattle.queue_facts.specs.Queued.{AreNamedApart};
ghost use Rattle.desk_facts.specs.Orderly.{asked_at, IsOrderly};
ghost use Rattle.desk_facts.specs.Databases.{is_schema_named, AreOpenable, IsUnfinishedOf, is_whole_kind, changes_database, is_finish_of, ShowsDatabase, IsAloneIn};

/// How databases move. A desk begins with those of its opening. The finish of a committed upgrade puts the schema that it left, that
/// of a committed deletion removes the database, and every other step leaves each database; no two names are the same. A
/// connection that can create a transaction sees its database. While an upgrade or a deletion isn't finished, no other
/// transaction of its database is unfinished, and none can be created: so until a transaction is finished its database stays, but
/// by itself.
pub fn database_laws()
    ensures opening { (schemas : List SchemaData) (name : List ℕ) → AreOpenable schemas
        → database_under (new_desk schemas) name ≡ find (is_schema_named name) schemas }
    ensures step { (d : DeskState) (t : DeskStep) (name : List ℕ) → IsOrderly d → is_allowed d t ≡ true
        → changes_database d t name ≡ false → database_under (after d t) name ≡ database_under d name }
    ensures upgrade { (d : DeskState) (client number : ℕ) (ended : Outcome) (schema : SchemaData)
        (name : List ℕ)
        (t : DrawnTx) (new : ℕ) → IsOrderly d → IsUnfinishedOf d number name t → t.kind ≡ kind.Upgrade new
        → is_allowed d (step.Leaves client number ended (Some schema)) ≡ true
        → (database_under (after d (step.Leaves client number ended (Some schema))) name ≡ Some schema)
        × (schema.name ≡ name) × (schema.version ≡ new) }
    ensures deletion { (d : DeskState) (client number : ℕ) (ended : Outcome) (kept : Option SchemaData)
        (name : List ℕ)
        (t : DrawnTx) → IsOrderly d → IsUnfinishedOf d number name t → t.kind ≡ kind.Deletion
        → is_committed ended ≡ true → is_allowed d (step.Leaves client number ended kept) ≡ true
        → database_under (after d (step.Leaves client number ended kept)) name ≡ None }
    ensures names { (d : DeskState) → IsOrderly d → AreNamedApart d.queues.names }
    ensures shown { (d : DeskState) (who : ConnId) (name : List ℕ) → IsOrderly d → is_usable d who ≡ true
        → asked_at d who ≡ Some name → ShowsDatabase d who name }
    ensures alone { (d : DeskState) (number : ℕ) (name : List ℕ) (t : DrawnTx) → IsOrderly d
        → IsUnfinishedOf d number name t → is_whole_kind t.kind ≡ true → IsAloneIn d number name }
    ensures stays { (r : DeskRun) (more : List DeskStep) (number : ℕ) (name : List ℕ) (t : DrawnTx)
        → AreOpenable r.opening → IsDeskRun (record { opening = r.opening; order = r.order ++ more })
        → IsUnfinishedOf (desk_run r) number name t → list_any (is_finish_of number) more ≡ false
        → database_under (desk_run (record { opening = r.opening; order = r.order ++ more })) name
        ≡ database_under (desk_run r) name }
{}
