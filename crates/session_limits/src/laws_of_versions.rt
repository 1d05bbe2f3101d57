// The laws of versions.
ghost use Rattle.std.specs.Prelude.{◌≡◌, ℕ, true, List, slice_get, Option, Some};
ghost use Rattle.idb_schema.specs.Schemas.{SchemaData};
ghost use Rattle.desk_steps.specs.declared.stands.DrawnTx.{DrawnTx};
ghost use Rattle.desk_steps.specs.declared.stands.TxKind.TheVariants as kind;
ghost use Rattle.idb_desk.specs.Databases.{database_under};
ghost use Rattle.idb_desk.specs.Refusals.{is_version};
ghost use Rattle.idb_desk.specs.Steps.{DeskRun, desk_run, IsDeskRun};
ghost use Rattle.desk_facts.specs.Databases.{AreOpenable, IsUnfinishedOf};
ghost use Rattle.item_changes.specs.Items.{Items};
ghost use Rattle.idb_databases.specs.Items.{AreItems};
ghost use Rattle.record_bytes.specs.Loggable.{is_logged_version};
ghost use Rattle.request_lists.specs.Fronts.{is_upgrade_mode};
ghost use Rattle.serial_order.specs.FinishEntries.{ScriptedBody, Scripted};
ghost use Rattle.script_statements.specs.declared.script.ScriptSession.{ScriptSession};
ghost use Rattle.script_handlers.specs.Handling.{Script};
ghost use Rattle.client_machine.specs.ClientStates.{ClientTx, tx_at};
ghost use Rattle.legal_sessions.specs.Histories.{ShowsItems};
ghost use Rattle.session_facts.specs.Sessions.{SeatNow, SessionNow};
ghost use Rattle.session_facts.specs.Telling.{RunningTx};
ghost use Rattle.session_facts.specs.UnderWay.{IsInStep};
ghost use Rattle.session_facts.specs.Fitting.{IsFitting};
ghost use Rattle.session_limits.specs.Ranges.{AreInRange};

/// The laws of versions. What a log can hold as a version is what the desk takes as one. In a run of the desk over databases of
/// versions in range each database has a version in range, and each unfinished upgrade is one to a version in range. So the body of
/// an upgrade that a client of a session holds has one.
pub fn version_laws()
    ensures held { (version : ℕ) → is_logged_version version ≡ is_version version }
    ensures databases { (r : DeskRun) (name : List ℕ) (schema : SchemaData) → AreOpenable r.opening
        → AreInRange r.opening → IsDeskRun r → database_under (desk_run r) name ≡ Some schema
        → is_version schema.version ≡ true }
    ensures upgrades { (r : DeskRun) (number : ℕ) (name : List ℕ) (drawn : DrawnTx) (new : ℕ)
        → AreOpenable r.opening → AreInRange r.opening → IsDeskRun r
        → IsUnfinishedOf (desk_run r) number name drawn → drawn.kind ≡ kind.Upgrade new
        → is_version new ≡ true }
    ensures in_range { (schemas : List SchemaData) (opening : Items) → AreItems opening → AreOpenable schemas
        → ShowsItems schemas opening → AreInRange schemas }
    ensures bodies { (session : ScriptSession) (opening : Items) (now : SessionNow)
        (running : Option RunningTx) (place : ℕ) (seat : SeatNow) (number : ℕ) (tx : ClientTx)
        (body : ScriptedBody Script)
        → IsInStep session opening now running → IsFitting now → AreItems opening
        → slice_get now.seats place ≡ Some seat → tx_at seat.client number ≡ Some tx → tx.body ≡ Scripted body
        → is_upgrade_mode body.mode ≡ true → is_version body.schema.version ≡ true }
{}
