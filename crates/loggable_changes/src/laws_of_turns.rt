// The laws of logging, for every handler.
ghost use Rattle.std.specs.Prelude.{◌≡◌, true, List, Option};
ghost use Rattle.idb_base.specs.Lists.{IsWithinLimit};
ghost use Rattle.idb_schema.specs.Schemas.{SchemaData};
ghost use Rattle.item_changes.specs.Items.{Database};
ghost use Rattle.record_bytes.specs.Loggable.{is_logged_version};
ghost use Rattle.request_lists.specs.Fronts.{Front, is_upgrade_mode};
ghost use Rattle.list_machine.specs.declared.steps.Step.{Step};
ghost use Rattle.list_machine.specs.States.{State, fresh_state};
ghost use Rattle.list_machine.specs.Machine.{Turn, GoesOn};
ghost use Rattle.list_machine.specs.Seeing.{pulled_reacts, pulled_writes};
ghost use Rattle.machine_laws.specs.Keeping.{IsState};
ghost use Rattle.machine_laws.specs.Limiting.{WithinLimits};
ghost use Rattle.loggable_changes.specs.Logging.{AreLoggable, AreSoundStores};

use machine_laws::{limit_laws, state_laws};
use request_lists::Handler;

/// The laws of logging. A transaction begins with changes that can be logged, where the version of an upgrade can, and whatever a
/// turn changes can be logged, where the stores are sound before it and after; said of the plain data of the handlers, and of the
/// handlers themselves. So at every moment of a run all changes so far can be logged, and are few enough for one record.
pub fn logging_laws<H: Handler>()
    ensures fresh { (front : Front H.Plain) (schema : SchemaData) (before : Option Database)
        → (is_upgrade_mode front.mode ≡ true → is_logged_version schema.version ≡ true)
        → AreLoggable (fresh_state front schema before).changes }
    ensures turn { (old new : State H.Plain) (step : Step) (lines : List H.Line)
        → Turn H.reacts H.writes old step new lines → IsState old
        → AreSoundStores old.database → AreSoundStores new.database
        → AreLoggable old.changes → AreLoggable new.changes }
    ensures turn_here { (old new : State H) (step : Step) (lines : List H.Line)
        → Turn (pulled_reacts H.plain H.reacts) (pulled_writes H.plain H.writes) old step new lines
        → IsState old → AreSoundStores old.database → AreSoundStores new.database
        → AreLoggable old.changes → AreLoggable new.changes }
    ensures run { (old new : State H.Plain) (lines : List H.Line)
        → GoesOn H.reacts H.writes old new lines → IsState old → WithinLimits old
        → ((mid : State H.Plain) (first : List H.Line)
        → GoesOn H.reacts H.writes old mid first → AreSoundStores mid.database)
        → AreLoggable old.changes → AreLoggable new.changes × IsWithinLimit new.changes }
{
    limit_laws::<H>();
    state_laws::<H>();
}
