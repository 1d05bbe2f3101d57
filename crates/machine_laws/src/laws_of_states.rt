// The laws of states, for every handler.
ghost use Rattle.std.specs.Prelude.{◌≡◌, true, List, Option};
ghost use Rattle.idb_keys.specs.declared.names.Mode.{Mode};
ghost use Rattle.idb_schema.specs.Schemas.{SchemaData, IsSchema};
ghost use Rattle.item_changes.specs.Items.{Name, Database};
ghost use Rattle.item_changes.specs.Effects.{made_all, finds_all};
ghost use Rattle.request_lists.specs.Fronts.{Front, new_front, is_upgrade_mode};
ghost use Rattle.request_lists.specs.Placing.{Becomes, after_rest, after_throw};
ghost use Rattle.list_machine.specs.declared.steps.Step.TheVariants.{Did};
ghost use Rattle.list_machine.specs.States.{State, fresh_state, opening_changes};
ghost use Rattle.list_machine.specs.Machine.{Turn, GoesOn};
ghost use Rattle.list_machine.specs.Noting.{IsRaised};
ghost use Rattle.machine_laws.specs.Keeping.{Shows, IsState};

use key_paths::conversion_laws;
use list_machine::leaving_laws;
use request_lists::Handler;

/// The laws of states. What a state is to meet it meets as the body of its transaction left it, whether that body returned or
/// threw, and after each turn. So at every moment all changes so far, applied to the database before, give the one now, and each
/// finds what it needs.
pub fn state_laws<H: Handler>()
    ensures body { (mode : Mode) (schema : SchemaData) (scope : List Name) (before : Option Database)
        (body : Front H.Plain) → Becomes (new_front mode schema scope) body → IsSchema schema
        → Shows (is_upgrade_mode mode) schema (made_all (opening_changes mode schema) before)
        → IsRaised mode schema before
        → IsState (fresh_state (after_rest body) schema before)
        × IsState (fresh_state (after_throw body) schema before) }
    ensures turn { (old new : State H.Plain) (lines : List H.Line)
        → Turn H.reacts H.writes old Did new lines → IsState old → IsState new }
    ensures changes { (old new : State H.Plain) (lines : List H.Line)
        → GoesOn H.reacts H.writes old new lines → IsState old
        → IsState new × (finds_all new.changes old.before ≡ true)
        × (made_all new.changes old.before ≡ new.database) }
{
    leaving_laws();
    conversion_laws();
}
