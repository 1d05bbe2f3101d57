// The laws of live transactions.
ghost use Rattle.std.specs.Prelude.{List, Option};
ghost use Rattle.idb_keys.specs.declared.names.Mode.{Mode};
ghost use Rattle.idb_schema.specs.Schemas.{SchemaData, IsSchema};
ghost use Rattle.item_changes.specs.Items.{Name, Database};
ghost use Rattle.item_changes.specs.Effects.{made_all};
ghost use Rattle.request_lists.specs.Fronts.{Front, new_front, is_upgrade_mode};
ghost use Rattle.request_lists.specs.Placing.{Becomes, after_rest, after_throw};
ghost use Rattle.list_machine.specs.States.{fresh_state, opening_changes};
ghost use Rattle.list_machine.specs.Noting.{IsRaised};
ghost use Rattle.machine_laws.specs.Keeping.{Shows};
ghost use Rattle.live_tx.specs.Live.{IsReadyState};

use key_paths::conversion_laws;
use request_lists::Handler;

/// The laws of live transactions: one can begin as its body left its front, whether that body returned or threw.
pub fn live_laws<H: Handler>()
    ensures body { (mode : Mode) (schema : SchemaData) (scope : List Name) (before : Option Database)
        (body : Front H)
        → Becomes (new_front mode schema scope) body → IsSchema schema
        → Shows (is_upgrade_mode mode) schema (made_all (opening_changes mode schema) before)
        → IsRaised mode schema before
        → IsReadyState (fresh_state (after_rest body) schema before)
        × IsReadyState (fresh_state (after_throw body) schema before) }
{
    conversion_laws();
}
