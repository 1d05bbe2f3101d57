// The laws of limits and of scopes, for every handler.
ghost use Rattle.std.specs.Prelude.{◌≡◌, ◌≤◌, true, false, List, length, Option, Some};
ghost use Rattle.std.specs.FinMap as finite;
ghost use Rattle.idb_keys.specs.declared.names.Mode.{Mode};
ghost use Rattle.idb_schema.specs.Schemas.{SchemaData};
ghost use Rattle.item_changes.specs.Store.{Store};
ghost use Rattle.item_changes.specs.Items.{Name, Database, stores_in};
ghost use Rattle.item_changes.specs.Scopes.{access_of, is_among};
ghost use Rattle.request_lists.specs.Fronts.{Front, new_front, is_upgrade_mode};
ghost use Rattle.request_lists.specs.Placing.{Becomes, after_rest, after_throw};
ghost use Rattle.list_machine.specs.declared.limits.TheConstants.{GREATEST_STORE_COUNT};
ghost use Rattle.list_machine.specs.declared.steps.Step.TheVariants.{Did};
ghost use Rattle.list_machine.specs.States.{State, fresh_state};
ghost use Rattle.list_machine.specs.Machine.{Turn, GoesOn};
ghost use Rattle.machine_laws.specs.Limiting.{WithinLimits, scope_in, StaysInScope};

use request_lists::Handler;

/// The laws of limits: a transaction begins within them, and no turn that goes on passes one.
pub fn limit_laws<H: Handler>()
    ensures body { (front : Front H.Plain) (schema : SchemaData) (before : Option Database)
        → length schema.entries ≤ GREATEST_STORE_COUNT → WithinLimits (fresh_state front schema before) }
    ensures turn { (old new : State H.Plain) (lines : List H.Line)
        → Turn H.reacts H.writes old Did new lines → WithinLimits old → WithinLimits new }
{}

/// The laws of scopes. What a transaction changes is in its scope, as its body left it and after each turn: a reader changes
/// nothing, and a writer the stores of its scope alone, where its database is the part that the scope names. The scope is that
/// with which its front was made, through all turns.
pub fn reach_laws<H: Handler>()
    ensures body { (mode : Mode) (schema : SchemaData) (scope : List Name) (before : Option Database)
        (body : Front H.Plain) → Becomes (new_front mode schema scope) body
        → (is_upgrade_mode mode ≡ false → (name : Name) (x : Store)
        → finite.get (stores_in before) name ≡ Some x → is_among scope name ≡ true)
        → StaysInScope (fresh_state (after_rest body) schema before)
        × StaysInScope (fresh_state (after_throw body) schema before) }
    ensures turns { (old new : State H.Plain) (lines : List H.Line)
        → GoesOn H.reacts H.writes old new lines → StaysInScope old → StaysInScope new }
    ensures made { (mode : Mode) (schema : SchemaData) (scope : List Name) (before : Option Database)
        (body : Front H.Plain) → Becomes (new_front mode schema scope) body
        → (scope_in (fresh_state (after_rest body) schema before)
        ≡ record { database = schema.name; access = access_of mode scope })
        × (scope_in (fresh_state (after_throw body) schema before)
        ≡ record { database = schema.name; access = access_of mode scope }) }
    ensures same { (old new : State H.Plain) (lines : List H.Line)
        → GoesOn H.reacts H.writes old new lines → scope_in new ≡ scope_in old }
{}
