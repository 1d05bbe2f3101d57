// The laws of handlers that are at hand.
ghost use Rattle.std.specs.Prelude.{List, ℕ};
ghost use Rattle.idb_keys.specs.declared.names.Mode.{Mode};
ghost use Rattle.idb_schema.specs.Schemas.{SchemaData};
ghost use Rattle.request_lists.specs.Fronts.{Front, new_front};
ghost use Rattle.request_lists.specs.Placing.{Becomes, after_rest, after_throw};
ghost use Rattle.handler_calls.specs.Attending.{IsAttended};

use request_lists::Handler;

/// The laws of handlers at hand: a new front has each handler at hand, and has so whatever calls make of it, and when its body has
/// returned or thrown.
pub fn attending_laws<H: Handler>()
    ensures fresh { (mode : Mode) (schema : SchemaData) (scope : List (List ℕ))
        → IsAttended (new_front {D = H} mode schema scope) }
    ensures calls { (front last : Front H) → Becomes front last → IsAttended front → IsAttended last }
    ensures rested { (front : Front H) → IsAttended front → IsAttended (after_rest front) }
    ensures threw { (front : Front H) → IsAttended front → IsAttended (after_throw front) }
{}
