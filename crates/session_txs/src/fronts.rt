// The front with which a transaction begins to run.
ghost use Rattle.std.specs.Prelude.{◌≡◌, if◌then◌else◌};
ghost use Rattle.request_lists.specs.Placing.{after_rest, after_throw};

use request_lists::TxFront;
use script_handlers::ScriptHandler;

/// The body has returned, or thrown.
pub(crate) fn left_front(front: TxFront<ScriptHandler>, threw: bool) -> TxFront<ScriptHandler>
    ensures { result ≡ (if threw then after_throw front else after_rest front) }
{
    let mut front = front;
    if threw {
        front.threw();
    } else {
        front.rest();
    }
    front
}
