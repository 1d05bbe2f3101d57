// The laws of legal sessions.
ghost use Rattle.std.specs.Prelude.{◌≡◌, map};
ghost use Rattle.std.specs.List.Sorted.{IsPermutation};
ghost use Rattle.item_changes.specs.Items.{Items};
ghost use Rattle.client_machine.specs.SerialRuns.{IsSerial, items_after};
ghost use Rattle.client_machine.specs.NumberOrder.{by_number, Rises, committed_of};
ghost use Rattle.script_statements.specs.declared.script.ScriptSession.{ScriptSession};
ghost use Rattle.script_handlers.specs.Handling.{ScriptReacts, ScriptWrites};
ghost use Rattle.legal_sessions.specs.Histories.{SessionHistory};
ghost use Rattle.legal_sessions.specs.SerialResults.{begun_by, number_of_begun, number_of_entry};
ghost use Rattle.legal_sessions.specs.Legal.{IsLegal, items_at_end};

use client_machine::serial_laws;
use script_handlers::ScriptHandler;

/// The laws of legal sessions. Each transaction that began is finished once. The transactions have the same runs in the order in which they finished, and the databases at the
/// end are those that the committed ones leave, applied in that order.
pub fn session_laws()
    ensures once { (session : ScriptSession) (opening : Items) (h : SessionHistory)
        → IsLegal session opening h
        → IsPermutation (map number_of_begun (begun_by h.acts)) (map number_of_entry h.finish) }
    ensures as_finished { (session : ScriptSession) (opening : Items) (h : SessionHistory)
        → IsLegal session opening h → IsSerial ScriptReacts ScriptWrites opening h.finish }
    ensures items { (session : ScriptSession) (opening : Items) (h : SessionHistory)
        → IsLegal session opening h → items_at_end opening h ≡ items_after opening (committed_of h.finish) }
    ensures same { (session : ScriptSession) (opening : Items) (h : SessionHistory)
        → IsLegal session opening h
        → IsPermutation h.finish (by_number h.finish) × Rises (by_number h.finish) }
{
    serial_laws::<ScriptHandler>();
}
