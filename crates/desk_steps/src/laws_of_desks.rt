// Laws of runs and of the numbers of items.
ghost use Rattle.std.specs.Prelude.{◌≡◌, ◌≢◌, ◌<◌, ◌≤◌, ◌+◌, ℕ, Bool, List, [], ◌∷◌, ◌++◌, true, false, not, length, Option, Some};
ghost use Rattle.idb_schema.specs.Schemas.{SchemaData, stores_of};
ghost use Rattle.scope_desk.specs.Starts.{share_item};
ghost use Rattle.desk_steps.specs.declared.steps.DeskStep.{DeskStep};
ghost use Rattle.connection_queues.specs.Machine.{QueueState, after_ask, taken, handled, unhandled, closed, tx_done, upgrade_done, delete_done, faulted_state};
ghost use Rattle.name_queues.specs.Mails.{taken_of};
ghost use Rattle.name_queues.specs.Names.{is_name, holds};
ghost use Rattle.name_queues.specs.declared.asks.Wants.{Wants};
ghost use Rattle.name_queues.specs.declared.ids.ConnId.{ConnId};
ghost use Rattle.desk_steps.specs.Durabilities.{durability_drawn};
ghost use Rattle.desk_steps.specs.Names.{share_store};
ghost use Rattle.desk_steps.specs.Queueing.{settled_at, rests_at_all, same_first};
ghost use Rattle.desk_steps.specs.Numbers.{scope_items, whole_database};
ghost use Rattle.desk_steps.specs.Refusals.{is_allowed, has_stores, is_empty_scope};
ghost use Rattle.desk_steps.specs.Steps.{after, new_desk, DeskRun, desk_run, with_step, IsDeskRun};

use connection_queues::queue_laws;

/// A run with one more step is that step after the run. Numbers are drawn from 1 on, one after the other. A run begins with the databases alone, and stays a run with each step that is
/// allowed at its end.
pub fn desk_laws()
    ensures one_more_step { (r : DeskRun) (t : DeskStep) → desk_run (with_step r t) ≡ after (desk_run r) t }
    ensures no_step { (schemas : List SchemaData)
        → desk_run (record { opening = schemas; order = [] }) ≡ new_desk schemas }
    ensures allowed_step { (r : DeskRun) (t : DeskStep) → IsDeskRun r → is_allowed (desk_run r) t ≡ true
        → IsDeskRun (with_step r t) }
    ensures empty_order { (schemas : List SchemaData) → IsDeskRun (record { opening = schemas; order = [] }) }
    ensures numbers { (r : DeskRun) → (desk_run r).board.scopes.next ≡ length (desk_run r).board.drawn + 1 }
{}

/// The durability of a transaction that drew its number stays what it is, whatever step follows.
pub fn durability_laws()
    ensures stays { (r : DeskRun) (t : DeskStep) (number : ℕ) → is_allowed (desk_run r) t ≡ true
        → number < (desk_run r).board.scopes.next
        → durability_drawn (r.order ++ t ∷ []) number ≡ durability_drawn r.order number }
{}

/// Items tell stores apart as their names do: scopes of one database share an item exactly where they share a name, those of
/// different places never, and a whole database shares one with each of its scopes that isn't empty.
pub fn item_laws()
    ensures one_database { (place : ℕ) (schema : SchemaData) (scope other : List (List ℕ))
        → has_stores scope (Some schema) ≡ true → has_stores other (Some schema) ≡ true
        → share_item (scope_items place schema scope) (scope_items place schema other)
        ≡ share_store scope other }
    ensures two_databases { (a b : ℕ) (first second : SchemaData) (scope other : List (List ℕ))
        → a ≢ b → length (stores_of first) ≤ 63 → length (stores_of second) ≤ 63
        → has_stores scope (Some first) ≡ true → has_stores other (Some second) ≡ true
        → share_item (scope_items a first scope) (scope_items b second other) ≡ false }
    ensures whole_database { (place : ℕ) (schema : SchemaData) (scope : List (List ℕ))
        → length (stores_of schema) ≤ 63
        → has_stores scope (Some schema) ≡ true
        → share_item (scope_items place schema scope) (whole_database place) ≡ not (is_empty_scope scope) }
    ensures whole_databases { (a b : ℕ) → a ≢ b → share_item (whole_database a) (whole_database b) ≡ false }
{}

/// After a step the queue of one name moves as far as it can, and no other could move: where all queues rested before, all rest
/// then. A step that is about a connection moves the queue of its database's name.
pub fn quiet_laws()
    ensures ask { (q : QueueState) (who : ConnId) (name : List ℕ) (want : Wants) → rests_at_all q ≡ true
        → rests_at_all (settled_at (after_ask q who name want) name) ≡ true }
    ensures take { (q : QueueState) (client : ℕ) → rests_at_all q ≡ true
        → rests_at_all (taken q client) ≡ true }
    ensures handle { (q : QueueState) (client : ℕ) (who : ConnId) (whos : List ConnId) (name : List ℕ)
        → rests_at_all q ≡ true → unhandled q.names (taken_of q.mails client) ≡ who ∷ whos
        → same_first (holds who) (is_name name) q.names ≡ true
        → rests_at_all (settled_at (handled q client) name) ≡ true }
    ensures close { (q : QueueState) (who : ConnId) (name : List ℕ) → rests_at_all q ≡ true
        → same_first (holds who) (is_name name) q.names ≡ true
        → rests_at_all (settled_at (closed q who) name) ≡ true }
    ensures finish { (q : QueueState) (who : ConnId) (name : List ℕ) → rests_at_all q ≡ true
        → same_first (holds who) (is_name name) q.names ≡ true
        → rests_at_all (settled_at (tx_done q who) name) ≡ true }
    ensures upgrade { (q : QueueState) (name : List ℕ) (kept : Option SchemaData) → rests_at_all q ≡ true
        → rests_at_all (settled_at (upgrade_done q name kept) name) ≡ true }
    ensures deletion { (q : QueueState) (name : List ℕ) (kept : Bool) → rests_at_all q ≡ true
        → rests_at_all (settled_at (delete_done q name kept) name) ≡ true }
    ensures fault { (q : QueueState) → rests_at_all (faulted_state q) ≡ true }
{
    queue_laws();
}
