// The laws of ties.
ghost use Rattle.std.specs.Prelude.{◌≡◌, ◌≢◌, ℕ, not, List, [], map, Option, Some, None};
ghost use Rattle.idb_schema.specs.Schemas.{SchemaData};
ghost use Rattle.desk_steps.specs.declared.stands.DrawnTx.{DrawnTx};
ghost use Rattle.idb_desk.specs.Desks.{drawn_at};
ghost use Rattle.idb_desk.specs.Refusals.{is_created_stage};
ghost use Rattle.idb_desk.specs.Steps.{DeskRun, desk_run, IsDeskRun};
ghost use Rattle.script_statements.specs.declared.script.Block.{Block as Named};
ghost use Rattle.client_machine.specs.Acts.{Act};
ghost use Rattle.client_machine.specs.Answering.{MadeAtOnce};
ghost use Rattle.client_machine.specs.ClientStates.{ClientTx, ClientState, fresh_client, tx_at};
ghost use Rattle.client_machine.specs.ClientSteps.{ClientStep};
ghost use Rattle.client_ties.specs.Unfinished.{unfinished_of, least_of};
ghost use Rattle.client_ties.specs.Ties.{IsTied};

use idb_desk::desk_laws;

/// The laws of ties. A client is tied to a desk with no step. It stays tied by each of its own steps, whose steps of the desk are
/// made at once, and by those of any other client. Where the desk has no unfinished transaction its clients have none; and the
/// least of the desk's is one that its client has, and is started there where it is started here.
pub fn tie_laws()
    ensures fresh { (schemas : List SchemaData) (number main : ℕ)
        → IsTied (desk_run (record { opening = schemas; order = [] })) (fresh_client number main) }
    ensures own { (blocks : List Named) (c last : ClientState) (acts : List Act) (r end : DeskRun)
        → ClientStep blocks c acts last → MadeAtOnce c.number r acts end → IsDeskRun end
        → IsTied (desk_run r) c → IsTied (desk_run end) last }
    ensures number { (blocks : List Named) (c last : ClientState) (acts : List Act)
        → ClientStep blocks c acts last → last.number ≡ c.number }
    ensures others { (client : ℕ) (c : ClientState) (acts : List Act) (r end : DeskRun) → c.number ≢ client
        → MadeAtOnce client r acts end → IsDeskRun end → IsTied (desk_run r) c → IsTied (desk_run end) c }
    ensures listed { (r : DeskRun) → IsDeskRun r
        → map (λ u. u.number) (unfinished_of (desk_run r)) ≡ map (λ t. t.number)
        (desk_run r).board.scopes.unfinished }
    ensures none { (r : DeskRun) (c : ClientState) → IsDeskRun r → least_of (desk_run r) ≡ None
        → IsTied (desk_run r) c → c.txs ≡ [] }
    ensures least { (r : DeskRun) (c : ClientState) (number : ℕ) (t : DrawnTx) → IsDeskRun r
        → least_of (desk_run r) ≡ Some number → drawn_at (desk_run r).board.drawn number ≡ Some t
        → t.who.client ≡ c.number → IsTied (desk_run r) c
        → (tx : ClientTx) × (tx_at c number ≡ Some tx) × (is_created_stage t.stage ≡ not tx.started) }
{
    desk_laws();
}
