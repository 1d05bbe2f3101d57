// The laws of a client's acts and the steps of the desk.
ghost use Rattle.std.specs.Prelude.{◌≡◌, ◌≢◌, ◌++◌, ℕ, List, []};
ghost use Rattle.idb_schema.specs.Schemas.{SchemaData};
ghost use Rattle.idb_desk.specs.Steps.{DeskRun};
ghost use Rattle.client_machine.specs.Acts.{Act};
ghost use Rattle.client_machine.specs.Answering.{Agrees, MadeAtOnce};

/// The laws of agreeing. A client that did nothing agrees with a run that has no step. What one driver makes behind a run agrees
/// behind what agreed before, and leaves each other client as it was; and acts behind acts are made behind each other.
pub fn agreeing_laws()
    ensures begins { (client : ℕ) (opening : List SchemaData)
        → Agrees client (record { opening = opening; order = [] }) [] }
    ensures own { (client : ℕ) (r last : DeskRun) (acts more : List Act) → Agrees client r acts
        → MadeAtOnce client r more last → Agrees client last (acts ++ more) }
    ensures others { (client other : ℕ) (r last : DeskRun) (acts more : List Act) → other ≢ client
        → Agrees other r acts → MadeAtOnce client r more last → Agrees other last acts }
    ensures joined { (client : ℕ) (r mid last : DeskRun) (acts more : List Act)
        → MadeAtOnce client r acts mid → MadeAtOnce client mid more last
        → MadeAtOnce client r (acts ++ more) last }
{}
