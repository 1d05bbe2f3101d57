// Laws of runs.
ghost use Rattle.std.specs.Prelude.{◌≡◌, List, [], ◌∷◌, ◌++◌, true, None};
ghost use Rattle.connection_queues.specs.Machine.{QueueState};
ghost use Rattle.name_queues.specs.Names.{has_conns};
ghost use Rattle.name_queues.specs.Moves.{turned};
ghost use Rattle.name_queues.specs.declared.asks.Ask.{Ask};
ghost use Rattle.connection_queues.specs.Runs.{QueueStep, run_of, after_step, settled_name};
ghost use Rattle.name_queues.specs.declared.names.Named.{Named};

/// A queue that was moved as far as it can rests. A request that waits at rest, with none that runs, waits for a connection that
/// isn't closed. A run with one more call is that call after the run.
pub fn queue_laws()
    ensures rests { (n : Named) → turned (settled_name n).named ≡ None }
    ensures waits { (n : Named) (ask : Ask) (rest : List Ask) → turned n ≡ None → n.running ≡ None
        → n.traffic.queue ≡ ask ∷ rest → has_conns n.traffic.conns ≡ true }
    ensures one_more_call { (s : QueueState) (steps : List QueueStep) (step : QueueStep)
        → run_of s (steps ++ step ∷ []) ≡ after_step (run_of s steps) step }
{}
