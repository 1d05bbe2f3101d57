// The laws of what is kept for a name as its queue moves.
ghost use Rattle.std.specs.Prelude.{◌≡◌, ℕ, ◌+◌};
ghost use Rattle.name_queues.specs.Names.{name_of};
ghost use Rattle.name_queues.specs.declared.ids.ConnId.{ConnId};
ghost use Rattle.name_queues.specs.declared.names.Named.{Named};
ghost use Rattle.connection_queues.specs.Runs.{settled_name};
ghost use Rattle.queue_facts.specs.Counts.{wait_count_of, runs_of, ends_of};
ghost use Rattle.queue_facts.specs.Shapes.{IsShaped};

/// As far as the queue of a name moves, what is kept for the name keeps its shape, its name and its database; and of each
/// request as many wait, run or end as waited or ran before.
pub fn shape_laws()
    ensures shaped { (n : Named) → IsShaped n → IsShaped (settled_name n).named }
    ensures named { (n : Named) → IsShaped n → name_of (settled_name n).named ≡ name_of n }
    ensures database { (n : Named) → IsShaped n → (settled_name n).named.database ≡ n.database }
    ensures counted { (n : Named) (who : ConnId) → IsShaped n
        → wait_count_of who (settled_name n).named + runs_of who (settled_name n).named
        + ends_of who (settled_name n).sent ≡ wait_count_of who n + runs_of who n }
{}
