// The laws of the cutting of commits into batches.
ghost use Rattle.std.specs.Prelude.{◌≡◌, ℕ, ◌≤◌, List, [], ◌∷◌, ◌++◌, length};
ghost use Rattle.std.specs.List.{AllByRecursion};
ghost use Rattle.log_history.specs.declared.limits.TheConstants.{GREATEST_BATCH_COUNT};
ghost use Rattle.idb_keys.specs.declared.names.Durability.TheVariants.{Strict, Relaxed};
ghost use Rattle.idb_calls.specs.declared.traces.TxTrace.{TxTrace};
ghost use Rattle.log_history.specs.Batching.{Commit, commit_of, IsBelowLimits, batched, with_commit, commits_in, IsUnended, IsEnded};

/// The laws of batches. One more commit goes behind those that wait. No commit is lost or changes its place; each batch that has
/// ended ends with the first commit that is the last of its batch, and none of those that wait is one. After a strict commit none
/// waits; a relaxed one waits, unless with it the batch is full.
pub fn batch_laws()
    ensures one_more { (commits : List Commit) (c : Commit)
        → batched (commits ++ c ∷ []) ≡ with_commit (batched commits) c }
    ensures all { (commits : List Commit)
        → commits_in (batched commits).ended ++ (batched commits).waiting ≡ commits }
    ensures ended { (commits : List Commit) → AllByRecursion IsEnded (batched commits).ended }
    ensures waiting { (commits : List Commit) → IsUnended (batched commits).waiting }
    ensures few { (commits : List Commit)
        → AllByRecursion (λ batch. length batch ≤ GREATEST_BATCH_COUNT) (batched commits).ended }
    ensures strict_ends { (commits : List Commit) (trace : TxTrace) → trace.durability ≡ Strict
        → (batched (commits ++ commit_of trace ∷ [])).waiting ≡ [] }
    ensures relaxed_waits { (commits : List Commit) (trace : TxTrace) → trace.durability ≡ Relaxed
        → IsBelowLimits ((batched commits).waiting ++ commit_of trace ∷ [])
        → (batched (commits ++ commit_of trace ∷ [])).ended ≡ (batched commits).ended }
{}
