// The laws of what may be kept.
ghost use Rattle.std.specs.Prelude.{◌≡◌, ◌⊎◌, ℕ, ◌<◌, ◌≤◌, true, List, [], ◌∷◌, ◌++◌, length, take, slice_get, Some};
ghost use Rattle.log_history.specs.Batching.{Commit, batched, commits_in};
ghost use Rattle.log_history.specs.Kept.{End, with_doubt, last_batches, MayKeep};

/// The laws of what may be kept. A strict commit is; what is kept is a prefix of the commits, with the one in doubt; and a batch
/// is found whole or not at all: all that have ended, with or without the last one.
pub fn kept_laws()
    ensures strict { (commits : List Commit) (end : End) (n place : ℕ) (c : Commit) → MayKeep commits end n
        → slice_get commits place ≡ Some c → c.strict ≡ true → place < n }
    ensures prefix { (commits : List Commit) (end : End) (n : ℕ) → MayKeep commits end n
        → n ≤ length (with_doubt commits end) }
    ensures whole { (commits : List Commit) (end : End) (n : ℕ) → MayKeep commits end n
        → (take n (with_doubt commits end) ≡ commits_in (batched commits).ended)
        ⊎ (take n (with_doubt commits end)
        ≡ commits_in ((batched commits).ended ++ last_batches commits end)) }
{}
