// The laws of what batches give.
ghost use Rattle.std.specs.Prelude.{◌≡◌, ℕ, List, [], ◌∷◌, ◌++◌, Some, Result, Ok, Err};
ghost use Rattle.item_changes.specs.Items.{Items};
ghost use Rattle.gate_areas.specs.Sealed.{BatchList};
ghost use Rattle.record_bytes.specs.declared.records.LogRecord.{LogRecord};
ghost use Rattle.record_bytes.specs.Records.{AreRecords};
ghost use Rattle.record_bytes.specs.Spelling.{batch_spelling};
ghost use Rattle.log_history.specs.Replayed.{after_records, records_in_log, replayed_on};
ghost use Rattle.log_history.specs.Batching.{Commit, records_of_commits};
ghost use Rattle.log_history.specs.Kept.{applied_commits};

/// The laws of replaying. More batches give what they give on the items of those before; a batch of records that apply gives
/// their items; and commits whose records apply give just the items that they made.
pub fn replay_laws()
    ensures both { (items : Result Items ℕ) (front rest : BatchList)
        → replayed_on items (front ++ rest) ≡ replayed_on (replayed_on items front) rest }
    ensures records_both { (front rest : BatchList)
        → records_in_log (front ++ rest) ≡ records_in_log front ++ records_in_log rest }
    ensures one_more { (items more : Items) (gate : ℕ) (rs : List LogRecord) → AreRecords rs
        → after_records items rs ≡ Some more
        → replayed_on (Ok items) ((gate, batch_spelling rs) ∷ []) ≡ Ok more }
    ensures its_records { (gate : ℕ) (rs : List LogRecord) → AreRecords rs
        → records_in_log ((gate, batch_spelling rs) ∷ []) ≡ rs }
    ensures commits { (items more : Items) (commits : List Commit)
        → after_records items (records_of_commits commits) ≡ Some more
        → applied_commits items commits ≡ more }
{}
