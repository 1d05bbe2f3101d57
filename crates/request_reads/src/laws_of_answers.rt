// Answers are well formed values.
ghost use Rattle.std.specs.Prelude.{◌≡◌, ℕ, ◌≤◌, Bool, length, map};
ghost use Rattle.idb_base.specs.declared.limits.TheConstants.{GREATEST_LENGTH};
ghost use Rattle.clone_values.specs.KeyValues.{value_of_key};
ghost use Rattle.clone_values.specs.WellFormed.{IsValue};
ghost use Rattle.idb_keys.specs.KeyRange.{Range};
ghost use Rattle.idb_keys.specs.declared.names.Over.{Over};
ghost use Rattle.idb_cursors.specs.Cursors.{TurnData};
ghost use Rattle.indexed_records.specs.Reading.{limited, primary_keys, values_in};
ghost use Rattle.object_stores.specs.Store.{Store};
ghost use Rattle.object_stores.specs.IsStore.{IsStore};
ghost use Rattle.store_cursors.specs.Members.{member_taken};
ghost use Rattle.store_requests.specs.Answers.{in_reach, value_answer, key_answer, values_answer, keys_answer, count_answer, cursor_answer};
ghost use Rattle.request_reads.specs.Reads.{HasValidPath};

/// The laws of answers: what a store as it should be answers is a well formed value, a list of values or of keys where it has no
/// more items than a value may have, and a cursor where the index that it reads has a path that the grammar has.
pub fn answer_laws()
    ensures value { (store : Store) (over : Over) (range : Range) → IsStore store
        → IsValue (value_answer store over range) }
    ensures key { (store : Store) (over : Over) (range : Range) → IsStore store
        → IsValue (key_answer store over range) }
    ensures count { (store : Store) (over : Over) (range : Range) → IsValue (count_answer store over range) }
    ensures values { (store : Store) (over : Over) (range : Range) (limit : ℕ) → IsStore store
        → length (values_in store.records (limited limit (in_reach store over range))) ≤ GREATEST_LENGTH
        → IsValue (values_answer store over range limit) }
    ensures keys { (store : Store) (over : Over) (range : Range) (limit : ℕ) → IsStore store
        → length (map value_of_key (primary_keys (limited limit (in_reach store over range))))
        ≤ GREATEST_LENGTH
        → IsValue (keys_answer store over range limit) }
    ensures cursor { (store : Store) (keys_only : Bool) (over : Over) (turn : TurnData) (more : ℕ)
        → IsStore store
        → HasValidPath store.info.indexes over
        → IsValue (cursor_answer keys_only (member_taken store over turn more)) }
{}
