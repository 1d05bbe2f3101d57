// What the words of a table mean.
ghost use Rattle.std.specs.Prelude.{◌≡◌, ℕ, ◌<◌, List, length, Some, slice_get, insert, remove};
ghost use Rattle.std.specs.FinMap.{find, put, FinMap};
ghost use Rattle.std.specs.FinMap as map;
ghost use Rattle.sorted_table.specs.Tables.{IsSorted, Lacks, AreBelow, HasKeyAt, BelongsAt, without, value_there, with_value};

use crate::order::Ordered;

/// The laws of places. In a list in order each entry is that of its key, and the list stays in order when an entry is
/// put in, taken out or gets another value. A key has one place, or one gap, and never both; it is found exactly if it has a place. To put
/// an entry is to insert it in the gap of its key, or to change the value of its entry; to remove the entry of a key
/// leaves all whose keys don't tie with it. A key above all others belongs at the end. The lists of std's finite maps go the same way.
pub fn table_laws<K: Ordered, V: Drop>()
    ensures own_key { (es : List (K × V)) (i : ℕ) (k : K) (v : V)
        → IsSorted K.order es → slice_get es i ≡ Some (k, v) → HasKeyAt K.order es i k }
    ensures within { (es : List (K × V)) (i : ℕ) (k : K) → HasKeyAt K.order es i k → i < length es }
    ensures one_place { (es : List (K × V)) (i j : ℕ) (k : K)
        → HasKeyAt K.order es i k → HasKeyAt K.order es j k → i ≡ j }
    ensures one_gap { (es : List (K × V)) (i j : ℕ) (k : K)
        → BelongsAt K.order es i k → BelongsAt K.order es j k → i ≡ j }
    ensures never_both { (es : List (K × V)) (i j : ℕ) (k : K)
        → HasKeyAt K.order es i k → ¬ (BelongsAt K.order es j k) }
    ensures found { (es : List (K × V)) (i : ℕ) (k : K) (v : V)
        → HasKeyAt K.order es i k → slice_get es i ≡ Some (k, v) → find K.order k es ≡ Some v }
    ensures found_there { (es : List (K × V)) (i : ℕ) (k : K)
        → HasKeyAt K.order es i k → find K.order k es ≡ value_there es i }
    ensures never_lacks { (es : List (K × V)) (i : ℕ) (k : K)
        → HasKeyAt K.order es i k → ¬ (Lacks K.order es k) }
    ensures absent { (es : List (K × V)) (i : ℕ) (k : K) → BelongsAt K.order es i k → Lacks K.order es k }
    ensures put_inserts { (es : List (K × V)) (i : ℕ) (k : K) (v : V)
        → BelongsAt K.order es i k → put K.order k v es ≡ insert es i (k, v) }
    ensures put_changes { (es : List (K × V)) (i : ℕ) (k : K) (v : V)
        → HasKeyAt K.order es i k → put K.order k v es ≡ with_value es i v }
    ensures at_the_end { (es : List (K × V)) (k : K) → AreBelow K.order es k
        → BelongsAt K.order es (length es) k }
    ensures remove_leaves { (es : List (K × V)) (i : ℕ) (k : K)
        → HasKeyAt K.order es i k → remove es i ≡ without K.order k es }
    ensures put_sorted { (es : List (K × V)) (k : K) (v : V)
        → IsSorted K.order es → IsSorted K.order (put K.order k v es) }
    ensures value_sorted { (es : List (K × V)) (i : ℕ) (v : V)
        → IsSorted K.order es → IsSorted K.order (with_value es i v) }
    ensures remove_sorted { (es : List (K × V)) (i : ℕ)
        → IsSorted K.order es → IsSorted K.order (remove es i) }
    ensures map_put { (m : FinMap K.order V) (k : K) (v : V)
        → map.entries (map.insert m k v) ≡ put K.order k v (map.entries m) }
    ensures map_remove { (m : FinMap K.order V) (k : K)
        → map.entries (map.remove m k) ≡ without K.order k (map.entries m) }
{}
