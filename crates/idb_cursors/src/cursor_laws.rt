// What a reader may rely on of the turns of a cursor.
ghost use Rattle.std.specs.Prelude.{◌≡◌, ℕ, ◌≤◌, true, List, Some, None, slice_get, reverse};
ghost use Rattle.std.specs.Ordering.{is_le};
ghost use Rattle.clone_values.specs.KeyTree.{KeyTree};
ghost use Rattle.key_order.specs.KeyOrder.{key_cmp};
ghost use Rattle.idb_keys.specs.declared.names.Direction.{Direction};
ghost use Rattle.idb_keys.specs.declared.names.Direction.TheVariants.{Next, NextUnique, Prev, PrevUnique};
ghost use Rattle.idb_keys.specs.KeyRange.{Range};
ghost use Rattle.index_tables.specs.Rows.{RowTree};
ghost use Rattle.idb_cursors.specs.Cursors.{TurnData, meets, is_passed, next_place, iterated, key_beyond, row_beyond};
ghost use Rattle.idb_cursors.specs.Views.{AreRising};
ghost use Rattle.idb_cursors.specs.Visits.{visited, rows_in_range, firsts_of_keys};

/// The laws of turns. The member that a turn takes meets what the turn asks. However many turns are made, it lies beyond the place
/// from which they began. In a store, whose members have one key twice, the pairs stand to each other as the keys do.
/// `prevunique` takes a member of the greatest key that it may take, and of that key the first.
pub fn turn_laws()
    ensures taken { (rows : List RowTree) (turn : TurnData) (place : ℕ) (member : RowTree)
        → next_place rows turn ≡ Some place → slice_get rows place ≡ Some member → meets turn member ≡ true }
    ensures never_back { (rows : List RowTree) (turn : TurnData) (more place : ℕ) (member : RowTree)
        → iterated rows turn more ≡ Some place → slice_get rows place ≡ Some member
        → is_passed turn.direction turn.place member ≡ true }
    ensures in_store { (direction : Direction) (j k : KeyTree)
        → row_beyond direction (j, j) (k, k) ≡ key_beyond direction j k }
    ensures greatest_key { (rows : List RowTree) (turn : TurnData) (place other : ℕ) (member row : RowTree)
        → AreRising rows → turn.direction ≡ PrevUnique → next_place rows turn ≡ Some place
        → slice_get rows place ≡ Some member → slice_get rows other ≡ Some row
        → meets turn row ≡ true → is_le (key_cmp row.0 member.0) ≡ true }
    ensures first_of_its_key { (rows : List RowTree) (turn : TurnData) (place other : ℕ)
        (member row : RowTree) → turn.direction ≡ PrevUnique → next_place rows turn ≡ Some place
        → slice_get rows place ≡ Some member → slice_get rows other ≡ Some row → row.0 ≡ member.0
        → place ≤ other }
{}

/// The laws of visits: over members that do not change a fresh cursor takes by `next` those in range in their order, by `prev`
/// the same backwards, and by the unique directions the first of each key.
pub fn visit_laws()
    ensures next { (rows : List RowTree) (range : Range) → AreRising rows
        → visited rows Next range ≡ rows_in_range range rows }
    ensures prev { (rows : List RowTree) (range : Range) → AreRising rows
        → visited rows Prev range ≡ reverse (rows_in_range range rows) }
    ensures next_unique { (rows : List RowTree) (range : Range) → AreRising rows
        → visited rows NextUnique range ≡ firsts_of_keys (rows_in_range range rows) }
    ensures prev_unique { (rows : List RowTree) (range : Range) → AreRising rows
        → visited rows PrevUnique range ≡ reverse (firsts_of_keys (rows_in_range range rows)) }
{}
