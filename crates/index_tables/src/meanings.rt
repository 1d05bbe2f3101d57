// What follows for the rows of an index from what its calls ensure, and what is known of unique indexes.
ghost use Rattle.std.specs.Prelude.{◌≡◌, ◌↔◌, true, false, Some, None, not, ◌&&◌, ◌||◌, List, length};
ghost use Rattle.std.specs.declared.cmp.Ordering.TheVariants.{Less};
ghost use Rattle.std.specs.Cmp.{IsTotalOrder};
ghost use Rattle.std.specs.FinMap as finite;
ghost use Rattle.std.specs.FinMap.{IsAntisymmetric};
ghost use Rattle.std.specs.List.{AllPairs};
ghost use Rattle.clone_values.specs.Tree.{Tree};
ghost use Rattle.clone_values.specs.KeyTree.{KeyTree};
ghost use Rattle.idb_schema.specs.declared.definitions.IndexInfo.{IndexInfo};
ghost use Rattle.index_tables.specs.RecordRows.{Records, gives_key, rows_of_record, index_rows};
ghost use Rattle.index_tables.specs.Unique.{broken_key, is_broken, GivenTwice, IsLeastTwice};
ghost use Rattle.index_tables.specs.Rows.{RowTree, RowSet, row_cmp, no_rows, has_row, rows_of, count_of, among, AreNew, ArePresent, with_rows, without_rows, has_key};

/// The laws of rows and of sets of rows: the order is total and only equal rows tie; a set is told by its rows, which
/// rise; an index key is had if a row has it.
pub fn row_laws()
    ensures total { IsTotalOrder row_cmp }
    ensures same { IsAntisymmetric row_cmp }
    ensures alike { (s t : RowSet) → ((row : RowTree) → has_row s row ≡ has_row t row) → s ≡ t }
    ensures empty { (row : RowTree) → has_row no_rows row ≡ false }
    ensures listed { (s : RowSet) (row : RowTree) → has_row s row ≡ among (rows_of s) row }
    ensures rising { (s : RowSet) → AllPairs (λ p q. row_cmp p q ≡ Less) (rows_of s) }
    ensures counted { (s : RowSet) → count_of s ≡ length (rows_of s) }
    ensures key_of_row { (s : RowSet) (row : RowTree) → has_row s row ≡ true → has_key s row.0 ≡ true }
    ensures row_of_key { (s : RowSet) (key : KeyTree)
        → has_key s key ≡ true → (primary : KeyTree) × (has_row s (key, primary) ≡ true) }
{}

/// The laws of additions and removals: after an addition just the rows that were added or were there are in the set, and
/// after a removal those that were there and were not removed; a removal undoes the addition of rows that were new, and
/// an addition undoes the removal of rows that were there.
pub fn change_laws()
    ensures added { (s : RowSet) (rows : List RowTree) (row : RowTree)
        → has_row (with_rows s rows) row ≡ (among rows row || has_row s row) }
    ensures removed { (s : RowSet) (rows : List RowTree) (row : RowTree)
        → has_row (without_rows s rows) row ≡ (not (among rows row) && has_row s row) }
    ensures removal_undoes { (s : RowSet) (rows : List RowTree)
        → AreNew s rows → without_rows (with_rows s rows) rows ≡ s }
    ensures addition_undoes { (s : RowSet) (rows : List RowTree)
        → ArePresent s rows → with_rows (without_rows s rows) rows ≡ s }
{}

/// The laws of the rows of records: a row is there exactly where the record of its primary key gives its index key; with a
/// record that comes stand its rows beside the others, or in place of those of the record whose key it has, and with a
/// record that goes its rows go.
pub fn record_laws()
    ensures there { (index : IndexInfo) (records : Records) (row : RowTree)
        → has_row (index_rows index records) row ≡ gives_key index row.0 (finite.get records row.1) }
    ensures comes { (index : IndexInfo) (records : Records) (key : KeyTree) (value : Tree)
        → finite.get records key ≡ None
        → index_rows index (finite.insert records key value)
        ≡ with_rows (index_rows index records) (rows_of_record index key value) }
    ensures comes_over { (index : IndexInfo) (records : Records) (key : KeyTree) (value old : Tree)
        → finite.get records key ≡ Some old
        → index_rows index (finite.insert records key value)
        ≡ with_rows (without_rows (index_rows index records) (rows_of_record index key old))
        (rows_of_record index key value) }
    ensures goes { (index : IndexInfo) (records : Records) (key : KeyTree) (value : Tree)
        → finite.get records key ≡ Some value
        → index_rows index (finite.remove records key)
        ≡ without_rows (index_rows index records) (rows_of_record index key value) }
{}

/// The laws of unique indexes: one is broken by the least key that two records give, and by none where no two records give
/// one. Without records none is broken, and a record that goes breaks none.
pub fn unique_laws()
    ensures broken { (index : IndexInfo) (records : Records) (key : KeyTree)
        → broken_key index records ≡ Some key
        ↔ ((index.unique ≡ true) × IsLeastTwice index records key) }
    ensures unbroken { (index : IndexInfo) (records : Records)
        → broken_key index records ≡ None
        ↔ (index.unique ≡ true → (key : KeyTree) → ¬ (GivenTwice index records key)) }
    ensures none { (indexes : List IndexInfo) → is_broken indexes finite.empty ≡ false }
    ensures kept { (indexes : List IndexInfo) (records : Records) (key : KeyTree)
        → is_broken indexes records ≡ false → is_broken indexes (finite.remove records key) ≡ false }
{}
