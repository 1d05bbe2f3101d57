// What is known of what a source shows.
ghost use Rattle.std.specs.Prelude.{◌≡◌, ℕ, List, Some, slice_get};
ghost use Rattle.std.specs.List.{AllPairs};
ghost use Rattle.std.specs.FinMap as finite;
ghost use Rattle.std.specs.declared.cmp.Ordering.TheVariants.{Less};
ghost use Rattle.idb_keys.specs.declared.names.Over.{Over};
ghost use Rattle.idb_keys.specs.declared.names.Over.TheVariants.{Index};
ghost use Rattle.idb_schema.specs.declared.definitions.IndexInfo.{IndexInfo};
ghost use Rattle.indexed_records.specs.Rows.{RowTree, row_cmp, among};
ghost use Rattle.indexed_records.specs.RecordRows.{Records, gives_key};
ghost use Rattle.indexed_records.specs.Reading.{members_in};

/// The laws of what a source shows: it rises, by key and then by primary key, and an index shows a row exactly where the
/// record of its primary key gives its key.
pub fn reading_laws()
    ensures rises { (indexes : List IndexInfo) (records : Records) (over : Over)
        → AllPairs (λ p q. row_cmp p q ≡ Less) (members_in indexes records over) }
    ensures shown { (indexes : List IndexInfo) (records : Records) (place : ℕ)
        (index : IndexInfo) (row : RowTree)
        → slice_get indexes place ≡ Some index
        → among (members_in indexes records (Index place)) row
        ≡ gives_key index row.0 (finite.get records row.1) }
{}
