// The laws of the grammar alone: no spelling begins another, and each stands for one record or one batch.
ghost use Rattle.std.specs.Prelude.{◌≡◌, ℕ, true, List, [], ◌++◌, Some};
ghost use Rattle.std.specs.List.{list_all};
ghost use Rattle.clone_values.specs.WellFormed.{is_byte};
ghost use Rattle.record_bytes.specs.declared.records.LogRecord.{LogRecord};
ghost use Rattle.record_bytes.specs.Records.{SpellsRecord, SpellsBatch};
ghost use Rattle.record_bytes.specs.Reading.{records_in_batch};

/// No spelling of a record is a proper prefix of another, none stands for two records, and no record has two; so what follows a
/// record never changes what is read.
pub fn record_spelling_laws()
    ensures no_prefix { (a b rest : List ℕ) (r s : LogRecord)
        → SpellsRecord a r → SpellsRecord b s → b ≡ a ++ rest → rest ≡ [] }
    ensures one_record { (a : List ℕ) (r s : LogRecord) → SpellsRecord a r → SpellsRecord a s → r ≡ s }
    ensures one_spelling { (a b : List ℕ) (r : LogRecord) → SpellsRecord a r → SpellsRecord b r → a ≡ b }
    ensures told_apart { (a b x y : List ℕ) (r s : LogRecord)
        → SpellsRecord a r → SpellsRecord b s → a ++ x ≡ b ++ y → (r ≡ s) × (x ≡ y) }
{}

/// The same of batches. And reading them as a function gives the records exactly of those bytes that are a batch.
pub fn batch_spelling_laws()
    ensures no_prefix { (a b rest : List ℕ) (rs ss : List LogRecord)
        → SpellsBatch a rs → SpellsBatch b ss → b ≡ a ++ rest → rest ≡ [] }
    ensures one_batch { (a : List ℕ) (rs ss : List LogRecord)
        → SpellsBatch a rs → SpellsBatch a ss → rs ≡ ss }
    ensures one_spelling { (a b : List ℕ) (rs : List LogRecord)
        → SpellsBatch a rs → SpellsBatch b rs → a ≡ b }
    ensures read { (a : List ℕ) (rs : List LogRecord) → SpellsBatch a rs → records_in_batch a ≡ Some rs }
    ensures spelled { (a : List ℕ) (rs : List LogRecord) → list_all is_byte a ≡ true
        → records_in_batch a ≡ Some rs → SpellsBatch a rs }
{}
