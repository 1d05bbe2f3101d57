// The laws of the grammar alone: no spelling begins another, and each stands for one value or key.
ghost use Rattle.std.specs.Prelude.{◌≡◌, ℕ, List, [], ◌++◌};
ghost use Rattle.clone_values.specs.Tree.{Tree};
ghost use Rattle.clone_values.specs.KeyTree.{KeyTree};
ghost use Rattle.value_bytes.specs.Spelling.{SpellsValue};
ghost use Rattle.value_bytes.specs.KeySpelling.{SpellsKey};

/// No spelling of a value is a proper prefix of another, none stands for two values, and no value has two; so what
/// follows a spelling never changes what is read.
pub fn value_spelling_laws()
    ensures no_prefix { (a b rest : List ℕ) (s t : Tree)
        → SpellsValue a s → SpellsValue b t → b ≡ a ++ rest → rest ≡ [] }
    ensures one_value { (a : List ℕ) (s t : Tree) → SpellsValue a s → SpellsValue a t → s ≡ t }
    ensures one_spelling { (a b : List ℕ) (t : Tree) → SpellsValue a t → SpellsValue b t → a ≡ b }
    ensures told_apart { (a b x y : List ℕ) (s t : Tree)
        → SpellsValue a s → SpellsValue b t → a ++ x ≡ b ++ y → (s ≡ t) × (x ≡ y) }
{}

/// The same of keys.
pub fn key_spelling_laws()
    ensures no_prefix { (a b rest : List ℕ) (j k : KeyTree)
        → SpellsKey a j → SpellsKey b k → b ≡ a ++ rest → rest ≡ [] }
    ensures one_key { (a : List ℕ) (j k : KeyTree) → SpellsKey a j → SpellsKey a k → j ≡ k }
    ensures one_spelling { (a b : List ℕ) (k : KeyTree) → SpellsKey a k → SpellsKey b k → a ≡ b }
    ensures told_apart { (a b x y : List ℕ) (j k : KeyTree)
        → SpellsKey a j → SpellsKey b k → a ++ x ≡ b ++ y → (j ≡ k) × (x ≡ y) }
{}
