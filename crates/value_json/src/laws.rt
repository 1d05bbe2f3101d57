// Writing and reading together, and reading level by level.
ghost use Rattle.clone_values.specs.Tree.{Tree};
ghost use Rattle.clone_values.specs.WellFormed.{IsValue};
ghost use Rattle.serde_json.specs.Data.{Data};
ghost use Rattle.value_json.specs.Laws.{ReadsBack, ReadsByLevels};

/// The document that a well formed value is written as reads as that value.
pub fn json_laws()
    ensures { (t : Tree) → IsValue t → ReadsBack t }
{}

/// What a document reads as is made of its level: of what the lists and the members of this level read as.
pub fn level_laws()
    ensures { (d : Data) → ReadsByLevels d }
{}
