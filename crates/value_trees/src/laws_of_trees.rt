// The laws of trees.
ghost use Rattle.std.specs.Prelude.{◌≡◌, ◌↔◌, ℕ, Bool, true, List};
ghost use Rattle.value_trees.specs.Tree.{Tree, trees_of, members_of, pairs_of, list_of_trees, list_of_members, list_of_pairs};
ghost use Rattle.value_trees.specs.Sameness.{same_tree};

/// The laws of trees: the test of sameness answers by equality, and a list that is part of a tree is read back as it was.
pub fn tree_laws()
    ensures decides { (s t : Tree) → (same_tree s t ≡ true) ↔ (s ≡ t) }
    ensures items { (ts : List Tree) → list_of_trees (trees_of ts) ≡ ts }
    ensures properties { (ms : List (List ℕ × Tree)) → list_of_members (members_of ms) ≡ ms }
    ensures entries { (ps : List (Tree × Tree)) → list_of_pairs (pairs_of ps) ≡ ps }
{}
