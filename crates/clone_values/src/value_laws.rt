// What is built of well formed values is one.
ghost use Rattle.std.specs.Prelude.{◌≡◌, ℕ, ◌<◌, true, false, List, [], ◌∷◌, ◌++◌};
ghost use Rattle.value_trees.specs.Lists.{FitsOneMore};
ghost use Rattle.value_trees.specs.TheConstants.{GREATEST_DEPTH};
ghost use Rattle.value_trees.specs.Tree.{Tree, Trees, Members, array, object, map_object, set_object, trees_of, members_of, pairs_of};
ghost use Rattle.value_trees.specs.Names.{set_member};
ghost use Rattle.value_trees.specs.Sameness.{put_once, put_pair};
ghost use Rattle.value_trees.specs.Values.{depth_of, holds_function, IsCloneable};
ghost use Rattle.value_trees.specs.WellFormed.{is_text, is_array_name, IsValue};

/// The laws of building: an item pushed, a member put into a Set, an entry put into a Map and a property set leave a
/// well formed value well formed, where there is room for one more; and one that can be cloned stays so, where what is
/// set can be cloned one level deeper.
pub fn building_laws()
    ensures pushed { (ts : List Tree) (ms : Members) (t : Tree) → IsValue (array (trees_of ts) ms) → IsValue t
        → FitsOneMore ts → IsValue (array (trees_of (ts ++ t ∷ [])) ms) }
    ensures put { (ts : List Tree) (t : Tree) → IsValue (set_object (trees_of ts)) → IsValue t
        → FitsOneMore ts → IsValue (set_object (trees_of (put_once ts t))) }
    ensures entered { (ps : List (Tree × Tree)) (k v : Tree) → IsValue (map_object (pairs_of ps))
        → IsValue k → IsValue v
        → FitsOneMore ps → IsValue (map_object (pairs_of (put_pair ps k v))) }
    ensures set_in_object { (ms : List (List ℕ × Tree)) (n : List ℕ) (v : Tree)
        → IsValue (object (members_of ms))
        → is_text n ≡ true → IsValue v → FitsOneMore ms → IsValue (object (members_of (set_member ms n v))) }
    ensures set_in_array { (ts : Trees) (ms : List (List ℕ × Tree)) (n : List ℕ) (v : Tree)
        → IsValue (array ts (members_of ms)) → is_text n ≡ true → is_array_name n ≡ true → IsValue v
        → FitsOneMore ms → IsValue (array ts (members_of (set_member ms n v))) }
    ensures cloneable { (ms : List (List ℕ × Tree)) (n : List ℕ) (v : Tree)
        → IsCloneable (object (members_of ms))
        → holds_function v ≡ false → depth_of v < GREATEST_DEPTH
        → IsCloneable (object (members_of (set_member ms n v))) }
{}
