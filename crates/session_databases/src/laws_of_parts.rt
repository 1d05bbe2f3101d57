// The law of parts.
ghost use Rattle.std.specs.Prelude.{◌≡◌, List, [], ◌∷◌, Option};
ghost use Rattle.idb_calls.specs.Deltas.{DeltaTree, DropDatabase};
ghost use Rattle.item_changes.specs.Items.{Name, Database, Items, stores_in};
ghost use Rattle.item_changes.specs.Effects.{made_all, applied_all};
ghost use Rattle.item_changes.specs.Scopes.{Scope, AllWithin, part_of};
ghost use Rattle.idb_databases.specs.Stores.{AreStores};
ghost use Rattle.session_databases.specs.Parts.{without_part, with_part, AreSoundDatabases};

/// The laws of parts. A part that is taken out and put back as it was leaves the databases as they were. What a transaction changes
/// in its scope it may change in the part alone, and put that back: it comes to the same. Sound databases stay sound with a sound
/// part, and without one of them.
pub fn part_laws()
    ensures whole { (scope : Scope) (items : Items)
        → with_part scope (without_part scope items) (part_of scope items) ≡ items }
    ensures changed { (scope : Scope) (items : Items) (changes : List DeltaTree) → AllWithin scope changes
        → with_part scope (without_part scope items) (made_all changes (part_of scope items))
        ≡ applied_all items changes }
    ensures sound { (scope : Scope) (items : Items) (part : Option Database)
        → AreSoundDatabases items → AreStores (stores_in part)
        → AreSoundDatabases (with_part scope items part) }
    ensures sound_without { (items : Items) (name : Name)
        → AreSoundDatabases items → AreSoundDatabases (applied_all items (DropDatabase name ∷ [])) }
{}
