// The laws of scopes.
ghost use Rattle.std.specs.Prelude.{◌≡◌, false, List, []};
ghost use Rattle.idb_calls.specs.Deltas.{DeltaTree};
ghost use Rattle.item_changes.specs.Items.{Name, Items};
ghost use Rattle.item_changes.specs.Effects.{applied_all, all_apply, made_all, finds_all};
ghost use Rattle.item_changes.specs.Scopes.{Scope, Reads, scopes_conflict, AllWithin, part_of};

/// The laws of scopes. What a transaction changes in its scope depends only on the part of the items that its scope names, and
/// so does whether its changes apply; nothing changes in the part of a scope that doesn't conflict; and changes in two scopes
/// that don't conflict come to the same in either order.
pub fn scope_laws()
    ensures inside { (a : Scope) (items : Items) (deltas : List DeltaTree) → AllWithin a deltas
        → part_of a (applied_all items deltas) ≡ made_all deltas (part_of a items) }
    ensures outside { (a b : Scope) (items : Items) (deltas : List DeltaTree) → scopes_conflict a b ≡ false
        → AllWithin a deltas → part_of b (applied_all items deltas) ≡ part_of b items }
    ensures swaps { (a b : Scope) (items : Items) (ds es : List DeltaTree) → scopes_conflict a b ≡ false
        → AllWithin a ds → AllWithin b es
        → applied_all (applied_all items ds) es ≡ applied_all (applied_all items es) ds }
    ensures applies { (a : Scope) (items : Items) (deltas : List DeltaTree) → AllWithin a deltas
        → all_apply items deltas ≡ finds_all deltas (part_of a items) }
    ensures either_way { (a b : Scope) → scopes_conflict a b ≡ scopes_conflict b a }
    ensures readers { (a : Scope) (names : List Name) (deltas : List DeltaTree) → a.access ≡ Reads names
        → AllWithin a deltas → deltas ≡ [] }
{}
