// What the changes of a store keep.
ghost use Rattle.std.specs.Prelude.{◌≡◌, ℕ, ◌≤◌, length, take};
ghost use Rattle.store_contents.specs.Store.{Kept, at_mark, KeepsPast};

/// The laws of marks: no change keeps the past, and so does one after another; a mark of now leads to the store as it is; and
/// the marks before one that was undone to lead where they led.
pub fn mark_laws()
    ensures same { (kept : Kept) → KeepsPast kept kept }
    ensures again { (a b c : Kept) → KeepsPast a b → KeepsPast b c → KeepsPast a c }
    ensures here { (kept : Kept) → at_mark kept (length kept.past) kept.store.current ≡ kept.store }
    ensures undone { (old new : Kept) (place current : ℕ) → place ≤ length old.past
        → new.store ≡ at_mark old place current → new.past ≡ take place old.past
        → (p n : ℕ) → p ≤ place → at_mark new p n ≡ at_mark old p n }
{}
