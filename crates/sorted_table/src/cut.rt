// Cuts through the order of keys.
ghost use Rattle.std.specs.Prelude.{◌≡◌, ℤ, Option, Bool, true, false};
ghost use Rattle.sorted_table.specs.Orders.{precedes};

use crate::order::Ordered;

/// A cut through the order of keys: the keys in front of it fail, and those behind it pass.
pub trait Cut<K: Ordered> {
    ghost passes: { Self → K → Bool };

    ghost abbreviated: { Self → Option ℤ };

    /// Whether the key lies behind the cut; it takes no memory.
    fn passes(&self, key: &K) -> bool
        ensures { result ≡ passes self.now key.now };

    /// A number in place of the cut: keys with a lesser number lie in front of it, and those with a greater one behind it.
    fn abbreviated(&self) -> Option<i64>
        ensures { result ≡ abbreviated self.now };

    ghost in_front: { (c : Self) (k : K) → precedes (K.abbreviated k) (abbreviated c) ≡ true → passes c k ≡ false };

    ghost behind: { (c : Self) (k : K) → precedes (abbreviated c) (K.abbreviated k) ≡ true → passes c k ≡ true };
}
