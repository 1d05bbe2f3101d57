// The order by which a table keeps its keys.
ghost use Rattle.std.specs.Prelude.{◌≡◌, ℤ, Option, true};
ghost use Rattle.std.specs.declared.cmp.Ordering.{Ordering};
ghost use Rattle.std.specs.declared.cmp.Ordering.TheVariants.{Less};
ghost use Rattle.std.specs.Cmp.{IsTotalOrder};
ghost use Rattle.std.specs.FinMap.{IsAntisymmetric};
ghost use Rattle.sorted_table.specs.Orders.{precedes, by_key_order, by_key_order_total, by_key_order_same, abbreviated_key, abbreviated_key_tells};

use key_order::{Key, compare};
use std::cmp::Ordering;

/// A type whose values are in a total order in which only equal values tie.
pub trait Ordered: Drop {
    ghost order: { Self → Self → Ordering };

    ghost abbreviated: { Self → Option ℤ };

    /// How the first stands to the second; it takes no memory.
    fn order(&self, other: &Self) -> Ordering
        ensures { result ≡ order self.now other.now };

    /// A number in place of the value: of two that have one, that with the lesser number is less. It takes no memory.
    fn abbreviated(&self) -> Option<i64>
        ensures { result ≡ abbreviated self.now };

    ghost total: { IsTotalOrder order };

    ghost same: { IsAntisymmetric order };

    ghost tells: { (a b : Self) → precedes (abbreviated a) (abbreviated b) ≡ true → order a b ≡ Less };
}

impl Ordered for Key {
    ghost order = { by_key_order };

    ghost abbreviated = { abbreviated_key };

    fn order(&self, other: &Key) -> Ordering {
        compare(self, other)
    }

    fn abbreviated(&self) -> Option<i64> {
        match self {
            Key::Number(n) => Some(*n),
            _ => None,
        }
    }

    ghost total = { by_key_order_total };

    ghost same = { by_key_order_same };

    ghost tells = { abbreviated_key_tells };
}
