// Multi-entry conversion: the valid items of an Array as keys, each once.
ghost use Rattle.std.specs.Prelude.{◌≡◌, ◌+◌, ◌≤◌, length, Some, map, IfOk, OnOk, refl};
ghost use Rattle.clone_values.specs.View.{key_tree_of};
ghost use Rattle.std.specs.Ordering.{eq_by_cmp};
ghost use Rattle.std.specs.Cmp.{partial_equiv_from_equiv, eq_by_cmp_equiv, po};
ghost use Rattle.key_order.specs.KeyOrder.{key_cmp};
ghost use Rattle.key_order.proofs.Laws.{key_cmp_total};
ghost use Rattle.key_order.specs.Conversion.{keys_of};
ghost use Rattle.key_paths.specs.KeysSeen.{with_new, HasExactly};

use crate::conversion::to_key;
use clone_values::{Items, Key, Keys};
use idb_base::NoMemory;
use key_order::compare;
use std::alloc::Global;
use std::cmp::Ordering;
use std::collections::BTreeSet;
use std::marker::Model;

/// A key that compares by the order of keys, so that a set finds it by halving.
#[derive(Drop)]
struct Ranked {
    key: Key,
}

impl Model for Ranked {
    ghost use Rattle.clone_values.specs.KeyTree.{KeyTree, key_code};

    ghost Value = { KeyTree };

    ghost coded = { key_code };

    ghost use Rattle.clone_values.specs.View.{key_tree_of};

    ghost view = { λ a. key_tree_of a.key };
}

impl PartialEq for Ranked {
    ghost eq = { eq_by_cmp key_cmp };

    ghost laws = { partial_equiv_from_equiv (eq_by_cmp_equiv key_cmp_total) };

    fn eq(&self, other: &Ranked) -> bool {
        match compare(&self.key, &other.key) {
            Ordering::Equal => true,
            _ => false,
        }
    }
}

impl Eq for Ranked {
    ghost laws = { eq_by_cmp_equiv key_cmp_total };
}

impl PartialOrd for Ranked {
    ghost partial_cmp = { λ x y. Some (key_cmp x y) };

    ghost laws = { po key_cmp_total (λ x y. refl) };

    fn partial_cmp(&self, other: &Ranked) -> Option<Ordering> {
        Some(self.cmp(other))
    }
}

impl Ord for Ranked {
    ghost cmp = { key_cmp };

    ghost total = { key_cmp_total };

    ghost matches_partial_cmp = { λ x y. refl };

    ghost matches_eq = { λ x y. refl };

    fn cmp(&self, other: &Ranked) -> Ordering {
        compare(&self.key, &other.key)
    }
}

/// The valid items as keys, in order, each key once, at its first place (Indexed Database API 3.0, "convert a
/// value to a multiEntry key"). A set of the keys so far finds the repeats.
pub(crate) fn keys_of(alloc: Global, items: &Items) -> Result<Keys, NoMemory>
    ensures { IfOk result (λ r. r ≡ keys_of items.now) }
{
    let mut seen = BTreeSet::new(alloc);
    let mut keys = Vec::new(alloc);
    for place in 0..items.len() {
        if let Some(item) = items.at(place) {
            if let Some(key) = to_key(alloc, item)? {
                keep_new(alloc, &mut seen, &mut keys, key)?;
            }
        }
    }
    Ok(Keys::from_vec(alloc, keys)?)
}

/// Puts the key at the end, unless the set, which has the same keys, has it.
fn keep_new(
    alloc: Global,
    seen: &mut BTreeSet<Ranked>,
    keys: &mut Vec<Key>,
    key: Key,
) -> Result<(), NoMemory>
    requires { HasExactly seen.old (map key_tree_of keys.old.items) }
    ensures kept { OnOk result (map key_tree_of keys.new.items
        ≡ with_new (map key_tree_of keys.old.items) (key_tree_of key)) }
    ensures count { OnOk result (length keys.new.items ≤ length keys.old.items + 1) }
    ensures same { OnOk result (HasExactly seen.new (map key_tree_of keys.new.items)) }
{
    let copy = key.copy(alloc)?;
    if seen.insert(Ranked { key: copy })? {
        keys.push(key)?;
    }
    Ok(())
}
