// Key ranges (Indexed Database API 3.0, "Key range").
ghost use Rattle.std.specs.Prelude.{◌≡◌, ◌↔◌, Bool, false, option_map, IsTrue, IfOk, IsErrOf, Option};
ghost use Rattle.key_order.specs.KeyTree.{KeyTree};
ghost use Rattle.key_order.specs.KeyOrder.{IsBelow};
ghost use Rattle.key_order.specs.View.{key_tree_of};
ghost use Rattle.idb_keys.specs.KeyRange.{Bound, Range, bound_at, range_of_one, range_from, range_to, range_between, every_key, MeetsLower, MeetsUpper, IsInRange, BoundsExclude, IsEmptyRange, IsRange, admits, meets_lower, meets_upper, includes};
ghost use Rattle.idb_keys.specs.View.{bound_of, range_of, bound_shown};

use idb_base::NoMemory;
use key_order::{Key, compare, key_order_laws};
use std::alloc::Global;
use std::cmp::Ordering;
use std::marker::Model;

/// Why a range was not made.
#[derive(Clone, Copy, Debug, PartialEq, Eq)]
pub enum RangeError {
    /// The lower bound is above the upper one, or both have one key and one of them is open.
    DataError,
}

/// A range of keys; contracts see its two bounds.
#[derive(Drop)]
pub struct KeyRange {
    lower: Option<End>,
    upper: Option<End>,
}

/// One end of a range: a key, and whether that key itself is left out.
#[derive(Drop)]
struct End {
    key: Key,
    is_open: bool,
}

impl Model for KeyRange {
    ghost use Rattle.idb_keys.specs.KeyRange.{Range, IsRange, range_code};

    ghost Value = { Range };

    ghost coded = { range_code };

    ghost use Rattle.idb_keys.specs.View.{range_of};

    ghost view = { λ a. range_of a.lower a.upper };

    ghost invariant = { λ a. IsRange (range_of a.lower a.upper) };
}

impl KeyRange {
    /// The range of this key alone; its second end is a copy of the key.
    pub fn only(alloc: Global, key: Key) -> Result<KeyRange, NoMemory>
        ensures { IfOk result (λ range. range ≡ range_of_one (key_tree_of key)) }
    {
        let copy = key.copy(alloc)?;
        key_order_laws();
        Ok(KeyRange {
            lower: Some(end_at(copy, false)),
            upper: Some(end_at(key, false)),
        })
    }

    /// The range of all keys, which stands for a range that is left out; it takes no memory.
    pub fn all() -> KeyRange
        ensures { result ≡ every_key }
    {
        KeyRange {
            lower: None,
            upper: None,
        }
    }

    /// The range of all keys from this one on, which itself is left out if the end is open.
    pub fn lower(key: Key, open_end: bool) -> KeyRange
        ensures { result ≡ range_from (bound_at (key_tree_of key) open_end) }
    {
        KeyRange {
            lower: Some(end_at(key, open_end)),
            upper: None,
        }
    }

    /// The range of all keys up to this one, which itself is left out if the end is open.
    pub fn upper(key: Key, open_end: bool) -> KeyRange
        ensures { result ≡ range_to (bound_at (key_tree_of key) open_end) }
    {
        KeyRange {
            lower: None,
            upper: Some(end_at(key, open_end)),
        }
    }

    /// The range between two keys; it takes no memory.
    pub fn bound(
        lower: Key,
        upper: Key,
        lower_open: bool,
        upper_open: bool,
    ) -> Result<KeyRange, RangeError>
        ensures made { IfOk result (λ range. range
            ≡ range_between (bound_at (key_tree_of lower) lower_open) (bound_at (key_tree_of upper) upper_open)) }
        ensures refused { IsErrOf result RangeError.DataError
            ↔ BoundsExclude (bound_at (key_tree_of lower) lower_open) (bound_at (key_tree_of upper) upper_open) }
    {
        let lower = end_at(lower, lower_open);
        let upper = end_at(upper, upper_open);
        if exclude_each_other(&lower, &upper) {
            return Err(RangeError::DataError);
        }
        Ok(KeyRange {
            lower: Some(lower),
            upper: Some(upper),
        })
    }

    /// Whether the key is in the range; it takes no memory.
    pub fn includes(&self, key: &Key) -> bool
        ensures value { result ≡ includes self.now (key_tree_of key.now) }
        ensures member { IsTrue result ↔ IsInRange (key_tree_of key.now) self.now }
    {
        key_range_laws();
        meets_lower(&self.lower, key) && meets_upper(&self.upper, key)
    }

    /// The lower bound's key and whether the bound is open; `None` where there is no lower bound.
    pub fn lower_bound(&self) -> Option<(&Key, bool)>
        ensures bound { option_map bound_shown result ≡ self.now.lower }
        ensures valid { IsRange self.now }
    {
        shown(&self.lower)
    }

    /// The upper bound's key and whether the bound is open; `None` where there is no upper bound.
    pub fn upper_bound(&self) -> Option<(&Key, bool)>
        ensures bound { option_map bound_shown result ≡ self.now.upper }
        ensures valid { IsRange self.now }
    {
        shown(&self.upper)
    }
}

fn end_at(key: Key, is_open: bool) -> End
    ensures { bound_of result ≡ bound_at (key_tree_of key) is_open }
{
    End { key, is_open }
}

fn shown(end: &Option<End>) -> Option<(&Key, bool)>
    ensures { option_map bound_shown result ≡ option_map bound_of end.now }
{
    match end {
        Some(end) => Some((&end.key, end.is_open)),
        None => None,
    }
}

fn exclude_each_other(lower: &End, upper: &End) -> bool
    ensures { IsTrue result ↔ BoundsExclude (bound_of lower.now) (bound_of upper.now) }
{
    key_order_laws();
    match compare(&lower.key, &upper.key) {
        Ordering::Less => false,
        Ordering::Equal => lower.is_open || upper.is_open,
        Ordering::Greater => true,
    }
}

fn meets_lower(lower: &Option<End>, key: &Key) -> bool
    ensures { result ≡ meets_lower (option_map bound_of lower.now) (key_tree_of key.now) }
{
    match lower {
        Some(end) => admits(end.is_open, compare(&end.key, key)),
        None => true,
    }
}

fn meets_upper(upper: &Option<End>, key: &Key) -> bool
    ensures { result ≡ meets_upper (option_map bound_of upper.now) (key_tree_of key.now) }
{
    match upper {
        Some(end) => admits(end.is_open, compare(key, &end.key)),
        None => true,
    }
}

/// A bound takes the keys on its own side, and its own key unless it is open.
fn admits(is_open: bool, order: Ordering) -> bool
    ensures { result ≡ admits is_open order }
{
    match order {
        Ordering::Less => true,
        Ordering::Equal => !is_open,
        Ordering::Greater => false,
    }
}

/// The laws of a bound: the tests say what the words say, and what stands above a key that meets a lower bound meets it
/// too, as does what stands below a key that meets an upper bound.
pub fn bound_laws()
    ensures lower_decided { (lower : Option Bound) (key : KeyTree)
        → IsTrue (meets_lower lower key) ↔ MeetsLower lower key }
    ensures upper_decided { (upper : Option Bound) (key : KeyTree)
        → IsTrue (meets_upper upper key) ↔ MeetsUpper upper key }
    ensures rises { (lower : Option Bound) (low key : KeyTree)
        → MeetsLower lower low → IsBelow low key → MeetsLower lower key }
    ensures falls { (upper : Option Bound) (key high : KeyTree)
        → MeetsUpper upper high → IsBelow key high → MeetsUpper upper key }
{
    key_order_laws();
}

/// The laws of ranges: the test says what the words say, a range of one key holds just that key, what `bound` refuses
/// would hold no key, what it takes holds the key of each closed bound, and a range has no gap.
pub fn key_range_laws()
    ensures decided { (range : Range) (key : KeyTree) → IsTrue (includes range key) ↔ IsInRange key range }
    ensures every { (key : KeyTree) → IsInRange key every_key }
    ensures alone { (one key : KeyTree) → IsInRange key (range_of_one one) ↔ (key ≡ one) }
    ensures refused_is_empty { (lower upper : Bound)
        → BoundsExclude lower upper → IsEmptyRange (range_between lower upper) }
    ensures lower_key_in { (lower upper : Bound) → ¬ BoundsExclude lower upper → lower.is_open ≡ false
        → IsInRange lower.key (range_between lower upper) }
    ensures upper_key_in { (lower upper : Bound) → ¬ BoundsExclude lower upper → upper.is_open ≡ false
        → IsInRange upper.key (range_between lower upper) }
    ensures no_gap { (range : Range) (low key high : KeyTree) → IsInRange low range → IsInRange high range
        → IsBelow low key → IsBelow key high → IsInRange key range }
{
    key_order_laws();
    bound_laws();
}
