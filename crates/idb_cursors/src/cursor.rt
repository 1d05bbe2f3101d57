// A cursor: what it goes over, which way, in which range, and the member that it took last.
ghost use Rattle.std.specs.Prelude.{◌≡◌, ℕ, ◌+◌, ◌-◌, ◌*◌, ◌^◌, ◌<◌, ◌≤◌, true, length, if◌then◌else◌, Some, None, option_map, IfOk, OnErr};
ghost use Rattle.std.specs.Option.{is_some, option_zip};
ghost use Rattle.std.specs.Ordering.{is_lt};
ghost use Rattle.clone_values.specs.View.{tree_of, key_tree_of};
ghost use Rattle.key_paths.specs.Conversion.{key_of};
ghost use Rattle.index_tables.specs.Rows.{row_cmp};
ghost use Rattle.index_tables.specs.View.{row_of};
ghost use Rattle.idb_cursors.specs.Cursors.{fresh_cursor, turn_of, iterated, cursor_after, toward, key_beyond_place, pair_beyond_place};
ghost use Rattle.idb_cursors.specs.View.{key_shown, row_shown, range_given};

use crate::row_view::RowView;
use crate::seeking::{Turn, toward};
use crate::turns::iterated;
use clone_values::{Key, Value};
use idb_base::NoMemory;
use idb_keys::{Direction, KeyRange, Over};
use index_tables::Row;
use key_paths::{compare_key, is_key};
use sorted_table::Steps;
use std::alloc::Global;
use std::cmp::Ordering;
use std::marker::{Brand, Model};
use std::sync::ledger::{Blank, Ledger};

/// A cursor (Indexed Database API 3.0, "cursor"). `near` is where the member that it took last stood then, beside which the next
/// one is looked for first; nothing else rests on it.
#[derive(Drop)]
pub struct Cursor {
    over: Over,
    direction: Direction,
    range: KeyRange,
    keys_only: bool,
    place: Option<Row>,
    near: usize,
}

impl Model for Cursor {
    ghost use Rattle.std.specs.Prelude.{option_map};
    ghost use Rattle.std.specs.Coded.{codes};
    ghost use Rattle.idb_keys.specs.KeyRange.{range_code};
    ghost use Rattle.index_tables.specs.Rows.{row_code};
    ghost use Rattle.idb_cursors.specs.Cursors.{CursorData};

    ghost Value = { CursorData };

    ghost coded = { Prim.hlevel (codes, range_code, row_code) };

    ghost use Rattle.index_tables.specs.Rows.{row_cmp};
    ghost use Rattle.index_tables.specs.View.{row_of};

    ghost view = { λ a. record {
      over = a.over;
      direction = a.direction;
      range = a.range;
      keys_only = a.keys_only;
      place = option_map row_of a.place;
    } };
}

impl Cursor {
    /// A cursor that has taken nothing yet. A range that is left out takes all keys. It takes no memory.
    pub fn new(over: Over, direction: Direction, range: Option<KeyRange>, keys_only: bool) -> Cursor
        ensures { result ≡ fresh_cursor over direction (range_given range) keys_only }
    {
        Cursor {
            over,
            direction,
            range: match range {
                Some(range) => range,
                None => KeyRange::all(),
            },
            keys_only,
            place: None,
            near: 0,
        }
    }

    /// What the cursor goes over.
    pub fn over(&self) -> Over
        ensures { result ≡ self.now.over }
    {
        self.over
    }

    /// Which way it moves.
    pub fn direction(&self) -> Direction
        ensures { result ≡ self.now.direction }
    {
        self.direction
    }

    /// Whether it shows keys alone ("key only flag").
    pub fn keys_only(&self) -> bool
        ensures { result ≡ self.now.keys_only }
    {
        self.keys_only
    }

    /// The key and the primary key of the member that it took last; `None` where it has taken none.
    pub fn place(&self) -> Option<(&Key, &Key)>
        ensures { option_map row_shown result ≡ self.now.place }
    {
        lent(&self.place)
    }

    /// Whether the key of a value lies beyond that of the cursor's member, in its direction ("continue"); `None` where the value has
    /// no key. It takes no memory.
    pub fn is_key_ahead(&self, key: &Value) -> Option<bool>
        ensures { result ≡ option_map (key_beyond_place self.now.direction self.now.place)
            (key_of (tree_of key.now)) }
    {
        match &self.place {
            Some(row) => is_ahead(self.direction, compare_key(&row.key, key)),
            None => if_key(is_key(key)),
        }
    }

    /// Whether the keys of two values, a key and a primary key, lie beyond those of the cursor's member, in its direction
    /// ("continuePrimaryKey"); `None` where either has no key. It takes no memory.
    pub fn is_pair_ahead(&self, key: &Value, primary: &Value) -> Option<bool>
        ensures { result ≡ option_map (pair_beyond_place self.now.direction self.now.place)
            (option_zip (key_of (tree_of key.now)) (key_of (tree_of primary.now))) }
    {
        is_pair_beyond(self.direction, &self.place, key, primary)
    }

    /// Moves the cursor by so many turns over the members of its source, and gives the place of the member that it then takes;
    /// `None` at the first turn that finds nothing, where the cursor stays as it was. A key that is given, or a key and a primary
    /// key, are where it goes on at the least. The cursor keeps copies of the member's keys.
    pub fn iterate<R: RowView>(
        &mut self,
        alloc: Global,
        rows: &R,
        key: Option<&Key>,
        primary: Option<&Key>,
        count: u32,
    ) -> Result<Option<usize>, NoMemory>
        requires one_at_least { 1 ≤ count }
        ensures found { IfOk result (λ place. place ≡ iterated (R.rows rows.now)
            (turn_of self.old (key_shown key.entry) (key_shown primary.entry)) (count - 1)) }
        ensures moved { IfOk result (λ place. self.new ≡ cursor_after (R.rows rows.now) self.old place) }
        ensures unchanged { OnErr result (self.new ≡ self.old) }
    {
        self.iterate_by::<R, Brand>(alloc, rows, key, primary, count, Blank::new(1))
    }

    /// The same; each comparison of two keys is counted. With d binary digits of the number of members a turn takes at most ten
    /// times d + 2.
    pub fn iterate_counted<R: RowView, L: Ledger>(
        &mut self,
        alloc: Global,
        rows: &R,
        key: Option<&Key>,
        primary: Option<&Key>,
        count: u32,
        steps: &mut Steps<L>,
    ) -> Result<Option<usize>, NoMemory>
        requires one_at_least { 1 ≤ count }
        ensures found { IfOk result (λ place. place ≡ iterated (R.rows rows.now)
            (turn_of self.old (key_shown key.entry) (key_shown primary.entry)) (count - 1)) }
        ensures moved { IfOk result (λ place. self.new ≡ cursor_after (R.rows rows.now) self.old place) }
        ensures unchanged { OnErr result (self.new ≡ self.old) }
        ensures cost { (d : ℕ) → length (R.rows rows.now) < 2 ^ d
            → steps.new ≤ steps.old + count * (10 * (d + 2)) }
    {
        let turn = Turn {
            direction: self.direction,
            range: &self.range,
            place: lent(&self.place),
            key,
            primary,
            near: self.near,
        };
        let found = iterated(rows, &turn, count - 1, steps);
        if let Some(place) = found {
            self.place = copied(alloc, rows.at(place))?;
            self.near = place;
        }
        Ok(found)
    }

    fn iterate_by<R: RowView, L: Ledger>(
        &mut self,
        alloc: Global,
        rows: &R,
        key: Option<&Key>,
        primary: Option<&Key>,
        count: u32,
        blank: Blank,
    ) -> Result<Option<usize>, NoMemory>
        requires one_at_least { 1 ≤ count }
        requires name { blank.name ≡ L.name }
        requires parts { blank.parts ≡ L.parts }
        requires some { 0 < blank.parts }
        ensures found { IfOk result (λ place. place ≡ iterated (R.rows rows.now)
            (turn_of self.old (key_shown key.entry) (key_shown primary.entry)) (count - 1)) }
        ensures moved { IfOk result (λ place. self.new ≡ cursor_after (R.rows rows.now) self.old place) }
        ensures unchanged { OnErr result (self.new ≡ self.old) }
    {
        let mut steps: Steps<L> = Steps::new(blank);
        self.iterate_counted(alloc, rows, key, primary, count, &mut steps)
    }
}

/// Whether the keys of two values lie beyond the place; `None` where either has none.
fn is_pair_beyond(
    direction: Direction,
    place: &Option<Row>,
    key: &Value,
    primary: &Value,
) -> Option<bool>
    ensures { result ≡ option_map (pair_beyond_place direction (option_map row_of place.now))
        (option_zip (key_of (tree_of key.now)) (key_of (tree_of primary.now))) }
{
    match place {
        Some(row) => is_ahead(direction, row_order(row, key, primary)),
        None => if_key(are_keys(key, primary)),
    }
}

/// Whether both values have keys.
fn are_keys(key: &Value, primary: &Value) -> bool
    ensures { result ≡ is_some (option_zip (key_of (tree_of key.now)) (key_of (tree_of primary.now))) }
{
    is_key(key) && is_key(primary)
}

/// How a member stands to the keys of two values; `None` where either has none.
#[tactic(auto, using(crate::proofs::Ahead::by_both))]
fn row_order(row: &Row, key: &Value, primary: &Value) -> Option<Ordering>
    ensures { result ≡ option_map (row_cmp (row_of row.now))
        (option_zip (key_of (tree_of key.now)) (key_of (tree_of primary.now))) }
{
    match (
        compare_key(&row.key, key),
        compare_key(&row.primary, primary),
    ) {
        (Some(order), Some(within)) => Some(order.then(within)),
        (Some(_), None) => None,
        (None, _) => None,
    }
}

/// Whether what lies so to the cursor's member lies beyond it.
fn is_ahead(direction: Direction, order: Option<Ordering>) -> Option<bool>
    ensures { result ≡ option_map (λ o. is_lt (toward direction o)) order }
{
    match order {
        Some(order) => Some(toward(direction, order).is_lt()),
        None => None,
    }
}

/// Every key lies beyond the place of a cursor that has taken no member.
fn if_key(is_key: bool) -> Option<bool>
    ensures { result ≡ if is_key then Some true else None }
{
    if is_key { Some(true) } else { None }
}

/// The keys of a member that is kept.
fn lent(place: &Option<Row>) -> Option<(&Key, &Key)>
    ensures { option_map row_shown result ≡ option_map row_of place.now }
{
    match place {
        Some(row) => Some((&row.key, &row.primary)),
        None => None,
    }
}

/// Copies of the keys of a member.
fn copied(alloc: Global, member: Option<(&Key, &Key)>) -> Result<Option<Row>, NoMemory>
    ensures { IfOk result (λ row. option_map row_of row ≡ option_map row_shown member.entry) }
{
    match member {
        Some((key, primary)) => Ok(Some(Row {
            key: key.copy(alloc)?,
            primary: primary.copy(alloc)?,
        })),
        None => Ok(None),
    }
}
