// Cursors against a plain program that looks at each row, and what they cost.
ghost use Rattle.std.specs.Prelude.{◌≡◌, ◌+◌, ◌*◌, ◌<◌, ◌≤◌, length};

use clone_values::Key;
use idb_cursors::*;
use idb_keys::{Direction, KeyRange, Over};
use index_tables::Row;
use sorted_table::{FlatTable, OrderedTable, Steps, find_place};
use std::alloc::Global;
use std::fmt::Write;
use std::marker::Brand;
use std::process::Abort;
use std::sync::ledger::{Blank, Ledger};

type Table = FlatTable<Row, ()>;

/// Puts a row in, if it is not there.
fn put(rt: &impl Abort, table: &mut Table, key: i64, primary: i64) {
    let row = Row {
        key: Key::Number(key),
        primary: Key::Number(primary),
    };
    if let Err(place) = find_place(table, &row) {
        table.reserve(1).expect(rt, "memory");
        table.insert_at(place, row, ());
    }
}

/// Takes a row out, if it is there.
fn take(table: &mut Table, key: i64, primary: i64) {
    let row = Row {
        key: Key::Number(key),
        primary: Key::Number(primary),
    };
    if let Ok(place) = find_place(table, &row) {
        let _ = table.remove(place);
    }
}

/// The rows (1, 1), (1, 2), (2, 3).
fn three(rt: &impl Abort, alloc: Global) -> Table {
    let mut table = Table::new(alloc);
    put(rt, &mut table, 1, 2);
    put(rt, &mut table, 2, 3);
    put(rt, &mut table, 1, 1);
    table
}

static THREE: [(i64, i64); 3] = [(1, 1), (1, 2), (2, 3)];

static DIRECTIONS: [Direction; 4] = [
    Direction::Next,
    Direction::NextUnique,
    Direction::Prev,
    Direction::PrevUnique,
];

/// One turn: the row from which it goes on, the keys that are given, and the upper bound of the range.
#[derive(Clone, Copy)]
struct Ask {
    direction: Direction,
    from: Option<(i64, i64)>,
    key: Option<i64>,
    primary: Option<i64>,
    upper: i64,
}

fn is_beyond(forward: bool, a: i64, b: i64) -> bool {
    if forward { a < b } else { b < a }
}

/// Whether a row is one that the turn may take, by the words of the standard ("iterate a cursor").
fn may_take(ask: Ask, forward: bool, unique: bool, row: (i64, i64)) -> bool {
    let (key, primary) = row;
    let reached = match (ask.key, ask.primary) {
        (None, _) => true,
        (Some(given), None) => key == given || is_beyond(forward, given, key),
        (Some(given), Some(other)) => {
            is_beyond(forward, given, key)
                || (key == given
                    && (unique || primary == other || is_beyond(forward, other, primary)))
        }
    };
    let passed = match ask.from {
        None => true,
        Some((given, other)) => {
            is_beyond(forward, given, key)
                || (key == given && !unique && is_beyond(forward, other, primary))
        }
    };
    key <= ask.upper && reached && passed
}

/// The place of the row that the turn takes: each row is looked at.
fn slow(ask: Ask) -> Option<usize> {
    let (forward, unique) = match ask.direction {
        Direction::Next => (true, false),
        Direction::NextUnique => (true, true),
        Direction::Prev => (false, false),
        Direction::PrevUnique => (false, true),
    };
    let mut found: Option<usize> = None;
    for place in 0..3 {
        if may_take(ask, forward, unique, THREE[place]) && (!forward || found.is_none()) {
            found = Some(place);
        }
    }
    match found {
        Some(place) if place < 3 && unique => {
            let mut first = place;
            for other in 0..3 {
                if THREE[other].0 == THREE[place].0 && other < first {
                    first = other;
                }
            }
            Some(first)
        }
        other => other,
    }
}

/// Moves a fresh cursor to the row from which the turn goes on; whether it can stand there.
fn is_set(
    rt: &impl Abort,
    alloc: Global,
    cursor: &mut Cursor,
    table: &Table,
    from: Option<(i64, i64)>,
) -> bool {
    match from {
        None => true,
        Some((key, primary)) => {
            let rows = RowsShown { table };
            let given = Key::Number(key);
            let other = Key::Number(primary);
            let _ = cursor
                .iterate(alloc, &rows, Some(&given), Some(&other), 1)
                .expect(rt, "memory");
            match cursor.place() {
                Some((Key::Number(a), Key::Number(b))) => *a == key && *b == primary,
                _ => false,
            }
        }
    }
}

fn number(n: Option<i64>) -> Option<Key> {
    match n {
        Some(n) => Some(Key::Number(n)),
        None => None,
    }
}

/// Writes the answer of the cursor and that of the plain program.
fn ask_both(
    rt: &impl Abort,
    alloc: Global,
    table: &Table,
    ask: Ask,
    said: &mut String,
    wanted: &mut String,
) {
    let range = KeyRange::upper(Key::Number(ask.upper), false);
    let mut cursor = Cursor::new(Over::Index(0), ask.direction, Some(range), false);
    if is_set(rt, alloc, &mut cursor, table, ask.from) {
        let rows = RowsShown { table };
        let key = number(ask.key);
        let primary = number(ask.primary);
        let place = cursor
            .iterate(alloc, &rows, key.as_ref(), primary.as_ref(), 1)
            .expect(rt, "memory");
        let _ = write!(said, "{place:?}\n");
        let _ = write!(wanted, "{:?}\n", slow(ask));
    }
}

/// Every start, key and primary key, in all four directions, with all rows in range or the first two.
#[test]
fn a_turn_takes_what_a_plain_program_finds(rt: HostRuntime) {
    let table = three(&rt, rt.alloc());
    let mut said = String::new(rt.alloc());
    let mut wanted = String::new(rt.alloc());
    for direction in DIRECTIONS {
        for from in [None, Some((1, 1)), Some((1, 2)), Some((2, 3))] {
            for key in [None, Some(0), Some(1), Some(2), Some(3)] {
                for primary in [None, Some(0), Some(1), Some(2), Some(3), Some(4)] {
                    for upper in [1, 2] {
                        let ask = Ask {
                            direction,
                            from,
                            key,
                            primary,
                            upper,
                        };
                        ask_both(&rt, rt.alloc(), &table, ask, &mut said, &mut wanted);
                    }
                }
            }
        }
    }
    assert!(rt; said.len() > 3000 && said.as_str() == wanted.as_str());
}

/// The places that a cursor takes by turns of so many, until it finds nothing.
fn places(
    rt: &impl Abort,
    alloc: Global,
    table: &Table,
    direction: Direction,
    count: u32,
    said: &mut String,
) {
    let rows = RowsShown { table };
    let mut cursor = Cursor::new(Over::Index(0), direction, None, true);
    for _ in 0..5 {
        if count > 0 {
            match cursor
                .iterate(alloc, &rows, None, None, count)
                .expect(rt, "memory")
            {
                Some(place) => {
                    let _ = write!(said, "{place} ");
                }
                None => {
                    let _ = write!(said, ". ");
                }
            }
        }
    }
    let _ = write!(said, "\n");
}

/// The worked rows (1, 1), (1, 2), (2, 3): what next, nextunique, prev and prevunique visit, by ones, twos and threes.
#[test]
fn each_direction_visits_its_rows(rt: HostRuntime) {
    let table = three(&rt, rt.alloc());
    let mut said = String::new(rt.alloc());
    for direction in DIRECTIONS {
        for count in 1..4 {
            places(&rt, rt.alloc(), &table, direction, count, &mut said);
        }
    }
    assert_eq!(rt;
        said.as_str(),
        "0 1 2 . . \n1 . . . . \n2 . . . . \n0 2 . . . \n2 . . . . \n. . . . . \n2 1 0 . . \n1 . . . . \n0 . . . . \n2 0 . . . \n0 . . . . \n. . . . . \n"
    );
}

/// A cursor by next: after its first row that row is deleted, one is put in behind it and one ahead.
fn changed(rt: &impl Abort, alloc: Global, said: &mut String) {
    let mut table = three(rt, alloc);
    let mut cursor = Cursor::new(Over::Index(0), Direction::Next, None, true);
    for turn in 0..5u32 {
        let rows = RowsShown { table: &table };
        let _ = cursor
            .iterate(alloc, &rows, None, None, 1)
            .expect(rt, "memory");
        if let Some((Key::Number(a), Key::Number(b))) = cursor.place() {
            let _ = write!(said, "{a}.{b} ");
        }
        if turn == 0 {
            take(&mut table, 1, 1);
            put(rt, &mut table, 0, 9);
            put(rt, &mut table, 2, 1);
        }
    }
}

#[test]
fn a_cursor_goes_on_from_its_keys(rt: HostRuntime) {
    let mut said = String::new(rt.alloc());
    changed(&rt, rt.alloc(), &mut said);
    assert_eq!(rt; said.as_str(), "1.1 1.2 2.1 2.3 2.3 ");
}

/// How many members a cursor takes, one turn after the other. Among a hundred thousand a turn takes at most 190 comparisons.
fn visited<R: RowView, L: Ledger>(
    rt: &impl Abort,
    alloc: Global,
    cursor: &mut Cursor,
    rows: &R,
    steps: &mut Steps<L>,
) -> u32
    requires { length (R.rows rows.now) ≤ 100000 }
    ensures { steps.new ≤ steps.old + (result + 1) * 190 }
{
    for places in 0..100_001u32 {
        if cursor
            .iterate_counted(alloc, rows, None, None, 1, steps)
            .expect(rt, "memory")
            .is_none()
        {
            return places;
        }
    }
    100_001
}

fn count_visited<L: Ledger>(
    rt: &impl Abort,
    alloc: Global,
    table: &Table,
    direction: Direction,
    blank: Blank,
) -> u32
    requires name { blank.name ≡ L.name }
    requires parts { blank.parts ≡ L.parts }
    requires some { 0 < blank.parts }
{
    if table.len() > 100_000 {
        return 0;
    }
    let rows = RowsShown { table };
    let mut steps: Steps<L> = Steps::new(blank);
    let mut cursor = Cursor::new(Over::Index(0), direction, None, true);
    visited(rt, alloc, &mut cursor, &rows, &mut steps)
}

/// A hundred thousand rows of one key: the plain directions take each, the unique ones the first.
#[test]
fn a_hundred_thousand_rows_of_one_key(rt: HostRuntime) {
    let mut table = Table::new(rt.alloc());
    for primary in 0..100_000i64 {
        put(&rt, &mut table, 7, primary);
    }
    let mut said = String::new(rt.alloc());
    for direction in DIRECTIONS {
        let count = count_visited::<Brand>(&rt, rt.alloc(), &table, direction, Blank::new(1));
        let _ = write!(said, "{count} ");
    }
    assert_eq!(rt; said.as_str(), "100000 1 100000 1 ");
}
