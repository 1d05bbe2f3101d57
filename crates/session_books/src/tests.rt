// What no clause says: that calls succeed with ample memory, and which commits a restart finds. Each commit makes a database, and each row
// writes into a text how many transactions finished, how many are commits, and the names of the databases that are found.
ghost use Rattle.std.specs.Prelude.{◌≡◌, ◌≤◌, ◌∷◌, [], length, IfOk};
ghost use Rattle.idb_calls.specs.Deltas.{Version};
ghost use Rattle.tx_book.specs.Entries.{CanBeLogged};
ghost use Rattle.session_books.specs.Keeping.{IsBlank, MakesDatabase};

use crate::SessionBook;
use crate::keeper::keep;
use clone_values::Text;
use disk_trait::{Disk, DiskPlan, Image, MemoryDisk};
use idb_base::NoMemory;
use idb_calls::{Delta, Deltas, Events, Outcome, TxTrace};
use idb_databases::Databases;
use idb_keys::{Durability, Mode};
use idb_recovery::{Opened, recover};
use index_tables::FlatTables;
use std::alloc::Global;
use std::fmt::Write;
use std::test::Fail;

/// The call of the disk that fails, and whether the book is flushed.
type Row = (Option<u64>, bool);

fn blank(alloc: Global, fails: Option<u64>) -> Result<MemoryDisk, Fail> {
    let mut fail_at = Vec::new(alloc);
    if let Some(call) = fails {
        fail_at.push(call)?;
    }
    let plan = DiskPlan {
        fail_at,
        stop_after: None,
        image: Image::Kept,
    };
    Ok(MemoryDisk::with_room(alloc, 2_000_000, 1000, plan)?)
}

fn opened(alloc: Global, fails: Option<u64>) -> Result<SessionBook<MemoryDisk, FlatTables>, Fail>
    ensures { IfOk result IsBlank }
{
    match recover(alloc, blank(alloc, fails)?) {
        Ok(opened) => {
            let (book, items) = SessionBook::new(alloc, opened);
            if items.len() == 0 {
                Ok(book)
            } else {
                Err("databases")?
            }
        }
        Err(_) => Err("no log")?,
    }
}

fn changes(alloc: Global, name: &str) -> Result<Deltas, NoMemory>
    requires { length name.now ≤ 8 }
    ensures { IfOk result (λ deltas. deltas ≡ Version name.now 1 ∷ []) }
{
    let mut deltas = Deltas::new(alloc);
    deltas.push(Delta::Version {
        db: Text::copy_of(alloc, name)?,
        version: 1,
    })?;
    Ok(deltas)
}

fn commit(
    alloc: Global,
    number: u64,
    name: &str,
    durability: Durability,
) -> Result<TxTrace, NoMemory>
    requires { length name.now ≤ 8 }
    ensures makes { IfOk result (MakesDatabase name.now) }
    ensures loggable { IfOk result CanBeLogged }
{
    Ok(TxTrace {
        number,
        mode: Mode::ReadWrite,
        durability,
        deltas: changes(alloc, name)?,
        lines: Events::new(alloc),
        outcome: Outcome::Committed,
    })
}

fn tell_names(said: &mut String, items: &Databases<FlatTables>) -> Result<(), Fail> {
    for place in 0..items.len() {
        if let Some(database) = items.at(place) {
            write!(said, " {}", database.name.as_str())?;
        }
    }
    Ok(())
}

/// The databases that are found after a restart.
fn tell_found(alloc: Global, said: &mut String, disk: MemoryDisk) -> Result<(), Fail> {
    let mut disk = disk;
    let _ = disk.restart();
    match recover(alloc, disk) {
        Ok(opened) => {
            let Opened { log: _, items } = opened;
            tell_names(said, &items)
        }
        Err(_) => Err("nothing found")?,
    }
}

fn tell_row(alloc: Global, said: &mut String, row: Row) -> Result<(), Fail> {
    let traces = [
        commit(alloc, 1, "a", Durability::Relaxed)?,
        commit(alloc, 2, "b", Durability::Strict)?,
        commit(alloc, 3, "c", Durability::Relaxed)?,
    ];
    let (disk, finished, commits) = keep(opened(alloc, row.0)?, &traces, row.1);
    write!(said, "{} {}:", finished.len(), commits.len())?;
    tell_found(alloc, said, disk)?;
    write!(said, "; ")?;
    Ok(())
}

/// A blank disk is opened with eleven calls, and a batch takes four: the first batch ends with the strict commit, and the flush writes the
/// second one. A batch whose last call fails is found nevertheless.
#[test]
fn a_restart_finds_what_may_be_kept(rt: HostRuntime) -> Result<(), Fail> {
    let mut said = String::new(rt.alloc());
    let rows: [Row; 6] = [
        (None, false),
        (None, true),
        (Some(12), true),
        (Some(15), true),
        (Some(16), true),
        (Some(19), true),
    ];
    for row in rows {
        tell_row(rt.alloc(), &mut said, row)?;
    }
    assert_eq!(rt;
        said.as_str(),
        "3 3: a b; 3 3: a b c; 2 1:; 2 1: a b; 3 3: a b; 3 3: a b c; "
    );
    Ok(())
}
