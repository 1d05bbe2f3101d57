// The databases of a session.
ghost use Rattle.std.specs.Prelude.{◌≡◌, None, option_map, IfOk, OnOk};
ghost use Rattle.std.specs.FinMap as finite;
ghost use Rattle.item_changes.specs.Scopes.{part_of};
ghost use Rattle.live_stores.specs.Live.{database_at};
ghost use Rattle.session_databases.specs.Parts.{scope_of, without_part, with_part, AreSoundDatabases};

use crate::entries::{
    SessionDatabase, give_some, give_whole, look_at_stores, take_some, take_whole, version_in,
};
use crate::opening::session_entries;
use clone_values::{Text, Texts};
use idb_base::NoMemory;
use idb_databases::Databases;
use idb_keys::Mode;
use index_tables::Tables;
use live_stores::Stores;
use std::alloc::Global;
use std::marker::Model;

/// The databases of a session, by name. Contracts see the items; what a transaction of a scope needs is taken out, and given back
/// when it has ended. After `NoMemory` nothing is said of them.
#[derive(Drop)]
pub struct SessionDatabases<T: Tables> {
    alloc: Global,
    items: Vec<(Text, SessionDatabase<T>)>,
}

impl<T: Tables> Model for SessionDatabases<T> {
    ghost use Rattle.std.specs.Coded.{codes};
    ghost use Rattle.std.specs.FinMap as finite;
    ghost use Rattle.indexed_records.specs.Contents.{records_code};
    ghost use Rattle.item_changes.specs.Items.{Items};
    ghost use Rattle.idb_databases.specs.Named.{names_code};
    ghost use Rattle.idb_databases.specs.Items.{database_code};

    ghost Value = { Items };

    ghost coded = { finite.code names_code (database_code (Prim.hlevel (codes, records_code))) };

    ghost use Rattle.sorted_table.specs.Tables.{IsSorted};
    ghost use Rattle.item_changes.specs.Items.{name_cmp};
    ghost use Rattle.session_databases.specs.Sessions.{session_items};

    ghost view = { λ a. session_items a.items.items };

    ghost invariant = { λ a. IsSorted name_cmp a.items.items };
}

impl<T: Tables> SessionDatabases<T> {
    /// No databases; it takes no memory.
    pub fn new(alloc: Global) -> Self
        ensures { result ≡ finite.empty }
    {
        SessionDatabases {
            alloc,
            items: Vec::new(alloc),
        }
    }

    /// The databases that stand when a session begins. Stores move, and none is copied; what was changed in them before can't be
    /// undone any more.
    pub fn from_databases(alloc: Global, databases: Databases<T>) -> Result<Self, NoMemory>
        ensures { IfOk result (λ d. d ≡ databases) }
    {
        let items = session_entries(alloc, databases)?;
        Ok(SessionDatabases { alloc, items })
    }

    /// Each store is as the standard asks, and stands under its own name: a look at each database tells. It takes no memory.
    pub fn stores_are_sound(&self)
        ensures { AreSoundDatabases self.now }
    {
        look_at_stores(&self.items);
    }

    /// The version of the database of this name; `None` where there is none. It takes no memory.
    pub fn version(&self, name: &Text) -> Option<u64>
        ensures { result ≡ option_map (λ d. d.version) (finite.get self.now name.now) }
    {
        version_in(&self.items, name)
    }

    /// Takes the part out that a transaction in this mode on the stores of these names needs: the version of its database and these
    /// stores, which move. In mode `VersionChange` it is the whole database.
    pub fn take(
        &mut self,
        mode: Mode,
        database: &Text,
        names: &Texts,
    ) -> Result<(Option<u64>, Stores<T>), NoMemory>
        ensures part { IfOk result (λ r.
            database_at r.0 r.1 ≡ part_of (scope_of mode database.now names.now) self.old) }
        ensures none { IfOk result (λ r. r.0 ≡ None → r.1 ≡ finite.empty) }
        ensures left { OnOk result
            (self.new ≡ without_part (scope_of mode database.now names.now) self.old) }
    {
        match mode {
            Mode::ReadOnly => take_some(self.alloc, &mut self.items, database, names),
            Mode::ReadWrite => take_some(self.alloc, &mut self.items, database, names),
            Mode::VersionChange => Ok(take_whole(self.alloc, &mut self.items, database)),
        }
    }

    /// Puts the part back that `take` gave, as the transaction left it. A database that it deleted has no version.
    pub fn give(
        &mut self,
        mode: Mode,
        database: &Text,
        names: &Texts,
        version: Option<u64>,
        stores: Stores<T>,
    ) -> Result<(), NoMemory>
        requires { version ≡ None → stores ≡ finite.empty }
        ensures given { OnOk result (self.new
            ≡ with_part (scope_of mode database.now names.now) self.old (database_at version stores)) }
    {
        match mode {
            Mode::ReadOnly => {
                give_some(self.alloc, &mut self.items, database, names, stores)?;
                return Ok(());
            }
            Mode::ReadWrite => {
                give_some(self.alloc, &mut self.items, database, names, stores)?;
                return Ok(());
            }
            Mode::VersionChange => {
                give_whole(self.alloc, &mut self.items, database, version, stores)?;
                return Ok(());
            }
        }
    }
}
