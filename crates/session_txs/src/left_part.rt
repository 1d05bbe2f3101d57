// The part of the databases that a transaction had.
ghost use Rattle.std.specs.Prelude.{◌≡◌, [], OnOk};
ghost use Rattle.item_changes.specs.Items.{Items};
ghost use Rattle.item_changes.specs.Effects.{applied_all};
ghost use Rattle.item_changes.specs.Scopes.{part_of};
ghost use Rattle.session_databases.specs.Parts.{without_part, AreSoundDatabases};
ghost use Rattle.session_txs.specs.Running.{LeavesItsPart};

use clone_values::{Text, Texts};
use idb_base::NoMemory;
use idb_calls::Deltas;
use idb_keys::Mode;
use index_tables::Tables;
use live_stores::LiveStores;
use session_databases::{SessionDatabases, part_laws};
use std::marker::Model;
use std::snapshot::Snapshot;

/// The part of the databases that a transaction had, which isn't back yet. Contracts see its scope, the part as it was when the
/// transaction began, and what was changed in it.
#[derive(Drop)]
pub struct LeftPart<T: Tables> {
    pub(crate) mode: Mode,
    pub(crate) name: Text,
    pub(crate) names: Texts,
    pub(crate) stores: LiveStores<T>,
    pub(crate) changes: Snapshot<Deltas>,
}

impl<T: Tables> Model for LeftPart<T> {
    ghost use Rattle.session_databases.specs.Parts.{scope_of};
    ghost use Rattle.session_txs.specs.Codes.{part_code};
    ghost use Rattle.session_txs.specs.Running.{PartState};

    ghost Value = { PartState };

    ghost coded = { part_code };

    ghost use Rattle.session_txs.specs.Keeping.{IsLeft};

    ghost view = { λ a. record {
      scope = scope_of a.mode a.name a.names;
      part = a.stores.before;
      changes = a.changes.value;
    } };

    ghost invariant = { λ a. IsLeft (scope_of a.mode a.name a.names) a.stores.before a.stores.database
        a.changes.value };
}

impl<T: Tables> LeftPart<T> {
    /// Each store is as the standard asks of the databases with it, as the transaction left it. It does nothing.
    pub fn stand_sound(&self, databases: &SessionDatabases<T>)
        ensures { (items : Items) → databases.now ≡ without_part self.now.scope items
            → self.now.part ≡ part_of self.now.scope items
            → AreSoundDatabases (applied_all items self.now.changes) }
    {
        part_laws();
        self.stores.stand_sound();
        databases.stores_are_sound();
    }

    /// Puts it back into the databases, as the transaction left it. After `NoMemory` nothing is said of them.
    pub fn keep(self, databases: &mut SessionDatabases<T>) -> Result<(), NoMemory>
        ensures { OnOk result (LeavesItsPart self self.changes databases.old databases.new) }
    {
        part_laws();
        let LeftPart {
            mode,
            name,
            names,
            stores,
            ..
        } = self;
        let version = stores.version();
        databases.give(mode, &name, &names, version, stores.into_stores())?;
        Ok(())
    }

    /// Puts it back into the databases as it was when the transaction began. After `NoMemory` nothing is said of them.
    pub fn take_back(self, databases: &mut SessionDatabases<T>) -> Result<(), NoMemory>
        ensures { OnOk result (LeavesItsPart self [] databases.old databases.new) }
    {
        part_laws();
        let LeftPart {
            mode,
            name,
            names,
            stores,
            ..
        } = self;
        let mut stores = stores;
        stores.restore();
        let version = stores.version();
        databases.give(mode, &name, &names, version, stores.into_stores())?;
        Ok(())
    }
}
