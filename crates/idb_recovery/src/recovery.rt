// Recovery.
ghost use Rattle.std.specs.Prelude.{◌≡◌, ◌⊎◌, ℕ, ◌≤◌, None, Ok, Err, IfOk, IfErr};
ghost use Rattle.edge_traits.specs.Faults.{Rose};
ghost use Rattle.disk_trait.specs.declared.area.Area.{Area};
ghost use Rattle.disk_trait.specs.Disk.{WhereTold, EachImage, NoNewImage, ComesFrom, LeavesOnly};
ghost use Rattle.gate_log.specs.Log.{disk_of, failed_at};
ghost use Rattle.gate_log.specs.Opened.{IsOldOr, SameFound};
ghost use Rattle.log_history.specs.Found.{found};
ghost use Rattle.idb_recovery.specs.Recovered.{GivesItems, SameAnswer, disk_recovered};

use crate::error::RecoverError;
use gate_log::{Disk, GateLog};
use idb_databases::Databases;
use index_tables::Tables;
use log_replay::{ReplayError, replay};
use std::alloc::Global;

/// A log that was opened, and the databases that its batches give.
#[derive(Drop)]
pub struct Opened<D: Disk, T: Tables> {
    /// The log.
    pub log: GateLog<D>,
    /// The databases.
    pub items: Databases<T>,
}

/// Opens the log that a disk holds, and gives its databases. Two blank areas give a new log, and no databases. `Damaged` names the lesser
/// area first, and its first place; a batch that gives none is a fault of the live area, at its payload. Each batch is read once. After an
/// error the disk is handed back, and may be recovered again.
pub fn recover<D: Disk, T: Tables>(
    alloc: Global,
    disk: D,
) -> Result<Opened<D, T>, (RecoverError, D)>
    // What is found of what reads gave, and a log that gives it.
    ensures items { IfOk result (λ opened.
        WhereTold (D.shows disk) (λ areas. found areas ≡ Ok opened.items)) }
    ensures gives { IfOk result (λ opened. GivesItems D.shows (D.shows disk) opened.log opened.items) }
    ensures sealed { IfOk result (λ opened. EachImage (D.shows (disk_of opened.log))
        (λ image. found image ≡ Ok opened.items)) }
    ensures faultless { IfOk result (λ opened. failed_at opened.log ≡ None) }

    ensures damaged { IfErr result (λ err. (area : Area) (place : ℕ) → err.0 ≡ RecoverError.Damaged area place
        → WhereTold (D.shows disk) (λ areas. found areas ≡ Err (area, place))) }
    ensures disk_fault { IfErr result (λ err. err.0 ≡ RecoverError.DiskFault
        → Rose (D.shows disk).faults (D.shows err.1).faults) }

    // A stop at any moment leaves an image from before or, from the two syncs on, one that is found as the same.
    ensures any_moment { LeavesOnly (D.shows disk) (D.shows (disk_recovered result))
        (IsOldOr (D.shows disk) (ComesFrom SameFound (D.shows disk))) }
    ensures left { IfErr result (λ err. NoNewImage (D.shows disk) (D.shows err.1)
        ⊎ EachImage (D.shows err.1) (ComesFrom SameAnswer (D.shows disk))) }
    ensures left_synced { IfErr result (λ err. (err.0 ≡ RecoverError.DiskFault → ⊥)
        → EachImage (D.shows err.1) (ComesFrom SameAnswer (D.shows disk))) }

    ensures count { (D.shows disk).faults ≤ (D.shows (disk_recovered result)).faults }
{
    match GateLog::load(alloc, disk) {
        Ok(loaded) => {
            let (log, batches) = loaded;
            let _ = log.failed();
            match replay(alloc, &batches) {
                Ok(items) => Ok(Opened { log, items }),
                Err(ReplayError::Damaged { place }) => {
                    let area = log.area();
                    Err((RecoverError::Damaged { area, place }, log.into_disk()))
                }
                Err(ReplayError::NoMemory) => Err((RecoverError::NoMemory, log.into_disk())),
            }
        }
        Err((error, disk)) => Err((RecoverError::from(error), disk)),
    }
}
