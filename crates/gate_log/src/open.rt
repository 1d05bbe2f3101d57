// What is found on a disk, and a log over it.
ghost use Rattle.std.specs.Prelude.{◌≡◌, ◌⊎◌, ℕ, ◌≤◌, IfOk, IfErr, OnErr, IsErrOf};
ghost use Rattle.edge_traits.specs.Faults.{Rose};
ghost use Rattle.disk_trait.specs.declared.area.Area.{Area};
ghost use Rattle.disk_trait.specs.Areas.{other_area};
ghost use Rattle.disk_trait.specs.Disk.{WhereTold, EachImage, NoNewImage, IsSettled, ComesFrom, LeavesOnly};
ghost use Rattle.gate_areas.specs.Found.{Nothing, Damaged, found_of};
ghost use Rattle.gate_areas.specs.LiveBatches.{Lives};
ghost use Rattle.gate_areas.specs.Scan.{IsGatePlace};
ghost use Rattle.gate_log.specs.Causes.{HasReadCause};
ghost use Rattle.gate_log.specs.Opened.{IsOpened, IsOldOr, SameFound};

use crate::error::LogError;
use gate_areas::{
    Area, Batches, Choice, Disk, LiveArea, collect, find_live, make_area, repair, sync_both,
};
use std::alloc::Global;

// The area that isn't this one.
pub(crate) fn other(area: Area) -> Area
    ensures { result ≡ other_area area }
{
    match area {
        Area::Zero => Area::One,
        Area::One => Area::Zero,
    }
}

// A log as it was opened.
#[derive(Drop)]
pub(crate) struct Opened {
    pub live: LiveArea,
    pub batches: Batches,
}

// A new log in area 0, where both are blank.
fn start_new<D: Disk>(alloc: Global, disk: &mut D) -> Result<Opened, LogError>
    requires settled { IsSettled (D.shows disk.old) }
    requires blank { WhereTold (D.shows disk.old) (λ areas. found_of areas ≡ Nothing) }

    ensures opened { IfOk result (λ opened.
        IsOpened (D.shows disk.old) (D.shows disk.new) opened.live opened.batches) }
    ensures any_moment { LeavesOnly (D.shows disk.old) (D.shows disk.new)
        (ComesFrom SameFound (D.shows disk.old)) }
    ensures cause { HasReadCause (D.shows disk.old).faults (D.shows disk.new).faults result }
{
    let live = make_area(disk, Area::Zero, 1)?;
    Ok(Opened {
        live,
        batches: Batches::new(alloc),
    })
}

// The log over the live area, whose end it repairs.
fn go_on<D: Disk>(alloc: Global, disk: &mut D, live: LiveArea) -> Result<Opened, LogError>
    requires settled { IsSettled (D.shows disk.old) }
    requires fits { IsGatePlace live.gate ((D.shows disk.old).lengths live.area) }
    requires lives { WhereTold (D.shows disk.old) (Lives live) }

    ensures opened { IfOk result (λ opened.
        IsOpened (D.shows disk.old) (D.shows disk.new) opened.live opened.batches) }
    ensures any_moment { LeavesOnly (D.shows disk.old) (D.shows disk.new)
        (ComesFrom SameFound (D.shows disk.old)) }
    ensures cause { HasReadCause (D.shows disk.old).faults (D.shows disk.new).faults result }
{
    let batches = collect(alloc, disk, live)?;
    repair(disk, live)?;
    Ok(Opened { live, batches })
}

// Opens what is found, on a disk of which a stop leaves what reads give.
fn resume<D: Disk>(alloc: Global, disk: &mut D) -> Result<Opened, LogError>
    requires { IsSettled (D.shows disk.old) }

    ensures opened { IfOk result (λ opened.
        IsOpened (D.shows disk.old) (D.shows disk.new) opened.live opened.batches) }
    ensures any_moment { LeavesOnly (D.shows disk.old) (D.shows disk.new)
        (ComesFrom SameFound (D.shows disk.old)) }
    ensures count { (D.shows disk.old).faults ≤ (D.shows disk.new).faults }
    ensures disk_fault { IsErrOf result LogError.DiskFault
        → Rose (D.shows disk.old).faults (D.shows disk.new).faults }
    ensures damaged { (area : Area) (place : ℕ) → IsErrOf result (LogError.Damaged area place)
        → WhereTold (D.shows disk.old) (λ areas. found_of areas ≡ Damaged area place) }
{
    match find_live(disk)? {
        Choice::New => start_new(alloc, disk),
        Choice::Live(live) => go_on(alloc, disk, live),
        Choice::Damaged(area, place) => Err(LogError::Damaged { area, place }),
    }
}

// Syncs both areas, and opens what is found.
pub(crate) fn open_disk<D: Disk>(alloc: Global, disk: &mut D) -> Result<Opened, LogError>
    ensures opened { IfOk result (λ opened.
        IsOpened (D.shows disk.old) (D.shows disk.new) opened.live opened.batches) }
    ensures any_moment { LeavesOnly (D.shows disk.old) (D.shows disk.new)
        (IsOldOr (D.shows disk.old) (ComesFrom SameFound (D.shows disk.old))) }
    ensures left { OnErr result (NoNewImage (D.shows disk.old) (D.shows disk.new)
        ⊎ EachImage (D.shows disk.new) (ComesFrom SameFound (D.shows disk.old))) }
    ensures left_synced { IfErr result (λ error. (error ≡ LogError.DiskFault → ⊥)
        → EachImage (D.shows disk.new) (ComesFrom SameFound (D.shows disk.old))) }
    ensures count { (D.shows disk.old).faults ≤ (D.shows disk.new).faults }
    ensures disk_fault { IsErrOf result LogError.DiskFault
        → Rose (D.shows disk.old).faults (D.shows disk.new).faults }
    ensures damaged { (area : Area) (place : ℕ) → IsErrOf result (LogError.Damaged area place)
        → WhereTold (D.shows disk.old) (λ areas. found_of areas ≡ Damaged area place) }
{
    sync_both(disk)?;
    resume(alloc, disk)
}
