// A look at what a disk holds.
ghost use Rattle.std.specs.Prelude.{◌≡◌, ℕ, ◌≤◌, Ok, Err, IfOk, IsErrOf};
ghost use Rattle.edge_traits.specs.Faults.{Rose};
ghost use Rattle.disk_trait.specs.declared.area.Area.{Area};
ghost use Rattle.disk_trait.specs.Disk.{WhereTold, Untouched};
ghost use Rattle.gate_areas.specs.Choice.{ChoiceIs, ChoiceFits};
ghost use Rattle.gate_areas.specs.Found.{found_of};
ghost use Rattle.gate_areas.specs.LiveBatches.{Lives};
ghost use Rattle.gate_areas.specs.Scan.{IsGatePlace};
ghost use Rattle.log_history.specs.Found.{found};
ghost use Rattle.idb_recovery.specs.Lines.{lines_in, area_found};

use crate::error::RecoverError;
use crate::lines::{AreaFound, BatchLines, area_shown, dealt, lines_of};
use gate_areas::{Choice, Disk, LiveArea, collect, survey_areas};
use idb_databases::Databases;
use index_tables::Tables;
use log_replay::{ReplayError, replay};
use std::alloc::Global;

/// What a disk holds.
#[derive(Drop)]
pub struct Looked<T: Tables> {
    /// The databases.
    pub items: Databases<T>,
    /// Area 0.
    pub zero: AreaFound,
    /// Area 1.
    pub one: AreaFound,
}

/// Looks at what a disk holds, and changes nothing: the databases that a recovery would give, and what stands in each area. `Damaged` names
/// what a recovery would name. Each batch is read once, and those of the area that isn't live are not.
pub fn look<D: Disk, T: Tables>(alloc: Global, disk: &mut D) -> Result<Looked<T>, RecoverError>
    // What is found of what reads give.
    ensures items { IfOk result (λ looked. WhereTold (D.shows disk.old)
        (λ areas. found areas ≡ Ok looked.items)) }
    ensures zero { IfOk result (λ looked. WhereTold (D.shows disk.old)
        (λ areas. looked.zero ≡ area_found Area.Zero areas)) }
    ensures one { IfOk result (λ looked. WhereTold (D.shows disk.old)
        (λ areas. looked.one ≡ area_found Area.One areas)) }

    ensures damaged { (area : Area) (place : ℕ) → IsErrOf result (RecoverError.Damaged area place)
        → WhereTold (D.shows disk.old) (λ areas. found areas ≡ Err (area, place)) }
    ensures disk_fault { IsErrOf result RecoverError.DiskFault
        → Rose (D.shows disk.old).faults (D.shows disk.new).faults }

    ensures untouched { Untouched (D.shows disk.old) (D.shows disk.new) }
    ensures count { (D.shows disk.old).faults ≤ (D.shows disk.new).faults }
{
    let survey = survey_areas(disk)?;
    let held = held_by(alloc, disk, survey.choice)?;
    let Held { items, zero, one } = held;
    Ok(Looked {
        items,
        zero: area_shown(survey.zero, zero),
        one: area_shown(survey.one, one),
    })
}

/// The databases, and the lines of each area.
#[derive(Drop)]
struct Held<T: Tables> {
    items: Databases<T>,
    zero: BatchLines,
    one: BatchLines,
}

/// What both areas hold, by what was chosen of them.
fn held_by<D: Disk, T: Tables>(
    alloc: Global,
    disk: &mut D,
    choice: Choice,
) -> Result<Held<T>, RecoverError>
    requires chosen { WhereTold (D.shows disk.old) (ChoiceIs choice) }
    requires fits { ChoiceFits choice (D.shows disk.old).lengths }

    ensures items { IfOk result (λ held. WhereTold (D.shows disk.old)
        (λ areas. found areas ≡ Ok held.items)) }
    ensures zero { IfOk result (λ held. WhereTold (D.shows disk.old)
        (λ areas. held.zero ≡ lines_in Area.Zero (found_of areas))) }
    ensures one { IfOk result (λ held. WhereTold (D.shows disk.old)
        (λ areas. held.one ≡ lines_in Area.One (found_of areas))) }
    ensures damaged { (area : Area) (place : ℕ) → IsErrOf result (RecoverError.Damaged area place)
        → WhereTold (D.shows disk.old) (λ areas. found areas ≡ Err (area, place)) }
    ensures disk_fault { IsErrOf result RecoverError.DiskFault
        → Rose (D.shows disk.old).faults (D.shows disk.new).faults }
    ensures untouched { Untouched (D.shows disk.old) (D.shows disk.new) }
    ensures count { (D.shows disk.old).faults ≤ (D.shows disk.new).faults }
{
    match choice {
        Choice::New => Ok(Held {
            items: Databases::new(alloc),
            zero: BatchLines::new(alloc),
            one: BatchLines::new(alloc),
        }),
        Choice::Live(live) => held_at(alloc, disk, live),
        Choice::Damaged(area, place) => Err(RecoverError::Damaged { area, place }),
    }
}

/// What the live area holds.
fn held_at<D: Disk, T: Tables>(
    alloc: Global,
    disk: &mut D,
    live: LiveArea,
) -> Result<Held<T>, RecoverError>
    requires lives { WhereTold (D.shows disk.old) (Lives live) }
    requires fits { IsGatePlace live.gate ((D.shows disk.old).lengths live.area) }

    ensures items { IfOk result (λ held. WhereTold (D.shows disk.old)
        (λ areas. found areas ≡ Ok held.items)) }
    ensures zero { IfOk result (λ held. WhereTold (D.shows disk.old)
        (λ areas. held.zero ≡ lines_in Area.Zero (found_of areas))) }
    ensures one { IfOk result (λ held. WhereTold (D.shows disk.old)
        (λ areas. held.one ≡ lines_in Area.One (found_of areas))) }
    ensures damaged { (area : Area) (place : ℕ) → IsErrOf result (RecoverError.Damaged area place)
        → WhereTold (D.shows disk.old) (λ areas. found areas ≡ Err (area, place)) }
    ensures disk_fault { IsErrOf result RecoverError.DiskFault
        → Rose (D.shows disk.old).faults (D.shows disk.new).faults }
    ensures untouched { Untouched (D.shows disk.old) (D.shows disk.new) }
    ensures count { (D.shows disk.old).faults ≤ (D.shows disk.new).faults }
{
    let batches = collect(alloc, disk, live)?;
    match replay(alloc, &batches) {
        Ok(items) => {
            let lines = lines_of(alloc, &batches)?;
            let (zero, one) = dealt(alloc, live.area, lines);
            Ok(Held { items, zero, one })
        }
        Err(ReplayError::Damaged { place }) => Err(RecoverError::Damaged {
            area: live.area,
            place,
        }),
        Err(ReplayError::NoMemory) => Err(RecoverError::NoMemory),
    }
}
