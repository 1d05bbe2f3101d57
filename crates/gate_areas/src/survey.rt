// What is found on a disk, read without the payloads.
ghost use Rattle.std.specs.Prelude.{IfOk};
ghost use Rattle.edge_traits.specs.Faults.{HasFaultCause};
ghost use Rattle.disk_trait.specs.Disk.{WhereTold, Untouched};
ghost use Rattle.gate_areas.specs.Choice.{ChoiceIs, ChoiceFits};
ghost use Rattle.gate_areas.specs.Scan.{StandsAs};

use crate::choose::{Choice, choose};
use crate::scan::{Scan, scan_area};
use disk_trait::{Area, Disk, Failed};

/// What stands in each area, and what they make together.
#[derive(Clone, Copy, Debug)]
pub struct Survey {
    pub zero: Scan,
    pub one: Scan,
    pub choice: Choice,
}

/// Reads the framing of both areas, in one device call a batch and at most five more an area.
pub fn survey_areas<D: Disk>(disk: &mut D) -> Result<Survey, Failed>
    ensures zero { IfOk result (λ s. WhereTold (D.shows disk.old) (λ areas. StandsAs s.zero areas.zero)) }
    ensures one { IfOk result (λ s. WhereTold (D.shows disk.old) (λ areas. StandsAs s.one areas.one)) }
    ensures found { IfOk result (λ s. WhereTold (D.shows disk.old) (ChoiceIs s.choice)) }
    ensures fits { IfOk result (λ s. ChoiceFits s.choice (D.shows disk.old).lengths) }
    ensures untouched { Untouched (D.shows disk.old) (D.shows disk.new) }
    ensures cause { HasFaultCause (D.shows disk.old).faults (D.shows disk.new).faults result }
{
    let zero = scan_area(disk, Area::Zero)?;
    let one = scan_area(disk, Area::One)?;
    let choice = choose(zero, one);
    Ok(Survey { zero, one, choice })
}

/// Finds the live area. A fault of area 0 is named before one of area 1, and the first place of an area before others.
pub fn find_live<D: Disk>(disk: &mut D) -> Result<Choice, Failed>
    ensures found { IfOk result (λ choice. WhereTold (D.shows disk.old) (ChoiceIs choice)) }
    ensures fits { IfOk result (λ choice. ChoiceFits choice (D.shows disk.old).lengths) }
    ensures untouched { Untouched (D.shows disk.old) (D.shows disk.new) }
    ensures cause { HasFaultCause (D.shows disk.old).faults (D.shows disk.new).faults result }
{
    Ok(survey_areas(disk)?.choice)
}
