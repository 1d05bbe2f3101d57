// Which area is live.
ghost use Rattle.std.specs.Prelude.{◌≡◌, ℕ, ◌<◌};
ghost use Rattle.disk_trait.specs.declared.area.Area.{Area};
ghost use Rattle.disk_trait.specs.Areas.{Areas};
ghost use Rattle.gate_areas.specs.Scan.{ScanIs, ScanFits};
ghost use Rattle.gate_areas.specs.Choice.{ChoiceEnds, ChoiceFits};

use crate::live::LiveArea;
use crate::scan::Scan;
use disk_trait::Area;

/// What two areas make together.
#[derive(Clone, Copy, Debug)]
pub enum Choice {
    /// Both are blank.
    New,
    /// The live area. Its gate is the first that isn't open.
    Live(LiveArea),
    /// The first fault, at this place.
    Damaged(Area, u64),
}

/// Which of two areas is live.
pub fn choose(zero: Scan, one: Scan) -> Choice
    ensures choice { (areas : Areas) → ScanIs zero areas.zero → ScanIs one areas.one
        → ChoiceEnds result areas }
    ensures fits { (lengths : Area → ℕ) → ScanFits zero (lengths Area.Zero) → ScanFits one (lengths Area.One)
        → ChoiceFits result lengths }
{
    match zero {
        Scan::Broken(place) => Choice::Damaged(Area::Zero, place),
        Scan::Blank => match one {
            Scan::Broken(place) => Choice::Damaged(Area::One, place),
            Scan::Blank => Choice::New,
            Scan::Open { generation, gate } => Choice::Live(LiveArea {
                area: Area::One,
                generation,
                gate,
            }),
        },
        Scan::Open { generation, gate } => match one {
            Scan::Broken(place) => Choice::Damaged(Area::One, place),
            Scan::Blank => Choice::Live(LiveArea {
                area: Area::Zero,
                generation,
                gate,
            }),
            Scan::Open {
                generation: other,
                gate: end,
            } => greater(generation, gate, other, end),
        },
    }
}

// The greater of two generations, that of area 0 first, each with the place of its last gate.
fn greater(zero: u64, gate: u64, one: u64, end: u64) -> Choice
    ensures same { zero ≡ one → result ≡ Choice.Damaged Area.One 9 }
    ensures first { one < zero
        → result ≡ Choice.Live (record { area = Area.Zero; generation = zero; gate = gate }) }
    ensures second { zero < one
        → result ≡ Choice.Live (record { area = Area.One; generation = one; gate = end }) }
{
    if zero == one {
        Choice::Damaged(Area::One, 9)
    } else if one < zero {
        Choice::Live(LiveArea {
            area: Area::Zero,
            generation: zero,
            gate,
        })
    } else {
        Choice::Live(LiveArea {
            area: Area::One,
            generation: one,
            gate: end,
        })
    }
}
