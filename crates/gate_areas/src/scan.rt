// The framing of an area, read without its payloads.
ghost use Rattle.std.specs.Prelude.{◌≡◌, ◌+◌, ◌-◌, ◌^◌, ◌<◌, ◌≤◌, min, ℕ, List, [], ◌∷◌, ◌++◌, length, take, drop, IfOk};
ghost use Rattle.edge_traits.specs.Faults.{HasFaultCause};
ghost use Rattle.disk_trait.specs.Areas.{area_of};
ghost use Rattle.disk_trait.specs.Disk.{WhereTold, Untouched};
ghost use Rattle.gate_areas.specs.Fronts.{IsFront};
ghost use Rattle.gate_areas.specs.Scan.{GateIs, GateFits, HeadIs, HeadFits, ScanIs, ScanFits};

use disk_trait::{Area, Disk, Failed};

const OPEN: u8 = 0xa5;

const MAGIC: [u8; 8] = *b"IDBLOG01";

/// What stands at a gate.
#[derive(Clone, Copy, Debug)]
pub enum Gate {
    /// It isn't open.
    Shut,
    /// It is open, and the length or the payload is not whole.
    Broken,
    /// It is open, and a payload of this length stands behind it.
    Open(u64),
}

/// What stands at the head of an area.
#[derive(Clone, Copy, Debug)]
pub enum Head {
    /// The area is blank.
    Blank,
    /// There is a fault at this place.
    Broken(u64),
    /// A whole head with this generation, and a first gate behind it.
    Open(u64),
}

/// The framing of an area.
#[derive(Clone, Copy, Debug)]
pub enum Scan {
    /// The area is blank.
    Blank,
    /// There is a fault at this place.
    Broken(u64),
    /// The area is open, with a generation, and the place of the first gate that isn't open.
    Open { generation: u64, gate: u64 },
}

// What the bytes at a place say of the gate there: nine of them, or as many as stand before `end`. An area is read as
// if it ended with the byte at `end`, whatever that byte is.
pub(crate) fn gate_in(front: &[u8], place: u64, end: u64) -> Gate
    requires place { place ≤ end }
    requires front { length front.now ≡ min (end - place) 9 }

    ensures gate { (bytes : List ℕ) (last : ℕ) → end ≤ length bytes
        → front.now ≡ take (min (end - place) 9) (drop place bytes)
        → GateIs result (drop place (take end bytes ++ last ∷ [])) }
    ensures fits { GateFits result place end }
{
    if place == end {
        return Gate::Shut;
    }
    if front[0] != OPEN {
        return Gate::Shut;
    }
    if end - place < 9 {
        return Gate::Broken;
    }
    let mut length = [0; 8];
    length.copy_from_slice(&front[1..9]);
    let length = u64::from_be_bytes(length);
    if length > end - place - 9 {
        return Gate::Broken;
    }
    Gate::Open(length)
}

/// Reads the gate at a place in one device call at most, as if the area ended with the byte at `end`, whatever that byte is.
pub(crate) fn read_gate<D: Disk>(
    disk: &mut D,
    area: Area,
    end: u64,
    place: u64,
) -> Result<Gate, Failed>
    requires end { end ≤ (D.shows disk.old).lengths area }
    requires place { place ≤ end }

    ensures gate { IfOk result (λ gate. WhereTold (D.shows disk.old) (λ areas. (last : ℕ)
        → GateIs gate (drop place (take end (area_of area areas) ++ last ∷ [])))) }
    ensures fits { IfOk result (λ gate. GateFits gate place end) }
    ensures untouched { Untouched (D.shows disk.old) (D.shows disk.new) }
    ensures cause { HasFaultCause (D.shows disk.old).faults (D.shows disk.new).faults result }
{
    if place == end {
        return Ok(Gate::Shut);
    }
    let mut nine = [0; 9];
    let front = &mut nine[..(end - place).min(9) as usize];
    disk.read(area, place, front)?;
    Ok(gate_in(front, place, end))
}

/// Reads the head of an area, whose length this is.
pub fn read_head<D: Disk>(disk: &mut D, area: Area, len: u64) -> Result<Head, Failed>
    requires { len ≡ (D.shows disk.old).lengths area }

    ensures head { IfOk result (λ head. WhereTold (D.shows disk.old)
        (λ areas. HeadIs head (area_of area areas))) }
    ensures fits { IfOk result (λ head. HeadFits head len) }
    ensures untouched { Untouched (D.shows disk.old) (D.shows disk.new) }
    ensures cause { HasFaultCause (D.shows disk.old).faults (D.shows disk.new).faults result }
{
    if len < 2 {
        return Ok(Head::Blank);
    }
    let mut gate = [0];
    disk.read(area, 0, &mut gate)?;
    if gate[0] != OPEN {
        return Ok(Head::Blank);
    }
    if len < 9 {
        return Ok(Head::Broken(1));
    }
    let mut magic = [0; 8];
    disk.read(area, 1, &mut magic)?;
    if magic != MAGIC {
        return Ok(Head::Broken(1));
    }
    if len < 17 {
        return Ok(Head::Broken(9));
    }
    let mut number = [0; 8];
    disk.read(area, 9, &mut number)?;
    let generation = u64::from_be_bytes(number);
    if generation == 0 {
        return Ok(Head::Broken(9));
    }
    if len == 17 {
        return Ok(Head::Broken(17));
    }
    Ok(Head::Open(generation))
}

/// Reads the framing of an area.
pub fn scan_area<D: Disk>(disk: &mut D, area: Area) -> Result<Scan, Failed>
    ensures scan { IfOk result (λ scan. WhereTold (D.shows disk.old)
        (λ areas. ScanIs scan (area_of area areas))) }
    ensures fits { IfOk result (λ scan. ScanFits scan ((D.shows disk.old).lengths area)) }
    ensures untouched { Untouched (D.shows disk.old) (D.shows disk.new) }
    ensures cause { HasFaultCause (D.shows disk.old).faults (D.shows disk.new).faults result }
{
    let len = disk.len(area)?;
    match read_head(disk, area, len)? {
        Head::Blank => Ok(Scan::Blank),
        Head::Broken(place) => Ok(Scan::Broken(place)),
        Head::Open(generation) => scan_batches(disk, area, generation, len - 1),
    }
}

// Goes from gate to gate, of an area with a whole head whose last byte is at `end`.
fn scan_batches<D: Disk>(
    disk: &mut D,
    area: Area,
    generation: u64,
    end: u64,
) -> Result<Scan, Failed>
    requires last { (D.shows disk.old).lengths area ≡ end + 1 }
    requires room { 17 ≤ end }
    requires limit { end + 1 ≤ 2 ^ 63 - 1 }
    requires head { WhereTold (D.shows disk.old)
        (λ areas. IsFront generation 17 (take 17 (area_of area areas)) []) }

    ensures scan { IfOk result (λ scan. WhereTold (D.shows disk.old)
        (λ areas. ScanIs scan (area_of area areas))) }
    ensures fits { IfOk result (λ scan. ScanFits scan ((D.shows disk.old).lengths area)) }
    ensures untouched { Untouched (D.shows disk.old) (D.shows disk.new) }
    ensures cause { HasFaultCause (D.shows disk.old).faults (D.shows disk.new).faults result }
{
    let mut place = 17;
    'batches: loop {
        match read_gate(disk, area, end, place)? {
            Gate::Shut => return Ok(Scan::Open {
                generation,
                gate: place,
            }),
            Gate::Broken => return Ok(Scan::Broken(place + 1)),
            Gate::Open(length) => place += 9 + length,
        }
    }
}
