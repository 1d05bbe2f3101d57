// Where the blocks of a client stand, by their names.
ghost use Rattle.std.specs.Prelude.{◌≡◌, ◌+◌, IfOk, OnOk, string_bytes};
ghost use Rattle.serde_json.specs.View.{members_view};
ghost use Rattle.script_reading.specs.BlockPlaces.{with_block_at, block_places, places_seen};

use idb_base::NoMemory;
use script_statements::BlockPlace;
use serde_json::{Map, Value as Json};
use std::alloc::Global;
use std::collections::BTreeMap;

/// The place of each block among those of its client.
pub(crate) type BlockPlaces = BTreeMap<String, BlockPlace>;

/// Where the block of this name stands.
#[tactic(auto, unfolding(crate::specs::BlockPlaces::places_seen))]
pub(crate) fn place_of(places: &BlockPlaces, name: &str) -> Option<BlockPlace>
    ensures { result ≡ places_seen places.now name.now }
{
    places.get(name).copied()
}

// One block more.
#[tactic(auto, using(crate::proofs::BlockPlacesLemmas::all_noted))]
fn note(places: &mut BlockPlaces, name: String, place: BlockPlace) -> Result<(), NoMemory>
    ensures { OnOk result (places_seen places.new
        ≡ with_block_at (string_bytes name) place (places_seen places.old)) }
{
    places.insert(name, place)?;
    Ok(())
}

// The next place. There is no memory for so many blocks that it has none.
fn next_place(place: BlockPlace) -> Result<BlockPlace, NoMemory>
    ensures { IfOk result (λ next. next ≡ place + 1) }
{
    match place.checked_add(1) {
        Some(next) => Ok(next),
        None => Err(NoMemory),
    }
}

/// The places of a client's blocks, which are these members.
#[tactic(auto, unfolding(crate::specs::BlockPlaces::block_places, crate::specs::BlockPlaces::places_seen))]
pub(crate) fn places_of(alloc: Global, members: &Map<String, Json>) -> Result<BlockPlaces, NoMemory>
    ensures { IfOk result (λ places. places_seen places ≡ block_places (members_view members.now.entries)) }
{
    let mut places = BTreeMap::new(alloc);
    let mut place = 0;
    for (name, _json) in members.iter() {
        note(&mut places, String::from_str(alloc, name.as_str())?, place)?;
        place = next_place(place)?;
    }
    Ok(places)
}
