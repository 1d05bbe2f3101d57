// Stores that move from one place to another.
ghost use Rattle.std.specs.Prelude.{◌≡◌, OnOk};
ghost use Rattle.std.specs.FinMap as finite;
ghost use Rattle.session_databases.specs.Parts.{is_not_among, put_if, with_stores_of};

use clone_values::{Text, Texts};
use idb_base::NoMemory;
use index_tables::Tables;
use live_stores::Stores;

/// Moves the stores of these names, as far as there are such.
pub(crate) fn move_stores<T: Tables>(
    names: &Texts,
    from: &mut Stores<T>,
    to: &mut Stores<T>,
) -> Result<(), NoMemory>
    ensures moved { OnOk result (to.new ≡ with_stores_of names.now from.old to.old) }
    ensures left { OnOk result (from.new ≡ finite.retain_keys from.old (is_not_among names.now)) }
{
    for place in 0..names.len() {
        match names.at(place) {
            Some(name) => move_store(name, from, to)?,
            None => unreachable!(),
        }
    }
    Ok(())
}

/// Moves the store of this name, if there is one.
fn move_store<T: Tables>(
    name: &Text,
    from: &mut Stores<T>,
    to: &mut Stores<T>,
) -> Result<(), NoMemory>
    ensures moved { OnOk result (to.new ≡ put_if to.old name.now (finite.get from.old name.now)) }
    ensures left { OnOk result (from.new ≡ finite.remove from.old name.now) }
{
    let _count = from.len();
    match from.remove(name) {
        Some(held) => match to.insert(held) {
            Ok(()) => return Ok(()),
            Err(_) => return Err(NoMemory),
        },
        None => return Ok(()),
    }
}
