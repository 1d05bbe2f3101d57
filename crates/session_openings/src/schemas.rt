// The schemas of databases, as a desk is told them.
ghost use Rattle.std.specs.Prelude.{◌≡◌, map, IfOk};
ghost use Rattle.std.specs.FinMap as finite;
ghost use Rattle.std.specs.List.{AllByRecursion};
ghost use Rattle.idb_schema.specs.Schemas.{IsSchema};
ghost use Rattle.idb_databases.specs.Views.{database_entry};
ghost use Rattle.session_openings.specs.Opened.{infos_in, opened_schema};

use idb_base::NoMemory;
use idb_databases::{Database, Databases, Versions};
use idb_schema::{Schema, Schemas, StoreInfos};
use index_tables::Tables;
use std::alloc::Global;

/// The schema of each database, in the order of the names.
pub(crate) fn schemas_of<T: Tables>(
    alloc: Global,
    databases: &Databases<T>,
) -> Result<Schemas, NoMemory>
    ensures made { IfOk result (λ schemas. schemas ≡ map opened_schema (finite.entries databases.now)) }
    ensures valid { IfOk result (λ schemas. AllByRecursion IsSchema schemas) }
{
    let mut schemas = Schemas::new(alloc);
    for place in 0..databases.len() {
        match databases.at(place) {
            Some(database) => schemas.push(schema_of(alloc, database)?)?,
            None => unreachable!(),
        }
    }
    Ok(schemas)
}

fn schema_of<T: Tables>(alloc: Global, database: &Database<T>) -> Result<Schema, NoMemory>
    ensures made { IfOk result (λ schema. schema ≡ opened_schema (database_entry database.now)) }
    ensures valid { IfOk result IsSchema }
{
    let infos = infos_of(alloc, &database.stores)?;
    let schema = Schema::new(alloc, database.name.copy(alloc)?, database.version, infos)?;
    let _count = schema.len();
    Ok(schema)
}

/// The definitions of the stores, in the order of the names.
fn infos_of<T: Tables>(alloc: Global, stores: &Versions<T>) -> Result<StoreInfos, NoMemory>
    ensures { IfOk result (λ infos. infos ≡ infos_in stores.now) }
{
    let mut infos = StoreInfos::new(alloc);
    for place in 0..stores.len() {
        match stores.at(place) {
            Some(store) => infos.push(store.info().copy(alloc)?)?,
            None => unreachable!(),
        }
    }
    Ok(infos)
}
