// The schema of a database: its name, its version, and the definitions of its object stores and indexes.
//
// Contracts see the definitions as plain data, and a schema as its stores by name, each with a number that names it for
// as long as it stands: a change of other stores and indexes never moves what a `StoreId` or an `IndexId` names.
#![tactic(auto)]

mod calls;
mod changes;
mod database_schema;
mod definition_lists;
mod definitions;
mod entries;
mod identities;
mod places;
mod schema_laws;

pub use calls::SchemaCall;
pub use database_schema::{Schema, Schemas};
pub use definition_lists::{IndexInfos, StoreInfos};
pub use definitions::{IndexInfo, StoreInfo};
pub use identities::{IndexId, StoreId};
pub use schema_laws::{change_laws, given_laws, id_laws, name_laws, sound_laws};
