// Databases with their stores, by name.
//
// Layers above hold a `Databases`, which contracts see as the items: finite maps by name, the stores plain, without their
// past. Each store and each database in it is as the standard asks, by its type.
#![tactic(auto)]

mod databases;
mod limits;
mod named;
mod versions;

pub use databases::{Database, Databases};
pub use limits::{GREATEST_DATABASE_COUNT, GREATEST_STORE_COUNT, GREATEST_VERSION};
pub use named::{find_in, place_in};
pub use versions::Versions;
