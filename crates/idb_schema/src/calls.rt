// What an upgrade may ask of a schema.
use crate::identities::StoreId;
use clone_values::{PathSpec, Text};

/// A call that changes the schema (Indexed Database API 3.0, "The IDBDatabase interface" and "The IDBObjectStore interface"). Only an upgrade transaction makes one.
#[derive(Debug, Drop)]
pub enum SchemaCall {
    /// `createObjectStore`; `auto` asks for a key generator.
    CreateStore {
        name: Text,
        path: Option<PathSpec>,
        auto: bool,
    },
    /// `deleteObjectStore`.
    DropStore {
        name: Text,
    },
    /// `createIndex`.
    CreateIndex {
        store: StoreId,
        name: Text,
        path: PathSpec,
        unique: bool,
        multi: bool,
    },
    /// `deleteIndex`.
    DropIndex {
        store: StoreId,
        name: Text,
    },
}
