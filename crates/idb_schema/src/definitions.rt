// Definitions of object stores and indexes (Indexed Database API 3.0, "Object store" and "Index").
ghost use Rattle.std.specs.Prelude.{◌≡◌, IfOk};

use crate::definition_lists::{IndexInfos, copy_indexes};
use clone_values::Text;
use idb_base::NoMemory;
use path_grammar::KeyPath;
use std::alloc::Global;

/// The definition of an index (Indexed Database API 3.0, "Index").
#[derive(Debug, Drop)]
pub struct IndexInfo {
    /// The index's name.
    pub name: Text,
    /// Where a record's key in the index stands in its value.
    pub path: KeyPath,
    /// No two records have one key in the index.
    pub unique: bool,
    /// An array at the path gives a key for each of its members.
    pub multi: bool,
}

/// The definition of an object store (Indexed Database API 3.0, "Object store").
#[derive(Debug, Drop)]
pub struct StoreInfo {
    /// The store's name.
    pub name: Text,
    /// Where a record's key stands in its value; `None` where keys are given beside the values.
    pub path: Option<KeyPath>,
    /// The store has a key generator.
    pub auto: bool,
    /// The store's indexes, in the order in which they were created.
    pub indexes: IndexInfos,
}

impl IndexInfo {
    /// An equal definition.
    pub fn copy(&self, alloc: Global) -> Result<IndexInfo, NoMemory>
        ensures { IfOk result (λ r. r ≡ self.now) }
    {
        Ok(IndexInfo {
            name: self.name.copy(alloc)?,
            path: self.path.copy(alloc)?,
            unique: self.unique,
            multi: self.multi,
        })
    }
}

impl StoreInfo {
    /// An equal definition.
    pub fn copy(&self, alloc: Global) -> Result<StoreInfo, NoMemory>
        ensures { IfOk result (λ r. r ≡ self.now) }
    {
        Ok(StoreInfo {
            name: self.name.copy(alloc)?,
            path: copy_path(alloc, &self.path)?,
            auto: self.auto,
            indexes: copy_indexes(alloc, &self.indexes)?,
        })
    }
}

fn copy_path(alloc: Global, path: &Option<KeyPath>) -> Result<Option<KeyPath>, NoMemory>
    ensures { IfOk result (λ r. r ≡ path.now) }
{
    match path {
        Some(path) => Ok(Some(path.copy(alloc)?)),
        None => Ok(None),
    }
}
