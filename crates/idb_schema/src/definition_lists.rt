// Lists of definitions, which contracts see as lists.
ghost use Rattle.std.specs.Prelude.{◌≡◌, true, ◌<◌, ◌≤◌, [], ◌∷◌, ◌++◌, length, slice_get, insert, remove, Some, IfSome, IfNone, OnOk, OnErr, IfOk};
ghost use Rattle.std.specs.Option.{option_copied};
ghost use Rattle.idb_base.specs.Lists.{StandsAt};
ghost use Rattle.clone_values.specs.Names.{is_rising};
ghost use Rattle.idb_schema.specs.Definitions.{store_names, index_named};

use crate::definitions::{IndexInfo, StoreInfo};
use clone_values::Text;
use idb_base::{Listed, NoMemory};
use std::alloc::Global;
use std::marker::Model;

/// The indexes of a store, in the order in which they were created.
pub type IndexInfos = Listed<IndexInfo>;

/// The place of the index of this name; `None` where there is none.
pub(crate) fn index_place(indexes: &IndexInfos, name: &Text) -> Option<usize>
    ensures { result ≡ index_named indexes.now name.now }
{
    let name = name.as_str();
    indexes
        .as_slice()
        .iter()
        .position(|i| i.name.as_str() == name)
}

/// An equal list.
pub(crate) fn copy_indexes(alloc: Global, indexes: &IndexInfos) -> Result<IndexInfos, NoMemory>
    ensures { IfOk result (λ r. r ≡ indexes.now) }
{
    let mut copies = Vec::new(alloc);
    for item in indexes.as_slice() {
        copies.push(item.copy(alloc)?)?;
    }
    Ok(IndexInfos::from_vec(copies))
}

/// The stores of a database, by the bytes of their names, which rise strictly.
#[derive(Debug, Drop)]
pub struct StoreInfos {
    items: Vec<StoreInfo>,
}

impl Model for StoreInfos {
    ghost use Rattle.std.specs.Prelude.{◌≡◌, true, List};
    ghost use Rattle.idb_schema.specs.declared.definitions.StoreInfo.{StoreInfo};
    ghost use Rattle.clone_values.specs.Names.{is_rising};
    ghost use Rattle.idb_schema.specs.Definitions.{store_names};

    ghost Value = { List StoreInfo };

    ghost view = { λ a. a.items.items };

    ghost invariant = { λ a. is_rising (store_names a.items.items) ≡ true };
}

impl StoreInfos {
    /// The empty list; it takes no memory.
    pub fn new(alloc: Global) -> Self
        ensures { result ≡ [] }
    {
        StoreInfos {
            items: Vec::new(alloc),
        }
    }

    /// The definitions as a vector, by rising names. It takes no memory.
    pub fn into_vec(self) -> Vec<StoreInfo>
        ensures value { result.items ≡ self }
        ensures rising { is_rising (store_names self) ≡ true }
    {
        self.items
    }

    /// How many stores there are. Their names rise.
    pub fn len(&self) -> usize
        ensures count { result ≡ length self.now }
        ensures rising { is_rising (store_names self.now) ≡ true }
    {
        self.items.len()
    }

    /// The store at this place, counted from 0; `None` past the end.
    pub fn at(&self, place: usize) -> Option<&StoreInfo>
        ensures item { option_copied result ≡ slice_get self.now place }
        ensures stands { IfSome result (λ x. StandsAt self.now place x.now) }
        ensures past_end { IfNone result (length self.now ≤ place) }
    {
        self.items.get(place)
    }

    /// Whether a store of this name can be put at the end: the name is greater than those before.
    pub fn can_push(&self, name: &Text) -> bool
        ensures { result ≡ is_rising (store_names self.now ++ name.now ∷ []) }
    {
        match self.items.last() {
            Some(last) => last.name.as_str() < name.as_str(),
            None => true,
        }
    }

    /// Puts a store at the end; its name is greater than those before, as `can_push` tells.
    pub fn push(&mut self, item: StoreInfo) -> Result<(), NoMemory>
        requires { is_rising (store_names self.old ++ item.name ∷ []) ≡ true }
        ensures stored { OnOk result (self.new ≡ self.old ++ item ∷ []) }
        ensures unchanged { OnErr result (self.new ≡ self.old) }
    {
        self.items.push(item)?;
        Ok(())
    }

    /// An equal list.
    pub fn copy(&self, alloc: Global) -> Result<StoreInfos, NoMemory>
        ensures { IfOk result (λ r. r ≡ self.now) }
    {
        let mut copies = Vec::new(alloc);
        for item in &self.items {
            copies.push(item.copy(alloc)?)?;
        }
        Ok(StoreInfos { items: copies })
    }
}
