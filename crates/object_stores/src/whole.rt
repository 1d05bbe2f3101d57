// The parts of a store in one step.
ghost use Rattle.std.specs.Prelude.{◌≡◌, [], option_map, IfOk, IfSome, IfNone, OnOk, OnErr};
ghost use Rattle.std.specs.FinMap as finite;
ghost use Rattle.clone_values.specs.View.{key_tree_of, tree_of};
ghost use Rattle.store_contents.specs.IsStore.{IsStoreContent, IsCurrent};
ghost use Rattle.store_contents.specs.Store.{KeepsPlaces, numbered};
ghost use Rattle.store_contents.specs.Storing.{CanStore, stored_as, stored, refused};
ghost use Rattle.object_stores.specs.Parts.{content_in, past_in, IsSound};

use crate::changes::Parts;
use crate::changing::{note_cleared, ready};
use crate::choosing::choose;
use crate::putting::put;
use clone_values::{Key, Value};
use idb_base::NoMemory;
use index_tables::{Tables, unique_laws};
use key_generators::Generator;
use range_reads::IndexedRecords;
use std::alloc::Global;

/// Parts without a change.
pub(crate) fn new_parts<T: Tables>(alloc: Global, contents: IndexedRecords<T>) -> Parts<T>
    requires { IsStoreContent (record { info = contents.info; records = contents.records }) }
    ensures sound { IsSound result }
    ensures contents { result.contents ≡ contents }
    ensures past { past_in result ≡ [] }
{
    Parts {
        contents,
        log: Vec::new(alloc),
        removed: 0,
        rows: 0,
    }
}

/// Stores a value; without a key in the answer the parts did not change.
pub(crate) fn store_entry<T: Tables>(
    alloc: Global,
    parts: &mut Parts<T>,
    generator: &mut Generator,
    value: Value,
    key: Option<Key>,
    add: bool,
) -> Result<Option<Key>, NoMemory>
    requires sound { IsSound parts.old }
    requires can { CanStore parts.old.contents.info.path parts.old.contents.info.auto (tree_of value)
        (option_map key_tree_of key) }
    requires current { IsCurrent parts.old.contents.info.auto generator.old }
    ensures sound { IsSound parts.new }
    ensures current { IsCurrent parts.old.contents.info.auto generator.new }
    ensures stored { IfOk result (λ k. IfSome k (λ k. stored_as
        (numbered (content_in parts.old) generator.old) (tree_of value) (option_map key_tree_of key) add
        ≡ stored (key_tree_of k) (numbered (content_in parts.new) generator.new))) }
    ensures refused { IfOk result (λ k. IfNone k (stored_as
        (numbered (content_in parts.old) generator.old) (tree_of value) (option_map key_tree_of key) add ≡ refused)) }
    ensures none { IfOk result (λ k. IfNone k (content_in parts.new ≡ content_in parts.old)) }
    ensures unchanged { OnErr result (content_in parts.new ≡ content_in parts.old) }
    ensures info { parts.new.contents.info ≡ parts.old.contents.info }
    ensures past { KeepsPlaces (past_in parts.old) (content_in parts.old)
        (past_in parts.new) (content_in parts.new) }
{
    match choose(alloc, parts.contents.info(), generator, value, key)? {
        Some((key, value)) => put(alloc, parts, key, value, add),
        None => Ok(None),
    }
}

/// Takes all records and rows out.
pub(crate) fn clear_parts<T: Tables>(parts: &mut Parts<T>) -> Result<(), NoMemory>
    requires { IsSound parts.old }
    ensures sound { IsSound parts.new }
    ensures cleared { OnOk result (content_in parts.new
        ≡ record (content_in parts.old) { records = finite.empty }) }
    ensures unchanged { OnErr result (content_in parts.new ≡ content_in parts.old) }
    ensures past { KeepsPlaces (past_in parts.old) (content_in parts.old)
        (past_in parts.new) (content_in parts.new) }
{
    unique_laws();
    ready(parts, 1, 0, 0)?;
    let emptied = parts.contents.take_all()?;
    note_cleared(parts, emptied);
    Ok(())
}
