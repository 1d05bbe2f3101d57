// The calls of an upgrade: the schema changes at once, and an entry is added at the end of the list.
ghost use Rattle.std.specs.Prelude.{◌≡◌, None, OnOk, OnErr, IfOk, IfErr};
ghost use Rattle.version_upgrade.specs.Upgrades.{refusal_of_schema, schema_after};
ghost use Rattle.request_lists.specs.declared.refusing.Refusal.TheVariants as refusal;
ghost use Rattle.request_lists.specs.Refusals.{is_store_gone, refusal_of_change};
ghost use Rattle.request_lists.specs.Placing.{after_schema_call, IsRefusal, Becomes};

use crate::entries::ListEntry;
use crate::front::TxFront;
use crate::lookups::is_store_deleted;
use crate::refusing::Refusal;
use idb_base::NoMemory;
use idb_keys::ErrorName;
use idb_schema::{Schema, SchemaCall};
use std::alloc::Global;
use version_upgrade::{apply_schema, check_schema};

impl<H: Drop> TxFront<H> {
    /// `createObjectStore`, `deleteObjectStore`, `createIndex` and `deleteIndex`. The schema is changed at once, the stores when the
    /// entry is run; it has no number and no event.
    pub fn schema(&mut self, call: SchemaCall) -> Result<(), Refusal>
        ensures taken { OnOk result (refusal_of_change call self.old ≡ None) }
        ensures changed { OnOk result (self.new ≡ after_schema_call call self.old) }
        ensures refused { IfErr result (λ r. IsRefusal r (refusal_of_change call self.old)) }
        ensures unchanged { OnErr result (self.new ≡ self.old) }
        ensures becomes { Becomes self.old self.new }
    {
        match self.refusal_of_change(&call) {
            Some(name) => {
                drop(call);
                Err(Refusal::Name(name))
            }
            None => self.change(call),
        }
    }

    /// Makes a change that is not refused.
    fn change(&mut self, call: SchemaCall) -> Result<(), Refusal>
        requires { refusal_of_schema self.old.schema call ≡ None }
        ensures changed { OnOk result (self.new ≡ after_schema_call call self.old) }
        ensures memory { IfErr result (λ r. r ≡ refusal.NoMemory) }
        ensures unchanged { OnErr result (self.new ≡ self.old) }
    {
        if self.waiting.reserve(1).is_err() {
            drop(call);
            return Err(Refusal::NoMemory);
        }
        apply(self.alloc, &mut self.schema, &call)?;
        self.waiting.push_back_reserved(ListEntry::Change { call });
        Ok(())
    }

    /// The first cause for which the front refuses the call.
    fn refusal_of_change(&self, call: &SchemaCall) -> Option<ErrorName>
        ensures { result ≡ refusal_of_change call.now self.now }
    {
        if !self.is_upgrade() {
            return Some(ErrorName::InvalidStateError);
        }
        if is_store_gone(&self.schema, call) {
            return Some(ErrorName::InvalidStateError);
        }
        if !self.is_active() {
            return Some(ErrorName::TransactionInactiveError);
        }
        match check_schema(&self.schema, call) {
            Ok(()) => None,
            Err(name) => Some(name),
        }
    }
}

/// Whether the store whose indexes the call changes is deleted.
fn is_store_gone(schema: &Schema, call: &SchemaCall) -> bool
    ensures { result ≡ is_store_gone schema.now call.now }
{
    match call {
        SchemaCall::CreateStore { .. } => false,
        SchemaCall::DropStore { .. } => false,
        SchemaCall::CreateIndex { store, .. } => is_store_deleted(schema, *store),
        SchemaCall::DropIndex { store, .. } => is_store_deleted(schema, *store),
    }
}

/// Changes the schema by the call.
fn apply(alloc: Global, schema: &mut Schema, call: &SchemaCall) -> Result<(), NoMemory>
    requires { refusal_of_schema schema.old call.now ≡ None }
    ensures changed { OnOk result (schema.new ≡ schema_after schema.old call.now) }
    ensures unchanged { OnErr result (schema.new ≡ schema.old) }
{
    let copy = copied(alloc, call)?;
    apply_schema(alloc, schema, copy)
}

/// An equal call.
fn copied(alloc: Global, call: &SchemaCall) -> Result<SchemaCall, NoMemory>
    ensures { IfOk result (λ r. r ≡ call.now) }
{
    match call {
        SchemaCall::CreateStore { name, path, auto } => {
            let name = name.copy(alloc)?;
            let path = match path {
                Some(path) => Some(path.copy(alloc)?),
                None => None,
            };
            Ok(SchemaCall::CreateStore {
                name,
                path,
                auto: *auto,
            })
        }
        SchemaCall::DropStore { name } => Ok(SchemaCall::DropStore {
            name: name.copy(alloc)?,
        }),
        SchemaCall::CreateIndex {
            store,
            name,
            path,
            unique,
            multi,
        } => Ok(SchemaCall::CreateIndex {
            store: *store,
            name: name.copy(alloc)?,
            path: path.copy(alloc)?,
            unique: *unique,
            multi: *multi,
        }),
        SchemaCall::DropIndex { store, name } => Ok(SchemaCall::DropIndex {
            store: *store,
            name: name.copy(alloc)?,
        }),
    }
}
