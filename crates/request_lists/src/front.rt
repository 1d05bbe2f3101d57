// The front of a transaction: what its script sees of it (Indexed Database API 3.0, "transaction").
ghost use Rattle.std.specs.Prelude.{◌≡◌, None, Some, OnOk, OnErr, IfOk, IfErr};
ghost use Rattle.request_lists.specs.Fronts.{new_front, is_active, is_committing, is_finished, is_read_only, is_upgrade, covers, store_id_of, index_id_named};
ghost use Rattle.request_lists.specs.Refusals.{refusal_of_store, refusal_of_index, refusal_of_commit, refusal_of_abort};
ghost use Rattle.request_lists.specs.Placing.{Becomes, after_commit, after_abort, after_rest, after_throw};

use crate::entries::{FrontCursor, ListEntry, Phase};
use crate::lookups::has_name;
use clone_values::{Text, Texts};
use idb_keys::{ErrorName, Mode};
use idb_schema::{IndexId, Schema, StoreId};
use std::alloc::Global;
use std::collections::VecDeque;
use std::marker::Model;

/// The front of a transaction: its mode, scope and phase, the schema as its calls have left it, its cursors, and the entries that
/// wait.
#[derive(Drop)]
pub struct TxFront<H> {
    pub(crate) alloc: Global,
    pub(crate) mode: Mode,
    pub(crate) scope: Texts,
    pub(crate) phase: Phase,
    pub(crate) schema: Schema,
    pub(crate) cursors: Vec<FrontCursor<H>>,
    pub(crate) waiting: VecDeque<ListEntry<H>>,
    pub(crate) next: u32,
}

impl<H> Model for TxFront<H> {
    ghost use Rattle.std.specs.Coded.{codes};
    ghost use Rattle.clone_values.specs.Tree.{tree_code};
    ghost use Rattle.clone_values.specs.KeyTree.{key_code};
    ghost use Rattle.idb_keys.specs.KeyRange.{range_code};
    ghost use Rattle.request_lists.specs.Fronts.{Front, AreNumbered, requests_of};

    ghost Value = { Front H };

    ghost coded = { Prim.hlevel (codes, range_code, key_code, tree_code) };

    ghost view = { λ a. record {
      mode = a.mode;
      scope = a.scope;
      phase = a.phase;
      schema = a.schema;
      cursors = a.cursors.items;
      waiting = a.waiting.items;
      next = a.next;
    } };

    ghost invariant = { λ a. AreNumbered (requests_of a.cursors.items) a.next };
}

impl<H: Drop> TxFront<H> {
    /// An active front with no request. In mode `VersionChange` every store is in the scope, whatever it names, and the schema's
    /// version is the new one. It takes no memory.
    pub fn new(alloc: Global, mode: Mode, schema: Schema, scope: Texts) -> TxFront<H>
        ensures { result ≡ new_front mode schema scope }
    {
        TxFront {
            alloc,
            mode,
            scope,
            phase: Phase::Active,
            schema,
            cursors: Vec::new(alloc),
            waiting: VecDeque::new(alloc),
            next: 1,
        }
    }

    /// `objectStore`: what names the store. InvalidStateError where the transaction is finished, NotFoundError where the name is
    /// not in the scope.
    pub fn store(&self, name: &Text) -> Result<StoreId, ErrorName>
        ensures taken { OnOk result (refusal_of_store name.now self.now ≡ None) }
        ensures named { IfOk result (λ id. store_id_of self.now.schema name.now ≡ Some id) }
        ensures refused { IfErr result (λ e. refusal_of_store name.now self.now ≡ Some e) }
    {
        if self.is_finished() {
            return Err(ErrorName::InvalidStateError);
        }
        if !self.covers(name) {
            return Err(ErrorName::NotFoundError);
        }
        match self.schema.store_place(name) {
            Some(place) => Ok(self.schema.store_id(place)),
            None => Err(ErrorName::NotFoundError),
        }
    }

    /// `index`: what names the index of the store. InvalidStateError where the store is deleted or the transaction is finished,
    /// NotFoundError where the store has no index of this name.
    pub fn index(&self, store: StoreId, name: &Text) -> Result<IndexId, ErrorName>
        ensures taken { OnOk result (refusal_of_index store name.now self.now ≡ None) }
        ensures named { IfOk result (λ id. index_id_named self.now.schema store name.now ≡ Some id) }
        ensures refused { IfErr result (λ e. refusal_of_index store name.now self.now ≡ Some e) }
    {
        let Some(at) = self.schema.place_of(store) else {
            return Err(ErrorName::InvalidStateError);
        };
        if self.is_finished() {
            return Err(ErrorName::InvalidStateError);
        }
        match self.schema.index_place(at, name) {
            Some(place) => Ok(self.schema.index_id(at, place)),
            None => Err(ErrorName::NotFoundError),
        }
    }

    /// `commit`: nothing more can be placed. InvalidStateError where the front is not active. It takes no memory.
    pub fn commit(&mut self) -> Result<(), ErrorName>
        ensures taken { OnOk result (refusal_of_commit self.old ≡ None) }
        ensures committing { OnOk result (self.new ≡ after_commit self.old) }
        ensures refused { IfErr result (λ e. refusal_of_commit self.old ≡ Some e) }
        ensures unchanged { OnErr result (self.new ≡ self.old) }
        ensures becomes { Becomes self.old self.new }
    {
        if !self.is_active() {
            return Err(ErrorName::InvalidStateError);
        }
        self.phase = Phase::Committing;
        Ok(())
    }

    /// `abort`: the transaction is aborted with the error null. InvalidStateError where it is committing or finished. It takes no
    /// memory.
    pub fn abort(&mut self) -> Result<(), ErrorName>
        ensures taken { OnOk result (refusal_of_abort self.old ≡ None) }
        ensures aborted { OnOk result (self.new ≡ after_abort self.old) }
        ensures refused { IfErr result (λ e. refusal_of_abort self.old ≡ Some e) }
        ensures unchanged { OnErr result (self.new ≡ self.old) }
        ensures becomes { Becomes self.old self.new }
    {
        if self.is_committing() {
            return Err(ErrorName::InvalidStateError);
        }
        if self.is_finished() {
            return Err(ErrorName::InvalidStateError);
        }
        self.phase = Phase::Aborted { error: None };
        Ok(())
    }

    /// The script has ended: an active front becomes inactive, any other phase stays. It takes no memory.
    pub fn rest(&mut self)
        ensures { self.new ≡ after_rest self.old }
    {
        if self.is_active() {
            self.phase = Phase::Inactive;
        }
    }

    /// The script threw: an upgrade that isn't finished is aborted with AbortError, any other front rests. It takes no memory.
    pub fn threw(&mut self)
        ensures { self.new ≡ after_throw self.old }
    {
        if self.is_upgrade() && !self.is_finished() {
            self.phase = Phase::Aborted {
                error: Some(ErrorName::AbortError),
            };
        } else {
            self.rest();
        }
    }

    pub(crate) fn is_active(&self) -> bool
        ensures { result ≡ is_active self.now }
    {
        matches!(self.phase, Phase::Active)
    }

    fn is_committing(&self) -> bool
        ensures { result ≡ is_committing self.now }
    {
        matches!(self.phase, Phase::Committing)
    }

    fn is_finished(&self) -> bool
        ensures { result ≡ is_finished self.now }
    {
        matches!(self.phase, Phase::Committed | Phase::Aborted { .. })
    }

    pub(crate) fn is_read_only(&self) -> bool
        ensures { result ≡ is_read_only self.now }
    {
        matches!(self.mode, Mode::ReadOnly)
    }

    pub(crate) fn is_upgrade(&self) -> bool
        ensures { result ≡ is_upgrade self.now }
    {
        matches!(self.mode, Mode::VersionChange)
    }

    /// Whether the scope has the name: of an upgrade it has every name.
    fn covers(&self, name: &Text) -> bool
        ensures { result ≡ covers self.now name.now }
    {
        self.is_upgrade() || has_name(name, &self.scope)
    }
}
