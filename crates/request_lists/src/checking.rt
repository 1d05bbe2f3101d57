// Why a front refuses a call: the first cause in the order of the standard.
ghost use Rattle.std.specs.Prelude.{◌≡◌, Some, option_map};
ghost use Rattle.clone_values.specs.View.{tree_of};
ghost use Rattle.idb_schema.specs.Schemas.{store_of};
ghost use Rattle.query_ranges.specs.Queries.{wanted};
ghost use Rattle.request_lists.specs.Refusals.{refusal_of_storing, refusal_of_reading, refusal_of_listing, refusal_of_deleting, refusal_of_clearing, refusal_of};

use crate::front::TxFront;
use crate::lookups::{is_deleted, is_store_deleted, store_of};
use crate::values::{can_clone, is_count_refused, is_key_faulty, lacks_in_line_key};
use clone_values::Value;
use idb_calls::{Call, Query, Target};
use idb_keys::ErrorName;
use idb_schema::{StoreId, StoreInfo};
use query_ranges::is_query_refused;

impl<H: Drop> TxFront<H> {
    /// The first cause for which the front refuses the request.
    pub(crate) fn refusal_of(&self, call: &Call) -> Option<ErrorName>
        ensures { result ≡ refusal_of call.now self.now }
    {
        match call {
            Call::Add { store, value, key } => self.refusal_of_storing(*store, value, key),
            Call::Put { store, value, key } => self.refusal_of_storing(*store, value, key),
            Call::Get { target, query } => self.refusal_of_reading(*target, query, true),
            Call::GetKey { target, query } => self.refusal_of_reading(*target, query, true),
            Call::Count { target, query } => self.refusal_of_reading(*target, query, false),
            Call::GetAll {
                target,
                query,
                count,
            } => self.refusal_of_listing(*target, query, *count),
            Call::GetAllKeys {
                target,
                query,
                count,
            } => self.refusal_of_listing(*target, query, *count),
            Call::Delete { store, query } => self.refusal_of_deleting(*store, query),
            Call::Clear { store } => self.refusal_of_clearing(*store),
            Call::OpenCursor { target, query, .. } => {
                self.refusal_of_reading(*target, query, false)
            }
            Call::OpenKeyCursor { target, query, .. } => {
                self.refusal_of_reading(*target, query, false)
            }
            Call::Continue { cursor, key } => self.refusal_of_continue(*cursor, key),
            Call::ContinuePrimaryKey {
                cursor,
                key,
                primary,
            } => self.refusal_of_continue_primary(*cursor, key, primary),
            Call::Advance { cursor, count } => self.refusal_of_advance(*cursor, *count),
            Call::Update { cursor, value } => self.refusal_of_update(*cursor, value),
            Call::DeleteHere { cursor } => self.refusal_of_change_here(*cursor),
        }
    }

    fn refusal_of_storing(
        &self,
        store: StoreId,
        value: &Value,
        key: &Option<Value>,
    ) -> Option<ErrorName>
        ensures { result ≡ refusal_of_storing self.now (store_of self.now.schema store)
            (tree_of value.now) (option_map tree_of key.now) }
    {
        match store_of(&self.schema, store) {
            Some(store) => self.refusal_to_store(store, value, key),
            None => Some(ErrorName::InvalidStateError),
        }
    }

    fn refusal_to_store(
        &self,
        store: &StoreInfo,
        value: &Value,
        key: &Option<Value>,
    ) -> Option<ErrorName>
        ensures { result ≡ refusal_of_storing self.now (Some store.now)
            (tree_of value.now) (option_map tree_of key.now) }
    {
        if !self.is_active() {
            return Some(ErrorName::TransactionInactiveError);
        }
        if self.is_read_only() {
            return Some(ErrorName::ReadOnlyError);
        }
        if store.path.is_some() && key.is_some() {
            return Some(ErrorName::DataError);
        }
        if store.path.is_none() && !store.auto && key.is_none() {
            return Some(ErrorName::DataError);
        }
        if is_key_faulty(key) {
            return Some(ErrorName::DataError);
        }
        if !can_clone(value) {
            return Some(ErrorName::DataCloneError);
        }
        if lacks_in_line_key(&store.path, store.auto, value) {
            return Some(ErrorName::DataError);
        }
        None
    }

    fn refusal_of_reading(&self, target: Target, query: &Query, must_say: bool) -> Option<ErrorName>
        ensures { result ≡ refusal_of_reading self.now target must_say (wanted query.now) }
    {
        if is_deleted(&self.schema, target) {
            return Some(ErrorName::InvalidStateError);
        }
        if !self.is_active() {
            return Some(ErrorName::TransactionInactiveError);
        }
        if is_query_refused(must_say, query) {
            return Some(ErrorName::DataError);
        }
        None
    }

    fn refusal_of_listing(
        &self,
        target: Target,
        query: &Query,
        count: Option<i64>,
    ) -> Option<ErrorName>
        ensures { result ≡ refusal_of_listing self.now target (wanted query.now) count }
    {
        if is_count_refused(count) {
            return Some(ErrorName::TypeError);
        }
        self.refusal_of_reading(target, query, false)
    }

    fn refusal_of_deleting(&self, store: StoreId, query: &Query) -> Option<ErrorName>
        ensures { result ≡ refusal_of_deleting self.now store (wanted query.now) }
    {
        if is_store_deleted(&self.schema, store) {
            return Some(ErrorName::InvalidStateError);
        }
        if !self.is_active() {
            return Some(ErrorName::TransactionInactiveError);
        }
        if self.is_read_only() {
            return Some(ErrorName::ReadOnlyError);
        }
        if is_query_refused(true, query) {
            return Some(ErrorName::DataError);
        }
        None
    }

    fn refusal_of_clearing(&self, store: StoreId) -> Option<ErrorName>
        ensures { result ≡ refusal_of_clearing self.now store }
    {
        if is_store_deleted(&self.schema, store) {
            return Some(ErrorName::InvalidStateError);
        }
        if !self.is_active() {
            return Some(ErrorName::TransactionInactiveError);
        }
        if self.is_read_only() {
            return Some(ErrorName::ReadOnlyError);
        }
        None
    }
}
