// Why a front refuses the calls of a cursor: the first cause in the order of the standard.
ghost use Rattle.std.specs.Prelude.{◌≡◌, option_map};
ghost use Rattle.std.specs.Option.{option_copied};
ghost use Rattle.clone_values.specs.View.{tree_of};
ghost use Rattle.key_paths.specs.Conversion.{key_of};
ghost use Rattle.request_lists.specs.Fronts.{is_active, cursor_of};
ghost use Rattle.request_lists.specs.Refusals.{refusal_at, is_given_key_behind, is_key_behind, is_pair_behind, takes_primary, refusal_of_continue, refusal_of_continue_primary, refusal_of_advance, refusal_of_change_here, changes_key, refusal_of_update};

use crate::cursors::cursor_in;
use crate::entries::FrontCursor;
use crate::front::TxFront;
use crate::lookups::{is_deleted, store_of};
use crate::values::{can_clone, changes_key_by, is_step};
use clone_values::Value;
use idb_keys::{Direction, ErrorName};
use idb_schema::StoreInfo;

impl<H: Drop> TxFront<H> {
    /// The cursor that the request of this number opened.
    pub fn cursor_of(&self, number: u32) -> Option<&FrontCursor<H>>
        ensures { option_copied result ≡ cursor_of self.now number }
    {
        cursor_in(&self.cursors, self.next, number)
    }

    pub(crate) fn refusal_of_continue(&self, number: u32, key: &Option<Value>) -> Option<ErrorName>
        ensures { result ≡ refusal_at (cursor_of self.now number)
            (refusal_of_continue self.now (option_map tree_of key.now)) }
    {
        match self.cursor_of(number) {
            Some(cursor) => self.refusal_to_continue(cursor, key),
            None => Some(ErrorName::InvalidStateError),
        }
    }

    fn refusal_to_continue(&self, cursor: &FrontCursor<H>, key: &Option<Value>) -> Option<ErrorName>
        ensures { result
            ≡ refusal_of_continue self.now (option_map tree_of key.now) cursor.now }
    {
        if !self.is_active() {
            return Some(ErrorName::TransactionInactiveError);
        }
        if is_deleted(&self.schema, cursor.target) {
            return Some(ErrorName::InvalidStateError);
        }
        if !cursor.got {
            return Some(ErrorName::InvalidStateError);
        }
        if is_given_key_behind(cursor, key) {
            return Some(ErrorName::DataError);
        }
        None
    }

    pub(crate) fn refusal_of_continue_primary(
        &self,
        number: u32,
        key: &Value,
        primary: &Value,
    ) -> Option<ErrorName>
        ensures { result ≡ refusal_at (cursor_of self.now number)
            (refusal_of_continue_primary self.now (tree_of key.now) (tree_of primary.now)) }
    {
        match self.cursor_of(number) {
            Some(cursor) => self.refusal_to_continue_primary(cursor, key, primary),
            None => Some(ErrorName::InvalidStateError),
        }
    }

    fn refusal_to_continue_primary(
        &self,
        cursor: &FrontCursor<H>,
        key: &Value,
        primary: &Value,
    ) -> Option<ErrorName>
        ensures { result
            ≡ refusal_of_continue_primary self.now (tree_of key.now) (tree_of primary.now) cursor.now }
    {
        if !self.is_active() {
            return Some(ErrorName::TransactionInactiveError);
        }
        if is_deleted(&self.schema, cursor.target) {
            return Some(ErrorName::InvalidStateError);
        }
        if !takes_primary(cursor) {
            return Some(ErrorName::InvalidAccessError);
        }
        if !cursor.got {
            return Some(ErrorName::InvalidStateError);
        }
        if is_pair_behind(cursor, key, primary) {
            return Some(ErrorName::DataError);
        }
        None
    }

    pub(crate) fn refusal_of_advance(&self, number: u32, count: i64) -> Option<ErrorName>
        ensures { result ≡ refusal_at (cursor_of self.now number) (refusal_of_advance self.now count) }
    {
        match self.cursor_of(number) {
            Some(cursor) => self.refusal_to_advance(cursor, count),
            None => Some(ErrorName::InvalidStateError),
        }
    }

    fn refusal_to_advance(&self, cursor: &FrontCursor<H>, count: i64) -> Option<ErrorName>
        ensures { result ≡ refusal_of_advance self.now count cursor.now }
    {
        if !is_step(count) {
            return Some(ErrorName::TypeError);
        }
        if !self.is_active() {
            return Some(ErrorName::TransactionInactiveError);
        }
        if is_deleted(&self.schema, cursor.target) {
            return Some(ErrorName::InvalidStateError);
        }
        if !cursor.got {
            return Some(ErrorName::InvalidStateError);
        }
        None
    }

    pub(crate) fn refusal_of_change_here(&self, number: u32) -> Option<ErrorName>
        ensures { result ≡ refusal_at (cursor_of self.now number) (refusal_of_change_here self.now) }
    {
        match self.cursor_of(number) {
            Some(cursor) => self.refusal_to_change_here(cursor),
            None => Some(ErrorName::InvalidStateError),
        }
    }

    fn refusal_to_change_here(&self, cursor: &FrontCursor<H>) -> Option<ErrorName>
        ensures { result ≡ refusal_of_change_here self.now cursor.now }
    {
        if !self.is_active() {
            return Some(ErrorName::TransactionInactiveError);
        }
        if self.is_read_only() {
            return Some(ErrorName::ReadOnlyError);
        }
        if is_deleted(&self.schema, cursor.target) {
            return Some(ErrorName::InvalidStateError);
        }
        if !cursor.got {
            return Some(ErrorName::InvalidStateError);
        }
        if cursor.cursor.keys_only() {
            return Some(ErrorName::InvalidStateError);
        }
        None
    }

    pub(crate) fn refusal_of_update(&self, number: u32, value: &Value) -> Option<ErrorName>
        ensures { result
            ≡ refusal_at (cursor_of self.now number) (refusal_of_update self.now (tree_of value.now)) }
    {
        match self.cursor_of(number) {
            Some(cursor) => self.refusal_to_update(cursor, value),
            None => Some(ErrorName::InvalidStateError),
        }
    }

    fn refusal_to_update(&self, cursor: &FrontCursor<H>, value: &Value) -> Option<ErrorName>
        ensures { result ≡ refusal_of_update self.now (tree_of value.now) cursor.now }
    {
        if let Some(name) = self.refusal_to_change_here(cursor) {
            return Some(name);
        }
        if !can_clone(value) {
            return Some(ErrorName::DataCloneError);
        }
        let store = store_of(&self.schema, cursor.target.store);
        if changes_key(store, cursor, value) {
            return Some(ErrorName::DataError);
        }
        None
    }
}

fn is_given_key_behind<H>(cursor: &FrontCursor<H>, key: &Option<Value>) -> bool
    ensures { result ≡ is_given_key_behind cursor.now (option_map tree_of key.now) }
{
    match key {
        Some(key) => is_key_behind(cursor, key),
        None => false,
    }
}

fn is_key_behind<H>(cursor: &FrontCursor<H>, key: &Value) -> bool
    ensures { result ≡ is_key_behind cursor.now (key_of (tree_of key.now)) }
{
    match cursor.cursor.is_key_ahead(key) {
        Some(ahead) => !ahead,
        None => true,
    }
}

fn is_pair_behind<H>(cursor: &FrontCursor<H>, key: &Value, primary: &Value) -> bool
    ensures { result
        ≡ is_pair_behind cursor.now (key_of (tree_of key.now)) (key_of (tree_of primary.now)) }
{
    match cursor.cursor.is_pair_ahead(key, primary) {
        Some(ahead) => !ahead,
        None => true,
    }
}

/// Whether the cursor goes over an index, and takes each of its rows.
fn takes_primary<H>(cursor: &FrontCursor<H>) -> bool
    ensures { result ≡ takes_primary cursor.now }
{
    match cursor.cursor.direction() {
        Direction::Next | Direction::Prev => cursor.target.index.is_some(),
        Direction::NextUnique | Direction::PrevUnique => false,
    }
}

/// Whether the store has a key path that gives another key on the value, or none.
fn changes_key<H>(store: Option<&StoreInfo>, cursor: &FrontCursor<H>, value: &Value) -> bool
    ensures { result
        ≡ changes_key (option_copied store.entry) cursor.now.cursor.place (tree_of value.now) }
{
    match store {
        Some(store) => changes_key_by(&store.path, cursor.cursor.place(), value),
        None => false,
    }
}
