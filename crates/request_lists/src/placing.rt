// Requests are placed: each adds one entry at the end of the list.
ghost use Rattle.std.specs.Prelude.{◌≡◌, None, OnOk, OnErr, IfOk, IfErr};
ghost use Rattle.idb_cursors.specs.Cursors.{fresh_cursor};
ghost use Rattle.request_lists.specs.declared.refusing.Refusal.TheVariants as refusal;
ghost use Rattle.query_ranges.specs.Queries.{range_of_query};
ghost use Rattle.request_lists.specs.Refusals.{refusal_of};
ghost use Rattle.request_lists.specs.Placing.{after_call, request_number, turned_by, opened_by, over_of, with_request, with_opened, with_turn, IsCall, IsRefusal, Becomes};

use crate::cursors::clear_got;
use crate::entries::{FrontCursor, ListEntry};
use crate::front::TxFront;
use crate::refusing::{Refusal, Refused};
use idb_base::NoMemory;
use idb_calls::{Call, Query, Target};
use idb_cursors::Cursor;
use idb_keys::{Direction, Over};
use idb_schema::{IndexId, Schema};
use query_ranges::range_of_query;
use std::alloc::Global;

impl<H: Drop> TxFront<H> {
    /// Places a request with its handler, and gives the request's number. A cursor that goes on places its own request again: its
    /// own handler goes on, and the one that is handed in is dropped. A refusal takes no memory. A front that has had 2^32 - 1
    /// requests answers `NoMemory`.
    pub fn place(&mut self, call: Call, handler: H) -> Result<u32, Refused<H>>
        requires { IsCall call }
        ensures taken { OnOk result (refusal_of call self.old ≡ None) }
        ensures placed { OnOk result (self.new ≡ after_call call handler self.old) }
        ensures number { IfOk result (λ n. n ≡ request_number call self.old) }
        ensures refused { IfErr result (λ r. IsRefusal r.refusal (refusal_of call self.old)) }
        ensures given_back { IfErr result (λ r. r.handler ≡ handler) }
        ensures unchanged { OnErr result (self.new ≡ self.old) }
        ensures becomes { Becomes self.old self.new }
    {
        match self.refusal_of(&call) {
            None => self.accept(call, handler),
            Some(name) => Err(Refused {
                refusal: Refusal::Name(name),
                handler,
            }),
        }
    }

    /// Places a request that is not refused.
    fn accept(&mut self, call: Call, handler: H) -> Result<u32, Refused<H>>
        ensures placed { OnOk result (self.new ≡ after_call call handler self.old) }
        ensures number { IfOk result (λ n. n ≡ request_number call self.old) }
        ensures memory { IfErr result (λ r. r.refusal ≡ refusal.NoMemory) }
        ensures given_back { IfErr result (λ r. r.handler ≡ handler) }
        ensures unchanged { OnErr result (self.new ≡ self.old) }
    {
        match cursor_opened(self.alloc, &self.schema, &call) {
            Ok(Some((target, cursor))) => self.add_cursor(target, cursor, call, handler),
            Ok(None) => match turned_by(&call) {
                Some(number) => self.add_turn(number, call, handler),
                None => self.add_request(call, handler),
            },
            Err(_) => Err(no_memory(handler)),
        }
    }

    fn add_request(&mut self, call: Call, handler: H) -> Result<u32, Refused<H>>
        ensures placed { OnOk result (self.new ≡ with_request self.old call handler) }
        ensures number { IfOk result (λ n. n ≡ self.old.next) }
        ensures memory { IfErr result (λ r. r.refusal ≡ refusal.NoMemory) }
        ensures given_back { IfErr result (λ r. r.handler ≡ handler) }
        ensures unchanged { OnErr result (self.new ≡ self.old) }
    {
        let request = self.next;
        if request == u32::MAX || self.waiting.reserve(1).is_err() {
            return Err(no_memory(handler));
        }
        self.next = request + 1;
        self.waiting.push_back_reserved(ListEntry::Request {
            request,
            call,
            handler,
        });
        Ok(request)
    }

    fn add_cursor(
        &mut self,
        target: Target,
        cursor: Cursor,
        call: Call,
        handler: H,
    ) -> Result<u32, Refused<H>>
        ensures placed { OnOk result (self.new ≡ with_opened self.old target cursor call handler) }
        ensures number { IfOk result (λ n. n ≡ self.old.next) }
        ensures memory { IfErr result (λ r. r.refusal ≡ refusal.NoMemory) }
        ensures given_back { IfErr result (λ r. r.handler ≡ handler) }
        ensures unchanged { OnErr result (self.new ≡ self.old) }
    {
        let request = self.next;
        if request == u32::MAX
            || self.cursors.reserve(1).is_err()
            || self.waiting.reserve(1).is_err()
        {
            return Err(no_memory(handler));
        }
        self.next = request + 1;
        self.cursors.push_reserved(FrontCursor {
            request,
            target,
            cursor,
            got: false,
            handler: Some(handler),
        });
        self.waiting.push_back_reserved(ListEntry::Turn {
            cursor: request,
            call,
        });
        Ok(request)
    }

    fn add_turn(&mut self, number: u32, call: Call, handler: H) -> Result<u32, Refused<H>>
        ensures placed { OnOk result (self.new ≡ with_turn self.old number call) }
        ensures number { IfOk result (λ n. n ≡ number) }
        ensures memory { IfErr result (λ r. r.refusal ≡ refusal.NoMemory) }
        ensures given_back { IfErr result (λ r. r.handler ≡ handler) }
        ensures unchanged { OnErr result (self.new ≡ self.old) }
    {
        if self.waiting.reserve(1).is_err() {
            return Err(no_memory(handler));
        }
        clear_got(&mut self.cursors, self.next, number);
        self.waiting.push_back_reserved(ListEntry::Turn {
            cursor: number,
            call,
        });
        Ok(number)
    }
}

fn no_memory<H>(handler: H) -> Refused<H>
    ensures refusal { result.refusal ≡ refusal.NoMemory }
    ensures handler { result.handler ≡ handler }
{
    Refused {
        refusal: Refusal::NoMemory,
        handler,
    }
}

/// The cursor that goes on by the call, if one does.
fn turned_by(call: &Call) -> Option<u32>
    ensures { result ≡ turned_by call.now }
{
    match call {
        Call::Continue { cursor, .. } => Some(*cursor),
        Call::ContinuePrimaryKey { cursor, .. } => Some(*cursor),
        Call::Advance { cursor, .. } => Some(*cursor),
        _ => None,
    }
}

/// The cursor that the call opens, if it opens one, and what it goes over.
fn cursor_opened(
    alloc: Global,
    schema: &Schema,
    call: &Call,
) -> Result<Option<(Target, Cursor)>, NoMemory>
    ensures { IfOk result (λ r. r ≡ opened_by schema.now call.now) }
{
    match call {
        Call::OpenCursor {
            target,
            query,
            direction,
        } => {
            let cursor = new_cursor(alloc, schema, *target, query, *direction, false)?;
            Ok(Some((*target, cursor)))
        }
        Call::OpenKeyCursor {
            target,
            query,
            direction,
        } => {
            let cursor = new_cursor(alloc, schema, *target, query, *direction, true)?;
            Ok(Some((*target, cursor)))
        }
        _ => Ok(None),
    }
}

fn new_cursor(
    alloc: Global,
    schema: &Schema,
    target: Target,
    query: &Query,
    direction: Direction,
    keys_only: bool,
) -> Result<Cursor, NoMemory>
    ensures { IfOk result (λ r. r ≡ fresh_cursor (over_of schema.now target.index)
        direction (range_of_query query.now) keys_only) }
{
    let range = range_of_query(alloc, query)?;
    Ok(Cursor::new(
        over_of(schema, target.index),
        direction,
        Some(range),
        keys_only,
    ))
}

/// Where the index stands in the schema; the store itself where none is read.
fn over_of(schema: &Schema, index: Option<IndexId>) -> Over
    ensures { result ≡ over_of schema.now index }
{
    match index {
        Some(index) => match schema.places_of(index) {
            Some((_, place)) => Over::Index(place),
            None => Over::Store,
        },
        None => Over::Store,
    }
}
