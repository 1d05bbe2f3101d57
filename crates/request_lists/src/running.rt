// What the layer that runs the list does to a front. A handler changes a front by its calls alone, and none of these is one.
ghost use Rattle.std.specs.Prelude.{◌≡◌, ◌≤◌, ◌-◌, slice_get, IfOk, OnErr};
ghost use Rattle.std.specs.List.{find};
ghost use Rattle.std.specs.Option.{option_copied};
ghost use Rattle.idb_cursors.specs.Cursors.{iterated, turn_of};
ghost use Rattle.idb_cursors.specs.View.{key_shown};
ghost use Rattle.request_lists.specs.Fronts.{handler_of, cursor_of, is_cursor, cursor_changed, AreNumbered, requests_of};
ghost use Rattle.request_lists.specs.Running.{without_first, awake, ended_as, with_handler_lent, with_handler_returned, turn_found, cursor_turned, with_cursor_turned};

use crate::cursors::{lend_from, place_of_cursor, return_to};
use crate::entries::{FrontCursor, ListEntry, Phase};
use crate::front::TxFront;
use clone_values::{Key, Texts};
use idb_base::NoMemory;
use idb_cursors::RowView;
use idb_keys::Mode;
use idb_schema::Schema;
use std::alloc::Global;

impl<H: Drop> TxFront<H> {
    /// The mode of the transaction.
    pub fn mode(&self) -> Mode
        ensures { result ≡ self.now.mode }
    {
        self.mode
    }

    /// Where the transaction is in its life.
    pub fn phase(&self) -> Phase
        ensures { result ≡ self.now.phase }
    {
        self.phase
    }

    /// The names of its scope.
    pub fn scope(&self) -> &Texts
        ensures { result.now ≡ self.now.scope }
    {
        &self.scope
    }

    /// The schema as the calls have left it.
    pub fn left_schema(&self) -> &Schema
        ensures { result.now ≡ self.now.schema }
    {
        &self.schema
    }

    /// The entry that is run next.
    pub fn first(&self) -> Option<&ListEntry<H>>
        ensures { option_copied result ≡ slice_get self.now.waiting 0 }
    {
        self.waiting.front()
    }

    /// Takes the entry that is run next; no other is moved. It takes no memory.
    pub fn take_first(&mut self) -> Option<ListEntry<H>>
        ensures taken { result ≡ slice_get self.old.waiting 0 }
        ensures left { self.new ≡ without_first self.old }
    {
        self.waiting.pop_front()
    }

    /// An inactive front becomes active, for the handler of an event; any other phase stays. It takes no memory.
    pub fn wake(&mut self)
        ensures { self.new ≡ awake self.old }
    {
        if let Phase::Inactive = self.phase {
            self.phase = Phase::Active;
        }
    }

    /// The transaction has this phase from now on, as one that has committed or aborted. It takes no memory.
    pub fn end_as(&mut self, phase: Phase)
        ensures { self.new ≡ ended_as phase self.old }
    {
        self.phase = phase;
    }

    /// Takes the handler of the cursor of this number, for its event; it halves. It takes no memory.
    pub fn lend_handler(&mut self, number: u32) -> Option<H>
        ensures lent { result ≡ handler_of self.old.cursors number }
        ensures left { self.new ≡ with_handler_lent number self.old }
    {
        lend_from(&mut self.cursors, self.next, number)
    }

    /// Gives the cursor of this number its handler back; it halves. It takes no memory.
    pub fn return_handler(&mut self, number: u32, handler: H)
        ensures { self.new ≡ with_handler_returned number handler self.old }
    {
        return_to(&mut self.cursors, self.next, number, handler);
    }

    /// Moves the cursor of this number by so many turns over the members of its source, and gives the place of the member that it
    /// then takes, if there is one: then it has got it. It takes memory for the keys of that member alone.
    pub fn turn_cursor<R: RowView>(
        &mut self,
        number: u32,
        rows: &R,
        key: Option<&Key>,
        primary: Option<&Key>,
        count: u32,
    ) -> Result<Option<usize>, NoMemory>
        requires one_at_least { 1 ≤ count }
        ensures found { IfOk result (λ place. place ≡ turn_found (R.rows rows.now)
            (cursor_of self.old number) (key_shown key.entry) (key_shown primary.entry) (count - 1)) }
        ensures moved { IfOk result (λ place. self.new
            ≡ with_cursor_turned number (R.rows rows.now) place self.old) }
        ensures unchanged { OnErr result (self.new ≡ self.old) }
    {
        turn_in(
            self.alloc,
            &mut self.cursors,
            self.next,
            number,
            rows,
            key,
            primary,
            count,
        )
    }
}

/// The same of a list of cursors, which stand by number.
fn turn_in<H: Drop, R: RowView>(
    alloc: Global,
    cursors: &mut Vec<FrontCursor<H>>,
    next: u32,
    number: u32,
    rows: &R,
    key: Option<&Key>,
    primary: Option<&Key>,
    count: u32,
) -> Result<Option<usize>, NoMemory>
    requires one_at_least { 1 ≤ count }
    requires numbered { AreNumbered (requests_of cursors.old.items) next }
    ensures found { IfOk result (λ place. place ≡ turn_found (R.rows rows.now)
        (find (is_cursor number) cursors.old.items) (key_shown key.entry) (key_shown primary.entry)
        (count - 1)) }
    ensures moved { IfOk result (λ place. cursors.new.items
        ≡ cursor_changed number (cursor_turned (R.rows rows.now) place) cursors.old.items) }
    ensures unchanged { OnErr result (cursors.new.items ≡ cursors.old.items) }
    ensures numbered { AreNumbered (requests_of cursors.new.items) next }
{
    match place_of_cursor(cursors, next, number) {
        Some(place) => {
            let cursor = &mut cursors[place];
            turn_one(alloc, cursor, rows, key, primary, count)
        }
        None => Ok(None),
    }
}

fn turn_one<H: Drop, R: RowView>(
    alloc: Global,
    cursor: &mut FrontCursor<H>,
    rows: &R,
    key: Option<&Key>,
    primary: Option<&Key>,
    count: u32,
) -> Result<Option<usize>, NoMemory>
    requires { 1 ≤ count }
    ensures found { IfOk result (λ place. place ≡ iterated (R.rows rows.now)
        (turn_of cursor.old.cursor (key_shown key.entry) (key_shown primary.entry)) (count - 1)) }
    ensures moved { IfOk result (λ place. cursor.new ≡ cursor_turned (R.rows rows.now) place cursor.old) }
    ensures unchanged { OnErr result (cursor.new ≡ cursor.old) }
{
    let found = cursor.cursor.iterate(alloc, rows, key, primary, count)?;
    cursor.got = found.is_some();
    Ok(found)
}
