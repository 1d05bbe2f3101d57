// Live transactions.
ghost use Rattle.std.specs.Prelude.{◌≡◌, ◌≢◌, ◌++◌, [], List, OnOk};
ghost use Rattle.item_changes.specs.Items.{stores_in};
ghost use Rattle.idb_databases.specs.Stores.{AreStores};
ghost use Rattle.list_machine.specs.declared.steps.Step.TheVariants as steps;
ghost use Rattle.list_machine.specs.Machine.{Turn};
ghost use Rattle.list_machine.specs.Seeing.{state_map, pulled_reacts, pulled_writes};
ghost use Rattle.entry_runs.specs.Courses.{state_with, course_in, live_in};
ghost use Rattle.handler_calls.specs.Cancelling.{cancel_error};
ghost use Rattle.live_tx.specs.declared.standing.Standing.TheVariants as stands;
ghost use Rattle.live_tx.specs.Telling.{TurnsInto, AbortsInto};
ghost use Rattle.live_tx.specs.Live.{next_number, standing_after, IsReadyState, reverted, abort_error, AbortsFrom, standing_aborted};

use crate::ending::{abort_all, abort_error, cancel_error, drop_entries};
use crate::parts::LiveParts;
use crate::standing::{Standing, standing_after};
use crate::turning::turn;
use entry_runs::{Course, CourseParts};
use idb_base::NoMemory;
use idb_calls::Events;
use idb_keys::{Durability, ErrorName};
use idb_schema::Schema;
use index_tables::Tables;
use list_machine::{Step, seeing_laws};
use request_lists::{Handler, ListEntry, Phase, TxFront};
use std::alloc::Global;
use std::marker::Model;

/// A live transaction: its front, its stores, and what it did so far. Contracts see its number, its durability, the state of the list
/// machine, what its requests were told, and where it stands. Where it goes on, each entry that waits has its handler and was
/// checked; where it has aborted, the database before it is back.
#[derive(Drop)]
pub struct LiveTx<T: Tables, H> {
    number: u64,
    durability: Durability,
    front: TxFront<H>,
    course: Course<T>,
    told: Events,
    standing: Standing,
}

impl<T: Tables, H> Model for LiveTx<T, H> {
    ghost use Rattle.std.specs.Coded.{codes};
    ghost use Rattle.clone_values.specs.Tree.{tree_code};
    ghost use Rattle.clone_values.specs.KeyTree.{key_code};
    ghost use Rattle.idb_keys.specs.KeyRange.{range_code};
    ghost use Rattle.indexed_records.specs.Contents.{records_code};
    ghost use Rattle.idb_databases.specs.Items.{database_code};
    ghost use Rattle.entry_runs.specs.Courses.{state_with};
    ghost use Rattle.live_tx.specs.Live.{LiveState, StandsSo};

    ghost Value = { LiveState H };

    ghost coded = { Prim.hlevel (
      codes,
      range_code,
      key_code,
      tree_code,
      database_code (Prim.hlevel
          (codes, records_code)),
    ) };

    ghost view = { λ a. record {
      number = a.number;
      durability = a.durability;
      state = state_with a.front a.course;
      told = a.told;
      standing = a.standing;
    } };

    ghost invariant = { λ a. StandsSo a.standing (state_with a.front a.course) };
}

impl<T: Tables, H: Handler> LiveTx<T, H> {
    /// The transaction of a front whose body has run, over these stores. It takes no memory.
    pub fn new(
        alloc: Global,
        number: u64,
        durability: Durability,
        front: TxFront<H>,
        course: Course<T>,
    ) -> LiveTx<T, H>
        requires { IsReadyState (state_with front course) }
        ensures { result ≡ record {
          number = number;
          durability = durability;
          state = state_with front course;
          told = [];
          standing = stands.Running;
        } }
    {
        LiveTx {
            number,
            durability,
            front,
            course,
            told: Events::new(alloc),
            standing: Standing::Running,
        }
    }

    /// The number of the request whose entry is run next; `None` where none waits, or a call of an upgrade is next.
    pub fn next_request(&self) -> Option<u32>
        ensures { result ≡ next_number self.now.state.front.waiting }
    {
        match self.front.first() {
            Some(entry) => match entry {
                ListEntry::Request { request, .. } => Some(*request),
                ListEntry::Turn { cursor, .. } => Some(*cursor),
                ListEntry::Change { .. } => None,
            },
            None => None,
        }
    }

    /// The schema as the calls so far have left it.
    pub fn schema(&self) -> &Schema
        ensures { result.now ≡ self.now.state.front.schema }
    {
        self.front.left_schema()
    }

    /// Each store is as the standard asks, at every moment. It does nothing.
    pub fn stand_sound(&self)
        ensures { AreStores (stores_in self.now.state.database) }
    {
        self.course.stand_sound();
    }

    /// Where it stands.
    pub fn standing(&self) -> Standing
        ensures { result ≡ self.now.standing }
    {
        self.standing
    }

    /// One turn of the list machine: the first entry is run, and its handler called (Indexed Database API 3.0, "transaction lifetime").
    /// The notes get what the handlers write. Once it has aborted a step answers that again, and does nothing; after `NoMemory`
    /// it can only be reverted.
    pub fn step(&mut self, notes: &mut H::Notes) -> Step
        ensures turn { result ≢ steps.NoMemory → (ls : List H.Line)
            × Turn H.reacts H.writes (state_map H.plain self.old.state) result
            (state_map H.plain self.new.state) ls
            × (H.lines notes.new ≡ H.lines notes.old ++ ls) }
        ensures told { result ≢ steps.NoMemory → TurnsInto (pulled_reacts H.plain H.reacts)
            (pulled_writes H.plain H.writes)
            self.old.state result self.new.state
            (H.lines notes.old) (H.lines notes.new) self.old.told self.new.told }
        ensures before { self.new.state.before ≡ self.old.state.before }
        ensures standing { self.new.standing ≡ standing_after result }
        ensures number { self.new.number ≡ self.old.number }
        ensures durability { self.new.durability ≡ self.old.durability }
    {
        seeing_laws::<H>();
        self.turn_raw(notes)
    }

    /// The same, over the handlers themselves.
    fn turn_raw(&mut self, notes: &mut H::Notes) -> Step
        ensures told { result ≢ steps.NoMemory → TurnsInto (pulled_reacts H.plain H.reacts)
            (pulled_writes H.plain H.writes)
            self.old.state result self.new.state
            (H.lines notes.old) (H.lines notes.new) self.old.told self.new.told }
        ensures before { self.new.state.before ≡ self.old.state.before }
        ensures standing { self.new.standing ≡ standing_after result }
        ensures number { self.new.number ≡ self.old.number }
        ensures durability { self.new.durability ≡ self.old.durability }
    {
        match self.standing {
            Standing::Running => return self.turn_ready(notes),
            Standing::Idle => return self.turn_ready(notes),
            Standing::Aborted { error } => return Step::Aborted { error },
            Standing::Stuck => return Step::NoMemory,
        }
    }

    /// The same, of one that goes on.
    fn turn_ready(&mut self, notes: &mut H::Notes) -> Step
        requires { IsReadyState self.old.state }
        ensures told { result ≢ steps.NoMemory → TurnsInto (pulled_reacts H.plain H.reacts)
            (pulled_writes H.plain H.writes)
            self.old.state result self.new.state
            (H.lines notes.old) (H.lines notes.new) self.old.told self.new.told }
        ensures before { self.new.state.before ≡ self.old.state.before }
        ensures standing { self.new.standing ≡ standing_after result }
        ensures number { self.new.number ≡ self.old.number }
        ensures durability { self.new.durability ≡ self.old.durability }
    {
        let step = turn(&mut self.front, &mut self.course, &mut self.told, notes);
        self.standing = standing_after(step);
        step
    }

    /// The transaction aborts from outside, as where a fault met it: the database before is back, and the requests that wait are told, in
    /// order (Indexed Database API 3.0, "abort a transaction"). An error by which the script had aborted it stays; one that has
    /// aborted stays as it is. After `NoMemory` it can only be reverted.
    pub fn abort(&mut self, error: Option<ErrorName>, notes: &mut H::Notes) -> Result<(), NoMemory>
        ensures aborted { OnOk result (AbortsFrom H.reacts H.writes
            self.old.standing (state_map H.plain self.old.state) error (state_map H.plain self.new.state)
            (H.lines notes.old) (H.lines notes.new) self.old.told self.new.told) }
        ensures standing { OnOk result
            (self.new.standing ≡ standing_aborted self.old.standing self.old.state.front.phase error) }
        ensures before { self.new.state.before ≡ self.old.state.before }
        ensures number { self.new.number ≡ self.old.number }
        ensures durability { self.new.durability ≡ self.old.durability }
    {
        self.abort_raw(error, notes)
    }

    /// The same, over the handlers themselves.
    fn abort_raw(&mut self, error: Option<ErrorName>, notes: &mut H::Notes) -> Result<(), NoMemory>
        ensures aborted { OnOk result (AbortsFrom (pulled_reacts H.plain H.reacts)
            (pulled_writes H.plain H.writes)
            self.old.standing self.old.state error self.new.state
            (H.lines notes.old) (H.lines notes.new) self.old.told self.new.told) }
        ensures standing { OnOk result
            (self.new.standing ≡ standing_aborted self.old.standing self.old.state.front.phase error) }
        ensures before { self.new.state.before ≡ self.old.state.before }
        ensures number { self.new.number ≡ self.old.number }
        ensures durability { self.new.durability ≡ self.old.durability }
    {
        match self.standing {
            Standing::Running => return self.abort_ready(error, notes),
            Standing::Idle => return self.abort_ready(error, notes),
            Standing::Aborted { .. } => return Ok(()),
            Standing::Stuck => return Err(NoMemory),
        }
    }

    /// The same, of one that goes on.
    fn abort_ready(
        &mut self,
        error: Option<ErrorName>,
        notes: &mut H::Notes,
    ) -> Result<(), NoMemory>
        requires { IsReadyState self.old.state }
        ensures aborted { OnOk result (AbortsInto (pulled_reacts H.plain H.reacts)
            (pulled_writes H.plain H.writes)
            self.old.state (abort_error self.old.state.front.phase error) self.new.state
            (H.lines notes.old) (H.lines notes.new) self.old.told self.new.told) }
        ensures standing { OnOk result
            (self.new.standing ≡ stands.Aborted (abort_error self.old.state.front.phase error)) }
        ensures before { self.new.state.before ≡ self.old.state.before }
        ensures number { self.new.number ≡ self.old.number }
        ensures durability { self.new.durability ≡ self.old.durability }
    {
        let error = abort_error(self.front.phase(), error);
        match abort_all(
            &mut self.front,
            &mut self.course,
            error,
            &mut self.told,
            notes,
        ) {
            Ok(()) => {
                self.standing = Standing::Aborted { error };
                return Ok(());
            }
            Err(NoMemory) => {
                self.standing = Standing::Stuck;
                return Err(NoMemory);
            }
        }
    }

    /// Every store is as it was before the transaction, and no change is left. The requests that wait are dropped, and told nothing. It
    /// takes no memory, and is all that is left after `NoMemory`.
    pub fn revert(&mut self)
        ensures { self.new ≡ record self.old {
          state = reverted self.old.state;
          standing = stands.Aborted (cancel_error self.old.state.front.phase);
        } }
    {
        let error = cancel_error(self.front.phase());
        self.course.restore();
        self.front.end_as(Phase::Aborted { error });
        drop_entries(&mut self.front);
        self.standing = Standing::Aborted { error };
    }

    /// What is left of it, and what its trace says. It takes no memory.
    pub fn into_parts(self) -> LiveParts<T>
        ensures number { result.number ≡ self.number }
        ensures mode { result.mode ≡ self.state.front.mode }
        ensures durability { result.durability ≡ self.durability }
        ensures schema { result.schema ≡ self.state.schema }
        ensures stores { result.stores ≡ live_in (course_in self.state) }
        ensures deltas { result.deltas ≡ self.state.changes }
        ensures told { result.told ≡ self.told }
        ensures standing { result.standing ≡ self.standing }
    {
        let LiveTx {
            number,
            durability,
            front,
            course,
            told,
            standing,
        } = self;
        let mode = front.mode();
        let CourseParts {
            schema,
            stores,
            changes,
        } = course.into_parts();
        LiveParts {
            number,
            mode,
            durability,
            schema,
            stores,
            deltas: changes,
            told,
            standing,
        }
    }
}
