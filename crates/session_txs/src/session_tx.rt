// A transaction of a session that runs.
ghost use Rattle.std.specs.Prelude.{◌≡◌, ◌≢◌, None, Some, true, not, is_some, length, IfOk};
ghost use Rattle.idb_base.specs.Lists.{IsWithinLimit};
ghost use Rattle.idb_calls.specs.declared.traces.Outcome.TheVariants.{Committed};
ghost use Rattle.loggable_changes.specs.Logging.{AreLoggable};
ghost use Rattle.request_lists.specs.Fronts.{is_read_only_mode};
ghost use Rattle.list_machine.specs.declared.steps.Step.TheVariants as steps;
ghost use Rattle.serial_order.specs.SerialRuns.{schema_kept};
ghost use Rattle.session_txs.specs.Running.{StepsInto, part_left, RanSo, DoubtedRun};
ghost use Rattle.session_txs.specs.Keeping.{changes_told, schema_kept_by};

use crate::laws_of_runs::run_laws;
use crate::left_part::LeftPart;
use crate::turns::{TurnNotes, note_turn};
use clone_values::{Text, Texts};
use edge_traits::Gate;
use idb_calls::{Deltas, Outcome, TxTrace};
use idb_keys::Mode;
use idb_schema::Schema;
use index_tables::Tables;
use list_machine::Step;
use live_tx::LiveTx;
use loggable_changes::{loggable_change_laws, logging_laws};
use machine_laws::limit_laws;
use request_lists::TxFront;
use script_handlers::ScriptHandler;
use script_runs::Notes;
use std::alloc::Global;
use std::marker::Model;
use std::snapshot::Snapshot;

/// A transaction of a session that runs. Contracts see its number, what it was begun with, the part of the databases that it was
/// begun on, the lines of each of its turns, and its end, once no entry is left or it has aborted.
#[derive(Drop)]
pub struct SessionTx<T: Tables> {
    pub(crate) mode: Mode,
    pub(crate) name: Text,
    pub(crate) names: Texts,
    pub(crate) threw: bool,
    pub(crate) schema: Snapshot<Schema>,
    pub(crate) front: Snapshot<TxFront<ScriptHandler>>,
    pub(crate) live: LiveTx<T, ScriptHandler>,
    pub(crate) turns: Vec<TurnNotes>,
    pub(crate) is_stuck: bool,
    pub(crate) end: Option<Outcome>,
}

impl<T: Tables> Model for SessionTx<T> {
    ghost use Rattle.client_parts.specs.Begun.{scripted_body};
    ghost use Rattle.session_txs.specs.Codes.{session_tx_code};
    ghost use Rattle.session_txs.specs.Running.{SessionTxState};

    ghost Value = { SessionTxState };

    ghost coded = { session_tx_code };

    ghost use Rattle.session_txs.specs.Keeping.{turns_seen, IsRunning};

    ghost view = { λ a. record {
      number = a.live.number;
      body = scripted_body a.mode a.schema.value a.names a.front.value a.threw;
      part = a.live.state.before;
      turns = turns_seen a.turns.items;
      end = a.end;
    } };

    ghost invariant = { λ a. IsRunning
        (scripted_body a.mode a.schema.value a.names a.front.value a.threw)
        a.name a.live.state (turns_seen a.turns.items) a.is_stuck a.end };
}

/// A transaction that came to its end.
#[derive(Drop)]
pub struct TxEnd<T: Tables> {
    /// What is told of it: a committed one has its changes, in the order in which they took effect, and an aborted one none.
    pub trace: TxTrace,
    /// The schema as the calls of a committed upgrade left it.
    pub kept: Option<Schema>,
    /// Its part of the databases, which isn't back yet.
    pub left: LeftPart<T>,
}

impl<T: Tables> SessionTx<T> {
    /// Whether it may change its database.
    pub fn may_write(&self) -> bool
        ensures { result ≡ not (is_read_only_mode self.now.body.mode) }
    {
        !matches!(self.mode, Mode::ReadOnly)
    }

    /// How many turns it had.
    pub fn turn_count(&self) -> usize
        ensures { result ≡ length self.now.turns }
    {
        self.turns.len()
    }

    /// One turn: the first entry that waits is run, and its handler called (Indexed Database API 3.0, "transaction lifetime").
    /// Before a request runs the gate is told of it, with this client and this number of the transaction. Where no entry is left it
    /// has ended, and can finish. After `NoMemory` it can only be dropped.
    pub fn step<G: Gate>(&mut self, gate: &G, client: u32, number: u64, notes: &mut Notes) -> Step
        requires { self.old.end ≡ None }
        ensures { result ≢ steps.NoMemory → StepsInto result self.old notes.old self.new notes.new }
    {
        if let Some(request) = self.live.next_request() {
            gate.at(client, number, request);
        }
        self.turn(notes)
    }

    fn turn(&mut self, notes: &mut Notes) -> Step
        requires { self.old.end ≡ None }
        ensures { result ≢ steps.NoMemory → StepsInto result self.old notes.old self.new notes.new }
    {
        if self.is_stuck {
            return Step::NoMemory;
        }
        self.is_stuck = true;
        run_laws();
        logging_laws::<ScriptHandler>();
        limit_laws::<ScriptHandler>();
        self.live.stand_sound();
        let before = Snapshot::of(&*notes);
        match self.live.step(notes) {
            Step::Did => {
                self.live.stand_sound();
                match note_turn(&mut self.turns, before, notes) {
                    Ok(()) => {}
                    Err(_) => return Step::NoMemory,
                }
                self.is_stuck = false;
                return Step::Did;
            }
            Step::Idle => {
                self.live.stand_sound();
                self.end = Some(Outcome::Committed);
                return Step::Idle;
            }
            Step::Aborted { error } => {
                match note_turn(&mut self.turns, before, notes) {
                    Ok(()) => {}
                    Err(_) => return Step::NoMemory,
                }
                self.end = Some(Outcome::Aborted {
                    error,
                    doubt: false,
                });
                return Step::Aborted { error };
            }
            Step::NoMemory => return Step::NoMemory,
        }
    }

    /// What it came to. Its part of the databases is still to be put back: as it left it, or where its commit meets a fault of the
    /// disk, as it was. It takes no memory.
    pub fn close(self, alloc: Global) -> TxEnd<T>
        requires ended { is_some self.end ≡ true }
        ensures outcome { self.end ≡ Some result.trace.outcome }
        ensures ran { RanSo self result.trace.deltas result.kept result.trace.outcome }
        ensures doubted { result.trace.outcome ≡ Committed → DoubtedRun self result.trace.deltas }
        ensures left { result.left ≡ part_left self result.trace.deltas }
        ensures loggable { result.trace.outcome ≡ Committed
            → AreLoggable result.trace.deltas × IsWithinLimit result.trace.deltas }
        ensures number { result.trace.number ≡ self.number }
        ensures mode { result.trace.mode ≡ self.body.mode }
    {
        run_laws();
        loggable_change_laws();
        let SessionTx {
            mode,
            name,
            names,
            live,
            end,
            ..
        } = self;
        let done = live.into_parts();
        let Some(outcome) = end else { unreachable!() };
        let (deltas, kept) = kept_of(alloc, mode, outcome, done.deltas, done.schema);
        let changes = Snapshot::of(&deltas);
        TxEnd {
            trace: TxTrace {
                number: done.number,
                mode,
                durability: done.durability,
                deltas,
                lines: done.told,
                outcome,
            },
            kept,
            left: LeftPart {
                mode,
                name,
                names,
                stores: done.stores,
                changes,
            },
        }
    }
}

/// What a transaction with this outcome keeps: its changes, and its schema.
fn kept_of(
    alloc: Global,
    mode: Mode,
    outcome: Outcome,
    deltas: Deltas,
    schema: Schema,
) -> (Deltas, Option<Schema>)
    ensures deltas { result.0 ≡ changes_told outcome deltas }
    ensures schema { result.1 ≡ schema_kept_by outcome mode schema }
{
    match outcome {
        Outcome::Committed => (deltas, kept_by(mode, schema)),
        Outcome::Aborted { .. } => (Deltas::new(alloc), None),
    }
}

/// The schema that a committed transaction keeps: an upgrade's.
fn kept_by(mode: Mode, schema: Schema) -> Option<Schema>
    ensures { result ≡ schema_kept mode schema }
{
    match mode {
        Mode::ReadOnly => None,
        Mode::ReadWrite => None,
        Mode::VersionChange => Some(schema),
    }
}
