// Which steps are allowed, and by which name a call is refused.
ghost use Rattle.std.specs.Prelude.{◌≡◌, ◌<◌, ◌≤◌, ◌+◌, ◌^◌, ◌-◌, ℕ, Bool, not, ◌&&◌, ◌||◌, ◌==◌, length, Some, None, OnOk, OnErr, IfOk, IfSome};
ghost use Rattle.std.specs.List.{list_all};
ghost use Rattle.std.specs.Option.{option_copied};
ghost use Rattle.connection_queues.specs.Machine.{unhandled, schema_of};
ghost use Rattle.name_queues.specs.Mails.{events_of};
ghost use Rattle.name_queues.specs.Names.{conn_in};
ghost use Rattle.desk_steps.specs.Desks.{changes_in, name_asked_by, asks_of};
ghost use Rattle.idb_desk.specs.Parts.{desk_state_of};
ghost use Rattle.desk_steps.specs.Refusals.{has_version, is_at_limit, refusal_of_ask, is_open_conn, is_usable, is_closable, has_stores, refusal_of_create, refusal_of_step, is_to_start, fits_kept, may_leave_where, has_some, is_allowed, is_committed, is_schema_for};

use crate::board::Parts;
use crate::changes::has_unhandled;
use crate::clients::{asked_by, client_place, created_by, request_of, stand_of};
use crate::drawing::{drawn_at, is_go};
use clone_values::{Text, Texts};
use connection_queues::Queues;
use desk_steps::{DeskStep, DrawnTx, Stand, TxKind, TxStage};
use idb_calls::Outcome;
use idb_keys::{ErrorName, Mode};
use idb_schema::Schema;
use name_queues::{ConnId, Wants};

/// The greatest count of opens, deletes and transactions of a client.
pub const GREATEST_ASK_COUNT: usize = 10_000;

/// The greatest version of a database, 2^53 - 1.
pub const GREATEST_VERSION: u64 = 9_007_199_254_740_991;

/// The greatest count of stores of a database.
pub const GREATEST_STORE_COUNT: usize = 63;

fn has_version(wants: Wants) -> bool
    ensures { result ≡ has_version wants }
{
    match wants {
        Wants::Open {
            version: Some(version),
        } => 1 <= version && version <= GREATEST_VERSION,
        Wants::Open { version: None } | Wants::Delete => true,
    }
}

fn is_at_limit(parts: &Parts, client: u32) -> bool
    ensures { result ≡ is_at_limit (desk_state_of parts.now) client }
{
    let clients = parts.board.clients.as_slice();
    let asked = asked_by(clients, client);
    let created = created_by(clients, client);
    asked >= GREATEST_ASK_COUNT || created >= (GREATEST_ASK_COUNT - asked) as u64
}

/// The name by which an open or a delete is refused.
pub(crate) fn refusal_of_ask(parts: &Parts, who: ConnId, wants: Wants) -> Option<ErrorName>
    ensures { result ≡ refusal_of_ask (desk_state_of parts.now) who wants }
{
    if !has_version(wants) {
        Some(ErrorName::TypeError)
    } else if is_at_limit(parts, who.client) {
        Some(ErrorName::QuotaExceededError)
    } else {
        None
    }
}

fn is_open_conn(queues: &Queues, who: ConnId) -> bool
    ensures { result ≡ is_open_conn (conn_in queues.now.names who) }
{
    match queues.connection(who) {
        Some(conn) => !conn.is_closing,
        None => false,
    }
}

fn is_usable(parts: &Parts, who: ConnId) -> bool
    ensures { result ≡ is_usable (desk_state_of parts.now) who }
{
    matches!(stand_of(parts.board.clients.as_slice(), who), Stand::Given)
        && is_open_conn(&parts.queues, who)
}

fn is_closable(parts: &Parts, who: ConnId) -> bool
    ensures { result ≡ is_closable (desk_state_of parts.now) who }
{
    matches!(
        stand_of(parts.board.clients.as_slice(), who),
        Stand::Given | Stand::Upgrading
    ) && is_open_conn(&parts.queues, who)
}

fn has_all_stores(scope: &Texts, schema: &Schema) -> bool
    ensures { result ≡ has_stores scope.now (Some schema.now) }
{
    for i in 0..scope.len() {
        if let Some(name) = scope.at(i) {
            if schema.store_place(name).is_none() {
                return false;
            }
        }
    }
    true
}

fn has_stores(queues: &Queues, who: ConnId, scope: &Texts) -> bool
    ensures { result ≡ has_stores scope.now (schema_of queues.now who) }
{
    match queues.schema(who) {
        Some(schema) => has_all_stores(scope, schema),
        None => false,
    }
}

/// The name by which the creation of a transaction is refused.
pub(crate) fn refusal_of_create(
    parts: &Parts,
    who: ConnId,
    scope: &Texts,
    mode: Mode,
) -> Option<ErrorName>
    ensures { result ≡ refusal_of_create (desk_state_of parts.now) who scope.now mode }
{
    if !is_usable(parts, who) {
        Some(ErrorName::InvalidStateError)
    } else if !has_stores(&parts.queues, who, scope) {
        Some(ErrorName::NotFoundError)
    } else if scope.len() == 0 {
        Some(ErrorName::InvalidAccessError)
    } else if matches!(mode, Mode::VersionChange) {
        Some(ErrorName::TypeError)
    } else if is_at_limit(parts, who.client) {
        Some(ErrorName::QuotaExceededError)
    } else {
        None
    }
}

/// The name by which the call of a step is refused.
pub(crate) fn refusal_of_step(parts: &Parts, step: &DeskStep) -> Option<ErrorName>
    ensures { result ≡ refusal_of_step (desk_state_of parts.now) step.now }
{
    match step {
        DeskStep::Asks { who, wants, .. } => refusal_of_ask(parts, *who, *wants),
        DeskStep::Creates {
            who,
            scope,
            mode,
            ..
        } => refusal_of_create(parts, *who, scope, *mode),
        DeskStep::Takes { .. }
        | DeskStep::Handles { .. }
        | DeskStep::Closes { .. }
        | DeskStep::Starts { .. }
        | DeskStep::Leaves { .. }
        | DeskStep::Faults => None,
    }
}

/// A client took a versionchange event of a connection that isn't closed, and hasn't handled it.
fn has_change(parts: &Parts, client: u32) -> bool
    ensures { result ≡ has_some (unhandled parts.now.queues.names
        (changes_in parts.now.board.clients.items client)) }
{
    let clients = parts.board.clients.as_slice();
    match client_place(clients, client) {
        Some(place) => has_unhandled(&parts.queues, clients[place].changes()),
        None => false,
    }
}

fn is_to_start(t: Option<DrawnTx>, client: u32) -> bool
    ensures { result ≡ is_to_start client t }
{
    match t {
        Some(t) => t.who.client == client && matches!(t.stage, TxStage::Created),
        None => false,
    }
}

pub(crate) fn is_committed(outcome: &Outcome) -> bool
    ensures { result ≡ is_committed outcome.now }
{
    matches!(outcome, Outcome::Committed)
}

fn is_schema_for(name: &Text, version: u64, schema: &Schema) -> bool
    ensures { result ≡ is_schema_for (Some name.now) version schema.now }
{
    *schema.name() == *name && schema.version() == version && schema.len() <= GREATEST_STORE_COUNT
}

fn fits_kept(parts: &Parts, t: DrawnTx, committed: bool, kept: &Option<Schema>) -> bool
    ensures { result ≡ fits_kept (name_asked_by parts.now.board.clients.items t.who)
        t.kind committed kept.now }
{
    match (t.kind, kept) {
        (TxKind::Upgrade { .. }, None) => !committed,
        (TxKind::Upgrade { version }, Some(schema)) => match request_of(
            parts.board.clients.as_slice(),
            t.who,
        ) {
            Some(request) => committed && is_schema_for(&request.name, version, schema),
            None => false,
        },
        (TxKind::Plain | TxKind::Deletion, kept) => kept.is_none(),
    }
}

fn may_leave(
    parts: &Parts,
    client: u32,
    number: u64,
    outcome: &Outcome,
    kept: &Option<Schema>,
) -> bool
    ensures { result ≡ may_leave_where (desk_state_of parts.now) client outcome.now kept.now
        (Rattle.desk_steps.specs.Desks.drawn_at parts.now.board.drawn.items number) }
{
    match drawn_at(parts.board.drawn.as_slice(), number) {
        Some(t) => {
            let committed = is_committed(outcome);
            t.who.client == client
                && !matches!(t.stage, TxStage::Finished)
                && !(matches!(t.stage, TxStage::Created) && committed)
                && fits_kept(parts, t, committed, kept)
        }
        None => false,
    }
}

pub(crate) fn has_event(queues: &Queues, client: u32) -> bool
    ensures { result ≡ has_some (events_of queues.now.mails client) }
{
    queues.next_event(client).is_some()
}

fn is_next_ask(parts: &Parts, who: ConnId) -> bool
    ensures { result ≡ (who.request
        == length (asks_of parts.now.board.clients.items who.client) + 1) }
{
    let asked = asked_by(parts.board.clients.as_slice(), who.client);
    who.request != 0 && who.request as usize - 1 == asked
}

/// The step may be made.
pub(crate) fn is_allowed(parts: &Parts, step: &DeskStep) -> bool
    ensures { result ≡ is_allowed (desk_state_of parts.now) step.now }
{
    match step {
        DeskStep::Asks { who, wants, .. } => refusal_of_ask(parts, *who, *wants).is_none()
            && is_next_ask(parts, *who),
        DeskStep::Takes { client } => has_event(&parts.queues, *client),
        DeskStep::Handles { client } => has_change(parts, *client),
        DeskStep::Closes { who } => is_closable(parts, *who),
        DeskStep::Creates {
            number,
            who,
            scope,
            mode,
            ..
        } => {
            refusal_of_create(parts, *who, scope, *mode).is_none()
                && *number == parts.board.scopes.next()
        }
        DeskStep::Starts { client, number } => {
            !parts.board.is_faulted
                && is_to_start(drawn_at(parts.board.drawn.as_slice(), *number), *client)
                && is_go(&parts.board.scopes, *number)
        }
        DeskStep::Leaves {
            client,
            number,
            outcome,
            kept,
        } => may_leave(parts, *client, *number, outcome, kept),
        DeskStep::Faults => !parts.board.is_faulted,
    }
}
