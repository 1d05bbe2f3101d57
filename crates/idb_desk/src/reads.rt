// What the desk shows.
ghost use Rattle.std.specs.Prelude.{◌≡◌, ◌+◌, Some, None, length, map, slice_get, option_map, IfSome, IfOk};
ghost use Rattle.std.specs.Option.{option_copied};
ghost use Rattle.scope_desk.specs.declared.unfinished.MayStart.TheVariants.{Go};
ghost use Rattle.scope_desk.specs.Starts.{may_start, IsUnfinished, is_numbered};
ghost use Rattle.std.specs.List.{list_any};
ghost use Rattle.connection_queues.specs.Machine.{schema_of};
ghost use Rattle.name_queues.specs.Mails.{events_of};
ghost use Rattle.desk_steps.specs.Databases.{database_in, database_under};
ghost use Rattle.desk_steps.specs.Desks.{drawn_at, asks_of, request_at};
ghost use Rattle.desk_steps.specs.Durabilities.{durability_drawn};
ghost use Rattle.desk_steps.specs.Refusals.{has_some};
ghost use Rattle.desk_steps.specs.Steps.{desk_run, event_for};
ghost use Rattle.desk_steps.specs.Tokens.{token_of};
ghost use Rattle.desk_steps.specs.Waiting.{pending_of};

use crate::clients::{asked_by, request_of};
use crate::desk::Desk;
use clone_values::Text;
use desk_steps::{DeskRequest, DeskStep, DrawnTx};
use idb_base::NoMemory;
use idb_calls::{PendingLines, Tokens};
use idb_keys::Durability;
use idb_schema::Schema;
use name_queues::{ClientEvent, ConnId, Named};
use scope_desk::MayStart;

/// The schema of the database of this name.
fn database_in<'a>(names: &'a [Named], name: &Text) -> Option<&'a Schema>
    ensures { option_copied result ≡ database_in names.now name.now }
{
    for n in names {
        if n.is_name(name.as_str()) {
            return match &n.database {
                Some(schema) => Some(schema),
                None => None,
            };
        }
    }
    None
}

impl Desk {
    /// The steps so far, in order.
    pub fn steps(&self) -> &[DeskStep]
        ensures { result.now ≡ self.now.order }
    {
        self.order.as_slice()
    }

    /// The steps so far as a report lists them.
    pub fn tokens(&self) -> Result<Tokens, NoMemory>
        ensures { IfOk result (λ tokens. tokens ≡ map token_of self.now.order) }
    {
        crate::waiting::tokens_of(self.parts.board.alloc, self.order.as_slice())
    }

    /// The opens and deletes that aren't answered, by client and request, as a report lists them.
    #[tactic(auto, unfolding(desk_steps::specs::Waiting::pending_of))]
    pub fn pending(&self) -> Result<PendingLines, NoMemory>
        ensures { IfOk result (λ lines. lines ≡ pending_of (desk_run self.now)) }
    {
        crate::waiting::pending_of(self.parts.board.alloc, self.parts.queues.names())
    }

    /// The names of databases, by their bytes: what exists, what runs, which requests wait, and which connections aren't closed.
    pub fn names(&self) -> &[Named]
        ensures { result.now ≡ (desk_run self.now).queues.names }
    {
        self.parts.queues.names()
    }

    /// The schema of the database of this name, as its last finished upgrade left it; `None` where there is none.
    pub fn database(&self, name: &Text) -> Option<&Schema>
        ensures { option_copied result ≡ database_under (desk_run self.now) name.now }
    {
        database_in(self.parts.queues.names(), name)
    }

    /// The client's oldest event that it hasn't taken.
    pub fn next_event(&self, client: u32) -> Option<ClientEvent>
        ensures { result ≡ event_for (desk_run self.now) client }
    {
        self.parts.queues.next_event(client)
    }

    /// Whether the client has an event that it hasn't taken.
    pub fn has_event(&self, client: u32) -> bool
        ensures { result ≡ has_some (events_of (desk_run self.now).queues.mails client) }
    {
        crate::allowing::has_event(&self.parts.queues, client)
    }

    /// The number that is drawn next.
    pub fn next_number(&self) -> u64
        ensures { result ≡ (desk_run self.now).board.scopes.next }
    {
        self.parts.board.scopes.next()
    }

    /// The number of the client's next open or delete, counted from 1.
    pub fn asked(&self, client: u32) -> usize
        ensures { result ≡ length (asks_of (desk_run self.now).board.clients client) }
    {
        asked_by(self.parts.board.clients.as_slice(), client)
    }

    /// The open or delete of a client and number.
    pub fn request(&self, who: ConnId) -> Option<&DeskRequest>
        ensures { option_copied result ≡ request_at (desk_run self.now).board.clients who }
    {
        request_of(self.parts.board.clients.as_slice(), who)
    }

    /// The schema of a connection's database, as its last finished upgrade left it; `None` where the connection is closed.
    pub fn schema(&self, who: ConnId) -> Option<&Schema>
        ensures { option_copied result ≡ schema_of (desk_run self.now).queues who }
    {
        self.parts.queues.schema(who)
    }

    /// The transaction of this number.
    pub fn drawn(&self, number: u64) -> Option<DrawnTx>
        ensures { result ≡ drawn_at (desk_run self.now).board.drawn number }
    {
        crate::drawing::drawn_at(self.parts.board.drawn.as_slice(), number)
    }

    /// The durability with which the transaction of this number was created; an upgrade or a deletion is strict.
    pub fn durability(&self, number: u64) -> Durability
        ensures { result ≡ durability_drawn self.now.order number }
    {
        if self.relaxed.contains(&number) {
            Durability::Relaxed
        } else {
            Durability::Strict
        }
    }

    /// The least unfinished transaction. It looks at no other.
    pub fn least(&self) -> Option<u64>
        ensures first { result
            ≡ option_map (λ t. t.number) (slice_get (desk_run self.now).board.scopes.unfinished 0) }
        ensures may_start { IfSome result (λ number. may_start (desk_run self.now).board.scopes number ≡ Go) }
    {
        self.parts.board.scopes.least()
    }

    /// Whether the number is that of an unfinished transaction.
    pub fn has_unfinished(&self, number: u64) -> bool
        ensures { result ≡ list_any (is_numbered number) (desk_run self.now).board.scopes.unfinished }
    {
        self.parts.board.scopes.has(number)
    }

    /// Whether no earlier unfinished transaction conflicts with this one; else the least that does.
    pub fn may_start(&self, number: u64) -> MayStart
        requires { IsUnfinished (desk_run self.now).board.scopes number }
        ensures { result ≡ may_start (desk_run self.now).board.scopes number }
    {
        self.parts.board.scopes.may_start(number)
    }

    /// Whether the host is faulted.
    pub fn is_faulted(&self) -> bool
        ensures { result ≡ (desk_run self.now).board.is_faulted }
    {
        self.parts.board.is_faulted
    }
}
