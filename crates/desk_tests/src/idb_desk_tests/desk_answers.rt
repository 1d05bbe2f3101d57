// What the desk says in the same words.
use super::random_acts::{CLIENTS, step_of};
use super::slow_desk::Act;
use super::write_event;
use clone_values::Text;
use idb_desk::{Desk, DeskStep, TxKind, TxStage};
use idb_keys::{Durability, Mode};
use idb_schema::Schema;
use name_queues::ConnId;
use scope_desk::MayStart;
use std::alloc::Global;
use std::fmt::Write;
use std::process::Abort;

fn write_pending(rt: &impl Abort, desk: &Desk, said: &mut String) {
    for line in desk.pending().expect(rt, "memory").as_slice() {
        let sign = if line.waits { '<' } else { '.' };
        write!(
            said,
            "{}.{}{sign}{}.{} ",
            line.client, line.request, line.of_client, line.of_request
        )
        .expect(rt, "memory");
    }
}

fn write_events(rt: &impl Abort, desk: &Desk, said: &mut String) {
    for client in CLIENTS {
        if let Some(event) = desk.next_event(client) {
            write_event(said, &event);
        }
        write!(said, ",").expect(rt, "memory");
    }
}

fn write_unfinished(rt: &impl Abort, desk: &Desk, said: &mut String) {
    for number in 0..desk.next_number() {
        if desk.has_unfinished(number) {
            match desk.may_start(number) {
                MayStart::NotYet { blocker } => write!(said, "{number}<{blocker} ").expect(
                    rt, "memory",
                ),
                MayStart::Go => write!(said, "{number} ").expect(rt, "memory"),
            }
        }
    }
}

/// The next number, the least unfinished transaction, and each client's next event.
pub fn write_answers(rt: &impl Abort, desk: &Desk, said: &mut String) {
    write!(said, "{} {:?} ", desk.next_number(), desk.least()).expect(rt, "memory");
    write_events(rt, desk, said)
}

/// Which transactions may start, and which requests wait.
pub fn write_state(rt: &impl Abort, desk: &Desk, said: &mut String) {
    write_unfinished(rt, desk, said);
    write_pending(rt, desk, said)
}

pub fn write_txs(rt: &impl Abort, desk: &Desk, said: &mut String) {
    for number in 0..desk.next_number() {
        if let Some(t) = desk.drawn(number) {
            write!(
                said,
                "{}.{} {:?}",
                t.who.client,
                t.who.request,
                desk.durability(number)
            )
            .expect(rt, "memory");
            match t.kind {
                TxKind::Plain => write!(said, " plain").expect(rt, "memory"),
                TxKind::Upgrade { version } => write!(said, " to {version}").expect(rt, "memory"),
                TxKind::Deletion => write!(said, " deletion").expect(rt, "memory"),
            }
            match t.stage {
                TxStage::Created => write!(said, "; ").expect(rt, "memory"),
                TxStage::Started => write!(said, " started; ").expect(rt, "memory"),
                TxStage::Finished => write!(said, " finished; ").expect(rt, "memory"),
            }
        }
    }
}

fn write_schema(rt: &impl Abort, said: &mut String, schema: Option<&Schema>) {
    match schema {
        Some(schema) => write!(said, "{}:{} ", schema.version(), schema.len()).expect(rt, "memory"),
        None => write!(said, "- ").expect(rt, "memory"),
    }
}

pub fn write_base(rt: &impl Abort, desk: &Desk, said: &mut String, name: &Text) {
    write_schema(rt, said, desk.database(name))
}

/// What may be done with a connection, and the schema of its database.
pub fn write_conn(rt: &impl Abort, alloc: Global, desk: &Desk, said: &mut String, who: ConnId) {
    let close = DeskStep::Closes { who };
    let create = Act::Create(0, who, "s", Mode::ReadOnly, Durability::Strict);
    let refusal = desk.refusal(&step_of(rt, alloc, create));
    write!(said, "{} {refusal:?} ", desk.can(&close)).expect(rt, "memory");
    write_schema(rt, said, desk.schema(who))
}
