// The queues on worked values. An event is written as its client, a sign and what it carries: `+` a success, `!` an error, `^` an
// upgrade, `#` blocked, `~` a versionchange, `x` a closing, `-` that a deletion may run.
use clone_values::Text;
use connection_queues::Queues;
use idb_base::GREATEST_LENGTH;
use idb_keys::ErrorName;
use idb_schema::{Schema, Schemas, StoreInfos};
use name_queues::{ClientEvent, ConnId, Turn};
use std::alloc::Global;
use std::fmt::Write;
use std::process::Abort;

#[derive(Clone, Copy)]
enum Edit {
    Open(u32, u32, Option<u64>),
    OpenOther(u32, u32, u8),
    Delete(u32, u32),
    Turn,
    Take(u32),
    Handled(u32),
    Close(u32, u32),
    Begin(u32, u32),
    End(u32, u32),
    Upgraded(u64),
    Aborted,
    Deleted(bool),
    Version(u32, u32),
    Fault,
}

fn text(rt: &impl Abort, alloc: Global, s: &str) -> Text {
    assert!(rt; s.len() <= GREATEST_LENGTH);
    Text::copy_of(alloc, s).expect(rt, "memory")
}

fn who(client: u32, request: u32) -> ConnId {
    ConnId { client, request }
}

/// The name of another database.
fn other_name(rt: &impl Abort, alloc: Global, number: u8) -> Text {
    let mut name = String::new(alloc);
    let _ = write!(name, "e{number}");
    text(rt, alloc, name.as_str())
}

/// An event as it is written.
fn write_event(said: &mut String, event: &ClientEvent) {
    let ConnId { client, request } = event.conn();
    let _ = write!(said, "{client}.{request}");
    let _ = match event {
        ClientEvent::Upgrade { old, new, .. } => write!(said, "^{old}-{new}"),
        ClientEvent::Blocked { old, new, .. } => write!(said, "#{old}-{}", new.unwrap_or(0)),
        ClientEvent::Success { version, .. } => write!(said, "+{version}"),
        ClientEvent::Error { name, .. } => write!(said, "!{name}"),
        ClientEvent::VersionChange { old, new, .. } => {
            write!(said, "~{old}-{}", new.unwrap_or(0))
        }
        ClientEvent::Closed { .. } => write!(said, "x"),
        ClientEvent::DeleteReady { old, .. } => write!(said, "-{old}"),
    };
    let _ = write!(said, " ");
}

fn write_turn(said: &mut String, turn: Turn) {
    let _ = match turn {
        Turn::Moved => write!(said, "m "),
        Turn::Empty => write!(said, "e "),
        Turn::Waiting { connection } => {
            write!(said, "w{}.{} ", connection.client, connection.request)
        }
        Turn::Running => write!(said, "r "),
    };
}

fn open(rt: &impl Abort, alloc: Global, queues: &mut Queues, who: ConnId, version: Option<u64>) {
    queues
        .ask_open(who, text(rt, alloc, "d"), version)
        .expect(rt, "memory");
}

fn open_other(rt: &impl Abort, alloc: Global, queues: &mut Queues, who: ConnId, number: u8) {
    queues
        .ask_open(who, other_name(rt, alloc, number), None)
        .expect(rt, "memory");
}

fn delete(rt: &impl Abort, alloc: Global, queues: &mut Queues, who: ConnId) {
    queues
        .ask_delete(who, text(rt, alloc, "d"))
        .expect(rt, "memory");
}

fn make_turn(rt: &impl Abort, alloc: Global, queues: &mut Queues, said: &mut String) {
    let name = text(rt, alloc, "d");
    write_turn(said, queues.turn(&name));
}

fn take(queues: &mut Queues, said: &mut String, client: u32) {
    match queues.take(client) {
        Some(event) => write_event(said, &event),
        None => {
            let _ = write!(said, "none ");
        }
    }
}

fn begin(queues: &mut Queues, who: ConnId) {
    if queues.connection(who).is_some_and(|c| c.txs < 9) {
        queues.tx_begun(who);
    }
}

/// The schema of the database "d" at this version.
fn schema_at(rt: &impl Abort, alloc: Global, version: u64) -> Schema {
    Schema::new(alloc, text(rt, alloc, "d"), version, StoreInfos::new(alloc)).expect(rt, "memory")
}

fn end_upgrade(rt: &impl Abort, alloc: Global, queues: &mut Queues, version: Option<u64>) {
    let kept = match version {
        Some(version) => Some(schema_at(rt, alloc, version)),
        None => None,
    };
    queues.upgrade_done(&text(rt, alloc, "d"), kept);
}

fn end_delete(rt: &impl Abort, alloc: Global, queues: &mut Queues, kept: bool) {
    queues.delete_done(&text(rt, alloc, "d"), kept);
}

fn write_version(queues: &Queues, said: &mut String, who: ConnId) {
    let _ = match queues.schema(who) {
        Some(schema) => write!(said, "v{} ", schema.version()),
        None => write!(said, "closed "),
    };
}

/// Makes one edit of the database "d", and writes what it answered.
fn make(rt: &impl Abort, alloc: Global, queues: &mut Queues, said: &mut String, edit: &Edit) {
    match edit {
        Edit::Open(client, request, version) => {
            open(rt, alloc, queues, who(*client, *request), *version)
        }
        Edit::OpenOther(client, request, number) => {
            open_other(rt, alloc, queues, who(*client, *request), *number)
        }
        Edit::Delete(client, request) => delete(rt, alloc, queues, who(*client, *request)),
        Edit::Turn => make_turn(rt, alloc, queues, said),
        Edit::Take(client) => take(queues, said, *client),
        Edit::Handled(client) => queues.handled(*client),
        Edit::Close(client, request) => queues.close(who(*client, *request)),
        Edit::Begin(client, request) => begin(queues, who(*client, *request)),
        Edit::End(client, request) => queues.tx_done(who(*client, *request)),
        Edit::Upgraded(version) => end_upgrade(rt, alloc, queues, Some(*version)),
        Edit::Aborted => end_upgrade(rt, alloc, queues, None),
        Edit::Deleted(kept) => end_delete(rt, alloc, queues, *kept),
        Edit::Version(client, request) => write_version(queues, said, who(*client, *request)),
        Edit::Fault => queues.fault(),
    }
}

/// The queues over the database "d" of this version; at 0 there is none.
fn queues_at(rt: &impl Abort, alloc: Global, version: u64) -> Queues {
    let mut schemas = Schemas::new(alloc);
    if version != 0 {
        schemas
            .push(schema_at(rt, alloc, version))
            .expect(rt, "memory");
    }
    Queues::new(alloc, schemas).expect(rt, "memory")
}

/// Makes all edits, over the database "d" of this version, and gives what was answered.
fn run(rt: &impl Abort, alloc: Global, version: u64, edits: &[Edit]) -> String {
    let mut queues = queues_at(rt, alloc, version);
    let mut said = String::new(alloc);
    for edit in edits {
        make(rt, alloc, &mut queues, &mut said, edit);
    }
    said
}

const DELETE_AND_OPEN: [Edit; 31] = [
    Edit::Open(1, 1, None),
    Edit::Turn,
    Edit::Take(1),
    Edit::Open(1, 2, Some(1)),
    Edit::Turn,
    Edit::Take(1),
    Edit::Delete(2, 1),
    Edit::Turn,
    Edit::Turn,
    Edit::Take(1),
    Edit::Turn,
    Edit::Handled(1),
    Edit::Turn,
    Edit::Take(2),
    Edit::Turn,
    Edit::Open(3, 1, None),
    Edit::Close(1, 1),
    Edit::Turn,
    Edit::Take(2),
    Edit::Turn,
    Edit::Deleted(true),
    Edit::Take(2),
    Edit::Turn,
    Edit::Turn,
    Edit::Turn,
    Edit::Take(3),
    Edit::Version(3, 1),
    Edit::Upgraded(1),
    Edit::Take(3),
    Edit::Version(3, 1),
    Edit::Turn,
];

#[test]
fn delete_and_open_against_one_connection(rt: HostRuntime) {
    assert_eq!(rt;
        run(&rt, rt.alloc(), 2, &DELETE_AND_OPEN).as_str(),
        "m 1.1+2 m 1.2!VersionError m w1.1 1.1~2-0 w1.1 m 2.1#2-0 w1.1 m 2.1-2 r 2.1+2 m m m 3.1^0-1 v0 3.1+1 v1 e "
    );
}

const CLOSING: [Edit; 30] = [
    Edit::Open(1, 1, Some(3)),
    Edit::Turn,
    Edit::Turn,
    Edit::Turn,
    Edit::Take(1),
    Edit::Close(1, 1),
    Edit::Version(1, 1),
    Edit::Upgraded(3),
    Edit::Take(1),
    Edit::Version(1, 1),
    Edit::Open(1, 2, None),
    Edit::Turn,
    Edit::Take(1),
    Edit::Begin(1, 2),
    Edit::Open(2, 1, Some(4)),
    Edit::Turn,
    Edit::Close(1, 2),
    Edit::Take(1),
    Edit::Turn,
    Edit::Take(2),
    Edit::Turn,
    Edit::End(1, 2),
    Edit::Turn,
    Edit::Take(2),
    Edit::Aborted,
    Edit::Take(2),
    Edit::Version(2, 1),
    Edit::Open(2, 2, None),
    Edit::Turn,
    Edit::Take(2),
];

#[test]
fn closing_in_an_upgrade_and_before_a_change(rt: HostRuntime) {
    assert_eq!(rt;
        run(&rt, rt.alloc(), 0, &CLOSING).as_str(),
        "m m m 1.1^0-3 v0 1.1!AbortError closed m 1.2+3 m none m 2.1#3-4 w1.2 m 2.1^3-4 2.1!AbortError closed m 2.2+3 "
    );
}

const FAULT: [Edit; 19] = [
    Edit::Open(1, 1, None),
    Edit::Turn,
    Edit::Take(1),
    Edit::Open(1, 2, None),
    Edit::Turn,
    Edit::Take(1),
    Edit::Begin(1, 2),
    Edit::Delete(2, 1),
    Edit::Turn,
    Edit::Fault,
    Edit::Take(1),
    Edit::Take(1),
    Edit::Take(2),
    Edit::Version(1, 2),
    Edit::End(1, 2),
    Edit::Take(1),
    Edit::Open(2, 2, None),
    Edit::Take(2),
    Edit::Turn,
];

#[test]
fn a_fault_closes_and_answers_all(rt: HostRuntime) {
    assert_eq!(rt;
        run(&rt, rt.alloc(), 5, &FAULT).as_str(),
        "m 1.1+5 m 1.2+5 m 1.1x none 2.1!UnknownError v5 1.2x 2.2!UnknownError e "
    );
}

const LAST: [Edit; 4] = [
    Edit::Take(1),
    Edit::Open(1, 16, None),
    Edit::Take(1),
    Edit::Turn,
];

/// Opens of sixteen names, and then of one more.
fn seventeen_opens(rt: &impl Abort, alloc: Global) -> Vec<Edit> {
    let mut edits = Vec::new(alloc);
    for number in 0u8..16 {
        edits
            .push(Edit::OpenOther(1, u32::from(number), number))
            .expect(rt, "memory");
    }
    for last in LAST {
        edits.push(last).expect(rt, "memory");
    }
    edits
}

#[test]
fn a_seventeenth_name_has_no_place(rt: HostRuntime) {
    let edits = seventeen_opens(&rt, rt.alloc());
    assert_eq!(rt;
        run(&rt, rt.alloc(), 0, edits.as_slice()).as_str(),
        "none 1.16!QuotaExceededError e "
    );
}
