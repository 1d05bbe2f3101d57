// The desk on worked values. Each step that is made is written as the order lists it: `a1.1` an ask, `e1` an event taken, `d1` one
// handled, `x1.1` a close, `t2.1` a create, `s2` a start, `f2` a finish, `z` the fault. Behind an event stands what it tells: `^` an
// upgrade, `#` blocked, `+` success, `!` an error, `~` a versionchange, `x` a closing, `-` that a deletion may run. What is refused is
// written as its name, or as `no`; a start that must wait as its blocker.
ghost use Rattle.std.specs.Prelude.{◌≡◌, true, None, if◌then◌else◌, OnOk, OnErr, IfOk};
ghost use Rattle.idb_desk.specs.Handing.{kept_of};
ghost use Rattle.idb_desk.specs.Refusals.{is_allowed};
ghost use Rattle.idb_desk.specs.Steps.{after, desk_run, with_step, answer_of};

use clone_values::{Text, Texts};
use idb_base::{GREATEST_LENGTH, NoMemory};
use idb_calls::{Outcome, Token};
use idb_desk::{Desk, DeskStep};
use idb_keys::{Durability, ErrorName, Mode};
use idb_schema::{IndexInfos, Schema, Schemas, StoreInfo, StoreInfos};
use name_queues::{ClientEvent, ConnId, Wants};
use scope_desk::MayStart;
use std::alloc::Global;
use std::fmt::Write;
use std::process::Abort;

mod desk_answers;
mod random_acts;
mod random_runs;
mod seen_words;
mod slow_answers;
mod slow_desk;
mod slow_steps;

/// The least client: it makes a step where it may.
fn make_if(desk: &mut Desk, step: DeskStep) -> Result<Option<ClientEvent>, NoMemory>
    requires { kept_of step ≡ None }
    ensures made { OnOk result (desk_run desk.new ≡ (if is_allowed (desk_run desk.old) step
        then after (desk_run desk.old) step else desk_run desk.old)) }
    ensures event { is_allowed (desk_run desk.old) step ≡ true
        → IfOk result (λ e. e ≡ (answer_of (desk_run desk.old) step).event) }
    ensures unchanged { OnErr result (desk.new ≡ desk.old) }
{
    if desk.can(&step) {
        desk.step(step, None)
    } else {
        Ok(None)
    }
}

#[derive(Clone, Copy)]
enum Edit {
    Open(u32, Option<u64>),
    OpenOther(u32, u8),
    Delete(u32),
    Take(u32),
    Handle(u32),
    Close(u32, u32),
    Create(u32, u32, &'static str, Mode),
    Start(u32, u64),
    Leave(u32, u64, bool),
    Upgraded(u32, u64, u64),
    Fault,
}

fn text(rt: &impl Abort, alloc: Global, s: &str) -> Text {
    assert!(rt; s.len() <= GREATEST_LENGTH);
    Text::copy_of(alloc, s).expect(rt, "memory")
}

/// The name of another database.
fn other_name(rt: &impl Abort, alloc: Global, number: u8) -> Text {
    let mut name = String::new(alloc);
    let _ = write!(name, "e{number}");
    text(rt, alloc, name.as_str())
}

/// A scope: each letter is a store's name.
fn scope_of(rt: &impl Abort, alloc: Global, letters: &str) -> Texts {
    let mut names = Texts::new(alloc);
    for letter in letters.chars() {
        if names.len() < 9 {
            names
                .push(letter_text(rt, alloc, letter))
                .expect(rt, "memory");
        }
    }
    names
}

fn letter_text(rt: &impl Abort, alloc: Global, letter: char) -> Text {
    let mut name = String::new(alloc);
    name.push(letter).expect(rt, "memory");
    text(rt, alloc, name.as_str())
}

/// The schema of a database at this version: each letter is a store's name.
fn schema_at(rt: &impl Abort, alloc: Global, name: &str, version: u64, letters: &str) -> Schema {
    let mut stores = StoreInfos::new(alloc);
    for letter in letters.chars() {
        push_store(rt, alloc, &mut stores, letter);
    }
    Schema::new(alloc, text(rt, alloc, name), version, stores).expect(rt, "memory")
}

fn push_store(rt: &impl Abort, alloc: Global, stores: &mut StoreInfos, letter: char) {
    let name = letter_text(rt, alloc, letter);
    if stores.can_push(&name) {
        stores
            .push(StoreInfo {
                name,
                path: None,
                auto: false,
                indexes: IndexInfos::new(alloc),
            })
            .expect(rt, "memory");
    }
}

fn write_token(said: &mut String, token: Token) {
    let _ = match token {
        Token::Asked { client, request } => write!(said, "a{client}.{request}"),
        Token::Took { client } => write!(said, "e{client}"),
        Token::Handled { client } => write!(said, "d{client}"),
        Token::Closed { client, request } => write!(said, "x{client}.{request}"),
        Token::Created { number, client } => write!(said, "t{number}.{client}"),
        Token::Started { number } => write!(said, "s{number}"),
        Token::Left { number } => write!(said, "f{number}"),
        Token::Faulted => write!(said, "z"),
    };
}

fn write_event(said: &mut String, event: &ClientEvent) {
    let _ = write!(said, "{}", event.conn().request);
    let _ = match event {
        ClientEvent::Upgrade { old, new, .. } => write!(said, "^{old}-{new}"),
        ClientEvent::Blocked { old, new, .. } => write!(said, "#{old}-{}", new.unwrap_or(0)),
        ClientEvent::Success { version, .. } => write!(said, "+{version}"),
        ClientEvent::Error { name, .. } => write!(said, "!{name}"),
        ClientEvent::VersionChange { old, new, .. } => {
            write!(said, "~{old}-{}", new.unwrap_or(0))
        }
        ClientEvent::Closed { .. } => write!(said, "x"),
        ClientEvent::DeleteReady { old, .. } => write!(said, "-{old}"),
    };
}

fn aborted() -> Outcome {
    Outcome::Aborted {
        error: Some(ErrorName::AbortError),
        doubt: false,
    }
}

/// The next open or delete of a client.
fn next_of(desk: &Desk, client: u32) -> ConnId {
    let request = match u32::try_from(desk.asked(client)) {
        Ok(asked) => asked.saturating_add(1),
        Err(_) => 0,
    };
    ConnId { client, request }
}

fn asking(desk: &Desk, client: u32, name: Text, wants: Wants) -> DeskStep {
    DeskStep::Asks {
        who: next_of(desk, client),
        name,
        wants,
    }
}

fn asking_of_d(rt: &impl Abort, alloc: Global, desk: &Desk, client: u32, wants: Wants) -> DeskStep {
    asking(desk, client, text(rt, alloc, "d"), wants)
}

fn asking_of_other(
    rt: &impl Abort,
    alloc: Global,
    desk: &Desk,
    client: u32,
    number: u8,
) -> DeskStep {
    let wants = Wants::Open { version: None };
    asking(desk, client, other_name(rt, alloc, number), wants)
}

fn closing(client: u32, request: u32) -> DeskStep {
    DeskStep::Closes {
        who: ConnId { client, request },
    }
}

fn creating(
    rt: &impl Abort,
    alloc: Global,
    desk: &Desk,
    client: u32,
    request: u32,
    letters: &str,
    mode: Mode,
) -> DeskStep {
    DeskStep::Creates {
        number: desk.next_number(),
        who: ConnId { client, request },
        scope: scope_of(rt, alloc, letters),
        mode,
        durability: Durability::Relaxed,
    }
}

fn leaving(client: u32, number: u64, committed: bool) -> DeskStep {
    DeskStep::Leaves {
        client,
        number,
        outcome: if committed {
            Outcome::Committed
        } else {
            aborted()
        },
        kept: None,
    }
}

fn upgraded(rt: &impl Abort, alloc: Global, client: u32, number: u64, version: u64) -> DeskStep {
    DeskStep::Leaves {
        client,
        number,
        outcome: Outcome::Committed,
        kept: Some(schema_at(rt, alloc, "d", version, "st")),
    }
}

/// The step of an edit.
fn step_of(rt: &impl Abort, alloc: Global, desk: &Desk, edit: &Edit) -> DeskStep {
    match edit {
        Edit::Open(client, version) => {
            asking_of_d(rt, alloc, desk, *client, Wants::Open { version: *version })
        }
        Edit::OpenOther(client, number) => asking_of_other(rt, alloc, desk, *client, *number),
        Edit::Delete(client) => asking_of_d(rt, alloc, desk, *client, Wants::Delete),
        Edit::Take(client) => DeskStep::Takes { client: *client },
        Edit::Handle(client) => DeskStep::Handles { client: *client },
        Edit::Close(client, request) => closing(*client, *request),
        Edit::Create(client, request, letters, mode) => {
            creating(rt, alloc, desk, *client, *request, letters, *mode)
        }
        Edit::Start(client, number) => DeskStep::Starts {
            client: *client,
            number: *number,
        },
        Edit::Leave(client, number, committed) => leaving(*client, *number, *committed),
        Edit::Upgraded(client, number, version) => upgraded(rt, alloc, *client, *number, *version),
        Edit::Fault => DeskStep::Faults,
    }
}

/// Why the step isn't made.
fn write_refusal(said: &mut String, desk: &Desk, step: &DeskStep) {
    let _ = match desk.refusal(step) {
        Some(name) => write!(said, "{name}"),
        None => write!(said, "no"),
    };
    if let DeskStep::Starts { number, .. } = step {
        if desk.has_unfinished(*number) {
            if let MayStart::NotYet { blocker } = desk.may_start(*number) {
                let _ = write!(said, "<{blocker}");
            }
        }
    }
}

/// A second copy of the schema that a committed upgrade left.
fn kept_copy(rt: &impl Abort, alloc: Global, step: &DeskStep) -> Option<Schema>
    ensures { result ≡ kept_of step.now }
{
    match step {
        DeskStep::Leaves {
            kept: Some(schema),
            ..
        } => Some(schema.copy(alloc).expect(rt, "memory")),
        _ => None,
    }
}

/// The event that a step took, behind a colon.
fn write_answer(said: &mut String, event: Option<&ClientEvent>) {
    if let Some(event) = event {
        let _ = write!(said, ":");
        write_event(said, event);
    }
}

/// Makes one edit, and writes what came of it.
fn make(rt: &impl Abort, alloc: Global, desk: &mut Desk, said: &mut String, edit: &Edit) {
    let step = step_of(rt, alloc, desk, edit);
    make_step(rt, alloc, desk, said, step)
}

/// Makes one step where it may be made, and writes what came of it.
fn make_step(rt: &impl Abort, alloc: Global, desk: &mut Desk, said: &mut String, step: DeskStep) {
    if desk.can(&step) {
        write_token(said, step.token());
        let kept = kept_copy(rt, alloc, &step);
        let event = desk.step(step, kept).expect(rt, "memory");
        write_answer(said, event.as_ref());
    } else {
        write_refusal(said, desk, &step);
    }
    let _ = write!(said, " ");
}

/// Makes all edits on a desk without databases, and gives what was answered.
fn run(rt: &impl Abort, alloc: Global, edits: &[Edit]) -> String {
    let mut desk = Desk::new(alloc, Schemas::new(alloc)).expect(rt, "memory");
    let mut said = String::new(alloc);
    for edit in edits {
        make(rt, alloc, &mut desk, &mut said, edit);
    }
    said
}

const AN_UPGRADE: [Edit; 10] = [
    Edit::Open(1, None),
    Edit::Take(1),
    Edit::Create(1, 1, "s", Mode::ReadWrite),
    Edit::Start(1, 1),
    Edit::Upgraded(1, 1, 1),
    Edit::Take(1),
    Edit::Create(1, 1, "s", Mode::ReadWrite),
    Edit::Start(1, 2),
    Edit::Leave(1, 2, true),
    Edit::Take(1),
];

#[test]
fn an_upgrade_and_a_transaction(rt: HostRuntime) {
    assert_eq!(rt;
        run(&rt, rt.alloc(), &AN_UPGRADE).as_str(),
        "a1.1 e1:1^0-1 InvalidStateError s1 f1 e1:1+1 t2.1 s2 f2 no "
    );
}

const SECOND_VERSION: [Edit; 20] = [
    Edit::Open(1, None),
    Edit::Take(1),
    Edit::Start(1, 1),
    Edit::Upgraded(1, 1, 1),
    Edit::Take(1),
    Edit::Open(1, Some(2)),
    Edit::Handle(1),
    Edit::Take(1),
    Edit::Handle(1),
    Edit::Take(1),
    Edit::Close(1, 1),
    Edit::Close(1, 1),
    Edit::Take(1),
    Edit::Leave(1, 2, false),
    Edit::Take(1),
    Edit::Delete(2),
    Edit::Take(2),
    Edit::Start(2, 3),
    Edit::Leave(2, 3, true),
    Edit::Take(2),
];

#[test]
fn a_second_version_waits_for_the_first_connection(rt: HostRuntime) {
    assert_eq!(rt;
        run(&rt, rt.alloc(), &SECOND_VERSION).as_str(),
        "a1.1 e1:1^0-1 s1 f1 e1:1+1 a1.2 no e1:1~1-2 d1 e1:2#1-2 x1.1 no e1:2^1-2 f2 e1:2!AbortError a2.1 e2:1-1 s3 f3 e2:1+1 "
    );
}

const READERS_AND_WRITERS: [Edit; 31] = [
    Edit::Open(1, Some(0)),
    Edit::Open(1, None),
    Edit::Take(1),
    Edit::Start(1, 1),
    Edit::Upgraded(1, 1, 2),
    Edit::Upgraded(1, 1, 1),
    Edit::Take(1),
    Edit::Create(1, 1, "u", Mode::ReadOnly),
    Edit::Create(1, 1, "", Mode::ReadOnly),
    Edit::Create(1, 1, "s", Mode::VersionChange),
    Edit::Create(2, 1, "s", Mode::ReadOnly),
    Edit::Create(1, 1, "s", Mode::ReadOnly),
    Edit::Create(1, 1, "ss", Mode::ReadWrite),
    Edit::Create(1, 1, "st", Mode::ReadOnly),
    Edit::Create(1, 1, "t", Mode::ReadWrite),
    Edit::Start(1, 2),
    Edit::Start(1, 3),
    Edit::Start(1, 4),
    Edit::Start(1, 5),
    Edit::Leave(1, 2, true),
    Edit::Start(1, 3),
    Edit::Leave(1, 3, true),
    Edit::Start(1, 4),
    Edit::Leave(1, 5, true),
    Edit::Leave(1, 5, false),
    Edit::Close(1, 1),
    Edit::Fault,
    Edit::Fault,
    Edit::Open(2, None),
    Edit::Take(2),
    Edit::Leave(1, 4, true),
];

#[test]
fn readers_writers_and_refusals(rt: HostRuntime) {
    assert_eq!(rt;
        run(&rt, rt.alloc(), &READERS_AND_WRITERS).as_str(),
        "TypeError a1.1 e1:1^0-1 s1 no f1 e1:1+1 NotFoundError InvalidAccessError TypeError InvalidStateError t2.1 t3.1 t4.1 t5.1 s2 no<2 no<3 no<4 f2 s3 f3 s4 no f5 x1.1 z no a2.1 e2:1!UnknownError f4 "
    );
}

/// The steps as a report lists them, and the requests that aren't answered, each behind what it waits for: `<` a connection,
/// `.` another request.
fn write_end(rt: &impl Abort, said: &mut String, desk: &Desk) {
    for token in desk.tokens().expect(rt, "memory").as_slice() {
        write_token(said, *token);
        let _ = write!(said, " ");
    }
    for line in desk.pending().expect(rt, "memory").as_slice() {
        let sign = if line.waits { '<' } else { '.' };
        let _ = write!(
            said,
            "{}.{}{sign}{}.{} ",
            line.client, line.request, line.of_client, line.of_request
        );
    }
}

/// Makes all edits on a desk without databases, and gives what a report would list.
fn run_to_the_end(rt: &impl Abort, alloc: Global, edits: &[Edit]) -> String {
    let mut desk = Desk::new(alloc, Schemas::new(alloc)).expect(rt, "memory");
    let mut said = String::new(alloc);
    for edit in edits {
        make(rt, alloc, &mut desk, &mut said, edit);
    }
    said.clear();
    write_end(rt, &mut said, &desk);
    said
}

const WAITING: [Edit; 13] = [
    Edit::Open(2, None),
    Edit::Take(2),
    Edit::Start(2, 1),
    Edit::Upgraded(2, 1, 1),
    Edit::Take(2),
    Edit::Open(2, Some(2)),
    Edit::Take(2),
    Edit::Handle(2),
    Edit::Take(2),
    Edit::Delete(1),
    Edit::Open(2, None),
    Edit::OpenOther(1, 3),
    Edit::Open(1, None),
];

#[test]
fn what_waits_at_the_end(rt: HostRuntime) {
    assert_eq!(rt;
        run_to_the_end(&rt, rt.alloc(), &WAITING).as_str(),
        "a2.1 e2 s1 f1 e2 a2.2 e2 d2 e2 a1.1 a2.3 a1.2 a1.3 1.1.2.2 1.3.2.2 2.2<2.1 2.3.2.2 "
    );
}

/// A client asks so many opens of one name.
fn ask_many(rt: &impl Abort, alloc: Global, desk: &mut Desk, count: u32) {
    for _ in 0..count {
        let who = next_of(desk, 1);
        let name = text(rt, alloc, "d");
        let wants = Wants::Open { version: None };
        make_if(desk, DeskStep::Asks { who, name, wants }).expect(rt, "memory");
    }
}

/// Asks ten thousand opens and one more, and gives how many steps were made.
fn steps_of_many(rt: &impl Abort, alloc: Global, said: &mut String) -> usize {
    let mut desk = Desk::new(alloc, Schemas::new(alloc)).expect(rt, "memory");
    ask_many(rt, alloc, &mut desk, 9_999);
    for _ in 0..2 {
        make(rt, alloc, &mut desk, said, &Edit::Open(1, None));
    }
    desk.steps().len()
}

#[test]
fn the_ten_thousand_and_first_open_is_refused(rt: HostRuntime) {
    let mut said = String::new(rt.alloc());
    let steps = steps_of_many(&rt, rt.alloc(), &mut said);
    assert_eq!(rt;
        (steps, said.as_str()),
        (10_000, "a1.10000 QuotaExceededError ")
    );
}
