// How the queue of a name moves.
ghost use Rattle.std.specs.Prelude.{◌≡◌, ◌≤◌, ◌<◌, ◌∷◌, [], ◌++◌, ℕ, Option, Some, None, map, drop, length, slice_get};
ghost use Rattle.std.specs.List.{list_any};
ghost use Rattle.name_queues.specs.Names.{version_of, is_unheard};
ghost use Rattle.name_queues.specs.Moves.{Moved, new_version, tells, told_conns, all_told, opened_or_told, begun, blocked, made_ready, ready_where_closed, next_front, turned, resting, turned_name, turn_by};
ghost use Rattle.name_queues.specs.Room.{put_events, room_of, HasEventRoom, conns_owed, owed};
ghost use Rattle.name_queues.specs.declared.asks.Ask.{Ask};

use crate::asks::{Ask, Stage, Wants};
use crate::boxes::{Inbox, send};
use crate::connections::Conn;
use crate::events::ClientEvent;
use crate::ids::ConnId;
use crate::names::{Named, asked_version};
use crate::traffic::Traffic;
use idb_keys::ErrorName;

/// What a move of a queue did, or what the queue waits for.
#[derive(Clone, Copy, Debug, PartialEq, Eq, Drop)]
pub enum Turn {
    Moved,
    /// No request waits or runs.
    Empty,
    /// The request at the front waits for connections that aren't closed; the least of them is named.
    Waiting { connection: ConnId },
    /// The upgrade or the deletion of the request at the front isn't finished.
    Running,
}

/// The version that connections are told of.
fn new_version(old: u64, wants: Wants) -> Option<u64>
    ensures { result ≡ new_version old wants }
{
    match wants {
        Wants::Open { version } => Some(asked_version(old, version)),
        Wants::Delete => None,
    }
}

/// Whether a versionchange event isn't handled.
fn has_unheard(traffic: &Traffic) -> bool
    ensures { result ≡ list_any is_unheard traffic.now.conns }
{
    for place in 0..traffic.len() {
        let (_, conn) = traffic.entry(place);
        if conn.is_unheard() {
            return true;
        }
    }
    false
}

/// Sends a connection a versionchange event, where it gets one.
fn send_change(boxes: &mut Vec<Inbox>, conn: ConnId, state: Conn, old: u64, new: Option<u64>)
    requires { HasEventRoom (tells old new ((conn, state) ∷ [])) boxes.old.items }
    ensures { boxes.new.items ≡ put_events (tells old new ((conn, state) ∷ [])) boxes.old.items }
{
    if state.is_to_tell() {
        send(boxes, ClientEvent::VersionChange { conn, old, new });
    }
}

/// Sends the versionchange events of a name.
fn send_changes(traffic: &Traffic, boxes: &mut Vec<Inbox>, old: u64, new: Option<u64>)
    requires { HasEventRoom (tells old new traffic.now.conns) boxes.old.items }
    ensures { boxes.new.items ≡ put_events (tells old new traffic.now.conns) boxes.old.items }
{
    for place in 0..traffic.len() {
        let (conn, state) = traffic.entry(place);
        send_change(boxes, conn, state, old, new);
    }
}

/// Each connection without close pending has got a versionchange event.
fn mark_told(traffic: &mut Traffic)
    ensures queue { traffic.new.queue ≡ traffic.old.queue }
    ensures conns { traffic.new.conns ≡ told_conns traffic.old.conns }
{
    for place in 0..traffic.len() {
        let (_, conn) = traffic.entry(place);
        traffic.set_at(place, conn.told());
    }
}

/// Tells the connections of a name of a change.
fn tell_all(n: &mut Named, boxes: &mut Vec<Inbox>, old: u64, new: Option<u64>)
    requires { HasEventRoom (tells old new n.old.traffic.conns) boxes.old.items }
    ensures named { n.new ≡ (all_told n.old old new).named }
    ensures sent { boxes.new.items ≡ put_events (all_told n.old old new).sent boxes.old.items }
{
    send_changes(&n.traffic, boxes, old, new);
    mark_told(&mut n.traffic);
    n.stage = Stage::Told;
}

/// The request at the front is answered without anything else.
fn answer(n: &mut Named)
    ensures { n.new ≡ next_front n.old (drop 1 n.old.traffic.queue) n.old.traffic.conns }
{
    n.traffic.next();
    n.stage = Stage::Fresh;
}

/// Answers an open, or tells the connections.
fn open_or_tell(n: &mut Named, boxes: &mut Vec<Inbox>, who: ConnId, old: u64, new: u64)
    requires waits { 1 ≤ length n.old.traffic.queue }
    requires room { 1 ≤ room_of who.client boxes.old.items }
    requires changes { HasEventRoom (tells old (Some new) n.old.traffic.conns) boxes.old.items }
    ensures named { n.new ≡ (opened_or_told n.old who (drop 1 n.old.traffic.queue) old new).named }
    ensures sent { boxes.new.items
        ≡ put_events (opened_or_told n.old who (drop 1 n.old.traffic.queue) old new).sent boxes.old.items }
{
    if new < old {
        answer(n);
        send(
            boxes,
            ClientEvent::Error {
                conn: who,
                name: ErrorName::VersionError,
            },
        );
    } else if new == old {
        n.traffic.open(who, Conn::new());
        n.stage = Stage::Fresh;
        send(
            boxes,
            ClientEvent::Success {
                conn: who,
                version: old,
            },
        );
    } else {
        tell_all(n, boxes, old, Some(new));
    }
}

/// Begins with the request at the front.
fn begin(n: &mut Named, boxes: &mut Vec<Inbox>, ask: Ask, old: u64)
    requires waits { 1 ≤ length n.old.traffic.queue }
    requires room { 1 ≤ room_of ask.who.client boxes.old.items }
    requires changes { (new : Option ℕ)
        → HasEventRoom (tells old new n.old.traffic.conns) boxes.old.items }
    ensures named { n.new ≡ (begun n.old ask.who (drop 1 n.old.traffic.queue) old ask.wants).named }
    ensures sent { boxes.new.items
        ≡ put_events (begun n.old ask.who (drop 1 n.old.traffic.queue) old ask.wants).sent boxes.old.items }
{
    match ask.wants {
        Wants::Open { version } => open_or_tell(
            n,
            boxes,
            ask.who,
            old,
            asked_version(old, version),
        ),
        Wants::Delete => {
            if old == 0 {
                answer(n);
                send(
                    boxes,
                    ClientEvent::Success {
                        conn: ask.who,
                        version: 0,
                    },
                );
            } else {
                tell_all(n, boxes, old, None);
            }
        }
    }
}

/// The versionchange events were handled: the request waits, and is told so where a connection isn't closed.
fn wait(n: &mut Named, boxes: &mut Vec<Inbox>, ask: Ask, old: u64)
    requires room { 1 ≤ room_of ask.who.client boxes.old.items }
    ensures named { n.new ≡ (blocked n.old ask.who old ask.wants n.old.traffic.conns).named }
    ensures sent { boxes.new.items
        ≡ put_events (blocked n.old ask.who old ask.wants n.old.traffic.conns).sent boxes.old.items }
{
    n.stage = Stage::Waits;
    let is_blocked = n.traffic.len() != 0;
    if is_blocked {
        send(
            boxes,
            ClientEvent::Blocked {
                conn: ask.who,
                old,
                new: new_version(old, ask.wants),
            },
        );
    }
}

/// All connections are closed: the upgrade begins, or the deletion.
fn make_ready(n: &mut Named, boxes: &mut Vec<Inbox>, ask: Ask, old: u64)
    requires waits { 1 ≤ length n.old.traffic.queue }
    requires room { 1 ≤ room_of ask.who.client boxes.old.items }
    ensures named { n.new ≡ (made_ready n.old ask (drop 1 n.old.traffic.queue) old).named }
    ensures sent { boxes.new.items
        ≡ put_events (made_ready n.old ask (drop 1 n.old.traffic.queue) old).sent boxes.old.items }
{
    n.running = Some(ask);
    n.stage = Stage::Fresh;
    match ask.wants {
        Wants::Open { version } => {
            n.traffic.open(ask.who, Conn::new());
            let new = asked_version(old, version);
            send(
                boxes,
                ClientEvent::Upgrade {
                    conn: ask.who,
                    old,
                    new,
                },
            );
        }
        Wants::Delete => {
            n.traffic.next();
            send(boxes, ClientEvent::DeleteReady { conn: ask.who, old });
        }
    }
}

/// What a queue that doesn't move waits for.
fn rest(n: &Named) -> Turn
    ensures { result ≡ resting n.now }
{
    if n.running.is_some() {
        return Turn::Running;
    }
    if n.traffic.front().is_none() {
        return Turn::Empty;
    }
    match n.traffic.least() {
        Some(connection) => Turn::Waiting { connection },
        None => Turn::Empty,
    }
}

/// Goes on with the request at the front.
fn go_on(n: &mut Named, boxes: &mut Vec<Inbox>, ask: Ask) -> Turn
    requires front { slice_get n.old.traffic.queue 0 ≡ Some ask }
    requires idle { n.old.running ≡ None }
    requires room { (client : ℕ) → owed client n.old ≤ room_of client boxes.old.items }
    ensures turn { result ≡ turn_by n.old (turned n.old) }
    ensures named { n.new ≡ (turned_name n.old).named }
    ensures sent { boxes.new.items ≡ put_events (turned_name n.old).sent boxes.old.items }
{
    let old = n.version();
    match n.stage {
        Stage::Fresh => begin(n, boxes, ask, old),
        Stage::Told => {
            if has_unheard(&n.traffic) {
                return rest(n);
            }
            wait(n, boxes, ask, old);
        }
        Stage::Waits => {
            if n.traffic.len() != 0 {
                return rest(n);
            }
            make_ready(n, boxes, ask, old);
        }
    }
    Turn::Moved
}

/// One move of the queue of a name.
pub fn turn_name(n: &mut Named, boxes: &mut Vec<Inbox>) -> Turn
    requires { (client : ℕ) → owed client n.old ≤ room_of client boxes.old.items }
    ensures turn { result ≡ turn_by n.old (turned n.old) }
    ensures named { n.new ≡ (turned_name n.old).named }
    ensures sent { boxes.new.items ≡ put_events (turned_name n.old).sent boxes.old.items }
{
    if n.running.is_some() {
        return Turn::Running;
    }
    match n.traffic.front() {
        Some(ask) => go_on(n, boxes, ask),
        None => Turn::Empty,
    }
}
