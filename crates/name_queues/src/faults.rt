// What a fault of the host does to the names.
ghost use Rattle.std.specs.Prelude.{◌≡◌, ◌≤◌, ◌<◌, ◌+◌, ◌^◌, ◌∷◌, [], ℕ, drop, length};
ghost use Rattle.name_queues.specs.Moves.{faulted_conns, faulted_closes, answers_unknown, faulted_name, next_front, told_closed, place_after, faulted_at, faulted_sent};
ghost use Rattle.name_queues.specs.Names.{with_conns};
ghost use Rattle.name_queues.specs.Room.{put_events, room_of, HasEventRoom, owed};

use crate::asks::Stage;
use crate::boxes::{Inbox, send};
use crate::connections::Conn;
use crate::ends::fault_conn;
use crate::events::ClientEvent;
use crate::ids::ConnId;
use crate::names::Named;
use idb_keys::ErrorName;

/// Tells a client that its connection is closed, where that was to be told.
fn send_closed(boxes: &mut Vec<Inbox>, who: ConnId, conn: Conn)
    requires { HasEventRoom (told_closed who conn) boxes.old.items }
    ensures { boxes.new.items ≡ put_events (told_closed who conn) boxes.old.items }
{
    if conn.tells {
        send(boxes, ClientEvent::Closed { conn: who });
    }
}

/// The connection at a place gets close pending, and is closed where it is over; where the next one stands.
fn fault_at(n: &mut Named, boxes: &mut Vec<Inbox>, place: usize) -> usize
    requires place { place < length n.old.traffic.conns }
    requires fits { place + 1 < 2 ^ 64 }
    requires room { HasEventRoom (faulted_closes n.old (drop place n.old.traffic.conns)) boxes.old.items }
    ensures next { result ≡ place_after n.old place }
    ensures named { n.new ≡ faulted_at n.old place }
    ensures sent { boxes.new.items ≡ put_events (faulted_sent n.old place) boxes.old.items }
{
    let (who, conn) = n.traffic.entry(place);
    let conn = fault_conn(n, who, conn);
    if n.is_over(who, conn) {
        n.traffic.remove_at(place);
        send_closed(boxes, who, conn);
        place
    } else {
        n.traffic.set_at(place, conn);
        place + 1
    }
}

/// Every connection of a name gets close pending, and is closed where it is over.
fn fault_conns(n: &mut Named, boxes: &mut Vec<Inbox>)
    requires { HasEventRoom (faulted_closes n.old n.old.traffic.conns) boxes.old.items }
    ensures named { n.new ≡ with_conns n.old (faulted_conns n.old n.old.traffic.conns) }
    ensures sent { boxes.new.items ≡ put_events (faulted_closes n.old n.old.traffic.conns) boxes.old.items }
{
    let mut place = 0;
    while place < n.traffic.len() {
        place = fault_at(n, boxes, place);
    }
}

/// Each request that waits for a name is answered.
fn answer_all(n: &mut Named, boxes: &mut Vec<Inbox>)
    requires { HasEventRoom (answers_unknown n.old.traffic.queue) boxes.old.items }
    ensures named { n.new ≡ next_front n.old [] n.old.traffic.conns }
    ensures sent { boxes.new.items ≡ put_events (answers_unknown n.old.traffic.queue) boxes.old.items }
{
    n.stage = Stage::Fresh;
    while let Some(ask) = n.traffic.front() {
        n.traffic.next();
        send(
            boxes,
            ClientEvent::Error {
                conn: ask.who,
                name: ErrorName::UnknownError,
            },
        );
    }
}

/// All of a name ends.
pub fn fault_name(n: &mut Named, boxes: &mut Vec<Inbox>)
    requires { (client : ℕ) → owed client n.old ≤ room_of client boxes.old.items }
    ensures named { n.new ≡ (faulted_name n.old).named }
    ensures sent { boxes.new.items ≡ put_events (faulted_name n.old).sent boxes.old.items }
{
    fault_conns(n, boxes);
    answer_all(n, boxes);
}
