// The calls on names and inboxes.
ghost use Rattle.std.specs.Prelude.{◌≡◌, ◌<◌, ◌-◌, ◌^◌, position, IfSome};
ghost use Rattle.std.specs.List.{find};
ghost use Rattle.name_queues.specs.Names.{at_first, is_name, holds, conn_in, with_conn, one_tx_more};
ghost use Rattle.name_queues.specs.Moves.{closed_conn, tx_ended, upgrade_ended, deletion_ended, turned_name};
ghost use Rattle.connection_queues.specs.Machine.{sent_at, turn_where, marked_at, is_taken_conn};
ghost use Rattle.name_queues.specs.Room.{put_events, HasOwedRoom};

use idb_schema::Schema;
use name_queues::{
    Change, Conn, ConnId, Inbox, Named, Turn, begin_tx, close, end_deletion, end_tx, end_upgrade,
    mark, send_if, turn_name,
};

/// Where a name stands.
pub(crate) fn name_place(names: &[Named], name: &str) -> Option<usize>
    ensures { result ≡ position (is_name name.now) names.now }
{
    names.iter().position(|n| n.is_name(name))
}

/// Where the name stands whose database the connection is to.
pub(crate) fn conn_place(names: &[Named], who: ConnId) -> Option<usize>
    ensures { result ≡ position (holds who) names.now }
{
    names.iter().position(|n| n.holds(who))
}

/// What is kept of the connection, where it isn't closed.
pub(crate) fn conn_of(names: &[Named], who: ConnId) -> Option<Conn>
    ensures { result ≡ conn_in names.now who }
{
    match conn_place(names, who) {
        Some(place) => names[place].traffic.conn(who),
        None => None,
    }
}

/// One move of the queue of a name.
pub(crate) fn turn_at(names: &mut Vec<Named>, boxes: &mut Vec<Inbox>, name: &str) -> Turn
    requires { HasOwedRoom names.old.items boxes.old.items }
    ensures turn { result ≡ turn_where (find (is_name name.now) names.old.items) }
    ensures names { names.new.items
        ≡ at_first (is_name name.now) (λ n. (turned_name n).named) names.old.items }
    ensures sent { boxes.new.items
        ≡ put_events (sent_at (is_name name.now) turned_name names.old.items) boxes.old.items }
{
    match name_place(names, name) {
        Some(place) => {
            let n = &mut names[place];
            turn_name(n, boxes)
        }
        None => Turn::Empty,
    }
}

/// A client closes a connection.
pub(crate) fn close_at(names: &mut Vec<Named>, boxes: &mut Vec<Inbox>, who: ConnId)
    requires { HasOwedRoom names.old.items boxes.old.items }
    ensures names { names.new.items ≡ at_first (holds who) (λ n. (closed_conn who n).named) names.old.items }
    ensures sent { boxes.new.items
        ≡ put_events (sent_at (holds who) (closed_conn who) names.old.items) boxes.old.items }
{
    if let Some(place) = conn_place(names, who) {
        let n = &mut names[place];
        let event = close(n, who);
        send_if(boxes, event);
    }
}

/// The versionchange event of a connection is now this.
pub(crate) fn mark_at(names: &mut Vec<Named>, who: ConnId, change: Change)
    ensures { names.new.items ≡ marked_at who change names.old.items }
{
    if let Some(place) = conn_place(names, who) {
        let n = &mut names[place];
        mark(n, who, change);
    }
}

/// A transaction of a connection begins.
pub(crate) fn begin_tx_at(names: &mut Vec<Named>, who: ConnId)
    requires { IfSome (conn_in names.old.items who) (λ k. k.txs < 2 ^ 64 - 1) }
    ensures { names.new.items ≡ at_first (holds who) (λ n. with_conn who one_tx_more n) names.old.items }
{
    if let Some(place) = conn_place(names, who) {
        let n = &mut names[place];
        begin_tx(n, who);
    }
}

/// A transaction of a connection is finished.
pub(crate) fn end_tx_at(names: &mut Vec<Named>, boxes: &mut Vec<Inbox>, who: ConnId)
    requires { HasOwedRoom names.old.items boxes.old.items }
    ensures names { names.new.items ≡ at_first (holds who) (λ n. (tx_ended who n).named) names.old.items }
    ensures sent { boxes.new.items
        ≡ put_events (sent_at (holds who) (tx_ended who) names.old.items) boxes.old.items }
{
    if let Some(place) = conn_place(names, who) {
        let n = &mut names[place];
        let event = end_tx(n, who);
        send_if(boxes, event);
    }
}

/// The upgrade of a name is finished.
pub(crate) fn end_upgrade_at(
    names: &mut Vec<Named>,
    boxes: &mut Vec<Inbox>,
    name: &str,
    kept: Option<Schema>,
)
    requires { HasOwedRoom names.old.items boxes.old.items }
    ensures names { names.new.items
        ≡ at_first (is_name name.now) (λ n. (upgrade_ended kept n).named) names.old.items }
    ensures sent { boxes.new.items
        ≡ put_events (sent_at (is_name name.now) (upgrade_ended kept) names.old.items) boxes.old.items }
{
    if let Some(place) = name_place(names, name) {
        let n = &mut names[place];
        let event = end_upgrade(n, kept);
        send_if(boxes, event);
    }
}

/// The deletion of a name is finished.
pub(crate) fn end_deletion_at(
    names: &mut Vec<Named>,
    boxes: &mut Vec<Inbox>,
    name: &str,
    kept: bool,
)
    requires { HasOwedRoom names.old.items boxes.old.items }
    ensures names { names.new.items
        ≡ at_first (is_name name.now) (λ n. (deletion_ended kept n).named) names.old.items }
    ensures sent { boxes.new.items
        ≡ put_events (sent_at (is_name name.now) (deletion_ended kept) names.old.items) boxes.old.items }
{
    if let Some(place) = name_place(names, name) {
        let n = &mut names[place];
        let event = end_deletion(n, kept);
        send_if(boxes, event);
    }
}

/// The oldest versionchange event that a client took and hasn't handled, of those whose connections aren't closed.
pub(crate) fn is_taken(names: &[Named], who: ConnId) -> bool
    ensures { result ≡ is_taken_conn (conn_in names.now who) }
{
    match conn_of(names, who) {
        Some(conn) => matches!(conn.change, Change::Taken),
        None => false,
    }
}
