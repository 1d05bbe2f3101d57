// Versionchange events that were taken and aren't handled.
ghost use Rattle.std.specs.Prelude.{◌≡◌, drop, slice_get};
ghost use Rattle.connection_queues.specs.Machine.{unhandled, is_taken_conn};
ghost use Rattle.name_queues.specs.Names.{conn_in};
ghost use Rattle.desk_steps.specs.Refusals.{has_some};

use connection_queues::Queues;
use name_queues::{Change, ConnId};
use std::collections::VecDeque;

fn is_taken_conn(queues: &Queues, who: ConnId) -> bool
    ensures { result ≡ is_taken_conn (conn_in queues.now.names who) }
{
    match queues.connection(who) {
        Some(conn) => matches!(conn.change, Change::Taken),
        None => false,
    }
}

/// One of these connections isn't closed, and its versionchange event was taken and isn't handled.
pub(crate) fn has_unhandled(queues: &Queues, changes: &VecDeque<ConnId>) -> bool
    ensures { result ≡ has_some (unhandled queues.now.names changes.now.items) }
{
    for place in 0..changes.len() {
        if is_taken_conn(queues, changes[place]) {
            return true;
        }
    }
    false
}

/// The first of these connections that isn't closed and whose versionchange event was taken and isn't handled; it goes, with all
/// before it.
pub(crate) fn next_unhandled(queues: &Queues, changes: &mut VecDeque<ConnId>) -> Option<ConnId>
    ensures first { result ≡ slice_get (unhandled queues.now.names changes.old.items) 0 }
    ensures left { changes.new.items ≡ drop 1 (unhandled queues.now.names changes.old.items) }
{
    while let Some(who) = changes.pop_front() {
        if is_taken_conn(queues, who) {
            return Some(who);
        }
    }
    None
}
