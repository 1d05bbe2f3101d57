// Events of opens and deletes: their lines, the blocks for them, and the environments of these.
ghost use Rattle.std.specs.Prelude.{◌≡◌, IfOk, OnOk};
ghost use Rattle.client_seats.specs.ClientSteps.{event_line, event_block, event_env, with_result, gives, given_by_event};

use crate::kept_opens::KeptOpen;
use clone_values::{Text, Value};
use idb_base::NoMemory;
use name_queues::ClientEvent;
use report_lines::Line;
use script_runs::Env;
use script_statements::BlockPlace;
use std::alloc::Global;

/// The line of an event; the number is that of the transaction which it begins.
pub fn event_line(kept: &KeptOpen, number: u64, event: ClientEvent) -> Line
    ensures { result ≡ event_line kept.now number event }
{
    match event {
        ClientEvent::Upgrade { conn, old, new } => Line::OpenUpgrade {
            request: conn.request,
            old_version: old,
            new_version: new,
            number,
        },
        ClientEvent::Blocked { conn, old, new } => {
            if kept.is_delete() {
                Line::DeleteBlocked {
                    request: conn.request,
                    old_version: old,
                }
            } else {
                Line::OpenBlocked {
                    request: conn.request,
                    old_version: old,
                    new_version: new.unwrap_or(0),
                }
            }
        }
        ClientEvent::Success { conn, version } => {
            if kept.is_delete() {
                Line::DeleteSuccess {
                    request: conn.request,
                    old_version: version,
                }
            } else {
                Line::OpenSuccess {
                    request: conn.request,
                    version,
                }
            }
        }
        ClientEvent::Error { conn, name } => {
            if kept.is_delete() {
                Line::DeleteError {
                    request: conn.request,
                    error: name,
                }
            } else {
                Line::OpenError {
                    request: conn.request,
                    error: name,
                }
            }
        }
        ClientEvent::VersionChange { conn, old, new } => Line::VersionChange {
            request: conn.request,
            old_version: old,
            new_version: new,
        },
        ClientEvent::Closed { conn } => Line::Closed {
            request: conn.request,
        },
        ClientEvent::DeleteReady { conn, .. } => Line::DeleteTransaction {
            request: conn.request,
            number,
        },
    }
}

/// The block for an event.
pub fn event_block(kept: &KeptOpen, event: ClientEvent) -> Option<BlockPlace>
    ensures { result ≡ event_block kept.now event }
{
    match event {
        ClientEvent::Upgrade { .. } => kept.upgrade,
        ClientEvent::Blocked { .. } => kept.blocked,
        ClientEvent::Success { .. } => kept.success,
        ClientEvent::Error { .. } => kept.error,
        ClientEvent::VersionChange { .. } => kept.version_change,
        ClientEvent::Closed { .. } => kept.closed,
        ClientEvent::DeleteReady { .. } => None,
    }
}

/// The environment of that block.
pub fn event_env(alloc: Global, kept: &KeptOpen, event: ClientEvent) -> Result<Env, NoMemory>
    ensures { IfOk result (λ env. env ≡ event_env kept.now event) }
{
    let mut env = kept.env()?;
    if !kept.is_delete() {
        env.connection = Some(event.conn().request);
    }
    set_result(alloc, &mut env, event)?;
    Ok(env)
}

/// A success tells its version, an error its name.
fn set_result(alloc: Global, env: &mut Env, event: ClientEvent) -> Result<(), NoMemory>
    ensures { OnOk result (env.new ≡ with_result event env.old) }
{
    match event {
        ClientEvent::Success { version, .. } => {
            let Ok(version) = i64::try_from(version) else {
                return Err(NoMemory);
            };
            env.set(Text::copy_of(alloc, "result")?, Value::Int(version))
        }
        ClientEvent::Error { name, .. } => {
            let name = Text::copy_of(alloc, name.name())?;
            env.set(Text::copy_of(alloc, "error")?, Value::Text(name))
        }
        _ => Ok(()),
    }
}

/// Whether the connection of an open is the client's from this event on.
pub fn gives(event: ClientEvent) -> bool
    ensures { result ≡ gives event }
{
    matches!(
        event,
        ClientEvent::Upgrade { .. } | ClientEvent::Success { .. }
    )
}

impl KeptOpen {
    /// The event came.
    pub fn take(&mut self, event: ClientEvent)
        ensures { self.new ≡ given_by_event event self.old }
    {
        self.is_given = (!self.is_delete && gives(event)) || self.is_given;
    }
}
