// A client takes an event and meets it.
ghost use Rattle.std.specs.Prelude.{◌≡◌, ◌-◌, [], true, false, not, ◌&&◌, Some, is_some, slice_set, IfOk, IfErr, OnOk, OnErr};
ghost use Rattle.std.specs.Arc.{arc_value};
ghost use Rattle.name_queues.specs.declared.events.ClientEvent.TheVariants as event;
ghost use Rattle.name_queues.specs.Mails.{conn_of};
ghost use Rattle.idb_desk.specs.Refusals.{has_some};
ghost use Rattle.idb_desk.specs.Steps.{desk_run, event_for, with_step};
ghost use Rattle.desk_steps.specs.declared.steps.DeskStep.TheVariants as step;
ghost use Rattle.client_machine.specs.ClientStates.{OpenAsked, open_at};
ghost use Rattle.client_machine.specs.ClientSteps.{is_plain_event, after_event_of, given_by_event};
ghost use Rattle.client_tasks.specs.Meeting.{HandlesInto, open_numbered};
ghost use Rattle.client_parts.specs.Clients.{client_seen};
ghost use Rattle.client_seats.specs.Seating.{IsSeated};
ghost use Rattle.client_tasks.specs.Steps.{Whether, StaysAsIs, TakesEventInto, IsStray};
ghost use Rattle.client_tasks.specs.declared.errors.TakeError.TheVariants as why;

use crate::errors::TakeError;
use crate::offices::Office;
use client_parts::{
    BegunBody, ClientParts, HeldTx, KeptOpen, TxKindHeld, event_block, event_env, event_line,
    take_posts,
};
use idb_base::NoMemory;
use idb_desk::{Desk, DeskStep};
use name_queues::{ClientEvent, ConnId};
use script_runs::{Note, Notes};
use std::alloc::Global;
use task_statements::{begin_upgrade, make_room, open_at, put_tx};

impl Office {
    /// Where the client has no task, it takes its oldest event and meets it; whether it did. `Stray` comes where the desk tells of an open
    /// that the client doesn't have.
    pub fn take_event(&mut self, alloc: Global, notes: &mut Notes) -> Result<bool, TakeError>
        ensures one { IfOk result (λ took. took ≡ (not (has_some self.old.client.tasks)
            && is_some (event_for (desk_run self.old.run) self.old.client.number))) }
        ensures took { IfOk result (λ took. Whether took
            (TakesEventInto self.old notes.old self.new notes.new)
            (StaysAsIs self.old notes.old self.new notes.new)) }
        ensures stray { IfErr result (λ e. e ≡ why.Stray → IsStray self.old) }
        ensures unchanged { IfErr result (λ e. e ≡ why.Stray
            → StaysAsIs self.old notes.old self.new notes.new) }
    {
        if !self.parts.tasks.is_empty() {
            return Ok(false);
        }
        let Some(event) = self.desk.next_event(self.parts.number) else {
            return Ok(false);
        };
        self.meet(alloc, event, notes)?;
        Ok(true)
    }

    fn meet(
        &mut self,
        alloc: Global,
        event: ClientEvent,
        notes: &mut Notes,
    ) -> Result<(), TakeError>
        requires idle { self.old.client.tasks ≡ [] }
        requires first { event_for (desk_run self.old.run) self.old.client.number ≡ Some event }
        ensures took { OnOk result (TakesEventInto self.old notes.old self.new notes.new) }
        ensures stray { IfErr result (λ e. e ≡ why.Stray → IsStray self.old) }
        ensures unchanged { IfErr result (λ e. e ≡ why.Stray
            → StaysAsIs self.old notes.old self.new notes.new) }
    {
        match event {
            ClientEvent::Upgrade { conn, old, new } => self.meet_upgrade(
                alloc, conn, old, new, notes,
            ),
            ClientEvent::DeleteReady { conn, old } => self.meet_deletion(alloc, conn, old, notes),
            ClientEvent::VersionChange { conn, old, new } => self.meet_change(
                alloc, conn, old, new, notes,
            ),
            ClientEvent::Blocked { .. }
            | ClientEvent::Success { .. }
            | ClientEvent::Error { .. }
            | ClientEvent::Closed { .. } => self.meet_plain(alloc, event, notes),
        }
    }

    fn meet_plain(
        &mut self,
        alloc: Global,
        event: ClientEvent,
        notes: &mut Notes,
    ) -> Result<(), TakeError>
        requires idle { self.old.client.tasks ≡ [] }
        requires first { event_for (desk_run self.old.run) self.old.client.number ≡ Some event }
        requires plain { is_plain_event event ≡ true }
        ensures took { OnOk result (TakesEventInto self.old notes.old self.new notes.new) }
        ensures stray { IfErr result (λ e. e ≡ why.Stray → IsStray self.old) }
        ensures unchanged { IfErr result (λ e. e ≡ why.Stray
            → StaysAsIs self.old notes.old self.new notes.new) }
    {
        let Some(open) = open_at(&self.parts, u64::from(event.conn().request)) else {
            return Err(TakeError::Stray);
        };
        let line = event_line(open, 0, event);
        let block = event_block(open, event);
        let env = event_env(alloc, open, event)?;
        take(&mut self.desk, &mut self.parts, event)?;
        notes.push(Note::Line(line))?;
        self.run_now(alloc, env, block, notes)?;
        Ok(())
    }

    fn meet_change(
        &mut self,
        alloc: Global,
        conn: ConnId,
        old: u64,
        new: Option<u64>,
        notes: &mut Notes,
    ) -> Result<(), TakeError>
        requires idle { self.old.client.tasks ≡ [] }
        requires first { event_for (desk_run self.old.run) self.old.client.number
            ≡ Some (event.VersionChange conn old new) }
        ensures took { OnOk result (TakesEventInto self.old notes.old self.new notes.new) }
        ensures stray { IfErr result (λ e. e ≡ why.Stray → IsStray self.old) }
        ensures unchanged { IfErr result (λ e. e ≡ why.Stray
            → StaysAsIs self.old notes.old self.new notes.new) }
    {
        let event = ClientEvent::VersionChange { conn, old, new };
        let Some(open) = open_at(&self.parts, u64::from(conn.request)) else {
            return Err(TakeError::Stray);
        };
        let line = event_line(open, 0, event);
        let block = event_block(open, event);
        let env = event_env(alloc, open, event)?;
        take_step(&mut self.desk, &self.parts)?;
        notes.push(Note::Line(line))?;
        self.run_now(alloc, env, block, notes)?;
        handle(&mut self.desk, &self.parts);
        Ok(())
    }

    fn meet_deletion(
        &mut self,
        alloc: Global,
        conn: ConnId,
        old: u64,
        notes: &mut Notes,
    ) -> Result<(), TakeError>
        requires idle { self.old.client.tasks ≡ [] }
        requires first { event_for (desk_run self.old.run) self.old.client.number
            ≡ Some (event.DeleteReady conn old) }
        ensures took { OnOk result (TakesEventInto self.old notes.old self.new notes.new) }
        ensures stray { IfErr result (λ e. e ≡ why.Stray → IsStray self.old) }
        ensures unchanged { IfErr result (λ e. e ≡ why.Stray
            → StaysAsIs self.old notes.old self.new notes.new) }
    {
        let Some(open) = open_at(&self.parts, u64::from(conn.request)) else {
            return Err(TakeError::Stray);
        };
        let Some(_) = self.desk.request(conn) else {
            return Err(TakeError::Stray);
        };
        let number = self.desk.next_number();
        let name = open.name().copy(alloc)?;
        let line = event_line(open, number, ClientEvent::DeleteReady { conn, old });
        make_room(&mut self.parts)?;
        take_step(&mut self.desk, &self.parts)?;
        let tx = HeldTx::new(number, TxKindHeld::Deletion, BegunBody::Deletion(name));
        put_tx(&mut self.parts.txs, tx);
        notes.push(Note::Line(line))?;
        Ok(())
    }

    fn meet_upgrade(
        &mut self,
        alloc: Global,
        conn: ConnId,
        old: u64,
        new: u64,
        notes: &mut Notes,
    ) -> Result<(), TakeError>
        requires idle { self.old.client.tasks ≡ [] }
        requires first { event_for (desk_run self.old.run) self.old.client.number
            ≡ Some (event.Upgrade conn old new) }
        ensures took { OnOk result (TakesEventInto self.old notes.old self.new notes.new) }
        ensures stray { IfErr result (λ e. e ≡ why.Stray → IsStray self.old) }
        ensures unchanged { IfErr result (λ e. e ≡ why.Stray
            → StaysAsIs self.old notes.old self.new notes.new) }
    {
        let event = ClientEvent::Upgrade { conn, old, new };
        let Some(open) = open_at(&self.parts, u64::from(conn.request)) else {
            return Err(TakeError::Stray);
        };
        let Some(_) = self.desk.request(conn) else {
            return Err(TakeError::Stray);
        };
        let Some(schema) = self.desk.schema(conn) else {
            return Err(TakeError::Stray);
        };
        let number = self.desk.next_number();
        let mut schema = schema.copy(alloc)?;
        schema.set_version(new);
        let line = event_line(open, number, event);
        let block = event_block(open, event);
        let env = event_env(alloc, open, event)?;
        take(&mut self.desk, &mut self.parts, event)?;
        make_room(&mut self.parts)?;
        notes.push(Note::Line(line))?;
        let from = notes.len();
        let tx = begin_upgrade(alloc, &self.script, number, schema, &env, block, notes)?;
        put_tx(&mut self.parts.txs, tx);
        take_posts(&mut self.parts, notes, from)?;
        Ok(())
    }
}

/// Makes the step that takes the client's oldest event.
fn take_step(desk: &mut Desk, parts: &ClientParts) -> Result<(), NoMemory>
    requires seated { IsSeated (client_seen parts.now) desk.old }
    requires some { is_some (event_for (desk_run desk.old) parts.now.number) ≡ true }
    ensures made { OnOk result (desk.new ≡ with_step desk.old (step.Takes parts.now.number)) }
    ensures unchanged { OnErr result (desk.new ≡ desk.old) }
    ensures seated { IsSeated (client_seen parts.now) desk.new }
{
    desk.step(
        DeskStep::Takes {
            client: parts.number,
        },
        None,
    )?;
    Ok(())
}

/// The same, and what it makes of the open of the event.
fn take(desk: &mut Desk, parts: &mut ClientParts, event: ClientEvent) -> Result<(), NoMemory>
    requires seated { IsSeated (client_seen parts.old) desk.old }
    requires some { is_some (event_for (desk_run desk.old) parts.old.number) ≡ true }
    requires own { is_some (open_at (client_seen parts.old) (conn_of event).request) ≡ true }
    ensures made { OnOk result (desk.new ≡ with_step desk.old (step.Takes parts.old.number)) }
    ensures taken { OnOk result ((o : OpenAsked)
        → open_at (client_seen parts.old) (conn_of event).request ≡ Some o
        → client_seen parts.new ≡ after_event_of (client_seen parts.old) o event) }
    ensures unchanged { OnErr result (desk.new ≡ desk.old) }
    ensures kept { OnErr result (client_seen parts.new ≡ client_seen parts.old) }
    ensures seated { IsSeated (client_seen parts.new) desk.new }
{
    take_step(desk, parts)?;
    take_open(&mut parts.opens, event);
    Ok(())
}

/// The open of the event is the client's from it on, if the event gives it.
fn take_open(opens: &mut Vec<KeptOpen>, event: ClientEvent)
    requires { is_some (open_numbered opens.old.items (conn_of event).request) ≡ true }
    ensures { (o : OpenAsked) → open_numbered opens.old.items (conn_of event).request ≡ Some o
        → opens.new.items ≡ slice_set opens.old.items ((conn_of event).request - 1) (given_by_event event o) }
{
    let place = event.conn().request as usize - 1;
    let open = &mut opens[place];
    open.take(event);
}

/// The client has handled a versionchange event, where one is left to handle.
fn handle(desk: &mut Desk, parts: &ClientParts)
    requires seated { IsSeated (client_seen parts.now) desk.old }
    ensures handled { HandlesInto parts.now.number desk.old desk.new }
    ensures seated { IsSeated (client_seen parts.now) desk.new }
{
    let step = DeskStep::Handles {
        client: parts.number,
    };
    if desk.can(&step) {
        match desk.step(step, None) {
            Ok(_) => {}
            Err(_) => unreachable!(),
        }
    }
}
