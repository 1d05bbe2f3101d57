// Scripts, sessions, clients, blocks and lists of statements, read from the outside inwards. What is read comes with
// the number of the node behind it.
ghost use Rattle.std.specs.Prelude.{◌≡◌, ◌+◌, [], None, Some, false, option_map, if◌then◌else◌};
ghost use Rattle.serde_json.specs.View.{view, items_view, members_view};
ghost use Rattle.idb_base.specs.Results.{Gives};
ghost use Rattle.value_json.specs.Reading.{IsUnread};
ghost use Rattle.clone_values.specs.WellFormed.{is_within_limit};
ghost use Rattle.script_reading.specs.BlockPlaces.{places_seen};
ghost use Rattle.script_reading.specs.Fields.{no_fields};
ghost use Rattle.script_reading.specs.Places.{read_at, Reaches};
ghost use Rattle.script_reading.specs.Layers.{one_field, fields_from, stated_members, stmt_of, stmt_at, stmts_from, statements_at, blocks_from, members_with, blocks_at, client_from, client_at, items_within, list_of, clients_from, clients_at, end_named, end_in, session_from, session_at, sessions_from, sessions_at, script_from, script_of};

use crate::ScriptError;
use crate::block_places::{BlockPlaces, place_of, places_of};
use crate::fields::{Fields, no_fields, read_field};
use crate::limits::{MOST_CLIENTS, MOST_SESSIONS};
use crate::ops::{Op, complete_op, field_of};
use crate::places::{behind, next};
use crate::statements::statement;
use clone_values::Text;
use idb_base::{GREATEST_LENGTH, Listed};
use script_statements::{
    Block, Blocks, Client, Clients, Script, ScriptSession, ScriptSessions, Stmt, Stmts,
};
use serde_json::{Map, Value as Json};
use std::alloc::Global;
use value_json::JsonError;

// A member of a statement; `op` itself was read before.
#[tactic(auto, unfolding(crate::specs::Layers::one_field))]
fn one_field(
    alloc: Global,
    op: Op,
    blocks: &BlockPlaces,
    name: &str,
    json: &Json,
    fields: &mut Fields,
) -> Result<(), JsonError>
    ensures { Gives IsUnread (λ _. fields.new) result
        (one_field op (places_seen blocks.now) name.now (view json.now) fields.old) }
{
    if name == "op" {
        return Ok(());
    }
    match field_of(op, name) {
        Some(field) => read_field(alloc, blocks, field, json, fields),
        None => Err(JsonError::Spelling),
    }
}

// That member, or its place.
fn field_at(
    alloc: Global,
    op: Op,
    blocks: &BlockPlaces,
    place: u64,
    name: &str,
    json: &Json,
    fields: &mut Fields,
) -> Result<(), ScriptError>
    ensures { Reaches (λ _. fields.new) result
        (read_at place (one_field op (places_seen blocks.now) name.now (view json.now) fields.old)) }
{
    match one_field(alloc, op, blocks, name, json, fields) {
        Ok(()) => Ok(()),
        Err(JsonError::Spelling) => Err(ScriptError::BadScript { place }),
        Err(JsonError::NoMemory) => Err(ScriptError::NoMemory),
    }
}

// The members of a statement.
fn fields_from(
    alloc: Global,
    op: Op,
    blocks: &BlockPlaces,
    n: u64,
    members: &Map<String, Json>,
    fields: &mut Fields,
) -> Result<u64, ScriptError>
    ensures { Reaches (λ m. (fields.new, m)) result
        (fields_from op (places_seen blocks.now) n fields.old (members_view members.now.entries)) }
{
    let mut m = n;
    for (name, json) in members.iter() {
        field_at(alloc, op, blocks, m, name.as_str(), json, fields)?;
        m = behind(m, json)?;
    }
    Ok(m)
}

// The members of what may be an object.
fn fields_in(
    alloc: Global,
    op: Op,
    blocks: &BlockPlaces,
    n: u64,
    json: &Json,
    fields: &mut Fields,
) -> Result<u64, ScriptError>
    ensures { Reaches (λ m. (fields.new, m)) result
        (fields_from op (places_seen blocks.now) n fields.old (stated_members (view json.now))) }
{
    match json.as_object() {
        Some(members) => fields_from(alloc, op, blocks, n, members, fields),
        None => Ok(n),
    }
}

// The statement of this kind, beside the fields that were read before.
fn stmt_of(
    alloc: Global,
    op: Op,
    blocks: &BlockPlaces,
    n: u64,
    json: &Json,
    fields: &mut Fields,
) -> Result<(Stmt, u64), ScriptError>
    ensures { Reaches (λ p. p) result (stmt_of op (places_seen blocks.now) n (view json.now) fields.old) }
{
    let m = fields_in(alloc, op, blocks, next(n)?, json, fields)?;
    match statement(op, fields) {
        Some(stmt) => Ok((stmt, m)),
        None => Err(ScriptError::BadScript { place: n }),
    }
}

// A statement, over the client's blocks.
#[tactic(auto, unfolding(crate::specs::Layers::stmt_at))]
fn stmt_at(
    alloc: Global,
    blocks: &BlockPlaces,
    n: u64,
    json: &Json,
) -> Result<(Stmt, u64), ScriptError>
    ensures { Reaches (λ p. p) result (stmt_at (places_seen blocks.now) n (view json.now)) }
{
    let Some(op) = complete_op(json) else {
        return Err(ScriptError::BadScript { place: n });
    };
    let mut fields = no_fields();
    let stmt = stmt_of(alloc, op, blocks, n, json, &mut fields);
    drop(fields);
    stmt
}

fn stmts_from(
    alloc: Global,
    blocks: &BlockPlaces,
    n: u64,
    list: &Vec<Json>,
) -> Result<(Stmts, u64), ScriptError>
    ensures { Reaches (λ p. p) result
        (stmts_from (places_seen blocks.now) n [] (items_view list.now.items)) }
{
    let mut stmts = Listed::new(alloc);
    let mut m = n;
    for json in list {
        let (stmt, behind) = stmt_at(alloc, blocks, m, json)?;
        stmts.push(stmt)?;
        m = behind;
    }
    Ok((stmts, m))
}

// A list of statements.
#[tactic(auto, unfolding(crate::specs::Layers::statements_at))]
fn statements_at(
    alloc: Global,
    blocks: &BlockPlaces,
    n: u64,
    json: &Json,
) -> Result<(Stmts, u64), ScriptError>
    ensures { Reaches (λ p. p) result (statements_at (places_seen blocks.now) n (view json.now)) }
{
    let Some(list) = json.as_array() else {
        return Err(ScriptError::BadScript { place: n });
    };
    stmts_from(alloc, blocks, next(n)?, list)
}

// The name of a block.
fn block_name(alloc: Global, place: u64, name: &str) -> Result<Text, ScriptError>
    ensures { Reaches (λ t. t) result
        (read_at place (if is_within_limit name.now then Some name.now else None)) }
{
    if name.as_bytes().len() > GREATEST_LENGTH {
        return Err(ScriptError::BadScript { place });
    }
    Ok(Text::copy_of(alloc, name)?)
}

fn blocks_from(
    alloc: Global,
    blocks: &BlockPlaces,
    n: u64,
    members: &Map<String, Json>,
) -> Result<(Blocks, u64), ScriptError>
    ensures { Reaches (λ p. p) result
        (blocks_from (places_seen blocks.now) n [] (members_view members.now.entries)) }
{
    let mut found = Listed::new(alloc);
    let mut m = n;
    for (name, json) in members.iter() {
        let name = block_name(alloc, m, name.as_str())?;
        let (body, behind) = statements_at(alloc, blocks, m, json)?;
        found.push(Block { name, body })?;
        m = behind;
    }
    Ok((found, m))
}

// The members of an object that has this one.
fn members_with<'a>(name: &str, json: &'a Json) -> Option<&'a Map<String, Json>>
    ensures { option_map (λ m. members_view m.now.entries) result ≡ members_with name.now (view json.now) }
{
    if json.get(name).is_some() {
        json.as_object()
    } else {
        None
    }
}

// The client that these blocks make.
#[tactic(auto, unfolding(crate::specs::Layers::blocks_at))]
fn blocks_at(alloc: Global, n: u64, json: &Json) -> Result<(Client, u64), ScriptError>
    ensures { Reaches (λ p. p) result (blocks_at n (view json.now)) }
{
    let Some(members) = json.as_object() else {
        return Err(ScriptError::BadScript { place: n });
    };
    let places = places_of(alloc, members)?;
    let Some(main) = place_of(&places, "main") else {
        return Err(ScriptError::BadScript { place: n });
    };
    let (blocks, m) = blocks_from(alloc, &places, next(n)?, members)?;
    Ok((Client { blocks, main }, m))
}

fn client_from(
    alloc: Global,
    n: u64,
    members: &Map<String, Json>,
) -> Result<(Option<Client>, u64), ScriptError>
    ensures { Reaches (λ p. p) result (client_from n None (members_view members.now.entries)) }
{
    let mut found = None;
    let mut m = n;
    for (name, json) in members.iter() {
        if name.as_str() != "blocks" {
            return Err(ScriptError::BadScript { place: m });
        }
        let (client, behind) = blocks_at(alloc, m, json)?;
        found = Some(client);
        m = behind;
    }
    Ok((found, m))
}

#[tactic(auto, unfolding(crate::specs::Layers::client_at))]
fn client_at(alloc: Global, n: u64, json: &Json) -> Result<(Client, u64), ScriptError>
    ensures { Reaches (λ p. p) result (client_at n (view json.now)) }
{
    let Some(members) = members_with("blocks", json) else {
        return Err(ScriptError::BadScript { place: n });
    };
    let (found, m) = client_from(alloc, next(n)?, members)?;
    let Some(client) = found else {
        return Err(ScriptError::BadScript { place: n });
    };
    Ok((client, m))
}

// A list of one or more, and of no more than these.
#[tactic(auto, using(crate::proofs::LayersLemmas::len_items))]
fn items_within(most: usize, list: &Vec<Json>) -> Option<&Vec<Json>>
    ensures { option_map (λ l. items_view l.now.items) result
        ≡ items_within most (items_view list.now.items) }
{
    let count = list.len();
    if 1 <= count && count <= most {
        Some(list)
    } else {
        None
    }
}

fn list_of(most: usize, json: &Json) -> Option<&Vec<Json>>
    ensures { option_map (λ l. items_view l.now.items) result ≡ list_of most (view json.now) }
{
    items_within(most, json.as_array()?)
}

fn clients_from(alloc: Global, n: u64, list: &Vec<Json>) -> Result<(Clients, u64), ScriptError>
    ensures { Reaches (λ p. p) result (clients_from n [] (items_view list.now.items)) }
{
    let mut clients = Listed::new(alloc);
    let mut m = n;
    for json in list {
        let (client, behind) = client_at(alloc, m, json)?;
        clients.push(client)?;
        m = behind;
    }
    Ok((clients, m))
}

#[tactic(auto, unfolding(crate::specs::Layers::clients_at))]
fn clients_at(alloc: Global, n: u64, json: &Json) -> Result<(Clients, u64), ScriptError>
    ensures { Reaches (λ p. p) result (clients_at n (view json.now)) }
{
    let Some(list) = list_of(MOST_CLIENTS, json) else {
        return Err(ScriptError::BadScript { place: n });
    };
    clients_from(alloc, next(n)?, list)
}

fn end_named(word: &str) -> Option<bool>
    ensures { result ≡ end_named word.now }
{
    if word == "flush" {
        Some(false)
    } else if word == "drop" {
        Some(true)
    } else {
        None
    }
}

// Whether waiting commits are dropped.
fn end_in(json: &Json) -> Option<bool>
    ensures { result ≡ end_in (view json.now) }
{
    end_named(json.as_str()?)
}

fn session_from(
    alloc: Global,
    n: u64,
    members: &Map<String, Json>,
) -> Result<((Option<Clients>, bool), u64), ScriptError>
    ensures { Reaches (λ p. p) result
        (session_from n (None, false) (members_view members.now.entries)) }
{
    let mut found = None;
    let mut drop_end = false;
    let mut m = n;
    for (name, json) in members.iter() {
        if name.as_str() == "clients" {
            let (clients, behind) = clients_at(alloc, m, json)?;
            found = Some(clients);
            m = behind;
        } else if name.as_str() == "end" {
            let Some(drops) = end_in(json) else {
                return Err(ScriptError::BadScript { place: m });
            };
            drop_end = drops;
            m = behind(m, json)?;
        } else {
            return Err(ScriptError::BadScript { place: m });
        }
    }
    Ok(((found, drop_end), m))
}

#[tactic(auto, unfolding(crate::specs::Layers::session_at))]
fn session_at(alloc: Global, n: u64, json: &Json) -> Result<(ScriptSession, u64), ScriptError>
    ensures { Reaches (λ p. p) result (session_at n (view json.now)) }
{
    let Some(members) = members_with("clients", json) else {
        return Err(ScriptError::BadScript { place: n });
    };
    let ((found, drop_end), m) = session_from(alloc, next(n)?, members)?;
    let Some(clients) = found else {
        return Err(ScriptError::BadScript { place: n });
    };
    Ok((ScriptSession { clients, drop_end }, m))
}

fn sessions_from(
    alloc: Global,
    n: u64,
    list: &Vec<Json>,
) -> Result<(ScriptSessions, u64), ScriptError>
    ensures { Reaches (λ p. p) result (sessions_from n [] (items_view list.now.items)) }
{
    let mut sessions = Listed::new(alloc);
    let mut m = n;
    for json in list {
        let (session, behind) = session_at(alloc, m, json)?;
        sessions.push(session)?;
        m = behind;
    }
    Ok((sessions, m))
}

#[tactic(auto, unfolding(crate::specs::Layers::sessions_at))]
fn sessions_at(alloc: Global, n: u64, json: &Json) -> Result<(ScriptSessions, u64), ScriptError>
    ensures { Reaches (λ p. p) result (sessions_at n (view json.now)) }
{
    let Some(list) = list_of(MOST_SESSIONS, json) else {
        return Err(ScriptError::BadScript { place: n });
    };
    sessions_from(alloc, next(n)?, list)
}

fn script_from(
    alloc: Global,
    n: u64,
    members: &Map<String, Json>,
) -> Result<(Option<ScriptSessions>, u64), ScriptError>
    ensures { Reaches (λ p. p) result (script_from n None (members_view members.now.entries)) }
{
    let mut found = None;
    let mut m = n;
    for (name, json) in members.iter() {
        if name.as_str() != "sessions" {
            return Err(ScriptError::BadScript { place: m });
        }
        let (sessions, behind) = sessions_at(alloc, m, json)?;
        found = Some(sessions);
        m = behind;
    }
    Ok((found, m))
}

/// The script that a document is. `BadScript` comes exactly where it is none, with the place of the first faulty node.
#[tactic(auto, unfolding(crate::specs::Layers::script_of))]
pub fn script_from_json(alloc: Global, json: &Json) -> Result<Script, ScriptError>
    ensures { Reaches (λ s. s) result (script_of (view json.now)) }
{
    let Some(members) = members_with("sessions", json) else {
        return Err(ScriptError::BadScript { place: 1 });
    };
    let (found, _) = script_from(alloc, 2, members)?;
    let Some(sessions) = found else {
        return Err(ScriptError::BadScript { place: 1 });
    };
    Ok(Script { sessions })
}
