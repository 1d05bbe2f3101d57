// What is said of an upgrade that ran: its events, its end, and what it left.
use crate::plans::Planned;
use crate::steps::text;
use clone_values::{Key, Value};
use idb_calls::{Event, Events};
use idb_keys::ErrorName;
use index_tables::FlatTables;
use list_machine::Step;
use live_tx::{LiveParts, LiveTx};
use std::alloc::Global;
use std::fmt::Write;
use std::process::Abort;

pub(crate) type Ended = (Step, LiveTx<FlatTables, Planned>);

fn say_number(value: &Value, said: &mut String) {
    let _ = match value {
        Value::Int(n) => write!(said, "{n}"),
        _ => write!(said, "?"),
    };
}

fn say_value(value: &Value, said: &mut String) {
    match value {
        Value::Undefined => {
            let _ = said.push_str("undefined");
        }
        Value::Null => {
            let _ = said.push_str("null");
        }
        Value::Array(items, _) => {
            for place in 0..items.len() {
                if let Some(item) = items.at(place) {
                    say_number(item, said);
                    let _ = said.push_str(",");
                }
            }
        }
        Value::Object(props) => {
            for place in 0..props.len() {
                if let Some(prop) = props.at(place) {
                    let _ = write!(said, "{}=", prop.name.as_str());
                    say_number(&prop.value, said);
                    let _ = said.push_str(",");
                }
            }
        }
        value => say_number(value, said),
    }
}

pub(crate) fn say_events(events: &Events, said: &mut String) {
    for event in events.as_slice() {
        match event {
            Event::Success { request, result } => {
                let _ = write!(said, "{request}:");
                say_value(result, said);
                let _ = said.push_str(" ");
            }
            Event::Error { request, name } => {
                let _ = write!(said, "{request}:{} ", name.name());
            }
        }
    }
}

pub(crate) fn say_name(name: Option<ErrorName>, said: &mut String) {
    let name = match name {
        Some(name) => name.name(),
        None => "null",
    };
    let _ = write!(said, "{name} ");
}

pub(crate) fn say_step(step: Step, said: &mut String) {
    match step {
        Step::Did => {
            let _ = said.push_str("did ");
        }
        Step::Idle => {
            let _ = said.push_str("committed ");
        }
        Step::Aborted { error } => {
            let _ = said.push_str("aborted ");
            say_name(error, said);
        }
        Step::NoMemory => {
            let _ = said.push_str("no memory ");
        }
    }
}

/// The version of the database, and the records of the store, if there is one.
pub(crate) fn say_left(
    rt: &impl Abort,
    alloc: Global,
    parts: &LiveParts<FlatTables>,
    said: &mut String,
) {
    let _ = write!(said, "version {}", parts.stores.version().unwrap_or(0));
    if let Some(store) = parts.stores.store(&text(rt, alloc, "s")) {
        let _ = said.push_str(" with");
        for place in 0..store.len() {
            if let Some((Key::Number(key), value)) = store.record_at(place) {
                let _ = write!(said, " {key}=");
                say_number(value, said);
            }
        }
    }
}
