// What statements ask of a front: names first, then expressions.
ghost use Rattle.std.specs.Prelude.{◌≡◌, IfOk, unwrap_or};
ghost use Rattle.idb_keys.specs.declared.names.ErrorName.TheVariants as error;
ghost use Rattle.idb_keys.specs.declared.names.Direction.TheVariants.{Next};
ghost use Rattle.script_handlers.specs.declared.asks.Ask.TheVariants as ask;
ghost use Rattle.script_handlers.specs.Asking.{ask_of, store_called, target_called, requests, opens, is_set, IsAsk};

use crate::asks::Ask;
use crate::values::{count, key, query, step, value};
use clone_values::{PathSpec, Text};
use idb_base::NoMemory;
use idb_calls::{Call, Target};
use idb_keys::{Direction, ErrorName};
use idb_schema::{SchemaCall, StoreId};
use request_lists::TxFront;
use script_runs::Env;
use script_statements::{BlockPlace, Stmt};
use std::alloc::Global;

/// What a statement asks of the front. What only tasks do is refused with InvalidStateError.
pub(crate) fn ask_of<H: Drop>(
    alloc: Global,
    front: &TxFront<H>,
    env: &Env,
    statement: &Stmt,
) -> Result<Ask, NoMemory>
    ensures asked { IfOk result (λ a. a ≡ ask_of front.now env.now statement.now) }
    ensures formed { IfOk result IsAsk }
{
    match statement {
        Stmt::Add { .. } | Stmt::Put { .. } => ask_to_store(alloc, front, env, statement),
        Stmt::Get { .. } | Stmt::GetKey { .. } | Stmt::Count { .. } => {
            ask_to_read(alloc, front, env, statement)
        }
        Stmt::GetAll { .. } | Stmt::GetAllKeys { .. } => {
            ask_to_list(alloc, front, env, statement)
        }
        Stmt::Delete { .. } | Stmt::Clear { .. } => ask_to_empty(alloc, front, env, statement),
        Stmt::OpenCursor { .. } | Stmt::OpenKeyCursor { .. } => {
            ask_to_open(alloc, front, env, statement)
        }
        Stmt::Continue { .. } | Stmt::ContinuePrimaryKey { .. } | Stmt::Advance { .. } => {
            ask_to_go_on(alloc, env, front, statement)
        }
        Stmt::Update { .. } | Stmt::DeleteHere { .. } => {
            ask_to_change_here(alloc, env, front, statement)
        }
        Stmt::Commit => Ok(Ask::Commits),
        Stmt::Abort => Ok(Ask::Aborts),
        Stmt::Prevent => Ok(Ask::Prevents),
        Stmt::CreateObjectStore { .. } | Stmt::DeleteObjectStore { .. } => {
            ask_for_store(alloc, env, front, statement)
        }
        Stmt::CreateIndex { .. } | Stmt::DeleteIndex { .. } => {
            ask_for_index(alloc, env, front, statement)
        }
        _ => Ok(misplaced()),
    }
}

fn misplaced() -> Ask
    ensures { result ≡ ask.Refused error.InvalidStateError }
{
    Ask::Refused {
        error: ErrorName::InvalidStateError,
    }
}

/// `objectStore`.
fn store_called<H: Drop>(front: &TxFront<H>, name: &Text) -> Result<StoreId, ErrorName>
    ensures { result ≡ store_called front.now name.now }
{
    match front.store(name) {
        Ok(store) => Ok(store),
        Err(error) => Err(error),
    }
}

/// `objectStore` and, where an index is named, `index`.
fn target_called<H: Drop>(
    front: &TxFront<H>,
    name: &Text,
    index: &Option<Text>,
) -> Result<Target, ErrorName>
    ensures { result ≡ target_called front.now name.now index.now }
{
    let store = match store_called(front, name) {
        Ok(store) => store,
        Err(error) => return Err(error),
    };
    let Some(index) = index else {
        return Ok(Target { store, index: None });
    };
    match front.index(store, index) {
        Ok(index) => Ok(Target {
            store,
            index: Some(index),
        }),
        Err(error) => Err(error),
    }
}

/// A request that opens no cursor.
fn requests(call: Call, success: Option<BlockPlace>, error: Option<BlockPlace>) -> Ask
    ensures { result ≡ requests call success error }
{
    Ask::Places {
        call,
        success,
        error,
        opens: false,
    }
}

/// A request that opens a cursor.
fn opens(call: Call, success: Option<BlockPlace>, error: Option<BlockPlace>) -> Ask
    ensures { result ≡ opens call success error }
{
    Ask::Places {
        call,
        success,
        error,
        opens: true,
    }
}

fn ask_to_store<H: Drop>(
    alloc: Global,
    front: &TxFront<H>,
    env: &Env,
    statement: &Stmt,
) -> Result<Ask, NoMemory>
    ensures asked { IfOk result (λ a. a ≡ ask_of front.now env.now statement.now) }
    ensures formed { IfOk result IsAsk }
{
    match statement {
        Stmt::Add {
            store,
            value: given,
            key: given_key,
            success,
            error,
        } => {
            let store = match store_called(front, store) {
                Ok(store) => store,
                Err(error) => return Ok(Ask::Refused { error }),
            };
            let value = value(alloc, env, given)?;
            let key = match key(alloc, env, given_key) {
                Ok(key) => key,
                Err(e) => {
                    drop(value);
                    return Err(e);
                }
            };
            Ok(requests(Call::Add { store, value, key }, *success, *error))
        }
        Stmt::Put {
            store,
            value: given,
            key: given_key,
            success,
            error,
        } => {
            let store = match store_called(front, store) {
                Ok(store) => store,
                Err(error) => return Ok(Ask::Refused { error }),
            };
            let value = value(alloc, env, given)?;
            let key = match key(alloc, env, given_key) {
                Ok(key) => key,
                Err(e) => {
                    drop(value);
                    return Err(e);
                }
            };
            Ok(requests(Call::Put { store, value, key }, *success, *error))
        }
        _ => Err(NoMemory),
    }
}

fn ask_to_read<H: Drop>(
    alloc: Global,
    front: &TxFront<H>,
    env: &Env,
    statement: &Stmt,
) -> Result<Ask, NoMemory>
    ensures asked { IfOk result (λ a. a ≡ ask_of front.now env.now statement.now) }
    ensures formed { IfOk result IsAsk }
{
    match statement {
        Stmt::Get {
            store,
            index,
            query: given,
            range,
            success,
            error,
        } => {
            let target = match target_called(front, store, index) {
                Ok(target) => target,
                Err(error) => return Ok(Ask::Refused { error }),
            };
            let query = query(alloc, env, given, range)?;
            Ok(requests(Call::Get { target, query }, *success, *error))
        }
        Stmt::GetKey {
            store,
            index,
            query: given,
            range,
            success,
            error,
        } => {
            let target = match target_called(front, store, index) {
                Ok(target) => target,
                Err(error) => return Ok(Ask::Refused { error }),
            };
            let query = query(alloc, env, given, range)?;
            Ok(requests(Call::GetKey { target, query }, *success, *error))
        }
        Stmt::Count {
            store,
            index,
            query: given,
            range,
            success,
            error,
        } => {
            let target = match target_called(front, store, index) {
                Ok(target) => target,
                Err(error) => return Ok(Ask::Refused { error }),
            };
            let query = query(alloc, env, given, range)?;
            Ok(requests(Call::Count { target, query }, *success, *error))
        }
        _ => Err(NoMemory),
    }
}

fn ask_to_list<H: Drop>(
    alloc: Global,
    front: &TxFront<H>,
    env: &Env,
    statement: &Stmt,
) -> Result<Ask, NoMemory>
    ensures asked { IfOk result (λ a. a ≡ ask_of front.now env.now statement.now) }
    ensures formed { IfOk result IsAsk }
{
    match statement {
        Stmt::GetAll { .. } => ask_for_values(alloc, front, env, statement),
        Stmt::GetAllKeys { .. } => ask_for_keys(alloc, front, env, statement),
        _ => Err(NoMemory),
    }
}

fn ask_for_values<H: Drop>(
    alloc: Global,
    front: &TxFront<H>,
    env: &Env,
    statement: &Stmt,
) -> Result<Ask, NoMemory>
    ensures asked { IfOk result (λ a. a ≡ ask_of front.now env.now statement.now) }
    ensures formed { IfOk result IsAsk }
{
    match statement {
        Stmt::GetAll {
            store,
            index,
            query: given,
            range,
            count: asked,
            success,
            error,
        } => {
            let target = match target_called(front, store, index) {
                Ok(target) => target,
                Err(error) => return Ok(Ask::Refused { error }),
            };
            let count = count(alloc, env, asked)?;
            let query = query(alloc, env, given, range)?;
            let call = Call::GetAll {
                target,
                query,
                count,
            };
            Ok(requests(call, *success, *error))
        }
        _ => Err(NoMemory),
    }
}

fn ask_for_keys<H: Drop>(
    alloc: Global,
    front: &TxFront<H>,
    env: &Env,
    statement: &Stmt,
) -> Result<Ask, NoMemory>
    ensures asked { IfOk result (λ a. a ≡ ask_of front.now env.now statement.now) }
    ensures formed { IfOk result IsAsk }
{
    match statement {
        Stmt::GetAllKeys {
            store,
            index,
            query: given,
            range,
            count: asked,
            success,
            error,
        } => {
            let target = match target_called(front, store, index) {
                Ok(target) => target,
                Err(error) => return Ok(Ask::Refused { error }),
            };
            let count = count(alloc, env, asked)?;
            let query = query(alloc, env, given, range)?;
            let call = Call::GetAllKeys {
                target,
                query,
                count,
            };
            Ok(requests(call, *success, *error))
        }
        _ => Err(NoMemory),
    }
}

fn ask_to_empty<H: Drop>(
    alloc: Global,
    front: &TxFront<H>,
    env: &Env,
    statement: &Stmt,
) -> Result<Ask, NoMemory>
    ensures asked { IfOk result (λ a. a ≡ ask_of front.now env.now statement.now) }
    ensures formed { IfOk result IsAsk }
{
    match statement {
        Stmt::Delete {
            store,
            query: given,
            range,
            success,
            error,
        } => {
            let store = match store_called(front, store) {
                Ok(store) => store,
                Err(error) => return Ok(Ask::Refused { error }),
            };
            let query = query(alloc, env, given, range)?;
            Ok(requests(Call::Delete { store, query }, *success, *error))
        }
        Stmt::Clear {
            store,
            success,
            error,
        } => match store_called(front, store) {
            Ok(store) => Ok(requests(Call::Clear { store }, *success, *error)),
            Err(error) => Ok(Ask::Refused { error }),
        },
        _ => Err(NoMemory),
    }
}

fn direction_of(direction: &Option<Direction>) -> Direction
    ensures { result ≡ unwrap_or direction.now Next }
{
    match direction {
        Some(direction) => *direction,
        None => Direction::Next,
    }
}

fn ask_to_open<H: Drop>(
    alloc: Global,
    front: &TxFront<H>,
    env: &Env,
    statement: &Stmt,
) -> Result<Ask, NoMemory>
    ensures asked { IfOk result (λ a. a ≡ ask_of front.now env.now statement.now) }
    ensures formed { IfOk result IsAsk }
{
    match statement {
        Stmt::OpenCursor {
            store,
            index,
            query: given,
            range,
            direction,
            success,
            error,
        } => {
            let target = match target_called(front, store, index) {
                Ok(target) => target,
                Err(error) => return Ok(Ask::Refused { error }),
            };
            let query = query(alloc, env, given, range)?;
            let call = Call::OpenCursor {
                target,
                query,
                direction: direction_of(direction),
            };
            Ok(opens(call, *success, *error))
        }
        Stmt::OpenKeyCursor {
            store,
            index,
            query: given,
            range,
            direction,
            success,
            error,
        } => {
            let target = match target_called(front, store, index) {
                Ok(target) => target,
                Err(error) => return Ok(Ask::Refused { error }),
            };
            let query = query(alloc, env, given, range)?;
            let call = Call::OpenKeyCursor {
                target,
                query,
                direction: direction_of(direction),
            };
            Ok(opens(call, *success, *error))
        }
        _ => Err(NoMemory),
    }
}

fn ask_to_go_on<H: Drop>(
    alloc: Global,
    env: &Env,
    front: &TxFront<H>,
    statement: &Stmt,
) -> Result<Ask, NoMemory>
    ensures asked { IfOk result (λ a. a ≡ ask_of front.now env.now statement.now) }
    ensures formed { IfOk result IsAsk }
{
    let Some(cursor) = env.cursor else {
        return match statement {
            Stmt::Continue { .. } => Ok(misplaced()),
            Stmt::ContinuePrimaryKey { .. } => Ok(misplaced()),
            Stmt::Advance { .. } => Ok(misplaced()),
            _ => Err(NoMemory),
        };
    };
    match statement {
        Stmt::Continue { key: given } => {
            let key = key(alloc, env, given)?;
            Ok(requests(Call::Continue { cursor, key }, None, None))
        }
        Stmt::ContinuePrimaryKey {
            key: given,
            primary_key,
        } => {
            let key = value(alloc, env, given)?;
            let primary = value(alloc, env, primary_key)?;
            let call = Call::ContinuePrimaryKey {
                cursor,
                key,
                primary,
            };
            Ok(requests(call, None, None))
        }
        Stmt::Advance { count } => {
            let count = step(alloc, env, count)?;
            Ok(requests(Call::Advance { cursor, count }, None, None))
        }
        _ => Err(NoMemory),
    }
}

fn ask_to_change_here<H: Drop>(
    alloc: Global,
    env: &Env,
    front: &TxFront<H>,
    statement: &Stmt,
) -> Result<Ask, NoMemory>
    ensures asked { IfOk result (λ a. a ≡ ask_of front.now env.now statement.now) }
    ensures formed { IfOk result IsAsk }
{
    let Some(cursor) = env.cursor else {
        return match statement {
            Stmt::Update { .. } => Ok(misplaced()),
            Stmt::DeleteHere { .. } => Ok(misplaced()),
            _ => Err(NoMemory),
        };
    };
    match statement {
        Stmt::Update {
            value: given,
            success,
            error,
        } => {
            let value = value(alloc, env, given)?;
            Ok(requests(Call::Update { cursor, value }, *success, *error))
        }
        Stmt::DeleteHere { success, error } => {
            Ok(requests(Call::DeleteHere { cursor }, *success, *error))
        }
        _ => Err(NoMemory),
    }
}

fn is_set(flag: &Option<bool>) -> bool
    ensures { result ≡ is_set flag.now }
{
    match flag {
        Some(flag) => *flag,
        None => false,
    }
}

fn path_copied(alloc: Global, path: &Option<PathSpec>) -> Result<Option<PathSpec>, NoMemory>
    ensures { IfOk result (λ p. p ≡ path.now) }
{
    match path {
        Some(path) => Ok(Some(path.copy(alloc)?)),
        None => Ok(None),
    }
}

fn ask_for_store<H: Drop>(
    alloc: Global,
    env: &Env,
    front: &TxFront<H>,
    statement: &Stmt,
) -> Result<Ask, NoMemory>
    ensures asked { IfOk result (λ a. a ≡ ask_of front.now env.now statement.now) }
    ensures formed { IfOk result IsAsk }
{
    match statement {
        Stmt::CreateObjectStore {
            store,
            key_path,
            auto_increment,
        } => {
            let name = store.copy(alloc)?;
            let path = path_copied(alloc, key_path)?;
            let call = SchemaCall::CreateStore {
                name,
                path,
                auto: is_set(auto_increment),
            };
            Ok(Ask::Changes { call })
        }
        Stmt::DeleteObjectStore { store } => {
            let name = store.copy(alloc)?;
            Ok(Ask::Changes {
                call: SchemaCall::DropStore { name },
            })
        }
        _ => Err(NoMemory),
    }
}

fn ask_for_index<H: Drop>(
    alloc: Global,
    env: &Env,
    front: &TxFront<H>,
    statement: &Stmt,
) -> Result<Ask, NoMemory>
    ensures asked { IfOk result (λ a. a ≡ ask_of front.now env.now statement.now) }
    ensures formed { IfOk result IsAsk }
{
    match statement {
        Stmt::CreateIndex {
            store,
            index,
            key_path,
            unique,
            multi_entry,
        } => {
            let store = match store_called(front, store) {
                Ok(store) => store,
                Err(error) => return Ok(Ask::Refused { error }),
            };
            let name = index.copy(alloc)?;
            let path = key_path.copy(alloc)?;
            let call = SchemaCall::CreateIndex {
                store,
                name,
                path,
                unique: is_set(unique),
                multi: is_set(multi_entry),
            };
            Ok(Ask::Changes { call })
        }
        Stmt::DeleteIndex { store, index } => {
            let store = match store_called(front, store) {
                Ok(store) => store,
                Err(error) => return Ok(Ask::Refused { error }),
            };
            let name = index.copy(alloc)?;
            Ok(Ask::Changes {
                call: SchemaCall::DropIndex { store, name },
            })
        }
        _ => Err(NoMemory),
    }
}
