// What a statement names and wishes, by its expressions and its environment.
ghost use Rattle.std.specs.Prelude.{◌≡◌, ◌<◌, [], IfOk};
ghost use Rattle.std.specs.List.{list_any};
ghost use Rattle.clone_values.specs.View.{tree_of};
ghost use Rattle.item_changes.specs.Items.{is_same_name};
ghost use Rattle.client_seats.specs.TaskRuns.{version_in, version_wanted, names_once, conn_named, has_thrown};

use clone_values::{Text, Texts, Value};
use idb_base::NoMemory;
use name_queues::Wants;
use script_exprs::Expr;
use script_runs::{Env, RunEnd};
use script_values::value_of_expr;
use std::alloc::Global;
use std::cmp::Ordering;

/// The version that is asked for.
pub fn version_wanted(alloc: Global, env: &Env, version: &Option<Expr>) -> Result<Wants, NoMemory>
    ensures { IfOk result (λ wants. wants ≡ version_wanted env.now version.now) }
{
    match version {
        Some(version) => Ok(version_in(&value_of_expr(alloc, &env.variables, version)?)),
        None => Ok(Wants::Open { version: None }),
    }
}

fn version_in(value: &Value) -> Wants
    ensures { result ≡ version_in (tree_of value.now) }
{
    match value {
        Value::Undefined => Wants::Open { version: None },
        Value::Int(n) => Wants::Open {
            version: Some(u64::try_from(*n).unwrap_or(0)),
        },
        _ => Wants::Open { version: Some(0) },
    }
}

/// The names, each at its first place.
pub fn names_once(alloc: Global, names: &Texts) -> Result<Texts, NoMemory>
    ensures { IfOk result (λ once. once ≡ names_once [] names.now) }
{
    let mut once = Texts::new(alloc);
    for place in 0..names.len() {
        if let Some(name) = names.at(place) {
            if !is_among(name, &once) {
                once.push(name.copy(alloc)?)?;
            }
        }
    }
    Ok(once)
}

fn is_among(name: &Text, names: &Texts) -> bool
    ensures { result ≡ list_any (is_same_name name.now) names.now }
{
    for place in 0..names.len() {
        if let Some(other) = names.at(place) {
            if is_same(name, other) {
                return true;
            }
        }
    }
    false
}

fn is_same(name: &Text, other: &Text) -> bool
    ensures { result ≡ is_same_name name.now other.now }
{
    matches!(name.as_str().cmp(other.as_str()), Ordering::Equal)
}

/// The open whose connection is named, or else the one at hand.
pub fn conn_named(env: &Env, named: Option<u64>) -> Option<u64>
    ensures { result ≡ conn_named env.now named }
{
    match named {
        Some(request) => Some(request),
        None => match env.connection {
            Some(request) => Some(u64::from(request)),
            None => None,
        },
    }
}

/// Whether a body threw.
pub fn has_thrown(end: RunEnd) -> bool
    ensures { result ≡ has_thrown end }
{
    match end {
        RunEnd::Went => false,
        RunEnd::Threw => true,
    }
}
