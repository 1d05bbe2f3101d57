// What the expressions of a statement give for a call.
ghost use Rattle.std.specs.Prelude.{◌≡◌, IfOk};
ghost use Rattle.clone_values.specs.View.{tree_of};
ghost use Rattle.clone_values.specs.WellFormed.{IsValue};
ghost use Rattle.request_lists.specs.Placing.{value_given, values_of_query};
ghost use Rattle.script_values.specs.Evaluating.{given_by};
ghost use Rattle.script_handlers.specs.Asking.{given_key, given_bound, given_query, given_step, given_count, whole_step, AreWellFormed};

use clone_values::Value;
use idb_base::NoMemory;
use idb_calls::Query;
use script_exprs::Expr;
use script_runs::Env;
use script_statements::RangeExpr;
use script_values::value_of_expr;
use std::alloc::Global;

/// What an expression gives.
pub(crate) fn value(alloc: Global, env: &Env, expr: &Expr) -> Result<Value, NoMemory>
    ensures value { IfOk result (λ v. v ≡ given_by env.now.variables expr.now) }
    ensures formed { IfOk result (λ v. IsValue (tree_of v)) }
{
    value_of_expr(alloc, &env.variables, expr)
}

/// A key that may be left out; Undefined counts as left out.
pub(crate) fn key(alloc: Global, env: &Env, expr: &Option<Expr>) -> Result<Option<Value>, NoMemory>
    ensures key { IfOk result (λ k. k ≡ given_key env.now expr.now) }
    ensures formed { IfOk result (λ k. AreWellFormed (value_given k)) }
{
    let Some(expr) = expr else {
        return Ok(None);
    };
    match value_of_expr(alloc, &env.variables, expr)? {
        Value::Undefined => Ok(None),
        value => Ok(Some(value)),
    }
}

fn bound(alloc: Global, env: &Env, expr: &Option<Expr>) -> Result<Option<Value>, NoMemory>
    ensures bound { IfOk result (λ b. b ≡ given_bound env.now expr.now) }
    ensures formed { IfOk result (λ b. AreWellFormed (value_given b)) }
{
    match expr {
        Some(expr) => Ok(Some(value_of_expr(alloc, &env.variables, expr)?)),
        None => Ok(None),
    }
}

/// A query, by one expression or by the bounds of a range.
pub(crate) fn query(
    alloc: Global,
    env: &Env,
    expr: &Option<Expr>,
    range: &Option<RangeExpr>,
) -> Result<Query, NoMemory>
    ensures query { IfOk result (λ q. q ≡ given_query env.now expr.now range.now) }
    ensures formed { IfOk result (λ q. AreWellFormed (values_of_query q)) }
{
    if let Some(expr) = expr {
        return Ok(Query::One(value_of_expr(alloc, &env.variables, expr)?));
    }
    match range {
        Some(range) => within(alloc, env, range),
        None => Ok(Query::Absent),
    }
}

fn within(alloc: Global, env: &Env, range: &RangeExpr) -> Result<Query, NoMemory>
    ensures query { IfOk result (λ q. q ≡ given_query env.now None (Some range.now)) }
    ensures formed { IfOk result (λ q. AreWellFormed (values_of_query q)) }
{
    let lower = bound(alloc, env, &range.lower)?;
    let upper = bound(alloc, env, &range.upper)?;
    Ok(Query::Range {
        lower,
        upper,
        lower_open: range.lower_open,
        upper_open: range.upper_open,
    })
}

/// How many steps an expression asks for; what is no whole number is outside every range.
pub(crate) fn step(alloc: Global, env: &Env, expr: &Expr) -> Result<i64, NoMemory>
    ensures { IfOk result (λ n. n ≡ given_step env.now expr.now) }
{
    let value = value_of_expr(alloc, &env.variables, expr)?;
    Ok(whole_step(&value))
}

fn whole_step(value: &Value) -> i64
    ensures { result ≡ whole_step value.now }
{
    match value {
        Value::Int(n) => *n,
        _ => -1,
    }
}

/// How many are asked for; Undefined counts as left out.
pub(crate) fn count(alloc: Global, env: &Env, expr: &Option<Expr>) -> Result<Option<i64>, NoMemory>
    ensures { IfOk result (λ n. n ≡ given_count env.now expr.now) }
{
    let Some(expr) = expr else {
        return Ok(None);
    };
    match value_of_expr(alloc, &env.variables, expr)? {
        Value::Undefined => Ok(None),
        value => Ok(Some(whole_step(&value))),
    }
}
