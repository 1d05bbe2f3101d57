// Evaluates expressions, their parts first.
ghost use Rattle.std.specs.Prelude.{◌≡◌, true, IfOk};
ghost use Rattle.clone_values.specs.View.{tree_of};
ghost use Rattle.clone_values.specs.WellFormed.{IsValue};
ghost use Rattle.script_exprs.specs.Expression.{expressions_of};
ghost use Rattle.script_values.specs.Evaluating.{value_in, parts_in, given_by, within_limits, is_expr_value};

use crate::forming::form_made;
use crate::limits::{GREATEST_EXPR_DEPTH, GREATEST_EXPR_SIZE};
use clone_values::{Items, Props, Value, depth, well_formed};
use idb_base::{GREATEST_LENGTH, NoMemory};
use script_exprs::Expr;
use std::alloc::Global;
use value_bytes::value_size;

/// The value of the expression where these variables are set. It is Undefined where it isn't well formed, is deeper than
/// `GREATEST_EXPR_DEPTH`, or has a spelling longer than `GREATEST_EXPR_SIZE` bytes; so is that of each part. What it shares with
/// the variables is not copied.
pub fn value_of_expr(alloc: Global, variables: &Props, expr: &Expr) -> Result<Value, NoMemory>
    ensures tree { IfOk result (λ v. tree_of v ≡ value_in variables.now expr.now) }
    ensures value { IfOk result (λ v. v ≡ given_by variables.now expr.now) }
    ensures formed { IfOk result (λ v. IsValue (tree_of v)) }
{
    evaluate(alloc, variables, expr)
}

// The same, by its tree alone.
#[cycle(evaluate)]
fn evaluate(alloc: Global, variables: &Props, expr: &Expr) -> Result<Value, NoMemory>
    ensures tree { IfOk result (λ v. tree_of v ≡ value_in variables.now expr.now) }
    ensures formed { IfOk result (λ v. IsValue (tree_of v)) }
{
    let parts = values_of_parts(alloc, variables, expr.parts())?;
    Ok(within_limits(form_made(alloc, variables, expr.form(), &parts)?))
}

// The values of the parts, in order.
#[cycle(evaluate)]
fn values_of_parts(alloc: Global, variables: &Props, parts: &[Expr]) -> Result<Items, NoMemory>
    ensures { IfOk result (λ ts. ts ≡ parts_in variables.now (expressions_of parts.now)) }
{
    let mut values = Items::new(alloc);
    for part in parts {
        let value = evaluate(alloc, variables, part)?;
        if values.len() >= GREATEST_LENGTH {
            return Err(NoMemory);
        }
        values.push(value)?;
    }
    Ok(values)
}

// The value, or Undefined where it breaks a limit.
fn within_limits(value: Value) -> Value
    ensures tree { tree_of result ≡ within_limits (tree_of value) }
    ensures formed { IsValue (tree_of result) }
{
    if is_expr_value(&value) {
        value
    } else {
        Value::Undefined
    }
}

#[tactic(auto, unfolding(crate::specs::Evaluating::is_expr_value))]
fn is_expr_value(value: &Value) -> bool
    ensures test { result ≡ is_expr_value (tree_of value.now) }
    ensures formed { result ≡ true → IsValue (tree_of value.now) }
{
    value_size(value) <= GREATEST_EXPR_SIZE
        && depth(value) <= GREATEST_EXPR_DEPTH
        && well_formed(value)
}
