// What expressions of scripts give.
//
// The layer above uses `value_of_expr`: the value of an expression where variables are set, exactly `value_in`. It is well
// formed whatever the variables hold; one that breaks a limit is Undefined.
#![tactic(auto)]

mod evaluating;
mod forming;
mod limits;

pub use evaluating::value_of_expr;
pub use limits::{GREATEST_EXPR_DEPTH, GREATEST_EXPR_SIZE};
