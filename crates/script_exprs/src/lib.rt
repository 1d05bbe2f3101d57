// Expressions of scripts, and the documents that they are.
//
// The layer above uses `expr_from_json`, which reads exactly the documents that are expressions: values in whose inner
// places expressions may stand, and the five forms that are no values. Contracts see an expression as its form and the
// expressions that are its parts.
#![tactic(auto)]

mod expr;
mod expressions;
mod forms;
mod limits;

pub use expr::{Expr, ExprForm, Literal};
pub use expressions::expr_from_json;
pub use forms::name_from_json;
pub use limits::MOST_LEVELS;
