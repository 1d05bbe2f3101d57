// Expressions. Contracts see one as its form and the expressions that are its parts.
ghost use Rattle.std.specs.Prelude.{◌≡◌};
ghost use Rattle.clone_values.specs.View.{tree_of};
ghost use Rattle.script_exprs.specs.Expression.{expression, expressions_of, expression_form, expression_parts};

use clone_values::{Text, Value};
use idb_base::Listed;
use path_grammar::KeyPath;
use std::marker::Model;

/// A value that holds no other.
#[derive(Drop)]
pub struct Literal {
    value: Value,
}

impl Model for Literal {
    ghost use Rattle.clone_values.specs.Tree.{Tree, tree_code};

    ghost Value = { Tree };

    ghost coded = { tree_code };

    ghost use Rattle.clone_values.specs.View.{tree_of};

    ghost view = { λ a. tree_of a.value };
}

impl Literal {
    /// The literal of a value.
    pub fn new(value: Value) -> Literal
        ensures { result ≡ tree_of value }
    {
        Literal { value }
    }

    /// The value.
    pub fn value(&self) -> &Value
        ensures { tree_of result.now ≡ self.now }
    {
        &self.value
    }
}

/// What is done with the values of an expression's parts.
#[derive(Drop)]
pub enum ExprForm {
    /// This value; there are no parts.
    Literal(Literal),
    /// An Array of the parts; the last of them are named properties, of these names.
    Array(Listed<Text>),
    /// An Object, whose properties of these names are the parts.
    Object(Listed<Text>),
    /// A Map; the parts are its keys and values in turn.
    Map,
    /// A Set of the parts, where one that repeats another counts once.
    Set,
    /// The variable of this name, Undefined where it isn't set; there are no parts.
    Var(Text),
    /// The sum of the two parts.
    Plus,
    /// What the key path gives at the one part.
    Prop(KeyPath),
    /// The first part, an Object, with its property of this name set to the second.
    With(Text),
    /// Whether the two parts are equal.
    Same,
}

/// An expression: its form, and its parts in order.
#[derive(Drop)]
pub struct Expr {
    form: ExprForm,
    parts: Vec<Expr>,
}

impl Model for Expr {
    ghost use Rattle.script_exprs.specs.Expression.{Expression, expression, expressions_of, expression_code, expression_size};

    ghost Value = { Expression };

    ghost coded = { expression_code };

    ghost view = { λ a. expression a.form (expressions_of a.parts.items) };

    ghost size = { expression_size };

    ghost use Rattle.std.proofs.Common.{arith};
    ghost use Rattle.script_exprs.specs.Expression.{parts_fall};

    ghost size_decreases = { λ a h. omega (arith, parts_fall a.parts.items) };
}

impl Expr {
    /// The expression of this form and these parts. It takes no memory.
    pub fn new(form: ExprForm, parts: Vec<Expr>) -> Expr
        ensures { result ≡ expression form (expressions_of parts.items) }
    {
        Expr { form, parts }
    }

    /// The form.
    pub fn form(&self) -> &ExprForm
        ensures { result.now ≡ expression_form self.now }
    {
        &self.form
    }

    /// The parts, in order.
    pub fn parts(&self) -> &[Expr]
        ensures { expressions_of result.now ≡ expression_parts self.now }
    {
        self.parts.as_slice()
    }
}
