// Expressions as they are read.
use script_exprs::{Expr, ExprForm, expr_from_json};
use serde_json::Value as Json;
use std::alloc::Global;
use std::fmt::Write;
use value_json::JsonError;

/// Writes the form of an expression.
fn show_form(said: &mut String, expr: &Expr) {
    let _ = match expr.form() {
        ExprForm::Literal(_) => write!(said, "literal"),
        ExprForm::Array(names) => write!(said, "array {}", names.len()),
        ExprForm::Object(names) => write!(said, "object {}", names.len()),
        ExprForm::Map => write!(said, "map"),
        ExprForm::Set => write!(said, "set"),
        ExprForm::Var(name) => write!(said, "var {}", name.as_str()),
        ExprForm::Plus => write!(said, "plus"),
        ExprForm::Prop(_) => write!(said, "prop"),
        ExprForm::With(name) => write!(said, "with {}", name.as_str()),
        ExprForm::Same => write!(said, "same"),
    };
}

/// Reads a document, and writes its form and those of its parts.
fn read(alloc: Global, said: &mut String, text: &str) {
    let Ok(document) = Json::from_str(alloc, text) else {
        let _ = write!(said, "no document;");
        return;
    };
    match expr_from_json(alloc, &document) {
        Ok(expr) => {
            show_form(said, &expr);
            for part in expr.parts() {
                let _ = write!(said, " ");
                show_form(said, part);
            }
            let _ = write!(said, ";");
        }
        Err(JsonError::Spelling) => {
            let _ = write!(said, "none;");
        }
        Err(JsonError::NoMemory) => {
            let _ = write!(said, "no memory;");
        }
    }
}

/// Each form once.
#[test]
fn each_form_is_read(rt: HostRuntime) {
    let rows = [
        "7",
        r#"[1,{"$var":"x"}]"#,
        r#"{"$array":[[]],"$named":[["n",{"$var":"y"}]]}"#,
        r#"{"b":{"$plus":[1,2]},"a":null}"#,
        r#"{"$object":[["$a",{"$set":[]}]]}"#,
        r#"{"$map":[[{"$var":"k"},1]]}"#,
        r#"{"$set":[1,1]}"#,
        r#"{"$same":[{"$var":"x"},{}]}"#,
        r#"{"$prop":[{"$var":"x"},"a.b"]}"#,
        r#"{"$with":[{"$var":"x"},"a b",[]]}"#,
        r#"{"$with":[{"$var":"x"},"a"]}"#,
        r#"{"$object":[["a",1],["b",1],["a",2]]}"#,
    ];
    let mut said = String::new(rt.alloc());
    for row in &rows {
        read(rt.alloc(), &mut said, row);
    }
    assert!(rt;
        said.as_str()
            == "literal;array 0 literal var x;array 1 array 0 var y;object 2 literal plus;object 1 set;map var k literal;set literal literal;same var x object 0;prop var x;with a b var x array 0;none;none;"
    );
}
