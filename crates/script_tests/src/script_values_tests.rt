// What small expressions give.
use clone_values::{Props, Text, Value};
use idb_base::GREATEST_LENGTH;
use script_exprs::expr_from_json;
use script_values::value_of_expr;
use serde_json::Value as Json;
use std::alloc::Global;
use std::process::Abort;
use value_json::push_value_text;

/// The variables that are set, in order: each stands for what its expression gives where those before it are set.
const VARIABLES: [(&str, &str); 3] = [
    ("n", "7"),
    ("s", "\"text\""),
    ("o", "{\"a\":1,\"b\":{\"c\":[true,{\"$var\":\"n\"}]}}"),
];

/// Expressions, and what they give.
const GIVEN: [(&str, &str); 32] = [
    ("null", "null"),
    ("\"grün\"", "\"grün\""),
    ("{\"$var\":\"n\"}", "7"),
    ("{\"$var\":\"o\"}", "{\"a\":1,\"b\":{\"c\":[true,7]}}"),
    ("{\"$var\":\"u\"}", "{\"$undefined\":null}"),
    ("{\"$plus\":[{\"$var\":\"n\"},-9]}", "-2"),
    ("{\"$plus\":[{\"$var\":\"u\"},3]}", "3"),
    ("{\"$plus\":[{\"$var\":\"u\"},{\"$var\":\"u\"}]}", "0"),
    ("{\"$plus\":[{\"$var\":\"s\"},3]}", "{\"$undefined\":null}"),
    ("{\"$plus\":[3,null]}", "{\"$undefined\":null}"),
    ("{\"$plus\":[9007199254740991,1]}", "9007199254740992"),
    ("{\"$plus\":[9007199254740992,1]}", "{\"$undefined\":null}"),
    (
        "{\"$plus\":[-9007199254740992,-1]}",
        "{\"$undefined\":null}",
    ),
    ("{\"$prop\":[{\"$var\":\"o\"},\"b.c\"]}", "[true,7]"),
    ("{\"$prop\":[{\"$var\":\"o\"},\"b.c.length\"]}", "2"),
    ("{\"$prop\":[{\"$var\":\"s\"},\"length\"]}", "4"),
    (
        "{\"$prop\":[{\"$var\":\"o\"},\"\"]}",
        "{\"a\":1,\"b\":{\"c\":[true,7]}}",
    ),
    (
        "{\"$prop\":[{\"$var\":\"o\"},\"x\"]}",
        "{\"$undefined\":null}",
    ),
    (
        "{\"$with\":[{\"$var\":\"o\"},\"b\",[1,{\"$var\":\"n\"}]]}",
        "{\"a\":1,\"b\":[1,7]}",
    ),
    ("{\"$with\":[{},\"x\",{\"$var\":\"n\"}]}", "{\"x\":7}"),
    ("{\"$with\":[[],\"x\",1]}", "{\"$undefined\":null}"),
    (
        "{\"$same\":[{\"$var\":\"o\"},{\"b\":{\"c\":[true,7]},\"a\":1}]}",
        "true",
    ),
    ("{\"$same\":[1,\"1\"]}", "false"),
    (
        "{\"$same\":[{\"$var\":\"u\"},{\"$undefined\":null}]}",
        "true",
    ),
    ("[1,[{\"$var\":\"n\"}],{}]", "[1,[7],{}]"),
    (
        "{\"$array\":[1,2],\"$named\":[[\"y\",3],[\"x\",{\"$var\":\"n\"}]]}",
        "{\"$array\":[1,2],\"$named\":[[\"x\",7],[\"y\",3]]}",
    ),
    (
        "{\"$array\":[],\"$named\":[[\"x\",1]]}",
        "{\"$array\":[],\"$named\":[[\"x\",1]]}",
    ),
    (
        "{\"$map\":[[7,1],[\"k\",2],[{\"$var\":\"n\"},3]]}",
        "{\"$map\":[[7,3],[\"k\",2]]}",
    ),
    ("{\"$map\":[[{},1],[{},2]]}", "{\"$map\":[[{},1],[{},2]]}"),
    (
        "{\"$set\":[{\"$var\":\"n\"},1,7,{},{}]}",
        "{\"$set\":[7,1,{},{}]}",
    ),
    (
        "{\"$object\":[[\"$z\",{\"$plus\":[1,1]}]]}",
        "{\"$object\":[[\"$z\",2]]}",
    ),
    (
        "{\"a\":{\"$plus\":[{\"$prop\":[{\"$var\":\"o\"},\"a\"]},1]}}",
        "{\"a\":2}",
    ),
];

/// What the expression gives.
fn given(rt: &impl Abort, alloc: Global, variables: &Props, text: &str) -> Value {
    let document = Json::from_str(alloc, text).expect(rt, "a document");
    match expr_from_json(alloc, &document) {
        Ok(expr) => value_of_expr(alloc, variables, &expr).expect(rt, "memory"),
        Err(_) => panic!(rt; "no expression"),
    }
}

/// The variables.
fn variables(rt: &impl Abort, alloc: Global) -> Props {
    let mut variables = Props::new(alloc);
    for (name, text) in &VARIABLES {
        let value = given(rt, alloc, &variables, text);
        set(rt, alloc, &mut variables, name, value);
    }
    variables
}

fn set(rt: &impl Abort, alloc: Global, variables: &mut Props, name: &str, value: Value) {
    assert!(rt; name.len() <= GREATEST_LENGTH && variables.len() < GREATEST_LENGTH);
    variables
        .set(Text::copy_of(alloc, name).expect(rt, "memory"), value)
        .expect(rt, "memory");
}

/// Each expression and what it gives, or is to give, a line for each.
fn lines(rt: &impl Abort, alloc: Global, computed: bool) -> Vec<u8> {
    let variables = variables(rt, alloc);
    let mut out = Vec::new(alloc);
    for (text, wanted) in &GIVEN {
        out.extend_from_slice(text.as_bytes()).expect(rt, "memory");
        out.push(b' ').expect(rt, "memory");
        if computed {
            push_value_text(alloc, &mut out, &given(rt, alloc, &variables, text)).expect(
                rt, "memory",
            );
        } else {
            out.extend_from_slice(wanted.as_bytes())
                .expect(rt, "memory");
        }
        out.push(b'\n').expect(rt, "memory");
    }
    out
}

#[test]
fn each_form_gives_its_value(rt: HostRuntime) {
    let computed = lines(&rt, rt.alloc(), true);
    let wanted = lines(&rt, rt.alloc(), false);
    assert!(rt; computed.as_slice() == wanted.as_slice());
}

/// How many times an Array in an Array can be made by an expression before it gives Undefined.
fn greatest_depth(rt: &impl Abort, alloc: Global) -> u32 {
    let mut variables = Props::new(alloc);
    for depth in 0..200 {
        let value = given(rt, alloc, &variables, "[{\"$var\":\"x\"}]");
        if let Value::Undefined = value {
            return depth;
        }
        set(rt, alloc, &mut variables, "x", value);
    }
    200
}

/// How many times an Array can be doubled from one item on before it gives Undefined.
fn greatest_doubling(rt: &impl Abort, alloc: Global) -> u32 {
    let mut variables = Props::new(alloc);
    for times in 0..40 {
        let value = given(rt, alloc, &variables, "[{\"$var\":\"x\"},{\"$var\":\"x\"}]");
        if let Value::Undefined = value {
            return times;
        }
        set(rt, alloc, &mut variables, "x", value);
    }
    40
}

// The first Array holds Undefined, so it has depth 2. The n-th one has depth n + 1, and 119 of them have at most 120. The n-th
// doubled Array has 2^n places of Undefined, one byte each, and 2^n - 1 Arrays of 9 bytes more: 10 * 2^n - 9 bytes, which is
// 655,351 for n = 16 and 1,310,711 for n = 17.
#[test]
fn limits_give_undefined(rt: HostRuntime) {
    let found = (
        greatest_depth(&rt, rt.alloc()),
        greatest_doubling(&rt, rt.alloc()),
    );
    assert!(rt; found == (119, 16));
}
