// The reader over tables of documents and places.
use script_exprs::ExprForm;
use script_reading::{ScriptError, read_script};
use script_statements::Stmt;
use std::alloc::Global;
use std::fmt::Write;
use std::process::Abort;

/// Reads a script, and writes the place of its fault, or `ok`.
fn read(alloc: Global, said: &mut String, script: &str) {
    match read_script(alloc, script.as_bytes()) {
        Ok(_) => {
            let _ = write!(said, "ok ");
        }
        Err(ScriptError::BadScript { place }) => {
            let _ = write!(said, "{place} ");
        }
        Err(ScriptError::NoMemory) => {
            let _ = write!(said, "no memory ");
        }
    }
}

/// Reads a script around a text.
fn read_within(
    rt: &impl Abort,
    alloc: Global,
    said: &mut String,
    before: &str,
    inner: &str,
    behind: &str,
) {
    let mut script = String::new(alloc);
    script.push_str(before).expect(rt, "memory");
    script.push_str(inner).expect(rt, "memory");
    script.push_str(behind).expect(rt, "memory");
    read(alloc, said, script.as_str());
}

/// Scripts, sessions, clients and blocks.
#[test]
fn outlines_have_their_places(rt: HostRuntime) {
    let rows = [
        "",
        r#"{"sessions":["#,
        "[]",
        "{}",
        r#"{"sessions":3}"#,
        r#"{"sessions":{}}"#,
        r#"{"a":1,"sessions":[3]}"#,
        r#"{"a":[1,{"b":2}],"sessions":[]}"#,
        r#"{"sessions":[3]}"#,
        r#"{"sessions":[{}]}"#,
        r#"{"sessions":[{"clients":[]}]}"#,
        r#"{"sessions":[{"clients":[3]}]}"#,
        r#"{"sessions":[{"clients":[{}]}]}"#,
        r#"{"sessions":[{"clients":[{"block":{}}]}]}"#,
        r#"{"sessions":[{"clients":[{"blocks":3}]}]}"#,
        r#"{"sessions":[{"clients":[{"blocks":{}}]}]}"#,
        r#"{"sessions":[{"clients":[{"blocks":[]}]}]}"#,
        r#"{"sessions":[{"clients":[{"blocks":{"main":3}}]}]}"#,
        r#"{"sessions":[{"clients":[{"blocks":{"main":{}}}]}]}"#,
        r#"{"sessions":[{"clients":[{"blocks":{"main":[]}}]}]}"#,
        r#"{"sessions":[{"clients":[{"blocks":{"main":[3]}}]}]}"#,
        r#"{"sessions":[{"clients":[{"blocks":{"main":[{}]}}]}]}"#,
        r#"{"sessions":[{"clients":[{"blocks":{"main":[{"op":"say","valu":1}]}}]}]}"#,
        r#"{"sessions":[{"clients":[{"blocks":{"a":[{"op":"throw"},3],"main":[]}}]}]}"#,
        r#"{"sessions":[{"clients":[{"blocks":{"main":[],"a":[{"op":"throw"},{"op":3}]}}]}]}"#,
        r#"{"sessions":[{"clients":[{"blocks":{"main":[],"z":{"op":"throw"}}}]}]}"#,
        r#"{"sessions":[{"clients":[{"blocks":{"main":[]},"blocka":{}}]}]}"#,
        r#"{"sessions":[{"clients":[{"blocks":{"main":[]},"more":[[],[]]}]}]}"#,
        r#"{"sessions":[{"clients":[{"blocks":{"main":[]}}],"end":"flush"}]}"#,
        r#"{"sessions":[{"clients":[{"blocks":{"main":[]}}],"end":"drop"}]}"#,
        r#"{"sessions":[{"clients":[{"blocks":{"main":[]}}],"end":"dropped"}]}"#,
        r#"{"sessions":[{"clients":[{"blocks":{"main":[]}}],"end":null}]}"#,
        r#"{"sessions":[{"clients":[{"blocks":{"main":[]}}],"ends":"drop"}]}"#,
        r#"{"sessions":[{"clients":[{"blocks":{"main":[]}},{"blocks":{"main":[3]}}]},3]}"#,
        r#"{"sessions":[{"clients":[{"blocks":{"main":[]}}]},{"clients":[{"blocks":{"main":[]}}],"end":"now"}]}"#,
        r#"{"sessions":[{"clients":[{"blocks":{"main":[]}}]}],"orders":[]}"#,
        r#"{"sessions":[],"sessions":[{"clients":[{"blocks":{"main":[]}}]}]}"#,
        r#"{"sessions":[{"clients":[{"blocks":{"main":[]}}]}]} "#,
        r#"{"sessions":[{"clients":[{"blocks":{"main":[]}}]}]}]"#,
        r#"null"#,
        r#""sessions""#,
        r#"[{"sessions":[]}]"#,
        r#"{"sessions":null}"#,
        r#"{"sessions":[[]]}"#,
        r#"{"sessions":[{"end":"drop"}]}"#,
        r#"{"sessions":[{"clients":3}]}"#,
        r#"{"sessions":[{"clients":{}}]}"#,
        r#"{"sessions":[{"clients":[[]]}]}"#,
        r#"{"sessions":[{"clients":[{"blocks":null}]}]}"#,
        r#"{"sessions":[{"clients":[{"blocks":{"a":[]}}]}]}"#,
        r#"{"sessions":[{"clients":[{"blocks":{"main":null}}]}]}"#,
        r#"{"sessions":[{"clients":[{"blocks":{"main":[[]]}}]}]}"#,
        r#"{"sessions":[{"clients":[{"blocks":{"main":[null]}}]}]}"#,
        r#"{"sessions":[{"clients":[{"blocks":{"main":[]}}],"end":["drop"]}]}"#,
        r#"{"sessions":[{"clients":[{"blocks":{"main":[],"":[{"op":"post","do":""}]}}]}]}"#,
    ];
    let mut said = String::new(rt.alloc());
    for row in &rows {
        read(rt.alloc(), &mut said, row);
    }
    assert!(rt;
        said.as_str()
            == "0 0 1 1 2 2 2 2 3 3 4 5 5 5 6 6 6 7 7 ok 8 8 8 10 10 8 6 8 ok ok 8 8 8 11 13 2 ok ok 0 1 1 1 2 3 3 4 4 5 6 6 7 8 8 8 ok "
    );
}

const BEFORE: &str = r#"{"sessions":[{"clients":[{"blocks":{"b":[],"main":[{"op":"throw"},"#;

const BEHIND: &str = "]}}]}]}";

/// Each statement with and without its faults; the statement is node 11.
#[test]
fn statements_have_their_places(rt: HostRuntime) {
    let rows = [
        r#"{"op":"open","db":"d"}"#,
        r#"{"op":"open","db":"d","version":2,"upgrade":"b","blocked":"b","success":"main","error":"b","versionchange":"b","closed":"b"}"#,
        r#"{"op":"open"}"#,
        r#"{"op":"open","db":"d","success":"c"}"#,
        r#"{"op":"open","db":"d","version":1.5}"#,
        r#"{"op":"open","db":"d","store":"s"}"#,
        r#"{"op":"open","db":"d","closed":"c","blocked":"c"}"#,
        r#"{"op":"opened","db":3}"#,
        r#"{"op":3}"#,
        r#"{"oq":"open"}"#,
        r#"{"op":"deleteDatabase","db":"d","blocked":"b","success":"b","error":"b"}"#,
        r#"{"op":"close","conn":1}"#,
        r#"{"op":"close","conn":18446744073709551615}"#,
        r#"{"op":"close","conn":18446744073709551616}"#,
        r#"{"op":"close","conn":-1}"#,
        r#"{"op":"transaction","scope":["s"],"mode":"readwrite","body":"b"}"#,
        r#"{"op":"transaction","scope":["s","t"],"mode":"readonly","body":"b","conn":2,"durability":"strict","complete":"b","abort":"b"}"#,
        r#"{"op":"transaction","scope":[],"mode":"versionchange","body":"b","durability":"default"}"#,
        r#"{"op":"transaction","mode":"readwrite","body":"b"}"#,
        r#"{"op":"transaction","scope":"s","mode":"readwrite","body":"b"}"#,
        r#"{"op":"transaction","scope":["s",3],"mode":"readwrite","body":"b"}"#,
        r#"{"op":"transaction","scope":["s"],"mode":"write","body":"b"}"#,
        r#"{"op":"transaction","scope":["s"],"mode":"readwrite","body":"c"}"#,
        r#"{"op":"transaction","scope":["s"],"mode":"readwrite","body":"b","durability":"lax"}"#,
        r#"{"op":"post","do":"b"}"#,
        r#"{"op":"post","do":"c"}"#,
        r#"{"op":"repeat","times":100000,"do":"b"}"#,
        r#"{"op":"repeat","times":100001,"do":"b"}"#,
        r#"{"op":"repeat","times":-1,"do":"b"}"#,
        r#"{"op":"if","test":{"$var":"x"},"then":"b","else":"b"}"#,
        r#"{"op":"if","test":true,"else":"c"}"#,
        r#"{"op":"let","name":"n","value":{"$plus":[1,{"$var":"n"}]}}"#,
        r#"{"op":"let","name":1,"value":1}"#,
        r#"{"op":"say","value":null}"#,
        r#"{"op":"throw"}"#,
        r#"{"op":"throw","value":1}"#,
        r#"{"op":"add","store":"s","value":1,"key":2,"success":"b","error":"b"}"#,
        r#"{"op":"add","store":"s"}"#,
        r#"{"op":"put","store":"s","value":1,"index":"i"}"#,
        r#"{"op":"put","store":"s","value":{"$x":1},"key":{"$x":1}}"#,
    ];
    let mut said = String::new(rt.alloc());
    for row in &rows {
        read_within(&rt, rt.alloc(), &mut said, BEFORE, row, BEHIND);
    }
    assert!(rt;
        said.as_str()
            == "ok ok 11 14 14 14 12 11 11 11 ok ok ok 12 12 ok ok ok 11 15 15 13 12 13 ok 12 ok 14 14 ok 12 ok 12 ok ok 13 ok 11 12 12 "
    );
}

/// Requests, cursors, transactions and schemas.
#[test]
fn requests_have_their_places(rt: HostRuntime) {
    let rows = [
        r#"{"op":"get","store":"s","index":"i","query":1,"success":"b","error":"b"}"#,
        r#"{"op":"get","store":"s","range":{"lower":1,"upper":2,"lowerOpen":true,"upperOpen":false}}"#,
        r#"{"op":"get","store":"s","query":1,"range":{"lower":1}}"#,
        r#"{"op":"get","store":"s","range":{"lowerOpen":true}}"#,
        r#"{"op":"get","store":"s","range":{"lower":1,"upperOpen":1}}"#,
        r#"{"op":"get","store":"s","range":{"lower":1,"step":1}}"#,
        r#"{"op":"get","store":"s","range":{"upper":{"$x":1}}}"#,
        r#"{"op":"count","store":"s","query":{"$undefined":null}}"#,
        r#"{"op":"count","store":"s","query":{"$undefined":0}}"#,
        r#"{"op":"getAll","store":"s","count":9007199254740993}"#,
        r#"{"op":"delete","store":"s","index":"i","query":1}"#,
        r#"{"op":"clear","store":"s","query":1}"#,
        r#"{"op":"openCursor","store":"s","direction":"prevunique"}"#,
        r#"{"op":"openCursor","store":"s","direction":"back"}"#,
        r#"{"op":"openKeyCursor","store":"s","index":"i","query":[1],"direction":"nextunique","success":"b"}"#,
        r#"{"op":"continue","key":1}"#,
        r#"{"op":"continue","primaryKey":1}"#,
        r#"{"op":"continuePrimaryKey","key":1,"primaryKey":2}"#,
        r#"{"op":"continuePrimaryKey","key":1}"#,
        r#"{"op":"advance"}"#,
        r#"{"op":"deleteHere","error":"c"}"#,
        r#"{"op":"commit"}"#,
        r#"{"op":"abort"}"#,
        r#"{"op":"update","value":1,"success":"b","error":"b"}"#,
        r#"{"op":"deleteObjectStore","store":"s"}"#,
        r#"{"op":"delete","store":"s","query":1}"#,
        r#"{"op":"advance","count":1}"#,
        r#"{"op":"getAll","store":"s","count":3}"#,
        r#"{"op":"prevent"}"#,
        r#"{"op":"prevent","error":"b"}"#,
        r#"{"op":"createObjectStore","store":"s"}"#,
        r#"{"op":"createObjectStore","store":"s","keyPath":"a.b","autoIncrement":true}"#,
        r#"{"op":"createObjectStore","store":"s","keyPath":["a","1 2"]}"#,
        r#"{"op":"createObjectStore","store":"s","keyPath":["a",["b"]]}"#,
        r#"{"op":"createObjectStore","store":"s","autoIncrement":1}"#,
        r#"{"op":"deleteObjectStore"}"#,
        r#"{"op":"createIndex","store":"s","index":"i","keyPath":"a","unique":true,"multiEntry":false}"#,
        r#"{"op":"createIndex","store":"s","index":"i"}"#,
        r#"{"op":"createIndex","store":"s","index":"i","keyPath":"a","unique":"yes"}"#,
        r#"{"op":"deleteIndex","store":"s"}"#,
    ];
    let mut said = String::new(rt.alloc());
    for row in &rows {
        read_within(&rt, rt.alloc(), &mut said, BEFORE, row, BEHIND);
    }
    assert!(rt;
        said.as_str()
            == "ok ok 11 13 13 13 13 ok 13 12 12 13 ok 12 ok ok 13 ok 11 11 12 ok ok ok ok ok ok ok ok 12 ok ok ok 12 12 11 ok 11 16 11 "
    );
}

/// Statements with lists of members, behind the place of the fault; READS read a store, RANGED are these and `delete`, and PLACED are
/// all these and `clear`.
const MEMBERS: &str = r#"ok throw commit abort prevent:
12 throw commit abort prevent: "error":"b"
13 throw commit abort prevent: "value":1
ok open deleteDatabase: "db":"d"
11 open deleteDatabase:
12 open deleteDatabase: "db":3|"db":"d","blocked":"c"|"db":"d","blocked":3|"db":"d","conn":1
13 open deleteDatabase: "db":"d","error":"c"|"db":"d","error":null
14 open deleteDatabase: "db":"d","success":"c"|"db":"d","success":["b"]
12 open: "db":"d","closed":"c"|"db":"d","closed":{}
14 open: "db":"d","upgrade":"c"|"db":"d","upgrade":1|"db":"d","versionchange":"c"|"db":"d","versionchange":[]
14 open: "db":"d","version":{"$date":1.5}
12 deleteDatabase: "db":"d","closed":"b"
14 deleteDatabase: "db":"d","version":1|"db":"d","upgrade":"b"
ok close: |"conn":0
12 close: "conn":"1"|"conn":null|"conn":1.5|"db":"d"
ok transaction: "scope":["s"],"mode":"readonly","body":"b","durability":"relaxed"
11 transaction: "scope":["s"],"body":"b"|"scope":["s"],"mode":"readonly"
12 transaction: "scope":["s"],"mode":"readonly","body":3|"scope":["s"],"mode":"readonly","body":"b","abort":"c"
12 transaction: "scope":["s"],"mode":"readonly","body":"b","abort":1
13 transaction: "scope":["s"],"mode":3,"body":"b"|"scope":["s"],"mode":"readonly","body":"b","durability":1
13 transaction: "scope":["s"],"mode":"readonly","body":"b","complete":"c"|"scope":["s"],"mode":"readonly","body":"b","complete":1
13 transaction: "scope":["s"],"mode":"readonly","body":"b","conn":-1|"scope":["s"],"mode":"readonly","body":"b","conn":"1"
15 transaction: "scope":{},"mode":"readonly","body":"b"
17 transaction: "scope":["s"],"mode":"readonly","body":"b","success":"b"|"scope":["s"],"mode":"readonly","body":"b","store":"s"
11 post:
12 post: "do":3
14 post: "do":"b","times":1
ok repeat: "times":0,"do":"b"
11 repeat: "do":"b"|"times":1
12 repeat: "times":1,"do":"c"|"times":1,"do":["b"]
14 repeat: "times":"1","do":"b"|"times":1.5,"do":"b"|"times":1,"do":"b","test":true
ok if: "test":true
11 if: "then":"b"
12 if: "test":true,"else":1|"test":true,"do":"b"
13 if: "test":{"$var":1}
14 if: "test":true,"then":"c"|"test":true,"then":1
11 let: "name":"n"|"value":1
12 let: "name":"n","value":1,"key":1
14 let: "name":"n","value":{"$var":1}
11 say:
12 say: "value":1,"name":"n"
13 say: "value":{"$x":1}
ok add put: "store":"s","value":1
11 add put: "value":1|"store":"s","key":1
12 add put: "store":"s","value":1,"key":{"$x":1}|"store":"s","value":1,"error":"c"|"store":"s","value":1,"error":1
13 add put: "store":3,"value":1|"store":"s","value":1,"query":1
14 add put: "store":"s","value":{"$x":1}|"store":"s","value":1,"success":"c"|"store":"s","value":1,"success":1
ok put: "store":"s","value":1,"key":2,"success":"b","error":"b"
ok PLACED: "store":"s"|"store":"s","success":"b","error":"b"
11 PLACED:
12 PLACED: "store":"s","error":"c"|"store":"s","error":1
13 PLACED: "store":["s"]
14 PLACED: "store":"s","success":"c"|"store":"s","success":1|"store":"s","value":1
ok RANGED: "store":"s","query":[1,{"$var":"x"}]|"store":"s","range":{"upper":1,"upperOpen":true}
11 RANGED: "query":1|"store":"s","query":1,"range":{"upper":1}
12 RANGED: "store":"s","query":1,"key":1
13 RANGED: "store":"s","query":{"$x":1}|"store":"s","range":{}|"store":"s","range":[1,2]|"store":"s","range":{"lower":1,"lowerOpen":null}
13 RANGED: "store":"s","range":{"lower":{"$x":1}}
ok READS: "store":"s","index":"i","query":1
11 READS: "index":"i","query":1
12 READS: "store":"s","index":3
12 clear: "store":"s","index":"i"
13 clear: "store":"s","range":{"lower":1}
ok getAll getAllKeys: "store":"s","index":"i","count":{"$var":"n"}
12 getAll getAllKeys: "store":"s","count":{"$x":1}
13 getAll getAllKeys: "store":"s","count":1,"direction":"next"
12 get getKey count delete clear openCursor openKeyCursor: "store":"s","count":1
12 get getKey count delete clear: "store":"s","direction":"next"
ok openCursor openKeyCursor: "store":"s","direction":"next"|"store":"s","direction":"nextunique"|"store":"s","direction":"prev"
ok openCursor openKeyCursor: "store":"s","direction":"prevunique"
12 openCursor openKeyCursor: "store":"s","direction":"Next"|"store":"s","direction":1
ok continue:
12 continue: "key":{"$x":1}|"key":1,"count":1
11 continuePrimaryKey: "primaryKey":1
12 continuePrimaryKey: "key":{"$x":1},"primaryKey":1
14 continuePrimaryKey: "key":1,"primaryKey":{"$x":1}
15 continuePrimaryKey: "key":1,"primaryKey":1,"value":1
12 advance: "count":{"$x":1}
13 advance: "count":1,"key":1
ok update: "value":1
11 update:
12 update: "value":1,"error":"c"|"value":1,"error":1|"value":1,"key":1
13 update: "value":{"$x":1}|"value":1,"success":"c"|"value":1,"success":1
ok deleteHere: |"success":"b","error":"b"
12 deleteHere: "error":1
13 deleteHere: "success":"c"|"success":1|"value":1
ok createObjectStore deleteObjectStore: "store":"s"
11 createObjectStore deleteObjectStore:
12 createObjectStore deleteObjectStore: "store":"s","index":"i"
13 createObjectStore deleteObjectStore: "store":3
ok createObjectStore: "store":"s","keyPath":[]
12 createObjectStore: "store":"s","keyPath":null|"store":"s","keyPath":{"a":"b"}
14 createObjectStore: "store":"s","unique":true
12 deleteObjectStore: "store":"s","keyPath":"a"|"store":"s","autoIncrement":true
ok createIndex: "store":"s","index":"i","keyPath":["a..b"]
11 createIndex: "index":"i","keyPath":"a"|"store":"s","keyPath":"a"
12 createIndex: "store":"s","index":3,"keyPath":"a"|"store":"s","index":"i","keyPath":"a","autoIncrement":true
13 createIndex: "store":"s","index":"i","keyPath":1
14 createIndex: "store":"s","index":"i","keyPath":"a","multiEntry":1
15 createIndex: "store":3,"index":"i","keyPath":"a"
ok deleteIndex: "store":"s","index":"i"
11 deleteIndex: "index":"i"
12 deleteIndex: "store":"s","index":3
13 deleteIndex: "store":"s","index":"i","keyPath":"a"
14 deleteIndex: "store":3,"index":"i""#;

/// The statements that a row is about.
fn statements_of(words: &str) -> &str {
    match words {
        "READS" => "get getKey count getAll getAllKeys openCursor openKeyCursor",
        "RANGED" => "get getKey count getAll getAllKeys openCursor openKeyCursor delete",
        "PLACED" => "get getKey count getAll getAllKeys openCursor openKeyCursor delete clear",
        ops => ops,
    }
}

/// Reads a script around a text, and writes the text where the place of its fault isn't this one.
fn read_at(
    rt: &impl Abort,
    alloc: Global,
    said: &mut String,
    texts: (&str, &str, &str),
    place: &str,
) {
    let (before, inner, behind) = texts;
    let mut found = String::new(alloc);
    read_within(rt, alloc, &mut found, before, inner, behind);
    if found.as_str().trim_end() != place {
        let _ = write!(said, "{inner} at {found}");
    }
}

/// Reads each statement of a row with each of its lists of members, and gives how many were read.
fn read_members(rt: &impl Abort, alloc: Global, said: &mut String, row: &str) -> u64 {
    let mut times = 0u64;
    let Some((head, lists)) = row.split_once(':') else {
        return times;
    };
    let Some((place, words)) = head.split_once(' ') else {
        return times;
    };
    for op in statements_of(words).split(' ') {
        for list in lists.split('|') {
            let members = list.trim();
            let comma = if members.is_empty() { "" } else { "," };
            let stmt = format!(in alloc; "{{\"op\":\"{op}\"{comma}{members}}}");
            let stmt = stmt.expect(rt, "memory");
            read_at(rt, alloc, said, (BEFORE, stmt.as_str(), BEHIND), place);
            times = times.saturating_add(1);
        }
    }
    times
}

/// Each statement without a fault, and with each of its members missing, of another form, or one too many.
#[test]
fn members_have_their_places(rt: HostRuntime) {
    let mut said = String::new(rt.alloc());
    let mut times = 0u64;
    for row in MEMBERS.split('\n') {
        times = times.saturating_add(read_members(&rt, rt.alloc(), &mut said, row));
    }
    let _ = write!(said, "{times} read");
    assert!(rt; said.as_str() == "375 read");
}

const SAYS: &str = r#"{"sessions":[{"clients":[{"blocks":{"main":[{"op":"say","value":"#;

const MORE: &str = "},3]}}]}]}";

/// Each form of expression with and without its faults, before a fault further on.
#[test]
fn expressions_have_their_places(rt: HostRuntime) {
    let rows = [
        "null",
        "9007199254740992",
        "9007199254740993",
        "-9007199254740992",
        "-9007199254740993",
        "1.0",
        "-0",
        r#"[1,[2,{"$var":"x"}]]"#,
        r#"[1,{"$vars":"x"}]"#,
        r#"{"a":1,"b":{"$var":"x"}}"#,
        r#"{"a":1,"$b":2}"#,
        r#"{"$function":1}"#,
        r#"{"$date":8640000000000001}"#,
        r#"{"$date":"0"}"#,
        r#"{"$bytes":"00fF"}"#,
        r#"{"$bytes":"0g"}"#,
        r#"{"$array":[1,{"$var":"x"}]}"#,
        r#"{"$array":[1],"$named":[["a",{"$var":"x"}],["b",2]]}"#,
        r#"{"$array":[1],"$named":[["length",1]]}"#,
        r#"{"$array":[1],"$named":[["12",1]]}"#,
        r#"{"$array":[1],"$named":[["a",1],["a",2]]}"#,
        r#"{"$array":[1],"$more":[]}"#,
        r#"{"$object":[["$a",{"$var":"x"}],["length",1]]}"#,
        r#"{"$object":[["a",1],["a",2]]}"#,
        r#"{"$object":[["a"]]}"#,
        r#"{"$object":[[1,2]]}"#,
        r#"{"$map":[[1,{"$var":"x"}],[1,2]]}"#,
        r#"{"$map":[[1,2,3]]}"#,
        r#"{"$set":[1,1,{"$var":"x"}]}"#,
        r#"{"$var":"x"}"#,
        r#"{"$var":3}"#,
        r#"{"$var":"x","y":1}"#,
        r#"{"$plus":[1,2]}"#,
        r#"{"$plus":[1]}"#,
        r#"{"$plus":[1,2,3]}"#,
        r#"{"$plus":[1,{"$var":3}]}"#,
        r#"{"$prop":[{"$var":"x"},"a.b"]}"#,
        r#"{"$prop":[{"$var":"x"},""]}"#,
        r#"{"$prop":[{"$var":"x"},"a..b"]}"#,
        r#"{"$prop":[{"$var":"x"},"1a"]}"#,
        r#"{"$prop":[{"$var":"x"},["a"]]}"#,
        r#"{"$with":[{"$var":"x"},"a b",1]}"#,
        r#"{"$with":[{"$var":"x"},1,1]}"#,
        r#"{"$same":[{},[]]}"#,
        r#"{"$sum":[1,2]}"#,
    ];
    let mut said = String::new(rt.alloc());
    for row in &rows {
        read_within(&rt, rt.alloc(), &mut said, SAYS, row, MORE);
    }
    assert!(rt;
        said.as_str()
            == "11 11 10 11 10 10 10 16 10 14 10 10 10 10 12 10 15 21 10 10 10 10 19 10 10 10 19 10 16 12 10 10 14 10 10 10 15 15 10 10 10 16 10 14 10 "
    );
}

/// Forms of expressions behind the place of the fault; 0 is that of no document, 10 that of the expression.
const FORMS: &str = r#"0 01|1.|+1|1e400|NaN|[1,]|{"a":1,}|'a'|"\ud800"|"\x"|1 2
11 true|false|"$x"|{}|"\u0000"|"\ud83d\ude00"
12 {"":1}|{"$undefined":null}|{"$function":null}|{"$date":-8640000000000000}|{"$bytes":""}|{"$object":[]}|{"$map":[]}|{"$set":[]}
12 {"$var":""}
13 {"$array":[],"$named":[]}
15 {"$prop":[{"$var":"x"},"$a._b.length"]}
16 {"$array":[],"$named":[["1a",1]]}
10 {"a":{"$x":1}}|-9223372036854775809|18446744073709551616|1e2|{"$undefined":false}|{"$undefined":null,"$function":null}
10 {"$date":-8640000000000001}|{"$date":1.5}|{"$date":1,"a":2}|{"$bytes":"000"}|{"$bytes":[0]}|{"$array":{}}|{"$array":[{"$x":1}]}
10 {"$named":[]}|{"$array":[],"$named":{}}|{"$array":[],"$named":[["a"]]}|{"$array":[],"$named":[["a",1,2]]}
10 {"$array":[],"$named":[[1,2]]}|{"$array":[],"$named":[["a",{"$x":1}]]}|{"$object":{}}|{"$object":[["a",1,2]]}
10 {"$object":[["a",{"$x":1}]]}|{"$object":[],"a":1}|{"$map":{}}|{"$map":[[1]]}|{"$map":[[{"$x":1},1]]}|{"$map":[[1,{"$x":1}]]}|{"$set":1}
10 {"$set":[{"$x":1}]}|{"$var":["x"]}|{"$plus":1}|{"$plus":[{"$x":1},1]}|{"$prop":["a"]}|{"$prop":[1,"a","b"]}|{"$prop":[{"$x":1},"a"]}
10 {"$prop":"a"}|{"$prop":[1,"a."]}|{"$prop":[1,"a b"]}|{"$with":[{},"a"]}|{"$with":[{},"a",1,2]}|{"$with":[{"$x":1},"a",1]}
10 {"$with":[{},"a",{"$x":1}]}|{"$with":{}}|{"$same":[1]}|{"$same":[1,2,3]}|{"$same":[{"$x":1},1]}|{"$same":[1,{"$x":1}]}|{"$same":null}
10 {"$same":[1,1],"$var":"x"}"#;

/// Reads each form of a row, and gives how many were read.
fn read_forms(rt: &impl Abort, alloc: Global, said: &mut String, row: &str) -> u64 {
    let mut times = 0u64;
    let Some((place, forms)) = row.split_once(' ') else {
        return times;
    };
    for form in forms.split('|') {
        read_at(rt, alloc, said, (SAYS, form, MORE), place);
        times = times.saturating_add(1);
    }
    times
}

/// Each form of expression without a fault, and with each part missing, of another form, or one too many.
#[test]
fn forms_have_their_places(rt: HostRuntime) {
    let mut said = String::new(rt.alloc());
    let mut times = 0u64;
    for row in FORMS.split('\n') {
        times = times.saturating_add(read_forms(&rt, rt.alloc(), &mut said, row));
    }
    let _ = write!(said, "{times} read");
    assert!(rt; said.as_str() == "78 read");
}

/// Reads a script with a text so many times in it.
fn read_repeated(
    rt: &impl Abort,
    alloc: Global,
    said: &mut String,
    texts: (&str, &str, &str, &str),
    times: i64,
) {
    let (before, opening, closing, behind) = texts;
    let mut script = String::from_str(alloc, before).expect(rt, "memory");
    for _ in 0..times {
        script.push_str(opening).expect(rt, "memory");
    }
    for _ in 0..times {
        script.push_str(closing).expect(rt, "memory");
    }
    script.push_str(behind).expect(rt, "memory");
    read(alloc, said, script.as_str());
}

/// 16 sessions and 17, 64 clients and 65, a document nested 127 deep and 128, and many statements.
#[test]
fn limits_hold(rt: HostRuntime) {
    let sessions = (
        r#"{"sessions":["#,
        r#"{"clients":[{"blocks":{"main":[]}}]},"#,
        "",
        r#"{"clients":[{"blocks":{"main":[]}}]}]}"#,
    );
    let clients = (
        r#"{"sessions":[{"clients":["#,
        r#"{"blocks":{"main":[]}},"#,
        "",
        r#"{"blocks":{"main":[]}}]}]}"#,
    );
    let nested = (
        r#"{"sessions":[{"clients":[{"blocks":{"main":[{"op":"say","value":"#,
        "[",
        "]",
        "}]}}]}]}",
    );
    let statements = (
        r#"{"sessions":[{"clients":[{"blocks":{"main":["#,
        r#"{"op":"throw"},"#,
        "",
        "3]}}]}]}",
    );
    let rows = [
        (sessions, 15i64),
        (sessions, 16),
        (clients, 63),
        (clients, 64),
        (nested, 119),
        (nested, 120),
        (statements, 100_000),
    ];
    let mut said = String::new(rt.alloc());
    for (texts, times) in &rows {
        read_repeated(&rt, rt.alloc(), &mut said, *texts, *times);
    }
    assert!(rt; said.as_str() == "ok 2 ok 4 ok 0 200008 ");
}

const SHOP: &str = r#"{"sessions":[{"clients":[{"blocks":{
 "main":[{"op":"open","db":"d","version":2,"upgrade":"up"}],
 "up":[{"op":"createObjectStore","store":"s"},{"op":"put","store":"s","key":1,"value":[7,{"$var":"x"}]}]}}]}]}"#;

/// Writes what a statement is.
fn show(said: &mut String, stmt: &Stmt) {
    match stmt {
        Stmt::Open {
            db,
            version,
            upgrade,
            ..
        } => {
            let _ = write!(
                said,
                "open {} {} {};",
                db.as_str(),
                version.is_some(),
                upgrade.is_some()
            );
        }
        Stmt::CreateObjectStore {
            store,
            key_path,
            ..
        } => {
            let _ = write!(said, "create {} {};", store.as_str(), key_path.is_some());
        }
        Stmt::Put { store, value, .. } => {
            let _ = write!(said, "put {}", store.as_str());
            for part in value.parts() {
                match part.form() {
                    ExprForm::Var(name) => {
                        let _ = write!(said, " var {}", name.as_str());
                    }
                    ExprForm::Literal(_) => {
                        let _ = write!(said, " literal");
                    }
                    _ => {
                        let _ = write!(said, " other");
                    }
                }
            }
            let _ = write!(said, ";");
        }
        _ => {
            let _ = write!(said, "other;");
        }
    }
}

/// What a script says is what is read.
#[test]
fn a_script_is_read_whole(rt: HostRuntime) {
    let script = read_script(rt.alloc(), SHOP.as_bytes()).expect(&rt, "a script");
    let mut said = String::new(rt.alloc());
    for session in script.sessions.as_slice() {
        for client in session.clients.as_slice() {
            for block in client.blocks.as_slice() {
                let _ = write!(said, "{}:", block.name.as_str());
                for stmt in block.body.as_slice() {
                    show(&mut said, stmt);
                }
            }
        }
    }
    assert!(rt; said.as_str() == "main:open d true true;up:create s false;put s literal var x;");
}
