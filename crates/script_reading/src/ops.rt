// The statements and their fields.
ghost use Rattle.std.specs.Prelude.{◌≡◌, option_map, Option};
ghost use Rattle.std.specs.List.{list_all};
ghost use Rattle.serde_json.specs.View.{view};
ghost use Rattle.script_reading.specs.StatementForms.{task_named, plain_named, request_named, cursor_named, upgrade_named, op_named, field_name, needs, may_have, field_among, field_of, has_field, op_in, is_complete, complete_op};

use serde_json::Value as Json;

/// What a statement does.
#[derive(Clone, Copy, Debug, PartialEq, Eq)]
pub(crate) enum Op {
    Open,
    DeleteDatabase,
    Close,
    Transaction,
    Post,
    Repeat,
    If,
    Let,
    Say,
    Throw,
    Add,
    Put,
    Get,
    GetKey,
    Count,
    GetAll,
    GetAllKeys,
    Delete,
    Clear,
    OpenCursor,
    OpenKeyCursor,
    Continue,
    ContinuePrimaryKey,
    Advance,
    Update,
    DeleteHere,
    Commit,
    Abort,
    Prevent,
    CreateObjectStore,
    DeleteObjectStore,
    CreateIndex,
    DeleteIndex,
}

/// A field of a statement.
#[derive(Clone, Copy, Debug, PartialEq, Eq)]
pub(crate) enum Field {
    Db,
    Version,
    Upgrade,
    Blocked,
    Success,
    Error,
    VersionChange,
    Closed,
    Conn,
    Scope,
    Mode,
    Durability,
    Body,
    Complete,
    Abort,
    Do,
    Times,
    Test,
    Then,
    Else,
    Name,
    Value,
    Store,
    Key,
    Index,
    Query,
    Range,
    Count,
    Direction,
    PrimaryKey,
    KeyPath,
    AutoIncrement,
    Unique,
    MultiEntry,
}

// Statements of tasks alone.
fn task_named(word: &str) -> Option<Op>
    ensures { result ≡ task_named word.now }
{
    if word == "open" {
        Some(Op::Open)
    } else if word == "deleteDatabase" {
        Some(Op::DeleteDatabase)
    } else if word == "close" {
        Some(Op::Close)
    } else if word == "transaction" {
        Some(Op::Transaction)
    } else {
        None
    }
}

// Statements of tasks and handlers.
fn plain_named(word: &str) -> Option<Op>
    ensures { result ≡ plain_named word.now }
{
    if word == "post" {
        Some(Op::Post)
    } else if word == "repeat" {
        Some(Op::Repeat)
    } else if word == "if" {
        Some(Op::If)
    } else if word == "let" {
        Some(Op::Let)
    } else if word == "say" {
        Some(Op::Say)
    } else if word == "throw" {
        Some(Op::Throw)
    } else {
        None
    }
}

// Requests of stores and indexes.
fn request_named(word: &str) -> Option<Op>
    ensures { result ≡ request_named word.now }
{
    if word == "add" {
        Some(Op::Add)
    } else if word == "put" {
        Some(Op::Put)
    } else if word == "get" {
        Some(Op::Get)
    } else if word == "getKey" {
        Some(Op::GetKey)
    } else if word == "count" {
        Some(Op::Count)
    } else if word == "getAll" {
        Some(Op::GetAll)
    } else if word == "getAllKeys" {
        Some(Op::GetAllKeys)
    } else if word == "delete" {
        Some(Op::Delete)
    } else if word == "clear" {
        Some(Op::Clear)
    } else {
        None
    }
}

// Cursors.
fn cursor_named(word: &str) -> Option<Op>
    ensures { result ≡ cursor_named word.now }
{
    if word == "openCursor" {
        Some(Op::OpenCursor)
    } else if word == "openKeyCursor" {
        Some(Op::OpenKeyCursor)
    } else if word == "continue" {
        Some(Op::Continue)
    } else if word == "continuePrimaryKey" {
        Some(Op::ContinuePrimaryKey)
    } else if word == "advance" {
        Some(Op::Advance)
    } else if word == "update" {
        Some(Op::Update)
    } else if word == "deleteHere" {
        Some(Op::DeleteHere)
    } else {
        None
    }
}

// Transactions and schemas.
fn upgrade_named(word: &str) -> Option<Op>
    ensures { result ≡ upgrade_named word.now }
{
    if word == "commit" {
        Some(Op::Commit)
    } else if word == "abort" {
        Some(Op::Abort)
    } else if word == "prevent" {
        Some(Op::Prevent)
    } else if word == "createObjectStore" {
        Some(Op::CreateObjectStore)
    } else if word == "deleteObjectStore" {
        Some(Op::DeleteObjectStore)
    } else if word == "createIndex" {
        Some(Op::CreateIndex)
    } else if word == "deleteIndex" {
        Some(Op::DeleteIndex)
    } else {
        None
    }
}

// The statement that a word names.
#[tactic(auto, unfolding(crate::specs::StatementForms::op_named))]
fn op_named(word: &str) -> Option<Op>
    ensures { result ≡ op_named word.now }
{
    if let Some(op) = task_named(word) {
        return Some(op);
    }
    if let Some(op) = plain_named(word) {
        return Some(op);
    }
    if let Some(op) = request_named(word) {
        return Some(op);
    }
    if let Some(op) = cursor_named(word) {
        return Some(op);
    }
    upgrade_named(word)
}

fn field_name(field: Field) -> &'static str
    ensures { result.now ≡ field_name field }
{
    match field {
        Field::Db => "db",
        Field::Version => "version",
        Field::Upgrade => "upgrade",
        Field::Blocked => "blocked",
        Field::Success => "success",
        Field::Error => "error",
        Field::VersionChange => "versionchange",
        Field::Closed => "closed",
        Field::Conn => "conn",
        Field::Scope => "scope",
        Field::Mode => "mode",
        Field::Durability => "durability",
        Field::Body => "body",
        Field::Complete => "complete",
        Field::Abort => "abort",
        Field::Do => "do",
        Field::Times => "times",
        Field::Test => "test",
        Field::Then => "then",
        Field::Else => "else",
        Field::Name => "name",
        Field::Value => "value",
        Field::Store => "store",
        Field::Key => "key",
        Field::Index => "index",
        Field::Query => "query",
        Field::Range => "range",
        Field::Count => "count",
        Field::Direction => "direction",
        Field::PrimaryKey => "primaryKey",
        Field::KeyPath => "keyPath",
        Field::AutoIncrement => "autoIncrement",
        Field::Unique => "unique",
        Field::MultiEntry => "multiEntry",
    }
}

// The fields that a statement must have.
fn needs(op: Op) -> &'static [Field]
    ensures { result.now ≡ needs op }
{
    match op {
        Op::Open => &[Field::Db],
        Op::DeleteDatabase => &[Field::Db],
        Op::Close => &[],
        Op::Transaction => &[Field::Scope, Field::Mode, Field::Body],
        Op::Post => &[Field::Do],
        Op::Repeat => &[Field::Times, Field::Do],
        Op::If => &[Field::Test],
        Op::Let => &[Field::Name, Field::Value],
        Op::Say => &[Field::Value],
        Op::Throw => &[],
        Op::Add => &[Field::Store, Field::Value],
        Op::Put => &[Field::Store, Field::Value],
        Op::Get => &[Field::Store],
        Op::GetKey => &[Field::Store],
        Op::Count => &[Field::Store],
        Op::GetAll => &[Field::Store],
        Op::GetAllKeys => &[Field::Store],
        Op::Delete => &[Field::Store],
        Op::Clear => &[Field::Store],
        Op::OpenCursor => &[Field::Store],
        Op::OpenKeyCursor => &[Field::Store],
        Op::Continue => &[],
        Op::ContinuePrimaryKey => &[Field::Key, Field::PrimaryKey],
        Op::Advance => &[Field::Count],
        Op::Update => &[Field::Value],
        Op::DeleteHere => &[],
        Op::Commit => &[],
        Op::Abort => &[],
        Op::Prevent => &[],
        Op::CreateObjectStore => &[Field::Store],
        Op::DeleteObjectStore => &[Field::Store],
        Op::CreateIndex => &[Field::Store, Field::Index, Field::KeyPath],
        Op::DeleteIndex => &[Field::Store, Field::Index],
    }
}

// The fields that it may have besides.
fn may_have(op: Op) -> &'static [Field]
    ensures { result.now ≡ may_have op }
{
    match op {
        Op::Open => &[
            Field::Version,
            Field::Upgrade,
            Field::Blocked,
            Field::Success,
            Field::Error,
            Field::VersionChange,
            Field::Closed,
        ],
        Op::DeleteDatabase => &[Field::Blocked, Field::Success, Field::Error],
        Op::Close => &[Field::Conn],
        Op::Transaction => &[
            Field::Conn,
            Field::Durability,
            Field::Complete,
            Field::Abort,
        ],
        Op::Post => &[],
        Op::Repeat => &[],
        Op::If => &[Field::Then, Field::Else],
        Op::Let => &[],
        Op::Say => &[],
        Op::Throw => &[],
        Op::Add => &[Field::Key, Field::Success, Field::Error],
        Op::Put => &[Field::Key, Field::Success, Field::Error],
        Op::Get => &[
            Field::Index,
            Field::Query,
            Field::Range,
            Field::Success,
            Field::Error,
        ],
        Op::GetKey => &[
            Field::Index,
            Field::Query,
            Field::Range,
            Field::Success,
            Field::Error,
        ],
        Op::Count => &[
            Field::Index,
            Field::Query,
            Field::Range,
            Field::Success,
            Field::Error,
        ],
        Op::GetAll => &[
            Field::Index,
            Field::Query,
            Field::Range,
            Field::Count,
            Field::Success,
            Field::Error,
        ],
        Op::GetAllKeys => &[
            Field::Index,
            Field::Query,
            Field::Range,
            Field::Count,
            Field::Success,
            Field::Error,
        ],
        Op::Delete => &[Field::Query, Field::Range, Field::Success, Field::Error],
        Op::Clear => &[Field::Success, Field::Error],
        Op::OpenCursor => &[
            Field::Index,
            Field::Query,
            Field::Range,
            Field::Direction,
            Field::Success,
            Field::Error,
        ],
        Op::OpenKeyCursor => &[
            Field::Index,
            Field::Query,
            Field::Range,
            Field::Direction,
            Field::Success,
            Field::Error,
        ],
        Op::Continue => &[Field::Key],
        Op::ContinuePrimaryKey => &[],
        Op::Advance => &[],
        Op::Update => &[Field::Success, Field::Error],
        Op::DeleteHere => &[Field::Success, Field::Error],
        Op::Commit => &[],
        Op::Abort => &[],
        Op::Prevent => &[],
        Op::CreateObjectStore => &[Field::KeyPath, Field::AutoIncrement],
        Op::DeleteObjectStore => &[],
        Op::CreateIndex => &[Field::Unique, Field::MultiEntry],
        Op::DeleteIndex => &[],
    }
}

fn field_among(fields: &[Field], name: &str) -> Option<Field>
    ensures { result ≡ field_among fields.now name.now }
{
    for field in fields {
        if name == field_name(*field) {
            return Some(*field);
        }
    }
    None
}

/// The field of a statement that has this name.
#[tactic(auto, unfolding(crate::specs::StatementForms::field_of))]
pub(crate) fn field_of(op: Op, name: &str) -> Option<Field>
    ensures { result ≡ field_of op name.now }
{
    if let Some(field) = field_among(needs(op), name) {
        return Some(field);
    }
    field_among(may_have(op), name)
}

fn has_field(json: &Json, field: Field) -> bool
    ensures { result ≡ has_field (view json.now) field }
{
    json.get(field_name(field)).is_some()
}

fn has_all(json: &Json, fields: &[Field]) -> bool
    ensures { result ≡ list_all (has_field (view json.now)) fields.now }
{
    for field in fields {
        if !has_field(json, *field) {
            return false;
        }
    }
    true
}

// The statement that an object names.
#[tactic(auto, unfolding(crate::specs::StatementForms::op_in))]
fn op_in(json: &Json) -> Option<Op>
    ensures { result ≡ op_in (view json.now) }
{
    op_named(json.get("op")?.as_str()?)
}

fn is_complete(op: Op, json: &Json) -> bool
    ensures { result ≡ is_complete op (view json.now) }
{
    has_all(json, needs(op)) && !(has_field(json, Field::Query) && has_field(json, Field::Range))
}

/// The statement that an object names, where the object has all that it needs.
#[tactic(auto, unfolding(crate::specs::StatementForms::complete_op))]
pub(crate) fn complete_op(json: &Json) -> Option<Op>
    ensures { result ≡ complete_op (view json.now) }
{
    let op = op_in(json)?;
    if is_complete(op, json) {
        Some(op)
    } else {
        None
    }
}
