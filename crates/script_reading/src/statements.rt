// The statements that are made of their fields. Each is none where a field that it needs wasn't read.
ghost use Rattle.std.specs.Prelude.{◌≡◌};
ghost use Rattle.script_reading.specs.Statements.{statement};
ghost use Rattle.script_reading.specs.declared.ops.Op.TheVariants as op;

use crate::fields::Fields;
use crate::ops::Op;
use script_statements::Stmt;

/// The statement.
#[tactic(auto, unfolding(crate::specs::Statements::statement))]
pub(crate) fn statement(op: Op, fields: &mut Fields) -> Option<Stmt>
    ensures { result ≡ statement op fields.old }
{
    match op {
        Op::Open => open_stmt(fields),
        Op::DeleteDatabase => delete_database_stmt(fields),
        Op::Close => close_stmt(fields),
        Op::Transaction => transaction_stmt(fields),
        Op::Post => post_stmt(fields),
        Op::Repeat => repeat_stmt(fields),
        Op::If => if_stmt(fields),
        Op::Let => let_stmt(fields),
        Op::Say => say_stmt(fields),
        Op::Throw => Some(Stmt::Throw),
        Op::Add => add_stmt(fields),
        Op::Put => put_stmt(fields),
        Op::Get => get_stmt(fields),
        Op::GetKey => get_key_stmt(fields),
        Op::Count => count_stmt(fields),
        Op::GetAll => get_all_stmt(fields),
        Op::GetAllKeys => get_all_keys_stmt(fields),
        Op::Delete => delete_stmt(fields),
        Op::Clear => clear_stmt(fields),
        Op::OpenCursor => open_cursor_stmt(fields),
        Op::OpenKeyCursor => open_key_cursor_stmt(fields),
        Op::Continue => continue_stmt(fields),
        Op::ContinuePrimaryKey => continue_primary_key_stmt(fields),
        Op::Advance => advance_stmt(fields),
        Op::Update => update_stmt(fields),
        Op::DeleteHere => delete_here_stmt(fields),
        Op::Commit => Some(Stmt::Commit),
        Op::Abort => Some(Stmt::Abort),
        Op::Prevent => Some(Stmt::Prevent),
        Op::CreateObjectStore => create_object_store_stmt(fields),
        Op::DeleteObjectStore => delete_object_store_stmt(fields),
        Op::CreateIndex => create_index_stmt(fields),
        Op::DeleteIndex => delete_index_stmt(fields),
    }
}

#[tactic(auto, unfolding(crate::specs::Statements::statement))]
fn open_stmt(fields: &mut Fields) -> Option<Stmt>
    ensures { result ≡ statement op.Open fields.old }
{
    Some(Stmt::Open {
        db: fields.db.take()?,
        version: fields.version.take(),
        upgrade: fields.upgrade.take(),
        blocked: fields.blocked.take(),
        success: fields.success.take(),
        error: fields.error.take(),
        version_change: fields.version_change.take(),
        closed: fields.closed.take(),
    })
}

#[tactic(auto, unfolding(crate::specs::Statements::statement))]
fn delete_database_stmt(fields: &mut Fields) -> Option<Stmt>
    ensures { result ≡ statement op.DeleteDatabase fields.old }
{
    Some(Stmt::DeleteDatabase {
        db: fields.db.take()?,
        blocked: fields.blocked.take(),
        success: fields.success.take(),
        error: fields.error.take(),
    })
}

#[tactic(auto, unfolding(crate::specs::Statements::statement))]
fn close_stmt(fields: &mut Fields) -> Option<Stmt>
    ensures { result ≡ statement op.Close fields.old }
{
    Some(Stmt::Close {
        conn: fields.conn.take(),
    })
}

#[tactic(auto, unfolding(crate::specs::Statements::statement))]
fn transaction_stmt(fields: &mut Fields) -> Option<Stmt>
    ensures { result ≡ statement op.Transaction fields.old }
{
    Some(Stmt::Transaction {
        conn: fields.conn.take(),
        scope: fields.scope.take()?,
        mode: fields.mode.take()?,
        durability: fields.durability.take(),
        body: fields.body.take()?,
        complete: fields.complete.take(),
        abort: fields.abort.take(),
    })
}

#[tactic(auto, unfolding(crate::specs::Statements::statement))]
fn post_stmt(fields: &mut Fields) -> Option<Stmt>
    ensures { result ≡ statement op.Post fields.old }
{
    Some(Stmt::Post {
        block: fields.block.take()?,
    })
}

#[tactic(auto, unfolding(crate::specs::Statements::statement))]
fn repeat_stmt(fields: &mut Fields) -> Option<Stmt>
    ensures { result ≡ statement op.Repeat fields.old }
{
    Some(Stmt::Repeat {
        times: fields.times.take()?,
        block: fields.block.take()?,
    })
}

#[tactic(auto, unfolding(crate::specs::Statements::statement))]
fn if_stmt(fields: &mut Fields) -> Option<Stmt>
    ensures { result ≡ statement op.If fields.old }
{
    Some(Stmt::If {
        test: fields.test.take()?,
        then: fields.then.take(),
        otherwise: fields.otherwise.take(),
    })
}

#[tactic(auto, unfolding(crate::specs::Statements::statement))]
fn let_stmt(fields: &mut Fields) -> Option<Stmt>
    ensures { result ≡ statement op.Let fields.old }
{
    Some(Stmt::Let {
        name: fields.name.take()?,
        value: fields.value.take()?,
    })
}

#[tactic(auto, unfolding(crate::specs::Statements::statement))]
fn say_stmt(fields: &mut Fields) -> Option<Stmt>
    ensures { result ≡ statement op.Say fields.old }
{
    Some(Stmt::Say {
        value: fields.value.take()?,
    })
}

#[tactic(auto, unfolding(crate::specs::Statements::statement))]
fn add_stmt(fields: &mut Fields) -> Option<Stmt>
    ensures { result ≡ statement op.Add fields.old }
{
    Some(Stmt::Add {
        store: fields.store.take()?,
        value: fields.value.take()?,
        key: fields.key.take(),
        success: fields.success.take(),
        error: fields.error.take(),
    })
}

#[tactic(auto, unfolding(crate::specs::Statements::statement))]
fn put_stmt(fields: &mut Fields) -> Option<Stmt>
    ensures { result ≡ statement op.Put fields.old }
{
    Some(Stmt::Put {
        store: fields.store.take()?,
        value: fields.value.take()?,
        key: fields.key.take(),
        success: fields.success.take(),
        error: fields.error.take(),
    })
}

#[tactic(auto, unfolding(crate::specs::Statements::statement))]
fn get_stmt(fields: &mut Fields) -> Option<Stmt>
    ensures { result ≡ statement op.Get fields.old }
{
    Some(Stmt::Get {
        store: fields.store.take()?,
        index: fields.index.take(),
        query: fields.query.take(),
        range: fields.range.take(),
        success: fields.success.take(),
        error: fields.error.take(),
    })
}

#[tactic(auto, unfolding(crate::specs::Statements::statement))]
fn get_key_stmt(fields: &mut Fields) -> Option<Stmt>
    ensures { result ≡ statement op.GetKey fields.old }
{
    Some(Stmt::GetKey {
        store: fields.store.take()?,
        index: fields.index.take(),
        query: fields.query.take(),
        range: fields.range.take(),
        success: fields.success.take(),
        error: fields.error.take(),
    })
}

#[tactic(auto, unfolding(crate::specs::Statements::statement))]
fn count_stmt(fields: &mut Fields) -> Option<Stmt>
    ensures { result ≡ statement op.Count fields.old }
{
    Some(Stmt::Count {
        store: fields.store.take()?,
        index: fields.index.take(),
        query: fields.query.take(),
        range: fields.range.take(),
        success: fields.success.take(),
        error: fields.error.take(),
    })
}

#[tactic(auto, unfolding(crate::specs::Statements::statement))]
fn get_all_stmt(fields: &mut Fields) -> Option<Stmt>
    ensures { result ≡ statement op.GetAll fields.old }
{
    Some(Stmt::GetAll {
        store: fields.store.take()?,
        index: fields.index.take(),
        query: fields.query.take(),
        range: fields.range.take(),
        count: fields.count.take(),
        success: fields.success.take(),
        error: fields.error.take(),
    })
}

#[tactic(auto, unfolding(crate::specs::Statements::statement))]
fn get_all_keys_stmt(fields: &mut Fields) -> Option<Stmt>
    ensures { result ≡ statement op.GetAllKeys fields.old }
{
    Some(Stmt::GetAllKeys {
        store: fields.store.take()?,
        index: fields.index.take(),
        query: fields.query.take(),
        range: fields.range.take(),
        count: fields.count.take(),
        success: fields.success.take(),
        error: fields.error.take(),
    })
}

#[tactic(auto, unfolding(crate::specs::Statements::statement))]
fn delete_stmt(fields: &mut Fields) -> Option<Stmt>
    ensures { result ≡ statement op.Delete fields.old }
{
    Some(Stmt::Delete {
        store: fields.store.take()?,
        query: fields.query.take(),
        range: fields.range.take(),
        success: fields.success.take(),
        error: fields.error.take(),
    })
}

#[tactic(auto, unfolding(crate::specs::Statements::statement))]
fn clear_stmt(fields: &mut Fields) -> Option<Stmt>
    ensures { result ≡ statement op.Clear fields.old }
{
    Some(Stmt::Clear {
        store: fields.store.take()?,
        success: fields.success.take(),
        error: fields.error.take(),
    })
}

#[tactic(auto, unfolding(crate::specs::Statements::statement))]
fn open_cursor_stmt(fields: &mut Fields) -> Option<Stmt>
    ensures { result ≡ statement op.OpenCursor fields.old }
{
    Some(Stmt::OpenCursor {
        store: fields.store.take()?,
        index: fields.index.take(),
        query: fields.query.take(),
        range: fields.range.take(),
        direction: fields.direction.take(),
        success: fields.success.take(),
        error: fields.error.take(),
    })
}

#[tactic(auto, unfolding(crate::specs::Statements::statement))]
fn open_key_cursor_stmt(fields: &mut Fields) -> Option<Stmt>
    ensures { result ≡ statement op.OpenKeyCursor fields.old }
{
    Some(Stmt::OpenKeyCursor {
        store: fields.store.take()?,
        index: fields.index.take(),
        query: fields.query.take(),
        range: fields.range.take(),
        direction: fields.direction.take(),
        success: fields.success.take(),
        error: fields.error.take(),
    })
}

#[tactic(auto, unfolding(crate::specs::Statements::statement))]
fn continue_stmt(fields: &mut Fields) -> Option<Stmt>
    ensures { result ≡ statement op.Continue fields.old }
{
    Some(Stmt::Continue {
        key: fields.key.take(),
    })
}

#[tactic(auto, unfolding(crate::specs::Statements::statement))]
fn continue_primary_key_stmt(fields: &mut Fields) -> Option<Stmt>
    ensures { result ≡ statement op.ContinuePrimaryKey fields.old }
{
    Some(Stmt::ContinuePrimaryKey {
        key: fields.key.take()?,
        primary_key: fields.primary_key.take()?,
    })
}

#[tactic(auto, unfolding(crate::specs::Statements::statement))]
fn advance_stmt(fields: &mut Fields) -> Option<Stmt>
    ensures { result ≡ statement op.Advance fields.old }
{
    Some(Stmt::Advance {
        count: fields.count.take()?,
    })
}

#[tactic(auto, unfolding(crate::specs::Statements::statement))]
fn update_stmt(fields: &mut Fields) -> Option<Stmt>
    ensures { result ≡ statement op.Update fields.old }
{
    Some(Stmt::Update {
        value: fields.value.take()?,
        success: fields.success.take(),
        error: fields.error.take(),
    })
}

#[tactic(auto, unfolding(crate::specs::Statements::statement))]
fn delete_here_stmt(fields: &mut Fields) -> Option<Stmt>
    ensures { result ≡ statement op.DeleteHere fields.old }
{
    Some(Stmt::DeleteHere {
        success: fields.success.take(),
        error: fields.error.take(),
    })
}

#[tactic(auto, unfolding(crate::specs::Statements::statement))]
fn create_object_store_stmt(fields: &mut Fields) -> Option<Stmt>
    ensures { result ≡ statement op.CreateObjectStore fields.old }
{
    Some(Stmt::CreateObjectStore {
        store: fields.store.take()?,
        key_path: fields.key_path.take(),
        auto_increment: fields.auto_increment.take(),
    })
}

#[tactic(auto, unfolding(crate::specs::Statements::statement))]
fn delete_object_store_stmt(fields: &mut Fields) -> Option<Stmt>
    ensures { result ≡ statement op.DeleteObjectStore fields.old }
{
    Some(Stmt::DeleteObjectStore {
        store: fields.store.take()?,
    })
}

#[tactic(auto, unfolding(crate::specs::Statements::statement))]
fn create_index_stmt(fields: &mut Fields) -> Option<Stmt>
    ensures { result ≡ statement op.CreateIndex fields.old }
{
    Some(Stmt::CreateIndex {
        store: fields.store.take()?,
        index: fields.index.take()?,
        key_path: fields.key_path.take()?,
        unique: fields.unique.take(),
        multi_entry: fields.multi_entry.take(),
    })
}

#[tactic(auto, unfolding(crate::specs::Statements::statement))]
fn delete_index_stmt(fields: &mut Fields) -> Option<Stmt>
    ensures { result ≡ statement op.DeleteIndex fields.old }
{
    Some(Stmt::DeleteIndex {
        store: fields.store.take()?,
        index: fields.index.take()?,
    })
}
