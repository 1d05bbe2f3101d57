// The fields of a statement, each read by the kind that its name gives it.
ghost use Rattle.std.specs.Prelude.{◌≡◌, Some};
ghost use Rattle.idb_base.specs.Results.{Gives};
ghost use Rattle.serde_json.specs.View.{view};
ghost use Rattle.value_json.specs.Reading.{IsUnread};
ghost use Rattle.script_reading.specs.BlockPlaces.{places_seen};
ghost use Rattle.script_reading.specs.Fields.{no_fields, field_kind, with_name, with_block, with_expr, with_flag, with_other, with_field};

use crate::block_places::BlockPlaces;
use crate::kinds::{
    block_of, direction_of, durability_of, flag_of, mode_of, number_of, path_spec_of, range_of,
    scope_of, times_of,
};
use crate::ops::Field;
use clone_values::{PathSpec, Text, Texts};
use idb_keys::{Direction, Durability, Mode};
use script_exprs::{Expr, expr_from_json, name_from_json};
use script_statements::{BlockPlace, RangeExpr};
use serde_json::Value as Json;
use std::alloc::Global;
use value_json::JsonError;

/// What was read of a statement's fields.
#[derive(Drop)]
pub(crate) struct Fields {
    pub(crate) db: Option<Text>,
    pub(crate) version: Option<Expr>,
    pub(crate) upgrade: Option<BlockPlace>,
    pub(crate) blocked: Option<BlockPlace>,
    pub(crate) success: Option<BlockPlace>,
    pub(crate) error: Option<BlockPlace>,
    pub(crate) version_change: Option<BlockPlace>,
    pub(crate) closed: Option<BlockPlace>,
    pub(crate) conn: Option<u64>,
    pub(crate) scope: Option<Texts>,
    pub(crate) mode: Option<Mode>,
    pub(crate) durability: Option<Durability>,
    pub(crate) body: Option<BlockPlace>,
    pub(crate) complete: Option<BlockPlace>,
    pub(crate) abort: Option<BlockPlace>,
    pub(crate) block: Option<BlockPlace>,
    pub(crate) times: Option<u64>,
    pub(crate) test: Option<Expr>,
    pub(crate) then: Option<BlockPlace>,
    pub(crate) otherwise: Option<BlockPlace>,
    pub(crate) name: Option<Text>,
    pub(crate) value: Option<Expr>,
    pub(crate) store: Option<Text>,
    pub(crate) key: Option<Expr>,
    pub(crate) index: Option<Text>,
    pub(crate) query: Option<Expr>,
    pub(crate) range: Option<RangeExpr>,
    pub(crate) count: Option<Expr>,
    pub(crate) direction: Option<Direction>,
    pub(crate) primary_key: Option<Expr>,
    pub(crate) key_path: Option<PathSpec>,
    pub(crate) auto_increment: Option<bool>,
    pub(crate) unique: Option<bool>,
    pub(crate) multi_entry: Option<bool>,
}

/// None of the fields.
pub(crate) fn no_fields() -> Fields
    ensures { result ≡ no_fields }
{
    Fields {
        db: None,
        version: None,
        upgrade: None,
        blocked: None,
        success: None,
        error: None,
        version_change: None,
        closed: None,
        conn: None,
        scope: None,
        mode: None,
        durability: None,
        body: None,
        complete: None,
        abort: None,
        block: None,
        times: None,
        test: None,
        then: None,
        otherwise: None,
        name: None,
        value: None,
        store: None,
        key: None,
        index: None,
        query: None,
        range: None,
        count: None,
        direction: None,
        primary_key: None,
        key_path: None,
        auto_increment: None,
        unique: None,
        multi_entry: None,
    }
}

// Puts a value into its slot.
fn put<T: Drop>(slot: &mut Option<T>, value: T)
    ensures { slot.new ≡ Some value }
{
    *slot = Some(value);
}

/// What kind of value a field has.
#[derive(Clone, Copy, Debug, PartialEq, Eq)]
enum Kind {
    Name,
    Block,
    Expr,
    Flag,
    Other,
}

fn field_kind(field: Field) -> Kind
    ensures { result ≡ field_kind field }
{
    match field {
        Field::Db => Kind::Name,
        Field::Version => Kind::Expr,
        Field::Upgrade => Kind::Block,
        Field::Blocked => Kind::Block,
        Field::Success => Kind::Block,
        Field::Error => Kind::Block,
        Field::VersionChange => Kind::Block,
        Field::Closed => Kind::Block,
        Field::Conn => Kind::Other,
        Field::Scope => Kind::Other,
        Field::Mode => Kind::Other,
        Field::Durability => Kind::Other,
        Field::Body => Kind::Block,
        Field::Complete => Kind::Block,
        Field::Abort => Kind::Block,
        Field::Do => Kind::Block,
        Field::Times => Kind::Other,
        Field::Test => Kind::Expr,
        Field::Then => Kind::Block,
        Field::Else => Kind::Block,
        Field::Name => Kind::Name,
        Field::Value => Kind::Expr,
        Field::Store => Kind::Name,
        Field::Key => Kind::Expr,
        Field::Index => Kind::Name,
        Field::Query => Kind::Expr,
        Field::Range => Kind::Other,
        Field::Count => Kind::Expr,
        Field::Direction => Kind::Other,
        Field::PrimaryKey => Kind::Expr,
        Field::KeyPath => Kind::Other,
        Field::AutoIncrement => Kind::Flag,
        Field::Unique => Kind::Flag,
        Field::MultiEntry => Kind::Flag,
    }
}

fn set_name(fields: &mut Fields, field: Field, name: Text)
    ensures { fields.new ≡ with_name field name fields.old }
{
    match field {
        Field::Db => put(&mut fields.db, name),
        Field::Name => put(&mut fields.name, name),
        Field::Store => put(&mut fields.store, name),
        Field::Index => put(&mut fields.index, name),
        _ => {}
    }
}

fn set_block(fields: &mut Fields, field: Field, block: BlockPlace)
    ensures { fields.new ≡ with_block field block fields.old }
{
    match field {
        Field::Upgrade => put(&mut fields.upgrade, block),
        Field::Blocked => put(&mut fields.blocked, block),
        Field::Success => put(&mut fields.success, block),
        Field::Error => put(&mut fields.error, block),
        Field::VersionChange => put(&mut fields.version_change, block),
        Field::Closed => put(&mut fields.closed, block),
        Field::Body => put(&mut fields.body, block),
        Field::Complete => put(&mut fields.complete, block),
        Field::Abort => put(&mut fields.abort, block),
        Field::Do => put(&mut fields.block, block),
        Field::Then => put(&mut fields.then, block),
        Field::Else => put(&mut fields.otherwise, block),
        _ => {}
    }
}

fn set_expr(fields: &mut Fields, field: Field, expr: Expr)
    ensures { fields.new ≡ with_expr field expr fields.old }
{
    match field {
        Field::Version => put(&mut fields.version, expr),
        Field::Test => put(&mut fields.test, expr),
        Field::Value => put(&mut fields.value, expr),
        Field::Key => put(&mut fields.key, expr),
        Field::Query => put(&mut fields.query, expr),
        Field::Count => put(&mut fields.count, expr),
        Field::PrimaryKey => put(&mut fields.primary_key, expr),
        _ => {}
    }
}

fn set_flag(fields: &mut Fields, field: Field, flag: bool)
    ensures { fields.new ≡ with_flag field flag fields.old }
{
    match field {
        Field::AutoIncrement => put(&mut fields.auto_increment, flag),
        Field::Unique => put(&mut fields.unique, flag),
        Field::MultiEntry => put(&mut fields.multi_entry, flag),
        _ => {}
    }
}

// A field that has a kind of its own.
fn read_other(
    alloc: Global,
    field: Field,
    json: &Json,
    fields: &mut Fields,
) -> Result<(), JsonError>
    ensures { Gives IsUnread (λ _. fields.new) result (with_other field (view json.now) fields.old) }
{
    match field {
        Field::Conn => {
            let conn = number_of(json)?;
            put(&mut fields.conn, conn);
        }
        Field::Scope => {
            let scope = scope_of(alloc, json)?;
            put(&mut fields.scope, scope);
        }
        Field::Mode => {
            let mode = mode_of(json)?;
            put(&mut fields.mode, mode);
        }
        Field::Durability => {
            let durability = durability_of(json)?;
            put(&mut fields.durability, durability);
        }
        Field::Times => {
            let times = times_of(json)?;
            put(&mut fields.times, times);
        }
        Field::Range => {
            let range = range_of(alloc, json)?;
            put(&mut fields.range, range);
        }
        Field::Direction => {
            let direction = direction_of(json)?;
            put(&mut fields.direction, direction);
        }
        Field::KeyPath => {
            let key_path = path_spec_of(alloc, json)?;
            put(&mut fields.key_path, key_path);
        }
        _ => {}
    }
    Ok(())
}

/// Reads one field; the blocks are those of the client. `Spelling` comes exactly where the document isn't of its form.
#[tactic(auto, unfolding(crate::specs::Fields::with_field))]
pub(crate) fn read_field(
    alloc: Global,
    blocks: &BlockPlaces,
    field: Field,
    json: &Json,
    fields: &mut Fields,
) -> Result<(), JsonError>
    ensures { Gives IsUnread (λ _. fields.new) result
        (with_field (places_seen blocks.now) field (view json.now) fields.old) }
{
    match field_kind(field) {
        Kind::Name => {
            let name = name_from_json(alloc, json)?;
            set_name(fields, field, name);
            Ok(())
        }
        Kind::Block => {
            let block = block_of(alloc, blocks, json)?;
            set_block(fields, field, block);
            Ok(())
        }
        Kind::Expr => {
            let expr = expr_from_json(alloc, json)?;
            set_expr(fields, field, expr);
            Ok(())
        }
        Kind::Flag => {
            let flag = flag_of(json)?;
            set_flag(fields, field, flag);
            Ok(())
        }
        Kind::Other => read_other(alloc, field, json, fields),
    }
}
