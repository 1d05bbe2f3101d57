// Runs blocks.
ghost use Rattle.std.specs.Prelude.{◌≡◌, ◌≤◌, ℕ, true, IfOk};
ghost use Rattle.script_statements.specs.declared.statement.Stmt.TheVariants.{Repeat};
ghost use Rattle.script_runs.specs.Words.{is_action};
ghost use Rattle.script_runs.specs.Going.{GoesInto, Statements, Statement, Rounds, Block};

use crate::environments::At;
use crate::limits::{DEEPEST_BLOCK, MOST_STATEMENTS};
use crate::notes::Notes;
use crate::stating::{
    begin_round, branch, is_action, post, refuse, say, set_turn, set_variable, throw, turn_of,
};
use crate::worlds::{RunEnd, World};
use idb_base::NoMemory;
use script_statements::{BlockPlace, Client, Stmt};
use std::alloc::Global;

/// Runs a block of the client, so many blocks deep; a run that begins has depth 0. Where memory runs out, the world may have gone
/// some of the way.
#[cycle(blocks)]
pub fn enter<W: World>(
    alloc: Global,
    world: &mut W,
    client: &Client,
    depth: u32,
    block: BlockPlace,
    at: &mut At,
    notes: &mut Notes,
) -> Result<RunEnd, NoMemory>
    requires { depth ≤ DEEPEST_BLOCK }
    ensures goes { IfOk result (λ end. GoesInto W.noted W.shown W.does client.now.blocks depth (Block block)
        (record { world = W.plain world.old; at = at.old }) notes.old
        (record { world = W.plain world.new; at = at.new }) end notes.new) }
    ensures moves { W.moves world.old world.new }
{
    if depth >= DEEPEST_BLOCK {
        throw(notes)?;
        return Ok(RunEnd::Threw);
    }
    execute(
        alloc,
        world,
        client,
        depth + 1,
        client.body_at(block),
        at,
        notes,
    )
}

// Runs statements, one after another.
#[cycle(blocks)]
fn execute<W: World>(
    alloc: Global,
    world: &mut W,
    client: &Client,
    depth: u32,
    statements: &[Stmt],
    at: &mut At,
    notes: &mut Notes,
) -> Result<RunEnd, NoMemory>
    requires low { 1 ≤ depth }
    requires high { depth ≤ DEEPEST_BLOCK }
    ensures goes { IfOk result (λ end. GoesInto W.noted W.shown W.does client.now.blocks depth
        (Statements statements.now) (record { world = W.plain world.old; at = at.old }) notes.old
        (record { world = W.plain world.new; at = at.new }) end notes.new) }
    ensures moves { W.moves world.old world.new }
{
    for statement in statements {
        if at.count >= MOST_STATEMENTS {
            throw(notes)?;
            return Ok(RunEnd::Threw);
        }
        at.count += 1;
        match perform(alloc, world, client, depth, statement, at, notes)? {
            RunEnd::Went => {}
            RunEnd::Threw => return Ok(RunEnd::Threw),
        }
    }
    Ok(RunEnd::Went)
}

// Runs one statement.
#[cycle(blocks)]
fn perform<W: World>(
    alloc: Global,
    world: &mut W,
    client: &Client,
    depth: u32,
    statement: &Stmt,
    at: &mut At,
    notes: &mut Notes,
) -> Result<RunEnd, NoMemory>
    requires low { 1 ≤ depth }
    requires high { depth ≤ DEEPEST_BLOCK }
    ensures goes { IfOk result (λ end. GoesInto W.noted W.shown W.does client.now.blocks depth
        (Statement statement.now) (record { world = W.plain world.old; at = at.old }) notes.old
        (record { world = W.plain world.new; at = at.new }) end notes.new) }
    ensures moves { W.moves world.old world.new }
{
    if is_action(statement) {
        return act(alloc, world, client, statement, at, notes);
    }
    match statement {
        Stmt::Say { value } => {
            say(alloc, &at.env, value, notes)?;
            Ok(RunEnd::Went)
        }
        Stmt::Throw => {
            throw(notes)?;
            Ok(RunEnd::Threw)
        }
        Stmt::Post { block } => {
            post(&at.env, *block, notes)?;
            Ok(RunEnd::Went)
        }
        Stmt::Let { name, value } => {
            set_variable(alloc, &mut at.env, name, value)?;
            Ok(RunEnd::Went)
        }
        Stmt::Repeat { times, block } => {
            repeat(alloc, world, client, depth, *times, *block, at, notes)
        }
        Stmt::If {
            test,
            then,
            otherwise,
        } => match branch(alloc, &at.env, test, *then, *otherwise)? {
            Some(block) => enter(alloc, world, client, depth, block, at, notes),
            None => Ok(RunEnd::Went),
        },
        _ => Err(NoMemory),
    }
}

// Runs a block so many times, and sets `turn` back.
#[cycle(blocks)]
fn repeat<W: World>(
    alloc: Global,
    world: &mut W,
    client: &Client,
    depth: u32,
    times: u64,
    block: BlockPlace,
    at: &mut At,
    notes: &mut Notes,
) -> Result<RunEnd, NoMemory>
    requires low { 1 ≤ depth }
    requires high { depth ≤ DEEPEST_BLOCK }
    ensures goes { IfOk result (λ end. GoesInto W.noted W.shown W.does client.now.blocks depth
        (Statement (Repeat times block)) (record { world = W.plain world.old; at = at.old }) notes.old
        (record { world = W.plain world.new; at = at.new }) end notes.new) }
    ensures moves { W.moves world.old world.new }
{
    let turn = turn_of(alloc, &at.env)?;
    let end = rounds(alloc, world, client, depth, times, block, at, notes)?;
    set_turn(alloc, &mut at.env, turn)?;
    Ok(end)
}

// Runs a block so many times.
#[cycle(blocks)]
fn rounds<W: World>(
    alloc: Global,
    world: &mut W,
    client: &Client,
    depth: u32,
    times: u64,
    block: BlockPlace,
    at: &mut At,
    notes: &mut Notes,
) -> Result<RunEnd, NoMemory>
    requires low { 1 ≤ depth }
    requires high { depth ≤ DEEPEST_BLOCK }
    ensures goes { IfOk result (λ end. GoesInto W.noted W.shown W.does client.now.blocks depth
        (Rounds times 0 block) (record { world = W.plain world.old; at = at.old }) notes.old
        (record { world = W.plain world.new; at = at.new }) end notes.new) }
    ensures moves { W.moves world.old world.new }
{
    for turn in 0..times {
        begin_round(alloc, &mut at.env, turn)?;
        match enter(alloc, world, client, depth, block, at, notes)? {
            RunEnd::Went => {}
            RunEnd::Threw => return Ok(RunEnd::Threw),
        }
    }
    Ok(RunEnd::Went)
}

// Does what an action says to the world.
fn act<W: World>(
    alloc: Global,
    world: &mut W,
    client: &Client,
    statement: &Stmt,
    at: &At,
    notes: &mut Notes,
) -> Result<RunEnd, NoMemory>
    requires { is_action statement.now ≡ true }
    ensures goes { (depth : ℕ) → IfOk result (λ end. GoesInto W.noted W.shown W.does client.now.blocks depth
        (Statement statement.now) (record { world = W.plain world.old; at = at.now }) notes.old
        (record { world = W.plain world.new; at = at.now }) end notes.new) }
    ensures moves { W.moves world.old world.new }
{
    let refusal = world.act(alloc, client, &at.env, statement, notes)?;
    if let Some(name) = refusal {
        refuse(alloc, statement, name, notes)?;
    }
    Ok(RunEnd::Went)
}
