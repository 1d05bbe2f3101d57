// The end of a transaction: its line, the block for it, and that block's environment.
ghost use Rattle.std.specs.Prelude.{◌≡◌, IfOk};
ghost use Rattle.client_seats.specs.ClientSteps.{end_line, end_block, end_env};

use clone_values::{Text, Value};
use idb_base::NoMemory;
use idb_calls::Outcome;
use report_lines::Line;
use script_runs::Env;
use script_statements::BlockPlace;
use std::alloc::Global;

/// The line of a transaction that came to this outcome.
pub fn end_line(number: u64, outcome: Outcome) -> Line
    ensures { result ≡ end_line number outcome }
{
    match outcome {
        Outcome::Committed => Line::Complete { number },
        Outcome::Aborted { error, doubt } => Line::Abort {
            number,
            error,
            doubt,
        },
    }
}

/// The block for it.
pub fn end_block(
    complete: Option<BlockPlace>,
    abort: Option<BlockPlace>,
    outcome: Outcome,
) -> Option<BlockPlace>
    ensures { result ≡ end_block complete abort outcome }
{
    match outcome {
        Outcome::Committed => complete,
        Outcome::Aborted { .. } => abort,
    }
}

/// The environment of that block.
pub fn end_env(alloc: Global, env: Env, outcome: Outcome) -> Result<Env, NoMemory>
    ensures { IfOk result (λ last. last ≡ end_env env outcome) }
{
    let mut env = env;
    if let Outcome::Aborted {
        error: Some(name),
        ..
    } = outcome
    {
        let name = Text::copy_of(alloc, name.name())?;
        env.set(Text::copy_of(alloc, "error")?, Value::Text(name))?;
    }
    Ok(env)
}
