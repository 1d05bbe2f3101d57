// What runs write.
use crate::environments::Env;
use idb_base::Listed;
use report_lines::Line;
use script_statements::BlockPlace;

/// A block that runs once its client comes to it, and its environment.
#[derive(Drop)]
pub struct Task {
    pub block: BlockPlace,
    pub env: Env,
}

/// A line of the client, or a task that was put behind its tasks.
#[derive(Drop)]
pub enum Note {
    Line(Line),
    Posted(Task),
}

/// What was written, in order.
pub type Notes = Listed<Note>;
