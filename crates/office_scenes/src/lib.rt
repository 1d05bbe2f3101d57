// Scenes: what an office, its notes and the desk show while one client acts, and what each step makes of that.
//
// Definitions and their laws alone; `office_moves` has the calls that make these steps.
#![tactic(auto)]

mod laws_of_tasks;

pub use client_tasks::{Office, TakeError};
pub use laws_of_tasks::task_laws;
pub use session_limits::{
    fitting_laws, limit_laws, resting_laws, showing_laws, telling_laws, version_laws,
};
