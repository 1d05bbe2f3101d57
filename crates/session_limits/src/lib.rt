// What the layers that keep commits need to know of a session: its numbers and counts stay within the limits of the log.
//
// There is no code here but a definition and laws. An unfinished upgrade is one to a version that a log can hold; a session over
// databases within limits stays within them; and a record of changes after which all is at rest is one that applies.
#![tactic(auto)]

mod laws_of_limits;
mod laws_of_resting;
mod laws_of_versions;

pub use laws_of_limits::limit_laws;
pub use laws_of_resting::resting_laws;
pub use laws_of_versions::version_laws;
pub use session_facts::{fitting_laws, showing_laws, telling_laws};
