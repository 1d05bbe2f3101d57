// The two areas of a disk: what their bytes stand for, and the steps that read, make, repair and extend them.
//
// The log above speaks of batches alone. Each step that writes says what an image stands for at any moment within it,
// and what the live area holds after it.
#![tactic(auto)]

mod batches;
mod choose;
mod collecting;
mod frame;
mod live;
mod make;
mod repairing;
mod scan;
mod sealing;
mod survey;
mod sync;

pub use batches::{Batch, Batches, Payload};
pub use choose::Choice;
pub use collecting::{CollectError, collect};
pub use disk_trait::{Area, Disk, Failed};
pub use frame::Frame;
pub use live::LiveArea;
pub use make::{make_area, make_area_with};
pub use repairing::repair;
pub use scan::Scan;
pub use sealing::seal;
pub use survey::{Survey, find_live, survey_areas};
pub use sync::sync_both;
