// The databases of a disk.
//
// Recovery opens the log that a disk holds and gives the databases that its batches are defined to give, or the area and the place where
// it is damaged. The layer above uses `recover`: what it gives is what is found of what reads gave, and of each image afterwards. `look`
// gives the same of a disk that it leaves as it was, and what stands in each area.
#![tactic(auto)]

mod error;
mod lines;
mod looking;
mod recovery;

pub use error::RecoverError;
pub use lines::{AreaFound, BatchLine, BatchLines};
pub use looking::{Looked, look};
pub use recovery::{Opened, recover};
