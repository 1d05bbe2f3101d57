// The log, the commits that wait, and the batch that failed.
use crate::place::Place;
use crate::waiting::Waiting;
use gate_log::{Disk, Frame};

#[derive(Drop)]
pub(crate) struct Held<D: Disk> {
    pub(crate) place: Place<D>,
    pub(crate) waiting: Waiting,
    pub(crate) lost: Option<Frame>,
}
