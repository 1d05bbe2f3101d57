// The live area, as it is handed from call to call.
use disk_trait::Area;

/// The area that a log writes to.
#[derive(Clone, Copy, Debug)]
pub struct LiveArea {
    /// Which of the two it is.
    pub area: Area,
    /// Its generation.
    pub generation: u64,
    /// The place of the gate behind its batches, which is that of the next batch.
    pub gate: u64,
}
