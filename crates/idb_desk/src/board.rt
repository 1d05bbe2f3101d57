// What a desk is made of.
use crate::clients::DeskClient;
use connection_queues::Queues;
use desk_steps::{DeskPlace, DrawnTx};
use scope_desk::ScopeDesk;
use std::alloc::Global;

/// What the desk keeps beside the queues.
#[derive(Drop)]
pub(crate) struct Board {
    pub alloc: Global,
    pub scopes: ScopeDesk,
    pub places: Vec<DeskPlace>,
    pub drawn: Vec<DrawnTx>,
    pub clients: Vec<DeskClient>,
    pub is_faulted: bool,
}

/// The queues and the board.
#[derive(Drop)]
pub(crate) struct Parts {
    pub queues: Queues,
    pub board: Board,
}
