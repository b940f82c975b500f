// What a caller can ask of a state between calls: the panel's two reports, and the answers from a place on. The lists are separate parameters, as
// these public calls have promised of them (`at_entry`).
#![tactic(auto)]

mod pending;
mod places;
mod status;

use node_set::Node;
pub use pending::pending_counts;
pub use places::answers_from;
pub use state_bytes::Reason;
pub use status::{worker_status, worker_status_bytes};

// A worker's state, document 01's turns of parties 1 and up.
#[derive(Clone, Copy, Debug, PartialEq, Eq)]
pub enum WorkerState {
    Idle,
    Searching,
    Holding,
    LookedUp,
    Written,
    Walking,
    Clearing,
}

// What the panel shows of a worker (document 01's standing): its state, and its own node, 0 for none.
#[derive(Clone, Copy, Debug, PartialEq, Eq)]
pub struct WorkerStatus {
    pub state: WorkerState,
    pub own: Node,
}
