// The state's bytes: where each field stands, read, written and tested on a state that is handed back.
#![tactic(auto)]

ghost use Rattle.state_bytes.specs.Outcome.{RefusedFor};

use s10::Refusal;

mod fields;
mod fits;
mod layout;
mod read;
mod write;

pub use fits::{image_fits, lengths_fit, state_fits, tested, threads_named};
pub use layout::{
    CAPACITY, COUNT, EXECUTING, FREE, LARGEST, LAST_NODE, LIMIT, LOADED, LOCKED, NEXT, SEQ, SIZE,
    STATE_LENGTH, USED, WORKERS,
};
pub use read::{next_at, read_graph, read_threads, set_at, thread_at};
pub use write::write_state;

// What an opening fixes, as numbers.
#[derive(Clone, Copy)]
pub struct Settings {
    pub size: u8,
    pub workers: u8,
    pub largest: u8,
    pub capacity: u16,
    pub count: u16,
}

// Why a handed-back state is refused.
#[derive(Clone, Copy, Debug, PartialEq, Eq)]
pub enum Reason {
    WrongLength,
    WrongState,
}

impl From<Reason> for Refusal {
    ghost from_gives = { RefusedFor };

    fn from(reason: Reason) -> Refusal {
        match reason {
            Reason::WrongLength => Refusal::plain(6),
            Reason::WrongState => Refusal::plain(12),
        }
    }
}
