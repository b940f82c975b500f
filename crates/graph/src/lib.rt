// The kinds of step on the graph's arrays, the store and the answers.
#![tactic(auto)]

use command::Command;
use node_set::NodeSet;

mod chain;
mod fill;
mod items;
mod loader;
mod service;

pub use chain::Cleared;
pub use items::{command_at, dependent};
pub use service::{in_one_step, limit_after, look_up, save, write, write_read};

// The table's nodes, by their numbers: where each leads, the place of its command, whether it is executing or locked, for whom it waits, and its
// command, so that a step along the chain reads no text. An array for each field, as the model has a function for each: with one array of records
// every contract would say of each node that its other fields stay.
#[derive(Clone, Copy)]
pub struct Graph {
    pub next: [u8; 151],
    pub seq: [u16; 151],
    pub executing: [bool; 151],
    pub locked: [bool; 151],
    pub waits: [NodeSet; 151],
    pub items: [Option<Command>; 151],
}
