// What the controller does, as definitions: the serial run, the steps, and the statement of demand 3. This crate has types
// and no function: specs/ holds the definitions, proofs/ the theorems.
#![tactic(auto)]

use command::Seq;
use node_set::Node;

// Where one thread stands ("party" of document 01): thread 0 is the loader, the others are workers. `own` is the node that
// the thread loads or removes, `at` the node that it stands on and keeps locked, `found` the chute that its lookup found, 0
// for none.
#[derive(Clone, Copy)]
pub enum Thread {
    Idle,
    // The loader's "walking".
    Loading { at: Node, own: Node },
    Searching { at: Node },
    Holding { own: Node },
    // No schedule leads here with a read, which is written in the step of its lookup.
    LookedUp { own: Node, found: u16 },
    Written { own: Node },
    // "Walking to its own record".
    Walking { at: Node, own: Node },
    Clearing { at: Node, own: Node },
}

// What steps count: the first free node, the place of the last command loaded, the store's places in use, and the worker count
// in force.
#[derive(Clone, Copy)]
pub struct Counters {
    pub free: Node,
    pub loaded: Seq,
    pub used: usize,
    pub limit: usize,
}
