// Reads the fields of the state bytes. They are a slice, whose length each contract asks for, as calls lend slices: a `&[u8; 4718]` would be had by
// `as_array` and a second refusal after `tested`.
ghost use Rattle.std.specs.Prelude.{◌≡◌, ◌≤◌, length};
ghost use Rattle.byte_fields.specs.Bytes.{tabulate};
ghost use Rattle.state_bytes.specs.Layout.{Lists, state_length, state_in, set_at, thread_at};
ghost use Rattle.state_bytes.specs.Written.{ReadGraph};

use crate::fields::{SetField, ThreadField};
use crate::layout::{EXECUTING, LAST_NODE, LOCKED, NEXT, SEQ, THREADS, WAITS};
use byte_fields::{Field, read_fields};
use graph::Graph;
use model::Thread;
use node_set::{Node, NodeSet};

// The node behind a node, 0 for none; a number that no node has is followed by none.
#[tactic(auto, unfolding(crate::specs::Layout::state_length, crate::specs::Layout::state_in))]
pub fn next_at(state: &[u8], node: Node) -> Node
    requires { length state.now ≡ state_length }
    ensures { (l : Lists) → l.state ≡ state.now → result.0 ≡ (state_in l).graph.next node.0 }
{
    if node.0 > LAST_NODE {
        return Node(0);
    }
    Node(state[NEXT + node.0 as usize])
}

// The set of node n.
#[tactic(auto, unfolding(crate::specs::Layout::state_length))]
pub fn set_at(state: &[u8], n: usize) -> NodeSet
    requires { (length state.now ≡ state_length) × (n ≤ 150) }
    ensures { result ≡ set_at state.now n }
{
    SetField::read(state, WAITS + SetField::WIDTH * n)
}

// The state of thread t.
#[tactic(auto, unfolding(crate::specs::Layout::state_length))]
pub fn thread_at(state: &[u8], t: usize) -> Thread
    requires { (length state.now ≡ state_length) × (t ≤ 64) }
    ensures { result ≡ thread_at state.now t }
{
    ThreadField::read(state, THREADS + ThreadField::WIDTH * t)
}

// The states of the 65 threads.
#[tactic(auto, unfolding(crate::specs::Layout::state_length))]
pub fn read_threads(state: &[u8]) -> [Thread; 65]
    requires { length state.now ≡ state_length }
    ensures { result ≡ tabulate 65 (thread_at state.now) }
{
    let mut threads = [Thread::Idle; 65];
    read_fields::<ThreadField>(state, THREADS, &mut threads);
    threads
}

// The table's nodes, with no command beside any.
#[tactic(auto, unfolding(crate::specs::Layout::state_length))]
pub fn read_graph(state: &[u8]) -> Graph
    requires { length state.now ≡ state_length }
    ensures { ReadGraph state.now result }
{
    let mut graph = Graph {
        next: [0; 151],
        seq: [0; 151],
        executing: [false; 151],
        locked: [false; 151],
        waits: [NodeSet::empty(); 151],
        items: [None; 151],
    };
    read_fields::<u8>(state, NEXT, &mut graph.next);
    read_fields::<u16>(state, SEQ, &mut graph.seq);
    read_fields::<bool>(state, EXECUTING, &mut graph.executing);
    read_fields::<bool>(state, LOCKED, &mut graph.locked);
    read_fields::<SetField>(state, WAITS, &mut graph.waits);
    graph
}
