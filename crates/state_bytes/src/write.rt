// Lays a state out in the state bytes.
ghost use Rattle.std.specs.Prelude.{◌≡◌, ◌≤◌, length};
ghost use Rattle.byte_fields.specs.Bytes.{pasted};
ghost use Rattle.state_bytes.specs.Layout.{state_length};
ghost use Rattle.state_bytes.specs.Head.{head_of};
ghost use Rattle.state_bytes.specs.Written.{Lays};

use crate::Settings;
use crate::fields::{SetField, ThreadField};
use crate::layout::{
    CAPACITY, CHAIN, COUNT, EXECUTING, FREE, LARGEST, LIMIT, LOADED, LOCK_COUPLED, LOCKED, NEXT,
    SEQ, SIZE, THREADS, USED, WAITS, WORKERS,
};
use byte_fields::{Field, put_number, write_fields};
use graph::Graph;
use model::{Counters, Thread};

// Writes the settings and counters.
fn write_head(state: &mut [u8], settings: Settings, counters: Counters)
    requires { 14 ≤ length state.old }
    ensures { state.new ≡ pasted 0 (head_of settings counters) state.old }
{
    u8::write(state, CHAIN, LOCK_COUPLED);
    u8::write(state, SIZE, settings.size);
    u8::write(state, WORKERS, settings.workers);
    u8::write(state, LARGEST, settings.largest);
    u16::write(state, CAPACITY, settings.capacity);
    u16::write(state, COUNT, settings.count);
    put_number(state, LOADED, 2, counters.loaded.0 as u64);
    put_number(state, USED, 2, counters.used as u64);
    u8::write(state, FREE, counters.free.0);
    put_number(state, LIMIT, 1, counters.limit as u64);
}

// Writes every field of a state.
#[tactic(auto, unfolding(crate::specs::Layout::state_length))]
pub fn write_state(
    state: &mut [u8],
    settings: Settings,
    counters: Counters,
    graph: &Graph,
    threads: &[Thread; 65],
)
    requires { length state.old ≡ state_length }
    ensures { Lays settings counters graph.now.next graph.now.seq graph.now.executing graph.now.locked graph.now.waits threads.now state.new }
{
    write_head(state, settings, counters);
    write_fields::<u8>(state, NEXT, &graph.next);
    write_fields::<u16>(state, SEQ, &graph.seq);
    write_fields::<bool>(state, EXECUTING, &graph.executing);
    write_fields::<bool>(state, LOCKED, &graph.locked);
    write_fields::<SetField>(state, WAITS, &graph.waits);
    write_fields::<ThreadField>(state, THREADS, threads);
}
