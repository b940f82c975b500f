// A thread's step: which kind of step on the graph its state asks for. Together they are the model's `step`.
#![tactic(auto)]

ghost use Rattle.std.specs.Prelude.{◌≡◌, length};
ghost use Rattle.model.specs.Image.{image_length};
ghost use Rattle.graph.specs.Memory.{Ready, Steps, memory};

mod loader_thread;
mod worker_thread;

use graph::Graph;
use loader_thread::loader_step;
use model::{Counters, Thread};
use worker_thread::worker_step;

// A thread after its step, with the counters.
#[derive(Clone, Copy)]
pub struct Stepped {
    pub thread: Thread,
    pub counters: Counters,
}

// One step of thread t, which is in state `thread`. A worker is allowed to begin a search and to take a node where the worker count in
// force is at least its number.
pub fn step(
    graph: &mut Graph,
    keys: &mut [u64],
    chutes: &mut [u16],
    answers: &mut [u16],
    image: &mut [u8],
    list: &[u8],
    t: u8,
    thread: Thread,
    counters: Counters,
) -> Stepped
    requires { Ready list.now (memory graph.old keys.old chutes.old answers.old image.old counters) thread × (length image.old ≡ image_length (length keys.old)) }
    ensures { Steps list.now t thread (memory graph.old keys.old chutes.old answers.old image.old counters)
        result.thread (memory graph.new keys.new chutes.new answers.new image.new result.counters) }
{
    if t == 0 {
        return loader_step(graph, answers, list, thread, counters);
    }
    let allowed = t as usize <= counters.limit;
    worker_step(
        graph, keys, chutes, answers, image, allowed, thread, counters,
    )
}
