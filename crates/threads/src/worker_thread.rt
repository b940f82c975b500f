// A worker's step, by the state that it is in.
ghost use Rattle.std.specs.Prelude.{◌≡◌, List, ℕ, leb};
ghost use Rattle.graph.specs.Memory.{Ready, Steps, memory};
ghost use Rattle.graph.specs.Worker.{WorkerReady};

use crate::Stepped;
use graph::{Graph, in_one_step, limit_after, look_up, save, write, write_read};
use model::{Counters, Thread};
use node_set::Node;

// One step of a worker, which is in state `thread` and is allowed to begin a search and to take a node, or is not.
pub fn worker_step(
    graph: &mut Graph,
    keys: &mut [u64],
    chutes: &mut [u16],
    answers: &mut [u16],
    image: &mut [u8],
    allowed: bool,
    thread: Thread,
    counters: Counters,
) -> Stepped
    requires { WorkerReady graph.old keys.old answers.old image.old counters.free.0 thread }
    ensures { (list : List ℕ) (t : ℕ) → (t ≡ 0 → ⊥) → leb t counters.limit ≡ allowed
        → Ready list (memory graph.old keys.old chutes.old answers.old image.old counters) thread
        → Steps list t thread (memory graph.old keys.old chutes.old answers.old image.old counters)
        result.thread (memory graph.new keys.new chutes.new answers.new image.new result.counters) }
{
    let thread = match thread {
        Thread::Idle => {
            if !allowed {
                return Stepped { thread, counters };
            }
            graph.enter(thread, Thread::Searching { at: Node(0) })
        }
        Thread::Loading { at: _, own: _ } => thread,
        Thread::Searching { at } => graph.search(at, allowed),
        Thread::Holding { own } => {
            let item = graph.item(own);
            let found = look_up(item, keys, chutes, counters.used);
            if in_one_step(item) {
                let place = graph.place(own);
                write_read(place, found, answers);
                let thread = Thread::Written { own };
                return Stepped { thread, counters };
            }
            Thread::LookedUp { own, found }
        }
        Thread::LookedUp { own, found } => {
            let item = graph.item(own);
            let place = graph.place(own);
            save(item, place, keys, chutes, counters.used, image);
            let used = write(item, place, found, keys, chutes, answers, counters.used);
            let limit = limit_after(item, counters.limit);
            let thread = Thread::Written { own };
            let counters = Counters {
                used,
                limit,
                ..counters
            };
            return Stepped { thread, counters };
        }
        Thread::Written { own } => graph.enter(thread, Thread::Walking { at: Node(0), own }),
        Thread::Walking { at, own } => graph.walk(at, own),
        Thread::Clearing { at, own } => {
            let cleared = graph.clear(at, own, counters.free);
            let thread = cleared.thread;
            let free = cleared.free;
            let counters = Counters { free, ..counters };
            return Stepped { thread, counters };
        }
    };
    Stepped { thread, counters }
}
