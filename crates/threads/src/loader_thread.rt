// The loader's step: idle it loads the next command, else it walks.
ghost use Rattle.std.specs.Prelude.{List, [], ℕ};
ghost use Rattle.model.specs.declared.Thread.TheVariants.{Idle};
ghost use Rattle.graph.specs.Memory.{Ready, Steps, memory};

use crate::Stepped;
use command::Seq;
use graph::{Graph, command_at};
use model::{Counters, Thread};
use node_set::Node;

// An idle loader's step: it waits, or takes a node for the next command, keeps the command and stands on the head.
fn load_next(graph: &mut Graph, answers: &[u16], list: &[u8], counters: Counters) -> Stepped
    requires { Ready list.now (memory graph.old [] [] answers.now [] counters) Idle }
    ensures { (keys chutes image : List ℕ) → Steps list.now 0 Idle (memory graph.old keys chutes answers.now image counters)
        result.thread (memory graph.new keys chutes answers.now image result.counters) }
{
    let count = answers.len();
    let loaded = counters.loaded;
    let own = counters.free;
    if count <= loaded.0 || own.0 == 0 || graph.locked[0] {
        return Stepped {
            thread: Thread::Idle,
            counters,
        };
    }
    let loaded = Seq(loaded.0 + 1);
    let command = command_at(list, loaded);
    let free = graph.load(own, loaded, command);
    Stepped {
        thread: Thread::Loading { at: Node(0), own },
        counters: Counters {
            free,
            loaded,
            ..counters
        },
    }
}

// One step of the loader, which is in state `thread`.
pub fn loader_step(
    graph: &mut Graph,
    answers: &[u16],
    list: &[u8],
    thread: Thread,
    counters: Counters,
) -> Stepped
    requires { Ready list.now (memory graph.old [] [] answers.now [] counters) thread }
    ensures { (keys chutes image : List ℕ) → Steps list.now 0 thread (memory graph.old keys chutes answers.now image counters)
        result.thread (memory graph.new keys chutes answers.now image result.counters) }
{
    match thread {
        Thread::Idle => load_next(graph, answers, list, counters),
        Thread::Loading { at, own } => {
            let thread = graph.loader_walk(at, own);
            Stepped { thread, counters }
        }
        _ => Stepped { thread, counters },
    }
}
