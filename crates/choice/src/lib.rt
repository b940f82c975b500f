// The dispatcher's choice: which thread steps next, by the threads and the table's nodes.
#![tactic(auto)]

ghost use Rattle.std.specs.Prelude.{◌≡◌, false, ℕ, ◌≤◌, get_or};
ghost use Rattle.model.specs.declared.Thread.TheVariants.{Idle};
ghost use Rattle.model.specs.Dispatch.{rank, foremost, goes_on};
ghost use Rattle.graph.specs.Arrays.{numbers, NodesWithin};
ghost use Rattle.choice.specs.Chosen.{NamesThread, Served, Fresh, Follows};

use graph::Graph;
use model::Thread;

// What comes next: the thread that steps, if one does; settled once no other thread may be at work.
#[derive(Clone, Copy)]
pub struct Plan {
    pub next: Option<u8>,
    pub settled: bool,
}

// Who goes first: a thread that stands further along the chain, then one that has a node and stands nowhere; 0 for an idle one.
#[tactic(auto, unfolding(model::specs::Dispatch::rank))]
fn rank_of(seq: &[u16; 151], thread: Thread) -> usize
    requires { NodesWithin thread }
    ensures { result ≡ rank (numbers seq.now) thread }
{
    match thread {
        Thread::Idle => 0,
        Thread::Holding { own: _ }
        | Thread::LookedUp { own: _, found: _ }
        | Thread::Written { own: _ } => 1,
        Thread::Loading { at, own: _ }
        | Thread::Searching { at }
        | Thread::Walking { at, own: _ }
        | Thread::Clearing { at, own: _ } => 2 + seq[at.0 as usize] as usize,
    }
}

// The first thread, up to the largest worker count, that has the largest rank.
fn foremost_of(seq: &[u16; 151], threads: &[Thread; 65], largest: u8) -> u8
    requires { ((t : ℕ) → NodesWithin (get_or threads.now t Idle)) × (largest ≤ 64) }
    ensures { result ≡ foremost (λ t. rank (numbers seq.now) (get_or threads.now t Idle)) largest }
{
    let mut best = 0;
    let mut highest = rank_of(seq, threads[0]);
    for before in 0..largest {
        let t = before + 1;
        let r = rank_of(seq, threads[t as usize]);
        if highest < r {
            best = t;
            highest = r;
        }
    }
    best
}

// Whether the thread that stepped last goes on: while it stands in the chain, and once settled, until it is idle.
#[tactic(auto, unfolding(model::specs::Dispatch::goes_on, model::specs::Dispatch::stands, model::specs::Dispatch::is_idle, model::specs::Dispatch::rank))]
pub fn goes_on(settled: bool, thread: Thread) -> bool
    ensures { result ≡ goes_on settled thread }
{
    match thread {
        Thread::Idle => false,
        Thread::Holding { own: _ }
        | Thread::LookedUp { own: _, found: _ }
        | Thread::Written { own: _ } => settled,
        Thread::Loading { at: _, own: _ }
        | Thread::Searching { at: _ }
        | Thread::Walking { at: _, own: _ }
        | Thread::Clearing { at: _, own: _ } => true,
    }
}

// Where all threads are idle: worker 1 takes the first node of the chain; where there is none, the loader loads the next
// command, if one is left.
#[tactic(auto, unfolding(model::specs::Dispatch::served))]
pub fn served(first: u8, loaded: usize, count: usize) -> Plan
    ensures { Served first loaded count result }
{
    let next = if first != 0 {
        Some(1)
    } else if loaded < count {
        Some(0)
    } else {
        None
    };
    Plan {
        next,
        settled: true,
    }
}

// The foremost of all threads, unless all are idle.
pub fn look_around(
    graph: &Graph,
    threads: &[Thread; 65],
    loaded: usize,
    count: usize,
    largest: u8,
) -> Plan
    requires { ((t : ℕ) → NodesWithin (get_or threads.now t Idle)) × (largest ≤ 64) }
    ensures { Fresh false graph.now threads.now loaded count largest result }
{
    let t = foremost_of(&graph.seq, threads, largest);
    if rank_of(&graph.seq, threads[t as usize]) == 0 {
        return served(graph.next[0], loaded, count);
    }
    Plan {
        next: Some(t),
        settled: false,
    }
}

// What comes next after the step of a plan's thread: that thread while it goes on, and then another. All threads are looked at only where no
// thread goes on and the plan is not settled.
pub fn plan_after(
    plan: Plan,
    graph: &Graph,
    threads: &[Thread; 65],
    loaded: usize,
    count: usize,
    largest: u8,
) -> Plan
    requires { ((t : ℕ) → NodesWithin (get_or threads.now t Idle)) × (largest ≤ 64) × NamesThread plan }
    ensures { Follows plan graph.now threads.now loaded count largest result }
{
    if let Some(t) = plan.next {
        if goes_on(plan.settled, threads[t as usize]) {
            return plan;
        }
    }
    if plan.settled {
        return served(graph.next[0], loaded, count);
    }
    look_around(graph, threads, loaded, count, largest)
}
