// The steps of a handed-back state: its bytes read into a graph and threads, the steps of a schedule, or those that the dispatcher chooses, made on
// these, and the bytes written again.
#![tactic(auto)]

ghost use Rattle.std.specs.Prelude.{◌≡◌, ℕ, ◌+◌, ◌^◌, ◌<◌, ◌≤◌, length, get_or};
ghost use Rattle.model.specs.declared.Thread.TheVariants.{Idle};
ghost use Rattle.choice.specs.declared.Plan.{Plan};
ghost use Rattle.choice.specs.Chosen.{NamesThread};
ghost use Rattle.graph.specs.Arrays.{NodesWithin};
ghost use Rattle.graph.specs.Memory.{memory};
ghost use Rattle.state_bytes.specs.Layout.{all_lists, all_at_entry, all_at_exit, state_length};
ghost use Rattle.runner.specs.Performed.{CountersIn, SettingsIn, given, order_of, Named, most, PlannedBy, noted_in, CallPasses, Ran, Ahead, Performs, Performed};

use byte_fields::number_at;
use choice::{Plan, plan_after};
use command::Seq;
use graph::Graph;
use model::{Counters, Thread};
use node_set::Node;
use state_bytes::{
    CAPACITY, COUNT, FREE, LARGEST, LIMIT, LOADED, SIZE, Settings, USED, WORKERS, read_graph,
    read_threads, write_state,
};

// The settings of the state bytes.
#[tactic(auto, unfolding(state_bytes::specs::Layout::state_length))]
fn settings_in(state: &[u8]) -> Settings
    requires { length state.now ≡ state_length }
    ensures { SettingsIn state.now result }
{
    Settings {
        size: state[SIZE],
        workers: state[WORKERS],
        largest: state[LARGEST],
        capacity: number_at(state, CAPACITY),
        count: number_at(state, COUNT),
    }
}

// The counters of the state bytes.
#[tactic(auto, unfolding(state_bytes::specs::Layout::state_length))]
fn counters_in(state: &[u8]) -> Counters
    requires { length state.now ≡ state_length }
    ensures { CountersIn state.now result }
{
    let free = Node(state[FREE]);
    let loaded = Seq(number_at(state, LOADED) as usize);
    Counters {
        free,
        loaded,
        used: number_at(state, USED) as usize,
        limit: state[LIMIT] as usize,
    }
}

// The steps to make: those of a schedule, or those that the dispatcher chooses, at most so many.
#[derive(Clone, Copy)]
pub enum Order<'a> {
    Given(&'a [u8]),
    Chosen(usize),
}

// Reads the state bytes, makes the steps of a schedule, or those that the dispatcher chooses, on what they show, and writes the
// state. Chosen steps go into the lent list, at most so many. How many steps there were.
pub fn run(
    state: &mut [u8],
    keys: &mut [u64],
    chutes: &mut [u16],
    answers: &mut [u16],
    image: &mut [u8],
    commands: &[u8],
    order: Order<'_>,
    lent: &mut [u8],
) -> usize
    requires { CallPasses (all_lists state.old keys.old chutes.old answers.old image.old) commands.now (order_of order) lent.old }
    ensures { Ran (all_at_entry state keys chutes answers image) commands.now (order_of order.entry) lent.old (all_at_exit state keys chutes answers image) lent.new result }
{
    let settings = settings_in(state);
    let counters = counters_in(state);
    let mut graph = read_graph(state);
    let mut threads = read_threads(state);
    graph.keep_all(commands);
    perform(
        state,
        keys,
        chutes,
        answers,
        image,
        commands,
        order,
        lent,
        settings,
        counters,
        &mut graph,
        &mut threads,
    )
}

// How many threads are kept ahead. They stand in an array with their count beside it: with a test of the order in the loop over them it was 5 to 6 %
// slower.
const AHEAD: usize = 256;

// Copies the next threads of a schedule, as many as are kept ahead or as are left. How many.
fn copy_ahead(ahead: &mut [u8], schedule: &[u8], done: usize) -> usize
    requires { (length ahead.old ≡ 256) × (done ≤ length schedule.now) }
    ensures ahead { (plan : Plan) → Ahead (given schedule.now) plan done ahead.new result }
    ensures fits { done + result < 2 ^ 64 }
{
    let n = AHEAD.min(schedule.len() - done);
    ahead[..n].copy_from_slice(&schedule[done..done + n]);
    n
}

// The threads whose steps come next, where so many are done: the schedule's, or the chosen one, if one is to come, which goes into
// the lent list. How many.
fn look_ahead(ahead: &mut [u8], lent: &mut [u8], order: Order<'_>, plan: Plan, done: usize) -> usize
    requires { (length ahead.old ≡ 256) × (done ≤ most (order_of order)) × Named 64 (order_of order) lent.old }
    ensures ahead { Ahead (order_of order.entry) plan done ahead.new result }
    ensures noted { lent.new ≡ noted_in (order_of order.entry) ahead.new done result lent.old }
    ensures fits { done + result < 2 ^ 64 }
{
    match order {
        Order::Given(schedule) => copy_ahead(ahead, schedule, done),
        Order::Chosen(limit) => {
            let Some(t) = plan.next else {
                return 0;
            };
            if done < limit {
                ahead[0] = t;
                lent[done] = t;
                return 1;
            }
            0
        }
    }
}

// The plan of what comes next: what follows the step of the last plan's thread, where the dispatcher chooses.
fn planned(
    order: Order<'_>,
    plan: Plan,
    graph: &Graph,
    threads: &[Thread; 65],
    loaded: usize,
    count: usize,
    largest: u8,
) -> Plan
    requires { ((t : ℕ) → NodesWithin (get_or threads.now t Idle)) × (largest ≤ 64) × NamesThread plan }
    ensures { PlannedBy (order_of order.entry) plan graph.now threads.now loaded count largest result }
{
    match order {
        Order::Given(_) => plan,
        Order::Chosen(_) => plan_after(plan, graph, threads, loaded, count, largest),
    }
}

// Makes the steps on the graph, and writes the state that it then shows. How many there were.
fn perform(
    state: &mut [u8],
    keys: &mut [u64],
    chutes: &mut [u16],
    answers: &mut [u16],
    image: &mut [u8],
    commands: &[u8],
    order: Order<'_>,
    lent: &mut [u8],
    settings: Settings,
    mut counters: Counters,
    graph: &mut Graph,
    threads: &mut [Thread; 65],
) -> usize
    requires { Performs state.old commands.now (order_of order) lent.old settings (memory graph.old keys.old chutes.old answers.old image.old counters) threads.old }
    ensures { Performed settings commands.now (order_of order.entry) lent.old (memory graph.old keys.old chutes.old answers.old image.old counters) threads.old (all_at_exit state keys chutes answers image) lent.new result }
{
    let count = settings.count as usize;
    let mut plan = Plan {
        next: None,
        settled: false,
    };
    let mut ahead = [0u8; AHEAD];
    let mut done = 0;
    loop {
        let loaded = counters.loaded.0;
        plan = planned(order, plan, graph, threads, loaded, count, settings.largest);
        let n = look_ahead(&mut ahead, lent, order, plan, done);
        if n == 0 {
            break;
        }
        for j in 0..n {
            let t = ahead[j];
            let place = t as usize;
            let thread = threads[place];
            let r = threads::step(
                graph, keys, chutes, answers, image, commands, t, thread, counters,
            );
            threads[place] = r.thread;
            counters = r.counters;
        }
        done += n;
    }
    write_state(state, settings, counters, graph, threads);
    done
}
