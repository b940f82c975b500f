// Worker status: the state and the own node of each worker, as structs and as bytes.
ghost use Rattle.std.specs.Prelude.{◌≡◌, cond, ◌++◌, ℕ, suc, ◌≤◌, ◌<◌, eqb, length, drop};
ghost use Rattle.model.specs.Step.{State};
ghost use Rattle.byte_fields.specs.Bytes.{tabulate};
ghost use Rattle.state_bytes.specs.Layout.{at_entry, Lists, state_length, state_in};
ghost use Rattle.s10.specs.Refusal.{plain};
ghost use Rattle.panel.specs.Reports.{report_of, report_refusal, report_number, report_left, status_of, IsStatusOf, reported, IsNumberOf, worker_status, worker_status_bytes, largest_in};

use crate::{WorkerState, WorkerStatus};
use model::Thread;
use node_set::Node;
use state_bytes::{LARGEST, Reason, tested, thread_at};

// How many entries the report has, and how many bytes it is.
const WORKERS_SHOWN: usize = 64;

const STATUS_BYTES: usize = 128;

// What is shown where there is no worker.
const IDLE: WorkerStatus = WorkerStatus {
    state: WorkerState::Idle,
    own: Node(0),
};

impl From<Thread> for WorkerStatus {
    ghost from_gives = { IsStatusOf };

    // What the panel shows of a thread.
    #[tactic(auto, unfolding(crate::specs::Reports::status_of))]
    fn from(thread: Thread) -> WorkerStatus {
        let (state, own) = match thread {
            Thread::Idle | Thread::Loading { at: _, own: _ } => (WorkerState::Idle, Node(0)),
            Thread::Searching { at: _ } => (WorkerState::Searching, Node(0)),
            Thread::Holding { own } => (WorkerState::Holding, own),
            Thread::LookedUp { own, found: _ } => (WorkerState::LookedUp, own),
            Thread::Written { own } => (WorkerState::Written, own),
            Thread::Walking { at: _, own } => (WorkerState::Walking, own),
            Thread::Clearing { at: _, own } => (WorkerState::Clearing, own),
        };
        WorkerStatus { state, own }
    }
}

// The status of one worker; one past the worker count is idle.
#[tactic(auto, unfolding(state_bytes::specs::Layout::state_length))]
fn status_at(state: &[u8], worker: usize) -> WorkerStatus
    requires { (length state.now ≡ state_length) × (worker ≤ 64) }
    ensures { (l : Lists) → l.state ≡ state.now → result ≡ status_of (reported (largest_in state.now) (state_in l) worker) }
{
    let largest = state[LARGEST] as usize;
    if worker > largest {
        return IDLE;
    }
    WorkerStatus::from(thread_at(state, worker))
}

impl From<WorkerState> for u8 {
    ghost from_gives = { IsNumberOf };

    // The number of a worker's state.
    #[tactic(auto, unfolding(crate::specs::Reports::state_number))]
    fn from(state: WorkerState) -> u8 {
        match state {
            WorkerState::Idle => 0,
            WorkerState::Searching => 2,
            WorkerState::Holding => 3,
            WorkerState::LookedUp => 4,
            WorkerState::Written => 5,
            WorkerState::Walking => 6,
            WorkerState::Clearing => 7,
        }
    }
}

// Writes the status of each worker.
fn write_status(state: &[u8], status: &mut [WorkerStatus])
    requires { (length state.now ≡ state_length) × (length status.old ≡ 64) }
    ensures { (l : Lists) → l.state ≡ state.now → status.new ≡ worker_status (largest_in state.now) (state_in l) }
{
    for (i, entry) in status.iter_mut().enumerate() {
        *entry = status_at(state, i + 1);
    }
}

// The status of every worker, in the caller's list of structs. A refusal leaves the list as it was.
pub fn worker_status(
    state: &[u8],
    keys: &[u64],
    chutes: &[u16],
    answers: &[u16],
    commands: &[u8],
    status: &mut [WorkerStatus],
) -> Result<(), Reason>
    ensures refusal { report_refusal result ≡ plain (report_number (at_entry state keys chutes answers) commands.now (length status.old) 64) }
    ensures left { status.new ≡ report_left (report_of result) (worker_status (largest_in state.now) (state_in (at_entry state keys chutes answers))) status.old }
{
    tested(
        state,
        keys,
        chutes.len(),
        answers.len(),
        commands.len(),
        status.len() == WORKERS_SHOWN,
    )?;
    write_status(state, status);
    Ok(())
}

// Writes two bytes a worker: the number of its state, and its own node.
fn write_entries(status: &[WorkerStatus; 64], bytes: &mut [u8])
    requires { length bytes.old ≡ 128 }
    ensures { (workers : ℕ) (s : State) → status.now ≡ worker_status workers s → bytes.new ≡ worker_status_bytes workers s }
{
    for (i, entry) in status.iter().enumerate() {
        bytes[2 * i] = u8::from(entry.state);
        bytes[2 * i + 1] = entry.own.0;
    }
}

// The status of every worker as bytes, for callers that have no structs. A refusal leaves the list as it was.
pub fn worker_status_bytes(
    state: &[u8],
    keys: &[u64],
    chutes: &[u16],
    answers: &[u16],
    commands: &[u8],
    bytes: &mut [u8],
) -> Result<(), Reason>
    ensures refusal { report_refusal result ≡ plain (report_number (at_entry state keys chutes answers) commands.now (length bytes.old) 128) }
    ensures left { bytes.new ≡ report_left (report_of result) (worker_status_bytes (largest_in state.now) (state_in (at_entry state keys chutes answers))) bytes.old }
{
    if bytes.len() != STATUS_BYTES {
        return Err(Reason::WrongLength);
    }
    let mut status = [IDLE; WORKERS_SHOWN];
    worker_status(state, keys, chutes, answers, commands, &mut status)?;
    write_entries(&status, bytes);
    Ok(())
}
