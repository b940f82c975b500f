// The tests of refusals 6, 12 and 11 on a handed-back state.
ghost use Rattle.std.specs.Prelude.{◌≡◌, true, cond, not, ◌&&◌, ◌||◌, Bool, List, ℕ, ◌≤◌, length, get_or, eqb, leb};
ghost use Rattle.model.specs.Statement.{all_within};
ghost use Rattle.byte_fields.specs.Bytes.{all_below};
ghost use Rattle.state_bytes.specs.Outcome.{tested_number};
ghost use Rattle.state_bytes.specs.Layout.{Lists, setup_in, state_length, head_fits, settings_fit, node_fits_at, thread_fits, thread_fits_at, ascends, state_fits, handed_back_fit, image_fits};

use crate::Reason;
use crate::layout::{
    CAPACITY, CHAIN, COUNT, EXECUTING, FREE, LARGEST, LIMIT, LOADED, LOCK_COUPLED, LOCKED, NEXT,
    SEQ, SIZE, STATE_LENGTH, THREADS, USED, WORKERS,
};
use crate::read::set_at;
use byte_fields::number_at;
use image::SLOT;

// Refusal 6: whether the lists are as long as the state's own settings say.
pub fn lengths_fit(
    state: &[u8],
    answers: usize,
    keys: usize,
    chutes: usize,
    commands: usize,
) -> bool
    ensures { (l : Lists) (list : List ℕ) → l.state ≡ state.now → length l.answers ≡ answers → length l.keys ≡ keys → length l.chutes ≡ chutes → length list ≡ commands → handed_back_fit l list ≡ result }
{
    if state.len() != STATE_LENGTH {
        return false;
    }
    let capacity = number_at(state, CAPACITY) as usize;
    let count = number_at(state, COUNT) as usize;
    answers == count && keys == capacity && chutes == capacity && commands == 16 * count
}

// The same for the image, where the other lists fit.
pub fn image_fits(state: &[u8], image: usize) -> bool
    ensures { (l : Lists) (list : List ℕ) → l.state ≡ state.now → length l.image ≡ image → handed_back_fit l list ≡ true → image_fits (setup_in l.state list).capacity l ≡ result }
{
    if state.len() != STATE_LENGTH {
        return false;
    }
    let capacity = number_at(state, CAPACITY) as usize;
    image == SLOT * (capacity + 1)
}

// Whether the settings and the number of commands are in range.
#[tactic(auto, unfolding(crate::specs::Layout::settings_fit))]
fn settings_fit(size: u8, workers: u8, largest: u8, capacity: u16, count: u16) -> bool
    ensures { result ≡ settings_fit size workers largest capacity count }
{
    (1..=150).contains(&size)
        && (1..=64).contains(&workers)
        && (1..=64).contains(&largest)
        && (1..=4096).contains(&capacity)
        && count <= 4096
}

// Whether next index, sequence number, state, lock and set of node n are in range.
#[tactic(auto, unfolding(crate::specs::Layout::state_length, crate::specs::Layout::node_fits_at))]
fn node_fits(state: &[u8], size: u8, count: u16, n: usize) -> bool
    requires { (length state.now ≡ state_length) × (n ≤ 150) }
    ensures { result ≡ node_fits_at state.now size count n }
{
    state[NEXT + n] <= size
        && number_at(state, SEQ + 2 * n) <= count
        && state[EXECUTING + n] <= 1
        && state[LOCKED + n] <= 1
        && set_at(state, n).is_within(size)
}

// Whether every node fits.
fn nodes_fit(state: &[u8], size: u8, count: u16) -> bool
    requires { length state.now ≡ state_length }
    ensures { result ≡ all_below 151 (node_fits_at state.now size count) }
{
    (0..151).all(|n| node_fits(state, size, count, n))
}

// Whether thread t can be in the state with a number: the loader is idle or loading, and a worker is never loading.
fn tag_fits(t: usize, tag: u8) -> bool
    ensures { result ≡ cond (eqb t 0) (leb tag 1) (not (eqb tag 1)) }
{
    if t == 0 { tag <= 1 } else { tag != 1 }
}

// Whether the node at which a thread stands is 0 in a state that has none.
fn at_fits(tag: u8, at: u8) -> bool
    ensures { result ≡ (eqb tag 1 || eqb tag 2 || eqb tag 6 || eqb tag 7 || eqb at 0) }
{
    matches!(tag, 1 | 2 | 6 | 7) || at == 0
}

// Whether a thread's own node is 0 in a state that has none.
fn own_fits(tag: u8, own: u8) -> bool
    ensures { result ≡ (eqb tag 1 || eqb tag 3 || eqb tag 4 || eqb tag 5 || eqb tag 6 || eqb tag 7 || eqb own 0) }
{
    matches!(tag, 1 | 3 | 4 | 5 | 6 | 7) || own == 0
}

// Whether what a thread found is 0 in a state that has looked nothing up.
fn found_fits(tag: u8, found: u16) -> bool
    ensures { result ≡ (eqb tag 4 || eqb found 0) }
{
    tag == 4 || found == 0
}

// Whether a thread's state is one of those named, with nodes up to the graph size, and 0 for what it has none of.
#[tactic(auto, unfolding(crate::specs::Layout::thread_fits))]
fn thread_fits(size: u8, t: usize, tag: u8, at: u8, own: u8, found: u16) -> bool
    ensures { result ≡ thread_fits size t tag at own found }
{
    tag <= 7
        && at <= size
        && own <= size
        && tag_fits(t, tag)
        && at_fits(tag, at)
        && own_fits(tag, own)
        && found_fits(tag, found)
}

// Whether thread t fits.
#[tactic(auto, unfolding(crate::specs::Layout::state_length, crate::specs::Layout::thread_fits_at))]
fn thread_fits_at(state: &[u8], size: u8, t: usize) -> bool
    requires { (length state.now ≡ state_length) × (t ≤ 64) }
    ensures { result ≡ thread_fits_at state.now size t }
{
    let from = THREADS + 5 * t;
    let found = number_at(state, from + 3);
    thread_fits(
        size,
        t,
        state[from],
        state[from + 1],
        state[from + 2],
        found,
    )
}

// Whether every thread fits.
fn threads_fit(state: &[u8], size: u8) -> bool
    requires { length state.now ≡ state_length }
    ensures { result ≡ all_below 65 (thread_fits_at state.now size) }
{
    (0..65).all(|t| thread_fits_at(state, size, t))
}

// Whether the keys of the first `used` places ascend. Past the end of the list every key is 0, so that two places there never do.
fn keys_ascend(keys: &[u64], used: u16) -> bool
    ensures { result ≡ ascends used keys.now }
{
    match keys.get(..used as usize) {
        Some(keys) => keys.is_sorted_by(|key, next| key < next),
        None => used <= 1,
    }
}

// Whether the chain is the lock-coupled one, and the worker count in force from 1 to the largest.
#[tactic(auto, unfolding(crate::specs::Layout::head_fits, crate::specs::Layout::lock_coupled))]
fn head_fits(chain: u8, limit: u8, largest: u8) -> bool
    ensures { result ≡ head_fits chain limit largest }
{
    chain == LOCK_COUPLED && 1 <= limit && limit <= largest
}

// Refusal 12: whether chain, settings, counters, nodes, threads and store are in range.
#[tactic(auto, unfolding(crate::specs::Layout::state_length))]
pub fn state_fits(state: &[u8], keys: &[u64]) -> bool
    requires { length state.now ≡ state_length }
    ensures { (l : Lists) → l.state ≡ state.now → l.keys ≡ keys.now → state_fits l ≡ result }
{
    let chain = state[CHAIN];
    let size = state[SIZE];
    let workers = state[WORKERS];
    let largest = state[LARGEST];
    let free = state[FREE];
    let limit = state[LIMIT];
    let capacity = number_at(state, CAPACITY);
    let count = number_at(state, COUNT);
    let loaded = number_at(state, LOADED);
    let used = number_at(state, USED);
    head_fits(chain, limit, largest)
        && settings_fit(size, workers, largest, capacity, count)
        && loaded <= count
        && free <= size
        && nodes_fit(state, size, count)
        && threads_fit(state, size)
        && used <= capacity
        && keys_ascend(keys, used)
}

// Refusal 11: whether every byte of a schedule names a thread up to the worker count. The largest byte decides: a loop with one way out is
// compiled to take many bytes at a time.
pub fn threads_named(schedule: &[u8], workers: u8) -> bool
    ensures { result ≡ all_within workers schedule.now }
{
    let mut largest = 0;
    for t in schedule {
        largest = largest.max(*t);
    }
    largest <= workers
}

// The tests of a handed-back state, 6 and then 12, where the call's other lists are as long as they must be or are not.
pub fn tested(
    state: &[u8],
    keys: &[u64],
    chutes: usize,
    answers: usize,
    commands: usize,
    others_fit: bool,
) -> Result<(), Reason>
    ensures { (l : Lists) (list : List ℕ) → l.state ≡ state.now → l.keys ≡ keys.now → length l.chutes ≡ chutes → length l.answers ≡ answers → length list ≡ commands
        → tested_number result ≡ cond (handed_back_fit l list && others_fit) (cond (state_fits l) 0 12) 6 }
{
    if !lengths_fit(state, answers, keys.len(), chutes, commands) || !others_fit {
        return Err(Reason::WrongLength);
    }
    if !state_fits(state, keys) {
        return Err(Reason::WrongState);
    }
    Ok(())
}
