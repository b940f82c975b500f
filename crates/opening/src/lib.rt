// Opening: the tests in order, then the opening state, the store empty or with an image's entries, and lists of zeros.
#![tactic(auto)]

ghost use Rattle.std.specs.Prelude.{◌≡◌, true, ◌&&◌, ℕ, ◌≤◌, ◌/◌, length, get_or, eqb, option_copied, IfOk};
ghost use Rattle.model.specs.Store.{lay_out};
ghost use Rattle.model.specs.Image.{image_length};
ghost use Rattle.model.specs.Graph.{first_next};
ghost use Rattle.store.specs.Lists.{store_of};
ghost use Rattle.state_bytes.specs.Layout.{all_lists, all_at_exit, all_at_entry, state_length, lengths_fit, image_fits};
ghost use Rattle.state_bytes.specs.Outcome.{CallOutcome, refusal_in, kept};
ghost use Rattle.opening.specs.Calls.{RefusedFor, IsWrongCommand, opening_refusal, open_on, setup_of};
ghost use Rattle.opening.specs.Calls.{nothing, image_from, source_long, source_chained, first_entries};
ghost use Rattle.opening.specs.Opened.{outcome_of, outcome_after, after_numbers, after_lists, after_source, Admitted, LaysOpened, source_of};

use command::{Command, Refused, Seq};
use graph::Graph;
use image::{SLOT, chain_fits, read_image, slots_fit};
use model::{Counters, Thread};
use node_set::{Node, NodeSet};
use s10::Refusal;
use state_bytes::{STATE_LENGTH, Settings, write_state};

// Why an opening is refused.
#[derive(Clone, Copy, Debug, PartialEq, Eq)]
pub enum Reason {
    WrongGraphSize,
    WrongWorkers,
    WrongCapacity,
    WrongListLength,
    TooManyCommands,
    WrongLength,
    WrongChain,
    WrongSlot,
    WrongCommand(Refused),
}

impl From<Refused> for Reason {
    ghost from_gives = { IsWrongCommand };

    fn from(refused: Refused) -> Reason {
        Reason::WrongCommand(refused)
    }
}

impl From<Reason> for Refusal {
    ghost from_gives = { RefusedFor };

    fn from(reason: Reason) -> Refusal {
        match reason {
            Reason::WrongGraphSize => Refusal::plain(1),
            Reason::WrongWorkers => Refusal::plain(2),
            Reason::WrongCapacity => Refusal::plain(3),
            Reason::WrongListLength => Refusal::plain(4),
            Reason::TooManyCommands => Refusal::plain(5),
            Reason::WrongLength => Refusal::plain(6),
            Reason::WrongChain => Refusal::plain(15),
            Reason::WrongSlot => Refusal::plain(16),
            Reason::WrongCommand(refused) => Refusal::from(refused),
        }
    }
}

// What the settings and the list may be at most; each setting is at least 1.
const LARGEST_SIZE: u64 = 150;

const MOST_WORKERS: u64 = 64;

const LARGEST_CAPACITY: u64 = 4096;

const MOST_COMMANDS: usize = 4096;

// Opens a list of commands, with an empty store. A refusal leaves every list as it was. The lists are parameters of their own, as
// this public call has promised of them (`all_at_entry`, `all_at_exit`).
pub fn open(
    state: &mut [u8],
    keys: &mut [u64],
    chutes: &mut [u16],
    answers: &mut [u16],
    image: &mut [u8],
    commands: &[u8],
    size: u64,
    workers: u64,
    capacity: u64,
) -> Result<(), Reason>
    ensures refusal { opening_refusal result ≡ refusal_in (open_on size workers capacity commands.now nothing (all_at_entry state keys chutes answers image)) }
    ensures left { all_at_exit state keys chutes answers image ≡ kept (open_on size workers capacity commands.now nothing (all_at_entry state keys chutes answers image)) (all_at_entry state keys chutes answers image) }
{
    open_with(
        state, keys, chutes, answers, image, commands, None, size, workers, capacity,
    )
}

// Opens a list of commands, with the store that an image holds. A refusal leaves every list as it was.
pub fn open_from(
    state: &mut [u8],
    keys: &mut [u64],
    chutes: &mut [u16],
    answers: &mut [u16],
    image: &mut [u8],
    commands: &[u8],
    source: &[u8],
    size: u64,
    workers: u64,
    capacity: u64,
) -> Result<(), Reason>
    ensures refusal { opening_refusal result ≡ refusal_in (open_on size workers capacity commands.now (image_from source.now) (all_at_entry state keys chutes answers image)) }
    ensures left { all_at_exit state keys chutes answers image ≡ kept (open_on size workers capacity commands.now (image_from source.now) (all_at_entry state keys chutes answers image)) (all_at_entry state keys chutes answers image) }
{
    open_with(
        state,
        keys,
        chutes,
        answers,
        image,
        commands,
        Some(source),
        size,
        workers,
        capacity,
    )
}

// Opens a list of commands, with the store of an image if there is one. A refusal leaves every list as it was. The archive for C
// keeps its name, for debuggers.
#[inline(never)]
#[tactic(auto, unfolding(state_bytes::specs::Outcome::refusal_in, state_bytes::specs::Outcome::kept))]
pub fn open_with(
    state: &mut [u8],
    keys: &mut [u64],
    chutes: &mut [u16],
    answers: &mut [u16],
    image: &mut [u8],
    commands: &[u8],
    source: Option<&[u8]>,
    size: u64,
    workers: u64,
    capacity: u64,
) -> Result<(), Reason>
    ensures refusal { opening_refusal result ≡ refusal_in (open_on size workers capacity commands.now (source_of (option_copied source.entry)) (all_at_entry state keys chutes answers image)) }
    ensures left { all_at_exit state keys chutes answers image ≡ kept (open_on size workers capacity commands.now (source_of (option_copied source.entry)) (all_at_entry state keys chutes answers image)) (all_at_entry state keys chutes answers image) }
{
    let largest = tested(
        state, keys, chutes, answers, image, commands, source, size, workers, capacity,
    )?;
    let settings = Settings {
        size: size as u8,
        workers: workers as u8,
        largest: largest as u8,
        capacity: capacity as u16,
        count: answers.len() as u16,
    };
    let used = fill_store(source, keys, chutes);
    write_opened(state, settings, used);
    answers.fill(0);
    image.fill(0);
    Ok(())
}

// Tests 1 to 6 in the order of document 01, 15 and 16 of an image to open from, then each command for 7, 8 or 13, 9 and 10
// or 14: the largest worker count of the opening and the list.
#[tactic(auto, unfolding(crate::specs::Calls::open_on, crate::specs::Calls::opened_with))]
fn tested(
    state: &[u8],
    keys: &[u64],
    chutes: &[u16],
    answers: &[u16],
    image: &[u8],
    commands: &[u8],
    source: Option<&[u8]>,
    size: u64,
    workers: u64,
    capacity: u64,
) -> Result<u64, Reason>
    ensures outcome { open_on size workers capacity commands.now (source_of (option_copied source.entry)) (all_lists state.now keys.now chutes.now answers.now image.now) ≡ outcome_of result (setup_of size workers capacity commands.now (source_of (option_copied source.entry))) }
    ensures admitted { IfOk result (λ n. Admitted n (setup_of size workers capacity commands.now (source_of (option_copied source.entry))) (source_of (option_copied source.entry)) (all_lists state.now keys.now chutes.now answers.now image.now)) }
{
    let count = test_numbers(commands, size, workers, capacity)?;
    test_lists(state, keys, chutes, answers, image, source, capacity, count)?;
    let most = command::read_list(commands)?;
    Ok(workers.max(most as u64))
}

// Tests 1 to 5, of the numbers and the length of the list: how many commands it has.
fn test_numbers(commands: &[u8], size: u64, workers: u64, capacity: u64) -> Result<usize, Reason>
    ensures outcome { (rest : CallOutcome) → after_numbers size workers capacity commands.now rest ≡ outcome_after result rest }
    ensures count { IfOk result (λ n. (n ≡ length commands.now / 16) × (capacity ≤ 4096)) }
{
    if !(1..=LARGEST_SIZE).contains(&size) {
        return Err(Reason::WrongGraphSize);
    }
    if !(1..=MOST_WORKERS).contains(&workers) {
        return Err(Reason::WrongWorkers);
    }
    if !(1..=LARGEST_CAPACITY).contains(&capacity) {
        return Err(Reason::WrongCapacity);
    }
    if commands.len() % Command::LENGTH != 0 {
        return Err(Reason::WrongListLength);
    }
    let count = commands.len() / Command::LENGTH;
    if count > MOST_COMMANDS {
        return Err(Reason::TooManyCommands);
    }
    Ok(count)
}

// Test 6 of the lent lists, then those of an image to open from.
#[tactic(auto, unfolding(crate::specs::Calls::source_long, crate::specs::Calls::source_chained, crate::specs::Calls::source_fits))]
fn test_lists(
    state: &[u8],
    keys: &[u64],
    chutes: &[u16],
    answers: &[u16],
    image: &[u8],
    source: Option<&[u8]>,
    capacity: u64,
    count: usize,
) -> Result<(), Reason>
    requires { capacity ≤ 4096 }
    ensures { (rest : CallOutcome) → after_lists capacity count (source_of (option_copied source.entry)) (all_lists state.now keys.now chutes.now answers.now image.now) rest ≡ outcome_after result rest }
{
    if !lengths_fit(state, keys, chutes, answers, image, capacity, count) {
        return Err(Reason::WrongLength);
    }
    match source {
        Some(source) => test_source(source, capacity),
        None => Ok(()),
    }
}

// Tests 6, 15 and 16 of an image to open from.
#[tactic(auto, unfolding(crate::specs::Calls::source_long, crate::specs::Calls::source_chained, crate::specs::Calls::source_fits))]
fn test_source(image: &[u8], capacity: u64) -> Result<(), Reason>
    requires { capacity ≤ 4096 }
    ensures { (rest : CallOutcome) → after_source capacity (image_from image.now) rest ≡ outcome_after result rest }
{
    let room = capacity as usize;
    if !is_image_long(image, capacity) {
        return Err(Reason::WrongLength);
    }
    if !chain_fits(image, room) {
        return Err(Reason::WrongChain);
    }
    if !slots_fit(image, room) {
        return Err(Reason::WrongSlot);
    }
    Ok(())
}

// Whether the lent lists are as long as the layout, the commands and the capacity ask.
#[tactic(auto, unfolding(state_bytes::specs::Layout::lengths_fit, state_bytes::specs::Layout::image_fits, state_bytes::specs::Layout::state_length))]
fn lengths_fit(
    state: &[u8],
    keys: &[u64],
    chutes: &[u16],
    answers: &[u16],
    image: &[u8],
    capacity: u64,
    count: usize,
) -> bool
    requires { capacity ≤ 4096 }
    ensures { result ≡ (lengths_fit capacity count (all_lists state.now keys.now chutes.now answers.now image.now) && image_fits capacity (all_lists state.now keys.now chutes.now answers.now image.now)) }
{
    state.len() == STATE_LENGTH
        && answers.len() == count
        && keys.len() as u64 == capacity
        && chutes.len() as u64 == capacity
        && is_image_long(image, capacity)
}

// Whether an image is as long as a store of the capacity asks.
#[tactic(auto, unfolding(model::specs::Image::image_length))]
fn is_image_long(image: &[u8], capacity: u64) -> bool
    requires { capacity ≤ 4096 }
    ensures { result ≡ eqb (length image.now) (image_length capacity) }
{
    image.len() == SLOT * (capacity as usize + 1)
}

// The store at opening: the entries of an image whose chain fits, or none. Returns how many there are.
fn fill_store(source: Option<&[u8]>, keys: &mut [u64], chutes: &mut [u16]) -> usize
    requires { (length chutes.old ≡ length keys.old) × (source_long (length keys.old) (source_of (option_copied source)) ≡ true) × (source_chained (length keys.old) (source_of (option_copied source)) ≡ true) }
    ensures { store_of keys.new chutes.new result ≡ lay_out (length keys.old) (first_entries (length keys.old) (source_of (option_copied source.entry))) }
{
    match source {
        Some(image) => read_image(image, keys, chutes),
        None => {
            keys.fill(0);
            chutes.fill(0);
            0
        }
    }
}

// The next indexes at opening: the free list is 1, 2 and so on up to the graph size, and the chain is empty.
fn first_next(size: u8) -> [u8; 151]
    requires { (1 ≤ size) × (size ≤ 150) }
    ensures { (n : ℕ) → get_or result n 0 ≡ first_next size n }
{
    let mut next = [0u8; 151];
    for n in 1..size {
        next[n as usize] = n + 1;
    }
    next
}

// Writes the opening state, with a number of entries in the store.
fn write_opened(state: &mut [u8], settings: Settings, used: usize)
    requires { (length state.old ≡ state_length) × (1 ≤ settings.size) × (settings.size ≤ 150) }
    ensures { LaysOpened settings used state.new }
{
    let graph = Graph {
        next: first_next(settings.size),
        seq: [0; 151],
        executing: [false; 151],
        locked: [false; 151],
        waits: [NodeSet::empty(); 151],
        items: [None; 151],
    };
    let counters = Counters {
        free: Node(1),
        loaded: Seq(0),
        used,
        limit: settings.workers as usize,
    };
    write_state(state, settings, counters, &graph, &[Thread::Idle; 65]);
}
