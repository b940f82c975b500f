// The dispatcher: the tests of a handed-back state and of the list that is lent for the schedule, then the steps that it chooses.
#![tactic(auto)]

ghost use Rattle.std.specs.Prelude.{◌≡◌, not, suc, ◌+◌, ◌*◌, ◌≤◌, length, eqb};
ghost use Rattle.node_set.specs.Members.{count_below};
ghost use Rattle.byte_fields.specs.Bytes.{number_at};
ghost use Rattle.state_bytes.specs.Layout.{state_length, at_entry, all_at_entry, all_at_exit};
ghost use Rattle.dispatcher.specs.Calls.{NeededIn, needed_on, count_needed, call_refusal, call_count, dispatch_on, refusal_in, count_in, lists_left, lent_left};

use byte_fields::number_at;
use runner::{Order, run};
use state_bytes::{COUNT, LARGEST, LOADED, Reason, SEQ, SIZE, image_fits, tested};

// How many nodes up to the last have a command.
#[tactic(auto, unfolding(state_bytes::specs::Layout::state_length, node_set::specs::Members::count_below))]
fn used_nodes(state: &[u8], last: usize) -> usize
    requires { (length state.now ≡ state_length) × (last ≤ 150) }
    ensures { (result ≡ count_below (suc last) (λ n. not (eqb (number_at 2 (165 + 2 * n) state.now) 0))) × (result ≤ 151) }
{
    let mut used = 0;
    for n in 0..=last {
        used += usize::from(number_at(state, SEQ + 2 * n) != 0);
    }
    used
}

// How many steps may be needed: for each command that is not loaded or whose node is not returned, and for each worker.
#[tactic(auto, unfolding(state_bytes::specs::Layout::state_length))]
fn needed(state: &[u8]) -> usize
    requires { (length state.now ≡ state_length) × (number_at 1 1 state.now ≤ 150) × (number_at 1 3 state.now ≤ 64) }
    ensures { NeededIn state.now result }
{
    let size = state[SIZE] as usize;
    let largest = state[LARGEST] as usize;
    let left = number_at(state, COUNT).saturating_sub(number_at(state, LOADED)) as usize;
    let used = used_nodes(state, size);
    (left + used + largest) * (3 * size + 6)
}

// How long a list must be lent to the dispatcher. Here, too, the lists are separate parameters, as these public
// calls have promised of them (`at_entry`, `all_at_entry`).
pub fn steps_needed(
    state: &[u8],
    keys: &[u64],
    chutes: &[u16],
    answers: &[u16],
    commands: &[u8],
) -> Result<usize, Reason>
    ensures refusal { (call_refusal result).number ≡ needed_on (at_entry state keys chutes answers) commands.now }
    ensures counted { call_count result ≡ count_needed (at_entry state keys chutes answers) commands.now }
{
    tested(
        state,
        keys,
        chutes.len(),
        answers.len(),
        commands.len(),
        true,
    )?;
    Ok(needed(state))
}

// Makes the steps of a schedule of its own choice, which removes every command, and writes it into the lent list. A refusal leaves
// every list as it was.
pub fn dispatch(
    state: &mut [u8],
    keys: &mut [u64],
    chutes: &mut [u16],
    answers: &mut [u16],
    image: &mut [u8],
    commands: &[u8],
    schedule: &mut [u8],
) -> Result<usize, Reason>
    ensures refusal { call_refusal result ≡ refusal_in (dispatch_on (all_at_entry state keys chutes answers image) commands.now schedule.old) }
    ensures counted { call_count result ≡ count_in (dispatch_on (all_at_entry state keys chutes answers image) commands.now schedule.old) }
    ensures left { all_at_exit state keys chutes answers image ≡ lists_left (dispatch_on (all_at_entry state keys chutes answers image) commands.now schedule.old) (all_at_entry state keys chutes answers image) }
    ensures written { schedule.new ≡ lent_left (dispatch_on (all_at_entry state keys chutes answers image) commands.now schedule.old) schedule.old }
{
    tested(
        state,
        keys,
        chutes.len(),
        answers.len(),
        commands.len(),
        image_fits(state, image.len()),
    )?;
    let limit = needed(state);
    if schedule.len() < limit {
        return Err(Reason::WrongLength);
    }
    let order = Order::Chosen(limit);
    let made = run(
        state, keys, chutes, answers, image, commands, order, schedule,
    );
    Ok(made)
}
