// The two calls of the controller, in lists of the program's own.
ghost use Rattle.std.specs.Prelude.{◌*◌, ◌≤◌, ◌<◌, ◌≡◌, [], length, IfOk, IfErr};
ghost use Rattle.state_bytes.specs.Layout.{all_at_entry, lists};
ghost use Rattle.opening.specs.Calls.{nothing, open_on};
ghost use Rattle.depot.specs.Program.{printed, advanced, refusal, report, zeros};
ghost use Rattle.depot.specs.Wrote.{Wrote};

use crate::report::{put_refusal, put_report};
use controller::advance;
use image::SLOT;
use opening::open;
use s10::Refusal;

// The most that a store may have room for.
const LARGEST_CAPACITY: u64 = 4096;

// Opens in lent lists, then performs the schedule. The lists are parameters of their own, as the two calls take them.
fn open_and_advance(
    state: &mut [u8],
    keys: &mut [u64],
    chutes: &mut [u16],
    answers: &mut [u16],
    image: &mut [u8],
    commands: &[u8],
    schedule: &[u8],
    size: u64,
    workers: u64,
    capacity: u64,
) -> Result<(), Refusal>
    ensures done { IfOk result (λ _. printed (advanced commands.now schedule.now) (open_on size workers capacity commands.now nothing (all_at_entry state keys chutes answers image)) ≡ report commands.now (lists state.new [] [] answers.new)) }
    ensures refused { IfErr result (λ r. (r.number < 100) × (printed (advanced commands.now schedule.now) (open_on size workers capacity commands.now nothing (all_at_entry state keys chutes answers image)) ≡ refusal r.number)) }
{
    open(
        state, keys, chutes, answers, image, commands, size, workers, capacity,
    )?;
    advance(state, keys, chutes, answers, image, commands, schedule)?;
    Ok(())
}

// Performs the commands and the schedule in lists of its own, and writes what came of it. A capacity above the largest is refused
// whatever is lent.
pub fn perform(
    out: &mut [u8],
    commands: &[u8],
    schedule: &[u8],
    count: usize,
    size: u64,
    workers: u64,
    capacity: u64,
) -> usize
    requires { (length commands.now ≡ 16 * count) × (count < 4096) × (147456 ≤ length out.old) }
    ensures { Wrote (printed (advanced commands.now schedule.now) (open_on size workers capacity commands.now nothing (zeros capacity count))) 0 out.old out.new result }
{
    let mut state = [0; 4718];
    let mut keys = [0; 4096];
    let mut chutes = [0; 4096];
    let mut answers = [0; 4096];
    let mut image = [0; 65552];
    let answers = &mut answers[..count];
    let entries = capacity.min(LARGEST_CAPACITY) as usize;
    let performed = open_and_advance(
        &mut state,
        &mut keys[..entries],
        &mut chutes[..entries],
        answers,
        &mut image[..SLOT * (entries + 1)],
        commands,
        schedule,
        size,
        workers,
        capacity,
    );
    match performed {
        Ok(()) => put_report(out, &state, answers, commands),
        Err(refusal) => put_refusal(out, refusal.number),
    }
}
