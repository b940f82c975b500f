// The panel's two reports, on byte lists.
ghost use Rattle.std.specs.Prelude.{◌≡◌, length};
ghost use Rattle.s10.specs.Refusal.{plain};
ghost use Rattle.state_bytes.specs.Layout.{at_entry, state_in};
ghost use Rattle.panel.specs.Reports.{report_number, report_left, pending_counts, worker_status_bytes, largest_in};
ghost use Rattle.depot_c.specs.Boundary.{decoded, refusal_of, Fits};

use crate::answer::answer;
use crate::lists::{Counts, MOST, read_lists};
use panel::{pending_counts, worker_status_bytes};
use s10::Refusal;
use state_bytes::Reason;

// How many bytes a report has.
const COUNTS_LENGTH: usize = 150;

const STATUS_LENGTH: usize = 128;

// Reads the byte lists, and writes the pending counts. `show_workers` is a function beside it: one that is passed the report would have to ask that
// the report keeps, for every list, what the clauses of both promise.
fn count_pending(
    state: &[u8],
    keys: &[u8],
    chutes: &[u8],
    answers: &[u8],
    commands: &[u8],
    counts: &mut [u8],
) -> Result<(), Refusal>
    ensures number { refusal_of result ≡ plain (report_number (decoded (at_entry state keys chutes answers)) commands.now (length counts.old) 150) }
    ensures fits { Fits (refusal_of result) }
    ensures left { counts.new ≡ report_left (report_number (decoded (at_entry state keys chutes answers)) commands.now (length counts.old) 150) (pending_counts (state_in (decoded (at_entry state keys chutes answers)))) counts.old }
{
    if counts.len() != COUNTS_LENGTH {
        return Err(Refusal::from(Reason::WrongLength));
    }
    let lent = Counts::tested(
        state,
        keys.len(),
        chutes.len(),
        answers.len(),
        commands.len(),
        true,
    )?;
    let mut key_room = [0; MOST];
    let mut chute_room = [0; MOST];
    let mut answer_room = [0; MOST];
    read_lists(
        keys,
        chutes,
        answers,
        &mut key_room,
        &mut chute_room,
        &mut answer_room,
    );
    pending_counts(
        state,
        &key_room[..lent.keys],
        &chute_room[..lent.chutes],
        &answer_room[..lent.answers],
        commands,
        counts,
    )?;
    Ok(())
}

// Reads the byte lists, and writes the status of every worker.
fn show_workers(
    state: &[u8],
    keys: &[u8],
    chutes: &[u8],
    answers: &[u8],
    commands: &[u8],
    status: &mut [u8],
) -> Result<(), Refusal>
    ensures number { refusal_of result ≡ plain (report_number (decoded (at_entry state keys chutes answers)) commands.now (length status.old) 128) }
    ensures fits { Fits (refusal_of result) }
    ensures left { status.new ≡ report_left (report_number (decoded (at_entry state keys chutes answers)) commands.now (length status.old) 128) (worker_status_bytes (largest_in state.now) (state_in (decoded (at_entry state keys chutes answers)))) status.old }
{
    if status.len() != STATUS_LENGTH {
        return Err(Refusal::from(Reason::WrongLength));
    }
    let lent = Counts::tested(
        state,
        keys.len(),
        chutes.len(),
        answers.len(),
        commands.len(),
        true,
    )?;
    let mut key_room = [0; MOST];
    let mut chute_room = [0; MOST];
    let mut answer_room = [0; MOST];
    read_lists(
        keys,
        chutes,
        answers,
        &mut key_room,
        &mut chute_room,
        &mut answer_room,
    );
    worker_status_bytes(
        state,
        &key_room[..lent.keys],
        &chute_room[..lent.chutes],
        &answer_room[..lent.answers],
        commands,
        status,
    )?;
    Ok(())
}

// Pending counts, one byte a node in chain order. A refusal leaves the list as it was.
#[unsafe(no_mangle)]
pub extern "C" fn depot_pending_counts(
    state: &[u8],
    keys: &[u8],
    chutes: &[u8],
    answers: &[u8],
    commands: &[u8],
    counts: &mut [u8],
) -> u64
    ensures number { result ≡ report_number (decoded (at_entry state keys chutes answers)) commands.now (length counts.old) 150 }
    ensures left { counts.new ≡ report_left result (pending_counts (state_in (decoded (at_entry state keys chutes answers)))) counts.old }
{
    answer(count_pending(state, keys, chutes, answers, commands, counts))
}

// Worker status, two bytes a worker: the number of its state, and its own node. A refusal leaves the list as it was.
#[unsafe(no_mangle)]
pub extern "C" fn depot_worker_status(
    state: &[u8],
    keys: &[u8],
    chutes: &[u8],
    answers: &[u8],
    commands: &[u8],
    status: &mut [u8],
) -> u64
    ensures number { result ≡ report_number (decoded (at_entry state keys chutes answers)) commands.now (length status.old) 128 }
    ensures left { status.new ≡ report_left result (worker_status_bytes (largest_in state.now) (state_in (decoded (at_entry state keys chutes answers)))) status.old }
{
    answer(show_workers(state, keys, chutes, answers, commands, status))
}
