// Dispatching, and how long the list for it must be, on byte lists.
ghost use Rattle.std.specs.Prelude.{◌≡◌};
ghost use Rattle.state_bytes.specs.Layout.{at_entry, all_at_exit, all_at_entry};
ghost use Rattle.dispatcher.specs.Calls.{call_refusal, call_count, dispatch_on, refusal_in, count_in, lent_left};
ghost use Rattle.depot_c.specs.Lent.{AreRooms};
ghost use Rattle.depot_c.specs.Boundary.{packed, refusal_of, Fits, made_left, needed_answer, needed_left, dispatch_answer, dispatch_left, schedule_left, count_left};

use crate::answer::answer;
use crate::lists::{Counts, KEY, MOST, Rooms, read_lists, write_lists};
use byte_fields::Field;
use dispatcher::{dispatch, steps_needed};
use s10::Refusal;
use state_bytes::{Reason, image_fits};

// Reads the byte lists, and writes how many steps may be needed.
fn count_steps(
    state: &[u8],
    keys: &[u8],
    chutes: &[u8],
    answers: &[u8],
    commands: &[u8],
    count: &mut [u8],
) -> Result<(), Refusal>
    ensures number { packed (refusal_of result) ≡ needed_answer (at_entry state keys chutes answers) commands.now count.old }
    ensures fits { Fits (refusal_of result) }
    ensures left { count.new ≡ needed_left (at_entry state keys chutes answers) commands.now count.old }
{
    if count.len() != KEY {
        return Err(Refusal::from(Reason::WrongLength));
    }
    let counts = Counts::tested(
        state,
        keys.len(),
        chutes.len(),
        answers.len(),
        commands.len(),
        true,
    )?;
    let mut key_room = [0; MOST];
    let mut chute_room = [0; MOST];
    let mut answer_room = [0; MOST];
    read_lists(
        keys,
        chutes,
        answers,
        &mut key_room,
        &mut chute_room,
        &mut answer_room,
    );
    let needed = steps_needed(
        state,
        &key_room[..counts.keys],
        &chute_room[..counts.chutes],
        &answer_room[..counts.answers],
        commands,
    )?;
    u64::write(count, 0, needed as u64);
    Ok(())
}

// How long a list must be lent to the dispatcher, as eight bytes. A refusal leaves the list as it was.
#[unsafe(no_mangle)]
pub extern "C" fn depot_steps_needed(
    state: &[u8],
    keys: &[u8],
    chutes: &[u8],
    answers: &[u8],
    commands: &[u8],
    count: &mut [u8],
) -> u64
    ensures number { result ≡ needed_answer (at_entry state keys chutes answers) commands.now count.old }
    ensures left { count.new ≡ needed_left (at_entry state keys chutes answers) commands.now count.old }
{
    answer(count_steps(state, keys, chutes, answers, commands, count))
}

// Dispatches on the numbers in rooms, and writes the bytes of those that it leaves.
fn dispatch_within(
    state: &mut [u8],
    keys: &mut [u8],
    chutes: &mut [u8],
    answers: &mut [u8],
    image: &mut [u8],
    commands: &[u8],
    schedule: &mut [u8],
    key_room: &mut [u64],
    chute_room: &mut [u16],
    answer_room: &mut [u16],
) -> Result<usize, Reason>
    requires { AreRooms keys.old chutes.old answers.old key_room.old chute_room.old answer_room.old }
    ensures refusal { call_refusal result ≡ refusal_in (dispatch_on (all_at_entry state key_room chute_room answer_room image) commands.now schedule.old) }
    ensures counted { call_count result ≡ count_in (dispatch_on (all_at_entry state key_room chute_room answer_room image) commands.now schedule.old) }
    ensures left { all_at_exit state keys chutes answers image ≡ made_left (dispatch_on (all_at_entry state key_room chute_room answer_room image) commands.now schedule.old) (all_at_entry state keys chutes answers image) }
    ensures written { schedule.new ≡ lent_left (dispatch_on (all_at_entry state key_room chute_room answer_room image) commands.now schedule.old) schedule.old }
{
    let steps = dispatch(
        state,
        key_room,
        chute_room,
        answer_room,
        image,
        commands,
        schedule,
    )?;
    write_lists(keys, chutes, answers, key_room, chute_room, answer_room);
    Ok(steps)
}

// Reads the byte lists, dispatches, and writes the lists and the schedule's length.
fn dispatch_bytes(
    state: &mut [u8],
    keys: &mut [u8],
    chutes: &mut [u8],
    answers: &mut [u8],
    image: &mut [u8],
    commands: &[u8],
    schedule: &mut [u8],
    count: &mut [u8],
) -> Result<(), Refusal>
    ensures number { packed (refusal_of result) ≡ dispatch_answer (all_at_entry state keys chutes answers image) commands.now schedule.old count.old }
    ensures fits { Fits (refusal_of result) }
    ensures left { all_at_exit state keys chutes answers image ≡ dispatch_left (all_at_entry state keys chutes answers image) commands.now schedule.old count.old }
    ensures written { schedule.new ≡ schedule_left (all_at_entry state keys chutes answers image) commands.now schedule.old count.old }
    ensures counted { count.new ≡ count_left (all_at_entry state keys chutes answers image) commands.now schedule.old count.old }
{
    if count.len() != KEY {
        return Err(Refusal::from(Reason::WrongLength));
    }
    let counts = Counts::tested(
        state,
        keys.len(),
        chutes.len(),
        answers.len(),
        commands.len(),
        image_fits(state, image.len()),
    )?;
    let mut rooms = Rooms::new();
    rooms.read(keys, chutes, answers);
    let steps = dispatch_within(
        state,
        keys,
        chutes,
        answers,
        image,
        commands,
        schedule,
        &mut rooms.keys[..counts.keys],
        &mut rooms.chutes[..counts.chutes],
        &mut rooms.answers[..counts.answers],
    )?;
    u64::write(count, 0, steps as u64);
    Ok(())
}

// Makes the steps of a schedule of its own choice, which removes every command, writes it into the lent list, and its length, as
// eight bytes. A refusal leaves every list as it was.
#[unsafe(no_mangle)]
pub extern "C" fn depot_dispatch(
    state: &mut [u8],
    keys: &mut [u8],
    chutes: &mut [u8],
    answers: &mut [u8],
    image: &mut [u8],
    commands: &[u8],
    schedule: &mut [u8],
    count: &mut [u8],
) -> u64
    ensures number { result ≡ dispatch_answer (all_at_entry state keys chutes answers image) commands.now schedule.old count.old }
    ensures left { all_at_exit state keys chutes answers image ≡ dispatch_left (all_at_entry state keys chutes answers image) commands.now schedule.old count.old }
    ensures written { schedule.new ≡ schedule_left (all_at_entry state keys chutes answers image) commands.now schedule.old count.old }
    ensures counted { count.new ≡ count_left (all_at_entry state keys chutes answers image) commands.now schedule.old count.old }
{
    let outcome = dispatch_bytes(
        state, keys, chutes, answers, image, commands, schedule, count,
    );
    answer(outcome)
}
