// Advancing, on byte lists.
ghost use Rattle.std.specs.Prelude.{◌≡◌};
ghost use Rattle.state_bytes.specs.Layout.{all_at_exit, all_at_entry};
ghost use Rattle.state_bytes.specs.Outcome.{refusal_in};
ghost use Rattle.controller.specs.Calls.{advance_on, advance_refusal};
ghost use Rattle.depot_c.specs.Boundary.{decoded, refusal_of, Fits, left, advance_answer, advance_left};
ghost use Rattle.depot_c.specs.Lent.{AreRooms};

use crate::answer::answer;
use crate::lists::{Counts, Rooms, write_lists};
use controller::{Reason, advance};
use s10::Refusal;
use state_bytes::image_fits;

// Advances on the numbers in rooms, and writes the bytes of those that it leaves.
fn advance_within(
    state: &mut [u8],
    keys: &mut [u8],
    chutes: &mut [u8],
    answers: &mut [u8],
    image: &mut [u8],
    commands: &[u8],
    schedule: &[u8],
    key_room: &mut [u64],
    chute_room: &mut [u16],
    answer_room: &mut [u16],
) -> Result<(), Reason>
    requires { AreRooms keys.old chutes.old answers.old key_room.old chute_room.old answer_room.old }
    ensures refusal { advance_refusal result ≡ refusal_in (advance_on (all_at_entry state key_room chute_room answer_room image) commands.now schedule.now) }
    ensures left { all_at_exit state keys chutes answers image ≡ left (advance_on (all_at_entry state key_room chute_room answer_room image) commands.now schedule.now) (all_at_entry state keys chutes answers image) }
{
    advance(
        state,
        key_room,
        chute_room,
        answer_room,
        image,
        commands,
        schedule,
    )?;
    write_lists(keys, chutes, answers, key_room, chute_room, answer_room);
    Ok(())
}

// Reads the byte lists, advances, and writes the lists.
fn advance_bytes(
    state: &mut [u8],
    keys: &mut [u8],
    chutes: &mut [u8],
    answers: &mut [u8],
    image: &mut [u8],
    commands: &[u8],
    schedule: &[u8],
) -> Result<(), Refusal>
    ensures refusal { refusal_of result ≡ refusal_in (advance_on (decoded (all_at_entry state keys chutes answers image)) commands.now schedule.now) }
    ensures fits { Fits (refusal_of result) }
    ensures left { all_at_exit state keys chutes answers image ≡ advance_left (all_at_entry state keys chutes answers image) commands.now schedule.now }
{
    let counts = Counts::tested(
        state,
        keys.len(),
        chutes.len(),
        answers.len(),
        commands.len(),
        image_fits(state, image.len()),
    )?;
    let mut rooms = Rooms::new();
    rooms.read(keys, chutes, answers);
    advance_within(
        state,
        keys,
        chutes,
        answers,
        image,
        commands,
        schedule,
        &mut rooms.keys[..counts.keys],
        &mut rooms.chutes[..counts.chutes],
        &mut rooms.answers[..counts.answers],
    )?;
    Ok(())
}

// Performs a schedule, one step a byte. A refusal leaves every list as it was.
#[unsafe(no_mangle)]
pub extern "C" fn depot_advance(
    state: &mut [u8],
    keys: &mut [u8],
    chutes: &mut [u8],
    answers: &mut [u8],
    image: &mut [u8],
    commands: &[u8],
    schedule: &[u8],
) -> u64
    ensures number { result ≡ advance_answer (all_at_entry state keys chutes answers image) commands.now schedule.now }
    ensures left { all_at_exit state keys chutes answers image ≡ advance_left (all_at_entry state keys chutes answers image) commands.now schedule.now }
{
    let outcome = advance_bytes(state, keys, chutes, answers, image, commands, schedule);
    answer(outcome)
}
