// Opening, on byte lists.
ghost use Rattle.std.specs.Prelude.{◌≡◌, [], option_copied};
ghost use Rattle.state_bytes.specs.Layout.{lists, all_at_exit, all_at_entry};
ghost use Rattle.state_bytes.specs.Outcome.{refusal_in};
ghost use Rattle.opening.specs.Calls.{Source, nothing, image_from, open_on, opening_refusal};
ghost use Rattle.opening.specs.Opened.{source_of};
ghost use Rattle.depot_c.specs.Boundary.{decoded, refusal_of, Fits, left, open_answer, open_left};
ghost use Rattle.depot_c.specs.Lent.{AreRooms};

use crate::answer::answer;
use crate::lists::{Counts, Rooms, write_lists};
use opening::{Reason, open, open_with};
use s10::Refusal;

// The answer where the lists cannot be those of an accepted opening, from an image or not.
fn open_without(commands: &[u8], size: u64, workers: u64, capacity: u64) -> Result<(), Reason>
    ensures { (source : Source) → opening_refusal result ≡ refusal_in (open_on size workers capacity commands.now source (lists [] [] [] [])) }
{
    open(
        &mut [],
        &mut [],
        &mut [],
        &mut [],
        &mut [],
        commands,
        size,
        workers,
        capacity,
    )
}

// Opens on the numbers in rooms, and writes the bytes of those that it leaves.
fn open_within(
    state: &mut [u8],
    keys: &mut [u8],
    chutes: &mut [u8],
    answers: &mut [u8],
    image: &mut [u8],
    commands: &[u8],
    source: Option<&[u8]>,
    size: u64,
    workers: u64,
    capacity: u64,
    key_room: &mut [u64],
    chute_room: &mut [u16],
    answer_room: &mut [u16],
) -> Result<(), Reason>
    requires { AreRooms keys.old chutes.old answers.old key_room.old chute_room.old answer_room.old }
    ensures refusal { opening_refusal result ≡ refusal_in (open_on size workers capacity commands.now (source_of (option_copied source.entry)) (all_at_entry state key_room chute_room answer_room image)) }
    ensures left { all_at_exit state keys chutes answers image ≡ left (open_on size workers capacity commands.now (source_of (option_copied source.entry)) (all_at_entry state key_room chute_room answer_room image)) (all_at_entry state keys chutes answers image) }
{
    open_with(
        state,
        key_room,
        chute_room,
        answer_room,
        image,
        commands,
        source,
        size,
        workers,
        capacity,
    )?;
    write_lists(keys, chutes, answers, key_room, chute_room, answer_room);
    Ok(())
}

// Reads the byte lists, opens, and writes the lists.
fn open_bytes(
    state: &mut [u8],
    keys: &mut [u8],
    chutes: &mut [u8],
    answers: &mut [u8],
    image: &mut [u8],
    commands: &[u8],
    source: Option<&[u8]>,
    size: u64,
    workers: u64,
    capacity: u64,
) -> Result<(), Refusal>
    ensures refusal { refusal_of result ≡ refusal_in (open_on size workers capacity commands.now (source_of (option_copied source.entry)) (decoded (all_at_entry state keys chutes answers image))) }
    ensures fits { Fits (refusal_of result) }
    ensures left { all_at_exit state keys chutes answers image ≡ open_left size workers capacity commands.now (source_of (option_copied source.entry)) (all_at_entry state keys chutes answers image) }
{
    let Some(counts) = Counts::of(keys.len(), chutes.len(), answers.len()) else {
        open_without(commands, size, workers, capacity)?;
        return Ok(());
    };
    let mut rooms = Rooms::new();
    rooms.read(keys, chutes, answers);
    open_within(
        state,
        keys,
        chutes,
        answers,
        image,
        commands,
        source,
        size,
        workers,
        capacity,
        &mut rooms.keys[..counts.keys],
        &mut rooms.chutes[..counts.chutes],
        &mut rooms.answers[..counts.answers],
    )?;
    Ok(())
}

// Opens a list of commands, with an empty store. A refusal leaves every list as it was.
#[unsafe(no_mangle)]
pub extern "C" fn depot_open(
    state: &mut [u8],
    keys: &mut [u8],
    chutes: &mut [u8],
    answers: &mut [u8],
    image: &mut [u8],
    commands: &[u8],
    size: u64,
    workers: u64,
    capacity: u64,
) -> u64
    ensures number { result ≡ open_answer size workers capacity commands.now nothing (all_at_entry state keys chutes answers image) }
    ensures left { all_at_exit state keys chutes answers image ≡ open_left size workers capacity commands.now nothing (all_at_entry state keys chutes answers image) }
{
    let outcome = open_bytes(
        state, keys, chutes, answers, image, commands, None, size, workers, capacity,
    );
    answer(outcome)
}

// Opens a list of commands, with the store that an image holds. A refusal leaves every list as it was.
#[unsafe(no_mangle)]
pub extern "C" fn depot_open_from(
    state: &mut [u8],
    keys: &mut [u8],
    chutes: &mut [u8],
    answers: &mut [u8],
    image: &mut [u8],
    commands: &[u8],
    source: &[u8],
    size: u64,
    workers: u64,
    capacity: u64,
) -> u64
    ensures number { result ≡ open_answer size workers capacity commands.now (image_from source.now) (all_at_entry state keys chutes answers image) }
    ensures left { all_at_exit state keys chutes answers image ≡ open_left size workers capacity commands.now (image_from source.now) (all_at_entry state keys chutes answers image) }
{
    let outcome = open_bytes(
        state,
        keys,
        chutes,
        answers,
        image,
        commands,
        Some(source),
        size,
        workers,
        capacity,
    );
    answer(outcome)
}
