// Advancing: the tests of a handed-back state, then the steps of a schedule.
#![tactic(auto)]

ghost use Rattle.std.specs.Prelude.{◌≡◌};
ghost use Rattle.state_bytes.specs.Layout.{all_at_entry, all_at_exit};
ghost use Rattle.state_bytes.specs.Outcome.{refusal_in, kept};
ghost use Rattle.controller.specs.Calls.{advance_refusal, advance_on, RefusedFor, IsOfState};

use runner::{Order, run};
use s10::Refusal;
use state_bytes::{LARGEST, image_fits, tested, threads_named};

// Why a schedule is refused.
#[derive(Clone, Copy, Debug, PartialEq, Eq)]
pub enum Reason {
    WrongLength,
    UnknownThread,
    WrongState,
}

impl From<state_bytes::Reason> for Reason {
    ghost from_gives = { IsOfState };

    fn from(reason: state_bytes::Reason) -> Reason {
        match reason {
            state_bytes::Reason::WrongLength => Reason::WrongLength,
            state_bytes::Reason::WrongState => Reason::WrongState,
        }
    }
}

impl From<Reason> for Refusal {
    ghost from_gives = { RefusedFor };

    fn from(reason: Reason) -> Refusal {
        match reason {
            Reason::WrongLength => Refusal::plain(6),
            Reason::UnknownThread => Refusal::plain(11),
            Reason::WrongState => Refusal::plain(12),
        }
    }
}

// Performs a schedule, one step a byte. The lists are separate parameters, as
// this public call has promised of them (`all_at_entry`, `all_at_exit`). A refusal leaves every list as it was.
pub fn advance(
    state: &mut [u8],
    keys: &mut [u64],
    chutes: &mut [u16],
    answers: &mut [u16],
    image: &mut [u8],
    commands: &[u8],
    schedule: &[u8],
) -> Result<(), Reason>
    ensures refusal { advance_refusal result ≡ refusal_in (advance_on (all_at_entry state keys chutes answers image) commands.now schedule.now) }
    ensures left { all_at_exit state keys chutes answers image ≡ kept (advance_on (all_at_entry state keys chutes answers image) commands.now schedule.now) (all_at_entry state keys chutes answers image) }
{
    tested(
        state,
        keys,
        chutes.len(),
        answers.len(),
        commands.len(),
        image_fits(state, image.len()),
    )?;
    if !threads_named(schedule, state[LARGEST]) {
        return Err(Reason::UnknownThread);
    }
    let order = Order::Given(schedule);
    run(
        state,
        keys,
        chutes,
        answers,
        image,
        commands,
        order,
        &mut [],
    );
    Ok(())
}
