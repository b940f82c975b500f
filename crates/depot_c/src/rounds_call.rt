// The rounds that a list of commands needs, on byte lists.
ghost use Rattle.std.specs.Prelude.{◌≡◌, ◌≤◌, length};
ghost use Rattle.depot_c.specs.Boundary.{packed, refusal_of, Fits, rounds_lent, UpTo, rounds_answer, rounds_left, round_count_left};

use crate::answer::answer;
use crate::lists::KEY;
use byte_fields::{Field, write_fields};
use rounds::find;
use s10::Refusal;

// One entry more than a list of commands asks for, which stands for lists of a wrong length, as `Boundary.rounds_lent` counts them.
const TOO_MANY: usize = 4097;

// How many entries are lent for rounds, up to one too many.
fn entries_lent(rounds: usize, count: usize) -> usize
    ensures { (result ≤ 4097) × UpTo (rounds_lent rounds count) result }
{
    if count != KEY || rounds % 2 != 0 {
        return TOO_MANY;
    }
    TOO_MANY.min(rounds / 2)
}

// Writes the round of each command, found in room for as many entries as are lent, and how many rounds there are.
fn find_rounds(
    commands: &[u8],
    rounds: &mut [u8],
    count: &mut [u8],
    room: &mut [u16],
) -> Result<(), Refusal>
    requires { UpTo (rounds_lent (length rounds.old) (length count.old)) (length room.old) }
    ensures number { packed (refusal_of result) ≡ rounds_answer commands.now rounds.old count.old }
    ensures fits { Fits (refusal_of result) }
    ensures left { rounds.new ≡ rounds_left commands.now rounds.old count.old }
    ensures counted { count.new ≡ round_count_left commands.now rounds.old count.old }
{
    let needed = find(commands, room)?;
    write_fields::<u16>(rounds, 0, room);
    u64::write(count, 0, needed as u64);
    Ok(())
}

// The round of each command, two bytes each, and how many rounds there are, as eight bytes. A refusal leaves every list as it was.
#[unsafe(no_mangle)]
pub extern "C" fn depot_rounds_needed(commands: &[u8], rounds: &mut [u8], count: &mut [u8]) -> u64
    ensures number { result ≡ rounds_answer commands.now rounds.old count.old }
    ensures left { rounds.new ≡ rounds_left commands.now rounds.old count.old }
    ensures counted { count.new ≡ round_count_left commands.now rounds.old count.old }
{
    let lent = entries_lent(rounds.len(), count.len());
    let mut room = [0u16; TOO_MANY];
    answer(find_rounds(commands, rounds, count, &mut room[..lent]))
}
