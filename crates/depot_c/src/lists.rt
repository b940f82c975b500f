// The byte lists that a call lends: how many numbers they write, and rooms for these.
ghost use Rattle.std.specs.Prelude.{◌≡◌, true, length};
ghost use Rattle.depot_c.specs.Numbers.{bytes_in};
ghost use Rattle.depot_c.specs.Boundary.{are_whole, have_room};
ghost use Rattle.depot_c.specs.Lent.{are_lent, AreCounted, AreTested, AreRead, AreRooms};

use byte_fields::{read_fields, write_fields};
use state_bytes::{Reason, lengths_fit};

// How many bytes a key or a count has.
pub const KEY: usize = 8;

// The most entries that a list of an accepted call has.
pub const MOST: usize = 4096;

// How many numbers byte lists write: keys are eight bytes each, chutes and answers two.
#[derive(Clone, Copy)]
pub struct Counts {
    pub keys: usize,
    pub chutes: usize,
    pub answers: usize,
}

// Rooms for the numbers of byte lists. Each call makes them and reads them in two lines of its own: a function for both would copy 48 kB.
#[derive(Drop)]
pub struct Rooms {
    pub keys: [u64; 4096],
    pub chutes: [u16; 4096],
    pub answers: [u16; 4096],
}

// Whether each list ends with a number.
#[tactic(auto, unfolding(crate::specs::Boundary::are_whole))]
fn are_whole(keys: usize, chutes: usize, answers: usize) -> bool
    ensures { result ≡ are_whole keys chutes answers }
{
    keys % 8 == 0 && chutes % 2 == 0 && answers % 2 == 0
}

impl Counts {
    // The counts of lists of whole numbers, at most 4,096 in each; none of other lists.
    #[tactic(auto, unfolding(crate::specs::Lent::are_lent))]
    pub fn of(keys: usize, chutes: usize, answers: usize) -> Option<Counts>
        ensures { AreCounted keys chutes answers result }
    {
        let counts = Counts {
            keys: keys / 8,
            chutes: chutes / 2,
            answers: answers / 2,
        };
        if are_whole(keys, chutes, answers) && counts.have_room() {
            Some(counts)
        } else {
            None
        }
    }

    // The counts of lists that are handed back with a state. Lists that have none are refused, 12 where the state asks for so many
    // entries and `others_fit`, whether the call's other lists are as long as asked, else 6.
    pub fn tested(
        state: &[u8],
        keys: usize,
        chutes: usize,
        answers: usize,
        commands: usize,
        others_fit: bool,
    ) -> Result<Counts, Reason>
        ensures { AreTested state.now keys chutes answers commands others_fit result }
    {
        if let Some(counts) = Counts::of(keys, chutes, answers) {
            return Ok(counts);
        }
        if !are_whole(keys, chutes, answers) || !others_fit {
            return Err(Reason::WrongLength);
        }
        if lengths_fit(state, answers / 2, keys / 8, chutes / 2, commands) {
            Err(Reason::WrongState)
        } else {
            Err(Reason::WrongLength)
        }
    }

    // Whether each list has at most 4,096 entries.
    fn have_room(self) -> bool
        ensures { result ≡ have_room self.keys self.chutes self.answers }
    {
        self.keys <= MOST && self.chutes <= MOST && self.answers <= MOST
    }
}

impl Rooms {
    pub fn new() -> Rooms {
        Rooms {
            keys: [0; MOST],
            chutes: [0; MOST],
            answers: [0; MOST],
        }
    }

    // Fills the rooms with the numbers that byte lists write.
    pub fn read(&mut self, keys: &[u8], chutes: &[u8], answers: &[u8])
        requires { are_lent (length keys.now) (length chutes.now) (length answers.now) ≡ true }
        ensures { AreRead self.new keys.now chutes.now answers.now }
    {
        read_lists(
            keys,
            chutes,
            answers,
            &mut self.keys,
            &mut self.chutes,
            &mut self.answers,
        );
    }
}

// Fills rooms that are arrays of their own, for a call that writes no list: of these the compiler leaves out those whose numbers are not looked at,
// and of a struct's it leaves out none.
pub fn read_lists(
    keys: &[u8],
    chutes: &[u8],
    answers: &[u8],
    key_room: &mut [u64; 4096],
    chute_room: &mut [u16; 4096],
    answer_room: &mut [u16; 4096],
)
    requires { are_lent (length keys.now) (length chutes.now) (length answers.now) ≡ true }
    ensures { AreRead (record { keys = key_room.new; chutes = chute_room.new; answers = answer_room.new }) keys.now chutes.now answers.now }
{
    read_fields::<u64>(keys, 0, &mut key_room[..keys.len() / 8]);
    read_fields::<u16>(chutes, 0, &mut chute_room[..chutes.len() / 2]);
    read_fields::<u16>(answers, 0, &mut answer_room[..answers.len() / 2]);
}

// Writes the bytes of the numbers in rooms. The proof does not follow three fields of a struct that are lent as `&mut` slices at once,
// so the rooms that a call changes are lists of their own.
pub fn write_lists(
    keys: &mut [u8],
    chutes: &mut [u8],
    answers: &mut [u8],
    key_room: &[u64],
    chute_room: &[u16],
    answer_room: &[u16],
)
    requires { AreRooms keys.old chutes.old answers.old key_room.now chute_room.now answer_room.now }
    ensures { (keys.new ≡ bytes_in 8 key_room.now) × (chutes.new ≡ bytes_in 2 chute_room.now) × (answers.new ≡ bytes_in 2 answer_room.now) }
{
    write_fields::<u64>(keys, 0, key_room);
    write_fields::<u16>(chutes, 0, chute_room);
    write_fields::<u16>(answers, 0, answer_room);
}
