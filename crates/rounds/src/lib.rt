// The rounds of a list of commands: how far more workers could help.
#![tactic(auto)]

ghost use Rattle.std.specs.Prelude.{◌≡◌, cond, not, ℕ, suc, max, ◌%◌, ◌/◌, ◌≤◌, ◌<◌, length, take, set, List, [], ◌∷◌, ◌++◌};
ghost use Rattle.command.specs.declared.Command.{Command};
ghost use Rattle.command.specs.Read.{first_refusal, readings, commands_in, list_outcome};
ghost use Rattle.rounds.specs.Rounds.{rounds_of, round_count};
ghost use Rattle.rounds.specs.Calls.{RefusedFor, IsWrongCommand, found_in, rounds_on, answer_of, left_by};
ghost use Rattle.key_links.specs.Links.{last_of, at_link};
ghost use Rattle.rounds.specs.Entered.{Holds, alls, changes, depends_up_to, largest_after};

use command::{Command, Kind, Refused, Seq};
use key_links::KeyLinks;
use s10::Refusal;

// Why a list is refused.
#[derive(Clone, Copy, Debug, PartialEq, Eq)]
pub enum Reason {
    WrongListLength,
    TooManyCommands,
    WrongLength,
    WrongCommand(Refused),
}

impl From<Refused> for Reason {
    ghost from_gives = { IsWrongCommand };

    fn from(refused: Refused) -> Reason {
        Reason::WrongCommand(refused)
    }
}

impl From<Reason> for Refusal {
    ghost from_gives = { RefusedFor };

    fn from(reason: Reason) -> Refusal {
        match reason {
            Reason::WrongListLength => Refusal::plain(4),
            Reason::TooManyCommands => Refusal::plain(5),
            Reason::WrongLength => Refusal::plain(6),
            Reason::WrongCommand(refused) => Refusal::from(refused),
        }
    }
}

// The most commands of a list.
const MOST: usize = 4096;

// The largest rounds so far: of all commands, of those for no item, and of inserts and deletes.
#[derive(Clone, Copy, Default)]
struct Largest {
    top: u16,
    fence: u16,
    writers: u16,
}

// The largest rounds among the commands of a key: of all, and of those that are no reads.
#[derive(Clone, Copy, Default)]
struct OfKey {
    all: u16,
    changing: u16,
}

// What is known of the commands that have their rounds: their keys, for each command the largest rounds of its key up to it, and the
// largest of all.
#[derive(Drop)]
struct Numbered {
    links: KeyLinks,
    of_keys: [OfKey; 4096],
    largest: Largest,
}

impl Largest {
    // The round of a command of a kind: one more than the largest that it depends on; `same` is that of its key.
    fn round_of(self, kind: Kind, same: u16) -> u16
        requires { (self.top ≤ 4095) × (self.fence ≤ 4095) × (self.writers ≤ 4095) × (same ≤ 4095) }
        ensures { result ≡ suc (depends_up_to kind self same) }
    {
        if !kind.has_item() {
            return self.top + 1;
        }
        let mut largest = self.fence.max(same);
        if kind.is_insert_or_delete() {
            largest = largest.max(self.writers);
        }
        largest + 1
    }

    // Counts the round of a command of a kind.
    fn count(&mut self, kind: Kind, round: u16)
        ensures { self.new ≡ largest_after kind round self.old }
    {
        self.top = self.top.max(round);
        if !kind.has_item() {
            self.fence = self.fence.max(round);
        }
        if kind.is_insert_or_delete() {
            self.writers = self.writers.max(round);
        }
    }
}

impl OfKey {
    // Counts the round of a command of the key.
    fn count(&mut self, read: bool, round: u16)
        ensures { self.new ≡ record { all = max self.old.all round; changing = max self.old.changing (cond (not read) round 0) } }
    {
        self.all = self.all.max(round);
        if !read {
            self.changing = self.changing.max(round);
        }
    }
}

impl Numbered {
    // No command.
    fn new() -> Numbered
        ensures { (result.links ≡ []) × (result.largest ≡ record { top = 0; fence = 0; writers = 0 }) }
    {
        Numbered {
            links: KeyLinks::new(),
            of_keys: [OfKey::default(); 4096],
            largest: Largest::default(),
        }
    }

    // The largest rounds among the commands of a key.
    fn of_key(&self, key: u64) -> OfKey
        requires { length self.now.links ≤ 4096 }
        ensures all { result.all ≡ at_link (alls self.now) (last_of self.now.links key (length self.now.links)) }
        ensures changing { result.changing ≡ at_link (changes self.now) (last_of self.now.links key (length self.now.links)) }
    {
        match self.links.find(key) {
            Some(place) => self.of_keys[place],
            None => OfKey::default(),
        }
    }

    // The round of a command, which is entered behind the others.
    fn enter(&mut self, command: Command) -> u16
        requires { (length self.old.links < 4096) × ((es : List Command) × (rounds : List ℕ) × Holds es rounds self.old) }
        ensures { (es : List Command) (rounds : List ℕ) → length es < length rounds → Holds es rounds self.old → Holds (es ++ (command ∷ [])) (set rounds (length es) result) self.new }
    {
        let read = command.kind.is_read();
        let mut of_key = self.of_key(command.key);
        let same = if read { of_key.changing } else { of_key.all };
        let round = self.largest.round_of(command.kind, same);
        of_key.count(read, round);
        self.largest.count(command.kind, round);
        let place = self.links.enter(command.key);
        self.of_keys[place] = of_key;
        round
    }
}

// Gives every command of a list its round, up to the first refusal: how many rounds there are.
fn number(list: &[u8], rounds: &mut [u16]) -> Result<u16, Refused>
    requires { (length list.now % 16 ≡ 0) × (length list.now ≤ 65536) × (length rounds.old ≡ 4096) }
    ensures outcome { list_outcome result ≡ first_refusal 1 (readings list.now) }
    ensures rounds { (n : ℕ) → result ≡ Ok n → (take (length list.now / 16) rounds.new ≡ rounds_of (commands_in list.now)) × (n ≡ round_count (commands_in list.now)) }
{
    let mut numbered = Numbered::new();
    for (i, part) in list.chunks(Command::LENGTH).enumerate() {
        match Command::read(part) {
            Ok(command) => rounds[i] = numbered.enter(command),
            Err(reason) => {
                let place = Seq(i + 1);
                return Err(Refused { place, reason });
            }
        }
    }
    Ok(numbered.largest.top)
}

// The rounds of a list whose length was tested.
fn found_in(commands: &[u8], rounds: &mut [u16]) -> Result<u16, Reason>
    requires { (length commands.now % 16 ≡ 0) × (length rounds.old ≡ length commands.now / 16) × (length commands.now ≤ 65536) }
    ensures answer { answer_of result rounds.new ≡ found_in (first_refusal 1 (readings commands.now)) commands.now }
    ensures left { rounds.new ≡ left_by (found_in (first_refusal 1 (readings commands.now)) commands.now) rounds.old }
{
    let mut own = [0; MOST];
    let count = number(commands, &mut own)?;
    rounds.copy_from_slice(&own[..rounds.len()]);
    Ok(count)
}

// Gives each command of a list its round, in a lent list of one entry a command. A refusal leaves the list as it was.
pub fn find(commands: &[u8], rounds: &mut [u16]) -> Result<u16, Reason>
    ensures answer { answer_of result rounds.new ≡ rounds_on commands.now (length rounds.old) }
    ensures left { rounds.new ≡ left_by (rounds_on commands.now (length rounds.old)) rounds.old }
{
    if commands.len() % Command::LENGTH != 0 {
        return Err(Reason::WrongListLength);
    }
    let count = commands.len() / Command::LENGTH;
    if count > MOST {
        return Err(Reason::TooManyCommands);
    }
    if rounds.len() != count {
        return Err(Reason::WrongLength);
    }
    found_in(commands, rounds)
}
