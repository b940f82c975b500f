// A command of 16 bytes: kind, identifier and chute.
#![tactic(auto)]

ghost use Rattle.std.specs.Prelude.{◌≡◌, ℕ, ◌+◌, ◌*◌, ◌==◌, not, cond, position};
ghost use Rattle.s10.specs.Text.{untested_key};
ghost use Rattle.s10.specs.Outcome.{accepted};
ghost use Rattle.command.specs.Read.{RefusedFor, RefusedAtFor, IsWrongIdentifier, IsKindOf, IsNumberOf, refusal_for, command_outcome, kind_of, chute_fits, chute_refusal, read_zeros, read_identifier, identifier_outcome, with_chute, read_command, untested_kind, command_in, commands_in, list_outcome, first_refusal, readings};
ghost use Rattle.command.specs.Dependent.{has_item, is_insert_or_delete, is_read, is_checkpoint, are_dependent};
ghost use Rattle.command.specs.Count.{count_after, largest_count};

use s10::{Character, Identifier, Refusal};

// A command's place in the list, from 1 ("delivery place" of document 01); 0 is none.
#[derive(Clone, Copy, Debug, PartialEq, Eq)]
pub struct Seq(pub usize);

#[derive(Clone, Copy, Debug, PartialEq, Eq)]
pub enum Kind {
    Insert,
    Delete,
    Read,
    Update,
    // Sets the worker count; its identifier is thirteen characters 0 and its chute field the count.
    Workers,
    // Puts the store into the image; its identifier is thirteen characters 0 and its chute field 0.
    Checkpoint,
}

#[derive(Clone, Copy, Debug, PartialEq, Eq)]
pub struct Command {
    pub kind: Kind,
    pub key: u64,
    pub chute: u16,
}

// Why a command is refused.
#[derive(Clone, Copy, Debug, PartialEq, Eq)]
pub enum Reason {
    UnknownKind,
    WrongIdentifier(s10::Reason),
    // The first character that is not 0 of an identifier that must be zeros.
    NotZero(Character),
    WrongChute,
    WrongCount,
}

// The first command of a list that is refused, and why.
#[derive(Clone, Copy, Debug, PartialEq, Eq)]
pub struct Refused {
    pub place: Seq,
    pub reason: Reason,
}

impl From<s10::Reason> for Reason {
    ghost from_gives = { IsWrongIdentifier };

    fn from(reason: s10::Reason) -> Reason {
        Reason::WrongIdentifier(reason)
    }
}

impl From<Reason> for Refusal {
    ghost from_gives = { RefusedFor };

    fn from(reason: Reason) -> Refusal {
        match reason {
            Reason::UnknownKind => Refusal::plain(7),
            Reason::WrongIdentifier(reason) => Refusal::from(reason),
            Reason::NotZero(character) => Refusal {
                character: character.0,
                ..Refusal::plain(8)
            },
            Reason::WrongChute => Refusal::plain(10),
            Reason::WrongCount => Refusal::plain(14),
        }
    }
}

impl From<Refused> for Refusal {
    ghost from_gives = { RefusedAtFor };

    fn from(refused: Refused) -> Refusal {
        Refusal::from(refused.reason).at_place(refused.place.0)
    }
}

impl Command {
    pub const LENGTH: usize = 16;

    pub const LARGEST_CHUTE: u16 = 512;

    pub const MOST_WORKERS: u16 = 64;

    // Where the identifier and the chute stand.
    const IDENTIFIER: usize = 1;

    const CHUTE: usize = Command::IDENTIFIER + Identifier::LENGTH;

    // The command of a part of the list.
    #[tactic(auto, unfolding(crate::specs::Read::read_command, crate::specs::Read::with_kind, crate::specs::Read::kind_of))]
    pub fn read(part: &[u8]) -> Result<Command, Reason>
        ensures { command_outcome result ≡ read_command part.now }
    {
        let Some(number) = part.first() else {
            return Err(Reason::UnknownKind);
        };
        let kind = Kind::try_from(*number)?;
        let end = part.len().min(Command::CHUTE);
        let key = kind.read_identifier(&part[Command::IDENTIFIER..end])?;
        with_chute(kind, key, &part[end..])
    }

    // The command of a part that is not tested, as one that was read before: what its bytes say. A number that is no kind's counts
    // as a read's, and a part of another length as a read of key 0.
    #[tactic(auto, unfolding(crate::specs::Read::command_in, crate::specs::Read::chute_of))]
    pub fn untested(part: &[u8]) -> Command
        ensures { result ≡ command_in part.now }
    {
        if part.len() != Command::LENGTH {
            return Command {
                kind: Kind::Read,
                key: 0,
                chute: 0,
            };
        }
        let kind = Kind::untested(part[0]);
        let key = kind.untested_key(&part[Command::IDENTIFIER..Command::CHUTE]);
        let chute = u16::from_be_bytes([part[Command::CHUTE], part[Command::CHUTE + 1]]);
        Command { kind, key, chute }
    }

    // Whether two commands may not change places.
    #[tactic(auto, unfolding(crate::specs::Dependent::are_dependent))]
    pub fn depends_on(self, other: Command) -> bool
        ensures { result ≡ are_dependent self other }
    {
        let kind = self.kind;
        let other_kind = other.kind;
        if !kind.has_item() {
            return true;
        }
        if !other_kind.has_item() {
            return true;
        }
        if kind.is_insert_or_delete() && other_kind.is_insert_or_delete() {
            return true;
        }
        if self.key != other.key {
            return false;
        }
        !(kind.is_read() && other_kind.is_read())
    }

    // The worker count after the command.
    #[tactic(auto, unfolding(crate::specs::Count::count_after, crate::specs::Count::count_with))]
    pub fn count_after(self, count: usize) -> usize
        ensures { result ≡ count_after self count }
    {
        let kind = self.kind;
        match kind {
            Kind::Workers => self.chute as usize,
            Kind::Insert | Kind::Delete | Kind::Read | Kind::Update | Kind::Checkpoint => count,
        }
    }
}

impl TryFrom<u8> for Kind {
    type Error = Reason;

    ghost try_from_gives = { IsKindOf };

    // The kind of a number.
    #[tactic(auto, unfolding(crate::specs::Read::kind_of))]
    fn try_from(number: u8) -> Result<Kind, Reason> {
        match number {
            1 => Ok(Kind::Insert),
            2 => Ok(Kind::Delete),
            3 => Ok(Kind::Read),
            4 => Ok(Kind::Update),
            5 => Ok(Kind::Workers),
            6 => Ok(Kind::Checkpoint),
            _ => Err(Reason::UnknownKind),
        }
    }
}

impl From<Kind> for u8 {
    ghost from_gives = { IsNumberOf };

    // The number of a kind.
    fn from(kind: Kind) -> u8 {
        match kind {
            Kind::Insert => 1,
            Kind::Delete => 2,
            Kind::Read => 3,
            Kind::Update => 4,
            Kind::Workers => 5,
            Kind::Checkpoint => 6,
        }
    }
}

impl Kind {
    // The kind of a number that is not tested: one that is no kind's counts as a read's.
    fn untested(number: u8) -> Kind
        ensures { result ≡ untested_kind (kind_of number) }
    {
        Kind::try_from(number).unwrap_or(Kind::Read)
    }

    // The key of an identifier that is not tested, of a command of the kind; 0 where the kind names no item.
    fn untested_key(self, text: &[u8]) -> u64
        ensures { result ≡ cond (has_item self) (untested_key text.now) 0 }
    {
        if !self.has_item() {
            return 0;
        }
        Identifier::untested(text)
    }

    #[tactic(auto, unfolding(crate::specs::Dependent::is_read))]
    pub fn is_read(self) -> bool
        ensures { result ≡ is_read self }
    {
        self == Kind::Read
    }

    #[tactic(auto, unfolding(crate::specs::Dependent::is_insert_or_delete))]
    pub fn is_insert_or_delete(self) -> bool
        ensures { result ≡ is_insert_or_delete self }
    {
        matches!(self, Kind::Insert | Kind::Delete)
    }

    #[tactic(auto, unfolding(crate::specs::Dependent::is_checkpoint))]
    pub fn is_checkpoint(self) -> bool
        ensures { result ≡ is_checkpoint self }
    {
        self == Kind::Checkpoint
    }

    // Whether a command of this kind is for an item.
    #[tactic(auto, unfolding(crate::specs::Dependent::has_item))]
    pub fn has_item(self) -> bool
        ensures { result ≡ has_item self }
    {
        !matches!(self, Kind::Workers | Kind::Checkpoint)
    }

    // The key of the identifier of a command of this kind: an item's, or zeros where it is for none.
    #[tactic(auto, unfolding(crate::specs::Read::read_identifier))]
    fn read_identifier(self, text: &[u8]) -> Result<u64, Reason>
        ensures { identifier_outcome result ≡ read_identifier self text.now }
    {
        if self.has_item() {
            return Ok(Identifier::read(text)?);
        }
        read_zeros(text)
    }

    // Why a chute is refused that a command of this kind may not carry.
    fn chute_reason(self) -> Reason
        ensures { refusal_for result ≡ chute_refusal self }
    {
        match self {
            Kind::Workers => Reason::WrongCount,
            Kind::Insert | Kind::Delete | Kind::Read | Kind::Update | Kind::Checkpoint =>
                Reason::WrongChute,
        }
    }

    // Whether a command of this kind may carry a chute; 0 is none.
    #[tactic(auto, unfolding(crate::specs::Read::chute_fits))]
    fn takes(self, chute: u16) -> bool
        ensures { result ≡ chute_fits self chute }
    {
        match self {
            Kind::Insert | Kind::Update => (1..=Command::LARGEST_CHUTE).contains(&chute),
            Kind::Delete | Kind::Read | Kind::Checkpoint => chute == 0,
            Kind::Workers => (1..=Command::MOST_WORKERS).contains(&chute),
        }
    }
}

// Where the first character stands that is not 0, from 0, if one is not.
fn first_not_zero(text: &[u8]) -> Option<usize>
    ensures { result ≡ position (λ c. not (c == 48)) text.now }
{
    text.iter().position(|c| *c != b'0')
}

// The key 0 of thirteen characters 0.
#[tactic(auto, using(crate::proofs::Zeros::zeros_counted, crate::proofs::Zeros::zeros_within), unfolding(crate::specs::Read::read_zeros))]
fn read_zeros(text: &[u8]) -> Result<u64, Reason>
    ensures { identifier_outcome result ≡ read_zeros text.now }
{
    if text.len() != Identifier::LENGTH {
        return Err(Reason::WrongIdentifier(s10::Reason::WrongLength));
    }
    match first_not_zero(text) {
        Some(at) => Err(Reason::NotZero(Character(at as u8 + 1))),
        None => Ok(0),
    }
}

// The command of a kind, a key and the bytes of a chute.
#[tactic(auto, unfolding(crate::specs::Read::with_chute, crate::specs::Read::chute_of))]
fn with_chute(kind: Kind, key: u64, bytes: &[u8]) -> Result<Command, Reason>
    ensures { command_outcome result ≡ with_chute kind (accepted key) bytes.now }
{
    if bytes.len() != Command::LENGTH - Command::CHUTE {
        return Err(kind.chute_reason());
    }
    let chute = u16::from_be_bytes([bytes[0], bytes[1]]);
    if !kind.takes(chute) {
        return Err(kind.chute_reason());
    }
    Ok(Command { kind, key, chute })
}

// Reads every command of a list, in order, up to the first refusal: the largest worker count that they set, 0 for none.
#[tactic(auto, using(crate::proofs::Parts::readings_chunk, crate::proofs::Parts::commands_chunk, crate::proofs::Parts::readings_none, crate::proofs::Parts::commands_none, crate::proofs::Laws::accepted_as_untested), unfolding(crate::specs::Read::first_refusal, crate::specs::Count::largest_count))]
pub fn read_list(list: &[u8]) -> Result<usize, Refused>
    ensures outcome { list_outcome result ≡ first_refusal 1 (readings list.now) }
    ensures largest { (n : ℕ) → result ≡ Ok n → n ≡ largest_count 0 (commands_in list.now) }
{
    let mut largest = 0;
    for (i, part) in list.chunks(Command::LENGTH).enumerate() {
        match Command::read(part) {
            Ok(command) => largest = command.count_after(largest).max(largest),
            Err(reason) => {
                let place = Seq(i + 1);
                return Err(Refused { place, reason });
            }
        }
    }
    Ok(largest)
}
