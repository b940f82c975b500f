// The postal item identifier (UPU S10): from text to key and back.
#![tactic(auto)]

ghost use Rattle.std.specs.Prelude.{◌≡◌, ◌+◌, ◌-◌, ◌*◌, ◌%◌, ◌≤◌, ◌<◌, length, MatchOption};
ghost use Rattle.s10.specs.Refusal.{plain, at_place};
ghost use Rattle.s10.specs.Text.{asks_digit, is_allowed, first_fault, weighted, weights, excepted, check_digit, decimal_number, character_sum, least_sum, untested_key, letters, digits, largest_key, text_of};
ghost use Rattle.s10.specs.Parts.{Serial, values, characters, serial_text};
ghost use Rattle.s10.specs.Outcome.{refusal_for, fault_at, text_outcome, read_text, number, write_number, write_text, RefusedFor, UnwrittenFor};

// What a refusal says: its number, the place of the command that it names, and the first faulty character; 0 for none.
#[derive(Clone, Copy, Debug, PartialEq, Eq)]
pub struct Refusal {
    pub number: u64,
    pub place: usize,
    pub character: u8,
}

// An identifier, by its key.
#[derive(Clone, Copy, Debug, PartialEq, Eq)]
pub struct Identifier(pub u64);

// A character's place in a text, from 1.
#[derive(Clone, Copy, Debug, PartialEq, Eq)]
pub struct Character(pub u8);

// Why a text is refused; a wrong letter or digit is the first faulty character.
#[derive(Clone, Copy, Debug, PartialEq, Eq)]
pub enum Reason {
    WrongLength,
    WrongLetter(Character),
    WrongDigit(Character),
    WrongCheckDigit,
}

// Why a key is not written.
#[derive(Clone, Copy, Debug, PartialEq, Eq)]
pub enum WriteError {
    WrongLength,
    KeyTooLarge,
}

impl Refusal {
    // A refusal that names no command and no character.
    pub fn plain(number: u64) -> Refusal
        ensures { result ≡ plain number }
    {
        Refusal {
            number,
            place: 0,
            character: 0,
        }
    }

    // The same refusal of the command at a place.
    pub fn at_place(self, place: usize) -> Refusal
        ensures { result ≡ at_place place self }
    {
        Refusal { place, ..self }
    }
}

impl From<Reason> for Refusal {
    ghost from_gives = { RefusedFor };

    fn from(reason: Reason) -> Refusal {
        match reason {
            Reason::WrongLength => Refusal::plain(8),
            Reason::WrongLetter(character) => Refusal {
                character: character.0,
                ..Refusal::plain(8)
            },
            Reason::WrongDigit(character) => Refusal {
                character: character.0,
                ..Refusal::plain(13)
            },
            Reason::WrongCheckDigit => Refusal {
                character: Identifier::CHECK as u8 + 1,
                ..Refusal::plain(9)
            },
        }
    }
}

impl From<WriteError> for Refusal {
    ghost from_gives = { UnwrittenFor };

    fn from(error: WriteError) -> Refusal {
        match error {
            WriteError::WrongLength => Refusal::plain(6),
            WriteError::KeyTooLarge => Refusal::plain(12),
        }
    }
}

impl Identifier {
    pub const LENGTH: usize = 13;

    pub const WEIGHTS: [u16; 8] = [8, 6, 4, 2, 3, 5, 9, 7];

    pub const LARGEST_KEY: u64 = 45_697_599_999_999;

    // Where the serial digits, the check digit and the last pair stand.
    const SERIAL: usize = 2;

    const CHECK: usize = 10;

    const LAST: usize = 11;

    // How many letters there are, pairs of letters, and serial numbers.
    const LETTERS: u64 = 26;

    const PAIRS: u64 = 676;

    const SERIALS: u64 = 100_000_000;

    // What the characters of the text with key 0 add up to.
    const LEAST_SUM: u64 = 118_998_533_331_483;

    // The key of a text.
    #[tactic(auto, unfolding(crate::specs::Outcome::read_text, crate::specs::Text::serial_digits))]
    pub fn read(text: &[u8]) -> Result<u64, Reason>
        ensures { text_outcome result ≡ read_text text.now }
    {
        if text.len() != Identifier::LENGTH {
            return Err(Reason::WrongLength);
        }
        if let Some(fault) = first_fault(text) {
            return Err(reason_at(fault));
        }
        let check = check_digit(&text[Identifier::SERIAL..Identifier::CHECK]);
        if text[Identifier::CHECK] - b'0' != check {
            return Err(Reason::WrongCheckDigit);
        }
        Ok(key_of(text))
    }

    // The key of a text that is not tested, as one that was read before; 0 where it is not thirteen characters long.
    #[tactic(auto, unfolding(crate::specs::Text::untested_key))]
    pub fn untested(text: &[u8]) -> u64
        ensures { result ≡ untested_key text.now }
    {
        if text.len() != Identifier::LENGTH {
            return 0;
        }
        key_of(text)
    }

    // Writes the text of a key. A refusal leaves the list as it was.
    #[tactic(auto, unfolding(crate::specs::Outcome::write_number, crate::specs::Outcome::write_text, crate::specs::Text::largest_key))]
    pub fn write(key: u64, text: &mut [u8]) -> Result<(), WriteError>
        ensures { (number result ≡ write_number key text.old) × (text.new ≡ write_text key text.old) }
    {
        let length = text.len();
        if length != Identifier::LENGTH {
            return Err(WriteError::WrongLength);
        }
        if key > Identifier::LARGEST_KEY {
            return Err(WriteError::KeyTooLarge);
        }
        write_key(key, text);
        Ok(())
    }
}

// Whether a digit stands at a position; else a letter does.
#[tactic(auto, unfolding(crate::specs::Text::asks_digit))]
fn asks_digit(i: usize) -> bool
    ensures { result ≡ asks_digit i }
{
    (Identifier::SERIAL..=Identifier::CHECK).contains(&i)
}

// Whether a character may stand at a position.
#[tactic(auto, unfolding(crate::specs::Text::is_allowed, crate::specs::Text::is_digit, crate::specs::Text::is_letter))]
fn is_allowed(i: usize, c: u8) -> bool
    ensures { result ≡ is_allowed i c }
{
    if asks_digit(i) {
        c.is_ascii_digit()
    } else {
        c.is_ascii_uppercase()
    }
}

// The position of the first character that is not allowed, if one is not.
#[tactic(auto, using(crate::proofs::Fault::fault_step), unfolding(crate::specs::Text::first_fault))]
fn first_fault(text: &[u8]) -> Option<usize>
    ensures { MatchOption result (first_fault 0 text.now ≡ length text.now) (λ i. (first_fault 0 text.now ≡ i) × (i < length text.now)) }
{
    for (i, c) in text.iter().enumerate() {
        if !is_allowed(i, *c) {
            return Some(i);
        }
    }
    None
}

// Why a text is refused whose first faulty character stands at a position.
#[tactic(auto, unfolding(crate::specs::Outcome::fault_at))]
fn reason_at(i: usize) -> Reason
    requires { i < 13 }
    ensures { refusal_for result ≡ fault_at i }
{
    let character = Character(i as u8 + 1);
    if asks_digit(i) {
        Reason::WrongDigit(character)
    } else {
        Reason::WrongLetter(character)
    }
}

// The eight digits, each times its weight, added.
fn weighted_sum(digits: &[u8]) -> u16
    requires { Serial digits.now }
    ensures value { result ≡ weighted weights (values digits.now) }
    ensures upper_bound { result ≤ 396 }
{
    let mut sum = 0;
    for (weight, digit) in Identifier::WEIGHTS.iter().zip(digits) {
        sum += *weight * (*digit - b'0') as u16;
    }
    sum
}

// The remainder by 11 of a weighted sum, without dividing. 11 * 93 is 1024 less 1, so the product lacks 1 for each 11 in the sum: at most 36,
// which are added.
fn remainder_by_11(sum: u16) -> u16
    requires { sum ≤ 396 }
    ensures { result ≡ sum % 11 }
{
    let quotient = (sum * 93 + 36) >> 10;
    sum - 11 * quotient
}

// The check digit of a weighted sum: 11 less the remainder by 11, with 10 and 11 replaced.
#[tactic(auto, unfolding(crate::specs::Text::excepted))]
fn check_of(sum: u16) -> u16
    requires { sum ≤ 396 }
    ensures { result ≡ excepted (11 - sum % 11) }
{
    match 11 - remainder_by_11(sum) {
        10 => 0,
        11 => 5,
        c => c,
    }
}

// The check digit of eight digits.
#[tactic(auto, using(crate::proofs::Weighted::check_digit_below), unfolding(crate::specs::Text::check_digit))]
fn check_digit(digits: &[u8]) -> u8
    requires { Serial digits.now }
    ensures { (result ≡ check_digit (values digits.now)) × (result < 10) }
{
    check_of(weighted_sum(digits)) as u8
}

// A pair of letters in a key, as characters.
fn pair_sum(first: u8, second: u8) -> u64
    ensures { (result ≡ 26 * first + second) × (result ≤ 6885) }
{
    Identifier::LETTERS * first as u64 + second as u64
}

// Eight digits in a key, as characters.
#[tactic(auto, using(crate::proofs::Decimal::decimal_step), unfolding(crate::specs::Text::decimal_number))]
fn serial_sum(digits: &[u8]) -> u64
    requires { length digits.now ≡ 8 }
    ensures { (result ≡ decimal_number 0 digits.now) × (result ≤ 2_900_000_000) }
{
    let mut n = 0;
    for digit in digits {
        n = n * 10 + *digit as u64;
    }
    n
}

// A sum of characters less what it is where each letter is A and each digit 0.
#[tactic(auto, unfolding(crate::specs::Text::least_sum))]
fn above_least(sum: u64) -> u64
    ensures { result ≡ sum - least_sum }
{
    sum.saturating_sub(Identifier::LEAST_SUM)
}

// The key of a text of thirteen characters, which are not tested.
#[tactic(auto, unfolding(crate::specs::Text::character_sum))]
fn key_of(text: &[u8]) -> u64
    requires { length text.now ≡ 13 }
    ensures { result ≡ character_sum text.now - least_sum }
{
    let first = pair_sum(text[0], text[1]);
    let serial = serial_sum(&text[Identifier::SERIAL..Identifier::CHECK]);
    let last = pair_sum(text[Identifier::LAST], text[Identifier::LAST + 1]);
    above_least((first * Identifier::SERIALS + serial) * Identifier::PAIRS + last)
}

// Writes the two letters of a pair.
#[tactic(auto, unfolding(crate::specs::Text::letters))]
fn write_pair(number: u64, text: &mut [u8])
    requires { (number < 676) × (length text.old ≡ 2) }
    ensures { text.new ≡ letters number }
{
    text[0] = b'A' + (number / Identifier::LETTERS) as u8;
    text[1] = b'A' + (number % Identifier::LETTERS) as u8;
}

// Writes the last decimal digits of a number, as many as there is room for.
fn write_digits(number: u64, text: &mut [u8])
    ensures { text.new ≡ characters (digits (length text.old) number) }
{
    let mut rest = number;
    for i in (0..text.len()).rev() {
        text[i] = b'0' + (rest % 10) as u8;
        rest = rest / 10;
    }
}

// Writes the last eight digits of a number and their check digit.
fn write_serial(number: u64, text: &mut [u8])
    requires { length text.old ≡ 9 }
    ensures { text.new ≡ serial_text number }
{
    let end = Identifier::CHECK - Identifier::SERIAL;
    write_digits(number, &mut text[0..end]);
    text[end] = b'0' + check_digit(&text[0..end]);
}

// Writes the text of a key.
fn write_key(key: u64, text: &mut [u8])
    requires { (key ≤ largest_key) × (length text.old ≡ 13) }
    ensures { text.new ≡ text_of key }
{
    write_pair(
        key / (Identifier::SERIALS * Identifier::PAIRS),
        &mut text[0..Identifier::SERIAL],
    );
    write_serial(
        key / Identifier::PAIRS,
        &mut text[Identifier::SERIAL..Identifier::LAST],
    );
    write_pair(
        key % Identifier::PAIRS,
        &mut text[Identifier::LAST..Identifier::LENGTH],
    );
}
