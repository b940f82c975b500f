// The two calls on identifiers.
ghost use Rattle.std.specs.Prelude.{◌≡◌};
ghost use Rattle.s10.specs.Outcome.{write_number, write_text};
ghost use Rattle.depot_c.specs.Boundary.{packed, refusal_of, Fits, read_answer, read_left};

use crate::answer::answer;
use crate::lists::KEY;
use byte_fields::Field;
use s10::{Identifier, Refusal};
use state_bytes::Reason;

// Writes the key of a text as eight bytes.
fn read_identifier(text: &[u8], key: &mut [u8]) -> Result<(), Refusal>
    ensures number { packed (refusal_of result) ≡ read_answer text.now key.old }
    ensures fits { Fits (refusal_of result) }
    ensures left { key.new ≡ read_left text.now key.old }
{
    if key.len() != KEY {
        return Err(Refusal::from(Reason::WrongLength));
    }
    let read = Identifier::read(text)?;
    u64::write(key, 0, read);
    Ok(())
}

// Writes the text of a key.
fn write_identifier(key: u64, text: &mut [u8]) -> Result<(), Refusal>
    ensures number { packed (refusal_of result) ≡ write_number key text.old }
    ensures fits { Fits (refusal_of result) }
    ensures left { text.new ≡ write_text key text.old }
{
    Identifier::write(key, text)?;
    Ok(())
}

// The key of a text, as eight bytes. A refusal leaves the list as it was.
#[unsafe(no_mangle)]
pub extern "C" fn depot_read_identifier(text: &[u8], key: &mut [u8]) -> u64
    ensures number { result ≡ read_answer text.now key.old }
    ensures left { key.new ≡ read_left text.now key.old }
{
    answer(read_identifier(text, key))
}

// Writes the text of a key. A refusal leaves the list as it was.
#[unsafe(no_mangle)]
pub extern "C" fn depot_write_identifier(key: u64, text: &mut [u8]) -> u64
    ensures number { result ≡ write_number key text.old }
    ensures left { text.new ≡ write_text key text.old }
{
    answer(write_identifier(key, text))
}
