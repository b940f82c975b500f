// A call's answer in one number.
ghost use Rattle.std.specs.Prelude.{◌≡◌};
ghost use Rattle.depot_c.specs.Boundary.{packed, refusal_of, Fits};

use s10::Refusal;

// A refusal's number, the command's place from bit 8 on, and the character from bit 32 on.
fn packed(refusal: Refusal) -> u64
    requires { Fits refusal }
    ensures { result ≡ packed refusal }
{
    refusal.number + 256 * refusal.place as u64 + 4_294_967_296 * refusal.character as u64
}

// The answer of a call: 0, or its refusal in one number.
pub fn answer(outcome: Result<(), Refusal>) -> u64
    requires { Fits (refusal_of outcome) }
    ensures { result ≡ packed (refusal_of outcome) }
{
    match outcome {
        Ok(()) => 0,
        Err(refusal) => packed(refusal),
    }
}
