// Text written into a lent list, from a position on. Each function answers the position after it.
ghost use Rattle.std.specs.Prelude.{◌+◌, ◌≤◌, [], ◌∷◌, length};
ghost use Rattle.depot.specs.Program.{decimal};
ghost use Rattle.depot.specs.Wrote.{Wrote};

pub const SPACE: u8 = b' ';

pub const NEWLINE: u8 = b'\n';

// One character.
pub fn put_byte(out: &mut [u8], at: usize, byte: u8) -> usize
    requires { at + 1 ≤ length out.old }
    ensures { Wrote (byte ∷ []) at out.old out.new result }
{
    out[at] = byte;
    at + 1
}

// The characters of a list.
pub fn put_text(out: &mut [u8], at: usize, text: &[u8]) -> usize
    requires { at + length text.now ≤ length out.old }
    ensures { Wrote text.now at out.old out.new result }
{
    let end = at + text.len();
    out[at..end].copy_from_slice(text);
    end
}

// A number in decimal, without leading zeros.
pub fn put_number(out: &mut [u8], at: usize, number: u64) -> usize
    requires { at + length (decimal number) ≤ length out.old }
    ensures { Wrote (decimal number) at out.old out.new result }
{
    let mut digits = [0u8; 20];
    let count = io::decimal(number, &mut digits);
    put_text(out, at, &digits[..count])
}
