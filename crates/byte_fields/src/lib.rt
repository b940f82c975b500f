// Numbers as bytes, the high byte first: read at an offset of a list, and written there.
#![tactic(auto)]

ghost use Rattle.std.specs.Prelude.{◌≡◌, ◌+◌, ◌*◌, ◌≤◌, ℕ, List, length, get_or, eqb};
ghost use Rattle.byte_fields.specs.Bytes.{bytes_of, number_at, tabulate, fields, pasted, flag_byte};
ghost use Rattle.byte_fields.specs.Widths.{number_width, flag_width};

// How values stand in a list of bytes, each in as many. A number type is a field of its own values.
pub trait Field {
    type Value: Copy;

    const WIDTH: usize;

    ghost WIDTH: { ℕ };

    // The value that stands at an offset.
    ghost value_at: { ℕ → List ℕ → Self.Value };

    ghost bytes: { Self.Value → List ℕ };

    // The value at an offset.
    fn read(list: &[u8], at: usize) -> Self::Value
        requires { at + WIDTH ≤ length list.now }
        ensures { result ≡ value_at at list.now };

    // Writes a value at an offset.
    fn write(list: &mut [u8], at: usize, value: Self::Value)
        requires { at + WIDTH ≤ length list.old }
        ensures { list.new ≡ pasted at (bytes value) list.old };

    ghost has_width: { (value : Self.Value) → length (bytes value) ≡ WIDTH };
}

impl Field for u8 {
    type Value = u8;

    const WIDTH: usize = 1;

    ghost WIDTH = { 1 };

    ghost value_at = { λ at list. get_or list at 0 };

    ghost bytes = { bytes_of 1 };

    ghost has_width = { number_width 1 };

    fn read(list: &[u8], at: usize) -> u8 {
        list[at]
    }

    fn write(list: &mut [u8], at: usize, value: u8) {
        list[at] = value;
    }
}

impl Field for u16 {
    type Value = u16;

    const WIDTH: usize = 2;

    ghost WIDTH = { 2 };

    ghost value_at = { number_at 2 };

    ghost bytes = { bytes_of 2 };

    ghost has_width = { number_width 2 };

    fn read(list: &[u8], at: usize) -> u16 {
        u16::from_be_bytes([list[at], list[at + 1]])
    }

    fn write(list: &mut [u8], at: usize, value: u16) {
        list[at..at + 2].copy_from_slice(&value.to_be_bytes());
    }
}

impl Field for u64 {
    type Value = u64;

    const WIDTH: usize = 8;

    ghost WIDTH = { 8 };

    ghost value_at = { number_at 8 };

    ghost bytes = { bytes_of 8 };

    ghost has_width = { number_width 8 };

    // Byte by byte, and not by `from_be_bytes`: of that the compiler makes, in a loop over many, shuffles of four at once, which take longer than
    // to turn one round after the other.
    fn read(list: &[u8], at: usize) -> u64 {
        let mut n = 0;
        for k in 0..8 {
            n = n * 256 + list[at + k] as u64;
        }
        n
    }

    fn write(list: &mut [u8], at: usize, value: u64) {
        list[at..at + 8].copy_from_slice(&value.to_be_bytes());
    }
}

// A byte 1 is true.
impl Field for bool {
    type Value = bool;

    const WIDTH: usize = 1;

    ghost WIDTH = { 1 };

    ghost value_at = { λ at list. eqb (get_or list at 0) 1 };

    ghost bytes = { flag_byte };

    ghost has_width = { flag_width };

    fn read(list: &[u8], at: usize) -> bool {
        list[at] == 1
    }

    fn write(list: &mut [u8], at: usize, value: bool) {
        list[at] = value as u8;
    }
}

// Fills a list with the values that stand one after the other from an offset on.
pub fn read_fields<F: Field>(list: &[u8], at: usize, out: &mut [F::Value])
    requires { at + F.WIDTH * length out.old ≤ length list.now }
    ensures { out.new ≡ tabulate (length out.old) (λ (n : ℕ). F.value_at (at + F.WIDTH * n) list.now) }
{
    for (n, value) in out.iter_mut().enumerate() {
        *value = F::read(list, at + F::WIDTH * n);
    }
}

// Writes values one after the other from an offset on.
pub fn write_fields<F: Field>(list: &mut [u8], at: usize, from: &[F::Value])
    requires { at + F.WIDTH * length from.now ≤ length list.old }
    ensures { (default : F.Value) → list.new ≡ pasted at (fields (length from.now) (λ (n : ℕ). F.bytes (get_or from.now n default))) list.old }
{
    for (n, value) in from.iter().enumerate() {
        F::write(list, at + F::WIDTH * n, *value);
    }
}

// The number of two bytes at an offset, the high one first. This and `word_at` are names of instances, no less plain to call than these.
pub fn number_at(list: &[u8], at: usize) -> u16
    requires { at + 2 ≤ length list.now }
    ensures { result ≡ number_at 2 at list.now }
{
    u16::read(list, at)
}

// The number of eight bytes at an offset, the high one first.
pub fn word_at(list: &[u8], at: usize) -> u64
    requires { at + 8 ≤ length list.now }
    ensures { result ≡ number_at 8 at list.now }
{
    u64::read(list, at)
}

// Writes the last `width` bytes of a number, the high one first.
pub fn put_number(list: &mut [u8], at: usize, width: usize, n: u64)
    requires { at + width ≤ length list.old }
    ensures { list.new ≡ pasted at (bytes_of width n) list.old }
{
    let mut rest = n;
    for k in (0..width).rev() {
        list[at + k] = (rest % 256) as u8;
        rest = rest / 256;
    }
}
