// The program: reads settings, commands and a schedule from standard input, and writes the answers to standard output.
#![tactic(auto)]

ghost use Rattle.std.specs.Prelude.{◌≤◌, ◌≡◌, length, take, IfOk};
ghost use Rattle.io.specs.Counts.{IsPrefixLen};
ghost use Rattle.depot.specs.Program.{output};

mod perform;
mod report;
mod text;

use byte_fields::number_at;
use command::Command;
use perform::perform;
use report::put_refusal;
use std::io::{Print, Read};

// The longest input, and the length of what stands before the commands.
const LONGEST: usize = 65536;

const HEAD: usize = 6;

// Writes what the program says to an input, and answers how many bytes that is.
fn run(input: &[u8], out: &mut [u8]) -> usize
    requires { 147456 ≤ length out.old }
    ensures out_after { take result out.new ≡ output input.now }
    ensures prefix_len { IsPrefixLen result out.new }
{
    let length = input.len();
    if length > LONGEST {
        return put_refusal(out, 5);
    }
    if length < HEAD {
        return put_refusal(out, 4);
    }
    let count = number_at(input, 4) as usize;
    let end = HEAD + Command::LENGTH * count;
    if length < end {
        return put_refusal(out, 4);
    }
    let capacity = number_at(input, 2) as u64;
    perform(
        out,
        &input[HEAD..end],
        &input[end..],
        count,
        input[0] as u64,
        input[1] as u64,
        capacity,
    )
}

// Reads until the list is full or the input ends, and answers how many bytes that is.
fn read_full<R: Read>(input: &mut R, list: &mut [u8]) -> std::io::Result<usize>
    ensures { IfOk result (λ n. IsPrefixLen n list.new) }
{
    let mut done = 0;
    while done < list.len() {
        let count = input.read(&mut list[done..])?;
        if count == 0 {
            break;
        }
        done += count;
    }
    Ok(done)
}

// Reads at most one byte more than the longest input: that one tells a longer input.
fn main(rt: HostRuntime) -> std::io::Result<()> {
    let mut input = [0u8; 65537];
    let mut out = [0u8; 147456];
    let length = read_full(&mut rt.stdin(), &mut input)?;
    let written = run(&input[..length], &mut out);
    rt.stdout().write_all(&out[..written])
}
