// The lines that the program writes.
ghost use Rattle.std.specs.Prelude.{◌+◌, ◌*◌, ◌≤◌, ◌<◌, ◌≡◌, [], ◌++◌, length};
ghost use Rattle.command.specs.Read.{kind_of};
ghost use Rattle.state_bytes.specs.Layout.{lists, state_in};
ghost use Rattle.model.specs.Graph.{chain_from};
ghost use Rattle.depot.specs.Program.{decimal, space, kind_name, name_of, refusal, command_line, command_lines, totals, report};
ghost use Rattle.depot.specs.Wrote.{Wrote};

use crate::text::{NEWLINE, SPACE, put_byte, put_number, put_text};
use byte_fields::number_at;
use command::{Command, Kind, Seq};
use node_set::Node;
use panel::answers_from;
use state_bytes::{USED, next_at};

// How many nodes a chain has at most.
const LONGEST_CHAIN: usize = 150;

// The line of a refusal.
pub fn put_refusal(out: &mut [u8], number: u64) -> usize
    requires { (14 ≤ length out.old) × (number < 100) }
    ensures { Wrote (refusal number) 0 out.old out.new result }
{
    let at = put_text(out, 0, b"refused ");
    let at = put_number(out, at, number);
    put_byte(out, at, NEWLINE)
}

// The name of a kind.
fn name(kind: Kind) -> &'static [u8]
    ensures { result.now ≡ kind_name kind }
{
    match kind {
        Kind::Insert => b"insert",
        Kind::Delete => b"delete",
        Kind::Read => b"read",
        Kind::Update => b"update",
        Kind::Workers => b"workers",
        Kind::Checkpoint => b"checkpoint",
    }
}

// The name of the kind of a number; nothing for an unknown one.
fn put_kind(out: &mut [u8], at: usize, number: u8) -> usize
    requires { at + 10 ≤ length out.old }
    ensures wrote { Wrote (name_of (kind_of number)) at out.old out.new result }
    ensures upper_bound { result ≤ at + 10 }
{
    match Kind::try_from(number) {
        Ok(kind) => put_text(out, at, name(kind)),
        Err(_) => at,
    }
}

// A line's first two words, each with a space behind it.
fn put_start(out: &mut [u8], at: usize, place: Seq, number: u8) -> usize
    requires { (at + 16 ≤ length out.old) × (place.0 < 10000) }
    ensures wrote { Wrote (decimal place.0 ++ space ++ name_of (kind_of number) ++ space) at out.old out.new result }
    ensures upper_bound { result ≤ at + 16 }
{
    let at = put_number(out, at, place.0 as u64);
    let at = put_byte(out, at, SPACE);
    let at = put_kind(out, at, number);
    put_byte(out, at, SPACE)
}

// The line of a command: its place, kind, identifier and answer.
fn put_line(out: &mut [u8], at: usize, place: Seq, command: &[u8], answer: u16) -> usize
    requires { (at + 36 ≤ length out.old) × (place.0 < 10000) × (length command.now ≡ 16) }
    ensures wrote { Wrote (command_line place.0 command.now answer) at out.old out.new result }
    ensures upper_bound { result ≤ at + 36 }
{
    let at = put_start(out, at, place, command[0]);
    let at = put_text(out, at, &command[1..14]);
    let at = put_byte(out, at, SPACE);
    let at = put_number(out, at, answer as u64);
    put_byte(out, at, NEWLINE)
}

// The lines of all commands; their places are 1, 2, 3 and on. A command's answer is the first of those from its place on.
fn put_lines(out: &mut [u8], commands: &[u8], answers: &[u16]) -> usize
    requires { (length commands.now ≡ 16 * length answers.now) × (length answers.now < 4096) × (147456 ≤ length out.old) }
    ensures wrote { Wrote (command_lines commands.now answers.now) 0 out.old out.new result }
    ensures upper_bound { result ≤ 36 * length answers.now }
{
    let mut at = 0;
    for (i, command) in commands.chunks(Command::LENGTH).enumerate() {
        let place = Seq(i + 1);
        let rest = answers_from(answers, place);
        at = put_line(out, at, place, command, rest[0]);
    }
    at
}

// How many nodes the chain has.
fn chain_length(state: &[u8]) -> usize
    requires { length state.now ≡ 4718 }
    ensures value { result ≡ length (chain_from 150 0 (state_in (lists state.now [] [] [])).graph) }
    ensures upper_bound { result ≤ 150 }
{
    let mut node = Node(0);
    for count in 0..LONGEST_CHAIN {
        node = next_at(state, node);
        if node.0 == 0 {
            return count;
        }
    }
    LONGEST_CHAIN
}

// The last line: how many entries the store has, and how many nodes the chain.
fn put_totals(out: &mut [u8], at: usize, state: &[u8]) -> usize
    requires { (at + 22 ≤ length out.old) × (length state.now ≡ 4718) }
    ensures { Wrote (totals (state_in (lists state.now [] [] []))) at out.old out.new result }
{
    let at = put_text(out, at, b"store ");
    let at = put_number(out, at, number_at(state, USED) as u64);
    let at = put_text(out, at, b" chain ");
    let at = put_number(out, at, chain_length(state) as u64);
    put_byte(out, at, NEWLINE)
}

// The lines of all commands, then the last.
pub fn put_report(out: &mut [u8], state: &[u8], answers: &[u16], commands: &[u8]) -> usize
    requires commands_len { (length commands.now ≡ 16 * length answers.now) × (length answers.now < 4096) × (147456 ≤ length out.old) }
    requires state_len { length state.now ≡ 4718 }
    ensures { Wrote (report commands.now (lists state.now [] [] answers.now)) 0 out.old out.new result }
{
    let at = put_lines(out, commands, answers);
    put_totals(out, at, state)
}
