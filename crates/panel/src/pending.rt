// Pending counts: for each node of the chain, how many nodes it waits for.
ghost use Rattle.std.specs.Prelude.{◌≡◌, length};
ghost use Rattle.node_set.specs.Members.{count_below};
ghost use Rattle.state_bytes.specs.Layout.{at_entry, Lists, state_length, state_in};
ghost use Rattle.s10.specs.Refusal.{plain};
ghost use Rattle.panel.specs.Reports.{report_of, report_refusal, report_number, report_left, pending_counts};

use node_set::Node;
use state_bytes::{LAST_NODE, Reason, next_at, set_at, tested};

// How many entries the report has.
const COUNTS: usize = 150;

// How many nodes a node waits for; a number that no node has waits for none.
fn count_of(state: &[u8], node: Node) -> u8
    requires { length state.now ≡ state_length }
    ensures { (l : Lists) → l.state ≡ state.now → result ≡ count_below 192 ((state_in l).graph.waits node.0) }
{
    let n = node.0;
    if n > LAST_NODE {
        return 0;
    }
    set_at(state, n as usize).count() as u8
}

// Writes the counts along the chain, and 0 after the last. A chain that runs in a circle is left after the last entry.
fn write_counts(state: &[u8], counts: &mut [u8])
    requires { (length state.now ≡ state_length) × (length counts.old ≡ 150) }
    ensures { (l : Lists) → l.state ≡ state.now → counts.new ≡ pending_counts (state_in l) }
{
    let mut node = next_at(state, Node(0));
    for count in counts {
        if node.0 == 0 {
            *count = 0;
        } else {
            *count = count_of(state, node);
            node = next_at(state, node);
        }
    }
}

// Writes the counts in chain order, and 0 after the last. A refusal leaves the list as it was.
pub fn pending_counts(
    state: &[u8],
    keys: &[u64],
    chutes: &[u16],
    answers: &[u16],
    commands: &[u8],
    counts: &mut [u8],
) -> Result<(), Reason>
    ensures refusal { report_refusal result ≡ plain (report_number (at_entry state keys chutes answers) commands.now (length counts.old) 150) }
    ensures left { counts.new ≡ report_left (report_of result) (pending_counts (state_in (at_entry state keys chutes answers))) counts.old }
{
    tested(
        state,
        keys,
        chutes.len(),
        answers.len(),
        commands.len(),
        counts.len() == COUNTS,
    )?;
    write_counts(state, counts);
    Ok(())
}
