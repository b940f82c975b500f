// The commands of the nodes in use.
ghost use Rattle.std.specs.Prelude.{◌≡◌, ◌*◌, ◌≤◌, length};
ghost use Rattle.std.proofs.Math.Option.{some};
ghost use Rattle.command.specs.Read.{commands_in};
ghost use Rattle.model.specs.Setup.{command_at, both_dependent};
ghost use Rattle.graph.specs.Arrays.{numbers};
ghost use Rattle.graph.specs.Items.{item_of, kept_at};

use crate::Graph;
use command::{Command, Seq};
use node_set::Node;

impl Graph {
    // The command kept for a node, if it has one.
    pub fn item(&self, node: Node) -> Option<Command>
        requires { node.0 ≤ 150 }
        ensures { item_of result ≡ kept_at self.now.items node.0 }
    {
        self.items[node.0 as usize]
    }

    // The place of a node's command, 0 for none.
    pub fn place(&self, node: Node) -> Seq
        requires { node.0 ≤ 150 }
        ensures { result.0 ≡ numbers self.now.seq node.0 }
    {
        Seq(usize::from(self.seq[node.0 as usize]))
    }
}

// Whether the commands of two nodes are dependent; no command depends on none.
#[tactic(auto, unfolding(model::specs::Setup::both_dependent))]
pub fn dependent(a: Option<Command>, b: Option<Command>) -> bool
    ensures { result ≡ both_dependent (item_of a) (item_of b) }
{
    match (a, b) {
        (Some(first), Some(second)) => first.depends_on(second),
        _ => false,
    }
}

// The command of a place, as its bytes say it: they were tested when the list was opened.
pub fn command_at(list: &[u8], place: Seq) -> Command
    requires { (1 ≤ place.0) × (16 * place.0 ≤ length list.now) }
    ensures { command_at (commands_in list.now) place.0 ≡ some result }
{
    let end = place.0 * Command::LENGTH;
    Command::untested(&list[end - Command::LENGTH..end])
}
