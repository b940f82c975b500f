// Keeping the commands of all nodes at once, from their sequence numbers.
ghost use Rattle.std.specs.Prelude.{◌≡◌, ℕ, ◌*◌, ◌≤◌, length, get_or};
ghost use Rattle.command.specs.Read.{commands_in};
ghost use Rattle.model.specs.Setup.{command_at};
ghost use Rattle.graph.specs.Items.{item_of, Kept};

use crate::Graph;
use crate::items::command_at;
use command::{Command, Seq};

impl Graph {
    // Keeps for each node the command of its sequence number, and none for a node that has none.
    pub fn keep_all(&mut self, list: &[u8])
        requires { (n : ℕ) → 16 * get_or self.old.seq n 0 ≤ length list.now }
        ensures kept { Kept (commands_in list.now) self.new }
        ensures same { (self.new.next ≡ self.old.next) × (self.new.seq ≡ self.old.seq) × (self.new.executing ≡ self.old.executing) × (self.new.locked ≡ self.old.locked) × (self.new.waits ≡ self.old.waits) }
    {
        for n in 0..151 {
            self.items[n] = command_of(list, Seq(usize::from(self.seq[n])));
        }
    }
}

// The command of a place; place 0 has none.
#[tactic(auto, unfolding(model::specs::Setup::command_at))]
fn command_of(list: &[u8], place: Seq) -> Option<Command>
    requires { 16 * place.0 ≤ length list.now }
    ensures { item_of result ≡ command_at (commands_in list.now) place.0 }
{
    if place.0 == 0 {
        return None;
    }
    Some(command_at(list, place))
}
