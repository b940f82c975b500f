// The walking loader's step: it links the new node at the end of the chain, or steps on and notes a dependence.
ghost use Rattle.std.specs.Prelude.{◌≤◌};
ghost use Rattle.graph.specs.Arrays.{Nodes, NodesWithin, SameCommands, Linked};
ghost use Rattle.graph.specs.Memory.{AddsDependence, LoaderWalks};

use crate::Graph;
use crate::items::dependent;
use model::Thread;
use node_set::Node;

impl Graph {
    // Links a node as waiting behind the node that the loader stands on, which it unlocks.
    fn link(&mut self, at: Node, own: Node)
        requires { (at.0 ≤ 150) × (own.0 ≤ 150) }
        ensures { Linked at.0 own.0 self.old self.new }
    {
        self.next[at.0 as usize] = own.0;
        self.executing[own.0 as usize] = false;
        self.locked[at.0 as usize] = false;
    }

    // Adds a node to the set of the loader's own node if the commands of the two are dependent.
    fn add_dependence(&mut self, own: Node, y: Node)
        requires { (own.0 ≤ 150) × (y.0 ≤ 150) }
        ensures { AddsDependence own.0 y.0 self.old self.new }
    {
        if dependent(self.item(y), self.item(own)) {
            let n = own.0 as usize;
            self.waits[n] = self.waits[n].add(y);
        }
    }

    // The walking loader's step.
    pub fn loader_walk(&mut self, at: Node, own: Node) -> Thread
        requires { Nodes self.old.next × (at.0 ≤ 150) × (own.0 ≤ 150) }
        ensures within { NodesWithin result × Nodes self.new.next }
        ensures steps { LoaderWalks at own self.old result self.new }
        ensures same { SameCommands self.old self.new }
    {
        let y = self.behind(at);
        if y.0 == 0 {
            self.link(at, own);
            return Thread::Idle;
        }
        if self.is_locked(y) {
            return Thread::Loading { at, own };
        }
        self.step_on(at, y);
        self.add_dependence(own, y);
        Thread::Loading { at: y, own }
    }
}
