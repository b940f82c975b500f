// The steps along the chain: each locks, unlocks and links nodes as the model's step does. Functions here take nodes and no
// sequence numbers, but for the place that a loaded node gets.
// Nodes are bytes, and each step asks that its nodes are numbers 0 to 150: a `Node` cannot promise it, since the model's states have nodes of
// any number, and `panel` and `state_bytes` read any byte as a node.
ghost use Rattle.std.specs.Prelude.{◌≡◌, ◌&&◌, ◌≤◌, List};
ghost use Rattle.command.specs.declared.Command.{Command as Cmd};
ghost use Rattle.graph.specs.Arrays.{numbers, flags, is_ready, Nodes, NodesWithin, SameCommands, SteppedOn, Loaded, PutBack, Entered, Searches, Walks, ClearsOn, Forgets};
ghost use Rattle.graph.specs.Items.{Kept};

use crate::Graph;
use command::{Command, Seq};
use model::Thread;
use node_set::{Node, NodeSet};

// What a clearing worker's step leaves: its thread and the first free node.
#[derive(Clone, Copy)]
pub struct Cleared {
    pub thread: Thread,
    pub free: Node,
}

impl Graph {
    // The node behind a node, 0 for none.
    pub(crate) fn behind(&self, at: Node) -> Node
        requires { Nodes self.now.next × (at.0 ≤ 150) }
        ensures { (result.0 ≡ numbers self.now.next at.0) × (result.0 ≤ 150) }
    {
        Node(self.next[at.0 as usize])
    }

    // Whether a node is locked.
    pub(crate) fn is_locked(&self, node: Node) -> bool
        requires { node.0 ≤ 150 }
        ensures { result ≡ flags self.now.locked node.0 }
    {
        self.locked[node.0 as usize]
    }

    // Locks the next node and unlocks the old one.
    pub(crate) fn step_on(&mut self, from: Node, to: Node)
        requires { (from.0 ≤ 150) × (to.0 ≤ 150) }
        ensures { SteppedOn from.0 to.0 self.old self.new }
    {
        self.locked[to.0 as usize] = true;
        self.locked[from.0 as usize] = false;
    }

    // Takes the first free node for a command and its place, locks the head, and returns the next free node.
    pub fn load(&mut self, free: Node, place: Seq, command: Command) -> Node
        requires { (free.0 ≤ 150) × (place.0 ≤ 65535) }
        ensures { Loaded free.0 place.0 command self.old self.new result.0 }
    {
        let n = free.0 as usize;
        let rest = self.next[n];
        self.next[n] = 0;
        self.seq[n] = place.0 as u16;
        self.items[n] = Some(command);
        self.locked[0] = true; // the head
        Node(rest)
    }

    // Waits if the head is locked; else locks it, and the thread is `entered`.
    pub fn enter(&mut self, thread: Thread, entered: Thread) -> Thread
        ensures within { NodesWithin thread → NodesWithin entered → NodesWithin result }
        ensures steps { Entered thread entered self.old result self.new }
        ensures same { SameCommands self.old self.new × (self.new.next ≡ self.old.next) × (self.new.executing ≡ self.old.executing) × (self.new.waits ≡ self.old.waits) }
    {
        if self.is_locked(Node(0)) {
            return thread;
        }
        self.locked[0] = true;
        entered
    }

    // Whether a worker that is allowed to takes a node: it is waiting, with an empty set.
    fn takes(&self, node: Node, allowed: bool) -> bool
        requires { node.0 ≤ 150 }
        ensures { result ≡ (allowed && is_ready self.now node.0) }
    {
        let n = node.0 as usize;
        allowed && !self.executing[n] && self.waits[n].is_empty()
    }

    // A searching worker's step; one that is not allowed to takes no node.
    pub fn search(&mut self, at: Node, allowed: bool) -> Thread
        requires { Nodes self.old.next × (at.0 ≤ 150) }
        ensures within { NodesWithin result }
        ensures steps { Searches allowed at self.old result self.new }
        ensures same { SameCommands self.old self.new × (self.new.next ≡ self.old.next) × (self.new.waits ≡ self.old.waits) }
    {
        let y = self.behind(at);
        let n = y.0 as usize;
        if n == 0 {
            self.locked[at.0 as usize] = false;
            return Thread::Idle;
        }
        if self.is_locked(y) {
            return Thread::Searching { at };
        }
        self.step_on(at, y);
        if self.takes(y, allowed) {
            self.executing[n] = true;
            self.locked[n] = false;
            return Thread::Holding { own: y };
        }
        Thread::Searching { at: y }
    }

    // A walking worker's step: it bypasses its own node, or steps on.
    pub fn walk(&mut self, at: Node, own: Node) -> Thread
        requires { Nodes self.old.next × (at.0 ≤ 150) × (own.0 ≤ 150) }
        ensures within { NodesWithin result × Nodes self.new.next }
        ensures steps { Walks at own self.old result self.new }
        ensures same { SameCommands self.old self.new × (self.new.executing ≡ self.old.executing) × (self.new.waits ≡ self.old.waits) }
    {
        let y = self.behind(at);
        let n = y.0 as usize;
        if n == 0 || self.is_locked(y) {
            return Thread::Walking { at, own };
        }
        if y.0 == own.0 {
            self.next[at.0 as usize] = self.next[n];
            return Thread::Clearing { at, own };
        }
        self.step_on(at, y);
        Thread::Walking { at: y, own }
    }

    // A clearing worker's step: it returns its own node to the free list, or steps on and takes it out of the next node's set.
    pub fn clear(&mut self, at: Node, own: Node, free: Node) -> Cleared
        requires { Nodes self.old.next × (at.0 ≤ 150) × (own.0 ≤ 150) × (free.0 ≤ 150) }
        ensures within { NodesWithin result.thread × (result.free.0 ≤ 150) × Nodes self.new.next }
        ensures steps { ClearsOn at own free.0 self.old result.thread result.free.0 self.new }
        ensures kept { (cs : List Cmd) → Kept cs self.old → Kept cs self.new }
        ensures items { Forgets own.0 result.thread self.old self.new }
    {
        let y = self.behind(at);
        let n = y.0 as usize;
        if y.0 == 0 {
            self.locked[at.0 as usize] = false;
            self.put_back(own, free);
            return Cleared {
                thread: Thread::Idle,
                free: own,
            };
        }
        if self.is_locked(y) {
            return Cleared {
                thread: Thread::Clearing { at, own },
                free,
            };
        }
        self.step_on(at, y);
        self.waits[n] = self.waits[n].remove(own);
        Cleared {
            thread: Thread::Clearing { at: y, own },
            free,
        }
    }

    // Returns a node to the front of the free list, with no command, waiting, unlocked and with an empty set.
    fn put_back(&mut self, own: Node, free: Node)
        requires { own.0 ≤ 150 }
        ensures { PutBack own.0 free.0 self.old self.new }
    {
        let n = own.0 as usize;
        self.next[n] = free.0;
        self.seq[n] = 0;
        self.executing[n] = false;
        self.locked[n] = false;
        self.waits[n] = NodeSet::empty();
        self.items[n] = None;
    }
}
