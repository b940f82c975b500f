// Sets and threads as fields of the state bytes.
ghost use Rattle.std.specs.Prelude.{◌≡◌, ◌∷◌, []};
ghost use Rattle.node_set.specs.Members.{member};
ghost use Rattle.byte_fields.specs.Bytes.{bytes_of};
ghost use Rattle.state_bytes.specs.Layout.{set_bytes, thread_of, thread_bytes};
ghost use Rattle.state_bytes.specs.Fields.{set_in, thread_in, set_width, thread_width};

use byte_fields::Field;
use model::Thread;
use node_set::{Node, NodeSet};

// A set: three words.
pub struct SetField;

impl Field for SetField {
    type Value = NodeSet;

    const WIDTH: usize = 24;

    ghost WIDTH = { 24 };

    ghost value_at = { set_in };

    ghost bytes = { λ set. set_bytes (member set) };

    ghost has_width = { set_width };

    fn read(list: &[u8], at: usize) -> NodeSet {
        NodeSet::from([
            u64::read(list, at),
            u64::read(list, at + 8),
            u64::read(list, at + 16),
        ])
    }

    fn write(list: &mut [u8], at: usize, set: NodeSet) {
        let words = set.words();
        u64::write(list, at, words[0]);
        u64::write(list, at + 8, words[1]);
        u64::write(list, at + 16, words[2]);
    }
}

// A thread as numbers: its state's, where it stands, its own node, what it found; 0 where its state has none.
#[derive(Clone, Copy)]
struct Parts(u8, u8, u8, u16);

// The state with a number, of a thread that stands at a node, has an own node and found a chute.
#[tactic(auto, unfolding(crate::specs::Layout::thread_of))]
fn thread_of(tag: u8, at: Node, own: Node, found: u16) -> Thread
    ensures { result ≡ thread_of tag at.0 own.0 found }
{
    match tag {
        1 => Thread::Loading { at, own },
        2 => Thread::Searching { at },
        3 => Thread::Holding { own },
        4 => Thread::LookedUp { own, found },
        5 => Thread::Written { own },
        6 => Thread::Walking { at, own },
        7 => Thread::Clearing { at, own },
        _ => Thread::Idle,
    }
}

// The numbers of a thread.
#[tactic(auto, unfolding(crate::specs::Layout::thread_bytes))]
fn parts_of(thread: Thread) -> Parts
    ensures { thread_bytes thread ≡ result.0 ∷ result.1 ∷ result.2 ∷ bytes_of 2 result.3 }
{
    match thread {
        Thread::Idle => Parts(0, 0, 0, 0),
        Thread::Loading { at, own } => Parts(1, at.0, own.0, 0),
        Thread::Searching { at } => Parts(2, at.0, 0, 0),
        Thread::Holding { own } => Parts(3, 0, own.0, 0),
        Thread::LookedUp { own, found } => Parts(4, 0, own.0, found),
        Thread::Written { own } => Parts(5, 0, own.0, 0),
        Thread::Walking { at, own } => Parts(6, at.0, own.0, 0),
        Thread::Clearing { at, own } => Parts(7, at.0, own.0, 0),
    }
}

// A thread: five bytes.
pub struct ThreadField;

impl Field for ThreadField {
    type Value = Thread;

    const WIDTH: usize = 5;

    ghost WIDTH = { 5 };

    ghost value_at = { thread_in };

    ghost bytes = { thread_bytes };

    ghost has_width = { thread_width };

    fn read(list: &[u8], at: usize) -> Thread {
        let own = Node(list[at + 2]);
        thread_of(list[at], Node(list[at + 1]), own, u16::read(list, at + 3))
    }

    fn write(list: &mut [u8], at: usize, thread: Thread) {
        let parts = parts_of(thread);
        list[at] = parts.0;
        list[at + 1] = parts.1;
        list[at + 2] = parts.2;
        u16::write(list, at + 3, parts.3);
    }
}
