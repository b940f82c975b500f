// The set of nodes that a node waits for: three 64-bit words, taken and returned by value. A set has the nodes 0 to 191;
// a larger number is never a member.
#![tactic(auto)]

ghost use Rattle.std.specs.Prelude.{◌≡◌, Bool, false, not, ◌&&◌, ◌||◌, ℕ, ◌-◌, ◌^◌, eqb, ltb, List};
ghost use Rattle.node_set.specs.Members.{member, none_below, count_below, none_above};

use std::marker::Model;

// A node of the graph, by its number ("record number" of document 01). Node 0 is the head.
#[derive(Clone, Copy, Debug, PartialEq, Eq)]
pub struct Node(pub u8);

// The set with no member.
#[tactic(auto, using(crate::proofs::Words::no_member_of_zeros))]
pub fn empty() -> [u64; 3]
    ensures { (n : ℕ) → member result n ≡ false }
{
    [0, 0, 0]
}

// The set with `node` as a member too.
pub fn add(set: [u64; 3], node: Node) -> [u64; 3]
    ensures { (n : ℕ) → member result n ≡ (member set n || (eqb n node.0 && ltb n 192)) }
{
    let n = node.0;
    if n >= 192 {
        return set;
    }
    let i = (n / 64) as usize;
    let mut out = set;
    out[i] = set[i] | (1u64 << (n % 64));
    out
}

// The set without `node`.
pub fn remove(set: [u64; 3], node: Node) -> [u64; 3]
    ensures { (n : ℕ) → member result n ≡ (member set n && not (eqb n node.0)) }
{
    let n = node.0;
    if n >= 192 {
        return set;
    }
    let i = (n / 64) as usize;
    let mut out = set;
    out[i] = set[i] & !(1u64 << (n % 64));
    out
}

// Whether the set has no member.
pub fn is_empty(set: [u64; 3]) -> bool
    ensures { result ≡ none_below 192 (member set) }
{
    set[0] | set[1] | set[2] == 0
}

// How many members the set has.
pub fn count(set: [u64; 3]) -> u32
    ensures { result ≡ count_below 192 (member set) }
{
    set[0].count_ones() + set[1].count_ones() + set[2].count_ones()
}

// Whether a word has no bit set from place `places` on.
#[tactic(auto, using(crate::proofs::Places::shifted_to_zero, crate::proofs::Places::all_places))]
fn has_places(word: u64, places: u16) -> bool
    ensures { result ≡ ltb word (2 ^ places) }
{
    if places >= 64 {
        return true;
    }
    word >> places == 0
}

// Whether no member of the set is above a limit.
pub fn is_within(set: [u64; 3], limit: u8) -> bool
    ensures { result ≡ none_above 192 limit (member set) }
{
    let places = limit as u16 + 1;
    if !has_places(set[0], places) {
        return false;
    }
    if !has_places(set[1], places.saturating_sub(64)) {
        return false;
    }
    has_places(set[2], places.saturating_sub(128))
}

// The three words with their functions as methods, in clauses the three words.
#[derive(Clone, Copy, Debug, PartialEq, Eq)]
pub struct NodeSet {
    words: [u64; 3],
}

impl Model for NodeSet {
    ghost Value = { List ℕ };

    ghost view = { λ s. s.words };

    ghost inverse = { λ words. record { words = words } };
}

impl From<[u64; 3]> for NodeSet {
    ghost from_gives = { λ words set. set ≡ words };

    fn from(words: [u64; 3]) -> NodeSet {
        NodeSet { words }
    }
}

impl NodeSet {
    // The set with no member.
    pub fn empty() -> NodeSet
        ensures { (n : ℕ) → member result n ≡ false }
    {
        NodeSet { words: empty() }
    }

    // The three words of the set.
    pub fn words(self) -> [u64; 3]
        ensures { result ≡ self }
    {
        self.words
    }

    // The set with `node` as a member too.
    pub fn add(self, node: Node) -> NodeSet
        ensures { (n : ℕ) → member result n ≡ (member self n || (eqb n node.0 && ltb n 192)) }
    {
        NodeSet {
            words: add(self.words, node),
        }
    }

    // The set without `node`.
    pub fn remove(self, node: Node) -> NodeSet
        ensures { (n : ℕ) → member result n ≡ (member self n && not (eqb n node.0)) }
    {
        NodeSet {
            words: remove(self.words, node),
        }
    }

    // Whether the set has no member.
    pub fn is_empty(self) -> bool
        ensures { result ≡ none_below 192 (member self) }
    {
        is_empty(self.words)
    }

    // How many members the set has.
    pub fn count(self) -> u32
        ensures { result ≡ count_below 192 (member self) }
    {
        count(self.words)
    }

    // Whether no member of the set is above a limit.
    pub fn is_within(self, limit: u8) -> bool
        ensures { result ≡ none_above 192 limit (member self) }
    {
        is_within(self.words, limit)
    }
}
