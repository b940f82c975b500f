// Keys in the order that they were entered, linked so that the last of them that equals one is found: in tables that are lent, and in a
// struct that holds its own.
#![tactic(auto)]

ghost use Rattle.std.specs.Prelude.{◌≡◌, ℕ, suc, ◌≤◌, ◌<◌, [], ◌∷◌, ◌++◌, length, get_or, set};
ghost use Rattle.key_links.specs.Links.{bucket_of, last_in, last_of, place_at, Linked, Indexed};

use std::marker::Model;

// How many buckets there are for keys.
const BUCKETS: u64 = 4093;

// Tables for 4,096 keys, and for as many links or buckets: none is linked.
pub fn new_keys() -> [u64; 4096]
    ensures { length result ≡ 4096 }
{
    [0; 4096]
}

pub fn new_links() -> [u16; 4096]
    ensures { (length result ≡ 4096) × ((b : ℕ) → get_or result b 0 ≡ 0) }
{
    [0; 4096]
}

// The bucket of a key.
fn bucket_of(key: u64) -> usize
    ensures { (result ≡ bucket_of key) × (result < 4096) }
{
    (key % BUCKETS) as usize
}

// The last of the first k keys that equals one, counted from 1, 0 for none, along the links of its bucket.
fn last_of(keys: &[u64], previous: &[u16], k: usize, last: u16, key: u64) -> u16
    requires { (k ≤ length keys.now) × (length previous.now ≡ length keys.now) × (last ≡ last_in keys.now (bucket_of key) k) × Linked keys.now previous.now k }
    ensures { result ≡ last_of keys.now key k }
{
    let mut link = last;
    // A `while`: it follows links, and counts no index.
    while link != 0 {
        let j = link as usize - 1;
        if keys[j] == key {
            return link;
        }
        link = previous[j];
    }
    0
}

// The last of the first k keys that equals one, counted from 1, 0 for none.
pub fn find(keys: &[u64], previous: &[u16], heads: &[u16], k: usize, key: u64) -> u16
    requires { (k ≤ length keys.now) × (length previous.now ≡ length keys.now) × (length heads.now ≡ 4096) × Indexed keys.now previous.now heads.now k }
    ensures { result ≡ last_of keys.now key k }
{
    let last = heads[bucket_of(key)];
    last_of(keys, previous, k, last, key)
}

// Enters a key behind the first i.
pub fn enter(keys: &mut [u64], previous: &mut [u16], heads: &mut [u16], i: usize, key: u64)
    requires { (i < length keys.old) × (length keys.old ≤ 4096) × (length previous.old ≡ length keys.old) × (length heads.old ≡ 4096) × Indexed keys.old previous.old heads.old i }
    ensures entered { keys.new ≡ set keys.old i key }
    ensures index { Indexed keys.new previous.new heads.new (suc i) }
{
    let bucket = bucket_of(key);
    let last = heads[bucket];
    keys[i] = key;
    previous[i] = last;
    heads[bucket] = i as u16 + 1;
}

// Up to 4,096 keys. Each is linked to the one before it in its bucket, and each bucket to its last. Links count from 1, 0 for none: in
// fixed memory an `Option<u16>` takes twice the room.
#[derive(Drop)]
pub struct KeyLinks {
    keys: [u64; 4096],
    previous: [u16; 4096],
    heads: [u16; 4096],
    count: u16,
}

impl Model for KeyLinks {
    ghost use Rattle.std.specs.Prelude.{ℕ, List, take, ◌≤◌};
    ghost use Rattle.key_links.specs.Links.{Indexed};

    ghost Value = { List ℕ };

    ghost view = { λ a. take a.count a.keys };

    ghost invariant = { λ a. (a.count ≤ 4096) × Indexed a.keys a.previous a.heads a.count };
}

impl KeyLinks {
    // No key.
    pub fn new() -> KeyLinks
        ensures { result ≡ [] }
    {
        KeyLinks {
            keys: new_keys(),
            previous: new_links(),
            heads: new_links(),
            count: 0,
        }
    }

    // The place of the last that equals a key, from 0.
    pub fn find(&self, key: u64) -> Option<usize>
        ensures { result ≡ place_at (last_of self.now key (length self.now)) }
    {
        let count = self.count as usize;
        let link = find(&self.keys, &self.previous, &self.heads, count, key);
        if link == 0 {
            return None;
        }
        Some(link as usize - 1)
    }

    // Enters a key behind the others: its place.
    pub fn enter(&mut self, key: u64) -> usize
        requires { length self.old < 4096 }
        ensures { (result ≡ length self.old) × (self.new ≡ self.old ++ key ∷ []) }
    {
        let place = self.count as usize;
        enter(
            &mut self.keys,
            &mut self.previous,
            &mut self.heads,
            place,
            key,
        );
        self.count += 1;
        place
    }
}
