// Where each field of the state bytes begins, docs/STATE-LAYOUT.md, and how many bytes there are.
pub const STATE_LENGTH: usize = 4718;

pub const CHAIN: usize = 0;

pub const SIZE: usize = 1;

pub const WORKERS: usize = 2;

pub const LARGEST: usize = 3;

pub const CAPACITY: usize = 4;

pub const COUNT: usize = 6;

pub const LOADED: usize = 8;

pub const USED: usize = 10;

pub const FREE: usize = 12;

pub const LIMIT: usize = 13;

pub const NEXT: usize = 14;

pub const SEQ: usize = 165;

pub const EXECUTING: usize = 467;

pub const LOCKED: usize = 618;

pub const WAITS: usize = 769;

pub const THREADS: usize = 4393;

// The largest number of a node.
pub const LAST_NODE: u8 = 150;

// The number of the lock-coupled chain.
pub const LOCK_COUPLED: u8 = 1;
