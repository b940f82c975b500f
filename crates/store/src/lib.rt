// The sorted store on two lists that the caller lends, with the count of places in use. Each function is defined for any
// contents and any count. Keys and chutes are two lists, not one of entries, since the C calls lend two (`depot_open`).
#![tactic(auto)]

ghost use Rattle.std.specs.Prelude.{◌≡◌, cond, ◌+◌, ◌-◌, ◌*◌, ◌/◌, ◌<◌, ◌≤◌, ◌++◌, ◌∷◌, length, get_or, ltb, take, drop};
ghost use Rattle.model.specs.Store.{in_use, look_up, place_among, insert as inserted, remove as removed, replace as replaced};
ghost use Rattle.store.specs.Lists.{store_of};
ghost use Rattle.store.specs.Find.{found_among, Leads};

// How many places are in use: as many as the count says, and no more than both lists have.
#[tactic(auto, unfolding(model::specs::Store::in_use, model::specs::Store::room))]
pub fn in_use(keys: &[u64], chutes: &[u16], used: usize) -> usize
    ensures counted { result ≡ in_use (store_of keys.now chutes.now used) }
    ensures within { (result ≤ length keys.now) × (result ≤ length chutes.now) }
{
    used.min(keys.len().min(chutes.len()))
}

// The places left to a search: so many, from one on.
#[derive(Clone, Copy)]
struct Left {
    from: usize,
    size: usize,
}

// One halving of what is left.
fn halved(keys: &[u64], left: Left, key: u64) -> Left
    requires { (1 ≤ left.size) × (left.from + left.size ≤ length keys.now) }
    ensures { Leads keys.now key left result × (result.size ≡ left.size - left.size / 2) }
{
    let from = left.from;
    let half = left.size / 2;
    let middle = from + half;
    Left {
        from: if keys[middle] < key { middle } else { from },
        size: left.size - half,
    }
}

// Three halvings. They are written out, and not a loop, so that each is compiled to a choice between two numbers and not to a jump: which way
// a search goes cannot be foretold.
fn thrice(keys: &[u64], left: Left, key: u64) -> Left
    requires { (1 ≤ left.size) × (left.from + left.size ≤ length keys.now) }
    ensures { Leads keys.now key left result × (8 * result.size ≤ left.size + 7) }
{
    let once = halved(keys, left, key);
    let twice = halved(keys, once, key);
    halved(keys, twice, key)
}

// Three halvings where more than so many are left, an eighth of which is to be left then.
fn narrowed(keys: &[u64], left: Left, most: usize, key: u64) -> Left
    requires { (1 ≤ left.size) × (left.from + left.size ≤ length keys.now) × (left.size ≤ 8 * most) }
    ensures { Leads keys.now key left result × (result.size ≤ most) }
{
    if left.size <= most {
        return left;
    }
    thrice(keys, left, key)
}

// A place, or the one behind it if its key is smaller.
fn behind(keys: &[u64], at: usize, key: u64) -> usize
    requires { at < length keys.now }
    ensures { result ≡ cond (ltb (get_or keys.now at 0) key) (at + 1) at }
{
    if keys[at] < key { at + 1 } else { at }
}

// Where a key stands in the first n places, or belongs where it is absent: binary search. std's `binary_search` promises a place on sorted keys
// alone, and `place_among` has one value on any contents.
fn place(keys: &[u64], n: usize, key: u64) -> usize
    requires { n ≤ length keys.now }
    ensures found { result ≡ place_among n keys.now key }
    ensures within { result ≤ n }
{
    if n == 0 {
        return 0;
    }
    let mut left = Left { from: 0, size: n };
    while left.size > 512 {
        left = halved(keys, left, key);
    }
    let few = narrowed(keys, left, 64, key);
    let fewer = narrowed(keys, few, 8, key);
    let last = thrice(keys, fewer, key);
    behind(keys, last.from, key)
}

// Searches the first n places for a key: `Ok` has the place where it stands, `Err` the one where it belongs. Which of both it is is chosen, too.
#[tactic(auto, unfolding(crate::specs::Find::found_among))]
fn find(keys: &[u64], n: usize, key: u64) -> Result<usize, usize>
    requires { n ≤ length keys.now }
    ensures { result ≡ found_among n keys.now key }
{
    let at = place(keys, n, key);
    let held = at < n && keys[at] == key;
    held.then_some(at).ok_or(at)
}

// Puts a value in at place p of the first n, with those from p on shifted up.
#[tactic(auto, using(crate::proofs::Shift::put_in))]
fn shift_up<T: Copy>(list: &mut [T], p: usize, n: usize, value: T)
    requires { (p ≤ n) × (n < length list.old) }
    ensures { list.new ≡ take p list.old ++ (value ∷ take (n - p) (drop p list.old)) ++ drop (n + 1) list.old }
{
    list.copy_within(p..n, p + 1);
    list[p] = value;
}

// Takes the value at place p out of the first n, with those after it shifted down and `freed` in the freed place.
#[tactic(auto, using(crate::proofs::Shift::taken_out))]
fn shift_down<T: Copy>(list: &mut [T], p: usize, n: usize, freed: T)
    requires { (p < n) × (n ≤ length list.old) }
    ensures { list.new ≡ take p list.old ++ take (n - (p + 1)) (drop (p + 1) list.old) ++ (freed ∷ drop n list.old) }
{
    list.copy_within(p + 1..n, p);
    list[n - 1] = freed;
}

// The chute of a key, 0 where the store does not hold it. A chute is read in any case and then chosen: a jump on what was found, which cannot be
// foretold either, would wait for the whole search.
pub fn look_up(keys: &[u64], chutes: &[u16], used: usize, key: u64) -> u16
    ensures { result ≡ look_up key (store_of keys.now chutes.now used) }
{
    let entries = in_use(keys, chutes, used);
    if entries == 0 {
        return 0;
    }
    let found = find(keys, entries, key);
    let chute = chutes[found.unwrap_or(0)];
    if found.is_ok() { chute } else { 0 }
}

// Puts a key and its chute in where the key belongs, with later entries shifted up, and returns the count in use. A key
// that is held gets the chute. Nothing changes where it is not held and no place is left.
pub fn insert(keys: &mut [u64], chutes: &mut [u16], used: usize, key: u64, chute: u16) -> usize
    ensures { store_of keys.new chutes.new result ≡ inserted key chute (store_of keys.old chutes.old used) }
{
    let room = keys.len().min(chutes.len());
    let n = in_use(keys, chutes, used);
    match find(keys, n, key) {
        Ok(at) => {
            chutes[at] = chute;
            used
        }
        Err(_) if room <= n => used,
        Err(at) => {
            shift_up(keys, at, n, key);
            shift_up(chutes, at, n, chute);
            n + 1
        }
    }
}

// Takes a key and its chute out, with later entries shifted down and 0 in the freed place, and returns the count in use.
// Nothing changes where the key is not held.
pub fn remove(keys: &mut [u64], chutes: &mut [u16], used: usize, key: u64) -> usize
    ensures { store_of keys.new chutes.new result ≡ removed key (store_of keys.old chutes.old used) }
{
    let n = in_use(keys, chutes, used);
    match find(keys, n, key) {
        Ok(at) => {
            shift_down(keys, at, n, 0);
            shift_down(chutes, at, n, 0);
            n - 1
        }
        Err(_) => used,
    }
}

// Gives a key another chute. Nothing changes where the key is not held.
pub fn replace(keys: &[u64], chutes: &mut [u16], used: usize, key: u64, chute: u16)
    ensures { store_of keys.now chutes.new used ≡ replaced key chute (store_of keys.now chutes.old used) }
{
    let n = in_use(keys, chutes, used);
    if let Ok(place) = find(keys, n, key) {
        chutes[place] = chute;
    }
}
