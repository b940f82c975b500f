// The image of the store: written at a checkpoint, tested and read when a run is opened from it.
#![tactic(auto)]

ghost use Rattle.std.specs.Prelude.{◌≡◌, true, ◌+◌, ◌*◌, ◌≤◌, length, eqb};
ghost use Rattle.byte_fields.specs.Bytes.{pasted};
ghost use Rattle.model.specs.Store.{lay_out};
ghost use Rattle.model.specs.Image.{image_length, slot_bytes, next_index, image_of, next_in, chute_in, key_in, rest_in};
ghost use Rattle.model.specs.Image.{chain_fits, head_fits, slot_fits, slots_fit, entries_in};
ghost use Rattle.store.specs.Lists.{store_of};

use byte_fields::{number_at, put_number, word_at};
use s10::Identifier;
use store::in_use;

// The bytes of a record: next index, chute, key and four zeros.
pub const SLOT: usize = 16;

// The largest place of a checkpoint, and the largest chute.
const LARGEST_PLACE: u64 = 4096;

const LARGEST_CHUTE: u16 = 512;

// ---- written

// Writes record i.
fn put_slot(image: &mut [u8], i: usize, next: usize, chute: u16, key: u64)
    requires { 16 * i + 16 ≤ length image.old }
    ensures { image.new ≡ pasted (16 * i) (slot_bytes next chute key) image.old }
{
    let at = SLOT * i;
    put_number(image, at, 2, next as u64);
    put_number(image, at + 2, 2, chute as u64);
    put_number(image, at + 4, 8, key);
    put_number(image, at + 12, 4, 0);
}

// The index behind record i, where the entries of the first `used` places stand in records 1, 2 and on.
#[tactic(auto, unfolding(model::specs::Image::next_index))]
fn next_index(used: usize, i: usize) -> usize
    ensures { result ≡ next_index used i }
{
    if i < used { i + 1 } else { 0 }
}

// Writes the store's image, with the place of its checkpoint.
#[tactic(auto, unfolding(model::specs::Image::image_length))]
pub fn write_image(keys: &[u64], chutes: &[u16], used: usize, place: usize, image: &mut [u8])
    requires { length image.old ≡ image_length (length keys.now) }
    ensures { image.new ≡ image_of (length keys.now) place (store_of keys.now chutes.now used) }
{
    let n = in_use(keys, chutes, used);
    put_slot(image, 0, next_index(n, 0), 0, place as u64);
    for i in 0..n {
        put_slot(image, i + 1, next_index(n, i + 1), chutes[i], keys[i]);
    }
    image[SLOT * (n + 1)..].fill(0);
}

// ---- read

// The next index of record i.
#[tactic(auto, unfolding(model::specs::Image::next_in))]
fn next_in(image: &[u8], i: usize) -> usize
    requires { 16 * i + 16 ≤ length image.now }
    ensures { result ≡ next_in image.now i }
{
    number_at(image, SLOT * i) as usize
}

// Its chute.
#[tactic(auto, unfolding(model::specs::Image::chute_in))]
fn chute_in(image: &[u8], i: usize) -> u16
    requires { 16 * i + 16 ≤ length image.now }
    ensures { result ≡ chute_in image.now i }
{
    number_at(image, SLOT * i + 2)
}

// Its key.
#[tactic(auto, unfolding(model::specs::Image::key_in))]
fn key_in(image: &[u8], i: usize) -> u64
    requires { 16 * i + 16 ≤ length image.now }
    ensures { result ≡ key_in image.now i }
{
    word_at(image, SLOT * i + 4)
}

// Whether its last four bytes are zeros.
fn rest_is_zero(image: &[u8], i: usize) -> bool
    requires { 16 * i + 16 ≤ length image.now }
    ensures { result ≡ eqb (rest_in image.now i) 0 }
{
    number_at(image, SLOT * i + 12) == 0 && number_at(image, SLOT * i + 14) == 0
}

// Whether the chain stays within the room and its keys strictly ascend: refusal 15 where not. A chain that does ends.
#[tactic(auto, unfolding(model::specs::Image::image_length))]
pub fn chain_fits(image: &[u8], capacity: usize) -> bool
    requires { length image.now ≡ image_length capacity }
    ensures { result ≡ chain_fits capacity image.now }
{
    let mut i = next_in(image, 0);
    let mut last = None;
    for _ in 0..=capacity {
        if i == 0 {
            break;
        }
        if i > capacity {
            return false;
        }
        let key = key_in(image, i);
        if let Some(last) = last {
            if key <= last {
                return false;
            }
        }
        last = Some(key);
        i = next_in(image, i);
    }
    true
}

// Whether chute, place and zero bytes of record 0 are in range.
#[tactic(auto, unfolding(model::specs::Image::head_fits))]
fn head_fits(image: &[u8]) -> bool
    requires { 16 ≤ length image.now }
    ensures { result ≡ head_fits image.now }
{
    chute_in(image, 0) == 0 && key_in(image, 0) <= LARGEST_PLACE && rest_is_zero(image, 0)
}

// Whether key, chute and zero bytes of record i are in range.
#[tactic(auto, unfolding(model::specs::Image::slot_fits, s10::specs::Text::largest_key))]
fn slot_fits(image: &[u8], i: usize) -> bool
    requires { 16 * i + 16 ≤ length image.now }
    ensures { result ≡ slot_fits image.now i }
{
    key_in(image, i) <= Identifier::LARGEST_KEY
        && (1..=LARGEST_CHUTE).contains(&chute_in(image, i))
        && rest_is_zero(image, i)
}

// Whether record 0 and those on a chain that fits are in range: refusal 16 where not.
#[tactic(auto, unfolding(model::specs::Image::image_length))]
pub fn slots_fit(image: &[u8], capacity: usize) -> bool
    requires { (length image.now ≡ image_length capacity) × (chain_fits capacity image.now ≡ true) }
    ensures { result ≡ slots_fit capacity image.now }
{
    if !head_fits(image) {
        return false;
    }
    let mut i = next_in(image, 0);
    for _ in 0..capacity {
        if i == 0 {
            break;
        }
        if !slot_fits(image, i) {
            return false;
        }
        i = next_in(image, i);
    }
    true
}

// Lays the entries of an image whose chain fits out as the store, 0 past them, and returns how many there are.
#[tactic(auto, unfolding(model::specs::Image::image_length))]
pub fn read_image(image: &[u8], keys: &mut [u64], chutes: &mut [u16]) -> usize
    requires { (length image.now ≡ image_length (length keys.old)) × (length chutes.old ≡ length keys.old) × (chain_fits (length keys.old) image.now ≡ true) }
    ensures { store_of keys.new chutes.new result ≡ lay_out (length keys.old) (entries_in (length keys.old) image.now) }
{
    let room = keys.len();
    let mut index = next_in(image, 0);
    for used in 0..room {
        if index == 0 {
            keys[used..].fill(0);
            chutes[used..].fill(0);
            return used;
        }
        keys[used] = key_in(image, index);
        chutes[used] = chute_in(image, index);
        index = next_in(image, index);
    }
    room
}
