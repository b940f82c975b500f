// A worker's lookup and its writing of store and answer. Functions here take sequence numbers and no nodes.
ghost use Rattle.std.specs.Prelude.{◌≡◌, true, List, ℕ, ◌≤◌, length};
ghost use Rattle.std.proofs.Math.Option.{Option, some};
ghost use Rattle.command.specs.declared.Command.{Command as Cmd};
ghost use Rattle.command.specs.declared.Kind.TheVariants.{Insert, Read};
ghost use Rattle.model.specs.Service.{found_for, in_one_step, write_kind, write as writing};
ghost use Rattle.model.specs.Store.{Store};
ghost use Rattle.model.specs.Image.{image_length};
ghost use Rattle.store.specs.Lists.{store_of};
ghost use Rattle.graph.specs.Items.{item_of};
ghost use Rattle.graph.specs.Memory.{image_for, limit_after, Writes};

use command::{Command, Kind, Seq};
use image::write_image;

// What a lookup finds for a command: the chute of its item, 0 where there is none.
#[tactic(auto, unfolding(model::specs::Service::found_for))]
pub fn look_up(item: Option<Command>, keys: &[u64], chutes: &[u16], used: usize) -> u16
    ensures { result ≡ found_for (item_of item) (store_of keys.now chutes.now used) }
{
    match item {
        Some(command) if command.kind.has_item() => store::look_up(keys, chutes, used, command.key),
        _ => 0,
    }
}

// Whether a command is written in the step of its lookup: a read is, having nothing to write in the store.
#[tactic(auto, unfolding(model::specs::Service::in_one_step))]
pub fn in_one_step(item: Option<Command>) -> bool
    ensures { result ≡ in_one_step (item_of item) }
{
    item.is_some_and(|command| command.kind.is_read())
}

// What a write answers, and the count in use after it.
#[derive(Clone, Copy)]
pub struct Written {
    pub answer: u16,
    pub used: usize,
}

// The answer of a read after its lookup; the store stays.
#[tactic(auto, unfolding(model::specs::Service::write_kind))]
fn answer_of_read(found: u16) -> u16
    ensures { (capacity key chute : ℕ) (st : Store) → write_kind Read capacity key chute found st ≡ writing result st }
{
    if found == 0 {
        return 1002;
    }
    found
}

// The answer of an insert after its lookup: an item that was found gets the chute, else the store is changed where there is room.
#[tactic(auto, unfolding(model::specs::Service::write_kind))]
fn serve_insert(
    key: u64,
    chute: u16,
    found: u16,
    keys: &mut [u64],
    chutes: &mut [u16],
    used: usize,
) -> Written
    ensures { write_kind Insert (length keys.old) key chute found (store_of keys.old chutes.old used) ≡ writing result.answer (store_of keys.new chutes.new result.used) }
{
    if found != 0 {
        store::replace(keys, chutes, used, key, chute);
        return Written { answer: 1004, used };
    }
    if keys.len() <= used {
        return Written { answer: 1003, used };
    }
    let more = store::insert(keys, chutes, used, key, chute);
    Written {
        answer: 1000,
        used: more,
    }
}

// The answer of a command after its lookup, with the store changed as the command asks.
#[tactic(auto, unfolding(model::specs::Service::write_kind))]
fn serve(command: Command, found: u16, keys: &mut [u64], chutes: &mut [u16], used: usize) -> Written
    ensures { write_kind command.kind (length keys.old) command.key command.chute found (store_of keys.old chutes.old used) ≡ writing result.answer (store_of keys.new chutes.new result.used) }
{
    let kind = command.kind;
    match kind {
        Kind::Insert => serve_insert(command.key, command.chute, found, keys, chutes, used),
        Kind::Delete => {
            if found == 0 {
                return Written { answer: 1002, used };
            }
            let less = store::remove(keys, chutes, used, command.key);
            Written {
                answer: 1000,
                used: less,
            }
        }
        Kind::Read => {
            let answer = answer_of_read(found);
            Written { answer, used }
        }
        Kind::Update => {
            if found == 0 {
                return Written { answer: 1002, used };
            }
            store::replace(keys, chutes, used, command.key, command.chute);
            Written { answer: 1000, used }
        }
        Kind::Workers => Written { answer: 1000, used },
        Kind::Checkpoint => Written { answer: 1000, used },
    }
}

// Writes a command's answer, and the store where the command changes it; returns the count in use.
pub fn write(
    item: Option<Command>,
    place: Seq,
    found: u16,
    keys: &mut [u64],
    chutes: &mut [u16],
    answers: &mut [u16],
    used: usize,
) -> usize
    requires { (c : Cmd) → item_of item ≡ some c → (1 ≤ place.0) × (place.0 ≤ length answers.old) }
    ensures { Writes (item_of item) place.0 found keys.old chutes.old answers.old used keys.new chutes.new answers.new result }
{
    let Some(command) = item else {
        return used;
    };
    let written = serve(command, found, keys, chutes, used);
    answers[place.0 - 1] = written.answer;
    written.used
}

// Puts the store into the image, where the command is a checkpoint: before it is written, which leaves the store as it is.
#[tactic(auto, unfolding(model::specs::Service::image_after))]
pub fn save(
    item: Option<Command>,
    place: Seq,
    keys: &[u64],
    chutes: &[u16],
    used: usize,
    image: &mut [u8],
)
    requires { length image.old ≡ image_length (length keys.now) }
    ensures { image.new ≡ image_for (item_of item) (length keys.now) place.0 (store_of keys.now chutes.now used) image.old }
{
    if item.is_some_and(|command| command.kind.is_checkpoint()) {
        write_image(keys, chutes, used, place.0, image);
    }
}

// The worker count in force after a command is written.
pub fn limit_after(item: Option<Command>, limit: usize) -> usize
    ensures { result ≡ limit_after (item_of item) limit }
{
    item.map_or(limit, |command| command.count_after(limit))
}

// Writes the answer of a command that is written in the step of its lookup.
pub fn write_read(place: Seq, found: u16, answers: &mut [u16])
    requires { (1 ≤ place.0) × (place.0 ≤ length answers.old) }
    ensures { (item : Option Cmd) (keys chutes : List ℕ) (used : ℕ) → in_one_step item ≡ true → Writes item place.0 found keys chutes answers.old used keys chutes answers.new used }
{
    answers[place.0 - 1] = answer_of_read(found);
}
