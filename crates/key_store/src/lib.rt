// Storing a key in the index, where its block is known.
#![tactic(auto)]

ghost use Rattle.std.specs.Prelude.{◌*◌, ◌≤◌, ◌<◌, ◌≡◌, true, length};
ghost use Rattle.refusal.specs.Outcome.{outcome_of};
ghost use Rattle.octets.specs.Bytes.{be, Bytes};
ghost use Rattle.key_index.specs.View.{key_limit, view};
ghost use Rattle.key_index.specs.Good.{good};
ghost use Rattle.key_index.specs.Rules.{SortedFrom};
ghost use Rattle.key_store.specs.Store.{examine_of, put_of};
ghost use Rattle.key_store.specs.Answer.{given_by, meaning_of, handed, store_for};
ghost use Rattle.key_store.specs.Move.{nearer, key_at_place};
ghost use Rattle.key_store.specs.Judge.{Judges, Admits, Fits};

use key_index::{KeyIndex, LIMIT, WIDTH};
use refusal::Refusal;
use rlp::Payload;

// What an accepted call hands on: where the payload stands in the content, and the farthest key where the new one took its place.
#[derive(Clone, Copy, PartialEq, Eq)]
pub struct Stored {
    pub payload: Payload,
    pub evicted: Option<[u8; 9]>,
}

// A key that is to be stored, its place among those held, and where its payload stands.
#[derive(Clone, Copy)]
struct Fitting {
    key: [u8; 9],
    place: usize,
    payload: Payload,
}

// Stores any bytes as a key, with any bytes as its content, where the block is not newer than the newest known one. A refused call leaves the
// index as it is.
pub fn store(
    index: &mut KeyIndex,
    bytes: &[u8],
    content: &[u8],
    newest: u64,
) -> Result<Stored, Refusal>
    ensures { meaning_of result index.new ≡ store_for key_limit index.old bytes.now content.now newest }
{
    let fitting = judge(index, bytes, content, newest)?;
    Ok(put(index, fitting))
}

// The tests of a store call, in order.
fn judge(index: &KeyIndex, bytes: &[u8], content: &[u8], newest: u64) -> Result<Fitting, Refusal>
    ensures { Judges key_limit (view index.now) bytes.now content.now newest result }
{
    if !index.is_good() {
        return Err(Refusal::BadState);
    }
    let key = content_key::key(bytes)?;
    let payload = examine(key, content, newest)?;
    admit(index, key, payload)
}

// What a key and its content come to before the index is asked: a block newer than the newest known one is refused, whatever the content is.
#[tactic(auto, using(crate::proofs::Answers::examine_future, crate::proofs::Answers::examine_known))]
fn examine(key: [u8; 9], content: &[u8], newest: u64) -> Result<Payload, Refusal>
    ensures { outcome_of result ≡ examine_of key content.now newest }
{
    if newest < content_key::block(key) {
        return Err(Refusal::BeyondNewest);
    }
    rlp::check(content)
}

// A key with acceptable content: refused where it is held or too far, else its place.
#[tactic(auto, using(crate::proofs::Answers::admit_held, crate::proofs::Answers::admit_far, key_index::proofs::Places::place_held, key_index::proofs::Rules::good_count))]
fn admit(index: &KeyIndex, key: [u8; 9], payload: Payload) -> Result<Fitting, Refusal>
    requires { good key_limit (view index.now) ≡ true }
    ensures { Admits key_limit (view index.now) key payload result }
{
    if index.find(key).is_some() {
        return Err(Refusal::AlreadyHeld);
    }
    let far = key_index::away(index.node, key);
    if !distance::at_most(far, index.reach()) {
        return Err(Refusal::BeyondRadius);
    }
    let place = nearer_keys(index.node, index.held(), far);
    Ok(Fitting {
        key,
        place,
        payload,
    })
}

// How many keys, sorted by their distance from a node, are nearer than the distance `far`.
fn nearer_keys(node: [u8; 32], keys: &[[u8; 9]], far: [u8; 32]) -> usize
    requires { SortedFrom node 0 keys.now }
    ensures count { result ≡ nearer node (be far) keys.now }
    ensures id { (length node ≡ 32) × Bytes node }
{
    keys.partition_point(|held| !distance::at_most(far, key_index::away(node, *held)))
}

// A key that is not held and within the radius is stored at its place.
#[tactic(auto, using(crate::proofs::Putting::putting))]
fn put(index: &mut KeyIndex, fitting: Fitting) -> Stored
    requires { Fits key_limit (view index.old) fitting.key fitting.place }
    ensures { handed result index.new ≡ given_by index.old (put_of key_limit (view index.old) fitting.key fitting.payload) }
{
    let Fitting {
        key,
        place,
        payload,
    } = fitting;
    if index.count < LIMIT {
        insert(&mut index.keys, place, index.count, key);
        index.count += 1;
        return Stored {
            payload,
            evicted: None,
        };
    }
    let last = index.key_at(LIMIT - 1);
    insert(&mut index.keys, place, LIMIT - 1, key);
    Stored {
        payload,
        evicted: Some(last),
    }
}

// The keys at the places `from` up to `to` go one place up, and the key to `from`.
fn insert(keys: &mut [u8], from: usize, to: usize, key: [u8; 9])
    requires from_le_to { (from ≤ to) × (to < key_limit) }
    requires len { length keys.old ≡ 9 * key_limit }
    ensures { keys.new ≡ key_at_place from to key keys.old }
{
    let at = from * WIDTH;
    keys.copy_within(at..to * WIDTH, at + WIDTH);
    keys[at..at + WIDTH].copy_from_slice(&key);
}
