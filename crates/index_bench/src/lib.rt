// A door for benches in other languages: one call on an index of some size, many times over.
#![tactic(auto)]

use key_index::{KeyIndex, LIMIT, WIDTH};
use refusal::Refusal;

// Makes a call on the index of bodies 0 up to `size`, so many times over, each time on that index. The calls: 0 stores receipts, 1 stores
// a body, 2 removes a body, each with 64 block numbers from `at` on in turn; 3 reloads the index's own text; all others save it.
// Answers a sum of what the calls answer and leave, so that the work cannot be left out.
#[unsafe(no_mangle)]
pub extern "C" fn index_many(call: u32, size: u32, at: u32, rounds: u32) -> u64 {
    let index = bodies(size);
    let mut text = [0u8; 65536];
    let len = snapshot::save(&index, &mut text).unwrap_or(0);
    let mut sum = 0u64;
    for i in 0..rounds {
        sum = added(sum, called(call, &index, number(at, i), &mut text, len));
    }
    sum
}

fn added(sum: u64, n: u64) -> u64 {
    sum % 4294967296 * 3 + n % 4294967296
}

fn number(at: u32, i: u32) -> u32 {
    at % 65536 + i % 64
}

// The index of node id zero that holds bodies 0 up to `size`; its cap is beyond body 16,384.
fn bodies(size: u32) -> KeyIndex {
    let mut keys = [0u8; LIMIT * WIDTH];
    let (places, _) = keys.as_chunks_mut::<WIDTH>();
    for (place, i) in places.iter_mut().zip(0..size) {
        *place = key(0, i);
    }
    KeyIndex {
        node: [0u8; 32],
        cap: [64u8; 32],
        count: size as usize,
        keys,
    }
}

fn key(selector: u8, number: u32) -> [u8; 9] {
    let low = (number % 256) as u8;
    let high = (number / 256 % 256) as u8;
    [selector, low, high, 0, 0, 0, 0, 0, 0]
}

// Kept: the C interface hands over the call as a number.
fn called(call: u32, index: &KeyIndex, number: u32, text: &mut [u8], len: usize) -> u64 {
    match call {
        0 => stored(index, key(1, number), number),
        1 => stored(index, key(0, number), number),
        2 => removed(index, number),
        3 => reloaded(index, text, len, number),
        _ => saved(index, text, number),
    }
}

fn stored(index: &KeyIndex, key: [u8; 9], number: u32) -> u64 {
    let mut after = *index;
    let word = match key_store::store(&mut after, &key, b"\xc0", u64::from(number)) {
        Ok(done) => done.evicted.map_or(256, |key| 512 + u64::from(key[1])),
        Err(why) => u64::from(u8::from(why)),
    };
    added(word, left(&after.keys, after.count, number))
}

fn removed(index: &KeyIndex, number: u32) -> u64 {
    let mut after = *index;
    let word = word(key_remove::remove(&mut after, &key(0, number)));
    added(word, left(&after.keys, after.count, number))
}

fn word(done: Result<(), Refusal>) -> u64 {
    match done {
        Ok(()) => 256,
        Err(why) => u64::from(u8::from(why)),
    }
}

fn reloaded(index: &KeyIndex, text: &[u8], len: usize, number: u32) -> u64 {
    if text.len() < len {
        return 0;
    }
    let mut after = *index;
    let word = word(snapshot::reload(&mut after, &text[..len]));
    added(word, left(&after.keys, after.count, number))
}

fn saved(index: &KeyIndex, text: &mut [u8], number: u32) -> u64 {
    let len = snapshot::save(index, text).unwrap_or(0);
    left(text, len, number)
}

// Some bytes of what a call leaves, in three of its places, and its count.
fn left(bytes: &[u8], count: usize, number: u32) -> u64 {
    let at = number as usize;
    let here = nine(bytes, at);
    let next = nine(bytes, at % 65536 + 1);
    let middle = nine(bytes, count / 2);
    let mixed = here[1] ^ here[2] ^ next[0] ^ next[1] ^ middle[1] ^ middle[5];
    added((count % 65536) as u64, u64::from(mixed))
}

// The nine bytes of a place, and zeros past the last whole one.
fn nine(bytes: &[u8], place: usize) -> [u8; 9] {
    let (places, _) = bytes.as_chunks::<WIDTH>();
    places.get(place).copied().unwrap_or([0u8; 9])
}
