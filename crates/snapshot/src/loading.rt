// Reading a saved text: the first line, a line for each key, the end.
ghost use Rattle.std.specs.Prelude.{◌-◌, ◌*◌, ◌≤◌, ◌≡◌, leb, length, drop};
ghost use Rattle.octets.specs.Bytes.{be};
ghost use Rattle.key_index.specs.View.{key_limit};
ghost use Rattle.snapshot.specs.Load.{kind_in, load_of};
ghost use Rattle.snapshot.specs.Calls.{reload_for, meaning_of};
ghost use Rattle.snapshot.specs.Parts.{frame_in, header_from, key_line_from, line_with, lowest, key_passes, loading_of};

use crate::LINE;
use key_index::{KeyIndex, LIMIT, WIDTH};
use refusal::Refusal;

// How many keys a text of the older kind lists at most.
const OLD_LIMIT: usize = 240;

// What the first line says, and how many bytes it has.
#[derive(Clone, Copy)]
struct Header {
    node: [u8; 32],
    cap: [u8; 32],
    count: usize,
    size: usize,
}

// The index that a text gives, in the place of the one held so far. A refused call leaves the index as it is.
pub fn reload(index: &mut KeyIndex, text: &[u8]) -> Result<(), Refusal>
    ensures { meaning_of result index.new ≡ reload_for key_limit index.old text.now }
{
    if !index.is_good() {
        return Err(Refusal::BadState);
    }
    let mut keys = [0u8; LIMIT * WIDTH];
    match load(text, &mut keys) {
        Ok(header) => {
            let Header {
                node,
                cap,
                count,
                ..
            } = header;
            *index = KeyIndex {
                node,
                cap,
                count,
                keys,
            };
            Ok(())
        }
        Err(line) => Err(Refusal::BadSnapshot { line }),
    }
}

// Reads a text, its keys into an array: the first line, then as many keys as it says, then the end. An error is the first bad line, counted
// from 1.
fn load(text: &[u8], keys: &mut [u8]) -> Result<Header, usize>
    requires { length keys.old ≡ 9 * key_limit }
    ensures { loading_of result keys.new ≡ load_of text.now }
{
    let Some(header) = header_in(text) else {
        return Err(1);
    };
    let mut last = None;
    // Kept: no plainer, the text and the array are gone through together, each at its own width.
    for i in 0..header.count {
        let mut key = [0u8; WIDTH];
        let Some(far) = key_line(text, header.size + LINE * i, &header, last, &mut key) else {
            return Err(i + 2);
        };
        octets::put(&key, keys, WIDTH * i);
        last = Some(far);
    }
    if text.len() != header.size + LINE * header.count {
        return Err(header.count + 2);
    }
    Ok(header)
}

// The first line: of the kind that is written, else of the older one.
#[tactic(auto, using(crate::proofs::Reading::kind_newer, crate::proofs::Reading::kind_older))]
fn header_in(text: &[u8]) -> Option<Header>
    ensures { result ≡ header_from (kind_in text.now) text.now }
{
    header_as::<67>(text, 0x11, LIMIT).or_else(|| header_as::<66>(text, 0x01, OLD_LIMIT))
}

// The first line of a kind, whose frame has N bytes.
fn header_as<const N: usize>(text: &[u8], mark: u8, limit: usize) -> Option<Header>
    requires { (66 ≤ N) × (N ≤ 67) }
    ensures { result ≡ header_from (record { mark = mark; width = N - 65; limit = limit }) text.now }
{
    let frame = read_frame::<N>(text, 0)?;
    if frame[0] != mark {
        return None;
    }
    let count = octets::le4(octets::part::<4>(&frame, 65));
    if limit < count {
        return None;
    }
    Some(Header {
        node: octets::part::<32>(&frame, 1),
        cap: octets::part::<32>(&frame, 33),
        count,
        size: 2 * N + 1,
    })
}

// The key's line at `at`, its key farther than the distance `last` of the key before it, where there is one: writes the key, and answers its
// distance.
// Kept: speed, a reload of 3,000 keys takes a fifth longer where both are answered in one struct.
fn key_line(
    text: &[u8],
    at: usize,
    header: &Header,
    last: Option<[u8; 32]>,
    key: &mut [u8; 9],
) -> Option<[u8; 32]>
    requires { at ≤ length text.now }
    ensures { line_with key.new result ≡ key_line_from header.now.node header.now.cap last (drop at text.now) }
{
    let frame = read_frame::<10>(text, at)?;
    if frame[0] != 2 {
        return None;
    }
    *key = octets::part::<9>(&frame, 1);
    let far = key_index::away(header.node, *key);
    if !key_passes(*key, far, last, header.cap) {
        return None;
    }
    Some(far)
}

// Whether a key at this distance keeps the rules.
fn key_passes(key: [u8; 9], far: [u8; 32], last: Option<[u8; 32]>, cap: [u8; 32]) -> bool
    ensures { result ≡ key_passes key far last cap }
{
    key[0] <= 1 && farther(far, last) && distance::at_most(far, cap)
}

// Whether a distance is over that of the key before.
fn farther(far: [u8; 32], last: Option<[u8; 32]>) -> bool
    ensures { result ≡ leb (lowest last) (be far) }
{
    match last {
        Some(near) => !distance::at_most(far, near),
        None => true,
    }
}

// The frame of N bytes on the line at `at`: where the text has the digits of as many bytes there, and then a line feed.
fn read_frame<const N: usize>(text: &[u8], at: usize) -> Option<[u8; N]>
    requires at_in_bounds { at ≤ length text.now }
    requires size { N ≤ 67 }
    ensures { result ≡ frame_in N (drop at text.now) }
{
    if text.len() - at <= 2 * N {
        return None;
    }
    let end = at + 2 * N;
    if text[end] != b'\n' {
        return None;
    }
    let mut frame = [0u8; N];
    match hexadecimal::decode(&text[at..end], &mut frame) {
        Ok(_) => Some(frame),
        Err(_) => None,
    }
}
