// A door for benches in other languages: replies from a full table of records of 300 bytes, many times over.
#![tactic(auto)]

ghost use Rattle.std.specs.Prelude.{◌≤◌, ◌<◌};

use key_index::KeyIndex;
use reply::Lent;
use routing_table::{Contact, RoutingTable};

// Replies to a FindNode for every distance. The records are of a kind: 0 random, 1 equal but for their last byte, 2 but for their first. Answers a
// sum of what is sent, so that the work cannot be left out.
#[unsafe(no_mangle)]
pub extern "C" fn nodes_many(rounds: u32, kind: u32) -> u64 {
    many(rounds, kind, &every_distance())
}

// Replies to a FindContent for a key that is not held, and to whose id every entry is nearer than we are.
#[unsafe(no_mangle)]
pub extern "C" fn content_many(rounds: u32, kind: u32) -> u64 {
    many(rounds, kind, &[5, 4, 0, 0, 0, 0, 255, 0, 0, 0, 0, 0, 0, 0])
}

fn many(rounds: u32, kind: u32, request: &[u8]) -> u64 {
    let index = KeyIndex::fresh([0; 32], [255; 32]);
    let table = full_table(kind);
    let own = node_record(kind, 128);
    let mut out = [0; 65536];
    let mut sum = 0;
    for _ in 0..rounds {
        sum = added(sum, sent(&index, &table, &own, request, &mut out));
    }
    sum
}

fn added(sum: u64, n: u64) -> u64 {
    sum % 4294967296 * 3 + n % 4294967296
}

// The number of messages, the length of the first, and a byte in its middle.
fn sent(index: &KeyIndex, table: &RoutingTable, own: &[u8], request: &[u8], out: &mut [u8]) -> u64 {
    let lent = Lent {
        own,
        content: &[],
        connection: [0; 4],
    };
    match reply::reply(index, table, lent, request, out) {
        Ok(told) => {
            let first = told.lens[0] % 4096;
            (told.count % 64 * 4096 + first) as u64 * 256 + middle(out) as u64
        }
        Err(_) => 0,
    }
}

fn middle(out: &[u8]) -> u8 {
    if out.len() < 1000 {
        return 0;
    }
    out[640]
}

// A FindNode for every distance.
fn every_distance() -> [u8; 261] {
    let mut request = [0u8; 261];
    request[0] = 3;
    request[1] = 4;
    for (byte, distance) in request[5..].iter_mut().zip(0..=255u8) {
        *byte = distance;
    }
    request
}

// 16 entries of each of eight log distances.
fn full_table(kind: u32) -> RoutingTable {
    let mut table = RoutingTable::fresh([0; 32]);
    for i in 0..128 {
        let contact = Contact {
            id: id(i / 16, i % 16),
            radius: [255; 32],
            address: [127, 0, 0, 1],
            port: 9009,
            len: 300,
            enr: node_record(kind, i),
        };
        let _ = routing_calls::seen(&mut table, contact);
    }
    table
}

// The second byte in the range that gives the log distance, the first one zero, all else random.
fn id(class: u32, n: u32) -> [u8; 32] {
    let bytes = random(class as u64 * 1000 + n as u64);
    let mut id: [u8; 32] = octets::part(&bytes, 0);
    let top = weight(class);
    id[0] = 0;
    id[1] = top | id[1] & (top - 1);
    id
}

// 128 for the first log distance, half of that for each one after it.
fn weight(class: u32) -> u8
    ensures { (1 ≤ result) × (result ≤ 128) }
{
    match class {
        0 => 128,
        1 => 64,
        2 => 32,
        3 => 16,
        4 => 8,
        5 => 4,
        6 => 2,
        _ => 1,
    }
}

// The n-th record of a kind.
fn node_record(kind: u32, n: u32) -> [u8; 300] {
    let mut bytes = random(seed(kind, n));
    bytes[place(kind)] = (n % 256) as u8;
    bytes
}

// Kept: the C interface hands over the kind as a number.
fn seed(kind: u32, n: u32) -> u64 {
    if kind == 0 { n as u64 * 77 + 5 } else { 7 }
}

fn random(seed: u64) -> [u8; 300] {
    let mut state = seed;
    let mut bytes = [0u8; 300];
    for byte in &mut bytes {
        state = (state % 4294967296 * 1664525 + 1013904223) % 4294967296;
        *byte = (state / 65536 % 256) as u8;
    }
    bytes
}

// The byte that tells records apart.
fn place(kind: u32) -> usize
    ensures { result < 300 }
{
    if kind == 1 { 299 } else { 0 }
}
