// A door for benches in other languages: sightings and failures on a full table with all its replacements, many times over.
#![tactic(auto)]

ghost use Rattle.std.specs.Prelude.{◌≤◌};

use routing_calls::Failure;
use routing_table::{Contact, RECORD, RoutingTable};

// Sightings of newcomers, each of which takes the place of the longest unseen replacement of its log distance. Answers a sum of what
// the tables end with, so that the work cannot be left out. Ids are random, or `near`: they agree in all but their last twelve bits.
#[unsafe(no_mangle)]
pub extern "C" fn seen_many(rounds: u32, near: bool) -> u64 {
    let full = full_table(near);
    (0..rounds).fold(0, |sum, i| {
        added(sum, latest(&full, id(near, i % 4, 20 + i % 200)))
    })
}

// Third failures of entries, each of which gives way to the most recently seen replacement of its log distance.
#[unsafe(no_mangle)]
pub extern "C" fn failed_many(rounds: u32, near: bool) -> u64 {
    let full = failed_twice(near);
    (0..rounds).fold(0, |sum, i| {
        added(sum, replacing(&full, id(near, i % 4, i % 16)))
    })
}

fn added(sum: u64, n: u8) -> u64 {
    sum % 4294967296 * 3 + u64::from(n)
}

// The last byte of the id that stands last among the replacements once an id was seen.
fn latest(full: &RoutingTable, id: [u8; 32]) -> u8 {
    let mut table = *full;
    let _ = routing_calls::seen(&mut table, contact(id));
    table.replacements[15].id[31]
}

// The last byte of the id that takes the place of one that failed; 0 where none does.
fn replacing(full: &RoutingTable, id: [u8; 32]) -> u8 {
    let mut table = *full;
    match routing_calls::failed(&mut table, id) {
        Ok(Failure::Replaced(by)) => by[31],
        _ => 0,
    }
}

// 16 entries of each of eight log distances, and four replacements of each of the farthest four.
fn full_table(near: bool) -> RoutingTable {
    let mut table = RoutingTable::fresh([0; 32]);
    for i in 0..128u32 {
        let _ = routing_calls::seen(&mut table, contact(id(near, i / 16, i % 16)));
    }
    for i in 0..16u32 {
        let _ = routing_calls::seen(&mut table, contact(id(near, i / 4, 16 + i % 4)));
    }
    table
}

// The table after two failures of each of its entries.
fn failed_twice(near: bool) -> RoutingTable {
    let mut table = full_table(near);
    for i in 0..256u32 {
        let _ = routing_calls::failed(&mut table, id(near, i / 16 % 8, i % 16));
    }
    table
}

fn contact(id: [u8; 32]) -> Contact {
    Contact {
        id,
        radius: [255u8; 32],
        address: [127, 0, 0, 1],
        port: 9009,
        len: RECORD,
        enr: [170u8; RECORD],
    }
}

// The n-th id of a kind, at one of eight log distances from zero.
fn id(near: bool, class: u32, n: u32) -> [u8; 32] {
    if near {
        return near_id(class, n);
    }
    random_id(class, n)
}

// Zeros but for the last twelve bits.
fn near_id(class: u32, n: u32) -> [u8; 32] {
    let number = u32::from(weight(class)) * 16 + n % 256;
    let mut id = [0; 32];
    id[30] = (number / 256 % 256) as u8;
    id[31] = (number % 256) as u8;
    id
}

// The first byte in the range that gives the log distance, all else random.
fn random_id(class: u32, n: u32) -> [u8; 32] {
    let mut state = u64::from(class) * 1000 + u64::from(n);
    let mut id = [0; 32];
    for byte in &mut id {
        state = (state % 4294967296 * 1664525 + 1013904223) % 4294967296;
        *byte = (state / 65536 % 256) as u8;
    }
    let top = weight(class);
    id[0] = top | id[0] & (top - 1);
    id
}

// 128 for the first log distance, half of that for each one after it, down to 1.
fn weight(class: u32) -> u8
    ensures { (1 ≤ result) × (result ≤ 128) }
{
    128 >> class.min(7)
}
