// Routing tables around one own id, made place by place, so that they may break any rule: for the programs that hand them in.
#![tactic(auto)]

use routing_table::{Contact, ENTRIES, Entry, RECORD, REPLACEMENTS, RoutingTable};

// The id that differs from our own by a and b in its last two bytes: where a is not 0, its log distance is 8 and the bit length of a.
pub fn id(a: u8, b: u8) -> [u8; 32] {
    let mut id = [90; 32];
    id[30] ^= a;
    id[31] ^= b;
    id
}

// The contact with that id and a record of two bytes, a and b.
pub fn contact(a: u8, b: u8) -> Contact {
    sized(a, b, 2)
}

// The contact with a record of so many bytes, whatever its array has: a, b, and then a.
pub fn sized(a: u8, b: u8, len: usize) -> Contact {
    let mut enr = [a; RECORD];
    enr[1] = b;
    Contact {
        id: id(a, b),
        radius: [b; 32],
        address: [10, 0, a, b],
        port: 9009,
        len,
        enr,
    }
}

pub fn none() -> RoutingTable {
    RoutingTable::fresh([90; 32])
}

// Two full log distances with 4 replacements and 1, and a third with one entry.
pub fn some() -> RoutingTable {
    let full = entries(entries(none(), 1, 16), 2, 16);
    let one = entry(full, 4, 0, 0);
    replacement(replacements(one, 1, 20), 2, 16)
}

// Eight full log distances, and 4 replacements of each of four.
pub fn most() -> RoutingTable {
    let two = entries(entries(none(), 1, 16), 2, 16);
    let four = entries(entries(two, 4, 16), 8, 16);
    let six = entries(entries(four, 16, 16), 32, 16);
    let eight = entries(entries(six, 64, 16), 128, 16);
    let half = replacements(replacements(eight, 1, 20), 2, 20);
    replacements(replacements(half, 4, 20), 8, 20)
}

// The table with an entry more, if there is a place.
// Kept: no plainer, each table is an expression over another one, as `most` shows.
pub fn entry(table: RoutingTable, a: u8, b: u8, failures: u8) -> RoutingTable {
    entry_of(table, contact(a, b), failures)
}

pub fn entry_of(mut table: RoutingTable, contact: Contact, failures: u8) -> RoutingTable {
    if table.count < ENTRIES {
        table.entries[table.count] = Entry { contact, failures };
        table.count += 1;
    }
    table
}

// The table with a replacement more, if there is a place.
pub fn replacement(table: RoutingTable, a: u8, b: u8) -> RoutingTable {
    replacement_of(table, contact(a, b))
}

pub fn replacement_of(mut table: RoutingTable, contact: Contact) -> RoutingTable {
    if table.waiting < REPLACEMENTS {
        table.replacements[table.waiting] = contact;
        table.waiting += 1;
    }
    table
}

// The table with the first n of one kind as entries.
pub fn entries(table: RoutingTable, a: u8, n: u8) -> RoutingTable {
    (0..n).fold(table, |next, b| entry(next, a, b, b % 4))
}

// The table with those from 16 up to n of one kind as replacements.
pub fn replacements(table: RoutingTable, a: u8, n: u8) -> RoutingTable {
    (16..n).fold(table, |next, b| replacement(next, a, b))
}

// The table with other counts.
pub fn counted(mut table: RoutingTable, count: usize, waiting: usize) -> RoutingTable {
    table.count = count;
    table.waiting = waiting;
    table
}

// The table with the counts of `some`: what was added to that stands in unused places.
pub fn unused(table: RoutingTable) -> RoutingTable {
    counted(table, 33, 5)
}

// The table with an entry and a replacement more, with records of so many bytes.
pub fn one_more(table: RoutingTable, len: usize) -> RoutingTable {
    let more = entry_of(table, sized(4, 1, len), 0);
    replacement_of(more, sized(2, 17, len))
}

// The table with other bytes behind the record of its first entry.
pub fn other_bytes(mut table: RoutingTable) -> RoutingTable {
    let enr = &mut table.entries[0].contact.enr;
    enr[2] = 9;
    enr[299] = 9;
    table
}
