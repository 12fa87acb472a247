// Hands in indexes and routing tables that no call makes, broken ones and ones that differ in unused places only, and buffers of several
// lengths, and prints each reply and what it leaves of the buffer.
#![tactic(auto)]

mod calls;

use calls::Setting;
use key_index::KeyIndex;
use routing_table::RoutingTable;
use std::io;

fn main(rt: HostRuntime) -> io::Result<()> {
    show_indexes(&rt)?;
    show_broken_indexes(&rt)?;
    show_counts(&rt)?;
    show_logs(&rt)?;
    show_ids(&rt)?;
    show_records(&rt)?;
    show_both(&rt)?;
    show_unused(&rt)?;
    show_rooms(&rt)?;
    show_refusals(&rt)
}

// A key by its selector and the last byte of a block number that is 90 in the byte before it.
fn key(selector: u8, low: u8) -> [u8; 9] {
    [selector, low, 90, 0, 0, 0, 0, 0, 0]
}

// An index of the tables' own id: two keys in front, and one byte in all other places.
fn index(cap: [u8; 32], fill: u8, count: usize, first: [u8; 9], second: [u8; 9]) -> KeyIndex {
    let mut keys = [fill; key_index::LIMIT * key_index::WIDTH];
    octets::put(&first, &mut keys, 0);
    octets::put(&second, &mut keys, 9);
    KeyIndex {
        node: [90u8; 32],
        cap,
        count,
        keys,
    }
}

// The index of two keys: the nearest there is, and the one that differs from it in one bit.
fn two() -> KeyIndex {
    index([255u8; 32], 0, 2, key(0, 90), key(0, 91))
}

// The distance of the first of them, and one less where `less` is 1.
fn reach(less: u8) -> [u8; 32] {
    let mut far = [90u8; 32];
    far[0] = 0;
    far[1] = 0;
    far[31] = 90 - less % 2;
    far
}

fn show_indexes(rt: &impl Print) -> io::Result<()> {
    let ones = [255u8; 32];
    let some = edge_tables::some();
    let near = key(0, 90);
    let far = key(0, 91);
    show(rt, "two keys", two(), some)?;
    show(
        rt,
        "two keys, other unused bytes",
        index(ones, 255, 2, near, far),
        some,
    )?;
    show(rt, "no keys", index(ones, 0, 0, near, far), some)?;
    show(
        rt,
        "no keys, other unused bytes",
        index(ones, 238, 0, near, far),
        some,
    )?;
    show(
        rt,
        "a key at the cap",
        index(reach(0), 0, 1, near, far),
        some,
    )
}

fn show_broken_indexes(rt: &impl Print) -> io::Result<()> {
    let ones = [255u8; 32];
    let some = edge_tables::some();
    let near = key(0, 90);
    let far = key(0, 91);
    show(
        rt,
        "a key over the cap",
        index(reach(1), 0, 1, near, far),
        some,
    )?;
    show(rt, "3001 keys", index(ones, 0, 3001, near, far), some)?;
    show(
        rt,
        "the largest count",
        index(ones, 0, usize::MAX, near, far),
        some,
    )?;
    show(
        rt,
        "a bad selector",
        index(ones, 0, 2, near, key(2, 91)),
        some,
    )?;
    show(
        rt,
        "the largest selector",
        index(ones, 0, 1, key(255, 90), far),
        some,
    )?;
    show(rt, "farthest first", index(ones, 0, 2, far, near), some)?;
    show(rt, "equal keys", index(ones, 0, 2, near, near), some)?;
    show(
        rt,
        "3000 keys, most of them equal",
        index(ones, 0, 3000, near, far),
        some,
    )
}

fn show_counts(rt: &impl Print) -> io::Result<()> {
    let all = edge_tables::most();
    show(rt, "no contacts", two(), edge_tables::none())?;
    show(rt, "128 entries and 16 replacements", two(), all)?;
    show(rt, "129 entries", two(), edge_tables::counted(all, 129, 16))?;
    show(
        rt,
        "the largest number of entries",
        two(),
        edge_tables::counted(all, usize::MAX, 16),
    )?;
    show(
        rt,
        "17 replacements",
        two(),
        edge_tables::counted(all, 128, 17),
    )?;
    show(
        rt,
        "the largest number of replacements",
        two(),
        edge_tables::counted(all, 128, usize::MAX),
    )
}

fn show_logs(rt: &impl Print) -> io::Result<()> {
    let fifteen = edge_tables::entries(edge_tables::none(), 1, 15);
    let full = edge_tables::entries(edge_tables::none(), 1, 16);
    show(rt, "16 entries of one log distance", two(), full)?;
    show(
        rt,
        "17 entries of one log distance",
        two(),
        edge_tables::entries(edge_tables::none(), 1, 17),
    )?;
    show(
        rt,
        "4 replacements of one log distance",
        two(),
        edge_tables::replacements(full, 1, 20),
    )?;
    show(
        rt,
        "5 replacements of one log distance",
        two(),
        edge_tables::replacements(full, 1, 21),
    )?;
    show(
        rt,
        "a replacement where there are 15 entries",
        two(),
        edge_tables::replacement(fifteen, 1, 16),
    )
}

fn show_ids(rt: &impl Print) -> io::Result<()> {
    let some = edge_tables::some();
    show(
        rt,
        "two entries whose ids differ in one bit",
        two(),
        edge_tables::entry(some, 4, 1, 3),
    )?;
    show(
        rt,
        "two entries with one id",
        two(),
        edge_tables::entry(some, 4, 0, 0),
    )?;
    show(
        rt,
        "two replacements with one id",
        two(),
        edge_tables::replacement(some, 2, 16),
    )?;
    show(
        rt,
        "an entry and a replacement with one id",
        two(),
        edge_tables::replacement(some, 2, 3),
    )?;
    show(
        rt,
        "our own id among the entries",
        two(),
        edge_tables::entry(some, 0, 0, 0),
    )?;
    show(
        rt,
        "our own id among the replacements",
        two(),
        edge_tables::replacement(some, 0, 0),
    )?;
    show(rt, "4 failures", two(), edge_tables::entry(some, 4, 1, 4))
}

fn show_records(rt: &impl Print) -> io::Result<()> {
    show_record(
        rt,
        "an entry with a record of 1 byte",
        "a replacement with a record of 1 byte",
        1,
    )?;
    show_record(
        rt,
        "an entry with a record of 300 bytes",
        "a replacement with a record of 300 bytes",
        300,
    )?;
    show_record(
        rt,
        "an entry with a record of no bytes",
        "a replacement with a record of no bytes",
        0,
    )?;
    show_record(
        rt,
        "an entry with a record of 301 bytes",
        "a replacement with a record of 301 bytes",
        301,
    )?;
    show_record(
        rt,
        "an entry with a record of the largest length",
        "a replacement with a record of the largest length",
        usize::MAX,
    )
}

// A table with an entry more, and one with a replacement more, whose record has so many bytes.
fn show_record(rt: &impl Print, entry: &str, replacement: &str, len: usize) -> io::Result<()> {
    let some = edge_tables::some();
    show(
        rt,
        entry,
        two(),
        edge_tables::entry_of(some, edge_tables::sized(4, 1, len), 0),
    )?;
    show(
        rt,
        replacement,
        two(),
        edge_tables::replacement_of(some, edge_tables::sized(2, 17, len)),
    )
}

fn show_both(rt: &impl Print) -> io::Result<()> {
    let ones = [255u8; 32];
    let some = edge_tables::some();
    show(
        rt,
        "3001 keys and 4 failures",
        index(ones, 0, 3001, key(0, 90), key(0, 91)),
        edge_tables::entry(some, 4, 1, 4),
    )?;
    show(
        rt,
        "an index of another node",
        KeyIndex::fresh([91u8; 32], ones),
        some,
    )
}

fn show_unused(rt: &impl Print) -> io::Result<()> {
    let some = edge_tables::some();
    show(
        rt,
        "unused: the ids of an entry and of a replacement",
        two(),
        edge_tables::unused(edge_tables::replacement(edge_tables::entry(some, 1, 0, 0), 1, 16)),
    )?;
    show(
        rt,
        "unused: our own id",
        two(),
        edge_tables::unused(edge_tables::replacement(edge_tables::entry(some, 0, 0, 0), 0, 0)),
    )?;
    show(
        rt,
        "unused: 255 failures",
        two(),
        edge_tables::unused(edge_tables::entry(some, 4, 1, 255)),
    )?;
    show(
        rt,
        "unused: records of no bytes",
        two(),
        edge_tables::unused(edge_tables::one_more(some, 0)),
    )?;
    show(
        rt,
        "unused: records of the largest length",
        two(),
        edge_tables::unused(edge_tables::one_more(some, usize::MAX)),
    )?;
    show(
        rt,
        "unused: other bytes behind a record",
        two(),
        edge_tables::other_bytes(some),
    )?;
    show(
        rt,
        "unused: 128 entries and 16 replacements",
        two(),
        edge_tables::counted(edge_tables::most(), 0, 0),
    )
}

// Buffers one byte short and just long enough for one message, for the first of two and for both.
fn show_rooms(rt: &impl Print) -> io::Result<()> {
    show_room(rt, "no bytes of room", 0)?;
    show_room(rt, "1 byte of room", 1)?;
    show_room(rt, "19 bytes of room", 19)?;
    show_room(rt, "20 bytes of room", 20)?;
    show_room(rt, "21 bytes of room", 21)?;
    show_room(rt, "108 bytes of room", 108)?;
    show_room(rt, "109 bytes of room", 109)?;
    show_room(rt, "110 bytes of room", 110)?;
    show_room(rt, "198 bytes of room", 198)?;
    show_room(rt, "199 bytes of room", 199)?;
    show_room(rt, "216 bytes of room", 216)?;
    show_room(rt, "217 bytes of room", 217)?;
    show_room(rt, "218 bytes of room", 218)
}

fn show_room(rt: &impl Print, name: &str, room: usize) -> io::Result<()> {
    let mut setting = calls::all_lent(two(), edge_tables::some());
    setting.room = room;
    show_replies(rt, name, &setting)
}

fn show(rt: &impl Print, name: &str, index: KeyIndex, table: RoutingTable) -> io::Result<()> {
    show_replies(rt, name, &calls::all_lent(index, table))
}

// Prints the replies to a FindNode, and to a FindContent for a key that is held and for one that is not.
fn show_replies(rt: &impl Print, name: &str, setting: &Setting) -> io::Result<()> {
    println!(rt; "{name}")?;
    calls::show(
        rt,
        "  nodes: ",
        setting,
        b"\x03\x04\x00\x00\x00\x0b\x00\x09\x0a",
    )?;
    calls::show(
        rt,
        "  held: ",
        setting,
        b"\x05\x04\x00\x00\x00\x00\x5a\x5a\x00\x00\x00\x00\x00\x00",
    )?;
    calls::show(
        rt,
        "  not held: ",
        setting,
        b"\x05\x04\x00\x00\x00\x01\x5a\x5a\x00\x00\x00\x00\x00\x00",
    )
}

fn show_refusals(rt: &impl Print) -> io::Result<()> {
    let long = [3u8; 1281];
    let mut many = [0u8; 262];
    many[0] = 3;
    many[1] = 4;
    show_refusal(rt, "no bytes: ", b"")?;
    show_refusal(rt, "1,281 bytes: ", &long)?;
    show_refusal(rt, "another type: ", b"\x04")?;
    show_refusal(rt, "an offset cut off: ", b"\x03\x04\x00\x00")?;
    show_refusal(rt, "257 distances: ", &many)?;
    show_refusal(rt, "a distance twice: ", b"\x03\x04\x00\x00\x00\x07\x07")?;
    show_refusal(rt, "a key of no bytes: ", b"\x05\x04\x00\x00\x00")?;
    show_refusal(
        rt,
        "a bad selector: ",
        b"\x05\x04\x00\x00\x00\x02\x5a\x5a\x00\x00\x00\x00\x00\x00",
    )?;
    show_unusable(rt)
}

fn show_refusal(rt: &impl Print, name: &str, message: &[u8]) -> io::Result<()> {
    let setting = calls::all_lent(two(), edge_tables::some());
    calls::show(rt, name, &setting, message)
}

// Nothing is lent.
fn show_unusable(rt: &impl Print) -> io::Result<()> {
    let mut setting = calls::all_lent(two(), edge_tables::some());
    setting.lent = false;
    show_replies(rt, "nothing lent", &setting)
}
