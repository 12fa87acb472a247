// Hands in indexes that no call makes, broken ones and ones that differ in unused places only, and prints what each call answers.
#![tactic(auto)]

use console_text::shown::{Bars, Hex, Refused, yes_or_no};
use console_text::words::{back, front};
use key_index::KeyIndex;
use std::io;

fn main(rt: HostRuntime) -> io::Result<()> {
    let ones = [255u8; 32];
    let zeros = [0u8; 32];
    let first = key(0, 1);
    let second = key(0, 2);
    show(&rt, "empty", &index(ones, 0, 0, first, second))?;
    show(
        &rt,
        "empty, other unused bytes",
        &index(ones, 238, 0, first, second),
    )?;
    show(&rt, "two keys", &index(ones, 0, 2, first, second))?;
    show(
        &rt,
        "two keys, other unused bytes",
        &index(ones, 255, 2, first, second),
    )?;
    show(
        &rt,
        "a key at the cap",
        &index(zeros, 0, 1, key(0, 0), second),
    )?;
    show_broken(&rt, ones, zeros, first, second)
}

fn show_broken(
    rt: &impl Print,
    ones: [u8; 32],
    zeros: [u8; 32],
    first: [u8; 9],
    second: [u8; 9],
) -> io::Result<()> {
    show(rt, "a key over the cap", &index(zeros, 0, 1, first, second))?;
    show(rt, "3001 keys", &index(ones, 0, 3001, first, second))?;
    show(
        rt,
        "the largest count",
        &index(ones, 0, usize::MAX, first, second),
    )?;
    show(rt, "a bad selector", &index(ones, 0, 2, first, key(2, 2)))?;
    show(
        rt,
        "the largest selector",
        &index(ones, 0, 1, key(255, 1), second),
    )?;
    show(rt, "farthest first", &index(ones, 0, 2, second, first))?;
    show(rt, "equal keys", &index(ones, 0, 2, first, first))?;
    show(
        rt,
        "3000 keys, most of them equal",
        &index(ones, 0, 3000, first, second),
    )
}

// A key by its selector and a small block number.
fn key(selector: u8, number: u8) -> [u8; 9] {
    [selector, number, 0, 0, 0, 0, 0, 0, 0]
}

// An index of node id zero: two keys in front, and one byte in all other places.
fn index(cap: [u8; 32], fill: u8, count: usize, first: [u8; 9], second: [u8; 9]) -> KeyIndex {
    let mut keys = [fill; key_index::LIMIT * key_index::WIDTH];
    octets::put(&first, &mut keys, 0);
    octets::put(&second, &mut keys, 9);
    KeyIndex {
        node: [0u8; 32],
        cap,
        count,
        keys,
    }
}

// Prints what the calls answer on the index.
fn show(rt: &impl Print, name: &str, index: &KeyIndex) -> io::Result<()> {
    println!(rt; "{name}")?;
    show_radius(rt, index)?;
    show_holds(rt, index)?;
    show_stores(rt, index)?;
    show_remove(rt, index)?;
    show_save(rt, index)?;
    show_reload(rt, index)
}

fn show_radius(rt: &impl Print, index: &KeyIndex) -> io::Result<()> {
    match index.radius() {
        Ok(radius) => println!(rt; "  radius {}", Hex(&radius)),
        Err(why) => println!(rt; "  radius {}", Refused(why)),
    }
}

fn show_holds(rt: &impl Print, index: &KeyIndex) -> io::Result<()> {
    match index.holds(&key(0, 1)) {
        Ok(holds) => println!(rt; "  holds body 1: {}", yes_or_no(holds)),
        Err(why) => println!(rt; "  holds body 1: {}", Refused(why)),
    }
}

// The newest known block is 0 in each store.
fn show_stores(rt: &impl Print, index: &KeyIndex) -> io::Result<()> {
    let zero = key(0, 0);
    show_store(rt, index, "body 0", zero, b"\xc0")?;
    show_store(rt, index, "body 0, content cut off", zero, b"\xc1")?;
    show_store(
        rt,
        index,
        "body 1, not known yet, content cut off",
        key(0, 1),
        b"\xc1",
    )
}

fn show_store(
    rt: &impl Print,
    index: &KeyIndex,
    name: &str,
    key: [u8; 9],
    content: &[u8],
) -> io::Result<()> {
    let mut next = *index;
    let stored = key_store::store(&mut next, &key, content, 0);
    print!(rt; "  store {name}: {}", kept(*index == next))?;
    match stored {
        Ok(stored) => {
            let payload = stored.payload;
            let evicted = match stored.evicted {
                None => "",
                Some(_) => ", one evicted,",
            };
            println!(rt; "stored{evicted} {} {}", payload.start, payload.len)
        }
        Err(why) => println!(rt; "{}", Refused(why)),
    }
}

fn show_remove(rt: &impl Print, index: &KeyIndex) -> io::Result<()> {
    let mut next = *index;
    let removed = key_remove::remove(&mut next, &key(0, 1));
    print!(rt; "  remove body 1: {}", kept(*index == next))?;
    match removed {
        Ok(()) => println!(rt; "removed"),
        Err(why) => println!(rt; "{}", Refused(why)),
    }
}

// Whether the index handed back is the one handed in, byte for byte.
fn kept(same: bool) -> &'static str {
    if same {
        "the very index, "
    } else {
        "another index, "
    }
}

fn show_save(rt: &impl Print, index: &KeyIndex) -> io::Result<()> {
    let mut buffer = [7u8; 5200];
    let saved = snapshot::save(index, &mut buffer);
    match saved {
        Ok(n) => {
            let text = Bars(front(&buffer, n));
            println!(rt; "  save: {}{text}", rest(back(&buffer, n)))
        }
        Err(why) => println!(rt; "  save: {}{}", rest(&buffer), Refused(why)),
    }
}

// Whether bytes of the buffer are as they were.
fn rest(bytes: &[u8]) -> &'static str {
    if bytes.iter().all(|b| *b == 7) {
        "all else as it was, "
    } else {
        "another buffer, "
    }
}

// Reloads a text that some index has, and saves what it gives.
fn show_reload(rt: &impl Print, index: &KeyIndex) -> io::Result<()> {
    let mut text = [0u8; 5200];
    let n = some_text(index, &mut text);
    let mut next = *index;
    match snapshot::reload(&mut next, front(&text, n)) {
        Ok(()) => {
            let again = saved(&next, &mut text);
            println!(rt; "  reload: loaded {}", Bars(front(&text, again)))
        }
        Err(why) => println!(rt; "  reload: {}{}", kept(*index == next), Refused(why)),
    }
}

// The text of the index, or of a fresh one where it has none: how many bytes it has.
fn some_text(index: &KeyIndex, text: &mut [u8]) -> usize {
    let n = saved(index, text);
    if n != 0 {
        return n;
    }
    saved(&KeyIndex::fresh([0u8; 32], [255u8; 32]), text)
}

// How many bytes saving writes.
fn saved(index: &KeyIndex, text: &mut [u8]) -> usize {
    snapshot::save(index, text).unwrap_or(0)
}
