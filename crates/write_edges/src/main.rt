// Hands the write calls records that the console's words cannot name, and prints each answer with the buffer before and after it.
#![tactic(auto)]

use console_text::shown::{Hex, Refused};
use refusal::Refusal;
use std::io;

fn main(rt: HostRuntime) -> io::Result<()> {
    let text = b"abcdabcd";
    show(&rt, "two records", 1, text, &[0, 3], &[3, 5])?;
    show(&rt, "overlapping places", 1, text, &[0, 2], &[4, 4])?;
    show(&rt, "one place twice", 1, text, &[1, 1], &[2, 2])?;
    show(&rt, "equal bytes at two places", 1, text, &[0, 4], &[4, 4])?;
    show(&rt, "a record of no bytes at the end", 1, text, &[8], &[0])?;
    show(&rt, "one byte past the end", 1, text, &[7], &[2])?;
    show(&rt, "a start past the end", 1, text, &[9], &[0])?;
    show_sums(&rt, text)?;
    show_many(&rt, text)
}

// Sums past the largest number, and starts and lengths that differ in number.
fn show_sums(rt: &impl Print, text: &[u8]) -> io::Result<()> {
    show(rt, "the largest start", 1, text, &[usize::MAX], &[1])?;
    show(rt, "the largest length", 1, text, &[1], &[usize::MAX])?;
    show(
        rt,
        "both the largest",
        1,
        text,
        &[usize::MAX],
        &[usize::MAX],
    )?;
    show(rt, "a start more", 1, text, &[0, 1], &[1])?;
    show(rt, "a length more", 1, text, &[0], &[1, 1])?;
    show(rt, "total 0, and a record outside", 0, text, &[9], &[1])?;
    show(rt, "total 0", 0, text, &[0], &[1])?;
    show(rt, "no records", 2, text, &[], &[])
}

// More than 32 records: each place counts, also that of the last.
fn show_many(rt: &impl Print, text: &[u8]) -> io::Result<()> {
    let mut starts = [0usize; 33];
    let lens = [1usize; 33];
    show(rt, "33 records", 1, text, &starts, &lens)?;
    starts[32] = 8;
    show(rt, "33 records, the last outside", 1, text, &starts, &lens)
}

// One call of each kind that takes records: FoundNodes into 40 bytes, and FoundContent into 16.
fn show(
    rt: &impl Print,
    name: &str,
    total: u8,
    bytes: &[u8],
    starts: &[usize],
    lens: &[usize],
) -> io::Result<()> {
    let mut buffer = [238u8; 40];
    let mut small = [238u8; 16];
    println!(rt; "{name}")?;
    println!(rt; "  before {}", Hex(&buffer))?;
    told(
        rt,
        message_write::write_found_nodes(total, bytes, starts, lens, &mut buffer),
    )?;
    println!(rt; "  after  {}", Hex(&buffer))?;
    told(
        rt,
        message_write::write_found_content([0u8; 4], bytes, starts, lens, b"", &mut small),
    )?;
    println!(rt; "  after  {}", Hex(&small))
}

fn told(rt: &impl Print, wrote: Result<usize, Refusal>) -> io::Result<()> {
    match wrote {
        Ok(count) => println!(rt; "  wrote {count}"),
        Err(why) => println!(rt; "  {}", Refused(why)),
    }
}
