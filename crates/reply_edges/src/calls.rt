// One reply into a part of a buffer that has a pattern, and what it leaves of it.
use console_replies::Shown;
use console_text::shown::Refused;
use console_text::words::back;
use key_index::KeyIndex;
use refusal::Refusal;
use reply::{Lent, Messages};
use routing_table::RoutingTable;
use std::{array, io};

// How many bytes the buffer has.
const BUFFER: usize = 1024;

// What a request is made of: the index, the table, whether our own record and content are lent, and how many bytes of the buffer.
#[derive(Clone, Copy)]
pub struct Setting {
    pub index: KeyIndex,
    pub table: RoutingTable,
    pub lent: bool,
    pub room: usize,
}

// The index and the table, with all that can be lent.
pub fn all_lent(index: KeyIndex, table: RoutingTable) -> Setting {
    Setting {
        index,
        table,
        lent: true,
        room: BUFFER,
    }
}

// Prints a name and the answer to a message: each message as a word, or the refusal; whether there is another length, and whether all else
// of the buffer is as it was.
pub fn show(rt: &impl Print, name: &str, setting: &Setting, message: &[u8]) -> io::Result<()> {
    let mut buffer = pattern();
    let made = made(setting, message, &mut buffer);
    print!(rt; "{name}")?;
    match made {
        Ok(made) => {
            let (lens, others) = parts(&made);
            let messages = Shown {
                bytes: &buffer,
                lens,
            };
            println!(rt;
                "reply{messages}{}{}",
                lengths(others),
                left(&buffer, total(lens))
            )
        }
        Err(why) => println!(rt; "{}{}{}", Refused(why), lengths(&[]), left(&buffer, 0)),
    }
}

// Bytes from 0 to 250, over and over.
fn pattern() -> [u8; BUFFER] {
    array::from_fn(|i| (i % 251) as u8)
}

fn made(setting: &Setting, message: &[u8], buffer: &mut [u8]) -> Result<Messages, Refusal> {
    let lent = if setting.lent {
        Lent {
            own: b"own",
            content: b"content",
            connection: [0; 4],
        }
    } else {
        Lent {
            own: b"",
            content: b"",
            connection: [0; 4],
        }
    };
    let room = setting.room.min(buffer.len());
    reply::reply(
        &setting.index,
        &setting.table,
        lent,
        message,
        &mut buffer[..room],
    )
}

// The lengths of the messages, and those behind them.
fn parts(made: &Messages) -> (&[usize], &[usize]) {
    made.lens.split_at_checked(made.count).unwrap_or((&[], &[]))
}

// The bytes of all messages.
fn total(lens: &[usize]) -> usize {
    lens.iter()
        .fold(0usize, |size, len| size.saturating_add(*len))
}

// Whether all lengths behind those of the messages are zero.
fn lengths(others: &[usize]) -> &'static str {
    if others.iter().all(|len| *len == 0) {
        ", no other length"
    } else {
        ", another length"
    }
}

// What stands behind the bytes that were written.
fn left(buffer: &[u8], size: usize) -> &'static str {
    let before = pattern();
    if back(buffer, size) == back(&before, size) {
        ", all else as it was"
    } else {
        ", another buffer"
    }
}
