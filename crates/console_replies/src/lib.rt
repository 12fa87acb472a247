// The console's calls on replies.
//
// A part of the program `console`: its functions are proved to be safe and to end, and what they answer is tested with the program.
#![tactic(auto)]

use console_text::buffers::{Buffer, Buffers};
use console_text::bytes::Answer;
use console_text::fault::Fault;
use console_text::shown::Word;
use console_text::words::{Words, back, front};
use key_index::KeyIndex;
use routing_table::RoutingTable;
use std::fmt;

// What is lent to replies: our own record, a connection id and content, with more room than a reply takes.
// Kept: it can be copied, which `Bytes` cannot, so bytes stand in arrays with their number beside them.
#[derive(Clone, Copy)]
pub struct Lent {
    own: [u8; 512],
    own_len: usize,
    connection: [u8; 4],
    content: [u8; 2048],
    content_len: usize,
}

impl Lent {
    // No record, a connection id of zero, and no content.
    pub fn new() -> Lent {
        Lent {
            own: [0; 512],
            own_len: 0,
            connection: [0; 4],
            content: [0; 2048],
            content_len: 0,
        }
    }
}

// Puts bytes that have room at the start of a place, and answers their number.
fn put(bytes: &[u8], place: &mut [u8]) -> Result<usize, Fault> {
    let room = place.get_mut(..bytes.len()).ok_or(Fault::NoCall)?;
    room.copy_from_slice(bytes);
    Ok(bytes.len())
}

// own RECORD
pub fn own(
    lent: &mut Lent,
    mut words: Words<'_>,
    buffers: &mut Buffers,
    out: &mut Answer,
) -> Result<(), Fault> {
    let record = words.bytes(&mut buffers.data)?;
    words.end()?;
    lent.own_len = put(record, &mut lent.own)?;
    out.line("ok");
    Ok(())
}

// lend CONNECTION CONTENT
pub fn lend(
    lent: &mut Lent,
    mut words: Words<'_>,
    buffers: &mut Buffers,
    out: &mut Answer,
) -> Result<(), Fault> {
    let connection = words.value::<4>()?;
    let content = words.bytes(&mut buffers.data)?;
    words.end()?;
    lent.content_len = put(content, &mut lent.content)?;
    lent.connection = connection;
    out.line("ok");
    Ok(())
}

// reply MESSAGE
pub fn reply(
    index: &KeyIndex,
    table: &RoutingTable,
    lent: &Lent,
    mut words: Words<'_>,
    buffers: &mut Buffers,
    buffer: &mut Buffer,
    out: &mut Answer,
) -> Result<(), Fault> {
    let message = words.bytes(&mut buffers.data)?;
    words.end()?;
    let lent = reply::Lent {
        own: front(&lent.own, lent.own_len),
        content: front(&lent.content, lent.content_len),
        connection: lent.connection,
    };
    let made = reply::reply(index, table, lent, message, buffer.lent())?;
    let messages = Shown {
        bytes: buffer.written(65536),
        lens: made.lens.get(..made.count).unwrap_or(&[]),
    };
    out.line(format_args!("reply{messages}"));
    Ok(())
}

// Messages that stand end to end, each as a word after a space.
#[derive(Clone, Copy)]
pub struct Shown<'a, 'b> {
    pub bytes: &'a [u8],
    pub lens: &'b [usize],
}

impl fmt::Display for Shown<'_, '_> {
    fn fmt<W: fmt::Write>(&self, f: &mut fmt::Formatter<W>) -> fmt::Result {
        let mut rest = self.bytes;
        for len in self.lens {
            write!(f, " {}", Word(front(rest, *len)))?;
            rest = back(rest, *len);
        }
        Ok(())
    }
}
