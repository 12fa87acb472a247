// The calls that a line can make, by its first word.
use crate::help;
use console_headers::Lists;
use console_replies::Lent;
use console_text::buffers::{Buffer, Buffers};
use console_text::bytes::Answer;
use console_text::fault::Fault;
use console_text::words::Words;
use key_index::KeyIndex;
use routing_table::RoutingTable;

// What the console holds from line to line: the index, the routing table, what is lent to replies, the lent roots and records, and the
// buffer that is lent to calls that write; besides room for the bytes of words.
#[derive(Drop)]
pub struct State {
    index: KeyIndex,
    table: RoutingTable,
    lent: Lent,
    lists: Lists,
    buffer: Buffer,
    buffers: Buffers,
}

impl State {
    // At first, a fresh index of node id zero and a cap of all ones, a fresh table of own id zero, nothing lent, and the whole buffer.
    pub fn new() -> State {
        State {
            index: KeyIndex::fresh([0; 32], [255; 32]),
            table: RoutingTable::fresh([0; 32]),
            lent: Lent::new(),
            lists: Lists::new(),
            buffer: Buffer::new(),
            buffers: Buffers::new(),
        }
    }

    // Does what the line asks, and puts the answer into out.
    pub fn answer(&mut self, line: &[u8], out: &mut Answer) -> Result<(), Fault> {
        let mut words = Words::new(line)?;
        let name = words.word()?;
        match name {
            b"fresh" => console_index::fresh(&mut self.index, words, out),
            b"store" => console_index::store(&mut self.index, words, &mut self.buffers, out),
            b"remove" => console_index::remove(&mut self.index, words, &mut self.buffers, out),
            b"radius" => console_index::radius(&self.index, words, out),
            b"keys" => console_index::keys(&self.index, words, out),
            b"save" => console_index::save(&self.index, words, &mut self.buffer, out),
            b"load" => console_index::load(&mut self.index, words, &mut self.buffers, out),
            b"buffer" => resize(&mut self.buffer, words, out),
            _ => self.routed(name, words, out),
        }
    }

    // The calls on the routing table and on replies.
    fn routed(&mut self, name: &[u8], words: Words<'_>, out: &mut Answer) -> Result<(), Fault> {
        match name {
            b"table" => console_routing::table(&mut self.table, words, out),
            b"seen" => console_routing::seen(&mut self.table, words, out),
            b"failed" => console_routing::failed(&mut self.table, words, out),
            b"rows" => console_routing::rows(&self.table, words, out),
            b"waiting" => console_routing::waiting(&self.table, words, out),
            b"entry" => console_routing::entry(&self.table, words, out),
            b"own" => console_replies::own(&mut self.lent, words, &mut self.buffers, out),
            b"lend" => console_replies::lend(&mut self.lent, words, &mut self.buffers, out),
            b"reply" => console_replies::reply(
                &self.index,
                &self.table,
                &self.lent,
                words,
                &mut self.buffers,
                &mut self.buffer,
                out,
            ),
            _ => self.headed(name, words, out),
        }
    }

    // The calls on pre-merge headers.
    fn headed(&mut self, name: &[u8], words: Words<'_>, out: &mut Answer) -> Result<(), Fault> {
        let lists = &mut self.lists;
        match name {
            b"sha256" => console_headers::sha256(words, &mut self.buffers, out),
            b"roots" => console_headers::roots(lists, words, &mut self.buffers, out),
            b"records" => console_headers::records(lists, words, &mut self.buffers, out),
            b"canonical" => console_headers::canonical(lists, words, &mut self.buffers, out),
            b"root" => console_headers::root(lists, words, &mut self.buffer, out),
            b"proof" => console_headers::proof(lists, words, &mut self.buffer, out),
            _ => stateless(name, words, &mut self.buffers, &mut self.buffer, out),
        }
    }
}

// The calls on values alone.
fn stateless(
    name: &[u8],
    words: Words<'_>,
    buffers: &mut Buffers,
    buffer: &mut Buffer,
    out: &mut Answer,
) -> Result<(), Fault> {
    match name {
        b"id" => console_keys::id(words, buffers, out),
        b"distance" => console_keys::distance(words, out),
        b"interested" => console_keys::interested(words, buffers, out),
        b"asked" => console_keys::asked(words, buffers, out),
        b"content" => console_messages::content(words, buffers, out),
        b"read" => console_messages::read(words, buffers, out),
        b"write" => console_messages::write(words, buffers, buffer, out),
        b"help" => help::help(words, out),
        _ => Err(Fault::NoCall),
    }
}

// buffer N
fn resize(buffer: &mut Buffer, mut words: Words<'_>, out: &mut Answer) -> Result<(), Fault> {
    let room = words.number()?;
    words.end()?;
    buffer.resize(room)?;
    out.line("ok");
    Ok(())
}
