// `write` and a message in words: the message's bytes.
use console_text::buffers::{Buffer, Buffers};
use console_text::bytes::Answer;
use console_text::fault::Fault;
use console_text::shown::Word;
use console_text::words::{MOST, Words, decode, front};
use message_write::{KeyMessage, Probe};

// write and a message in words
pub fn write(
    words: Words<'_>,
    buffers: &mut Buffers,
    buffer: &mut Buffer,
    out: &mut Answer,
) -> Result<(), Fault> {
    let n = make(words, &mut buffers.data, buffer.lent())?;
    out.line(format_args!("message {}", Word(buffer.written(n))));
    Ok(())
}

// Writes the message that the words name, and answers its length.
fn make(mut words: Words<'_>, data: &mut [u8], buffer: &mut [u8]) -> Result<usize, Fault> {
    match words.word()? {
        b"ping" => probe(Probe::Ping, words, buffer),
        b"pong" => probe(Probe::Pong, words, buffer),
        b"findnode" => distances(words, data, buffer),
        b"foundnodes" => nodes(words, data, buffer),
        b"findcontent" => key(KeyMessage::FindContent, words, data, buffer),
        b"foundcontent" => found(words, data, buffer),
        b"offer" => key(KeyMessage::Offer, words, data, buffer),
        b"accept" => key(KeyMessage::Accept, words, data, buffer),
        b"store" => store(words, data, buffer),
        _ => Err(Fault::NoCall),
    }
}

fn probe(kind: Probe, mut words: Words<'_>, buffer: &mut [u8]) -> Result<usize, Fault> {
    let radius = words.value::<32>()?;
    words.end()?;
    Ok(message_write::write_probe(kind, radius, buffer)?)
}

fn distances(mut words: Words<'_>, data: &mut [u8], buffer: &mut [u8]) -> Result<usize, Fault> {
    let distances = words.bytes(data)?;
    words.end()?;
    Ok(message_write::write_find_node(distances, buffer)?)
}

fn key(
    kind: KeyMessage,
    mut words: Words<'_>,
    data: &mut [u8],
    buffer: &mut [u8],
) -> Result<usize, Fault> {
    let key = words.bytes(data)?;
    words.end()?;
    Ok(message_write::write_key(kind, key, buffer)?)
}

fn store(mut words: Words<'_>, data: &mut [u8], buffer: &mut [u8]) -> Result<usize, Fault> {
    let connection = words.value::<4>()?;
    let content = words.bytes(data)?;
    words.end()?;
    Ok(message_write::write_store(connection, content, buffer)?)
}

fn nodes(mut words: Words<'_>, data: &mut [u8], buffer: &mut [u8]) -> Result<usize, Fault> {
    let total = u8::try_from(words.number()?)?;
    let lent = records(words, data, 0)?;
    let (starts, lens) = (lent.starts(), lent.lens());
    Ok(message_write::write_found_nodes(total, data, starts, lens, buffer)?)
}

fn found(mut words: Words<'_>, data: &mut [u8], buffer: &mut [u8]) -> Result<usize, Fault> {
    let connection = words.value::<4>()?;
    let n = decode(words.word()?, data)?;
    let lent = records(words, data, n)?;
    let (starts, lens) = (lent.starts(), lent.lens());
    let content = front(data, n);
    Ok(message_write::write_found_content(connection, data, starts, lens, content, buffer)?)
}

// Records that stand one behind the other in a buffer, up to `end`.
// Kept: `message_write` takes starts and lengths apart, since test write_edges hands in different numbers of them.
#[derive(Clone, Copy)]
struct Lent {
    end: usize,
    count: usize,
    starts: [usize; MOST],
    lens: [usize; MOST],
}

impl Lent {
    fn starts(&self) -> &[usize] {
        self.starts.get(..self.count).unwrap_or(&[])
    }

    fn lens(&self) -> &[usize] {
        self.lens.get(..self.count).unwrap_or(&[])
    }

    // With one record more.
    fn push(&mut self, len: usize) -> Result<(), Fault> {
        let count = self.count;
        if MOST <= count {
            return Err(Fault::NoCall);
        }
        self.starts[count] = self.end;
        self.lens[count] = len;
        self.count = count + 1;
        self.end = self.end.saturating_add(len);
        Ok(())
    }
}

// The bytes of all words that are left, in the buffer from a place on.
fn records(words: Words<'_>, data: &mut [u8], from: usize) -> Result<Lent, Fault> {
    let mut lent = Lent {
        end: from,
        count: 0,
        starts: [0; MOST],
        lens: [0; MOST],
    };
    for word in words {
        let room = data.get_mut(lent.end..).ok_or(Fault::NoCall)?;
        let len = decode(word, room)?;
        lent.push(len)?;
    }
    Ok(lent)
}
