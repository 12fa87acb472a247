// Writes the nine messages into a buffer that the caller lends. Nothing is written before everything is tested.
#![tactic(auto)]

ghost use Rattle.std.specs.Prelude.{ℕ, ◌≡◌, List, length};
ghost use Rattle.refusal.specs.Buffer.{Writes};
ghost use Rattle.message.specs.Values.{find_node, found_nodes, found_content, store};
ghost use Rattle.message_write.specs.Kinds.{probe_of, key_message_of, probe_type, key_type};
ghost use Rattle.message_write.specs.Lent.{lent};
ghost use Rattle.message_write.specs.Write.{bytes_for, bytes_for_lent};

use refusal::Refusal;

mod heads;
mod parts;
mod records;

// The messages that carry a radius.
#[derive(Clone, Copy, PartialEq, Eq)]
pub enum Probe {
    Ping,
    Pong,
}

impl Probe {
    // The type byte.
    fn type_byte(self) -> u8
        ensures { result ≡ probe_type self }
    {
        match self {
            Probe::Ping => 1,
            Probe::Pong => 2,
        }
    }
}

// The messages that carry a key.
#[derive(Clone, Copy, PartialEq, Eq)]
pub enum KeyMessage {
    FindContent,
    Offer,
    Accept,
}

impl KeyMessage {
    // The type byte.
    fn type_byte(self) -> u8
        ensures { result ≡ key_type self }
    {
        match self {
            KeyMessage::FindContent => 5,
            KeyMessage::Offer => 7,
            KeyMessage::Accept => 8,
        }
    }
}

// Ping and Pong: a radius, heaviest byte first.
pub fn write_probe(kind: Probe, radius: [u8; 32], out: &mut [u8]) -> Result<usize, Refusal>
    ensures { Writes (bytes_for (probe_of kind radius) (length out.old)) result out.old out.new }
{
    let rest = octets::reversed(radius);
    parts::write_two(&[kind.type_byte()], &rest, out)
}

pub fn write_find_node(distances: &[u8], out: &mut [u8]) -> Result<usize, Refusal>
    ensures { Writes (bytes_for (find_node distances.now) (length out.old)) result out.old out.new }
{
    if 256 < distances.len() {
        return Err(Refusal::TooManyItems);
    }
    if !message_rules::all_different(distances) {
        return Err(Refusal::ItemRule);
    }
    parts::write_two(&heads::rest_head(3), distances, out)
}

// FoundNodes, with the records at their places in the bytes lent.
pub fn write_found_nodes(
    total: u8,
    bytes: &[u8],
    starts: &[usize],
    lens: &[usize],
    out: &mut [u8],
) -> Result<usize, Refusal>
    ensures { Writes (bytes_for_lent (found_nodes total) (lent bytes.now starts.now lens.now) (length out.old)) result out.old out.new }
{
    let records = records::lent_records(bytes, starts, lens)?;
    if total == 0 {
        return Err(Refusal::ItemRule);
    }
    parts::write_list(&heads::nodes_head(total), bytes, &records, &[], out)
}

// FindContent, Offer and Accept: any bytes as a key.
pub fn write_key(kind: KeyMessage, key: &[u8], out: &mut [u8]) -> Result<usize, Refusal>
    ensures { Writes (bytes_for (key_message_of kind key.now) (length out.old)) result out.old out.new }
{
    content_key::key(key)?;
    parts::write_two(&heads::rest_head(kind.type_byte()), key, out)
}

// FoundContent, with the records at their places in the bytes lent.
pub fn write_found_content(
    connection: [u8; 4],
    bytes: &[u8],
    starts: &[usize],
    lens: &[usize],
    content: &[u8],
    out: &mut [u8],
) -> Result<usize, Refusal>
    ensures { Writes (bytes_for_lent (λ (rs : List (List ℕ)). found_content connection rs content.now) (lent bytes.now starts.now lens.now) (length out.old)) result out.old out.new }
{
    let records = records::lent_records(bytes, starts, lens)?;
    if 1 < message_rules::things(connection, records.count, content.len()) {
        return Err(Refusal::ItemRule);
    }
    let head = heads::content_head(connection, parts::list_size(&records));
    parts::write_list(&head, bytes, &records, content, out)
}

pub fn write_store(connection: [u8; 4], content: &[u8], out: &mut [u8]) -> Result<usize, Refusal>
    ensures { Writes (bytes_for (store connection content.now) (length out.old)) result out.old out.new }
{
    if message_rules::things(connection, 0, content.len()) != 1 {
        return Err(Refusal::ItemRule);
    }
    parts::write_two(&heads::store_head(connection), content, out)
}
