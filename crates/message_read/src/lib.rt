// Reads any bytes as one of the nine messages.
#![tactic(auto)]

ghost use Rattle.std.specs.Prelude.{◌≤◌, ◌≡◌, length, drop, MatchResult};
ghost use Rattle.octets.specs.Parts.{bytes_at};
ghost use Rattle.refusal.specs.Outcome.{outcome_of};
ghost use Rattle.message.specs.Decode.{two_offsets, layout_of, ruled_or4, decode};
ghost use Rattle.message.specs.Report.{to_end};
ghost use Rattle.message.specs.Reading.{ReadTo};
ghost use Rattle.message_read.specs.Shapes.{radius_in, distances_in, key_in, Rest, NoRest};

use message::{Part, Reading};
use refusal::Refusal;

// The message that the bytes are, or why they are none.
pub fn read(message: &[u8]) -> Result<Reading, Refusal>
    ensures { ReadTo (decode message.now) message.now result }
{
    if message.is_empty() {
        return Err(Refusal::EmptyMessage);
    }
    if 1280 < message.len() {
        return Err(Refusal::LongMessage);
    }
    match message[0] {
        1 => Ok(Reading::Ping {
            radius: radius(message)?,
        }),
        2 => Ok(Reading::Pong {
            radius: radius(message)?,
        }),
        3 => Ok(Reading::FindNode {
            distances: distances(message)?,
        }),
        4 => found_nodes(message),
        5 => Ok(Reading::FindContent { key: key(message)? }),
        6 => found_content(message),
        7 => Ok(Reading::Offer { key: key(message)? }),
        8 => Ok(Reading::Accept { key: key(message)? }),
        9 => store(message),
        _ => Err(Refusal::MessageType),
    }
}

// A radius alone, heaviest byte first: Ping, Pong.
fn radius(message: &[u8]) -> Result<[u8; 32], Refusal>
    ensures { outcome_of result ≡ radius_in message.now }
{
    if message.len() != 33 {
        return Err(Refusal::Layout);
    }
    Ok(octets::reversed(octets::part(message, 1)))
}

// A list of distances alone: FindNode.
fn distances(message: &[u8]) -> Result<Part, Refusal>
    ensures { outcome_of result ≡ distances_in message.now }
{
    let list = rest(message, 4)?;
    let place = to_end(message, 5);
    if 256 < place.len {
        return Err(Refusal::TooManyItems);
    }
    if !message_rules::all_different(list) {
        return Err(Refusal::ItemRule);
    }
    Ok(place)
}

// A key alone: FindContent, Offer, Accept.
fn key(message: &[u8]) -> Result<Part, Refusal>
    ensures { outcome_of result ≡ key_in message.now }
{
    content_key::key(rest(message, 4)?)?;
    Ok(to_end(message, 5))
}

// A list of records with a total: FoundNodes.
fn found_nodes(message: &[u8]) -> Result<Reading, Refusal>
    ensures { ReadTo (ruled_or4 (layout_of 4 (drop 1 message.now))) message.now result }
{
    rest(message, 5)?;
    let records = message_records::read_records(message, 6, message.len())?;
    let total = message[1];
    if total == 0 {
        return Err(Refusal::ItemRule);
    }
    Ok(Reading::FoundNodes { total, records })
}

// A connection id, records and content: FoundContent.
fn found_content(message: &[u8]) -> Result<Reading, Refusal>
    ensures { ReadTo (ruled_or4 (layout_of 6 (drop 1 message.now))) message.now result }
{
    if !two_offsets(message) {
        return Err(Refusal::Layout);
    }
    let end = 1 + message_rules::offset(message, 9);
    let records = message_records::read_records(message, 13, end)?;
    let connection = connection_id(message);
    let content = to_end(message, end);
    if 1 < message_rules::things(connection, records.count, content.len) {
        return Err(Refusal::ItemRule);
    }
    Ok(Reading::FoundContent {
        connection,
        records,
        content,
    })
}

// A connection id and content: Store.
fn store(message: &[u8]) -> Result<Reading, Refusal>
    ensures { ReadTo (ruled_or4 (layout_of 9 (drop 1 message.now))) message.now result }
{
    rest(message, 8)?;
    let connection = connection_id(message);
    let content = to_end(message, 9);
    if message_rules::things(connection, 0, content.len) != 1 {
        return Err(Refusal::ItemRule);
    }
    Ok(Reading::Store {
        connection,
        content,
    })
}

// What stands behind the container's fixed part of n bytes, whose last four are the offset of the rest, which is n.
fn rest(message: &[u8], n: usize) -> Result<&[u8], Refusal>
    requires { (4 ≤ n) × (n ≤ 8) }
    ensures { MatchResult result (λ rest. Rest n message.now rest.now) (λ why. NoRest n message.now why) }
{
    if message.len() <= n || message_rules::offset(message, n - 3) != n {
        Err(Refusal::Layout)
    } else {
        Ok(&message[n + 1..])
    }
}

// The part of the message from an index to its end.
fn to_end(message: &[u8], start: usize) -> Part
    requires { start ≤ length message.now }
    ensures { result ≡ to_end message.now start }
{
    Part {
        start,
        len: message.len() - start,
    }
}

// The connection id behind the type.
fn connection_id(message: &[u8]) -> [u8; 4]
    ensures { result ≡ bytes_at 4 1 message.now }
{
    octets::part(message, 1)
}

// The two offsets of FoundContent: 12, and one from 12 to the container's length.
fn two_offsets(message: &[u8]) -> bool
    ensures { result ≡ two_offsets (drop 1 message.now) }
{
    if message.len() < 13 {
        return false;
    }
    if message_rules::offset(message, 5) != 12 {
        return false;
    }
    let second = message_rules::offset(message, 9);
    12 <= second && second < message.len()
}
