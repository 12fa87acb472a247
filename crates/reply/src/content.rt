// The reply to a FindContent.
ghost use Rattle.std.specs.Prelude.{◌≡◌, true, [], ◌∷◌, length};
ghost use Rattle.refusal.specs.Outcome.{given};
ghost use Rattle.content_key.specs.Key.{key_of, key_id};
ghost use Rattle.message.specs.Values.{found_content};
ghost use Rattle.routing_table.specs.View.{view};
ghost use Rattle.routing_table.specs.Good.{good};
ghost use Rattle.replies.specs.Content.{held_reply, nearer_reply, content_reply};
ghost use Rattle.replies.specs.Reply.{in_room};
ghost use Rattle.reply.specs.Answer.{Replies};
ghost use Rattle.reply.specs.Listing.{listing};
ghost use Rattle.reply.specs.Ready.{Single, one_of};

use crate::{MESSAGES, Messages, groups};
use refusal::Refusal;
use routing_table::RoutingTable;

// The longest content that a message holds.
const CONTENT: usize = 1267;

// The content or the connection id of a key that is held, or the records of nearer entries.
pub(crate) fn found(
    listed: &[u8],
    count: usize,
    table: &RoutingTable,
    content: &[u8],
    connection: [u8; 4],
    key: &[u8],
    out: &mut [u8],
) -> Result<Messages, Refusal>
    requires { (good (view table.now) ≡ true) × (key_of key.now ≡ given key.now) }
    ensures { Replies (in_room (length out.old) (content_reply (listing listed.now count) (view table.now) content.now connection key.now)) result out.old out.new }
{
    let nine = octets::part(key, 0);
    match key_index::find(listed, count, nine) {
        Some(_) => held(content, connection, out),
        None => nearer(table, content_key::id(nine), out),
    }
}

// The content, or else the connection id.
fn held(content: &[u8], connection: [u8; 4], out: &mut [u8]) -> Result<Messages, Refusal>
    ensures { Replies (in_room (length out.old) (held_reply content.now connection)) result out.old out.new }
{
    if 0 < content.len() && content.len() <= CONTENT {
        return alone([0; 4], content, out);
    }
    if octets::le4(connection) == 0 {
        return Err(Refusal::Unusable);
    }
    alone(connection, &[], out)
}

// One message without records.
fn alone(connection: [u8; 4], content: &[u8], out: &mut [u8]) -> Result<Messages, Refusal>
    requires { Single connection content.now }
    ensures { Replies (in_room (length out.old) (given (found_content connection [] content.now ∷ []))) result out.old out.new }
{
    one(message_write::write_found_content(connection, content, &[], &[], content, out))
}

// The records of the entries nearer to a key's id than we are, as many as one message holds.
fn nearer(table: &RoutingTable, id: [u8; 32], out: &mut [u8]) -> Result<Messages, Refusal>
    requires { good (view table.now) ≡ true }
    ensures { Replies (in_room (length out.old) (given (nearer_reply (view table.now) id ∷ []))) result out.old out.new }
{
    let records = reply_records::nearer(table, id);
    let group = groups::first(13, &records.lens[..records.count]);
    one(message_write::write_found_content(
        [0; 4],
        &records.bytes,
        &records.starts[..group.taken],
        &records.lens[..group.taken],
        &[],
        out,
    ))
}

// The answer for one message.
fn one(wrote: Result<usize, Refusal>) -> Result<Messages, Refusal>
    ensures { result ≡ one_of wrote }
{
    let mut lens = [0; MESSAGES];
    lens[0] = wrote?;
    Ok(Messages { count: 1, lens })
}
