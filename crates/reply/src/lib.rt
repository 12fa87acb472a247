// Replies to a neighbour who asks: from the index, the routing table and what the caller lends, all messages of the reply end to end.
#![tactic(auto)]

ghost use Rattle.std.specs.Prelude.{◌≡◌, true, ◌&&◌, ◌||◌, eqb, length};
ghost use Rattle.octets.specs.Equal.{same_bytes};
ghost use Rattle.message.specs.Decode.{decode};
ghost use Rattle.key_index.specs.View as keys;
ghost use Rattle.routing_table.specs.View.{view};
ghost use Rattle.routing_table.specs.Good.{good};
ghost use Rattle.replies.specs.Reply.{reply_of, reply_to_request, in_room};
ghost use Rattle.reply.specs.Answer.{Replies};
ghost use Rattle.reply.specs.Lending.{lending};
ghost use Rattle.reply.specs.Listing.{listing};

use key_index::KeyIndex;
use message::Reading;
use refusal::Refusal;
use routing_table::RoutingTable;

mod content;
mod groups;
mod nodes;

// How many messages a reply has at most.
pub const MESSAGES: usize = 33;

// What the caller lends: our own record, content, and a connection id.
#[derive(Clone, Copy)]
pub struct Lent<'a> {
    pub own: &'a [u8],
    pub content: &'a [u8],
    pub connection: [u8; 4],
}

// How many messages were written, and the length of each: zeros behind the last.
// Kept: fixed memory, and a list of fixed room is this array and this count.
#[derive(Clone, Copy, PartialEq, Eq)]
pub struct Messages {
    pub count: usize,
    pub lens: [usize; MESSAGES],
}

// Writes the reply to any bytes, as a FindNode or a FindContent, at the start of the buffer. Nothing is written where the call is refused.
pub fn reply(
    index: &KeyIndex,
    table: &RoutingTable,
    lent: Lent,
    message: &[u8],
    out: &mut [u8],
) -> Result<Messages, Refusal>
    ensures { Replies (in_room (length out.old) (reply_of keys.key_limit (keys.view index.now) (view table.now) (lending lent.entry) message.now)) result out.old out.new }
{
    if !index.is_good() || !is_of(table, index.node) {
        return Err(Refusal::BadState);
    }
    if message.is_empty() {
        return Err(Refusal::EmptyMessage);
    }
    if 1280 < message.len() {
        return Err(Refusal::LongMessage);
    }
    if !is_request(message[0]) {
        return Err(Refusal::MessageType);
    }
    answered(&index.keys, index.count, table, lent, message, out)
}

// Whether a table keeps its rules and is of this node.
fn is_of(table: &RoutingTable, node: [u8; 32]) -> bool
    ensures { result ≡ (good (view table.now) && same_bytes (view table.now).own node) }
{
    match table.survey(node) {
        Some(told) => told.own,
        None => false,
    }
}

// Whether the type of a message is that of a FindNode or a FindContent.
fn is_request(kind: u8) -> bool
    ensures { result ≡ (eqb kind 3 || eqb kind 5) }
{
    kind == 3 || kind == 5
}

// The reply to any message, from the keys of an index and a table that keeps its rules.
fn answered(
    listed: &[u8],
    count: usize,
    table: &RoutingTable,
    lent: Lent,
    message: &[u8],
    out: &mut [u8],
) -> Result<Messages, Refusal>
    requires { good (view table.now) ≡ true }
    ensures { Replies (in_room (length out.old) (reply_to_request (listing listed.now count) (view table.now) (lending lent.entry) (decode message.now))) result out.old out.new }
{
    match message_read::read(message)? {
        Reading::FindNode { distances } => {
            let asked = &message[distances.start..distances.start + distances.len];
            nodes::nodes(table, lent.own, asked, out)
        }
        Reading::FindContent { key } => {
            let key = &message[key.start..key.start + key.len];
            content::found(
                listed,
                count,
                table,
                lent.content,
                lent.connection,
                key,
                out,
            )
        }
        _ => Err(Refusal::MessageType),
    }
}
