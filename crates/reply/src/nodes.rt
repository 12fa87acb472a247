// The reply to a FindNode.
ghost use Rattle.std.specs.Prelude.{◌≡◌, true, length};
ghost use Rattle.refusal.specs.Outcome.{given};
ghost use Rattle.routing_table.specs.View.{view};
ghost use Rattle.routing_table.specs.Good.{good};
ghost use Rattle.replies.specs.Nodes.{nodes_reply};
ghost use Rattle.replies.specs.Reply.{in_room};
ghost use Rattle.reply.specs.Answer.{Replies};
ghost use Rattle.reply.specs.Ready.{lent_in, messages_of, records_in, Found, Ready, Sent};

use crate::{MESSAGES, Messages, groups};
use refusal::Refusal;
use reply_records::Records;
use routing_table::RoutingTable;

// Our own record if 0 is asked for, and those of the entries whose log distance is.
pub(crate) fn nodes(
    table: &RoutingTable,
    own: &[u8],
    distances: &[u8],
    out: &mut [u8],
) -> Result<Messages, Refusal>
    requires { good (view table.now) ≡ true }
    ensures { Replies (in_room (length out.old) (nodes_reply (view table.now) own.now distances.now)) result out.old out.new }
{
    if distance::asked(distances, 0) {
        if !routing_table::record_fits(own.len()) {
            return Err(Refusal::Unusable);
        }
        return send(&reply_records::asked(table, own, distances), out);
    }
    send(&reply_records::asked(table, &[], distances), out)
}

// All messages for some records, or none where they have no room.
fn send(found: &Records, out: &mut [u8]) -> Result<Messages, Refusal>
    requires { Found found.now }
    ensures { Replies (in_room (length out.old) (given (messages_of (records_in found.now)))) result out.old out.new }
{
    let starts = &found.starts[..found.count];
    let lens = &found.lens[..found.count];
    let plan = groups::plan(lens);
    if out.len() < plan.size {
        return Err(Refusal::ShortBuffer);
    }
    let lens = write(&found.bytes, starts, lens, plan.count, out);
    Ok(Messages {
        count: plan.count,
        lens,
    })
}

// Writes so many messages end to end, and answers the length of each.
fn write(
    bytes: &[u8],
    starts: &[usize],
    lens: &[usize],
    count: usize,
    out: &mut [u8],
) -> [usize; MESSAGES]
    requires { Ready bytes.now starts.now lens.now count (length out.old) }
    ensures { Sent (messages_of (lent_in bytes.now starts.now lens.now)) result out.old out.new }
{
    let mut sizes = [0; MESSAGES];
    let mut from = 0;
    let mut at = 0;
    // Kept: no plainer, a turn moves on in the records, in the buffer and in the lengths at once.
    for i in 0..count {
        let group = groups::first(6, &lens[from..]);
        let to = from + group.taken;
        // The plan has room for it, so it is not refused.
        let _ = message_write::write_found_nodes(
            count as u8,
            bytes,
            &starts[from..to],
            &lens[from..to],
            &mut out[at..],
        );
        sizes[i] = group.size;
        from = to;
        at += group.size;
    }
    sizes
}
