// The records of a reply, copied out of the routing table: those that a request is after, in the order of sending, each once.
#![tactic(auto)]

ghost use Rattle.std.specs.Prelude.{ℕ, ◌≤◌, ◌≡◌, Bool, List, [], ◌∷◌, map, ltb};
ghost use Rattle.octets.specs.Bytes.{be};
ghost use Rattle.distance.specs.Distance.{distance_of, log_distance_of, asked_of};
ghost use Rattle.routing_table.specs.View.{view};
ghost use Rattle.replies.specs.Chosen.{nearest_by, entry_record};
ghost use Rattle.replies.specs.Nodes.{is_asked};
ghost use Rattle.replies.specs.Content.{is_nearer};
ghost use Rattle.reply_records.specs.Order.{Tells};
ghost use Rattle.routing_table.specs.declared.Entry.{Entry};
ghost use Rattle.reply_records.specs.Records.{Holds, Whole, sent};

use routing_table::{ENTRIES, RECORD, RoutingTable};

mod gather;
mod order;

// How many records a reply has at most: our own, and one of each entry.
pub const RECORDS: usize = 1 + ENTRIES;

// The first `count` records: where each starts in the bytes, and how long it is.
// Kept: the write calls take starts and lengths as two lists, since test write_edges hands in different numbers of them.
#[derive(Clone, Copy)]
pub struct Records {
    pub count: usize,
    pub starts: [usize; RECORDS],
    pub lens: [usize; RECORDS],
    pub bytes: [u8; RECORDS * RECORD],
}

// Our own record, then those of the entries whose log distance the distances of a FindNode ask for, nearest to us first. A record
// without bytes or with more than 300 is left out, so no bytes stand for no record of our own. Each entry's record stands in 300 bytes. Nothing is said of a table with more than
// 128 entries.
pub fn asked(table: &RoutingTable, own: &[u8], distances: &[u8]) -> Records
    ensures whole { table.now.count ≤ 128 → Whole (nearest_by table.now.own (is_asked (view table.now) distances.now) (view table.now)) }
    ensures records { table.now.count ≤ 128
        → Holds (sent (own.now ∷ map entry_record (nearest_by table.now.own (is_asked (view table.now) distances.now) (view table.now)))) result }
{
    let us = table.own;
    let wanted = |id: [u8; 32]|
        ensures { result ≡ asked_of distances.entry.now (log_distance_of us id) }
    { distance::asked(distances, distance::log_distance(us, id)) };
    found(table, own, us, wanted)
}

// The records of the entries that are nearer to an id than we are, nearest to it first, in the same way.
pub fn nearer(table: &RoutingTable, id: [u8; 32]) -> Records
    ensures whole { table.now.count ≤ 128 → Whole (nearest_by id (is_nearer (view table.now) id) (view table.now)) }
    ensures records { table.now.count ≤ 128 → Holds (sent ([] ∷ map entry_record (nearest_by id (is_nearer (view table.now) id) (view table.now)))) result }
{
    let ours = distance::xor(id, table.own);
    let wanted = |other: [u8; 32]|
        ensures { result ≡ ltb (distance_of id other) (be ours) }
    { !distance::at_most(ours, distance::xor(id, other)) };
    found(table, &[], id, wanted)
}

// Our own record, then those of the entries whose ids are wanted, nearest to an id first.
fn found<W: Fn([u8; 32]) -> bool>(
    table: &RoutingTable,
    own: &[u8],
    from: [u8; 32],
    wanted: W,
) -> Records
    requires { W.IsAlwaysCallable wanted }
    ensures whole { (test : List ℕ → Bool) → Tells (W.post wanted) test → table.now.count ≤ 128
        → Whole (nearest_by from (λ (e : Entry). test e.contact.id) (view table.now)) }
    ensures records { (test : List ℕ → Bool) → Tells (W.post wanted) test → table.now.count ≤ 128
        → Holds (sent (own.now ∷ map entry_record (nearest_by from (λ (e : Entry). test e.contact.id) (view table.now)))) result }
{
    let order = order::nearest(table, from, wanted);
    gather::gather(table, own, order)
}
