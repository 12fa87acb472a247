// Records copied one after another into slots of 300 bytes, each once.
ghost use Rattle.std.specs.Prelude.{ℕ, ◌*◌, ◌<◌, ◌≤◌, ◌≡◌, length, get_or, map, take};
ghost use Rattle.octets.specs.Equal.{same_bytes, holds};
ghost use Rattle.message.specs.Reading.{part_at};
ghost use Rattle.routing_table.specs.View.{view};
ghost use Rattle.reply_records.specs.Order.{Placed, entry_at};
ghost use Rattle.reply_records.specs.Records.{slots, slotted, Slots, Whole, Gathers, Keeps};
ghost use Rattle.replies.specs.Chosen.{entry_record};
ghost use Rattle.routing_table.specs.declared.Entry.{Entry};

use crate::order::Order;
use crate::{RECORDS, Records};
use routing_table::{Entry, RECORD, RoutingTable};
use std::array;

// Our own record, unless it has no bytes, and those of the entries at the places.
pub(crate) fn gather(table: &RoutingTable, own: &[u8], order: Order) -> Records
    requires { Placed table.now.count order }
    ensures records { Gathers (view table.now) own.now order result }
    ensures whole { Whole (map (entry_at (view table.now)) (take order.count order.places)) }
{
    let mut kept = none();
    kept.keep(own);
    for place in &order.places[..order.count] {
        kept.keep_entry(&table.entries[*place]);
    }
    kept
}

// No records.
fn none() -> Records
    ensures starts { result.starts ≡ slots }
    ensures count { result.count ≡ 0 }
    ensures room { Slots 0 result.lens result.bytes }
{
    Records {
        count: 0,
        starts: array::from_fn(|i| RECORD * i),
        lens: [0; RECORDS],
        bytes: [0; RECORDS * RECORD],
    }
}

// The first bytes of a record's array, and no more than it has.
fn front(enr: &[u8; RECORD], len: usize) -> &[u8]
    ensures part { result.now ≡ take len enr.now }
    ensures size { length enr.now ≡ 300 }
{
    &enr[..len.min(RECORD)]
}

impl Records {
    // The record of an entry is kept.
    fn keep_entry(&mut self, entry: &Entry)
        requires { (self.old.count < 129) × Slots self.old.count self.old.lens self.old.bytes }
        ensures { (length entry.now.contact.enr ≡ 300) × (self.new.starts ≡ self.old.starts) × Keeps (entry_record entry.now) self.old.count self.old.lens self.old.bytes self.new.count self.new.lens self.new.bytes }
    {
        self.keep(front(&entry.contact.enr, entry.contact.len));
    }

    // A record is kept, unless it has no bytes, or more than 300, or is kept already.
    fn keep(&mut self, offered: &[u8])
        requires { (self.old.count < 129) × Slots self.old.count self.old.lens self.old.bytes }
        ensures { (self.new.starts ≡ self.old.starts) × Keeps offered.now self.old.count self.old.lens self.old.bytes self.new.count self.new.lens self.new.bytes }
    {
        if !routing_table::record_fits(offered.len()) {
            return;
        }
        if self.has(offered) {
            return;
        }
        octets::put(offered, &mut self.bytes, RECORD * self.count);
        self.lens[self.count] = offered.len();
        self.count += 1;
    }

    // Whether a record is kept.
    fn has(&self, offered: &[u8]) -> bool
        requires { Slots self.now.count self.now.lens self.now.bytes }
        ensures { result ≡ holds same_bytes offered.now (slotted self.now.bytes self.now.lens self.now.count) }
    {
        (0..self.count).any(|i| self.is_slot(i, offered))
    }

    // Whether a record is the one in a slot: by its last byte first, which is where records of one kind differ most.
    fn is_slot(&self, i: usize, offered: &[u8]) -> bool
        requires { (i < 129) × (length self.now.lens ≡ 129) × (length self.now.bytes ≡ 38700) × (get_or self.now.lens i 0 ≤ 300) }
        ensures { result ≡ same_bytes offered.now (part_at self.now.bytes (300 * i) (get_or self.now.lens i 0)) }
    {
        let at = RECORD * i;
        let slot = &self.bytes[at..at + self.lens[i]];
        offered.last() == slot.last() && offered == slot
    }
}
