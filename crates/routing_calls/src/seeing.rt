// A node was seen.
ghost use Rattle.std.specs.Prelude.{◌≡◌};
ghost use Rattle.distance.specs.Distance.{log_distance_of};
ghost use Rattle.routing_table.specs.View.{view};
ghost use Rattle.routing_calls.specs.Seen.{newcomer_of, wait_of};
ghost use Rattle.routing_calls.specs.SeenFor.{given_by, seen_for, meaning_of};
ghost use Rattle.routing_calls.specs.Helpers.{Told};

use crate::{Standing, changes};
use refusal::Refusal;
use routing_table::{
    Contact, ENTRIES, ENTRIES_EACH, Entry, Facts, REPLACEMENTS, REPLACEMENTS_EACH, RoutingTable,
};

// Takes a sighting of any contact: an entry or a replacement gets all its fields anew, a newcomer becomes one where there is room.
pub fn seen(table: &mut RoutingTable, contact: Contact) -> Result<Standing, Refusal>
    ensures { meaning_of result table.new ≡ seen_for table.old contact }
{
    let told = changes::surveyed(table, contact.id)?;
    if !routing_table::record_fits(contact.len) {
        return Err(Refusal::ItemRule);
    }
    if told.own {
        return Err(Refusal::OwnId);
    }
    if let Some(at) = told.entry {
        table.entries[at] = Entry {
            contact,
            failures: 0,
        };
        return Ok(Standing::Entry);
    }
    if let Some(place) = told.replacement {
        changes::latest(table, place, contact);
        return Ok(Standing::Replacement);
    }
    newcomer(table, contact, told)
}

// A newcomer becomes an entry where its log distance has room.
fn newcomer(table: &mut RoutingTable, contact: Contact, told: Facts) -> Result<Standing, Refusal>
    requires { Told table.old contact.id told }
    ensures { meaning_of result table.new ≡ given_by table.old (newcomer_of (view table.old) contact (log_distance_of table.old.own contact.id)) }
{
    if ENTRIES_EACH <= told.entries {
        return waits(table, contact, told);
    }
    if ENTRIES <= table.count {
        return Err(Refusal::TableFull);
    }
    table.entries[table.count] = Entry {
        contact,
        failures: 0,
    };
    table.count += 1;
    Ok(Standing::Entry)
}

// A newcomer to a full log distance becomes a replacement.
fn waits(table: &mut RoutingTable, contact: Contact, told: Facts) -> Result<Standing, Refusal>
    requires { Told table.old contact.id told }
    ensures { meaning_of result table.new ≡ given_by table.old (wait_of (view table.old) contact (log_distance_of table.old.own contact.id)) }
{
    if told.replacements < REPLACEMENTS_EACH && table.waiting < REPLACEMENTS {
        table.replacements[table.waiting] = contact;
        table.waiting += 1;
        return Ok(Standing::Replacement);
    }
    let Some(at) = told.oldest else {
        return Err(Refusal::ReplacementsFull);
    };
    changes::latest(table, at, contact);
    Ok(Standing::Replacement)
}
