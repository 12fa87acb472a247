// A node failed to answer.
ghost use Rattle.std.specs.Prelude.{◌<◌, ◌≤◌, ◌≡◌, get_or};
ghost use Rattle.routing_table.specs.View.{no_contact, no_entry};
ghost use Rattle.routing_calls.specs.FailedFor.{failed_for, meaning_of};
ghost use Rattle.routing_calls.specs.Helpers.{FailsAt, FailedAt};
ghost use Rattle.routing_calls.specs.Arrays.{exchanged};

use crate::{Failure, changes};
use refusal::Refusal;
use routing_table::{Entry, FAILURES, RoutingTable};

// Takes a failure of any id: the entry's count rises; at three it gives way to a replacement, or is flagged.
pub fn failed(table: &mut RoutingTable, id: [u8; 32]) -> Result<Failure, Refusal>
    ensures { meaning_of result table.new ≡ failed_for table.old id }
{
    let told = changes::surveyed(table, id)?;
    if told.own {
        return Err(Refusal::OwnId);
    }
    let Some(at) = told.entry else {
        return Err(Refusal::NoEntry);
    };
    Ok(failing(table, at, told.newest))
}

// The entry at a place fails; `newest` is the place of the most recently seen replacement of its log distance.
fn failing(table: &mut RoutingTable, at: usize, newest: Option<usize>) -> Failure
    requires { FailsAt table.old at newest }
    ensures { FailedAt table.old at newest result table.new }
{
    let n = table.entries[at].failures + 1;
    if n < FAILURES {
        table.entries[at].failures = n;
        return Failure::Counted(n);
    }
    let Some(from) = newest else {
        table.entries[at].failures = FAILURES;
        return Failure::Flagged;
    };
    Failure::Replaced(promoted(table, at, from))
}

// The replacement at a place becomes the entry at another; answers its id.
fn promoted(table: &mut RoutingTable, at: usize, from: usize) -> [u8; 32]
    requires { (at < 128) × (from < table.old.waiting) × (table.old.waiting ≤ 16) }
    ensures by { result ≡ (get_or table.old.replacements from no_contact).id }
    ensures after { table.new ≡ exchanged table.old at from }
{
    let contact = table.replacements[from];
    changes::replacement_out(table, from);
    table.entries[at] = Entry {
        contact,
        failures: 0,
    };
    contact.id
}
