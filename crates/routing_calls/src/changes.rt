// What both calls do first, and the changes of a table's replacements.
ghost use Rattle.std.specs.Prelude.{◌<◌, ◌≤◌, ◌≡◌};
ghost use Rattle.routing_calls.specs.Arrays.{Latest, replacement_out};
ghost use Rattle.routing_calls.specs.Helpers.{Surveyed};

use refusal::Refusal;
use routing_table::{Contact, Facts, RoutingTable};

// What the survey of a table that keeps its rules tells.
pub(crate) fn surveyed(table: &RoutingTable, id: [u8; 32]) -> Result<Facts, Refusal>
    ensures { Surveyed table.now id result }
{
    match table.survey(id) {
        Some(told) => Ok(told),
        None => Err(Refusal::BadState),
    }
}

// The contact becomes the most recent replacement, in place of the one at a place.
pub(crate) fn latest(table: &mut RoutingTable, at: usize, contact: Contact)
    requires { (at < table.old.waiting) × (table.old.waiting ≤ 16) }
    ensures { Latest table.old at contact table.new }
{
    replacement_out(table, at);
    table.replacements[table.waiting] = contact;
    table.waiting += 1;
}

// Takes the replacement at a place out: those behind it move up by one.
pub(crate) fn replacement_out(table: &mut RoutingTable, at: usize)
    requires { (at < table.old.waiting) × (table.old.waiting ≤ 16) }
    ensures { table.new ≡ replacement_out table.old at }
{
    let last = table.waiting - 1;
    // Kept: with `copy_within` the archives for C need `memmove`, as at `octets::put`.
    for i in at..last {
        table.replacements[i] = table.replacements[i + 1];
    }
    table.waiting = last;
}
