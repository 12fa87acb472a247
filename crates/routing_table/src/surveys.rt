// The survey of a table whose counts fit its arrays: ids and log distances are copied out once, the rest goes over them.
ghost use Rattle.std.specs.Prelude.{◌+◌, ◌≤◌, ◌≡◌, cond, ◌&&◌, ◌++◌, eqb, length, take, drop, map, Some, None};
ghost use Rattle.std.specs.Fn.{FnReturnsAt};
ghost use Rattle.octets.specs.Equal.{same_bytes};
ghost use Rattle.distance.specs.Distance.{log_distance_of};
ghost use Rattle.routing_table.specs.View.{View, ids_of, logs_of, entry_logs, replacement_logs};
ghost use Rattle.routing_table.specs.Places.{first_of, last_of, count_of};
ghost use Rattle.routing_table.specs.Good.{none_over, each_full};
ghost use Rattle.routing_table.specs.Survey.{survey_of, facts_of};

use crate::{Contact, ENTRIES, Entry, Facts, REPLACEMENTS, rules, scans};

// Our own id, as many entries and as many replacements.
const IDS: usize = 1 + ENTRIES + REPLACEMENTS;

// The survey of a table with these entries and replacements.
pub(crate) fn surveyed<'a>(
    own: [u8; 32],
    entries: &'a [Entry],
    replacements: &'a [Contact],
    id: [u8; 32],
) -> Option<Facts>
    requires { (length entries.now ≤ 128) × (length replacements.now ≤ 16) }
    ensures { result ≡ survey_of (record { own = own; entries = entries.now; replacements = replacements.now }) id }
{
    if !rules::sound(entries, replacements) {
        return None;
    }
    let middle = 1 + entries.len();
    let end = middle + replacements.len();
    let all = ids_of(own, entries, replacements);
    let ids = &all[..end];
    if !scans::all_different(ids) {
        return None;
    }
    let each = logs_of(own, ids);
    fitted(own, id, ids, &each[..end], middle)
}

// The survey of a view whose counts, failures, records and ids are right, from our own id and its ids and log distances, of which the
// replacements' begin at `middle`.
fn fitted<'a>(
    own: [u8; 32],
    id: [u8; 32],
    ids: &'a [[u8; 32]],
    logs: &'a [u16],
    middle: usize,
) -> Option<Facts>
    requires { (1 ≤ middle) × (middle ≤ length ids.now) × (length logs.now ≡ length ids.now) }
    ensures { (v : View) → own ≡ v.own → ids.now ≡ ids_of v → logs.now ≡ logs_of own (ids_of v) → middle ≡ 1 + length v.entries
        → result ≡ cond (none_over 16 (entry_logs v) && none_over 4 (replacement_logs v) && each_full (entry_logs v) (replacement_logs v)) (Some (facts_of v id (log_distance_of v.own id))) None }
{
    let entries = &logs[1..middle];
    let replacements = &logs[middle..];
    if !rules::fit(entries, replacements) {
        return None;
    }
    let d = distance::log_distance(own, id);
    Some(told(
        own,
        id,
        d,
        &ids[1..middle],
        &ids[middle..],
        entries,
        replacements,
    ))
}

// What is known of an id at log distance d in a table that keeps its rules, from the ids and log distances of entries and replacements.
#[tactic(auto, using(crate::proofs::Passes::first_bytes))]
fn told<'a>(
    own: [u8; 32],
    id: [u8; 32],
    d: u16,
    entries: &'a [[u8; 32]],
    replacements: &'a [[u8; 32]],
    logs: &'a [u16],
    waiting: &'a [u16],
) -> Facts
    ensures { result
        ≡ record {
          own = same_bytes own id;
          entry = first_of same_bytes id entries.now;
          replacement = first_of same_bytes id replacements.now;
          entries = count_of d logs.now;
          replacements = count_of d waiting.now;
          oldest = first_of eqb d waiting.now;
          newest = last_of eqb d waiting.now;
        } }
{
    Facts {
        own: octets::same(&own, &id),
        entry: scans::place(entries, &id),
        replacement: scans::place(replacements, &id),
        entries: scans::count(logs, d),
        replacements: scans::count(waiting, d),
        oldest: scans::place(waiting, &d),
        newest: scans::last(waiting, d),
    }
}

// Our own id, then those of the entries and of the replacements.
fn ids_of<'a>(own: [u8; 32], entries: &'a [Entry], replacements: &'a [Contact]) -> [[u8; 32]; IDS]
    requires { (length entries.now ≤ 128) × (length replacements.now ≤ 16) }
    ensures { take (1 + length entries.now + length replacements.now) result ≡ ids_of (record { own = own; entries = entries.now; replacements = replacements.now }) }
{
    let mut ids = [own; IDS];
    let of_entry = |entry: &Entry| -> [u8; 32]
        ensures { result ≡ entry.now.contact.id }
    { entry.contact.id };
    let of_contact = |contact: &Contact| -> [u8; 32]
        ensures { result ≡ contact.now.id }
    { contact.id };
    lay(entries, of_entry, &mut ids, 1);
    lay(replacements, of_contact, &mut ids, 1 + entries.len());
    ids
}

// The log distance of each from our own id.
fn logs_of(own: [u8; 32], ids: &[[u8; 32]]) -> [u16; IDS]
    requires { length ids.now ≤ 145 }
    ensures { take (length ids.now) result ≡ logs_of own ids.now }
{
    let mut logs = [0; IDS];
    lay(ids, |id| distance::log_distance(own, *id), &mut logs, 0);
    logs
}

// Lays what is made of each item into the slots, from a place on.
fn lay<T, U: Copy, F: Fn(&T) -> U>(items: &[T], make: F, slots: &mut [U], at: usize)
    requires callable { F.IsAlwaysCallable make }
    requires room { at + length items.now ≤ length slots.old }
    ensures { (f : T → U) → ((x : T) (r : U) → FnReturnsAt F.Fn make x r → r ≡ f x)
        → slots.new ≡ take at slots.old ++ map f items.now ++ drop (at + length items.now) slots.old }
{
    for (i, item) in items.iter().enumerate() {
        slots[at + i] = make(item);
    }
}
