// Hands in routing tables that no call makes, broken ones and ones that differ in unused places only, and prints what each call answers.
#![tactic(auto)]

use console_text::shown::Refused;
use routing_calls::{Failure, Standing};
use routing_table::{Contact, Found, RECORD, RoutingTable};
use std::io;

fn main(rt: HostRuntime) -> io::Result<()> {
    show_counts(&rt)?;
    show_logs(&rt)?;
    show_ids(&rt)?;
    show_failures(&rt)?;
    show_records(&rt)?;
    show_unused(&rt)
}

fn show_counts(rt: &impl Print) -> io::Result<()> {
    let all = edge_tables::most();
    show(rt, "no contacts", &edge_tables::none())?;
    show(rt, "33 entries and 5 replacements", &edge_tables::some())?;
    show(rt, "128 entries and 16 replacements", &all)?;
    show(rt, "129 entries", &edge_tables::counted(all, 129, 16))?;
    show(
        rt,
        "the largest number of entries",
        &edge_tables::counted(all, usize::MAX, 16),
    )?;
    show(rt, "17 replacements", &edge_tables::counted(all, 128, 17))?;
    show(
        rt,
        "the largest number of replacements",
        &edge_tables::counted(all, 128, usize::MAX),
    )
}

fn show_logs(rt: &impl Print) -> io::Result<()> {
    let fifteen = edge_tables::entries(edge_tables::none(), 1, 15);
    let full = edge_tables::entries(edge_tables::none(), 1, 16);
    show(rt, "16 entries of one log distance", &full)?;
    show(
        rt,
        "17 entries of one log distance",
        &edge_tables::entries(edge_tables::none(), 1, 17),
    )?;
    show(
        rt,
        "4 replacements of one log distance",
        &edge_tables::replacements(full, 1, 20),
    )?;
    show(
        rt,
        "5 replacements of one log distance",
        &edge_tables::replacements(full, 1, 21),
    )?;
    show(
        rt,
        "a replacement where there are 15 entries",
        &edge_tables::replacement(fifteen, 1, 16),
    )?;
    show(
        rt,
        "a replacement alone",
        &edge_tables::replacement(edge_tables::none(), 1, 16),
    )
}

// Our own id among the replacements breaks another rule too: no other id has its log distance.
fn show_ids(rt: &impl Print) -> io::Result<()> {
    let some = edge_tables::some();
    show(
        rt,
        "two entries whose ids differ in one bit",
        &edge_tables::entry(some, 4, 1, 0),
    )?;
    show(
        rt,
        "two entries with one id",
        &edge_tables::entry(some, 4, 0, 0),
    )?;
    show(
        rt,
        "two replacements with one id",
        &edge_tables::replacement(some, 2, 16),
    )?;
    show(
        rt,
        "an entry and a replacement with one id",
        &edge_tables::replacement(some, 2, 3),
    )?;
    show(
        rt,
        "our own id among the entries",
        &edge_tables::entry(some, 0, 0, 0),
    )?;
    show(
        rt,
        "our own id among the replacements",
        &edge_tables::replacement(some, 0, 0),
    )
}

fn show_failures(rt: &impl Print) -> io::Result<()> {
    let some = edge_tables::some();
    show(rt, "3 failures", &edge_tables::entry(some, 4, 1, 3))?;
    show(rt, "4 failures", &edge_tables::entry(some, 4, 1, 4))?;
    show(rt, "255 failures", &edge_tables::entry(some, 4, 1, 255))?;
    show(
        rt,
        "4 failures of the first entry",
        &edge_tables::entry(edge_tables::entry(edge_tables::none(), 4, 1, 4), 1, 0, 0),
    )
}

fn show_records(rt: &impl Print) -> io::Result<()> {
    let none = edge_tables::none();
    let full = edge_tables::entries(none, 1, 16);
    show_record(
        rt,
        "an entry with a record of 1 byte",
        "a replacement with a record of 1 byte",
        1,
    )?;
    show_record(
        rt,
        "an entry with a record of 300 bytes",
        "a replacement with a record of 300 bytes",
        300,
    )?;
    show_record(
        rt,
        "an entry with a record of no bytes",
        "a replacement with a record of no bytes",
        0,
    )?;
    show_record(
        rt,
        "an entry with a record of 301 bytes",
        "a replacement with a record of 301 bytes",
        301,
    )?;
    show_record(
        rt,
        "an entry with a record of the largest length",
        "a replacement with a record of the largest length",
        usize::MAX,
    )?;
    show(
        rt,
        "a record of no bytes in the first entry",
        &edge_tables::entry(
            edge_tables::entry_of(none, edge_tables::sized(4, 1, 0), 0),
            1,
            0,
            0,
        ),
    )?;
    show(
        rt,
        "a record of no bytes in the first replacement",
        &edge_tables::replacement(
            edge_tables::replacement_of(full, edge_tables::sized(1, 16, 0)),
            1,
            17,
        ),
    )
}

// A table with an entry more, and one with a replacement more, whose record has so many bytes.
fn show_record(rt: &impl Print, entry: &str, replacement: &str, len: usize) -> io::Result<()> {
    let some = edge_tables::some();
    show(
        rt,
        entry,
        &edge_tables::entry_of(some, edge_tables::sized(4, 1, len), 0),
    )?;
    show(
        rt,
        replacement,
        &edge_tables::replacement_of(some, edge_tables::sized(2, 17, len)),
    )
}

fn show_unused(rt: &impl Print) -> io::Result<()> {
    let some = edge_tables::some();
    show(
        rt,
        "unused: the ids of an entry and of a replacement",
        &edge_tables::unused(edge_tables::replacement(edge_tables::entry(some, 1, 0, 0), 1, 16)),
    )?;
    show(
        rt,
        "unused: our own id",
        &edge_tables::unused(edge_tables::replacement(edge_tables::entry(some, 0, 0, 0), 0, 0)),
    )?;
    show(
        rt,
        "unused: 255 failures",
        &edge_tables::unused(edge_tables::entry(some, 4, 1, 255)),
    )?;
    show(
        rt,
        "unused: records of no bytes",
        &edge_tables::unused(edge_tables::one_more(some, 0)),
    )?;
    show(
        rt,
        "unused: records of the largest length",
        &edge_tables::unused(edge_tables::one_more(some, usize::MAX)),
    )?;
    show(
        rt,
        "unused: a 17th entry and a 5th replacement of one log distance",
        &edge_tables::unused(edge_tables::replacement(edge_tables::entry(some, 1, 20, 0), 1, 21)),
    )?;
    show(
        rt,
        "unused: 128 entries and 16 replacements",
        &edge_tables::counted(edge_tables::most(), 0, 0),
    )
}

// Prints what the calls answer on the table.
fn show(rt: &impl Print, name: &str, table: &RoutingTable) -> io::Result<()> {
    println!(rt; "{name}")?;
    show_found(rt, table)?;
    show_seen(rt, "a newcomer", table, edge_tables::contact(4, 200))?;
    show_seen(rt, "a stranger", table, edge_tables::contact(200, 200))?;
    show_seen(rt, "a neighbour", table, edge_tables::contact(0, 200))?;
    show_seen(rt, "our own id", table, edge_tables::contact(0, 0))?;
    show_misfits(rt, table)?;
    show_failed(rt, "the first", table, 1, 0)?;
    show_failed(rt, "our own id", table, 0, 0)?;
    show_failed(rt, "a stranger", table, 200, 200)
}

// Sightings whose record does not fit.
fn show_misfits(rt: &impl Print, table: &RoutingTable) -> io::Result<()> {
    show_seen(
        rt,
        "our own id with a record of the largest length",
        table,
        edge_tables::sized(0, 0, usize::MAX),
    )?;
    show_seen(
        rt,
        "a newcomer with a record of no bytes",
        table,
        edge_tables::sized(4, 200, 0),
    )
}

// What is found, with whether it has a contact's fields, and how many failures.
fn show_found(rt: &impl Print, table: &RoutingTable) -> io::Result<()> {
    print!(rt; "  find the first: ")?;
    match table.find(edge_tables::id(1, 0)) {
        Ok(Some(Found::Entry(entry))) => {
            let fields = fields(&entry.contact);
            println!(rt; "{fields}, failures {}, row", entry.failures)
        }
        Ok(Some(Found::Replacement(contact))) => {
            println!(rt; "{}, failures 0, waiting", fields(&contact))
        }
        Ok(None) => println!(rt; "zeros, failures 0, absent"),
        Err(why) => println!(rt; "zeros, failures 0, {}", Refused(why)),
    }
}

// Whether a contact has nothing but zeros.
fn fields(contact: &Contact) -> &'static str {
    let zeros = Contact {
        id: [0; 32],
        radius: [0; 32],
        address: [0; 4],
        port: 0,
        len: 0,
        enr: [0; RECORD],
    };
    if *contact == zeros { "zeros" } else { "fields" }
}

fn show_seen(
    rt: &impl Print,
    name: &str,
    table: &RoutingTable,
    contact: Contact,
) -> io::Result<()> {
    let mut next = *table;
    let seen = routing_calls::seen(&mut next, contact);
    print!(rt; "  seen {name}: {}", kept(*table == next))?;
    match seen {
        Ok(Standing::Entry) => println!(rt; "row"),
        Ok(Standing::Replacement) => println!(rt; "waiting"),
        Err(why) => println!(rt; "{}", Refused(why)),
    }
}

fn show_failed(rt: &impl Print, name: &str, table: &RoutingTable, a: u8, b: u8) -> io::Result<()> {
    let mut next = *table;
    let failed = routing_calls::failed(&mut next, edge_tables::id(a, b));
    print!(rt; "  failed {name}: {}", kept(*table == next))?;
    match failed {
        Ok(Failure::Counted(n)) => println!(rt; "counted {n}"),
        Ok(Failure::Flagged) => println!(rt; "flagged"),
        Ok(Failure::Replaced(_)) => println!(rt; "replaced"),
        Err(why) => println!(rt; "{}", Refused(why)),
    }
}

// Whether the table handed back is the one handed in, byte for byte.
fn kept(same: bool) -> &'static str {
    if same {
        "the very table, "
    } else {
        "another table, "
    }
}
