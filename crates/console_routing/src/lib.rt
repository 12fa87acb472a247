// The console's calls on the routing table.
//
// A part of the program `console`: its functions are proved to be safe and to end, and what they answer is tested with the program.
#![tactic(auto)]

use console_text::bytes::Answer;
use console_text::fault::Fault;
use console_text::shown::Hex;
use console_text::words::{Words, decode, front};
use hexadecimal::DecodeError;
use routing_calls::{Failure, Standing};
use routing_table::{Contact, Found, RECORD, RoutingTable};

// table OWN
pub fn table(
    table: &mut RoutingTable,
    mut words: Words<'_>,
    out: &mut Answer,
) -> Result<(), Fault> {
    let own = words.value::<32>()?;
    words.end()?;
    *table = RoutingTable::fresh(own);
    out.line("ok");
    Ok(())
}

// seen ID RADIUS IP PORT RECORD
pub fn seen(table: &mut RoutingTable, words: Words<'_>, out: &mut Answer) -> Result<(), Fault> {
    let contact = contact_of(words)?;
    match routing_calls::seen(table, contact)? {
        Standing::Entry => out.line("row"),
        Standing::Replacement => out.line("waiting"),
    }
    Ok(())
}

// The contact that the words name.
fn contact_of(mut words: Words<'_>) -> Result<Contact, Fault> {
    let id = words.value::<32>()?;
    let radius = words.value::<32>()?;
    let address = words.value::<4>()?;
    let port = u16::try_from(words.number()?)?;
    let mut enr = [0u8; RECORD];
    let len = record(words.word()?, &mut enr)?;
    words.end()?;
    Ok(Contact {
        id,
        radius,
        address,
        port,
        len,
        enr,
    })
}

// Puts the bytes of a node record into an array, and answers how many it has. Those of one that is too long are left out.
fn record(word: &[u8], enr: &mut [u8]) -> Result<usize, DecodeError> {
    match decode(word, enr) {
        Err(DecodeError::NoRoom) => Ok(word.len() / 2),
        decoded => decoded,
    }
}

// failed ID
pub fn failed(
    table: &mut RoutingTable,
    mut words: Words<'_>,
    out: &mut Answer,
) -> Result<(), Fault> {
    let id = words.value::<32>()?;
    words.end()?;
    match routing_calls::failed(table, id)? {
        Failure::Counted(n) => out.line(format_args!("counted {n}")),
        Failure::Flagged => out.line("flagged"),
        Failure::Replaced(by) => out.line(format_args!("replaced {}", Hex(&by))),
    }
    Ok(())
}

// rows
pub fn rows(table: &RoutingTable, words: Words<'_>, out: &mut Answer) -> Result<(), Fault> {
    words.end()?;
    out.say(format_args!("rows {}", table.count));
    for entry in table.entries.iter().take(table.count) {
        out.say(format_args!(" {}", Hex(&entry.contact.id)));
    }
    out.line("");
    Ok(())
}

// waiting
pub fn waiting(table: &RoutingTable, words: Words<'_>, out: &mut Answer) -> Result<(), Fault> {
    words.end()?;
    out.say(format_args!("waiting {}", table.waiting));
    for contact in table.replacements.iter().take(table.waiting) {
        out.say(format_args!(" {}", Hex(&contact.id)));
    }
    out.line("");
    Ok(())
}

// entry ID
pub fn entry(table: &RoutingTable, mut words: Words<'_>, out: &mut Answer) -> Result<(), Fault> {
    let id = words.value::<32>()?;
    words.end()?;
    match table.find(id)? {
        Some(Found::Entry(entry)) => {
            reach("row", &entry.contact, out);
            out.say(format_args!(" {}", entry.failures));
            node_record(&entry.contact, out);
        }
        Some(Found::Replacement(contact)) => {
            reach("waiting", &contact, out);
            node_record(&contact, out);
        }
        None => out.line("absent"),
    }
    Ok(())
}

// A word, and RADIUS IP PORT
fn reach(word: &str, contact: &Contact, out: &mut Answer) {
    let radius = Hex(&contact.radius);
    let address = Hex(&contact.address);
    out.say(format_args!("{word} {radius} {address} {}", contact.port));
}

// The record after a space, and the end of the line.
fn node_record(contact: &Contact, out: &mut Answer) {
    out.line(format_args!(" {}", Hex(front(&contact.enr, contact.len))));
}
