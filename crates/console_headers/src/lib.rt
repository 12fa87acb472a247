// The console's calls on pre-merge headers.
//
// A part of the program `console`: its functions are proved to be safe and to end, and what they answer is tested with the program.
#![tactic(auto)]

use console_text::buffers::{Buffer, Buffers};
use console_text::bytes::{Answer, Bytes};
use console_text::fault::Fault;
use console_text::shown::{Hex, yes_or_no};
use console_text::words::{Words, decode, front};

// What is lent to the calls: places for 2,049 epoch roots and for 8,193 records, one of each more than a call takes.
#[derive(Drop)]
pub struct Lists {
    roots: Bytes<65568>,
    records: Bytes<524352>,
}

impl Lists {
    // No root and no record.
    pub fn new() -> Lists {
        Lists {
            roots: Bytes::new(),
            records: Bytes::new(),
        }
    }
}

// sha256 BYTES
pub fn sha256(mut words: Words<'_>, buffers: &mut Buffers, out: &mut Answer) -> Result<(), Fault> {
    let bytes = words.bytes(&mut buffers.data)?;
    words.end()?;
    out.line(format_args!("hash {}", Hex(&sha256::hash(bytes))));
    Ok(())
}

// roots BYTES, or roots - for none
pub fn roots(
    lists: &mut Lists,
    words: Words<'_>,
    buffers: &mut Buffers,
    out: &mut Answer,
) -> Result<(), Fault> {
    lend(&mut lists.roots, words, buffers, out)
}

// records BYTES, or records - for none
pub fn records(
    lists: &mut Lists,
    words: Words<'_>,
    buffers: &mut Buffers,
    out: &mut Answer,
) -> Result<(), Fault> {
    lend(&mut lists.records, words, buffers, out)
}

// Puts the bytes of the line's word behind those of the list; `-` leaves nothing of the list.
fn lend<const N: usize>(
    list: &mut Bytes<N>,
    mut words: Words<'_>,
    buffers: &mut Buffers,
    out: &mut Answer,
) -> Result<(), Fault> {
    let word = words.word()?;
    words.end()?;
    match word {
        b"-" => list.clear(),
        _ => {
            let n = decode(word, &mut buffers.data)?;
            list.extend(front(&buffers.data, n)).ok_or(Fault::NoCall)?;
        }
    }
    out.line("ok");
    Ok(())
}

// canonical NUMBER HASH PROOF
pub fn canonical(
    lists: &Lists,
    mut words: Words<'_>,
    buffers: &mut Buffers,
    out: &mut Answer,
) -> Result<(), Fault> {
    let number = words.number()?;
    let hash = words.bytes(&mut buffers.data)?;
    let proof = words.bytes(&mut buffers.spare)?;
    words.end()?;
    let yes = canonical::canonical(number, hash, proof, lists.roots.as_slice())?;
    out.line(yes_or_no(yes));
    Ok(())
}

// root
pub fn root(
    lists: &Lists,
    words: Words<'_>,
    buffer: &mut Buffer,
    out: &mut Answer,
) -> Result<(), Fault> {
    words.end()?;
    let n = epoch_tree::root(lists.records.as_slice(), buffer.lent())?;
    out.line(format_args!("root {}", Hex(buffer.written(n))));
    Ok(())
}

// proof POSITION
pub fn proof(
    lists: &Lists,
    mut words: Words<'_>,
    buffer: &mut Buffer,
    out: &mut Answer,
) -> Result<(), Fault> {
    let position = words.number()?;
    words.end()?;
    let n = epoch_tree::proof(lists.records.as_slice(), position, buffer.lent())?;
    out.line(format_args!("proof {}", Hex(buffer.written(n))));
    Ok(())
}
