// The console's calls on keys, ids and distances.
//
// A part of the program `console`: its functions are proved to be safe and to end, and what they answer is tested with the program.
#![tactic(auto)]

use console_text::buffers::Buffers;
use console_text::bytes::Answer;
use console_text::fault::Fault;
use console_text::shown::{Hex, yes_or_no};
use console_text::words::Words;

// id KEY
pub fn id(mut words: Words<'_>, buffers: &mut Buffers, out: &mut Answer) -> Result<(), Fault> {
    let key = words.bytes(&mut buffers.data)?;
    words.end()?;
    let id = content_key::content_id(key)?;
    out.line(format_args!("id {}", Hex(&id)));
    Ok(())
}

// distance A B
pub fn distance(mut words: Words<'_>, out: &mut Answer) -> Result<(), Fault> {
    let a = words.value::<32>()?;
    let b = words.value::<32>()?;
    words.end()?;
    let apart = distance::xor(a, b);
    let class = distance::log_distance(a, b);
    out.line(format_args!("distance {} class {class}", Hex(&apart)));
    Ok(())
}

// interested NODE RADIUS KEY
pub fn interested(
    mut words: Words<'_>,
    buffers: &mut Buffers,
    out: &mut Answer,
) -> Result<(), Fault> {
    let node = words.value::<32>()?;
    let radius = words.value::<32>()?;
    let key = words.bytes(&mut buffers.data)?;
    words.end()?;
    let interested = content_key::interested(node, radius, key)?;
    out.line(yes_or_no(interested));
    Ok(())
}

// asked DISTANCES CLASS
pub fn asked(mut words: Words<'_>, buffers: &mut Buffers, out: &mut Answer) -> Result<(), Fault> {
    let distances = words.bytes(&mut buffers.data)?;
    let class = u16::try_from(words.number()?)?;
    words.end()?;
    out.line(yes_or_no(distance::asked(distances, class)));
    Ok(())
}
