// The console's calls on the key index.
//
// A part of the program `console`: its functions are proved to be safe and to end, and what they answer is tested with the program.
#![tactic(auto)]

use console_text::buffers::{Buffer, Buffers};
use console_text::bytes::Answer;
use console_text::fault::Fault;
use console_text::shown::{Bars, Hex, Keys};
use console_text::words::Words;
use key_index::KeyIndex;

// fresh NODE CAP
pub fn fresh(index: &mut KeyIndex, mut words: Words<'_>, out: &mut Answer) -> Result<(), Fault> {
    let node = words.value::<32>()?;
    let cap = words.value::<32>()?;
    words.end()?;
    *index = KeyIndex::fresh(node, cap);
    out.line("ok");
    Ok(())
}

// store KEY CONTENT NEWEST
pub fn store(
    index: &mut KeyIndex,
    mut words: Words<'_>,
    buffers: &mut Buffers,
    out: &mut Answer,
) -> Result<(), Fault> {
    let key = words.bytes(&mut buffers.spare)?;
    let content = words.bytes(&mut buffers.data)?;
    let newest = words.number()?;
    words.end()?;
    let stored = key_store::store(index, key, content, newest)?;
    let payload = stored.payload;
    out.say(format_args!("stored {} {}", payload.start, payload.len));
    if let Some(evicted) = stored.evicted {
        out.say(format_args!(" evicted {}", Hex(&evicted)));
    }
    out.line("");
    Ok(())
}

// remove KEY
pub fn remove(
    index: &mut KeyIndex,
    mut words: Words<'_>,
    buffers: &mut Buffers,
    out: &mut Answer,
) -> Result<(), Fault> {
    let key = words.bytes(&mut buffers.data)?;
    words.end()?;
    key_remove::remove(index, key)?;
    out.line("removed");
    Ok(())
}

// radius
pub fn radius(index: &KeyIndex, words: Words<'_>, out: &mut Answer) -> Result<(), Fault> {
    words.end()?;
    let radius = index.radius()?;
    out.line(format_args!("radius {}", Hex(&radius)));
    Ok(())
}

// keys
pub fn keys(index: &KeyIndex, words: Words<'_>, out: &mut Answer) -> Result<(), Fault> {
    words.end()?;
    out.line(format_args!("keys {}{}", index.count, Keys(index.held())));
    Ok(())
}

// save
pub fn save(
    index: &KeyIndex,
    words: Words<'_>,
    buffer: &mut Buffer,
    out: &mut Answer,
) -> Result<(), Fault> {
    words.end()?;
    let n = snapshot::save(index, buffer.lent())?;
    out.line(format_args!("saved {}", Bars(buffer.written(n))));
    Ok(())
}

// load TEXT
pub fn load(
    index: &mut KeyIndex,
    mut words: Words<'_>,
    buffers: &mut Buffers,
    out: &mut Answer,
) -> Result<(), Fault> {
    let text = words.text(&mut buffers.data)?;
    words.end()?;
    snapshot::reload(index, text)?;
    out.line("loaded");
    Ok(())
}
