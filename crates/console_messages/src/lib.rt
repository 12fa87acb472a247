// The console's calls on content and messages.
//
// A part of the program `console`: its functions are proved to be safe and to end, and what they answer is tested with the program.
#![tactic(auto)]

mod reading;
mod writing;

use console_text::buffers::Buffers;
use console_text::bytes::Answer;
use console_text::fault::Fault;
use console_text::words::Words;
pub use writing::write;

// content BYTES
pub fn content(mut words: Words<'_>, buffers: &mut Buffers, out: &mut Answer) -> Result<(), Fault> {
    let content = words.bytes(&mut buffers.data)?;
    words.end()?;
    let payload = rlp::check(content)?;
    out.line(format_args!("accepted {} {}", payload.start, payload.len));
    Ok(())
}

// read MESSAGE
pub fn read(mut words: Words<'_>, buffers: &mut Buffers, out: &mut Answer) -> Result<(), Fault> {
    let message = words.bytes(&mut buffers.data)?;
    words.end()?;
    let reading = message_read::read(message)?;
    reading::tell(message, reading, out);
    Ok(())
}
