// One line that names every call and its words.
use console_text::bytes::Answer;
use console_text::fault::Fault;
use console_text::words::Words;

// help
pub fn help(words: Words<'_>, out: &mut Answer) -> Result<(), Fault> {
    words.end()?;
    out.say("help: id KEY; distance A B; interested NODE RADIUS KEY; asked DISTANCES CLASS; ");
    out.say("content BYTES; read MESSAGE; ");
    message_calls(out);
    out.say("buffer N; fresh NODE CAP; store KEY CONTENT NEWEST; remove KEY; ");
    out.say("radius; keys; save; load TEXT; ");
    out.say("table OWN; seen ID RADIUS IP PORT RECORD; failed ID; rows; waiting; entry ID; ");
    out.say("own RECORD; lend CONNECTION CONTENT; reply MESSAGE; ");
    out.say("sha256 BYTES; roots BYTES; records BYTES; canonical NUMBER HASH PROOF; ");
    out.line("root; proof POSITION; help");
    Ok(())
}

// The calls that write messages.
fn message_calls(out: &mut Answer) {
    out.say("write ping RADIUS, write pong RADIUS, write findnode DISTANCES, ");
    out.say("write foundnodes TOTAL RECORD .., write findcontent KEY, ");
    out.say("write foundcontent CONNECTION CONTENT RECORD .., write offer KEY, ");
    out.say("write accept KEY, write store CONNECTION CONTENT; ");
}
