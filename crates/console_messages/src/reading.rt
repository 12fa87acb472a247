// A message that was read, in words.
use console_text::bytes::Answer;
use console_text::shown::{Hex, Word};
use console_text::words::{back, front};
use message::{Part, Places, Reading};
use std::fmt;

pub fn tell(message: &[u8], reading: Reading, out: &mut Answer) {
    match reading {
        Reading::Ping { radius } => out.line(format_args!("ping {}", Hex(&radius))),
        Reading::Pong { radius } => out.line(format_args!("pong {}", Hex(&radius))),
        Reading::FindNode { distances } => {
            out.line(format_args!("findnode {}", Word(part(message, distances))))
        }
        Reading::FoundNodes { total, records } => {
            let records = Records { message, records };
            out.line(format_args!("foundnodes {total}{records}"))
        }
        _ => tell_content(message, reading, out),
    }
}

// The messages on content.
fn tell_content(message: &[u8], reading: Reading, out: &mut Answer) {
    match reading {
        Reading::FindContent { key } => {
            out.line(format_args!("findcontent {}", Word(part(message, key))))
        }
        Reading::FoundContent {
            connection,
            records,
            content,
        } => {
            let id = Hex(&connection);
            let content = Word(part(message, content));
            let records = Records { message, records };
            out.line(format_args!("foundcontent {id} {content}{records}"))
        }
        Reading::Offer { key } => out.line(format_args!("offer {}", Word(part(message, key)))),
        Reading::Accept { key } => out.line(format_args!("accept {}", Word(part(message, key)))),
        Reading::Store {
            connection,
            content,
        } => {
            let id = Hex(&connection);
            let content = Word(part(message, content));
            out.line(format_args!("store {id} {content}"))
        }
        _ => (),
    }
}

fn part(message: &[u8], part: Part) -> &[u8] {
    front(back(message, part.start), part.len)
}

// Each record of a message, after a space.
#[derive(Clone, Copy)]
struct Records<'a> {
    message: &'a [u8],
    records: Places,
}

impl fmt::Display for Records<'_> {
    fn fmt<W: fmt::Write>(&self, f: &mut fmt::Formatter<W>) -> fmt::Result {
        let places = self.records;
        let all = places.starts.iter().zip(places.lens.iter());
        for (start, len) in all.take(places.count) {
            let record = front(back(self.message, *start), *len);
            write!(f, " {}", Word(record))?;
        }
        Ok(())
    }
}
