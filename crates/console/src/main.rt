// Every call of the libraries from a line of text: reads lines, and answers one line for each.
#![tactic(auto)]

mod calls;
mod help;

use calls::State;
use console_text::bytes::{Answer, Bytes};
use console_text::fault::Fault;
use std::io;
use std::io::Read;

// The console between two blocks of its input.
#[derive(Drop)]
struct Console {
    state: State,
    // The line that has begun, and whether it is longer than its buffer.
    line: Bytes<65536>,
    long: bool,
    out: Answer,
}

fn main(rt: HostRuntime) -> io::Result<()> {
    let mut console = Console {
        state: State::new(),
        line: Bytes::new(),
        long: false,
        out: Bytes::new(),
    };
    let mut input = [0u8; 65536];
    console.read_all(&rt, &mut rt.reader(), &mut input)?;
    if console.has_begun() {
        console.end_line(&rt)?;
    }
    Ok(())
}

impl Console {
    // Answers every line that ends, and keeps the one that the input leaves unended. Nothing says that an input ends, so the loop has a
    // limit, which no run reaches.
    fn read_all(
        &mut self,
        rt: &impl Print,
        reader: &mut impl Read,
        input: &mut [u8],
    ) -> io::Result<()> {
        for _ in 0..u64::MAX {
            let n = reader.read(input)?;
            if n == 0 {
                break;
            }
            self.read_block(rt, &input[..n])?;
        }
        Ok(())
    }

    // Takes a block of the input, line by line.
    fn read_block(&mut self, rt: &impl Print, block: &[u8]) -> io::Result<()> {
        for part in block.split_inclusive(|c| *c == b'\n') {
            match part.strip_suffix(b"\n") {
                Some(end) => {
                    self.go_on(end);
                    self.end_line(rt)?;
                }
                None => self.go_on(part),
            }
        }
        Ok(())
    }

    // The line with more characters.
    fn go_on(&mut self, part: &[u8]) {
        if self.line.extend(part).is_none() {
            self.long = true;
        }
    }

    // A line has begun, with at least one character.
    fn has_begun(&self) -> bool {
        self.long || !self.line.as_slice().is_empty()
    }

    // Answers the line, and begins the next.
    fn end_line(&mut self, rt: &impl Print) -> io::Result<()> {
        self.out.clear();
        if let Err(fault) = self.answer() {
            self.out.clear();
            self.out.line(fault);
        }
        self.line.clear();
        self.long = false;
        rt.write_all(self.out.as_slice())
    }

    // A line that is too long is no call.
    fn answer(&mut self) -> Result<(), Fault> {
        if self.long {
            return Err(Fault::NoCall);
        }
        self.state.answer(self.line.as_slice(), &mut self.out)
    }
}
