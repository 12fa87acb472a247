// How values are shown in an answer: in pieces, since each call of a writer takes longer than a byte does.
ghost use Rattle.std.specs.Prelude.{◌≡◌, codes, if◌then◌else◌};

use crate::words::front;
use refusal::Refusal;
use std::fmt;

// Bytes as lower-case hexadecimal.
#[derive(Clone, Copy)]
pub struct Hex<'a>(pub &'a [u8]);

impl fmt::Display for Hex<'_> {
    fn fmt<W: fmt::Write>(&self, f: &mut fmt::Formatter<W>) -> fmt::Result {
        for piece in self.0.chunks(32) {
            let mut digits = [0u8; 64];
            hexadecimal::encode(piece, &mut digits, 0);
            write_ascii(front(&digits, 2 * piece.len()), f)?;
        }
        Ok(())
    }
}

// Keys as lower-case hexadecimal, a space in front of each.
#[derive(Clone, Copy)]
pub struct Keys<'a>(pub &'a [[u8; 9]]);

impl fmt::Display for Keys<'_> {
    fn fmt<W: fmt::Write>(&self, f: &mut fmt::Formatter<W>) -> fmt::Result {
        for keys in self.0.chunks(16) {
            let mut words = [[b' '; 19]; 16];
            for (word, key) in words.iter_mut().zip(keys) {
                hexadecimal::encode(key, word, 1);
            }
            write_ascii(front(words.as_flattened(), 19 * keys.len()), f)?;
        }
        Ok(())
    }
}

// Writes a text of ASCII characters as it is.
fn write_ascii<W: fmt::Write>(text: &[u8], f: &mut fmt::Formatter<W>) -> fmt::Result {
    match str::from_utf8(text) {
        Ok(text) => f.write_str(text),
        Err(_) => Err(fmt::Error),
    }
}

// Bytes in a word: `-` for none.
#[derive(Clone, Copy)]
pub struct Word<'a>(pub &'a [u8]);

impl fmt::Display for Word<'_> {
    fn fmt<W: fmt::Write>(&self, f: &mut fmt::Formatter<W>) -> fmt::Result {
        let bytes = self.0;
        if bytes.is_empty() {
            write!(f, "-")
        } else {
            write!(f, "{}", Hex(bytes))
        }
    }
}

// A snapshot's text, with `|` for each line feed.
#[derive(Clone, Copy)]
pub struct Bars<'a>(pub &'a [u8]);

impl fmt::Display for Bars<'_> {
    fn fmt<W: fmt::Write>(&self, f: &mut fmt::Formatter<W>) -> fmt::Result {
        for piece in self.0.chunks(256) {
            let mut text = [0u8; 256];
            for (to, c) in text.iter_mut().zip(piece) {
                *to = bar(*c);
            }
            write_bytes(front(&text, piece.len()), f)?;
        }
        Ok(())
    }
}

fn bar(c: u8) -> u8 {
    if c == b'\n' { b'|' } else { c }
}

// Writes each byte as the character of its number.
fn write_bytes<W: fmt::Write>(bytes: &[u8], f: &mut fmt::Formatter<W>) -> fmt::Result {
    if bytes.is_ascii() {
        return write_ascii(bytes, f);
    }
    for b in bytes {
        f.write_char(char::from(*b))?;
    }
    Ok(())
}

// A refusal by its number alone.
#[derive(Clone, Copy)]
pub struct Refused(pub Refusal);

impl fmt::Display for Refused {
    fn fmt<W: fmt::Write>(&self, f: &mut fmt::Formatter<W>) -> fmt::Result {
        write!(f, "refused {}", u8::from(self.0))
    }
}

// The answer to a question.
pub fn yes_or_no(yes: bool) -> &'static str
    ensures { result.now ≡ (if yes then codes "yes" else codes "no") }
{
    if yes { "yes" } else { "no" }
}
