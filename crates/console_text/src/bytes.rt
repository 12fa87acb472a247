// Bytes in a fixed place: a buffer with how many bytes it holds. Text is written into it as into any writer.
ghost use Rattle.std.specs.Prelude.{◌≡◌, ◌≤◌, ◌<◌, ◌+◌, List, ℕ, [], ◌++◌, length, take, MatchOption};

use crate::fault::Fault;
use std::fmt;
use std::fmt::Write;
use std::marker::Model;

// At most N bytes.
// Kept: no heap, so the bytes stand in an array with their number beside them; contracts see them as a list.
#[derive(Clone, Drop)]
pub struct Bytes<const N: usize> {
    bytes: [u8; N],
    len: usize,
}

impl<const N: usize> Model for Bytes<N> {
    ghost Value = { List ℕ };

    ghost view = { λ b. take b.len b.bytes };

    ghost invariant = { λ b. b.len ≤ N };
}

// An answer: the line of a reply may be longer than one that is read.
pub type Answer = Bytes<131072>;

impl<const N: usize> Bytes<N> {
    pub fn new() -> Bytes<N>
        ensures { result ≡ [] }
    {
        Bytes {
            bytes: [0; N],
            len: 0,
        }
    }

    pub fn as_slice(&self) -> &[u8]
        ensures { result.now ≡ self.now }
    {
        &self.bytes[..self.len]
    }

    pub fn clear(&mut self)
        ensures { self.new ≡ [] }
    {
        self.len = 0;
    }

    // Puts more bytes behind those that are held, or none of them where they have no room.
    pub fn extend(&mut self, more: &[u8]) -> Option<()>
        ensures { MatchOption result ((self.new ≡ self.old) × (N < length self.old + length more.now)) (λ _. self.new ≡ self.old ++ more.now) }
    {
        if N - self.len < more.len() {
            return None;
        }
        let end = self.len + more.len();
        let bytes = &mut self.bytes[..];
        bytes[self.len..end].copy_from_slice(more);
        self.len = end;
        Some(())
    }

    // Writes a text. What has no room is left out.
    pub fn say<D: fmt::Display + Drop>(&mut self, text: D) {
        let _ = self.write(text);
    }

    // Writes a text, and ends the line.
    pub fn line<D: fmt::Display + Drop>(&mut self, text: D) {
        let _ = self.writeln(text);
    }
}

// Bytes that have room.
impl<'a, const N: usize> TryFrom<&'a [u8]> for Bytes<N> {
    type Error = Fault;

    fn try_from(bytes: &'a [u8]) -> Result<Bytes<N>, Fault> {
        let mut held = Bytes::new();
        held.extend(bytes).ok_or(Fault::NoCall)?;
        Ok(held)
    }
}

impl<const N: usize> Write for Bytes<N> {
    fn write_str(&mut self, s: &str) -> fmt::Result {
        self.extend(s.as_bytes());
        Ok(())
    }
}
