// The words of a line, which one space separates.
ghost use Rattle.std.specs.Prelude.{◌≡◌, ◌<◌, ◌≤◌, ◌↔◌, ℕ, List, [], ◌∷◌, length, MatchOption, MatchResult, IsOk, IfOk, count_by, ◌==◌, ◌+◌, take, drop, position, cond, leb};
ghost use Rattle.console_text.specs.Words.{word_end, words_of, left_of};

use crate::fault::Fault;
use hexadecimal::DecodeError;

// How many words a line may have.
pub const MOST: usize = 40;

// The words that are left of a line.
#[derive(Clone, Copy)]
pub struct Words<'a> {
    rest: &'a [u8],
    left: usize,
}

impl<'a> Words<'a> {
    // The words of a line. A line of more than 40 is no call.
    #[tactic(auto, using(crate::proofs::Cuts::length_words))]
    pub fn new(line: &'a [u8]) -> Result<Words<'a>, Fault>
        ensures { MatchResult result (λ w. left_of w ≡ words_of line.now) (λ _. 40 < length (words_of line.now)) }
    {
        let spaces = spaces(line);
        if MOST <= spaces {
            return Err(Fault::NoCall);
        }
        Ok(Words {
            rest: line,
            left: spaces + 1,
        })
    }

    // The next word.
    pub fn word(&mut self) -> Result<&'a [u8], Fault>
        ensures { MatchResult result (λ w. left_of self.old ≡ w.now ∷ left_of self.new) (λ _. left_of self.old ≡ []) }
    {
        self.next().ok_or(Fault::NoCall)
    }

    // No word is left.
    #[tactic(auto, using(crate::proofs::Cuts::none_left))]
    pub fn end(&self) -> Result<(), Fault>
        ensures { IsOk result ↔ (left_of self.now ≡ []) }
    {
        if 0 < self.left {
            return Err(Fault::NoCall);
        }
        Ok(())
    }

    // A word of N bytes.
    pub fn value<const N: usize>(&mut self) -> Result<[u8; N], Fault> {
        let mut bytes = [0u8; N];
        match hexadecimal::decode(self.word()?, &mut bytes) {
            Ok(n) if n == N => Ok(bytes),
            _ => Err(Fault::NoCall),
        }
    }

    // A word of any bytes, which are put at the start of a buffer.
    pub fn bytes<'b>(&mut self, data: &'b mut [u8]) -> Result<&'b [u8], Fault> {
        let n = decode(self.word()?, data)?;
        Ok(front(data, n))
    }

    // A word with a text in it, which is put at the start of a buffer: `|` stands for a line feed, and `-` alone for no text.
    pub fn text<'b>(&mut self, data: &'b mut [u8]) -> Result<&'b [u8], Fault> {
        let word = self.word()?;
        match word {
            b"" => Err(Fault::NoCall),
            b"-" => Ok(&[]),
            _ => unbarred(word, data).ok_or(Fault::NoCall),
        }
    }

    // A decimal number of 64 bits, with no zero in front.
    pub fn number(&mut self) -> Result<u64, Fault> {
        decimal(self.word()?).ok_or(Fault::NoCall)
    }
}

fn spaces(line: &[u8]) -> usize
    ensures { result ≡ count_by (λ c. c == 32) line.now }
{
    line.iter().filter(|c| **c == b' ').count()
}

// A text's first word, and the text behind it and a space.
fn cut(text: &[u8]) -> (&[u8], &[u8])
    ensures word { result.0.now ≡ take (word_end text.now) text.now }
    ensures rest { result.1.now ≡ drop (word_end text.now + 1) text.now }
{
    match space(text) {
        Some(n) => (&text[..n], &text[n + 1..]),
        None => (text, &[]),
    }
}

fn space(text: &[u8]) -> Option<usize>
    ensures { result ≡ position (λ c. c == 32) text.now }
{
    text.iter().position(|c| *c == b' ')
}

impl<'a> Iterator for Words<'a> {
    ghost use Rattle.console_text.specs.Words.{left_of};
    ghost use Rattle.std.specs.Iterator.{YieldsFirstBy, item_count};

    type Item = &'a [u8];

    ghost next_gives = { YieldsFirstBy (λ w. w.now) left_of };

    ghost remaining = { item_count left_of };

    #[tactic(auto, using(crate::proofs::Cuts::one_word))]
    fn next(&mut self) -> Option<&'a [u8]> {
        if self.left == 0 {
            return None;
        }
        let (word, rest) = cut(self.rest);
        self.rest = rest;
        self.left -= 1;
        Some(word)
    }
}

// The bytes that a word stands for, at the start of a buffer: lower-case hexadecimal, or `-` for none.
pub fn decode(word: &[u8], data: &mut [u8]) -> Result<usize, DecodeError> {
    match word {
        b"" => Err(DecodeError::NotHex),
        b"-" => Ok(0),
        _ => hexadecimal::decode(word, data),
    }
}

// A text with a line feed for each `|`.
fn unbarred<'b>(word: &[u8], data: &'b mut [u8]) -> Option<&'b [u8]> {
    let text = data.get_mut(..word.len())?;
    text.copy_from_slice(word);
    for c in text.iter_mut() {
        if *c == b'|' {
            *c = b'\n';
        }
    }
    Some(text)
}

fn decimal(word: &[u8]) -> Option<u64> {
    if word.is_empty() || word.len() > 1 && word[0] == b'0' {
        return None;
    }
    word.iter().try_fold(0u64, |n, c| {
        if !c.is_ascii_digit() {
            return None;
        }
        n.checked_mul(10)?.checked_add(u64::from(*c - b'0'))
    })
}

// The first n elements, or none where there are fewer.
pub fn front(s: &[u8], n: usize) -> &[u8]
    ensures { result.now ≡ cond (leb n (length s.now)) (take n s.now) [] }
{
    s.get(..n).unwrap_or(&[])
}

// The elements after the first n, or none where there are fewer.
pub fn back(s: &[u8], n: usize) -> &[u8]
    ensures { result.now ≡ drop n s.now }
{
    s.get(n..).unwrap_or(&[])
}
