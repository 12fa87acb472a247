// The key lister's lines: what is printed for each line of hexadecimal, from an input that arrives in parts.
//
// A line may have any length. Of a line that has begun only its first 18 characters are kept, with whether its length is odd or over
// 18 and whether a character was no digit.
#![tactic(auto)]

ghost use Rattle.std.specs.Prelude.{ℕ, ◌+◌, ◌≤◌, ◌≡◌, ◌||◌, not, List, [], ◌++◌, length, drop, take, ◌∷◌, ◌==◌, position};
ghost use Rattle.refusal.specs.Says.{says_of};
ghost use Rattle.refusal.specs.Outcome.{given, refusal, outcome_of};
ghost use Rattle.hexadecimal.specs.Digits.{value_of, is_digit, bytes_of};
ghost use Rattle.key_lines.specs.Lines.{printed_of, line_of, decoded_id, line_length, last_of, padded};
ghost use Rattle.key_lines.specs.State.{capped, Begun, Lists};

use refusal::Refusal;

// A line that has begun. Its fields are private: every value is one that `fresh` or `list` made, so it stands for some text.
#[derive(Clone, Copy)]
pub struct Line {
    first: [u8; 18],
    len: usize,
    bad: bool,
}

// What is printed: the first `len` bytes of `text`. Line feeds fill the rest.
// Kept: the text has no slice of its own, since edit other-filling and `padded` speak of the 65 places of the array.
#[derive(Clone, Copy)]
pub struct Printed {
    pub text: [u8; 65],
    pub len: usize,
}

impl Printed {
    // The bytes that are printed.
    pub fn line(&self) -> &[u8]
        ensures { result.now ≡ take self.now.len self.now.text }
    {
        let n = self.len.min(65);
        &self.text[..n]
    }
}

// How far a call of `list` came: the line that has begun, how much of the input was used, and how much of the buffer was written.
#[derive(Clone, Copy)]
pub struct Listed {
    pub line: Line,
    pub used: usize,
    pub written: usize,
}

// A line with no characters yet.
pub fn fresh() -> Line
    ensures { Begun result [] }
{
    Line {
        first: [0u8; 18],
        len: 0,
        bad: false,
    }
}

// Prints the lines that end in the input at the start of `out`, as far as there is room for a longest line.
pub fn list(line: Line, input: &[u8], out: &mut [u8]) -> Listed
    ensures { Lists line input.now out.old out.new result }
{
    let mut line = line;
    let mut at = 0;
    let mut written = 0;
    // Kept: no plainer, `at` goes by whole lines and `written` by what these print, until the input or the buffer ends.
    while at < input.len() {
        if out.len() - written < 65 {
            break;
        }
        let end = line_end(input, at);
        line = feed(line, &input[at..end]);
        at = end;
        if end < input.len() {
            let printed = finish(line);
            let shown = printed.line();
            octets::put(shown, out, written);
            written += shown.len();
            line = fresh();
            at = end + 1;
        }
    }
    Listed {
        line,
        used: at,
        written,
    }
}

// What is printed for a last line that no line feed ends: nothing where it has no characters.
#[tactic(auto, unfolding(crate::specs::Lines::padded))]
pub fn last(line: Line) -> Printed
    ensures by_index { (text : List ℕ) → Begun line text → result ≡ padded (last_of text) }
    ensures len_bound { result.len ≤ 65 }
{
    if line.len == 0 {
        return Printed {
            text: [b'\n'; 65],
            len: 0,
        };
    }
    finish(line)
}

// The index of the first line feed from `from` on, or the input's length.
fn line_end(input: &[u8], from: usize) -> usize
    requires { from ≤ length input.now }
    ensures { result ≡ from + line_length (drop from input.now) }
{
    match first_feed(&input[from..]) {
        Some(n) => from + n,
        None => input.len(),
    }
}

// The index of the first line feed.
fn first_feed(text: &[u8]) -> Option<usize>
    ensures { result ≡ position (λ c. c == 10) text.now }
{
    text.iter().position(|c| *c == b'\n')
}

// The line with more of its text.
fn feed(line: Line, part: &[u8]) -> Line
    ensures { (text : List ℕ) → Begun line text → Begun result (text ++ part.now) }
{
    // Kept: the line's parts go on apart, since a line that is changed in place is written to memory at each character.
    let mut first = line.first;
    let mut len = line.len;
    let mut bad = line.bad;
    for c in part {
        if len < 18 {
            first[len] = *c;
        }
        len = capped_more(len);
        bad = worse(bad, *c);
    }
    Line { first, len, bad }
}

// A length, capped, with one character more.
fn capped_more(len: usize) -> usize
    ensures { (n : ℕ) → len ≡ capped n → result ≡ capped (n + 1) }
{
    if len < 20 { len + 1 } else { 19 }
}

// Whether a character was no digit, with one character more.
fn worse(bad: bool, c: u8) -> bool
    ensures { result ≡ (bad || not (is_digit (value_of c))) }
{
    bad || hexadecimal::value(c).is_none()
}

// What is printed for the line.
fn finish(line: Line) -> Printed
    ensures by_index { (text : List ℕ) → Begun line text → result ≡ padded (line_of text) }
    ensures len_bound { result.len ≤ 65 }
{
    match content_id(line) {
        Ok(id) => id_line(id),
        Err(why) => refusal_line(why),
    }
}

// The content id of the key that the line is the text of.
fn content_id(line: Line) -> Result<[u8; 32], Refusal>
    ensures { (text : List ℕ) → Begun line text → outcome_of result ≡ decoded_id (bytes_of text) }
{
    if line.bad {
        return Err(Refusal::NotHex);
    }
    if line.len % 2 != 0 {
        return Err(Refusal::NotHex);
    }
    if line.len != 18 {
        return Err(Refusal::KeyLength);
    }
    let mut key = [0u8; 9];
    // Eighteen digits are nine bytes, so it is not refused.
    let _ = hexadecimal::decode(&line.first, &mut key);
    content_key::content_id(&key)
}

// An id's line.
fn id_line(id: [u8; 32]) -> Printed
    ensures value { result ≡ padded (printed_of (given id)) }
    ensures len_bound { result.len ≤ 65 }
{
    let mut text = [b'\n'; 65];
    hexadecimal::encode(&id, &mut text, 0);
    Printed { text, len: 65 }
}

// A refusal's line.
fn refusal_line(why: Refusal) -> Printed
    ensures value { result ≡ padded (printed_of (refusal (says_of why))) }
    ensures len_bound { result.len ≤ 65 }
{
    let mut text = [b'\n'; 65];
    text[..8].copy_from_slice(b"refused ");
    let n = u8::from(why);
    if n < 10 {
        text[8] = b'0' + n;
        return Printed { text, len: 10 };
    }
    text[8] = b'0' + n / 10;
    text[9] = b'0' + n % 10;
    Printed { text, len: 11 }
}
