// Lower-case hexadecimal digits, both ways.
#![tactic(auto)]

ghost use Rattle.std.specs.Prelude.{◌<◌, ◌≡◌, true, ◌&&◌, fold};
ghost use Rattle.hexadecimal.specs.Digits.{digit_of, value_of, text_of, is_digit, number_of, all_digits};
ghost use Rattle.octets.specs.Buffer.{has_room};
ghost use Rattle.hexadecimal.specs.Buffer.{encoded_to, decoded_of, filled_of};

// The number that a character stands for, if it is a digit.
#[tactic(auto, using(std::proofs::lemmas::Bool::Decides::nat_tests), unfolding(crate::specs::Digits::value_of))]
pub fn value(c: u8) -> Option<u8>
    ensures { result ≡ value_of c }
{
    // Kept: no `match` on ranges, which goes by branches that no machine foresees.
    if b'0' <= c && c <= b'9' {
        Some(c - b'0')
    } else if b'a' <= c && c <= b'f' {
        Some(c - (b'a' - 10))
    } else {
        None
    }
}

// Writes the bytes as text into out from index `at` on, and answers true; or answers false and leaves out as it
// is where the text has no room there.
pub fn encode(bytes: &[u8], out: &mut [u8], at: usize) -> bool
    ensures value { result ≡ has_room out.old at (text_of bytes.now) }
    ensures out_after { out.new ≡ encoded_to bytes.now out.old at }
{
    if out.len() < at {
        return false;
    }
    if (out.len() - at) / 2 < bytes.len() {
        return false;
    }
    for (i, b) in bytes.iter().enumerate() {
        out[at + 2 * i] = glyph(b / 16);
        out[at + 2 * i + 1] = glyph(b % 16);
    }
    true
}

// Why a text gives no bytes.
#[derive(Clone, Copy, PartialEq, Eq)]
pub enum DecodeError {
    // An odd number of digits, or another character.
    NotHex,
    // More bytes than the buffer has room for.
    NoRoom,
}

// Puts the bytes that the text stands for at the start of out, and answers how many. An error leaves out as it is.
pub fn decode(text: &[u8], out: &mut [u8]) -> Result<usize, DecodeError>
    ensures value { result ≡ decoded_of text.now out.old }
    ensures out_after { out.new ≡ filled_of text.now out.old }
{
    // All tests come before the first store.
    let (pairs, rest) = text.as_chunks::<2>();
    if !rest.is_empty() {
        return Err(DecodeError::NotHex);
    }
    if !all_digits(text) {
        return Err(DecodeError::NotHex);
    }
    if out.len() < pairs.len() {
        return Err(DecodeError::NoRoom);
    }
    for (i, [high, low]) in pairs.iter().enumerate() {
        out[i] = number(*high) * 16 + number(*low);
    }
    Ok(pairs.len())
}

// Whether every character is a digit. No character ends the pass, so that many can be tested at once.
fn all_digits(text: &[u8]) -> bool
    ensures { result ≡ fold (λ all c. all && is_digit (value_of c)) true text.now }
{
    text.iter().fold(true, |all, c| all & is_digit(*c))
}

// Whether a character is a digit, with no branch.
fn is_digit(c: u8) -> bool
    ensures { result ≡ is_digit (value_of c) }
{
    let decimal = (b'0' <= c) & (c <= b'9');
    let letter = (b'a' <= c) & (c <= b'f');
    decimal | letter
}

// The number that a digit stands for.
fn number(c: u8) -> u8
    requires { is_digit (value_of c) ≡ true }
    ensures { (result ≡ number_of (value_of c)) × (result < 16) }
{
    if c <= b'9' { c - b'0' } else { c - (b'a' - 10) }
}

// The digit for a number below 16.
#[tactic(auto, using(std::proofs::lemmas::Bool::Decides::nat_tests))]
fn glyph(n: u8) -> u8
    requires { n < 16 }
    ensures { result ≡ digit_of n }
{
    if n < 10 { b'0' + n } else { b'a' - 10 + n }
}
