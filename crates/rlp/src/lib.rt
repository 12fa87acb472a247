// The outer list of content: whether bytes are one RLP list that fills them, and where its payload stands.
#![tactic(auto)]

ghost use Rattle.std.specs.Prelude.{◌≤◌, ◌≡◌, length, take};
ghost use Rattle.refusal.specs.Outcome.{outcome_of};
ghost use Rattle.octets.specs.Bytes.{be};
ghost use Rattle.rlp.specs.Content.{long_header, header_in, begun, filled, content_of};

use refusal::Refusal;
use std::cmp::Ordering;

// Where a list's payload stands in its content.
#[derive(Clone, Copy, PartialEq, Eq)]
pub struct Payload {
    pub start: usize,
    pub len: usize,
}

// The place of the payload in acceptable content, or whether the content ends early or is wrong.
pub fn check(content: &[u8]) -> Result<Payload, Refusal>
    ensures { outcome_of result ≡ content_of content.now }
{
    let payload = header_in(content)?;
    filling(payload, content.len() - payload.start)
}

// A whole header with n bytes behind it. The length is compared and never added to a position, so no sum wraps.
fn filling(payload: Payload, n: usize) -> Result<Payload, Refusal>
    ensures { outcome_of result ≡ filled payload n }
{
    match n.cmp(&payload.len) {
        Ordering::Less => Err(Refusal::ContentEndsEarly),
        Ordering::Greater => Err(Refusal::Content),
        Ordering::Equal => Ok(payload),
    }
}

// The payload's place by the header that the content begins with: content with no header of a list in the shortest form is wrong, and a header
// that is not whole ends early.
#[tactic(auto, unfolding(crate::specs::Content::header_in))]
fn header_in(content: &[u8]) -> Result<Payload, Refusal>
    ensures { outcome_of result ≡ begun (header_in content.now) }
{
    let Some((first, rest)) = content.split_first() else {
        return Err(Refusal::Content);
    };
    if *first < 192 {
        return Err(Refusal::Content);
    }
    if *first <= 247 {
        return Ok(Payload {
            start: 1,
            len: usize::from(*first - 192),
        });
    }
    long_header(rest, usize::from(*first - 247))
}

// A header whose first byte asks for k length bytes, with what comes after that byte.
#[tactic(auto, unfolding(crate::specs::Content::long_header))]
fn long_header(rest: &[u8], k: usize) -> Result<Payload, Refusal>
    requires { k ≤ 8 }
    ensures { outcome_of result ≡ begun (long_header k rest.now) }
{
    let heaviest = rest.first().ok_or(Refusal::ContentEndsEarly)?;
    if *heaviest == 0 {
        return Err(Refusal::Content);
    }
    if rest.len() < k {
        return Err(Refusal::ContentEndsEarly);
    }
    let len = number(&rest[..k]);
    if len <= 55 {
        return Err(Refusal::Content);
    }
    Ok(Payload { start: 1 + k, len })
}

// The number that at most eight bytes stand for, heaviest first.
fn number(s: &[u8]) -> usize
    requires { length s.now ≤ 8 }
    ensures { result ≡ be s.now }
{
    let mut eight = [0u8; 8];
    eight[8 - s.len()..].copy_from_slice(s);
    u64::from_be_bytes(eight) as usize
}
