// Content keys of the History Network: a key from any bytes, its block number, its content id, and the interest test.
#![tactic(auto)]

ghost use Rattle.std.specs.Prelude.{◌≡◌};
ghost use Rattle.refusal.specs.Outcome.{outcome_of};
ghost use Rattle.content_key.specs.Key.{block_of, key_of, key_id, content_id_of, interested_in};

use refusal::Refusal;

mod reversed_bytes;

// Any bytes as a key.
pub fn key(bytes: &[u8]) -> Result<[u8; 9], Refusal>
    ensures { outcome_of result ≡ key_of bytes.now }
{
    if bytes.len() != 9 {
        return Err(Refusal::KeyLength);
    }
    if 1 < bytes[0] {
        return Err(Refusal::KeySelector);
    }
    Ok(octets::part::<9>(bytes, 0))
}

// The block number of a key: the eight bytes after the selector, lightest first.
pub fn block(key: [u8; 9]) -> u64
    ensures { result ≡ block_of key }
{
    let low = octets::le4(octets::part::<4>(&key, 1));
    let high = octets::le4(octets::part::<4>(&key, 5));
    (low + 4294967296 * high) as u64
}

// The content id of a key: the two lightest bytes of the block number, heavier one first, then its six others, lightest first, each
// with its bits in reversed order. Why those six are 48 bits in reversed order: see `reversed_bytes`.
pub fn id(key: [u8; 9]) -> [u8; 32]
    ensures { result ≡ key_id key }
{
    let table = reversed_bytes::table();
    let mut id = [0u8; 32];
    id[0] = key[2];
    id[1] = key[1];
    id[2] = table[key[3] as usize];
    id[3] = table[key[4] as usize];
    id[4] = table[key[5] as usize];
    id[5] = table[key[6] as usize];
    id[6] = table[key[7] as usize];
    id[7] = table[key[8] as usize];
    id[31] = key[0];
    id
}

// The content id of any bytes as a key.
pub fn content_id(bytes: &[u8]) -> Result<[u8; 32], Refusal>
    ensures { outcome_of result ≡ content_id_of bytes.now }
{
    let nine = key(bytes)?;
    Ok(id(nine))
}

// Whether a node with this id and radius is interested in a key: its distance is at most the radius.
pub fn interested(node: [u8; 32], radius: [u8; 32], bytes: &[u8]) -> Result<bool, Refusal>
    ensures { outcome_of result ≡ interested_in node radius bytes.now }
{
    let nine = key(bytes)?;
    Ok(distance::within(node, id(nine), radius))
}
