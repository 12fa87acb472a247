// What reading and writing a message share: an offset, how many things are present, distances that are all different, and good records.
#![tactic(auto)]

ghost use Rattle.std.specs.Prelude.{◌≤◌, ◌<◌, ◌≡◌, not, eqb, drop};
ghost use Rattle.message.specs.Records.{offset_of};
ghost use Rattle.message.specs.Rules.{all_different, same_bytes};
ghost use Rattle.message.specs.Reading.{records_of_places, PlacesInside};
ghost use Rattle.message_rules.specs.Good.{good_at, sizes_good, within, all_within};
ghost use Rattle.message_rules.specs.Things.{things_of};

use message::Places;

// The number of the four bytes from index `at` on, lightest first; bytes past the end count as 0.
pub fn offset(s: &[u8], at: usize) -> usize
    ensures { (result ≡ offset_of (drop at s.now)) × (result < 4294967296) }
{
    octets::le4(octets::part(s, at))
}

// How many are present of a connection id that is not zero, records, and content.
pub fn things(connection: [u8; 4], records: usize, content: usize) -> usize
    ensures { result ≡ things_of connection records content }
{
    usize::from(0 < octets::le4(connection)) + usize::from(0 < records) + usize::from(0 < content)
}

// No two bytes are equal: one pass, with a flag for each byte that was seen.
pub fn all_different(bytes: &[u8]) -> bool
    ensures { result ≡ all_different eqb bytes.now }
{
    let mut seen = [false; 256];
    for byte in bytes {
        let i = usize::from(*byte);
        if seen[i] {
            return false;
        }
        seen[i] = true;
    }
    true
}

// At most 32 records, each within the bytes, each of 1 to 300 bytes, and no two equal byte for byte.
pub fn good_records(bytes: &[u8], places: &Places) -> bool
    ensures { result ≡ good_at bytes.now places.now }
{
    let count = places.count;
    if 32 < count {
        return false;
    }
    let lens = &places.lens[..count];
    if !all_within(bytes, &places.starts[..count], lens) {
        return false;
    }
    sizes(lens) && !some_equal(bytes, places)
}

// As many starts as lengths, and every place within the bytes.
pub fn all_within(bytes: &[u8], starts: &[usize], lens: &[usize]) -> bool
    ensures { result ≡ all_within bytes.now starts.now lens.now }
{
    starts.len() == lens.len()
        && starts
            .iter()
            .zip(lens)
            .all(|(start, len)| within(bytes, *start, *len))
}

// A place lies within the bytes. No sum is made: it could wrap.
fn within(bytes: &[u8], start: usize, len: usize) -> bool
    ensures { result ≡ within bytes.now start len }
{
    start <= bytes.len() && len <= bytes.len() - start
}

// Every record has 1 to 300 bytes.
fn sizes(lens: &[usize]) -> bool
    ensures { result ≡ sizes_good lens.now }
{
    lens.iter().all(|len| (1..=300).contains(len))
}

// Two records are equal byte for byte: each is compared with those after it, and the first equal pair ends the search.
fn some_equal(bytes: &[u8], places: &Places) -> bool
    requires { PlacesInside bytes.now places.now }
    ensures { result ≡ not (all_different same_bytes (records_of_places bytes.now places.now)) }
{
    let mut found = false;
    // Kept: no plainer, a search over pairs; document 01 wants it nested, and left by a label.
    'pairs: for i in 0..places.count {
        for j in i + 1..places.count {
            let a = places.starts[i];
            let b = places.starts[j];
            if bytes[a..a + places.lens[i]] == bytes[b..b + places.lens[j]] {
                found = true;
                break 'pairs;
            }
        }
    }
    found
}
