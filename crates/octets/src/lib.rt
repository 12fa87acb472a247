// Bytes: the numbers that lists of them stand for, their order, and the small functions on them that several crates use.
#![tactic(auto)]

ghost use Rattle.std.specs.Prelude.{◌-◌, ◌<◌, ◌≡◌, reverse, length, drop, get_or};
ghost use Rattle.octets.specs.Bytes.{le};
ghost use Rattle.octets.specs.Equal.{same_bytes};
ghost use Rattle.octets.specs.Parts.{bytes_at};
ghost use Rattle.octets.specs.Buffer.{has_room, placed};

// The number of four bytes, lightest first.
// Kept: docs/DECISIONS.md names it, and three edits are about it.
pub fn le4(four: [u8; 4]) -> usize
    ensures { (result ≡ le four) × (result < 4294967296) }
{
    u32::from_le_bytes(four) as usize
}

// The bytes in the other order.
// By place: so 32 bytes are two shuffles, and with `reverse` 16 exchanges of single bytes.
pub fn reversed<const N: usize>(bytes: [u8; N]) -> [u8; N]
    ensures { result ≡ reverse bytes.entry }
{
    std::array::from_fn(
        |i|
            requires { i < N }
            ensures { result ≡ get_or bytes (N - 1 - i) 0 }
        { bytes[N - 1 - i] },
    )
}

// Whether two byte strings are equal.
// Kept: a loop and not `==`, so that edits first-byte-compared and shorter-is-same change a fact and not the form; where time matters, `==` compares.
pub fn same(a: &[u8], b: &[u8]) -> bool
    ensures { result ≡ same_bytes a.now b.now }
{
    if a.len() != b.len() {
        return false;
    }
    for i in 0..a.len() {
        if a[i] != b[i] {
            return false;
        }
    }
    true
}

// Puts bytes into a buffer from index `at` on, and answers true; or answers false and leaves the buffer as it is where they have no
// room there.
pub fn put(bytes: &[u8], out: &mut [u8], at: usize) -> bool
    ensures value { result ≡ has_room out.old at bytes.now }
    ensures out_after { out.new ≡ placed out.old at bytes.now }
{
    if out.len() < at {
        return false;
    }
    if out.len() - at < bytes.len() {
        return false;
    }
    // Kept: the archives for C need `memcpy` and `memset` alone, and with `copy_from_slice` they need `memmove` too.
    for (i, byte) in bytes.iter().enumerate() {
        out[at + i] = *byte;
    }
    true
}

// Fills a buffer with the bytes from index `from` on; those past the end are 0.
pub fn fill(bytes: &[u8], from: usize, out: &mut [u8])
    ensures { out.new ≡ bytes_at (length out.old) from bytes.now }
{
    let rest = behind(bytes, from);
    // Kept: by `copy_from_slice` and `fill` the archives for C would need `memmove`, and `header_bench` `memset`.
    for i in 0..out.len() {
        out[i] = byte(rest, i);
    }
}

// The byte at an index, and 0 past the end.
fn byte(bytes: &[u8], i: usize) -> u8
    ensures { result ≡ get_or bytes.now i 0 }
{
    if i < bytes.len() { bytes[i] } else { 0 }
}

// The bytes from an index on; none past the end.
fn behind(bytes: &[u8], from: usize) -> &[u8]
    ensures { result.now ≡ drop from bytes.now }
{
    if from < bytes.len() {
        &bytes[from..]
    } else {
        &[]
    }
}

// N bytes from index `from` on; those past the end are 0.
pub fn part<const N: usize>(bytes: &[u8], from: usize) -> [u8; N]
    ensures { result ≡ bytes_at N from bytes.now }
{
    if let Some(whole) = behind(bytes, from).first_chunk::<N>() {
        return *whole;
    }
    let mut part = [0u8; N];
    fill(bytes, from, &mut part);
    part
}
