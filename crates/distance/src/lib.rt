// Distances between 32-byte values: exclusive or, order heaviest byte first, a radius, the log distance and what asks for it.
//
// Ids, radii and distances are arrays of 32 bytes by value, the first byte heaviest.
#![tactic(auto)]

ghost use Rattle.std.specs.Prelude.{◌≡◌, leb, eqb, not, position};
ghost use Rattle.octets.specs.Bytes.{be};
ghost use Rattle.distance.specs.Distance.{xor_of, within_of, log_distance_of, asked_of};

// The exclusive or of two values: their distance.
pub fn xor(a: [u8; 32], b: [u8; 32]) -> [u8; 32]
    ensures { result ≡ xor_of a b }
{
    std::array::from_fn(|i| a[i] ^ b[i])
}

// Whether a is at most b, as numbers.
// Kept: speed, a store on 3,000 keys takes 55 microseconds, and 112 to 121 with `a <= b` on the arrays.
pub fn at_most(a: [u8; 32], b: [u8; 32]) -> bool
    ensures { result ≡ leb (be a) (be b) }
{
    for (x, y) in a.iter().zip(&b) {
        if x != y {
            return x < y;
        }
    }
    true
}

// Whether the distance of id from node is at most the radius.
pub fn within(node: [u8; 32], id: [u8; 32], radius: [u8; 32]) -> bool
    ensures { result ≡ within_of node id radius }
{
    at_most(xor(node, id), radius)
}

// The bit length of the distance: 0 for equal ids, 1 for distance 1, up to 256. The first byte that is not 0 gives it: of the bits from that
// byte on, all count but its leading zeros.
pub fn log_distance(a: [u8; 32], b: [u8; 32]) -> u16
    ensures { result ≡ log_distance_of a b }
{
    let d = xor(a, b);
    match first_set(&d) {
        Some(at) => 256 - 8 * at as u16 - d[at].leading_zeros() as u16,
        None => 0,
    }
}

// The place of the first byte that is not 0.
fn first_set(d: &[u8]) -> Option<usize>
    ensures { result ≡ position (λ x. not (eqb x 0)) d.now }
{
    d.iter().position(|x| *x != 0)
}

// Whether the distances of a FindNode ask for a log distance. Each is one byte, so 256 is never asked for.
pub fn asked(distances: &[u8], log: u16) -> bool
    ensures { result ≡ asked_of distances.now log }
{
    match u8::try_from(log) {
        Ok(log) => distances.contains(&log),
        Err(_) => false,
    }
}
