// Passes over ids and log distances.
ghost use Rattle.std.specs.Prelude.{◌≡◌, eqb};
ghost use Rattle.octets.specs.Equal.{same_bytes, all_different};
ghost use Rattle.routing_table.specs.Places.{first_of, last_of, count_of};

// Whether no two ids are equal.
pub(crate) fn all_different(ids: &[[u8; 32]]) -> bool
    ensures { result ≡ all_different same_bytes ids.now }
{
    let mut all = true;
    // Kept: speed, by index all pairs of 145 ids take 10.1 microseconds, by `enumerate` and `for` over a part 14.7.
    'pairs: for i in 0..ids.len() {
        for j in i + 1..ids.len() {
            if same_id(ids[i], ids[j]) {
                all = false;
                break 'pairs;
            }
        }
    }
    all
}

// Whether two ids are equal: two wide comparisons, so that the time does not depend on where they differ.
// Kept: edit last-byte-passed-over is about it.
fn same_id(a: [u8; 32], b: [u8; 32]) -> bool
    ensures { result ≡ same_bytes a b }
{
    a == b
}

// The first place of something.
pub(crate) fn place<T: PartialEq>(items: &[T], item: &T) -> Option<usize>
    ensures { result ≡ first_of T.eq item.now items.now }
{
    items.iter().position(|other| item == other)
}

// How often a log distance stands among others.
// Kept: speed, as a `for` 128 counts of 128 take 4.8 microseconds, by `filter` and `count` 13.1.
pub(crate) fn count(logs: &[u16], d: u16) -> usize
    ensures { result ≡ count_of d logs.now }
{
    let mut n = 0;
    for log in logs {
        if d == *log {
            n += 1;
        }
    }
    n
}

// The last place of a log distance.
pub(crate) fn last(logs: &[u16], d: u16) -> Option<usize>
    ensures { result ≡ last_of eqb d logs.now }
{
    logs.iter().rposition(|log| d == *log)
}
