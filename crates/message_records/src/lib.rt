// The list of records in a message, for FoundNodes and FoundContent: its layout, the number of records, and the rules on them.
#![tactic(auto)]

ghost use Rattle.std.specs.Prelude.{◌+◌, ◌*◌, ◌^◌, ◌≤◌, ◌<◌, ◌≡◌, true, length};
ghost use Rattle.message.specs.Records.{offsets_of, ordered};
ghost use Rattle.message.specs.Report.{places_at};
ghost use Rattle.message_records.specs.Found.{RecordsIn};
ghost use Rattle.message_records.specs.Places.{laid_count, offset_at};

use message::Places;
use refusal::Refusal;

// The list of records that stands in the message from `base` up to `end`: 4 where there is no such part or its layout is broken, 5 for
// more than 32 records, 6 for a record of no bytes or of more than 300, or two that are equal.
pub fn read_records(message: &[u8], base: usize, end: usize) -> Result<Places, Refusal>
    ensures { RecordsIn message.now base end result }
{
    let Some(list) = message.get(base..end) else {
        return Err(Refusal::Layout);
    };
    let Some(count) = layout(list) else {
        return Err(Refusal::Layout);
    };
    if 32 < count {
        return Err(Refusal::TooManyItems);
    }
    let found = places(list, base, count);
    if !message_rules::good_records(message, &found) {
        return Err(Refusal::ItemRule);
    }
    Ok(found)
}

// The number of records of a list, if its layout is right. Every offset is examined.
fn layout(list: &[u8]) -> Option<usize>
    ensures { result ≡ laid_count list.now }
{
    if list.is_empty() {
        return Some(0);
    }
    let first = message_rules::offset(list, 0);
    if first < 4 || first % 4 != 0 || list.len() < first {
        return None;
    }
    let count = first / 4;
    if ordered(list, count) {
        Some(count)
    } else {
        None
    }
}

// No offset is smaller than the one before, and none passes the end.
fn ordered(list: &[u8], count: usize) -> bool
    requires { count < 2 ^ 62 }
    ensures { result ≡ ordered (length list.now) (offsets_of count list.now) }
{
    (0..count).all(|i| offset_at(list, count, i) <= offset_at(list, count, i + 1))
}

// The offset of a record, or past the last record the list's size, where the last one ends.
fn offset_at(list: &[u8], count: usize, i: usize) -> usize
    requires { count < 2 ^ 62 }
    ensures { result ≡ offset_at list.now count i }
{
    if i < count {
        message_rules::offset(list, 4 * i)
    } else {
        list.len()
    }
}

// Where each of at most 32 records is, in the bytes in which the list stands at `base`.
fn places(list: &[u8], base: usize, count: usize) -> Places
    requires count_few { count ≤ 32 }
    requires base_room { base + length list.now < 2 ^ 64 }
    requires in_order { ordered (length list.now) (offsets_of count list.now) ≡ true }
    ensures { result ≡ places_at base (length list.now) (offsets_of count list.now) }
{
    let mut starts = [0; 32];
    let mut lens = [0; 32];
    // Kept: no plainer, two offsets are read and a cell of two arrays is written at each turn.
    for i in 0..count {
        let start = offset_at(list, count, i);
        let next = offset_at(list, count, i + 1);
        starts[i] = base + start;
        lens[i] = next - start;
    }
    Places {
        count,
        starts,
        lens,
    }
}
