// How the parts of a message are put into the buffer, one behind the other, once their size is tested.
ghost use Rattle.std.specs.Prelude.{◌+◌, ◌*◌, ◌≤◌, ◌≡◌, ◌++◌, length, sum};
ghost use Rattle.refusal.specs.Outcome.{outcome_of};
ghost use Rattle.refusal.specs.Buffer.{Writes};
ghost use Rattle.message.specs.Encode.{joined, list_bytes};
ghost use Rattle.message.specs.Reading.{records_of_places};
ghost use Rattle.message_write.specs.Write.{fitting};
ghost use Rattle.message_write.specs.Lent.{Small, Lendable};
ghost use Rattle.message_write.specs.Parts.{Put, sized, sum_to, offsets_to};

use crate::heads;
use message::Places;
use refusal::Refusal;

// The size of the list of these records.
pub(crate) fn list_size(records: &Places) -> usize
    requires { Small records.now }
    ensures { (result ≡ 4 * records.now.count + sum_to records.now.lens records.now.count) × (result ≤ 9728) }
{
    4 * records.count + total(&records.lens[..records.count])
}

fn total(lens: &[usize]) -> usize
    requires { sum lens.now ≤ 9600 }
    ensures { result ≡ sum lens.now }
{
    lens.iter().sum()
}

// The size of three parts: 2 for more than 1,280 bytes, then 13 for more than there is room for.
fn size_checked(head: usize, list: usize, rest: usize, room: usize) -> Result<usize, Refusal>
    requires { (head ≤ 13) × (list ≤ 9728) }
    ensures { outcome_of result ≡ sized (head + list + rest) room }
{
    if 1280 < rest {
        return Err(Refusal::LongMessage);
    }
    let size = head + list + rest;
    if 1280 < size {
        return Err(Refusal::LongMessage);
    }
    if room < size {
        return Err(Refusal::ShortBuffer);
    }
    Ok(size)
}

// Writes two parts one after the other.
pub(crate) fn write_two(head: &[u8], rest: &[u8], out: &mut [u8]) -> Result<usize, Refusal>
    requires { length head.now ≤ 13 }
    ensures { Writes (fitting (head.now ++ rest.now) (length out.old)) result out.old out.new }
{
    let whole = size_checked(head.len(), 0, rest.len(), out.len())?;
    octets::put(head, out, 0);
    octets::put(rest, out, head.len());
    Ok(whole)
}

// Writes a part, the list of the records at their places, and another part.
pub(crate) fn write_list(
    head: &[u8],
    bytes: &[u8],
    records: &Places,
    rest: &[u8],
    out: &mut [u8],
) -> Result<usize, Refusal>
    requires { (length head.now ≤ 13) × Lendable bytes.now records.now }
    ensures { Writes (fitting (head.now ++ list_bytes (records_of_places bytes.now records.now) ++ rest.now) (length out.old)) result out.old out.new }
{
    let list = list_size(records);
    let size = size_checked(head.len(), list, rest.len(), out.len())?;
    let at = head.len();
    octets::put(head, out, 0);
    put_offsets(records, out, at);
    put_records(bytes, records, out, at + 4 * records.count);
    octets::put(rest, out, at + list);
    Ok(size)
}

// Puts the offset of each record, counted from the list's start.
fn put_offsets(records: &Places, out: &mut [u8], at: usize)
    requires { Small records.now × (at + (4 * records.now.count + sum_to records.now.lens records.now.count) ≤ length out.old) }
    ensures { Put out.old at (offsets_to (4 * records.now.count) records.now.lens records.now.count) out.new }
{
    let mut next = 4 * records.count;
    for (i, len) in records.lens[..records.count].iter().enumerate() {
        octets::put(&heads::offset_bytes(next), out, at + 4 * i);
        next += *len;
    }
}

// Puts the records one after the other.
fn put_records(bytes: &[u8], records: &Places, out: &mut [u8], at: usize)
    requires { Lendable bytes.now records.now × (at + sum_to records.now.lens records.now.count ≤ length out.old) }
    ensures { Put out.old at (joined (records_of_places bytes.now records.now)) out.new }
{
    let lens = &records.lens[..records.count];
    let mut next = at;
    for (start, len) in records.starts[..records.count].iter().zip(lens) {
        octets::put(&bytes[*start..*start + *len], out, next);
        next += *len;
    }
}
