// The records that the caller lends: bytes, with a start and a length for each record.
ghost use Rattle.std.specs.Prelude.{◌≤◌, ◌≡◌, length};
ghost use Rattle.message.specs.Report.{in32};
ghost use Rattle.message_write.specs.Lent.{LentTo};

use message::Places;
use refusal::Refusal;

// The places of records that are lent: 4 for one that is not within the bytes, 5 for more than 32, 6 for a rule that they break.
pub(crate) fn lent_records(
    bytes: &[u8],
    starts: &[usize],
    lens: &[usize],
) -> Result<Places, Refusal>
    ensures { LentTo bytes.now starts.now lens.now result }
{
    if !message_rules::all_within(bytes, starts, lens) {
        return Err(Refusal::Layout);
    }
    let count = starts.len();
    if 32 < count {
        return Err(Refusal::TooManyItems);
    }
    let places = Places {
        count,
        starts: copied(starts),
        lens: copied(lens),
    };
    if !message_rules::good_records(bytes, &places) {
        return Err(Refusal::ItemRule);
    }
    Ok(places)
}

// At most 32 places, in an array.
fn copied(places: &[usize]) -> [usize; 32]
    requires { length places.now ≤ 32 }
    ensures { result ≡ in32 places.now }
{
    let mut to = [0usize; 32];
    to[..places.len()].copy_from_slice(places);
    to
}
