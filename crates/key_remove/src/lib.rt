// Removing a key from the index.
#![tactic(auto)]

ghost use Rattle.std.specs.Prelude.{◌-◌, ◌*◌, ◌≤◌, ◌<◌, ◌≡◌, length};
ghost use Rattle.key_index.specs.View.{key_limit, view, chunks};
ghost use Rattle.key_remove.specs.Remove.{without_at};
ghost use Rattle.key_remove.specs.Seek.{Seeks};
ghost use Rattle.key_remove.specs.Answer.{meaning_of, remove_for};

use key_index::{KeyIndex, WIDTH};
use refusal::Refusal;

// Removes the key that any bytes are. A refused call leaves the index as it is.
pub fn remove(index: &mut KeyIndex, bytes: &[u8]) -> Result<(), Refusal>
    ensures { meaning_of result index.new ≡ remove_for key_limit index.old bytes.now }
{
    let place = seek(index, bytes)?;
    without_at(&mut index.keys, place, index.count);
    index.count -= 1;
    Ok(())
}

// The tests of a remove call, in order: the place of the key.
fn seek(index: &KeyIndex, bytes: &[u8]) -> Result<usize, Refusal>
    ensures { Seeks key_limit (view index.now) bytes.now result }
{
    if !index.is_good() {
        return Err(Refusal::BadState);
    }
    let key = content_key::key(bytes)?;
    index.find(key).ok_or(Refusal::NotHeld)
}

// The keys behind a place go one place down. The last one's bytes are no longer in use.
fn without_at(keys: &mut [u8], place: usize, count: usize)
    requires place_lt_count { (place < count) × (count ≤ key_limit) }
    requires len { length keys.old ≡ 9 * key_limit }
    ensures { chunks (count - 1) keys.new ≡ without_at place (chunks count keys.old) }
{
    let at = place * WIDTH;
    keys.copy_within(at + WIDTH..count * WIDTH, at);
}
