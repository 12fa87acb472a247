// Writing the index's text into a buffer.
ghost use Rattle.std.specs.Prelude.{◌+◌, ◌≤◌, ◌<◌, ◌≡◌, ◌∷◌, length};
ghost use Rattle.refusal.specs.Buffer.{Writes};
ghost use Rattle.octets.specs.Buffer.{placed};
ghost use Rattle.key_index.specs.View.{key_limit, view};
ghost use Rattle.snapshot.specs.Text.{kind11, line_of, head_frame};
ghost use Rattle.snapshot.specs.Calls.{save_of};

use crate::{FIRST, LINE};
use key_index::KeyIndex;
use refusal::Refusal;

// Writes the index's text at the start of a buffer. Nothing is written on a refusal.
pub fn save(index: &KeyIndex, out: &mut [u8]) -> Result<usize, Refusal>
    ensures { Writes (save_of key_limit (view index.now) (length out.old)) result out.old out.new }
{
    if !index.is_good() {
        return Err(Refusal::BadState);
    }
    let size = FIRST + LINE * index.count;
    if out.len() < size {
        return Err(Refusal::ShortBuffer);
    }
    write_header(index.node, index.cap, index.count, out);
    let held = index.held();
    for (i, key) in held.iter().enumerate() {
        write_key(*key, out, FIRST + LINE * i);
    }
    Ok(size)
}

// Writes the first line at the start of a buffer.
fn write_header(node: [u8; 32], cap: [u8; 32], count: usize, out: &mut [u8])
    requires in_bounds { 135 ≤ length out.old }
    requires count_bound { count < 65536 }
    ensures { out.new ≡ placed out.old 0 (line_of (head_frame kind11 node cap count)) }
{
    let kind = [0x11u8];
    let held = (count as u16).to_le_bytes();
    hexadecimal::encode(&kind, out, 0);
    hexadecimal::encode(&node, out, 2);
    hexadecimal::encode(&cap, out, 66);
    hexadecimal::encode(&held, out, 130);
    out[134] = b'\n';
}

// Writes a key's line into a buffer from `at` on. Not inlined: the loop over the keys would be made of wide steps over sixteen of them, which
// take longer.
#[inline(never)]
fn write_key(key: [u8; 9], out: &mut [u8], at: usize)
    requires { at + 21 ≤ length out.old }
    ensures { out.new ≡ placed out.old at (line_of (2 ∷ key)) }
{
    let kind = [2u8];
    hexadecimal::encode(&kind, out, at);
    hexadecimal::encode(&key, out, at + 2);
    out[at + 20] = b'\n';
}
