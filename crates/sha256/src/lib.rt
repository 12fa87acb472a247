// SHA-256 of any bytes, as FIPS 180-4 has it.
#![tactic(auto)]

ghost use Rattle.std.specs.Prelude.{◌*◌, ◌/◌, ◌%◌, ◌≡◌, ◌++◌, length, take};
ghost use Rattle.octets.specs.Bytes.{be_bytes};
ghost use Rattle.sha256_tables.specs.Tables.{start_words};
ghost use Rattle.sha256.specs.Hash.{pad, state_of, after, words_of, word_bytes, sha256};
ghost use Rattle.sha256.specs.Ends.{begun};

use sha256_block::State;

// The hash of a message.
pub fn hash(message: &[u8]) -> [u8; 32]
    ensures { result ≡ sha256 message.now }
{
    let state = whole_blocks(message);
    digest(last_blocks(state, message))
}

// The state after the blocks that the message fills by itself.
fn whole_blocks(message: &[u8]) -> State
    ensures { result ≡ after (pad message.now) (length message.now / 64) }
{
    let mut state = start();
    for block in message.as_chunks::<64>().0 {
        state = sha256_block::compress(state, block);
    }
    state
}

// The state before the first block.
fn start() -> State
    ensures { result ≡ state_of start_words }
{
    let [a, b, c, d, e, f, g, h] = sha256_tables::start_words();
    State {
        a,
        b,
        c,
        d,
        e,
        f,
        g,
        h,
    }
}

// The state after the one or two blocks that end the padded message.
fn last_blocks(state: State, message: &[u8]) -> State
    requires { state ≡ after (pad message.now) (length message.now / 64) }
    ensures { result ≡ after (pad message.now) (length (pad message.now) / 64) }
{
    let rest = begun_block(message);
    let count = bit_count(message.len());
    if message.len() % 64 < 56 {
        let last = ended_block(rest, count);
        return sha256_block::compress(state, &last);
    }
    let next = sha256_block::compress(state, &rest);
    let last = ended_block([0u8; 64], count);
    sha256_block::compress(next, &last)
}

// The block that the message ends in: what it has behind its whole blocks, the first byte of the padding, and zeros.
fn begun_block(message: &[u8]) -> [u8; 64]
    ensures { result ≡ begun message.now }
{
    let rest = message.as_chunks::<64>().1;
    let mut block = [0u8; 64];
    octets::put(rest, &mut block, 0);
    block[rest.len()] = 128;
    block
}

// A block with the length for its last eight bytes.
fn ended_block(block: [u8; 64], count: [u8; 8]) -> [u8; 64]
    ensures { result ≡ take 56 block ++ count }
{
    let mut last = block;
    octets::put(&count, &mut last, 56);
    last
}

// How many bits n bytes are, as eight bytes, heaviest first. What does not fit these is lost, as the product wraps.
fn bit_count(n: usize) -> [u8; 8]
    ensures { result ≡ be_bytes 8 (8 * n) }
{
    (n as u64).wrapping_mul(8).to_be_bytes()
}

// The state as bytes.
fn digest(state: State) -> [u8; 32]
    ensures { result ≡ word_bytes (words_of state) }
{
    let State {
        a,
        b,
        c,
        d,
        e,
        f,
        g,
        h,
    } = state;
    let mut out = [0u8; 32];
    for (i, word) in [a, b, c, d, e, f, g, h].iter().enumerate() {
        octets::put(&word.to_be_bytes(), &mut out, 4 * i);
    }
    out
}
