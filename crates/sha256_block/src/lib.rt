// One block of SHA-256, as FIPS 180-4 has it: the schedule of 64 words, 64 rounds, and their sum with the state before.
#![tactic(auto)]

ghost use Rattle.std.specs.Prelude.{◌≡◌, ◌++◌, replicate, fold, zip};
ghost use Rattle.sha256_tables.specs.Tables.{round_words};
ghost use Rattle.sha256_block.specs.Block.{first_words, next_of, schedule, T1, T2, round, rounds, sums, compressed};

// The eight words that are carried from block to block, and the working variables of the rounds.
#[derive(Clone, Copy)]
pub struct State {
    pub a: u32,
    pub b: u32,
    pub c: u32,
    pub d: u32,
    pub e: u32,
    pub f: u32,
    pub g: u32,
    pub h: u32,
}

// The state after a block of 64 bytes. Bytes that the block lacks count as 0, and those behind the 64 do not count.
pub fn compress(state: State, block: &[u8]) -> State
    ensures { result ≡ compressed state block.now }
{
    let words = scheduled(block);
    let worked = all_rounds(state, &words);
    added(worked, state)
}

// The schedule: the words of the block, and 48 more, each from those before it.
fn scheduled(block: &[u8]) -> [u32; 64]
    ensures { result ≡ schedule block.now 48 }
{
    let mut words = opening(block);
    // Kept: no plainer, a word is made of four before it in the array that the loop writes.
    for n in 0..48 {
        words[n + 16] = next_word(words[n], words[n + 1], words[n + 9], words[n + 14]);
    }
    words
}

// The words of the block, and zeros in the places of the others. A short block is filled up first.
fn opening(block: &[u8]) -> [u32; 64]
    ensures { result ≡ first_words block.now 16 ++ replicate 48 0 }
{
    match block.first_chunk::<64>() {
        Some(whole) => opening_whole(whole),
        None => opening_whole(&octets::part::<64>(block, 0)),
    }
}

// The same of a whole block.
fn opening_whole(block: &[u8; 64]) -> [u32; 64]
    ensures { result ≡ first_words block.now 16 ++ replicate 48 0 }
{
    let mut words = [0u32; 64];
    for (t, four) in block.as_chunks::<4>().0.iter().enumerate() {
        words[t] = u32::from_be_bytes(*four);
    }
    words
}

// A word of the schedule, from the words 16, 15, 7 and 2 places before it.
fn next_word(w0: u32, w1: u32, w9: u32, w14: u32) -> u32
    ensures { result ≡ next_of w0 w1 w9 w14 }
{
    let small0 = w1.rotate_right(7) ^ w1.rotate_right(18) ^ w1 >> 3;
    let small1 = w14.rotate_right(17) ^ w14.rotate_right(19) ^ w14 >> 10;
    small1
        .wrapping_add(w9)
        .wrapping_add(small0)
        .wrapping_add(w0)
}

// The 64 rounds.
fn all_rounds(state: State, words: &[u32; 64]) -> State
    ensures { result ≡ rounds round_words words.now 0 state 64 }
{
    let constants = sha256_tables::round_words();
    let mut s = state;
    for (ks, ws) in constants
        .as_chunks::<8>()
        .0
        .iter()
        .zip(words.as_chunks::<8>().0)
    {
        s = eight_rounds(s, ks, ws);
    }
    s
}

// Eight rounds, with their constants and their words. The compiler writes these out one behind the other.
fn eight_rounds(state: State, constants: &[u32; 8], words: &[u32; 8]) -> State
    ensures { result ≡ fold (λ s p. round s p.0 p.1) state (zip constants.now words.now) }
{
    constants
        .iter()
        .zip(words)
        .fold(state, |s, (k, w)| one_round(s, *k, *w))
}

// One round, with its constant and its word.
fn one_round(s: State, k: u32, w: u32) -> State
    ensures { result ≡ round s k w }
{
    let t1 = first_sum(s, k, w);
    let t2 = second_sum(s);
    State {
        a: t1.wrapping_add(t2),
        b: s.a,
        c: s.b,
        d: s.c,
        e: s.d.wrapping_add(t1),
        f: s.e,
        g: s.f,
        h: s.g,
    }
}

// T1 of a round: h, e mixed with itself, f or g as the bits of e choose, the constant and the word.
fn first_sum(s: State, k: u32, w: u32) -> u32
    ensures { result ≡ T1 s k w }
{
    let turned = s.e.rotate_right(6) ^ s.e.rotate_right(11) ^ s.e.rotate_right(25);
    let chosen = s.e & s.f ^ !s.e & s.g;
    s.h.wrapping_add(turned)
        .wrapping_add(chosen)
        .wrapping_add(k)
        .wrapping_add(w)
}

// T2 of a round: a mixed with itself, and the majority of a, b and c.
fn second_sum(s: State) -> u32
    ensures { result ≡ T2 s }
{
    let turned = s.a.rotate_right(2) ^ s.a.rotate_right(13) ^ s.a.rotate_right(22);
    let most = s.a & s.b ^ s.a & s.c ^ s.b & s.c;
    turned.wrapping_add(most)
}

// The sums of two states, word by word.
fn added(s: State, r: State) -> State
    ensures { result ≡ sums s r }
{
    State {
        a: s.a.wrapping_add(r.a),
        b: s.b.wrapping_add(r.b),
        c: s.c.wrapping_add(r.c),
        d: s.d.wrapping_add(r.d),
        e: s.e.wrapping_add(r.e),
        f: s.f.wrapping_add(r.f),
        g: s.g.wrapping_add(r.g),
        h: s.h.wrapping_add(r.h),
    }
}
